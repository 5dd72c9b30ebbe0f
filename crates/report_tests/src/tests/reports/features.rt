use super::{BOUND, Outcome, READ, Table};

// Two equal facts, which `none` does not allow.
const REPEATED: &str =
    r#"},"facts":{"a":{"value":"1","dimensions":{"concept":"eg:A"}},"b":{"value":"1","dimensions":{"concept":"eg:A"}}}}"#;

const DECLARED: &str =
    r#"{"documentInfo":{"documentType":"https://xbrl.org/2021/xbrl-json","namespaces":{"eg":"http://example.org/t","xbrl":"https://xbrl.org/2021"},"features":{"xbrl:allowedDuplicates":"#;

pub(super) const TABLES: &[Table<Outcome>] = &[
    // a declared level is one of four texts
    Table {
        start: r#"{"documentInfo":{"documentType":"https://xbrl.org/2021/xbrl-json","namespaces":{"xbrl":"https://xbrl.org/2021"},"features":{"xbrl:allowedDuplicates":"#,
        rows: &[
            (
                READ,
                &[r#""none""#, r#""complete""#, r#""consistent""#, r#""all""#],
            ),
            (
                (8, 0),
                &[
                    r#""""#,
                    r#""None""#,
                    r#""all ""#,
                    r#""some""#,
                    "null",
                    "0",
                    r#"["none"]"#,
                ],
            ),
        ],
        end: "}}}",
    },
    // the feature is recognised by the URI of its prefix
    Table {
        start: r#"{"documentInfo":{"documentType":"https://xbrl.org/2021/xbrl-json","namespaces":{"eg":"http://example.org/t","#,
        rows: &[
            (
                (31, 0),
                &[
                    r#""y":"https://xbrl.org/2021"},"features":{"y:allowedDuplicates":"none"}"#,
                    r#""xbrl":"https://xbrl.org/2021"},"features":{"xbrl:allowedDuplicates":"none"}"#,
                ],
            ),
            (
                READ,
                &[
                    r#""y":"https://xbrl.org/2021"},"features":{"xbrl:allowedDuplicates":"none"}"#,
                    r#""xbrl":"http://example.org/u"},"features":{"xbrl:allowedDuplicates":"none"}"#,
                    r#""xbrl":"https://xbrl.org/2021/"},"features":{"xbrl:allowedDuplicates":"none"}"#,
                ],
            ),
        ],
        end: REPEATED,
    },
    // other features are ignored
    Table {
        start: BOUND,
        rows: &[(
            READ,
            &[
                r#","features":{}"#,
                r#","features":{"x:allowedDuplicates":"none"}"#,
                r#","features":{"q:allowedDuplicates":7}"#,
                r#","features":{"allowedDuplicates":7,":allowedDuplicates":7,"":7}"#,
                r#","features":{"xbrl:allowedDuplicates:":7}"#,
                r#","features":{"xbrl:alloweddDuplicates":"none"}"#,
                r#","features":{"xbrl:allowedDuplicates":"all","x:allowedDuplicates":"none"}"#,
                r#","features":{"xbrl":"none","xbrl:":"none"}"#,
            ],
        )],
        end: REPEATED,
    },
    // the feature must not be declared under two prefixes
    Table {
        start: r#"{"documentInfo":{"documentType":"https://xbrl.org/2021/xbrl-json","namespaces":{"xbrl":"https://xbrl.org/2021","y":"https://xbrl.org/2021"},"features":{"#,
        rows: &[
            (
                (8, 0),
                &[
                    r#""xbrl:allowedDuplicates":"all","y:allowedDuplicates":"all""#,
                    r#""xbrl:allowedDuplicates":"all","y:allowedDuplicates":"none""#,
                    r#""xbrl:allowedDuplicates":"all","y:allowedDuplicates":7"#,
                ],
            ),
            (READ, &[r#""y:allowedDuplicates":"all""#]),
        ],
        end: "}}}",
    },
    // equal facts need `complete` or a looser level
    Table {
        start: DECLARED,
        rows: &[
            ((31, 0), &[r#""none""#]),
            (READ, &[r#""complete""#, r#""consistent""#, r#""all""#]),
        ],
        end: r#"}},"facts":{"a":{"value":"1","decimals":0,"dimensions":{"concept":"eg:A"}},"b":{"value":"1","decimals":0,"dimensions":{"concept":"eg:A"}}}}"#,
    },
    // unequal facts whose values meet need `consistent` or `all`
    Table {
        start: DECLARED,
        rows: &[
            ((31, 0), &[r#""none""#, r#""complete""#]),
            (READ, &[r#""consistent""#, r#""all""#]),
        ],
        end: r#"}},"facts":{"a":{"value":"1","decimals":0,"dimensions":{"concept":"eg:A"}},"b":{"value":"1","dimensions":{"concept":"eg:A"}}}}"#,
    },
    // facts whose values do not meet need `all`
    Table {
        start: DECLARED,
        rows: &[
            ((31, 0), &[r#""none""#, r#""complete""#, r#""consistent""#]),
            (READ, &[r#""all""#]),
        ],
        end: r#"}},"facts":{"a":{"value":"1","dimensions":{"concept":"eg:A"}},"b":{"value":null,"dimensions":{"concept":"eg:A"}}}}"#,
    },
    // facts without duplicates satisfy every level
    Table {
        start: DECLARED,
        rows: &[(
            READ,
            &[r#""none""#, r#""complete""#, r#""consistent""#, r#""all""#],
        )],
        end: r#"}},"facts":{"a":{"value":"1","dimensions":{"concept":"eg:A"}},"b":{"value":"1","dimensions":{"concept":"eg:B"}}}}"#,
    },
    // duplicates are tested last
    Table {
        start: DECLARED,
        rows: &[((2, 3), &[r#""none""#]), ((8, 0), &[r#""some""#])],
        end: r#"}},"facts":{"a":{"value":"1","dimensions":{"concept":"eg:A"}},"b":{"value":"1","dimensions":{"concept":"eg:A"}},"c":7}}"#,
    },
];
