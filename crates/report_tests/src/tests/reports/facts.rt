use super::{END, INFO, Outcome, READ, Table, conditions, hold, hold_under};

const TABLES: &[Table<Outcome>] = &[
    // the first refused fact is reported with its place
    Table {
        start: INFO,
        rows: &[
            (
                (13, 2),
                &[
                    r#""a":{"value":"1","dimensions":{"concept":"eg:A"}},"b":{"value":"1","dimensions":{"concept":"q:A"}},"c":{"value":"2","dimensions":{"concept":"eg:A"}}"#,
                    r#""b":{"value":"1","dimensions":{"concept":"q:A"}},"a":{"value":"1","dimensions":{"concept":"eg:A"}}"#,
                ],
            ),
            (
                (2, 1),
                &[r#""a":7,"b":{"value":"1","dimensions":{"concept":"q:A"}}"#],
            ),
            (
                (13, 1),
                &[r#""b":7,"a":{"value":"1","dimensions":{"concept":"q:A"}}"#],
            ),
        ],
        end: END,
    },
    // facts are numbered in byte order of their identifiers
    Table {
        start: INFO,
        rows: &[
            (
                (2, 1),
                &[
                    r#""a":{"value":"1"},"B":7"#,
                    r#""f9":{"value":"1"},"f10":7"#,
                    r#""f":{"value":"1"},"":7"#,
                    "\"\u{10000}\":{\"value\":\"1\"},\"\u{e000}\":7",
                ],
            ),
            ((11, 1), &[r#""f":7,"eg:f":{"value":"1"}"#]),
        ],
        end: END,
    },
    // a text that was accepted in one fact can be refused in a later fact
    Table {
        start: INFO,
        rows: &[
            (
                (22, 2),
                &[
                    r#""a":{"value":"1","dimensions":{"concept":"eg:A","unit":"x:a"}},"b":{"value":"x","dimensions":{"concept":"eg:T","unit":"x:a"}}"#,
                ],
            ),
            (
                (12, 2),
                &[
                    r#""a":{"value":"1","dimensions":{"concept":"eg:A","entity":"x:a b"}},"b":{"value":"1","dimensions":{"concept":"eg:A","eg:Reg":"x:a b"}}"#,
                    r#""a":{"value":"1","dimensions":{"concept":"eg:A","eg:Sku":"North"}},"b":{"value":"1","dimensions":{"concept":"eg:A","eg:Reg":"North"}}"#,
                ],
            ),
            (
                (17, 2),
                &[
                    r#""a":{"value":"1","dimensions":{"concept":"eg:A","eg:Reg":"eg:B"}},"b":{"value":"1","dimensions":{"concept":"eg:A","eg:B":"eg:Reg"}}"#,
                ],
            ),
            (
                (16, 2),
                &[
                    r#""a":{"value":"1","dimensions":{"concept":"eg:A","eg:Reg":"eg:North"}},"b":{"value":"1","dimensions":{"concept":"eg:North"}}"#,
                ],
            ),
            (
                READ,
                &[
                    r#""a":{"value":"1","dimensions":{"concept":"eg:A","entity":"x:1","unit":"x:a"}},"b":{"value":"1","dimensions":{"concept":"eg:A","entity":"x:a","unit":"x:1","eg:Reg":"x:a","eg:Sku":"x:1"}}"#,
                ],
            ),
        ],
        end: END,
    },
    // notes are refused, and so are links that are not empty
    Table {
        start: r#"{"documentInfo":{"documentType":"https://xbrl.org/2021/xbrl-json","namespaces":{"eg":"http://example.org/t"}},"facts":{"a":"#,
        rows: &[
            (
                (10, 1),
                &[r#"{"value":"1","dimensions":{"concept":"eg:A","noteId":"k1"}}"#],
            ),
            (
                (9, 1),
                &[r#"{"value":"1","dimensions":{"concept":"eg:A"},"links":{"eg:l":{}}}"#],
            ),
            (
                READ,
                &[r#"{"value":"1","dimensions":{"concept":"eg:A"},"links":{}}"#],
            ),
        ],
        end: END,
    },
    // the last of repeated members counts, and the value of an extension may be any JSON value
    Table {
        start: r#"{"documentInfo":{"documentType":"https://xbrl.org/2021/xbrl-json","namespaces":{"eg":"http://example.org/t"}},"facts":{"a":"#,
        rows: &[
            (
                READ,
                &[
                    r#"{"value":"x","value":"1","dimensions":{"concept":"eg:A"}}"#,
                    r#"{"value":"1","dimensions":{"concept":"q:A"},"dimensions":{"concept":"eg:A"}}"#,
                    r#"{"value":"1","dimensions":{"concept":"q:A","concept":"eg:A"}}"#,
                    r#"{"value":"1","dimensions":{"concept":"eg:A","eg:Reg":"q:a","eg:Reg":"eg:North"}}"#,
                    r#"{"value":"1","links":{"eg:l":{}},"links":{},"dimensions":{"concept":"eg:A"}}"#,
                    r#"{"value":"1","eg:note":{"deep":[1.5,true,{}]},"dimensions":{"concept":"eg:A"}}"#,
                ],
            ),
            (
                (13, 1),
                &[
                    r#"{"value":"1","dimensions":{"concept":"eg:A"},"dimensions":{"concept":"q:A"}}"#,
                    r#"{"value":"1","dimensions":{"concept":"eg:A","concept":"q:A"}}"#,
                    r#"{"value":"1","dimensions":{"concept":"eg:A","eg:Reg":"eg:North","eg:Reg":"q:a"}}"#,
                ],
            ),
            (
                (9, 1),
                &[
                    r#"{"value":"1","links":{},"links":{"eg:l":{}},"dimensions":{"concept":"eg:A"}}"#,
                ],
            ),
        ],
        end: END,
    },
];

const FORMS: &[Table<Outcome>] = &[
    // a number has at most 18 digits, not counting leading zeros before the point and trailing
    // zeros after it
    Table {
        start: r#"{"documentInfo":{"documentType":"https://xbrl.org/2021/xbrl-json","namespaces":{"eg":"http://example.org/t"}},"facts":{"a":{"dimensions":{"concept":"eg:A"},"value":""#,
        rows: &[
            (
                READ,
                &[
                    "999999999999999999",
                    "000999999999999999999",
                    "0.000000000000000001",
                ],
            ),
            (READ, &["0.10000000000000000000", "1."]),
            ((27, 1), &["1000000000000000000", "0.0000000000000000001"]),
            ((26, 1), &["", ".", "+", "1e2", "INF", " 1"]),
        ],
        end: r#""}}}"#,
    },
    // `decimals` is a whole number from -18 to 18
    Table {
        start: r#"{"documentInfo":{"documentType":"https://xbrl.org/2021/xbrl-json","namespaces":{"eg":"http://example.org/t"}},"facts":{"a":{"dimensions":{"concept":"eg:A"},"value":"1","decimals":"#,
        rows: &[
            (READ, &["12", "-12", "13", "-13", "18", "-18"]),
            (
                (29, 1),
                &[
                    "19",
                    "-19",
                    "256",
                    "-129",
                    "9223372036854775807",
                    "18446744073709551615",
                    "-9223372036854775808",
                ],
            ),
            (
                (28, 1),
                &["18446744073709551616", "-9223372036854775809", "0.5", "1.0"],
            ),
            ((28, 1), &["1e0", "-0", "null"]),
            ((1, 0), &["1e999"]),
        ],
        end: "}}}",
    },
    // the dates and times of a period exist and are in order
    Table {
        start: r#"{"documentInfo":{"documentType":"https://xbrl.org/2021/xbrl-json","namespaces":{"eg":"http://example.org/t"}},"facts":{"a":{"value":"1","dimensions":{"concept":"eg:A","period":""#,
        rows: &[
            (
                READ,
                &[
                    "0001-01-01T00:00:00",
                    "9999-12-30T24:00:00",
                    "2020-02-29T00:00:00",
                ],
            ),
            (
                READ,
                &[
                    "2021-01-01T24:00:00",
                    "2021-01-01T00:00:00/2020-12-31T24:00:00",
                ],
            ),
            ((19, 1), &["0000-01-01T00:00:00", "9999-12-31T24:00:00"]),
            ((19, 1), &["2021-02-29T00:00:00", "2021-01-01T24:00:01", ""]),
            ((20, 1), &["2021-01-01T00:00:00/2020-12-31T23:59:59"]),
        ],
        end: r#""}}}}"#,
    },
    // a unit has one or two sides, which contain names
    Table {
        start: r#"{"documentInfo":{"documentType":"https://xbrl.org/2021/xbrl-json","namespaces":{"eg":"http://example.org/t","x":"http://example.org/u","xbrli":"http://www.xbrl.org/2003/instance"}},"facts":{"a":{"value":"1","dimensions":{"concept":"eg:A","unit":""#,
        rows: &[
            (READ, &["x:a*x:b/x:c", "(x:b*x:a)/(x:c)", "xbrli:pure/x:c"]),
            ((21, 1), &["x:a/", "x:a/x:b/x:c", "(x:a", ""]),
            ((12, 1), &["a/x:b"]),
            ((13, 1), &["q:a"]),
        ],
        end: r#""}}}}"#,
    },
];

#[test]
fn facts_are_answered_by_their_places(rt: HostRuntime) {
    assert!(rt; hold(&rt, TABLES));
}

// Each large table has its own test: a function that names two takes far longer to prove.
#[test]
fn values_and_dimensions_have_their_forms(rt: HostRuntime) {
    assert!(rt; hold(&rt, FORMS));
}

#[test]
fn each_condition_on_a_name_is_answered(rt: HostRuntime) {
    assert!(rt; hold(&rt, conditions::NAMES));
}

#[test]
fn each_condition_on_a_value_is_answered(rt: HostRuntime) {
    assert!(rt; hold(&rt, conditions::VALUES));
}

#[test]
fn the_first_condition_that_holds_is_answered(rt: HostRuntime) {
    assert!(rt; hold(&rt, conditions::ORDER));
}

const NAMES: &[Table<Outcome>] = &[Table {
    start: r#"{"documentInfo":{"documentType":"https://xbrl.org/2021/xbrl-json","namespaces":{"eg":"http://example.org/t","x":"http://example.org/u","xbrli":"http://www.xbrl.org/2003/instance","xbrl":"https://xbrl.org/2021"}},"facts":{"a":{"value":"1","dimensions":{"concept":""#,
    rows: &[
        (READ, &["eg:A"]),
        ((12, 1), &["A", "eg:", "eg:A:B", "eg:A B", ":A"]),
        ((13, 1), &["EG:A"]),
        ((14, 1), &["xbrl:A"]),
        ((16, 1), &["eg:T"]),
    ],
    end: r#""}}}}"#,
}];

// Outcomes under an empty sheet.
const UNKNOWN: &[Table<Outcome>] = &[Table {
    start: INFO,
    rows: &[(
        (16, 1),
        &[r#""a":{"value":"1","dimensions":{"concept":"eg:A"}}"#],
    )],
    end: END,
}];

// A sheet that binds another prefix.
const OTHER_PREFIX: &str =
    r#"{"namespaces":{"zz":"http://example.org/t"},"concepts":{"zz:A":"numeric"}}"#;

#[test]
fn names_are_those_of_the_sheet(rt: HostRuntime) {
    assert!(rt; hold_under(&rt, OTHER_PREFIX, NAMES));
    assert!(rt; hold_under(&rt, "{}", UNKNOWN));
}
