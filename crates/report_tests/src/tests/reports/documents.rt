use super::{
    BOUND, Comes, NO_FACTS, OPEN_INFO, Outcome, READ, SHEET, Table, hold, is_answer, read_sheet,
};
use oim_report::Sheet;
use std::test::Fail;

const EMPTY: &str =
    r#"{"documentInfo":{"documentType":"https://xbrl.org/2021/xbrl-json","namespaces":{},"taxonomy":[]},"facts":{}}"#;

const TABLES: &[Table<Outcome>] = &[
    // a document is a JSON text
    Table {
        start: "",
        rows: &[((1, 0), &["", "{}{}", "\u{feff}\u{feff}{}"])],
        end: "",
    },
    Table {
        start: r#"{"documentInfo":{"documentType":"https://xbrl.org/2021/xbrl-json"},"eg:x":"#,
        rows: &[
            ((1, 0), &["1e999", r#""\ud800""#, "\"\u{1}\""]),
            (READ, &["0e999", r#""\ud800\udc00""#]),
        ],
        end: "}",
    },
    // one byte order mark is skipped
    Table {
        start: "",
        rows: &[
            (READ, &["", "\u{feff}"]),
            ((1, 0), &["\u{feff}\u{feff}", " \u{feff}"]),
        ],
        end: EMPTY,
    },
    // each part of a document has its JSON type
    Table {
        start: "",
        rows: &[
            ((2, 0), &["[]", "7", "null", "{}", r#"{"facts":{}}"#]),
            (
                (2, 0),
                &[r#"{"documentInfo":[]}"#, r#"{"documentInfo":null}"#],
            ),
        ],
        end: "",
    },
    Table {
        start: OPEN_INFO,
        rows: &[
            (
                (2, 0),
                &[
                    r#","namespaces":[]}"#,
                    r#","namespaces":null}"#,
                    r#","features":[]}"#,
                    r#","features":null}"#,
                    r#","taxonomy":{}}"#,
                    r#","taxonomy":null}"#,
                    r#"},"facts":[]"#,
                    r#"},"facts":null"#,
                ],
            ),
            (
                READ,
                &[
                    "}",
                    r#","namespaces":{},"features":{},"taxonomy":[]},"facts":{}"#,
                ],
            ),
        ],
        end: "}",
    },
    // unknown members belong to extensions if their keys have a colon
    Table {
        start: OPEN_INFO,
        rows: &[
            (
                (3, 0),
                &[r#"},"colour":1"#, r#"},"":1"#, r#"},"namespaces":{}"#],
            ),
            ((3, 0), &[r#","colour":1}"#, r#","":1}"#, r#","facts":{}}"#]),
            (
                READ,
                &[
                    r#","q:x":1,":":[]},"q:y":{"z":null},":":1"#,
                    r#","linkTypes":7,"linkGroups":null}"#,
                ],
            ),
        ],
        end: "}",
    },
    // the document type must be xBRL-JSON
    Table {
        start: r#"{"documentInfo":{"#,
        rows: &[
            (
                (4, 0),
                &[
                    "",
                    r#""documentType":null"#,
                    r#""documentType":["https://xbrl.org/2021/xbrl-json"]"#,
                    r#""documentType":"https://xbrl.org/2021/xbrl-csv""#,
                    r#""documentType":"https://xbrl.org/2021/xbrl-json/""#,
                ],
            ),
            (
                READ,
                &[
                    r#""documentType":"https://xbrl.org/2021/xbrl-json""#,
                    r#""documentType":"https:\/\/xbrl.org/2021/xbrl\u002djson""#,
                ],
            ),
        ],
        end: "}}",
    },
    // a prefix is well-formed, and its URI is a text that is not empty
    Table {
        start: r#"{"documentInfo":{"documentType":"https://xbrl.org/2021/xbrl-json","namespaces":{"#,
        rows: &[
            (
                (5, 0),
                &[
                    r#""":"u:t""#,
                    r#""a b":"u:t""#,
                    r#""a\tb":"u:t""#,
                    r#""a:b":"u:t""#,
                    r#""a":"""#,
                    r#""a":null"#,
                    r#""a":["u:t"]"#,
                ],
            ),
            (
                READ,
                &[
                    r#""a\u000b":"u:t""#,
                    "\"a\u{a0}*\":\" \"",
                    r#""a":"u:t","b":"u:t","xbrl":"u:x","c":"https://xbrl.org/2021""#,
                ],
            ),
        ],
        end: "}}}",
    },
];

const URLS: &[Table<Outcome>] = &[
    // the base URL is an http or https URL
    Table {
        start: BOUND,
        rows: &[
            (
                (6, 0),
                &[
                    r#","baseURL":"d/r.json""#,
                    r#","baseURL":"""#,
                    r#","baseURL":"urn:x:Y""#,
                    r#","baseURL":"ftp://x.org/""#,
                    r#","baseURL":null"#,
                    r#","baseURL":7"#,
                ],
            ),
            (READ, &[r#","baseURL":"HTTPS://x.org""#]),
        ],
        end: NO_FACTS,
    },
    // references are texts, and with a base URL they are resolved
    Table {
        start: BOUND,
        rows: &[
            (
                (7, 0),
                &[
                    r#","taxonomy":[null]"#,
                    r#","taxonomy":["a.xsd",1]"#,
                    r#","taxonomy":[["a.xsd"]]"#,
                    r#","taxonomy":["http://["],"baseURL":"http://x.org/""#,
                    r#","taxonomy":["a.xsd","//["],"baseURL":"http://x.org/""#,
                ],
            ),
            (
                READ,
                &[
                    r#","taxonomy":["http://["]"#,
                    r#","taxonomy":["urn:x:Y","a.xsd",""],"baseURL":"http://x.org/""#,
                ],
            ),
        ],
        end: NO_FACTS,
    },
];

const ORDER: &[Table<Outcome>] = &[
    // each document has the expected fault. Each document without the reference `a.xsd` also has the
    // fault with the next number
    Table {
        start: "",
        rows: &[
            (
                (2, 0),
                &[
                    r#"{"documentInfo":7,"colour":1}"#,
                    r#"{"documentInfo":{"features":[]},"colour":1}"#,
                    r#"{"documentInfo":{"colour":1},"facts":[]}"#,
                ],
            ),
            (
                (3, 0),
                &[
                    r#"{"documentInfo":{"colour":1}}"#,
                    r#"{"documentInfo":{},"colour":1}"#,
                ],
            ),
            ((4, 0), &[r#"{"documentInfo":{"namespaces":{"":"u:t"}}}"#]),
        ],
        end: "",
    },
    Table {
        start: OPEN_INFO,
        rows: &[
            ((5, 0), &[r#","namespaces":{"":"u:t"},"baseURL":1"#]),
            (
                (6, 0),
                &[
                    r#","baseURL":"d","taxonomy":[1]"#,
                    r#","baseURL":"d","taxonomy":["a.xsd"]"#,
                ],
            ),
        ],
        end: "}}",
    },
    Table {
        start: BOUND,
        rows: &[(
            (7, 0),
            &[r#","taxonomy":[1],"features":{"xbrl:allowedDuplicates":1}"#],
        )],
        end: NO_FACTS,
    },
    // each document has a refused fact. A fault of the document takes precedence over it
    Table {
        start: BOUND,
        rows: &[
            ((2, 1), &[""]),
            ((3, 0), &[r#","colour":1"#]),
            ((6, 0), &[r#","baseURL":1"#]),
            ((7, 0), &[r#","taxonomy":[1]"#]),
            (
                (8, 0),
                &[r#","features":{"xbrl:allowedDuplicates":"some"}"#],
            ),
        ],
        end: r#"},"facts":{"a":7}}"#,
    },
];

fn no_prefix_is_read(rt: &HostRuntime, sheet: &Sheet, bytes: &[u8]) -> bool {
    for (count, _) in bytes.iter().enumerate() {
        let prefix = bytes.get(..count).unwrap_or(bytes);
        if !is_answer(rt, sheet, prefix, &Comes((1, 0))) {
            return false;
        }
    }
    is_answer(rt, sheet, bytes, &Comes(READ))
}

const HUNDRED: &str =
    r#"{"documentInfo":{"documentType":"https://xbrl.org/2021/xbrl-json","namespaces":{"eg":"http://example.org/t","x":"http://example.org/u","xbrli":"http://www.xbrl.org/2003/instance","xbrl":"https://xbrl.org/2021"}},"facts":{"a":{"value":"100","decimals":0,"dimensions":{"concept":"eg:A"}}}}"#;

#[test]
fn documents_are_answered_as_wanted(rt: HostRuntime) {
    assert!(rt; hold(&rt, TABLES));
}

#[test]
fn urls_of_a_document_are_answered(rt: HostRuntime) {
    assert!(rt; hold(&rt, URLS));
}

#[test]
fn the_first_fault_of_a_document_is_answered(rt: HostRuntime) {
    assert!(rt; hold(&rt, ORDER));
}

#[test]
fn bytes_that_are_no_json_text_are_refused(rt: HostRuntime) -> Result<(), Fail> {
    let sheet = read_sheet(&rt, SHEET)?;
    // a document is UTF-8
    assert!(rt; is_answer(&rt, &sheet, b"{\"eg:x\":\"\xff\"}", &Comes((1, 0))));
    assert!(rt; no_prefix_is_read(&rt, &sheet, HUNDRED.as_bytes()));
    Ok(())
}
