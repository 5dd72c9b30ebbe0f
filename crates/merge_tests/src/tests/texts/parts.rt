use super::{LINE, SHEET, TWO_URIS, gives};
use std::alloc::AllocError;
use std::test::Fail;
use test_helpers::asked_again::INFO;
use test_helpers::canonical_parts::{END, HEAD, MIDDLE, ONE_URI};

// Tests values and units in several spellings.

const THREE_URIS: &str =
    r#""n1":"http://example.org/t","n2":"http://example.org/u","n3":"http://www.xbrl.org/2003/instance""#;

/// A part of a report, the namespaces that its merged text has, and the part of this text.
type Row = (&'static str, &'static str, &'static str);

/// What precedes and follows the parts of a report, and the parts of its merged text.
struct Table {
    said: [&'static str; 2],
    written: [&'static str; 2],
    rows: &'static [Row],
}

const TABLES: &[Table] = &[
    Table {
        said: [r#""a":{"dimensions":{"concept":"eg:A"},"value":"#, "}"],
        written: [r#""f1":{"dimensions":{"concept":"n1:A"},"value":"#, "}"],
        rows: &[
            // numbers are written in their shortest spelling
            (r#""1.""#, ONE_URI, r#""1""#),
            (r#""0.10000000000000000000""#, ONE_URI, r#""0.1""#),
            (
                r#""000999999999999999999""#,
                ONE_URI,
                r#""999999999999999999""#,
            ),
            // nil is written as null
            ("null", ONE_URI, "null"),
        ],
    },
    Table {
        said: [r#""a":{"dimensions":{"concept":"eg:T"},"value":"#, "}"],
        written: [r#""f1":{"dimensions":{"concept":"n1:T"},"value":"#, "}"],
        rows: &[
            ("null", ONE_URI, "null"),
            // only characters that need an escape are escaped
            (r#""""#, ONE_URI, r#""""#),
            (r#""a\"b""#, ONE_URI, r#""a\"b""#),
            (r#""\\\/""#, ONE_URI, r#""\\/""#),
            (r#""é\u00e9""#, ONE_URI, r#""éé""#),
            (
                r#""\u0000\u0001\b\t\n\u000B\f\r\u000e\u001F""#,
                ONE_URI,
                r#""\u0000\u0001\b\t\n\u000b\f\r\u000e\u001f""#,
            ),
            (r#""\u007f\u2028""#, ONE_URI, "\"\u{7f}\u{2028}\""),
            (r#""\uFFFF\uDBFF\uDFFF""#, ONE_URI, "\"\u{ffff}\u{10ffff}\""),
            ("\"\u{ffff}\u{10ffff}\"", ONE_URI, "\"\u{ffff}\u{10ffff}\""),
        ],
    },
    Table {
        said: [r#""a":{"dimensions":{"concept":"eg:Q"},"value":"#, "}"],
        written: [r#""f1":{"dimensions":{"concept":"n1:Q"},"value":"#, "}"],
        rows: &[
            (r#""eg:North""#, ONE_URI, r#""n1:North""#),
            // a name gets a new prefix
            (r#""x:North""#, TWO_URIS, r#""n2:North""#),
            ("null", ONE_URI, "null"),
        ],
    },
    Table {
        said: [
            r#""a":{"value":"1","dimensions":{"concept":"eg:A","unit":""#,
            r#""}}"#,
        ],
        written: [
            r#""f1":{"dimensions":{"concept":"n1:A""#,
            r#"},"value":"1"}"#,
        ],
        rows: &[
            ("(x:b*x:a)/x:c", TWO_URIS, r#","unit":"(n2:a*n2:b)/n2:c""#),
            ("x:b*eg:c*x:a", TWO_URIS, r#","unit":"n1:c*n2:a*n2:b""#),
            // the unit `pure` alone is not written
            ("xbrli:pure", ONE_URI, ""),
            ("xbrli:pure/x:c", THREE_URIS, r#","unit":"n3:pure/n2:c""#),
        ],
    },
    Table {
        said: ["", ""],
        written: ["", ""],
        rows: &[
            // facts that differ only in the spelling of zero are one fact
            (
                r#""a":{"value":"-0","dimensions":{"concept":"eg:A"}},"b":{"value":"+0.00","dimensions":{"concept":"eg:A"}},"c":{"value":".0","dimensions":{"concept":"eg:A"}},"d":{"value":"0","dimensions":{"concept":"eg:A"}}"#,
                ONE_URI,
                r#""f1":{"dimensions":{"concept":"n1:A"},"value":"0"}"#,
            ),
            // the decimals of nil are dropped
            (
                r#""a":{"value":null,"dimensions":{"concept":"eg:A"}},"b":{"value":null,"decimals":3,"dimensions":{"concept":"eg:A"}}"#,
                ONE_URI,
                r#""f1":{"dimensions":{"concept":"n1:A"},"value":null}"#,
            ),
            // facts whose units differ only in spelling are one fact
            (
                r#""a":{"value":"1","dimensions":{"concept":"eg:A","unit":"x:b*x:a"}},"b":{"value":"1","dimensions":{"concept":"eg:A","unit":"(x:a*x:b)"}},"c":{"value":"1","dimensions":{"concept":"eg:A","unit":"x:a*x:b"}}"#,
                TWO_URIS,
                r#""f1":{"dimensions":{"concept":"n1:A","unit":"n2:a*n2:b"},"value":"1"}"#,
            ),
        ],
    },
];

fn is_written(rt: &HostRuntime, table: &Table, row: &Row) -> Result<bool, AllocError> {
    let (said, namespaces, written) = *row;
    let [before, behind] = table.said;
    let [start, end] = table.written;
    gives(
        rt,
        &[SHEET, LINE, INFO, before, said, behind, END],
        &[HEAD, namespaces, MIDDLE, start, written, end, END],
    )
}

#[test]
fn values_and_units_have_one_text(rt: HostRuntime) -> Result<(), Fail> {
    for table in TABLES {
        for row in table.rows {
            assert!(rt; is_written(&rt, table, row)?, "{}", row.0);
        }
    }
    Ok(())
}
