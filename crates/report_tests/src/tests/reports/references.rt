use super::{Outcome, READ, Table};

/// The text of a report with a base URL, up to its reference.
const ON_BASE: &str =
    r#"{"documentInfo":{"documentType":"https://xbrl.org/2021/xbrl-json","baseURL":"http://x.org/d/r.json?q#f","taxonomy":[""#;

/// References in a report without a base URL, and the references that are kept.
pub(super) const KEPT: Table<&[&str]> = Table {
    start: r#"{"documentInfo":{"documentType":"https://xbrl.org/2021/xbrl-json","taxonomy":[""#,
    rows: &[
        (&["a.xsd"], &["a.xsd"]),
        (
            &["http://x.org/b.xsd"],
            &["HTTP://X.org/b.xsd", "http://x.org/b.xsd"],
        ),
        (&["urn:x:Y"], &["urn:x:Y"]),
        (&["FTP://X.org/"], &["FTP://X.org/"]),
        (&["http://x.org/"], &[" http://x.org/ ", "http://x.org/"]),
        (&[" urn:x "], &[" urn:x "]),
        (&[""], &[""]),
        (&["http://foo/"], &["http:foo", "http://foo/"]),
        (&["https://c.xsd/"], &["https:c.xsd", "https://c.xsd/"]),
        (&["http:"], &["http:"]),
        (&["http://["], &["http://["]),
        (&["http://x.org:99999/"], &["http://x.org:99999/"]),
        (&["//["], &["//["]),
        (
            &["http://x.org/%5E"],
            &["http://x.org/^", "http://x.org/%5E"],
        ),
    ],
    end: r#""]}}"#,
};

/// References that are resolved against a base URL.
pub(super) const KEPT_ON_BASE: Table<&[&str]> = Table {
    start: ON_BASE,
    rows: &[
        (&["http://x.org/d/a.xsd"], &["a.xsd"]),
        (&["http://x.org/a.xsd"], &["/a.xsd"]),
        (&["http://x.org/b.xsd"], &["HTTP://X.org/b.xsd"]),
        (&["urn:x:Y"], &["urn:x:Y"]),
        (&[" urn:x "], &[" urn:x "]),
        (&["http://x.org/d/r.json?q"], &["", "http:"]),
        (&["http://foo/"], &["http:foo"]),
    ],
    end: r#""]}}"#,
};

pub(super) const TABLES: &[Table<Outcome>] = &[
    // a reference is resolved against a base URL
    Table {
        start: ON_BASE,
        rows: &[(
            (7, 0),
            &["http://[", "//[", "http://x.org:99999/", "https:"],
        )],
        end: r#""]}}"#,
    },
    // a base URL is an http or https URL
    Table {
        start: r#"{"documentInfo":{"documentType":"https://xbrl.org/2021/xbrl-json","baseURL":""#,
        rows: &[
            (
                READ,
                &["http://x.org/d/r.json", " HTTPS://X.org ", "http:foo"],
            ),
            (
                (6, 0),
                &[
                    "d/r.json",
                    "",
                    "urn:x:Y",
                    "ftp://x.org/",
                    "http://[",
                    "http:",
                ],
            ),
        ],
        end: r#""}}"#,
    },
];
