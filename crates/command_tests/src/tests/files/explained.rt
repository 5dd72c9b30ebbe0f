use super::rows::{Full, NOT_READ, Row};

const UNBOUND: &[&str] = &[
    "unbound: fact \"a\": 13 UnboundPrefix: the prefix of \"q:A\" is not bound\n",
    "reports: 2, with faults: 1, faults: 1\n",
];

pub(super) const EXPLAINED: [Row; 14] = [
    (
        "explain --sheet sheet",
        0,
        &["reports: 0, with faults: 0, faults: 0\n"],
        "",
    ),
    (
        "explain --sheet sheet 100 three",
        0,
        &["reports: 2, with faults: 0, faults: 0\n"],
        "",
    ),
    ("explain --sheet sheet unbound 100", 1, UNBOUND, ""),
    (
        "explain --sheet sheet blank",
        1,
        &[
            "blank: fact \"a\\u00a0\\u3000b\": 2 MemberForm: the fact is not an object\n",
            "reports: 1, with faults: 1, faults: 1\n",
        ],
        "",
    ),
    (
        "explain --sheet sheet list list",
        1,
        &[
            "list: 2 MemberForm: the file is not an object with \"documentInfo\" and \"facts\"\n",
            "list: 2 MemberForm: the file is not an object with \"documentInfo\" and \"facts\"\n",
            "reports: 2, with faults: 2, faults: 2\n",
        ],
        "",
    ),
    ("explain --sheet sheet 100 none", 3, &[], NOT_READ),
    (
        "explain --sheet 100 100",
        3,
        &[],
        "sheet: 3 UnknownMember\n100: the format has no member \"documentInfo\" in a sheet; the file looks like a report, not a sheet\n",
    ),
    (
        "explain --sheet doubled 100",
        1,
        &[
            "doubled: \"eg:A\" is repeated in \"concepts\"; only the last one is read\n",
            "reports: 1, with faults: 0, faults: 1\n",
        ],
        "",
    ),
    ("explain --sheet sheet 100 --format json", 0, &[], ""),
    (
        "explain --sheet sheet --format json 100 unbound",
        1,
        &[
            r#"{"report":2,"file":"unbound","place":"fact 1","number":13,"name":"UnboundPrefix","identifier":"a","part":"q:A","sentence":"the prefix of \"q:A\" is not bound"}"#,
            "\n",
        ],
        "",
    ),
    (
        "explain --sheet sheet --format json list",
        1,
        &[
            r#"{"report":1,"file":"list","place":"document","number":2,"name":"MemberForm","identifier":null,"part":null,"sentence":"the file is not an object with \"documentInfo\" and \"facts\""}"#,
            "\n",
        ],
        "",
    ),
    // each form of `part` except null: an object with one member, a text, another value, and two
    // texts
    (
        "explain --sheet sheet --format json wrong apart",
        1,
        &[
            r#"{"report":1,"file":"wrong","place":"document","number":5,"name":"Namespace","identifier":null,"part":{"eg":""},"sentence":"the entry \"eg\": \"\" of \"namespaces\" is not a prefix and a URI: neither may be empty, and a prefix has no colon or white space"}"#,
            "\n",
            r#"{"report":1,"file":"wrong","place":"document","number":6,"name":"BaseUrl","identifier":null,"part":"x\u202e","sentence":"the \"baseURL\" \"x\\u202e\" is not an http or https URL of at most 65,536 bytes"}"#,
            "\n",
            r#"{"report":1,"file":"wrong","place":"document","number":7,"name":"TaxonomyUrl","identifier":null,"part":2023,"sentence":"the reference 2023 of \"taxonomy\" is not a string, is longer than 65,536 bytes as written or as a URL, or is not an http or https URL when resolved against \"baseURL\""}"#,
            "\n",
            r#"{"report":2,"file":"apart","place":"document","number":31,"name":"DisallowedDuplicates","identifier":null,"part":["a","b"],"sentence":"the facts \"a\" and \"b\" have the same dimensions, and the report's own \"allowedDuplicates\" does not allow both"}"#,
            "\n",
        ],
        "",
    ),
    (
        "explain --sheet doubled --format json",
        1,
        &[
            r#"{"report":null,"file":"doubled","place":null,"number":null,"name":null,"identifier":null,"part":"eg:A","sentence":"\"eg:A\" is repeated in \"concepts\"; only the last one is read"}"#,
            "\n",
        ],
        "",
    ),
    ("explain --sheet sheet unbound -o said", 1, &[], ""),
];

/// The content of the file `said`, which the last row of `EXPLAINED` writes.
pub(super) const SAID: &[&str] = &[
    "unbound: fact \"a\": 13 UnboundPrefix: the prefix of \"q:A\" is not bound\n",
    "reports: 1, with faults: 1, faults: 1\n",
];

pub(super) const FULL: [Full; 1] = [(
    "explain --sheet sheet 100",
    10,
    "device: 10 bytes written\n",
)];
