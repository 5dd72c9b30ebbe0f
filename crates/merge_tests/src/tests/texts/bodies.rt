use super::{LINE, Row, SHEET, TWO_URIS};
use test_helpers::asked_again::{INFO, OPEN_INFO};
use test_helpers::canonical_parts::{END, HEAD, MIDDLE};

// Compares merged texts with expected texts.

/// `INFO` with `zz` instead of `eg`.
const OTHER_INFO: &str =
    r#"{"documentInfo":{"documentType":"https://xbrl.org/2021/xbrl-json","namespaces":{"zz":"http://example.org/t","x":"http://example.org/u","xbrli":"http://www.xbrl.org/2003/instance","xbrl":"https://xbrl.org/2021"}},"facts":{"#;

const ONE: &str = r#""a":{"value":"100","decimals":0,"dimensions":{"concept":"eg:A"}}}}"#;

const OTHER: &str = r#""a":{"value":"100","decimals":0,"dimensions":{"concept":"zz:A"}}}}"#;

const NONE_TEXT: &str =
    r#"{"documentInfo":{"documentType":"https://xbrl.org/2021/xbrl-json","features":{"xbrl:allowedDuplicates":"none"},"namespaces":{"xbrl":"https://xbrl.org/2021"},"taxonomy":[]},"facts":{}}"#;

const ONE_TEXT: &str =
    r#"{"documentInfo":{"documentType":"https://xbrl.org/2021/xbrl-json","features":{"xbrl:allowedDuplicates":"none"},"namespaces":{"n1":"http://example.org/t","xbrl":"https://xbrl.org/2021"},"taxonomy":[]},"facts":{"f1":{"decimals":0,"dimensions":{"concept":"n1:A"},"value":"100"}}}"#;

const BOTH_TEXT: &str =
    r#"{"documentInfo":{"documentType":"https://xbrl.org/2021/xbrl-json","features":{"xbrl:allowedDuplicates":"consistent"},"namespaces":{"n1":"http://example.org/t","xbrl":"https://xbrl.org/2021"},"taxonomy":[]},"facts":{"f1":{"decimals":0,"dimensions":{"concept":"n1:A"},"value":"100"},"f2":{"decimals":0,"dimensions":{"concept":"n1:A"},"value":"101"}}}"#;

const BLUE: &str =
    r#""f1":{"dimensions":{"concept":"n1:T","entity":"n2:529900:A1","language":"en-gb","n1:Reg":"n1:North","n1:Sku":"a b","period":"2020-01-01T00:00:00/2021-01-01T00:00:00"},"value":"Blue"}"#;

const REFERENCE: &str =
    r#"{"documentInfo":{"documentType":"https://xbrl.org/2021/xbrl-json","features":{"xbrl:allowedDuplicates":"none"},"namespaces":{"xbrl":"https://xbrl.org/2021"},"taxonomy":["a.xsd"]},"facts":{}}"#;

/// The text from the namespace of `xbrl` up to the references.
const NO_URI: &str = r#""xbrl":"https://xbrl.org/2021"},"taxonomy":["#;

/// The text from the end of `documentInfo`, if there are no facts.
const NO_FACTS: &str = r#"},"facts":{}}"#;

pub(super) const ROWS: &[Row] = &[
    // bundles without facts
    (&[SHEET], &[NONE_TEXT]),
    (&[SHEET, LINE, LINE], &[NONE_TEXT]),
    (&[SHEET, LINE, INFO, END], &[NONE_TEXT]),
    // prefixes, order and repetition of the reports do not matter
    (&[SHEET, LINE, INFO, ONE], &[ONE_TEXT]),
    (&[SHEET, LINE, OTHER_INFO, OTHER, LINE], &[ONE_TEXT]),
    (
        &[SHEET, LINE, INFO, ONE, LINE, OTHER_INFO, OTHER, LINE],
        &[ONE_TEXT],
    ),
    (
        &[SHEET, LINE, OTHER_INFO, OTHER, LINE, INFO, ONE],
        &[ONE_TEXT],
    ),
    (
        &[SHEET, LINE, INFO, ONE, LINE, INFO, ONE, LINE, INFO, ONE],
        &[ONE_TEXT],
    ),
    // two facts that are consistent duplicates are both written
    (
        &[
            SHEET,
            LINE,
            INFO,
            r#""a":{"value":"101","decimals":0,"dimensions":{"concept":"eg:A"}}"#,
            END,
            LINE,
            INFO,
            r#""a":{"value":"100","decimals":0,"dimensions":{"concept":"eg:A"}}"#,
            END,
        ],
        &[BOTH_TEXT],
    ),
    (&[SHEET, LINE, BOTH_TEXT], &[BOTH_TEXT]),
    // every dimension that a text fact may have is written
    (
        &[
            SHEET,
            LINE,
            INFO,
            r#""a":{"value":"Blue","dimensions":{"concept":"eg:T","entity":"x:529900:A1","period":"2020-01-01T00:00:00/2020-12-31T24:00:00","language":"en-GB","eg:Reg":"eg:North","eg:Sku":"a b"}}"#,
            END,
        ],
        &[HEAD, TWO_URIS, MIDDLE, BLUE, END],
    ),
    (
        &[SHEET, LINE, HEAD, TWO_URIS, MIDDLE, BLUE, END],
        &[HEAD, TWO_URIS, MIDDLE, BLUE, END],
    ),
    // references are resolved, sorted and written once; merging a merged text keeps its references
    (
        &[
            SHEET,
            LINE,
            OPEN_INFO,
            r#","baseURL":"http://x.org/d/r.json","taxonomy":["a.xsd"]"#,
            NO_FACTS,
        ],
        &[HEAD, NO_URI, r#""http://x.org/d/a.xsd""#, "]", NO_FACTS],
    ),
    (
        &[SHEET, LINE, OPEN_INFO, r#","taxonomy":["a.xsd"]"#, NO_FACTS],
        &[HEAD, NO_URI, r#""a.xsd""#, "]", NO_FACTS],
    ),
    (
        &[
            SHEET,
            LINE,
            OPEN_INFO,
            r#","taxonomy":["HTTP://X.org/b.xsd"]"#,
            NO_FACTS,
        ],
        &[HEAD, NO_URI, r#""http://x.org/b.xsd""#, "]", NO_FACTS],
    ),
    (
        &[
            SHEET,
            LINE,
            OPEN_INFO,
            r#","taxonomy":["urn:x:Y"]"#,
            NO_FACTS,
        ],
        &[HEAD, NO_URI, r#""urn:x:Y""#, "]", NO_FACTS],
    ),
    (
        &[
            SHEET,
            LINE,
            OPEN_INFO,
            r#","baseURL":"http://x.org/d/r.json","taxonomy":["urn:x:Y"]"#,
            NO_FACTS,
        ],
        &[HEAD, NO_URI, r#""urn:x:Y""#, "]", NO_FACTS],
    ),
    (
        &[
            SHEET,
            LINE,
            OPEN_INFO,
            r#","taxonomy":["urn:x:Y","b.xsd","a.xsd","urn:x:Y"]"#,
            NO_FACTS,
        ],
        &[HEAD, NO_URI, r#""a.xsd","b.xsd","urn:x:Y""#, "]", NO_FACTS],
    ),
    (&[SHEET, LINE, REFERENCE], &[REFERENCE]),
    // a report with every kind of value and dimension, and with members that a merge drops
    (
        &[
            SHEET,
            LINE,
            OPEN_INFO,
            r#","namespaces":{"q":"urn:values","mem":"urn:members","m":"urn:measures","lei":"http://standards.iso.org/iso/17442","eg":"http://example.org/t","unused":"http://unused.example","xbrl":"https://xbrl.org/2021"},"#,
            r#""baseURL":"http://x.org/d/r.json","taxonomy":["urn:x:Y","HTTP://X.org/b.xsd","a.xsd","urn:x:Y"],"#,
            r#""features":{"xbrl:allowedDuplicates":"none"},"linkTypes":{},"eg:more":[1]},"eg:made":null,"facts":{"#,
            r#""a":{"value":"q:Good","dimensions":{"concept":"eg:Q"}},"#,
            r#""b":{"value":"Blå \"x\"","links":{},"eg:note":7,"dimensions":{"concept":"eg:T","language":"SV-fi","eg:Sku":""}},"#,
            r#""c":{"value":null,"decimals":3,"dimensions":{"concept":"eg:B"}},"#,
            r#""d":{"value":"7","dimensions":{"concept":"eg:A","period":"2020-01-01T00:00:00/2020-12-31T24:00:00","unit":"m:shares"}},"#,
            r#""e":{"value":"-12.50","decimals":1,"dimensions":{"concept":"eg:A","entity":"lei:529900:A1","period":"2020-12-31T24:00:00","unit":"m:c/(m:b*m:a)","eg:Reg":"mem:South","eg:Sku":null}}"#,
            END,
        ],
        &[
            HEAD,
            r#""n1":"http://example.org/t","n2":"http://standards.iso.org/iso/17442","n3":"urn:measures","n4":"urn:members","n5":"urn:values","xbrl":"https://xbrl.org/2021"},"#,
            r#""taxonomy":["http://x.org/b.xsd","http://x.org/d/a.xsd","urn:x:Y"]},"facts":{"#,
            r#""f1":{"dimensions":{"concept":"n1:A","period":"2020-01-01T00:00:00/2021-01-01T00:00:00","unit":"n3:shares"},"value":"7"},"#,
            r#""f2":{"decimals":1,"dimensions":{"concept":"n1:A","entity":"n2:529900:A1","n1:Reg":"n4:South","n1:Sku":null,"period":"2021-01-01T00:00:00","unit":"n3:c/(n3:a*n3:b)"},"value":"-12.5"},"#,
            r#""f3":{"dimensions":{"concept":"n1:B"},"value":null},"#,
            r#""f4":{"dimensions":{"concept":"n1:Q"},"value":"n5:Good"},"#,
            r#""f5":{"dimensions":{"concept":"n1:T","language":"sv-fi","n1:Sku":""},"value":"Blå \"x\""}"#,
            END,
        ],
    ),
];
