use super::{LINE, Row, SHEET, TWO_URIS};
use test_helpers::asked_again::INFO;
use test_helpers::canonical_parts::{CONTRADICTING_HEAD, END, HEAD, MIDDLE, ONE_URI};

// Tests the order of facts and their identifiers. In the first four rows, the report lists the
// facts in reverse order.

/// Nine facts, with the values 1 to 9.
const NINE: &str =
    r#""a":{"value":"1","decimals":0,"dimensions":{"concept":"eg:A"}},"b":{"value":"2","decimals":0,"dimensions":{"concept":"eg:A"}},"c":{"value":"3","decimals":0,"dimensions":{"concept":"eg:A"}},"d":{"value":"4","decimals":0,"dimensions":{"concept":"eg:A"}},"e":{"value":"5","decimals":0,"dimensions":{"concept":"eg:A"}},"f":{"value":"6","decimals":0,"dimensions":{"concept":"eg:A"}},"g":{"value":"7","decimals":0,"dimensions":{"concept":"eg:A"}},"h":{"value":"8","decimals":0,"dimensions":{"concept":"eg:A"}},"i":{"value":"9","decimals":0,"dimensions":{"concept":"eg:A"}}"#;

pub(super) const ROWS: &[Row] = &[
    // facts with equal dimensions are in the order of their values, then of their decimals
    (
        &[
            SHEET,
            LINE,
            INFO,
            r#""a":{"value":"2","dimensions":{"concept":"eg:A"}},"#,
            r#""b":{"value":"1","dimensions":{"concept":"eg:A"}},"#,
            r#""c":{"value":"1","decimals":0,"dimensions":{"concept":"eg:A"}},"#,
            r#""d":{"value":"1","decimals":-1,"dimensions":{"concept":"eg:A"}},"#,
            r#""e":{"value":"0","dimensions":{"concept":"eg:A"}},"#,
            r#""f":{"value":"-1","decimals":12,"dimensions":{"concept":"eg:A"}},"#,
            r#""g":{"value":null,"dimensions":{"concept":"eg:A"}}"#,
            END,
        ],
        &[
            CONTRADICTING_HEAD,
            ONE_URI,
            MIDDLE,
            r#""f1":{"dimensions":{"concept":"n1:A"},"value":null},"#,
            r#""f2":{"decimals":12,"dimensions":{"concept":"n1:A"},"value":"-1"},"#,
            r#""f3":{"dimensions":{"concept":"n1:A"},"value":"0"},"#,
            r#""f4":{"decimals":-1,"dimensions":{"concept":"n1:A"},"value":"1"},"#,
            r#""f5":{"decimals":0,"dimensions":{"concept":"n1:A"},"value":"1"},"#,
            r#""f6":{"dimensions":{"concept":"n1:A"},"value":"1"},"#,
            r#""f7":{"dimensions":{"concept":"n1:A"},"value":"2"}"#,
            END,
        ],
    ),
    // facts are in the order of their dimensions, then of their values
    (
        &[
            SHEET,
            LINE,
            INFO,
            r#""a":{"value":"1","dimensions":{"concept":"eg:A","entity":"x:1"}},"#,
            r#""b":{"value":"1","dimensions":{"concept":"eg:A","period":"2020-01-01T00:00:00/2021-01-01T00:00:00"}},"#,
            r#""c":{"value":"1","dimensions":{"concept":"eg:A","period":"2019-01-01T00:00:00/2022-01-01T00:00:00"}},"#,
            r#""d":{"value":"1","dimensions":{"concept":"eg:A","period":"2021-01-01T00:00:00"}},"#,
            r#""e":{"value":"1","dimensions":{"concept":"eg:A","period":"2020-01-01T00:00:00"}},"#,
            r#""f":{"value":"1","dimensions":{"concept":"eg:A","unit":"x:b"}},"#,
            r#""g":{"value":"1","dimensions":{"concept":"eg:A","unit":"x:a*x:b"}},"#,
            r#""h":{"value":"1","dimensions":{"concept":"eg:A","unit":"x:a/x:c"}},"#,
            r#""i":{"value":"1","dimensions":{"concept":"eg:A","unit":"x:a"}},"#,
            r#""j":{"value":"2","dimensions":{"concept":"eg:A"}}"#,
            END,
        ],
        &[
            HEAD,
            TWO_URIS,
            MIDDLE,
            r#""f01":{"dimensions":{"concept":"n1:A"},"value":"2"},"#,
            r#""f02":{"dimensions":{"concept":"n1:A","unit":"n2:a"},"value":"1"},"#,
            r#""f03":{"dimensions":{"concept":"n1:A","unit":"n2:a/n2:c"},"value":"1"},"#,
            r#""f04":{"dimensions":{"concept":"n1:A","unit":"n2:a*n2:b"},"value":"1"},"#,
            r#""f05":{"dimensions":{"concept":"n1:A","unit":"n2:b"},"value":"1"},"#,
            r#""f06":{"dimensions":{"concept":"n1:A","period":"2020-01-01T00:00:00"},"value":"1"},"#,
            r#""f07":{"dimensions":{"concept":"n1:A","period":"2021-01-01T00:00:00"},"value":"1"},"#,
            r#""f08":{"dimensions":{"concept":"n1:A","period":"2019-01-01T00:00:00/2022-01-01T00:00:00"},"value":"1"},"#,
            r#""f09":{"dimensions":{"concept":"n1:A","period":"2020-01-01T00:00:00/2021-01-01T00:00:00"},"value":"1"},"#,
            r#""f10":{"dimensions":{"concept":"n1:A","entity":"n2:1"},"value":"1"}"#,
            END,
        ],
    ),
    // languages are compared before taxonomy-defined members
    (
        &[
            SHEET,
            LINE,
            INFO,
            r#""a":{"value":"v","dimensions":{"concept":"eg:T","language":"en"}},"#,
            r#""b":{"value":"v","dimensions":{"concept":"eg:T","language":"de"}},"#,
            r#""c":{"value":"v","dimensions":{"concept":"eg:T","eg:Sku":"a"}},"#,
            r#""d":{"value":"v","dimensions":{"concept":"eg:T","eg:Sku":""}},"#,
            r#""e":{"value":"v","dimensions":{"concept":"eg:T","eg:Sku":null}},"#,
            r#""f":{"value":"v","dimensions":{"concept":"eg:T","eg:Reg":"eg:South"}},"#,
            r#""g":{"value":"v","dimensions":{"concept":"eg:T","eg:Reg":"eg:North","eg:Sku":null}},"#,
            r#""h":{"value":"v","dimensions":{"concept":"eg:T","eg:Reg":"eg:North"}},"#,
            r#""i":{"value":"w","dimensions":{"concept":"eg:T"}}"#,
            END,
        ],
        &[
            HEAD,
            ONE_URI,
            MIDDLE,
            r#""f1":{"dimensions":{"concept":"n1:T"},"value":"w"},"#,
            r#""f2":{"dimensions":{"concept":"n1:T","n1:Reg":"n1:North"},"value":"v"},"#,
            r#""f3":{"dimensions":{"concept":"n1:T","n1:Reg":"n1:North","n1:Sku":null},"value":"v"},"#,
            r#""f4":{"dimensions":{"concept":"n1:T","n1:Reg":"n1:South"},"value":"v"},"#,
            r#""f5":{"dimensions":{"concept":"n1:T","n1:Sku":null},"value":"v"},"#,
            r#""f6":{"dimensions":{"concept":"n1:T","n1:Sku":""},"value":"v"},"#,
            r#""f7":{"dimensions":{"concept":"n1:T","n1:Sku":"a"},"value":"v"},"#,
            r#""f8":{"dimensions":{"concept":"n1:T","language":"de"},"value":"v"},"#,
            r#""f9":{"dimensions":{"concept":"n1:T","language":"en"},"value":"v"}"#,
            END,
        ],
    ),
    // text values are in byte order
    (
        &[
            SHEET,
            LINE,
            INFO,
            r#""a":{"value":"\uDBFF\uDFFF","dimensions":{"concept":"eg:T"}},"b":{"value":"\uFFFF","dimensions":{"concept":"eg:T"}},"c":{"value":"\u00e9","dimensions":{"concept":"eg:T"}},"d":{"value":"z","dimensions":{"concept":"eg:T"}}"#,
            END,
        ],
        &[
            CONTRADICTING_HEAD,
            ONE_URI,
            MIDDLE,
            "\"f1\":{\"dimensions\":{\"concept\":\"n1:T\"},\"value\":\"z\"},\"f2\":{\"dimensions\":{\"concept\":\"n1:T\"},\"value\":\"\u{e9}\"},\"f3\":{\"dimensions\":{\"concept\":\"n1:T\"},\"value\":\"\u{ffff}\"},\"f4\":{\"dimensions\":{\"concept\":\"n1:T\"},\"value\":\"\u{10ffff}\"}",
            END,
        ],
    ),
    // the identifiers of nine facts have one digit
    (
        &[SHEET, LINE, INFO, NINE, END],
        &[
            CONTRADICTING_HEAD,
            ONE_URI,
            MIDDLE,
            r#""f1":{"decimals":0,"dimensions":{"concept":"n1:A"},"value":"1"},"#,
            r#""f2":{"decimals":0,"dimensions":{"concept":"n1:A"},"value":"2"},"#,
            r#""f3":{"decimals":0,"dimensions":{"concept":"n1:A"},"value":"3"},"#,
            r#""f4":{"decimals":0,"dimensions":{"concept":"n1:A"},"value":"4"},"#,
            r#""f5":{"decimals":0,"dimensions":{"concept":"n1:A"},"value":"5"},"#,
            r#""f6":{"decimals":0,"dimensions":{"concept":"n1:A"},"value":"6"},"#,
            r#""f7":{"decimals":0,"dimensions":{"concept":"n1:A"},"value":"7"},"#,
            r#""f8":{"decimals":0,"dimensions":{"concept":"n1:A"},"value":"8"},"#,
            r#""f9":{"decimals":0,"dimensions":{"concept":"n1:A"},"value":"9"}"#,
            END,
        ],
    ),
    // with ten facts, all identifiers have two digits
    (
        &[
            SHEET,
            LINE,
            INFO,
            r#""a":{"value":"10","decimals":0,"dimensions":{"concept":"eg:A"}}"#,
            END,
            LINE,
            INFO,
            NINE,
            END,
        ],
        &[
            CONTRADICTING_HEAD,
            ONE_URI,
            MIDDLE,
            r#""f01":{"decimals":0,"dimensions":{"concept":"n1:A"},"value":"1"},"#,
            r#""f02":{"decimals":0,"dimensions":{"concept":"n1:A"},"value":"2"},"#,
            r#""f03":{"decimals":0,"dimensions":{"concept":"n1:A"},"value":"3"},"#,
            r#""f04":{"decimals":0,"dimensions":{"concept":"n1:A"},"value":"4"},"#,
            r#""f05":{"decimals":0,"dimensions":{"concept":"n1:A"},"value":"5"},"#,
            r#""f06":{"decimals":0,"dimensions":{"concept":"n1:A"},"value":"6"},"#,
            r#""f07":{"decimals":0,"dimensions":{"concept":"n1:A"},"value":"7"},"#,
            r#""f08":{"decimals":0,"dimensions":{"concept":"n1:A"},"value":"8"},"#,
            r#""f09":{"decimals":0,"dimensions":{"concept":"n1:A"},"value":"9"},"#,
            r#""f10":{"decimals":0,"dimensions":{"concept":"n1:A"},"value":"10"}"#,
            END,
        ],
    ),
];
