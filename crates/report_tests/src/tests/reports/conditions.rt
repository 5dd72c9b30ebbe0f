use super::{END, FACT, Outcome, Table};

/// Conditions on the form, the names and the taxonomy-defined dimensions of a fact.
pub(super) const NAMES: &[Table<Outcome>] = &[Table {
    start: FACT,
    rows: &[
        // the form of a fact
        (
            (2, 1), // MemberForm
            &[
                r#"{"dimensions":{"concept":"eg:A"}}"#,
                "[]",
                r#"{"value":"1","dimensions":[]}"#,
                r#"{"value":"1","dimensions":null}"#,
                r#"{"value":"1","dimensions":{"concept":"eg:A"},"links":null}"#,
                r#"{"value":"1","dimensions":{"concept":1}}"#,
                r#"{"value":"1","dimensions":{"concept":"eg:A","entity":null}}"#,
                r#"{"value":"1","dimensions":{"concept":"eg:A","period":1}}"#,
                r#"{"value":"1","dimensions":{"concept":"eg:A","unit":null}}"#,
                r#"{"value":"1","dimensions":{"concept":"eg:T","language":[]}}"#,
            ],
        ),
        (
            (3, 1), // UnknownMember
            &[
                r#"{"value":"1","dimensions":{"concept":"eg:A","colour":"red"}}"#,
                r#"{"value":"1","colour":"red","dimensions":{"concept":"eg:A"}}"#,
                r#"{"value":"1","":"red","dimensions":{"concept":"eg:A"}}"#,
            ],
        ),
        (
            (9, 1), // Links
            &[r#"{"value":"1","dimensions":{"concept":"eg:A"},"links":{"eg:l":{}}}"#],
        ),
        (
            (10, 1), // Notes
            &[
                r#"{"value":"1","dimensions":{"concept":"eg:A","noteId":"k1"}}"#,
                r#"{"value":"1","dimensions":{"concept":"eg:A","noteId":null}}"#,
            ],
        ),
        ((11, 1), &[r#"{"value":"1"}"#]),
        // each name in a fact must have the form of a name
        (
            (12, 1), // NameForm
            &[
                r#"{"value":"1","dimensions":{"concept":"A"}}"#,
                r#"{"value":"1","dimensions":{"concept":"eg:A",":":"red"}}"#,
                r#"{"value":"1","dimensions":{"concept":"eg:A","entity":"x:"}}"#,
                r#"{"value":"1","dimensions":{"concept":"eg:A","eg:Reg":"North"}}"#,
                r#"{"value":"1","dimensions":{"concept":"eg:A","unit":"a/x:b"}}"#,
                r#"{"value":"North","dimensions":{"concept":"eg:Q"}}"#,
            ],
        ),
        // each prefix of a fact is bound, and not to the reserved namespace
        (
            (13, 1), // UnboundPrefix
            &[
                r#"{"value":"1","dimensions":{"concept":"q:A"}}"#,
                r#"{"value":"1","dimensions":{"concept":"eg:A","q:Reg":"eg:North"}}"#,
                r#"{"value":"1","dimensions":{"concept":"eg:A","entity":"q:1"}}"#,
                r#"{"value":"1","dimensions":{"concept":"eg:A","eg:Reg":"q:North"}}"#,
                r#"{"value":"1","dimensions":{"concept":"eg:A","unit":"x:a*q:a"}}"#,
                r#"{"value":"q:North","dimensions":{"concept":"eg:Q"}}"#,
            ],
        ),
        (
            (14, 1), // ReservedNamespace
            &[
                r#"{"value":"1","dimensions":{"concept":"xbrl:note"}}"#,
                r#"{"value":"1","dimensions":{"concept":"eg:A","entity":"xbrl:1"}}"#,
            ],
        ),
        // the concept and the taxonomy-defined dimensions of a fact
        ((15, 1), &[r#"{"value":"1","dimensions":{}}"#]),
        (
            (16, 1), // UnknownConcept
            &[
                r#"{"value":"1","dimensions":{"concept":"eg:Z"}}"#,
                r#"{"value":"1","dimensions":{"concept":"x:A"}}"#,
            ],
        ),
        (
            (17, 1), // UnknownDimension
            &[r#"{"value":"1","dimensions":{"concept":"eg:A","eg:Colour":"red"}}"#],
        ),
        (
            (18, 1), // DimensionValue
            &[
                r#"{"value":"1","dimensions":{"concept":"eg:A","eg:Reg":null}}"#,
                r#"{"value":"1","dimensions":{"concept":"eg:A","eg:Sku":1}}"#,
                r#"{"value":"1","dimensions":{"concept":"eg:A","eg:Sku":"a","zz:Sku":"a"}}"#,
            ],
        ),
    ],
    end: END,
}];

/// Conditions on the period, the unit, the language, the value and the decimals of a fact.
pub(super) const VALUES: &[Table<Outcome>] = &[Table {
    start: FACT,
    rows: &[
        (
            (19, 1), // PeriodForm
            &[r#"{"value":"1","dimensions":{"concept":"eg:A","period":"2020-12-31"}}"#],
        ),
        (
            (20, 1), // PeriodOrder
            &[
                r#"{"value":"1","dimensions":{"concept":"eg:A","period":"2021-01-01T00:00:00/2020-01-01T00:00:00"}}"#,
            ],
        ),
        (
            (21, 1), // UnitForm
            &[r#"{"value":"1","dimensions":{"concept":"eg:A","unit":"x:a/"}}"#],
        ),
        (
            (22, 1), // UnitOnOther
            &[
                r#"{"value":"1","dimensions":{"concept":"eg:T","unit":"xbrli:pure"}}"#,
                r#"{"value":"x:a","dimensions":{"concept":"eg:Q","unit":"x:a"}}"#,
            ],
        ),
        (
            (23, 1), // LanguageForm
            &[r#"{"value":"1","dimensions":{"concept":"eg:T","language":"en_GB"}}"#],
        ),
        (
            (24, 1), // LanguageOnNumeric
            &[r#"{"value":"1","dimensions":{"concept":"eg:A","language":"en"}}"#],
        ),
        (
            (25, 1), // ValueForm
            &[
                r#"{"value":1,"dimensions":{"concept":"eg:A"}}"#,
                r#"{"value":true,"dimensions":{"concept":"eg:T"}}"#,
            ],
        ),
        (
            (26, 1), // NumberForm
            &[r#"{"value":"1e2","dimensions":{"concept":"eg:A"}}"#],
        ),
        (
            (27, 1), // NumberDigits
            &[r#"{"value":"1000000000000000000","dimensions":{"concept":"eg:A"}}"#],
        ),
        (
            (28, 1), // DecimalsForm
            &[
                r#"{"value":"1","decimals":"0","dimensions":{"concept":"eg:A"}}"#,
                r#"{"value":"1","decimals":null,"dimensions":{"concept":"eg:A"}}"#,
                r#"{"value":"1","decimals":-0,"dimensions":{"concept":"eg:A"}}"#,
                r#"{"value":"1","decimals":18446744073709551616,"dimensions":{"concept":"eg:A"}}"#,
            ],
        ),
        (
            (29, 1), // DecimalsRange
            &[
                r#"{"value":"1","decimals":18446744073709551615,"dimensions":{"concept":"eg:A"}}"#,
                r#"{"value":"1","decimals":19,"dimensions":{"concept":"eg:A"}}"#,
            ],
        ),
        (
            (30, 1), // DecimalsOnOther
            &[
                r#"{"value":"1","decimals":0,"dimensions":{"concept":"eg:T"}}"#,
                r#"{"value":null,"decimals":0,"dimensions":{"concept":"eg:Q"}}"#,
            ],
        ),
    ],
    end: END,
}];

/// Each fact has the expected fault, and also a fault with a greater number.
pub(super) const ORDER: &[Table<Outcome>] = &[Table {
    start: FACT,
    rows: &[
        (
            (2, 1), // MemberForm
            &[r#"{"colour":"red","dimensions":{"concept":"eg:A"}}"#],
        ),
        (
            (3, 1), // UnknownMember
            &[
                r#"{"value":"1","colour":"red","dimensions":{"concept":"eg:A"},"links":{"eg:l":{}}}"#,
            ],
        ),
        (
            (9, 1), // Links
            &[
                r#"{"value":"1","dimensions":{"concept":"eg:A","noteId":"k1"},"links":{"eg:l":{}}}"#,
                r#"{"value":"1","links":{"eg:l":{}}}"#,
            ],
        ),
        (
            (10, 1), // Notes
            &[r#"{"value":"1","dimensions":{"concept":"A","noteId":"k1"}}"#],
        ),
        (
            (12, 1), // NameForm
            &[r#"{"value":"1","dimensions":{"concept":"q:A","entity":"x"}}"#],
        ),
        (
            (13, 1), // UnboundPrefix
            &[r#"{"value":"1","dimensions":{"concept":"xbrl:note","unit":"q:a"}}"#],
        ),
        (
            (14, 1), // ReservedNamespace
            &[r#"{"value":"1","dimensions":{"entity":"xbrl:1"}}"#],
        ),
        (
            (15, 1), // MissingConcept
            &[r#"{"value":"1","dimensions":{"eg:Colour":"red"}}"#],
        ),
        (
            (16, 1), // UnknownConcept
            &[r#"{"value":"1","dimensions":{"concept":"eg:Z","eg:Colour":"red"}}"#],
        ),
        (
            (17, 1), // UnknownDimension
            &[r#"{"value":"1","dimensions":{"concept":"eg:A","eg:Reg":null,"x:Colour":"red"}}"#],
        ),
        (
            (18, 1), // DimensionValue
            &[r#"{"value":"1","dimensions":{"concept":"eg:A","eg:Reg":null,"period":"2020"}}"#],
        ),
        (
            (19, 1), // PeriodForm
            &[r#"{"value":"1","dimensions":{"concept":"eg:A","period":"2020","unit":"x:a/"}}"#],
        ),
        (
            (20, 1), // PeriodOrder
            &[
                r#"{"value":"1","dimensions":{"concept":"eg:A","period":"2021-01-01T00:00:00/2020-01-01T00:00:00","unit":"x:a/"}}"#,
            ],
        ),
        (
            (21, 1), // UnitForm
            &[r#"{"value":"1","dimensions":{"concept":"eg:T","unit":"x:a/"}}"#],
        ),
        (
            (22, 1), // UnitOnOther
            &[r#"{"value":"1","dimensions":{"concept":"eg:T","unit":"x:a","language":"en_GB"}}"#],
        ),
        (
            (23, 1), // LanguageForm
            &[r#"{"value":"1","dimensions":{"concept":"eg:A","language":"en_GB"}}"#],
        ),
        (
            (24, 1), // LanguageOnNumeric
            &[r#"{"value":1,"dimensions":{"concept":"eg:A","language":"en"}}"#],
        ),
        (
            (25, 1), // ValueForm
            &[r#"{"value":1,"decimals":"0","dimensions":{"concept":"eg:A"}}"#],
        ),
        (
            (26, 1), // NumberForm
            &[r#"{"value":"","decimals":"0","dimensions":{"concept":"eg:A"}}"#],
        ),
        (
            (27, 1), // NumberDigits
            &[r#"{"value":"1000000000000000000","decimals":"0","dimensions":{"concept":"eg:A"}}"#],
        ),
        (
            (28, 1), // DecimalsForm
            &[r#"{"value":"1","decimals":"0","dimensions":{"concept":"eg:T"}}"#],
        ),
        (
            (29, 1), // DecimalsRange
            &[r#"{"value":"1","decimals":19,"dimensions":{"concept":"eg:T"}}"#],
        ),
    ],
    end: END,
}];
