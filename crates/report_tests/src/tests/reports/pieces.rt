use super::{
    Answer, Comes, HasLevel, Outcome, SHEET, is_answer, may_repeat_here, read_sheet, repeated,
};
use oim_report::Sheet;
use oim_value::Level;
use oim_value::Level::{All, Complete, Unique};
use std::alloc::AllocError;
use std::test::Fail;

// Reports that are long enough to be read in pieces. Each `@` is replaced by 70,000 bytes of
// letters.
// The number of facts of each report, their level, and the report.
const LEVELS: [(usize, Level, &str); 6] = [
    // members in any order, and with spaces
    (
        2,
        Unique,
        r#"{"facts":{"a":{"value":"@","dimensions":{"concept":"eg:T"}},"b":{"dimensions":{"concept":"eg:T","language":"en"},"links":{},"value":"@"}},"documentInfo":{"documentType":"https://xbrl.org/2021/xbrl-json","namespaces":{"eg":"http://example.org/t"}},"eg:note":[1,"}"],"eg:more":{"facts":{}}}"#,
    ),
    (
        2,
        Unique,
        "\n{ \"documentInfo\" : {\n \"documentType\" : \"https://xbrl.org/2021/xbrl-json\", \"namespaces\" : {\n \"eg\" : \"http://example.org/t\" } },\n \"facts\" : {\n \"a\" : {\n \"value\" : \"@\",\n \"dimensions\" : { \"concept\" : \"eg:T\" }\n },\n \"b\" : { \"value\" : \"@\",\n \"dimensions\" : { \"concept\" : \"eg:T\", \"language\" : \"en\" }\n }\n } }\n",
    ),
    // the value of an extension is any JSON value
    (
        2,
        Unique,
        r#"{"documentInfo":{"documentType":"https://xbrl.org/2021/xbrl-json","namespaces":{"eg":"http://example.org/t"}},"facts":{"a":{"eg:audited":true,"eg:share":-0.5e-3,"value":"@","dimensions":{"concept":"eg:T"}},"b":{"value":"@","eg:deep":[[],{"value":{"a":[null,false,{"":"}"}]}}],"dimensions":{"concept":"eg:T","language":"en"},"eg:audited":{}}}}"#,
    ),
    // values and identifiers that look like the start or the end of a fact; one identifier is
    // repeated
    (
        7,
        All,
        r#"{"documentInfo":{"documentType":"https://xbrl.org/2021/xbrl-json","namespaces":{"eg":"http://example.org/t"}},"facts":{"f,":{"value":"@},","dimensions":{"concept":"eg:T"}},"f}":{"value":"@\"","dimensions":{"concept":"eg:T"}},"f},":{"value":"@\\","dimensions":{"concept":"eg:T"}},"f\"":{"value":"@},\"","dimensions":{"concept":"eg:T"}},"f}},":{"value":"@\\\"","dimensions":{"concept":"eg:T"}},"f{":{"value":"@:{","dimensions":{"concept":"eg:T"}},"f},\"":{"value":"@[","dimensions":{"concept":"eg:T"}},"f}":{"value":"}},","dimensions":{"concept":"eg:T"}}}}"#,
    ),
    // an extension may have many levels
    (
        3,
        All,
        r#"{"documentInfo":{"documentType":"https://xbrl.org/2021/xbrl-json","namespaces":{"eg":"http://example.org/t"}},"facts":{"a":{"value":"@","dimensions":{"concept":"eg:T"}},"b":{"eg:deep":[[[[[[[[[[[[[[[[[[]]]]]]]]]]]]]]]]]],"value":"@","dimensions":{"concept":"eg:T"}},"c":{"value":"other","dimensions":{"concept":"eg:T"}}}}"#,
    ),
    // only the last fact with an identifier counts
    (
        3,
        Complete,
        r#"{"documentInfo":{"documentType":"https://xbrl.org/2021/xbrl-json","namespaces":{"eg":"http://example.org/t"}},"facts":{"a":{"value":"@","dimensions":{"concept":"eg:T"}},"b":{},"c":{"value":"@","dimensions":{"concept":"eg:T"}},"b":{"value":"@","dimensions":{"concept":"eg:T"}},"a":{"value":"@","dimensions":{"concept":"eg:T"}}}}"#,
    ),
];

// A refusal has its place in the whole report.
const REFUSED: [(Outcome, &str); 9] = [
    (
        (2, 2),
        r#"{"documentInfo":{"documentType":"https://xbrl.org/2021/xbrl-json","namespaces":{"eg":"http://example.org/t"}},"facts":{"b":{"value":"@","dimensions":{"concept":"eg:T"}},"c":{},"a":{"value":"@","dimensions":{"concept":"eg:T"}},"b":{}}}"#,
    ),
    (
        (1, 0),
        r#"{"documentInfo":{"documentType":"https://xbrl.org/2021/xbrl-json","namespaces":{"eg":"http://example.org/t"}},"facts":{"a":{"value":"@","dimensions":{"concept":"eg:T"}},"b":{"value":"@","dimensions":{"concept":"eg:T"}},}}"#,
    ),
    (
        (3, 0),
        r#"{"documentInfo":{"documentType":"https://xbrl.org/2021/xbrl-json","namespaces":{"eg":"http://example.org/t"}},"facts":{"a":{"value":"@","dimensions":{"concept":"eg:T"}},"b":{"value":"@","dimensions":{"concept":"eg:T"}}},"facets":{}}"#,
    ),
    // a member whose key has no colon belongs to no extension
    (
        (3, 2),
        r#"{"documentInfo":{"documentType":"https://xbrl.org/2021/xbrl-json","namespaces":{"eg":"http://example.org/t"}},"facts":{"a":{"value":"@","dimensions":{"concept":"eg:T"}},"b":{"audited":true,"value":"@","dimensions":{"concept":"eg:T"}}}}"#,
    ),
    // a number of an extension is too large for `serde_json`
    (
        (1, 0),
        r#"{"documentInfo":{"documentType":"https://xbrl.org/2021/xbrl-json","namespaces":{"eg":"http://example.org/t"}},"facts":{"a":{"value":"@","dimensions":{"concept":"eg:T"}},"b":{"eg:deep":[{"a":1e999}],"value":"@","dimensions":{"concept":"eg:T"}}}}"#,
    ),
    // the first refused fact comes last in the text
    (
        (2, 1),
        r#"{"documentInfo":{"documentType":"https://xbrl.org/2021/xbrl-json","namespaces":{"eg":"http://example.org/t"}},"facts":{"c":{},"b":{"value":"@","dimensions":{"concept":"eg:T"}},"d":{"value":"@","dimensions":{"concept":"eg:T"}},"a":{}}}"#,
    ),
    // a refused fact after one that no tape gives
    (
        (2, 3),
        r#"{"documentInfo":{"documentType":"https://xbrl.org/2021/xbrl-json","namespaces":{"eg":"http://example.org/t"}},"facts":{"b":{"eg:deep":[[[[[[[[[[[[[[[[[[]]]]]]]]]]]]]]]]]],"value":"@","dimensions":{"concept":"eg:T"}},"a":{"value":"@","dimensions":{"concept":"eg:T"}},"c":{}}}"#,
    ),
    // a later piece is not JSON
    (
        (1, 0),
        r#"{"documentInfo":{"documentType":"https://xbrl.org/2021/xbrl-json","namespaces":{"eg":"http://example.org/t"}},"facts":{"a":{},"b":{"value":"@","dimensions":{"concept":"eg:T"}},"c":{"value":"@","dimensions":{"concept":"eg:T"},}}}"#,
    ),
    // duplicates above the declared level
    (
        (31, 0),
        r#"{"documentInfo":{"documentType":"https://xbrl.org/2021/xbrl-json","namespaces":{"eg":"http://example.org/t","xbrl":"https://xbrl.org/2021"},"features":{"xbrl:allowedDuplicates":"none"}},"facts":{"a":{"value":"@","dimensions":{"concept":"eg:T"}},"b":{"value":"@","dimensions":{"concept":"eg:T"}}}}"#,
    ),
];

fn replaced(rt: &HostRuntime, text: &str, letters: &str) -> Result<String, AllocError> {
    match text.replace(rt.alloc(), "@", letters) {
        Err(_) if may_repeat_here(rt) => text.replace(rt.alloc(), "@", letters),
        made => made,
    }
}

fn is_long_answer(
    rt: &HostRuntime,
    sheet: &Sheet,
    letters: &str,
    text: &str,
    answer: &Answer,
) -> Result<bool, AllocError> {
    let report = replaced(rt, text, letters)?;
    Ok(is_answer(rt, sheet, report.as_bytes(), answer))
}

#[test]
fn long_reports_are_read_like_short_ones(rt: HostRuntime) -> Result<(), Fail> {
    let sheet = read_sheet(&rt, SHEET)?;
    // the search for the end of a piece may start inside a letter of two bytes
    for (letter, count) in [("x", 70_000), ("é", 35_000)] {
        let letters = repeated(&rt, letter, count)?;
        for (count, level, text) in &LEVELS {
            let answer = HasLevel(*count, *level);
            assert!(rt;
                is_long_answer(&rt, &sheet, &letters, text, &answer)?,
                "{text}"
            );
        }
        for (outcome, text) in &REFUSED {
            let answer = Comes(*outcome);
            assert!(rt;
                is_long_answer(&rt, &sheet, &letters, text, &answer)?,
                "{text}"
            );
        }
    }
    Ok(())
}
