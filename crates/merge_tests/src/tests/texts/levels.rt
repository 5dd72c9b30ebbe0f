use super::{LINE, Row, SHEET};
use oim_names::Reason;
use oim_report::{Refusal, Sheet};
use std::alloc::AllocError;
use std::test::Fail;
use test_helpers::asked_again::{INFO, OPEN_INFO, joined, read, read_sheet};
use test_helpers::canonical_parts::{
    CONSISTENT_HEAD, CONTRADICTING_HEAD, EARLIER_HEAD, EARLIER_MIDDLE, END, HEAD, MIDDLE,
    MIDDLE_ALONE, ONE_URI, WRITTEN_BOTH, WRITTEN_HUNDRED,
};

// Tests the level that a text declares, and texts in the earlier form, which declare no level.

/// The text before the declared level. `BEHIND_LEVEL` is the text after the level.
const BEFORE_LEVEL: &str =
    r#"{"documentInfo":{"documentType":"https://xbrl.org/2021/xbrl-json","features":{"xbrl:allowedDuplicates":""#;

const BEHIND_LEVEL: &str = r#""},"namespaces":{"#;

/// Two facts that contradict each other: nil and 5.
const WITH_NIL: &str =
    r#""f1":{"dimensions":{"concept":"n1:A"},"value":null},"f2":{"dimensions":{"concept":"n1:A"},"value":"5"}"#;

/// Two facts, with the values 100 and 102.
const WIDE: &str =
    r#""f1":{"decimals":0,"dimensions":{"concept":"n1:A"},"value":"100"},"f2":{"decimals":0,"dimensions":{"concept":"n1:A"},"value":"102"}"#;

/// A declared level, and whether two facts that meet are refused under it.
const LEVELS: [(&str, bool); 4] = [
    ("none", true),
    ("complete", true),
    ("consistent", false),
    ("all", false),
];

fn is_read(rt: &HostRuntime, sheet: &Sheet, text: &[u8], refused: bool) -> bool {
    match read(rt, sheet, text) {
        Ok(_) => !refused,
        Err(refusal) => refused && refusal == Refusal::from(Reason::DisallowedDuplicates),
    }
}

fn is_held(
    rt: &HostRuntime,
    sheet: &Sheet,
    level: &str,
    refused: bool,
) -> Result<bool, AllocError> {
    let parts = [
        BEFORE_LEVEL,
        level,
        BEHIND_LEVEL,
        ONE_URI,
        MIDDLE,
        WRITTEN_BOTH,
        END,
    ];
    let text = joined(rt, &parts)?;
    Ok(is_read(rt, sheet, &text, refused))
}

fn are_held(rt: &HostRuntime, sheet: &Sheet) -> Result<bool, AllocError> {
    let mut all = true;
    for (level, refused) in &LEVELS {
        all = is_held(rt, sheet, level, *refused)? && all;
    }
    Ok(all)
}

#[test]
fn a_text_is_held_to_its_level(rt: HostRuntime) -> Result<(), Fail> {
    let sheet = read_sheet(&rt, SHEET)?;
    assert!(rt; are_held(&rt, &sheet)?);
    Ok(())
}

/// The text of one fact up to its value. `VALUE_END` is the rest of the report after the value.
const ONE_VALUE: &str = r#""f1":{"decimals":0,"dimensions":{"concept":"n1:A"},"value":""#;

const VALUE_END: &str = r#""}}}"#;

pub(super) const ROWS: &[Row] = &[
    // nil and a number in one dimension set contradict each other
    (
        &[
            SHEET,
            LINE,
            INFO,
            r#""a":{"value":null,"dimensions":{"concept":"eg:A"}},"b":{"value":"5","dimensions":{"concept":"eg:A"}}"#,
            END,
        ],
        &[CONTRADICTING_HEAD, ONE_URI, MIDDLE, WITH_NIL, END],
    ),
    // a level that is too loose is replaced by the strictest level that the facts satisfy
    (
        &[
            SHEET,
            LINE,
            CONTRADICTING_HEAD,
            ONE_URI,
            MIDDLE,
            WRITTEN_BOTH,
            END,
        ],
        &[CONSISTENT_HEAD, ONE_URI, MIDDLE, WRITTEN_BOTH, END],
    ),
    // the merged text may declare a looser level than each of the texts in the bundle
    (
        &[
            SHEET, LINE, HEAD, ONE_URI, MIDDLE, ONE_VALUE, "101", VALUE_END, LINE, HEAD, ONE_URI,
            MIDDLE, ONE_VALUE, "100", VALUE_END,
        ],
        &[CONSISTENT_HEAD, ONE_URI, MIDDLE, WRITTEN_BOTH, END],
    ),
    (
        &[
            SHEET, LINE, HEAD, ONE_URI, MIDDLE, ONE_VALUE, "100", VALUE_END, LINE, HEAD, ONE_URI,
            MIDDLE, ONE_VALUE, "102", VALUE_END,
        ],
        &[CONTRADICTING_HEAD, ONE_URI, MIDDLE, WIDE, END],
    ),
    // if `xbrl` is bound to another URI, the feature is ignored
    (
        &[
            SHEET,
            LINE,
            OPEN_INFO,
            r#","namespaces":{"eg":"http://example.org/t","xbrl":"http://example.org/u"},"features":{"xbrl:allowedDuplicates":7}},"facts":{"#,
            r#""a":{"value":"100","decimals":0,"dimensions":{"concept":"eg:A"}}"#,
            END,
        ],
        &[HEAD, ONE_URI, MIDDLE, WRITTEN_HUNDRED, END],
    ),
    // texts in the earlier form
    (
        &[SHEET, LINE, EARLIER_HEAD, EARLIER_MIDDLE, END],
        &[HEAD, MIDDLE_ALONE, END],
    ),
    (
        &[
            SHEET,
            LINE,
            EARLIER_HEAD,
            ONE_URI,
            EARLIER_MIDDLE,
            WRITTEN_HUNDRED,
            END,
        ],
        &[HEAD, ONE_URI, MIDDLE, WRITTEN_HUNDRED, END],
    ),
    (
        &[
            SHEET,
            LINE,
            EARLIER_HEAD,
            ONE_URI,
            EARLIER_MIDDLE,
            WRITTEN_BOTH,
            END,
        ],
        &[CONSISTENT_HEAD, ONE_URI, MIDDLE, WRITTEN_BOTH, END],
    ),
];

/// Texts in the earlier form and in the canonical form, with their lengths in bytes.
const LENGTHS: [(&[&str], usize); 6] = [
    (&[EARLIER_HEAD, EARLIER_MIDDLE, END], 108),
    (
        &[EARLIER_HEAD, ONE_URI, EARLIER_MIDDLE, WRITTEN_HUNDRED, END],
        200,
    ),
    (
        &[EARLIER_HEAD, ONE_URI, EARLIER_MIDDLE, WRITTEN_BOTH, END],
        266,
    ),
    (&[HEAD, MIDDLE_ALONE, END], 183),
    (&[HEAD, ONE_URI, MIDDLE, WRITTEN_HUNDRED, END], 276),
    (&[CONSISTENT_HEAD, ONE_URI, MIDDLE, WRITTEN_BOTH, END], 348),
];

fn length(parts: &[&str]) -> usize {
    let mut all = 0usize;
    for part in parts {
        all = all.saturating_add(part.len());
    }
    all
}

#[test]
fn texts_have_their_lengths(rt: HostRuntime) {
    for (parts, wanted) in &LENGTHS {
        assert_eq!(rt; length(parts), *wanted);
    }
}
