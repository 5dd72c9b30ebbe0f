use crate::calls::{
    xbrlmerge_merge, xbrlmerge_sources, xbrlmerge_sources_json, xbrlmerge_verdicts,
    xbrlmerge_verdicts_json,
};
use crate::check::{CheckedReport, ReportResult, xbrlmerge_check};
use crate::check_all::xbrlmerge_check_all;
use crate::explain::{xbrlmerge_explain, xbrlmerge_explain_json};
use crate::output::{
    BAD_ENDS, BAD_LEVEL, DONE, NO_MEMORY, REFUSED, RefusedReport, SHEET_REFUSED, TOO_LOOSE,
    TOO_MUCH, TOO_SHORT,
};
use crate::refusal_name::xbrlmerge_refusal_name;
use crate::version::xbrlmerge_version;
use std::test::Fail;

// The tests make each call, and cause each status except `NO_MEMORY`, which `tests/program/c_abi` causes.

const SHEET: &str = r#"{"namespaces":{"eg":"http://example.org/t"},"concepts":{"eg:A":"numeric"}}"#;

const BAD_SHEET: &str = r#"{"concepts":{"eg:A":"numeric"}}"#;

const HUNDRED: &str =
    r#"{"documentInfo":{"documentType":"https://xbrl.org/2021/xbrl-json","namespaces":{"eg":"http://example.org/t"}},"facts":{"a":{"value":"100","decimals":0,"dimensions":{"concept":"eg:A"}}}}"#;

/// An accepted report, a report refused for an unbound prefix, and an accepted report that
/// contradicts the first.
const REPORTS: &str =
    r#"{"documentInfo":{"documentType":"https://xbrl.org/2021/xbrl-json","namespaces":{"eg":"http://example.org/t"}},"facts":{"a":{"value":"100","decimals":0,"dimensions":{"concept":"eg:A"}}}}{"documentInfo":{"documentType":"https://xbrl.org/2021/xbrl-json","namespaces":{"eg":"http://example.org/t"}},"facts":{"a":{"value":"1","dimensions":{"concept":"q:A"}}}}{"documentInfo":{"documentType":"https://xbrl.org/2021/xbrl-json","namespaces":{"eg":"http://example.org/t"}},"facts":{"b":{"value":"102","decimals":0,"dimensions":{"concept":"eg:A"}}}}"#;

const ENDS: [usize; 3] = [185, 354, 539];

const TEXT: &[u8] =
    br#"{"documentInfo":{"documentType":"https://xbrl.org/2021/xbrl-json","features":{"xbrl:allowedDuplicates":"all"},"namespaces":{"n1":"http://example.org/t","xbrl":"https://xbrl.org/2021"},"taxonomy":[]},"facts":{"f1":{"decimals":0,"dimensions":{"concept":"n1:A"},"value":"100"},"f2":{"decimals":0,"dimensions":{"concept":"n1:A"},"value":"102"}}}"#;

const VERDICTS: &[u8] = b"1 f1 f2 inconsistent apart f1 f2\n";

const SOURCES: &[u8] = b"f1 1 \"a\"\nf2 3 \"b\"\n";

const VERDICTS_JSON: &[u8] =
    b"{\"row\":1,\"verdict\":\"inconsistent\",\"dimensions\":{\"concept\":\"{http://example.org/t}A\"},\"facts\":[{\"fact\":\"f1\",\"value\":\"100\",\"decimals\":0},{\"fact\":\"f2\",\"value\":\"102\",\"decimals\":0}],\"evidence\":{\"apart\":[\"f1\",\"f2\"]}}\n";

const SOURCES_JSON: &[u8] =
    b"{\"report\":1,\"file\":null,\"identifier\":\"a\",\"fact\":\"f1\"}\n{\"report\":3,\"file\":null,\"identifier\":\"b\",\"fact\":\"f2\"}\n";

/// The content of each output record before a call.
const BEFORE: RefusedReport = RefusedReport {
    report: 7,
    fact: 7,
    number: 7,
};

/// The refusal of the second report: its first fact has a prefix that is not bound.
const UNBOUND: RefusedReport = RefusedReport {
    report: 2,
    fact: 1,
    number: 13,
};

const NO_FACTS: CheckedReport = CheckedReport {
    facts: 0,
    level: 0,
    canonical: 0,
};

const NO_REFUSAL: RefusedReport = RefusedReport {
    report: 0,
    fact: 0,
    number: 0,
};

/// The result for a report with one fact.
const ONE_FACT: ReportResult = ReportResult {
    checked: CheckedReport {
        facts: 1,
        level: 0,
        canonical: 0,
    },
    refusal: NO_REFUSAL,
    status: DONE,
};

const SECOND_REFUSED: ReportResult = ReportResult {
    checked: NO_FACTS,
    refusal: UNBOUND,
    status: REFUSED,
};

/// The content of each result before a call.
const UNSET: ReportResult = ReportResult {
    checked: NO_FACTS,
    refusal: BEFORE,
    status: 7,
};

const LINE: &[u8] = b"report: fact \"a\": 13 UnboundPrefix: the prefix of \"q:A\" is not bound\n";

const OBJECT: &[u8] =
    b"{\"report\":1,\"file\":\"report\",\"place\":\"fact 1\",\"number\":13,\"name\":\"UnboundPrefix\",\"identifier\":\"a\",\"part\":\"q:A\",\"sentence\":\"the prefix of \\\"q:A\\\" is not bound\"}\n";

#[derive(Clone, Copy)]
enum Call {
    Merge(u32),
    Verdicts,
    VerdictsJson(usize),
    Sources,
    SourcesJson(usize),
}

/// The status and the caller's memory after a call.
#[derive(Drop)]
struct Left {
    status: u32,
    out: [u8; 400],
    needed: usize,
    refusals: [RefusedReport; 2],
    refused: usize,
}

/// Makes a call with an output buffer of `size` bytes, at most 400.
fn called(rt: &HostRuntime, call: Call, sheet: &str, ends: &[usize], size: usize) -> Left {
    let alloc = rt.alloc();
    let (mut out, mut refusals) = ([7; 400], [BEFORE; 2]);
    let (mut needed, mut refused) = (7, 7);
    let (sheet, reports, returned) = (
        sheet.as_bytes(),
        REPORTS.as_bytes(),
        refusals.as_mut_slice(),
    );
    let status = match (call, out.get_mut(..size)) {
        (_, None) => NO_MEMORY,
        (Call::Merge(allow), Some(out)) => xbrlmerge_merge(
            alloc,
            sheet,
            reports,
            ends,
            allow,
            out,
            &mut needed,
            returned,
            &mut refused,
        ),
        (Call::Verdicts, Some(out)) => {
            xbrlmerge_verdicts(
                alloc,
                sheet,
                reports,
                ends,
                out,
                &mut needed,
                returned,
                &mut refused,
            )
        }
        (Call::VerdictsJson(most), Some(out)) => {
            xbrlmerge_verdicts_json(
                alloc,
                sheet,
                reports,
                ends,
                most,
                out,
                &mut needed,
                returned,
                &mut refused,
            )
        }
        (Call::Sources, Some(out)) => {
            xbrlmerge_sources(
                alloc,
                sheet,
                reports,
                ends,
                out,
                &mut needed,
                returned,
                &mut refused,
            )
        }
        (Call::SourcesJson(most), Some(out)) => {
            xbrlmerge_sources_json(
                alloc,
                sheet,
                reports,
                ends,
                most,
                out,
                &mut needed,
                returned,
                &mut refused,
            )
        }
    };
    Left {
        status,
        out,
        needed,
        refusals,
        refused,
    }
}

fn has_all(left: &Left, text: &[u8]) -> bool {
    left.status == REFUSED
        && left.needed == text.len()
        && left.out.get(..text.len()) == Some(text)
        && left.out.get(text.len()) == Some(&7)
        && left.refused == 1
        && left.refusals == [UNBOUND, BEFORE]
}

#[test]
fn texts_and_refusals_are_handed_over(rt: HostRuntime) -> Result<(), Fail> {
    let ends = ENDS.as_slice();
    assert!(rt; has_all(&called(&rt, Call::Merge(3), SHEET, ends, 400), TEXT));
    assert!(rt; has_all(&called(&rt, Call::Verdicts, SHEET, ends, 400), VERDICTS));
    assert!(rt;
        has_all(
            &called(&rt, Call::VerdictsJson(0), SHEET, ends, 400),
            VERDICTS_JSON
        )
    );
    assert!(rt; has_all(&called(&rt, Call::Sources, SHEET, ends, 400), SOURCES));
    assert!(rt;
        has_all(
            &called(&rt, Call::SourcesJson(SOURCES_JSON.len()), SHEET, ends, 400),
            SOURCES_JSON
        )
    );
    Ok(())
}

#[test]
fn a_row_above_the_level_is_told(rt: HostRuntime) -> Result<(), Fail> {
    let left = called(&rt, Call::Merge(2), SHEET, ENDS.as_slice(), 0);
    assert!(rt; left.status == TOO_LOOSE && left.needed == 1);
    assert!(rt; left.refused == 1 && left.refusals == [UNBOUND, BEFORE]);
    Ok(())
}

#[test]
fn a_short_buffer_is_told(rt: HostRuntime) -> Result<(), Fail> {
    let left = called(
        &rt,
        Call::Sources,
        SHEET,
        ENDS.as_slice(),
        SOURCES.len() - 1,
    );
    assert!(rt; left.status == TOO_SHORT && left.needed == SOURCES.len());
    assert!(rt; left.refused == 1 && left.refusals == [BEFORE, BEFORE] && left.out == [7; 400]);
    Ok(())
}

#[test]
fn a_long_text_is_told(rt: HostRuntime) -> Result<(), Fail> {
    let most = VERDICTS_JSON.len() - 1;
    let left = called(&rt, Call::VerdictsJson(most), SHEET, ENDS.as_slice(), 400);
    assert!(rt; left.status == TOO_MUCH && left.needed == 7 && left.refused == 7);
    assert!(rt; left.refusals == [BEFORE, BEFORE] && left.out == [7; 400]);
    Ok(())
}

#[test]
fn a_refused_sheet_is_told(rt: HostRuntime) -> Result<(), Fail> {
    let left = called(&rt, Call::Verdicts, BAD_SHEET, ENDS.as_slice(), 400);
    assert!(rt; left.status == SHEET_REFUSED && left.needed == 13 && left.refused == 0);
    Ok(())
}

#[test]
fn bad_ends_and_levels_are_told(rt: HostRuntime) -> Result<(), Fail> {
    let falling = called(&rt, Call::Merge(3), SHEET, [2, 1].as_slice(), 400);
    assert!(rt; falling.status == BAD_ENDS && falling.needed == 7 && falling.refused == 7);
    let beyond = called(
        &rt,
        Call::Sources,
        SHEET,
        [REPORTS.len() + 1].as_slice(),
        400,
    );
    assert!(rt; beyond.status == BAD_ENDS);
    let level = called(&rt, Call::Merge(4), SHEET, ENDS.as_slice(), 400);
    assert!(rt; level.status == BAD_LEVEL && level.needed == 7);
    Ok(())
}

#[test]
fn no_report_is_done(rt: HostRuntime) -> Result<(), Fail> {
    let left = called(&rt, Call::Verdicts, SHEET, [].as_slice(), 0);
    assert!(rt; left.status == DONE && left.needed == 0 && left.refused == 0);
    Ok(())
}

fn checked(rt: &HostRuntime, report: &[u8]) -> (u32, CheckedReport, RefusedReport) {
    let mut checked = CheckedReport {
        facts: 7,
        level: 7,
        canonical: 7,
    };
    let mut refusal = BEFORE;
    let sheet = SHEET.as_bytes();
    let status = xbrlmerge_check(rt.alloc(), sheet, report, &mut checked, &mut refusal);
    (status, checked, refusal)
}

#[test]
fn a_report_is_checked(rt: HostRuntime) -> Result<(), Fail> {
    let (status, found, refusal) = checked(&rt, HUNDRED.as_bytes());
    assert!(rt; status == DONE && refusal == BEFORE);
    assert!(rt; found.facts == 1 && found.level == 0 && found.canonical == 0);
    let (status, found, _) = checked(&rt, TEXT);
    assert!(rt; status == DONE && found.facts == 2 && found.level == 3 && found.canonical == 1);
    let (status, found, refusal) = checked(&rt, b"{");
    assert!(rt; status == REFUSED && found.facts == 7);
    assert!(rt; refusal.report == 1 && refusal.fact == 0 && refusal.number == 1);
    Ok(())
}

/// Checks the reports with a buffer for `count` results, at most 4.
fn checked_all(rt: &HostRuntime, sheet: &str, count: usize) -> (u32, [ReportResult; 4]) {
    let mut results = [UNSET; 4];
    let (sheet, reports, mut refusal) = (sheet.as_bytes(), REPORTS.as_bytes(), BEFORE);
    let status = match results.get_mut(..count) {
        Some(room) => {
            xbrlmerge_check_all(
                rt.alloc(),
                sheet,
                reports,
                ENDS.as_slice(),
                room,
                &mut refusal,
            )
        }
        None => NO_MEMORY,
    };
    (status, results)
}

#[test]
fn several_reports_are_checked(rt: HostRuntime) -> Result<(), Fail> {
    let (status, results) = checked_all(&rt, SHEET, 4);
    assert!(rt; status == REFUSED && results == [ONE_FACT, SECOND_REFUSED, ONE_FACT, UNSET]);
    let (status, results) = checked_all(&rt, SHEET, 2);
    assert!(rt; status == TOO_SHORT && results == [UNSET; 4]);
    let (status, results) = checked_all(&rt, BAD_SHEET, 3);
    assert!(rt; status == SHEET_REFUSED && results == [UNSET; 4]);
    Ok(())
}

#[test]
fn a_report_is_explained(rt: HostRuntime) -> Result<(), Fail> {
    let (alloc, sheet, mut out, mut needed) = (rt.alloc(), SHEET.as_bytes(), [7; 400], 7);
    let report = REPORTS.as_bytes().get(185..354).unwrap_or_default();
    let status = xbrlmerge_explain(alloc, sheet, report, out.as_mut_slice(), &mut needed);
    assert!(rt; status == REFUSED && out.get(..needed) == Some(LINE));
    let status = xbrlmerge_explain_json(alloc, sheet, report, out.as_mut_slice(), &mut needed);
    assert!(rt; status == REFUSED && out.get(..needed) == Some(OBJECT));
    let accepted = HUNDRED.as_bytes();
    let status = xbrlmerge_explain(alloc, sheet, accepted, out.as_mut_slice(), &mut needed);
    assert!(rt; status == DONE && needed == 0);
    Ok(())
}

#[test]
fn the_version_is_written(rt: HostRuntime) -> Result<(), Fail> {
    let mut out = [7; 20];
    let length = xbrlmerge_version(out.as_mut_slice());
    assert!(rt; length < 20 && out.get(length) == Some(&7) && out[1] == b'.');
    Ok(())
}

#[test]
fn refusals_have_names(rt: HostRuntime) -> Result<(), Fail> {
    let mut out = [7; 14];
    assert!(rt; xbrlmerge_refusal_name(13, out.as_mut_slice()) == 13);
    assert!(rt; out.as_slice() == b"UnboundPrefix\x07".as_slice());
    assert!(rt; xbrlmerge_refusal_name(33, out.as_mut_slice()) == 0);
    Ok(())
}
