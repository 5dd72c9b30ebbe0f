use super::{Comes, Outcome, READ, SHEET, is_answer, joined, read_sheet, repeated, told};
use oim_report::Sheet;
use std::alloc::AllocError;
use std::test::Fail;

// The parts of a report. Between `start` and `end`, `piece` is repeated, and then `closing` equally
// often. `counts` lists numbers of repeats with their outcomes.
struct Long<'t> {
    start: &'t str,
    piece: &'t str,
    closing: &'t str,
    end: &'t str,
    counts: &'t [(usize, Outcome)],
}

const LIMITS: [Long; 5] = [
    // JSON is nested at most 127 levels deep
    Long {
        start: r#"{"documentInfo":{"documentType":"https://xbrl.org/2021/xbrl-json"},"eg:x":"#,
        piece: "[",
        closing: "]",
        end: "}",
        counts: &[(100, READ), (126, READ), (127, (1, 0)), (128, (1, 0))],
    },
    // a reference has at most 65,536 bytes, as written and as a URL
    Long {
        start: r#"{"documentInfo":{"documentType":"https://xbrl.org/2021/xbrl-json","taxonomy":[""#,
        piece: "a",
        closing: "",
        end: r#""]}}"#,
        counts: &[(65_536, READ), (65_537, (7, 0))],
    },
    Long {
        start: r#"{"documentInfo":{"documentType":"https://xbrl.org/2021/xbrl-json","taxonomy":["http://x.org/"#,
        piece: "^",
        closing: "",
        end: r#""]}}"#,
        counts: &[(21_841, READ), (21_842, (7, 0))],
    },
    // a base URL has at most 65,536 bytes
    Long {
        start: r#"{"documentInfo":{"documentType":"https://xbrl.org/2021/xbrl-json","baseURL":"http://x.org/"#,
        piece: "a",
        closing: "",
        end: r#""},"facts":{}}"#,
        counts: &[(65_523, READ), (65_524, (6, 0))],
    },
    // the limit of a reference also applies to the URL that the reference resolves to
    Long {
        start: r#"{"documentInfo":{"documentType":"https://xbrl.org/2021/xbrl-json","baseURL":"http://x.org/r","taxonomy":[""#,
        piece: "a",
        closing: "",
        end: r#""]}}"#,
        counts: &[(65_523, READ), (65_524, (7, 0))],
    },
];

fn report(rt: &HostRuntime, long: &Long, count: usize) -> Result<Vec<u8>, AllocError> {
    let opened = repeated(rt, long.piece, count)?;
    let closed = repeated(rt, long.closing, count)?;
    joined(rt, &[long.start, &opened, &closed, long.end])
}

fn count_holds(
    rt: &HostRuntime,
    sheet: &Sheet,
    long: &Long,
    count: usize,
    outcome: Outcome,
) -> Result<bool, AllocError> {
    let report = report(rt, long, count)?;
    Ok(is_answer(rt, sheet, &report, &Comes(outcome)))
}

fn limit_holds(rt: &HostRuntime, sheet: &Sheet, long: &Long) -> Result<bool, AllocError> {
    for (count, outcome) in long.counts {
        if !count_holds(rt, sheet, long, *count, *outcome)? {
            return Ok(told(rt, false, long.start));
        }
    }
    Ok(true)
}

fn all_limits_hold(rt: &HostRuntime, sheet: &Sheet) -> Result<bool, AllocError> {
    for long in &LIMITS {
        if !limit_holds(rt, sheet, long)? {
            return Ok(false);
        }
    }
    Ok(true)
}

#[test]
fn nesting_and_texts_have_limits(rt: HostRuntime) -> Result<(), Fail> {
    let sheet = read_sheet(&rt, SHEET)?;
    assert!(rt; all_limits_hold(&rt, &sheet)?);
    Ok(())
}
