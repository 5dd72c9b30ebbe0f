mod bases;
mod many;
mod pairs;
mod small_reports;
mod verdicts;

use fact_base::Base;
use oim_report::{Report, Sheet};
use test_helpers::asked_again::{joined, may_repeat, read};

// The text of a report with one fact, up to the value.
const FACT: &str =
    r#"{"documentInfo":{"documentType":"https://xbrl.org/2021/xbrl-json","namespaces":{"eg":"http://example.org/t"}},"facts":{"a":{"#;

// The text after the value: for a number, a text and a name.
const OF_A: &str = r#","dimensions":{"concept":"eg:A"}}}}"#;

const OF_T: &str = r#","dimensions":{"concept":"eg:T"}}}}"#;

const OF_Q: &str = r#","dimensions":{"concept":"eg:Q"}}}}"#;

// Long contracts make calls slow to prove: each such call stands alone in a function.
fn take_once(base: &mut Base<'_>, report: &Report<'_>) -> bool {
    base.same_sheet(report.sheet()) && base.take(report).is_ok()
}

// Takes a report. If memory is refused, the base must keep its number of facts, and the call is
// repeated.
fn take(rt: &HostRuntime, base: &mut Base<'_>, report: &Report<'_>) -> bool {
    let count = base.fact_count();
    take_once(base, report)
        || base.fact_count() == count && may_repeat(rt) && take_once(base, report)
}

// Takes a report with this text, or returns false if the report is refused.
fn take_text(rt: &HostRuntime, base: &mut Base<'_>, text: &[u8]) -> bool {
    match read(rt, base.sheet(), text) {
        Ok(report) => take(rt, base, &report),
        Err(_) => false,
    }
}

// Takes a report whose text consists of three parts.
fn add(rt: &HostRuntime, base: &mut Base<'_>, start: &str, text: &str, end: &str) -> bool {
    match joined(rt, &[start, text, end]) {
        Ok(report) => take_text(rt, base, &report),
        Err(_) => false,
    }
}

fn base_between<'s>(
    rt: &HostRuntime,
    sheet: &'s Sheet,
    start: &str,
    texts: &[&str],
    end: &str,
) -> Option<Base<'s>> {
    let mut base = Base::new(rt.alloc(), sheet);
    for text in texts {
        if !add(rt, &mut base, start, text, end) {
            return None;
        }
    }
    Some(base)
}

fn base_of<'s>(rt: &HostRuntime, sheet: &'s Sheet, values: &[&str]) -> Option<Base<'s>> {
    base_between(rt, sheet, FACT, values, OF_A)
}
