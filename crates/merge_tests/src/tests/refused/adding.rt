ghost use Rattle.std.specs.Prelude.{◌≡◌, ◌+◌, ◌-◌, ◌^◌, ◌<◌, OnOk};

use super::BOTH;
use super::merges::{THREE_LINES, THREE_SETS, came_to};
use crate::tests::sinks::TOUCHING;
use oim_merge::{
    Consolidation, Fault, Merged, Refusals, SourceLines, TracedMerge, VerdictLines, write_verdicts,
    write_within,
};
use oim_report::Sheet;
use oim_value::Level;
use oim_write::{Sink, StdSink};
use std::alloc::{AllocError, Global};
use std::test::Fail;
use test_helpers::asked_again::{SHEET, joined, may_repeat, read_sheet};
use test_helpers::expecting::Expecting;

// Tests reports that are added one at a time. After a refused request for memory, the report is
// added again. The report must be counted once, and its facts must be added once.

/// A report with one of the facts of `THREE_SETS`.
const ONE_OF_THREE: &str =
    r#"{"documentInfo":{"documentType":"https://xbrl.org/2021/xbrl-json","namespaces":{"eg":"http://example.org/t"}},"facts":{"d":{"value":"3","decimals":0,"dimensions":{"concept":"eg:B"}}}}"#;

/// The source lines if the reports are an empty file, `THREE_SETS` and `ONE_OF_THREE`.
const SIX_SOURCES: &[u8] =
    b"f1 2 \"a\"\nf2 2 \"b\"\nf3 2 \"c\"\nf4 2 \"d\"\nf4 3 \"d\"\nf5 2 \"e\"\n";

fn add(
    rt: &HostRuntime,
    consolidation: &mut Consolidation<'_>,
    report: &str,
) -> Result<(), AllocError>
    requires { consolidation.old.reports + 1 < 2 ^ 64 }
    ensures { OnOk result (consolidation.new.reports ≡ consolidation.old.reports + 1) }
{
    match consolidation.add(report.as_bytes()) {
        Err(_) if may_repeat(rt) => consolidation.add(report.as_bytes()),
        added => added,
    }
}

fn add_three(
    rt: &HostRuntime,
    consolidation: &mut Consolidation<'_>,
    one: &str,
    other: &str,
) -> Result<(), AllocError>
    requires { consolidation.old.reports + 3 < 2 ^ 64 }
{
    add(rt, consolidation, "")?;
    add(rt, consolidation, one)?;
    add(rt, consolidation, other)
}

fn three<'s>(
    rt: &HostRuntime,
    sheet: &'s Sheet,
    one: &str,
    other: &str,
) -> Option<Consolidation<'s>> {
    let mut consolidation = Consolidation::new(rt.alloc(), sheet);
    if add_three(rt, &mut consolidation, one, other).is_err() {
        return None;
    }
    Some(consolidation)
}

fn write_base<S: Sink>(
    alloc: Global,
    consolidation: Consolidation<'_>,
    sink: &mut S,
) -> Result<Refusals, Fault>
    requires { S.failures sink.old < 2 ^ 64 - 1 }
{
    let Merged { base, refusals } = consolidation.into_merged()?;
    write_within(alloc, &base, refusals, Level::Consistent, sink)
}

fn list_base<S: Sink>(
    alloc: Global,
    consolidation: Consolidation<'_>,
    sink: &mut S,
) -> Result<Refusals, Fault>
    requires { S.failures sink.old < 2 ^ 64 - 1 }
{
    let Merged { base, refusals } = consolidation.into_merged()?;
    write_verdicts(alloc, &base, refusals, &VerdictLines, sink)
}

/// Writes the merged text. If `of_base` is set, the base is taken out of the consolidation first.
fn finishes_once(rt: &HostRuntime, sheet: &Sheet, of_base: bool, text: &[u8]) -> Option<bool> {
    let Some(consolidation) = three(rt, sheet, TOUCHING, TOUCHING) else {
        return Some(false);
    };
    let mut sink = StdSink::new(Expecting::just(text));
    let answer = if of_base {
        write_base(rt.alloc(), consolidation, &mut sink)
    } else {
        consolidation.finish(Level::Consistent, &mut sink)
    };
    came_to(rt, answer, sink, text)
}

/// Writes the verdict lines. If `of_base` is set, the base is taken out of the consolidation first.
fn lists_once(rt: &HostRuntime, sheet: &Sheet, of_base: bool) -> Option<bool> {
    let Some(consolidation) = three(rt, sheet, THREE_SETS, ONE_OF_THREE) else {
        return Some(false);
    };
    let mut sink = StdSink::new(Expecting::just(THREE_LINES));
    let answer = if of_base {
        list_base(rt.alloc(), consolidation, &mut sink)
    } else {
        consolidation.finish_lines(&mut sink)
    };
    came_to(rt, answer, sink, THREE_LINES)
}

fn trace(rt: &HostRuntime, merge: &mut TracedMerge<'_>, report: &str) -> Result<(), AllocError>
    requires { merge.old.added.reports + 1 < 2 ^ 64 }
    ensures { OnOk result (merge.new.added.reports ≡ merge.old.added.reports + 1) }
{
    match merge.add(report.as_bytes()) {
        Err(_) if may_repeat(rt) => merge.add(report.as_bytes()),
        added => added,
    }
}

fn trace_three(rt: &HostRuntime, merge: &mut TracedMerge<'_>) -> Result<(), AllocError>
    requires { merge.old.added.reports + 3 < 2 ^ 64 }
{
    trace(rt, merge, "")?;
    trace(rt, merge, THREE_SETS)?;
    trace(rt, merge, ONE_OF_THREE)
}

fn three_traced<'s>(rt: &HostRuntime, sheet: &'s Sheet) -> Option<TracedMerge<'s>> {
    let mut merge = TracedMerge::new(rt.alloc(), sheet);
    if trace_three(rt, &mut merge).is_err() {
        return None;
    }
    Some(merge)
}

fn traces_once(rt: &HostRuntime, sheet: &Sheet) -> Option<bool> {
    let Some(merge) = three_traced(rt, sheet) else {
        return Some(false);
    };
    let mut sink = StdSink::new(Expecting::just(SIX_SOURCES));
    let answer = merge.finish(&SourceLines, &mut sink);
    came_to(rt, answer, sink, SIX_SOURCES)
}

fn finishes(rt: &HostRuntime, sheet: &Sheet, of_base: bool, text: &[u8]) -> bool {
    match finishes_once(rt, sheet, of_base, text) {
        None => finishes_once(rt, sheet, of_base, text) == Some(true),
        Some(met) => met,
    }
}

fn lists(rt: &HostRuntime, sheet: &Sheet, of_base: bool) -> bool {
    match lists_once(rt, sheet, of_base) {
        None => lists_once(rt, sheet, of_base) == Some(true),
        Some(met) => met,
    }
}

#[test]
fn reports_that_are_added_are_merged(rt: HostRuntime) -> Result<(), Fail> {
    let sheet = read_sheet(&rt, SHEET)?;
    let text = joined(&rt, &BOTH)?;
    assert!(rt; finishes(&rt, &sheet, false, &text));
    assert!(rt; finishes(&rt, &sheet, true, &text));
    Ok(())
}

#[test]
fn reports_that_are_added_are_judged(rt: HostRuntime) -> Result<(), Fail> {
    let sheet = read_sheet(&rt, SHEET)?;
    assert!(rt; lists(&rt, &sheet, false) && lists(&rt, &sheet, true));
    Ok(())
}

#[test]
fn reports_that_are_added_are_traced(rt: HostRuntime) -> Result<(), Fail> {
    let sheet = read_sheet(&rt, SHEET)?;
    let traced = match traces_once(&rt, &sheet) {
        None => traces_once(&rt, &sheet),
        traced => traced,
    };
    assert!(rt; traced == Some(true));
    Ok(())
}
