mod bodies;
mod levels;
mod orders;
mod parts;
mod prefixes;

use oim_merge::{Fault, consolidate_bundle};
use oim_write::StdSink;
use std::alloc::AllocError;
use std::test::Fail;
use test_helpers::asked_again::{SHEET, joined, may_repeat};
use test_helpers::expecting::Expecting;

// After a refused request for memory, the call is repeated. A line on standard error reports the
// refused request to `tests/program/refused_memory`.

const LINE: &str = "\n";

const TWO_URIS: &str = r#""n1":"http://example.org/t","n2":"http://example.org/u""#;

/// True if no report is refused and the merged text is exactly this; None if memory was refused.
fn merges(rt: &HostRuntime, bundle: &[u8], text: &[u8]) -> Option<bool> {
    let mut sink = StdSink::new(Expecting::just(text));
    let accepted = match consolidate_bundle(rt.alloc(), bundle, &mut sink) {
        Ok(refusals) => refusals.as_slice().is_empty(),
        Err(Fault::OutOfMemory(_written)) => return None,
        Err(_fault) => false,
    };
    let out = sink.into_inner();
    let same = accepted && out.is_met();
    if !same {
        let _ = eprintln!(rt; "bytes still expected: {}", out.left());
    }
    Some(same)
}

fn gives(rt: &HostRuntime, bundle: &[&str], text: &[&str]) -> Result<bool, AllocError> {
    let bundle = joined(rt, bundle)?;
    merges_to(rt, &bundle, text)
}

fn merges_to(rt: &HostRuntime, bundle: &[u8], text: &[&str]) -> Result<bool, AllocError> {
    let text = joined(rt, text)?;
    Ok(match merges(rt, bundle, &text) {
        None if may_repeat(rt) => merges(rt, bundle, &text) == Some(true),
        same => same == Some(true),
    })
}

/// The parts of a bundle, and the parts of its merged text.
type Row = (&'static [&'static str], &'static [&'static str]);

fn all_give(rt: &HostRuntime, rows: &[Row]) -> Result<bool, AllocError> {
    let mut all = true;
    for (bundle, text) in rows {
        all = gives(rt, bundle, text)? && all;
    }
    Ok(all)
}

// Each table has its own test: a function that names several takes far longer to prove.
#[test]
fn texts_are_written_as_listed(rt: HostRuntime) -> Result<(), Fail> {
    assert!(rt; all_give(&rt, bodies::ROWS)?);
    Ok(())
}

#[test]
fn texts_declare_the_level_of_their_facts(rt: HostRuntime) -> Result<(), Fail> {
    assert!(rt; all_give(&rt, levels::ROWS)?);
    Ok(())
}

#[test]
fn texts_list_facts_in_order(rt: HostRuntime) -> Result<(), Fail> {
    assert!(rt; all_give(&rt, orders::ROWS)?);
    Ok(())
}

#[test]
fn texts_number_prefixes_by_uri(rt: HostRuntime) -> Result<(), Fail> {
    assert!(rt; all_give(&rt, prefixes::ROWS)?);
    Ok(())
}
