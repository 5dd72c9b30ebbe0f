use super::{HUNDRED_ONE, NINE_EVENTS, THREE, played, replayed, with_memory};
use crate::tests::calls::{ABOVE, HUNDRED, report};
use crate::tests::sinks::sheet;
use fact_base::Base;
use oim_merge::Replayed;
use oim_report::{Sheet, read_report};
use oim_write::{Encoded, text};
use std::alloc::{AllocError, Global};
use test_helpers::asked_again::holds;

// Makes the exchange of the nine events with calls that read, take, join and write.

fn take(alloc: Global, base: &mut Base<'_>, bytes: &[u8]) -> Result<(), AllocError> {
    let Ok(report) = read_report(alloc, base.sheet(), bytes) else {
        return Err(AllocError);
    };
    base.take(&report)
}

/// A base that takes a report with these facts, and then receives these texts.
fn base_of<'s>(
    alloc: Global,
    sheet: &'s Sheet,
    facts: &str,
    texts: &[&[u8]],
) -> Result<Base<'s>, AllocError> {
    let mut base = Base::new(alloc, sheet);
    let report = report(alloc, facts)?;
    take(alloc, &mut base, report.as_bytes())?;
    for text in texts {
        take(alloc, &mut base, text)?;
    }
    Ok(base)
}

fn text_of(
    alloc: Global,
    sheet: &Sheet,
    facts: &str,
    texts: &[&[u8]],
) -> Result<Encoded, AllocError> {
    let base = base_of(alloc, sheet, facts, texts)?;
    text(alloc, &base)
}

/// The text of the first replica after it joined the second, which received this text.
fn joined_text(alloc: Global, sheet: &Sheet, one: &[u8]) -> Result<Encoded, AllocError> {
    let mut base = base_of(alloc, sheet, HUNDRED, &[])?;
    let other = base_of(alloc, sheet, HUNDRED_ONE, &[one])?;
    join(&mut base, &other)?;
    text(alloc, &base)
}

fn join(base: &mut Base<'_>, other: &Base<'_>) -> Result<(), AllocError> {
    if !base.same_sheet(other.sheet()) {
        return Err(AllocError);
    }
    base.join(other)
}

/// True if calls write this text of a replica that takes a report with these facts, and then
/// receives these texts.
fn is_text_of(
    alloc: Global,
    sheet: &Sheet,
    facts: &str,
    texts: &[&[u8]],
    bytes: &[u8],
) -> Result<bool, AllocError> {
    let text = text_of(alloc, sheet, facts, texts)?;
    Ok(text.as_bytes() == bytes)
}

fn replica_writes(
    alloc: Global,
    replayed: &Replayed<'_>,
    number: usize,
    bytes: &[u8],
) -> Result<bool, AllocError> {
    match replayed.replica(number) {
        Some(base) => Ok(text(alloc, base)?.as_bytes() == bytes),
        None => Ok(false),
    }
}

fn first_is_alike(
    alloc: Global,
    sheet: &Sheet,
    replayed: &Replayed<'_>,
    one: &[u8],
) -> Result<bool, AllocError> {
    let text = joined_text(alloc, sheet, one)?;
    replica_writes(alloc, replayed, 1, text.as_bytes())
}

fn third_is_alike(
    alloc: Global,
    sheet: &Sheet,
    replayed: &Replayed<'_>,
    texts: &[&[u8]],
) -> Result<bool, AllocError> {
    let text = text_of(alloc, sheet, ABOVE, texts)?;
    replica_writes(alloc, replayed, 3, text.as_bytes())
}

/// The second replica has the same facts when it sends its text and at the end.
fn are_alike(alloc: Global, sheet: &Sheet, replayed: &Replayed<'_>) -> Result<bool, AllocError> {
    let (Some(one), Some(two)) = (replayed.sent(1), replayed.sent(2)) else {
        return Ok(false);
    };
    let (one, two) = (one.as_bytes(), two.as_bytes());
    Ok(
        is_text_of(alloc, sheet, HUNDRED, &[], one)?
            && is_text_of(alloc, sheet, HUNDRED_ONE, &[one], two)?
            && first_is_alike(alloc, sheet, replayed, one)?
            && replica_writes(alloc, replayed, 2, two)?
            && third_is_alike(alloc, sheet, replayed, &[two, one])?,
    )
}

fn calls_give_the_same(alloc: Global) -> Result<bool, AllocError> {
    let sheet = sheet(alloc)?;
    match with_memory(played(alloc, &sheet, 3, THREE, NINE_EVENTS))? {
        Ok(replayed) => are_alike(alloc, &sheet, &replayed),
        Err(_) => Ok(false),
    }
}

/// One replica takes the second report, then the first.
const NEWER_FIRST: &str = "take 1 2\ntake 1 1\n";

/// True if a replica that takes the two texts as reports writes the second text.
fn are_taken(alloc: Global, sheet: &Sheet, texts: &[Encoded; 2]) -> Result<bool, AllocError> {
    match with_memory(replayed(alloc, sheet, 1, texts, NEWER_FIRST))? {
        Ok(replayed) => replica_writes(alloc, &replayed, 1, texts[1].as_bytes()),
        Err(_) => Ok(false),
    }
}

fn second_is_taken_first(alloc: Global, sheet: &Sheet, one: Encoded) -> Result<bool, AllocError> {
    let two = text_of(alloc, sheet, HUNDRED_ONE, &[one.as_bytes()])?;
    are_taken(alloc, sheet, &[one, two])
}

fn sent_texts_are_reports(alloc: Global) -> Result<bool, AllocError> {
    let sheet = sheet(alloc)?;
    let one = text_of(alloc, &sheet, HUNDRED, &[])?;
    second_is_taken_first(alloc, &sheet, one)
}

#[test]
fn calls_exchange_the_same_facts(rt: HostRuntime) {
    assert!(rt; holds(&rt, calls_give_the_same));
}

#[test]
fn sent_texts_are_taken_as_reports(rt: HostRuntime) {
    assert!(rt; holds(&rt, sent_texts_are_reports));
}
