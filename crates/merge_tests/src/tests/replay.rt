mod by_hand;
mod event_lines;
mod schedules;

use crate::tests::calls::{ABOVE, HUNDRED, reports};
use fact_base::Base;
use oim_merge::{ReplayFault, Replayed, read_events, replay};
use oim_report::Sheet;
use oim_write::{Encoded, text};
use std::alloc::{AllocError, Global};

// Tests `read_events` and `replay`. After a refused request for memory, the calls are repeated.

const HUNDRED_ONE: &str = r#""a":{"value":"101","decimals":0,"dimensions":{"concept":"eg:A"}}"#;

const THREE: &[&str] = &[HUNDRED, HUNDRED_ONE, ABOVE];

/// Three replicas each take a report. Two replicas receive texts, and one replica joins another.
const NINE_EVENTS: &str =
    "take 1 1\nsend 1\ntake 2 2\nreceive 2 1\nsend 2\ntake 3 3\nreceive 3 2\nreceive 3 1\njoin 1 2\n";

fn replayed<'s>(
    alloc: Global,
    sheet: &'s Sheet,
    n: usize,
    reports: &[Encoded],
    lines: &str,
) -> Result<Replayed<'s>, ReplayFault> {
    let events = read_events(alloc, lines.as_bytes())?;
    replay(alloc, sheet, n, reports, &events)
}

/// `each` contains the facts of each report as one text.
fn played<'s>(
    alloc: Global,
    sheet: &'s Sheet,
    n: usize,
    each: &[&str],
    lines: &str,
) -> Result<Replayed<'s>, ReplayFault> {
    let reports = reports(alloc, each)?;
    replayed(alloc, sheet, n, &reports, lines)
}

/// Returns `AllocError` if memory was refused, otherwise the result.
fn with_memory<T: Drop>(
    answer: Result<T, ReplayFault>,
) -> Result<Result<T, ReplayFault>, AllocError> {
    match answer {
        Err(ReplayFault::OutOfMemory) => Err(AllocError),
        answer => Ok(answer),
    }
}

fn are_parts(bytes: &[u8], parts: &[&str]) -> bool {
    let mut left = bytes;
    for part in parts {
        match left.strip_prefix(part.as_bytes()) {
            Some(rest) => left = rest,
            None => return false,
        }
    }
    left.is_empty()
}

fn writes(alloc: Global, base: &Base<'_>, parts: &[&str]) -> Result<bool, AllocError> {
    let text = text(alloc, base)?;
    Ok(are_parts(text.as_bytes(), parts))
}
