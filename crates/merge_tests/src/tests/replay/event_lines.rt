use super::with_memory;
use oim_merge::{Event, ReplayFault, read_events};
use std::alloc::{AllocError, Global};
use test_helpers::asked_again::holds;

/// Bytes whose first line is not an event.
const BAD: &[&[u8]] = &[
    // numbers that are zero or too large, begin with zero, or contain other characters than digits
    b"take 01 1",
    b"take 1 01\n",
    b"take 0 1\n",
    b"receive 1 0\n",
    b"send 00\n",
    b"take 4294967296 1\n",
    b"take 1 4294967296\n",
    b"send 18446744073709551617\n",
    b"send +1\n",
    b"send -1\n",
    b"send 1.0\n",
    b"send 0x1\n",
    b"send one\n",
    b"send \xd9\xa1\n",
    // superfluous spaces, and separators other than a space
    b"take 1  1\n",
    b"take  1 1\n",
    b" take 1 1\n",
    b"take 1 1 \n",
    b"take\t1 1\n",
    b"take 1\t1\n",
    b"take 1,1\n",
    b"take\xc2\xa01 1\n",
    b"send 1\r\n",
    // wrong words
    b"Take 1 1\n",
    b"sent 1\n",
    b"send1\n",
    b"# send 1\n",
    b"1 send\n",
    // too few or too many numbers
    b"take\n",
    b"take 1\n",
    b"take 1 \n",
    b"join 1\n",
    b"receive 1\n",
    b"send\n",
    b"send ",
    b"restart \n",
    b"take 1 1 1\n",
    b"join 1 1 1\n",
    b"send 1 1\n",
    b"restart 1 1\n",
    b"receive 1 1 1\n",
    // empty lines, also as the only line
    b"\n",
    b"\n\n",
    b"\nsend 1\n",
    // a byte order mark, a byte that is not UTF-8, and zeros
    b"\xef\xbb\xbfsend 1\n",
    b"\xff\n",
    b"send 1\0\n",
    b"\0",
];

/// Bytes, and the number of their first line that is not an event.
const BAD_LATER: &[(&[u8], u64)] = &[
    // empty lines
    (b"send 1\n\n", 2),
    (b"send 1\n\nsend 1\n", 2),
    // a bad line after good lines, once before another bad line and once at the end
    (b"send 1\nsend 2\nsend 03\nsend", 3),
    (b"send 1\nsend", 2),
];

/// Bytes with their events, which begin and end at these indices of `EVENTS`.
const GOOD: &[(&[u8], usize, usize)] = &[
    (b"", 0, 0),
    (b"send 1", 0, 1),
    (b"send 1\n", 0, 1),
    (b"take 4294967295 1\ntake 1 4294967295", 1, 3),
    (b"restart 10\nreceive 2 3\njoin 4 5\n", 3, 6),
    (
        b"join 4294967295 4294967295\nreceive 4294967295 4294967295\nsend 4294967295\nrestart 4294967295\n",
        6,
        10,
    ),
];

/// The word and the numbers of an event. If the event has only one number, the second is 0.
type Row = (&'static str, u32, u32);

const EVENTS: &[Row] = &[
    ("send", 1, 0),
    ("take", 4294967295, 1),
    ("take", 1, 4294967295),
    ("restart", 10, 0),
    ("receive", 2, 3),
    ("join", 4, 5),
    ("join", 4294967295, 4294967295),
    ("receive", 4294967295, 4294967295),
    ("send", 4294967295, 0),
    ("restart", 4294967295, 0),
];

fn is_bad(alloc: Global, bytes: &[u8], line: u64) -> Result<bool, AllocError> {
    let read = with_memory(read_events(alloc, bytes))?;
    Ok(matches!(read, Err(ReplayFault::BadEvent(at)) if at == line))
}

fn are_refused(alloc: Global) -> Result<bool, AllocError> {
    for bytes in BAD {
        if !is_bad(alloc, bytes, 1)? {
            return Ok(false);
        }
    }
    Ok(true)
}

fn later_are_refused(alloc: Global) -> Result<bool, AllocError> {
    for (bytes, line) in BAD_LATER {
        if !is_bad(alloc, bytes, *line)? {
            return Ok(false);
        }
    }
    Ok(true)
}

fn is_row(event: Event, row: Row) -> bool {
    let (word, first, second) = match event {
        Event::Take(replica, report) => ("take", replica, report),
        Event::Join(replica, other) => ("join", replica, other),
        Event::Send(replica) => ("send", replica, 0),
        Event::Receive(replica, text) => ("receive", replica, text),
        Event::Restart(replica) => ("restart", replica, 0),
    };
    word == row.0 && first == row.1 && second == row.2
}

fn are_rows(events: &[Event], rows: &[Row]) -> bool {
    for (index, event) in events.iter().enumerate() {
        match rows.get(index) {
            Some(row) if is_row(*event, *row) => {}
            _ => return false,
        }
    }
    events.len() == rows.len()
}

fn has_events(alloc: Global, bytes: &[u8], rows: &[Row]) -> Result<bool, AllocError> {
    match with_memory(read_events(alloc, bytes))? {
        Ok(events) => Ok(are_rows(events.as_slice(), rows)),
        Err(_) => Ok(false),
    }
}

fn are_read(alloc: Global) -> Result<bool, AllocError> {
    for (bytes, first, end) in GOOD {
        let Some(rows) = EVENTS.get(*first..*end) else {
            return Ok(false);
        };
        if !has_events(alloc, bytes, rows)? {
            return Ok(false);
        }
    }
    Ok(true)
}

#[test]
fn other_lines_are_bad_events(rt: HostRuntime) {
    assert!(rt; holds(&rt, are_refused) && holds(&rt, later_are_refused));
}

#[test]
fn lines_are_events(rt: HostRuntime) {
    assert!(rt; holds(&rt, are_read));
}
