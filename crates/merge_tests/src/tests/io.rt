use oim_merge::{ReadFault, Source, StdSource, read_all};
use oim_write::Encoded;
use std::io::{self, Read};
use std::test::Fail;
use test_helpers::asked_again::{SHEET, may_repeat};
use test_helpers::devices::{STEPS, Step, TestReader, Then};

// After a refused request for memory, the call is repeated on a new device.

/// Returns the result of `read_all`, the number of reads, and the number of the source's failures.
fn read(
    rt: &HostRuntime,
    reader: TestReader<'_>,
    limit: u32,
) -> (Result<Encoded, ReadFault>, u64, u64) {
    let mut source = StdSource::new(reader);
    let mut answer = read_all(rt.alloc(), &mut source, limit);
    if matches!(answer, Err(ReadFault::OutOfMemory)) && may_repeat(rt) {
        source = StdSource::new(reader);
        answer = read_all(rt.alloc(), &mut source, limit);
    }
    let failures = source.failures();
    (answer, source.into_inner().calls, failures)
}

/// True if `read_all` returns this result after at most `limit` + 2 reads. The source must fail
/// exactly once if the result is `Device`, and otherwise never.
fn answers(
    rt: &HostRuntime,
    reader: TestReader<'_>,
    limit: u32,
    want: Result<&[u8], ReadFault>,
) -> bool {
    let (answer, calls, failures) = read(rt, reader, limit);
    let same = match (&answer, want) {
        (Ok(encoded), Ok(bytes)) => encoded.as_bytes() == bytes,
        (Err(fault), Err(other)) => *fault == other,
        _ => false,
    };
    let is_device = matches!(want, Err(ReadFault::Device(_)));
    same && calls <= u64::from(limit) + 2 && failures == u64::from(is_device)
}

/// Tests sources that return these bytes and then end, fail or are interrupted. Each case is run
/// with each of `STEPS`. If the source fails or is interrupted, the fault must contain the number
/// of bytes. If the source ends, `read_all` must return the bytes.
fn stops_behind(rt: &HostRuntime, front: &[u8], limit: u32) -> bool {
    let fault = ReadFault::Device(front.len() as u64);
    for step in STEPS {
        let told = answers(
            rt,
            TestReader::new(front, step, Then::Fails),
            limit,
            Err(fault),
        ) && answers(
            rt,
            TestReader::new(front, step, Then::IsInterrupted),
            limit,
            Err(fault),
        );
        if !told
            || !answers(
                rt,
                TestReader::new(front, step, Then::Ends),
                limit,
                Ok(front),
            )
        {
            return false;
        }
    }
    true
}

#[test]
fn sources_stop_at_each_place_of_a_sheet(rt: HostRuntime) {
    for length in 0..=SHEET.len() {
        let front = SHEET.as_bytes().get(..length).unwrap_or_default();
        assert!(rt; stops_behind(&rt, front, 1000), "at {length}");
    }
}

/// The bytes of a source, and a limit that is not less than their number.
const WITHIN: [(&[u8], u32); 4] = [
    (b"12345", 5),
    (b"12345", 2_147_483_648),
    (b"12", 4),
    (b"", 0),
];

/// True if the result is `TooLong` with each of `STEPS`.
fn is_too_long(rt: &HostRuntime, front: &[u8], then: Then, limit: u32) -> bool {
    for step in STEPS {
        let reader = TestReader::new(front, step, then);
        if !answers(rt, reader, limit, Err(ReadFault::TooLong)) {
            return false;
        }
    }
    true
}

fn is_read_in_twos(rt: &HostRuntime) -> bool {
    let reader = TestReader::new(b"12345", Step::Few(2), Then::Ends);
    answers(rt, reader, 2_147_483_648, Ok(b"12345"))
}

#[test]
fn sources_are_read_to_their_end(rt: HostRuntime) {
    for (bytes, limit) in WITHIN {
        assert!(rt;
            stops_behind(&rt, bytes, limit),
            "at {bytes:?} with the limit {limit}"
        );
    }
    assert!(rt; is_read_in_twos(&rt));
}

#[test]
fn longer_sources_are_too_long(rt: HostRuntime) {
    assert!(rt; is_too_long(&rt, b"12345", Then::Ends, 4));
    assert!(rt; is_too_long(&rt, b"", Then::GoesOn, 0));
    assert!(rt; is_too_long(&rt, b"", Then::GoesOn, 4));
}

const LONG: u32 = 200_000;

/// Returns how often an endless source was read, or None if the result is not `TooLong`.
fn calls_of_endless(rt: &HostRuntime) -> Option<u64> {
    let reader = TestReader::new(b"", Step::Few(30_000), Then::GoesOn);
    let (answer, calls, _) = read(rt, reader, LONG);
    if matches!(answer, Err(ReadFault::TooLong)) {
        Some(calls)
    } else {
        None
    }
}

/// Reads a source of `LONG` equal bytes. Also returns the number of the source's failures.
fn read_repeated(rt: &HostRuntime) -> (Result<Encoded, ReadFault>, u64) {
    let mut source = StdSource::new(io::repeat(7).take(u64::from(LONG)));
    let mut answer = read_all(rt.alloc(), &mut source, LONG);
    if matches!(answer, Err(ReadFault::OutOfMemory)) && may_repeat(rt) {
        source = StdSource::new(io::repeat(7).take(u64::from(LONG)));
        answer = read_all(rt.alloc(), &mut source, LONG);
    }
    (answer, source.failures())
}

fn are_sevens(bytes: &[u8]) -> bool {
    bytes.len() == LONG as usize && bytes.iter().all(|byte| *byte == 7)
}

#[test]
fn long_sources_are_read_in_chunks(rt: HostRuntime) -> Result<(), Fail> {
    assert!(rt; matches!(calls_of_endless(&rt), Some(0..20)));
    let (answer, failures) = read_repeated(&rt);
    assert!(rt; are_sevens(answer?.as_bytes()));
    assert_eq!(rt; failures, 0);
    Ok(())
}
