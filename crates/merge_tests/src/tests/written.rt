mod writers;

use oim_write::{Encoded, Sink, SinkBuffer, StdSink, identifier, put_all};
use std::alloc::{AllocError, Global};
use test_helpers::asked_again::holds;

fn is_identifier(alloc: Global, row: (u128, u128, &str)) -> Result<bool, AllocError> {
    Ok(identifier(alloc, row.0, row.1)?.as_str() == row.2)
}

fn are_identifiers(alloc: Global) -> Result<bool, AllocError> {
    for row in [
        (1, 1, "f1"),
        (9, 9, "f9"),
        (3, 10, "f03"),
        (10, 10, "f10"),
        (7, 1000, "f0007"),
    ] {
        if !is_identifier(alloc, row)? {
            return Ok(false);
        }
    }
    Ok(true)
}

fn is_encoded(alloc: Global) -> Result<bool, AllocError> {
    Ok(Encoded::new(alloc, b"ab")?.as_bytes() == b"ab".as_slice())
}

/// True if the writer took two pieces through a buffer and a third piece directly, and all bytes
/// were counted.
fn passes(alloc: Global) -> Result<bool, AllocError> {
    let mut sink = StdSink::new(Vec::new(alloc));
    let mut buffer = SinkBuffer::new(alloc)?;
    if buffer.push(&mut sink, b"one ").is_err() || buffer.push(&mut sink, b"two").is_err() {
        return Err(AllocError);
    }
    if buffer.flush(&mut sink).is_err() || put_all(&mut sink, b" three").is_err() {
        return Err(AllocError);
    }
    let counted = buffer.written() == 7 && sink.taken() == 13 && sink.failures() == 0;
    Ok(counted && sink.into_inner().as_slice() == b"one two three".as_slice())
}

fn all_are_written(alloc: Global) -> Result<bool, AllocError> {
    Ok(are_identifiers(alloc)? && is_encoded(alloc)? && passes(alloc)?)
}

#[test]
fn pieces_come_to_the_writer(rt: HostRuntime) {
    assert!(rt; holds(&rt, all_are_written));
}
