ghost use Rattle.std.specs.Prelude.{◌-◌, ◌^◌, ◌<◌};

use oim_write::{Sink, SinkBuffer, SinkError, StdSink, WriteFault, put_all};
use std::alloc::{AllocError, Global};
use std::io::{self, ErrorKind, Write};
use std::test::Fail;
use test_helpers::asked_again::holds;
use test_helpers::devices::{ComparingWriter, STEPS, Step, Then};

// Tests writers that stop after part of a text or all of it, with and without a buffer.

/// The result of a run: the length that the fault reported, the number of bytes taken, the number
/// of the sink's failures, and whether the writer took exactly the bytes that it expects.
type Left = (Option<u64>, u64, u64, bool);

fn left(told: Option<u64>, sink: StdSink<ComparingWriter<'_>>) -> Left {
    let (taken, failures) = (sink.taken(), sink.failures());
    (told, taken, failures, sink.into_inner().is_met())
}

fn put(writer: ComparingWriter<'_>, text: &[u8]) -> Left {
    let mut sink = StdSink::new(writer);
    let told = put_all(&mut sink, text).err();
    left(told.map(|taken| taken as u64), sink)
}

/// Pushes the text in three pieces. The last two pieces begin at these indices.
fn push_pieces<S: Sink>(
    buffer: &mut SinkBuffer,
    sink: &mut S,
    text: &[u8],
    indices: (usize, usize),
) -> Result<(), WriteFault>
    requires { S.failures sink.old < 2 ^ 64 - 1 }
{
    let (front, last) = text
        .split_at_checked(indices.1)
        .unwrap_or((text, b"".as_slice()));
    let (first, second) = front
        .split_at_checked(indices.0)
        .unwrap_or((front, b"".as_slice()));
    buffer.push(sink, first)?;
    buffer.push(sink, second)?;
    buffer.push(sink, last)?;
    buffer.flush(sink)
}

fn push(
    alloc: Global,
    writer: ComparingWriter<'_>,
    text: &[u8],
    indices: (usize, usize),
) -> Result<Left, AllocError> {
    let mut sink = StdSink::new(writer);
    let mut buffer = SinkBuffer::new(alloc)?;
    match push_pieces(&mut buffer, &mut sink, text, indices) {
        Ok(()) => Ok(left(None, sink)),
        Err(WriteFault::Device(written)) => Ok(left(Some(written), sink)),
        Err(WriteFault::OutOfMemory(_)) => Err(AllocError),
    }
}

/// True if a writer of this size takes the first bytes of the text. If the writer is too small for
/// the whole text, the fault must report how many bytes were taken.
fn stops_at(
    alloc: Global,
    text: &[u8],
    indices: (usize, usize),
    room: usize,
    step: Step,
) -> Result<bool, AllocError> {
    let front = text.get(..room).unwrap_or(text);
    let fails = room < text.len();
    let told = if fails { Some(room as u64) } else { None };
    let expected = (told, front.len() as u64, u64::from(fails), true);
    for then in [Then::Ends, Then::Fails, Then::IsInterrupted] {
        let writer = ComparingWriter::new(front, step, room, then);
        if put(writer, text) != expected || push(alloc, writer, text, indices)? != expected {
            return Ok(false);
        }
    }
    Ok(true)
}

fn stops(
    alloc: Global,
    text: &[u8],
    indices: (usize, usize),
    room: usize,
) -> Result<bool, AllocError> {
    for step in STEPS {
        if !stops_at(alloc, text, indices, room, step)? {
            return Ok(false);
        }
    }
    Ok(true)
}

const LINE: &str = "1 f1 f3 inconsistent apart f1 f3\n";

/// How many bytes a writer takes before it stops: near the end of the first chunk (65,536 bytes),
/// near the end of a piece (65,990 bytes), and near both ends of the text.
const LONG_ROOMS: [usize; 9] = [0, 1, 65_535, 65_536, 65_537, 65_989, 65_990, 65_999, 66_000];

fn stops_about_a_chunk(alloc: Global) -> Result<bool, AllocError> {
    let text = LINE.repeat(alloc, 2000)?;
    for room in LONG_ROOMS {
        // the first two pieces together have exactly the 65,536 bytes of a chunk, or 65,990 bytes,
        // which is more than a chunk
        if !stops(alloc, text.as_bytes(), (60_000, 65_536), room)?
            || !stops(alloc, text.as_bytes(), (65_535, 65_990), room)?
        {
            return Ok(false);
        }
    }
    Ok(text.as_bytes().len() == 66_000)
}

#[test]
fn a_writer_may_stop_about_a_chunk(rt: HostRuntime) {
    assert!(rt; holds(&rt, stops_about_a_chunk));
}

/// A writer whose first write is interrupted and whose later writes succeed.
#[derive(Clone, Copy)]
struct InterruptedOnce {
    is_over: bool,
}

impl Write for InterruptedOnce {
    fn write(&mut self, bytes: &[u8]) -> io::Result<usize> {
        if self.is_over {
            return Ok(bytes.len());
        }
        self.is_over = true;
        Err(io::Error::from(ErrorKind::Interrupted))
    }

    fn flush(&mut self) -> io::Result<()> {
        Ok(())
    }
}

#[test]
fn an_interrupted_write_is_not_tried_again(rt: HostRuntime) -> Result<(), Fail> {
    let mut sink = StdSink::new(InterruptedOnce { is_over: false });
    assert!(rt; sink.put(b"ab") == Err(SinkError));
    assert!(rt; sink.failures() == 1 && sink.taken() == 0);
    assert!(rt; sink.put(b"ab") == Ok(2));
    assert!(rt; sink.failures() == 1 && sink.taken() == 2);
    Ok(())
}
