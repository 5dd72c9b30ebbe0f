// Devices for tests: readers and writers. Some devices fail, some are interrupted, and some never
// end.
use crate::expecting::Expecting;
use std::alloc::{AllocError, Global};
use std::io::{self, ErrorKind, Read, Write};

/// How a reader behaves at its end, or a writer when it is full.
#[derive(Clone, Copy, Debug, PartialEq, Eq)]
pub enum Then {
    /// Each further call reads or writes no bytes.
    Ends,
    /// Each further call returns an error of the kind `Other`.
    Fails,
    /// Each further call returns an error of the kind `Interrupted`.
    IsInterrupted,
    /// Each further call reads zeros, or fails to write.
    GoesOn,
}

/// How much of a request a device satisfies at once.
#[derive(Clone, Copy, Debug, PartialEq, Eq)]
pub enum Step {
    All,
    /// Half of the request, but at least one byte.
    Half,
    /// At most this many bytes.
    Few(usize),
}

impl Step {
    fn most(self, asked: usize) -> usize {
        match self {
            Step::All => asked,
            Step::Half => (asked / 2).max(1),
            Step::Few(most) => most,
        }
    }
}

pub const STEPS: [Step; 3] = [Step::All, Step::Half, Step::Few(1)];

fn fault(then: Then) -> io::Error {
    let kind = match then {
        Then::IsInterrupted => ErrorKind::Interrupted,
        _ => ErrorKind::Other,
    };
    io::Error::from(kind)
}

/// A reader that returns `left` in steps, then behaves as `then`, and counts the calls.
#[derive(Clone, Copy)]
pub struct TestReader<'a> {
    left: &'a [u8],
    step: Step,
    then: Then,
    pub calls: u64,
}

impl<'a> TestReader<'a> {
    pub fn new(left: &'a [u8], step: Step, then: Then) -> TestReader<'a> {
        TestReader {
            left,
            step,
            then,
            calls: 0,
        }
    }
}

impl Read for TestReader<'_> {
    fn read(&mut self, buffer: &mut [u8]) -> io::Result<usize> {
        self.calls = self.calls.saturating_add(1);
        let room = buffer.len().min(self.step.most(buffer.len()));
        if self.left.is_empty() {
            return match self.then {
                Then::Ends => Ok(0),
                Then::GoesOn => {
                    buffer[..room].fill(0);
                    Ok(room)
                }
                then => Err(fault(then)),
            };
        }
        let n = room.min(self.left.len());
        buffer[..n].copy_from_slice(&self.left[..n]);
        self.left = &self.left[n..];
        Ok(n)
    }
}

/// A writer that takes and stores `room` bytes in steps, then behaves as `then`.
#[derive(Drop)]
pub struct TestWriter {
    held: Vec<u8>,
    step: Step,
    room: usize,
    then: Then,
}

impl TestWriter {
    /// Reserves memory for `room` bytes, so that writing requests no memory.
    pub fn new(
        alloc: Global,
        step: Step,
        room: usize,
        then: Then,
    ) -> Result<TestWriter, AllocError> {
        Ok(TestWriter {
            held: Vec::with_capacity(alloc, room)?,
            step,
            room,
            then,
        })
    }

    pub fn held(&self) -> &[u8] {
        self.held.as_slice()
    }
}

impl Write for TestWriter {
    fn write(&mut self, bytes: &[u8]) -> io::Result<usize> {
        let room = self.room.saturating_sub(self.held.len());
        if room == 0 {
            return match self.then {
                Then::Ends => Ok(0),
                then => Err(fault(then)),
            };
        }
        let n = bytes.len().min(self.step.most(bytes.len())).min(room);
        self.held.extend_from_slice(&bytes[..n])?;
        Ok(n)
    }

    fn flush(&mut self) -> io::Result<()> {
        Ok(())
    }
}

/// Takes bytes like `TestWriter`, but compares them with a text instead of storing them.
#[derive(Clone, Copy)]
pub struct ComparingWriter<'a> {
    text: Expecting<'a>,
    step: Step,
    room: usize,
    then: Then,
}

impl<'a> ComparingWriter<'a> {
    pub fn new(text: &'a [u8], step: Step, room: usize, then: Then) -> ComparingWriter<'a> {
        ComparingWriter {
            text: Expecting::just(text),
            step,
            room,
            then,
        }
    }

    /// Returns whether the bytes taken are exactly the text.
    pub fn is_met(&self) -> bool {
        self.text.is_met()
    }
}

impl Write for ComparingWriter<'_> {
    fn write(&mut self, bytes: &[u8]) -> io::Result<usize> {
        if self.room == 0 {
            return match self.then {
                Then::Ends => Ok(0),
                then => Err(fault(then)),
            };
        }
        let n = bytes.len().min(self.step.most(bytes.len())).min(self.room);
        self.room -= n;
        self.text.write(&bytes[..n])
    }

    fn flush(&mut self) -> io::Result<()> {
        Ok(())
    }
}

/// Takes every byte, and fails to flush.
#[derive(Clone, Copy)]
pub struct NeverFlushed;

impl Write for NeverFlushed {
    fn write(&mut self, bytes: &[u8]) -> io::Result<usize> {
        Ok(bytes.len())
    }

    fn flush(&mut self) -> io::Result<()> {
        Err(fault(Then::Fails))
    }
}

/// Takes `room` bytes, then fails to write, and counts its flushes.
#[derive(Clone, Copy)]
pub struct FullAfter {
    room: usize,
    pub flushes: u64,
}

impl FullAfter {
    pub fn new(room: usize) -> FullAfter {
        FullAfter { room, flushes: 0 }
    }
}

impl Write for FullAfter {
    fn write(&mut self, bytes: &[u8]) -> io::Result<usize> {
        let taken = bytes.len().min(self.room);
        if taken == 0 && !bytes.is_empty() {
            return Err(fault(Then::Fails));
        }
        self.room -= taken;
        Ok(taken)
    }

    fn flush(&mut self) -> io::Result<()> {
        self.flushes = self.flushes.saturating_add(1);
        Ok(())
    }
}
