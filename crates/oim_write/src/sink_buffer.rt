ghost use Rattle.std.specs.Prelude.{◌≡◌, ◌-◌, ◌^◌, ◌<◌, [], IfOk, IfErr, OnOk};
ghost use Rattle.oim_write.specs.SinkBuffer.{Breaks, Passes, nothing_yet};
ghost use Rattle.oim_write.specs.Sink.{failures_after_fault, failures_after_write, written_of};

use crate::sink::{Sink, put_all};
use crate::write_fault::WriteFault;
use std::alloc::{AllocError, Global};
use std::marker::Model;

/// Once at least this many bytes wait, all waiting bytes are written to the sink.
const CHUNK: usize = 1 << 16;

/// A buffer for a text on its way to a sink. It counts the bytes that the sink took and stores the
/// waiting bytes until they fill a chunk or are flushed. A buffer must not be used after a fault.
#[derive(Drop)]
pub struct SinkBuffer {
    buffer: Vec<u8>,
    written: u64,
}

impl Model for SinkBuffer {
    ghost use Rattle.std.specs.Prelude.{◌-◌, ◌^◌, ◌≤◌};
    ghost use Rattle.oim_write.specs.SinkBuffer.{Pending};

    ghost Value = { Pending };

    ghost view = { λ p. record { written = p.written; bytes = p.buffer.items } };

    ghost invariant = { λ p. p.written ≤ 2 ^ 64 - 1 };
}

impl SinkBuffer {
    /// Starts an empty text.
    ///
    /// The memory for one chunk is requested at once.
    ///
    /// Errors: out of memory.
    pub fn new(alloc: Global) -> Result<SinkBuffer, AllocError>
        ensures { IfOk result (λ made. made ≡ nothing_yet) }
    {
        Ok(SinkBuffer {
            buffer: Vec::with_capacity(alloc, CHUNK)?,
            written: 0,
        })
    }

    /// Appends bytes to the waiting bytes. The sink takes a first part of these, and the rest waits.
    ///
    /// Nothing is written to the sink until a chunk is full. Then all waiting bytes are written.
    ///
    /// Errors: `Device` if the sink failed; `OutOfMemory`, after the waiting bytes are written.
    pub fn push<S: Sink>(&mut self, sink: &mut S, bytes: &[u8]) -> Result<(), WriteFault>
        requires { S.failures sink.old < 2 ^ 64 - 1 }
        ensures ok { OnOk result
            (Passes (S.told sink.old) (S.told sink.new) self.old self.new bytes.now) }
        ensures err { IfErr result (λ fault. Breaks (S.told sink.old) (S.told sink.new) self.old
            bytes.now (written_of fault)) }
        ensures failures { S.failures sink.new ≡ failures_after_write result (S.failures sink.old) }
    {
        match self.buffer.extend_from_slice(bytes) {
            Ok(()) => {}
            Err(refused) => return Err(self.stop(sink, refused)),
        }
        if self.buffer.len() < CHUNK {
            return Ok(());
        }
        self.flush(sink)
    }

    /// Writes all waiting bytes to the sink.
    ///
    /// Errors: `Device` if the sink failed.
    pub fn flush<S: Sink>(&mut self, sink: &mut S) -> Result<(), WriteFault>
        requires { S.failures sink.old < 2 ^ 64 - 1 }
        ensures ok { OnOk result (Passes (S.told sink.old) (S.told sink.new) self.old self.new []) }
        ensures empty { OnOk result (self.new.bytes ≡ []) }
        ensures err { IfErr result (λ fault. Breaks (S.told sink.old) (S.told sink.new) self.old
            [] (written_of fault)) }
        ensures failures { S.failures sink.new ≡ failures_after_write result (S.failures sink.old) }
    {
        match put_all(sink, &self.buffer) {
            Ok(()) => {
                self.written = self.written.saturating_add(self.buffer.len() as u64);
                self.buffer.clear();
                Ok(())
            }
            Err(taken) => Err(WriteFault::Device(self.written.saturating_add(taken as u64))),
        }
    }

    /// Ends the text after memory was refused: writes the waiting bytes and returns `OutOfMemory`
    /// with the length of the text so far, or `Device` if the sink failed.
    ///
    /// The error of the refused request must be passed, so that nothing else ends a text like this.
    pub fn stop<S: Sink>(&mut self, sink: &mut S, _refused: AllocError) -> WriteFault
        requires { S.failures sink.old < 2 ^ 64 - 1 }
        ensures broken { Breaks (S.told sink.old) (S.told sink.new) self.old [] (written_of result) }
        ensures failures { S.failures sink.new ≡ failures_after_fault result (S.failures sink.old) }
    {
        match self.flush(sink) {
            Ok(()) => WriteFault::OutOfMemory(self.written),
            Err(fault) => fault,
        }
    }

    /// The number of bytes that the sink took before any fault. The number saturates at the greatest
    /// `u64`.
    pub fn written(&self) -> u64
        ensures { result ≡ self.now.written }
    {
        self.written
    }
}
