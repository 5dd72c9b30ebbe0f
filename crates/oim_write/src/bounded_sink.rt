ghost use Rattle.std.specs.Prelude.{◌≡◌, ◌+◌, ◌-◌, ◌^◌, ◌<◌, ◌≤◌, ◌||◌, length, is_ok, if◌then◌else◌, IfOk};
ghost use Rattle.std.specs.Io.KnownBytes.{WriteAppends};
ghost use Rattle.oim_write.specs.BoundedSink.{Puts, bounded, bounded_failures, default_bound, overruns};
ghost use Rattle.oim_write.specs.Sink.{saturated};

use crate::sink::{Sink, SinkError};

/// The bytes that the output of a command may have without an input.
const LEAST_BOUND: u64 = 1 << 20;

/// The bytes that the output of a command may have for each byte that it reads.
pub const BOUND_PER_BYTE: u64 = 16;

/// Returns the bound for the output of a command that read this many bytes: 1 MiB, and 16 bytes for
/// each byte. The bound saturates at the greatest `u64`.
pub fn default_bound(read: u64) -> u64
    ensures { result ≡ default_bound read }
{
    LEAST_BOUND.saturating_add(read.saturating_mul(BOUND_PER_BYTE))
}

/// Passes at most a given number of bytes to another sink. The sink takes the bytes that fit. If
/// there is room for none, it fails like a full device and counts an overrun.
#[derive(Drop)]
pub struct BoundedSink<S: Sink> {
    sink: S,
    left: u64,
    overruns: u64,
}

impl<S: Sink> BoundedSink<S> {
    /// A sink that passes at most `most` bytes to this sink.
    pub fn new(sink: S, most: u64) -> BoundedSink<S>
        ensures sink { result.sink ≡ sink }
        ensures left { result.left ≡ most }
        ensures overruns { result.overruns ≡ 0 }
    {
        BoundedSink {
            sink,
            left: most,
            overruns: 0,
        }
    }

    /// Raises the bound by this number of bytes. The bytes that are left saturate at the greatest
    /// `u64`.
    pub fn raise(&mut self, more: u64)
        ensures sink { self.new.sink ≡ self.old.sink }
        ensures left { self.new.left ≡ saturated (self.old.left + more) }
        ensures overruns { self.new.overruns ≡ self.old.overruns }
    {
        self.left = self.left.saturating_add(more);
    }

    /// How many more bytes the bound leaves room for.
    pub fn left(&self) -> u64
        ensures { result ≡ self.now.left }
    {
        self.left
    }

    /// How often the sink was given bytes when the bound left room for none. The number saturates at
    /// the greatest `u64`.
    pub fn overruns(&self) -> u64
        ensures { result ≡ self.now.overruns }
    {
        self.overruns
    }

    /// Returns the other sink and drops the bound.
    pub fn into_inner(self) -> S
        ensures { result ≡ self.sink }
    {
        self.sink
    }
}

impl<S: Sink> Sink for BoundedSink<S> {
    ghost told = { λ s. S.told s.sink };

    ghost failures = { λ s. bounded_failures (S.failures s.sink) s.overruns };

    /// The failures are those of the other sink and the overruns.
    fn put(&mut self, bytes: &[u8]) -> Result<usize, SinkError>
        requires { bounded_failures (S.failures self.old.sink) self.old.overruns < 2 ^ 64 - 1 }
        ensures bytes { WriteAppends (S.told self.old.sink) (S.told self.new.sink) result bytes.now }
        ensures count { IfOk result (λ n. (n ≤ length bytes.now) × (0 < length bytes.now → 0 < n)) }
        ensures failures { bounded_failures (S.failures self.new.sink) self.new.overruns ≡
            (if is_ok result then bounded_failures (S.failures self.old.sink) self.old.overruns
            else bounded_failures (S.failures self.old.sink) self.old.overruns + 1) }
        ensures bound { Puts (bounded (S.told self.old.sink) self.old.left self.old.overruns)
            (bounded (S.told self.new.sink) self.new.left self.new.overruns) bytes.now result }
        ensures device { S.failures self.new.sink ≡
            (if is_ok result || overruns self.old.left bytes.now then S.failures self.old.sink
            else S.failures self.old.sink + 1) }
    {
        if self.left == 0 && !bytes.is_empty() {
            self.overruns += 1;
            return Err(SinkError);
        }
        let room = bytes.len().min(self.left as usize);
        let taken = self.sink.put(&bytes[..room])?;
        self.left -= taken as u64;
        Ok(taken)
    }

    fn failures(&self) -> u64 {
        self.sink.failures().saturating_add(self.overruns)
    }
}
