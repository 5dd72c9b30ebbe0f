ghost use Rattle.std.specs.Prelude.{◌≡◌, ℕ, ◌+◌, ◌-◌, ◌^◌, ◌<◌, ◌≤◌, List, Option, min, length, IfOk, IfErr, OnOk, OnErr, is_ok, if◌then◌else◌};
ghost use Rattle.std.specs.Io.KnownBytes.{Appends, WriteAppends};
ghost use Rattle.oim_write.specs.Sink.{AppendsFirst};

use std::io::Write;

/// The error of a sink that failed. The failed call appended no bytes.
#[derive(Clone, Copy, Debug, PartialEq, Eq)]
pub struct SinkError;

/// Takes bytes and counts its failures.
pub trait Sink {
    /// The bytes that the sink holds, if contracts can see them. Contracts see the bytes of a list
    /// in memory, but not the bytes of a file.
    ghost told: { Self → Option (List ℕ) };

    /// The number of failures so far.
    ghost failures: { Self → ℕ };

    /// Appends a first part of these bytes and returns its length, which is at least 1 if there are
    /// any bytes. On an error, the sink appends nothing and counts one more failure.
    fn put(&mut self, bytes: &[u8]) -> Result<usize, SinkError>
        requires { failures self.old < 2 ^ 64 - 1 }
        ensures bytes { WriteAppends (told self.old) (told self.new) result bytes.now }
        ensures count { IfOk result (λ n. (n ≤ length bytes.now) × (0 < length bytes.now → 0 < n)) }
        ensures failures { failures self.new ≡
            (if is_ok result then failures self.old else failures self.old + 1) };

    /// The number of failures so far.
    fn failures(&self) -> u64
        ensures { result ≡ failures self.now };
}

/// Writes all these bytes to the sink.
///
/// Errors: the number of bytes that the sink took before it failed.
pub fn put_all<S: Sink>(sink: &mut S, bytes: &[u8]) -> Result<(), usize>
    requires { S.failures sink.old < 2 ^ 64 - 1 }
    ensures ok { OnOk result (Appends (S.told sink.old) (S.told sink.new) bytes.now) }
    ensures err { IfErr result
        (λ n. AppendsFirst (S.told sink.old) (S.told sink.new) bytes.now n) }
    ensures failures { S.failures sink.new ≡
        (if is_ok result then S.failures sink.old else S.failures sink.old + 1) }
{
    let mut taken = 0;
    while taken < bytes.len() {
        match sink.put(&bytes[taken..]) {
            Ok(n) => taken += n,
            Err(SinkError) => return Err(taken),
        }
    }
    Ok(())
}

/// A sink over a writer. The sink fails if a write fails or is interrupted, or if the writer takes
/// no byte of a non-empty slice.
#[derive(Drop)]
pub struct StdSink<W: Write> {
    writer: W,
    failures: u64,
    taken: u64,
}

impl<W: Write> StdSink<W> {
    /// A sink over this writer. `failures` and `taken` begin at 0.
    pub fn new(writer: W) -> StdSink<W>
        ensures writer { result.writer ≡ writer }
        ensures failures { result.failures ≡ 0 }
        ensures taken { result.taken ≡ 0 }
    {
        StdSink {
            writer,
            failures: 0,
            taken: 0,
        }
    }

    /// The number of bytes that the writer took from this sink. The number saturates at the
    /// greatest `u64`.
    pub fn taken(&self) -> u64
        ensures { result ≡ self.now.taken }
    {
        self.taken
    }

    /// Returns the writer and drops the numbers of failures and of bytes.
    pub fn into_inner(self) -> W
        ensures { result ≡ self.writer }
    {
        self.writer
    }
}

impl<W: Write> Sink for StdSink<W> {
    ghost told = { λ s. W.contents s.writer };

    ghost failures = { λ s. s.failures };

    fn put(&mut self, bytes: &[u8]) -> Result<usize, SinkError>
        requires { self.old.failures < 2 ^ 64 - 1 }
        ensures bytes { WriteAppends (W.contents self.old.writer) (W.contents self.new.writer)
            result bytes.now }
        ensures count { IfOk result (λ n. (n ≤ length bytes.now) × (0 < length bytes.now → 0 < n)) }
        ensures failures { self.new.failures ≡
            (if is_ok result then self.old.failures else self.old.failures + 1) }
        ensures taken { IfOk result (λ n. self.new.taken ≡ min (self.old.taken + n) (2 ^ 64 - 1)) }
        ensures none_taken { OnErr result (self.new.taken ≡ self.old.taken) }
    {
        match self.writer.write(bytes) {
            Ok(n) if n > 0 || bytes.is_empty() => {
                self.taken = self.taken.saturating_add(n as u64);
                Ok(n)
            }
            _ => {
                self.failures += 1;
                Err(SinkError)
            }
        }
    }

    fn failures(&self) -> u64 {
        self.failures
    }
}
