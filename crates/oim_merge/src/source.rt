ghost use Rattle.std.specs.Prelude.{◌≡◌, ℕ, ◌+◌, ◌-◌, ◌^◌, ◌<◌, List, Option, is_ok, if◌then◌else◌};
ghost use Rattle.std.specs.Io.{ReadsAtMost};
ghost use Rattle.std.specs.Io.KnownBytes.{ReadConsumes};

use std::io::Read;

/// The error of a source that failed. The failed call gave no bytes.
#[derive(Clone, Copy, Debug, PartialEq, Eq)]
pub struct SourceError;

/// Gives bytes and counts its failures.
pub trait Source {
    /// The remaining bytes, if contracts can see them.
    ghost told: { Self → Option (List ℕ) };

    /// The number of failures so far.
    ghost failures: { Self → ℕ };

    /// Writes the next bytes to the start of the buffer and returns their number. The number is 0
    /// only at the end, or if the buffer is empty. On an error, the source gives no bytes and
    /// counts one more failure.
    fn get(&mut self, buffer: &mut [u8]) -> Result<usize, SourceError>
        requires { failures self.old < 2 ^ 64 - 1 }
        ensures bytes { ReadConsumes (told self.old) (told self.new) result buffer.new }
        ensures count { ReadsAtMost result buffer.new }
        ensures failures { failures self.new ≡
            (if is_ok result then failures self.old else failures self.old + 1) };

    /// The number of failures so far.
    fn failures(&self) -> u64
        ensures { result ≡ failures self.now };
}

/// A source over a reader. The source fails if a read from the reader fails or is interrupted.
#[derive(Drop)]
pub struct StdSource<R: Read> {
    reader: R,
    failures: u64,
}

impl<R: Read> StdSource<R> {
    /// A source over this reader, with no failures yet.
    pub fn new(reader: R) -> StdSource<R>
        ensures reader { result.reader ≡ reader }
        ensures failures { result.failures ≡ 0 }
    {
        StdSource {
            reader,
            failures: 0,
        }
    }

    /// Returns the reader and drops the number of failures.
    pub fn into_inner(self) -> R
        ensures { result ≡ self.reader }
    {
        self.reader
    }
}

impl<R: Read> Source for StdSource<R> {
    ghost told = { λ s. R.remaining s.reader };

    ghost failures = { λ s. s.failures };

    fn get(&mut self, buffer: &mut [u8]) -> Result<usize, SourceError> {
        match self.reader.read(buffer) {
            Ok(n) => Ok(n),
            Err(_) => {
                self.failures += 1;
                Err(SourceError)
            }
        }
    }

    fn failures(&self) -> u64 {
        self.failures
    }
}
