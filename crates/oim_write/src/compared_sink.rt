ghost use Rattle.std.specs.Prelude.{◌≡◌, ◌≢◌, ◌↔◌, ◌≤◌, ℕ, Some, length, slice_get, take, IfOk, IsTrue};
ghost use Rattle.std.specs.Option.{ForSome};
ghost use Rattle.oim_write.specs.Bytes.{canonical};
ghost use Rattle.oim_write.specs.code.Compared.{failures_since, held};

use crate::sink::{Sink, SinkError};
use crate::write_fault::WriteFault;
use crate::writer::write_to;
use fact_base::Base;
use std::alloc::{AllocError, Global};

/// Returns whether these bytes are the canonical text of a base. The text is compared chunk by chunk
/// and is never in memory as a whole.
///
/// Errors: out of memory.
pub fn is_text(alloc: Global, base: &Base<'_>, bytes: &[u8]) -> Result<bool, AllocError>
    ensures { IfOk result (λ same. IsTrue same ↔ (bytes.now ≡ canonical base.now.body)) }
{
    let mut compared = ComparedSink {
        text: bytes,
        equal: 0,
        difference: None,
    };
    match write_to(alloc, base, &mut compared) {
        Ok(()) => Ok(compared.difference.is_none() && compared.equal == bytes.len()),
        // the sink fails only after a byte that differs
        Err(WriteFault::Device(_)) => Ok(false),
        Err(WriteFault::OutOfMemory(_)) => Err(AllocError),
    }
}

// Compares what it takes with a text. It takes the first byte that differs, so that its contract
// shows the difference, and then fails.
#[derive(Drop)]
struct ComparedSink<'t> {
    text: &'t [u8],
    // how many first bytes of the text it took
    equal: usize,
    // the byte that it took after these although the text has another there or ends, and the number
    // of failures since
    difference: Option<(u8, u64)>,
    ghost within: { equal ≤ length text.now },
    ghost differs: { ForSome difference (λ d. slice_get text.now equal ≢ Some d.0) },
}

impl<'t> Sink for ComparedSink<'t> {
    ghost told = { λ s. Some (held s.text.now s.equal s.difference) };

    ghost failures = { λ s. failures_since s.difference };

    fn put(&mut self, bytes: &[u8]) -> Result<usize, SinkError> {
        if let Some((byte, failures)) = self.difference {
            self.difference = Some((byte, failures + 1));
            return Err(SinkError);
        }
        let same = common_front(&self.text[self.equal..], bytes);
        self.equal += same;
        match bytes.get(same) {
            Some(byte) => {
                self.difference = Some((*byte, 0));
                Ok(same + 1)
            }
            None => Ok(same),
        }
    }

    fn failures(&self) -> u64 {
        match self.difference {
            Some((_byte, failures)) => failures,
            None => 0,
        }
    }
}

// Returns how many first bytes are equal.
fn common_front(one: &[u8], other: &[u8]) -> usize
    ensures within_one { result ≤ length one.now }
    ensures within_other { result ≤ length other.now }
    ensures same { take result one.now ≡ take result other.now }
    ensures differs { (byte : ℕ) → slice_get other.now result ≡ Some byte → slice_get one.now result ≢ Some byte }
{
    // comparing whole slices is faster than byte by byte
    if one.starts_with(other) {
        return other.len();
    }
    let mut same = 0;
    while same < one.len() && same < other.len() && one[same] == other[same] {
        same += 1;
    }
    same
}
