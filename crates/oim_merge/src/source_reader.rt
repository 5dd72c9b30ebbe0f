ghost use Rattle.std.specs.Prelude.{◌≡◌, ◌+◌, ◌-◌, ◌^◌, ◌<◌, ◌≤◌, length, take, drop, vec_len, IfOk, IfErr, OnErr, OnOk, is_ok, if◌then◌else◌};
ghost use Rattle.std.specs.Io.KnownBytes.{Consumes, IsAtEnd, Keeps};
ghost use Rattle.oim_merge.specs.Source.{GivesBefore, failures_after_read};

use crate::source::{Source, SourceError};
use oim_names::Encoded;
use std::alloc::{AllocError, Global};
use thiserror::Error;

/// Why a source was not read to its end.
#[derive(Clone, Copy, Debug, PartialEq, Eq, Error)]
pub enum ReadFault {
    /// Memory was refused. The bytes that were read are lost.
    #[error("out of memory")]
    OutOfMemory,
    /// The source failed after this many bytes.
    #[error("the device failed after {0} bytes")]
    Device(u64),
    /// The source has more bytes than the limit allows.
    #[error("too long")]
    TooLong,
}

/// The buffer grows by at least `FEWEST` and at most `MOST` bytes at once. Only its last growth may
/// be less, so that its size stays within the limit plus one byte. Many files need only one growth.
const FEWEST: usize = 1 << 15;

const MOST: usize = 1 << 16;

/// Reads a source of at most `limit` bytes to its end.
///
/// Unused memory is released. The call makes at most `limit` + 1 reads, since each read but the
/// last returns at least one byte.
///
/// Errors: `TooLong` if the source has more than `limit` bytes; `Device` if the source failed;
/// `OutOfMemory`.
pub fn read_all<S: Source>(alloc: Global, source: &mut S, limit: u32) -> Result<Encoded, ReadFault>
    requires { S.failures source.old < 2 ^ 64 - 1 }
    ensures ok { IfOk result (λ bytes. Consumes (S.told source.old) (S.told source.new) bytes
        × IsAtEnd (S.told source.new)) }
    ensures limit { IfOk result (λ bytes. length bytes ≤ limit) }
    ensures err { IfErr result (GivesBefore (S.told source.old) (S.told source.new) limit) }
    ensures failures { S.failures source.new ≡ failures_after_read result (S.failures source.old) }
{
    let too_many = limit as usize + 1;
    let mut bytes = Vec::new(alloc);
    let mut filled = 0;
    while filled < too_many {
        match make_room(&mut bytes, filled, too_many) {
            Ok(()) => {}
            Err(AllocError) => return Err(ReadFault::OutOfMemory),
        }
        match get_behind(source, bytes.as_mut_slice(), filled) {
            Ok(0) => {
                bytes.truncate(filled);
                bytes.shrink_to_fit();
                return Ok(Encoded::from_vec(bytes));
            }
            Ok(n) => filled += n,
            Err(SourceError) => return Err(ReadFault::Device(filled as u64)),
        }
    }
    Err(ReadFault::TooLong)
}

fn make_room(bytes: &mut Vec<u8>, filled: usize, most: usize) -> Result<(), AllocError>
    requires filled { filled ≤ vec_len bytes.old }
    requires room { filled < most }
    requires within { vec_len bytes.old ≤ most }
    ensures front { take filled bytes.new.items ≡ take filled bytes.old.items }
    ensures room { OnOk result (filled < vec_len bytes.new) }
    ensures within { vec_len bytes.new ≤ most }
{
    if filled == bytes.len() {
        bytes.resize(
            most.min(filled.saturating_add(filled.max(FEWEST).min(MOST))),
            0,
        )?;
    }
    Ok(())
}

fn get_behind<S: Source>(
    source: &mut S,
    bytes: &mut [u8],
    filled: usize,
) -> Result<usize, SourceError>
    requires filled { filled < length bytes.old }
    requires failures { S.failures source.old < 2 ^ 64 - 1 }
    ensures front { take filled bytes.new ≡ take filled bytes.old }
    ensures within { IfOk result (λ n. filled + n ≤ length bytes.new) }
    ensures ok { IfOk result (λ n. Consumes (S.told source.old) (S.told source.new)
        (take n (drop filled bytes.new))) }
    ensures end { IfOk result (λ n. n ≡ 0 → IsAtEnd (S.told source.new)) }
    ensures err { OnErr result (Keeps (S.told source.old) (S.told source.new)) }
    ensures failures { S.failures source.new ≡
        (if is_ok result then S.failures source.old else S.failures source.old + 1) }
{
    source.get(&mut bytes[filled..])
}
