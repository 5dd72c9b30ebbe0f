ghost use Rattle.std.specs.Prelude.{◌≡◌, IfOk, IfSome, OnOk, Some, string_bytes};
ghost use Rattle.json.specs.Find.{BeginsWith, InMembers};
ghost use Rattle.json.specs.Json.{Json, document};
ghost use Rattle.json.specs.Json as spec;
ghost use Rattle.oim_report.specs.Pieces.{alone};
ghost use Rattle.oim_report.specs.code.TapeValues.{one};

use crate::limits::MOST_KEPT_BYTES;
use crate::unread::Unread;
use json::{Element, Members, Scratch, Tape};
use std::alloc::{AllocError, Global};
use std::simd::prelude::*;

/// The text of a piece and the scratch memory of its tape. They are reused for later pieces and
/// reports.
#[derive(Drop)]
pub(crate) struct PieceBuffers {
    pub(crate) text: String,
    pub(crate) scratch: Scratch,
}

impl PieceBuffers {
    pub(crate) fn new(alloc: Global) -> PieceBuffers {
        PieceBuffers {
            text: String::new(alloc),
            scratch: Scratch::new(alloc),
        }
    }

    /// Frees both buffers if the capacity of the text exceeds `MOST_KEPT_BYTES`.
    pub(crate) fn free_if_large(&mut self, alloc: Global) {
        if self.text.capacity() > MOST_KEPT_BYTES {
            *self = PieceBuffers::new(alloc);
        }
    }
}

/// Parses an array with one object, whose members are the piece.
pub(crate) fn parse_piece<'b>(
    alloc: Global,
    buffers: &'b mut PieceBuffers,
    piece: &str,
) -> Result<Tape<'b>, Unread>
    ensures { IfOk result (λ tape. (v : Json) × (document (alone piece.now) ≡ Some v) × BeginsWith tape v) }
{
    fill_alone(&mut buffers.text, piece)?;
    let PieceBuffers { text, scratch } = buffers;
    // `json` ignores a refusal when it requests memory for all nodes, so enough is requested here.
    let nodes = Vec::with_capacity(alloc, most_places(text.as_bytes()))?;
    Ok(Tape::parse(text.as_str(), scratch, nodes)?)
}

// Returns at least the number of places at which `json` looks for a token: marks, and first bytes of
// words. It requests a node for each.
fn most_places(bytes: &[u8]) -> usize {
    let mut count = bytes.len() % 64;
    let mut at = 0;
    while bytes.len() - at >= 64 {
        count = count.saturating_add(places_in(u8x64::from_slice(&bytes[at..])));
        at += 64;
    }
    count.min(bytes.len())
}

// Returns at least the number of places at the marks, and directly after each mark, quote or white
// space.
fn places_in(bytes: u8x64) -> usize {
    // a brace and a bracket differ in this bit alone
    let curly = bytes | u8x64::splat(0x20);
    let marks = curly.simd_eq(u8x64::splat(b'{'))
        | curly.simd_eq(u8x64::splat(b'}'))
        | bytes.simd_eq(u8x64::splat(b':'))
        | bytes.simd_eq(u8x64::splat(b','));
    let others = bytes.simd_eq(u8x64::splat(b'"')) | bytes.simd_le(u8x64::splat(b' '));
    let (marks, others) = (marks.to_bitmask(), others.to_bitmask());
    2 * marks.count_ones() as usize + others.count_ones() as usize
}

/// Sets `buffer` to an array with one object, whose members are the piece.
pub(crate) fn fill_alone(buffer: &mut String, piece: &str) -> Result<(), AllocError>
    ensures { OnOk result (string_bytes buffer.new ≡ alone piece.now) }
{
    buffer.clear();
    buffer.push_str("[{")?;
    buffer.push_str(piece)?;
    buffer.push_str("}]")
}

pub(crate) fn only_object<'t, 'a>(root: &Element<'t, 'a>) -> Option<Members<'t, 'a>>
    ensures { (v : Json) → BeginsWith root.now v → IfSome result
        (λ m. (vs : spec.Members) × (v ≡ one vs) × InMembers m vs) }
{
    let mut items = root.items()?;
    let object = items.next()?;
    match items.next() {
        Some(_) => None,
        None => object.members(),
    }
}
