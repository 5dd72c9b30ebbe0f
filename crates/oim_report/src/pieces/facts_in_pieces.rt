//! Reads the facts of a report in pieces.

ghost use Rattle.std.specs.Prelude.{◌≡◌, Err, IfErr, IfOk, OnOk};
ghost use Rattle.json.specs.Find.{BeginsWith, InMembers};
ghost use Rattle.json.specs.Json as spec;
ghost use Rattle.serde_json.specs.Data as tree;
ghost use Rattle.oim_report.specs.Outcome.{facts_said};
ghost use Rattle.oim_report.specs.Pieces.{HasMember, IsPiece};
ghost use Rattle.oim_report.specs.code.FactsSoFar.{AreMore};
ghost use Rattle.oim_report.specs.code.FoundFacts.{AreFound};
ghost use Rattle.oim_report.specs.code.Ranks.{AreRanks};
ghost use Rattle.oim_report.specs.code.TapeValues.{AreData, one};

use crate::fact_reader::FactReader;
use crate::limits::PIECE_BYTES;
use crate::pieces::cuts::{Cut, split_piece};
use crate::pieces::facts_so_far::FactsSoFar;
use crate::pieces::found_facts::FoundFacts;
use crate::pieces::piece_tape::{PieceBuffers, only_object, parse_piece};
use crate::refusal::Refusal;
use crate::unread::Unread;
use json::{Element, Members};

/// Returns the facts in `text`, in byte order of their identifiers, or the refusal of the first
/// refused one. The result is `NeedsTree` if a piece is not JSON, if a value cannot be read from a
/// tape, or as for `FactsSoFar::in_order`.
pub(crate) fn read_facts_in_pieces(
    reader: &mut FactReader<'_>,
    buffers: &mut PieceBuffers,
    text: &str,
) -> Result<Result<FoundFacts, Refusal>, Unread>
    ensures same { reader.new ≡ reader.old }
    ensures found { IfOk result (λ o. IfOk o (λ f. (objects : tree.Members) × IsPiece text.now objects
        × AreFound reader.old.sheet reader.old.aliases objects f.identifiers f.facts.items)) }
    ensures ranks { IfOk result (λ o. IfOk o (λ f. AreRanks reader.old.sheet.concepts f.facts.items f.ranks.items)) }
    ensures refused { IfOk result (λ o. IfErr o (λ r. (objects : tree.Members) × IsPiece text.now objects
        × (facts_said reader.old.sheet reader.old.aliases objects ≡ Err r))) }
{
    let alloc = reader.alloc();
    let mut facts = FactsSoFar::Accepted(FoundFacts::new(alloc));
    let mut cut = Cut::Guessed;
    let mut left = text;
    for _ in 0..text.len() {
        let (piece, rest) = split_piece(left, PIECE_BYTES, cut);
        match parse_piece(alloc, buffers, piece) {
            Ok(tape) => read_objects(reader, &tape.root(), &mut facts)?,
            Err(Unread::NeedsTree) if cut.is_wrong(left, piece, PIECE_BYTES) => {
                cut = Cut::Counted;
                continue;
            }
            Err(unread) => return Err(unread),
        }
        match rest {
            Some(rest) => left = rest,
            None => return facts.in_order(alloc),
        }
    }
    Err(Unread::NeedsTree)
}

// Adds the facts of a piece, in the order of the text. `root` is an array with one object.
fn read_objects(
    reader: &mut FactReader<'_>,
    root: &Element<'_, '_>,
    facts: &mut FactsSoFar,
) -> Result<(), Unread>
    ensures same { reader.new ≡ reader.old }
    ensures more { (v : spec.Json) → BeginsWith root.now v → OnOk result ((vs : spec.Members) × (v ≡ one vs)
        × (ms : tree.Members) × AreData vs ms × HasMember ms × AreMore reader.old.sheet reader.old.aliases ms facts.old facts.new) }
{
    match only_object(root) {
        Some(members) => read_members(reader, members, facts),
        None => Err(Unread::NeedsTree),
    }
}

fn read_members(
    reader: &mut FactReader<'_>,
    mut members: Members<'_, '_>,
    facts: &mut FactsSoFar,
) -> Result<(), Unread>
    ensures same { reader.new ≡ reader.old }
    ensures more { (vs : spec.Members) → InMembers members.entry vs → OnOk result ((ms : tree.Members) × AreData vs ms
        × HasMember ms × AreMore reader.old.sheet reader.old.aliases ms facts.old facts.new) }
{
    let mut is_empty = true;
    while let Some((key, object)) = members.next() {
        facts.add(reader, key, &object)?;
        is_empty = false;
    }
    if is_empty {
        return Err(Unread::NeedsTree);
    }
    Ok(())
}
