//! Reads the members beside `facts`.

ghost use Rattle.std.specs.Prelude.{OnOk, option_map};
ghost use Rattle.json.specs.Find.{BeginsWith, InMembers};
ghost use Rattle.json.specs.Json.{Json};
ghost use Rattle.json.specs.Json as spec;
ghost use Rattle.serde_json.specs.Data.{Members as AMembers};
ghost use Rattle.serde_json.specs.View.{members_view};
ghost use Rattle.oim_report.specs.code.Pieces.{Adds, IsBeside};
ghost use Rattle.oim_report.specs.code.TapeValues.{AreAdded, IsAdded};

use crate::json_values::json_tree::has_colon;
use crate::json_values::skipped::skip_value;
use crate::limits::MOST_MEMBER_LEVELS;
use crate::pieces::piece_tape::{PieceBuffers, only_object, parse_piece};
use crate::pieces::taped_tree::tree_of;
use crate::unread::Unread;
use json::{Element, Members};
use serde_json::{Map, Value};
use std::alloc::Global;

/// Reads the members before or after `facts`. Puts `documentInfo` into `tree`, and skips members of
/// extensions. The result is `NeedsTree` if there are others.
pub(crate) fn read_beside(
    alloc: Global,
    text: Option<&str>,
    tree: &mut Map<String, Value>,
) -> Result<(), Unread>
    ensures { OnOk result ((ms : AMembers) × IsBeside (option_map (λ t. t.now) text.entry) ms
        × Adds ms (members_view tree.old.entries) (members_view tree.new.entries)) }
{
    let Some(text) = text else {
        return Ok(());
    };
    let mut buffers = PieceBuffers::new(alloc);
    let tape = parse_piece(alloc, &mut buffers, text)?;
    match only_object(&tape.root()) {
        Some(members) => read_members(alloc, members, tree),
        None => Err(Unread::NeedsTree),
    }
}

fn read_members(
    alloc: Global,
    mut members: Members<'_, '_>,
    tree: &mut Map<String, Value>,
) -> Result<(), Unread>
    ensures { (vs : spec.Members) → InMembers members.entry vs → OnOk result
        (AreAdded vs (members_view tree.old.entries) (members_view tree.new.entries)) }
{
    let mut is_empty = true;
    while let Some((key, member)) = members.next() {
        read_member(alloc, key, &member, tree)?;
        is_empty = false;
    }
    if is_empty {
        Err(Unread::NeedsTree)
    } else {
        Ok(())
    }
}

fn read_member(
    alloc: Global,
    key: &str,
    member: &Element<'_, '_>,
    tree: &mut Map<String, Value>,
) -> Result<(), Unread>
    ensures { (v : Json) → BeginsWith member.now v → OnOk result
        (IsAdded key.now v (members_view tree.old.entries) (members_view tree.new.entries)) }
{
    if has_colon(key) {
        return skip_value(member, MOST_MEMBER_LEVELS);
    }
    if key != "documentInfo" {
        return Err(Unread::NeedsTree);
    }
    let info = tree_of(alloc, member, MOST_MEMBER_LEVELS)?;
    let copy = String::from_str(alloc, key)?;
    drop(tree.insert(copy, info)?);
    Ok(())
}
