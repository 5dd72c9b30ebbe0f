//! Skips the values of extensions on a tape.

ghost use Rattle.std.specs.Prelude.{OnOk};
ghost use Rattle.json.specs.Find.{BeginsWith, InItems, InMembers};
ghost use Rattle.json.specs.Json.{Json, array, number, object};
ghost use Rattle.json.specs.Json as spec;
ghost use Rattle.oim_report.specs.code.TapeValues.{IsRead};

use crate::json_values::json_member::read_number;
use crate::unread::Unread;
use json::{Element, Items, Members};

/// Skips the value at this place of a tape. The result is `NeedsTree` if the value has more than
/// `levels` levels of arrays and objects, or if it has a number that is too large for a float.
#[cycle(skip)]
pub(crate) fn skip_value(element: &Element<'_, '_>, levels: usize) -> Result<(), Unread>
    ensures { (v : Json) → BeginsWith element.now v → OnOk result (IsRead levels v) }
{
    if let Some(digits) = element.as_number() {
        return skip_number(digits);
    }
    if let Some(items) = element.items() {
        return skip_items(items, levels);
    }
    match element.members() {
        Some(members) => skip_members(members, levels),
        None => Ok(()),
    }
}

#[cycle(skip)]
fn skip_items(mut items: Items<'_, '_>, levels: usize) -> Result<(), Unread>
    ensures { (vs : spec.Items) → InItems items.entry vs → OnOk result (IsRead levels (array vs)) }
{
    if levels == 0 {
        return Err(Unread::NeedsTree);
    }
    while let Some(item) = items.next() {
        skip_value(&item, levels - 1)?;
    }
    Ok(())
}

#[cycle(skip)]
fn skip_members(mut members: Members<'_, '_>, levels: usize) -> Result<(), Unread>
    ensures { (vs : spec.Members) → InMembers members.entry vs → OnOk result (IsRead levels (object vs)) }
{
    if levels == 0 {
        return Err(Unread::NeedsTree);
    }
    while let Some((_key, member)) = members.next() {
        skip_value(&member, levels - 1)?;
    }
    Ok(())
}

fn skip_number(digits: &str) -> Result<(), Unread>
    ensures { OnOk result (IsRead 0 (number digits.now)) }
{
    if read_number(digits).is_some() {
        Ok(())
    } else {
        Err(Unread::NeedsTree)
    }
}
