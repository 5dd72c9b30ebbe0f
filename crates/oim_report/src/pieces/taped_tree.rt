//! Makes a tree of a value on a tape.

ghost use Rattle.std.specs.Prelude.{IfOk};
ghost use Rattle.json.specs.Find.{BeginsWith, InItems, InMembers};
ghost use Rattle.json.specs.Json.{Json};
ghost use Rattle.json.specs.Json as spec;
ghost use Rattle.serde_json.specs.Data as tree;
ghost use Rattle.serde_json.specs.View.{view, items_view, members_view};
ghost use Rattle.oim_report.specs.code.TapeValues.{IsReadAs};

use crate::json_values::json_member::read_number;
use crate::unread::Unread;
use json::{Element, Items, Members};
use serde_json::{Map, Value};
use std::alloc::Global;

/// Returns the value at this place of a tape. The result is `NeedsTree` if the value has more than
/// `levels` levels of arrays and objects, or if it has a number that is too large for a float.
#[cycle(tree)]
pub(crate) fn tree_of(
    alloc: Global,
    element: &Element<'_, '_>,
    levels: usize,
) -> Result<Value, Unread>
    ensures { (v : Json) → BeginsWith element.now v → IfOk result (λ t. IsReadAs levels v (view t)) }
{
    if let Some(items) = element.items() {
        return Ok(Value::Array(items_of(alloc, items, levels)?));
    }
    match element.members() {
        Some(members) => Ok(Value::Object(members_of(alloc, members, levels)?)),
        None => leaf_of(alloc, element),
    }
}

#[cycle(tree)]
fn items_of(alloc: Global, mut items: Items<'_, '_>, levels: usize) -> Result<Vec<Value>, Unread>
    ensures { (vs : spec.Items) → InItems items.entry vs → IfOk result
        (λ found. IsReadAs levels (spec.array vs) (tree.array (items_view found.items))) }
{
    if levels == 0 {
        return Err(Unread::NeedsTree);
    }
    let mut found = Vec::new(alloc);
    while let Some(item) = items.next() {
        let value = tree_of(alloc, &item, levels - 1)?;
        found.push(value)?;
    }
    Ok(found)
}

#[cycle(tree)]
fn members_of(
    alloc: Global,
    mut members: Members<'_, '_>,
    levels: usize,
) -> Result<Map<String, Value>, Unread>
    ensures { (vs : spec.Members) → InMembers members.entry vs → IfOk result
        (λ found. IsReadAs levels (spec.object vs) (tree.object (members_view found.entries))) }
{
    if levels == 0 {
        return Err(Unread::NeedsTree);
    }
    let mut found = Map::new(alloc);
    while let Some((name, member)) = members.next() {
        let value = tree_of(alloc, &member, levels - 1)?;
        let key = String::from_str(alloc, name)?;
        drop(found.insert(key, value)?);
    }
    Ok(found)
}

fn leaf_of(alloc: Global, element: &Element<'_, '_>) -> Result<Value, Unread>
    ensures { (v : Json) → BeginsWith element.now v → IfOk result (λ t. IsReadAs 0 v (view t)) }
{
    if let Some(text) = element.as_str() {
        return Ok(Value::String(String::from_str(alloc, text)?));
    }
    if let Some(is_true) = element.as_bool() {
        return Ok(Value::Bool(is_true));
    }
    if element.is_null() {
        return Ok(Value::Null);
    }
    let Some(digits) = element.as_number() else {
        return Err(Unread::NeedsTree);
    };
    match read_number(digits) {
        Some(number) => Ok(Value::Number(number)),
        None => Err(Unread::NeedsTree),
    }
}
