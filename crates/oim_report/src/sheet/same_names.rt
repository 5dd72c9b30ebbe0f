//! Finds two keys of an object that spell one name.

ghost use Rattle.std.specs.Prelude.{◌≡◌, IfOk};
ghost use Rattle.serde_json.specs.View.{members_view};
ghost use Rattle.oim_report.specs.Json.{entries};
ghost use Rattle.oim_report.specs.Names.{named};
ghost use Rattle.oim_report.specs.Shown.{beside_first, seen, spell_same};

use crate::part::Part;
use crate::refusal::unless_memory;
use oim_names::{Aliases, Name};
use serde_json::{Map, Value};
use std::alloc::AllocError;

pub(crate) fn beside_first<'a>(
    aliases: &Aliases,
    members: &'a Map<String, Value>,
    key: &'a str,
) -> Part<'a>
    ensures { seen result ≡ beside_first aliases.now (entries (members_view members.now.entries)) key.now }
{
    for (first, _value) in members.iter() {
        if spell_same(aliases, key, first.as_str()) {
            return Part::Two(first.as_str(), key);
        }
    }
    Part::Two(key, key)
}

fn spell_same(aliases: &Aliases, key: &str, other: &str) -> bool
    ensures { result ≡ spell_same aliases.now key.now other.now }
{
    match aliases.resolve(key) {
        Ok(name) => match aliases.resolve(other) {
            Ok(found) => name.0.cmp(found.0).then(name.1.cmp(found.1)).is_eq(),
            Err(_) => false,
        },
        Err(_) => false,
    }
}

#[tactic(auto, using(crate::proofs::ShownFaults::read_name))]
pub(crate) fn name_of(aliases: &Aliases, key: &str) -> Result<Option<Name>, AllocError>
    ensures { IfOk result (λ name. name ≡ named aliases.now key.now) }
{
    unless_memory(aliases.expand(key))
}
