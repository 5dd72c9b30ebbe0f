ghost use Rattle.std.specs.Prelude.{◌≡◌, ◌∷◌, [], None, IfErr, IsSome};
ghost use Rattle.std.specs.Result.{result_ok};
ghost use Rattle.serde_json.specs.View.{view};
ghost use Rattle.oim_report.specs.code.JsonMember.{seen};
ghost use Rattle.oim_report.specs.Info.{declarations, features_of, is_allowed_duplicates, said_level};

use crate::json_values::json_member::JsonMember;
use crate::json_values::json_tree::within;
use oim_names::{Aliases, RESERVED_URI, Reason, split_name};
use oim_value::Level;
use serde_json::Value;

/// Reads the level that the feature `xbrl:allowedDuplicates` declares (OIM Common 1.0). Without the
/// feature, all duplicates are allowed. The feature is refused if it is repeated or its value is
/// not a level.
pub(crate) fn read_level(aliases: &Aliases, tree: &Value) -> Result<Level, Reason>
    ensures level { result_ok result ≡ said_level (declarations aliases.now (features_of (view tree.now))) }
    ensures refused { IfErr result (λ r. r ≡ Reason.Feature) }
{
    let mut declared = None;
    let Some(features) = within(tree, "documentInfo", "features").and_then(Value::as_object) else {
        return Ok(Level::All);
    };
    for (key, value) in features.iter() {
        if is_allowed_duplicates(aliases, key.as_str()) {
            match only_level(declared, JsonMember::of_value(value)) {
                Some(level) => declared = Some(level),
                None => return Err(Reason::Feature),
            }
        }
    }
    Ok(declared.unwrap_or(Level::All))
}

fn only_level(before: Option<Level>, value: JsonMember<'_>) -> Option<Level>
    ensures first { before ≡ None → result ≡ said_level (seen value.entry ∷ []) }
    ensures again { IsSome before → result ≡ None }
{
    match before {
        Some(_) => None,
        None => value.text().and_then(Level::read),
    }
}

pub(crate) fn is_allowed_duplicates(aliases: &Aliases, key: &str) -> bool
    ensures { result ≡ is_allowed_duplicates aliases.now key.now }
{
    let (prefix, local) = split_name(key);
    aliases.uri(prefix) == Some(RESERVED_URI) && local == "allowedDuplicates"
}
