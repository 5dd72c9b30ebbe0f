//! Reads single JSON values, for the search for a fault's part.

ghost use Rattle.std.specs.Prelude.{◌≡◌, is_none, codes, option_map, option_and_then};
ghost use Rattle.serde_json.specs.View.{view};
ghost use Rattle.serde_json.specs.Find.{get_member};
ghost use Rattle.oim_report.specs.Holds.{as_text, as_whole, is_some_and, no_text, no_text_or_null};
ghost use Rattle.oim_report.specs.Json.{members, object_at};

use crate::json_values::json_member::JsonMember;
use crate::json_values::json_tree::within;
use serde_json::Value;

#[tactic(auto, using(crate::proofs::DimensionAt::member_within))]
pub(crate) fn dimension<'a>(object: &'a Value, key: &str) -> Option<&'a Value>
    ensures { option_map (λ v. view v.now) result
        ≡ get_member key.now (members (object_at (codes "dimensions") (view object.now))) }
{
    within(object, "dimensions", key)
}

#[tactic(auto, using(crate::proofs::ValueWords::text_same))]
pub(crate) fn text(value: Option<&Value>) -> Option<&str>
    ensures { option_map (λ t. t.now) result
        ≡ option_and_then as_text (option_map (λ v. view v.now) value.entry) }
{
    JsonMember::of(value).text()
}

#[tactic(auto, using(crate::proofs::ValueWords::no_text_same))]
pub(crate) fn is_no_text(value: Option<&Value>) -> bool
    ensures { result ≡ is_some_and no_text (option_map (λ v. view v.now) value.entry) }
{
    JsonMember::of(value).is_no_text()
}

pub(crate) fn is_no_text_or_null(value: Option<&Value>) -> bool
    ensures { result ≡ is_some_and no_text_or_null (option_map (λ v. view v.now) value.entry) }
{
    match value {
        Some(found) => text(value).is_none() && !found.is_null(),
        None => false,
    }
}

pub(crate) fn whole(value: Option<&Value>) -> Option<i128>
    ensures { result ≡ option_and_then as_whole (option_map (λ v. view v.now) value.entry) }
{
    match value {
        Some(Value::Number(number)) => number.as_i128(),
        _ => None,
    }
}
