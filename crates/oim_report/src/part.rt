ghost use Rattle.std.specs.Prelude.{◌≡◌, option_map};
ghost use Rattle.serde_json.specs.View.{view};
ghost use Rattle.oim_report.specs.Shown.{seen, value_or_nothing, when};

use serde_json::Value;

/// The part of a report or a sheet to which a condition applies.
#[derive(Clone, Copy)]
pub enum Part<'a> {
    /// No part can be shown, for example because the part is missing.
    Nothing,
    /// The whole value, which is not an object.
    Whole,
    /// The missing member with this key.
    Missing(&'static str),
    /// The member with this key, which is not an object.
    NoObject(&'static str),
    /// The member with this key, which is not an array.
    NoArray(&'static str),
    /// The dimension with this key, which is not a text.
    NoText(&'static str),
    /// An unknown or repeated key.
    Key(&'a str),
    /// An unknown key, and the key of the object that contains it.
    KeyIn(&'a str, &'static str),
    /// A name, as the file spells it.
    Name(&'a str),
    /// An entity, as the file spells it.
    Entity(&'a str),
    /// The value of a member or of an array item, without a key.
    Value(&'a Value),
    /// A key with its value.
    Member(&'a str, &'a Value),
    /// Two keys that may not occur together.
    Two(&'a str, &'a str),
}

pub(crate) fn value_if(holds: bool, value: Option<&Value>) -> Option<Part<'_>>
    ensures { let found = option_map (λ v. view v.now) value.entry in
        option_map seen result ≡ when holds (value_or_nothing found) }
{
    match (holds, value) {
        (true, Some(value)) => Some(Part::Value(value)),
        (true, None) => Some(Part::Nothing),
        (false, _) => None,
    }
}
