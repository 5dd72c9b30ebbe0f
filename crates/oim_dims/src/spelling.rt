ghost use Rattle.std.specs.Prelude.{◌≡◌, ◌++◌, ℕ, List, OnOk, string_bytes};
ghost use Rattle.oim_dims.specs.Unit.{product_text, side_text, unit_text};
ghost use Rattle.oim_names.specs.QName.{QName};

use crate::unit::Unit;
use oim_names::{Aliases, Name};
use std::alloc::AllocError;

/// A way to write names, for example with a prefix or as `{URI}local`.
pub trait Spelling {
    /// The bytes that `push_name` appends for a name.
    ghost spelled: { Self → QName → List ℕ };

    /// Appends the text of a name.
    ///
    /// Errors: out of memory.
    fn push_name(&self, text: &mut String, name: &Name) -> Result<(), AllocError>
        ensures { OnOk result (string_bytes text.new ≡ string_bytes text.old ++ spelled self.now name.now) };
}

/// A name is written with the prefix that was first bound to its URI, or with an empty prefix if
/// there is none.
impl Spelling for Aliases {
    ghost use Rattle.oim_dims.specs.Unit.{measure_text};

    ghost spelled = { measure_text };

    fn push_name(&self, text: &mut String, name: &Name) -> Result<(), AllocError> {
        text.push_str(self.prefix_of(name.uri()).unwrap_or(""))?;
        text.push_str(":")?;
        text.push_str(name.local())
    }
}

/// Replaces the content of `text` with the text of a name.
///
/// Errors: out of memory.
pub fn spell<S: Spelling>(text: &mut String, spelling: &S, name: &Name) -> Result<(), AllocError>
    ensures { OnOk result (string_bytes text.new ≡ S.spelled spelling.now name.now) }
{
    text.clear();
    spelling.push_name(text, name)
}

/// Replaces the content of `text` with the text of a unit (xBRL-JSON 1.0). The names on each side
/// keep their order in the unit.
///
/// Errors: out of memory.
#[tactic(auto, unfolding(crate::specs::Unit::unit_text))]
pub fn spell_unit<S: Spelling>(
    text: &mut String,
    spelling: &S,
    unit: &Unit,
) -> Result<(), AllocError>
    ensures { OnOk result (string_bytes text.new ≡ unit_text (S.spelled spelling.now) unit.now) }
{
    text.clear();
    if unit.denominators().is_empty() {
        return push_product(text, spelling, unit.numerators());
    }
    push_side(text, spelling, unit.numerators())?;
    text.push_str("/")?;
    push_side(text, spelling, unit.denominators())
}

// Appends one side of a unit that has two. A side with several measures is in parentheses.
fn push_side<S: Spelling>(text: &mut String, spelling: &S, names: &[Name]) -> Result<(), AllocError>
    ensures { OnOk result (string_bytes text.new ≡ string_bytes text.old ++ side_text (S.spelled spelling.now) names.now) }
{
    if names.len() == 1 {
        return push_product(text, spelling, names);
    }
    text.push_str("(")?;
    push_product(text, spelling, names)?;
    text.push_str(")")
}

fn push_product<S: Spelling>(
    text: &mut String,
    spelling: &S,
    names: &[Name],
) -> Result<(), AllocError>
    ensures { OnOk result (string_bytes text.new ≡ string_bytes text.old ++ product_text (S.spelled spelling.now) names.now) }
{
    let Some((first, others)) = names.split_first() else {
        return Ok(());
    };
    spelling.push_name(text, first)?;
    for name in others {
        text.push_str("*")?;
        spelling.push_name(text, name)?;
    }
    Ok(())
}
