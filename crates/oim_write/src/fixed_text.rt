ghost use Rattle.std.specs.Prelude.{◌≡◌, ◌≤◌, OnOk, length, string_bytes, take};
ghost use Rattle.oim_value.specs.Number.{without_trailing};
ghost use Rattle.oim_value.specs.Plain.{plain, sign_text};

use crate::labels::push_padded;
use itoa::Buffer;
use oim_value::UNIT_PLACES;
use std::alloc::AllocError;

/// Makes `text` the text that `oim_value::write_units` returns. `text` is a reused buffer.
pub(crate) fn spell_units(text: &mut String, units: i128) -> Result<(), AllocError>
    ensures { OnOk result (string_bytes text.new ≡ plain units) }
{
    let size = units.unsigned_abs();
    let sign = sign_of(units);
    let integer = size / 10u128.pow(UNIT_PLACES);
    let rest = size % 10u128.pow(UNIT_PLACES);
    let mut buffer = Buffer::new();
    text.clear();
    text.push_str(sign)?;
    text.push_str(buffer.format(integer))?;
    if rest == 0 {
        return Ok(());
    }
    text.push_str(".")?;
    push_padded(text, UNIT_PLACES as usize, rest)?;
    let kept = significant(text.as_bytes());
    text.truncate(kept);
    Ok(())
}

fn sign_of(units: i128) -> &'static str
    ensures { result.now ≡ sign_text units }
{
    if units < 0 { "-" } else { "" }
}

// The length of a text without its trailing zeros.
fn significant(digits: &[u8]) -> usize
    ensures bound { result ≤ length digits.now }
    ensures front { take result digits.now ≡ without_trailing digits.now }
{
    let mut end = digits.len();
    while end > 0 && digits[end - 1] == b'0' {
        end -= 1;
    }
    end
}
