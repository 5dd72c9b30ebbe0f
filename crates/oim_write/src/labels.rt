ghost use Rattle.std.specs.Prelude.{◌≡◌, ◌∷◌, ◌++◌, IfOk, OnOk, string_bytes};
ghost use Rattle.oim_write.specs.Rank.{padded, width};

use itoa::Buffer;
use oim_names::Text;
use std::alloc::{AllocError, Global};

/// The initial capacity of a label in bytes; few labels are longer.
pub(crate) const LABEL_CAPACITY: usize = 16;

/// Returns a fact's identifier in a canonical text: the letter `f`, then the fact's rank, padded
/// with zeros to as many digits as `count` has (own). Ranks begin at 1. If the rank has more digits
/// than `count`, its first digits are dropped.
///
/// Errors: out of memory.
pub fn identifier(alloc: Global, rank: u128, count: u128) -> Result<Text, AllocError>
    ensures { IfOk result (λ text. text ≡ 102 ∷ padded (width count) rank) }
{
    let mut text = String::with_capacity(alloc, LABEL_CAPACITY)?;
    push_label(&mut text, "f", width_of(count), rank)?;
    Text::from_string(alloc, text)
}

#[tactic(auto, unfolding(crate::specs::Rank::digits_up_to))]
pub(crate) fn width_of(number: u128) -> usize
    ensures { result ≡ width number }
{
    let mut digits = 1;
    let mut rest = number;
    while rest >= 10 {
        rest /= 10;
        digits += 1;
    }
    digits
}

pub(crate) fn push_label(
    text: &mut String,
    front: &str,
    digits: usize,
    number: u128,
) -> Result<(), AllocError>
    ensures { OnOk result (string_bytes text.new ≡ string_bytes text.old ++ (front.now ++ padded digits number)) }
{
    text.push_str(front)?;
    push_padded(text, digits, number)
}

pub(crate) fn push_padded(text: &mut String, digits: usize, number: u128) -> Result<(), AllocError>
    ensures { OnOk result (string_bytes text.new ≡ string_bytes text.old ++ padded digits number) }
{
    let mut buffer = Buffer::new();
    let decimal = buffer.format(number);
    for _ in decimal.len()..digits {
        text.push_str("0")?;
    }
    text.push_str(&decimal[decimal.len().saturating_sub(digits)..])
}
