ghost use Rattle.std.specs.Prelude.{ℕ, List, ◌≡◌, ◌<◌, ◌≤◌};
ghost use Rattle.oim_names.specs.Positions.{byte_from_end, index_in, text_class};

use std::marker::Model;

const CLASSES: usize = 2048;

/// A cache with one index for each class of texts: usually the index at which a text of the class
/// was last added. The index is only a hint: it may be out of range or belong to another text. So
/// callers compare the text at the index. Texts of equal length with the same last four bytes share
/// a class.
#[derive(Clone, Copy, Debug)]
pub struct PositionCache {
    indices: [u16; CLASSES],
}

impl Model for PositionCache {
    ghost use Rattle.std.specs.Prelude.{ℕ, List};

    ghost Value = { List ℕ };

    ghost view = { λ r. r.indices };

    ghost inverse = { λ indices. record { indices = indices } };
}

impl PositionCache {
    /// Returns a cache in which each class has index 0.
    pub fn new() -> PositionCache
        ensures { (text : List ℕ) → index_in result text ≡ 0 }
    {
        PositionCache {
            indices: [0; CLASSES],
        }
    }

    /// Returns the index that is stored for the class of the text.
    pub fn index_of(&self, text: &str) -> usize
        ensures { result ≡ index_in self.now text.now }
    {
        usize::from(self.indices[class_of(text)])
    }

    /// Stores the index for the class of the text. An index above 65,535 is not stored.
    pub fn set(&mut self, text: &str, index: usize)
        ensures stored { index ≤ 65535 → index_in self.new text.now ≡ index }
        ensures kept { 65535 < index → self.new ≡ self.old }
    {
        if let Ok(index) = u16::try_from(index) {
            self.indices[class_of(text)] = index;
        }
    }
}

#[tactic(auto, unfolding(crate::specs::Positions::text_class))]
fn class_of(text: &str) -> usize
    ensures is { result ≡ text_class text.now }
    ensures bounded { result < CLASSES }
{
    let two = byte_from_end(text, 3) + 31 * byte_from_end(text, 4);
    let four = byte_from_end(text, 1) + 31 * (byte_from_end(text, 2) + 31 * two);
    (text.len() % CLASSES + 31 * four) % CLASSES
}

fn byte_from_end(text: &str, back: usize) -> usize
    ensures is { result ≡ byte_from_end text.now back }
    ensures bounded { result < 256 }
{
    let index = text.len().saturating_sub(back);
    match text.as_bytes().get(index) {
        Some(byte) => usize::from(*byte),
        None => 0,
    }
}
