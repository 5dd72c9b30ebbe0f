ghost use Rattle.std.specs.Prelude.{◌≡◌, [], ◌∷◌, ◌++◌, IfOk, OnOk, length, option_map, slice_get};

use oim_names::Text;
use std::alloc::{AllocError, Global};
use std::marker::Model;

/// A list of texts. All texts are in one buffer, so no text has an allocation of its own.
#[derive(Drop)]
pub(crate) struct Texts {
    buffer: String,
    spans: Vec<(usize, usize)>,
}

impl Model for Texts {
    ghost use Rattle.std.specs.Prelude.{ℕ, List, string_bytes};
    ghost use Rattle.oim_report.specs.code.Texts.{AreTextSpans, texts_at};

    ghost Value = { List (List ℕ) };

    ghost view = { λ t. texts_at (string_bytes t.buffer) t.spans.items };

    ghost invariant = { λ t. AreTextSpans (string_bytes t.buffer) t.spans.items };
}

impl Texts {
    pub(crate) fn new(alloc: Global) -> Texts
        ensures { result ≡ [] }
    {
        Texts {
            buffer: String::new(alloc),
            spans: Vec::new(alloc),
        }
    }

    pub(crate) fn len(&self) -> usize
        ensures { result ≡ length self.now }
    {
        self.spans.len()
    }

    pub(crate) fn reserve(&mut self, count: usize) -> Result<(), AllocError>
        ensures { self.new ≡ self.old }
    {
        self.spans.reserve(count)
    }

    /// Adds a text at the end.
    pub(crate) fn push(&mut self, text: &str) -> Result<(), AllocError>
        ensures { OnOk result (self.new ≡ self.old ++ text.now ∷ []) }
    {
        let start = self.buffer.len();
        self.buffer.push_str(text)?;
        self.spans.push((start, self.buffer.len()))?;
        Ok(())
    }

    pub(crate) fn get(&self, index: usize) -> Option<&str>
        ensures { option_map (λ t. t.now) result ≡ slice_get self.now index }
    {
        let (start, end) = *self.spans.get(index)?;
        self.buffer.as_str().get(start..end)
    }

    /// Copies the texts, in the same order.
    pub(crate) fn to_vec(&self, alloc: Global) -> Result<Vec<Text>, AllocError>
        ensures { IfOk result (λ texts. texts.items ≡ self.now) }
    {
        let mut texts = Vec::with_capacity(alloc, self.len())?;
        for index in 0..self.len() {
            if let Some(text) = self.get(index) {
                texts.push(Text::new(alloc, text)?)?;
            }
        }
        Ok(texts)
    }
}
