ghost use Rattle.std.specs.Prelude.{◌≡◌, ℕ, List, IfOk};
ghost use Rattle.oim_merge.specs.Sources.{SourceText};

use crate::mentions::IndexedMention;
use serde_json::Value;
use std::alloc::{AllocError, Global};

/// A format of sources: a header, and one text for each fact object in an accepted report.
pub trait SourceFormat {
    /// The text before the first source.
    ghost header: { Self → List ℕ };

    /// The text of a source: it depends only on the canonical identifier of the fact, the number of
    /// the report and the identifier in the report.
    ghost source_text: { Self → SourceText };

    /// Returns the text before the first source.
    ///
    /// Errors: out of memory.
    fn header(&self, alloc: Global) -> Result<Vec<u8>, AllocError>
        ensures { IfOk result (λ text. text.items ≡ header self.now) };

    /// Returns the text of a mention. `fact` is the canonical identifier of the mentioned fact.
    ///
    /// Errors: out of memory.
    fn source(
        &self,
        alloc: Global,
        fact: &str,
        mention: &IndexedMention,
    ) -> Result<Vec<u8>, AllocError>
        ensures { IfOk result (λ text. text.items ≡ source_text self.now fact.now mention.now.report mention.now.identifier) };
}

/// The format of the lines that `source_lines` writes.
#[derive(Clone, Copy, Debug)]
pub struct SourceLines;

impl SourceFormat for SourceLines {
    ghost use Rattle.std.specs.Prelude.{[]};
    ghost use Rattle.oim_merge.specs.Sources.{source_line};

    ghost header = { λ format. [] };

    ghost source_text = { λ format. source_line };

    fn header(&self, alloc: Global) -> Result<Vec<u8>, AllocError> {
        Ok(Vec::new(alloc))
    }

    fn source(
        &self,
        alloc: Global,
        fact: &str,
        mention: &IndexedMention,
    ) -> Result<Vec<u8>, AllocError> {
        let own = Value::String(String::from_str(alloc, mention.identifier.as_str())?);
        let own = own.to_string(alloc)?;
        let report = mention.report;
        let line = format!(in alloc; "{fact} {report} {own}\n")?;
        Ok(line.into_bytes())
    }
}
