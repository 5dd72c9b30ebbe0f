ghost use Rattle.std.specs.Prelude.{◌≡◌, ℕ, ◌+◌, ◌<◌, List, IfOk};
ghost use Rattle.oim_merge.specs.Lines.{RowText};
ghost use Rattle.oim_merge.specs.Judged.{DependsOnItsNames, IsJudged, judged_text};
ghost use Rattle.oim_merge.specs.Identifiers.{named};

use fact_base::{Evidence, Row};
use oim_names::Text;
use oim_write::{Scratch, identifier};
use std::alloc::{AllocError, Global};

/// The identifiers of a row's facts in the canonical text, computed from the number of facts before
/// the row and the number of all facts.
#[derive(Clone, Copy)]
pub struct Identifiers {
    /// The allocator for the identifiers.
    pub alloc: Global,
    /// The number of facts before the row.
    pub before: u128,
    /// The number of all facts.
    pub count: u128,
}

impl Identifiers {
    /// The identifier of the row's fact at this index, from 0.
    ///
    /// Errors: out of memory.
    pub fn at(&self, index: usize) -> Result<Text, AllocError>
        requires { self.now.before + index < self.now.count }
        ensures { IfOk result (λ text. text ≡ named self.now.before self.now.count index) }
    {
        let rank = self.before + index as u128 + 1;
        identifier(self.alloc, rank, self.count)
    }
}

/// A row of a base with its number, its evidence and the identifiers of its facts.
#[derive(Clone, Copy)]
pub struct JudgedRow<'b> {
    /// The number of the row, from 1.
    pub number: u64,
    /// The identifiers of the row's facts in the canonical text.
    pub identifiers: Identifiers,
    /// The dimensions and values.
    pub row: Row<'b>,
    /// The evidence for the verdict on the row.
    pub evidence: Evidence,
}

/// A format of verdicts: a header, and one text for each row of a base.
pub trait VerdictFormat {
    /// The text before the first row.
    ghost header: { Self → List ℕ };

    /// The text of a row: it depends only on the number, dimensions and values of the row, on the
    /// identifiers of its facts, and on the evidence.
    ghost row_text: { Self → RowText };

    /// Returns the text before the first row.
    ///
    /// Errors: out of memory.
    fn header(&self, alloc: Global) -> Result<Vec<u8>, AllocError>
        ensures { IfOk result (λ text. text.items ≡ header self.now) };

    /// Returns the text of a row.
    ///
    /// Errors: out of memory.
    fn row(&self, scratch: &mut Scratch, judged: &JudgedRow<'_>) -> Result<Vec<u8>, AllocError>
        requires { IsJudged judged.now }
        ensures { IfOk result (λ text. text.items ≡ judged_text (row_text self.now) judged.now) };

    /// The text of a row depends on the identifiers of the row's facts, and on no other
    /// identifiers.
    ghost names: { (format : Self) → DependsOnItsNames (row_text format) };
}
