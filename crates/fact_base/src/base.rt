ghost use Rattle.std.specs.Prelude.{◌≡◌, ◌≢◌, ◌↔◌, [], ◌∷◌, ◌++◌, length, is_some, IsTrue, IfOk, IfSome, MatchOption, OnOk, OnErr};
ghost use Rattle.fact_base.specs.Body.{body, gathered, union};
ghost use Rattle.fact_base.specs.Fits.{Fits};
ghost use Rattle.fact_base.specs.Rows.{rows_of, values_at};
ghost use Rattle.fact_base.specs.Shown.{rows_left};
ghost use Rattle.fact_base.specs.Verdict.{IsEvidence, verdict};
ghost use Rattle.oim_report.specs.Duplicates.{level_of};

use crate::entries::{
    Entries, copied_facts, count_of, entries_in_order, has_all_rows, level_of, same_rows,
};
use crate::evidence::Evidence;
use crate::ordering::{has_all, in_order, put_in_order, replace, sort, with_all};
use crate::rows::{Row, Rows};
use crate::verdict::Verdict;
use merge_laws::{Merge, SortedMap, SortedSet};
use oim_dims::{Dimensions, Fact};
use oim_names::{Text, copies_of};
use oim_report::{Report, Sheet};
use oim_value::Level;
use std::alloc::{AllocError, Global};
use std::marker::Model;

/// The distinct facts and the taxonomy references of reports that were read under one sheet. A base
/// borrows its sheet.
pub struct Base<'s> {
    alloc: Global,
    sheet: &'s Sheet,
    entries: Entries,
    references: SortedSet<Text>,
}

// By hand, so that a drop is one call, which is faster to prove than a derived one.
impl Drop for Base<'_> {
    fn drop(self) {
        let Base {
            alloc: _,
            sheet: _,
            entries: _,
            references: _,
        } = self;
    }
}

impl<'s> Model for Base<'s> {
    ghost use Rattle.std.specs.Coded.{codes};
    ghost use Rattle.oim_report.specs.code.SheetCode.{sheet_code};
    ghost use Rattle.fact_base.specs.Contents.{Contents};
    ghost use Rattle.fact_base.specs.Entries.{facts_of_entries};
    ghost use Rattle.fact_base.specs.code.Entries.{AreStored};

    ghost Value = { Contents };

    ghost coded = { Prim.hlevel (codes, sheet_code) };

    ghost view = { λ b. record { sheet = b.sheet.now; body = record { facts = facts_of_entries b.entries; references = b.references } } };

    ghost invariant = { λ b. AreStored b.sheet.now b.entries b.references };
}

impl<'s> Base<'s> {
    /// Returns a base without facts and references. Later calls allocate from `alloc`.
    pub fn new(alloc: Global, sheet: &'s Sheet) -> Base<'s>
        ensures { result ≡ record { sheet = sheet.now; body = body [] } }
    {
        Base {
            alloc,
            sheet,
            entries: SortedMap::new(alloc),
            references: SortedSet::new(alloc),
        }
    }

    // Returns the base of these facts and references, which may be in any order and repeated.
    pub(crate) fn of(
        alloc: Global,
        sheet: &'s Sheet,
        mut facts: Vec<Fact>,
        mut references: Vec<Text>,
    ) -> Result<Base<'s>, AllocError>
        requires { Fits sheet.now (gathered facts.items references.items) }
        ensures { IfOk result (λ base. base ≡ record { sheet = sheet.now; body = gathered facts.items references.items }) }
    {
        put_in_order(&mut references)?;
        sort(&mut facts)?;
        Ok(Base {
            alloc,
            sheet,
            entries: entries_in_order(alloc, facts)?,
            references: SortedSet::of_rising(references),
        })
    }

    /// Returns the base's sheet. The contract also states that each fact of the base fits the
    /// sheet, that facts and references ascend, and that resolving a reference again without a base
    /// URL changes nothing.
    pub fn sheet(&self) -> &'s Sheet
        ensures sheet { result.now ≡ self.now.sheet }
        ensures fits { Fits self.now.sheet self.now.body }
    {
        self.sheet
    }

    /// Returns whether the sheet equals the base's sheet. If so, reports that were read under the
    /// sheet can be added.
    pub fn same_sheet(&self, sheet: &Sheet) -> bool
        ensures { IsTrue result ↔ (self.now.sheet ≡ sheet.now) }
    {
        self.sheet.same_as(sheet)
    }

    /// Adds the facts and references of a report that was read under an equal sheet.
    ///
    /// Errors: out of memory; the base is then unchanged.
    pub fn take(&mut self, report: &Report<'_>) -> Result<(), AllocError>
        requires { report.now.sheet ≡ self.old.sheet }
        ensures ok { OnOk result (self.new ≡ record self.old { body = union self.old.body (body (report.now.document ∷ [])) }) }
        ensures err { OnErr result (self.new ≡ self.old) }
    {
        report.known();
        let references = with_all(self.alloc, &self.references, report.taxonomy())?;
        let facts = copies_of(self.alloc, report.facts(), 0)?;
        let order = Vec::from_slice(self.alloc, report.order())?;
        let entries = entries_in_order(self.alloc, in_order(facts, order))?;
        self.entries.absorb(entries)?;
        replace(&mut self.references, references);
        Ok(())
    }

    /// Does the same as `take`, but consumes the report, so that fewer facts are copied.
    ///
    /// Errors: out of memory; the base is then unchanged, and the report is lost.
    pub fn absorb_report(&mut self, report: Report<'_>) -> Result<(), AllocError>
        requires { report.sheet ≡ self.old.sheet }
        ensures ok { OnOk result (self.new ≡ record self.old { body = union self.old.body (body (report.entry.document ∷ [])) }) }
        ensures err { OnErr result (self.new ≡ self.old) }
    {
        report.known();
        let wider = with_all(self.alloc, &self.references, report.taxonomy())?;
        let (facts, order) = report.into_facts();
        let moved = entries_in_order(self.alloc, in_order(facts, order))?;
        self.entries.absorb(moved)?;
        replace(&mut self.references, wider);
        Ok(())
    }

    /// Adds the facts and references of another base with an equal sheet.
    ///
    /// Errors: out of memory; the base is then unchanged.
    pub fn join(&mut self, other: &Base<'_>) -> Result<(), AllocError>
        requires { other.now.sheet ≡ self.old.sheet }
        ensures ok { OnOk result (self.new ≡ record self.old { body = union self.old.body other.now.body }) }
        ensures err { OnErr result (self.new ≡ self.old) }
    {
        let references = with_all(self.alloc, &self.references, other.taxonomy())?;
        self.entries.merge(self.alloc, &other.entries)?;
        replace(&mut self.references, references);
        Ok(())
    }

    /// Does the same as `join`, but consumes the other base, so that fewer facts are copied.
    ///
    /// Errors: out of memory; the base is then unchanged, and the other base is lost.
    pub fn absorb(&mut self, other: Base<'_>) -> Result<(), AllocError>
        requires { other.sheet ≡ self.old.sheet }
        ensures ok { OnOk result (self.new ≡ record self.old { body = union self.old.body other.entry.body }) }
        ensures err { OnErr result (self.new ≡ self.old) }
    {
        let references = with_all(self.alloc, &self.references, other.taxonomy())?;
        // This base's values of a shared dimension set are copied into the other base, so that this
        // base does not change if memory is refused. Absorbing many bases one by one therefore
        // takes quadratic time if each adds values to the same dimension set.
        let Base {
            alloc: _,
            sheet: _,
            entries: others,
            references: _,
        } = other;
        self.entries.absorb(others)?;
        replace(&mut self.references, references);
        Ok(())
    }

    // Appends copies of the facts and the references to the lists.
    pub(crate) fn append_to(
        &self,
        facts: &mut Vec<Fact>,
        references: &mut Vec<Text>,
    ) -> Result<(), AllocError>
        ensures facts { OnOk result (facts.new.items ≡ facts.old.items ++ self.now.body.facts) }
        ensures references { OnOk result (references.new.items ≡ references.old.items ++ self.now.body.references) }
    {
        facts.append(&mut copied_facts(self.alloc, &self.entries)?)?;
        references.append(&mut copies_of(self.alloc, self.taxonomy(), 0)?)
    }

    /// Returns one row for each dimension set, in order.
    pub fn rows(&self) -> Rows<'_>
        ensures { rows_left result ≡ rows_of self.now.body.facts }
    {
        Rows {
            entries: &self.entries,
            next: 0,
        }
    }

    /// Returns the number of rows. There is one row for each dimension set.
    pub fn row_count(&self) -> u64
        ensures { result ≡ length (rows_of self.now.body.facts) }
    {
        self.entries.len() as u64
    }

    /// Returns the number of distinct facts.
    pub fn fact_count(&self) -> u128
        ensures { result ≡ length self.now.body.facts }
    {
        count_of(&self.entries)
    }

    /// Returns the taxonomy references in byte order, each once.
    pub fn taxonomy(&self) -> &[Text]
        ensures { result.now ≡ self.now.body.references }
    {
        self.references.as_slice()
    }

    /// Returns whether both bases have the same facts and the same references.
    pub fn same_as(&self, other: &Base<'_>) -> bool
        ensures { IsTrue result ↔ (self.now.body ≡ other.now.body) }
    {
        same_rows(&self.entries, &other.entries) && self.taxonomy() == other.taxonomy()
    }

    // Returns true only if joining the other base would change nothing. A base with fewer than half
    // as many rows is looked up row by row; any other must be the same.
    pub(crate) fn has_all(&self, other: &Base<'_>) -> bool
        ensures { IsTrue result → self.now.body ≡ union self.now.body other.now.body }
    {
        if self.entries.len() / 2 > other.entries.len() {
            return has_all_rows(&self.entries, &other.entries)
                && has_all(self.taxonomy(), other.taxonomy());
        }
        self.same_as(other)
    }

    /// Returns the verdict on the facts with these dimensions, or None if no fact has them.
    pub fn verdict(&self, dimensions: &Dimensions) -> Option<Verdict>
        ensures { result ≡ verdict self.now.body.facts dimensions.now }
    {
        Some(self.row(dimensions)?.verdict())
    }

    /// Returns the evidence for the verdict on the facts with these dimensions, or None if no fact
    /// has them.
    pub fn evidence(&self, dimensions: &Dimensions) -> Option<Evidence>
        ensures there { is_some result ≡ is_some (verdict self.now.body.facts dimensions.now) }
        ensures evidence { IfSome result (IsEvidence (values_at dimensions.now self.now.body.facts)) }
    {
        Some(self.row(dimensions)?.evidence())
    }

    fn row<'b>(&'b self, dimensions: &'b Dimensions) -> Option<Row<'b>>
        ensures { MatchOption result (values_at dimensions.now self.now.body.facts ≡ [])
            (λ row. row.values.now ≡ values_at dimensions.now self.now.body.facts) }
    {
        let (values, summary) = self.entries.get(dimensions)?;
        Some(Row {
            dimensions,
            values: values.as_slice(),
            summary,
        })
    }

    /// Returns the strictest level of duplicates that allows the facts. The level is never
    /// `Complete`, because the facts are distinct.
    pub fn level(&self) -> Level
        ensures level { result ≡ level_of self.now.body.facts }
        ensures never_complete { result ≢ Level.Complete }
    {
        level_of(&self.entries)
    }
}
