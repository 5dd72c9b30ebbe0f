ghost use Rattle.std.specs.Prelude.{◌≡◌, [], ◌∷◌, IfOk, IsTrue, OnOk, OnErr};
ghost use Rattle.fact_base.specs.Body.{body, gathered, union};
ghost use Rattle.fact_base.specs.Fits.{Fits};

use crate::base::Base;
use crate::ordering::{in_order, settle};
use oim_dims::Fact;
use oim_names::{Text, copies_of};
use oim_report::{Report, Sheet};
use std::alloc::{AllocError, Global};
use std::marker::Model;
use std::mem::replace;

/// Collects reports that are read under one sheet, and returns them as one base. A builder
/// borrows its sheet.
///
/// The base absorbs a report that has at least half as many facts and references as the base,
/// rounded down. If providers report the same figures, each fact then costs one look-up. Absorbing
/// a smaller report would walk the whole base, so its facts and references are appended to two
/// lists instead. Before the lists grow, each list is sorted and its repeats are removed if half
/// its length, rounded down, exceeds its length after the last sort.
///
/// References count like facts in this comparison of sizes. Otherwise the base would absorb every
/// report that repeats its facts with new references, and would copy all its references each time.
pub struct BaseBuilder<'s> {
    alloc: Global,
    // the base of the absorbed reports
    base: Base<'s>,
    // the number of facts and references in the base
    size: u128,
    // the facts and references of smaller reports, each list with its length after the last sort
    facts: Vec<Fact>,
    settled_facts: usize,
    references: Vec<Text>,
    settled_references: usize,
}

// By hand, so that a drop is one call, which is faster to prove than a derived one.
impl Drop for BaseBuilder<'_> {
    fn drop(self) {
        let BaseBuilder {
            alloc: _,
            base: _,
            size: _,
            facts: _,
            settled_facts: _,
            references: _,
            settled_references: _,
        } = self;
    }
}

impl<'s> Model for BaseBuilder<'s> {
    ghost use Rattle.std.specs.Coded.{codes};
    ghost use Rattle.oim_report.specs.code.SheetCode.{sheet_code};
    ghost use Rattle.fact_base.specs.Body.{gathered, union};
    ghost use Rattle.fact_base.specs.Contents.{Contents};
    ghost use Rattle.fact_base.specs.Fits.{Fits};

    ghost Value = { Contents };

    ghost coded = { Prim.hlevel (codes, sheet_code) };

    ghost view = { λ g. record { sheet = g.base.sheet; body = union g.base.body (gathered g.facts.items g.references.items) } };

    ghost invariant = { λ g. Fits g.base.sheet (gathered g.facts.items g.references.items) };
}

impl<'s> BaseBuilder<'s> {
    /// Returns a builder without reports. Later calls allocate from `alloc`.
    pub fn new(alloc: Global, sheet: &'s Sheet) -> BaseBuilder<'s>
        ensures { result ≡ record { sheet = sheet.now; body = body [] } }
    {
        BaseBuilder::of(alloc, Base::new(alloc, sheet))
    }

    /// Returns a builder with the facts and references of a base. Later calls allocate from `alloc`.
    pub fn of(alloc: Global, base: Base<'s>) -> BaseBuilder<'s>
        ensures { result ≡ base.entry }
    {
        // the contract of `sheet` states that facts and references ascend
        let _sheet = base.sheet();
        BaseBuilder {
            alloc,
            size: size_of(&base),
            base,
            facts: Vec::new(alloc),
            settled_facts: 0,
            references: Vec::new(alloc),
            settled_references: 0,
        }
    }

    /// Returns the builder's sheet. The contract also states that each fact of the builder fits
    /// the sheet, that facts and references ascend, and that resolving a reference again without a
    /// base URL changes nothing.
    pub fn sheet(&self) -> &'s Sheet
        ensures sheet { result.now ≡ self.now.sheet }
        ensures fits { Fits self.now.sheet self.now.body }
    {
        self.base.sheet()
    }

    /// Adds and consumes a report that was read under an equal sheet.
    ///
    /// Errors: out of memory; the builder is then unchanged, and the report is lost.
    pub fn add(&mut self, report: Report<'_>) -> Result<(), AllocError>
        requires { report.sheet ≡ self.old.sheet }
        ensures ok { OnOk result (self.new ≡ record self.old { body = union self.old.body (body (report.entry.document ∷ [])) }) }
        ensures err { OnErr result (self.new ≡ self.old) }
    {
        let references = report.taxonomy().len() as u128;
        if self.size / 2 > (report.facts().len() as u128).saturating_add(references) {
            return self.gather(report);
        }
        self.base.absorb_report(report)?;
        self.size = size_of(&self.base);
        Ok(())
    }

    /// Adds the facts and references of a base with an equal sheet.
    ///
    /// Errors: out of memory; the builder is then lost.
    pub fn join(&mut self, other: &Base<'_>) -> Result<(), AllocError>
        requires { other.now.sheet ≡ self.old.sheet }
        ensures { OnOk result (self.new ≡ record self.old { body = union self.old.body other.now.body }) }
    {
        if self.base.has_all(other) {
            return Ok(());
        }
        if self.size / 2 > size_of(other) {
            return self.join_small(other);
        }
        self.base.join(other)?;
        self.size = size_of(&self.base);
        Ok(())
    }

    fn join_small(&mut self, other: &Base<'_>) -> Result<(), AllocError>
        requires { other.now.sheet ≡ self.old.sheet }
        ensures { OnOk result (self.new ≡ record self.old { body = union self.old.body other.now.body }) }
    {
        // the contract of `sheet` states that the other base fits the sheet
        let _sheet = other.sheet();
        self.empty_lists()?;
        let (mut facts, mut references) = (Vec::new(self.alloc), Vec::new(self.alloc));
        other.append_to(&mut facts, &mut references)?;
        self.append(facts, references)
    }

    // If a list has more than the base, the base absorbs both lists, so that it has what may be added
    // again.
    fn empty_lists(&mut self) -> Result<(), AllocError>
        ensures { OnOk result (self.new ≡ self.old) }
    {
        if self.size < self.facts.len() as u128 || self.size < self.references.len() as u128 {
            *self = BaseBuilder::of(self.alloc, self.take_base()?);
        }
        Ok(())
    }

    /// Returns true only if the builder's facts and references are those of the base. Returns false
    /// if some are in the lists.
    pub fn surely_same_as(&self, other: &Base<'_>) -> bool
        ensures { IsTrue result → self.now.body ≡ other.now.body }
    {
        if self.facts.is_empty() && self.references.is_empty() {
            // the contract of `sheet` states that facts and references ascend
            let _sheet = self.base.sheet();
            return self.base.same_as(other);
        }
        false
    }

    /// Returns the base of all reports and bases that were added. The builder is then empty.
    ///
    /// Errors: out of memory; what was added is then lost.
    pub fn take_base(&mut self) -> Result<Base<'s>, AllocError>
        ensures { IfOk result (λ base. base ≡ self.old) }
    {
        let empty = BaseBuilder::new(self.alloc, self.base.sheet());
        replace(self, empty).into_base()
    }

    fn gather(&mut self, report: Report<'_>) -> Result<(), AllocError>
        requires { report.sheet ≡ self.old.sheet }
        ensures ok { OnOk result (self.new ≡ record self.old { body = union self.old.body (body (report.entry.document ∷ [])) }) }
        ensures err { OnErr result (self.new ≡ self.old) }
    {
        report.known();
        self.settle()?;
        let references = copies_of(self.alloc, report.taxonomy(), 0)?;
        let (facts, order) = report.into_facts();
        let facts = in_order(facts, order);
        self.append(facts, references)
    }

    fn settle(&mut self) -> Result<(), AllocError>
        ensures { self.new ≡ self.old }
    {
        settle(&mut self.facts, &mut self.settled_facts)?;
        settle(&mut self.references, &mut self.settled_references)
    }

    // Moves these facts and references to the ends of the lists.
    fn append(&mut self, mut facts: Vec<Fact>, mut references: Vec<Text>) -> Result<(), AllocError>
        requires { Fits self.old.sheet (gathered facts.items references.items) }
        ensures ok { OnOk result (self.new ≡ record self.old { body = union self.old.body (gathered facts.items references.items) }) }
        ensures err { OnErr result (self.new ≡ self.old) }
    {
        self.facts.reserve(facts.len())?;
        self.references.append(&mut references)?;
        // The capacity is reserved, so appending the facts cannot fail once the references are
        // appended.
        self.facts.append(&mut facts)
    }

    /// Returns the base of all reports that were added.
    ///
    /// Errors: out of memory; the builder is then lost.
    pub fn into_base(self) -> Result<Base<'s>, AllocError>
        ensures { IfOk result (λ base. base ≡ self.entry) }
    {
        let BaseBuilder {
            alloc,
            mut base,
            size: _,
            mut facts,
            settled_facts: _,
            mut references,
            settled_references: _,
        } = self;
        let sheet = base.sheet();
        if facts.is_empty() && references.is_empty() {
            return Ok(base);
        }
        if base.fact_count() < facts.len() as u128 {
            // Copying the base's facts to the longer list needs less memory than absorbing its
            // entries.
            base.append_to(&mut facts, &mut references)?;
            return Base::of(alloc, sheet, facts, references);
        }
        base.absorb(Base::of(alloc, sheet, facts, references)?)?;
        Ok(base)
    }
}

// The number of facts and references.
fn size_of(base: &Base<'_>) -> u128 {
    base.fact_count()
        .saturating_add(base.taxonomy().len() as u128)
}
