ghost use Rattle.std.specs.Prelude.{◌≡◌, All};
ghost use Rattle.oim_report.specs.Duplicates.{level_of};
ghost use Rattle.oim_report.specs.FactFits.{FactFits};
ghost use Rattle.oim_report.specs.References.{IsKeptReference};
ghost use Rattle.oim_report.specs.Report.{IsOrderOf, IsReading};

use crate::document::duplicates::level_of;
use crate::sheet::Sheet;
use oim_dims::Fact;
use oim_names::Text;
use oim_value::Level;
use std::marker::Model;

/// A report, read under a sheet that it borrows (xBRL-JSON 1.0): its facts, its taxonomy
/// references, and the level of duplicates that it declares.
pub struct Report<'s> {
    sheet: &'s Sheet,
    facts: Vec<Fact>,
    references: Vec<Text>,
    declared: Level,
    order: Vec<usize>,
}

// By hand, so that a drop is one call, which is faster to prove than a derived one.
impl Drop for Report<'_> {
    fn drop(self) {
        let Report {
            sheet: _,
            facts: _,
            references: _,
            declared: _,
            order: _,
        } = self;
    }
}

impl<'s> Model for Report<'s> {
    ghost use Rattle.oim_report.specs.Report.{IsReading, Reading};
    ghost use Rattle.std.specs.Coded.{codes};
    ghost use Rattle.oim_report.specs.code.SheetCode.{sheet_code};

    ghost Value = { Reading };

    ghost coded = { Prim.hlevel (codes, sheet_code) };

    ghost view = { λ a. record { sheet = a.sheet.now; document = record { facts = a.facts.items; references = a.references.items; level = a.declared }; order = a.order.items } };

    ghost invariant = { λ a. IsReading (record { sheet = a.sheet.now; document = record { facts = a.facts.items; references = a.references.items; level = a.declared }; order = a.order.items }) };
}

impl<'s> Report<'s> {
    pub(crate) fn new(
        sheet: &'s Sheet,
        facts: Vec<Fact>,
        references: Vec<Text>,
        declared: Level,
        order: Vec<usize>,
    ) -> Report<'s>
        requires facts { All (FactFits sheet.now) facts.items }
        requires references { All IsKeptReference references.items }
        requires order { IsOrderOf facts.items order.items }
        ensures sheet { result.sheet ≡ sheet.now }
        ensures document { result.document ≡ record { facts = facts.items; references = references.items; level = declared } }
        ensures order { result.order ≡ order.items }
    {
        Report {
            sheet,
            facts,
            references,
            declared,
            order,
        }
    }

    /// Returns all facts, repeats included, in byte order of their identifiers.
    pub fn facts(&self) -> &[Fact]
        ensures { result.now ≡ self.now.document.facts }
    {
        self.facts.as_slice()
    }

    /// Returns the kept texts of all taxonomy references, repeats included, in the order of the
    /// report.
    pub fn taxonomy(&self) -> &[Text]
        ensures { result.now ≡ self.now.document.references }
    {
        self.references.as_slice()
    }

    /// Returns the level of duplicates that the report declares (`xbrl:allowedDuplicates` of OIM
    /// Common 1.0), or `All` if it declares no level.
    pub fn declared(&self) -> Level
        ensures { result ≡ self.now.document.level }
    {
        self.declared
    }

    /// Returns the strictest level of duplicates that allows all facts, repeats included.
    pub fn level(&self) -> Level
        ensures { result ≡ level_of self.now.document.facts }
    {
        level_of(self.facts.as_slice(), self.order.as_slice())
    }

    /// Returns the sheet under which the report was read.
    pub fn sheet(&self) -> &'s Sheet
        ensures { result.now ≡ self.now.sheet }
    {
        self.sheet
    }

    /// Returns the indices of all facts, in ascending order of the facts.
    pub fn order(&self) -> &[usize]
        ensures { result.now ≡ self.now.order }
    {
        self.order.as_slice()
    }

    /// Consumes the report. Returns its facts and their order, as `facts` and `order` return them.
    pub fn into_facts(self) -> (Vec<Fact>, Vec<usize>)
        ensures facts { result.0.items ≡ self.entry.document.facts }
        ensures order { result.1.items ≡ self.entry.order }
    {
        let Report {
            sheet: _,
            facts,
            references: _,
            declared: _,
            order,
        } = self;
        (facts, order)
    }

    /// Does nothing. Its contract states that each fact fits the sheet, each reference is a kept
    /// text, and `order` sorts the facts.
    pub fn known(&self)
        ensures { IsReading self.now }
    {
        let _facts = &self.facts;
    }
}
