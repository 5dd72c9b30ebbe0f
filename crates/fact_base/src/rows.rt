ghost use Rattle.std.proofs.Props.{props};
ghost use Rattle.std.specs.Prelude.{◌≡◌, ◌≤◌, length};
ghost use Rattle.std.specs.List.{All};
ghost use Rattle.fact_base.specs.code.Judged.{AreSummarised};
ghost use Rattle.fact_base.specs.Verdict.{IsEvidence, verdict_of};

use crate::entries::Entries;
use crate::evidence::Evidence;
use crate::verdict::{Verdict, evidence_of, verdict_of};
use merge_laws::Summary;
use oim_dims::Dimensions;
use oim_value::Value;

/// A dimension set with the values that are reported for it.
#[derive(Clone, Copy, Debug)]
pub struct Row<'b> {
    /// The dimensions that all facts of the row have.
    pub dimensions: &'b Dimensions,
    /// The distinct values in order.
    pub values: &'b [Value],
    pub(crate) summary: &'b Summary,
    ghost summed: { AreSummarised values.now summary.now } by { Prim.hlevel props },
}

impl Row<'_> {
    /// Returns the verdict on the facts of the row.
    pub fn verdict(&self) -> Verdict
        ensures { verdict_of self.now.values.now ≡ Some result }
    {
        verdict_of(self.values, self.summary)
    }

    /// Returns the evidence for the verdict. Indices in the evidence refer to `values`.
    pub fn evidence(&self) -> Evidence
        ensures { IsEvidence self.now.values.now result }
    {
        evidence_of(self.values, self.summary)
    }
}

/// An iterator over the rows of a base, in the order of dimension sets.
#[derive(Clone, Copy)]
pub struct Rows<'b> {
    pub(crate) entries: &'b Entries,
    pub(crate) next: usize,
    ghost summed: { All (λ e. AreSummarised e.1.0 e.1.1) entries.now } by { Prim.hlevel props },
}

impl<'b> Iterator for Rows<'b> {
    type Item = Row<'b>;

    ghost use Rattle.std.specs.Iterator.{YieldsFirstBy, item_count};
    ghost use Rattle.fact_base.specs.Shown.{shown, rows_left};

    ghost next_gives = { YieldsFirstBy shown rows_left };

    ghost remaining = { item_count rows_left };

    fn next(&mut self) -> Option<Row<'b>> {
        if self.next >= self.entries.len() {
            return None;
        }
        let (dimensions, (values, summary)) = self.entries.at(self.next)?;
        self.next += 1;
        Some(Row {
            dimensions,
            values: values.as_slice(),
            summary,
        })
    }
}

impl Rows<'_> {
    ghost use Rattle.std.specs.Bool.{OnTrue};
    ghost use Rattle.std.specs.List.{HoldsAt};
    ghost use Rattle.fact_base.specs.Shown.{HoldForUris, rows_left};

    /// Returns a number of next rows whose concepts have this URI. More such rows may follow.
    ///
    /// At most half of them are left out. URIs may be long, so few are compared: rows ascend by these
    /// URIs first, so if the rows at two distances have the URI, all rows between have it.
    pub fn uri_run(&self, uri: &str) -> usize
        ensures uris { HoldForUris (λ u. u ≡ uri.now) result (rows_left self.now) }
        ensures within { result ≤ length (rows_left self.now) }
    {
        let left = self.entries.len().saturating_sub(self.next);
        let mut count = 0;
        while count < left - count && self.has_uri(self.next + 2 * count, uri) {
            count = 2 * count + 1;
        }
        count
    }

    // Returns whether the row at an index of the base has a concept with this URI.
    fn has_uri(&self, index: usize, uri: &str) -> bool
        ensures { OnTrue result (HoldsAt (λ e. e.0.concept.uri ≡ uri.now) self.now.entries.now index) }
    {
        match self.entries.at(index) {
            Some((dimensions, _)) => dimensions.concept().uri() == uri,
            None => false,
        }
    }
}
