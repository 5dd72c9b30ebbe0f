ghost use Rattle.std.specs.Prelude.{◌≡◌, map, length, IfOk};
ghost use Rattle.merge_laws.specs.Sorted.{IsSet};
ghost use Rattle.oim_dims.specs.FactOrder.{fact_cmp};
ghost use Rattle.oim_merge.specs.Mentions.{AreOf, all_indexed};
ghost use Rattle.oim_merge.specs.Sources.{by_fact, mentions_in};
ghost use Rattle.oim_merge.specs.code.BufferedRows.{lent};

use crate::fact_list::{LentFact, facts_of, index_of};
use crate::successors::Successors;
use fact_base::Base;
use oim_dims::Fact;
use oim_names::{Copied, Text};
use std::alloc::{AllocError, Global};

/// A mention: a fact object in an accepted report, with its fact.
#[derive(Debug, Drop)]
pub struct Mention {
    /// The number of the report, from 1.
    pub report: u64,
    /// The identifier of the object.
    pub identifier: Text,
    /// The fact that the object reports.
    pub fact: Fact,
}

impl Mention {
    // Replaces the fact by its index.
    fn with_index(self, index: usize) -> IndexedMention
        ensures { result ≡ record { index = index; report = self.report; identifier = self.identifier } }
    {
        let Mention {
            report,
            identifier,
            fact: _,
        } = self;
        IndexedMention {
            index,
            report,
            identifier,
        }
    }
}

/// A mention: a fact object in a report, with the index of its fact in a base.
#[derive(Debug, Drop)]
pub struct IndexedMention {
    /// The number of facts in the base that are less than the mentioned fact.
    pub index: usize,
    /// The number of the report, from 1.
    pub report: u64,
    /// The identifier of the fact in the report.
    pub identifier: Text,
}

/// Returns the mentions in the report with this number. Identifiers and facts are in the same order.
///
/// Errors: out of memory.
pub(crate) fn mentions_in(
    alloc: Global,
    number: u64,
    identifiers: &[Text],
    facts: &[Fact],
) -> Result<Vec<Mention>, AllocError>
    requires { length identifiers.now ≡ length facts.now }
    ensures { IfOk result (λ ms. ms.items ≡ mentions_in number identifiers.now facts.now) }
{
    let mut mentions = Vec::with_capacity(alloc, facts.len())?;
    for (i, fact) in facts.iter().enumerate() {
        mentions.push(Mention {
            report: number,
            identifier: identifiers[i].copied(alloc)?,
            fact: fact.copied(alloc)?,
        })?;
    }
    Ok(mentions)
}

/// Returns the mentions with the indices of their facts in the base, sorted by fact. Mentions of
/// one fact keep their order.
///
/// Errors: out of memory.
pub(crate) fn indexed_by_fact(
    alloc: Global,
    base: &Base<'_>,
    mentions: Vec<Mention>,
) -> Result<Vec<IndexedMention>, AllocError>
    requires { AreOf base.now.body.facts mentions.items }
    ensures { IfOk result (λ ms. ms.items
        ≡ all_indexed base.now.body.facts (by_fact base.now.body.facts mentions.items)) }
{
    // the contract of `sheet` states that the facts ascend
    let _sheet = base.sheet();
    let facts = facts_of(alloc, base)?;
    let mut indexed = indexed(alloc, facts.as_slice(), mentions)?;
    indexed.sort_by_key(|mention| mention.index)?;
    Ok(indexed)
}

fn indexed(
    alloc: Global,
    facts: &[LentFact<'_>],
    mentions: Vec<Mention>,
) -> Result<Vec<IndexedMention>, AllocError>
    requires { IsSet fact_cmp (map lent facts.now) }
    ensures { IfOk result (λ ms. ms.items ≡ all_indexed (map lent facts.now) mentions.items) }
{
    let mut indexed = Vec::with_capacity(alloc, mentions.len())?;
    let mut successors = Successors::new(alloc, facts.len())?;
    for mention in mentions {
        let index = index_of(facts, successors.guess(), &mention.fact);
        successors.push(index);
        indexed.push(mention.with_index(index))?;
    }
    Ok(indexed)
}
