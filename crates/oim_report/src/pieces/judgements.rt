ghost use Rattle.std.specs.Prelude.{◌≡◌, [], List, String, string_bytes, Err, IfOk, IfSome, OnOk};
ghost use Rattle.std.specs.Global.{Global};
ghost use Rattle.std.specs.BTreeMap.{insert_entry};
ghost use Rattle.std.specs.String.{string_cmp};
ghost use Rattle.oim_names.specs.Bindings.{Binding};
ghost use Rattle.serde_json.specs.Data.{Members, no_members};
ghost use Rattle.oim_report.specs.Outcome.{facts_said};
ghost use Rattle.oim_report.specs.Pieces.{put_all};
ghost use Rattle.oim_report.specs.Sheet.{Sheet as ASheet};
ghost use Rattle.oim_report.specs.code.FoundFacts.{AreFound};
ghost use Rattle.oim_report.specs.code.Judged.{AreJudged};

use crate::pieces::found_facts::FoundFacts;
use crate::pieces::judgement::Judgement;
use crate::refusal::Refusal;
use std::alloc::{AllocError, Global};
use std::collections::BTreeMap;

/// The judgements of facts of one or more pieces, by identifier. Only the last fact with an
/// identifier counts.
#[derive(Drop)]
pub(crate) struct Judgements {
    pub(crate) by_identifier: BTreeMap<String, Judgement>,
    // The least identifier of a refused fact. It only saves time, so no contract mentions it.
    least_refused: Option<String>,
}

impl Judgements {
    pub(crate) fn new(alloc: Global) -> Judgements
        ensures { result.by_identifier.entries ≡ [] }
    {
        Judgements {
            by_identifier: BTreeMap::new(alloc),
            least_refused: None,
        }
    }

    /// Returns the judgements of facts that are accepted.
    pub(crate) fn of_accepted(alloc: Global, facts: &FoundFacts) -> Result<Judgements, AllocError>
        ensures { IfOk result (λ all. (sheet : ASheet) (bs : List Binding) (ms : Members) →
            AreFound sheet bs ms facts.now.identifiers facts.now.facts.items →
            AreJudged sheet bs (put_all ms no_members) all.by_identifier.entries) }
    {
        let mut all = Judgements::new(alloc);
        for index in 0..facts.identifiers.len() {
            if let Some(identifier) = facts.identifiers.get(index) {
                all.put(alloc, identifier, Judgement::Accepted)?;
            }
        }
        Ok(all)
    }

    /// Adds the judgement of a fact.
    pub(crate) fn put(
        &mut self,
        alloc: Global,
        identifier: &str,
        judgement: Judgement,
    ) -> Result<(), AllocError>
        ensures { OnOk result ((key : String Global) × (string_bytes key ≡ identifier.now)
            × (self.new.by_identifier.entries ≡ insert_entry string_cmp self.old.by_identifier.entries key judgement)) }
    {
        self.note_refused(alloc, identifier, judgement)?;
        let key = String::from_str(alloc, identifier)?;
        let _earlier = self.by_identifier.insert(key, judgement)?;
        Ok(())
    }

    // Keeps the least identifier of a refused fact.
    fn note_refused(
        &mut self,
        alloc: Global,
        identifier: &str,
        judgement: Judgement,
    ) -> Result<(), AllocError>
        ensures { self.new.by_identifier ≡ self.old.by_identifier }
    {
        if judgement.is_refused() && !self.is_after_refused(identifier) {
            self.least_refused = Some(String::from_str(alloc, identifier)?);
        }
        Ok(())
    }

    /// Returns whether a fact with a lesser identifier was refused. A later fact may have replaced it.
    pub(crate) fn is_after_refused(&self, identifier: &str) -> bool {
        match &self.least_refused {
            Some(least) => least.as_str() < identifier,
            None => false,
        }
    }

    /// Returns the refusal of the first refused fact, in byte order of the identifiers. The result is
    /// `None` if no fact is refused, or if an earlier fact was not judged.
    pub(crate) fn first_refusal(&self) -> Option<Refusal>
        ensures { IfSome result (λ r. (sheet : ASheet) (bs : List Binding) (ms : Members) →
            AreJudged sheet bs ms self.now.by_identifier.entries → facts_said sheet bs ms ≡ Err r) }
    {
        let mut number: u64 = 1;
        for (_identifier, judgement) in self.by_identifier.iter() {
            match judgement {
                Judgement::Accepted => number += 1,
                Judgement::Refused(reason) => return Some(Refusal::of_fact(*reason, number)),
                Judgement::Unknown => return None,
            }
        }
        None
    }
}
