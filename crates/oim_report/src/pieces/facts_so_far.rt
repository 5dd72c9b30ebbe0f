//! Collects the facts of a report, one after another.

ghost use Rattle.std.specs.Prelude.{◌≡◌, IfErr, IfNone, IfOk, IfSome, OnOk, List};
ghost use Rattle.oim_report.specs.Refusal.{map_ok};
ghost use Rattle.json.specs.Find.{BeginsWith};
ghost use Rattle.json.specs.Json.{Json};
ghost use Rattle.oim_names.specs.Bindings.{Binding};
ghost use Rattle.serde_json.specs.Data.{Members, no_members};
ghost use Rattle.serde_json.specs.View.{view};
ghost use Rattle.oim_report.specs.Outcome.{fact_outcome, facts_said};
ghost use Rattle.oim_report.specs.Pieces.{put_all};
ghost use Rattle.oim_report.specs.Sheet.{Sheet as ASheet};
ghost use Rattle.oim_report.specs.code.FactsSoFar.{AreSoFar, IsOneMore, IsJudgedAt, IsSaid};
ghost use Rattle.oim_report.specs.code.FoundFacts.{AreFound};
ghost use Rattle.oim_report.specs.code.Ranks.{AreRanks, IsRank};

use crate::fact::fact_members::FactMembers;
use crate::fact_reader::FactReader;
use crate::json_values::skipped::skip_value;
use crate::limits::MOST_MEMBER_LEVELS;
use crate::pieces::found_facts::FoundFacts;
use crate::pieces::judgement::Judgement;
use crate::pieces::judgements::Judgements;
use crate::pieces::taped_tree::tree_of;
use crate::refusal::Refusal;
use crate::unread::Unread;
use json::Element;
use oim_dims::Fact;
use oim_names::Reason;
use serde_json::Value;
use std::alloc::Global;

/// The facts that were read so far. If one of them is refused, only their judgements are kept.
#[derive(Drop)]
pub(crate) enum FactsSoFar {
    Accepted(FoundFacts),
    Refused(Judgements),
}

impl FactsSoFar {
    /// Adds the fact at this place of a tape. The result is `NeedsTree` if its value cannot be read
    /// there, or if it is refused and the reader stops there.
    pub(crate) fn add(
        &mut self,
        reader: &mut FactReader<'_>,
        key: &str,
        object: &Element<'_, '_>,
    ) -> Result<(), Unread>
        ensures same { reader.new ≡ reader.old }
        ensures adds { (v : Json) → BeginsWith object.now v → OnOk result
            (IsOneMore reader.old.sheet reader.old.aliases key.now v self.old self.new) }
    {
        let refused = match self {
            FactsSoFar::Accepted(found) => add_fact(reader, found, key, object)?,
            FactsSoFar::Refused(judgements) => {
                return add_judgement(reader, judgements, key, object);
            }
        };
        if let Some(judgements) = refused {
            *self = FactsSoFar::Refused(judgements);
        }
        Ok(())
    }

    /// Returns the facts in byte order of their identifiers, or the refusal of the first refused one.
    /// The result is `NeedsTree` if an accepted fact replaced the refused one.
    pub(crate) fn in_order(self, alloc: Global) -> Result<Result<FoundFacts, Refusal>, Unread>
        ensures found { IfOk result (λ o. IfOk o (λ f. (sheet : ASheet) (bs : List Binding) (ms : Members) →
            AreSoFar sheet bs ms self → AreFound sheet bs (put_all ms no_members) f.identifiers f.facts.items)) }
        ensures ranks { IfOk result (λ o. IfOk o (λ f. (sheet : ASheet) (bs : List Binding) (ms : Members) →
            AreSoFar sheet bs ms self → AreRanks sheet.concepts f.facts.items f.ranks.items)) }
        ensures refused { IfOk result (λ o. IfErr o (λ r. (sheet : ASheet) (bs : List Binding) (ms : Members) →
            AreSoFar sheet bs ms self → facts_said sheet bs (put_all ms no_members) ≡ Err r)) }
    {
        match self {
            FactsSoFar::Accepted(found) => Ok(Ok(found.in_order(alloc)?)),
            FactsSoFar::Refused(judgements) => match judgements.first_refusal() {
                Some(refusal) => Ok(Err(refusal)),
                None => Err(Unread::NeedsTree),
            },
        }
    }
}

// Adds a fact to accepted ones. If it is refused, the judgements of all are returned.
fn add_fact(
    reader: &mut FactReader<'_>,
    found: &mut FoundFacts,
    key: &str,
    object: &Element<'_, '_>,
) -> Result<Option<Judgements>, Unread>
    ensures same { reader.new ≡ reader.old }
    ensures accepted { (v : Json) → BeginsWith object.now v → IfOk result (λ refused. IfNone refused
        (IsOneMore reader.old.sheet reader.old.aliases key.now v (FactsSoFar.Accepted found.old) (FactsSoFar.Accepted found.new))) }
    ensures refused { (v : Json) → BeginsWith object.now v → IfOk result (λ refused. IfSome refused (λ all.
        IsOneMore reader.old.sheet reader.old.aliases key.now v (FactsSoFar.Accepted found.old) (FactsSoFar.Refused all))) }
{
    let alloc = reader.alloc();
    let said = read_fact(reader, object)?;
    match said {
        Ok((fact, rank)) => {
            found.push(key, fact, rank)?;
            Ok(None)
        }
        Err(reason) => {
            if reader.stops_at_refused() {
                return Err(Unread::NeedsTree);
            }
            let mut judgements = Judgements::of_accepted(alloc, found)?;
            judgements.put(alloc, key, Judgement::Refused(reason))?;
            Ok(Some(judgements))
        }
    }
}

fn add_judgement(
    reader: &mut FactReader<'_>,
    judgements: &mut Judgements,
    key: &str,
    object: &Element<'_, '_>,
) -> Result<(), Unread>
    ensures same { reader.new ≡ reader.old }
    ensures adds { (v : Json) → BeginsWith object.now v → OnOk result
        (IsOneMore reader.old.sheet reader.old.aliases key.now v (FactsSoFar.Refused judgements.old) (FactsSoFar.Refused judgements.new)) }
{
    let is_after_refused = judgements.is_after_refused(key);
    let judgement = judge(reader, object, is_after_refused)?;
    judgements.put(reader.alloc(), key, judgement)?;
    Ok(())
}

// Judges a fact, unless a fact with a lesser identifier is known to be refused.
fn judge(
    reader: &mut FactReader<'_>,
    object: &Element<'_, '_>,
    is_after_refused: bool,
) -> Result<Judgement, Unread>
    ensures same { reader.new ≡ reader.old }
    ensures judged { (v : Json) → BeginsWith object.now v → IfOk result
        (λ j. IsJudgedAt reader.old.sheet reader.old.aliases v j) }
{
    if is_after_refused {
        skip_value(object, MOST_MEMBER_LEVELS)?;
        return Ok(Judgement::Unknown);
    }
    let said = read_fact(reader, object)?;
    Ok(judgement_of(&said))
}

fn judgement_of(said: &Result<(Fact, usize), Reason>) -> Judgement
    ensures accepted { IfOk said.now (λ _. result ≡ Judgement.Accepted) }
    ensures refused { IfErr said.now (λ reason. result ≡ Judgement.Refused reason) }
{
    match said {
        Ok(_) => Judgement::Accepted,
        Err(reason) => Judgement::Refused(*reason),
    }
}

// Reads the fact at this place of a tape. A fact that is refused, or that cannot be read there,
// becomes a tree.
fn read_fact(
    reader: &mut FactReader<'_>,
    object: &Element<'_, '_>,
) -> Result<Result<(Fact, usize), Reason>, Unread>
    ensures same { reader.new ≡ reader.old }
    ensures said { (v : Json) → BeginsWith object.now v → IfOk result
        (λ said. IsSaid reader.old.sheet reader.old.aliases v said) }
    ensures rank { IfOk result (λ said. IfOk said
        (λ f. IsRank reader.old.sheet.concepts f.0.dimensions.concept f.1)) }
{
    match read_taped_fact(reader, object) {
        Ok(read) => return Ok(Ok(read)),
        Err(Unread::OutOfMemory) => return Err(Unread::OutOfMemory),
        Err(Unread::NeedsTree) => {}
    }
    let tree = tree_of(reader.alloc(), object, MOST_MEMBER_LEVELS)?;
    match reader.least_fault(&tree)? {
        Some(reason) => Ok(Err(reason)),
        None => read_tree(reader, &tree),
    }
}

fn read_tree(
    reader: &mut FactReader<'_>,
    tree: &Value,
) -> Result<Result<(Fact, usize), Reason>, Unread>
    ensures same { reader.new ≡ reader.old }
    ensures said { IfOk result (λ said. fact_outcome reader.old.sheet reader.old.aliases (view tree.now)
        ≡ map_ok (λ f. f.0) said) }
    ensures rank { IfOk result (λ said. IfOk said
        (λ f. IsRank reader.old.sheet.concepts f.0.dimensions.concept f.1)) }
{
    match reader.read(tree) {
        Ok(read) => Ok(Ok(read)),
        Err(Reason::OutOfMemory) => Err(Unread::OutOfMemory),
        Err(reason) => Ok(Err(reason)),
    }
}

fn read_taped_fact(
    reader: &mut FactReader<'_>,
    object: &Element<'_, '_>,
) -> Result<(Fact, usize), Unread>
    ensures same { reader.new ≡ reader.old }
    ensures said { (v : Json) → BeginsWith object.now v → IfOk result
        (λ f. IsSaid reader.old.sheet reader.old.aliases v (Ok f)) }
    ensures rank { IfOk result (λ f. IsRank reader.old.sheet.concepts f.0.dimensions.concept f.1) }
{
    let parts = FactMembers::of_element(reader.alloc(), object)?;
    reader.read_parts(&parts)
}
