//! Laws of the definitions. Each is the contract of a function that does nothing.
ghost use Rattle.oim_write.specs.Bytes.{canonical};
ghost use Rattle.oim_merge.specs.Above.{AllowedIsDeclared};
ghost use Rattle.oim_merge.specs.Added.{StepsAreList};
ghost use Rattle.oim_merge.specs.EventLines.{LinesSayOneEvent};
ghost use Rattle.oim_merge.specs.History.{EarlierTextsGiveBodies, HistoriesAreForgotten, HistoriesGiveBodies, IsReadAsBody, MergedTextsMerge, TextsGiveBodies};
ghost use Rattle.oim_merge.specs.Lines.{LinesAreOne, LinesTellVerdicts, WordsShowVerdicts};
ghost use Rattle.oim_merge.specs.ReadBack.{CanonicalReadsBack, EarlierIsNotCanonical, EarlierReadsBack, LeastLevelIsDeclared, MergedTextsAreCanonical};
ghost use Rattle.oim_merge.specs.Replicas.{EqualSetsWriteTheSame, ReplicasSayAsAfresh, ReplicasStay, WireAgrees};
ghost use Rattle.oim_merge.specs.Run.{ReportsIgnoreOrder};
ghost use Rattle.oim_merge.specs.Sources.{EachFactIsSaid, EachMentionIsTold, EachObjectIsMentioned, SourcesIgnoreOrder};
ghost use Rattle.oim_merge.specs.Traced.{TracedStepsAreList};

use fact_base::Base;

/// Two lists of reports give the same canonical text if their accepted reports are read as the same
/// documents, whatever the order and repetition.
pub fn reports_ignore_order()
    ensures { ReportsIgnoreOrder }
{}

/// Adding reports one at a time gives the same body and the same refusals as merging their list.
#[tactic(auto, using(crate::proofs::Reports::steps_are_list))]
pub fn steps_are_list()
    ensures { StepsAreList }
{}

/// Adding reports one at a time to a traced merge gives the same state as merging their list.
#[tactic(auto, using(crate::proofs::Traces::traced_steps_are_list))]
pub fn traced_steps_are_list()
    ensures { TracedStepsAreList }
{}

/// The text of a body that fits a sheet is read as the same facts and references, in order, with
/// the level of its facts.
#[tactic(auto, using(crate::proofs::ReadsBack::canonical_reads_back))]
pub fn canonical_reads_back()
    ensures { CanonicalReadsBack }
{}

/// The earlier form of the text of a body that fits a sheet is read as the same facts and
/// references. The earlier form declares no level, so all duplicates are allowed.
#[tactic(auto, using(crate::proofs::ReadsBack::earlier_reads_back))]
pub fn earlier_reads_back()
    ensures { EarlierReadsBack }
{}

/// The text of a body that fits a sheet declares the strictest level that the facts satisfy. If the
/// text declared a stricter level, it would be refused; with a looser level, it would be accepted.
#[tactic(auto, using(crate::proofs::ReadsBack::least_level_is_declared))]
pub fn least_level_is_declared()
    ensures { LeastLevelIsDeclared }
{}

/// A body that fits a sheet stays within a level if and only if its text declares that level or a
/// stricter one.
pub fn allowed_is_declared()
    ensures { AllowedIsDeclared }
{}

/// The text of a body that fits a sheet is accepted, and a new base that takes the report has that
/// body. The text may be in the canonical form or in the earlier form.
#[tactic(auto, using(crate::proofs::Histories::earlier_texts_give_bodies, crate::proofs::Histories::texts_give_bodies))]
pub fn texts_give_bodies()
    ensures present { TextsGiveBodies }
    ensures earlier { EarlierTextsGiveBodies }
{}

/// The text of a base is accepted under the base's sheet, as a document with exactly the base's
/// facts and references.
pub fn bases_read_back(base: &Base<'_>)
    ensures { IsReadAsBody base.now.sheet (canonical base.now.body) base.now.body }
{
    // the contract of `sheet` states that the body fits the sheet
    let _sheet = base.sheet();
}

/// The text of a body that fits a sheet is the canonical text of the document that is read from
/// the text.
#[tactic(auto, using(crate::proofs::Histories::merged_texts_are_canonical))]
pub fn merged_texts_are_canonical()
    ensures { MergedTextsAreCanonical }
{}

/// No text in the earlier form is canonical.
#[tactic(auto, using(crate::proofs::ReadsBack::earlier_is_not_canonical))]
pub fn earlier_is_not_canonical()
    ensures { EarlierIsNotCanonical }
{}

/// A base has the body of the documents that reached it, directly or through bases that it joined.
/// So two bases have the same body if the same documents reached both, whatever the order, grouping
/// and repetition. A base's canonical text, verdicts, level and references depend only on its body.
#[tactic(auto, using(crate::proofs::Histories::histories_are_forgotten, crate::proofs::Histories::histories_give_bodies))]
pub fn histories_are_forgotten()
    ensures body { HistoriesGiveBodies }
    ensures forgotten { HistoriesAreForgotten }
{}

/// Merging a merged text with itself and with any of the reports that it was merged from gives the
/// same text.
#[tactic(auto, using(crate::proofs::Histories::merged_texts_merge))]
pub fn merged_texts_merge()
    ensures { MergedTextsMerge }
{}

/// A body that fits a sheet has exactly one list of verdict lines.
pub fn lines_are_one()
    ensures { LinesAreOne }
{}

/// In a body that fits a sheet, the evidence in a line shows the verdict on the line's dimension
/// set. The text of the evidence begins with the word for that verdict.
pub fn lines_tell_verdicts()
    ensures verdict { LinesTellVerdicts }
    ensures word { WordsShowVerdicts }
{}

/// An accepted report has one mention for each fact object. The mention contains the object's fact.
/// `source_lines` writes one line for each mention and no other line. Each fact of the merged
/// reports has a line.
#[tactic(auto, using(crate::proofs::SourceLaws::each_fact_is_said, crate::proofs::SourceLaws::each_mention_is_told, crate::proofs::SourceLaws::each_object_is_mentioned))]
pub fn sources_are_whole()
    ensures objects { EachObjectIsMentioned }
    ensures told { EachMentionIsTold }
    ensures said { EachFactIsSaid }
{}

/// If the reports are reordered, `source_lines` writes the same lines, except that the report
/// numbers and the order of the lines may differ.
pub fn sources_ignore_order()
    ensures { SourcesIgnoreOrder }
{}

/// After every schedule without a bad event, each replica has the base of the documents that
/// reached it since its last restart. Each sent text is read as the body that the sender had when
/// it sent the text, whichever version wrote the text. No replica is added or lost.
#[tactic(auto, using(crate::proofs::Agreement::replicas_stay, crate::proofs::Agreement::wire_agrees))]
pub fn wire_agrees()
    ensures agrees { WireAgrees }
    ensures stay { ReplicasStay }
{}

/// After every schedule without a bad event, each replica has the text, verdicts, values and level
/// of a new merge of the accepted reports that reached it since its last restart.
pub fn replicas_say_as_afresh()
    ensures { ReplicasSayAsAfresh }
{}

/// After every schedule without a bad event, two replicas write the same bytes if the same accepted
/// reports reached both since their last restarts.
#[tactic(auto, using(crate::proofs::Agreement::equal_sets_write_the_same))]
pub fn equal_sets_write_the_same()
    ensures { EqualSetsWriteTheSame }
{}

/// A line of a schedule spells at most one event.
#[tactic(auto, using(crate::proofs::EventTexts::lines_say_one_event))]
pub fn lines_say_one_event()
    ensures { LinesSayOneEvent }
{}
