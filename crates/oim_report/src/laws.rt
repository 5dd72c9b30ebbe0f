#![tactic(auto, using(crate::proofs::StatedLaws::laws))]

ghost use Rattle.std.specs.Prelude.{◌≡◌, ◌↔◌, ℕ, List, None, Some, Ok, IsTrue};
ghost use Rattle.std.specs.Str.{is_utf8};
ghost use Rattle.url.specs.Parser.{parse_url};
ghost use Rattle.url.specs.Parts.{serialize};
ghost use Rattle.oim_names.specs.QName.{QName};
ghost use Rattle.oim_names.specs.Bindings.{Binding};
ghost use Rattle.oim_names.specs.Expansion.{Expands, ExpandsEntity};
ghost use Rattle.oim_report.specs.Outcome.{AcceptedWhereFree, OutcomesWantNoMemory, FactsAreSaid, RefusedWhereHeld};
ghost use Rattle.oim_report.specs.Duplicates.{LevelIgnoresOrder, LevelIsStrictest, ValuesMeetIsMeets};
ghost use Rattle.oim_report.specs.Identifiers.{EachFactHasAnIdentifier, IdentifiersRise};
ghost use Rattle.oim_report.specs.Faults.{FirstFaultIsAnswered, NoFaultsWhereAccepted};
ghost use Rattle.oim_report.specs.References.{KeptIsAccepted, KeptIsKept, KeptIsUtf8, is_web, web_text};
ghost use Rattle.oim_report.specs.Limits.{NestedIsRead, NestsWithinLimit, TextsAreWithinLimit};
ghost use Rattle.oim_report.specs.Listed.{ConceptsAreListed, DimensionsAreListed};
ghost use Rattle.oim_report.specs.Names.{entity_named, named};
ghost use Rattle.oim_report.specs.Pieces.{PiecesAreTheWhole};
ghost use Rattle.oim_report.specs.Report.{AcceptedFactsFit, AcceptedReferencesAreKept, OutcomesAreSaid};
ghost use Rattle.oim_report.specs.Sheet.{SheetOutcomesWantNoMemory, SheetRefusedWhereHeld};
ghost use Rattle.oim_report.specs.Document.{SaysOneDocument};
ghost use Rattle.oim_report.specs.Least.{LeastIsAnswered};
ghost use Rattle.oim_report.specs.PlainJson.{PlainHasNoFloat, PlainTextReadsBack, ReadHasUtf8};
ghost use Rattle.oim_report.specs.ReadBack.{FactObjectHasParts, FactObjectIsPlain, FactObjectReadsBack, FormsAreAccepted, NamesAreAccepted};

use url::Url;

/// The serialization of an http or https URL is UTF-8 and parses as that URL. So the serialization
/// is the kept text of the URL (URL Standard, sections 4.4 and 4.5).
pub fn web_texts_read_back(url: &Url)
    ensures utf8 { IsTrue (is_web url.now) → IsTrue (is_utf8 (serialize url.now)) }
    ensures parsed { IsTrue (is_web url.now) → parse_url None (serialize url.now) ≡ Ok url.now }
    ensures kept { IsTrue (is_web url.now) → web_text (Some url.now) ≡ Some (serialize url.now) }
{
    let _text = url.as_str();
}

/// `named` returns a name exactly if the text expands to that name. `entity_named` does the same
/// for entities.
pub fn names_are_expanded()
    ensures names { (bs : List Binding) (t : List ℕ) (n : QName) → (named bs t ≡ Some n) ↔ Expands bs t n }
    ensures entities { (bs : List Binding) (t : List ℕ) (n : QName) → (entity_named bs t ≡ Some n) ↔ ExpandsEntity bs t n }
{}

/// A kept text does not change if it is kept again without a base URL. If a reference is accepted,
/// its kept text is accepted without a base URL. If a reference is UTF-8, its kept text is UTF-8.
pub fn kept_is_kept()
    ensures kept { KeptIsKept }
    ensures accepted { KeptIsAccepted }
    ensures utf8 { KeptIsUtf8 }
{}

/// Two values are allowed as consistent duplicates exactly if they meet.
pub fn values_meet_is_meets()
    ensures { ValuesMeetIsMeets }
{}

/// A level allows each pair of facts in a list exactly if it is not stricter than the level of the
/// list.
pub fn level_is_strictest()
    ensures { LevelIsStrictest }
{}

/// The level of facts does not depend on their order.
pub fn level_ignores_order()
    ensures { LevelIgnoresOrder }
{}

/// `sheet_outcome` is never a refusal for lack of memory.
pub fn sheet_outcomes_want_no_memory()
    ensures { SheetOutcomesWantNoMemory }
{}

/// A sheet is refused as `NotJson` exactly if its bytes are not JSON. If its bytes are JSON, a
/// sheet is refused exactly if a condition applies. The reason is the lowest-numbered condition
/// that applies.
pub fn sheet_refused_where_held()
    ensures { SheetRefusedWhereHeld }
{}

/// An accepted sheet lists exactly the concepts to which the keys of `concepts` expand, each with
/// the kind that the key's value names. The same holds for dimensions and the keys of `dimensions`.
pub fn sheet_lists_what_it_says()
    ensures concepts { ConceptsAreListed }
    ensures dimensions { DimensionsAreListed }
{}

/// The bytes of a report denote at most one document under a sheet.
pub fn says_one_document()
    ensures { SaysOneDocument }
{}

/// If a report is accepted as a document, its bytes denote that document. The facts fit the sheet,
/// and each reference is a kept text.
pub fn outcomes_are_said()
    ensures said { OutcomesAreSaid }
    ensures facts { AcceptedFactsFit }
    ensures references { AcceptedReferencesAreKept }
{}

/// An accepted report has as many identifiers as facts. The object under each identifier denotes
/// the fact with the same index.
pub fn each_fact_has_an_identifier()
    ensures { EachFactHasAnIdentifier }
{}

/// If the bytes of a file are JSON, the listed identifiers of its facts are in strictly ascending
/// byte order, whatever their order in the file.
pub fn identifiers_rise()
    ensures { IdentifiersRise }
{}

/// A report is accepted as a document exactly if all of these hold: its bytes are JSON and denote
/// that document; no condition applies to the document or a fact; the level of its facts is not
/// above the declared level.
pub fn accepted_where_free()
    ensures { AcceptedWhereFree }
{}

/// A report is refused exactly for the first of these reasons that applies: its bytes are not JSON;
/// a condition applies to the document; a condition applies to a fact; the level of its facts is
/// above the declared level. If several facts are refused, the place is the first of them. If
/// several conditions apply to the document or to that fact, the reason is the lowest-numbered one.
pub fn refused_where_held()
    ensures { RefusedWhereHeld }
{}

/// A report has no faults exactly if it is accepted. The first fault is the refusal in `outcome`.
pub fn faults_begin_with_the_refusal()
    ensures none { NoFaultsWhereAccepted }
    ensures first { FirstFaultIsAnswered }
{}

/// If no condition applies to a fact object, it denotes a fact.
pub fn facts_are_said_unless_refused()
    ensures { FactsAreSaid }
{}

/// `outcome` is never a refusal for lack of memory.
pub fn outcomes_want_no_memory()
    ensures { OutcomesWantNoMemory }
{}

/// Suppose that each name of a fact is spelled with a prefix of one or more ASCII letters and
/// digits that is bound to the name's URI. If the fact fits a sheet, its object has the parts
/// that `parts_given` lists.
pub fn fact_object_has_parts()
    ensures { FactObjectHasParts }
{}

/// Suppose that a fact fits a sheet and its names are spelled as in `fact_object_has_parts`. Then
/// its object has the form of a fact (`AreFormed`), and no condition on names applies to the
/// object.
pub fn written_facts_are_accepted()
    ensures form { FormsAreAccepted }
    ensures names { NamesAreAccepted }
{}

/// Suppose that each name of a fact is spelled with a prefix of one or more ASCII letters and
/// digits that is bound to the name's URI. If the fact fits a sheet, its object denotes the fact,
/// and no condition applies to the object.
pub fn fact_object_reads_back()
    ensures { FactObjectReadsBack }
{}

/// Each string and each key of a file's JSON value is UTF-8.
pub fn what_is_read_is_utf8()
    ensures { ReadHasUtf8 }
{}

/// The limit for each base URL, reference and kept text is 65,536 bytes. JSON may be nested at most
/// 127 levels deep, which is the limit of `serde_json`.
pub fn limits_are()
    ensures texts { TextsAreWithinLimit }
    ensures nesting { NestsWithinLimit }
    ensures nested { NestedIsRead }
{}

/// Take a plain object (`IsPlain`) with UTF-8 strings and keys, at most 127 levels deep. Its
/// compact text is read as that object. A plain object contains no float, so its compact text is
/// the one that `serde_json` writes.
pub fn plain_text_reads_back()
    ensures back { PlainTextReadsBack }
    ensures whole { PlainHasNoFloat }
{}

/// Suppose that a fact fits a sheet and its names are spelled as in `fact_object_has_parts`. Then
/// its object is plain, has UTF-8 strings and keys, and is at most two levels deep. So the compact
/// text of the object is read as that object (`plain_text_reads_back`).
pub fn fact_object_is_plain()
    ensures { FactObjectIsPlain }
{}

/// `least` returns the lowest-numbered condition that applies. `told` lists the conditions that
/// apply and are not hidden (`Namespace` hides `Feature`). The numbers of the listed conditions
/// strictly ascend, and the first condition is the one that `least` returns.
pub fn least_is_answered()
    ensures { LeastIsAnswered }
{}

/// Suppose that two pieces can each be read alone, and that each has a member. With a comma between
/// them, they are read as the members of both pieces (RFC 8259, section 4; `serde_json` keeps the
/// last value of a repeated key).
pub fn pieces_are_the_whole()
    ensures { PiecesAreTheWhole }
{}
