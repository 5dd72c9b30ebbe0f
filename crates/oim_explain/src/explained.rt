ghost use Rattle.std.specs.Prelude.{◌≡◌, ◌-◌, ◌++◌, ◌∷◌, [], ℕ, List, Some, None, get_or, IfErr, IfOk, OnOk, codes, map, option_map, replicate, string_bytes};
ghost use Rattle.serde_json.specs.Errors.{IsMemory};
ghost use Rattle.serde_json.specs.View.{members_view, view};
ghost use Rattle.oim_report.specs.Faults.{tree_faults};
ghost use Rattle.oim_report.specs.Identifiers.{tree_identifiers};
ghost use Rattle.oim_report.specs.Json.{json, object_at};
ghost use Rattle.oim_explain.specs.Escaped.{escaped, escaped_name};
ghost use Rattle.oim_explain.specs.Explained.{Explains, printed_fault, printed_faults};
ghost use Rattle.oim_explain.specs.code.Added.{AddsAll, AddsLines, texts_of};

use crate::escaped::{Escaped, EscapedName};
use crate::file_kind::{kind_of_sheet, kind_of_tree, kind_of_unread};
use crate::finding::{Finding, Meaning};
use crate::lines::{Explained, Input, Lines};
use crate::nesting::is_too_deep;
use crate::prefixes::aliases_in;
use crate::repeated::push_repeated;
use crate::sheet_names::SheetNames;
use crate::subject::Subject;
use oim_names::{Aliases, Reason};
use oim_report::{
    Fault, MOST_LEVELS, Part, Place, Refusal, after_mark, is_accepted_in_pieces, sheet_part,
    tree_faults,
};
use serde_json::{Error, Map, Value};
use std::alloc::{AllocError, Global};

/// Returns one line for each fault of a report that is read under a sheet, in the order of
/// `faults`, and then the lines of repeated members (own). In the format `Json`, a line is one
/// object. In the format `Text`, the line of a fault begins with the name of the file, the fact's
/// identifier if the fault is in a fact, and the number and name of the fault; its sentence follows.
/// Each line contains only characters that are shown (`Escaped`).
///
/// A sentence shows at most 80 characters of an identifier, a key or a value. A member
/// has a line if its key is repeated in the root, in `documentInfo`, `namespaces`, `features` or
/// `facts`, in a fact, or in its `dimensions`. Only the last member with that key is read (RFC
/// 8259, section 4).
///
/// If the report is refused and `serde_json` cannot read the file, the only line contains the
/// parser's message. Repeated keys are then not listed, even if `json` can read the file. (`json`
/// accepts numbers of any size.)
///
/// Errors: out of memory.
pub fn explain(
    alloc: Global,
    names: &SheetNames<'_>,
    input: Input<'_>,
    bytes: &[u8],
) -> Result<Explained, AllocError>
    ensures { IfOk result (Explains input.entry bytes.now (printed_faults names.now.sheet.now bytes.now)) }
{
    let mut lines = Lines::new(alloc, input);
    push_all(&mut lines, names, bytes)?;
    Ok(lines.explained)
}

fn push_all(lines: &mut Lines<'_>, names: &SheetNames<'_>, bytes: &[u8]) -> Result<(), AllocError>
    ensures { OnOk result (AddsAll bytes.now (printed_faults names.now.sheet.now bytes.now) lines.old lines.new) }
{
    let alloc = lines.alloc;
    // an accepted report has no faults, and reading it in pieces needs less memory than a tree
    if is_accepted_in_pieces(alloc, names.sheet, bytes)? {
        return push_repeated(lines, Subject::Report, bytes);
    }
    match tree_of(alloc, bytes) {
        Ok(tree) => {
            push_faults(lines, names, tree)?;
            push_repeated(lines, Subject::Report, bytes)
        }
        Err(error) => {
            let message = message_of(alloc, bytes, &error)?;
            lines.push(&unread(Subject::Report, message.as_str(), bytes))
        }
    }
}

/// Parses a file as `oim_report` does, but returns the parser's error.
pub(crate) fn tree_of(alloc: Global, bytes: &[u8]) -> Result<Value, Error>
    ensures ok { IfOk result (λ tree. json bytes.now ≡ Some (view tree)) }
    ensures err { IfErr result (λ error. (IsMemory error → ⊥) → json bytes.now ≡ None) }
{
    Value::from_slice(alloc, after_mark(bytes))
}

fn message_of(alloc: Global, bytes: &[u8], error: &Error) -> Result<String, AllocError>
    ensures { IfOk result (λ _. IsMemory error.now → ⊥) }
{
    if error.is_memory() {
        return Err(AllocError);
    }
    if is_too_deep(after_mark(bytes), error) {
        let (line, column) = (error.line(), error.column());
        return format!(in alloc;
            "more than {MOST_LEVELS} levels of objects and arrays at line {line} column {column}"
        );
    }
    let message = format!(in alloc; "{error}")?;
    format!(in alloc; "{}", Escaped(message.as_str()))
}

fn unread<'m>(subject: Subject<'m>, message: &'m str, bytes: &[u8]) -> Finding<'m>
    ensures subject { result.subject ≡ subject.entry }
    ensures reason { result.reason ≡ Reason.NotJson }
{
    Finding {
        message: Some(message),
        kind: kind_of_unread(subject, bytes),
        ..Finding::new(subject, Reason::NotJson, Part::Nothing)
    }
}

// Takes the tree, so that its memory is free when repeated members are searched.
fn push_faults(lines: &mut Lines<'_>, names: &SheetNames<'_>, tree: Value) -> Result<(), AllocError>
    ensures { let found = tree_faults names.now.sheet.now (view tree) in
        OnOk result (AddsLines lines.old lines.new (map (printed_fault (tree_identifiers (view tree))) found)) }
{
    let alloc = lines.alloc;
    let faults = tree_faults(alloc, names.sheet, &tree)?;
    let report = FaultContext {
        names,
        aliases: aliases_of(alloc, &tree)?,
        identifiers: identifiers_of(alloc, &tree)?,
    };
    let found = faults.as_slice();
    for index in 0..found.len() {
        let kind = if index == 0 {
            kind_of_tree(&tree)
        } else {
            None
        };
        report.push_fault(lines, found[index], kind)?;
    }
    Ok(())
}

/// The data that describe the faults of a report.
#[derive(Drop)]
struct FaultContext<'t, 's> {
    names: &'t SheetNames<'s>,
    aliases: Aliases,
    /// The identifiers of the facts, in byte order.
    identifiers: Vec<&'t str>,
}

impl<'t, 's> FaultContext<'t, 's> {
    /// Adds the line of a fault. `kind` is the guessed kind of the file, for a fault of the
    /// document.
    fn push_fault(
        &self,
        lines: &mut Lines<'_>,
        fault: Fault<'_>,
        kind: Option<&'static str>,
    ) -> Result<(), AllocError>
        ensures { let is = texts_of self.now.identifiers.items in
            OnOk result (AddsLines lines.old lines.new (printed_fault is fault.entry.refusal ∷ [])) }
    {
        let Fault { refusal, part } = fault;
        let Refusal { reason, place } = refusal;
        match place {
            Place::Document => lines.push(&Finding {
                kind,
                ..Finding::new(Subject::Report, reason, part)
            }),
            Place::Fact(number) => {
                let subject = Subject::Fact(number, self.identifier(number));
                lines.push(&Finding {
                    meaning: self.meaning_of(lines.alloc, reason, part)?,
                    ..Finding::new(subject, reason, part)
                })
            }
        }
    }

    /// Returns the identifier of the fact with this number, from 1. A fault has the number of an
    /// existing fact, so the text for other numbers is never printed.
    fn identifier(&self, number: u64) -> &'t str
        ensures { result.now ≡ get_or (texts_of self.now.identifiers.items) (number - 1) [] }
    {
        let index = number.saturating_sub(1) as usize;
        self.identifiers.get(index).copied().unwrap_or_default()
    }

    /// If the sheet lacks a name but has a similar one, returns the namespaces of both.
    fn meaning_of<'a>(
        &'a self,
        alloc: Global,
        reason: Reason,
        part: Part<'a>,
    ) -> Result<Option<Meaning<'a>>, AllocError> {
        let Some(text) = unlisted(reason, part) else {
            return Ok(None);
        };
        let Ok((uri, local)) = self.aliases.resolve(text) else {
            return Ok(None);
        };
        let found = self.names.similar(alloc, reason, text)?;
        Ok(found.map(|listed_uri| Meaning {
            local,
            uri,
            listed_uri,
        }))
    }
}

/// Returns the name at fault if it is not in the sheet.
fn unlisted(reason: Reason, part: Part<'_>) -> Option<&str> {
    match (reason, part) {
        (Reason::UnknownConcept, Part::Value(value)) => value.as_str(),
        (Reason::UnknownDimension, Part::Key(text) | Part::Name(text)) => Some(text),
        _ => None,
    }
}

fn aliases_of(alloc: Global, tree: &Value) -> Result<Aliases, AllocError> {
    let info = tree.get("documentInfo");
    let namespaces = info.and_then(|info| info.get("namespaces"));
    aliases_in(alloc, namespaces.and_then(Value::as_object))
}

/// Returns the identifiers of the facts, in byte order.
fn identifiers_of(alloc: Global, tree: &Value) -> Result<Vec<&str>, AllocError>
    ensures { IfOk result (λ is. texts_of is.items ≡ tree_identifiers (view tree.now)) }
{
    let mut identifiers = Vec::new(alloc);
    let Some(members) = members_of_facts(tree) else {
        return Ok(identifiers);
    };
    for (identifier, _object) in members.iter() {
        identifiers.push(identifier.as_str())?;
    }
    Ok(identifiers)
}

fn members_of_facts(tree: &Value) -> Option<&Map<String, Value>>
    ensures { option_map (λ m. members_view m.now.entries) result
        ≡ object_at (codes "facts") (view tree.now) }
{
    tree.get("facts").and_then(Value::as_object)
}

/// Returns a line that begins with the name of the file and contains only characters that are shown
/// (own).
///
/// The line states why the sheet is refused, with the part at fault, the parser's message and a
/// guess at the file's kind, if there are any. For an accepted sheet, the line states that the sheet
/// has no fault.
///
/// Errors: out of memory.
pub fn explain_sheet(alloc: Global, name: &str, bytes: &[u8]) -> Result<String, AllocError>
    ensures { IfOk result (λ line. (sentence : List ℕ)
        × (string_bytes line ≡ escaped (escaped_name name.now ++ (codes ": " ++ sentence)) ++ 10 ∷ [])) }
{
    let sentence = sentence_of_sheet(alloc, bytes)?;
    let line = format!(in alloc; "{}: {sentence}", EscapedName(name))?;
    format!(in alloc; "{}\n", Escaped(line.as_str()))
}

fn sentence_of_sheet(alloc: Global, bytes: &[u8]) -> Result<String, AllocError> {
    match tree_of(alloc, bytes) {
        Ok(tree) => sentence_of_tree(alloc, &tree),
        Err(error) => {
            let message = message_of(alloc, bytes, &error)?;
            unread(Subject::Sheet, message.as_str(), bytes).sentence(alloc)
        }
    }
}

fn sentence_of_tree(alloc: Global, tree: &Value) -> Result<String, AllocError> {
    let Some((reason, part)) = sheet_part(alloc, tree)? else {
        return String::from_str(alloc, "the sheet has no fault");
    };
    let finding = Finding {
        kind: kind_of_sheet(tree),
        ..Finding::new(Subject::Sheet, reason, part)
    };
    finding.sentence(alloc)
}

/// Returns the lines of repeated members of a sheet, and their number (own).
///
/// A member has a line if its key is repeated in the root of the sheet, or in its `namespaces`,
/// `concepts` or `dimensions`. Only the last member with that key is read. For a file that is not
/// JSON, no line is returned.
///
/// Errors: out of memory.
pub fn explain_repeated(
    alloc: Global,
    input: Input<'_>,
    bytes: &[u8],
) -> Result<Explained, AllocError>
    ensures { IfOk result (Explains input.entry bytes.now []) }
{
    let mut lines = Lines::new(alloc, input);
    push_repeated(&mut lines, Subject::Sheet, bytes)?;
    Ok(lines.explained)
}
