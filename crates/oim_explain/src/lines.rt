ghost use Rattle.std.specs.Prelude.{◌≡◌, ◌∷◌, ◌++◌, [], IfOk, None, OnOk, option_map, string_bytes};
ghost use Rattle.json.specs.Token.{key};
ghost use Rattle.oim_explain.specs.Lines.{IsJsonLine, IsLineIn, IsSentence, IsTextLine, identifier_text, number_token, object_front, place_tokens, reason_tokens, refusal_text, repeated_member, text_token};
ghost use Rattle.oim_explain.specs.code.Added.{AddsLines, AddsTokens, AddsSomeTokens, of_finding, of_fault};

use crate::escaped::{Escaped, EscapedName};
use crate::finding::Finding;
use crate::quoted::{push_text, written_text};
use json::{Error, Scratch, Writer};
use oim_report::{Part, Place, Refusal};
use serde_json::Value;
use std::alloc::{AllocError, Global};

/// How faults are printed.
#[derive(Clone, Copy)]
pub enum Format {
    /// A line of text for each fault.
    Text,
    /// A JSON object for each fault, on one line.
    Json,
}

/// A file to explain.
#[derive(Clone, Copy)]
pub struct Input<'n> {
    /// The number of the report, from 1; None for a sheet.
    pub report: Option<u64>,
    /// The name of the file, which is printed with each fault.
    pub name: &'n str,
    pub format: Format,
}

/// The lines for the faults and repeated keys of a file, each with its line end, and the number of
/// lines (own).
#[derive(Drop)]
pub struct Explained {
    pub text: String,
    pub faults: u64,
}

#[derive(Drop)]
pub(crate) struct Lines<'n> {
    pub alloc: Global,
    input: Input<'n>,
    pub explained: Explained,
}

impl<'n> Lines<'n> {
    pub(crate) fn new(alloc: Global, input: Input<'n>) -> Lines<'n>
        ensures input { result.input ≡ input.entry }
        ensures text { string_bytes result.explained.text ≡ [] }
        ensures faults { result.explained.faults ≡ 0 }
    {
        let text = String::new(alloc);
        let explained = Explained { text, faults: 0 };
        Lines {
            alloc,
            input,
            explained,
        }
    }

    pub(crate) fn push(&mut self, finding: &Finding<'_>) -> Result<(), AllocError>
        ensures { OnOk result (AddsLines self.old self.new (of_finding finding.now ∷ [])) }
    {
        let refusal = Refusal {
            reason: finding.reason,
            place: finding.subject.place(),
        };
        self.put(&PrintedFault {
            refusal: Some(refusal),
            identifier: finding.subject.identifier(),
            part: finding.part,
            sentence: finding.sentence(self.alloc)?.as_str(),
        })
    }

    /// Adds a line for a repeated member. If the member is in a fact, only the sentence contains
    /// the fact's identifier, cut to 80 characters. A fact may have many repeated members, and
    /// otherwise each JSON object would repeat the whole identifier.
    pub(crate) fn push_repeated(&mut self, key: &str, sentence: &str) -> Result<(), AllocError>
        requires { IsSentence None sentence.now }
        ensures { OnOk result (AddsLines self.old self.new (repeated_member ∷ [])) }
    {
        self.put(&PrintedFault {
            refusal: None,
            identifier: None,
            part: Part::Key(key),
            sentence,
        })
    }

    /// Adds the line of a fault. The whole line is escaped, so it is one line.
    fn put(&mut self, fault: &PrintedFault<'_, '_>) -> Result<(), AllocError>
        requires { IsSentence fault.now.refusal fault.now.sentence.now }
        ensures { OnOk result (AddsLines self.old self.new (of_fault fault.now ∷ [])) }
    {
        let line = fault.line(self.alloc, &self.input)?;
        let Explained { text, faults } = &mut self.explained;
        *faults = faults.saturating_add(1);
        write!(text, "{}\n", Escaped(line.as_str()))
    }
}

/// A fault as it is printed. For a repeated member, which is not a refusal, only the last two
/// fields are set.
#[derive(Clone, Copy)]
struct PrintedFault<'f, 's> {
    refusal: Option<Refusal>,
    identifier: Option<&'f str>,
    part: Part<'f>,
    sentence: &'s str,
}

impl PrintedFault<'_, '_> {
    fn line(&self, alloc: Global, input: &Input<'_>) -> Result<String, AllocError>
        ensures { let is_line = IsLineIn input.now.format input.now (of_fault self.now) self.now.sentence.now in
            IfOk result (λ line. is_line (string_bytes line)) }
    {
        match input.format {
            Format::Text => self.text_line(alloc, input),
            Format::Json => self.json_line(alloc, input),
        }
    }

    fn text_line(&self, alloc: Global, input: &Input<'_>) -> Result<String, AllocError>
        ensures { IfOk result (λ line. IsTextLine input.now (of_fault self.now) self.now.sentence.now (string_bytes line)) }
    {
        let mut line = format!(in alloc; "{}: ", EscapedName(input.name))?;
        self.push_identifier(alloc, &mut line)?;
        self.push_refusal(&mut line)?;
        line.push_str(self.sentence)?;
        Ok(line)
    }

    fn push_identifier(&self, alloc: Global, line: &mut String) -> Result<(), AllocError>
        ensures { let identifier = option_map (λ i. i.now) self.now.identifier in
            OnOk result (string_bytes line.new ≡ string_bytes line.old ++ identifier_text identifier) }
    {
        if let Some(identifier) = self.identifier {
            line.push_str("fact ")?;
            push_text(alloc, line, identifier)?;
            line.push_str(": ")?;
        }
        Ok(())
    }

    fn push_refusal(&self, line: &mut String) -> Result<(), AllocError>
        ensures { OnOk result (string_bytes line.new ≡ string_bytes line.old ++ refusal_text self.now.refusal) }
    {
        match self.refusal {
            Some(refusal) => {
                let (number, name) = (refusal.reason.number(), refusal.reason.name());
                write!(line, "{number} {name}: ")
            }
            None => Ok(()),
        }
    }

    /// Returns the fault as a JSON object.
    fn json_line(&self, alloc: Global, input: &Input<'_>) -> Result<String, AllocError>
        ensures { IfOk result (λ line. IsJsonLine input.now (of_fault self.now) self.now.sentence.now (string_bytes line)) }
    {
        let mut writer = Writer::new(Vec::new(alloc));
        self.put_front(alloc, &mut writer, input)?;
        writer.key("part")?;
        put_part(alloc, &mut writer, self.part)?;
        put_text(&mut writer, "sentence", Some(self.sentence))?;
        writer.end_object()?;
        Ok(written_text(writer))
    }

    /// Writes the members before `part`.
    fn put_front(
        &self,
        alloc: Global,
        writer: &mut Writer,
        input: &Input<'_>,
    ) -> Result<(), AllocError>
        ensures { OnOk result (AddsTokens writer.old writer.new (object_front input.now (of_fault self.now))) }
    {
        writer.begin_object()?;
        put_number(writer, "report", input.report)?;
        put_text(writer, "file", Some(input.name))?;
        self.put_place(alloc, writer)?;
        self.put_reason(writer)?;
        put_text(writer, "identifier", self.identifier)
    }

    fn put_place(&self, alloc: Global, writer: &mut Writer) -> Result<(), AllocError>
        ensures { OnOk result (AddsTokens writer.old writer.new (place_tokens self.now.refusal)) }
    {
        match self.refusal.map(|refusal| refusal.place) {
            Some(Place::Fact(number)) => {
                let place = format!(in alloc; "fact {number}")?;
                put_text(writer, "place", Some(place.as_str()))
            }
            Some(Place::Document) => put_text(writer, "place", Some("document")),
            None => put_text(writer, "place", None),
        }
    }

    fn put_reason(&self, writer: &mut Writer) -> Result<(), AllocError>
        ensures { OnOk result (AddsTokens writer.old writer.new (reason_tokens self.now.refusal)) }
    {
        match self.refusal {
            Some(Refusal { reason, .. }) => {
                put_number(writer, "number", Some(u64::from(reason.number())))?;
                put_text(writer, "name", Some(reason.name()))
            }
            None => {
                put_number(writer, "number", None)?;
                put_text(writer, "name", None)
            }
        }
    }
}

fn put_number(writer: &mut Writer, name: &str, number: Option<u64>) -> Result<(), AllocError>
    ensures { OnOk result (AddsTokens writer.old writer.new (key name.now ∷ number_token number ∷ [])) }
{
    writer.key(name)?;
    match number {
        Some(number) => writer.u64(number),
        None => writer.null(),
    }
}

fn put_text(writer: &mut Writer, name: &str, text: Option<&str>) -> Result<(), AllocError>
    ensures { let value = text_token (option_map (λ t. t.now) text.entry) in
        OnOk result (AddsTokens writer.old writer.new (key name.now ∷ value ∷ [])) }
{
    writer.key(name)?;
    match text {
        Some(text) => writer.string(text),
        None => writer.null(),
    }
}

/// Writes the part at fault without cutting texts or values: a text, a value, an object with one
/// member or an array of two texts. For other parts, such as a missing member, null is written.
fn put_part(alloc: Global, writer: &mut Writer, part: Part<'_>) -> Result<(), AllocError>
    ensures { OnOk result (AddsSomeTokens writer.old writer.new) }
{
    match part {
        Part::Key(text) | Part::KeyIn(text, _) | Part::Name(text) | Part::Entity(text) => {
            writer.string(text)
        }
        Part::Two(one, other) => {
            writer.begin_array()?;
            writer.string(one)?;
            writer.string(other)?;
            writer.end_array()
        }
        Part::Value(value) => put_value(alloc, writer, value),
        Part::Member(key, value) => {
            writer.begin_object()?;
            writer.key(key)?;
            put_value(alloc, writer, value)?;
            writer.end_object()
        }
        _ => writer.null(),
    }
}

/// Writes a value of `serde_json`, or null if `json` cannot parse it. The value is printed and
/// parsed again, since `json` writes only its own values.
fn put_value(alloc: Global, writer: &mut Writer, value: &Value) -> Result<(), AllocError>
    ensures { OnOk result (AddsSomeTokens writer.old writer.new) }
{
    let text = value.to_string(alloc)?;
    let mut scratch = Scratch::new(alloc);
    match json::Value::from_slice(alloc, text.as_bytes(), &mut scratch) {
        Ok(value) => writer.value(&value),
        Err(Error::OutOfMemory) => Err(AllocError),
        Err(_) => writer.null(),
    }
}
