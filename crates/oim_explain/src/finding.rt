ghost use Rattle.std.specs.Prelude.{◌≡◌};

use crate::escaped::{Escaped, end_of, front_of};
use crate::format_keys::object_with;
use crate::quoted::push_text;
use crate::sentence::{around, push_alone, push_limit};
use crate::subject::Subject;
use oim_names::Reason;
use oim_report::Part;
use serde_json::Value;
use std::alloc::{AllocError, Global};

/// A fault of a file, with what its sentence shows.
#[derive(Clone, Copy)]
pub(crate) struct Finding<'a> {
    pub subject: Subject<'a>,
    pub reason: Reason,
    pub part: Part<'a>,
    /// The message of the parser, if the parser refused the file.
    pub message: Option<&'a str>,
    /// The guessed kind of the file, if there is a guess.
    pub kind: Option<&'static str>,
    /// What the name at fault means, if the sheet has a similar name.
    pub meaning: Option<Meaning<'a>>,
}

/// The name that a report uses, and a name in the sheet with the same local part.
#[derive(Clone, Copy)]
pub(crate) struct Meaning<'a> {
    pub local: &'a str,
    /// The namespace that the report binds.
    pub uri: &'a str,
    /// The namespace in the sheet.
    pub listed_uri: &'a str,
}

impl<'a> Finding<'a> {
    /// A floating-point number in `value` or `decimals` is not shown, because it might be printed
    /// in another spelling than the file's.
    pub(crate) fn new(subject: Subject<'a>, reason: Reason, part: Part<'a>) -> Finding<'a>
        ensures subject { result.subject ≡ subject.entry }
        ensures reason { result.reason ≡ reason }
    {
        let part = match part {
            Part::Value(value) if value.is_f64() && reason >= Reason::ValueForm => Part::Nothing,
            part => part,
        };
        Finding {
            subject,
            reason,
            part,
            message: None,
            kind: None,
            meaning: None,
        }
    }

    pub(crate) fn sentence(&self, alloc: Global) -> Result<String, AllocError> {
        let mut sentence = String::new(alloc);
        self.push_said(alloc, &mut sentence)?;
        if let Some(meaning) = self.meaning {
            meaning.push(alloc, &mut sentence)?;
        }
        if let Some(message) = self.message {
            write!(sentence, ": {message}")?;
        }
        if let Some(kind) = self.kind {
            write!(sentence, "; the file looks like {kind}")?;
        }
        Ok(sentence)
    }

    fn push_said(&self, alloc: Global, line: &mut String) -> Result<(), AllocError> {
        match self.part {
            Part::Nothing => push_alone(line, self.reason),
            Part::Whole => line.push_str(self.whole()),
            Part::Missing(key) => write!(line, "\"{key}\" is missing"),
            Part::NoObject(key) => write!(line, "\"{key}\" is not an object"),
            Part::NoArray(key) => write!(line, "\"{key}\" is not an array"),
            Part::NoText(key) => write!(line, "\"{key}\" is not a string"),
            Part::Key(key) | Part::KeyIn(key, _) if self.is_misplaced(key) => {
                push_misplaced(line, key)
            }
            part => {
                let (before, behind) = around(self.subject, self.reason, part);
                line.push_str(before)?;
                push_part(alloc, line, part)?;
                line.push_str(behind)?;
                push_limit(line, self.reason)
            }
        }
    }

    /// Returns whether a key is at fault only because another object must contain it.
    fn is_misplaced(&self, key: &str) -> bool {
        match self.subject {
            Subject::Sheet => false,
            _ => self.reason == Reason::UnknownMember && object_with(key).is_some(),
        }
    }

    /// Returns the sentence for a file or a fact that is not an object.
    fn whole(&self) -> &'static str {
        match self.subject {
            Subject::Sheet => {
                "the file is not an object with \"namespaces\", \"concepts\" and \"dimensions\""
            }
            Subject::Report => "the file is not an object with \"documentInfo\" and \"facts\"",
            Subject::Fact(_, _) => "the fact is not an object",
        }
    }
}

impl Meaning<'_> {
    /// Appends both names as `{URI}local`. If the URIs begin alike, their ends are shown.
    fn push(&self, alloc: Global, line: &mut String) -> Result<(), AllocError> {
        let begin_alike = begin_alike(alloc, self.uri, self.listed_uri)?;
        line.push_str("; in the report it is ")?;
        push_uri(alloc, line, self.uri, begin_alike)?;
        push_front(alloc, line, self.local)?;
        line.push_str(", the sheet has ")?;
        push_uri(alloc, line, self.listed_uri, begin_alike)?;
        push_front(alloc, line, self.local)
    }
}

/// Returns whether the fronts that a sentence would show of two texts are equal.
fn begin_alike(alloc: Global, one: &str, other: &str) -> Result<bool, AllocError> {
    let (one, other) = (front_of(alloc, one)?, front_of(alloc, other)?);
    Ok(one.as_str() == other.as_str())
}

/// Appends a URI in braces. A long one is cut, and two dots stand for the rest: the front is shown, or
/// the end if `shows_end`.
fn push_uri(
    alloc: Global,
    line: &mut String,
    uri: &str,
    shows_end: bool,
) -> Result<(), AllocError> {
    line.push_str("{")?;
    if shows_end {
        let end = end_of(uri);
        let start = if end.len() == uri.len() { "" } else { ".." };
        write!(line, "{start}{}", Escaped(end))?;
    } else {
        push_front(alloc, line, uri)?;
    }
    line.push_str("}")
}

fn push_front(alloc: Global, line: &mut String, text: &str) -> Result<(), AllocError> {
    let front = front_of(alloc, text)?;
    let end = if front.len() == text.len() { "" } else { ".." };
    write!(line, "{}{end}", Escaped(front.as_str()))
}

/// Appends the sentence about a known key that is in the wrong object.
fn push_misplaced(line: &mut String, key: &str) -> Result<(), AllocError> {
    let object = object_with(key).unwrap_or_default();
    write!(
        line,
        "\"{key}\" is in the wrong place: it belongs in {object}"
    )
}

/// Appends a part. Its texts and values are written as JSON, and long ones are cut.
fn push_part(alloc: Global, line: &mut String, part: Part<'_>) -> Result<(), AllocError> {
    match part {
        Part::Key(text) | Part::Name(text) | Part::Entity(text) => push_text(alloc, line, text),
        Part::KeyIn(text, object) => {
            push_text(alloc, line, text)?;
            write!(line, " in \"{object}\"")
        }
        Part::Two(one, other) => {
            push_text(alloc, line, one)?;
            line.push_str(" and ")?;
            push_text(alloc, line, other)
        }
        Part::Value(value) => push_value(alloc, line, value),
        Part::Member(key, value) => {
            push_text(alloc, line, key)?;
            line.push_str(": ")?;
            push_value(alloc, line, value)
        }
        _ => Ok(()),
    }
}

/// Appends a value as JSON. If the value is not a text and its JSON has more than 80 characters,
/// the JSON is cut, and two dots follow. If the value is or contains a floating-point number, which
/// might be printed in another spelling than the file's, only its type is appended.
fn push_value(alloc: Global, line: &mut String, value: &Value) -> Result<(), AllocError> {
    if let Some(text) = value.as_str() {
        return push_text(alloc, line, text);
    }
    let json = value.to_string(alloc)?;
    if has_float(json.as_str()) {
        return line.push_str(type_of(value));
    }
    push_front(alloc, line, json.as_str())
}

fn type_of(value: &Value) -> &'static str {
    if value.is_object() {
        "(an object)"
    } else if value.is_array() {
        "(an array)"
    } else {
        "(a number)"
    }
}

/// Returns whether a JSON text that `serde_json` has written contains a floating-point number: only
/// such a number has a point outside strings, or an `e` after a digit.
fn has_float(json: &str) -> bool {
    let mut last = b' ';
    let mut is_in_string = false;
    for byte in json.bytes() {
        if byte == b'"' && last != b'\\' {
            is_in_string = !is_in_string;
        } else if !is_in_string && (byte == b'.' || byte == b'e' && last.is_ascii_digit()) {
            return true;
        }
        // a backslash that is itself escaped does not escape the next character
        last = if byte == b'\\' && last == b'\\' {
            b' '
        } else {
            byte
        };
    }
    false
}
