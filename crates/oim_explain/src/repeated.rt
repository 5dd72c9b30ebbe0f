ghost use Rattle.std.specs.Prelude.{◌≡◌, OnOk};
ghost use Rattle.oim_explain.specs.Explained.{RepeatsKeys};
ghost use Rattle.oim_explain.specs.code.Added.{AddsRepeated};

use crate::lines::Lines;
use crate::quoted::push_text;
use crate::subject::Subject;
use json::{Error, Scratch, Value};
use oim_report::after_mark;
use std::alloc::{AllocError, Global};
use std::str;

/// Adds a line for each key that is repeated in an object that `push_report` or `push_sheet`
/// visits. If the file is not JSON, no line is added.
pub(crate) fn push_repeated(
    lines: &mut Lines<'_>,
    subject: Subject<'_>,
    bytes: &[u8],
) -> Result<(), AllocError>
    ensures adds { OnOk result (AddsRepeated lines.old lines.new) }
    ensures unique { ¬ (RepeatsKeys bytes.now) → OnOk result (lines.new ≡ lines.old) }
{
    let Ok(text) = str::from_utf8(after_mark(bytes)) else {
        return Ok(());
    };
    // only a file with repeated members is parsed a second time
    match Value::parse_strict(lines.alloc, text, &mut Scratch::new(lines.alloc)) {
        Err(Error::DuplicateKey) => {}
        Err(Error::OutOfMemory) => return Err(AllocError),
        _ => return Ok(()),
    }
    let mut scratch = Scratch::new(lines.alloc);
    match Value::parse(lines.alloc, text, &mut scratch) {
        Ok(tree) => match subject {
            Subject::Sheet => push_sheet(lines, &tree),
            _ => push_report(lines, &tree),
        },
        Err(Error::OutOfMemory) => Err(AllocError),
        Err(_) => Ok(()),
    }
}

fn push_report(lines: &mut Lines<'_>, tree: &Value<'_>) -> Result<(), AllocError>
    ensures { OnOk result (AddsRepeated lines.old lines.new) }
{
    push_of(lines, "", Some(tree), " in the report")?;
    push_info(lines, tree.get("documentInfo"))?;
    push_of(lines, "fact ", tree.get("facts"), "")?;
    push_facts(lines, tree.get("facts"))
}

fn push_info(lines: &mut Lines<'_>, info: Option<&Value<'_>>) -> Result<(), AllocError>
    ensures { OnOk result (AddsRepeated lines.old lines.new) }
{
    let Some(info) = info else {
        return Ok(());
    };
    push_of(lines, "", Some(info), " in \"documentInfo\"")?;
    push_of(lines, "", info.get("namespaces"), " in \"namespaces\"")?;
    push_of(lines, "", info.get("features"), " in \"features\"")
}

fn push_facts(lines: &mut Lines<'_>, facts: Option<&Value<'_>>) -> Result<(), AllocError>
    ensures { OnOk result (AddsRepeated lines.old lines.new) }
{
    let Some(Value::Object(facts)) = facts else {
        return Ok(());
    };
    for index in indices_of_read(lines.alloc, facts.as_slice())? {
        if let Some((identifier, fact)) = facts.get(index) {
            push_fact(lines, identifier, fact)?;
        }
    }
    Ok(())
}

fn push_fact(lines: &mut Lines<'_>, identifier: &str, fact: &Value<'_>) -> Result<(), AllocError>
    ensures { OnOk result (AddsRepeated lines.old lines.new) }
{
    let mut before = String::from_str(lines.alloc, "fact ")?;
    push_text(lines.alloc, &mut before, identifier)?;
    before.push_str(": ")?;
    push_of(lines, before.as_str(), Some(fact), "")?;
    let dimensions = fact.get("dimensions");
    push_of(lines, before.as_str(), dimensions, " in \"dimensions\"")
}

fn push_sheet(lines: &mut Lines<'_>, tree: &Value<'_>) -> Result<(), AllocError>
    ensures { OnOk result (AddsRepeated lines.old lines.new) }
{
    push_of(lines, "", Some(tree), " in the sheet")?;
    push_of(lines, "", tree.get("namespaces"), " in \"namespaces\"")?;
    push_of(lines, "", tree.get("concepts"), " in \"concepts\"")?;
    push_of(lines, "", tree.get("dimensions"), " in \"dimensions\"")
}

/// Adds a line for each repeated key of an object. In each sentence, `before` precedes the key, and
/// `location` follows "is repeated".
fn push_of(
    lines: &mut Lines<'_>,
    before: &str,
    object: Option<&Value<'_>>,
    location: &str,
) -> Result<(), AllocError>
    ensures { OnOk result (AddsRepeated lines.old lines.new) }
{
    let Some(Value::Object(members)) = object else {
        return Ok(());
    };
    for key in repeated_keys(lines.alloc, members.as_slice())? {
        let mut sentence = String::from_str(lines.alloc, before)?;
        push_text(lines.alloc, &mut sentence, key)?;
        write!(
            sentence,
            " is repeated{location}; only the last one is read"
        )?;
        lines.push_repeated(key, sentence.as_str())?;
    }
    Ok(())
}

/// Returns the indices of the members that are read, in ascending order: of members with one key,
/// only the last is read.
fn indices_of_read<'a>(
    alloc: Global,
    members: &[(&'a str, Value<'a>)],
) -> Result<Vec<usize>, AllocError> {
    let mut keys: Vec<(&'a str, usize)> = Vec::with_capacity(alloc, members.len())?;
    for (index, (key, _value)) in members.iter().enumerate() {
        keys.push((*key, index))?;
    }
    keys.sort_unstable();
    let mut found: Vec<usize> = Vec::with_capacity(alloc, keys.len())?;
    let mut next: Option<&'a str> = None;
    for (key, index) in keys.iter().rev() {
        if next != Some(*key) {
            found.push(*index)?;
        }
        next = Some(*key);
    }
    found.sort_unstable();
    Ok(found)
}

/// Returns the repeated keys, each once, in byte order.
fn repeated_keys<'a>(
    alloc: Global,
    members: &[(&'a str, Value<'a>)],
) -> Result<Vec<&'a str>, AllocError> {
    let mut keys: Vec<&'a str> = Vec::with_capacity(alloc, members.len())?;
    for (key, _value) in members {
        keys.push(*key)?;
    }
    keys.sort_unstable();
    let mut found: Vec<&'a str> = Vec::new(alloc);
    let mut last: Option<&'a str> = None;
    for key in keys {
        if last == Some(key) && found.last().copied() != Some(key) {
            found.push(key)?;
        }
        last = Some(key);
    }
    Ok(found)
}
