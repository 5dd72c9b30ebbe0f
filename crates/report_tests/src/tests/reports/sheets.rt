use super::{may_repeat, read_sheet, told};
use oim_names::{Aliases, Name, Reason};
use oim_report::{ConceptKind, DimensionKind, Sheet};
use std::test::Fail;

// Sheets, grouped by the reason why they are refused.
const REFUSED: [(Reason, &[&str]); 8] = [
    (Reason::NotJson, &["", "{"]),
    // the form of a sheet
    (
        Reason::MemberForm,
        &[
            "[]",
            r#"{"namespaces":null}"#,
            r#"{"concepts":[]}"#,
            r#"{"dimensions":"eg:D"}"#,
            r#"{"concepts":[],"colour":1}"#,
        ],
    ),
    (
        Reason::UnknownMember,
        &[r#"{"colour":1}"#, r#"{"namespaces":{"":""},"colour":1}"#],
    ),
    (
        Reason::Namespace,
        &[
            r#"{"namespaces":{"":"u:t"}}"#,
            r#"{"namespaces":{"eg":1}}"#,
            r#"{"namespaces":{"eg":""}}"#,
            r#"{"namespaces":{"eg":1},"concepts":{"A":"text"}}"#,
        ],
    ),
    // concepts and dimensions are names
    (
        Reason::NameForm,
        &[
            r#"{"concepts":{"A":"numeric"}}"#,
            r#"{"dimensions":{"A":"typed"}}"#,
            r#"{"concepts":{"q:A":"text"},"dimensions":{"A":1}}"#,
        ],
    ),
    (
        Reason::UnboundPrefix,
        &[
            r#"{"concepts":{"eg:A":"text"}}"#,
            r#"{"dimensions":{"eg:A":"typed"}}"#,
            r#"{"namespaces":{"xbrl":"https://xbrl.org/2021"},"concepts":{"xbrl:A":"text"},"dimensions":{"q:A":1}}"#,
        ],
    ),
    (
        Reason::ReservedNamespace,
        &[
            r#"{"namespaces":{"xbrl":"https://xbrl.org/2021"},"concepts":{"xbrl:A":"name"}}"#,
            r#"{"namespaces":{"xbrl":"https://xbrl.org/2021"},"dimensions":{"xbrl:A":"typed"}}"#,
            r#"{"namespaces":{"eg":"u:t","xbrl":"https://xbrl.org/2021"},"concepts":{"eg:A":1},"dimensions":{"xbrl:A":"typed"}}"#,
        ],
    ),
    (
        Reason::SheetKind,
        &[
            // a concept has one of three kinds, and a dimension has one of two others
            r#"{"namespaces":{"eg":"u:t"},"concepts":{"eg:A":"typed"}}"#,
            r#"{"namespaces":{"eg":"u:t"},"concepts":{"eg:A":"Numeric"}}"#,
            r#"{"namespaces":{"eg":"u:t"},"concepts":{"eg:A":1}}"#,
            r#"{"namespaces":{"eg":"u:t"},"concepts":{"eg:A":null}}"#,
            r#"{"namespaces":{"eg":"u:t"},"dimensions":{"eg:A":"numeric"}}"#,
            r#"{"namespaces":{"eg":"u:t"},"dimensions":{"eg:A":{}}}"#,
            // each concept or dimension has only one kind
            r#"{"namespaces":{"eg":"u:t","zz":"u:t"},"concepts":{"eg:A":"numeric","zz:A":"text"}}"#,
            r#"{"namespaces":{"eg":"u:t","zz":"u:t"},"concepts":{"eg:A":"text","zz:A":"name","zz:B":"name"}}"#,
            r#"{"namespaces":{"eg":"u:t","zz":"u:t"},"dimensions":{"eg:A":"typed","zz:A":"explicit"}}"#,
        ],
    ),
];

const ACCEPTED: [&str; 3] = [
    r#"{"namespaces":{"eg":"u:t","zz":"u:t"},"concepts":{"eg:A":"numeric","zz:A":"numeric"}}"#,
    r#"{"namespaces":{"eg":"u:t","zz":"u:t"},"dimensions":{"eg:A":"typed","zz:A":"typed"}}"#,
    r#"{"namespaces":{"eg":"u:t"},"concepts":{"eg:A":"numeric"},"dimensions":{"eg:A":"typed"}}"#,
];

fn are_refused(rt: &HostRuntime, reason: Reason, texts: &[&str]) -> bool {
    for text in texts {
        if !told(rt, read_sheet(rt, text).err() == Some(reason), text) {
            return false;
        }
    }
    true
}

#[test]
fn the_first_fault_of_a_sheet_is_answered(rt: HostRuntime) {
    for (reason, texts) in &REFUSED {
        assert!(rt; are_refused(&rt, *reason, texts));
    }
    for text in &ACCEPTED {
        assert!(rt; read_sheet(&rt, text).is_ok(), "{text}");
    }
}

const SHEET: &str =
    "\u{feff}{\"namespaces\":{\"a\":\"u:z\",\"b\":\"u:m\",\"c\":\"u:z\"},\"concepts\":{\"a:N\":\"numeric\",\"b:N\":\"text\",\"c:M\":\"name\",\"c:N\":\"numeric\"},\"dimensions\":{\"a:D\":\"typed\",\"b:D\":\"explicit\"},\"eg:x\":1}";

fn bind(rt: &HostRuntime, aliases: &mut Aliases, prefix: &str, uri: &str) -> Result<(), Reason> {
    match aliases.add(prefix, uri) {
        Err(Reason::OutOfMemory) if may_repeat(rt) => aliases.add(prefix, uri),
        answer => answer,
    }
}

fn aliases_of(rt: &HostRuntime) -> Result<Aliases, Reason> {
    let mut aliases = Aliases::new(rt.alloc());
    bind(rt, &mut aliases, "m", "u:m")?;
    bind(rt, &mut aliases, "z", "u:z")?;
    Ok(aliases)
}

fn read_name(rt: &HostRuntime, aliases: &Aliases, text: &str) -> Result<Name, Reason> {
    match aliases.expand(text) {
        Err(Reason::OutOfMemory) if may_repeat(rt) => aliases.expand(text),
        answer => answer,
    }
}

type Kinds = (Option<ConceptKind>, Option<DimensionKind>);

fn kinds(rt: &HostRuntime, sheet: &Sheet, aliases: &Aliases, text: &str) -> Result<Kinds, Reason> {
    let name = read_name(rt, aliases, text)?;
    Ok((sheet.concept(&name), sheet.dimension(&name)))
}

const CONCEPTS: [(&str, ConceptKind); 3] = [
    ("z:N", ConceptKind::Numeric),
    ("m:N", ConceptKind::Text),
    ("z:M", ConceptKind::Name),
];

const DIMENSIONS: [(&str, DimensionKind); 2] = [
    ("z:D", DimensionKind::Typed),
    ("m:D", DimensionKind::Explicit),
];

fn lists_kinds(rt: &HostRuntime, sheet: &Sheet, aliases: &Aliases) -> Result<bool, Reason> {
    for (text, kind) in &CONCEPTS {
        if kinds(rt, sheet, aliases, text)? != (Some(*kind), None) {
            return Ok(told(rt, false, text));
        }
    }
    for (text, kind) in &DIMENSIONS {
        if kinds(rt, sheet, aliases, text)? != (None, Some(*kind)) {
            return Ok(told(rt, false, text));
        }
    }
    Ok(kinds(rt, sheet, aliases, "m:M")? == (None, None))
}

#[test]
fn a_sheet_lists_kinds_by_expanded_name(rt: HostRuntime) -> Result<(), Fail> {
    let aliases = aliases_of(&rt)?;
    let sheet = read_sheet(&rt, SHEET)?;
    assert!(rt; lists_kinds(&rt, &sheet, &aliases)?);
    Ok(())
}

fn is_same(rt: &HostRuntime, sheet: &Sheet, text: &str) -> Result<bool, Reason> {
    Ok(sheet.same_as(&read_sheet(rt, text)?))
}

fn are_same(rt: &HostRuntime, text: &str, other: &str) -> Result<bool, Reason> {
    let sheet = read_sheet(rt, text)?;
    is_same(rt, &sheet, other)
}

const PAIRS: [(&str, &str, bool); 4] = [
    ("{}", r#"{"namespaces":{"eg":"u:t"},"concepts":{}}"#, true),
    (
        SHEET,
        r#"{"namespaces":{"m":"u:m","z":"u:z"},"concepts":{"m:N":"text","z:M":"name","z:N":"numeric"},"dimensions":{"m:D":"explicit","z:D":"typed"}}"#,
        true,
    ),
    (SHEET, "{}", false),
    (
        SHEET,
        r#"{"namespaces":{"m":"u:m","z":"u:z"},"concepts":{"m:N":"text","z:M":"name","z:N":"text"},"dimensions":{"m:D":"explicit","z:D":"typed"}}"#,
        false,
    ),
];

#[test]
fn sheets_are_the_same_by_names_and_kinds(rt: HostRuntime) -> Result<(), Fail> {
    for (text, other, same) in &PAIRS {
        assert!(rt; are_same(&rt, text, other)? == *same, "{other}");
    }
    Ok(())
}
