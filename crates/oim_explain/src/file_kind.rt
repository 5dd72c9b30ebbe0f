use crate::subject::Subject;
use serde_json::Value;

/// Guesses the kind of a file that is not JSON.
pub(crate) fn kind_of_unread(subject: Subject<'_>, bytes: &[u8]) -> Option<&'static str> {
    match subject {
        Subject::Sheet => kind_of_taxonomy(bytes).or(kind_of_bytes(bytes)),
        _ => kind_of_bytes(bytes),
    }
}

/// Guesses whether a file that was passed as a sheet is part of a taxonomy, from which
/// `tools/make_sheet` makes a sheet. Returns its kind with the command to run, or `None` (own).
pub fn kind_of_taxonomy(bytes: &[u8]) -> Option<&'static str> {
    if let [b'P', b'K', 3, 4, ..] = bytes {
        return Some(
            "a ZIP file, as a taxonomy package is: run `tools/make_sheet FILE >sheet.json`",
        );
    }
    if is_schema(text_of(bytes)) {
        return Some("a schema of a taxonomy: run `tools/make_sheet FILE >sheet.json`");
    }
    None
}

// The quote belongs to the text that is searched, because the namespace that XBRL instances declare
// begins alike.
fn is_schema(text: &str) -> bool {
    text.starts_with('<')
        && (text.contains("http://www.w3.org/2001/XMLSchema\"")
            || text.contains("http://www.w3.org/2001/XMLSchema'"))
}

fn kind_of_bytes(bytes: &[u8]) -> Option<&'static str> {
    match bytes {
        [0x1f, 0x8b, ..] => Some("a gzip file: unpack it first"),
        [b'P', b'K', 3, 4, ..] => Some("a ZIP file, as a report package is: unpack it first"),
        // a byte order mark of UTF-16, or the first character of JSON or XML in UTF-16
        [0xfe, 0xff, ..] | [0xff, 0xfe, ..] | [b'{' | b'<', 0, ..] | [0, b'{' | b'<', ..] => {
            Some("text in UTF-16: convert it to UTF-8")
        }
        _ => kind_of_text(text_of(bytes)),
    }
}

/// Returns the valid UTF-8 text at the start of a file, without leading byte order marks and white
/// space.
fn text_of(bytes: &[u8]) -> &str {
    match bytes.utf8_chunks().next() {
        Some(chunk) => chunk.valid().trim_start_matches('\u{feff}').trim_start(),
        None => "",
    }
}

fn kind_of_text(text: &str) -> Option<&'static str> {
    let first = text.chars().next();
    if first == Some('<') {
        if text.contains("http://www.xbrl.org/2013/inlineXBRL") {
            Some("Inline XBRL: convert it to xBRL-JSON with another program")
        } else {
            Some("XML: convert it to xBRL-JSON with another program")
        }
    } else if !matches!(first, Some('[' | '/')) && is_row(text.lines().next().unwrap_or_default()) {
        Some("CSV: convert it to xBRL-JSON with another program")
    } else {
        None
    }
}

/// Returns whether a line looks like a row of a table. A line with braces, keys, or spaces after
/// commas or semicolons is taken for JSON or prose.
fn is_row(line: &str) -> bool {
    line.contains([',', ';', '\t'])
        && !line.contains(['{', '}'])
        && !line.contains("\":")
        && !line.contains("\" :")
        && !line.contains(", ")
        && !line.contains("; ")
}

/// Guesses the kind of a JSON file that was passed as a report but looks like another kind of file.
pub(crate) fn kind_of_tree(tree: &Value) -> Option<&'static str> {
    if is_csv(tree) {
        Some("the metadata of an xBRL-CSV report: convert it to xBRL-JSON with another program")
    } else if tree.get("documentInfo").is_none() && tree.get("concepts").is_some() {
        Some("a sheet, not a report")
    } else {
        None
    }
}

fn is_csv(tree: &Value) -> bool {
    let kind = tree.pointer("/documentInfo/documentType");
    let kind = kind.and_then(Value::as_str).unwrap_or_default();
    kind.ends_with("/xbrl-csv") || tree.get("tableTemplates").is_some()
}

/// Guesses the kind of a JSON file that was passed as a sheet but looks like another kind of file.
pub(crate) fn kind_of_sheet(tree: &Value) -> Option<&'static str> {
    if is_csv(tree) {
        Some("the metadata of an xBRL-CSV report, not a sheet")
    } else if tree.get("documentInfo").is_some() {
        Some("a report, not a sheet")
    } else {
        None
    }
}
