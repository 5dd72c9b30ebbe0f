// Tests the public calls of `oim_report`.

mod accepted;
mod conditions;
mod documents;
mod facts;
mod faults;
mod features;
mod identifiers;
mod limits;
mod pieces;
mod readers;
mod references;
mod said;
mod sheets;

use oim_dims::Fact;
use oim_names::Text;
use oim_report::{Place, Refusal, Report, Sheet};
use oim_value::Level;
use test_helpers::asked_again::{
    INFO, OPEN_INFO, SHEET, holds_under_sheet, joined, may_repeat, may_repeat_here, read,
    read_sheet, repeated,
};
use test_helpers::canonical_parts::END;

// `read` and `read_sheet` repeat a call once if a request for memory is refused.

/// Returns `holds`, and prints the text if `holds` is false.
pub(super) fn told(rt: &HostRuntime, holds: bool, text: &str) -> bool {
    if !holds {
        let _ = eprintln!(rt; "otherwise: {text}");
    }
    holds
}

// The start of a report with the prefixes `eg`, `x`, `xbrli` and `xbrl`.
const BOUND: &str =
    r#"{"documentInfo":{"documentType":"https://xbrl.org/2021/xbrl-json","namespaces":{"eg":"http://example.org/t","x":"http://example.org/u","xbrli":"http://www.xbrl.org/2003/instance","xbrl":"https://xbrl.org/2021"}"#;

const NO_FACTS: &str = r#"},"facts":{}}"#;

// The start of a report up to its first fact object. Two prefixes have one URI.
const FACT: &str =
    r#"{"documentInfo":{"documentType":"https://xbrl.org/2021/xbrl-json","namespaces":{"eg":"http://example.org/t","zz":"http://example.org/t","x":"http://example.org/u","xbrli":"http://www.xbrl.org/2003/instance","xbrl":"https://xbrl.org/2021"}},"facts":{"f":"#;

// Constants contain no enum with data beside texts: the proof of a function that names such a
// constant takes time that grows with the square of the number of its rows.

/// The number of the reason for which a report is refused, or 0 if it is read, and the number of the
/// refused fact, or 0 if the document is refused.
type Outcome = (u8, u64);

const READ: Outcome = (0, 0);

// The expected answer to a report.
#[derive(Clone, Copy)]
enum Answer<'t> {
    Comes(Outcome),
    /// The report declares `all` or no level, and has this number of facts; the facts have this
    /// level.
    HasLevel(usize, Level),
    Declares(Level),
    /// The report has these references.
    Keeps(&'t [&'t str]),
    /// The local parts of the facts' concepts, and the order of the facts.
    Sorts(&'t [&'t str], &'t [usize]),
}

use Answer::{Comes, Declares, HasLevel, Keeps, Sorts};

// Texts between two parts of a report, and what is expected of each report.
struct Table<'t, A> {
    start: &'t str,
    rows: &'t [(A, &'t [&'t str])],
    end: &'t str,
}

fn is_outcome(refusal: Refusal, (number, fact): Outcome) -> bool {
    let place = match fact {
        0 => Place::Document,
        _ => Place::Fact(fact),
    };
    refusal.reason.number() == number && refusal.place == place
}

pub(super) fn are_spelled(found: &[Text], texts: &[&str]) -> bool {
    if found.len() != texts.len() {
        return false;
    }
    for index in 0..found.len() {
        if found[index].as_str() != texts[index] {
            return false;
        }
    }
    true
}

fn are_of(facts: &[Fact], concepts: &[&str]) -> bool {
    if facts.len() != concepts.len() {
        return false;
    }
    for index in 0..facts.len() {
        if facts[index].dimensions.concept().local() != concepts[index] {
            return false;
        }
    }
    true
}

fn is_so_read(report: &Report, answer: &Answer) -> bool {
    match answer {
        Comes(outcome) => *outcome == READ,
        HasLevel(count, level) => {
            report.facts().len() == *count
                && report.level() == *level
                && report.declared() == Level::All
        }
        Declares(level) => report.declared() == *level,
        Keeps(texts) => are_spelled(report.taxonomy(), texts),
        Sorts(concepts, order) => are_of(report.facts(), concepts) && report.order() == *order,
    }
}

// Returns whether a report gives up its facts and their order, if these are wanted.
fn gives_up(report: Report, answer: &Answer) -> bool {
    let (facts, indices) = report.into_facts();
    match answer {
        Sorts(concepts, order) => {
            are_of(facts.as_slice(), concepts) && indices.as_slice() == *order
        }
        _ => true,
    }
}

fn is_answer(rt: &HostRuntime, sheet: &Sheet, bytes: &[u8], answer: &Answer) -> bool {
    match read(rt, sheet, bytes) {
        Ok(report) => is_so_read(&report, answer) && gives_up(report, answer),
        Err(refusal) => matches!(answer, Comes(outcome) if is_outcome(refusal, *outcome)),
    }
}

// Returns whether this is the answer to each of the texts, between the two parts of a report.
fn row_holds(
    rt: &HostRuntime,
    sheet: &Sheet,
    parts: (&str, &str),
    answer: &Answer,
    texts: &[&str],
) -> bool {
    for text in texts {
        let Ok(report) = joined(rt, &[parts.0, text, parts.1]) else {
            return false;
        };
        if !told(rt, is_answer(rt, sheet, &report, answer), text) {
            return false;
        }
    }
    true
}

fn table_holds(rt: &HostRuntime, sheet: &Sheet, table: &Table<Outcome>) -> bool {
    for (outcome, texts) in table.rows {
        if !row_holds(rt, sheet, (table.start, table.end), &Comes(*outcome), texts) {
            return false;
        }
    }
    true
}

fn all_hold(rt: &HostRuntime, sheet: &Sheet, tables: &[Table<Outcome>]) -> bool {
    for table in tables {
        if !table_holds(rt, sheet, table) {
            return false;
        }
    }
    true
}

// Returns whether the tables hold under a sheet with this text.
fn hold_under(rt: &HostRuntime, sheet: &str, tables: &[Table<Outcome>]) -> bool {
    match read_sheet(rt, sheet) {
        Ok(sheet) => all_hold(rt, &sheet, tables),
        Err(_) => false,
    }
}

fn hold(rt: &HostRuntime, tables: &[Table<Outcome>]) -> bool {
    hold_under(rt, SHEET, tables)
}
