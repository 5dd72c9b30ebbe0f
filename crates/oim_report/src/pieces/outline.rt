ghost use Rattle.std.specs.Prelude.{◌≡◌, Some, IfOk, IfSome, option_map};
ghost use Rattle.serde_json.specs.Data.{Members, object};
ghost use Rattle.serde_json.specs.View.{view};
ghost use Rattle.oim_report.specs.Json.{json};
ghost use Rattle.oim_report.specs.Pieces.{IsPiece};
ghost use Rattle.oim_report.specs.code.Pieces.{IsEnd, IsHead, IsLike, IsOutline, IsSplit, IsTail};

use crate::json_values::json_tree::after_mark;
use crate::pieces::beside::read_beside;
use crate::pieces::cuts::{back_start, cut_at, strip_back, strip_front, trim_back};
use crate::unread::Unread;
use serde_json::{Map, Value};
use std::alloc::Global;
use std::str;

// `guess_facts_end` first looks for the end of `facts` only in this many of the last bytes of a
// document, not counting white space at the end. This number is used if `facts` is the first member.
const SEARCHED_IF_FIRST: usize = 4_096;

// Used if members precede `facts`: usually nothing follows then, so a longer search would only cost
// time.
const SEARCHED_IF_LATER: usize = 256;

/// An object with the member `documentInfo` of a document, and the text of the members of `facts`.
#[derive(Drop)]
pub(crate) struct Outline<'t> {
    pub(crate) tree: Value,
    pub(crate) facts: &'t str,
}

// The texts of the members before `facts`, in `facts` and after `facts`.
#[derive(Drop)]
struct Split<'t> {
    before: Option<&'t str>,
    facts: &'t str,
    behind: Option<&'t str>,
}

pub(crate) fn read_json_outline(alloc: Global, bytes: &[u8]) -> Result<Outline<'_>, Unread>
    ensures { IfOk result (λ o. (kept : Members) × (view o.tree ≡ object kept)
        × ((found : Members) → IsPiece o.facts.now found → (all : Members)
        × (json bytes.now ≡ Some (object all)) × IsLike all kept (Some (object found)))) }
{
    match str::from_utf8(after_mark(bytes)) {
        Ok(text) => read_outline(alloc, text),
        Err(_) => Err(Unread::NeedsTree),
    }
}

/// Splits a document. If `facts` of the result can be parsed as a piece, the whole document can be
/// parsed.
pub(crate) fn read_outline(alloc: Global, text: &str) -> Result<Outline<'_>, Unread>
    ensures { IfOk result (λ o. IsOutline text.now (view o.tree) o.facts.now) }
{
    let Some(split) = split_document(text) else {
        return Err(Unread::NeedsTree);
    };
    let mut members = Map::new(alloc);
    read_beside(alloc, split.before, &mut members)?;
    read_beside(alloc, split.behind, &mut members)?;
    Ok(Outline {
        tree: Value::Object(members),
        facts: split.facts,
    })
}

fn split_document(text: &str) -> Option<Split<'_>>
    ensures { IfSome result
        (λ s. IsSplit text.now (option_map (λ t. t.now) s.before) s.facts.now (option_map (λ t. t.now) s.behind)) }
{
    let (head, tail) = text.split_once("\"facts\"")?;
    let before = split_head(head)?;
    let searched = match before {
        Some(_) => SEARCHED_IF_LATER,
        None => SEARCHED_IF_FIRST,
    };
    let (facts, behind) = split_tail(tail, searched)?;
    Some(Split {
        before,
        facts,
        behind,
    })
}

// Returns the text of the members before `facts`, `Some(None)` if there are no such members, or
// `None` if `text` lacks the brace that opens the document or the comma before `facts`.
fn split_head(text: &str) -> Option<Option<&str>>
    ensures { IfSome result (λ b. IsHead text.now (option_map (λ t. t.now) b)) }
{
    let rest = strip_front(text, "{")?;
    let front = trim_back(rest)?;
    if front.is_empty() {
        return Some(None);
    }
    let inner = front.strip_suffix(",")?;
    Some(Some(trim_back(inner)?))
}

#[tactic(auto, using(crate::proofs::Outlines::tail_is))]
fn split_tail(text: &str, searched: usize) -> Option<(&str, Option<&str>)>
    ensures { IfSome result (λ p. IsTail text.now p.0.now (option_map (λ t. t.now) p.1)) }
{
    let inner = strip_front(strip_front(text, ":")?, "{")?;
    let end = guess_facts_end(trim_back(inner)?.as_bytes(), searched);
    let (front, rest) = cut_at(inner, end, "}")?;
    let facts = trim_back(front)?;
    let behind = split_end(rest)?;
    Some((facts, behind))
}

// Returns the text of the members after `facts`, `Some(None)` if there are no such members, or
// `None` if `text` lacks the brace that closes the document or the comma after `facts`.
fn split_end(text: &str) -> Option<Option<&str>>
    ensures { IfSome result (λ b. IsEnd text.now (option_map (λ t. t.now) b)) }
{
    let inner = strip_back(text, "}")?;
    let front = trim_back(inner)?;
    if front.is_empty() {
        return Some(None);
    }
    Some(Some(strip_front(front, ",")?))
}

// Guesses the index of the brace that closes `facts`. If no fact seems to end before it, all bytes
// are searched.
fn guess_facts_end(bytes: &[u8], searched: usize) -> usize {
    let end = guess_within(bytes, searched);
    let front = bytes.get(..end).unwrap_or(&[]);
    let facts = front.get(..back_start(front)).unwrap_or(&[]);
    if bytes.get(end) == Some(&b'}') && facts.ends_with(b"}") {
        end
    } else {
        guess_within(bytes, bytes.len())
    }
}

// Returns the index of the leftmost closing brace or bracket that is not inside another pair. The
// last byte is skipped, because it closes the document.
fn guess_within(bytes: &[u8], searched: usize) -> usize {
    let mut end = 0;
    let mut depth: usize = 0;
    let mut in_text = false;
    let last = bytes.len().saturating_sub(1);
    for i in (bytes.len().saturating_sub(searched)..last).rev() {
        let byte = bytes[i];
        if byte == b'"' && !(i > 0 && bytes[i - 1] == b'\\') {
            in_text = !in_text;
        } else if !in_text && (byte == b'}' || byte == b']') {
            if depth == 0 {
                end = i;
            }
            depth = depth.saturating_add(1);
        } else if !in_text && (byte == b'{' || byte == b'[') {
            depth = depth.saturating_sub(1);
        }
    }
    end
}
