//! Cuts texts at white space, at marks and between facts.

ghost use Rattle.std.specs.Prelude.{◌≡◌, ◌≤◌, ◌++◌, length, drop, take, Some, IfSome, option_map};
ghost use Rattle.json.specs.Word.{is_space};
ghost use Rattle.oim_report.specs.code.Pieces.{AreSpaces, AfterSpaces, BeforeSpaces, with_rest};

use std::simd::prelude::*;

/// How the end of a piece is found. No contract mentions it: a wrong cut costs only time.
#[derive(Clone, Copy)]
pub(crate) enum Cut {
    /// A guess that reads few bytes, but may cut inside a fact that has members of extensions.
    Guessed,
    /// A count of braces, brackets and texts, which reads each byte. It cuts only between facts.
    Counted,
}

impl Cut {
    /// Returns whether `piece`, which `split_piece` cut off `text`, ends inside a fact.
    pub(crate) fn is_wrong(self, text: &str, piece: &str, size: usize) -> bool {
        matches!(self, Cut::Guessed)
            && piece.len() < text.len()
            && count_piece_end(text.as_bytes(), size) != Some(piece.len())
    }
}

/// Cuts the first piece off `text`. The piece has at least `size` bytes and ends before a comma, or
/// it is the whole text. If the piece ends before a comma, the text after this comma is returned
/// too.
pub(crate) fn split_piece(text: &str, size: usize, cut: Cut) -> (&str, Option<&str>)
    ensures { text.now ≡ with_rest result.0.now (option_map (λ r. r.now) result.1) }
{
    let end = match cut {
        Cut::Guessed => guess_piece_end(text, size),
        Cut::Counted => count_piece_end(text.as_bytes(), size),
    };
    match end {
        Some(at) => match cut_at(text, at, ",") {
            Some((piece, rest)) => (piece, Some(rest)),
            None => (text, None),
        },
        None => (text, None),
    }
}

/// Splits `text` around `mark`, which begins at the index `at`.
pub(crate) fn cut_at<'t>(text: &'t str, at: usize, mark: &str) -> Option<(&'t str, &'t str)>
    ensures { IfSome result (λ p. text.now ≡ p.0.now ++ (mark.now ++ p.1.now)) }
{
    let (front, rest) = text.split_at_checked(at)?;
    Some((front, rest.strip_prefix(mark)?))
}

// Guesses the end of a piece of `size` bytes or more: a comma directly after a closing brace and
// before a fact. A wrong guess costs only time, because the end is then counted.
fn guess_piece_end(text: &str, size: usize) -> Option<usize> {
    let mut rest = text_after(text, size)?;
    for _ in 0..text.len() {
        let (_front, after_brace) = rest.split_once('}')?;
        if after_brace.strip_prefix(',').is_some_and(begins_fact) {
            return text.len().checked_sub(after_brace.len());
        }
        rest = after_brace;
    }
    None
}

// Finds the end of a piece of `size` bytes or more: the first comma that is in no text and inside no
// brace or bracket of the piece. If `bytes` are not the members of an object, any comma may be found.
fn count_piece_end(bytes: &[u8], size: usize) -> Option<usize> {
    let mut place = JsonPlace::START;
    let mut at = 0;
    let in_blocks = size.min(bytes.len());
    while in_blocks - at >= 64 {
        place = place.after_block(&bytes[at..at + 64]);
        at += 64;
    }
    while at < bytes.len() {
        if at >= size && bytes[at] == b',' && place.depth == 0 && !place.in_text {
            return Some(at);
        }
        place = place.after(bytes[at]);
        at += 1;
    }
    None
}

// What the bytes before a place in a JSON text say about it.
#[derive(Clone, Copy)]
struct JsonPlace {
    // the number of open braces and brackets
    depth: usize,
    in_text: bool,
    is_escaped: bool,
}

impl JsonPlace {
    const START: JsonPlace = JsonPlace {
        depth: 0,
        in_text: false,
        is_escaped: false,
    };

    fn after(self, byte: u8) -> JsonPlace {
        let mut next = JsonPlace {
            is_escaped: false,
            ..self
        };
        if self.in_text {
            next.in_text = self.is_escaped || byte != b'"';
            next.is_escaped = !self.is_escaped && byte == b'\\';
            return next;
        }
        match byte {
            b'"' => next.in_text = true,
            b'{' | b'[' => next.depth = self.depth.saturating_add(1),
            b'}' | b']' => next.depth = self.depth.saturating_sub(1),
            _ => {}
        }
        next
    }

    // Takes 64 bytes at once if no backslash is among them.
    fn after_block(self, block: &[u8]) -> JsonPlace
        requires { 64 ≤ length block.now }
    {
        let bytes = u8x64::from_slice(block);
        if self.is_escaped || bits_of(bytes, b'\\') != 0 {
            let mut place = self;
            for byte in block {
                place = place.after(*byte);
            }
            return place;
        }
        let in_text = parities(bits_of(bytes, b'"')) ^ 0u64.wrapping_sub(self.in_text as u64);
        // a brace and a bracket differ in this bit alone
        let marks = bytes | u8x64::splat(0x20);
        let opened = (bits_of(marks, b'{') & !in_text).count_ones() as usize;
        let closed = (bits_of(marks, b'}') & !in_text).count_ones() as usize;
        JsonPlace {
            depth: self.depth.saturating_add(opened).saturating_sub(closed),
            in_text: in_text >> 63 == 1,
            is_escaped: false,
        }
    }
}

fn bits_of(bytes: u8x64, byte: u8) -> u64 {
    bytes.simd_eq(u8x64::splat(byte)).to_bitmask()
}

// Returns, for each bit, whether an odd number of bits up to it is set.
fn parities(bits: u64) -> u64 {
    let twos = bits ^ (bits << 1);
    let fours = twos ^ (twos << 2);
    let eights = fours ^ (fours << 4);
    let sixteens = eights ^ (eights << 8);
    let most = sixteens ^ (sixteens << 16);
    most ^ (most << 32)
}

// Returns the text after its first `size` bytes. If these end inside a character, returns the text
// after that character.
fn text_after(text: &str, size: usize) -> Option<&str> {
    for at in size..size.saturating_add(4) {
        if let Some(rest) = text.get(at..) {
            return Some(rest);
        }
    }
    None
}

fn begins_fact(text: &str) -> bool {
    key_of_object(text).is_some_and(|key| key != "dimensions" && key != "links")
}

// Returns the key at the start of the text, if a colon and an opening brace follow the key.
fn key_of_object(text: &str) -> Option<&str> {
    let (key, rest) = strip_front(text, "\"")?.split_once('"')?;
    let _members = strip_front(strip_front(rest, ":")?, "{")?;
    Some(key)
}

fn is_space(byte: u8) -> bool
    ensures { result ≡ is_space byte }
{
    byte == b' ' || byte == b'\t' || byte == b'\n' || byte == b'\r'
}

fn front_end(bytes: &[u8]) -> usize
    ensures bound { result ≤ length bytes.now }
    ensures spaces { AreSpaces (take result bytes.now) }
{
    let mut at: usize = 0;
    while at < bytes.len() {
        if !is_space(bytes[at]) {
            return at;
        }
        at += 1;
    }
    at
}

pub(crate) fn back_start(bytes: &[u8]) -> usize
    ensures bound { result ≤ length bytes.now }
    ensures spaces { AreSpaces (drop result bytes.now) }
{
    let mut at = bytes.len();
    while at > 0 {
        if !is_space(bytes[at - 1]) {
            return at;
        }
        at -= 1;
    }
    at
}

pub(crate) fn strip_front<'t>(text: &'t str, start: &str) -> Option<&'t str>
    ensures { IfSome result (λ r. AfterSpaces text.now (start.now ++ r.now)) }
{
    let (_spaces, rest) = text.split_at_checked(front_end(text.as_bytes()))?;
    rest.strip_prefix(start)
}

pub(crate) fn trim_back(text: &str) -> Option<&str>
    ensures { IfSome result (λ r. BeforeSpaces text.now r.now) }
{
    let (front, _spaces) = text.split_at_checked(back_start(text.as_bytes()))?;
    Some(front)
}

pub(crate) fn strip_back<'t>(text: &'t str, end: &str) -> Option<&'t str>
    ensures { IfSome result (λ r. BeforeSpaces text.now (r.now ++ end.now)) }
{
    trim_back(text)?.strip_suffix(end)
}
