ghost use Rattle.std.specs.Prelude.{◌≡◌, ◌%◌, ◌∷◌, [], IfOk, Some, chars, string_bytes};
ghost use Rattle.std.specs.Char.{digit_char};
ghost use Rattle.std.specs.Fmt.{WritesOnOk};
ghost use Rattle.std.specs.List.{list_all, list_any};
ghost use Rattle.oim_explain.specs.Escaped.{blank, character_escape, escaped, escaped_name, hidden, is_shown, is_within, name_character, unit_escape};
ghost use Rattle.oim_explain.specs.Quoted.{front_of};

use std::alloc::{AllocError, Global};
use std::fmt;

const MOST_CHARACTERS: usize = 80;

/// A text to print safely on a terminal. Control characters, common invisible characters, those that
/// look like a space, and those that end the line or change its direction are written as JSON
/// escapes. Otherwise a name with such characters would look correct, and a file name could fake an
/// output line.
#[derive(Clone, Copy)]
pub struct Escaped<'t>(pub &'t str);

impl fmt::Display for Escaped<'_> {
    ghost output = { λ text. Some (escaped text.0.now) };

    fn fmt<W: fmt::Write>(&self, f: &mut fmt::Formatter<W>) -> fmt::Result {
        // Most texts have no hidden characters. One call writes them faster than one for each character.
        if are_shown(self.0) {
            return f.write_str(self.0);
        }
        for character in self.0.chars() {
            if is_shown(character) {
                f.write_char(character)?;
            } else {
                write_escape(f, character)?;
            }
        }
        Ok(())
    }
}

/// The name of a file to print as `Escaped` does. A `u` after a backslash is written as an escape too,
/// so different names are printed differently.
#[derive(Clone, Copy)]
pub struct EscapedName<'n>(pub &'n str);

impl fmt::Display for EscapedName<'_> {
    ghost output = { λ name. Some (escaped_name name.0.now) };

    fn fmt<W: fmt::Write>(&self, f: &mut fmt::Formatter<W>) -> fmt::Result {
        let mut is_after_backslash = false;
        for character in self.0.chars() {
            write_in_name(f, is_after_backslash, character)?;
            is_after_backslash = character == '\\';
        }
        Ok(())
    }
}

fn write_in_name<W: fmt::Write>(
    f: &mut fmt::Formatter<W>,
    is_after_backslash: bool,
    character: char,
) -> fmt::Result
    ensures { WritesOnOk W.write_str_gives f.old result (name_character is_after_backslash character) f.new }
{
    if is_shown(character) && !(is_after_backslash && character == 'u') {
        f.write_char(character)
    } else {
        write_escape(f, character)
    }
}

/// Writes a character as one JSON escape, or as two if its number exceeds 16 bits.
fn write_escape<W: fmt::Write>(f: &mut fmt::Formatter<W>, character: char) -> fmt::Result
    ensures { WritesOnOk W.write_str_gives f.old result (character_escape character) f.new }
{
    let number = character as u32;
    if number < 0x1_0000 {
        return write_unit(f, number);
    }
    let rest = number - 0x1_0000;
    write_unit(f, 0xd800 + rest / 0x400)?;
    write_unit(f, 0xdc00 + rest % 0x400)
}

fn write_unit<W: fmt::Write>(f: &mut fmt::Formatter<W>, unit: u32) -> fmt::Result
    ensures { WritesOnOk W.write_str_gives f.old result (unit_escape unit) f.new }
{
    f.write_str("\\u")?;
    write_digit(f, unit / 0x1000)?;
    write_digit(f, unit / 0x100)?;
    write_digit(f, unit / 0x10)?;
    write_digit(f, unit)
}

fn write_digit<W: fmt::Write>(f: &mut fmt::Formatter<W>, number: u32) -> fmt::Result
    ensures { WritesOnOk W.write_str_gives f.old result (digit_char (number % 16) ∷ []) f.new }
{
    f.write_char(char::from_digit(number % 16, 16).unwrap_or('0'))
}

fn are_shown(text: &str) -> bool
    ensures { result ≡ list_all is_shown (chars text.now) }
{
    text.chars().all(|character| is_shown(character))
}

#[tactic(auto, unfolding(crate::specs::Escaped::is_shown))]
fn is_shown(character: char) -> bool
    ensures { result ≡ is_shown character }
{
    !character.is_control() && !is_hidden(character) && !is_blank(character)
}

fn is_hidden(character: char) -> bool
    ensures { result ≡ list_any (is_within character) hidden }
{
    matches!(
        character,
        '\u{ad}' | '\u{61c}' | '\u{115f}'..='\u{1160}' | '\u{17b4}'..='\u{17b5}'
            | '\u{180b}'..='\u{180f}' | '\u{200b}'..='\u{200f}' | '\u{2028}'..='\u{202e}'
            | '\u{2060}'..='\u{206f}' | '\u{3164}' | '\u{fe00}'..='\u{fe0f}' | '\u{feff}'
            | '\u{ffa0}' | '\u{fff0}'..='\u{fffb}' | '\u{e0000}'..='\u{e0fff}'
    )
}

fn is_blank(character: char) -> bool
    ensures { result ≡ list_any (is_within character) blank }
{
    matches!(
        character,
        '\u{a0}' | '\u{34f}' | '\u{1680}' | '\u{2000}'..='\u{200a}' | '\u{202f}' | '\u{205f}'
            | '\u{2800}' | '\u{3000}' | '\u{1bca0}'..='\u{1bca3}' | '\u{1d173}'..='\u{1d17a}'
    )
}

/// Returns the end of a text: at most `MOST_CHARACTERS` bytes, from the start of a character.
pub(crate) fn end_of(text: &str) -> &str {
    let from = text.len().saturating_sub(MOST_CHARACTERS);
    for at in from..from.saturating_add(4) {
        if let Some(end) = text.get(at..) {
            return end;
        }
    }
    text
}

/// Returns the first characters of a text, at most `MOST_CHARACTERS`.
pub(crate) fn front_of(alloc: Global, text: &str) -> Result<String, AllocError>
    ensures { IfOk result (λ front. string_bytes front ≡ front_of text.now) }
{
    let mut front = String::new(alloc);
    let mut left = MOST_CHARACTERS;
    for character in text.chars() {
        if left == 0 {
            return Ok(front);
        }
        front.push(character)?;
        left -= 1;
    }
    Ok(front)
}
