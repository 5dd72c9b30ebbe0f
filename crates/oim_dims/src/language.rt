ghost use Rattle.std.specs.Prelude.{◌≡◌, ◌⊎◌, ◌↔◌, IsTrue, IfOk, IfErr};
ghost use Rattle.std.specs.Str.{str_to_ascii_lowercase};
ghost use Rattle.std.specs.List.{list_all, slice_split};
ghost use Rattle.std.specs.Char.{is_ascii_alphabetic, is_ascii_alphanumeric};
ghost use Rattle.oim_dims.specs.Language.{is_language, is_group, is_hyphen};

use oim_names::{Reason, Text};
use std::alloc::Global;

/// Reads a language, and returns it in ASCII lower case. A language is a list of groups with `-`
/// between the groups. A group has one to eight ASCII letters or digits, and the first group has
/// only letters (XML Schema Part 2, section 3.3.3).
///
/// Errors: `LanguageForm` exactly if the text does not have this form; `OutOfMemory`.
pub fn read_language(alloc: Global, text: &str) -> Result<Text, Reason>
    ensures language { IfOk result (λ language. language ≡ str_to_ascii_lowercase text.now) }
    ensures form { (result ≡ Err Reason.LanguageForm) ↔ ¬ (IsTrue (is_language text.now)) }
    ensures errors { IfErr result (λ e. (e ≡ Reason.LanguageForm) ⊎ (e ≡ Reason.OutOfMemory)) }
{
    if !is_language(text) {
        return Err(Reason::LanguageForm);
    }
    let mut lower = String::from_str(alloc, text)?;
    lower.make_ascii_lowercase();
    Ok(Text::from_string(alloc, lower)?)
}

/// Returns whether a text has the form of a language.
///
/// The call does not allocate.
pub fn is_language(text: &str) -> bool
    ensures { result ≡ is_language text.now }
{
    let (first, _) = text.split_once('-').unwrap_or((text, ""));
    are_groups(text) && are_letters(first.as_bytes())
}

fn are_groups(text: &str) -> bool
    ensures { result ≡ list_all is_group (slice_split is_hyphen text.now) }
{
    text.split('-').all(|group| is_group(group))
}

fn is_group(group: &str) -> bool
    ensures { result ≡ is_group group.now }
{
    if group.is_empty() || group.len() > 8 {
        return false;
    }
    are_letters_or_digits(group.as_bytes())
}

fn are_letters_or_digits(text: &[u8]) -> bool
    ensures { result ≡ list_all is_ascii_alphanumeric text.now }
{
    text.iter().all(|c| c.is_ascii_alphanumeric())
}

fn are_letters(text: &[u8]) -> bool
    ensures { result ≡ list_all is_ascii_alphabetic text.now }
{
    text.iter().all(|c| c.is_ascii_alphabetic())
}
