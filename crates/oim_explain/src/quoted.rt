ghost use Rattle.std.specs.Prelude.{◌≡◌, ◌++◌, [], IfOk, OnOk, string_bytes};
ghost use Rattle.json.specs.Print.{print, quoted};
ghost use Rattle.oim_explain.specs.Quoted.{quoted_front};

use crate::escaped::{Escaped, front_of};
use json::Writer;
use std::alloc::{AllocError, Global};

/// Appends a text as JSON. A text of more than 80 characters is cut, and two dots replace its
/// closing quote.
#[tactic(auto, unfolding(crate::specs::Quoted::quoted_front))]
pub(crate) fn push_text(alloc: Global, line: &mut String, text: &str) -> Result<(), AllocError>
    ensures { OnOk result (string_bytes line.new ≡ string_bytes line.old ++ quoted_front text.now) }
{
    let front = front_of(alloc, text)?;
    let mut json = json_string(alloc, front.as_str())?;
    if front.len() == text.len() {
        return write!(line, "{}", Escaped(json.as_str()));
    }
    json.truncate(json.len().saturating_sub(1));
    write!(line, "{}..", Escaped(json.as_str()))
}

fn json_string(alloc: Global, text: &str) -> Result<String, AllocError>
    ensures { IfOk result (λ json. string_bytes json ≡ quoted text.now) }
{
    let mut writer = Writer::new(Vec::new(alloc));
    writer.string(text)?;
    Ok(written_text(writer))
}

/// Returns the text of all tokens.
pub(crate) fn written_text(writer: Writer) -> String
    requires { writer.before ≡ [] }
    ensures { string_bytes result ≡ print writer.tokens }
{
    match String::from_utf8(writer.into_inner()) {
        Ok(text) => text,
        // a writer writes only UTF-8
        Err(_) => unreachable!(),
    }
}
