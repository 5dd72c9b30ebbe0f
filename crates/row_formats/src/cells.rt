ghost use Rattle.std.specs.Prelude.{◌≡◌, ◌++◌, ◌∷◌, [], IfOk, OnOk, reverse, if◌then◌else◌};
ghost use Rattle.csv.specs.Records.{fields_of};
ghost use Rattle.row_formats.specs.CsvCells.{cell, guarded, is_separator, is_sign, is_skipped, marked};

use csv::StringRecord;
use std::alloc::{AllocError, Global};
use std::str;

/// Adds cells to records, for a spreadsheet or for other programs.
#[derive(Clone, Copy)]
pub(crate) struct Cells {
    pub alloc: Global,
    pub spreadsheet: bool,
}

impl Cells {
    /// Adds a cell. For a spreadsheet, a `'` precedes each part of the text that may be read as a
    /// formula.
    pub fn push(self, fields: &mut StringRecord, text: &str) -> Result<(), AllocError>
        ensures { OnOk result (fields_of fields.new ≡ fields_of fields.old ++ cell self.spreadsheet text.now ∷ []) }
    {
        if !self.spreadsheet {
            return fields.push_field(text);
        }
        let guarded = guard(self.alloc, text.as_bytes())?;
        // a `'` is added only at the start or behind an ASCII byte, so the text is still UTF-8
        match str::from_utf8(guarded.as_slice()) {
            Ok(text) => fields.push_field(text),
            Err(_) => Err(AllocError),
        }
    }
}

// From the end to the start, so that a long run of skipped bytes is read once.
fn guard(alloc: Global, text: &[u8]) -> Result<Vec<u8>, AllocError>
    ensures { IfOk result (λ made. made.items ≡ guarded text.now) }
{
    let mut backward = Vec::with_capacity(alloc, text.len())?;
    let mut formula = false;
    let mut index = text.len();
    while index > 0 {
        index -= 1;
        let byte = text[index];
        mark(&mut backward, formula && is_separator(byte))?;
        backward.push(byte)?;
        formula = begins(byte, formula);
    }
    mark(&mut backward, formula)?;
    backward.reverse();
    Ok(backward)
}

fn mark(backward: &mut Vec<u8>, formula: bool) -> Result<(), AllocError>
    ensures { OnOk result (reverse backward.new.items ≡ marked formula (reverse backward.old.items)) }
{
    if formula {
        backward.push(b'\'')?;
    }
    Ok(())
}

// True if a formula begins at this byte; `formula` is true if one begins behind it.
fn begins(byte: u8, formula: bool) -> bool
    ensures { result ≡ (if is_skipped byte then formula else is_sign byte) }
{
    if is_skipped(byte) {
        formula
    } else {
        is_sign(byte)
    }
}

fn is_separator(byte: u8) -> bool
    ensures { result ≡ is_separator byte }
{
    byte == b'\t' || byte == b'\n' || byte == b'\r' || byte == b';' || byte == b'|'
}

fn is_skipped(byte: u8) -> bool
    ensures { result ≡ is_skipped byte }
{
    byte < 33
        || byte == b'"'
        || byte == b'\''
        || (127 < byte && byte < 195)
        || (224 < byte && byte < 228)
}

fn is_sign(byte: u8) -> bool
    ensures { result ≡ is_sign byte }
{
    byte == b'+' || byte == b'-' || byte == b'=' || byte == b'@' || byte == 239
}
