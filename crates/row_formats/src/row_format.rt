ghost use Rattle.std.specs.Prelude.{◌≡◌, ◌++◌, IfOk};
ghost use Rattle.row_formats.specs.CsvCells.{byte_order_mark};

use crate::row_csv::{csv_header, csv_row};
use crate::row_json::json_row;
use oim_merge::{JudgedRow, VerdictFormat};
use oim_write::Scratch;
use std::alloc::{AllocError, Global};

/// A format of verdicts and sources for other programs (own). In each format of verdicts, a row has a
/// number (from 1), a verdict, dimensions, facts and, if it has several facts, evidence.
#[derive(Clone, Copy, Debug, PartialEq, Eq)]
pub enum RowFormat {
    /// One JSON object per line.
    Json,
    /// CSV (RFC 4180): a header, then a record for each fact (verdicts) or fact object (sources).
    Csv,
    /// CSV for a spreadsheet: the text begins with a byte order mark, and in each cell of text a `'`
    /// precedes everything that may be read as a formula, also behind a separator.
    SpreadsheetCsv,
}

impl VerdictFormat for RowFormat {
    ghost use Rattle.row_formats.specs.Rows.{header, row_text};
    ghost use Rattle.row_formats.specs.code.SameRows.{same_row};

    ghost header = { header };

    ghost row_text = { row_text };

    ghost names = { same_row };

    fn header(&self, alloc: Global) -> Result<Vec<u8>, AllocError> {
        match self {
            RowFormat::Json => Ok(Vec::new(alloc)),
            RowFormat::Csv => csv_header(alloc),
            RowFormat::SpreadsheetCsv => with_mark(alloc, csv_header(alloc)?),
        }
    }

    fn row(&self, scratch: &mut Scratch, judged: &JudgedRow<'_>) -> Result<Vec<u8>, AllocError> {
        match self {
            RowFormat::Json => json_row(scratch, judged),
            RowFormat::Csv => csv_row(false, judged),
            RowFormat::SpreadsheetCsv => csv_row(true, judged),
        }
    }
}

/// U+FEFF, from which a spreadsheet knows that the text is UTF-8.
const BYTE_ORDER_MARK: [u8; 3] = [0xef, 0xbb, 0xbf];

pub(crate) fn with_mark(alloc: Global, header: Vec<u8>) -> Result<Vec<u8>, AllocError>
    ensures { IfOk result (λ text. text.items ≡ byte_order_mark ++ header.items) }
{
    let mut text = Vec::from_slice(alloc, &BYTE_ORDER_MARK)?;
    text.extend_from_slice(header.as_slice())?;
    Ok(text)
}
