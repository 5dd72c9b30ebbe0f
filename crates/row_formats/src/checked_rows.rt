ghost use Rattle.std.specs.Prelude.{◌≡◌, IfOk, OnOk, map};
ghost use Rattle.std.specs.Option.{option_copied};
ghost use Rattle.oim_write.specs.Tokens.{AddsValue};
ghost use Rattle.row_formats.specs.CheckedRows.{checked_columns, checked_data, checked_header, checked_text, csv_checked, json_checked};
ghost use Rattle.row_formats.specs.CsvRows.{record_text};

use crate::cells::Cells;
use crate::csv_record::{push_three, text_of_record};
use crate::row_format::{RowFormat, with_mark};
use crate::row_json::write_file;
use crate::source_rows::file_of;
use csv::StringRecord;
use json::Writer;
use oim_merge::Checked;
use std::alloc::{AllocError, Global};

/// The results of checking reports, for other programs (own). Each JSON object or CSV record has the
/// number of an accepted report (from 1), its file, the number of its facts, their level, and whether
/// its bytes are canonical.
#[derive(Clone, Copy, Debug)]
pub struct CheckedRows<'n> {
    pub format: RowFormat,
    /// The files, as in `SourceRows`.
    pub files: &'n [&'n str],
}

impl CheckedRows<'_> {
    /// Returns the text before the first row.
    ///
    /// Errors: out of memory.
    pub fn header(&self, alloc: Global) -> Result<Vec<u8>, AllocError>
        ensures { IfOk result (λ text. text.items ≡ checked_header self.now.format) }
    {
        match self.format {
            RowFormat::Json => Ok(Vec::new(alloc)),
            RowFormat::Csv => csv_columns(alloc),
            RowFormat::SpreadsheetCsv => with_mark(alloc, csv_columns(alloc)?),
        }
    }

    /// Returns the row of the accepted report with this number, from 1.
    ///
    /// Errors: out of memory.
    pub fn row(&self, alloc: Global, report: u64, checked: &Checked) -> Result<Vec<u8>, AllocError>
        ensures { IfOk result (λ text. text.items ≡ checked_text self.now.format (map (λ f. f.now) self.now.files.now) report checked.now) }
    {
        let file = file_of(self.files, report);
        let spreadsheet = match self.format {
            RowFormat::Json => return json_checked(alloc, file, report, checked),
            RowFormat::Csv => false,
            RowFormat::SpreadsheetCsv => true,
        };
        csv_checked(Cells { alloc, spreadsheet }, file, report, checked)
    }
}

fn json_checked(
    alloc: Global,
    file: Option<&str>,
    report: u64,
    checked: &Checked,
) -> Result<Vec<u8>, AllocError>
    ensures { IfOk result (λ line. line.items ≡ json_checked report (option_copied file.entry) checked.now) }
{
    let mut json = Writer::new(Vec::new(alloc));
    write_checked(&mut json, file, report, checked)?;
    let mut line = json.into_inner();
    line.push(b'\n')?;
    Ok(line)
}

fn write_checked(
    json: &mut Writer,
    file: Option<&str>,
    report: u64,
    checked: &Checked,
) -> Result<(), AllocError>
    ensures { OnOk result (AddsValue json.old json.new (checked_data report (option_copied file.entry) checked.now)) }
{
    json.begin_object()?;
    json.key("report")?;
    json.u64(report)?;
    json.key("file")?;
    write_file(json, file)?;
    json.key("facts")?;
    json.u64(checked.facts)?;
    json.key("level")?;
    json.string(checked.level.text())?;
    json.key("canonical")?;
    json.boolean(checked.canonical)?;
    json.end_object()
}

fn csv_columns(alloc: Global) -> Result<Vec<u8>, AllocError>
    ensures { IfOk result (λ text. text.items ≡ record_text checked_columns) }
{
    let mut record = StringRecord::new(alloc);
    record.push_field("report")?;
    record.push_field("file")?;
    push_three(&mut record, "facts", "level", "canonical")?;
    text_of_record(alloc, &record)
}

fn csv_checked(
    cells: Cells,
    file: Option<&str>,
    report: u64,
    checked: &Checked,
) -> Result<Vec<u8>, AllocError>
    ensures { IfOk result (λ text. text.items
        ≡ csv_checked cells.spreadsheet report (option_copied file.entry) checked.now) }
{
    let (facts, level) = (checked.facts, checked.level.text());
    let canonical = if checked.canonical { "true" } else { "false" };
    let report = format!(in cells.alloc; "{report}")?;
    let facts = format!(in cells.alloc; "{facts}")?;
    let mut record = StringRecord::new(cells.alloc);
    record.push_field(report.as_str())?;
    cells.push(&mut record, file.unwrap_or(""))?;
    push_three(&mut record, facts.as_str(), level, canonical)?;
    text_of_record(cells.alloc, &record)
}
