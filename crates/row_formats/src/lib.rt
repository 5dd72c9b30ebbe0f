//! Verdicts and sources in formats that other programs read: one JSON object per line, and CSV.
#![tactic(auto)]

mod cells;
mod checked_rows;
mod csv_record;
pub mod laws;
mod row_csv;
mod row_format;
mod row_json;
mod row_length;
mod source_rows;

pub use checked_rows::CheckedRows;
pub use row_format::RowFormat;
pub use row_length::has_long_row;
pub use source_rows::SourceRows;
