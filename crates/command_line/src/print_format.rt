use row_formats::RowFormat;

/// The format of printed rows.
#[derive(Clone, Copy, Debug)]
pub(crate) enum PrintFormat {
    /// Lines for people.
    Lines,
    /// JSON or CSV, for other programs.
    Rows(RowFormat),
}
