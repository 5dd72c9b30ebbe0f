ghost use Rattle.row_formats.specs.CsvCells.{FormulasAreMarked};
ghost use Rattle.row_formats.specs.Rows.{RowsAreOne, RowsTellVerdicts};

// Laws of the definitions. Each is the contract of a function that does nothing.

/// The rows of a body that fits a sheet have exactly one text in each format.
pub fn rows_are_one()
    ensures { RowsAreOne }
{}

/// In a body that fits a sheet, each row has a verdict, and the text of the row shows the word for
/// this verdict: a line of JSON begins with the row's number and the word; in CSV, each record of the
/// row has both in their columns.
pub fn rows_tell_verdicts()
    ensures { RowsTellVerdicts }
{}

/// In CSV for a spreadsheet, wherever a cell of text may begin, a formula follows only a `'`.
pub fn formulas_are_marked()
    ensures { FormulasAreMarked }
{}
