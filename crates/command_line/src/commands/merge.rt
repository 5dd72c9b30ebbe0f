pub(crate) const ABOUT: &str = "Writes one canonical report with the facts of all reports";

pub(crate) const MORE: &str =
    "Equal facts become one, even if several reports contain them. The output does not depend on the
order of the reports or on how often a report is named. A report with a fault is skipped as a whole.

A row is all facts with the same dimensions. LEVEL allows these rows:
  none, complete  rows with one fact
  consistent      also rows of numbers that agree within rounding
  all             also rows with facts that contradict each other
To refuse contradictions, pass --allow consistent.

Example:
  xbrlmerge merge --sheet examples/sheet.json examples/issuer.json examples/statfeed.json

Status:
  0  every report was merged
  1  a report was refused; the others were merged. Standard error has `report R: NUMBER NAME at
     PLACE`. R counts the arguments, then the names of --reports-from, from 1. `explain` shows the
     file and what is at fault
  2  a row exceeds LEVEL: nothing was written, and standard error has the number of the first
     such row, as `verdicts` counts rows
  3  not done, or not completed: invalid arguments, a refused sheet, a file or device that
     failed, output above a limit, or out of memory";
