ghost use Rattle.std.specs.Prelude.{◌≡◌, ◌∷◌, OnOk, string_bytes};
ghost use Rattle.fact_base.specs.Shown.{rows_left, shown};
ghost use Rattle.oim_write.specs.Tree.{name_text, prefix};
ghost use Rattle.oim_write.specs.code.Table.{SharePrefix};

use crate::prefix_table::PrefixTable;
use fact_base::{Row, Rows};
use std::alloc::{AllocError, Global};

/// Spells the concepts of ascending rows, one after another. URIs may be long, so a prefix is looked
/// up once for several rows whose concepts have the same URI.
#[derive(Drop)]
pub(crate) struct ConceptTexts {
    /// The text of the last row's concept.
    pub text: String,
    prefix: String,
    // the number of next rows whose concepts have this prefix
    known: usize,
}

impl ConceptTexts {
    pub(crate) fn new(alloc: Global) -> ConceptTexts
        ensures { result.known ≡ 0 }
    {
        ConceptTexts {
            text: String::new(alloc),
            prefix: String::new(alloc),
            known: 0,
        }
    }

    /// Makes `text` the text of a row's concept. `rows` has the rows after it.
    pub(crate) fn spell(
        &mut self,
        table: &PrefixTable,
        row: Row<'_>,
        rows: &Rows<'_>,
    ) -> Result<(), AllocError>
        requires { SharePrefix table.now (string_bytes self.old.prefix) self.old.known (shown row ∷ rows_left rows.now) }
        ensures text { OnOk result (string_bytes self.new.text ≡ name_text table.now row.entry.dimensions.now.concept) }
        ensures known { OnOk result (SharePrefix table.now (string_bytes self.new.prefix) self.new.known (rows_left rows.now)) }
    {
        self.find_prefix(table, row, rows)?;
        self.text.clear();
        self.text.push_str(self.prefix.as_str())?;
        self.text.push_str(":")?;
        self.text.push_str(row.dimensions.concept().local())
    }

    // Makes `prefix` the prefix of a row's concept. Looks it up only if it is not known.
    fn find_prefix(
        &mut self,
        table: &PrefixTable,
        row: Row<'_>,
        rows: &Rows<'_>,
    ) -> Result<(), AllocError>
        requires { SharePrefix table.now (string_bytes self.old.prefix) self.old.known (shown row ∷ rows_left rows.now) }
        ensures prefix { OnOk result (string_bytes self.new.prefix ≡ prefix table.now row.entry.dimensions.now.concept.uri) }
        ensures known { OnOk result (SharePrefix table.now (string_bytes self.new.prefix) self.new.known (rows_left rows.now)) }
    {
        if self.known > 0 {
            self.known -= 1;
            return Ok(());
        }
        let uri = row.dimensions.concept().uri();
        self.prefix.clear();
        table.push_prefix(&mut self.prefix, uri)?;
        self.known = rows.uri_run(uri);
        Ok(())
    }
}
