ghost use Rattle.std.specs.Prelude.{◌≡◌, [], ◌++◌, ◌∷◌, OnOk, OnErr};

use oim_report::Refusal;
use std::alloc::{AllocError, Global};
use std::marker::Model;

/// The refusals of reports, each with the number of its report, from 1. Refusals are in the order
/// of the reports or, after a schedule, in the order of the events.
#[derive(Debug, Drop)]
pub struct Refusals {
    entries: Vec<(u64, Refusal)>,
}

impl Model for Refusals {
    ghost use Rattle.std.specs.Prelude.{List, ℕ};
    ghost use Rattle.oim_report.specs.declared.refusal.Refusal.{Refusal as Refused};

    ghost Value = { List (ℕ × Refused) };

    ghost view = { λ r. r.entries.items };
}

impl Refusals {
    /// Returns an empty list.
    ///
    /// The call does not allocate.
    pub fn new(alloc: Global) -> Refusals
        ensures { result ≡ [] }
    {
        Refusals {
            entries: Vec::new(alloc),
        }
    }

    /// Appends the refusal of the report with this number, from 1.
    ///
    /// Errors: out of memory; the list is then unchanged.
    pub fn push(&mut self, report: u64, refusal: Refusal) -> Result<(), AllocError>
        ensures ok { OnOk result (self.new ≡ self.old ++ (report, refusal) ∷ []) }
        ensures err { OnErr result (self.new ≡ self.old) }
    {
        self.entries.push((report, refusal))?;
        Ok(())
    }

    /// The refusals, each after the number of its report.
    pub fn as_slice(&self) -> &[(u64, Refusal)]
        ensures { result.now ≡ self.now }
    {
        self.entries.as_slice()
    }
}
