ghost use Rattle.std.specs.Prelude.{◌≡◌, ◌==◌, [], ◌++◌, ◌∷◌, length, map, IfOk, OnOk};
ghost use Rattle.oim_report.specs.Faults.{listed, refusals_of, shown_fault};

use crate::fault::Fault;
use crate::refusal::Refusal;
use std::alloc::{AllocError, Global};

/// The faults of a report, each with the part at fault. An accepted report has none.
#[derive(Drop)]
pub struct Faults<'t> {
    alloc: Global,
    faults: Vec<Fault<'t>>,
}

impl<'t> Faults<'t> {
    pub(crate) fn new(alloc: Global) -> Faults<'t>
        ensures { listed result ≡ [] }
    {
        Faults {
            alloc,
            faults: Vec::new(alloc),
        }
    }

    pub(crate) fn alloc(&self) -> Global {
        self.alloc
    }

    pub(crate) fn push(&mut self, fault: Fault<'t>) -> Result<(), AllocError>
        ensures { OnOk result (listed self.new ≡ listed self.old ++ shown_fault fault.entry ∷ []) }
    {
        self.faults.push(fault)?;
        Ok(())
    }

    /// Returns the faults of the document or, if there are none, of its facts in byte order of the
    /// identifiers. Faults with the same place are sorted by the number of their reason.
    pub fn as_slice(&self) -> &[Fault<'t>]
        ensures { map shown_fault result.now ≡ listed self.now }
    {
        self.faults.as_slice()
    }

    pub(crate) fn is_empty(&self) -> bool
        ensures { result ≡ (length (refusals_of (listed self.now)) == 0) }
    {
        self.faults.is_empty()
    }

    pub(crate) fn refusals(&self) -> Result<Vec<Refusal>, AllocError>
        ensures { IfOk result (λ refusals. refusals.items ≡ refusals_of (listed self.now)) }
    {
        let mut refusals = Vec::new(self.alloc);
        for fault in self.faults.as_slice() {
            refusals.push(fault.refusal)?;
        }
        Ok(refusals)
    }
}
