//! Finds the conditions that apply to a document.

ghost use Rattle.std.specs.Prelude.{◌≡◌, ◌++◌, map, OnOk};
ghost use Rattle.std.specs.List.{filter};
ghost use Rattle.serde_json.specs.View.{view};
ghost use Rattle.oim_report.specs.Faults.{listed};
ghost use Rattle.oim_report.specs.Holds.{document_holds};
ghost use Rattle.oim_report.specs.Least.{is_shown};
ghost use Rattle.oim_report.specs.code.ListedFaults.{document_fault, document_faults};

use crate::document::document_part::document_part;
use crate::fault::Fault;
use crate::fault_list::Faults;
use crate::refusal::Refusal;
use oim_names::Reason;
use serde_json::Value;
use std::alloc::AllocError;

impl<'t> Faults<'t> {
    /// Adds each condition that applies to the document.
    pub(crate) fn add_document(&mut self, tree: &'t Value) -> Result<(), AllocError>
        ensures { OnOk result (listed self.new ≡ listed self.old ++ document_faults (view tree.now)) }
    {
        let reasons = &[
            Reason::MemberForm,
            Reason::UnknownMember,
            Reason::DocumentType,
            Reason::Namespace,
            Reason::BaseUrl,
            Reason::TaxonomyUrl,
            Reason::Feature,
        ];
        self.add_each_of_document(tree, reasons)
    }

    // Does the same as `add_document`, but only for the conditions in `reasons`.
    fn add_each_of_document(
        &mut self,
        tree: &'t Value,
        reasons: &[Reason],
    ) -> Result<(), AllocError>
        ensures { let found = filter (is_shown (document_holds (view tree.now))) reasons.now in
            OnOk result (listed self.new ≡ listed self.old ++ map (document_fault (view tree.now)) found) }
    {
        for reason in reasons {
            if let Some(part) = document_part(self.alloc(), tree, *reason)? {
                let refusal = Refusal::from(*reason);
                self.push(Fault { refusal, part })?;
            }
        }
        Ok(())
    }
}
