ghost use Rattle.std.specs.Prelude.{◌≡◌, IfOk};

use crate::prefixes::aliases_in;
use oim_names::{Aliases, Reason, split_name};
use oim_report::{Sheet, after_mark};
use serde_json::Value;
use std::alloc::{AllocError, Global};

// The time to search for one name is limited, because each fact of a report may use another
// unknown name.
const MOST_PREFIXES: usize = 20;

/// A sheet with the prefixes that its file binds. They help to find a name in the sheet that is
/// similar to an unknown name (own).
#[derive(Drop)]
pub struct SheetNames<'s> {
    /// The sheet.
    pub sheet: &'s Sheet,
    aliases: Aliases,
    prefixes: Vec<String>,
}

impl<'s> SheetNames<'s> {
    /// Returns the sheet with the prefixes that its bytes bind. The sheet does not change.
    ///
    /// Errors: out of memory.
    pub fn read(alloc: Global, sheet: &'s Sheet, bytes: &[u8]) -> Result<Self, AllocError>
        ensures { IfOk result (λ names. names.sheet.now ≡ sheet.now) }
    {
        let mut names = SheetNames {
            sheet,
            aliases: Aliases::new(alloc),
            prefixes: Vec::new(alloc),
        };
        match Value::from_slice(alloc, after_mark(bytes)) {
            Ok(tree) => names.bind(alloc, &tree)?,
            Err(error) if error.is_memory() => return Err(AllocError),
            Err(_) => {}
        }
        Ok(names)
    }

    fn bind(&mut self, alloc: Global, tree: &Value) -> Result<(), AllocError>
        ensures { self.new.sheet ≡ self.old.sheet }
    {
        let Some(namespaces) = tree.get("namespaces").and_then(Value::as_object) else {
            return Ok(());
        };
        self.aliases = aliases_in(alloc, Some(namespaces))?;
        for (prefix, _uri) in namespaces.iter() {
            self.prefixes
                .push(String::from_str(alloc, prefix.as_str())?)?;
        }
        Ok(())
    }

    /// Returns the namespace of a listed name with the same local part as a name in a report. The
    /// name that the sheet's own prefixes give to the text precedes others.
    pub(crate) fn similar(
        &self,
        alloc: Global,
        reason: Reason,
        text: &str,
    ) -> Result<Option<&str>, AllocError> {
        let (prefix, local) = split_name(text);
        if self.lists(reason, text)? {
            return Ok(self.aliases.uri(prefix));
        }
        for prefix in self.prefixes.iter().take(MOST_PREFIXES) {
            let spelled = format!(in alloc; "{prefix}:{local}")?;
            if self.lists(reason, spelled.as_str())? {
                return Ok(self.aliases.uri(prefix.as_str()));
            }
        }
        Ok(None)
    }

    fn lists(&self, reason: Reason, text: &str) -> Result<bool, AllocError> {
        match self.aliases.expand(text) {
            Ok(name) if reason == Reason::UnknownConcept => Ok(self.sheet.concept(&name).is_some()),
            Ok(name) => Ok(self.sheet.dimension(&name).is_some()),
            Err(Reason::OutOfMemory) => Err(AllocError),
            Err(_) => Ok(false),
        }
    }
}
