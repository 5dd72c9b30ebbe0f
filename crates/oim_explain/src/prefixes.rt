use oim_names::{Aliases, Reason};
use serde_json::{Map, Value};
use std::alloc::{AllocError, Global};

/// Returns the prefixes that the entries of `namespaces` bind. Entries that bind none are skipped.
pub(crate) fn aliases_in(
    alloc: Global,
    namespaces: Option<&Map<String, Value>>,
) -> Result<Aliases, AllocError> {
    let mut aliases = Aliases::new(alloc);
    let Some(entries) = namespaces else {
        return Ok(aliases);
    };
    for (prefix, uri) in entries.iter() {
        let uri = uri.as_str().unwrap_or_default();
        if let Err(Reason::OutOfMemory) = aliases.add(prefix.as_str(), uri) {
            return Err(AllocError);
        }
    }
    Ok(aliases)
}
