ghost use Rattle.std.specs.Prelude.{◌≡◌, ◌⊎◌, Some, None, IfOk, IfErr};
ghost use Rattle.serde_json.specs.View.{view};
ghost use Rattle.oim_report.specs.Identifiers.{identifiers, tree_identifiers};
ghost use Rattle.oim_report.specs.Json.{json};

use crate::json_values::json_tree::{object_at, read_json};
use oim_names::{Reason, Text};
use serde_json::Value;
use std::alloc::Global;

/// Returns the identifiers of a report's facts, in byte order (xBRL-JSON 1.0, section 2).
/// `Report::facts` has the same order if the report is accepted. If the bytes are JSON without an
/// object `facts`, the list is empty. `NotJson` is the only condition that is tested.
///
/// Errors: `NotJson` if the bytes are not JSON; `OutOfMemory`.
pub fn fact_identifiers(alloc: Global, bytes: &[u8]) -> Result<Vec<Text>, Reason>
    ensures ok { IfOk result (λ is. identifiers bytes.now ≡ Some is.items) }
    ensures errors { IfErr result
        (λ r. (r ≡ Reason.OutOfMemory) ⊎ ((r ≡ Reason.NotJson) × (json bytes.now ≡ None))) }
{
    let tree = read_json(alloc, bytes)?;
    identifiers_of(alloc, &tree)
}

pub(crate) fn identifiers_of(alloc: Global, tree: &Value) -> Result<Vec<Text>, Reason>
    ensures ok { IfOk result (λ is. is.items ≡ tree_identifiers (view tree.now)) }
    ensures errors { IfErr result (λ r. r ≡ Reason.OutOfMemory) }
{
    let Some(objects) = object_at(tree, "facts") else {
        return Ok(Vec::new(alloc));
    };
    let mut keys = Vec::with_capacity(alloc, objects.len())?;
    for (key, _object) in objects.iter() {
        let key = Text::new(alloc, key.as_str())?;
        keys.push(key)?;
    }
    Ok(keys)
}
