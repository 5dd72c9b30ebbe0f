//! Calls that are repeated if `tests/program/refused_memory` refuses a request for memory.

use oim_names::{Aliases, Copied, Name, Reason, Text};
use std::alloc::AllocError;
use test_helpers::asked_again::may_repeat;

pub(crate) fn text(rt: &HostRuntime, bytes: &str) -> Result<Text, AllocError> {
    match Text::new(rt.alloc(), bytes) {
        Err(_) if may_repeat(rt) => Text::new(rt.alloc(), bytes),
        made => made,
    }
}

pub(crate) fn is_text(made: Result<Text, AllocError>, plain: &str) -> bool {
    match made {
        Ok(text) => text.as_str() == plain,
        Err(_) => false,
    }
}

pub(crate) fn copied<T: Copied>(rt: &HostRuntime, value: &T) -> Result<T, AllocError> {
    match value.copied(rt.alloc()) {
        Err(_) if may_repeat(rt) => value.copied(rt.alloc()),
        copy => copy,
    }
}

pub(crate) fn equals_its_copy<T: Copied + PartialEq>(rt: &HostRuntime, value: &T) -> bool {
    match copied(rt, value) {
        Ok(copy) => copy == *value,
        Err(_) => false,
    }
}

pub(crate) fn bind(
    rt: &HostRuntime,
    aliases: &mut Aliases,
    prefix: &str,
    uri: &str,
) -> Result<(), Reason> {
    match aliases.add(prefix, uri) {
        // a refused call must not bind the prefix
        Err(Reason::OutOfMemory) if aliases.uri(prefix).is_none() && may_repeat(rt) => aliases.add(
            prefix, uri,
        ),
        answer => answer,
    }
}

fn bind_all(
    rt: &HostRuntime,
    aliases: &mut Aliases,
    bindings: &[(&str, &str)],
) -> Result<(), Reason> {
    for (prefix, uri) in bindings {
        bind(rt, aliases, prefix, uri)?;
    }
    Ok(())
}

pub(crate) fn aliases_of(rt: &HostRuntime, bindings: &[(&str, &str)]) -> Result<Aliases, Reason> {
    let mut aliases = Aliases::new(rt.alloc());
    bind_all(rt, &mut aliases, bindings)?;
    Ok(aliases)
}

pub(crate) fn expand(rt: &HostRuntime, aliases: &Aliases, text: &str) -> Result<Name, Reason> {
    match aliases.expand(text) {
        Err(Reason::OutOfMemory) if may_repeat(rt) => aliases.expand(text),
        answer => answer,
    }
}
