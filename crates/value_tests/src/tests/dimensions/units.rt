use super::{example, unit};
use crate::tests::asked_again::aliases_of;
use oim_dims::{Unit, can_write_unit, unit_refusal, write_unit};
use oim_names::{Aliases, Name, Reason, Text};
use std::alloc::AllocError;
use std::test::Fail;
use test_helpers::asked_again::may_repeat;

fn unit_text(rt: &HostRuntime, aliases: &Aliases, unit: &Unit) -> Result<Option<Text>, AllocError> {
    if !can_write_unit(aliases, unit) {
        return Ok(None);
    }
    match write_unit(rt.alloc(), aliases, unit) {
        Err(_) if may_repeat(rt) => Ok(Some(write_unit(rt.alloc(), aliases, unit)?)),
        written => Ok(Some(written?)),
    }
}

fn is_written(rt: &HostRuntime, aliases: &Aliases, unit: &Unit, plain: &str) -> bool {
    match unit_text(rt, aliases, unit) {
        Ok(Some(written)) => written.as_str() == plain,
        _ => false,
    }
}

fn is_read(rt: &HostRuntime, aliases: &Aliases, spelled: &str, wanted: &Unit) -> bool {
    match unit(rt, aliases, spelled) {
        Ok(Some(unit)) => unit == *wanted,
        _ => false,
    }
}

fn is_unit(rt: &HostRuntime, aliases: &Aliases, spelled: &str, plain: &str) -> bool {
    match unit(rt, aliases, spelled) {
        Ok(Some(unit)) => is_written(rt, aliases, &unit, plain)
            && is_read(rt, aliases, plain, &unit),
        Ok(None) => plain.is_empty(),
        Err(_) => false,
    }
}

// Texts of units, and the texts that these are written as. The second text is empty if there is no
// unit.
const UNITS: [(&str, &str); 19] = [
    ("x:a", "x:a"),
    ("(x:a)", "x:a"),
    ("(x:b*x:a)", "x:a*x:b"),
    ("x:a/x:b", "x:a/x:b"),
    ("(x:b*x:a)/x:c", "(x:a*x:b)/x:c"),
    ("x:a*x:b/x:c", "(x:a*x:b)/x:c"),
    ("x:b*x:a/(x:c)", "(x:a*x:b)/x:c"),
    ("x:c/x:b*x:a", "x:c/(x:a*x:b)"),
    ("x:b*x:a/x:d*x:c*x:c", "(x:a*x:b)/(x:c*x:c*x:d)"),
    ("x:b*eg:z*x:a*x:b", "eg:z*x:a*x:b*x:b"),
    ("xbrli:pure", ""),
    ("(xbrli:pure)", ""),
    ("xbrli:pure/x:c", "xbrli:pure/x:c"),
    ("x:c/xbrli:pure", "x:c/xbrli:pure"),
    ("xbrli:pure*xbrli:pure", "xbrli:pure*xbrli:pure"),
    ("xbrli:pure/xbrli:pure", "xbrli:pure/xbrli:pure"),
    ("x:a/x:a", "x:a/x:a"),
    ("x:pure", "x:pure"),
    ("xbrli:purer", "xbrli:purer"),
];

// Texts with the refusal that has the least number of those in any piece.
const REFUSALS: [(&str, Reason); 33] = [
    ("", Reason::UnitForm),
    ("*", Reason::UnitForm),
    ("/", Reason::UnitForm),
    ("()", Reason::UnitForm),
    ("x:a/", Reason::UnitForm),
    ("/x:a", Reason::UnitForm),
    ("x:a/x:b/x:c", Reason::UnitForm),
    ("x:a**x:b", Reason::UnitForm),
    ("*x:a", Reason::UnitForm),
    ("x:a*", Reason::UnitForm),
    ("(x:a", Reason::UnitForm),
    ("x:a)", Reason::UnitForm),
    ("((x:a))", Reason::UnitForm),
    ("(x:a)*(x:b)", Reason::UnitForm),
    ("(x:a)*x:b", Reason::UnitForm),
    ("x:a*(x:b)", Reason::UnitForm),
    ("(x:a*x:b", Reason::UnitForm),
    ("(x:a/x:b)", Reason::UnitForm),
    ("x:a/(x:b", Reason::UnitForm),
    ("x:a/()", Reason::UnitForm),
    ("x:(a)", Reason::UnitForm),
    ("(x:a)(x:b)", Reason::UnitForm),
    ("a/x:b", Reason::NameForm),
    (" ", Reason::NameForm),
    ("q:a", Reason::UnboundPrefix),
    ("xbrl:a", Reason::ReservedNamespace),
    ("xbrl:a*q:a/a", Reason::NameForm),
    ("xbrl:a*q:a", Reason::UnboundPrefix),
    ("x:a/xbrl:a*q:a", Reason::UnboundPrefix),
    ("x:a/x:b*xbrl:c", Reason::ReservedNamespace),
    ("x:a b", Reason::NameForm),
    ("x:a:b", Reason::NameForm),
    ("x:a*q:b", Reason::UnboundPrefix),
];

fn is_refused(rt: &HostRuntime, aliases: &Aliases, spelled: &str, reason: Reason) -> bool {
    unit(rt, aliases, spelled) == Err(reason) && unit_refusal(aliases, spelled) == Some(reason)
}

fn are_locals(found: &[Name], locals: &[&str]) -> bool {
    for (name, local) in found.iter().zip(locals) {
        if name.local() != *local {
            return false;
        }
    }
    found.len() == locals.len()
}

fn has_measures(rt: &HostRuntime, aliases: &Aliases) -> bool {
    match unit(rt, aliases, "x:b*x:a/x:c") {
        Ok(Some(unit)) => {
            unit.known();
            are_locals(unit.numerators(), &["a", "b"]) && are_locals(unit.denominators(), &["c"])
        }
        _ => false,
    }
}

// Returns the first text that is read or written otherwise, or None if there is no such text.
fn first_other(rt: &HostRuntime, aliases: &Aliases) -> Option<&'static str> {
    for (spelled, plain) in &UNITS {
        if !is_unit(rt, aliases, spelled, plain) {
            return Some(spelled);
        }
    }
    for (spelled, reason) in &REFUSALS {
        if !is_refused(rt, aliases, spelled, *reason) {
            return Some(spelled);
        }
    }
    None
}

// Returns whether a unit of `aliases` cannot be written with the prefixes of `few`.
fn is_unwritable(rt: &HostRuntime, aliases: &Aliases, few: &Aliases, spelled: &str) -> bool {
    match unit(rt, aliases, spelled) {
        Ok(Some(unit)) => !can_write_unit(few, &unit),
        _ => false,
    }
}

#[test]
fn units_are_read_and_written(rt: HostRuntime) -> Result<(), Fail> {
    let aliases = example(&rt)?;
    assert_eq!(rt; first_other(&rt, &aliases), None);
    assert!(rt; has_measures(&rt, &aliases));
    let few = aliases_of(&rt, &[("e*g", "http://example.org/t")])?;
    assert!(rt; is_unwritable(&rt, &aliases, &few, "x:a"));
    assert!(rt; is_unwritable(&rt, &aliases, &few, "eg:b"));
    Ok(())
}
