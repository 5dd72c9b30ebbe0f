use super::periods::{language, period};
use super::{example, unit};
use crate::tests::asked_again::{equals_its_copy, expand, text};
use oim_dims::{Dimensions, Fact, Member, Period};
use oim_names::{Aliases, Name, Reason};
use oim_value::Value;
use std::alloc::AllocError;
use std::test::Fail;
use test_helpers::asked_again::{may_repeat, may_repeat_here};

enum Kind {
    Name,
    Text,
    Nil,
}

// Any part of a dimension set except the concept, spelled as in a report. `Member` has the name of
// a dimension and the kind of its member.
enum Part {
    Entity(&'static str),
    Period(&'static str),
    Unit(&'static str),
    Language(&'static str),
    Member(&'static str, Kind),
}

fn member(rt: &HostRuntime, aliases: &Aliases, kind: &Kind) -> Result<Member, Reason> {
    Ok(match kind {
        Kind::Name => Member::Name(expand(rt, aliases, "eg:North")?),
        Kind::Text => Member::Text(text(rt, "a b")?),
        Kind::Nil => Member::Nil,
    })
}

fn add_once(
    rt: &HostRuntime,
    set: &mut Dimensions,
    aliases: &Aliases,
    spelled: &str,
    kind: &Kind,
) -> Result<(), Reason> {
    let name = expand(rt, aliases, spelled)?;
    set.add(name, member(rt, aliases, kind)?)
}

// `Dimensions::add` consumes the name and the member, so each call needs new ones. A refused call
// must not add a member.
fn add(
    rt: &HostRuntime,
    set: &mut Dimensions,
    aliases: &Aliases,
    spelled: &str,
    kind: &Kind,
) -> Result<(), Reason> {
    let count = set.members().len();
    match add_once(rt, set, aliases, spelled, kind) {
        Err(Reason::OutOfMemory) if set.members().len() == count && may_repeat(rt) => add_once(
            rt, set, aliases, spelled, kind,
        ),
        answer => answer,
    }
}

fn put_part(
    rt: &HostRuntime,
    set: &mut Dimensions,
    aliases: &Aliases,
    part: &Part,
) -> Result<(), Reason> {
    match part {
        Part::Entity(spelled) => set.set_entity(expand(rt, aliases, spelled)?),
        Part::Period(spelled) => set.set_period(period(rt, spelled)?),
        Part::Unit(spelled) => set.set_unit(unit(rt, aliases, spelled)?),
        Part::Language(spelled) => set.set_language(language(rt, spelled)?),
        Part::Member(spelled, kind) => add(rt, set, aliases, spelled, kind)?,
    }
    Ok(())
}

fn put_all(
    rt: &HostRuntime,
    set: &mut Dimensions,
    aliases: &Aliases,
    parts: &[Part],
) -> Result<(), Reason> {
    for part in parts {
        put_part(rt, set, aliases, part)?;
    }
    Ok(())
}

// A concept, and the other parts of a dimension set.
type Row = (&'static str, &'static [Part]);

fn set_of(rt: &HostRuntime, aliases: &Aliases, row: &Row) -> Result<Dimensions, Reason> {
    let mut set = Dimensions::new(rt.alloc(), expand(rt, aliases, row.0)?);
    put_all(rt, &mut set, aliases, row.1)?;
    Ok(set)
}

// A unit that is `pure` alone is no unit.
const BARE: Row = ("eg:A", &[Part::Unit("xbrli:pure")]);

fn is_bare(set: &Dimensions) -> bool {
    set.known();
    set.period().known();
    set.concept().local() == "A"
        && set.entity().is_none()
        && set.period() == Period::Forever
        && set.unit().is_none()
        && set.language().is_none()
        && set.members().is_empty()
}

fn is_bare_made(rt: &HostRuntime, aliases: &Aliases) -> bool {
    match set_of(rt, aliases, &BARE) {
        Ok(set) => is_bare(&set),
        Err(_) => false,
    }
}

// Parts of every kind, with more members than a new list has space for.
const EVERY: Row = (
    "eg:A",
    &[
        Part::Entity("x:529900"),
        Part::Period("2020-01-01T00:00:00/2020-12-31T24:00:00"),
        Part::Unit("x:b*x:a/x:d*x:c"),
        Part::Language("en-GB"),
        Part::Member("x:c", Kind::Name),
        Part::Member("x:a", Kind::Text),
        Part::Member("eg:b", Kind::Nil),
        Part::Member("x:b", Kind::Name),
        Part::Member("eg:a", Kind::Text),
        Part::Member("eg:c", Kind::Nil),
    ],
);

fn has_every_part(set: &Dimensions) -> bool {
    set.entity().is_some()
        && set.language().is_some()
        && set.period() != Period::Forever
        && set.members().len() == 6
}

fn are_parts_copied(rt: &HostRuntime, set: &Dimensions) -> bool {
    match set.unit() {
        Some(unit) => equals_its_copy(rt, unit) && equals_its_copy(rt, &set.period()),
        None => false,
    }
}

fn full_fact(rt: &HostRuntime, aliases: &Aliases) -> Result<Fact, Reason> {
    let value = Value::Text(text(rt, "z")?);
    Ok(Fact {
        dimensions: set_of(rt, aliases, &EVERY)?,
        value,
    })
}

fn are_members_copied(rt: &HostRuntime, set: &Dimensions) -> bool {
    for member in set.members() {
        if !equals_its_copy(rt, member) {
            return false;
        }
    }
    true
}

fn has_parts_and_copy(rt: &HostRuntime, fact: &Fact) -> bool {
    has_every_part(&fact.dimensions)
        && are_parts_copied(rt, &fact.dimensions)
        && are_members_copied(rt, &fact.dimensions)
        && equals_its_copy(rt, fact)
}

fn is_fact_copied(rt: &HostRuntime, aliases: &Aliases) -> bool {
    match full_fact(rt, aliases) {
        Ok(fact) => has_parts_and_copy(rt, &fact),
        Err(_) => false,
    }
}

const MIXED: Row = (
    "eg:A",
    &[
        Part::Member("x:a", Kind::Nil),
        Part::Member("eg:b", Kind::Nil),
        Part::Member("x:b", Kind::Nil),
        Part::Member("eg:a", Kind::Nil),
    ],
);

const NIL: [Part; 1] = [Part::Member("eg:b", Kind::Nil)];

// The names of the members in order: the URI of `x` is greater than that of `eg`.
const IN_ORDER: [(&str, &str); 4] = [
    ("http://example.org/t", "a"),
    ("http://example.org/t", "b"),
    ("http://example.org/u", "a"),
    ("http://example.org/u", "b"),
];

fn are_in_order(set: &Dimensions) -> bool {
    for ((name, _), (uri, local)) in set.members().iter().zip(&IN_ORDER) {
        if name.uri() != *uri || name.local() != *local {
            return false;
        }
    }
    set.members().len() == 4
}

const ROOM: usize = 4;

fn room(rt: &HostRuntime) -> Result<Vec<(Name, Member)>, AllocError> {
    match Vec::with_capacity(rt.alloc(), ROOM) {
        Err(_) if may_repeat_here(rt) => Vec::with_capacity(rt.alloc(), ROOM),
        room => room,
    }
}

fn push_nil(
    rt: &HostRuntime,
    aliases: &Aliases,
    members: &mut Vec<(Name, Member)>,
    spelled: &str,
) -> Result<(), Reason> {
    let name = expand(rt, aliases, spelled)?;
    Ok(members.push((name, Member::Nil))?)
}

fn listed(
    rt: &HostRuntime,
    aliases: &Aliases,
    names: &[&str],
) -> Result<Vec<(Name, Member)>, Reason> {
    let mut members = room(rt)?;
    for spelled in names {
        push_nil(rt, aliases, &mut members, spelled)?;
    }
    Ok(members)
}

fn takes(rt: &HostRuntime, aliases: &Aliases, set: &mut Dimensions, names: &[&str]) -> bool {
    match listed(rt, aliases, names) {
        Ok(members) => set.set_members(members).is_ok(),
        Err(_) => false,
    }
}

// Returns whether a repeated member is refused and changes nothing, and other members are sorted.
fn stays_in_order(rt: &HostRuntime, aliases: &Aliases, set: &mut Dimensions) -> bool {
    are_in_order(set)
        && put_all(rt, set, aliases, &NIL) == Err(Reason::DimensionValue)
        && are_in_order(set)
        && takes(rt, aliases, set, &["x:b", "eg:b", "x:a", "eg:a"])
        && !takes(rt, aliases, set, &["x:a", "eg:a", "x:a"])
        && are_in_order(set)
}

fn are_members_in_order(rt: &HostRuntime, aliases: &Aliases) -> bool {
    match set_of(rt, aliases, &MIXED) {
        Ok(mut set) => stays_in_order(rt, aliases, &mut set),
        Err(_) => false,
    }
}

#[test]
fn sets_have_the_parts_that_were_put(rt: HostRuntime) -> Result<(), Fail> {
    let aliases = example(&rt)?;
    assert!(rt; is_bare_made(&rt, &aliases));
    assert!(rt; is_fact_copied(&rt, &aliases));
    assert!(rt; are_members_in_order(&rt, &aliases));
    Ok(())
}

// Dimension sets in ascending order. Absent parts are less than present ones, and earlier parts are
// compared first. A list is less than a longer list that begins with it.
const RISING: [Row; 14] = [
    ("eg:A", &[]),
    ("eg:A", &[Part::Member("eg:a", Kind::Nil)]),
    (
        "eg:A",
        &[
            Part::Member("eg:a", Kind::Nil),
            Part::Member("eg:b", Kind::Nil),
        ],
    ),
    ("eg:A", &[Part::Member("eg:a", Kind::Text)]),
    ("eg:A", &[Part::Member("eg:a", Kind::Name)]),
    ("eg:A", &[Part::Language("en")]),
    ("eg:A", &[Part::Unit("x:a")]),
    ("eg:A", &[Part::Unit("x:a/x:b")]),
    ("eg:A", &[Part::Unit("x:a*x:b")]),
    ("eg:A", &[Part::Period("0001-01-01T00:00:00")]),
    ("eg:A", &[Part::Period("2021-01-01T00:00:00")]),
    (
        "eg:A",
        &[Part::Period("2019-01-01T00:00:00/2021-01-01T00:00:00")],
    ),
    ("eg:A", &[Part::Entity("x:529900")]),
    ("eg:B", &[]),
];

fn is_below(rt: &HostRuntime, aliases: &Aliases, low: &Dimensions, high: &Row) -> bool {
    match set_of(rt, aliases, high) {
        Ok(high) => *low < high && high > *low,
        Err(_) => false,
    }
}

fn rises_at(rt: &HostRuntime, aliases: &Aliases, low: &Row, high: &Row) -> bool {
    match set_of(rt, aliases, low) {
        Ok(low) => is_below(rt, aliases, &low, high),
        Err(_) => false,
    }
}

#[test]
fn sets_are_ordered_part_by_part(rt: HostRuntime) -> Result<(), Fail> {
    let aliases = example(&rt)?;
    for index in 0..13usize {
        let (low, high) = (&RISING[index], &RISING[index + 1]);
        assert!(rt; rises_at(&rt, &aliases, low, high), "{index}");
    }
    Ok(())
}
