use crate::dimensions::Dimensions;
use crate::fact::Fact;
use crate::member::Member;
use crate::unit::Unit;
use oim_names::Name;
use std::alloc::{AllocError, Global};
use std::cmp::Ordering;

// The length in bytes up to which a URI is always compared.
const MOST_COMPARED: usize = 1024;

// A rank is found by a search through all ranked URIs.
const MOST_RANKED: usize = 32;

/// A long URI, which is that of a name, and its rank in byte order. No contract depends on the rank.
#[derive(Clone, Copy)]
pub struct RankedUri<'f> {
    name: &'f Name,
    rank: usize,
}

/// Returns the longest URIs of the facts, with their ranks, except short ones.
pub fn rank_long_uris(alloc: Global, facts: &[Fact]) -> Result<Vec<RankedUri<'_>>, AllocError> {
    let mut uris = Vec::new(alloc);
    for fact in facts {
        add_names(&mut uris, &fact.dimensions)?;
    }
    uris.sort_unstable_by(|one, other| one.name.uri().cmp(other.name.uri()));
    set_ranks(&mut uris);
    Ok(uris)
}

fn add_names<'f>(
    uris: &mut Vec<RankedUri<'f>>,
    dimensions: &'f Dimensions,
) -> Result<(), AllocError> {
    add_name(uris, dimensions.concept())?;
    if let Some(entity) = dimensions.entity() {
        add_name(uris, entity)?;
    }
    if let Some(unit) = dimensions.unit() {
        for name in unit.numerators() {
            add_name(uris, name)?;
        }
        for name in unit.denominators() {
            add_name(uris, name)?;
        }
    }
    for item in dimensions.members() {
        add_name(uris, &item.0)?;
        if let Member::Name(name) = &item.1 {
            add_name(uris, name)?;
        }
    }
    Ok(())
}

fn add_name<'f>(uris: &mut Vec<RankedUri<'f>>, name: &'f Name) -> Result<(), AllocError> {
    if !is_long(name) || rank_of(uris, name).is_some() {
        return Ok(());
    }
    uris.push(RankedUri { name, rank: 0 })?;
    if uris.len() > MOST_RANKED {
        uris.sort_unstable_by(|one, other| other.name.uri().len().cmp(&one.name.uri().len()));
        uris.truncate(MOST_RANKED);
    }
    Ok(())
}

// Equal URIs get one rank.
fn set_ranks(uris: &mut [RankedUri<'_>]) {
    let mut rank = 0;
    let mut before = "";
    for (index, ranked) in uris.iter_mut().enumerate() {
        let uri = ranked.name.uri();
        if uri != before {
            rank = index;
            before = uri;
        }
        ranked.rank = rank;
    }
}

// A URI is found by its place in memory, so it is not read.
fn rank_of(uris: &[RankedUri<'_>], name: &Name) -> Option<usize> {
    for ranked in uris {
        if ranked.name.shares_uri(name) {
            return Some(ranked.rank);
        }
    }
    None
}

/// Compares dimension sets by their order, but compares ranks in `uris` in place of long URIs. If two
/// long URIs have no ranks, but one length, they count as equal, so the result may differ from the
/// order. No contract depends on the result.
pub fn likely_order(one: &Dimensions, other: &Dimensions, uris: &[RankedUri<'_>]) -> Ordering {
    likely_name_order(one.concept(), other.concept(), uris)
        .then_with(|| likely_entity_order(one.entity(), other.entity(), uris))
        .then_with(|| one.period().cmp(&other.period()))
        .then_with(|| likely_unit_order(one.unit(), other.unit(), uris))
        .then_with(|| one.language().cmp(&other.language()))
        .then_with(|| likely_members_order(one.members(), other.members(), uris))
}

fn is_long(name: &Name) -> bool {
    name.uri().len() > MOST_COMPARED
}

pub(crate) fn likely_name_order(one: &Name, other: &Name, uris: &[RankedUri<'_>]) -> Ordering {
    if !is_long(one) || !is_long(other) {
        return one.cmp(other);
    }
    likely_uri_order(one, other, uris).then_with(|| one.local().cmp(other.local()))
}

fn likely_uri_order(one: &Name, other: &Name, uris: &[RankedUri<'_>]) -> Ordering {
    if one.shares_uri(other) {
        return Ordering::Equal;
    }
    match (rank_of(uris, one), rank_of(uris, other)) {
        (Some(rank), Some(next)) => rank.cmp(&next),
        _ if one.uri().len() == other.uri().len() => Ordering::Equal,
        _ => one.uri().cmp(other.uri()),
    }
}

fn likely_entity_order(
    one: Option<&Name>,
    other: Option<&Name>,
    uris: &[RankedUri<'_>],
) -> Ordering {
    match (one, other) {
        (Some(name), Some(next)) => likely_name_order(name, next, uris),
        _ => one.is_some().cmp(&other.is_some()),
    }
}

fn likely_unit_order(one: Option<&Unit>, other: Option<&Unit>, uris: &[RankedUri<'_>]) -> Ordering {
    match (one, other) {
        (Some(unit), Some(next)) => likely_list_order(
            unit.numerators(),
            next.numerators(),
            uris,
        ).then_with(|| likely_list_order(unit.denominators(), next.denominators(), uris)),
        _ => one.is_some().cmp(&other.is_some()),
    }
}

fn likely_list_order(one: &[Name], other: &[Name], uris: &[RankedUri<'_>]) -> Ordering {
    for (name, next) in one.iter().zip(other.iter()) {
        let order = likely_name_order(name, next, uris);
        if order.is_ne() {
            return order;
        }
    }
    one.len().cmp(&other.len())
}

fn likely_members_order(
    one: &[(Name, Member)],
    other: &[(Name, Member)],
    uris: &[RankedUri<'_>],
) -> Ordering {
    for (item, next) in one.iter().zip(other.iter()) {
        let order = likely_name_order(&item.0, &next.0, uris).then_with(|| likely_member_order(
            &item.1, &next.1, uris,
        ));
        if order.is_ne() {
            return order;
        }
    }
    one.len().cmp(&other.len())
}

fn likely_member_order(one: &Member, other: &Member, uris: &[RankedUri<'_>]) -> Ordering {
    match (one, other) {
        (Member::Name(name), Member::Name(next)) => likely_name_order(name, next, uris),
        _ => one.cmp(other),
    }
}
