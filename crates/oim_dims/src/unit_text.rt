ghost use Rattle.std.specs.Prelude.{◌≡◌, ◌≢◌, ◌⊎◌, ◌↔◌, [], ◌∷◌, ◌++◌, None, Some, true, All, IsTrue, IfOk, IfErr, IfSome, MatchOption, OnOk, is_some, option_map, string_bytes};
ghost use Rattle.std.specs.List.{AllZip, find, list_all, list_any, slice_split};
ghost use Rattle.std.specs.List.Sorted.{IsPermutation, IsSorted};
ghost use Rattle.oim_names.specs.Expansion.{Expands, a_name, name_refusal, refuses};
ghost use Rattle.oim_value.specs.ValueOrder.{name_cmp};
ghost use Rattle.oim_dims.specs.Separators.{is_star};
ghost use Rattle.oim_dims.specs.Unit.{DenotesUnit, IsMeasure, IsUnit, NamesEach, UnitOf, can_write, denominator_pieces, inner, is_mark, is_piece, is_unit_text, is_writable, measure_text, numerator_pieces, product_text, pure_name, side_text, some_piece, unit_refusal, unit_text};

use crate::long_uris::likely_name_order;
use crate::sequence::Sequence;
use crate::spelling::spell_unit;
use crate::unit::Unit;
use oim_names::{Aliases, Name, Reason, Text};
use std::alloc::{AllocError, Global};

/// Reads a unit: measures with `*` between them, then optionally `/` and the measures of the
/// denominator (xBRL-JSON 1.0). Parentheses around a side are optional (own). The result is `None`
/// for `pure` alone, which is not a unit.
///
/// Errors: `UnitForm` if the text does not have this form; otherwise the first of `NameForm`,
/// `UnboundPrefix` and `ReservedNamespace` that applies to a measure; `OutOfMemory`.
pub fn read_unit(alloc: Global, aliases: &Aliases, text: &str) -> Result<Option<Unit>, Reason>
    ensures unit { IfOk result (UnitOf aliases.now text.now) }
    ensures sorted { IfOk result (λ unit. IfSome unit IsUnit) }
    ensures errors { IfErr result (λ e. (e ≡ Reason.OutOfMemory) ⊎ (unit_refusal aliases.now text.now ≡ Some e)) }
{
    match read_sides(alloc, aliases, text) {
        Ok(unit) => Ok(unit),
        Err(Reason::OutOfMemory) => Err(Reason::OutOfMemory),
        Err(reason) => match unit_refusal(aliases, text) {
            Some(refusal) => Err(refusal),
            None => Err(reason),
        },
    }
}

// Most units are not refused, so `read_unit` reads first and looks for the refusal only after an
// error.
fn read_sides(alloc: Global, aliases: &Aliases, text: &str) -> Result<Option<Unit>, Reason>
    ensures unit { IfOk result (UnitOf aliases.now text.now) }
    ensures sorted { IfOk result (λ unit. IfSome unit IsUnit) }
    ensures errors { unit_refusal aliases.now text.now ≡ None → IfErr result (λ e. e ≡ Reason.OutOfMemory) }
{
    if !is_unit_text(text) {
        return Err(Reason::UnitForm);
    }
    let (numerator, denominator) = sides(text);
    let numerators = measures(alloc, aliases, numerator)?;
    let denominators = match denominator {
        Some(side) => measures(alloc, aliases, side)?,
        None => Sequence::new(Vec::new(alloc)),
    };
    if is_pure_alone(numerators.as_slice(), denominators.as_slice()) {
        return Ok(None);
    }
    let unit = Unit::new(alloc, numerators, denominators)?;
    unit.known();
    Ok(Some(unit))
}

fn measures(alloc: Global, aliases: &Aliases, side: &str) -> Result<Sequence<Name>, Reason>
    requires pieces { list_all is_piece (slice_split is_star side.now) ≡ true }
    ensures names { IfOk result (NamesEach aliases.now (slice_split is_star side.now)) }
    ensures sorted { IfOk result (IsSorted name_cmp) }
    ensures measures { IfOk result (All IsMeasure) }
    ensures some { IfOk result (λ names. names ≢ []) }
    ensures errors { All (λ p. name_refusal aliases.now p ≡ None) (slice_split is_star side.now) →
        IfErr result (λ e. e ≡ Reason.OutOfMemory) }
{
    aliases.known();
    let mut names = names_of(alloc, aliases, side)?;
    sort(&mut names)?;
    Ok(Sequence::new(names))
}

// URIs may be long. If all measures share one, the second sort compares adjacent names only.
fn sort(names: &mut Vec<Name>) -> Result<(), AllocError>
    ensures permutation { OnOk result (IsPermutation names.old.items names.new.items) }
    ensures sorted { OnOk result (IsSorted name_cmp names.new.items) }
{
    names.sort_unstable_by(|name, next| likely_name_order(name, next, &[]));
    names.sort()?;
    Ok(())
}

fn names_of(alloc: Global, aliases: &Aliases, side: &str) -> Result<Vec<Name>, Reason>
    ensures names { IfOk result (λ names. AllZip (Expands aliases.now) (slice_split is_star side.now) names.items) }
    ensures errors { All (λ p. name_refusal aliases.now p ≡ None) (slice_split is_star side.now) →
        IfErr result (λ e. e ≡ Reason.OutOfMemory) }
{
    let mut names = Vec::new(alloc);
    for piece in side.split('*') {
        let name = aliases.expand(piece)?;
        names.push(name)?;
    }
    Ok(names)
}

fn is_pure_alone(numerators: &[Name], denominators: &[Name]) -> bool
    ensures { IsTrue result ↔ ((numerators.now ≡ pure_name ∷ []) × (denominators.now ≡ [])) }
{
    if numerators.len() != 1 || !denominators.is_empty() {
        return false;
    }
    is_pure(&numerators[0])
}

fn is_pure(name: &Name) -> bool
    ensures { IsTrue result ↔ (name.now ≡ pure_name) }
{
    name.uri() == "http://www.xbrl.org/2003/instance" && name.local() == "pure"
}

fn sides(text: &str) -> (&str, Option<&str>)
    ensures numerators { slice_split is_star result.0.now ≡ numerator_pieces text.now }
    ensures denominators { MatchOption result.1 (denominator_pieces text.now ≡ []) (λ side. slice_split is_star side.now ≡ denominator_pieces text.now) }
{
    match text.split_once('/') {
        Some((numerator, denominator)) => (inner(numerator), Some(inner(denominator))),
        None => (inner(text), None),
    }
}

fn inner(side: &str) -> &str
    ensures { result.now ≡ inner side.now }
{
    match side.strip_prefix('(') {
        Some(rest) => match rest.strip_suffix(')') {
            Some(body) => body,
            None => side,
        },
        None => side,
    }
}

/// Returns why a text is refused as a unit under these aliases, or None. The form of the unit is
/// tested first (`UnitForm`). Then all measures are tested for `NameForm`, then all for
/// `UnboundPrefix`, then all for `ReservedNamespace`.
///
/// The call does not allocate.
pub fn unit_refusal(aliases: &Aliases, text: &str) -> Option<Reason>
    ensures { result ≡ unit_refusal aliases.now text.now }
{
    if !is_unit_text(text) {
        return Some(Reason::UnitForm);
    }
    if refused_piece(aliases, Reason::NameForm, text).is_some() {
        return Some(Reason::NameForm);
    }
    if refused_piece(aliases, Reason::UnboundPrefix, text).is_some() {
        return Some(Reason::UnboundPrefix);
    }
    if refused_piece(aliases, Reason::ReservedNamespace, text).is_some() {
        return Some(Reason::ReservedNamespace);
    }
    None
}

/// Returns whether a text has the form of a unit. The names in the text are not tested.
pub fn is_unit_text(text: &str) -> bool
    ensures { result ≡ is_unit_text text.now }
{
    let (numerator, denominator) = sides(text);
    match denominator {
        Some(denominator) => are_pieces(numerator) && are_pieces(denominator),
        None => are_pieces(numerator),
    }
}

fn are_pieces(side: &str) -> bool
    ensures { result ≡ list_all is_piece (slice_split is_star side.now) }
{
    side.split('*').all(|piece| is_piece(piece))
}

fn is_piece(piece: &str) -> bool
    ensures { result ≡ is_piece piece.now }
{
    !piece.is_empty() && !has_mark(piece.as_bytes())
}

fn has_mark(text: &[u8]) -> bool
    ensures { result ≡ list_any is_mark text.now }
{
    text.iter()
        .any(|c| *c == b'(' || *c == b')' || *c == b'*' || *c == b'/')
}

/// Returns the first measure in a unit's text that is refused as a name for this reason, or None.
pub fn refused_piece<'t>(aliases: &Aliases, reason: Reason, text: &'t str) -> Option<&'t str>
    ensures any { is_some result ≡ some_piece (λ p. refuses reason aliases.now (a_name p)) text.now }
    ensures first { let all = numerator_pieces text.now ++ denominator_pieces text.now in
        option_map (λ p. p.now) result ≡ find (λ p. refuses reason aliases.now (a_name p)) all }
{
    let (numerator, denominator) = sides(text);
    if let Some(piece) = refused_on(aliases, reason, numerator) {
        return Some(piece);
    }
    match denominator {
        Some(side) => refused_on(aliases, reason, side),
        None => None,
    }
}

fn refused_on<'t>(aliases: &Aliases, reason: Reason, side: &'t str) -> Option<&'t str>
    ensures { let all = slice_split is_star side.now in
        option_map (λ p. p.now) result ≡ find (λ p. refuses reason aliases.now (a_name p)) all }
{
    side.split('*')
        .find(|piece| refuses(aliases, reason, piece))
}

fn refuses(aliases: &Aliases, reason: Reason, piece: &str) -> bool
    ensures { result ≡ refuses reason aliases.now (a_name piece.now) }
{
    aliases.name_refusal(piece) == Some(reason)
}

/// Returns the text of a unit (xBRL-JSON 1.0) under these aliases. The measures of each side are in
/// the order of names. Reading the text under these aliases returns the unit. `can_write_unit`
/// tests the precondition.
///
/// Errors: out of memory.
pub fn write_unit(alloc: Global, aliases: &Aliases, unit: &Unit) -> Result<Text, AllocError>
    requires { IsTrue (can_write aliases.now unit.now) }
    ensures text { IfOk result (λ text. text ≡ unit_text (measure_text aliases.now) unit.now) }
    ensures reads_back { IfOk result (λ text. DenotesUnit aliases.now text unit.now) }
{
    aliases.known();
    unit.known();
    let mut text = String::new(alloc);
    spell_unit(&mut text, aliases, unit)?;
    Text::from_string(alloc, text)
}

/// Returns whether each measure's URI has a prefix, and the first prefix that was bound to that URI
/// contains none of `*`, `/`, `(` and `)`.
pub fn can_write_unit(aliases: &Aliases, unit: &Unit) -> bool
    ensures { result ≡ can_write aliases.now unit.now }
{
    can_write_each(aliases, unit.numerators()) && can_write_each(aliases, unit.denominators())
}

fn can_write_each(aliases: &Aliases, names: &[Name]) -> bool
    ensures { result ≡ list_all (is_writable aliases.now) names.now }
{
    names.iter().all(|name| is_writable(aliases, name))
}

fn is_writable(aliases: &Aliases, name: &Name) -> bool
    ensures { result ≡ is_writable aliases.now name.now }
{
    match aliases.prefix_of(name.uri()) {
        Some(prefix) => !has_mark(prefix.as_bytes()),
        None => false,
    }
}
