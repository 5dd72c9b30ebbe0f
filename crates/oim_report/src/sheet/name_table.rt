ghost use Rattle.std.specs.Prelude.{◌≡◌, ◌++◌, ℕ, List, [], false, not, IfOk, IfSome, IsTrue, if◌then◌else◌, OnOk, OnErr, Some, None, bytes_eq, option_map, string_bytes};
ghost use Rattle.std.specs.BTreeMap.{get_by_text};
ghost use Rattle.std.specs.FinMap as map;
ghost use Rattle.std.specs.List.{filter};
ghost use Rattle.std.specs.Option.{option_map_or};
ghost use Rattle.serde_json.specs.View.{view, members_view};
ghost use Rattle.oim_names.specs.Bindings.{Binding};
ghost use Rattle.oim_report.specs.Json.{entries as entries_of, members};
ghost use Rattle.oim_report.specs.Names.{names_refusal};
ghost use Rattle.oim_report.specs.Sheet.{has_bad_kind, key_names, kind_in, listed};
ghost use Rattle.oim_report.specs.Shown.{entry, kindless, named_kind, of_other_kind, seen};
ghost use Rattle.oim_report.specs.code.Groups.{IsGroup};
ghost use Rattle.oim_report.specs.code.NameLists.{AreLists, SharesUri, has_uri, list_at};
ghost use Rattle.oim_report.specs.code.Ranks.{IsSpan};

use crate::json_values::json_member::JsonMember;
use crate::part::Part;
use crate::sheet::kind::Kind;
use crate::sheet::ranked_names::RankedNames;
use crate::sheet::same_names::name_of;
use oim_names::{Aliases, Name, split_name};
use serde_json::{Map, Value};
use std::alloc::{AllocError, Global};
use std::collections::BTreeMap;
use std::marker::Model;
use std::mem::replace;

/// The names of one namespace and their kinds, by local part.
pub(crate) type Group<K> = BTreeMap<String, (Name, K)>;

/// Names and their kinds, in one group per namespace.
#[derive(Debug, Drop)]
pub(crate) struct NameTable<K: Kind> {
    groups: BTreeMap<String, Group<K>>,
}

impl<K: Kind> Model for NameTable<K> {
    ghost use Rattle.std.specs.FinMap as map;
    ghost use Rattle.std.specs.FinMap.{FinMap};
    ghost use Rattle.oim_value.specs.ValueOrder.{name_cmp};
    ghost use Rattle.oim_report.specs.code.Groups.{AreGroups, grouped_entries};
    ghost use Rattle.oim_report.specs.code.SheetCode.{name_table_code};

    ghost Value = { FinMap name_cmp K };

    ghost coded = { name_table_code K.code };

    ghost view = { λ a. map.from_entries (grouped_entries a.groups.entries) };

    ghost invariant = { λ a. AreGroups a.groups };
}

impl<K: Kind> NameTable<K> {
    pub(crate) fn new(alloc: Global) -> Self
        ensures { result ≡ map.empty }
    {
        NameTable {
            groups: BTreeMap::new(alloc),
        }
    }

    fn take(&mut self, alloc: Global, uri: &str) -> Group<K>
        ensures names { IsGroup uri.now result }
        ensures kinds { (l : List ℕ) → option_map (λ e. e.1) (get_by_text result l)
            ≡ map.get self.old (record { uri = uri.now; local_part = l }) }
        ensures others { (u l : List ℕ) → map.get self.new (record { uri = u; local_part = l })
            ≡ (if bytes_eq uri.now u then None else map.get self.old (record { uri = u; local_part = l })) }
    {
        self.groups.remove(uri).unwrap_or(BTreeMap::new(alloc))
    }

    fn set(&mut self, uri: String, group: Group<K>) -> Result<(), AllocError>
        requires { IsGroup (string_bytes uri) group }
        ensures ok { OnOk result ((u l : List ℕ) → map.get self.new (record { uri = u; local_part = l })
            ≡ (if bytes_eq (string_bytes uri) u then option_map (λ e. e.1) (get_by_text group l)
            else map.get self.old (record { uri = u; local_part = l }))) }
        ensures err { OnErr result (self.new ≡ self.old) }
    {
        self.groups.insert(uri, group)?;
        Ok(())
    }

    /// Adds the name with its kind, unless the name is known. Returns whether it was known.
    pub(crate) fn add(&mut self, alloc: Global, name: Name, kind: K) -> Result<bool, AllocError>
        ensures known { IfOk result (λ known. known ≡ map.contains_key self.old name) }
        ensures names { OnOk result (self.new
            ≡ (if map.contains_key self.old name then self.old else map.insert self.old name kind)) }
    {
        let uri = String::from_str(alloc, name.uri())?;
        let mut group = self.take(alloc, name.uri());
        if group.contains_key(name.local()) {
            self.set(uri, group)?;
            return Ok(true);
        }
        let local = String::from_str(alloc, name.local())?;
        group.insert(local, (name, kind))?;
        self.set(uri, group)?;
        Ok(false)
    }
}

/// Returns the names that the keys spell, each with its kind. Keys that spell no name and values that
/// name no kind are skipped. Of several keys for one name the first decides.
pub(crate) fn read_table<K: Kind>(
    alloc: Global,
    aliases: &Aliases,
    object: Option<&Map<String, Value>>,
) -> Result<RankedNames<K>, AllocError>
    ensures { let ms = members (option_map (λ m. members_view m.now.entries) object.entry) in
        IfOk result (λ l. l ≡ listed K.kind_named K.same_kind aliases.now ms) }
{
    let Some(members) = object else {
        return Ok(RankedNames::new(alloc));
    };
    let mut lists = BTreeMap::new(alloc);
    let mut run = Vec::new(alloc);
    let mut last = "";
    for (key, value) in members.iter() {
        let Some(entry) = named_kind::<K>(aliases, key.as_str(), value)? else {
            continue;
        };
        let (prefix, _local) = split_name(key.as_str());
        turn(alloc, &mut lists, &mut run, last, prefix)?;
        last = prefix;
        run.push(entry)?;
    }
    add_run(alloc, &mut lists, run)?;
    RankedNames::of_lists(alloc, lists)
}

// Keys are in byte order, so keys with the same prefix are adjacent: a run of names with one URI.
fn turn<K: Kind>(
    alloc: Global,
    lists: &mut BTreeMap<String, Vec<(Name, K)>>,
    run: &mut Vec<(Name, K)>,
    last: &str,
    prefix: &str,
) -> Result<(), AllocError>
    requires lists { AreLists lists.old }
    requires shared { (u : List ℕ) × SharesUri u run.old.items }
    ensures lists { OnOk result (AreLists lists.new) }
    ensures same { OnOk result ((u : List ℕ) → list_at lists.new u ++ filter (has_uri u) run.new.items
        ≡ list_at lists.old u ++ filter (has_uri u) run.old.items) }
    ensures run { OnOk result (run.new.items ≡ (if bytes_eq prefix.now last.now then run.old.items else [])) }
{
    if prefix == last {
        return Ok(());
    }
    add_run(alloc, lists, replace(run, Vec::new(alloc)))
}

// Adds the run to the list of its namespace.
fn add_run<K: Kind>(
    alloc: Global,
    lists: &mut BTreeMap<String, Vec<(Name, K)>>,
    mut run: Vec<(Name, K)>,
) -> Result<(), AllocError>
    requires lists { AreLists lists.old }
    requires shared { (u : List ℕ) × SharesUri u run.items }
    ensures lists { OnOk result (AreLists lists.new) }
    ensures added { OnOk result ((u : List ℕ) → list_at lists.new u ≡ list_at lists.old u ++ filter (has_uri u) run.items) }
{
    let Some(first) = run.as_slice().first() else {
        return Ok(());
    };
    let uri = String::from_str(alloc, first.0.uri())?;
    let mut list = lists.remove(uri.as_str()).unwrap_or(Vec::new(alloc));
    list.append(&mut run)?;
    lists.insert(uri, list)?;
    Ok(())
}

fn named_kind<K: Kind>(
    aliases: &Aliases,
    key: &str,
    value: &Value,
) -> Result<Option<(Name, K)>, AllocError>
    ensures { IfOk result (λ e. e ≡ named_kind K.kind_named K.same_kind aliases.now (key.now, view value.now)) }
{
    let Some(name) = name_of(aliases, key)? else {
        return Ok(None);
    };
    Ok(kind_in::<K>(value).map(|kind| (name, kind)))
}

/// Returns false if an entry is refused or repeats a name, because such an entry adds no name.
pub(crate) fn has_each<K: Kind>(names: &RankedNames<K>, object: Option<&Map<String, Value>>) -> bool
    ensures { let ms = members (option_map (λ m. members_view m.now.entries) object.entry) in
        (bs : List Binding) → names.now ≡ listed K.kind_named K.same_kind bs ms → IsTrue result →
        (names_refusal bs (key_names ms) ≡ None) × (has_bad_kind K.kind_named K.same_kind bs ms ≡ false) }
{
    match object {
        Some(members) => names.len() == members.len(),
        None => true,
    }
}

pub(crate) fn has_bad_kind<K: Kind>(
    names: &RankedNames<K>,
    aliases: &Aliases,
    object: Option<&Map<String, Value>>,
) -> bool
    requires { let ms = members (option_map (λ m. members_view m.now.entries) object) in
        names.now ≡ listed K.kind_named K.same_kind aliases.now ms }
    ensures { let ms = members (option_map (λ m. members_view m.now.entries) object.entry) in
        result ≡ has_bad_kind K.kind_named K.same_kind aliases.now ms }
{
    first_without_kind::<K>(object).is_some()
        || first_of_other_kind(names, aliases, object).is_some()
}

pub(crate) fn first_without_kind<'a, K: Kind>(
    entries: Option<&'a Map<String, Value>>,
) -> Option<Part<'a>>
    ensures { let ms = members (option_map (λ m. members_view m.now.entries) entries.entry) in
        option_map seen result ≡ option_map entry (kindless K.kind_named K.same_kind ms) }
{
    for (key, value) in entries?.iter() {
        if kind_in::<K>(value).is_none() {
            return Some(Part::Member(key.as_str(), value));
        }
    }
    None
}

/// Returns the first key whose value names another kind than `names` has for the key's name.
pub(crate) fn first_of_other_kind<'a, K: Kind>(
    names: &RankedNames<K>,
    aliases: &Aliases,
    entries: Option<&'a Map<String, Value>>,
) -> Option<&'a str>
    ensures { let ms = members (option_map (λ m. members_view m.now.entries) entries.entry) in
        option_map (λ k. k.now) result ≡ option_map (λ m. m.0) (of_other_kind K.kind_named K.same_kind aliases.now names.now (entries_of ms)) }
{
    let Some(members) = entries else {
        return None;
    };
    let mut last = None;
    for (key, value) in members.iter() {
        let Ok((uri, local)) = aliases.resolve(key.as_str()) else {
            continue;
        };
        let (prefix, _local) = split_name(key.as_str());
        let span = span_of(names, last, prefix, uri);
        last = Some((prefix, span));
        if is_other_kind(names.find_in(uri, span, local), kind_in::<K>(value)) {
            return Some(key.as_str());
        }
    }
    None
}

// Returns the span of the namespace. If the last prefix is the same, the URI is not read.
fn span_of<K: Kind>(
    names: &RankedNames<K>,
    last: Option<(&str, (usize, usize))>,
    prefix: &str,
    uri: &str,
) -> (usize, usize)
    requires { IfSome last (λ l. l.0.now ≡ prefix.now → IsSpan (map.entries names.now) uri.now l.1) }
    ensures { IsSpan (map.entries names.now) uri.now result }
{
    match last {
        Some((known, span)) if known == prefix => span,
        _ => names.span(uri),
    }
}

fn is_other_kind<K: Kind>(found: Option<(&Name, K, usize)>, kind: Option<K>) -> bool
    ensures { result ≡ option_map_or (λ k. not (option_map_or (K.same_kind k) (option_map (λ e. e.1) found.entry) false)) kind false }
{
    match (kind, found) {
        (Some(kind), Some((_name, known, _rank))) => !kind.is(known),
        (Some(_), None) => true,
        (None, _) => false,
    }
}

pub(crate) fn kind_in<K: Kind>(value: &Value) -> Option<K>
    ensures { result ≡ kind_in K.kind_named K.same_kind (view value.now) }
{
    K::named(JsonMember::of_value(value).text()?)
}
