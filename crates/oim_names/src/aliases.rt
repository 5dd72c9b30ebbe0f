ghost use Rattle.std.specs.Prelude.{◌≡◌, ◌≢◌, ◌↔◌, ◌<◌, [], ◌++◌, ◌∷◌, ◌⊎◌, length, IsTrue, IfOk, IfErr, IfSome, OnOk, OnErr};
ghost use Rattle.std.specs.Option.{option_copied};
ghost use Rattle.std.specs.Result.{result_err};
ghost use Rattle.std.specs.List.{list_all};
ghost use Rattle.oim_names.specs.QName.{is_name_byte, is_part, prefix_part, local_part};
ghost use Rattle.oim_names.specs.Bindings.{AreBindings, uri_at, uri_of, prefix_of, bound, is_refused_binding};
ghost use Rattle.oim_names.specs.code.Indexed.{IsBound};
ghost use Rattle.oim_names.specs.Expansion.{Expands, ExpandsEntity, entity_refusal, name_refusal, prefix_refusal, reserved_uri};

use crate::copied::Copied;
use crate::name::{Name, RESERVED_URI, split_name};
use crate::position_cache::PositionCache;
use crate::reason::Reason;
use crate::text::Text;
use std::alloc::{AllocError, Global};
use std::collections::BTreeMap;
use std::marker::Model;

/// Prefixes and the URIs that they are bound to. Contracts see the bindings in the order in which
/// they were added. Adding n bindings takes about n log n steps. Finding the URI of a prefix among
/// n bindings takes about log n steps, or fewer if the cache has the prefix's index.
#[derive(Debug)]
pub struct Aliases {
    bindings: Vec<Binding>,
    uris: BTreeMap<String, Text>,
    cache: PositionCache,
}

// By hand, so that a drop is one call, which is faster to prove than a derived one.
impl Drop for Aliases {
    fn drop(self) {
        let Aliases {
            bindings: _,
            uris: _,
            cache: _,
        } = self;
    }
}

impl Model for Aliases {
    ghost use Rattle.std.specs.Prelude.{List};
    ghost use Rattle.oim_names.specs.Bindings.{Binding as Bound};
    ghost use Rattle.oim_names.specs.code.Indexed.{AreIndexed};

    ghost Value = { List Bound };

    ghost view = { λ a. a.bindings.items };

    ghost invariant = { λ a. AreIndexed a.bindings.items a.uris };
}

impl Aliases {
    /// Returns aliases without bindings. Later calls allocate from `alloc`.
    pub fn new(alloc: Global) -> Aliases
        ensures { result ≡ [] }
    {
        Aliases {
            bindings: Vec::new(alloc),
            uris: BTreeMap::new(alloc),
            cache: PositionCache::new(),
        }
    }

    /// Returns whether `other` has the same bindings in the same order.
    pub fn same_as(&self, other: &Aliases) -> bool
        ensures { IsTrue result ↔ (self.now ≡ other.now) }
    {
        self.bindings.as_slice() == other.bindings.as_slice()
    }

    /// Binds the prefix to the URI. A repeated binding or an error changes nothing.
    ///
    /// Errors: `Namespace` if the prefix is empty or contains white space or a colon, if the URI is
    /// empty, or if the prefix is bound to another URI (XML Namespaces 1.0, section 3; the last
    /// rule is our own); `OutOfMemory`.
    pub fn add(&mut self, prefix: &str, uri: &str) -> Result<(), Reason>
        ensures ok { OnOk result (self.new ≡ bound self.old prefix.now uri.now) }
        ensures refused { (result ≡ Err Reason.Namespace) ↔ IsTrue (is_refused_binding self.old prefix.now uri.now) }
        ensures errors { IfErr result (λ e. (e ≡ Reason.Namespace) ⊎ (e ≡ Reason.OutOfMemory)) }
        ensures err { OnErr result (self.new ≡ self.old) }
    {
        if !is_part(prefix.as_bytes()) || uri.is_empty() {
            return Err(Reason::Namespace);
        }
        match self.uri(prefix) {
            Some(known) if known == uri => Ok(()),
            Some(_) => Err(Reason::Namespace),
            None => self.append(prefix, uri),
        }
    }

    fn append(&mut self, prefix: &str, uri: &str) -> Result<(), Reason>
        requires prefix { IsTrue (is_part prefix.now) }
        requires uri { uri.now ≢ [] }
        requires free { uri_of self.old prefix.now ≡ None }
        ensures ok { OnOk result (self.new ≡ self.old ++ (record { prefix = prefix.now; uri = uri.now }) ∷ []) }
        ensures errors { IfErr result (λ e. e ≡ Reason.OutOfMemory) }
        ensures err { OnErr result (self.new ≡ self.old) }
    {
        let alloc = *self.bindings.allocator();
        let binding = Binding::new(alloc, prefix, uri)?;
        self.bindings.reserve(1)?;
        insert_uri(alloc, &mut self.uris, prefix, binding.uri_text())?;
        let index = self.bindings.len();
        self.bindings.push_reserved(binding);
        self.cache.set(prefix, index);
        Ok(())
    }

    /// Returns the URI that the prefix is bound to, or None.
    pub fn uri(&self, prefix: &str) -> Option<&str>
        ensures found { option_copied result ≡ uri_of self.now prefix.now }
        ensures filled { IfSome result (λ uri. uri.now ≢ []) }
    {
        self.uri_text(prefix).map(|uri| uri.as_str())
    }

    /// Returns the URI that the prefix is bound to, as a `Text` that names can share. If the cache
    /// has the index of the prefix, the map is not searched.
    fn uri_text(&self, prefix: &str) -> Option<&Text>
        ensures found { option_copied result ≡ uri_of self.now prefix.now }
        ensures filled { IfSome result (λ uri. uri.now ≢ []) }
    {
        match self.index_of(prefix) {
            Some(index) => Some(self.bindings[index].uri_text()),
            None => self.uris.get(prefix),
        }
    }

    /// Returns the index of the binding of the prefix, if the cache has it. Names whose prefixes
    /// have one index have one URI, which need not be compared.
    pub fn index_of(&self, prefix: &str) -> Option<usize>
        ensures within { IfSome result (λ index. index < length self.now) }
        ensures uri { IfSome result (λ index. uri_at self.now index ≡ uri_of self.now prefix.now) }
    {
        let index = self.cache.index_of(prefix);
        match self.bindings.get(index) {
            Some(known) if known.prefix() == prefix => Some(index),
            _ => None,
        }
    }

    /// Does nothing. The contract states that each prefix is well-formed and bound once, and that
    /// no URI is empty.
    pub fn known(&self)
        ensures { AreBindings self.now }
    {
        let _bindings = &self.bindings;
    }

    /// Returns the prefix that was bound to the URI first, or None.
    pub fn prefix_of(&self, uri: &str) -> Option<&str>
        ensures { option_copied result ≡ prefix_of self.now uri.now }
    {
        self.bindings
            .iter()
            .find(|binding| binding.uri_text().as_str() == uri)
            .map(|binding| binding.prefix())
    }

    /// Expands a prefixed name: a bound prefix, a colon and a local part (XML Namespaces 1.0,
    /// section 4).
    ///
    /// The name shares the URI of its prefix.
    ///
    /// Errors: the reason that `name_refusal` returns; `OutOfMemory`.
    pub fn expand(&self, text: &str) -> Result<Name, Reason>
        ensures ok { IfOk result (Expands self.now text.now) }
        ensures uri { IfOk result (λ name. name.uri ≢ []) }
        ensures allowed { IfOk result (λ name. name.uri ≢ reserved_uri) }
        ensures local { IfOk result (λ name. IsTrue (is_part name.local_part)) }
        ensures errors { IfErr result
            (λ r. (r ≡ Reason.OutOfMemory) ⊎ (name_refusal self.now text.now ≡ Some r)) }
    {
        let (uri, local) = self.name_parts(text)?;
        Ok(named(*self.bindings.allocator(), uri, local)?)
    }

    /// Returns the URI and the local part of a prefixed name.
    ///
    /// The call does not allocate.
    ///
    /// Errors: the reason that `name_refusal` returns.
    pub fn resolve<'a>(&'a self, text: &'a str) -> Result<(&'a str, &'a str), Reason>
        ensures ok { IfOk result (λ parts. Expands self.now text.now
            (record { uri = parts.0.now; local_part = parts.1.now })) }
        ensures uri { IfOk result (λ parts. parts.0.now ≢ []) }
        ensures refused { result_err result ≡ name_refusal self.now text.now }
    {
        let (uri, local) = self.name_parts(text)?;
        Ok((uri.as_str(), local))
    }

    /// Returns why `expand` refuses the text under these bindings, or None. The order of the tests
    /// is `NameForm`, `UnboundPrefix`, `ReservedNamespace`.
    ///
    /// The call does not allocate.
    pub fn name_refusal(&self, text: &str) -> Option<Reason>
        ensures { result ≡ name_refusal self.now text.now }
    {
        self.name_parts(text).err()
    }

    fn name_parts<'a>(&'a self, text: &'a str) -> Result<(&'a Text, &'a str), Reason>
        ensures ok { IfOk result (λ parts. Expands self.now text.now
            (record { uri = parts.0.now; local_part = parts.1.now })) }
        ensures uri { IfOk result (λ parts. parts.0.now ≢ []) }
        ensures refused { result_err result ≡ name_refusal self.now text.now }
    {
        let (prefix, local) = split_name(text);
        if !is_part(prefix.as_bytes()) || !is_part(local.as_bytes()) {
            return Err(Reason::NameForm);
        }
        Ok((self.naming_uri(prefix)?, local))
    }

    /// Expands an entity: a prefix bound to the scheme's URI, a colon and an identifier, which may
    /// be any non-empty text (xBRL-JSON 1.0, section 3.1.4).
    ///
    /// The entity shares the URI of its prefix.
    ///
    /// Errors: the reason that `entity_refusal` returns; `OutOfMemory`.
    pub fn expand_entity(&self, text: &str) -> Result<Name, Reason>
        ensures ok { IfOk result (ExpandsEntity self.now text.now) }
        ensures uri { IfOk result (λ entity. entity.uri ≢ []) }
        ensures allowed { IfOk result (λ entity. entity.uri ≢ reserved_uri) }
        ensures identifier { IfOk result (λ entity. entity.local_part ≢ []) }
        ensures errors { IfErr result
            (λ r. (r ≡ Reason.OutOfMemory) ⊎ (entity_refusal self.now text.now ≡ Some r)) }
    {
        let (uri, identifier) = self.entity_parts(text)?;
        Ok(named(*self.bindings.allocator(), uri, identifier)?)
    }

    /// Returns why `expand_entity` refuses the text under these bindings, or None. The order of the
    /// tests is `NameForm`, `UnboundPrefix`, `ReservedNamespace`.
    ///
    /// The call does not allocate.
    pub fn entity_refusal(&self, text: &str) -> Option<Reason>
        ensures { result ≡ entity_refusal self.now text.now }
    {
        self.entity_parts(text).err()
    }

    fn entity_parts<'a>(&'a self, text: &'a str) -> Result<(&'a Text, &'a str), Reason>
        ensures ok { IfOk result (λ parts. ExpandsEntity self.now text.now
            (record { uri = parts.0.now; local_part = parts.1.now })) }
        ensures uri { IfOk result (λ parts. parts.0.now ≢ []) }
        ensures refused { result_err result ≡ entity_refusal self.now text.now }
    {
        let (prefix, identifier) = split_name(text);
        if !is_part(prefix.as_bytes()) || identifier.is_empty() {
            return Err(Reason::NameForm);
        }
        Ok((self.naming_uri(prefix)?, identifier))
    }

    fn naming_uri(&self, prefix: &str) -> Result<&Text, Reason>
        ensures uri { IfOk result (λ uri. uri_of self.now prefix.now ≡ Some uri.now) }
        ensures filled { IfOk result (λ uri. uri.now ≢ []) }
        ensures allowed { IfOk result (λ uri. uri.now ≢ reserved_uri) }
        ensures refused { result_err result ≡ prefix_refusal (uri_of self.now prefix.now) }
    {
        match self.uri_text(prefix) {
            None => Err(Reason::UnboundPrefix),
            Some(uri) if uri.as_str() == RESERVED_URI => Err(Reason::ReservedNamespace),
            Some(uri) => Ok(uri),
        }
    }

    /// Returns the prefix, a colon and the local part of the name. The prefix need not be bound. If
    /// `expand` or `expand_entity` returned the name and the prefix is bound to the name's URI,
    /// that function reads the text as this name.
    ///
    /// Errors: out of memory.
    pub fn spell(&self, prefix: &str, name: &Name) -> Result<Text, AllocError>
        ensures text { IfOk result (λ text. text ≡ prefix.now ++ 58 ∷ name.now.local_part) }
        ensures back { uri_of self.now prefix.now ≡ Some name.now.uri →
            name.now.uri ≢ reserved_uri →
            IsTrue (is_part name.now.local_part) →
            IfOk result (λ text. Expands self.now text name.now) }
        ensures back_entity { uri_of self.now prefix.now ≡ Some name.now.uri →
            name.now.uri ≢ reserved_uri →
            name.now.local_part ≢ [] →
            IfOk result (λ text. ExpandsEntity self.now text name.now) }
    {
        joined(*self.bindings.allocator(), prefix, name.local())
    }
}

// On an error, the map is as it was.
fn insert_uri(
    alloc: Global,
    uris: &mut BTreeMap<String, Text>,
    prefix: &str,
    uri: &Text,
) -> Result<(), AllocError>
    ensures ok { OnOk result (IsBound uris.old prefix.now uri.now uris.new) }
    ensures err { OnErr result (uris.new.entries ≡ uris.old.entries) }
{
    let key = String::from_str(alloc, prefix)?;
    let known = uri.copied(alloc)?;
    uris.insert(key, known)?;
    Ok(())
}

fn joined(alloc: Global, prefix: &str, local: &str) -> Result<Text, AllocError>
    ensures { IfOk result (λ text. text ≡ prefix.now ++ 58 ∷ local.now) }
{
    let mut text = String::from_str(alloc, prefix)?;
    text.push_str(":")?;
    text.push_str(local)?;
    Text::from_string(alloc, text)
}

fn named(alloc: Global, uri: &Text, local: &str) -> Result<Name, AllocError>
    ensures { IfOk result (λ name. name ≡ record { uri = uri.now; local_part = local.now }) }
{
    Ok(Name::new(uri.copied(alloc)?, Text::new(alloc, local)?))
}

#[derive(Debug, Drop, PartialEq)]
struct Binding {
    prefix: Text,
    uri: Text,
}

impl Model for Binding {
    ghost use Rattle.oim_names.specs.Bindings.{Binding as Bound};

    ghost Value = { Bound };

    ghost view = { λ b. record { prefix = b.prefix; uri = b.uri } };

    ghost inverse = { λ b. record { prefix = b.prefix; uri = b.uri } };
}

impl Binding {
    fn new(alloc: Global, prefix: &str, uri: &str) -> Result<Binding, AllocError>
        ensures prefix { IfOk result (λ b. b.prefix ≡ prefix.now) }
        ensures uri { IfOk result (λ b. b.uri ≡ uri.now) }
    {
        Ok(Binding {
            prefix: Text::new(alloc, prefix)?,
            uri: Text::new(alloc, uri)?,
        })
    }

    fn prefix(&self) -> &str
        ensures { result.now ≡ self.now.prefix }
    {
        self.prefix.as_str()
    }

    fn uri_text(&self) -> &Text
        ensures { result.now ≡ self.now.uri }
    {
        &self.uri
    }
}

fn is_name_byte(c: u8) -> bool
    ensures { result ≡ is_name_byte c }
{
    c > b':' || !matches!(c, b'\t' | b'\n' | b'\r' | b' ' | b':')
}

fn are_name_bytes(text: &[u8]) -> bool
    ensures { result ≡ list_all is_name_byte text.now }
{
    text.iter().all(|c| is_name_byte(*c))
}

fn is_part(text: &[u8]) -> bool
    ensures { result ≡ is_part text.now }
{
    are_name_bytes(text) && !text.is_empty()
}
