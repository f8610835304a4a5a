//! Keys of properties (ECMA-262, section 6.1.7).
ghost use Rattle.std.specs.Prelude.{◌≡◌, ◌≤◌, [], ◌∷◌, ◌++◌, IfOk, IfSome, OnOk};
ghost use Rattle.std.specs.Cmp.{partial_equiv_from_equiv};
ghost use Rattle.host_values.specs.KeyOrder.{ascending, greatest_index, index_after, index_of, indices_of, key_of, key_of_number, key_of_text, names_of, next_index, ordered_keys, text_of_key};
ghost use Rattle.host_values.specs.Members.{is_name};
ghost use Rattle.host_values.specs.SameKeys.{hashed_key, same_key, same_key_alike, same_key_equiv};

use crate::values::HostValue;
use embed_base::SharedString;
use std::alloc::{AllocError, Global};
use std::collections::BTreeSet;
use std::hash::{Hash, Hasher};

/// The greatest index, 2^32-2 (ECMA-262, section 6.1.7, array indices).
const GREATEST_INDEX: u64 = 4_294_967_294;

/// The key of a property. A text that is the canonical decimal form of an index is that index, and no name.
#[derive(Debug, Drop)]
pub enum Key {
    /// At most 2^32-2.
    Index(u32),
    Name(SharedString),
}

/// The number that a digit writes when it follows the digits of another one, where that is an index.
fn next_index(value: u64, byte: u8) -> Option<u64>
    requires { value ≤ greatest_index }
    ensures value { result ≡ next_index value byte }
    ensures bound { IfSome result (λ next. next ≤ greatest_index) }
{
    if byte < b'0' || b'9' < byte {
        return None;
    }
    let next = value * 10 + u64::from(byte - b'0');
    if next <= GREATEST_INDEX {
        Some(next)
    } else {
        None
    }
}

/// The number that digits write, where it is an index.
fn index_of_digits(text: &[u8]) -> Option<u32>
    ensures { result ≡ index_after 0 text.now }
{
    let mut value = 0_u64;
    for byte in text {
        match next_index(value, *byte) {
            Some(next) => value = next,
            None => return None,
        }
    }
    Some(value as u32)
}

/// The index of which a text is the canonical decimal form.
fn index(text: &[u8]) -> Option<u32>
    ensures { result ≡ index_of text.now }
{
    if text.is_empty() || (text[0] == b'0' && text.len() >= 2) {
        return None;
    }
    index_of_digits(text)
}

impl Key {
    /// The key that a text spells.
    pub fn of_text(text: SharedString) -> Key
        ensures { result ≡ key_of_text text }
    {
        match index(text.as_str().as_bytes()) {
            Some(index) => Key::Index(index),
            None => Key::Name(text),
        }
    }

    /// The key of a Number: an index, or the name that its decimal form is.
    pub fn of_number(alloc: Global, number: i64) -> Result<Key, AllocError>
        ensures { IfOk result (λ key. key ≡ key_of_number number) }
    {
        if number >= 0 && number.unsigned_abs() <= GREATEST_INDEX {
            return Ok(Key::Index(number.unsigned_abs() as u32));
        }
        let text = format!(in alloc; "{number}")?;
        let text = SharedString::from_string(alloc, text)?;
        Ok(Key::Name(text))
    }

    /// The key of a value: none where it is neither a text nor a Number.
    pub fn of(alloc: Global, value: &HostValue) -> Result<Option<Key>, AllocError>
        ensures { IfOk result (λ key. key ≡ key_of value.now) }
    {
        match value {
            HostValue::Number(number) => {
                let key = Key::of_number(alloc, *number)?;
                Ok(Some(key))
            }
            HostValue::Text(text) => {
                let text = text.clone()?;
                Ok(Some(Key::of_text(text)))
            }
            _ => Ok(None),
        }
    }

    /// Whether the key is this name. An index is none.
    pub fn is_name(&self, name: &str) -> bool
        ensures { result ≡ is_name self.now name.now }
    {
        match self {
            Key::Index(_) => false,
            Key::Name(text) => text.as_str() == name,
        }
    }

    /// The text of the key, in decimal where it is an index.
    pub fn to_text(&self, alloc: Global) -> Result<SharedString, AllocError>
        ensures { IfOk result (λ text. text ≡ text_of_key self.now) }
    {
        match self {
            Key::Index(index) => {
                let text = format!(in alloc; "{index}")?;
                SharedString::from_string(alloc, text)
            }
            Key::Name(text) => text.clone(),
        }
    }
}

/// A key after others, where it is a name.
fn add_name(mut ordered: Vec<Key>, key: &Key) -> Result<Vec<Key>, AllocError>
    ensures { IfOk result (λ v. v.items ≡ ordered.items ++ names_of (key.now ∷ [])) }
{
    if let Key::Name(text) = key {
        let text = text.clone()?;
        ordered.push(Key::Name(text))?;
    }
    Ok(ordered)
}

/// The names among keys, after the keys that are given.
fn add_names(mut ordered: Vec<Key>, created: &[Key]) -> Result<Vec<Key>, AllocError>
    ensures { IfOk result (λ v. v.items ≡ ordered.items ++ names_of created.now) }
{
    for key in created {
        ordered = add_name(ordered, key)?;
    }
    Ok(ordered)
}

/// A key in its place among indices, where it is one.
fn add_index(indices: &mut BTreeSet<u32>, key: &Key) -> Result<(), AllocError>
    ensures { OnOk result (indices.new.keys ≡ ascending indices.old.keys (indices_of (key.now ∷ []))) }
{
    if let Key::Index(index) = key {
        indices.insert(*index)?;
    }
    Ok(())
}

/// The indices among keys, ascending.
fn indices(alloc: Global, created: &[Key]) -> Result<BTreeSet<u32>, AllocError>
    ensures { IfOk result (λ set. set.keys ≡ ascending [] (indices_of created.now)) }
{
    let mut indices = BTreeSet::new(alloc);
    for key in created {
        add_index(&mut indices, key)?;
    }
    Ok(indices)
}

/// Keys in the order of OrdinaryOwnPropertyKeys.
pub(crate) fn in_order(alloc: Global, created: &[Key]) -> Result<Vec<Key>, AllocError>
    ensures { IfOk result (λ v. v.items ≡ ordered_keys created.now) }
{
    let indices = indices(alloc, created)?;
    let mut ordered = Vec::new(alloc);
    for index in indices.iter() {
        ordered.push(Key::Index(*index))?;
    }
    add_names(ordered, created)
}

impl Clone for Key {
    ghost is_clone = { λ key copy. copy ≡ key };

    fn clone(&self) -> Result<Key, AllocError> {
        match self {
            Key::Index(index) => Ok(Key::Index(*index)),
            Key::Name(text) => Ok(Key::Name(text.clone()?)),
        }
    }
}

impl PartialEq for Key {
    ghost eq = { same_key };

    ghost laws = { partial_equiv_from_equiv same_key_equiv };

    fn eq(&self, other: &Key) -> bool {
        match (self, other) {
            (Key::Index(a), Key::Index(b)) => a == b,
            (Key::Name(a), Key::Name(b)) => a.as_str() == b.as_str(),
            _ => false,
        }
    }
}

impl Eq for Key {
    ghost laws = { same_key_equiv };
}

impl Hash for Key {
    ghost hash_input = { hashed_key };

    ghost respects_eq = { same_key_alike };

    fn hash<H: Hasher>(&self, state: &mut H) {
        match self {
            Key::Index(index) => index.hash(state),
            Key::Name(text) => text.as_str().hash(state),
        }
    }
}
