//! The heap of scripts: objects with their properties, and global bindings.
ghost use Rattle.std.specs.Prelude.{◌≡◌, ◌<◌, ◌≤◌, ◌↔◌, [], None, Some, IsTrue, length, replicate, slice_get, string_bytes, IfOk, OnOk, OnErr};
ghost use Rattle.std.specs.Option.{option_copied};
ghost use Rattle.std.specs.Map.{keys_of};
ghost use Rattle.host_values.specs.declared.kinds.Kind.TheVariants as kinds;
ghost use Rattle.host_values.specs.declared.values.HostValue.TheVariants as values;
ghost use Rattle.host_values.specs.Heaps.{HasDistinctKeys, IsLive, IsLiveValue, fresh_heap, is_callable, kind_at, next_object, object_at, properties_at, with_binding, with_object, with_property};
ghost use Rattle.host_values.specs.KeyOrder.{ordered_keys};
ghost use Rattle.host_values.specs.Members.{elements_of, most_elements, read_of, write_of, written};
ghost use Rattle.host_values.specs.Shown.{shown_of};

use crate::answers::{Got, Put};
use crate::keys::{Key, in_order};
use crate::kinds::{Callee, Kind};
use crate::objects::Stored;
use crate::values::{ErrorClass, HostValue, ObjId};
use crate::{members, shown};
use embed_base::OutsideKind;
use indexmap::IndexMap;
use std::alloc::{AllocError, Global};
use std::marker::Model;

/// Objects and global bindings. It can't be cloned, and nothing in it is collected.
#[derive(Drop)]
pub struct Heap {
    objects: Vec<Stored>,
    bindings: Vec<Option<HostValue>>,
}

impl Model for Heap {
    ghost use Rattle.host_values.specs.Objects.{HostHeap};

    ghost Value = { HostHeap };

    ghost view = { λ h. record { objects = h.objects.items; bindings = h.bindings.items } };
}

/// So many unset bindings.
fn unset(alloc: Global, globals: u32) -> Result<Vec<Option<HostValue>>, AllocError>
    ensures { IfOk result (λ v. v.items ≡ replicate globals None) }
{
    let mut bindings = Vec::new(alloc);
    for place in 0..globals {
        bindings.push(None)?;
    }
    Ok(bindings)
}

/// Pairs as properties in this order.
fn collect(
    alloc: Global,
    pairs: Vec<(Key, HostValue)>,
) -> Result<IndexMap<Key, HostValue>, AllocError>
    requires distinct { HasDistinctKeys pairs.items }
    ensures { IfOk result (λ m. m.entries ≡ pairs.items) }
{
    let mut properties = IndexMap::new(alloc);
    properties.extend(pairs)?;
    Ok(properties)
}

/// Values as the elements of an Array.
fn elements(alloc: Global, items: Vec<HostValue>) -> Result<Vec<(Key, HostValue)>, AllocError>
    requires { length items.items ≤ most_elements }
    ensures { IfOk result (λ v. v.items ≡ elements_of items.items) }
{
    let mut elements = Vec::new(alloc);
    for value in items {
        elements.push((Key::Index(elements.len() as u32), value))?;
    }
    Ok(elements)
}

impl Heap {
    /// A heap whose only object, number 0, is the function `print`, with so many unset global bindings.
    pub fn new(alloc: Global, globals: u32) -> Result<Heap, AllocError>
        ensures { IfOk result (λ h. h ≡ fresh_heap globals) }
    {
        let bindings = unset(alloc, globals)?;
        let print = Stored::new(Kind::Function(Callee::Print), IndexMap::new(alloc));
        let mut objects = Vec::new(alloc);
        objects.push(print)?;
        Ok(Heap { objects, bindings })
    }

    // Adds an object and gives its number.
    fn add_stored(&mut self, object: Stored) -> Result<ObjId, AllocError>
        ensures fresh { IfOk result (λ o. o ≡ next_object self.old) }
        ensures ok { OnOk result (self.new ≡ with_object self.old object.kind object.properties) }
        ensures err { OnErr result (self.new ≡ self.old) }
    {
        let number = self.objects.len() as u64;
        self.objects.push(object)?;
        Ok(ObjId(number))
    }

    /// Makes an object of this kind without properties, and gives its number, which is the next one.
    pub fn add(&mut self, alloc: Global, kind: Kind) -> Result<ObjId, AllocError>
        ensures fresh { IfOk result (λ o. o ≡ next_object self.old) }
        ensures ok { OnOk result (self.new ≡ with_object self.old kind []) }
        ensures err { OnErr result (self.new ≡ self.old) }
    {
        self.add_stored(Stored::new(kind, IndexMap::new(alloc)))
    }

    /// Makes an exports object with these properties in this order. No two keys are the same.
    pub fn add_exports(
        &mut self,
        alloc: Global,
        pairs: Vec<(Key, HostValue)>,
    ) -> Result<ObjId, AllocError>
        requires distinct { HasDistinctKeys pairs.items }
        ensures fresh { IfOk result (λ o. o ≡ next_object self.old) }
        ensures ok { OnOk result (self.new ≡ with_object self.old kinds.Exports pairs.items) }
        ensures err { OnErr result (self.new ≡ self.old) }
    {
        let properties = collect(alloc, pairs)?;
        self.add_stored(Stored::new(Kind::Exports, properties))
    }

    /// Makes an Array of these values in this order, at most 1,000,000.
    pub fn add_array(&mut self, alloc: Global, items: Vec<HostValue>) -> Result<ObjId, AllocError>
        requires { length items.items ≤ most_elements }
        ensures fresh { IfOk result (λ o. o ≡ next_object self.old) }
        ensures ok { OnOk result (self.new ≡ with_object self.old kinds.Array (elements_of items.items)) }
        ensures err { OnErr result (self.new ≡ self.old) }
    {
        let elements = elements(alloc, items)?;
        let properties = collect(alloc, elements)?;
        self.add_stored(Stored::new(Kind::Array, properties))
    }

    // The object of a number, lent.
    fn object(&self, o: ObjId) -> &Stored
        requires { IsLive self.now o }
        ensures { object_at self.now o ≡ Some result.now }
    {
        &self.objects[o.0 as usize]
    }

    /// Whether a number is that of an object.
    pub fn has_object(&self, o: ObjId) -> bool
        ensures { IsTrue result ↔ IsLive self.now o }
    {
        o.0 < self.objects.len() as u64
    }

    /// Whether a value is no object, or one of the heap.
    pub fn has_value(&self, value: &HostValue) -> bool
        ensures { IsTrue result ↔ IsLiveValue self.now value.now }
    {
        match value {
            HostValue::Object(o) => self.has_object(*o),
            _ => true,
        }
    }

    /// The number that the next object gets.
    pub fn next(&self) -> ObjId
        ensures { result ≡ next_object self.now }
    {
        ObjId(self.objects.len() as u64)
    }

    /// Whether a value is a function (ECMA-262, section 7.2.3, IsCallable). A number of no object is none.
    pub fn is_callable(&self, value: &HostValue) -> bool
        ensures { result ≡ is_callable self.now value.now }
    {
        match value {
            HostValue::Object(o) => match self.objects.get(o.0 as usize) {
                Some(object) => matches!(object.kind(), Kind::Function(_)),
                None => false,
            },
            _ => false,
        }
    }

    /// What an object is.
    pub fn kind(&self, o: ObjId) -> &Kind
        requires { IsLive self.now o }
        ensures { kind_at self.now o ≡ Some result.now }
    {
        self.object(o).kind()
    }

    /// An object's properties in order of creation, lent.
    pub fn properties(&self, o: ObjId) -> &IndexMap<Key, HostValue>
        requires { IsLive self.now o }
        ensures { result.now.entries ≡ properties_at self.now o }
    {
        self.object(o).properties()
    }

    /// What reading a member of a value gives (ECMA-262, section 7.3.2, Get, and 7.3.3, GetV, in the profile).
    pub fn get(&self, alloc: Global, value: &HostValue, key: &Key) -> Result<Got, AllocError>
        requires { IsLiveValue self.now value.now }
        ensures { IfOk result (λ got. got ≡ read_of self.now value.now key.now) }
    {
        match value {
            HostValue::Undefined | HostValue::Null => Ok(Got::Throw(ErrorClass::TypeError)),
            HostValue::Bool(_) | HostValue::Number(_) | HostValue::BigInt(_) => {
                Ok(Got::Outside(OutsideKind::PrimitiveMember))
            }
            HostValue::Text(text) => Ok(members::of_text(text, key)),
            HostValue::Object(o) => members::of_object(alloc, self.object(*o), key),
        }
    }

    /// Writes a member of a value (ECMA-262, section 7.3.4, Set, in the profile). Only `Put::Done` changes the heap.
    pub fn set(
        &mut self,
        alloc: Global,
        target: &HostValue,
        key: &Key,
        value: HostValue,
    ) -> Result<Put, AllocError>
        requires { IsLiveValue self.old target.now }
        ensures answer { IfOk result (λ put. put ≡ write_of self.old target.now key.now) }
        ensures ok { OnOk result (self.new ≡ written self.old target.now key.now value) }
        ensures err { OnErr result (self.new ≡ self.old) }
    {
        match target {
            HostValue::Undefined | HostValue::Null => Ok(Put::Throw(ErrorClass::TypeError)),
            HostValue::Object(o) => self.set_object(*o, key, value),
            _ => Ok(Put::Outside(OutsideKind::PrimitiveMember)),
        }
    }

    // Writes a member of an object.
    fn set_object(&mut self, o: ObjId, key: &Key, value: HostValue) -> Result<Put, AllocError>
        requires { IsLive self.old o }
        ensures answer { IfOk result (λ put. put ≡ write_of self.old (values.Object o) key.now) }
        ensures ok { OnOk result (self.new ≡ written self.old (values.Object o) key.now value) }
        ensures err { OnErr result (self.new ≡ self.old) }
    {
        let answer = members::write_to(self.object(o), key);
        if let Put::Done = answer {
            let key = key.clone()?;
            self.write(o, key, value)?;
        }
        Ok(answer)
    }

    // Gives a property of an object a value.
    fn write(&mut self, o: ObjId, key: Key, value: HostValue) -> Result<(), AllocError>
        requires { IsLive self.old o }
        ensures ok { OnOk result (self.new ≡ with_property self.old o key value) }
        ensures err { OnErr result (self.new ≡ self.old) }
    {
        self.objects[o.0 as usize].write(key, value)
    }

    /// The keys of an object's properties: the indices ascending, then the names in order of creation (ECMA-262, section
    /// 10.1.11.1).
    pub fn keys(&self, alloc: Global, o: ObjId) -> Result<Vec<Key>, AllocError>
        requires { IsLive self.now o }
        ensures { IfOk result (λ v. v.items ≡ ordered_keys (keys_of (properties_at self.now o))) }
    {
        in_order(alloc, self.properties(o).keys().as_slice())
    }

    /// How many global bindings there are.
    pub fn bindings(&self) -> usize
        ensures { result ≡ length self.now.bindings }
    {
        self.bindings.len()
    }

    /// The value of a global binding; none where it is unset.
    pub fn binding(&self, n: u64) -> Option<&HostValue>
        requires { n < length self.now.bindings }
        ensures { slice_get self.now.bindings n ≡ Some (option_copied result) }
    {
        self.bindings[n as usize].as_ref()
    }

    /// Sets a global binding.
    pub fn bind(&mut self, n: u64, value: HostValue)
        requires { n < length self.old.bindings }
        ensures { self.new ≡ with_binding self.old n value }
    {
        self.bindings[n as usize] = Some(value);
    }

    /// The form in which `print` shows a value.
    pub fn show(&self, alloc: Global, value: &HostValue) -> Result<String, AllocError>
        requires { IsLiveValue self.now value.now }
        ensures { IfOk result (λ text. string_bytes text ≡ shown_of self.now value.now) }
    {
        match value {
            HostValue::Object(o) => shown::of_kind(alloc, self.kind(*o)),
            HostValue::Undefined => String::from_str(alloc, "undefined"),
            HostValue::Null => String::from_str(alloc, "null"),
            HostValue::Bool(truth) => String::from_str(
                alloc,
                if *truth { "true" } else { "false" },
            ),
            HostValue::Number(number) => format!(in alloc; "{number}"),
            HostValue::BigInt(number) => format!(in alloc; "{number}n"),
            HostValue::Text(text) => String::from_str(alloc, text.as_str()),
        }
    }
}
