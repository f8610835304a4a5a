//! Members that are read.
ghost use Rattle.std.specs.Prelude.{◌≡◌, false, IfOk};
ghost use Rattle.std.specs.Option.{option_map_or, option_map};
ghost use Rattle.host_values.specs.Heaps.{kind_at};
ghost use Rattle.host_values.specs.Members.{read_of};
ghost use Rattle.host_values.specs.KeyOrder.{key_of};
ghost use Rattle.host_builtins.specs.Predefined as builtins;
ghost use Rattle.host_machine.specs.Terms.{state_of};
ghost use Rattle.host_machine.specs.Moves.{Moved};
ghost use Rattle.host_machine.specs.Members as spec;

use crate::effect::HostEffect;
use crate::focus::Focus;
use crate::frame::HostFrame;
use crate::reference::{Base, Reference};
use embed_base::OutsideKind;
use host_builtins::Member;
use host_values::{Class, ErrorClass, Got, Heap, HostValue, Key, ObjId};
use std::alloc::{AllocError, Global};

/// Whether a key is the name of a method of an object.
fn is_method(heap: &Heap, object: ObjId, key: &Key) -> bool
    ensures { result ≡ option_map_or (λ kind. builtins.is_method kind key.now) (kind_at heap.now object) false }
{
    heap.has_object(object) && host_builtins::is_method(heap.kind(object), key)
}

/// What reading a member of a value gives. A number of no object has none of its own.
fn get(alloc: Global, heap: &Heap, value: &HostValue, key: &Key) -> Result<Got, AllocError>
    ensures { IfOk result (λ got. got ≡ read_of heap.now value.now key.now) }
{
    if heap.has_value(value) {
        heap.get(alloc, value, key)
    } else {
        Ok(Got::Interface)
    }
}

/// Whether a member is asked of undefined or null.
pub(crate) fn is_nullish(base: &Base) -> bool
    ensures { result ≡ spec.is_nullish base.now }
{
    match base {
        Base::Value(HostValue::Undefined) => true,
        Base::Value(HostValue::Null) => true,
        _ => false,
    }
}

impl HostFrame {
    // What reading a member of an object gave.
    fn got(
        &mut self,
        alloc: Global,
        heap: &mut Heap,
        object: ObjId,
        key: Key,
        place: u32,
        got: Got,
    ) -> Result<HostEffect, AllocError>
        ensures { IfOk result (λ e. Moved (spec.got_of (state_of heap.old self.old) object key place got) self.old e heap.new self.new) }
    {
        match got {
            Got::Value(value) => Ok(self.give(value)),
            Got::Throw(class) => self.throw_error(alloc, heap, class),
            Got::Outside(kind) => Ok(self.refuse(kind, place)),
            Got::Interface => {
                self.set(Focus::Waits(place));
                Ok(HostEffect::GetMember { object, key })
            }
        }
    }

    // A member of an object.
    fn read_object(
        &mut self,
        alloc: Global,
        heap: &mut Heap,
        object: ObjId,
        key: Key,
        place: u32,
    ) -> Result<HostEffect, AllocError>
        ensures { IfOk result (λ e. Moved (spec.object_read (state_of heap.old self.old) object key place) self.old e heap.new self.new) }
    {
        if is_method(heap, object, &key) {
            let name = key.to_text(alloc)?;
            return Ok(self.refer(Reference::Method { object, name }, place));
        }
        let got = get(alloc, heap, &HostValue::Object(object), &key)?;
        self.got(alloc, heap, object, key, place, got)
    }

    // What reading a member of a value gave that is no object.
    fn got_primitive(
        &mut self,
        alloc: Global,
        heap: &mut Heap,
        place: u32,
        got: Got,
    ) -> Result<HostEffect, AllocError>
        ensures { IfOk result (λ e. Moved (spec.primitive_got (state_of heap.old self.old) place got) self.old e heap.new self.new) }
    {
        match got {
            Got::Value(value) => Ok(self.give(value)),
            Got::Throw(class) => self.throw_error(alloc, heap, class),
            Got::Outside(kind) => Ok(self.refuse(kind, place)),
            Got::Interface => self.throw_error(alloc, heap, ErrorClass::TypeError),
        }
    }

    // A member of a value.
    fn read_value_member(
        &mut self,
        alloc: Global,
        heap: &mut Heap,
        value: HostValue,
        key: Key,
        place: u32,
    ) -> Result<HostEffect, AllocError>
        ensures { IfOk result (λ e. Moved (spec.value_member (state_of heap.old self.old) value key place) self.old e heap.new self.new) }
    {
        match value {
            HostValue::Object(object) => self.read_object(alloc, heap, object, key, place),
            other => {
                let got = get(alloc, heap, &other, &key)?;
                self.got_primitive(alloc, heap, place, got)
            }
        }
    }

    // A member of a predefined object.
    fn read_class_member(
        &mut self,
        alloc: Global,
        heap: &Heap,
        class: Class,
        key: &Key,
        place: u32,
    ) -> Result<HostEffect, AllocError>
        ensures { IfOk result (λ e. Moved (spec.member_read (state_of heap.now self.old) (Base.Class class) key.now place) self.old e heap.now self.new) }
    {
        let name = key.to_text(alloc)?;
        match host_builtins::member(class, name.as_str()) {
            None => Ok(self.refuse(OutsideKind::BuiltinMember, place)),
            Some(Member::Class(inner)) => Ok(self.refer(Reference::Class(inner), place)),
            Some(Member::Function) => Ok(self.refer(Reference::Function { class, name }, place)),
        }
    }

    /// A member of a value or a predefined object.
    pub(crate) fn read_member(
        &mut self,
        alloc: Global,
        heap: &mut Heap,
        base: Base,
        key: Key,
        place: u32,
    ) -> Result<HostEffect, AllocError>
        ensures { IfOk result (λ e. Moved (spec.member_read (state_of heap.old self.old) base key place) self.old e heap.new self.new) }
    {
        match base {
            Base::Value(value) => self.read_value_member(alloc, heap, value, key, place),
            Base::Class(class) => self.read_class_member(alloc, heap, class, &key, place),
        }
    }

    // A computed member, by the key that its value is.
    fn read_keyed(
        &mut self,
        alloc: Global,
        heap: &mut Heap,
        base: Base,
        place: u32,
        key: Option<Key>,
    ) -> Result<HostEffect, AllocError>
        ensures { IfOk result (λ e. Moved (spec.keyed_read (state_of heap.old self.old) base place key) self.old e heap.new self.new) }
    {
        match key {
            None => Ok(self.refuse(OutsideKind::Key, place)),
            Some(key) => self.read_member(alloc, heap, base, key, place),
        }
    }

    /// A computed member.
    pub(crate) fn read_computed(
        &mut self,
        alloc: Global,
        heap: &mut Heap,
        base: Base,
        value: &HostValue,
        place: u32,
    ) -> Result<HostEffect, AllocError>
        ensures { IfOk result (λ e. Moved (spec.computed_read (state_of heap.old self.old) base value.now place) self.old e heap.new self.new) }
    {
        if is_nullish(&base) {
            return self.throw_error(alloc, heap, ErrorClass::TypeError);
        }
        let key = Key::of(alloc, value)?;
        self.read_keyed(alloc, heap, base, place, key)
    }
}
