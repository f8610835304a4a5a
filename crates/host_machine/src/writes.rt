//! Members that are written.
ghost use Rattle.std.specs.Prelude.{◌≡◌, ◌∷◌, [], IfOk, OnOk};
ghost use Rattle.host_values.specs.Members.{write_of, written};
ghost use Rattle.host_machine.specs.Terms.{state_of};
ghost use Rattle.host_machine.specs.Moves.{Moved, set_to};
ghost use Rattle.host_machine.specs.Members as spec;

use crate::effect::HostEffect;
use crate::focus::Focus;
use crate::frame::HostFrame;
use crate::item::Item;
use crate::members::is_nullish;
use crate::reference::Base;
use embed_base::OutsideKind;
use host_values::{ErrorClass, Heap, HostValue, Key, ObjId, Put};
use std::alloc::{AllocError, Global};

/// Writes a member of a value. At a number of no object nothing is written.
pub(crate) fn put(
    alloc: Global,
    heap: &mut Heap,
    target: &HostValue,
    key: &Key,
    value: HostValue,
) -> Result<Put, AllocError>
    ensures answer { IfOk result (λ put. put ≡ write_of heap.old target.now key.now) }
    ensures ok { OnOk result (heap.new ≡ written heap.old target.now key.now value) }
{
    if heap.has_value(target) {
        heap.set(alloc, target, key, value)
    } else {
        Ok(Put::Interface)
    }
}

impl HostFrame {
    // A member of an object is written that more than the heap decides.
    fn ask_to_write(
        &mut self,
        object: ObjId,
        key: Key,
        value: HostValue,
        place: u32,
    ) -> Result<HostEffect, AllocError>
        ensures effect { IfOk result (λ e. e ≡ HostEffect.SetMember object key value) }
        ensures frame { OnOk result (self.new ≡ set_to (record { items = Item.Expression ∷ []; focus = Focus.Waits place }) self.old) }
    {
        self.items.push(Item::Expression)?;
        self.focus = Focus::Waits(place);
        Ok(HostEffect::SetMember { object, key, value })
    }

    // A member of a value is written, which more than the heap decides.
    fn write_elsewhere(
        &mut self,
        alloc: Global,
        heap: &mut Heap,
        target: HostValue,
        key: Key,
        value: HostValue,
        place: u32,
    ) -> Result<HostEffect, AllocError>
        ensures { IfOk result (λ e. Moved (spec.put_of (state_of heap.old self.old) target key value place Put.Interface) self.old e heap.new self.new) }
    {
        match target {
            HostValue::Object(object) => self.ask_to_write(object, key, value, place),
            _ => self.throw_error(alloc, heap, ErrorClass::TypeError),
        }
    }

    // A member of a value is written.
    fn write_value_member(
        &mut self,
        alloc: Global,
        heap: &mut Heap,
        target: HostValue,
        key: Key,
        value: HostValue,
        place: u32,
    ) -> Result<HostEffect, AllocError>
        ensures { IfOk result (λ e. Moved (spec.put_of (state_of heap.old self.old) target key value place (write_of heap.old target key)) self.old e heap.new self.new) }
    {
        let kept = value.clone()?;
        match put(alloc, heap, &target, &key, value)? {
            Put::Done => Ok(self.end()),
            Put::Throw(class) => self.throw_error(alloc, heap, class),
            Put::Outside(kind) => Ok(self.refuse(kind, place)),
            Put::Interface => self.write_elsewhere(alloc, heap, target, key, kept, place),
        }
    }

    /// A member is written.
    pub(crate) fn write_member(
        &mut self,
        alloc: Global,
        heap: &mut Heap,
        base: Base,
        key: Key,
        value: HostValue,
        place: u32,
    ) -> Result<HostEffect, AllocError>
        ensures { IfOk result (λ e. Moved (spec.member_written (state_of heap.old self.old) base key value place) self.old e heap.new self.new) }
    {
        match base {
            Base::Value(target) => {
                self.write_value_member(alloc, heap, target, key, value, place)
            }
            Base::Class(_) => Ok(self.refuse(OutsideKind::BuiltinWrite, place)),
        }
    }

    // A computed member is written, by the key that its value is.
    fn write_keyed(
        &mut self,
        alloc: Global,
        heap: &mut Heap,
        base: Base,
        key: Option<Key>,
        value: HostValue,
        place: u32,
    ) -> Result<HostEffect, AllocError>
        ensures { IfOk result (λ e. Moved (spec.keyed_written (state_of heap.old self.old) base value place key) self.old e heap.new self.new) }
    {
        match key {
            None => Ok(self.refuse(OutsideKind::Key, place)),
            Some(key) => self.write_member(alloc, heap, base, key, value, place),
        }
    }

    /// A computed member is written.
    pub(crate) fn write_computed(
        &mut self,
        alloc: Global,
        heap: &mut Heap,
        base: Base,
        key: &HostValue,
        value: HostValue,
        place: u32,
    ) -> Result<HostEffect, AllocError>
        ensures { IfOk result (λ e. Moved (spec.computed_written (state_of heap.old self.old) base key.now value place) self.old e heap.new self.new) }
    {
        if is_nullish(&base) {
            return self.throw_error(alloc, heap, ErrorClass::TypeError);
        }
        let key = Key::of(alloc, key)?;
        self.write_keyed(alloc, heap, base, key, value, place)
    }
}
