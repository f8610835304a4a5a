//! Names that are read, written and declared.
ghost use Rattle.std.specs.Prelude.{◌≡◌, Some, cond, slice_get, slice_set, IfOk};
ghost use Rattle.std.specs.Option.{is_some};
ghost use Rattle.host_values.specs.Heaps.{with_binding};
ghost use Rattle.host_machine.specs.Terms.{now, state_of, throws};
ghost use Rattle.host_machine.specs.Moves.{Moved, set_to};
ghost use Rattle.host_machine.specs.Names as spec;

use crate::completion::Completion;
use crate::effect::HostEffect;
use crate::focus::Focus;
use crate::frame::HostFrame;
use crate::reference::Reference;
use embed_base::{Outside, OutsideKind, Place, SharedString};
use host_parser::{Binding, Predefined};
use host_values::{Class, ErrorClass, Heap, HostValue, Kind, ObjId};
use std::alloc::{AllocError, Global};

/// The predefined object of a predefined name.
fn class_of(name: Predefined) -> Class
    ensures { result ≡ spec.class_of name }
{
    match name {
        Predefined::Print => Class::Print,
        Predefined::Readbuffer => Class::Readbuffer,
        Predefined::Utf8Text => Class::Utf8Text,
        Predefined::Object => Class::Object,
        Predefined::BigInt => Class::BigInt,
        Predefined::Number => Class::Number,
        Predefined::String => Class::String,
        Predefined::Promise => Class::Promise,
        Predefined::Uint8Array => Class::Uint8Array,
        Predefined::Error => Class::Error,
        Predefined::TypeError => Class::TypeError,
        Predefined::RangeError => Class::RangeError,
        Predefined::ReferenceError => Class::ReferenceError,
        Predefined::SyntaxError => Class::SyntaxError,
        Predefined::WebAssembly => Class::WebAssembly,
    }
}

/// The value of a global binding, where it is set.
fn global(heap: &Heap, number: u64) -> Result<Option<HostValue>, AllocError>
    ensures { IfOk result (λ v. v ≡ spec.held (slice_get heap.now.bindings number)) }
{
    if number >= heap.bindings() as u64 {
        return Ok(None);
    }
    match heap.binding(number) {
        Some(value) => Ok(Some(value.clone()?)),
        None => Ok(None),
    }
}

/// Whether a binding is a constant.
fn is_constant(binding: Binding) -> bool
    ensures { result ≡ spec.is_constant binding }
{
    match binding {
        Binding::Global(slot) => slot.constant,
        Binding::Local(slot) => slot.constant,
        _ => false,
    }
}

impl HostFrame {
    // The value of a binding of the frame's own, where it is set.
    fn local(&self, number: u64) -> Result<Option<HostValue>, AllocError>
        ensures { IfOk result (λ v. v ≡ spec.held (slice_get self.now.locals number)) }
    {
        match self.locals.get(number as usize) {
            Some(Some(value)) => Ok(Some(value.clone()?)),
            _ => Ok(None),
        }
    }

    // The value of a binding, where it is set.
    fn value_of(&self, heap: &Heap, binding: Binding) -> Result<Option<HostValue>, AllocError>
        ensures { IfOk result (λ v. v ≡ spec.value_of (state_of heap.now self.now) binding) }
    {
        match binding {
            Binding::Global(slot) => global(heap, slot.number),
            Binding::Local(slot) => self.local(slot.number),
            _ => Ok(None),
        }
    }

    // Whether a binding has a value.
    fn is_set(&self, heap: &Heap, binding: Binding) -> bool
        ensures { result ≡ is_some (spec.value_of (state_of heap.now self.now) binding) }
    {
        match binding {
            Binding::Global(slot) => {
                slot.number < heap.bindings() as u64 && heap.binding(slot.number).is_some()
            }
            Binding::Local(slot) => {
                matches!(self.locals.get(slot.number as usize), Some(Some(_)))
            }
            _ => false,
        }
    }

    // Gives a binding of the frame's own a value.
    fn set_local(&mut self, number: u64, value: HostValue)
        ensures { self.new ≡ record { items = self.old.items; focus = self.old.focus; locals = slice_set self.old.locals number (Some value) } }
    {
        if number < self.locals.len() as u64 {
            self.locals[number as usize] = Some(value);
        }
    }

    // Gives a binding a value.
    pub(crate) fn set_value(&mut self, heap: &mut Heap, binding: Binding, value: HostValue)
        ensures heap { heap.new ≡ (spec.with_value (state_of heap.old self.old) binding value).heap }
        ensures frame { self.new ≡ record { items = self.old.items; focus = self.old.focus; locals = (spec.with_value (state_of heap.old self.old) binding value).locals } }
    {
        match binding {
            Binding::Global(slot) => set_global(heap, slot.number, value),
            Binding::Local(slot) => self.set_local(slot.number, value),
            _ => {}
        }
    }

    // A value is thrown.
    pub(crate) fn throw_value(&mut self, value: HostValue) -> HostEffect
        ensures effect { result ≡ HostEffect.Went }
        ensures frame { self.new ≡ set_to (now (Focus.Leaves (Completion.Throw value))) self.old }
    {
        self.set(Focus::Leaves(Completion::Throw(value)));
        HostEffect::Went
    }

    // An error of this class is made and thrown.
    pub(crate) fn throw_error(
        &mut self,
        alloc: Global,
        heap: &mut Heap,
        class: ErrorClass,
    ) -> Result<HostEffect, AllocError>
        ensures { IfOk result (λ e. Moved (throws (state_of heap.old self.old) class) self.old e heap.new self.new) }
    {
        let message = SharedString::from_str(alloc, "")?;
        let error = heap.add(alloc, Kind::Error { class, message })?;
        Ok(self.throw_value(HostValue::Object(error)))
    }

    // The run ends with a named refusal.
    pub(crate) fn refuse(&mut self, kind: OutsideKind, place: u32) -> HostEffect
        ensures effect { result ≡ HostEffect.Refused (record { kind = kind; place = Place.Script place }) }
        ensures frame { self.new ≡ set_to (now (Focus.Waits place)) self.old }
    {
        self.set(Focus::Waits(place));
        HostEffect::Refused(Outside {
            kind,
            place: Place::Script(u64::from(place)),
        })
    }

    // Something that an expression refers to.
    pub(crate) fn refer(&mut self, reference: Reference, place: u32) -> HostEffect
        ensures effect { result ≡ HostEffect.Went }
        ensures frame { self.new ≡ set_to (now (Focus.Refers reference place)) self.old }
    {
        self.set(Focus::Refers { reference, place });
        HostEffect::Went
    }

    // A value.
    pub(crate) fn give(&mut self, value: HostValue) -> HostEffect
        ensures effect { result ≡ HostEffect.Went }
        ensures frame { self.new ≡ set_to (now (Focus.Value value)) self.old }
    {
        self.set(Focus::Value(value));
        HostEffect::Went
    }

    // A statement that ended normally.
    pub(crate) fn end(&mut self) -> HostEffect
        ensures effect { result ≡ HostEffect.Went }
        ensures frame { self.new ≡ set_to (now Focus.Done) self.old }
    {
        self.set(Focus::Done);
        HostEffect::Went
    }

    // A predefined name is read.
    fn read_predefined(&mut self, name: Predefined, place: u32, heap: &Heap) -> HostEffect
        ensures { Moved (spec.predefined_read (state_of heap.now self.old) name place) self.old result heap.now self.new }
    {
        match name {
            Predefined::Print => self.give(HostValue::Object(ObjId(0))),
            _ => self.refer(Reference::Class(class_of(name)), place),
        }
    }

    // A name that a declaration binds, or nothing does.
    fn read_value(
        &mut self,
        alloc: Global,
        heap: &mut Heap,
        binding: Binding,
    ) -> Result<HostEffect, AllocError>
        ensures { IfOk result (λ e. Moved (spec.value_read (state_of heap.old self.old) (spec.value_of (state_of heap.old self.old) binding)) self.old e heap.new self.new) }
    {
        match self.value_of(heap, binding)? {
            Some(value) => Ok(self.give(value)),
            None => self.throw_error(alloc, heap, ErrorClass::ReferenceError),
        }
    }

    /// A name is read.
    pub(crate) fn read_name(
        &mut self,
        alloc: Global,
        heap: &mut Heap,
        binding: Binding,
        place: u32,
    ) -> Result<HostEffect, AllocError>
        ensures { IfOk result (λ e. Moved (spec.name_read (state_of heap.old self.old) binding place) self.old e heap.new self.new) }
    {
        match binding {
            Binding::Predefined(name) => Ok(self.read_predefined(name, place, heap)),
            _ => self.read_value(alloc, heap, binding),
        }
    }

    // A binding that has a value is written.
    fn write_value(
        &mut self,
        alloc: Global,
        heap: &mut Heap,
        binding: Binding,
        value: HostValue,
    ) -> Result<HostEffect, AllocError>
        ensures { IfOk result (λ e. Moved (spec.value_written (state_of heap.old self.old) binding value) self.old e heap.new self.new) }
    {
        if is_constant(binding) {
            return self.throw_error(alloc, heap, ErrorClass::TypeError);
        }
        self.set_value(heap, binding, value);
        Ok(self.end())
    }

    // A binding is written, if it has a value.
    fn write_set(
        &mut self,
        alloc: Global,
        heap: &mut Heap,
        binding: Binding,
        value: HostValue,
    ) -> Result<HostEffect, AllocError>
        ensures { IfOk result (λ e. Moved (cond (is_some (spec.value_of (state_of heap.old self.old) binding)) (spec.value_written (state_of heap.old self.old) binding value) (throws (state_of heap.old self.old) ErrorClass.ReferenceError)) self.old e heap.new self.new) }
    {
        if self.is_set(heap, binding) {
            self.write_value(alloc, heap, binding, value)
        } else {
            self.throw_error(alloc, heap, ErrorClass::ReferenceError)
        }
    }

    /// A name is written.
    pub(crate) fn write_name(
        &mut self,
        alloc: Global,
        heap: &mut Heap,
        binding: Binding,
        place: u32,
        value: HostValue,
    ) -> Result<HostEffect, AllocError>
        ensures { IfOk result (λ e. Moved (spec.name_written (state_of heap.old self.old) binding place value) self.old e heap.new self.new) }
    {
        match binding {
            Binding::Predefined(_) => Ok(self.refuse(OutsideKind::BuiltinWrite, place)),
            _ => self.write_set(alloc, heap, binding, value),
        }
    }
}

/// Gives a global binding a value.
fn set_global(heap: &mut Heap, number: u64, value: HostValue)
    ensures { heap.new ≡ with_binding heap.old number value }
{
    if number < heap.bindings() as u64 {
        heap.bind(number, value);
    }
}
