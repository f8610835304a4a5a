//! Calls and `new`, after their arguments.
ghost use Rattle.std.specs.Prelude.{◌≡◌, ◌++◌, IfOk};
ghost use Rattle.host_values.specs.Heaps.{IsLive, kind_at};
ghost use Rattle.host_values.specs.Shown.{shown_of};
ghost use Rattle.host_machine.specs.Terms.{now, state_of};
ghost use Rattle.host_machine.specs.Moves.{Moved, set_to};
ghost use Rattle.host_machine.specs.Calls as spec;

use crate::effect::HostEffect;
use crate::focus::Focus;
use crate::frame::HostFrame;
use crate::reference::{Callable, Reference};
use embed_base::{OutsideKind, PlainList, PlainString, SharedString};
use host_builtins::Reply;
use host_values::{Callee, Class, ErrorClass, Heap, HostValue, Kind, ObjId, Target};
use std::alloc::{AllocError, Global};

/// A text with the shown form of a value after it. A number of no object shows as nothing.
fn show_after(
    alloc: Global,
    heap: &Heap,
    mut line: PlainString,
    value: &HostValue,
) -> Result<PlainString, AllocError>
    ensures { IfOk result (λ text. text ≡ line ++ shown_of heap.now value.now) }
{
    if heap.has_value(value) {
        let shown = heap.show(alloc, value)?;
        line.push_str(shown.as_str())?;
    }
    Ok(line)
}

/// A text with the shown forms of more values after it, each behind a space.
#[tactic(auto, using(crate::proofs::Lists::line_more))]
fn show_more(
    alloc: Global,
    heap: &Heap,
    mut line: PlainString,
    values: &[HostValue],
) -> Result<PlainString, AllocError>
    ensures { IfOk result (λ text. text ≡ line ++ spec.line_after heap.now values.now) }
{
    for value in values {
        line.push_str(" ")?;
        line = show_after(alloc, heap, line, value)?;
    }
    Ok(line)
}

/// The line that `print` writes.
fn line_of(alloc: Global, heap: &Heap, args: &[HostValue]) -> Result<PlainString, AllocError>
    ensures { IfOk result (λ text. text ≡ spec.line_of heap.now args.now) }
{
    let line = PlainString::new(alloc);
    match args {
        [] => Ok(line),
        [first, rest @ ..] => {
            let line = show_after(alloc, heap, line, first)?;
            show_more(alloc, heap, line, rest)
        }
    }
}

/// What is called where a value is, if it can be called.
fn callee_of(heap: &Heap, object: ObjId) -> Option<Callee>
    ensures { result ≡ spec.callee_of (kind_at heap.now object) }
{
    if !heap.has_object(object) {
        return None;
    }
    match heap.kind(object) {
        Kind::Function(callee) => Some(*callee),
        _ => None,
    }
}

/// Whether an object is an Array.
fn is_array(heap: &Heap, object: ObjId) -> bool
    ensures { result ≡ spec.is_array (kind_at heap.now object) }
{
    heap.has_object(object) && matches!(heap.kind(object), Kind::Array)
}

impl HostFrame {
    // An effect is handed out.
    fn ask(&mut self, effect: HostEffect, place: u32) -> HostEffect
        ensures effect { result ≡ effect }
        ensures frame { self.new ≡ set_to (now (Focus.Waits place)) self.old }
    {
        self.set(Focus::Waits(place));
        effect
    }

    // A call of a function.
    fn call_function(
        &mut self,
        alloc: Global,
        heap: &Heap,
        object: ObjId,
        callee: Callee,
        args: PlainList<HostValue>,
        place: u32,
    ) -> Result<HostEffect, AllocError>
        ensures { IfOk result (λ e. Moved (spec.function_object_called (state_of heap.now self.old) object args place callee) self.old e heap.now self.new) }
    {
        match callee {
            Callee::Print => {
                let line = line_of(alloc, heap, args.as_slice())?;
                Ok(self.ask(HostEffect::Print(line), place))
            }
            _ => Ok(self.ask(
                HostEffect::Call {
                    callee: object,
                    args,
                },
                place,
            )),
        }
    }

    // A call of a value.
    fn call_value(
        &mut self,
        alloc: Global,
        heap: &mut Heap,
        value: HostValue,
        args: PlainList<HostValue>,
        place: u32,
    ) -> Result<HostEffect, AllocError>
        ensures { IfOk result (λ e. Moved (spec.value_called (state_of heap.old self.old) value args place) self.old e heap.new self.new) }
    {
        match value {
            HostValue::Object(object) => match callee_of(heap, object) {
                Some(callee) => self.call_function(alloc, heap, object, callee, args, place),
                None => self.throw_error(alloc, heap, ErrorClass::TypeError),
            },
            _ => self.throw_error(alloc, heap, ErrorClass::TypeError),
        }
    }

    // What a predefined object answered, which asks for an effect where it isn't for it to say.
    fn reply(
        &mut self,
        alloc: Global,
        heap: &mut Heap,
        effect: HostEffect,
        place: u32,
        reply: Reply,
    ) -> Result<HostEffect, AllocError>
        ensures { IfOk result (λ e. Moved (spec.replied (state_of heap.old self.old) effect place reply) self.old e heap.new self.new) }
    {
        match reply {
            Reply::Value(value) => Ok(self.give(value)),
            Reply::Throw(class) => self.throw_error(alloc, heap, class),
            Reply::Outside(kind) => Ok(self.refuse(kind, place)),
            Reply::Interface => Ok(self.ask(effect, place)),
        }
    }

    // A call of a predefined object itself.
    fn call_class(
        &mut self,
        alloc: Global,
        heap: &mut Heap,
        class: Class,
        args: PlainList<HostValue>,
        place: u32,
    ) -> Result<HostEffect, AllocError>
        ensures { IfOk result (λ e. Moved (spec.class_called (state_of heap.old self.old) class args place) self.old e heap.new self.new) }
    {
        let name = SharedString::from_str(alloc, "")?;
        let reply = host_builtins::call(alloc, heap, class, args.as_slice())?;
        let effect = HostEffect::Method {
            object: Target::Builtin(class),
            name,
            args,
        };
        self.reply(alloc, heap, effect, place, reply)
    }

    // A call of a function of a predefined object.
    fn call_member(
        &mut self,
        alloc: Global,
        heap: &mut Heap,
        class: Class,
        name: SharedString,
        args: PlainList<HostValue>,
        place: u32,
    ) -> Result<HostEffect, AllocError>
        ensures { IfOk result (λ e. Moved (spec.function_called (state_of heap.old self.old) class name args place) self.old e heap.new self.new) }
    {
        let reply = host_builtins::call_member(alloc, heap, class, name.as_str(), args.as_slice())?;
        let effect = HostEffect::Method {
            object: Target::Builtin(class),
            name,
            args,
        };
        self.reply(alloc, heap, effect, place, reply)
    }

    // A call of `push` of an Array.
    fn push(
        &mut self,
        alloc: Global,
        heap: &mut Heap,
        object: ObjId,
        name: SharedString,
        args: PlainList<HostValue>,
        place: u32,
    ) -> Result<HostEffect, AllocError>
        requires { IsLive heap.old object }
        ensures { IfOk result (λ e. Moved (spec.pushed (state_of heap.old self.old) object name args place) self.old e heap.new self.new) }
    {
        let reply = host_builtins::push(alloc, heap, object, args.as_slice())?;
        let effect = HostEffect::Method {
            object: Target::Object(object),
            name,
            args,
        };
        self.reply(alloc, heap, effect, place, reply)
    }

    // A call of a method of an object.
    fn call_method(
        &mut self,
        alloc: Global,
        heap: &mut Heap,
        object: ObjId,
        name: SharedString,
        args: PlainList<HostValue>,
        place: u32,
    ) -> Result<HostEffect, AllocError>
        ensures { IfOk result (λ e. Moved (spec.method_called (state_of heap.old self.old) object name args place) self.old e heap.new self.new) }
    {
        if heap.has_object(object) && is_array(heap, object) {
            return self.push(alloc, heap, object, name, args, place);
        }
        let effect = HostEffect::Method {
            object: Target::Object(object),
            name,
            args,
        };
        Ok(self.ask(effect, place))
    }

    /// A call.
    pub(crate) fn call_of(
        &mut self,
        alloc: Global,
        heap: &mut Heap,
        callee: Callable,
        args: PlainList<HostValue>,
        place: u32,
    ) -> Result<HostEffect, AllocError>
        ensures { IfOk result (λ e. Moved (spec.called (state_of heap.old self.old) callee args place) self.old e heap.new self.new) }
    {
        match callee {
            Callable::Value(value) => self.call_value(alloc, heap, value, args, place),
            Callable::Reference(Reference::Class(class)) => {
                self.call_class(alloc, heap, class, args, place)
            }
            Callable::Reference(Reference::Function { class, name }) => {
                self.call_member(alloc, heap, class, name, args, place)
            }
            Callable::Reference(Reference::Method { object, name }) => {
                self.call_method(alloc, heap, object, name, args, place)
            }
        }
    }

    // `new` of a value.
    fn construct_value(
        &mut self,
        alloc: Global,
        heap: &mut Heap,
        value: &HostValue,
        place: u32,
    ) -> Result<HostEffect, AllocError>
        ensures { IfOk result (λ e. Moved (spec.value_constructed (state_of heap.old self.old) value.now place) self.old e heap.new self.new) }
    {
        match value {
            HostValue::Object(object) => match callee_of(heap, *object) {
                Some(
                    Callee::Script {
                        function: _,
                        length: _,
                    },
                ) => { Ok(self.refuse(OutsideKind::Construct, place)) }
                Some(Callee::Print) => Ok(self.refuse(OutsideKind::Construct, place)),
                _ => self.throw_error(alloc, heap, ErrorClass::TypeError),
            },
            _ => self.throw_error(alloc, heap, ErrorClass::TypeError),
        }
    }

    // `new` of a predefined object.
    fn construct_class(
        &mut self,
        alloc: Global,
        heap: &mut Heap,
        class: Class,
        args: PlainList<HostValue>,
        place: u32,
    ) -> Result<HostEffect, AllocError>
        ensures { IfOk result (λ e. Moved (spec.reference_constructed (state_of heap.old self.old) (Reference.Class class) args place) self.old e heap.new self.new) }
    {
        let reply = host_builtins::construct(alloc, heap, class, args.as_slice())?;
        self.reply(alloc, heap, HostEffect::New { class, args }, place, reply)
    }

    /// `new`.
    pub(crate) fn construct(
        &mut self,
        alloc: Global,
        heap: &mut Heap,
        callee: Callable,
        args: PlainList<HostValue>,
        place: u32,
    ) -> Result<HostEffect, AllocError>
        ensures { IfOk result (λ e. Moved (spec.constructed (state_of heap.old self.old) callee args place) self.old e heap.new self.new) }
    {
        match callee {
            Callable::Value(value) => self.construct_value(alloc, heap, &value, place),
            Callable::Reference(Reference::Class(class)) => {
                self.construct_class(alloc, heap, class, args, place)
            }
            Callable::Reference(_) => Ok(self.refuse(OutsideKind::Construct, place)),
        }
    }
}
