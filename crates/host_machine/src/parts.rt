//! Parts in the order of the text: statements of a list, elements, properties, arguments, declared names.
ghost use Rattle.std.specs.Prelude.{◌≡◌, ◌++◌, Some, None, List, [], ◌∷◌, OnOk, IfOk, slice_get, take, length, replicate};
ghost use Rattle.host_values.specs.KeyOrder.{key_of_text};
ghost use Rattle.host_values.specs.Members.{written};
ghost use Rattle.host_machine.specs.Nodes as nodes;
ghost use Rattle.host_machine.specs.Terms.{goes, state_of};
ghost use Rattle.host_machine.specs.Moves.{Moved, placed, set_to};
ghost use Rattle.host_machine.specs.Rewriting as spec;

use crate::effect::HostEffect;
use crate::focus::Focus;
use crate::frame::HostFrame;
use crate::item::{Item, Sequence};
use crate::nodes;
use crate::reference::Callable;
use crate::writes::put;
use embed_base::limits::MOST_ELEMENTS;
use embed_base::{OutsideKind, PlainList, SharedString};
use host_nodes::NodeId;
use host_parser::Script;
use host_values::{Heap, HostValue, Key, ObjId};
use std::alloc::{AllocError, Global};

/// More unset bindings.
#[tactic(auto, using(crate::proofs::Lists::unset_more))]
pub(crate) fn add_unset(locals: &mut Vec<Option<HostValue>>, count: u64) -> Result<(), AllocError>
    ensures { OnOk result (locals.new.items ≡ locals.old.items ++ replicate count None) }
{
    for _ in 0..count {
        locals.push(None)?;
    }
    Ok(())
}

/// A value that nothing takes.
fn lose_value(_value: HostValue) {}

/// Writes a property of an object by its name.
fn put_named(
    alloc: Global,
    heap: &mut Heap,
    object: ObjId,
    name: SharedString,
    value: HostValue,
) -> Result<(), AllocError>
    ensures { OnOk result (heap.new ≡ written heap.old (HostValue.Object object) (key_of_text name) value) }
{
    let key = Key::of_text(name);
    put(alloc, heap, &HostValue::Object(object), &key, value)?;
    Ok(())
}

impl HostFrame {
    // The bindings of a block are left.
    pub(crate) fn leave_scope(&mut self, outer: u64)
        ensures { self.new ≡ record { items = self.old.items; focus = self.old.focus; locals = take outer self.old.locals } }
    {
        self.locals.truncate(outer as usize);
    }

    /// The next statement of a list, or its end.
    pub(crate) fn list(
        &mut self,
        script: &Script,
        sequence: Sequence,
        next: u64,
        outer: u64,
        heap: &Heap,
    ) -> Result<HostEffect, AllocError>
        ensures { IfOk result (λ e. Moved (spec.listed (state_of heap.now self.old) sequence next outer (slice_get (nodes.statements_of script.now sequence) next)) self.old e heap.now self.new) }
    {
        match nodes::statements(script, sequence).get(next as usize) {
            Some(statement) => {
                let item = Item::List {
                    sequence,
                    next: next + 1,
                    outer,
                };
                self.wait(item, *statement)?;
                Ok(HostEffect::Went)
            }
            None => {
                self.leave_scope(outer);
                Ok(self.end())
            }
        }
    }

    /// A block is entered, where the first of its names may have a value.
    pub(crate) fn enter(
        &mut self,
        block: NodeId,
        names: u64,
        caught: Option<HostValue>,
    ) -> Result<(), AllocError>
        ensures { OnOk result (self.new ≡ placed (spec.scope_of self.old.locals names caught) (spec.enters block (length self.old.locals) []) self.old) }
    {
        let outer = self.locals.len() as u64;
        match caught {
            Some(value) => {
                self.locals.push(Some(value))?;
                add_unset(&mut self.locals, names.saturating_sub(1))?;
            }
            None => add_unset(&mut self.locals, names)?,
        }
        self.items.push(Item::List {
            sequence: Sequence::Block(block),
            next: 0,
            outer,
        })?;
        self.focus = Focus::Done;
        Ok(())
    }

    /// The next element of an array literal, or the Array.
    pub(crate) fn element(
        &mut self,
        alloc: Global,
        heap: &mut Heap,
        script: &Script,
        node: NodeId,
        done: PlainList<HostValue>,
    ) -> Result<HostEffect, AllocError>
        ensures { IfOk result (λ e. Moved (spec.element_of script.now (state_of heap.old self.old) node done) self.old e heap.new self.new) }
    {
        match nodes::elements(script, node).get(done.len()) {
            Some(element) => {
                self.wait(Item::Elements { node, done }, *element)?;
                Ok(HostEffect::Went)
            }
            None => {
                if done.len() > MOST_ELEMENTS as usize {
                    return Ok(self.refuse(OutsideKind::ArraySize, nodes::place(script, node)));
                }
                let array = heap.add_array(alloc, done.into_vec())?;
                Ok(self.give(HostValue::Object(array)))
            }
        }
    }

    /// The next property of an object literal, or the object.
    pub(crate) fn property(
        &mut self,
        script: &Script,
        node: NodeId,
        index: u64,
        object: ObjId,
        heap: &Heap,
    ) -> Result<HostEffect, AllocError>
        ensures { IfOk result (λ e. Moved (spec.property_of script.now (state_of heap.now self.old) node index object) self.old e heap.now self.new) }
    {
        match nodes::property(script, node, index) {
            Some(property) => {
                if nodes::spelled(&property.key).as_str() == "__proto__" {
                    return Ok(self.refuse(OutsideKind::ProtoKey, property.place));
                }
                self.wait(
                    Item::Property {
                        node,
                        index,
                        object,
                    },
                    property.value,
                )?;
                Ok(HostEffect::Went)
            }
            None => Ok(self.give(HostValue::Object(object))),
        }
    }

    // A property of an object literal gets its value, and the one with this number is next.
    fn fill_property(
        &mut self,
        alloc: Global,
        heap: &mut Heap,
        script: &Script,
        node: NodeId,
        next: u64,
        object: ObjId,
        name: SharedString,
        value: HostValue,
    ) -> Result<HostEffect, AllocError>
        ensures { IfOk result (λ e. Moved (spec.property_of script.now (record { heap = written heap.old (HostValue.Object object) (key_of_text name) value; locals = self.old.locals }) node next object) self.old e heap.new self.new) }
    {
        put_named(alloc, heap, object, name, value)?;
        self.property(script, node, next, object, heap)
    }

    /// A property of an object literal gets its value.
    pub(crate) fn set_property(
        &mut self,
        alloc: Global,
        heap: &mut Heap,
        script: &Script,
        node: NodeId,
        index: u64,
        object: ObjId,
        value: HostValue,
    ) -> Result<HostEffect, AllocError>
        ensures { IfOk result (λ e. Moved (spec.property_set script.now (state_of heap.old self.old) node index object value (slice_get (nodes.properties_of (nodes.form_at script.now node)) index)) self.old e heap.new self.new) }
    {
        match nodes::property(script, node, index) {
            Some(property) => {
                let name = nodes::spelled(&property.key).clone()?;
                self.fill_property(alloc, heap, script, node, index + 1, object, name, value)
            }
            None => {
                lose_value(value);
                Ok(self.give(HostValue::Object(object)))
            }
        }
    }

    /// The next argument, or the call.
    pub(crate) fn argument(
        &mut self,
        script: &Script,
        node: NodeId,
        callee: Callable,
        done: PlainList<HostValue>,
    ) -> Result<(), AllocError>
        ensures { OnOk result (self.new ≡ set_to (spec.argument_of script.now node callee done) self.old) }
    {
        match nodes::arguments(script, node).get(done.len()) {
            Some(argument) => self.wait(Item::Arguments { node, callee, done }, *argument),
            None => {
                self.set(Focus::Calls {
                    node,
                    callee,
                    arguments: done,
                });
                Ok(())
            }
        }
    }

    /// The next name of a `let` or `const`.
    pub(crate) fn declare(
        &mut self,
        heap: &mut Heap,
        script: &Script,
        node: NodeId,
        index: u64,
    ) -> Result<HostEffect, AllocError>
        ensures { IfOk result (λ e. Moved (spec.declared script.now (state_of heap.old self.old) node index (slice_get (nodes.declarations_of (nodes.form_at script.now node)) index)) self.old e heap.new self.new) }
    {
        let Some(declaration) = nodes::declarations(script, node).get(index as usize) else {
            return Ok(self.end());
        };
        match declaration.value {
            Some(value) => {
                self.wait(Item::Declare { node, index }, value)?;
                Ok(HostEffect::Went)
            }
            None => {
                let binding = nodes::binding(script, declaration.name);
                self.set_value(heap, binding, HostValue::Undefined);
                self.set(Focus::Declares {
                    node,
                    index: index + 1,
                });
                Ok(HostEffect::Went)
            }
        }
    }

    /// A name that is declared gets its value.
    pub(crate) fn initialise(
        &mut self,
        heap: &mut Heap,
        script: &Script,
        node: NodeId,
        index: u64,
        value: HostValue,
    ) -> HostEffect
        ensures { Moved (spec.initialised script.now (state_of heap.old self.old) node index value (slice_get (nodes.declarations_of (nodes.form_at script.now node)) index)) self.old result heap.new self.new }
    {
        match nodes::declarations(script, node).get(index as usize) {
            Some(declaration) => {
                let binding = nodes::binding(script, declaration.name);
                self.set_value(heap, binding, value);
                self.set(Focus::Declares {
                    node,
                    index: index + 1,
                });
                HostEffect::Went
            }
            None => self.end(),
        }
    }
}
