//! Statements and expressions that begin.
ghost use Rattle.std.specs.Prelude.{◌≡◌, ◌∷◌, [], Some, None, pos, IfOk, OnOk, length};
ghost use Rattle.host_values.specs.declared.values.HostValue.TheVariants as values;
ghost use Rattle.host_nodes.specs.declared.form.Form.TheVariants as forms;
ghost use Rattle.host_machine.specs.declared.item.Item.TheVariants as items;
ghost use Rattle.host_machine.specs.Nodes as nodes;
ghost use Rattle.host_machine.specs.Terms.{now, waits, state_of};
ghost use Rattle.host_machine.specs.Moves.{Moved, placed, set_to};
ghost use Rattle.host_machine.specs.Rewriting as spec;

use crate::completion::Completion;
use crate::effect::HostEffect;
use crate::focus::Focus;
use crate::frame::HostFrame;
use crate::item::Item;
use crate::nodes;
use embed_base::{PlainList, SharedString};
use host_nodes::{Form, NodeId, PrefixOperator};
use host_parser::{Binding, Script};
use host_values::{Heap, HostValue, Kind};
use std::alloc::{AllocError, Global};

/// A Number of a script.
fn number(script: &Script, node: NodeId, number: u64) -> HostValue
    requires { nodes.form_at script.now node ≡ Some (forms.Number number) }
    ensures { result ≡ values.Number (pos number) }
{
    script.nodes_are_there();
    HostValue::Number(number as i64)
}

/// A BigInt of a script.
fn big_int(script: &Script, node: NodeId, number: u128) -> HostValue
    requires { nodes.form_at script.now node ≡ Some (forms.BigInt number) }
    ensures { result ≡ values.BigInt (pos number) }
{
    script.nodes_are_there();
    HostValue::BigInt(number as i128)
}

/// Whether a node is a name that nothing binds.
fn is_unknown(script: &Script, node: NodeId) -> bool
    ensures { result ≡ spec.is_unknown (nodes.form_at script.now node) (nodes.binding_at script.now node) }
{
    match nodes::form(script, node) {
        Some(
            Form::Name {
                text: _,
                reference: _,
            },
        ) => matches!(nodes::binding(script, node), Binding::Unknown),
        _ => false,
    }
}

impl HostFrame {
    // Goes on with an item that waits for a node.
    fn begin_in(&mut self, item: Item, node: NodeId) -> Result<HostEffect, AllocError>
        ensures effect { IfOk result (λ e. e ≡ HostEffect.Went) }
        ensures frame { OnOk result (self.new ≡ set_to (waits item node) self.old) }
    {
        self.wait(item, node)?;
        Ok(HostEffect::Went)
    }

    // A statement that ends otherwise than normally.
    fn leave(&mut self, completion: Completion) -> HostEffect
        ensures effect { result ≡ HostEffect.Went }
        ensures frame { self.new ≡ set_to (now (Focus.Leaves completion)) self.old }
    {
        self.set(Focus::Leaves(completion));
        HostEffect::Went
    }

    // An assignment, by the form of its target.
    fn begin_assignment(
        &mut self,
        script: &Script,
        node: NodeId,
        target: NodeId,
        value: NodeId,
    ) -> Result<(), AllocError>
        ensures { OnOk result (self.new ≡ set_to (spec.assigns node target value (nodes.form_at script.now target)) self.old) }
    {
        match nodes::form(script, target) {
            Some(
                Form::Name {
                    text: _,
                    reference: _,
                },
            ) => self.wait(Item::AssignName(target), value),
            Some(Form::Member { object, key: _ }) => self.wait(Item::AssignObject(node), *object),
            Some(Form::Index { object, key: _ }) => self.wait(Item::AssignObject(node), *object),
            _ => {
                self.set(Focus::Done);
                Ok(())
            }
        }
    }

    // An operator before its operand.
    fn begin_prefix(
        &mut self,
        alloc: Global,
        heap: &Heap,
        script: &Script,
        node: NodeId,
        operator: PrefixOperator,
        operand: NodeId,
    ) -> Result<HostEffect, AllocError>
        ensures { IfOk result (λ e. Moved (spec.prefix_begun script.now (state_of heap.now self.old) node operator operand) self.old e heap.now self.new) }
    {
        match operator {
            PrefixOperator::TypeOf => {
                if is_unknown(script, operand) {
                    let name = SharedString::from_str(alloc, "undefined")?;
                    return Ok(self.give(HostValue::Text(name)));
                }
                self.begin_in(Item::Prefix(node), operand)
            }
            _ => self.begin_in(Item::Prefix(node), operand),
        }
    }

    // A `try`: its first block is entered.
    fn begin_try(
        &mut self,
        script: &Script,
        node: NodeId,
        body: NodeId,
        heap: &Heap,
    ) -> Result<HostEffect, AllocError>
        ensures { IfOk result (λ e. Moved (spec.entered (state_of heap.now self.old) body (nodes.names_of (nodes.form_at script.now body)) None (items.Try node ∷ [])) self.old e heap.now self.new) }
    {
        self.items.push(Item::Try(node))?;
        self.enter(body, nodes::names(script, body), None)?;
        Ok(HostEffect::Went)
    }

    // An object literal: its object is made first.
    fn begin_object(
        &mut self,
        alloc: Global,
        heap: &mut Heap,
        script: &Script,
        node: NodeId,
    ) -> Result<HostEffect, AllocError>
        ensures { IfOk result (λ e. Moved (spec.object_begun script.now (state_of heap.old self.old) node) self.old e heap.new self.new) }
    {
        let object = heap.add(alloc, Kind::Plain)?;
        self.property(script, node, 0, object, heap)
    }

    // A statement that begins.
    fn begin_statement(
        &mut self,
        heap: &Heap,
        script: &Script,
        node: NodeId,
        form: &Form,
    ) -> Result<HostEffect, AllocError>
        ensures { IfOk result (λ e. Moved (spec.statement_begun script.now (state_of heap.now self.old) node form.now) self.old e heap.now self.new) }
    {
        match form {
            Form::Block { names, items: _ } => {
                self.enter(node, *names, None)?;
                Ok(HostEffect::Went)
            }
            Form::Expression(value) => self.begin_in(Item::Expression, *value),
            Form::Assign { target, value } => {
                self.begin_assignment(script, node, *target, *value)?;
                Ok(HostEffect::Went)
            }
            Form::If { test, then: _ } => self.begin_in(Item::If(node), *test),
            Form::IfElse {
                test,
                then: _,
                other: _,
            } => self.begin_in(Item::If(node), *test),
            Form::While { test, body: _ } => self.begin_in(Item::Test(node), *test),
            Form::Break => Ok(self.leave(Completion::Break)),
            Form::Continue => Ok(self.leave(Completion::Continue)),
            Form::Return(None) => Ok(self.leave(Completion::Return(HostValue::Undefined))),
            Form::Return(Some(value)) => self.begin_in(Item::Return, *value),
            Form::Throw(value) => self.begin_in(Item::Throw, *value),
            Form::Try {
                body,
                caught: _,
                handler: _,
            } => self.begin_try(script, node, *body, heap),
            Form::Let(_) => {
                self.set(Focus::Declares { node, index: 0 });
                Ok(HostEffect::Went)
            }
            Form::Const(_) => {
                self.set(Focus::Declares { node, index: 0 });
                Ok(HostEffect::Went)
            }
            _ => Ok(self.end()),
        }
    }

    // A statement or expression that begins, by its form.
    fn begin_form(
        &mut self,
        alloc: Global,
        heap: &mut Heap,
        script: &Script,
        node: NodeId,
        form: &Form,
    ) -> Result<HostEffect, AllocError>
        requires { nodes.form_at script.now node ≡ Some form.now }
        ensures { IfOk result (λ e. Moved (spec.form_begun script.now (state_of heap.old self.old) node form.now) self.old e heap.new self.new) }
    {
        match form {
            Form::Undefined => Ok(self.give(HostValue::Undefined)),
            Form::Null => Ok(self.give(HostValue::Null)),
            Form::Boolean(truth) => Ok(self.give(HostValue::Bool(*truth))),
            Form::Number(value) => Ok(self.give(number(script, node, *value))),
            Form::BigInt(value) => Ok(self.give(big_int(script, node, *value))),
            Form::Text(text) => Ok(self.give(HostValue::Text(text.clone()?))),
            Form::Name {
                text: _,
                reference: _,
            } => {
                let binding = nodes::binding(script, node);
                self.read_name(alloc, heap, binding, nodes::place(script, node))
            }
            Form::Array(_) => self.element(alloc, heap, script, node, PlainList::new(alloc)),
            Form::Object(_) => self.begin_object(alloc, heap, script, node),
            Form::Member { object, key: _ } => self.begin_in(Item::Member(node), *object),
            Form::Index { object, key: _ } => self.begin_in(Item::IndexObject(node), *object),
            Form::Call {
                callee,
                arguments: _,
            } => self.begin_in(Item::Callee(node), *callee),
            Form::New {
                class,
                arguments: _,
            } => self.begin_in(Item::Callee(node), *class),
            Form::Prefix { operator, operand } => {
                self.begin_prefix(alloc, heap, script, node, *operator, *operand)
            }
            Form::Chain {
                operands: _,
                last: _,
            } => {
                let first = nodes::operand(script, node, 0);
                self.begin_in(Item::Left(node), first)
            }
            _ => self.begin_statement(heap, script, node, form),
        }
    }

    /// A statement or expression that begins.
    pub(crate) fn begin(
        &mut self,
        alloc: Global,
        heap: &mut Heap,
        script: &Script,
        node: NodeId,
    ) -> Result<HostEffect, AllocError>
        ensures { IfOk result (λ e. Moved (spec.begun script.now (state_of heap.old self.old) node (nodes.form_at script.now node)) self.old e heap.new self.new) }
    {
        match nodes::form(script, node) {
            None => Ok(self.end()),
            Some(form) => self.begin_form(alloc, heap, script, node, form),
        }
    }

    /// A turn of a `while`.
    pub(crate) fn turn(&mut self, script: &Script, node: NodeId) -> Result<(), AllocError>
        ensures { OnOk result (self.new ≡ set_to (spec.turned node (nodes.form_at script.now node)) self.old) }
    {
        match nodes::form(script, node) {
            Some(Form::While { test: _, body }) => self.wait(Item::Loop(node), *body),
            _ => {
                self.set(Focus::Done);
                Ok(())
            }
        }
    }

    /// The test of a `while`, once more.
    pub(crate) fn test(&mut self, script: &Script, node: NodeId) -> Result<(), AllocError>
        ensures { OnOk result (self.new ≡ set_to (spec.tests node (nodes.form_at script.now node)) self.old) }
    {
        match nodes::form(script, node) {
            Some(Form::While { test, body: _ }) => self.wait(Item::Test(node), *test),
            _ => {
                self.set(Focus::Done);
                Ok(())
            }
        }
    }
}
