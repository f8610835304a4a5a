//! Results that items take.
ghost use Rattle.std.specs.Prelude.{◌≡◌, ◌++◌, ◌∷◌, [], Some, None, cond, length, IfOk, OnOk};
ghost use Rattle.host_values.specs.KeyOrder.{key_of_text};
ghost use Rattle.host_convert.specs.Conversions.{to_boolean};
ghost use Rattle.host_machine.specs.Members.{member_read};
ghost use Rattle.host_machine.specs.Nodes as nodes;
ghost use Rattle.host_machine.specs.Terms.{now, state_of};
ghost use Rattle.host_machine.specs.Moves.{Moved, placed, set_to};
ghost use Rattle.host_machine.specs.Rewriting as spec;

use crate::completion::Completion;
use crate::effect::HostEffect;
use crate::focus::Focus;
use crate::frame::HostFrame;
use crate::item::{Item, Sequence};
use crate::nodes;
use crate::operators::prefixed;
use crate::reference::{Base, Callable, Reference};
use embed_base::{OutsideKind, PlainList, SharedString};
use host_nodes::{Form, NodeId};
use host_parser::Script;
use host_values::{Class, Heap, HostValue, ObjId};
use std::alloc::{AllocError, Global};

/// An item that nothing goes on in.
pub(crate) fn lose(_item: Item) {}

/// Something that an expression refers to and that is no value.
fn lose_reference(_reference: Reference) {}

impl HostFrame {
    // The branch of an `if`.
    fn branch(&mut self, script: &Script, node: NodeId, value: &HostValue)
        ensures { self.new ≡ set_to (spec.branched value.now (nodes.form_at script.now node)) self.old }
    {
        match nodes::form(script, node) {
            Some(Form::If { test: _, then }) => {
                if host_convert::to_boolean(value) {
                    self.set(Focus::Begin(*then));
                } else {
                    self.set(Focus::Done);
                }
            }
            Some(
                Form::IfElse {
                    test: _,
                    then,
                    other,
                },
            ) => {
                if host_convert::to_boolean(value) {
                    self.set(Focus::Begin(*then));
                } else {
                    self.set(Focus::Begin(*other));
                }
            }
            _ => self.set(Focus::Done),
        }
    }

    // The test of a `while` has this value.
    fn tested(&mut self, node: NodeId, value: &HostValue)
        ensures { self.new ≡ set_to (now (cond (to_boolean value.now) (Focus.Turn node) Focus.Done)) self.old }
    {
        if host_convert::to_boolean(value) {
            self.set(Focus::Turn(node));
        } else {
            self.set(Focus::Done);
        }
    }

    // What the member is asked of to which is assigned, then the value or the key.
    fn base_target(
        &mut self,
        script: &Script,
        node: NodeId,
        target: NodeId,
        value: NodeId,
        base: Base,
    ) -> Result<(), AllocError>
        ensures { OnOk result (self.new ≡ set_to (spec.target_based node target value base (nodes.form_at script.now target)) self.old) }
    {
        match nodes::form(script, target) {
            Some(Form::Index { object: _, key }) => {
                self.wait(Item::AssignKey { node, base }, *key)
            }
            _ => self.wait(Item::AssignMember { target, base }, value),
        }
    }

    fn base_assignment(
        &mut self,
        script: &Script,
        node: NodeId,
        base: Base,
    ) -> Result<HostEffect, AllocError>
        ensures effect { IfOk result (λ e. e ≡ HostEffect.Went) }
        ensures frame { OnOk result (self.new ≡ set_to (spec.based script.now node base (nodes.form_at script.now node)) self.old) }
    {
        match nodes::form(script, node) {
            Some(Form::Assign { target, value }) => {
                self.base_target(script, node, *target, *value, base)?;
                Ok(HostEffect::Went)
            }
            _ => Ok(self.end()),
        }
    }

    // The key of a computed member to which is assigned, then the value.
    fn key_assignment(
        &mut self,
        script: &Script,
        node: NodeId,
        base: Base,
        key: HostValue,
    ) -> Result<HostEffect, AllocError>
        ensures effect { IfOk result (λ e. e ≡ HostEffect.Went) }
        ensures frame { OnOk result (self.new ≡ set_to (spec.assign_keyed base key (nodes.form_at script.now node)) self.old) }
    {
        match nodes::form(script, node) {
            Some(Form::Assign { target, value }) => {
                let item = Item::AssignElement {
                    target: *target,
                    base,
                    key,
                };
                self.wait(item, *value)?;
                Ok(HostEffect::Went)
            }
            _ => Ok(self.end()),
        }
    }

    // What a computed member is asked of, then the key.
    fn base_index(
        &mut self,
        script: &Script,
        node: NodeId,
        base: Base,
    ) -> Result<HostEffect, AllocError>
        ensures effect { IfOk result (λ e. e ≡ HostEffect.Went) }
        ensures frame { OnOk result (self.new ≡ set_to (spec.keyed node base (nodes.form_at script.now node)) self.old) }
    {
        match nodes::form(script, node) {
            Some(Form::Index { object: _, key }) => {
                self.wait(Item::IndexKey { node, base }, *key)?;
                Ok(HostEffect::Went)
            }
            _ => Ok(self.end()),
        }
    }

    // The value of an operator before its operand.
    fn finish_prefix(
        &mut self,
        alloc: Global,
        heap: &mut Heap,
        script: &Script,
        node: NodeId,
        value: HostValue,
    ) -> Result<HostEffect, AllocError>
        ensures { IfOk result (λ e. Moved (spec.prefix_done (state_of heap.old self.old) (nodes.place_at script.now node) value (nodes.form_at script.now node)) self.old e heap.new self.new) }
    {
        match nodes::form(script, node) {
            Some(
                Form::Prefix {
                    operator,
                    operand: _,
                },
            ) => {
                let given = prefixed(alloc, heap, *operator, &value)?;
                self.convert(alloc, heap, nodes::place(script, node), given)
            }
            _ => Ok(self.give(value)),
        }
    }

    // A value more of an array literal.
    fn add_element(
        &mut self,
        alloc: Global,
        heap: &mut Heap,
        script: &Script,
        node: NodeId,
        mut done: PlainList<HostValue>,
        value: HostValue,
    ) -> Result<HostEffect, AllocError>
        ensures { IfOk result (λ e. Moved (spec.element_of script.now (state_of heap.old self.old) node (done ++ value ∷ [])) self.old e heap.new self.new) }
    {
        done.push(value)?;
        self.element(alloc, heap, script, node, done)
    }

    // An argument more of a call.
    fn add_argument(
        &mut self,
        script: &Script,
        node: NodeId,
        callee: Callable,
        mut done: PlainList<HostValue>,
        value: HostValue,
    ) -> Result<HostEffect, AllocError>
        ensures effect { IfOk result (λ e. e ≡ HostEffect.Went) }
        ensures frame { OnOk result (self.new ≡ set_to (spec.argument_of script.now node callee (done ++ value ∷ [])) self.old) }
    {
        done.push(value)?;
        self.argument(script, node, callee, done)?;
        Ok(HostEffect::Went)
    }

    // A member, of what it is asked of.
    fn take_member(
        &mut self,
        alloc: Global,
        heap: &mut Heap,
        script: &Script,
        node: NodeId,
        base: Base,
    ) -> Result<HostEffect, AllocError>
        ensures { IfOk result (λ e. Moved (member_read (state_of heap.old self.old) base (key_of_text (nodes.key_of_member (nodes.form_at script.now node))) (nodes.place_at script.now node)) self.old e heap.new self.new) }
    {
        let key = nodes::member_key(alloc, script, node)?;
        self.read_member(alloc, heap, base, key, nodes::place(script, node))
    }

    // A value that an expression takes.
    fn take_operand(
        &mut self,
        alloc: Global,
        heap: &mut Heap,
        script: &Script,
        item: Item,
        value: HostValue,
    ) -> Result<HostEffect, AllocError>
        ensures { IfOk result (λ e. Moved (spec.operand_taken script.now (state_of heap.old self.old) item value) self.old e heap.new self.new) }
    {
        match item {
            Item::Left(node) => {
                self.chain(script, node, 0, value)?;
                Ok(HostEffect::Went)
            }
            Item::Right { node, index, left } => {
                self.operate(alloc, heap, script, node, index, left, value)
            }
            Item::Prefix(node) => self.finish_prefix(alloc, heap, script, node, value),
            Item::Elements { node, done } => {
                self.add_element(alloc, heap, script, node, done, value)
            }
            Item::Property {
                node,
                index,
                object,
            } => self.set_property(alloc, heap, script, node, index, object, value),
            Item::Member(node) => self.take_member(alloc, heap, script, node, Base::Value(value)),
            Item::IndexObject(node) => self.base_index(script, node, Base::Value(value)),
            Item::IndexKey { node, base } => {
                self.read_computed(alloc, heap, base, &value, nodes::place(script, node))
            }
            Item::Callee(node) => {
                self.argument(script, node, Callable::Value(value), PlainList::new(alloc))?;
                Ok(HostEffect::Went)
            }
            Item::Arguments { node, callee, done } => {
                self.add_argument(script, node, callee, done, value)
            }
            other => {
                lose(other);
                Ok(self.end())
            }
        }
    }

    // A value that an assignment takes.
    fn take_assigned(
        &mut self,
        alloc: Global,
        heap: &mut Heap,
        script: &Script,
        item: Item,
        value: HostValue,
    ) -> Result<HostEffect, AllocError>
        ensures { IfOk result (λ e. Moved (spec.assignment_taken script.now (state_of heap.old self.old) item value) self.old e heap.new self.new) }
    {
        match item {
            Item::AssignName(target) => {
                let binding = nodes::binding(script, target);
                self.write_name(alloc, heap, binding, nodes::place(script, target), value)
            }
            Item::AssignObject(node) => self.base_assignment(script, node, Base::Value(value)),
            Item::AssignKey { node, base } => self.key_assignment(script, node, base, value),
            Item::AssignMember { target, base } => {
                let key = nodes::member_key(alloc, script, target)?;
                self.write_member(alloc, heap, base, key, value, nodes::place(script, target))
            }
            Item::AssignElement { target, base, key } => {
                self.write_computed(alloc, heap, base, &key, value, nodes::place(script, target))
            }
            other => self.take_operand(alloc, heap, script, other, value),
        }
    }

    /// A value that an item takes.
    pub(crate) fn resume(
        &mut self,
        alloc: Global,
        heap: &mut Heap,
        script: &Script,
        item: Item,
        value: HostValue,
    ) -> Result<HostEffect, AllocError>
        ensures { IfOk result (λ e. Moved (spec.resumed script.now (state_of heap.old self.old) item value) self.old e heap.new self.new) }
    {
        match item {
            Item::Expression => Ok(self.end()),
            Item::If(node) => {
                self.branch(script, node, &value);
                Ok(HostEffect::Went)
            }
            Item::Test(node) => {
                self.tested(node, &value);
                Ok(HostEffect::Went)
            }
            Item::Return => {
                self.set(Focus::Leaves(Completion::Return(value)));
                Ok(HostEffect::Went)
            }
            Item::Throw => Ok(self.throw_value(value)),
            Item::Declare { node, index } => Ok(self.initialise(heap, script, node, index, value)),
            other => self.take_assigned(alloc, heap, script, other, value),
        }
    }

    // What is called that is a method of an object: it is never constructed.
    fn take_method(
        &mut self,
        alloc: Global,
        script: &Script,
        node: NodeId,
        object: ObjId,
        name: SharedString,
        place: u32,
        heap: &Heap,
    ) -> Result<HostEffect, AllocError>
        ensures { IfOk result (λ e. Moved (spec.callee_referred script.now (state_of heap.now self.old) node (Reference.Method object name) place (nodes.form_at script.now node)) self.old e heap.now self.new) }
    {
        match nodes::form(script, node) {
            Some(
                Form::New {
                    class: _,
                    arguments: _,
                },
            ) => Ok(self.refuse(OutsideKind::BuiltinValue, place)),
            _ => {
                let method = Callable::Reference(Reference::Method { object, name });
                self.argument(script, node, method, PlainList::new(alloc))?;
                Ok(HostEffect::Went)
            }
        }
    }

    // What is called or constructed that is no value.
    fn take_callee(
        &mut self,
        alloc: Global,
        script: &Script,
        node: NodeId,
        reference: Reference,
        place: u32,
        heap: &Heap,
    ) -> Result<HostEffect, AllocError>
        ensures { IfOk result (λ e. Moved (spec.callee_referred script.now (state_of heap.now self.old) node reference place (nodes.form_at script.now node)) self.old e heap.now self.new) }
    {
        match reference {
            Reference::Method { object, name } => {
                self.take_method(alloc, script, node, object, name, place, heap)
            }
            other => {
                let callee = Callable::Reference(other);
                self.argument(script, node, callee, PlainList::new(alloc))?;
                Ok(HostEffect::Went)
            }
        }
    }

    // A predefined object, of which an item may ask a member.
    fn take_class(
        &mut self,
        alloc: Global,
        heap: &mut Heap,
        script: &Script,
        item: Item,
        class: Class,
        place: u32,
    ) -> Result<HostEffect, AllocError>
        ensures { IfOk result (λ e. Moved (spec.class_referred script.now (state_of heap.old self.old) item class place) self.old e heap.new self.new) }
    {
        match item {
            Item::Member(node) => self.take_member(alloc, heap, script, node, Base::Class(class)),
            Item::IndexObject(node) => self.base_index(script, node, Base::Class(class)),
            Item::AssignObject(node) => self.base_assignment(script, node, Base::Class(class)),
            other => {
                lose(other);
                Ok(self.refuse(OutsideKind::BuiltinValue, place))
            }
        }
    }

    // What an item takes that an expression refers to and doesn't call.
    fn take_uncalled(
        &mut self,
        alloc: Global,
        heap: &mut Heap,
        script: &Script,
        item: Item,
        reference: Reference,
        place: u32,
    ) -> Result<HostEffect, AllocError>
        ensures { IfOk result (λ e. Moved (spec.uncalled script.now (state_of heap.old self.old) item reference place) self.old e heap.new self.new) }
    {
        match reference {
            Reference::Class(class) => self.take_class(alloc, heap, script, item, class, place),
            other => {
                lose(item);
                lose_reference(other);
                Ok(self.refuse(OutsideKind::BuiltinValue, place))
            }
        }
    }

    /// What an item takes that an expression refers to.
    pub(crate) fn take_reference(
        &mut self,
        alloc: Global,
        heap: &mut Heap,
        script: &Script,
        item: Item,
        reference: Reference,
        place: u32,
    ) -> Result<HostEffect, AllocError>
        ensures { IfOk result (λ e. Moved (spec.referred script.now (state_of heap.old self.old) item reference place) self.old e heap.new self.new) }
    {
        match item {
            Item::Callee(node) => self.take_callee(alloc, script, node, reference, place, heap),
            other => self.take_uncalled(alloc, heap, script, other, reference, place),
        }
    }

    /// The end of a statement that an item takes.
    pub(crate) fn take_end(
        &mut self,
        heap: &Heap,
        script: &Script,
        item: Item,
    ) -> Result<HostEffect, AllocError>
        ensures { IfOk result (λ e. Moved (spec.ended script.now (state_of heap.now self.old) item) self.old e heap.now self.new) }
    {
        match item {
            Item::List {
                sequence,
                next,
                outer,
            } => self.list(script, sequence, next, outer, heap),
            Item::Loop(node) => {
                self.test(script, node)?;
                Ok(HostEffect::Went)
            }
            other => {
                lose(other);
                Ok(self.end())
            }
        }
    }

    // A `while` whose body ended otherwise.
    fn leave_loop(
        &mut self,
        script: &Script,
        node: NodeId,
        completion: Completion,
    ) -> Result<(), AllocError>
        ensures { OnOk result (self.new ≡ set_to (spec.loop_left node completion (nodes.form_at script.now node)) self.old) }
    {
        match completion {
            Completion::Break => {
                self.set(Focus::Done);
                Ok(())
            }
            Completion::Continue => self.test(script, node),
            other => {
                self.set(Focus::Leaves(other));
                Ok(())
            }
        }
    }

    // The handler of a `try`, for what was thrown.
    fn handle(
        &mut self,
        script: &Script,
        handler: NodeId,
        caught: bool,
        value: HostValue,
    ) -> Result<(), AllocError>
        ensures { OnOk result (self.new ≡ placed (spec.scope_of self.old.locals (nodes.names_of (nodes.form_at script.now handler)) (cond caught (Some value) None)) (spec.enters handler (length self.old.locals) []) self.old) }
    {
        let names = nodes::names(script, handler);
        if caught {
            self.enter(handler, names, Some(value))
        } else {
            self.enter(handler, names, None)
        }
    }

    // A `try` whose block threw.
    fn catch(
        &mut self,
        script: &Script,
        node: NodeId,
        value: HostValue,
        heap: &Heap,
    ) -> Result<HostEffect, AllocError>
        ensures { IfOk result (λ e. Moved (spec.try_left script.now (state_of heap.now self.old) (Completion.Throw value) (nodes.form_at script.now node)) self.old e heap.now self.new) }
    {
        match nodes::form(script, node) {
            Some(
                Form::Try {
                    body: _,
                    caught,
                    handler,
                },
            ) => {
                self.handle(script, *handler, *caught, value)?;
                Ok(HostEffect::Went)
            }
            _ => Ok(self.throw_value(value)),
        }
    }

    // A `try` whose block ended otherwise.
    fn leave_try(
        &mut self,
        script: &Script,
        node: NodeId,
        completion: Completion,
        heap: &Heap,
    ) -> Result<HostEffect, AllocError>
        ensures { IfOk result (λ e. Moved (spec.try_left script.now (state_of heap.now self.old) completion (nodes.form_at script.now node)) self.old e heap.now self.new) }
    {
        match completion {
            Completion::Throw(value) => self.catch(script, node, value, heap),
            other => {
                self.set(Focus::Leaves(other));
                Ok(HostEffect::Went)
            }
        }
    }

    /// A statement that ended otherwise leaves an item, or is taken by it.
    pub(crate) fn take_completion(
        &mut self,
        heap: &Heap,
        script: &Script,
        item: Item,
        completion: Completion,
    ) -> Result<HostEffect, AllocError>
        ensures { IfOk result (λ e. Moved (spec.left script.now (state_of heap.now self.old) item completion) self.old e heap.now self.new) }
    {
        match item {
            Item::List {
                sequence: _,
                next: _,
                outer,
            } => {
                self.leave_scope(outer);
                self.set(Focus::Leaves(completion));
                Ok(HostEffect::Went)
            }
            Item::Loop(node) => {
                self.leave_loop(script, node, completion)?;
                Ok(HostEffect::Went)
            }
            Item::Try(node) => self.leave_try(script, node, completion, heap),
            other => {
                lose(other);
                self.set(Focus::Leaves(completion));
                Ok(HostEffect::Went)
            }
        }
    }
}
