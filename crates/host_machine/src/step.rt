//! Steps, and the answers of effects.
ghost use Rattle.std.specs.Prelude.{◌≡◌, ◌↔◌, IsTrue, IsFalse, IfOk};
ghost use Rattle.host_machine.specs.Nodes as nodes;
ghost use Rattle.host_machine.specs.Terms.{at, close_items, now, state_of, term_of};
ghost use Rattle.host_machine.specs.Moves.{Moved, set_to};
ghost use Rattle.host_machine.specs.Rewriting.{calls, charge_at, charge_of, is_statement};
ghost use Rattle.host_machine.specs.Frames as spec;

use crate::completion::Completion;
use crate::effect::HostEffect;
use crate::focus::Focus;
use crate::frame::HostFrame;
use crate::nodes;
use crate::reference::{Callable, Reference};
use embed_base::{OutsideKind, PlainList};
use host_nodes::{Form, NodeId};
use host_parser::Script;
use host_values::{Heap, HostValue};
use std::alloc::{AllocError, Global};
use std::mem;

/// A step makes at most one more rewriting than this.
const MOST_FREE: u32 = 64;

/// Whether a node is a statement.
fn is_statement(script: &Script, node: NodeId) -> bool
    ensures { result ≡ is_statement (nodes.form_at script.now node) }
{
    match nodes::form(script, node) {
        Some(form) => matches!(
            form,
            Form::Empty
                | Form::Block { .. }
                | Form::Expression(_)
                | Form::Assign { .. }
                | Form::If { .. }
                | Form::IfElse { .. }
                | Form::While { .. }
                | Form::Break
                | Form::Continue
                | Form::Return(_)
                | Form::Throw(_)
                | Form::Try { .. }
                | Form::Let(_)
                | Form::Const(_)
        ),
        None => false,
    }
}

/// Whether a step goes on.
fn went(effect: &HostEffect) -> bool
    ensures { IsTrue result → effect.now ≡ HostEffect.Went }
{
    matches!(effect, HostEffect::Went)
}

impl HostFrame {
    // A call or `new`, after its arguments.
    fn apply(
        &mut self,
        alloc: Global,
        heap: &mut Heap,
        script: &Script,
        node: NodeId,
        callee: Callable,
        args: PlainList<HostValue>,
    ) -> Result<HostEffect, AllocError>
        ensures { IfOk result (λ e. Moved (calls (state_of heap.old self.old) callee args (nodes.place_at script.now node) (nodes.form_at script.now node)) self.old e heap.new self.new) }
    {
        let place = nodes::place(script, node);
        match nodes::form(script, node) {
            Some(
                Form::New {
                    class: _,
                    arguments: _,
                },
            ) => self.construct(alloc, heap, callee, args, place),
            _ => self.call_of(alloc, heap, callee, args, place),
        }
    }

    // A value for the item that waits innermost, or the frame's own.
    fn value(
        &mut self,
        alloc: Global,
        heap: &mut Heap,
        script: &Script,
        value: HostValue,
    ) -> Result<HostEffect, AllocError>
        ensures { IfOk result (λ e. spec.Told script.now (state_of heap.old self.old) (close_items self.old.items (at (Focus.Value value))) e (state_of heap.new self.new) (term_of self.new)) }
    {
        match self.pop() {
            None => Ok(HostEffect::Returned(value)),
            Some(item) => self.resume(alloc, heap, script, item, value),
        }
    }

    // What an expression refers to, for the item that waits innermost.
    fn reference(
        &mut self,
        alloc: Global,
        heap: &mut Heap,
        script: &Script,
        reference: Reference,
        place: u32,
    ) -> Result<HostEffect, AllocError>
        ensures { IfOk result (λ e. spec.Told script.now (state_of heap.old self.old) (close_items self.old.items (at (Focus.Refers reference place))) e (state_of heap.new self.new) (term_of self.new)) }
    {
        match self.pop() {
            None => Ok(self.refuse(OutsideKind::BuiltinValue, place)),
            Some(item) => self.take_reference(alloc, heap, script, item, reference, place),
        }
    }

    // The end of a statement, for the item that waits innermost, or the frame's own.
    fn ended(&mut self, heap: &Heap, script: &Script) -> Result<HostEffect, AllocError>
        ensures { IfOk result (λ e. spec.Told script.now (state_of heap.now self.old) (close_items self.old.items (at Focus.Done)) e (state_of heap.now self.new) (term_of self.new)) }
    {
        match self.pop() {
            None => Ok(HostEffect::Returned(HostValue::Undefined)),
            Some(item) => self.take_end(heap, script, item),
        }
    }

    // A statement that ended otherwise, for the item that waits innermost, or the frame's own.
    fn completion(
        &mut self,
        heap: &Heap,
        script: &Script,
        completion: Completion,
    ) -> Result<HostEffect, AllocError>
        ensures { IfOk result (λ e. spec.Told script.now (state_of heap.now self.old) (close_items self.old.items (at (Focus.Leaves completion))) e (state_of heap.now self.new) (term_of self.new)) }
    {
        match self.pop() {
            Some(item) => self.take_completion(heap, script, item, completion),
            None => match completion {
                Completion::Return(value) => Ok(HostEffect::Returned(value)),
                Completion::Throw(value) => Ok(HostEffect::Threw(value)),
                _ => Ok(HostEffect::Returned(HostValue::Undefined)),
            },
        }
    }

    // Takes the place at work out.
    fn take_focus(&mut self) -> Focus
        ensures focus { result ≡ self.old.focus }
        ensures frame { self.new ≡ set_to (now Focus.Done) self.old }
    {
        mem::replace(&mut self.focus, Focus::Done)
    }

    // One rewriting, or the end.
    fn rewrite(
        &mut self,
        alloc: Global,
        heap: &mut Heap,
        script: &Script,
    ) -> Result<HostEffect, AllocError>
        requires { spec.IsAtWork self.old.focus }
        ensures { IfOk result (λ e. spec.Told script.now (state_of heap.old self.old) (term_of self.old) e (state_of heap.new self.new) (term_of self.new)) }
    {
        match self.take_focus() {
            Focus::Begin(node) => self.begin(alloc, heap, script, node),
            Focus::Declares { node, index } => self.declare(heap, script, node, index),
            Focus::Turn(node) => {
                self.turn(script, node)?;
                Ok(HostEffect::Went)
            }
            Focus::Calls {
                node,
                callee,
                arguments,
            } => self.apply(alloc, heap, script, node, callee, arguments),
            Focus::Value(value) => self.value(alloc, heap, script, value),
            Focus::Refers { reference, place } => {
                self.reference(alloc, heap, script, reference, place)
            }
            Focus::Done => self.ended(heap, script),
            Focus::Leaves(completion) => self.completion(heap, script, completion),
            Focus::Waits(_) => unreachable!(),
        }
    }

    // What the place at work takes of the budget.
    fn charge_at(&self, script: &Script) -> u64
        ensures { result ≡ charge_at script.now self.now.focus }
    {
        match &self.focus {
            Focus::Begin(node) => u64::from(is_statement(script, *node)),
            Focus::Turn(_) => 1,
            Focus::Calls { .. } => 1,
            _ => 0,
        }
    }

    /// What the next step takes of the budget.
    pub fn charge(&self, script: &Script) -> u64
        ensures { result ≡ charge_of script.now (term_of self.now) }
    {
        self.charge_at(script)
    }

    // Whether the frame can go on, and its next rewriting takes nothing of the budget.
    fn is_free(&self, script: &Script) -> bool
        ensures at_work { IsTrue result → spec.IsAtWork self.now.focus }
        ensures free { IsTrue result → charge_of script.now (term_of self.now) ≡ 0 }
    {
        match &self.focus {
            Focus::Waits(_) => false,
            _ => self.charge(script) == 0,
        }
    }

    /// One step: a rewriting, and then more of them that take nothing of the budget, up to an effect that isn't `Went`. After `Returned`,
    /// `Threw` and `Refused` the frame has ended. After want of memory nothing is said of the frame and the heap.
    pub fn step(
        &mut self,
        alloc: Global,
        heap: &mut Heap,
        script: &Script,
    ) -> Result<HostEffect, AllocError>
        requires { spec.IsAtWork self.old.focus }
        ensures { IfOk result (λ e. spec.Makes script.now (state_of heap.old self.old) (term_of self.old) e (state_of heap.new self.new) (term_of self.new)) }
    {
        let mut effect = self.rewrite(alloc, heap, script)?;
        for _ in 0..MOST_FREE {
            if !went(&effect) || !self.is_free(script) {
                break;
            }
            effect = self.rewrite(alloc, heap, script)?;
        }
        Ok(effect)
    }

    /// Whether an effect waits for its answer.
    pub fn is_waiting(&self) -> bool
        ensures waiting { IsTrue result ↔ spec.IsWaiting self.now.focus }
        ensures at_work { IsFalse result → spec.IsAtWork self.now.focus }
    {
        matches!(self.focus, Focus::Waits(_))
    }

    /// The answer of the last effect.
    pub fn supply(&mut self, value: HostValue)
        requires { spec.IsWaiting self.old.focus }
        ensures { self.new ≡ spec.supplied value self.old }
    {
        self.focus = Focus::Value(value);
    }

    /// The last effect threw this value.
    pub fn throw(&mut self, value: HostValue)
        requires { spec.IsWaiting self.old.focus }
        ensures { self.new ≡ spec.thrown value self.old }
    {
        self.focus = Focus::Leaves(Completion::Throw(value));
    }

    /// The place of the last effect: a byte of the script's text.
    pub fn place(&self) -> u32
        requires { spec.IsWaiting self.now.focus }
        ensures { result ≡ spec.place_of self.now.focus }
    {
        match &self.focus {
            Focus::Waits(place) => *place,
            _ => 0,
        }
    }
}
