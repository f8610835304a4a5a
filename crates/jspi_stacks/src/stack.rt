//! The stack.

ghost use Rattle.std.specs.Prelude.{◌≡◌, ◌<◌, ◌+◌, ◌∷◌, [], List, OnOk, OnErr, IfOk, MatchOption, reverse};
ghost use Rattle.std.specs.List.{AllZip};
ghost use Rattle.host_machine.specs.Frames as hosts;
ghost use Rattle.wasm_syntax.specs.declared.types.ValType.{ValType};
ghost use Rattle.wasm_store.specs.Store.{Store as CoreStore};
ghost use Rattle.wasm_store.specs.Whole.{HasType, IsLater};
ghost use Rattle.wasm_machine.specs.Fits.{Fits, Waits};
ghost use Rattle.jspi_stacks.specs.Stacks as spec;

use crate::frame::Frame;
use host_machine::HostEffect;
use host_parser::Script;
use host_values::{Heap, HostValue};
use std::alloc::{AllocError, Global};
use std::marker::Model;
use wasm_machine::Effect;
use wasm_store::Store;
use wasm_syntax::Value;

/// The frames that are running or wait, and the marks between them. Contracts see the list of its entries, the topmost one first.
#[derive(Drop)]
pub struct Stack {
    list: Vec<Frame>,
    activations: usize,
}

impl Model for Stack {
    ghost use Rattle.std.specs.Prelude.{◌≡◌, List, reverse};
    ghost use Rattle.jspi_stacks.specs.declared.frame.Frame.{Frame};
    ghost use Rattle.jspi_stacks.specs.Stacks.{activations_of};

    ghost Value = { List Frame };

    ghost view = { λ s. reverse s.list.items };

    ghost invariant = { λ s. s.activations ≡ activations_of (reverse s.list.items) };
}

#[tactic(auto, using(crate::proofs::Entries::entries))]
impl Stack {
    /// The empty stack. It takes no memory.
    pub fn new(alloc: Global) -> Stack
        ensures { result ≡ [] }
    {
        Stack {
            list: Vec::new(alloc),
            activations: 0,
        }
    }

    /// The entries, the outermost one first.
    pub fn frames(&self) -> &[Frame]
        ensures { reverse result.now ≡ self.now }
    {
        self.list.as_slice()
    }

    /// How many functions of the script and of modules are running or wait. The script itself, which is the outermost entry, isn't
    /// counted.
    pub fn activations(&self) -> u64
        ensures { result ≡ spec.activations_of self.now }
    {
        self.activations as u64
    }

    // Whether one function more runs with this entry on top.
    fn counts(&self, frame: &Frame) -> bool
        ensures { spec.activations_of (frame.now ∷ self.now) ≡ spec.activations_of self.now + spec.one_if result }
    {
        match frame {
            Frame::Host(_) => !self.list.is_empty(),
            Frame::Wasm(_) => true,
            Frame::Mark(_) => false,
        }
    }

    /// Puts an entry on top.
    pub fn push(&mut self, frame: Frame) -> Result<(), AllocError>
        ensures ok { OnOk result (self.new ≡ frame ∷ self.old) }
        ensures err { OnErr result (self.new ≡ self.old) }
    {
        let counts = self.counts(&frame);
        self.list.push(frame)?;
        if counts {
            self.activations = one_more(self.activations, self.list.len());
        }
        Ok(())
    }

    /// Takes the topmost entry off; none where there is no entry.
    pub fn pop(&mut self) -> Option<Frame>
        ensures { spec.Popped result self.old self.new }
    {
        let frame = self.list.pop()?;
        match &frame {
            Frame::Host(_) | Frame::Wasm(_) => {
                self.activations = self.activations.saturating_sub(1);
            }
            Frame::Mark(_) => {}
        }
        Some(frame)
    }

    /// The topmost entry, lent; none where there is no entry. It is changed by the calls below alone.
    pub fn top(&self) -> Option<&Frame>
        ensures { MatchOption result (self.now ≡ []) (λ e. (es : List Frame) × (self.now ≡ e.now ∷ es)) }
    {
        self.list.last()
    }

    /// A step of the frame of the script on top, in its place.
    pub fn step_host(
        &mut self,
        alloc: Global,
        heap: &mut Heap,
        script: &Script,
    ) -> Result<HostEffect, AllocError>
        requires { spec.OnTopHost self.old (λ f. hosts.IsAtWork f.focus) }
        ensures { IfOk result (λ e. spec.HostSteps script.now heap.old self.old e heap.new self.new) }
    {
        step_host(&mut self.list, alloc, heap, script)
    }

    /// The answer of the effect for which the frame of the script on top waits.
    pub fn supply_host(&mut self, value: HostValue)
        requires { spec.OnTopHost self.old (λ f. hosts.IsWaiting f.focus) }
        ensures { spec.Supplied value self.old self.new }
    {
        supply_host(&mut self.list, value);
    }

    /// The effect for which the frame of the script on top waits threw this value.
    pub fn throw_host(&mut self, value: HostValue)
        requires { spec.OnTopHost self.old (λ f. hosts.IsWaiting f.focus) }
        ensures { spec.Thrown value self.old self.new }
    {
        throw_host(&mut self.list, value);
    }

    /// A step of the frame of a module on top, in its place.
    pub fn step_wasm(&mut self, alloc: Global, store: &mut Store) -> Result<Effect, AllocError>
        requires { spec.OnTopWasm self.old (λ v. (R : List ValType) × Fits store.old R v) }
        ensures steps { IfOk result (λ e. spec.CoreSteps store.old self.old e store.new self.new) }
        ensures later { IsLater store.old store.new }
    {
        step_wasm(&mut self.list, alloc, store)
    }

    /// The results of the call for which the frame of a module on top waits.
    pub fn supply_wasm(&mut self, results: &[Value])
        requires { spec.OnTopWasm self.old (λ v. (s : CoreStore) × (R types : List ValType) × Waits s R types v × AllZip (HasType s) results.now types) }
        ensures { spec.HasResults results.now self.old self.new }
    {
        supply_wasm(&mut self.list, results);
    }
}

/// One more, which isn't past the number of entries.
fn one_more(activations: usize, entries: usize) -> usize
    requires { activations < entries }
    ensures { result ≡ activations + 1 }
{
    activations + 1
}

/// A step of the last frame, which is of the script.
fn step_host(
    list: &mut Vec<Frame>,
    alloc: Global,
    heap: &mut Heap,
    script: &Script,
) -> Result<HostEffect, AllocError>
    requires { spec.OnTopHost (reverse list.old.items) (λ f. hosts.IsAtWork f.focus) }
    ensures steps { IfOk result (λ e. spec.HostSteps script.now heap.old (reverse list.old.items) e heap.new (reverse list.new.items)) }
    ensures as_many { spec.activations_of (reverse list.new.items) ≡ spec.activations_of (reverse list.old.items) }
{
    let top = list.len() - 1;
    match &mut list[top] {
        Frame::Host(frame) => {
            let effect = frame.step(alloc, heap, script)?;
            Ok(effect)
        }
        _ => unreachable!(),
    }
}

/// The answer of the last frame's effect.
fn supply_host(list: &mut Vec<Frame>, value: HostValue)
    requires { spec.OnTopHost (reverse list.old.items) (λ f. hosts.IsWaiting f.focus) }
    ensures { spec.Supplied value (reverse list.old.items) (reverse list.new.items) }
{
    let top = list.len() - 1;
    match &mut list[top] {
        Frame::Host(frame) => frame.supply(value),
        _ => unreachable!(),
    }
}

/// The last frame's effect threw a value.
fn throw_host(list: &mut Vec<Frame>, value: HostValue)
    requires { spec.OnTopHost (reverse list.old.items) (λ f. hosts.IsWaiting f.focus) }
    ensures { spec.Thrown value (reverse list.old.items) (reverse list.new.items) }
{
    let top = list.len() - 1;
    match &mut list[top] {
        Frame::Host(frame) => frame.throw(value),
        _ => unreachable!(),
    }
}

/// A step of the last frame, which is of a module.
fn step_wasm(list: &mut Vec<Frame>, alloc: Global, store: &mut Store) -> Result<Effect, AllocError>
    requires { spec.OnTopWasm (reverse list.old.items) (λ v. (R : List ValType) × Fits store.old R v) }
    ensures steps { IfOk result (λ e. spec.CoreSteps store.old (reverse list.old.items) e store.new (reverse list.new.items)) }
    ensures later { IsLater store.old store.new }
    ensures as_many { spec.activations_of (reverse list.new.items) ≡ spec.activations_of (reverse list.old.items) }
{
    let top = list.len() - 1;
    match &mut list[top] {
        Frame::Wasm(frame) => {
            let effect = frame.step(alloc, store)?;
            Ok(effect)
        }
        _ => unreachable!(),
    }
}

/// The results of the last frame's call.
fn supply_wasm(list: &mut Vec<Frame>, results: &[Value])
    requires { spec.OnTopWasm (reverse list.old.items) (λ v. (s : CoreStore) × (R types : List ValType) × Waits s R types v × AllZip (HasType s) results.now types) }
    ensures { spec.HasResults results.now (reverse list.old.items) (reverse list.new.items) }
{
    let top = list.len() - 1;
    match &mut list[top] {
        Frame::Wasm(frame) => frame.supply(results),
        _ => unreachable!(),
    }
}
