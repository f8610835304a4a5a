//! The frames of a run.

ghost use Rattle.std.specs.Prelude.{◌≡◌, ◌≤◌, List, IfOk, reverse};
ghost use Rattle.wasm_syntax.specs.declared.types.ValType.{ValType};
ghost use Rattle.wasm_store.specs.Store.{type_of, function_at};
ghost use Rattle.wasm_store.specs.Whole.{IsLater, AllHaveCode, HasSameCode};
ghost use Rattle.wasm_machine.specs.View.{term_of};
ghost use Rattle.wasm_machine.specs.Charges.{charge_of};
ghost use Rattle.wasm_machine.specs.Entering.{CanEnter};
ghost use Rattle.wasm_calls.specs.Calls.{call_of, ended, end_of};
ghost use Rattle.wasm_calls.specs.Answers.{outcome_of, EndsTyped};
ghost use Rattle.wasm_calls.specs.Activations.{Reaches, Leads, place_of, configuration_of, calling, given, outer_of, pending, Works, IsPending, Lasts};

use crate::ending::{Ending, Invoked};
use std::alloc::{AllocError, Global};
use std::mem;
use wasm_machine::laws::frames_stay;
use wasm_machine::{Effect, WasmFrame};
use wasm_store::Store;
use wasm_store::laws::order;
use wasm_syntax::{FuncAddr, Value};

/// No more frames are open at once.
const MOST_FRAMES: usize = 10_000;

/// The frame at work, those that wait for its results, the outermost first, and what is left of the budget.
#[derive(Drop)]
struct Activations {
    top: WasmFrame,
    outer: Vec<WasmFrame>,
    left: u64,
}

impl Activations {
    // A call opens a frame, or there are too many.
    #[inline]
    fn call(
        &mut self,
        alloc: Global,
        store: &Store,
        func: FuncAddr,
        args: Vec<Value>,
    ) -> Result<Option<Ending>, AllocError>
        requires { (R : List ValType) × IsPending store.now R (Effect.Call func args) self.old }
        ensures comes { IfOk result (λ o. Reaches (calling store.now func args.items self.old) (place_of o store.now self.new)) }
        ensures lasts { IfOk result (λ o. (R : List ValType) → IsPending store.now R (Effect.Call func args) self.old → Lasts R o store.now self.new) }
    {
        if self.outer.len() + 1 >= MOST_FRAMES {
            return Ok(Some(Ending::Exhausted));
        }
        let frame = WasmFrame::enter(alloc, store, func, args.as_slice())?;
        let waiting = mem::replace(&mut self.top, frame);
        self.outer.push(waiting)?;
        Ok(None)
    }

    // The innermost frame has ended with these values.
    #[inline]
    fn give_back(&mut self, store: &Store, values: Vec<Value>) -> Option<Ending>
        requires { (R : List ValType) × IsPending store.now R (Effect.Returned values) self.old }
        ensures comes { Reaches (given store.now (outer_of self.old) (reverse values.items) self.old.left) (place_of result store.now self.new) }
        ensures lasts { (R : List ValType) → IsPending store.now R (Effect.Returned values) self.old → Lasts R result store.now self.new }
    {
        let _ = store;
        match self.outer.pop() {
            Some(waiting) => {
                self.top = waiting;
                self.top.supply(values.as_slice());
                None
            }
            None => Some(Ending::Returned(values)),
        }
    }

    // What comes of a step's effect.
    #[inline]
    fn settle(
        &mut self,
        alloc: Global,
        store: &Store,
        effect: Effect,
    ) -> Result<Option<Ending>, AllocError>
        requires { (R : List ValType) × IsPending store.now R effect self.old }
        ensures comes { IfOk result (λ o. Reaches (pending store.now effect self.old) (place_of o store.now self.new)) }
        ensures lasts { IfOk result (λ o. (R : List ValType) → IsPending store.now R effect self.old → Lasts R o store.now self.new) }
    {
        match effect {
            Effect::Went => Ok(None),
            Effect::Grew { .. } => Ok(None),
            Effect::Call { func, args } => {
                let ending = self.call(alloc, store, func, args)?;
                Ok(ending)
            }
            Effect::Returned(values) => Ok(self.give_back(store, values)),
            Effect::Trapped(trap) => Ok(Some(Ending::Trapped(trap))),
        }
    }

    // A step of the innermost frame, after its charge.
    #[inline]
    fn step(&mut self, alloc: Global, store: &mut Store, needs: u64) -> Result<Effect, AllocError>
        requires works { (R : List ValType) × Works store.old R self.old }
        requires charge { needs ≡ charge_of (term_of store.old self.old.top) }
        requires enough { needs ≤ self.old.left }
        ensures leads { IfOk result (λ e. Leads (configuration_of store.old self.old) (pending store.new e self.new)) }
        ensures leaves { IfOk result (λ e. (R : List ValType) → Works store.old R self.old → IsPending store.new R e self.new) }
        ensures later { IsLater store.old store.new }
        ensures code { HasSameCode store.old store.new }
    {
        order();
        frames_stay();
        let effect = self.top.step(alloc, store)?;
        self.left -= needs;
        Ok(effect)
    }

    // A step, and what comes of it.
    #[inline]
    fn turn(&mut self, alloc: Global, store: &mut Store) -> Result<Option<Ending>, AllocError>
        requires { (R : List ValType) × Works store.old R self.old }
        ensures comes { IfOk result (λ o. Leads (configuration_of store.old self.old) (place_of o store.new self.new)) }
        ensures lasts { IfOk result (λ o. (R : List ValType) → Works store.old R self.old → Lasts R o store.new self.new) }
        ensures later { IsLater store.old store.new }
        ensures code { HasSameCode store.old store.new }
    {
        order();
        let needs = self.top.charge(store);
        if needs > self.left {
            return Ok(Some(Ending::PastBudget { needs }));
        }
        let effect = self.step(alloc, store, needs)?;
        let ending = self.settle(alloc, store, effect)?;
        Ok(ending)
    }
}

/// Calls a function of a module with these arguments and runs it to its end, where it may take so much of a budget. The error comes
/// only where memory is wanting; the store is then as the run has left it.
pub fn invoke(
    alloc: Global,
    store: &mut Store,
    func: FuncAddr,
    args: &[Value],
    left: u64,
) -> Result<Invoked, AllocError>
    requires enters { CanEnter store.old func args.now }
    requires code { AllHaveCode store.old }
    // It ends as the run of the call does, with the store that the run leaves.
    ensures end { IfOk result (λ r. end_of (call_of store.old func args.now left) ≡ ended store.new (outcome_of r.ending) r.left) }
    ensures typed { IfOk result (λ r. EndsTyped store.new (type_of (function_at store.old func)).results r.ending) }
    ensures later { IsLater store.old store.new }
    ensures same_code { HasSameCode store.old store.new }
{
    order();
    let mut activations = Activations {
        top: WasmFrame::enter(alloc, store, func, args)?,
        outer: Vec::new(alloc),
        left,
    };
    let mut ending = None;
    while ending.is_none() {
        ending = activations.turn(alloc, store)?;
    }
    match ending {
        Some(ending) => Ok(Invoked {
            ending,
            left: activations.left,
        }),
        None => unreachable!(),
    }
}
