//! Steps.

ghost use Rattle.std.specs.Prelude.{◌≡◌, IfOk, OnErr};
ghost use Rattle.std.specs.Prelude.{List, []};
ghost use Rattle.wasm_syntax.specs.declared.types.ValType.{ValType};
ghost use Rattle.wasm_machine.specs.View.{rest_of, module_for, term_of};
ghost use Rattle.wasm_machine.specs.Fits.{Fits};
ghost use Rattle.wasm_machine.specs.Terms.{FrameState};
ghost use Rattle.wasm_machine.specs.Growth.{grown_in, growth_of};
ghost use Rattle.wasm_machine.specs.Steps.{Makes, LeavesFit};
ghost use Rattle.wasm_machine.specs.Stepping.{At, Stepped};
ghost use Rattle.wasm_store.specs.Whole.{IsLater};

use crate::frame::{Effect, WasmFrame};
use std::alloc::{AllocError, Global};
use wasm_store::Store;
use wasm_store::laws::order;
use wasm_syntax::{Nesting, Sort, Trap, Value};

impl WasmFrame {
    // A block, loop or if.
    #[inline]
    fn step_nested(&mut self, store: &Store, nesting: Nesting)
        requires { At store.now (Sort.Nested nesting) self.old }
        ensures { Stepped store.now self.old Effect.Went store.now self.new }
    {
        match nesting.other {
            None => self.begin(store, nesting.again, nesting.ty, nesting.body),
            Some(other) => {
                if self.pop_number() == 0 {
                    self.begin(store, nesting.again, nesting.ty, other);
                } else {
                    self.begin(store, nesting.again, nesting.ty, nesting.body);
                }
            }
        }
    }

    #[inline]
    fn step_br(&mut self, alloc: Global, store: &Store, label: u32) -> Result<Effect, AllocError>
        requires { At store.now (Sort.Br label) self.old }
        ensures ok { IfOk result (λ e. Stepped store.now self.old e store.now self.new) }
        ensures refused { OnErr result (self.new ≡ self.old) }
    {
        let effect = self.br(alloc, label)?;
        Ok(effect)
    }

    #[inline]
    fn step_br_if(&mut self, alloc: Global, store: &Store, label: u32) -> Result<Effect, AllocError>
        requires { At store.now (Sort.BrIf label) self.old }
        ensures ok { IfOk result (λ e. Stepped store.now self.old e store.now self.new) }
        ensures refused { OnErr result (self.new ≡ self.old) }
    {
        let number = self.pop_number();
        if number == 0 {
            return Ok(Effect::Went);
        }
        match self.br(alloc, label) {
            Ok(effect) => Ok(effect),
            Err(refused) => {
                self.push(Value::I32(number));
                Err(refused)
            }
        }
    }

    #[inline]
    fn step_br_table(
        &mut self,
        alloc: Global,
        store: &Store,
        default: u32,
    ) -> Result<Effect, AllocError>
        requires { At store.now (Sort.BrTable default) self.old }
        ensures ok { IfOk result (λ e. Stepped store.now self.old e store.now self.new) }
        ensures refused { OnErr result (self.new ≡ self.old) }
    {
        let number = self.pop_number();
        let label = self.table_label(store, default, number);
        match self.br(alloc, label) {
            Ok(effect) => Ok(effect),
            Err(refused) => {
                self.push(Value::I32(number));
                Err(refused)
            }
        }
    }

    #[inline]
    fn step_return(&mut self, alloc: Global, store: &Store) -> Result<Effect, AllocError>
        requires { At store.now Sort.Return self.old }
        ensures ok { IfOk result (λ e. Stepped store.now self.old e store.now self.new) }
        ensures refused { OnErr result (self.new ≡ self.old) }
    {
        let values = self.last_values(alloc, self.results())?;
        Ok(Effect::Returned(values))
    }

    #[inline]
    fn step_call(&mut self, alloc: Global, store: &Store, index: u32) -> Result<Effect, AllocError>
        requires { At store.now (Sort.Call index) self.old }
        ensures ok { IfOk result (λ e. Stepped store.now self.old e store.now self.new) }
        ensures refused { OnErr result (self.new ≡ self.old) }
    {
        let funcs = store.instance(self.instance()).funcs.as_slice();
        let func = funcs[index as usize];
        let args = self.call(alloc, store, func)?;
        Ok(Effect::Call { func, args })
    }

    // The innermost list has ended.
    #[inline]
    fn step_end(&mut self, alloc: Global, store: &Store) -> Result<Effect, AllocError>
        requires fits { (R : List ValType) × Fits store.now R self.old }
        requires ended { rest_of (module_for store.now self.old) self.old ≡ [] }
        ensures makes { IfOk result (λ e. Makes store.now (term_of store.now self.old) e store.now self.new) }
        ensures grew { IfOk result (λ e. (F : FrameState) → grown_in e ≡ growth_of store.now F (term_of store.now self.old)) }
        ensures fits { IfOk result (λ e. (R : List ValType) → Fits store.now R self.old → LeavesFit R e store.now self.new) }
        ensures refused { OnErr result (self.new ≡ self.old) }
    {
        let effect = self.end_list(alloc)?;
        Ok(effect)
    }

    // The instruction that was fetched last.
    fn perform(
        &mut self,
        alloc: Global,
        store: &mut Store,
        sort: Sort,
    ) -> Result<Effect, AllocError>
        requires { At store.old sort self.old }
        ensures ok { IfOk result (λ e. Stepped store.old self.old e store.new self.new) }
        ensures later { IsLater store.old store.new }
        ensures refused { OnErr result ((store.new ≡ store.old) × (self.new ≡ self.old)) }
    {
        order();
        match sort {
            Sort::Simple(simple) => {
                let effect = self.step_simple(alloc, store, simple)?;
                Ok(effect)
            }
            Sort::Nested(nesting) => {
                self.step_nested(store, nesting);
                Ok(Effect::Went)
            }
            Sort::Unreachable => Ok(Effect::Trapped(Trap::Unreachable)),
            Sort::Br(label) => {
                let effect = self.step_br(alloc, store, label)?;
                Ok(effect)
            }
            Sort::BrIf(label) => {
                let effect = self.step_br_if(alloc, store, label)?;
                Ok(effect)
            }
            Sort::BrTable(default) => {
                let effect = self.step_br_table(alloc, store, default)?;
                Ok(effect)
            }
            Sort::Return => {
                let effect = self.step_return(alloc, store)?;
                Ok(effect)
            }
            Sort::Call(index) => {
                let effect = self.step_call(alloc, store, index)?;
                Ok(effect)
            }
            Sort::CallIndirect { ty, table } => {
                let effect = self.step_call_indirect(alloc, store, ty, table)?;
                Ok(effect)
            }
            Sort::Drop => {
                self.step_operand(store, Sort::Drop);
                Ok(Effect::Went)
            }
            Sort::Select => {
                self.step_operand(store, Sort::Select);
                Ok(Effect::Went)
            }
            Sort::SelectTyped => {
                self.step_operand(store, Sort::SelectTyped);
                Ok(Effect::Went)
            }
            Sort::RefIsNull => {
                self.step_operand(store, Sort::RefIsNull);
                Ok(Effect::Went)
            }
        }
    }

    /// One step. It makes one rewriting of the frame's term, of which at most one is charged, and with each effect but `Went` and `Grew`
    /// the call, the values or the trap that it names is then at work. `Grew` comes exactly at a `memory.grow` that doesn't give -1. The
    /// error comes only where memory is wanting for the values of a call or a return, or for the growth of a table or a memory: frame
    /// and store are then as before.
    pub fn step(&mut self, alloc: Global, store: &mut Store) -> Result<Effect, AllocError>
        requires { (R : List ValType) × Fits store.old R self.old }
        ensures makes { IfOk result (λ e. Makes store.old (term_of store.old self.old) e store.new self.new) }
        ensures grew { IfOk result (λ e. (F : FrameState) → grown_in e ≡ growth_of store.old F (term_of store.old self.old)) }
        ensures fits { IfOk result (λ e. (R : List ValType) → Fits store.old R self.old → LeavesFit R e store.new self.new) }
        ensures later { IsLater store.old store.new }
        ensures refused { OnErr result ((store.new ≡ store.old) × (self.new ≡ self.old)) }
    {
        order();
        match self.fetch(store) {
            Some(sort) => match self.perform(alloc, store, sort) {
                Ok(effect) => Ok(effect),
                Err(refused) => {
                    self.back();
                    Err(refused)
                }
            },
            None => {
                let effect = self.step_end(alloc, store)?;
                Ok(effect)
            }
        }
    }
}
