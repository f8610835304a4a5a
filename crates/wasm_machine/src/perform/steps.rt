//! Simple instructions, and those on operands alone, as steps.

ghost use Rattle.std.specs.Prelude.{◌≡◌, ◌≢◌, IfOk, OnErr};
ghost use Rattle.wasm_store.specs.Whole.{IsLater};
ghost use Rattle.wasm_machine.specs.Classes.{IsOperand};
ghost use Rattle.wasm_machine.specs.Stepping.{At, Stepped};

use crate::frame::{Effect, WasmFrame};
use crate::laws::frames_stay;
use std::alloc::{AllocError, Global};
use wasm_store::Store;
use wasm_store::laws::order;
use wasm_syntax::{Simple, Sort};

impl WasmFrame {
    /// A simple instruction that was fetched.
    #[inline]
    pub(crate) fn step_simple(
        &mut self,
        alloc: Global,
        store: &mut Store,
        instr: Simple,
    ) -> Result<Effect, AllocError>
        requires { At store.old (Sort.Simple instr) self.old }
        ensures ok { IfOk result (λ e. Stepped store.old self.old e store.new self.new) }
        ensures later { IsLater store.old store.new }
        ensures refused { OnErr result ((store.new ≡ store.old) × (self.new ≡ self.old)) }
    {
        match instr {
            Simple::MemoryGrow => self.step_memory_grow(alloc, store),
            _ => self.step_other(alloc, store, instr),
        }
    }

    // One other than memory.grow.
    #[inline]
    fn step_other(
        &mut self,
        alloc: Global,
        store: &mut Store,
        instr: Simple,
    ) -> Result<Effect, AllocError>
        requires at { At store.old (Sort.Simple instr) self.old }
        requires other { instr ≢ Simple.MemoryGrow }
        ensures ok { IfOk result (λ e. Stepped store.old self.old e store.new self.new) }
        ensures later { IsLater store.old store.new }
        ensures refused { OnErr result ((store.new ≡ store.old) × (self.new ≡ self.old)) }
    {
        order();
        frames_stay();
        store.whole();
        match self.simple(alloc, store, instr) {
            Ok(Ok(())) => Ok(Effect::Went),
            Ok(Err(trap)) => Ok(Effect::Trapped(trap)),
            Err(error) => Err(error),
        }
    }

    // A memory.grow, which tells its embedder where a memory has grown.
    fn step_memory_grow(&mut self, alloc: Global, store: &mut Store) -> Result<Effect, AllocError>
        requires { At store.old (Sort.Simple Simple.MemoryGrow) self.old }
        ensures ok { IfOk result (λ e. Stepped store.old self.old e store.new self.new) }
        ensures later { IsLater store.old store.new }
        ensures refused { OnErr result ((store.new ≡ store.old) × (self.new ≡ self.old)) }
    {
        frames_stay();
        store.whole();
        match self.memory_grow(alloc, store) {
            Ok(Some(memory)) => Ok(Effect::Grew { memory }),
            Ok(None) => Ok(Effect::Went),
            Err(error) => Err(error),
        }
    }

    /// An instruction on operands alone that was fetched.
    #[inline]
    pub(crate) fn step_operand(&mut self, store: &Store, sort: Sort)
        requires at { At store.now sort self.old }
        requires operand { IsOperand sort }
        ensures { Stepped store.now self.old Effect.Went store.now self.new }
    {
        order();
        frames_stay();
        let _ = store;
        match sort {
            Sort::Drop => self.drop_value(),
            Sort::Select => self.select(),
            Sort::SelectTyped => self.select(),
            Sort::RefIsNull => self.is_null(),
            _ => unreachable!(),
        }
    }
}
