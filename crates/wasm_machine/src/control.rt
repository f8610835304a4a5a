//! Control instructions (WebAssembly Core 2.0, section 4.4.8).

ghost use Rattle.std.specs.Prelude.{◌≡◌, ◌<◌, ◌≤◌, ◌∷◌, length, IfOk, OnErr};
ghost use Rattle.wasm_machine.specs.View.{values_of, with_values, module_for, operands_of};
ghost use Rattle.wasm_machine.specs.Control.{IsNumberFirst, CanBegin, Begins, CanBranch, Branches, chosen_label, IsBehind, CanCall, Calls, Ends};

use crate::frame::{Effect, WasmFrame};
use std::alloc::{AllocError, Global};
use wasm_store::Store;
use wasm_syntax::{BlockId, BlockType, FuncAddr, Value};

impl WasmFrame {
    // The topmost operand, a number of 32 bits.
    #[inline]
    pub(crate) fn pop_number(&mut self) -> u32
        requires { IsNumberFirst (values_of self.old) }
        ensures value { values_of self.old ≡ Value.I32 result ∷ values_of self.new }
        ensures rest { self.new ≡ with_values (values_of self.new) self.old }
    {
        match self.pop() {
            Value::I32(number) => number,
            _ => unreachable!(),
        }
    }

    // Begins a block in a label of its own.
    #[inline]
    pub(crate) fn begin(&mut self, store: &Store, again: bool, ty: BlockType, id: BlockId)
        requires live { self.old.module.0 < length store.now.modules }
        requires can { CanBegin (module_for store.now self.old) ty self.old }
        ensures { Begins (module_for store.now self.old) again ty id self.old self.new }
    {
        let module = store.module(self.module_addr()).module();
        match module.block_type(ty) {
            Some(signature) => {
                let params = signature.params.len();
                if again {
                    self.open(params, params, Some(ty), id);
                } else {
                    self.open(params, signature.results.len(), None, id);
                }
            }
            None => unreachable!(),
        }
    }

    // A branch to the label with this number, counted outward from the innermost one.
    #[inline]
    pub(crate) fn br(&mut self, alloc: Global, label: u32) -> Result<Effect, AllocError>
        requires { CanBranch label self.old }
        ensures ok { IfOk result (λ e. Branches label self.old e self.new) }
        ensures refused { OnErr result (self.new ≡ self.old) }
    {
        let label = label as usize;
        if label < self.depth() {
            self.branch(label);
            Ok(Effect::Went)
        } else {
            let values = self.last_values(alloc, self.results())?;
            Ok(Effect::Returned(values))
        }
    }

    // The label that a br_table chooses.
    pub(crate) fn table_label(&self, store: &Store, default: u32, k: u32) -> u32
        requires live { self.now.module.0 < length store.now.modules }
        requires behind { IsBehind (module_for store.now self.now) self.now }
        ensures { result ≡ chosen_label (module_for store.now self.now) self.now default k }
    {
        let code = store.module(self.module_addr()).module().code(self.block());
        let labels = code[self.at() - 1].labels();
        match labels.get(k as usize) {
            Some(label) => *label,
            None => default,
        }
    }

    // A call of a function, whose arguments are taken off.
    #[inline]
    pub(crate) fn call(
        &mut self,
        alloc: Global,
        store: &Store,
        func: FuncAddr,
    ) -> Result<Vec<Value>, AllocError>
        requires { CanCall store.now func self.old }
        ensures ok { IfOk result (λ args. Calls store.now func args.items self.old self.new) }
        ensures refused { OnErr result (self.new ≡ self.old) }
    {
        let n = store.func(func).ty().params.len();
        let args = self.last_values(alloc, n)?;
        self.drop_values(n);
        Ok(args)
    }

    // The innermost list has ended.
    #[inline]
    pub(crate) fn end_list(&mut self, alloc: Global) -> Result<Effect, AllocError>
        requires { length self.old.outer ≡ 0 → self.old.results ≤ length (values_of self.old) }
        ensures ok { IfOk result (λ e. Ends self.old e self.new) }
        ensures refused { OnErr result (self.new ≡ self.old) }
    {
        if self.depth() == 0 {
            let values = self.last_values(alloc, self.results())?;
            Ok(Effect::Returned(values))
        } else {
            self.leave();
            Ok(Effect::Went)
        }
    }
}
