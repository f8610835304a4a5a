//! Indirect calls (WebAssembly Core 2.0, section 4.4.8).

ghost use Rattle.std.specs.Prelude.{◌≡◌, ◌<◌, Some, None, length, slice_get, IfOk, OnErr};
ghost use Rattle.wasm_store.specs.Store.{table_at};
ghost use Rattle.wasm_store.specs.Whole.{IsLive};
ghost use Rattle.wasm_machine.specs.Reduction.{same_types, same_func_type};
ghost use Rattle.wasm_machine.specs.Indirect.{entry_target, IsThere, Targets};
ghost use Rattle.wasm_machine.specs.Stepping.{At, Stepped};

use crate::frame::{Effect, WasmFrame};
use std::alloc::{AllocError, Global};
use wasm_store::Store;
use wasm_syntax::{FuncAddr, FuncType, Sort, TableAddr, Trap, ValType, Value};

fn same_types(a: &[ValType], b: &[ValType]) -> bool
    ensures { result ≡ same_types a.now b.now }
{
    if a.len() != b.len() {
        return false;
    }
    for i in 0..a.len() {
        if !a[i].is_same(b[i]) {
            return false;
        }
    }
    true
}

fn same_func_type(a: &FuncType, b: &FuncType) -> bool
    ensures { result ≡ same_func_type a.now b.now }
{
    same_types(a.params.as_slice(), b.params.as_slice())
        && same_types(a.results.as_slice(), b.results.as_slice())
}

/// The function of an entry of a table, where it is of this type.
fn target_of(store: &Store, wanted: &FuncType, entry: Value) -> Result<FuncAddr, Trap>
    requires { IsLive store.now entry }
    ensures target { result ≡ entry_target store.now wanted.now (Some entry) }
    ensures live { IfOk result (λ a. a.0 < length store.now.functions) }
{
    match entry {
        Value::Func(func) => {
            if same_func_type(wanted, store.func(func).ty()) {
                Ok(func)
            } else {
                Err(Trap::WrongType)
            }
        }
        _ => Err(Trap::NullEntry),
    }
}

/// The function at a place of a table, where it is of this type.
fn target_at(store: &Store, wanted: &FuncType, table: TableAddr, k: u32) -> Result<FuncAddr, Trap>
    requires { table.0 < length store.now.tables }
    ensures target { result ≡ entry_target store.now wanted.now (slice_get (table_at store.now table).entries k) }
    ensures live { IfOk result (λ a. a.0 < length store.now.functions) }
{
    match store.table_get(table, k) {
        Ok(entry) => target_of(store, wanted, entry),
        Err(_) => Err(Trap::TableRange),
    }
}

impl WasmFrame {
    // The function that an indirect call finds, or why it traps.
    fn target(&self, store: &Store, ty: u32, table: u32, k: u32) -> Result<FuncAddr, Trap>
        requires { IsThere store.now ty table self.now }
        ensures { Targets store.now ty table k self.now result }
    {
        let tables = store.instance(self.instance()).tables.as_slice();
        let address = tables[table as usize];
        let module = store.module(self.module_addr()).module();
        match module.types.get(ty as usize) {
            Some(wanted) => target_at(store, wanted, address, k),
            None => unreachable!(),
        }
    }

    #[inline]
    pub(crate) fn step_call_indirect(
        &mut self,
        alloc: Global,
        store: &Store,
        ty: u32,
        table: u32,
    ) -> Result<Effect, AllocError>
        requires { At store.now (Sort.CallIndirect ty table) self.old }
        ensures ok { IfOk result (λ e. Stepped store.now self.old e store.now self.new) }
        ensures refused { OnErr result (self.new ≡ self.old) }
    {
        store.whole();
        let number = self.pop_number();
        match self.target(store, ty, table, number) {
            Ok(func) => match self.call(alloc, store, func) {
                Ok(args) => Ok(Effect::Call { func, args }),
                Err(refused) => {
                    self.push(Value::I32(number));
                    Err(refused)
                }
            },
            Err(trap) => Ok(Effect::Trapped(trap)),
        }
    }
}
