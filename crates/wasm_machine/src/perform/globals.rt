//! Globals (WebAssembly Core 2.0, section 4.4.5), and references to functions (4.4.2).

ghost use Rattle.std.specs.Prelude.{◌≡◌, ◌≢◌, ◌<◌, [], Some, length, slice_get};
ghost use Rattle.wasm_store.specs.Store.{instance_at};
ghost use Rattle.wasm_store.specs.Whole.{IsLater};
ghost use Rattle.wasm_machine.specs.View.{values_of, operands_of};
ghost use Rattle.wasm_machine.specs.Steps.{Performs};
ghost use Rattle.wasm_machine.specs.Classes.{performed, Names, IsSettable};

use crate::frame::WasmFrame;
use wasm_store::Store;
use wasm_syntax::{FuncAddr, GlobalAddr, Simple, Value};

impl WasmFrame {
    #[inline]
    fn func_addr(&self, store: &Store, x: u32) -> FuncAddr
        requires live { self.now.instance.0 < length store.now.instances }
        requires there { x < length (instance_at store.now self.now.instance).funcs }
        ensures { slice_get (instance_at store.now self.now.instance).funcs x ≡ Some result }
    {
        let funcs = store.instance(self.instance()).funcs.as_slice();
        funcs[x as usize]
    }

    #[inline]
    fn global_addr(&self, store: &Store, x: u32) -> GlobalAddr
        requires live { self.now.instance.0 < length store.now.instances }
        requires there { x < length (instance_at store.now self.now.instance).globals }
        ensures { slice_get (instance_at store.now self.now.instance).globals x ≡ Some result }
    {
        let globals = store.instance(self.instance()).globals.as_slice();
        globals[x as usize]
    }

    #[inline]
    pub(crate) fn ref_func(&mut self, store: &Store, x: u32)
        requires live { self.old.instance.0 < length store.now.instances }
        requires there { x < length (instance_at store.now self.old.instance).funcs }
        requires room { operands_of self.old < self.old.room }
        ensures { Performs (performed store.now self.old (Simple.RefFunc x)) store.now self.old self.new }
    {
        let a = self.func_addr(store, x);
        self.push(Value::Func(a));
    }

    #[inline]
    pub(crate) fn global_get(&mut self, store: &Store, x: u32)
        requires live { self.old.instance.0 < length store.now.instances }
        requires there { Names (instance_at store.now self.old.instance).globals x (λ a. a.0 < length store.now.globals) }
        requires room { operands_of self.old < self.old.room }
        ensures { Performs (performed store.now self.old (Simple.GlobalGet x)) store.now self.old self.new }
    {
        let a = self.global_addr(store, x);
        self.push(store.global_get(a));
    }

    #[inline]
    pub(crate) fn global_set(&mut self, store: &mut Store, x: u32)
        requires live { self.old.instance.0 < length store.old.instances }
        requires there { Names (instance_at store.old self.old.instance).globals x (λ a. IsSettable store.old a (values_of self.old)) }
        requires some { values_of self.old ≢ [] }
        ensures performs { Performs (performed store.old self.old (Simple.GlobalSet x)) store.new self.old self.new }
        ensures later { IsLater store.old store.new }
    {
        let a = self.global_addr(store, x);
        let value = self.pop();
        store.global_set(a, value);
    }
}
