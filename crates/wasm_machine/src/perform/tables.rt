//! Tables and element segments (WebAssembly Core 2.0, section 4.4.6).

ghost use Rattle.std.specs.Prelude.{◌≡◌, ◌≢◌, ◌<◌, ◌≤◌, [], ◌∷◌, Some, length, slice_get, OnOk, OnErr};
ghost use Rattle.wasm_store.specs.Store.{instance_at, table_at, element_at};
ghost use Rattle.wasm_store.specs.Whole.{IsLater, AreTyped};
ghost use Rattle.wasm_machine.specs.View.{values_of, operands_of};
ghost use Rattle.wasm_machine.specs.Control.{IsNumberFirst};
ghost use Rattle.wasm_machine.specs.Steps.{Performs};
ghost use Rattle.wasm_machine.specs.Classes.{performed, Ends, Names, IsFirstTyped, IsSecondTyped, IsOverNumber, IsUnderNumber, IsBetweenNumbers, IsThreeNumbers, IsLiveTable};

use crate::frame::WasmFrame;
use std::alloc::{AllocError, Global};
use wasm_store::Store;
use wasm_syntax::{ElemAddr, Simple, TableAddr, Trap, Value};

impl WasmFrame {
    #[inline]
    pub(crate) fn table_addr(&self, store: &Store, x: u32) -> TableAddr
        requires live { self.now.instance.0 < length store.now.instances }
        requires there { x < length (instance_at store.now self.now.instance).tables }
        ensures { slice_get (instance_at store.now self.now.instance).tables x ≡ Some result }
    {
        let tables = store.instance(self.instance()).tables.as_slice();
        tables[x as usize]
    }

    #[inline]
    fn elem_addr(&self, store: &Store, x: u32) -> ElemAddr
        requires live { self.now.instance.0 < length store.now.instances }
        requires there { x < length (instance_at store.now self.now.instance).elems }
        ensures { slice_get (instance_at store.now self.now.instance).elems x ≡ Some result }
    {
        let elems = store.instance(self.instance()).elems.as_slice();
        elems[x as usize]
    }

    #[inline]
    pub(crate) fn table_get(&mut self, store: &Store, x: u32) -> Result<(), Trap>
        requires live { self.old.instance.0 < length store.now.instances }
        requires there { Names (instance_at store.now self.old.instance).tables x (IsLiveTable store.now) }
        requires tops { IsNumberFirst (values_of self.old) }
        requires room { operands_of self.old ≤ self.old.room }
        ensures { Ends store.now (Simple.TableGet x) self.old result store.now self.new }
    {
        let a = self.table_addr(store, x);
        let k = self.pop_number();
        match store.table_get(a, k) {
            Ok(value) => {
                self.push(value);
                Ok(())
            }
            Err(_) => Err(Trap::TableRange),
        }
    }

    #[inline]
    pub(crate) fn table_set(&mut self, store: &mut Store, x: u32) -> Result<(), Trap>
        requires live { self.old.instance.0 < length store.old.instances }
        requires there { Names (instance_at store.old self.old.instance).tables x (λ a. IsLiveTable store.old a × IsFirstTyped store.old (values_of self.old) (table_at store.old a).elem) }
        requires tops { IsOverNumber (values_of self.old) }
        ensures ends { Ends store.old (Simple.TableSet x) self.old result store.new self.new }
        ensures later { IsLater store.old store.new }
    {
        let a = self.table_addr(store, x);
        let value = self.pop();
        let k = self.pop_number();
        match store.table_set(a, k, value) {
            Ok(()) => Ok(()),
            Err(_) => Err(Trap::TableRange),
        }
    }

    #[inline]
    pub(crate) fn table_size(&mut self, store: &Store, x: u32)
        requires live { self.old.instance.0 < length store.now.instances }
        requires there { Names (instance_at store.now self.old.instance).tables x (IsLiveTable store.now) }
        requires room { operands_of self.old < self.old.room }
        ensures { Performs (performed store.now self.old (Simple.TableSize x)) store.now self.old self.new }
    {
        let a = self.table_addr(store, x);
        self.push(Value::I32(store.table_type(a).limit.min));
    }

    pub(crate) fn table_grow(
        &mut self,
        alloc: Global,
        store: &mut Store,
        x: u32,
    ) -> Result<(), AllocError>
        requires live { self.old.instance.0 < length store.old.instances }
        requires there { Names (instance_at store.old self.old.instance).tables x (λ a. IsLiveTable store.old a × IsSecondTyped store.old (values_of self.old) (table_at store.old a).elem) }
        requires tops { IsUnderNumber (values_of self.old) }
        requires room { operands_of self.old ≤ self.old.room }
        ensures ok { OnOk result (Performs (performed store.old self.old (Simple.TableGrow x)) store.new self.old self.new) }
        ensures later { IsLater store.old store.new }
        ensures refused { OnErr result (store.new ≡ store.old) }
        ensures frame_refused { OnErr result (self.new ≡ self.old) }
    {
        let a = self.table_addr(store, x);
        let delta = self.pop_number();
        let init = self.pop();
        match store.grow_table(alloc, a, delta, init) {
            Ok(Some(size)) => {
                self.push(Value::I32(size));
                Ok(())
            }
            Ok(None) => {
                self.push(Value::I32(u32::MAX));
                Ok(())
            }
            Err(error) => {
                self.push(init);
                self.push(Value::I32(delta));
                Err(error)
            }
        }
    }

    pub(crate) fn table_fill(&mut self, store: &mut Store, x: u32) -> Result<(), Trap>
        requires live { self.old.instance.0 < length store.old.instances }
        requires there { Names (instance_at store.old self.old.instance).tables x (λ a. IsLiveTable store.old a × IsSecondTyped store.old (values_of self.old) (table_at store.old a).elem) }
        requires tops { IsBetweenNumbers (values_of self.old) }
        ensures ends { Ends store.old (Simple.TableFill x) self.old result store.new self.new }
        ensures later { IsLater store.old store.new }
    {
        let a = self.table_addr(store, x);
        let n = self.pop_number();
        let value = self.pop();
        let at = self.pop_number();
        store.table_fill(a, at, value, n)
    }

    pub(crate) fn table_copy(&mut self, store: &mut Store, to: u32, from: u32) -> Result<(), Trap>
        requires live { self.old.instance.0 < length store.old.instances }
        requires there { Names (instance_at store.old self.old.instance).tables to (IsLiveTable store.old) }
        requires there_from { Names (instance_at store.old self.old.instance).tables from (IsLiveTable store.old) }
        requires same { Names (instance_at store.old self.old.instance).tables to (λ a. Names (instance_at store.old self.old.instance).tables from (λ b. (table_at store.old b).elem ≡ (table_at store.old a).elem)) }
        requires tops { IsThreeNumbers (values_of self.old) }
        ensures ends { Ends store.old (Simple.TableCopy to from) self.old result store.new self.new }
        ensures later { IsLater store.old store.new }
    {
        let a = self.table_addr(store, to);
        let b = self.table_addr(store, from);
        let n = self.pop_number();
        let source = self.pop_number();
        let at = self.pop_number();
        store.table_copy(a, b, at, source, n)
    }

    pub(crate) fn table_init(
        &mut self,
        store: &mut Store,
        elem: u32,
        table: u32,
    ) -> Result<(), Trap>
        requires live { self.old.instance.0 < length store.old.instances }
        requires there { Names (instance_at store.old self.old.instance).tables table (IsLiveTable store.old) }
        requires there_segment { Names (instance_at store.old self.old.instance).elems elem (λ e. e.0 < length store.old.elements) }
        requires typed { Names (instance_at store.old self.old.instance).tables table (λ a. Names (instance_at store.old self.old.instance).elems elem (λ e. AreTyped store.old (element_at store.old e) (table_at store.old a).elem)) }
        requires tops { IsThreeNumbers (values_of self.old) }
        ensures ends { Ends store.old (Simple.TableInit elem table) self.old result store.new self.new }
        ensures later { IsLater store.old store.new }
    {
        let a = self.table_addr(store, table);
        let e = self.elem_addr(store, elem);
        let n = self.pop_number();
        let source = self.pop_number();
        let at = self.pop_number();
        store.table_init(a, e, at, source, n)
    }

    pub(crate) fn elem_drop(&mut self, store: &mut Store, x: u32)
        requires live { self.old.instance.0 < length store.old.instances }
        requires there { Names (instance_at store.old self.old.instance).elems x (λ e. e.0 < length store.old.elements) }
        ensures performs { Performs (performed store.old self.old (Simple.ElemDrop x)) store.new self.old self.new }
        ensures later { IsLater store.old store.new }
    {
        let e = self.elem_addr(store, x);
        store.elem_drop(e);
    }
}
