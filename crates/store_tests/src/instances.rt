//! Instances of one module, globals and functions.

ghost use Rattle.std.specs.Prelude.{◌≡◌, ◌<◌, ◌≤◌, length, true, IfOk};
ghost use Rattle.wasm_valid.specs.ModuleRules.{is_table};
ghost use Rattle.wasm_store.specs.Store.{global_at};
ghost use Rattle.store_tests.specs.Kept.{one_table, HasModule, IsLiveInstance, IsOfHost, KeepsModules};

use crate::calls::value;
use sqlite_items::Items;
use std::alloc::Global;
use std::test::Fail;
use wasm_store::{FuncInst, Instance, SharedType, Store};
use wasm_syntax::{
    FuncType, GlobalType, InstAddr, Limit, Module, ModuleAddr, TableAddr, TableType, ValType, Value,
};
use wasm_valid::validate;

/// A table of one entry, of values of the host.
const TABLE: TableType = TableType {
    elem: ValType::ExternRef,
    limit: Limit { min: 1, max: None },
};

/// A module with one table and nothing else.
fn with_table(alloc: Global) -> Result<Module, Fail>
    ensures { IfOk result (λ made. made ≡ one_table TABLE) }
{
    Ok(Module {
        types: Items::new(alloc),
        imports: Items::new(alloc),
        funcs: Items::new(alloc),
        tables: Items::from_slice(alloc, &[TABLE])?,
        mems: Items::new(alloc),
        globals: Items::new(alloc),
        exports: Items::new(alloc),
        start: None,
        elems: Items::new(alloc),
        data_count: None,
        datas: Items::new(alloc),
        blocks: Items::new(alloc),
    })
}

/// That module in a store.
fn add(store: &mut Store, alloc: Global) -> Result<ModuleAddr, Fail>
    ensures { IfOk result (λ a. HasModule store.new a TABLE) }
{
    let made = with_table(alloc)?;
    match validate(alloc, made) {
        Ok(valid) => Ok(store.add_module(alloc, valid)?),
        Err(_) => Err("not valid".into()),
    }
}

/// An instance of it with a table of its own, whose one entry has this number.
fn instantiate(
    store: &mut Store,
    alloc: Global,
    a: ModuleAddr,
    n: u64,
) -> Result<(InstAddr, TableAddr), Fail>
    requires { HasModule store.old a TABLE }
    ensures live { IfOk result (λ made. IsLiveInstance store.new made.0) }
    ensures table { IfOk result (λ made. made.1.0 < length store.new.tables) }
    ensures still { IfOk result (λ _. HasModule store.new a TABLE) }
    ensures keeps { KeepsModules store.old store.new }
{
    let i = store.alloc_instance(alloc, Instance::blank(alloc, a))?;
    let Some(table) = store.alloc_table(alloc, TABLE, value(n))? else {
        return Err("no table".into());
    };
    let mut lists = Instance::blank(alloc, a);
    lists.tables.push(table)?;
    store.set_instance(i, lists);
    Ok((i, table))
}

/// Whether an instance has this table, whose first entry has this number.
fn has(store: &Store, i: InstAddr, table: TableAddr, n: u64) -> bool
    requires instance { IsLiveInstance store.now i }
    requires table { table.0 < length store.now.tables }
{
    store.instance(i).tables.get(0) == Some(&table) && store.table_get(table, 0) == Ok(value(n))
}

#[test]
fn each_instance_has_a_table_of_its_own(rt: HostRuntime) -> Result<(), Fail> {
    let alloc = rt.alloc();
    let mut store = Store::new(alloc);
    let a = add(&mut store, alloc)?;
    for n in 1..11 {
        let (i, table) = instantiate(&mut store, alloc, a, n)?;
        assert_eq!(rt; i.0, n - 1);
        assert!(rt; has(&store, i, table, n));
    }
    assert_eq!(rt; store.module(a).module().tables.len(), 1);
    Ok(())
}

/// A global is read as it was written, and another stays.
fn globals(store: &mut Store, alloc: Global) -> Result<bool, Fail> {
    let ty = GlobalType {
        val: ValType::I64,
        mutable: true,
    };
    let a = store.alloc_global(alloc, ty, Value::I64(5))?;
    let b = store.alloc_global(alloc, ty, Value::I64(6))?;
    store.global_set(a, Value::I64(18_446_744_073_709_551_615));
    Ok(
        store.global_get(a) == Value::I64(18_446_744_073_709_551_615)
            && store.global_get(b) == Value::I64(6)
            && store.global_type(a) == ty,
    )
}

/// Functions that share a type are found again with it.
fn functions(store: &mut Store, alloc: Global) -> Result<bool, Fail> {
    let ty = FuncType {
        params: Items::from_slice(alloc, &[ValType::I32])?,
        results: Items::new(alloc),
    };
    let ty = SharedType::new(alloc, ty)?;
    let again = ty.clone()?;
    let a = store.alloc_func(alloc, FuncInst::Host { ty, callee: 7 })?;
    let b = store.alloc_func(
        alloc,
        FuncInst::Suspending {
            ty: again,
            callee: 8,
        },
    )?;
    Ok(
        store.func(a).ty().params.len() == 1
            && store.func(b).ty().params.len() == 1
            && matches!(store.func(a), FuncInst::Host { callee: 7, .. })
            && matches!(store.func(b), FuncInst::Suspending { callee: 8, .. }),
    )
}

#[test]
fn globals_and_functions_are_found_again(rt: HostRuntime) -> Result<(), Fail> {
    let alloc = rt.alloc();
    let mut store = Store::new(alloc);
    assert!(rt; globals(&mut store, alloc)?);
    assert!(rt; functions(&mut store, alloc)?);
    Ok(())
}
