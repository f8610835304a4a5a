//! Allocation of a module (WebAssembly Core 2.0, section 4.5.3.8): each kind in the order of the module.

ghost use Rattle.std.specs.Prelude.{◌≡◌, ◌<◌, ◌≤◌, ◌++◌, true, [], map, length, slice_get, Some, IfOk, OnOk};
ghost use Rattle.std.specs.List.{All};
ghost use Rattle.wasm_syntax.specs.declared.addresses.GlobalAddr.{GlobalAddr};
ghost use Rattle.wasm_valid.specs.ModuleRules.{is_table, is_memory, is_typed_module};
ghost use Rattle.wasm_store.specs.Store.{module_at, instance_at, global_at, most_entries};
ghost use Rattle.wasm_store.specs.Whole.{IsLater, IsFunction, IsGlobal, AreLive};
ghost use Rattle.wasm_store.specs.Allocated.{fresh, func_addr, table_addr, global_addr, mem_addr, elem_addr, data_addr, functions_of, tables_from, memories_from, globals_from, new_items, elements_from, allocated, AreImports};
ghost use Rattle.wasm_instance.specs.Instantiation.{are_tables_within, are_memories_within, is_within_limits};
ghost use Rattle.wasm_instance.specs.Parts.{with_functions, with_tables, with_memories, with_globals, with_elements, with_datas, datas_from, constant_in};

use crate::constants::{null, value};
use sqlite_items::Items;
use std::alloc::{AllocError, Global};
use wasm_store::laws::{modules_are_allocated, order, types_stay};
use wasm_store::{
    FuncInst, GlobalInst, Instance, MOST_ENTRIES, MOST_PAGES, MOST_PAGES_IN_ALL, SharedType, Store,
};
use wasm_syntax::{
    Data, DataAddr, Elem, ElemAddr, Func, FuncAddr, GlobalAddr, GlobalDef, InstAddr, Limit,
    MemAddr, Module, ModuleAddr, TableAddr, TableType, Value,
};

/// Whether none of these tables has more entries than the embedding allows.
fn are_tables_within(tables: &[TableType]) -> bool
    ensures { result ≡ are_tables_within tables.now }
{
    tables.iter().all(|ty| ty.limit.min <= MOST_ENTRIES)
}

/// Whether none of these memories has more pages than the embedding allows, nor have all memories of the store together with them.
fn are_memories_within(store: &Store, limits: &[Limit]) -> bool
    ensures { result ≡ are_memories_within store.now limits.now }
{
    let mut pages = store.pages();
    for limit in limits {
        if limit.min > MOST_PAGES || pages + limit.min > MOST_PAGES_IN_ALL {
            return false;
        }
        pages += limit.min;
    }
    true
}

/// Whether the module passes no limit of the embedding.
pub(crate) fn is_within_limits(store: &Store, module: &Module) -> bool
    ensures { result ≡ is_within_limits store.now «module».now }
{
    are_tables_within(module.tables.as_slice())
        && are_memories_within(store, module.mems.as_slice())
}

fn func_at(module: &Module, k: usize) -> &Func
    requires { k < length «module».now.funcs }
    ensures { slice_get «module».now.funcs k ≡ Some result.now }
{
    &module.funcs.as_slice()[k]
}

/// The types of a module, each of which is copied once, for its functions to share.
fn shared_types(alloc: Global, module: &Module) -> Result<Vec<SharedType>, AllocError>
    ensures { IfOk result (λ types. types.items ≡ «module».now.types) }
{
    let mut types = Vec::with_capacity(alloc, module.types.len())?;
    for ty in module.types.as_slice() {
        let copy = ty.copy(alloc)?;
        types.push(SharedType::new(alloc, copy)?)?;
    }
    Ok(types)
}

fn type_at(types: &[SharedType], x: u32) -> &SharedType
    requires { x < length types.now }
    ensures { slice_get types.now x ≡ Some result.now }
{
    &types[x as usize]
}

/// One of the module's own functions, where these are the types of the module.
fn own_func(
    types: &[SharedType],
    store: &Store,
    a: ModuleAddr,
    i: InstAddr,
    k: usize,
) -> Result<FuncInst, AllocError>
    requires live { a.0 < length store.now.modules }
    requires live_instance { i.0 < length store.now.instances }
    requires of_module { (instance_at store.now i).module ≡ a }
    requires types { types.now ≡ (module_at store.now a).types }
    requires within { k < length (module_at store.now a).funcs }
    ensures value { IfOk result (λ f. slice_get (functions_of (module_at store.now a) i 0 (module_at store.now a).funcs) k ≡ Some f) }
    ensures fits { IfOk result (IsFunction store.now) }
{
    let module = store.module(a).module();
    let own = func_at(module, k);
    let ty = type_at(types, own.ty).clone()?;
    Ok(FuncInst::Wasm {
        ty,
        instance: i,
        index: k as u32,
    })
}

/// The module's own functions, and their addresses behind those that are there.
fn add_functions(
    alloc: Global,
    store: &mut Store,
    a: ModuleAddr,
    i: InstAddr,
    funcs: &mut Items<FuncAddr>,
) -> Result<(), AllocError>
    requires live { a.0 < length store.old.modules }
    requires live_instance { i.0 < length store.old.instances }
    requires of_module { (instance_at store.old i).module ≡ a }
    ensures added { OnOk result (store.new ≡ with_functions (functions_of (module_at store.old a) i 0 (module_at store.old a).funcs) store.old) }
    ensures addresses { OnOk result (funcs.new ≡ funcs.old ++ fresh func_addr (length store.old.functions) (length (module_at store.old a).funcs)) }
    ensures later { IsLater store.old store.new }
{
    order();
    let types = shared_types(alloc, store.module(a).module())?;
    let count = store.module(a).module().funcs.len();
    for k in 0..count {
        let func = own_func(types.as_slice(), store, a, i, k)?;
        funcs.push(store.alloc_func(alloc, func)?)?;
    }
    Ok(())
}

fn table_type(store: &Store, a: ModuleAddr, k: usize) -> TableType
    requires live { a.0 < length store.now.modules }
    requires limits { are_tables_within (module_at store.now a).tables ≡ true }
    requires within { k < length (module_at store.now a).tables }
    ensures value { slice_get (module_at store.now a).tables k ≡ Some result }
    ensures table { is_table result ≡ true }
    ensures few { result.limit.min ≤ most_entries }
{
    store.module(a).module().tables.as_slice()[k]
}

/// The module's own tables, whose entries are null.
fn add_tables(
    alloc: Global,
    store: &mut Store,
    a: ModuleAddr,
    tables: &mut Items<TableAddr>,
) -> Result<(), AllocError>
    requires live { a.0 < length store.old.modules }
    requires limits { are_tables_within (module_at store.old a).tables ≡ true }
    ensures added { OnOk result (store.new ≡ with_tables (tables_from (module_at store.old a).tables) store.old) }
    ensures addresses { OnOk result (tables.new ≡ tables.old ++ fresh table_addr (length store.old.tables) (length (module_at store.old a).tables)) }
    ensures later { IsLater store.old store.new }
{
    order();
    let count = store.module(a).module().tables.len();
    for k in 0..count {
        let ty = table_type(store, a, k);
        match store.alloc_table(alloc, ty, null(ty.elem))? {
            Some(address) => tables.push(address)?,
            None => unreachable!(),
        }
    }
    Ok(())
}

fn global_def(module: &Module, k: usize) -> GlobalDef
    requires { k < length «module».now.globals }
    ensures { slice_get «module».now.globals k ≡ Some result }
{
    module.globals.as_slice()[k]
}

fn memory_type(store: &Store, a: ModuleAddr, k: usize) -> Limit
    requires live { a.0 < length store.now.modules }
    requires within { k < length (module_at store.now a).mems }
    ensures value { slice_get (module_at store.now a).mems k ≡ Some result }
    ensures memory { is_memory result ≡ true }
{
    store.module(a).module().mems.as_slice()[k]
}

/// The module's own memories, whose bytes are zero.
fn add_memories(
    alloc: Global,
    store: &mut Store,
    a: ModuleAddr,
    mems: &mut Items<MemAddr>,
) -> Result<(), AllocError>
    requires live { a.0 < length store.old.modules }
    requires limits { are_memories_within store.old (module_at store.old a).mems ≡ true }
    ensures added { OnOk result (store.new ≡ with_memories (memories_from (module_at store.old a).mems) store.old) }
    ensures addresses { OnOk result (mems.new ≡ mems.old ++ fresh mem_addr (length store.old.memories) (length (module_at store.old a).mems)) }
    ensures later { IsLater store.old store.new }
{
    order();
    let count = store.module(a).module().mems.len();
    for k in 0..count {
        let limit = memory_type(store, a, k);
        match store.alloc_memory(alloc, limit)? {
            Some(address) => mems.push(address)?,
            None => unreachable!(),
        }
    }
    Ok(())
}

fn own_global(
    store: &Store,
    a: ModuleAddr,
    funcs: &[FuncAddr],
    values: &[Value],
    k: usize,
) -> GlobalInst
    requires live { a.0 < length store.now.modules }
    requires within { k < length (module_at store.now a).globals }
    ensures { slice_get (globals_from (constant_in (module_at store.now a) funcs.now values.now) (module_at store.now a).globals) k ≡ Some result }
{
    let module = store.module(a).module();
    let def = global_def(module, k);
    GlobalInst {
        ty: def.ty,
        value: value(module, funcs, values, def.init),
    }
}

/// The module's own globals, where these are its functions and the values of the imported globals.
fn add_globals(
    alloc: Global,
    store: &mut Store,
    a: ModuleAddr,
    funcs: &[FuncAddr],
    values: &[Value],
    globals: &mut Items<GlobalAddr>,
) -> Result<(), AllocError>
    requires live { a.0 < length store.old.modules }
    requires typed { All (IsGlobal store.old) (globals_from (constant_in (module_at store.old a) funcs.now values.now) (module_at store.old a).globals) }
    ensures added { OnOk result (store.new ≡ with_globals (globals_from (constant_in (module_at store.old a) funcs.now values.now) (module_at store.old a).globals) store.old) }
    ensures addresses { OnOk result (globals.new ≡ globals.old ++ fresh global_addr (length store.old.globals) (length (module_at store.old a).globals)) }
    ensures later { IsLater store.old store.new }
{
    order();
    types_stay();
    let count = store.module(a).module().globals.len();
    for k in 0..count {
        let global = own_global(store, a, funcs, values, k);
        globals.push(store.alloc_global(alloc, global.ty, global.value)?)?;
    }
    Ok(())
}

fn elem_at(module: &Module, k: usize) -> &Elem
    requires { k < length «module».now.elems }
    ensures { slice_get «module».now.elems k ≡ Some result.now }
{
    &module.elems.as_slice()[k]
}

/// The references of an element segment.
fn items_of(
    alloc: Global,
    module: &Module,
    segment: &Elem,
    funcs: &[FuncAddr],
    values: &[Value],
) -> Result<Items<Value>, AllocError>
    ensures { IfOk result (λ items. items ≡ new_items (constant_in «module».now funcs.now values.now) segment.now) }
{
    let mut items = Vec::with_capacity(alloc, segment.items.len())?;
    for id in segment.items.as_slice() {
        items.push(value(module, funcs, values, *id))?;
    }
    Ok(Items::from_vec(items))
}

/// One of the module's element segments.
fn own_items(
    alloc: Global,
    store: &Store,
    a: ModuleAddr,
    funcs: &[FuncAddr],
    values: &[Value],
    k: usize,
) -> Result<Items<Value>, AllocError>
    requires live { a.0 < length store.now.modules }
    requires within { k < length (module_at store.now a).elems }
    ensures { IfOk result (λ items. slice_get (elements_from (constant_in (module_at store.now a) funcs.now values.now) (module_at store.now a).elems) k ≡ Some items) }
{
    let module = store.module(a).module();
    let segment = elem_at(module, k);
    let items = items_of(alloc, module, segment, funcs, values)?;
    Ok(items)
}

/// The module's element segments, where these are its functions and the values of the imported globals.
fn add_elements(
    alloc: Global,
    store: &mut Store,
    a: ModuleAddr,
    funcs: &[FuncAddr],
    values: &[Value],
    elems: &mut Items<ElemAddr>,
) -> Result<(), AllocError>
    requires live { a.0 < length store.old.modules }
    requires refs { All (AreLive store.old) (elements_from (constant_in (module_at store.old a) funcs.now values.now) (module_at store.old a).elems) }
    ensures added { OnOk result (store.new ≡ with_elements (elements_from (constant_in (module_at store.old a) funcs.now values.now) (module_at store.old a).elems) store.old) }
    ensures addresses { OnOk result (elems.new ≡ elems.old ++ fresh elem_addr (length store.old.elements) (length (module_at store.old a).elems)) }
    ensures later { IsLater store.old store.new }
{
    order();
    let count = store.module(a).module().elems.len();
    for k in 0..count {
        let items = own_items(alloc, store, a, funcs, values, k)?;
        elems.push(store.alloc_elem(alloc, items)?)?;
    }
    Ok(())
}

fn data_at(module: &Module, k: usize) -> &Data
    requires { k < length «module».now.datas }
    ensures { slice_get «module».now.datas k ≡ Some result.now }
{
    &module.datas.as_slice()[k]
}

/// The bytes of one of the module's data segments.
fn own_bytes(alloc: Global, store: &Store, a: ModuleAddr, k: usize) -> Result<Items<u8>, AllocError>
    requires live { a.0 < length store.now.modules }
    requires within { k < length (module_at store.now a).datas }
    ensures { IfOk result (λ bytes. slice_get (datas_from (module_at store.now a).datas) k ≡ Some bytes) }
{
    let segment = data_at(store.module(a).module(), k);
    let bytes = Items::from_slice(alloc, segment.bytes.as_slice())?;
    Ok(bytes)
}

/// The module's data segments.
fn add_datas(
    alloc: Global,
    store: &mut Store,
    a: ModuleAddr,
    datas: &mut Items<DataAddr>,
) -> Result<(), AllocError>
    requires { a.0 < length store.old.modules }
    ensures added { OnOk result (store.new ≡ with_datas (datas_from (module_at store.old a).datas) store.old) }
    ensures addresses { OnOk result (datas.new ≡ datas.old ++ fresh data_addr (length store.old.datas) (length (module_at store.old a).datas)) }
    ensures later { IsLater store.old store.new }
{
    order();
    let count = store.module(a).module().datas.len();
    for k in 0..count {
        let bytes = own_bytes(alloc, store, a, k)?;
        datas.push(store.alloc_data(alloc, bytes)?)?;
    }
    Ok(())
}

/// These addresses, with room for those of the module's own functions.
fn with_room(
    alloc: Global,
    module: &Module,
    funcs: &[FuncAddr],
) -> Result<Items<FuncAddr>, AllocError>
    ensures { IfOk result (λ all. all ≡ funcs.now) }
{
    let count = funcs.len().saturating_add(module.funcs.len());
    let mut all = Vec::with_capacity(alloc, count)?;
    all.extend_from_slice(funcs)?;
    Ok(Items::from_vec(all))
}

/// The module at `a` with all its things, and the address of its instance. `values` are those of the imported globals.
pub(crate) fn allocate(
    alloc: Global,
    store: &mut Store,
    a: ModuleAddr,
    imports: &Instance,
    values: &[Value],
) -> Result<InstAddr, AllocError>
    requires live { a.0 < length store.old.modules }
    requires typed { is_typed_module (module_at store.old a) ≡ true }
    requires imports { AreImports store.old (module_at store.old a) imports.now }
    requires limits { is_within_limits store.old (module_at store.old a) ≡ true }
    requires values { values.now ≡ map (λ (g : GlobalAddr). (global_at store.old g).value) imports.now.globals }
    ensures address { IfOk result (λ i. i.0 ≡ length store.old.instances) }
    ensures allocated { OnOk result (store.new ≡ allocated a imports.now store.old) }
    ensures later { IsLater store.old store.new }
{
    order();
    modules_are_allocated();
    store.whole();
    let mut funcs = with_room(alloc, store.module(a).module(), imports.funcs.as_slice())?;
    let mut tables = Items::from_slice(alloc, imports.tables.as_slice())?;
    let mut mems = Items::from_slice(alloc, imports.mems.as_slice())?;
    let mut globals = Items::from_slice(alloc, imports.globals.as_slice())?;
    let mut elems = Items::new(alloc);
    let mut datas = Items::new(alloc);
    let instance = store.alloc_instance(alloc, Instance::blank(alloc, a))?;
    add_functions(alloc, store, a, instance, &mut funcs)?;
    add_tables(alloc, store, a, &mut tables)?;
    add_memories(alloc, store, a, &mut mems)?;
    add_globals(alloc, store, a, funcs.as_slice(), values, &mut globals)?;
    add_elements(alloc, store, a, funcs.as_slice(), values, &mut elems)?;
    add_datas(alloc, store, a, &mut datas)?;
    let lists = Instance {
        module: a,
        funcs,
        tables,
        mems,
        globals,
        elems,
        datas,
    };
    store.set_instance(instance, lists);
    Ok(instance)
}
