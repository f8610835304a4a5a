//! The segments of a new instance: active ones are written one after the other, and dropped.

ghost use Rattle.std.specs.Prelude.{◌≡◌, ◌<◌, [], true, length, slice_get, Some};
ghost use Rattle.wasm_syntax.specs.declared.addresses.ElemAddr.{ElemAddr};
ghost use Rattle.wasm_syntax.specs.declared.addresses.DataAddr.{DataAddr};
ghost use Rattle.wasm_syntax.specs.declared.module.Elem.{Elem};
ghost use Rattle.wasm_syntax.specs.declared.module.Data.{Data};
ghost use Rattle.wasm_valid.specs.ModuleRules.{is_typed_module};
ghost use Rattle.wasm_store.specs.Store.{module_at, instance_at, table_at, element_at};
ghost use Rattle.wasm_store.specs.Memories.{memory_at, data_at};
ghost use Rattle.wasm_store.specs.Whole.{HasSameCode, IsLater, HasLists, AreTyped};
ghost use Rattle.wasm_instance.specs.Instantiation.{fits, table_of, memory_of, write_element, write_data, init_element, init_elements, init_data, init_datas, init_segments, start_of};
ghost use Rattle.wasm_instance.specs.Parts.{Ends, module_of, offset_in};

use crate::constants::{number, value};
use wasm_store::Store;
use wasm_store::laws::{indices, instances_stay, order};
use wasm_syntax::{
    BlockId, DataAddr, ElemAddr, FuncAddr, InstAddr, MemAddr, Mode, TableAddr, Trap, Value,
};

/// What becomes of an element segment of the module of an instance.
fn mode_at(store: &Store, i: InstAddr, k: usize) -> Mode
    requires live { i.0 < length store.now.instances }
    requires lists { HasLists store.now (instance_at store.now i) }
    ensures mode { (segment : Elem) → slice_get (module_of store.now i).elems k ≡ Some segment → result ≡ segment.mode }
    ensures typed { is_typed_module (module_of store.now i) ≡ true }
{
    let a = store.instance(i).module;
    match store.module(a).module().elems.as_slice().get(k) {
        Some(segment) => segment.mode,
        None => Mode::Passive,
    }
}

/// The address of an element segment.
fn segment_at(store: &Store, i: InstAddr, k: usize) -> ElemAddr
    requires live { i.0 < length store.now.instances }
    requires within { k < length (instance_at store.now i).elems }
    ensures { slice_get (instance_at store.now i).elems k ≡ Some result }
{
    store.instance(i).elems.as_slice()[k]
}

/// The address of a table.
fn table_at(store: &Store, i: InstAddr, x: u32) -> TableAddr
    requires { i.0 < length store.now.instances }
    ensures { result ≡ table_of (instance_at store.now i) x }
{
    match store.instance(i).tables.as_slice().get(x as usize) {
        Some(address) => *address,
        None => TableAddr(0),
    }
}

/// The offset that an expression gives.
fn offset(store: &Store, i: InstAddr, values: &[Value], id: BlockId) -> u32
    requires live { i.0 < length store.now.instances }
    requires lists { HasLists store.now (instance_at store.now i) }
    ensures { result ≡ offset_in (module_of store.now i) (instance_at store.now i) values.now id }
{
    let instance = store.instance(i);
    let module = store.module(instance.module).module();
    number(value(module, instance.funcs.as_slice(), values, id))
}

/// Writes a whole segment to the entries of a table from a place on, and drops it.
fn write_whole(store: &mut Store, table: TableAddr, e: ElemAddr, at: u32) -> Result<(), Trap>
    requires live { table.0 < length store.old.tables }
    requires live_segment { e.0 < length store.old.elements }
    requires typed { AreTyped store.old (element_at store.old e) (table_at store.old table).elem }
    ensures ends { Ends (write_element (fits (table_at store.old table).entries at (length (element_at store.old e))) store.old table e at) result store.new }
    ensures same { HasSameCode store.old store.new }
    ensures later { IsLater store.old store.new }
{
    order();
    store.whole();
    match u32::try_from(store.element(e).len()) {
        Ok(n) => {
            store.table_init(table, e, at, 0, n)?;
            store.elem_drop(e);
            Ok(())
        }
        Err(_) => Err(Trap::TableRange),
    }
}

/// What becomes of one element segment.
fn write_segment(store: &mut Store, i: InstAddr, values: &[Value], k: usize) -> Result<(), Trap>
    requires live { i.0 < length store.old.instances }
    requires lists { HasLists store.old (instance_at store.old i) }
    requires within { k < length (instance_at store.old i).elems }
    ensures ends { (e : ElemAddr) (segment : Elem) → slice_get (instance_at store.old i).elems k ≡ Some e → slice_get (module_of store.old i).elems k ≡ Some segment → Ends (init_element (instance_at store.old i) (offset_in (module_of store.old i) (instance_at store.old i) values.now) e segment.mode store.old) result store.new }
    ensures same { HasSameCode store.old store.new }
    ensures later { IsLater store.old store.new }
{
    order();
    indices();
    let e = segment_at(store, i, k);
    match mode_at(store, i, k) {
        Mode::Active { index, offset: id } => {
            let at = offset(store, i, values, id);
            let table = table_at(store, i, index);
            write_whole(store, table, e, at)
        }
        Mode::Passive => Ok(()),
        Mode::Declared => {
            store.elem_drop(e);
            Ok(())
        }
    }
}

/// The element segments of an instance in their order, up to the first trap.
fn write_elements(store: &mut Store, i: InstAddr, values: &[Value]) -> Result<(), Trap>
    requires live { i.0 < length store.old.instances }
    requires lists { HasLists store.old (instance_at store.old i) }
    ensures ends { Ends (init_elements (module_of store.old i) (instance_at store.old i) (offset_in (module_of store.old i) (instance_at store.old i) values.now) store.old) result store.new }
    ensures same { HasSameCode store.old store.new }
    ensures later { IsLater store.old store.new }
{
    order();
    instances_stay();
    let count = store.instance(i).elems.len();
    for k in 0..count {
        write_segment(store, i, values, k)?;
    }
    Ok(())
}

/// What becomes of a data segment of the module of an instance.
fn data_mode_at(store: &Store, i: InstAddr, k: usize) -> Mode
    requires live { i.0 < length store.now.instances }
    requires lists { HasLists store.now (instance_at store.now i) }
    ensures mode { (segment : Data) → slice_get (module_of store.now i).datas k ≡ Some segment → result ≡ segment.mode }
    ensures typed { is_typed_module (module_of store.now i) ≡ true }
{
    let a = store.instance(i).module;
    match store.module(a).module().datas.as_slice().get(k) {
        Some(segment) => segment.mode,
        None => Mode::Passive,
    }
}

/// The address of a data segment.
fn data_segment_at(store: &Store, i: InstAddr, k: usize) -> DataAddr
    requires live { i.0 < length store.now.instances }
    requires within { k < length (instance_at store.now i).datas }
    ensures { slice_get (instance_at store.now i).datas k ≡ Some result }
{
    store.instance(i).datas.as_slice()[k]
}

/// The address of a memory.
fn memory_at(store: &Store, i: InstAddr, x: u32) -> MemAddr
    requires { i.0 < length store.now.instances }
    ensures { result ≡ memory_of (instance_at store.now i) x }
{
    match store.instance(i).mems.as_slice().get(x as usize) {
        Some(address) => *address,
        None => MemAddr(0),
    }
}

/// Writes a whole segment to the bytes of a memory from a place on, and drops it.
fn write_bytes(store: &mut Store, memory: MemAddr, d: DataAddr, at: u32) -> Result<(), Trap>
    requires live { memory.0 < length store.old.memories }
    requires live_segment { d.0 < length store.old.datas }
    ensures ends { Ends (write_data (fits (memory_at store.old memory).bytes at (length (data_at store.old d))) store.old memory d at) result store.new }
    ensures same { HasSameCode store.old store.new }
    ensures later { IsLater store.old store.new }
{
    order();
    store.whole();
    match u32::try_from(store.data(d).len()) {
        Ok(n) => {
            store.memory_init(memory, d, at, 0, n)?;
            store.data_drop(d);
            Ok(())
        }
        Err(_) => Err(Trap::MemoryRange),
    }
}

/// What becomes of one data segment.
fn write_data_segment(
    store: &mut Store,
    i: InstAddr,
    values: &[Value],
    k: usize,
) -> Result<(), Trap>
    requires live { i.0 < length store.old.instances }
    requires lists { HasLists store.old (instance_at store.old i) }
    requires within { k < length (instance_at store.old i).datas }
    ensures ends { (d : DataAddr) (segment : Data) → slice_get (instance_at store.old i).datas k ≡ Some d → slice_get (module_of store.old i).datas k ≡ Some segment → Ends (init_data (instance_at store.old i) (offset_in (module_of store.old i) (instance_at store.old i) values.now) d segment.mode store.old) result store.new }
    ensures same { HasSameCode store.old store.new }
    ensures later { IsLater store.old store.new }
{
    order();
    indices();
    let d = data_segment_at(store, i, k);
    match data_mode_at(store, i, k) {
        Mode::Active { index, offset: id } => {
            let at = offset(store, i, values, id);
            let memory = memory_at(store, i, index);
            write_bytes(store, memory, d, at)
        }
        Mode::Passive => Ok(()),
        Mode::Declared => Ok(()),
    }
}

/// The data segments of an instance in their order, up to the first trap.
fn write_datas(store: &mut Store, i: InstAddr, values: &[Value]) -> Result<(), Trap>
    requires live { i.0 < length store.old.instances }
    requires lists { HasLists store.old (instance_at store.old i) }
    ensures ends { Ends (init_datas (module_of store.old i) (instance_at store.old i) (offset_in (module_of store.old i) (instance_at store.old i) values.now) store.old) result store.new }
    ensures same { HasSameCode store.old store.new }
    ensures later { IsLater store.old store.new }
{
    order();
    instances_stay();
    let count = store.instance(i).datas.len();
    for k in 0..count {
        write_data_segment(store, i, values, k)?;
    }
    Ok(())
}

/// The segments of an instance in their order, up to the first trap. What was written before it stays.
pub(crate) fn write_segments(store: &mut Store, i: InstAddr, values: &[Value]) -> Result<(), Trap>
    requires live { i.0 < length store.old.instances }
    requires lists { HasLists store.old (instance_at store.old i) }
    ensures ends { Ends (init_segments (module_of store.old i) (instance_at store.old i) (offset_in (module_of store.old i) (instance_at store.old i) values.now) store.old) result store.new }
    ensures same { HasSameCode store.old store.new }
    ensures later { IsLater store.old store.new }
{
    order();
    instances_stay();
    write_elements(store, i, values)?;
    write_datas(store, i, values)
}

/// The start function of the module of an instance.
pub(crate) fn start_of(store: &Store, i: InstAddr) -> Option<FuncAddr>
    requires live { i.0 < length store.now.instances }
    requires lists { HasLists store.now (instance_at store.now i) }
    ensures { result ≡ start_of (module_of store.now i) (instance_at store.now i) }
{
    let instance = store.instance(i);
    match store.module(instance.module).module().start {
        Some(x) => match instance.funcs.as_slice().get(x as usize) {
            Some(func) => Some(*func),
            None => Some(FuncAddr(0)),
        },
        None => None,
    }
}
