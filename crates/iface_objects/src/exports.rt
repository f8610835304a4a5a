//! Exports objects.
ghost use Rattle.std.specs.Prelude.{◌≡◌, IfOk, slice_index_or};
ghost use Rattle.iface_caches.specs.Caches.{object_of, with_object_of, heap_with_object_of};
ghost use Rattle.wasm_store.specs.Allocated as addresses;
ghost use Rattle.iface_objects.specs.Instances as spec;

use embed_base::SharedString;
use host_values::{Heap, HostValue, Key, ObjId};
use iface_caches::Caches;
use std::alloc::{AllocError, Global};
use wasm_store::Instance;
use wasm_syntax::{Export, ExportDesc, FuncAddr, GlobalAddr, MemAddr, TableAddr};

/// The function of an index.
fn func_at(instance: &Instance, x: u32) -> FuncAddr
    ensures { result ≡ slice_index_or «instance».now.funcs x (addresses.func_addr 0) }
{
    match instance.funcs.as_slice().get(x as usize) {
        Some(address) => *address,
        None => FuncAddr(0),
    }
}

/// The table of an index.
fn table_at(instance: &Instance, x: u32) -> TableAddr
    ensures { result ≡ slice_index_or «instance».now.tables x (addresses.table_addr 0) }
{
    match instance.tables.as_slice().get(x as usize) {
        Some(address) => *address,
        None => TableAddr(0),
    }
}

/// The memory of an index.
fn memory_at(instance: &Instance, x: u32) -> MemAddr
    ensures { result ≡ slice_index_or «instance».now.mems x (addresses.mem_addr 0) }
{
    match instance.mems.as_slice().get(x as usize) {
        Some(address) => *address,
        None => MemAddr(0),
    }
}

/// The global of an index.
fn global_at(instance: &Instance, x: u32) -> GlobalAddr
    ensures { result ≡ slice_index_or «instance».now.globals x (addresses.global_addr 0) }
{
    match instance.globals.as_slice().get(x as usize) {
        Some(address) => *address,
        None => GlobalAddr(0),
    }
}

/// The object of what an instance exports so.
fn export_object(
    alloc: Global,
    instance: &Instance,
    desc: ExportDesc,
    heap: &mut Heap,
    caches: &mut Caches,
) -> Result<ObjId, AllocError>
    ensures object { IfOk result (λ o. o ≡ object_of heap.old caches.old (spec.external_kind desc) (spec.external_address «instance».now desc)) }
    ensures heap { IfOk result (λ o. heap.new ≡ heap_with_object_of caches.old (spec.external_kind desc) (spec.external_address «instance».now desc) heap.old) }
    ensures caches { IfOk result (λ o. caches.new ≡ with_object_of heap.old (spec.external_kind desc) (spec.external_address «instance».now desc) caches.old) }
{
    match desc {
        ExportDesc::Func(x) => caches.function_object(alloc, heap, func_at(instance, x)),
        ExportDesc::Table(x) => caches.table_object(alloc, heap, table_at(instance, x)),
        ExportDesc::Mem(x) => caches.memory_object(alloc, heap, memory_at(instance, x)),
        ExportDesc::Global(x) => caches.global_object(alloc, heap, global_at(instance, x)),
    }
}

/// One property: an export's name with its object.
fn property(
    alloc: Global,
    instance: &Instance,
    export: &Export,
    heap: &mut Heap,
    caches: &mut Caches,
) -> Result<(Key, HostValue), AllocError>
    ensures pair { IfOk result (λ pair. pair ≡ spec.property_of «instance».now export.now heap.old caches.old) }
    ensures heap { IfOk result (λ pair. heap.new ≡ heap_with_object_of caches.old (spec.external_kind export.now.desc) (spec.external_address «instance».now export.now.desc) heap.old) }
    ensures caches { IfOk result (λ pair. caches.new ≡ with_object_of heap.old (spec.external_kind export.now.desc) (spec.external_address «instance».now export.now.desc) caches.old) }
{
    let name = SharedString::from_str(alloc, export.name.as_str())?;
    let object = export_object(alloc, instance, export.desc, heap, caches)?;
    Ok((Key::of_text(name), HostValue::Object(object)))
}

/// The properties of an exports object: each export's name with its object.
pub(crate) fn properties(
    alloc: Global,
    instance: &Instance,
    exports: &[Export],
    heap: &mut Heap,
    caches: &mut Caches,
) -> Result<Vec<(Key, HostValue)>, AllocError>
    ensures pairs { IfOk result (λ pairs. pairs.items ≡ (spec.exported «instance».now exports.now heap.old caches.old).pairs) }
    ensures heap { IfOk result (λ pairs. heap.new ≡ (spec.exported «instance».now exports.now heap.old caches.old).heap) }
    ensures caches { IfOk result (λ pairs. caches.new ≡ (spec.exported «instance».now exports.now heap.old caches.old).caches) }
{
    let mut pairs = Vec::new(alloc);
    for export in exports {
        let pair = property(alloc, instance, export, heap, caches)?;
        pairs.push(pair)?;
    }
    Ok(pairs)
}
