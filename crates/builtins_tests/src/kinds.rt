//! A heap with an object of each kind.

use embed_base::SharedString;
use host_values::{Callee, ErrorClass, Heap, HostValue, Key, Kind, ObjId};
use std::alloc::{AllocError, Global};
use wasm_syntax::{FuncAddr, GlobalAddr, MemAddr, ModuleAddr, TableAddr};

/// The key that a text spells.
pub(crate) fn key(alloc: Global, text: &str) -> Result<Key, AllocError> {
    Ok(Key::of_text(SharedString::from_str(alloc, text)?))
}

/// A heap with an object of each kind: 1 plain, 2 exports, 3 an Array, 4 and 5 errors, 6 to 11 functions, 12 a promise, 13 a
/// buffer, 14 a view, 15 a module, 16 an instance, 17 a memory, 18 a table, 19 a global and 20 a Suspending object. The exports
/// object has the properties `b`, 1 and 0, made in this order, and the Array two elements.
pub(crate) fn each_kind(alloc: Global) -> Result<Heap, AllocError> {
    let mut heap = Heap::new(alloc, 0)?;
    heap.add(alloc, Kind::Plain)?;
    add_exports(alloc, &mut heap)?;
    add_array(alloc, &mut heap)?;
    add_errors(alloc, &mut heap)?;
    add_functions(alloc, &mut heap)?;
    add_others(alloc, &mut heap)?;
    Ok(heap)
}

/// The exports object of `each_kind`.
fn add_exports(alloc: Global, heap: &mut Heap) -> Result<(), AllocError> {
    let name = Key::Name(SharedString::from_str(alloc, "b")?);
    let mut pairs = Vec::new(alloc);
    pairs.push((name, HostValue::Null))?;
    pairs.push((Key::Index(1), HostValue::Null))?;
    pairs.push((Key::Index(0), HostValue::Null))?;
    heap.add_exports(alloc, pairs)?;
    Ok(())
}

/// The Array of `each_kind`.
fn add_array(alloc: Global, heap: &mut Heap) -> Result<(), AllocError> {
    let items = Vec::from_array(alloc, [HostValue::Number(7), HostValue::Null])?;
    heap.add_array(alloc, items)?;
    Ok(())
}

/// The errors of `each_kind`.
fn add_errors(alloc: Global, heap: &mut Heap) -> Result<(), AllocError> {
    for class in [ErrorClass::Error, ErrorClass::LinkError] {
        let message = SharedString::from_str(alloc, "")?;
        heap.add(alloc, Kind::Error { class, message })?;
    }
    Ok(())
}

/// The functions of `each_kind`.
fn add_functions(alloc: Global, heap: &mut Heap) -> Result<(), AllocError> {
    let callees = [
        Callee::Script {
            function: 0,
            length: 3,
        },
        Callee::Print,
        Callee::Exported(FuncAddr(0)),
        Callee::Promising(FuncAddr(0)),
        Callee::Resolve(0),
        Callee::Reject(0),
    ];
    for callee in callees {
        heap.add(alloc, Kind::Function(callee))?;
    }
    Ok(())
}

/// The other kinds of `each_kind`.
fn add_others(alloc: Global, heap: &mut Heap) -> Result<(), AllocError> {
    heap.add(alloc, Kind::Promise(0))?;
    heap.add(alloc, Kind::Buffer(0))?;
    let buffer = ObjId(13);
    heap.add(
        alloc,
        Kind::View {
            buffer,
            from: 0,
            len: 0,
        },
    )?;
    heap.add(alloc, Kind::Module(ModuleAddr(0)))?;
    heap.add(alloc, Kind::Instance { exports: ObjId(2) })?;
    heap.add(alloc, Kind::Memory(MemAddr(0)))?;
    heap.add(alloc, Kind::Table(TableAddr(0)))?;
    heap.add(alloc, Kind::Global(GlobalAddr(0)))?;
    heap.add(alloc, Kind::Suspending(ObjId(6)))?;
    Ok(())
}
