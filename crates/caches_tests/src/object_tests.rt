//! One object for each address.

use crate::realm::Realm;
use crate::samples::Sample;
use host_values::{Callee, HostValue, Kind, ObjId};
use iface_caches::ExternalKind;
use std::alloc::{AllocError, Global};
use std::test::Fail;
use wasm_syntax::{FuncAddr, GlobalAddr, MemAddr, TableAddr, ValType, Value};

/// The kinds of addresses.
static KINDS: [ExternalKind; 4] = [
    ExternalKind::Function,
    ExternalKind::Memory,
    ExternalKind::Table,
    ExternalKind::Global,
];

/// Whether a reference to a function is shown as the object of this number.
fn is_shown(realm: &mut Realm, alloc: Global, a: u64, object: u64) -> bool {
    realm.shows(alloc, Value::Func(FuncAddr(a)), Sample::Object(object))
}

/// The function that an instance exports, then the same function as an entry of a table, and another one.
fn exported_first(alloc: Global) -> Result<bool, AllocError> {
    let mut realm = Realm::new(alloc)?;
    Ok(
        realm.is_object(alloc, ExternalKind::Function, 3, 1)
            && is_shown(&mut realm, alloc, 3, 1)
            && is_shown(&mut realm, alloc, 4, 2)
            && realm.is_object(alloc, ExternalKind::Function, 4, 2),
    )
}

// `x.f === x.t.get(0)`
#[test]
fn an_exported_function_is_the_entry_of_a_table(rt: HostRuntime) -> Result<(), Fail> {
    assert!(rt; exported_first(rt.alloc())?, "one object for an address");
    Ok(())
}

/// The entry of a table first, then the export; and what a script puts into the table is that function.
fn entry_first(alloc: Global) -> Result<bool, AllocError> {
    let mut realm = Realm::new(alloc)?;
    if !is_shown(&mut realm, alloc, 0, 1) || !realm.is_object(alloc, ExternalKind::Function, 0, 1) {
        return Ok(false);
    }
    let answer = realm.to_wasm(alloc, &HostValue::Object(ObjId(1)), ValType::FuncRef);
    Ok(matches!(answer, Some(Ok(Value::Func(FuncAddr(0))))))
}

#[test]
fn an_entry_of_a_table_is_the_exported_function(rt: HostRuntime) -> Result<(), Fail> {
    assert!(rt; entry_first(rt.alloc())?, "one object for an address");
    Ok(())
}

/// Whether the address 7 of each kind has an object of its own, in this order, beginning with this one.
fn are_objects(realm: &mut Realm, alloc: Global, first: u64) -> bool {
    let mut wanted = first;
    for kind in KINDS.iter() {
        if !realm.is_object(alloc, *kind, 7, wanted) {
            return false;
        }
        wanted = wanted.wrapping_add(1);
    }
    true
}

/// Whether these objects, of the numbers 1 to 4, are of their kinds.
fn are_kinds(realm: &Realm) -> bool {
    realm.is(ObjId(1), Kind::Function(Callee::Exported(FuncAddr(7))))
        && realm.is(ObjId(2), Kind::Memory(MemAddr(7)))
        && realm.is(ObjId(3), Kind::Table(TableAddr(7)))
        && realm.is(ObjId(4), Kind::Global(GlobalAddr(7)))
}

fn each_kind(alloc: Global) -> Result<bool, AllocError> {
    let mut realm = Realm::new(alloc)?;
    Ok(
        are_objects(&mut realm, alloc, 1)
            && are_objects(&mut realm, alloc, 1)
            && are_kinds(&realm)
            && realm.is_object(alloc, ExternalKind::Memory, 8, 5),
    )
}

#[test]
fn each_kind_has_its_own_objects(rt: HostRuntime) -> Result<(), Fail> {
    assert!(rt; each_kind(rt.alloc())?, "an object for each kind");
    Ok(())
}

/// An object that is made in between takes a number, and nothing else.
fn one_between(alloc: Global) -> Result<bool, AllocError> {
    let mut realm = Realm::new(alloc)?;
    if !are_objects(&mut realm, alloc, 1) {
        return Ok(false);
    }
    let plain = realm.add(alloc, Kind::Plain)?;
    Ok(plain.0 == 5 && are_objects(&mut realm, alloc, 1))
}

#[test]
fn other_objects_change_nothing(rt: HostRuntime) -> Result<(), Fail> {
    assert!(rt; one_between(rt.alloc())?, "the same objects");
    Ok(())
}

/// Whether so many functions have objects in this order.
fn are_functions(realm: &mut Realm, alloc: Global, count: u64) -> bool {
    for a in 0..count {
        if !realm.is_object(alloc, ExternalKind::Function, a, a.wrapping_add(1)) {
            return false;
        }
    }
    true
}

fn functions(alloc: Global, count: u64) -> Result<bool, AllocError> {
    let mut realm = Realm::new(alloc)?;
    Ok(are_functions(&mut realm, alloc, count) && are_functions(&mut realm, alloc, count))
}

#[test]
fn many_functions(rt: HostRuntime) -> Result<(), Fail> {
    assert!(rt;
        functions(rt.alloc(), 50_000)?,
        "an object for each function"
    );
    Ok(())
}
