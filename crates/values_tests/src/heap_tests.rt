//! Keys and their order, members of each kind of object, Arrays up to their limit, bindings and shown forms.

use crate::samples::{Sample, is_sample, value_of};
use crate::shown::SHOWN;
use embed_base::{OutsideKind, SharedString};
use host_values::{Callee, ErrorClass, Got, Heap, HostValue, Key, Kind, ObjId, Put};
use std::alloc::{AllocError, Global};
use std::test::Fail;
use wasm_syntax::{FuncAddr, GlobalAddr, MemAddr, ModuleAddr, TableAddr};

/// A key that is wanted.
#[derive(Clone, Copy)]
enum WantedKey {
    Index(u32),
    Name(&'static str),
}

/// Whether a key is what is wanted.
fn is_key(key: &Key, wanted: WantedKey) -> bool {
    match (key, wanted) {
        (Key::Index(a), WantedKey::Index(b)) => *a == b,
        (Key::Name(a), WantedKey::Name(b)) => a.as_str() == b,
        _ => false,
    }
}

/// A value, and the key that it is.
static KEYS: [(Sample, WantedKey); 18] = [
    (Sample::Text("0"), WantedKey::Index(0)),
    (Sample::Text("00"), WantedKey::Name("00")),
    (Sample::Text("01"), WantedKey::Name("01")),
    (Sample::Text("7"), WantedKey::Index(7)),
    (Sample::Text("10"), WantedKey::Index(10)),
    (Sample::Text("4294967294"), WantedKey::Index(4_294_967_294)),
    (Sample::Text("4294967295"), WantedKey::Name("4294967295")),
    (Sample::Text("42949672940"), WantedKey::Name("42949672940")),
    (Sample::Text("-1"), WantedKey::Name("-1")),
    (Sample::Text("+1"), WantedKey::Name("+1")),
    (Sample::Text("1e3"), WantedKey::Name("1e3")),
    (Sample::Text(" 1"), WantedKey::Name(" 1")),
    (Sample::Text(""), WantedKey::Name("")),
    (Sample::Number(0), WantedKey::Index(0)),
    (Sample::Number(-1), WantedKey::Name("-1")),
    (
        Sample::Number(4_294_967_294),
        WantedKey::Index(4_294_967_294),
    ),
    (Sample::Number(4_294_967_295), WantedKey::Name("4294967295")),
    (
        Sample::Number(9_007_199_254_740_991),
        WantedKey::Name("9007199254740991"),
    ),
];

/// Whether a value is the key that is wanted.
fn gives_key(alloc: Global, case: &(Sample, WantedKey)) -> Result<bool, AllocError> {
    let value = value_of(alloc, case.0)?;
    match Key::of(alloc, &value)? {
        Some(key) => Ok(is_key(&key, case.1)),
        None => Ok(false),
    }
}

/// Whether a value is no key.
fn is_no_key(alloc: Global, sample: Sample) -> Result<bool, AllocError> {
    let value = value_of(alloc, sample)?;
    match Key::of(alloc, &value)? {
        Some(_) => Ok(false),
        None => Ok(true),
    }
}

#[test]
fn keys_of_texts_and_numbers(rt: HostRuntime) -> Result<(), Fail> {
    let alloc = rt.alloc();
    for case in KEYS.iter() {
        assert!(rt; gives_key(alloc, case)?, "a key");
    }
    for sample in [
        Sample::Undefined,
        Sample::Null,
        Sample::Bool(true),
        Sample::BigInt(1),
        Sample::Object(0),
    ] {
        assert!(rt; is_no_key(alloc, sample)?, "no key");
    }
    Ok(())
}

/// The key that a text spells.
fn key(alloc: Global, text: &str) -> Result<Key, AllocError> {
    Ok(Key::of_text(SharedString::from_str(alloc, text)?))
}

/// A heap with an object of each kind: 1 plain, 2 exports, 3 an Array, 4 and 5 errors, 6 to 11 functions, 12 a promise, 13 a
/// buffer, 14 a view, 15 a module, 16 an instance, 17 a memory, 18 a table, 19 a global and 20 a Suspending object. The first
/// three have the property `a`, or the element 0, which is 5.
fn each_kind(alloc: Global) -> Result<Heap, AllocError> {
    let mut heap = Heap::new(alloc, 2)?;
    heap.add(alloc, Kind::Plain)?;
    let mut pairs = Vec::new(alloc);
    pairs.push((key(alloc, "a")?, HostValue::Number(5)))?;
    heap.add_exports(alloc, pairs)?;
    heap.add(alloc, Kind::Array)?;
    add_errors(alloc, &mut heap)?;
    add_functions(alloc, &mut heap)?;
    add_others(alloc, &mut heap)?;
    Ok(heap)
}

/// The errors of `each_kind`.
fn add_errors(alloc: Global, heap: &mut Heap) -> Result<(), AllocError> {
    let class = ErrorClass::LinkError;
    let message = SharedString::from_str(alloc, "m: n")?;
    heap.add(alloc, Kind::Error { class, message })?;
    let class = ErrorClass::TypeError;
    let message = SharedString::from_str(alloc, "")?;
    heap.add(alloc, Kind::Error { class, message })?;
    Ok(())
}

/// The functions of `each_kind`.
fn add_functions(alloc: Global, heap: &mut Heap) -> Result<(), AllocError> {
    let callees = [
        Callee::Script {
            function: 0,
            length: 3,
        },
        Callee::Print,
        Callee::Exported(FuncAddr(0)),
        Callee::Promising(FuncAddr(0)),
        Callee::Resolve(0),
        Callee::Reject(0),
    ];
    for callee in callees {
        heap.add(alloc, Kind::Function(callee))?;
    }
    Ok(())
}

/// The other kinds of `each_kind`.
fn add_others(alloc: Global, heap: &mut Heap) -> Result<(), AllocError> {
    heap.add(alloc, Kind::Promise(0))?;
    heap.add(alloc, Kind::Buffer(0))?;
    let buffer = ObjId(13);
    heap.add(
        alloc,
        Kind::View {
            buffer,
            from: 0,
            len: 0,
        },
    )?;
    heap.add(alloc, Kind::Module(ModuleAddr(0)))?;
    heap.add(alloc, Kind::Instance { exports: ObjId(2) })?;
    heap.add(alloc, Kind::Memory(MemAddr(0)))?;
    heap.add(alloc, Kind::Table(TableAddr(0)))?;
    heap.add(alloc, Kind::Global(GlobalAddr(0)))?;
    heap.add(alloc, Kind::Suspending(ObjId(6)))?;
    Ok(())
}

/// What is wanted of a read.
#[derive(Clone, Copy)]
enum WantedGot {
    Value(Sample),
    Throw(ErrorClass),
    Outside(OutsideKind),
    Interface,
}

/// Whether a read gives what is wanted.
fn is_got(got: &Got, wanted: WantedGot) -> bool {
    match (got, wanted) {
        (Got::Value(value), WantedGot::Value(sample)) => is_sample(value, sample),
        (Got::Throw(a), WantedGot::Throw(b)) => *a == b,
        (Got::Outside(a), WantedGot::Outside(b)) => *a == b,
        (Got::Interface, WantedGot::Interface) => true,
        _ => false,
    }
}

/// A value, a key, and what reading that member gives.
static READS: [(Sample, &str, WantedGot); 59] = [
    (
        Sample::Undefined,
        "a",
        WantedGot::Throw(ErrorClass::TypeError),
    ),
    (
        Sample::Null,
        "length",
        WantedGot::Throw(ErrorClass::TypeError),
    ),
    (
        Sample::Bool(true),
        "length",
        WantedGot::Outside(OutsideKind::PrimitiveMember),
    ),
    (
        Sample::Number(7),
        "length",
        WantedGot::Outside(OutsideKind::PrimitiveMember),
    ),
    (
        Sample::BigInt(7),
        "length",
        WantedGot::Outside(OutsideKind::PrimitiveMember),
    ),
    (
        Sample::Text("aé😀"),
        "length",
        WantedGot::Value(Sample::Number(4)),
    ),
    (
        Sample::Text(""),
        "length",
        WantedGot::Value(Sample::Number(0)),
    ),
    (
        Sample::Text("a"),
        "0",
        WantedGot::Outside(OutsideKind::PrimitiveMember),
    ),
    (
        Sample::Object(1),
        "constructor",
        WantedGot::Outside(OutsideKind::Inherited),
    ),
    (
        Sample::Object(1),
        "hasOwnProperty",
        WantedGot::Outside(OutsideKind::Inherited),
    ),
    (
        Sample::Object(1),
        "isPrototypeOf",
        WantedGot::Outside(OutsideKind::Inherited),
    ),
    (
        Sample::Object(1),
        "propertyIsEnumerable",
        WantedGot::Outside(OutsideKind::Inherited),
    ),
    (
        Sample::Object(1),
        "toLocaleString",
        WantedGot::Outside(OutsideKind::Inherited),
    ),
    (
        Sample::Object(1),
        "toString",
        WantedGot::Outside(OutsideKind::Inherited),
    ),
    (
        Sample::Object(1),
        "valueOf",
        WantedGot::Outside(OutsideKind::Inherited),
    ),
    (
        Sample::Object(1),
        "__proto__",
        WantedGot::Outside(OutsideKind::Inherited),
    ),
    (
        Sample::Object(1),
        "__defineGetter__",
        WantedGot::Outside(OutsideKind::Inherited),
    ),
    (
        Sample::Object(1),
        "__defineSetter__",
        WantedGot::Outside(OutsideKind::Inherited),
    ),
    (
        Sample::Object(1),
        "__lookupGetter__",
        WantedGot::Outside(OutsideKind::Inherited),
    ),
    (
        Sample::Object(1),
        "__lookupSetter__",
        WantedGot::Outside(OutsideKind::Inherited),
    ),
    (Sample::Object(1), "b", WantedGot::Value(Sample::Undefined)),
    (Sample::Object(1), "0", WantedGot::Value(Sample::Undefined)),
    (
        Sample::Object(1),
        "length",
        WantedGot::Value(Sample::Undefined),
    ),
    (Sample::Object(2), "a", WantedGot::Value(Sample::Number(5))),
    (Sample::Object(2), "b", WantedGot::Value(Sample::Undefined)),
    (
        Sample::Object(2),
        "toString",
        WantedGot::Value(Sample::Undefined),
    ),
    (
        Sample::Object(3),
        "length",
        WantedGot::Value(Sample::Number(0)),
    ),
    (Sample::Object(3), "0", WantedGot::Value(Sample::Undefined)),
    (
        Sample::Object(3),
        "push",
        WantedGot::Outside(OutsideKind::BuiltinValue),
    ),
    (
        Sample::Object(3),
        "x",
        WantedGot::Outside(OutsideKind::ArrayMember),
    ),
    (
        Sample::Object(3),
        "-1",
        WantedGot::Outside(OutsideKind::ArrayMember),
    ),
    (
        Sample::Object(3),
        "toString",
        WantedGot::Outside(OutsideKind::ArrayMember),
    ),
    (
        Sample::Object(4),
        "name",
        WantedGot::Value(Sample::Text("LinkError")),
    ),
    (
        Sample::Object(4),
        "message",
        WantedGot::Value(Sample::Text("m: n")),
    ),
    (
        Sample::Object(4),
        "stack",
        WantedGot::Outside(OutsideKind::ObjectMember),
    ),
    (
        Sample::Object(5),
        "name",
        WantedGot::Value(Sample::Text("TypeError")),
    ),
    (
        Sample::Object(5),
        "message",
        WantedGot::Value(Sample::Text("")),
    ),
    (
        Sample::Object(0),
        "length",
        WantedGot::Value(Sample::Number(0)),
    ),
    (
        Sample::Object(6),
        "length",
        WantedGot::Value(Sample::Number(3)),
    ),
    (
        Sample::Object(6),
        "name",
        WantedGot::Outside(OutsideKind::FunctionMember),
    ),
    (
        Sample::Object(7),
        "length",
        WantedGot::Value(Sample::Number(0)),
    ),
    (Sample::Object(8), "length", WantedGot::Interface),
    (
        Sample::Object(8),
        "name",
        WantedGot::Outside(OutsideKind::FunctionMember),
    ),
    (Sample::Object(9), "length", WantedGot::Interface),
    (
        Sample::Object(9),
        "0",
        WantedGot::Outside(OutsideKind::FunctionMember),
    ),
    (
        Sample::Object(10),
        "length",
        WantedGot::Value(Sample::Number(1)),
    ),
    (
        Sample::Object(11),
        "length",
        WantedGot::Value(Sample::Number(1)),
    ),
    (
        Sample::Object(12),
        "then",
        WantedGot::Outside(OutsideKind::BuiltinValue),
    ),
    (
        Sample::Object(12),
        "catch",
        WantedGot::Outside(OutsideKind::BuiltinValue),
    ),
    (
        Sample::Object(12),
        "finally",
        WantedGot::Outside(OutsideKind::ObjectMember),
    ),
    (Sample::Object(13), "byteLength", WantedGot::Interface),
    (Sample::Object(14), "0", WantedGot::Interface),
    (Sample::Object(14), "length", WantedGot::Interface),
    (
        Sample::Object(15),
        "exports",
        WantedGot::Outside(OutsideKind::ObjectMember),
    ),
    (Sample::Object(16), "exports", WantedGot::Interface),
    (Sample::Object(17), "buffer", WantedGot::Interface),
    (Sample::Object(18), "length", WantedGot::Interface),
    (Sample::Object(19), "value", WantedGot::Interface),
    (
        Sample::Object(20),
        "a",
        WantedGot::Outside(OutsideKind::ObjectMember),
    ),
];

/// A value, a key, and what writing that member does, one after the other.
static WRITES: [(Sample, &str, Put); 34] = [
    (Sample::Undefined, "a", Put::Throw(ErrorClass::TypeError)),
    (Sample::Null, "a", Put::Throw(ErrorClass::TypeError)),
    (
        Sample::Bool(true),
        "length",
        Put::Outside(OutsideKind::PrimitiveMember),
    ),
    (
        Sample::Number(7),
        "length",
        Put::Outside(OutsideKind::PrimitiveMember),
    ),
    (
        Sample::BigInt(7),
        "length",
        Put::Outside(OutsideKind::PrimitiveMember),
    ),
    (
        Sample::Text("a"),
        "length",
        Put::Outside(OutsideKind::PrimitiveMember),
    ),
    (Sample::Object(1), "b", Put::Done),
    (Sample::Object(1), "toString", Put::Done),
    (
        Sample::Object(1),
        "__proto__",
        Put::Outside(OutsideKind::Inherited),
    ),
    (Sample::Object(2), "a", Put::Throw(ErrorClass::TypeError)),
    (Sample::Object(2), "b", Put::Throw(ErrorClass::TypeError)),
    (Sample::Object(3), "1", Put::Outside(OutsideKind::ArrayHole)),
    (Sample::Object(3), "0", Put::Done),
    (Sample::Object(3), "1", Put::Done),
    (Sample::Object(3), "0", Put::Done),
    (Sample::Object(3), "3", Put::Outside(OutsideKind::ArrayHole)),
    (
        Sample::Object(3),
        "length",
        Put::Outside(OutsideKind::ArrayMember),
    ),
    (
        Sample::Object(3),
        "push",
        Put::Outside(OutsideKind::ArrayMember),
    ),
    (
        Sample::Object(3),
        "00",
        Put::Outside(OutsideKind::ArrayMember),
    ),
    (
        Sample::Object(0),
        "a",
        Put::Outside(OutsideKind::ObjectWrite),
    ),
    (
        Sample::Object(4),
        "a",
        Put::Outside(OutsideKind::ObjectWrite),
    ),
    (
        Sample::Object(6),
        "a",
        Put::Outside(OutsideKind::ObjectWrite),
    ),
    (
        Sample::Object(8),
        "a",
        Put::Outside(OutsideKind::ObjectWrite),
    ),
    (
        Sample::Object(12),
        "a",
        Put::Outside(OutsideKind::ObjectWrite),
    ),
    (
        Sample::Object(13),
        "a",
        Put::Outside(OutsideKind::ObjectWrite),
    ),
    (
        Sample::Object(15),
        "a",
        Put::Outside(OutsideKind::ObjectWrite),
    ),
    (
        Sample::Object(16),
        "a",
        Put::Outside(OutsideKind::ObjectWrite),
    ),
    (
        Sample::Object(17),
        "a",
        Put::Outside(OutsideKind::ObjectWrite),
    ),
    (
        Sample::Object(18),
        "a",
        Put::Outside(OutsideKind::ObjectWrite),
    ),
    (
        Sample::Object(20),
        "a",
        Put::Outside(OutsideKind::ObjectWrite),
    ),
    (Sample::Object(14), "0", Put::Interface),
    (Sample::Object(14), "length", Put::Interface),
    (Sample::Object(19), "value", Put::Interface),
    (Sample::Object(19), "a", Put::Interface),
];

/// Whether a read of a heap with each kind gives what is wanted.
fn reads(alloc: Global, heap: &Heap, case: &(Sample, &str, WantedGot)) -> Result<bool, AllocError> {
    let value = value_of(alloc, case.0)?;
    let key = key(alloc, case.1)?;
    if !heap.has_value(&value) {
        return Ok(false);
    }
    let got = heap.get(alloc, &value, &key)?;
    Ok(is_got(&got, case.2))
}

#[test]
fn members_of_each_kind(rt: HostRuntime) -> Result<(), Fail> {
    let alloc = rt.alloc();
    let heap = each_kind(alloc)?;
    for case in READS.iter() {
        assert!(rt; reads(alloc, &heap, case)?, "a member");
    }
    Ok(())
}

/// Whether a write has the answer that is wanted.
fn writes(alloc: Global, heap: &mut Heap, case: &(Sample, &str, Put)) -> Result<bool, AllocError> {
    let value = value_of(alloc, case.0)?;
    let key = key(alloc, case.1)?;
    if !heap.has_value(&value) {
        return Ok(false);
    }
    let put = heap.set(alloc, &value, &key, HostValue::Null)?;
    Ok(put == case.2)
}

#[test]
fn writes_to_each_kind(rt: HostRuntime) -> Result<(), Fail> {
    let alloc = rt.alloc();
    let mut heap = each_kind(alloc)?;
    for case in WRITES.iter() {
        assert!(rt; writes(alloc, &mut heap, case)?, "a write");
    }
    assert!(rt;
        has_keys(
            alloc,
            &heap,
            ObjId(1),
            &[WantedKey::Name("b"), WantedKey::Name("toString")]
        )?,
        "a plain object"
    );
    assert!(rt;
        has_keys(alloc, &heap, ObjId(2), &[WantedKey::Name("a")])?,
        "an exports object"
    );
    assert!(rt;
        has_keys(
            alloc,
            &heap,
            ObjId(3),
            &[WantedKey::Index(0), WantedKey::Index(1)]
        )?,
        "an Array"
    );
    Ok(())
}

/// Whether a value shows so.
fn shows(alloc: Global, heap: &Heap, case: &(Sample, &str)) -> Result<bool, AllocError> {
    let value = value_of(alloc, case.0)?;
    if !heap.has_value(&value) {
        return Ok(false);
    }
    let shown = heap.show(alloc, &value)?;
    Ok(shown.as_str() == case.1)
}

#[test]
fn shown_forms(rt: HostRuntime) -> Result<(), Fail> {
    let alloc = rt.alloc();
    let heap = each_kind(alloc)?;
    for case in SHOWN.iter() {
        assert!(rt; shows(alloc, &heap, case)?, "a shown form");
    }
    Ok(())
}

/// Whether an object has these keys in this order.
fn has_keys(
    alloc: Global,
    heap: &Heap,
    o: ObjId,
    wanted: &[WantedKey],
) -> Result<bool, AllocError> {
    if !heap.has_object(o) {
        return Ok(false);
    }
    let keys = heap.keys(alloc, o)?;
    Ok(are_keys(keys.as_slice(), wanted))
}

/// Whether keys are those that are wanted.
fn are_keys(keys: &[Key], wanted: &[WantedKey]) -> bool {
    if keys.len() != wanted.len() {
        return false;
    }
    for place in 0..keys.len() {
        if place >= wanted.len() || !is_key(&keys[place], wanted[place]) {
            return false;
        }
    }
    true
}

/// Writes a member of an object, and tells the answer; none where there is no such object.
fn put(alloc: Global, heap: &mut Heap, o: ObjId, key: &Key) -> Result<Option<Put>, AllocError> {
    let target = HostValue::Object(o);
    if !heap.has_value(&target) {
        return Ok(None);
    }
    Ok(Some(heap.set(alloc, &target, key, HostValue::Null)?))
}

/// An object on which members of these names are written in this order.
fn written(alloc: Global, names: &[&str]) -> Result<Heap, AllocError> {
    let mut heap = Heap::new(alloc, 0)?;
    let o = heap.add(alloc, Kind::Plain)?;
    for name in names {
        let key = key(alloc, name)?;
        put(alloc, &mut heap, o, &key)?;
    }
    Ok(heap)
}

#[test]
fn indices_come_before_names(rt: HostRuntime) -> Result<(), Fail> {
    let alloc = rt.alloc();
    let heap = written(
        alloc,
        &["b", "2", "a", "0", "10", "00", "1", "b", "4294967294"],
    )?;
    let wanted = [
        WantedKey::Index(0),
        WantedKey::Index(1),
        WantedKey::Index(2),
        WantedKey::Index(10),
        WantedKey::Index(4_294_967_294),
        WantedKey::Name("b"),
        WantedKey::Name("a"),
        WantedKey::Name("00"),
    ];
    assert!(rt;
        has_keys(alloc, &heap, ObjId(1), &wanted)?,
        "the order of keys"
    );
    Ok(())
}

/// A heap whose object 1 is an Array with so many elements, each of which was appended by its index.
fn grown(alloc: Global, elements: u32) -> Result<Heap, AllocError> {
    let mut heap = Heap::new(alloc, 0)?;
    let o = heap.add(alloc, Kind::Array)?;
    for index in 0..elements {
        put(alloc, &mut heap, o, &Key::Index(index))?;
    }
    Ok(heap)
}

/// Whether writing an element of object 1 has this answer.
fn answers(alloc: Global, heap: &mut Heap, index: u32, wanted: Put) -> Result<bool, AllocError> {
    Ok(put(alloc, heap, ObjId(1), &Key::Index(index))? == Some(wanted))
}

#[test]
fn an_array_up_to_its_limit(rt: HostRuntime) -> Result<(), Fail> {
    let alloc = rt.alloc();
    let mut heap = grown(alloc, 999_999)?;
    let hole = Put::Outside(OutsideKind::ArrayHole);
    let full = Put::Outside(OutsideKind::ArraySize);
    assert!(rt;
        answers(alloc, &mut heap, 1_000_000, hole)?,
        "beyond the length"
    );
    assert!(rt;
        answers(alloc, &mut heap, 999_999, Put::Done)?,
        "the last element"
    );
    assert!(rt;
        answers(alloc, &mut heap, 1_000_000, full)?,
        "past the limit"
    );
    assert!(rt;
        answers(alloc, &mut heap, 1_000_001, hole)?,
        "beyond the limit"
    );
    assert!(rt;
        answers(alloc, &mut heap, 0, Put::Done)?,
        "the first element"
    );
    assert!(rt;
        reads(
            alloc,
            &heap,
            &(
                Sample::Object(1),
                "length",
                WantedGot::Value(Sample::Number(1_000_000))
            )
        )?,
        "the length"
    );
    Ok(())
}

/// Whether a binding is unset, and then has what is bound to it.
fn binds(heap: &mut Heap, n: u64) -> bool {
    if n as usize >= heap.bindings() {
        return false;
    }
    let unset = heap.binding(n).is_none();
    heap.bind(n, HostValue::Number(7));
    match heap.binding(n) {
        Some(value) => unset && is_sample(value, Sample::Number(7)),
        None => false,
    }
}

#[test]
fn bindings_are_unset_at_first(rt: HostRuntime) -> Result<(), Fail> {
    let mut heap = Heap::new(rt.alloc(), 2)?;
    assert_eq!(rt; heap.bindings(), 2);
    assert!(rt; binds(&mut heap, 0), "the first binding");
    assert!(rt; binds(&mut heap, 1), "the second binding");
    Ok(())
}

#[test]
fn values_are_small(rt: HostRuntime) {
    assert_eq!(rt; size_of::<HostValue>(), 32);
}
