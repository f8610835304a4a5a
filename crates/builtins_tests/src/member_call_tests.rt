//! `Object.keys`, `push`, and functions of predefined objects that are answered elsewhere.

use crate::kinds::{each_kind, key};
use crate::samples::{ARGUMENT, Sample, TYPE_ERROR, Wanted, is_sample, is_wanted, value_of};
use embed_base::OutsideKind;
use host_builtins::{Reply, call_member, push};
use host_values::{Class, Heap, HostValue, Key, Kind, ObjId};
use std::alloc::{AllocError, Global};
use std::test::Fail;

/// What a call of `Object.keys` comes to; an object that isn't there is handed out.
fn keys_of(alloc: Global, heap: &mut Heap, value: HostValue) -> Result<Reply, AllocError> {
    if !heap.has_value(&value) {
        return Ok(Reply::Interface);
    }
    call_member(alloc, heap, Class::Object, "keys", &[value])
}

/// Whether an Array has these texts, a hundred at most, as elements.
fn are_elements(heap: &Heap, array: ObjId, texts: &[&'static str]) -> bool {
    if !heap.has_object(array) || texts.len() > 100 {
        return false;
    }
    let elements = heap.properties(array);
    for place in 0..texts.len() {
        match elements.get(&Key::Index(place as u32)) {
            Some(element) if is_sample(element, Sample::Text(texts[place])) => {}
            _ => return false,
        }
    }
    elements.len() == texts.len() && *heap.kind(array) == Kind::Array
}

/// Whether the keys of an object come as a new Array of these texts.
fn lists(
    alloc: Global,
    heap: &mut Heap,
    number: u64,
    texts: &[&'static str],
) -> Result<bool, AllocError> {
    let next = heap.next();
    match keys_of(alloc, heap, HostValue::Object(ObjId(number)))? {
        Reply::Value(HostValue::Object(o)) => Ok(o == next && are_elements(heap, o, texts)),
        _ => Ok(false),
    }
}

/// A heap whose object 1 has properties of these names, written in this order.
fn written(alloc: Global, names: &[&str]) -> Result<Heap, AllocError> {
    let mut heap = Heap::new(alloc, 0)?;
    let target = HostValue::Object(heap.add(alloc, Kind::Plain)?);
    for name in names {
        let key = key(alloc, name)?;
        if heap.has_value(&target) {
            heap.set(alloc, &target, &key, HostValue::Null)?;
        }
    }
    Ok(heap)
}

/// Whether the indices come first, ascending, and then the names in order of creation; a name that is written again keeps its place.
fn lists_in_order(alloc: Global) -> Result<bool, AllocError> {
    let mut heap = written(alloc, &["b", "10", "a", "2", "01", "b"])?;
    lists(alloc, &mut heap, 1, &["2", "10", "b", "a", "01"])
}

/// Whether plain objects, exports objects and Arrays have their keys listed, each time in a new Array.
fn lists_each_kind(alloc: Global) -> Result<bool, AllocError> {
    let mut heap = each_kind(alloc)?;
    let plain = lists(alloc, &mut heap, 1, &[])?;
    let exports = lists(alloc, &mut heap, 2, &["0", "1", "b"])?;
    let array = lists(alloc, &mut heap, 3, &["0", "1"])?;
    Ok(plain && exports && array && heap.next().0 == 24)
}

#[test]
fn keys_in_order(rt: HostRuntime) -> Result<(), Fail> {
    let alloc = rt.alloc();
    assert!(rt; lists_in_order(alloc)?, "the order of keys");
    Ok(())
}

#[test]
fn keys_of_each_kind(rt: HostRuntime) -> Result<(), Fail> {
    let alloc = rt.alloc();
    assert!(rt; lists_each_kind(alloc)?, "three kinds");
    Ok(())
}

/// What has no keys: null and undefined are an error, and all else is an argument that isn't taken.
static KEYLESS: [(Sample, Wanted); 24] = [
    (Sample::Undefined, TYPE_ERROR),
    (Sample::Null, TYPE_ERROR),
    (Sample::Bool(true), ARGUMENT),
    (Sample::Number(1), ARGUMENT),
    (Sample::BigInt(1), ARGUMENT),
    (Sample::Text("ab"), ARGUMENT),
    (Sample::Object(0), ARGUMENT),
    (Sample::Object(4), ARGUMENT),
    (Sample::Object(5), ARGUMENT),
    (Sample::Object(6), ARGUMENT),
    (Sample::Object(7), ARGUMENT),
    (Sample::Object(8), ARGUMENT),
    (Sample::Object(9), ARGUMENT),
    (Sample::Object(10), ARGUMENT),
    (Sample::Object(11), ARGUMENT),
    (Sample::Object(12), ARGUMENT),
    (Sample::Object(13), ARGUMENT),
    (Sample::Object(14), ARGUMENT),
    (Sample::Object(15), ARGUMENT),
    (Sample::Object(16), ARGUMENT),
    (Sample::Object(17), ARGUMENT),
    (Sample::Object(18), ARGUMENT),
    (Sample::Object(19), ARGUMENT),
    (Sample::Object(20), ARGUMENT),
];

/// Whether `Object.keys` of a value comes to what is wanted.
fn refuses(alloc: Global, heap: &mut Heap, case: &(Sample, Wanted)) -> Result<bool, AllocError> {
    let value = value_of(alloc, case.0)?;
    let reply = keys_of(alloc, heap, value)?;
    Ok(is_wanted(heap, 21, &reply, case.1))
}

#[test]
fn keys_of_what_has_none(rt: HostRuntime) -> Result<(), Fail> {
    let alloc = rt.alloc();
    let mut heap = each_kind(alloc)?;
    for case in KEYLESS.iter() {
        assert!(rt; refuses(alloc, &mut heap, case)?, "no keys");
    }
    Ok(())
}

/// Functions of predefined objects without arguments, and what they come to.
static FUNCTIONS: [(Class, &str, Wanted); 9] = [
    (Class::Object, "keys", TYPE_ERROR),
    (Class::Promise, "resolve", Wanted::Interface),
    (Class::Promise, "reject", Wanted::Interface),
    (Class::Promise, "withResolvers", Wanted::Interface),
    (Class::WebAssembly, "validate", Wanted::Interface),
    (Class::WebAssembly, "promising", Wanted::Interface),
    (Class::Module, "imports", Wanted::Interface),
    (Class::Module, "exports", Wanted::Interface),
    (Class::Promise, "keys", Wanted::Interface),
];

/// Whether a function without arguments comes to what is wanted.
fn comes_to(alloc: Global, case: &(Class, &str, Wanted)) -> Result<bool, AllocError> {
    let mut heap = Heap::new(alloc, 0)?;
    let reply = call_member(alloc, &mut heap, case.0, case.1, &[])?;
    Ok(is_wanted(&heap, 1, &reply, case.2))
}

#[test]
fn functions_without_arguments(rt: HostRuntime) -> Result<(), Fail> {
    let alloc = rt.alloc();
    for case in FUNCTIONS.iter() {
        assert!(rt; comes_to(alloc, case)?, "a function");
    }
    Ok(())
}

/// What `push` comes to; one of an object that isn't there is handed out.
fn push_on(
    alloc: Global,
    heap: &mut Heap,
    number: u64,
    args: &[HostValue],
) -> Result<Reply, AllocError> {
    let array = ObjId(number);
    if !heap.has_object(array) {
        return Ok(Reply::Interface);
    }
    push(alloc, heap, array, args)
}

/// Whether an object's element of this index is that of a sample.
fn has_element(heap: &Heap, number: u64, index: u32, sample: Sample) -> bool {
    let object = ObjId(number);
    if !heap.has_object(object) {
        return false;
    }
    match heap.properties(object).get(&Key::Index(index)) {
        Some(element) => is_sample(element, sample),
        None => false,
    }
}

/// Whether `push` gives the new length each time, and the elements stand in their order.
fn appends(alloc: Global) -> Result<bool, AllocError> {
    let mut heap = Heap::new(alloc, 0)?;
    heap.add(alloc, Kind::Array)?;
    let first = push_on(alloc, &mut heap, 1, &[HostValue::Number(7)])?;
    let second = push_on(alloc, &mut heap, 1, &[HostValue::Object(ObjId(1))])?;
    Ok(
        is_wanted(&heap, 2, &first, Wanted::Value(Sample::Number(1)))
            && is_wanted(&heap, 2, &second, Wanted::Value(Sample::Number(2)))
            && has_element(&heap, 1, 0, Sample::Number(7))
            && has_element(&heap, 1, 1, Sample::Object(1)),
    )
}

/// Whether `push` refuses no argument and two arguments, and leaves the Array with its two elements.
fn takes_one_argument(alloc: Global) -> Result<bool, AllocError> {
    let mut heap = each_kind(alloc)?;
    let none = push_on(alloc, &mut heap, 3, &[])?;
    let two = push_on(alloc, &mut heap, 3, &[HostValue::Null, HostValue::Null])?;
    Ok(
        is_wanted(&heap, 21, &none, ARGUMENT)
            && is_wanted(&heap, 21, &two, ARGUMENT)
            && !has_element(&heap, 3, 2, Sample::Null),
    )
}

/// Whether `push` on other kinds is a write of the next index: an exports object is frozen, and a plain object takes it.
fn writes_others(alloc: Global) -> Result<bool, AllocError> {
    let mut heap = each_kind(alloc)?;
    let exports = push_on(alloc, &mut heap, 2, &[HostValue::Null])?;
    let plain = push_on(alloc, &mut heap, 1, &[HostValue::Null])?;
    let function = push_on(alloc, &mut heap, 0, &[HostValue::Null])?;
    Ok(
        is_wanted(&heap, 21, &exports, TYPE_ERROR)
            && is_wanted(&heap, 21, &plain, Wanted::Value(Sample::Number(1)))
            && has_element(&heap, 1, 0, Sample::Null)
            && is_wanted(
                &heap,
                21,
                &function,
                Wanted::Outside(OutsideKind::ObjectWrite),
            ),
    )
}

#[test]
fn pushes(rt: HostRuntime) -> Result<(), Fail> {
    let alloc = rt.alloc();
    assert!(rt; appends(alloc)?, "two elements");
    assert!(rt; takes_one_argument(alloc)?, "one argument");
    assert!(rt; writes_others(alloc)?, "other kinds");
    Ok(())
}
