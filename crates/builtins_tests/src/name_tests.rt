//! Members of predefined objects, and methods of each kind of object.

use crate::kinds::each_kind;
use embed_base::SharedString;
use host_builtins::{Member, is_method, member};
use host_values::{Class, Heap, Key, ObjId};
use std::alloc::{AllocError, Global};
use std::test::Fail;

/// A predefined object, a name, and its member of that name.
static MEMBERS: [(Class, &str, Option<Member>); 54] = [
    (Class::Object, "keys", Some(Member::Function)),
    (Class::Promise, "resolve", Some(Member::Function)),
    (Class::Promise, "reject", Some(Member::Function)),
    (Class::Promise, "withResolvers", Some(Member::Function)),
    (Class::Module, "imports", Some(Member::Function)),
    (Class::Module, "exports", Some(Member::Function)),
    (Class::WebAssembly, "validate", Some(Member::Function)),
    (Class::WebAssembly, "promising", Some(Member::Function)),
    (
        Class::WebAssembly,
        "Module",
        Some(Member::Class(Class::Module)),
    ),
    (
        Class::WebAssembly,
        "Instance",
        Some(Member::Class(Class::Instance)),
    ),
    (
        Class::WebAssembly,
        "Memory",
        Some(Member::Class(Class::Memory)),
    ),
    (
        Class::WebAssembly,
        "Table",
        Some(Member::Class(Class::Table)),
    ),
    (
        Class::WebAssembly,
        "Global",
        Some(Member::Class(Class::Global)),
    ),
    (
        Class::WebAssembly,
        "Suspending",
        Some(Member::Class(Class::Suspending)),
    ),
    (
        Class::WebAssembly,
        "CompileError",
        Some(Member::Class(Class::CompileError)),
    ),
    (
        Class::WebAssembly,
        "LinkError",
        Some(Member::Class(Class::LinkError)),
    ),
    (
        Class::WebAssembly,
        "RuntimeError",
        Some(Member::Class(Class::RuntimeError)),
    ),
    (
        Class::WebAssembly,
        "SuspendError",
        Some(Member::Class(Class::SuspendError)),
    ),
    (Class::Object, "Keys", None),
    (Class::Object, "key", None),
    (Class::Object, "keys2", None),
    (Class::Object, "", None),
    (Class::Object, "length", None),
    (Class::Object, "resolve", None),
    (Class::Promise, "all", None),
    (Class::Promise, "then", None),
    (Class::Promise, "keys", None),
    (Class::WebAssembly, "Error", None),
    (Class::WebAssembly, "module", None),
    (Class::WebAssembly, "JSTag", None),
    (Class::WebAssembly, "imports", None),
    (Class::Module, "Module", None),
    (Class::Module, "customSections", None),
    (Class::Instance, "exports", None),
    (Class::Memory, "grow", None),
    (Class::Table, "get", None),
    (Class::Global, "valueOf", None),
    (Class::Suspending, "keys", None),
    (Class::Print, "length", None),
    (Class::Readbuffer, "x", None),
    (Class::Utf8Text, "x", None),
    (Class::BigInt, "keys", None),
    (Class::Number, "keys", None),
    (Class::String, "keys", None),
    (Class::Uint8Array, "from", None),
    (Class::Error, "name", None),
    (Class::TypeError, "name", None),
    (Class::RangeError, "name", None),
    (Class::ReferenceError, "name", None),
    (Class::SyntaxError, "name", None),
    (Class::CompileError, "name", None),
    (Class::LinkError, "name", None),
    (Class::RuntimeError, "name", None),
    (Class::SuspendError, "name", None),
];

#[test]
fn members_of_predefined_objects(rt: HostRuntime) -> Result<(), Fail> {
    for case in MEMBERS.iter() {
        assert!(rt; member(case.0, case.1) == case.2, "a member");
    }
    Ok(())
}

/// An object of `each_kind`, and the name of a method that it has. No other object has one of these names, and no other name is one.
static METHODS: [(u64, &str); 8] = [
    (3, "push"),
    (12, "then"),
    (12, "catch"),
    (17, "grow"),
    (18, "get"),
    (18, "set"),
    (18, "grow"),
    (19, "valueOf"),
];

/// Names of methods, and of what is none: an index, values that are read, an inherited name, and names of other predefined objects.
static NAMES: [&str; 16] = [
    "push", "then", "catch", "grow", "get", "set", "valueOf", "0", "length", "value", "buffer",
    "exports", "toString", "pop", "Then", "",
];

/// Whether a method of that object stands in the table.
fn is_listed(number: u64, name: &str) -> bool {
    METHODS
        .iter()
        .any(|method| method.0 == number && method.1 == name)
}

/// Whether the key of a name is a method of an object exactly where it is listed.
fn agrees(heap: &Heap, number: u64, name: &str, key: &Key) -> bool {
    let object = ObjId(number);
    if !heap.has_object(object) {
        return false;
    }
    is_method(heap.kind(object), key) == is_listed(number, name)
}

/// Whether a name is a method of the objects that are listed with it alone.
fn agrees_everywhere(alloc: Global, heap: &Heap, name: &str) -> Result<bool, AllocError> {
    let key = Key::of_text(SharedString::from_str(alloc, name)?);
    Ok((0..21_u64).all(|number| agrees(heap, number, name, &key)))
}

#[test]
fn methods_of_each_kind(rt: HostRuntime) -> Result<(), Fail> {
    let alloc = rt.alloc();
    let heap = each_kind(alloc)?;
    for name in NAMES.iter() {
        assert!(rt; agrees_everywhere(alloc, &heap, name)?, "a name");
    }
    Ok(())
}
