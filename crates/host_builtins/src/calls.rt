//! Calls of predefined objects and of their functions.
ghost use Rattle.std.specs.Prelude.{◌≡◌, IfOk, OnOk, OnErr};
ghost use Rattle.host_builtins.specs.Calls.{call_of, construct_of, member_call_of};
ghost use Rattle.host_builtins.specs.Replies.{plain_call, plain_construct};

use crate::errors::{class_of_errors, make};
use crate::object_keys::keys;
use crate::primitives::{big_int, number, string};
use crate::replies::Reply;
use embed_base::OutsideKind;
use host_values::{Class, ErrorClass, Heap, HostValue};
use std::alloc::{AllocError, Global};

/// A call without `new` of a predefined object that makes no errors.
fn call_plain(alloc: Global, class: Class, args: &[HostValue]) -> Result<Reply, AllocError>
    ensures { IfOk result (λ r. r ≡ plain_call class args.now) }
{
    match class {
        Class::BigInt => Ok(big_int(args)),
        Class::Number => Ok(number(args)),
        Class::String => string(alloc, args),
        Class::Print | Class::Readbuffer | Class::Utf8Text => Ok(Reply::Interface),
        _ => Ok(Reply::Throw(ErrorClass::TypeError)),
    }
}

/// A call of a predefined object without `new`. `print`, which is a value, comes here as the interface's.
pub fn call(
    alloc: Global,
    heap: &mut Heap,
    class: Class,
    args: &[HostValue],
) -> Result<Reply, AllocError>
    ensures reply { IfOk result (λ r. r ≡ (call_of heap.old class args.now).reply) }
    ensures ok { OnOk result (heap.new ≡ (call_of heap.old class args.now).heap) }
    ensures err { OnErr result (heap.new ≡ heap.old) }
{
    match class_of_errors(class) {
        Some(errors) => make(alloc, heap, errors, args),
        None => call_plain(alloc, class, args),
    }
}

/// A call with `new` of a predefined object that makes no errors.
fn construct_plain(class: Class) -> Reply
    ensures { result ≡ plain_construct class }
{
    match class {
        Class::Promise | Class::Uint8Array | Class::Module | Class::Instance => Reply::Interface,
        Class::Memory | Class::Table | Class::Global | Class::Suspending => Reply::Interface,
        Class::WebAssembly => Reply::Throw(ErrorClass::TypeError),
        _ => Reply::Outside(OutsideKind::Construct),
    }
}

/// A call of a predefined object with `new`.
pub fn construct(
    alloc: Global,
    heap: &mut Heap,
    class: Class,
    args: &[HostValue],
) -> Result<Reply, AllocError>
    ensures reply { IfOk result (λ r. r ≡ (construct_of heap.old class args.now).reply) }
    ensures ok { OnOk result (heap.new ≡ (construct_of heap.old class args.now).heap) }
    ensures err { OnErr result (heap.new ≡ heap.old) }
{
    match class_of_errors(class) {
        Some(errors) => make(alloc, heap, errors, args),
        None => Ok(construct_plain(class)),
    }
}

/// A call of a function that is a member of a predefined object. `Object.keys` is answered here, and all others are the interface's.
pub fn call_member(
    alloc: Global,
    heap: &mut Heap,
    class: Class,
    name: &str,
    args: &[HostValue],
) -> Result<Reply, AllocError>
    ensures reply { IfOk result (λ r. r ≡ (member_call_of heap.old class name.now args.now).reply) }
    ensures ok { OnOk result (heap.new ≡ (member_call_of heap.old class name.now args.now).heap) }
    ensures err { OnErr result (heap.new ≡ heap.old) }
{
    match (class, name) {
        (Class::Object, "keys") => keys(alloc, heap, args),
        _ => Ok(Reply::Interface),
    }
}
