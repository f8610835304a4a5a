//! What a value's `then` is.
ghost use Rattle.std.specs.Prelude.{◌≡◌, IfOk};
ghost use Rattle.host_values.specs.Heaps.{IsLiveValue};
ghost use Rattle.host_values.specs.Members.{read_of};
ghost use Rattle.promise_jobs.specs.Promises.{callable_in, promise_of, then_key, then_of};

use embed_base::SharedString;
use host_values::{Got, Heap, HostValue, Key, Kind, ObjId};
use std::alloc::{AllocError, Global};

/// The `then` of a value.
#[derive(Clone, Copy, PartialEq, Eq, Debug)]
pub enum ThenMember {
    /// There is none that can be called.
    Absent,
    /// That of a promise.
    BuiltIn,
    /// A property that is a function.
    Callable(ObjId),
}

/// The key `then`.
fn key_of_then(alloc: Global) -> Result<Key, AllocError>
    ensures { IfOk result (λ key. key ≡ then_key) }
{
    Ok(Key::Name(SharedString::from_str(alloc, "then")?))
}

/// What was read, as far as it can be called.
fn callable(heap: &Heap, got: Got) -> ThenMember
    ensures { result ≡ callable_in heap.now got }
{
    match got {
        Got::Value(HostValue::Object(function)) => {
            if heap.is_callable(&HostValue::Object(function)) {
                ThenMember::Callable(function)
            } else {
                ThenMember::Absent
            }
        }
        _ => ThenMember::Absent,
    }
}

/// The property `then` of an object.
fn property(alloc: Global, heap: &Heap, value: &HostValue) -> Result<ThenMember, AllocError>
    requires { IsLiveValue heap.now value.now }
    ensures { IfOk result (λ found. found ≡ callable_in heap.now (read_of heap.now value.now then_key)) }
{
    let key = key_of_then(alloc)?;
    let got = heap.get(alloc, value, &key)?;
    Ok(callable(heap, got))
}

/// The `then` of a value.
pub(crate) fn then_member(
    alloc: Global,
    heap: &Heap,
    value: &HostValue,
) -> Result<ThenMember, AllocError>
    requires { IsLiveValue heap.now value.now }
    ensures { IfOk result (λ found. found ≡ then_of heap.now value.now) }
{
    match value {
        HostValue::Object(object) => match heap.kind(*object) {
            Kind::Promise(_) => Ok(ThenMember::BuiltIn),
            Kind::Plain | Kind::Exports => property(alloc, heap, value),
            _ => Ok(ThenMember::Absent),
        },
        _ => Ok(ThenMember::Absent),
    }
}

/// The number of the promise that a value is.
pub(crate) fn promise_number(heap: &Heap, value: &HostValue) -> Option<u64>
    requires { IsLiveValue heap.now value.now }
    ensures { result ≡ promise_of heap.now value.now }
{
    match value {
        HostValue::Object(object) => match heap.kind(*object) {
            Kind::Promise(number) => Some(*number),
            _ => None,
        },
        _ => None,
    }
}
