//! `push` of Arrays.
ghost use Rattle.std.specs.Prelude.{◌≡◌, ◌<◌, pos, IfOk, OnOk, OnErr};
ghost use Rattle.host_values.specs.declared.keys.Key.TheVariants as keys;
ghost use Rattle.host_values.specs.declared.values.HostValue.TheVariants as values;
ghost use Rattle.host_values.specs.Heaps.{IsLive};
ghost use Rattle.host_builtins.specs.Calls.{push_of, pushed, put_reply};

use crate::replies::Reply;
use embed_base::OutsideKind;
use embed_base::limits::MOST_ELEMENTS;
use host_values::{Heap, HostValue, Key, ObjId, Put};
use std::alloc::{AllocError, Global};

/// What a write comes to that was to give this value.
fn reply_of(put: Put, value: HostValue) -> Reply
    ensures { result ≡ put_reply value put }
{
    match put {
        Put::Done => Reply::Value(value),
        Put::Throw(class) => Reply::Throw(class),
        Put::Outside(kind) => Reply::Outside(kind),
        Put::Interface => Reply::Interface,
    }
}

/// Writes a value behind so many elements.
fn push_at(
    alloc: Global,
    heap: &mut Heap,
    array: ObjId,
    len: usize,
    value: &HostValue,
) -> Result<Reply, AllocError>
    requires { IsLive heap.old array }
    ensures reply { IfOk result (λ r. r ≡ (pushed heap.old array len value.now).reply) }
    ensures ok { OnOk result (heap.new ≡ (pushed heap.old array len value.now).heap) }
    ensures err { OnErr result (heap.new ≡ heap.old) }
{
    if len >= MOST_ELEMENTS as usize {
        return Ok(Reply::Outside(OutsideKind::ArraySize));
    }
    let value = value.clone()?;
    let put = heap.set(
        alloc,
        &HostValue::Object(array),
        &Key::Index(len as u32),
        value,
    )?;
    Ok(reply_of(put, HostValue::Number(len as i64 + 1)))
}

/// `push(v)` of an Array (ECMA-262, section 23.1.3.23): the value comes behind the elements, and the answer is the new length. It takes
/// exactly one argument. An object of another kind is written as `Heap::set` writes it, at the number of its properties.
pub fn push(
    alloc: Global,
    heap: &mut Heap,
    array: ObjId,
    args: &[HostValue],
) -> Result<Reply, AllocError>
    requires { IsLive heap.old array }
    ensures reply { IfOk result (λ r. r ≡ (push_of heap.old array args.now).reply) }
    ensures ok { OnOk result (heap.new ≡ (push_of heap.old array args.now).heap) }
    ensures err { OnErr result (heap.new ≡ heap.old) }
{
    match args {
        [value] => {
            let len = heap.properties(array).len();
            push_at(alloc, heap, array, len, value)
        }
        _ => Ok(Reply::Outside(OutsideKind::Argument)),
    }
}
