//! Values, and replies that are wanted.

use embed_base::{OutsideKind, SharedString};
use host_builtins::Reply;
use host_values::{ErrorClass, Heap, HostValue, Kind, ObjId};
use std::alloc::{AllocError, Global};

/// A value.
#[derive(Clone, Copy)]
pub(crate) enum Sample {
    Undefined,
    Null,
    Bool(bool),
    Number(i64),
    BigInt(i128),
    Text(&'static str),
    Object(u64),
}

/// What is wanted of a call.
#[derive(Clone, Copy)]
pub(crate) enum Wanted {
    Value(Sample),
    /// The error that is the only new object.
    Error(ErrorClass, &'static str),
    Throw(ErrorClass),
    Outside(OutsideKind),
    Interface,
}

pub(crate) const TYPE_ERROR: Wanted = Wanted::Throw(ErrorClass::TypeError);

pub(crate) const CONSTRUCT: Wanted = Wanted::Outside(OutsideKind::Construct);

pub(crate) const ARGUMENT: Wanted = Wanted::Outside(OutsideKind::Argument);

pub(crate) const TO_PRIMITIVE: Wanted = Wanted::Outside(OutsideKind::ToPrimitive);

/// The value of a sample.
pub(crate) fn value_of(alloc: Global, sample: Sample) -> Result<HostValue, AllocError> {
    match sample {
        Sample::Undefined => Ok(HostValue::Undefined),
        Sample::Null => Ok(HostValue::Null),
        Sample::Bool(truth) => Ok(HostValue::Bool(truth)),
        Sample::Number(number) => Ok(HostValue::Number(number)),
        Sample::BigInt(number) => Ok(HostValue::BigInt(number)),
        Sample::Text(text) => Ok(HostValue::Text(SharedString::from_str(alloc, text)?)),
        Sample::Object(number) => Ok(HostValue::Object(ObjId(number))),
    }
}

/// Arguments that are this value, or none.
pub(crate) fn arguments(
    alloc: Global,
    sample: Option<Sample>,
) -> Result<Vec<HostValue>, AllocError> {
    let mut args = Vec::new(alloc);
    if let Some(sample) = sample {
        args.push(value_of(alloc, sample)?)?;
    }
    Ok(args)
}

/// Whether a value is that of a sample.
pub(crate) fn is_sample(value: &HostValue, sample: Sample) -> bool {
    match (value, sample) {
        (HostValue::Undefined, Sample::Undefined) => true,
        (HostValue::Null, Sample::Null) => true,
        (HostValue::Bool(a), Sample::Bool(b)) => *a == b,
        (HostValue::Number(a), Sample::Number(b)) => *a == b,
        (HostValue::BigInt(a), Sample::BigInt(b)) => *a == b,
        (HostValue::Text(a), Sample::Text(b)) => a.as_str() == b,
        (HostValue::Object(a), Sample::Object(b)) => a.0 == b,
        _ => false,
    }
}

/// Whether an object is an error of this class with this message.
fn is_error(heap: &Heap, o: ObjId, wanted: ErrorClass, text: &str) -> bool {
    if !heap.has_object(o) {
        return false;
    }
    match heap.kind(o) {
        Kind::Error { class, message } => *class == wanted && message.as_str() == text,
        _ => false,
    }
}

/// Whether a value is the object of this number, the last one, and an error of this class with this message.
pub(crate) fn is_new_error(
    heap: &Heap,
    value: &HostValue,
    number: u64,
    class: ErrorClass,
    message: &str,
) -> bool {
    match value {
        HostValue::Object(o) => {
            let is_last = number.checked_add(1) == Some(heap.next().0);
            is_last && o.0 == number && is_error(heap, *o, class, message)
        }
        _ => false,
    }
}

/// Whether a call on a heap of so many objects has the reply that is wanted, and made nothing but an error that is.
pub(crate) fn is_wanted(heap: &Heap, objects: u64, reply: &Reply, wanted: Wanted) -> bool {
    let same = heap.next().0 == objects;
    match (reply, wanted) {
        (Reply::Value(value), Wanted::Error(class, message)) => {
            is_new_error(heap, value, objects, class, message)
        }
        (Reply::Value(value), Wanted::Value(sample)) => same && is_sample(value, sample),
        (Reply::Throw(class), Wanted::Throw(wanted)) => same && *class == wanted,
        (Reply::Outside(kind), Wanted::Outside(wanted)) => same && *kind == wanted,
        (Reply::Interface, Wanted::Interface) => same,
        _ => false,
    }
}
