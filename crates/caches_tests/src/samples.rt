//! Values of each kind.

use embed_base::SharedString;
use host_values::{HostValue, ObjId};
use std::alloc::{AllocError, Global};

/// A value.
#[derive(Clone, Copy)]
pub(crate) enum Sample {
    Undefined,
    Null,
    Bool(bool),
    Number(i64),
    BigInt(i128),
    Text(&'static str),
    Object(u64),
}

/// The value of a sample.
pub(crate) fn value_of(alloc: Global, sample: Sample) -> Result<HostValue, AllocError> {
    match sample {
        Sample::Undefined => Ok(HostValue::Undefined),
        Sample::Null => Ok(HostValue::Null),
        Sample::Bool(truth) => Ok(HostValue::Bool(truth)),
        Sample::Number(number) => Ok(HostValue::Number(number)),
        Sample::BigInt(number) => Ok(HostValue::BigInt(number)),
        Sample::Text(text) => Ok(HostValue::Text(SharedString::from_str(alloc, text)?)),
        Sample::Object(number) => Ok(HostValue::Object(ObjId(number))),
    }
}

/// Whether a value is that of a sample.
pub(crate) fn is_sample(value: &HostValue, sample: Sample) -> bool {
    match (value, sample) {
        (HostValue::Undefined, Sample::Undefined) => true,
        (HostValue::Null, Sample::Null) => true,
        (HostValue::Bool(a), Sample::Bool(b)) => *a == b,
        (HostValue::Number(a), Sample::Number(b)) => *a == b,
        (HostValue::BigInt(a), Sample::BigInt(b)) => *a == b,
        (HostValue::Text(a), Sample::Text(b)) => a.as_str() == b,
        (HostValue::Object(a), Sample::Object(b)) => a.0 == b,
        _ => false,
    }
}
