//! ToString, and `+`.
ghost use Rattle.std.specs.Prelude.{◌≡◌, ◌++◌, IfOk, string_bytes};
ghost use Rattle.host_convert.specs.Conversions.{primitive_text, to_string};
ghost use Rattle.host_convert.specs.Operators as spec;

use crate::arithmetic::numeric_sum;
use crate::conv::Conv;
use crate::primitives::{is_object, is_text, to_numeric};
use embed_base::limits::MOST_TEXT_BYTES;
use embed_base::{OutsideKind, SharedString};
use host_values::HostValue;
use std::alloc::{AllocError, Global};

/// The text of a value that is no object.
fn primitive_text(alloc: Global, v: &HostValue) -> Result<SharedString, AllocError>
    ensures { IfOk result (λ text. text ≡ primitive_text v.now) }
{
    match v {
        HostValue::Undefined => SharedString::from_str(alloc, "undefined"),
        HostValue::Null => SharedString::from_str(alloc, "null"),
        HostValue::Bool(truth) => {
            SharedString::from_str(alloc, if *truth { "true" } else { "false" })
        }
        HostValue::Number(number) => {
            let text = format!(in alloc; "{number}")?;
            SharedString::from_string(alloc, text)
        }
        HostValue::BigInt(number) => {
            let text = format!(in alloc; "{number}")?;
            SharedString::from_string(alloc, text)
        }
        HostValue::Text(text) => text.clone(),
        HostValue::Object(_) => SharedString::from_str(alloc, ""),
    }
}

/// ToString (ECMA-262, section 7.1.17). A text's bytes aren't copied.
pub fn to_text(alloc: Global, v: &HostValue) -> Result<Conv<SharedString>, AllocError>
    ensures { IfOk result (λ text. text ≡ to_string v.now) }
{
    if is_object(v) {
        return Ok(Conv::Outside(OutsideKind::ToPrimitive));
    }
    let text = primitive_text(alloc, v)?;
    Ok(Conv::Value(text))
}

/// Two texts joined, where the result isn't past its limit. Nothing is copied before that is known.
fn join(alloc: Global, a: &str, b: &str) -> Result<Conv<HostValue>, AllocError>
    ensures { IfOk result (λ joined. joined ≡ spec.text_of (a.now ++ b.now)) }
{
    if (a.len() + b.len()) as u64 > MOST_TEXT_BYTES {
        return Ok(Conv::Outside(OutsideKind::TextSize));
    }
    let mut joined = String::with_capacity(alloc, a.len() + b.len())?;
    joined.push_str(a)?;
    joined.push_str(b)?;
    let text = SharedString::from_string(alloc, joined)?;
    Ok(Conv::Value(HostValue::Text(text)))
}

/// The texts of two values joined, neither of which is an object.
fn join_values(alloc: Global, a: &HostValue, b: &HostValue) -> Result<Conv<HostValue>, AllocError>
    ensures { IfOk result (λ joined. joined ≡ spec.text_of (primitive_text a.now ++ primitive_text b.now)) }
{
    let a = primitive_text(alloc, a)?;
    let b = primitive_text(alloc, b)?;
    join(alloc, a.as_str(), b.as_str())
}

/// `+` between two values (ECMA-262, section 13.15.3).
pub fn add(alloc: Global, a: &HostValue, b: &HostValue) -> Result<Conv<HostValue>, AllocError>
    ensures { IfOk result (λ sum. sum ≡ spec.sum_of a.now b.now) }
{
    if is_object(a) || is_object(b) {
        return Ok(Conv::Outside(OutsideKind::ToPrimitive));
    }
    if is_text(a) || is_text(b) {
        return join_values(alloc, a, b);
    }
    Ok(numeric_sum(to_numeric(a), to_numeric(b)))
}
