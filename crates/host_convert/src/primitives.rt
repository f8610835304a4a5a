//! ToBoolean, and when two values are strictly equal.
ghost use Rattle.std.specs.Prelude.{◌≡◌};
ghost use Rattle.host_convert.specs.Conversions as spec;
ghost use Rattle.host_convert.specs.Operators.{is_object, is_strictly_equal, is_text, to_numeric};

use crate::numeric::Numeric;
use host_values::HostValue;

/// ToBoolean (ECMA-262, section 7.1.2).
pub fn to_boolean(v: &HostValue) -> bool
    ensures { result ≡ spec.to_boolean v.now }
{
    match v {
        HostValue::Undefined | HostValue::Null => false,
        HostValue::Bool(truth) => *truth,
        HostValue::Number(number) => *number != 0,
        HostValue::BigInt(number) => *number != 0,
        HostValue::Text(text) => !text.as_str().is_empty(),
        HostValue::Object(_) => true,
    }
}

/// IsStrictlyEqual (ECMA-262, section 7.2.14): the same type and value, and objects by identity.
pub fn strict_equal(a: &HostValue, b: &HostValue) -> bool
    ensures { result ≡ is_strictly_equal a.now b.now }
{
    match (a, b) {
        (HostValue::Undefined, HostValue::Undefined) => true,
        (HostValue::Null, HostValue::Null) => true,
        (HostValue::Bool(a), HostValue::Bool(b)) => a == b,
        (HostValue::Number(a), HostValue::Number(b)) => a == b,
        (HostValue::BigInt(a), HostValue::BigInt(b)) => a == b,
        (HostValue::Text(a), HostValue::Text(b)) => a.as_str() == b.as_str(),
        (HostValue::Object(a), HostValue::Object(b)) => a.0 == b.0,
        _ => false,
    }
}

/// Whether a value is an object.
pub(crate) fn is_object(v: &HostValue) -> bool
    ensures { result ≡ is_object v.now }
{
    match v {
        HostValue::Object(_) => true,
        _ => false,
    }
}

/// Whether a value is a text.
pub(crate) fn is_text(v: &HostValue) -> bool
    ensures { result ≡ is_text v.now }
{
    match v {
        HostValue::Text(_) => true,
        _ => false,
    }
}

/// ToNumeric (ECMA-262, section 7.1.3) of a value that is neither an object nor a text.
pub(crate) fn to_numeric(v: &HostValue) -> Numeric
    ensures { result ≡ to_numeric v.now }
{
    match v {
        HostValue::Null => Numeric::Number(0),
        HostValue::Bool(truth) => Numeric::Number(i64::from(*truth)),
        HostValue::Number(number) => Numeric::Number(*number),
        HostValue::BigInt(number) => Numeric::BigInt(*number),
        _ => Numeric::NaN,
    }
}
