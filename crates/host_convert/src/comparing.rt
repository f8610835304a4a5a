//! The relational operators.
ghost use Rattle.std.specs.Prelude.{◌≡◌};
ghost use Rattle.host_convert.specs.Operators as spec;

use crate::conv::Conv;
use crate::numeric::Numeric;
use crate::operators::Rel;
use crate::primitives::{is_object, is_text, to_numeric};
use embed_base::OutsideKind;
use host_values::HostValue;

/// A relational operator between whole numbers.
fn related(op: Rel, a: i128, b: i128) -> bool
    ensures { result ≡ spec.related op a b }
{
    match op {
        Rel::Lt => a < b,
        Rel::Gt => b < a,
        Rel::Le => a <= b,
        Rel::Ge => b <= a,
    }
}

/// A relational operator between numbers, also across Number and BigInt. NaN gives false.
fn numbers_related(op: Rel, a: Numeric, b: Numeric) -> bool
    ensures { result ≡ spec.numbers_related op a b }
{
    match (a, b) {
        (Numeric::Number(a), Numeric::Number(b)) => related(op, i128::from(a), i128::from(b)),
        (Numeric::Number(a), Numeric::BigInt(b)) => related(op, i128::from(a), b),
        (Numeric::BigInt(a), Numeric::Number(b)) => related(op, a, i128::from(b)),
        (Numeric::BigInt(a), Numeric::BigInt(b)) => related(op, a, b),
        _ => false,
    }
}

/// A relational operator between two values (ECMA-262, section 13.10.1).
pub fn compare(op: Rel, a: &HostValue, b: &HostValue) -> Conv<bool>
    ensures { result ≡ spec.relation_of op a.now b.now }
{
    if is_object(a) || is_object(b) {
        return Conv::Outside(OutsideKind::ToPrimitive);
    }
    if is_text(a) && is_text(b) {
        return Conv::Outside(OutsideKind::TextOrder);
    }
    if is_text(a) || is_text(b) {
        return Conv::Outside(OutsideKind::TextNumber);
    }
    Conv::Value(numbers_related(op, to_numeric(a), to_numeric(b)))
}
