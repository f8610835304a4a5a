ghost use Rattle.std.specs.Prelude.{FitsSigned, ◌≡◌, ◌++◌, ℤ, Some, Ok, Err, string_bytes};
ghost use Rattle.std.specs.Int.{w64};
ghost use Rattle.std.specs.Option.{SomeIff};
ghost use Rattle.embed_script.specs.Values.{shown_of};
ghost use Rattle.embed_script.specs.Operators.{number_of, text_of, operate};
ghost use Rattle.embed_script.specs.Ends.{at_place};
ghost use Rattle.embed_script.specs.Stops.{Meets};

use crate::stop::{Stop, refuse};
use crate::value::Value;
use embed_base::limits::{GREATEST_NUMBER, MOST_TEXT_BYTES};
use embed_base::{OutsideKind, SharedString};
use small_parser::Operator;
use std::alloc::Global;

/// A result of whole numbers as a Number; none is one beyond 64 bits.
pub(crate) fn number(place: u32, value: Option<i64>) -> Result<Value, Stop>
    ensures { (z : ℤ) → SomeIff value (FitsSigned w64 z) z → Meets result (at_place place (number_of z)) }
{
    match value {
        Some(number) if number.unsigned_abs() <= GREATEST_NUMBER => Ok(Value::Number(number)),
        _ => Err(refuse(place, OutsideKind::Number)),
    }
}

/// A text with more bytes after it.
fn append(alloc: Global, place: u32, left: SharedString, more: &str) -> Result<Value, Stop>
    ensures { Meets result (at_place place (text_of (left ++ more.now))) }
{
    if (left.as_str().len() + more.len()) as u64 > MOST_TEXT_BYTES {
        return Err(refuse(place, OutsideKind::TextSize));
    }
    let text = left.append(alloc, more)?;
    Ok(Value::Text(text))
}

/// The shown forms of two values, joined.
fn join(alloc: Global, place: u32, left: Value, right: &Value) -> Result<Value, Stop>
    ensures { Meets result (at_place place (text_of (shown_of left ++ shown_of right.now))) }
{
    let left = match left {
        Value::Text(text) => text,
        Value::Number(number) => {
            SharedString::from_string(alloc, format!(in alloc; "{number}")?)?
        }
    };
    match right {
        Value::Text(text) => append(alloc, place, left, text.as_str()),
        Value::Number(number) => {
            let shown = format!(in alloc; "{number}")?;
            append(alloc, place, left, shown.as_str())
        }
    }
}

/// An operator between two values, at its place.
pub(crate) fn operate(
    alloc: Global,
    operator: Operator,
    place: u32,
    left: Value,
    right: &Value,
) -> Result<Value, Stop>
    ensures { Meets result (at_place place (operate operator left right.now)) }
{
    match operator {
        Operator::Plus => match (&left, right) {
            (Value::Number(a), Value::Number(b)) => number(place, a.checked_add(*b)),
            _ => join(alloc, place, left, right),
        },
        Operator::Minus => match (&left, right) {
            (Value::Number(a), Value::Number(b)) => number(place, a.checked_sub(*b)),
            _ => Err(refuse(place, OutsideKind::TextNumber)),
        },
        Operator::Times => match (&left, right) {
            (Value::Number(a), Value::Number(b)) => number(place, a.checked_mul(*b)),
            _ => Err(refuse(place, OutsideKind::TextNumber)),
        },
    }
}
