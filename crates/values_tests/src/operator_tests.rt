//! The operators at each pair of kinds of values, and at the bounds of their numbers.

use crate::bounds::BOUNDS;
use crate::comparisons::{COMPARISONS, EQUALITIES};
use crate::samples::{Sample, Wanted, is_wanted, value_of};
use crate::sums::{DIFFERENCES, SUMS};
use embed_base::{OutsideKind, SharedString};
use host_convert::{Arith, Conv, Rel, add, arith, compare, negate, strict_equal};
use host_values::HostValue;
use std::alloc::{AllocError, Global};
use std::test::Fail;

/// An operator between two values.
#[derive(Clone, Copy)]
pub(crate) enum Op {
    Add,
    Sub,
    Mul,
    Div,
    Rem,
    Lt,
    Gt,
    Le,
    Ge,
    Same,
}

/// An operator, its operands, and what is wanted.
pub(crate) type Case = (Op, Sample, Sample, Wanted);

/// A value, and what unary `-` gives.
static NEGATIONS: [(Sample, Wanted); 12] = [
    (Sample::Undefined, Wanted::Outside(OutsideKind::Number)),
    (Sample::Null, Wanted::Value(Sample::Number(0))),
    (Sample::Bool(false), Wanted::Value(Sample::Number(0))),
    (Sample::Bool(true), Wanted::Value(Sample::Number(-1))),
    (Sample::Number(0), Wanted::Value(Sample::Number(0))),
    (
        Sample::Number(9_007_199_254_740_991),
        Wanted::Value(Sample::Number(-9_007_199_254_740_991)),
    ),
    (
        Sample::Number(-9_007_199_254_740_991),
        Wanted::Value(Sample::Number(9_007_199_254_740_991)),
    ),
    (Sample::BigInt(7), Wanted::Value(Sample::BigInt(-7))),
    (
        Sample::BigInt(i128::MIN),
        Wanted::Outside(OutsideKind::BigInt),
    ),
    (
        Sample::BigInt(170_141_183_460_469_231_731_687_303_715_884_105_727),
        Wanted::Value(Sample::BigInt(-170_141_183_460_469_231_731_687_303_715_884_105_727)),
    ),
    (Sample::Text("7"), Wanted::Outside(OutsideKind::TextNumber)),
    (Sample::Object(0), Wanted::Outside(OutsideKind::ToPrimitive)),
];

/// A Boolean answer as a value.
fn of_bool(answer: Conv<bool>) -> Conv<HostValue> {
    match answer {
        Conv::Value(truth) => Conv::Value(HostValue::Bool(truth)),
        Conv::Throw(class) => Conv::Throw(class),
        Conv::Outside(kind) => Conv::Outside(kind),
    }
}

/// What an operator gives.
fn given(
    alloc: Global,
    op: Op,
    a: &HostValue,
    b: &HostValue,
) -> Result<Conv<HostValue>, AllocError> {
    match op {
        Op::Add => add(alloc, a, b),
        Op::Sub => Ok(arith(Arith::Sub, a, b)),
        Op::Mul => Ok(arith(Arith::Mul, a, b)),
        Op::Div => Ok(arith(Arith::Div, a, b)),
        Op::Rem => Ok(arith(Arith::Rem, a, b)),
        Op::Lt => Ok(of_bool(compare(Rel::Lt, a, b))),
        Op::Gt => Ok(of_bool(compare(Rel::Gt, a, b))),
        Op::Le => Ok(of_bool(compare(Rel::Le, a, b))),
        Op::Ge => Ok(of_bool(compare(Rel::Ge, a, b))),
        Op::Same => Ok(Conv::Value(HostValue::Bool(strict_equal(a, b)))),
    }
}

/// Whether a case is as it is wanted.
fn holds(alloc: Global, case: &Case) -> Result<bool, AllocError> {
    let a = value_of(alloc, case.1)?;
    let b = value_of(alloc, case.2)?;
    let answer = given(alloc, case.0, &a, &b)?;
    Ok(is_wanted(&answer, case.3))
}

/// Whether all cases of a table are as they are wanted.
fn all_hold(alloc: Global, cases: &[Case]) -> Result<bool, AllocError> {
    for case in cases {
        if !holds(alloc, case)? {
            return Ok(false);
        }
    }
    Ok(true)
}

#[test]
fn operators_at_each_pair_of_kinds(rt: HostRuntime) -> Result<(), Fail> {
    let alloc = rt.alloc();
    assert!(rt; all_hold(alloc, SUMS.as_slice())?, "a sum");
    assert!(rt; all_hold(alloc, DIFFERENCES.as_slice())?, "a difference");
    assert!(rt; all_hold(alloc, COMPARISONS.as_slice())?, "a comparison");
    assert!(rt; all_hold(alloc, EQUALITIES.as_slice())?, "an equality");
    Ok(())
}

#[test]
fn operators_at_their_bounds(rt: HostRuntime) -> Result<(), Fail> {
    assert!(rt; all_hold(rt.alloc(), BOUNDS.as_slice())?, "a bound");
    Ok(())
}

/// Whether unary `-` of a value is as it is wanted.
fn negates(alloc: Global, case: &(Sample, Wanted)) -> Result<bool, AllocError> {
    let value = value_of(alloc, case.0)?;
    Ok(is_wanted(&negate(&value), case.1))
}

#[test]
fn negations_of_each_kind(rt: HostRuntime) -> Result<(), Fail> {
    let alloc = rt.alloc();
    for case in NEGATIONS.iter() {
        assert!(rt; negates(alloc, case)?, "a negation");
    }
    Ok(())
}

/// A text of so many letters.
fn letters(alloc: Global, count: usize) -> Result<HostValue, AllocError> {
    let mut text = String::new(alloc);
    for _ in 0..count {
        text.push_str("x")?;
    }
    Ok(HostValue::Text(SharedString::from_string(alloc, text)?))
}

/// Whether a text of so many letters takes one more, and then has this length.
fn takes_one_more(alloc: Global, count: usize, len: usize) -> Result<bool, AllocError> {
    let text = letters(alloc, count)?;
    let one = letters(alloc, 1)?;
    match add(alloc, &text, &one)? {
        Conv::Value(HostValue::Text(joined)) => Ok(joined.as_str().len() == len),
        _ => Ok(false),
    }
}

/// Whether a text of so many letters is too long with one more.
fn is_full(alloc: Global, count: usize) -> Result<bool, AllocError> {
    let text = letters(alloc, count)?;
    let answer = add(alloc, &text, &HostValue::Null)?;
    Ok(is_wanted(&answer, Wanted::Outside(OutsideKind::TextSize)))
}

#[test]
fn texts_up_to_their_limit(rt: HostRuntime) -> Result<(), Fail> {
    let alloc = rt.alloc();
    assert!(rt;
        takes_one_more(alloc, 1_048_575, 1_048_576)?,
        "a text within its limit"
    );
    assert!(rt; is_full(alloc, 1_048_573)?, "a text past its limit");
    Ok(())
}
