//! Types (WebAssembly Core 2.0, section 5.3).

ghost use Rattle.std.specs.Prelude.{◌≡◌, ◌≤◌, ◌<◌, ◌+◌, ◌^◌, ℕ, IfOk, length};
ghost use Rattle.wasm_grammar.specs.declared.built.Built.{Built as BuiltValue};
ghost use Rattle.wasm_grammar.specs.Answers.{Gives};
ghost use Rattle.wasm_grammar.specs.Types.{val_in, ref_in, func_type_in, limits_in, table_type_in, mutability_in, global_type_in};

use crate::built::{Built, Foreign, Leaf, note};
use crate::fault::ReadError;
use crate::numbers::u32_of;
use crate::vectors::vector_of;
use std::alloc::Global;
use wasm_syntax::{FuncType, GlobalType, Limit, TableType, ValType};

/// The value type at the front, where any stands for a foreign one, which is noted.
pub fn val_type_of<'a>(
    built: &mut Built,
    after: u64,
    bytes: &'a [u8],
) -> Result<(ValType, &'a [u8]), ReadError>
    requires { length built.old.blocks + after + length bytes.now < 2 ^ 32 }
    ensures room { IfOk result (λ x. length built.new.blocks + length x.1.now ≤ length built.old.blocks + length bytes.now) }
    ensures gives { Gives (λ x. ((x.0, built.new), x.1.now)) result (val_in built.old after bytes.now) }
{
    match bytes {
        [0x7F, rest @ ..] => Ok((ValType::I32, rest)),
        [0x7E, rest @ ..] => Ok((ValType::I64, rest)),
        [0x7D | 0x7C, rest @ ..] => {
            let left = after + bytes.len() as u64;
            note(
                built,
                Leaf {
                    left,
                    what: Foreign::Float,
                },
            );
            Ok((ValType::I32, rest))
        }
        [0x7B, rest @ ..] => {
            let left = after + bytes.len() as u64;
            note(
                built,
                Leaf {
                    left,
                    what: Foreign::Simd,
                },
            );
            Ok((ValType::I32, rest))
        }
        [0x70, rest @ ..] => Ok((ValType::FuncRef, rest)),
        [0x6F, rest @ ..] => Ok((ValType::ExternRef, rest)),
        _ => Err(ReadError::Malformed),
    }
}

/// The reference type at the front.
pub fn ref_type_of(bytes: &[u8]) -> Result<(ValType, &[u8]), ReadError>
    ensures shorter { IfOk result (λ x. length x.1.now ≤ length bytes.now) }
    ensures gives { (s : BuiltValue) (after : ℕ) → Gives (λ x. ((x.0, s), x.1.now)) result (ref_in s after bytes.now) }
{
    match bytes {
        [0x70, rest @ ..] => Ok((ValType::FuncRef, rest)),
        [0x6F, rest @ ..] => Ok((ValType::ExternRef, rest)),
        _ => Err(ReadError::Malformed),
    }
}

/// The function type at the front.
pub fn func_type_of<'a>(
    alloc: Global,
    built: &mut Built,
    after: u64,
    bytes: &'a [u8],
) -> Result<(FuncType, &'a [u8]), ReadError>
    requires { length built.old.blocks + after + length bytes.now < 2 ^ 32 }
    ensures room { IfOk result (λ x. length built.new.blocks + length x.1.now ≤ length built.old.blocks + length bytes.now) }
    ensures gives { Gives (λ x. ((x.0, built.new), x.1.now)) result (func_type_in built.old after bytes.now) }
{
    match bytes {
        [0x60, rest @ ..] => {
            let (params, rest) = vector_of::<ValType>(alloc, built, after, rest)?;
            let (results, rest) = vector_of::<ValType>(alloc, built, after, rest)?;
            Ok((FuncType { params, results }, rest))
        }
        _ => Err(ReadError::Malformed),
    }
}

/// The limits at the front.
pub fn limits_of(bytes: &[u8]) -> Result<(Limit, &[u8]), ReadError>
    ensures shorter { IfOk result (λ x. length x.1.now ≤ length bytes.now) }
    ensures gives { (s : BuiltValue) (after : ℕ) → Gives (λ x. ((x.0, s), x.1.now)) result (limits_in s after bytes.now) }
{
    match bytes {
        [0x00, rest @ ..] => {
            let (min, rest) = u32_of(rest)?;
            Ok((Limit { min, max: None }, rest))
        }
        [0x01, rest @ ..] => {
            let (min, rest) = u32_of(rest)?;
            let (max, rest) = u32_of(rest)?;
            Ok((
                Limit {
                    min,
                    max: Some(max),
                },
                rest,
            ))
        }
        _ => Err(ReadError::Malformed),
    }
}

/// The table type at the front.
pub fn table_type_of(bytes: &[u8]) -> Result<(TableType, &[u8]), ReadError>
    ensures shorter { IfOk result (λ x. length x.1.now ≤ length bytes.now) }
    ensures gives { (s : BuiltValue) (after : ℕ) → Gives (λ x. ((x.0, s), x.1.now)) result (table_type_in s after bytes.now) }
{
    let (elem, rest) = ref_type_of(bytes)?;
    let (limit, rest) = limits_of(rest)?;
    Ok((TableType { elem, limit }, rest))
}

/// Whether the global at the front may be set.
fn mutability_of(bytes: &[u8]) -> Result<(bool, &[u8]), ReadError>
    ensures shorter { IfOk result (λ x. length x.1.now ≤ length bytes.now) }
    ensures gives { (s : BuiltValue) (after : ℕ) → Gives (λ x. ((x.0, s), x.1.now)) result (mutability_in s after bytes.now) }
{
    match bytes {
        [0x00, rest @ ..] => Ok((false, rest)),
        [0x01, rest @ ..] => Ok((true, rest)),
        _ => Err(ReadError::Malformed),
    }
}

/// The global type at the front.
pub fn global_type_of<'a>(
    built: &mut Built,
    after: u64,
    bytes: &'a [u8],
) -> Result<(GlobalType, &'a [u8]), ReadError>
    requires { length built.old.blocks + after + length bytes.now < 2 ^ 32 }
    ensures room { IfOk result (λ x. length built.new.blocks + length x.1.now ≤ length built.old.blocks + length bytes.now) }
    ensures gives { Gives (λ x. ((x.0, built.new), x.1.now)) result (global_type_in built.old after bytes.now) }
{
    let (val, rest) = val_type_of(built, after, bytes)?;
    let (mutable, rest) = mutability_of(rest)?;
    Ok((GlobalType { val, mutable }, rest))
}
