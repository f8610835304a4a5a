//! Sections (WebAssembly Core 2.0, sections 5.5.2 to 5.5.15).

ghost use Rattle.std.specs.Prelude.{◌≡◌, ◌≤◌, ◌<◌, ◌+◌, ◌^◌, IfOk, length};
ghost use Rattle.wasm_grammar.specs.Answers.{Gives};
ghost use Rattle.wasm_grammar.specs.Sections.{number_in, later_in, section_in};

use crate::built::Built;
use crate::fault::ReadError;
use crate::functions::CodeEntry;
use crate::held::Held;
use crate::numbers::u32_of;
use crate::parts::{behind_custom, part_of};
use crate::vectors::sized_vector_of;
use std::alloc::Global;
use wasm_syntax::{Data, Elem, Export, FuncType, GlobalDef, Import, Limit, TableType};

/// The number that fills a part whose size is told.
fn sized_number_of<'a>(
    built: &mut Built,
    after: u64,
    bytes: &'a [u8],
) -> Result<(u32, &'a [u8]), ReadError>
    requires { length built.old.blocks + after + length bytes.now < 2 ^ 32 }
    ensures room { IfOk result (λ x. length built.new.blocks + length x.1.now ≤ length built.old.blocks + length bytes.now) }
    ensures gives { Gives (λ x. ((x.0, built.new), x.1.now)) result (number_in built.old after bytes.now) }
{
    let (part, rest) = part_of(bytes)?;
    let (number, left) = u32_of(part)?;
    if !left.is_empty() {
        return Err(ReadError::Malformed);
    }
    Ok((number, rest))
}

/// What a section of an id from 7 on holds.
fn later_of<'a>(
    id: u8,
    alloc: Global,
    built: &mut Built,
    after: u64,
    bytes: &'a [u8],
) -> Result<(Held, &'a [u8]), ReadError>
    requires { length built.old.blocks + after + length bytes.now < 2 ^ 32 }
    ensures room { IfOk result (λ x. length built.new.blocks + length x.1.now ≤ length built.old.blocks + length bytes.now) }
    ensures gives { Gives (λ x. ((x.0, built.new), x.1.now)) result (later_in id built.old after bytes.now) }
{
    match id {
        7 => {
            let (exports, rest) = sized_vector_of::<Export>(alloc, built, after, bytes)?;
            Ok((Held::Exports(exports), rest))
        }
        8 => {
            let (func, rest) = sized_number_of(built, after, bytes)?;
            Ok((Held::Start(func), rest))
        }
        9 => {
            let (elems, rest) = sized_vector_of::<Elem>(alloc, built, after, bytes)?;
            Ok((Held::Elems(elems), rest))
        }
        10 => {
            let (codes, rest) = sized_vector_of::<CodeEntry>(alloc, built, after, bytes)?;
            Ok((Held::Codes(codes), rest))
        }
        11 => {
            let (datas, rest) = sized_vector_of::<Data>(alloc, built, after, bytes)?;
            Ok((Held::Datas(datas), rest))
        }
        12 => {
            let (count, rest) = sized_number_of(built, after, bytes)?;
            Ok((Held::DataCount(count), rest))
        }
        _ => Err(ReadError::Malformed),
    }
}

/// What the section at the front holds.
#[tactic(auto, unfolding(crate::specs::Sections::section_in))]
pub fn section_of<'a>(
    alloc: Global,
    built: &mut Built,
    after: u64,
    bytes: &'a [u8],
) -> Result<(Held, &'a [u8]), ReadError>
    requires { length built.old.blocks + after + length bytes.now < 2 ^ 32 }
    ensures room { IfOk result (λ x. length built.new.blocks + length x.1.now ≤ length built.old.blocks + length bytes.now) }
    ensures gives { Gives (λ x. ((x.0, built.new), x.1.now)) result (section_in built.old after bytes.now) }
{
    let [id, bytes @ ..] = bytes else {
        return Err(ReadError::Malformed);
    };
    match *id {
        0 => {
            let rest = behind_custom(bytes)?;
            Ok((Held::Nothing, rest))
        }
        1 => {
            let (types, rest) = sized_vector_of::<FuncType>(alloc, built, after, bytes)?;
            Ok((Held::Types(types), rest))
        }
        2 => {
            let (imports, rest) = sized_vector_of::<Import>(alloc, built, after, bytes)?;
            Ok((Held::Imports(imports), rest))
        }
        3 => {
            let (funcs, rest) = sized_vector_of::<u32>(alloc, built, after, bytes)?;
            Ok((Held::Funcs(funcs), rest))
        }
        4 => {
            let (tables, rest) = sized_vector_of::<TableType>(alloc, built, after, bytes)?;
            Ok((Held::Tables(tables), rest))
        }
        5 => {
            let (mems, rest) = sized_vector_of::<Limit>(alloc, built, after, bytes)?;
            Ok((Held::Mems(mems), rest))
        }
        6 => {
            let (globals, rest) = sized_vector_of::<GlobalDef>(alloc, built, after, bytes)?;
            Ok((Held::Globals(globals), rest))
        }
        id => later_of(id, alloc, built, after, bytes),
    }
}
