//! Imports and exports (WebAssembly Core 2.0, sections 5.5.5 and 5.5.10).

ghost use Rattle.std.specs.Prelude.{◌≡◌, ◌≤◌, ◌<◌, ◌+◌, ◌^◌, IfOk, length};
ghost use Rattle.wasm_grammar.specs.Answers.{Gives};
ghost use Rattle.wasm_grammar.specs.Entries.{import_desc_in, import_in, export_desc_in, export_in};

use crate::built::Built;
use crate::fault::ReadError;
use crate::numbers::u32_of;
use crate::parts::name_of;
use crate::types::{global_type_of, limits_of, table_type_of};
use std::alloc::Global;
use wasm_syntax::{Export, ExportDesc, Import, ImportDesc};

/// What the import at the front asks for.
fn import_desc_of<'a>(
    built: &mut Built,
    after: u64,
    bytes: &'a [u8],
) -> Result<(ImportDesc, &'a [u8]), ReadError>
    requires { length built.old.blocks + after + length bytes.now < 2 ^ 32 }
    ensures room { IfOk result (λ x. length built.new.blocks + length x.1.now ≤ length built.old.blocks + length bytes.now) }
    ensures gives { Gives (λ x. ((x.0, built.new), x.1.now)) result (import_desc_in built.old after bytes.now) }
{
    match bytes {
        [0x00, rest @ ..] => {
            let (index, rest) = u32_of(rest)?;
            Ok((ImportDesc::Func(index), rest))
        }
        [0x01, rest @ ..] => {
            let (table, rest) = table_type_of(rest)?;
            Ok((ImportDesc::Table(table), rest))
        }
        [0x02, rest @ ..] => {
            let (limit, rest) = limits_of(rest)?;
            Ok((ImportDesc::Mem(limit), rest))
        }
        [0x03, rest @ ..] => {
            let (global, rest) = global_type_of(built, after, rest)?;
            Ok((ImportDesc::Global(global), rest))
        }
        _ => Err(ReadError::Malformed),
    }
}

/// The import at the front.
pub fn import_of<'a>(
    alloc: Global,
    built: &mut Built,
    after: u64,
    bytes: &'a [u8],
) -> Result<(Import, &'a [u8]), ReadError>
    requires { length built.old.blocks + after + length bytes.now < 2 ^ 32 }
    ensures room { IfOk result (λ x. length built.new.blocks + length x.1.now ≤ length built.old.blocks + length bytes.now) }
    ensures gives { Gives (λ x. ((x.0, built.new), x.1.now)) result (import_in built.old after bytes.now) }
{
    let (module, rest) = name_of(alloc, bytes)?;
    let (name, rest) = name_of(alloc, rest)?;
    let (desc, rest) = import_desc_of(built, after, rest)?;
    Ok((Import { module, name, desc }, rest))
}

/// What the export at the front gives.
fn export_desc_of<'a>(
    built: &mut Built,
    after: u64,
    bytes: &'a [u8],
) -> Result<(ExportDesc, &'a [u8]), ReadError>
    requires { length built.old.blocks + after + length bytes.now < 2 ^ 32 }
    ensures room { IfOk result (λ x. length built.new.blocks + length x.1.now ≤ length built.old.blocks + length bytes.now) }
    ensures gives { Gives (λ x. ((x.0, built.new), x.1.now)) result (export_desc_in built.old after bytes.now) }
{
    match bytes {
        [0x00, rest @ ..] => {
            let (index, rest) = u32_of(rest)?;
            Ok((ExportDesc::Func(index), rest))
        }
        [0x01, rest @ ..] => {
            let (index, rest) = u32_of(rest)?;
            Ok((ExportDesc::Table(index), rest))
        }
        [0x02, rest @ ..] => {
            let (index, rest) = u32_of(rest)?;
            Ok((ExportDesc::Mem(index), rest))
        }
        [0x03, rest @ ..] => {
            let (index, rest) = u32_of(rest)?;
            Ok((ExportDesc::Global(index), rest))
        }
        _ => Err(ReadError::Malformed),
    }
}

/// The export at the front.
pub fn export_of<'a>(
    alloc: Global,
    built: &mut Built,
    after: u64,
    bytes: &'a [u8],
) -> Result<(Export, &'a [u8]), ReadError>
    requires { length built.old.blocks + after + length bytes.now < 2 ^ 32 }
    ensures room { IfOk result (λ x. length built.new.blocks + length x.1.now ≤ length built.old.blocks + length bytes.now) }
    ensures gives { Gives (λ x. ((x.0, built.new), x.1.now)) result (export_in built.old after bytes.now) }
{
    let (name, rest) = name_of(alloc, bytes)?;
    let (desc, rest) = export_desc_of(built, after, rest)?;
    Ok((Export { name, desc }, rest))
}
