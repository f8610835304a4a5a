//! Vectors (WebAssembly Core 2.0, section 5.1.3).

ghost use Rattle.std.specs.Prelude.{◌≡◌, ◌≤◌, ◌<◌, ◌+◌, ◌^◌, IfOk, length};
ghost use Rattle.wasm_grammar.specs.Answers.{Gives};
ghost use Rattle.wasm_grammar.specs.Reading.{u32_at};
ghost use Rattle.wasm_grammar.specs.Threads.{Reader, same_in, vector_in, whole_in, sized_in};
ghost use Rattle.wasm_grammar.specs.Types.{val_in, func_type_in, limits_in, table_type_in};
ghost use Rattle.wasm_grammar.specs.Entries.{import_in, export_in};
ghost use Rattle.wasm_grammar.specs.declared.built.Built.{Built as BuiltValue};

use crate::built::Built;
use crate::entries::{export_of, import_of};
use crate::fault::ReadError;
use crate::numbers::u32_of;
use crate::parts::part_of;
use crate::types::{func_type_of, limits_of, table_type_of, val_type_of};
use sqlite_items::Items;
use std::alloc::Global;
use wasm_syntax::{Export, FuncType, Import, Limit, TableType, ValType};

/// What may stand in a vector, with the function on lists of bytes that tells how it is read.
pub trait Item {
    /// What is read.
    type Value: Drop;

    ghost reading: { Reader BuiltValue Self.Value };

    /// The item at the front, and what stands behind it.
    fn read<'a>(
        alloc: Global,
        built: &mut Built,
        after: u64,
        bytes: &'a [u8],
    ) -> Result<(Self::Value, &'a [u8]), ReadError>
        requires { length built.old.blocks + after + length bytes.now < 2 ^ 32 }
        ensures room { IfOk result (λ x. length built.new.blocks + length x.1.now ≤ length built.old.blocks + length bytes.now) }
        ensures gives { Gives (λ x. ((x.0, built.new), x.1.now)) result (reading built.old after bytes.now) };
}

impl Item for u32 {
    type Value = u32;

    ghost reading = { same_in u32_at };

    fn read<'a>(
        _alloc: Global,
        _built: &mut Built,
        _after: u64,
        bytes: &'a [u8],
    ) -> Result<(u32, &'a [u8]), ReadError> {
        u32_of(bytes)
    }
}

impl Item for ValType {
    type Value = ValType;

    ghost reading = { val_in };

    fn read<'a>(
        _alloc: Global,
        built: &mut Built,
        after: u64,
        bytes: &'a [u8],
    ) -> Result<(ValType, &'a [u8]), ReadError> {
        val_type_of(built, after, bytes)
    }
}

impl Item for FuncType {
    type Value = FuncType;

    ghost reading = { func_type_in };

    fn read<'a>(
        alloc: Global,
        built: &mut Built,
        after: u64,
        bytes: &'a [u8],
    ) -> Result<(FuncType, &'a [u8]), ReadError> {
        func_type_of(alloc, built, after, bytes)
    }
}

impl Item for TableType {
    type Value = TableType;

    ghost reading = { table_type_in };

    fn read<'a>(
        _alloc: Global,
        _built: &mut Built,
        _after: u64,
        bytes: &'a [u8],
    ) -> Result<(TableType, &'a [u8]), ReadError> {
        table_type_of(bytes)
    }
}

impl Item for Limit {
    type Value = Limit;

    ghost reading = { limits_in };

    fn read<'a>(
        _alloc: Global,
        _built: &mut Built,
        _after: u64,
        bytes: &'a [u8],
    ) -> Result<(Limit, &'a [u8]), ReadError> {
        limits_of(bytes)
    }
}

impl Item for Import {
    type Value = Import;

    ghost reading = { import_in };

    fn read<'a>(
        alloc: Global,
        built: &mut Built,
        after: u64,
        bytes: &'a [u8],
    ) -> Result<(Import, &'a [u8]), ReadError> {
        import_of(alloc, built, after, bytes)
    }
}

impl Item for Export {
    type Value = Export;

    ghost reading = { export_in };

    fn read<'a>(
        alloc: Global,
        built: &mut Built,
        after: u64,
        bytes: &'a [u8],
    ) -> Result<(Export, &'a [u8]), ReadError> {
        export_of(alloc, built, after, bytes)
    }
}

/// The vector at the front, and what stands behind it. Room is taken item by item, whatever the count says.
pub fn vector_of<'a, T: Item>(
    alloc: Global,
    built: &mut Built,
    after: u64,
    bytes: &'a [u8],
) -> Result<(Items<T::Value>, &'a [u8]), ReadError>
    requires { length built.old.blocks + after + length bytes.now < 2 ^ 32 }
    ensures room { IfOk result (λ x. length built.new.blocks + length x.1.now ≤ length built.old.blocks + length bytes.now) }
    ensures gives { Gives (λ x. ((x.0, built.new), x.1.now)) result (vector_in T.reading built.old after bytes.now) }
{
    let (count, mut rest) = u32_of(bytes)?;
    let mut items = Items::new(alloc);
    for _ in 0..count {
        let (item, next) = T::read(alloc, built, after, rest)?;
        items.push(item)?;
        rest = next;
    }
    Ok((items, rest))
}

/// The vector at the front that fills a part whose size is told, as the body of a section, and what stands behind it.
pub fn sized_vector_of<'a, T: Item>(
    alloc: Global,
    built: &mut Built,
    after: u64,
    bytes: &'a [u8],
) -> Result<(Items<T::Value>, &'a [u8]), ReadError>
    requires { length built.old.blocks + after + length bytes.now < 2 ^ 32 }
    ensures room { IfOk result (λ x. length built.new.blocks + length x.1.now ≤ length built.old.blocks + length bytes.now) }
    ensures gives { Gives (λ x. ((x.0, built.new), x.1.now)) result (sized_in (whole_in (vector_in T.reading)) built.old after bytes.now) }
{
    let (part, rest) = part_of(bytes)?;
    let (items, left) = vector_of::<T>(alloc, built, after + rest.len() as u64, part)?;
    if !left.is_empty() {
        return Err(ReadError::Malformed);
    }
    Ok((items, rest))
}
