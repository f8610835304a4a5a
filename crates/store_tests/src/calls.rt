//! Calls of a store with tables and segments of values of the host, in short form. A value is told by a number, the null reference
//! by 0.

ghost use Rattle.std.specs.Prelude.{◌≡◌, ◌<◌, ◌≤◌, length, true, IfOk, IfSome};
ghost use Rattle.std.specs.List.{All};
ghost use Rattle.wasm_store.specs.Whole.{IsLater, AreLive};
ghost use Rattle.store_tests.specs.Kept.{IsTableOfHost, IsSegmentOfHost, IsOfHost, Keeps};

use sqlite_items::Items;
use std::alloc::Global;
use std::test::Fail;
use wasm_store::Store;
use wasm_store::laws::types_stay;
use wasm_syntax::{ElemAddr, ExternAddr, Limit, TableAddr, TableType, ValType, Value};

/// The value of this number.
pub fn value(n: u64) -> Value
    ensures { IsOfHost result }
{
    if n == 0 {
        Value::ExternNull
    } else {
        Value::Extern(ExternAddr(n))
    }
}

/// A table of `size` entries that are null, and at most `most`; none past the limit.
pub fn table(
    store: &mut Store,
    alloc: Global,
    size: u32,
    most: u32,
) -> Result<Option<TableAddr>, Fail>
    requires { size ≤ most }
    ensures made { IfOk result (λ made. IfSome made (IsTableOfHost store.new)) }
    ensures keeps { Keeps store.old store.new }
{
    types_stay();
    let ty = TableType {
        elem: ValType::ExternRef,
        limit: Limit {
            min: size,
            max: Some(most),
        },
    };
    Ok(store.alloc_table(alloc, ty, value(0))?)
}

/// Whether these are the entries of a table.
pub fn entries_are(store: &Store, a: TableAddr, expected: &[u64]) -> bool
    requires { IsTableOfHost store.now a }
{
    if store.table_type(a).limit.min as usize != expected.len() {
        return false;
    }
    for (i, n) in expected.iter().enumerate() {
        if store.table_get(a, i as u32) != Ok(value(*n)) {
            return false;
        }
    }
    true
}

/// Writes an entry.
pub fn set(store: &mut Store, a: TableAddr, i: u32, n: u64) -> bool
    requires { IsTableOfHost store.old a }
    ensures { Keeps store.old store.new }
{
    types_stay();
    store.table_set(a, i, value(n)).is_ok()
}

/// Grows a table.
pub fn grow(
    store: &mut Store,
    alloc: Global,
    a: TableAddr,
    delta: u32,
    n: u64,
) -> Result<Option<u32>, Fail>
    requires { IsTableOfHost store.old a }
    ensures { Keeps store.old store.new }
{
    types_stay();
    Ok(store.grow_table(alloc, a, delta, value(n))?)
}

/// Fills entries.
pub fn fill(store: &mut Store, a: TableAddr, at: u32, n: u64, count: u32) -> bool
    requires { IsTableOfHost store.old a }
    ensures { Keeps store.old store.new }
{
    types_stay();
    store.table_fill(a, at, value(n), count).is_ok()
}

/// Copies entries.
pub fn copy(
    store: &mut Store,
    to_table: TableAddr,
    from_table: TableAddr,
    to: u32,
    from: u32,
    count: u32,
) -> bool
    requires to { IsTableOfHost store.old to_table }
    requires from { IsTableOfHost store.old from_table }
    ensures { Keeps store.old store.new }
{
    types_stay();
    store
        .table_copy(to_table, from_table, to, from, count)
        .is_ok()
}

/// A segment of two values.
pub fn segment(store: &mut Store, alloc: Global, first: u64, second: u64) -> Result<ElemAddr, Fail>
    ensures made { IfOk result (IsSegmentOfHost store.new) }
    ensures keeps { Keeps store.old store.new }
{
    types_stay();
    let items = Items::from_slice(alloc, &[value(first), value(second)])?;
    Ok(store.alloc_elem(alloc, items)?)
}

/// Copies items of a segment.
pub fn init(store: &mut Store, a: TableAddr, e: ElemAddr, to: u32, from: u32, count: u32) -> bool
    requires table { IsTableOfHost store.old a }
    requires segment { IsSegmentOfHost store.old e }
    ensures { Keeps store.old store.new }
{
    types_stay();
    store.table_init(a, e, to, from, count).is_ok()
}

/// Drops a segment.
pub fn drop_segment(store: &mut Store, e: ElemAddr)
    requires { IsSegmentOfHost store.old e }
    ensures { Keeps store.old store.new }
{
    types_stay();
    store.elem_drop(e);
}
