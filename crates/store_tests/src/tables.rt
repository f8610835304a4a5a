//! Tables at their limits and one past them.

ghost use Rattle.store_tests.specs.Kept.{IsTableOfHost, IsSegmentOfHost};

use crate::calls::{copy, drop_segment, entries_are, fill, grow, init, segment, set, table};
use std::test::Fail;
use wasm_store::{OutOfTable, Store};
use wasm_syntax::{ElemAddr, TableAddr};

/// Entries are read and written up to the last one.
fn entries(store: &mut Store, a: TableAddr) -> bool
    requires { IsTableOfHost store.old a }
{
    entries_are(store, a, &[0, 0, 0, 0])
        && set(store, a, 0, 1)
        && set(store, a, 3, 4)
        && !set(store, a, 4, 5)
        && entries_are(store, a, &[1, 0, 0, 4])
        && store.table_get(a, 4) == Err(OutOfTable)
}

/// A fill that isn't whole writes nothing; one of no entries may stand at the end and not past it.
fn fills(store: &mut Store, a: TableAddr) -> bool
    requires { IsTableOfHost store.old a }
{
    fill(store, a, 1, 7, 2)
        && entries_are(store, a, &[0, 7, 7, 0])
        && fill(store, a, 4, 8, 0)
        && !fill(store, a, 5, 8, 0)
        && !fill(store, a, 2, 8, 3)
        && !fill(store, a, 4_294_967_295, 8, 2)
        && entries_are(store, a, &[0, 7, 7, 0])
}

/// Ranges that overlap are copied as they were before, both ways.
fn overlaps(store: &mut Store, a: TableAddr) -> bool
    requires { IsTableOfHost store.old a }
{
    set(store, a, 0, 1)
        && set(store, a, 1, 2)
        && set(store, a, 2, 3)
        && copy(store, a, a, 1, 0, 3)
        && entries_are(store, a, &[1, 1, 2, 3])
        && set(store, a, 0, 9)
        && copy(store, a, a, 0, 1, 3)
        && entries_are(store, a, &[1, 2, 3, 3])
        && copy(store, a, a, 4, 4, 0)
        && !copy(store, a, a, 5, 0, 0)
        && !copy(store, a, a, 0, 2, 3)
        && !copy(store, a, a, 2, 0, 3)
        && entries_are(store, a, &[1, 2, 3, 3])
}

/// Entries go from one table to another and to no third place.
fn copies(store: &mut Store, a: TableAddr, b: TableAddr) -> bool
    requires a { IsTableOfHost store.old a }
    requires b { IsTableOfHost store.old b }
{
    fill(store, a, 0, 5, 4)
        && copy(store, b, a, 1, 2, 2)
        && entries_are(store, b, &[0, 5, 5])
        && !copy(store, b, a, 2, 0, 2)
        && entries_are(store, b, &[0, 5, 5])
        && entries_are(store, a, &[5, 5, 5, 5])
}

#[test]
fn an_entry_is_there_up_to_the_last_one(rt: HostRuntime) -> Result<(), Fail> {
    let alloc = rt.alloc();
    let mut store = Store::new(alloc);
    let Some(a) = table(&mut store, alloc, 4, 9)? else {
        return Err("no table".into());
    };
    assert!(rt; entries(&mut store, a));
    Ok(())
}

#[test]
fn a_fill_is_whole_or_not_at_all(rt: HostRuntime) -> Result<(), Fail> {
    let alloc = rt.alloc();
    let mut store = Store::new(alloc);
    let Some(a) = table(&mut store, alloc, 4, 9)? else {
        return Err("no table".into());
    };
    assert!(rt; fills(&mut store, a));
    Ok(())
}

#[test]
fn a_copy_inside_a_table_may_overlap(rt: HostRuntime) -> Result<(), Fail> {
    let alloc = rt.alloc();
    let mut store = Store::new(alloc);
    let Some(a) = table(&mut store, alloc, 4, 9)? else {
        return Err("no table".into());
    };
    assert!(rt; overlaps(&mut store, a));
    Ok(())
}

#[test]
fn a_copy_to_another_table_is_whole_or_not_at_all(rt: HostRuntime) -> Result<(), Fail> {
    let alloc = rt.alloc();
    let mut store = Store::new(alloc);
    let Some(a) = table(&mut store, alloc, 4, 9)? else {
        return Err("no table".into());
    };
    let Some(b) = table(&mut store, alloc, 3, 3)? else {
        return Err("no second table".into());
    };
    assert!(rt; copies(&mut store, a, b));
    Ok(())
}

/// A segment that is dropped has no items.
fn inits(store: &mut Store, a: TableAddr, e: ElemAddr) -> bool
    requires table { IsTableOfHost store.old a }
    requires segment { IsSegmentOfHost store.old e }
{
    let before = [init(store, a, e, 1, 0, 2), init(store, a, e, 1, 1, 2)];
    drop_segment(store, e);
    let after = [init(store, a, e, 3, 0, 0), init(store, a, e, 0, 0, 1)];
    before == [true, false] && after == [true, false] && entries_are(store, a, &[0, 6, 7])
}

#[test]
fn a_dropped_segment_has_no_items(rt: HostRuntime) -> Result<(), Fail> {
    let alloc = rt.alloc();
    let mut store = Store::new(alloc);
    let Some(a) = table(&mut store, alloc, 3, 3)? else {
        return Err("no table".into());
    };
    let e = segment(&mut store, alloc, 6, 7)?;
    assert!(rt; inits(&mut store, a, e));
    Ok(())
}

#[test]
fn a_table_grows_up_to_its_greatest_size(rt: HostRuntime) -> Result<(), Fail> {
    let alloc = rt.alloc();
    let mut store = Store::new(alloc);
    let Some(a) = table(&mut store, alloc, 1, 3)? else {
        return Err("no table".into());
    };
    let steps = [
        grow(&mut store, alloc, a, 0, 1)?,
        grow(&mut store, alloc, a, 3, 2)?,
        grow(&mut store, alloc, a, 2, 3)?,
        grow(&mut store, alloc, a, 1, 4)?,
        grow(&mut store, alloc, a, 4_294_967_295, 5)?,
    ];
    assert_eq!(rt; steps, [Some(1), None, Some(1), None, None]);
    assert!(rt; entries_are(&store, a, &[0, 3, 3]));
    Ok(())
}

#[test]
fn no_table_has_more_than_a_million_entries(rt: HostRuntime) -> Result<(), Fail> {
    let alloc = rt.alloc();
    let mut store = Store::new(alloc);
    assert!(rt; table(&mut store, alloc, 1_000_001, 4_000_000_000)?.is_none());
    let Some(a) = table(&mut store, alloc, 999_999, 4_000_000_000)? else {
        return Err("no table".into());
    };
    assert_eq!(rt; grow(&mut store, alloc, a, 2, 1)?, None);
    assert_eq!(rt; grow(&mut store, alloc, a, 1, 1)?, Some(999_999));
    Ok(())
}
