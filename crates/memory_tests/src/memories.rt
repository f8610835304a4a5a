//! Memories and data segments at their ends and one past them.

use crate::paged::Paged;
use std::alloc::{AllocError, Global};
use std::test::Fail;

/// Each width is read and written at the last place where it fits, and not one past it.
fn last_places(paged: &mut Paged) -> bool {
    paged.write(65_535, 1, 0x1ff)
        && paged.load(65_535, 1) == Some(0xff)
        && !paged.write(65_536, 1, 1)
        && paged.write(65_534, 2, 0x0102)
        && paged.load(65_534, 2) == Some(0x0102)
        && paged.load(65_535, 2).is_none()
}

fn wide_last_places(paged: &mut Paged) -> bool {
    paged.write(65_532, 4, 0x0102_0304)
        && paged.load(65_532, 4) == Some(0x0102_0304)
        && !paged.write(65_533, 4, 1)
        && paged.write(65_528, 8, 0x0102_0304_0506_0708)
        && paged.load(65_528, 8) == Some(0x0102_0304_0506_0708)
        && paged.load(65_529, 8).is_none()
        && paged.load(4_294_967_296, 1).is_none()
        && paged.load(18_446_744_073_709_551_615, 8).is_none()
        && paged.bytes_are(65_528, &[8, 7, 6, 5, 4, 3, 2, 1])
}

fn has_last_places(alloc: Global) -> Result<bool, AllocError> {
    match Paged::new(alloc, 2)? {
        Some(mut paged) => Ok(last_places(&mut paged) && wide_last_places(&mut paged)),
        None => Ok(false),
    }
}

#[test]
fn a_memory_is_there_up_to_its_last_byte(rt: HostRuntime) -> Result<(), Fail> {
    assert!(rt; has_last_places(rt.alloc())?);
    Ok(())
}

/// Ranges that overlap are copied as they were before, both ways, and a range that isn't whole isn't written.
fn ranges(paged: &mut Paged) -> bool {
    paged.fill(1, 7, 2)
        && paged.fill(65_536, 8, 0)
        && !paged.fill(65_535, 8, 2)
        && !paged.fill(4_294_967_295, 8, 2)
        && paged.write(3, 1, 9)
        && paged.copy(2, 1, 3)
        && paged.bytes_are(0, &[0, 7, 7, 7, 9])
}

fn ranges_back(paged: &mut Paged) -> bool {
    paged.copy(0, 2, 3)
        && paged.bytes_are(0, &[7, 7, 9, 7, 9])
        && !paged.copy(0, 65_535, 2)
        && !paged.copy(65_535, 0, 2)
        && paged.bytes_are(65_535, &[0])
}

fn has_ranges(alloc: Global) -> Result<bool, AllocError> {
    match Paged::new(alloc, 2)? {
        Some(mut paged) => Ok(ranges(&mut paged) && ranges_back(&mut paged)),
        None => Ok(false),
    }
}

#[test]
fn ranges_of_a_memory_are_written_whole_or_not_at_all(rt: HostRuntime) -> Result<(), Fail> {
    assert!(rt; has_ranges(rt.alloc())?);
    Ok(())
}

/// A segment fits up to the memory's end, and not past an end; once it is dropped it has no bytes.
fn inits(paged: &mut Paged) -> bool {
    if !paged.init(65_533, 0, 3) || paged.init(65_534, 0, 3) || paged.init(0, 2, 2) {
        return false;
    }
    paged.drop_data();
    paged.init(65_536, 0, 0) && !paged.init(0, 0, 1) && paged.bytes_are(65_533, &[5, 6, 7])
}

fn has_inits(alloc: Global) -> Result<bool, AllocError> {
    match Paged::new(alloc, 2)? {
        Some(mut paged) => Ok(inits(&mut paged)),
        None => Ok(false),
    }
}

#[test]
fn a_dropped_data_segment_has_no_bytes(rt: HostRuntime) -> Result<(), Fail> {
    assert!(rt; has_inits(rt.alloc())?);
    Ok(())
}

/// The size before each growth, and none past the memory's own limit.
fn growths(paged: &mut Paged, alloc: Global) -> bool {
    paged.grows(alloc, 0, Some(1))
        && paged.grows(alloc, 3, None)
        && paged.grows(alloc, 2, Some(1))
        && paged.grows(alloc, 1, None)
        && paged.grows(alloc, 4_294_967_295, None)
        && paged.bytes_are(196_605, &[0, 0, 0])
}

fn has_growths(alloc: Global) -> Result<bool, AllocError> {
    match Paged::new(alloc, 3)? {
        Some(mut paged) => Ok(growths(&mut paged, alloc)),
        None => Ok(false),
    }
}

#[test]
fn a_memory_grows_up_to_its_greatest_size(rt: HostRuntime) -> Result<(), Fail> {
    assert!(rt; has_growths(rt.alloc())?);
    Ok(())
}
