//! What no clause says: that memory is given where there is some, and each call once.
ghost use Rattle.raw_memory.specs.Bytes.{IsWidth};

use raw_memory::RawMem;
use std::mem::size_of;
use std::process::Abort;
use std::test::Fail;

const PAGE: u64 = 65536;

#[test]
fn is_smaller_than_a_vector(rt: HostRuntime) {
    assert!(rt; size_of::<RawMem>() < size_of::<Vec<u8>>());
}

fn check_ends(rt: &impl Abort, memory: &mut RawMem, width: u8, value: u64, low: u64)
    requires { IsWidth width }
{
    let len = memory.len();
    assert!(rt; len >= 8);
    let last = len - width as u64;
    assert!(rt; memory.fill(0, len, 0xee));
    assert!(rt; memory.store(last, width, value));
    assert!(rt; memory.load(last, width) == Some(low));
    assert!(rt;
        memory.load(last - 1, 1) == Some(0xee),
        "the byte before stays"
    );
    assert!(rt; memory.load(last + 1, width).is_none());
    assert!(rt; !memory.store(last + 1, width, 0));
    assert!(rt;
        memory.load(last, width) == Some(low),
        "a refused store writes nothing"
    );
}

#[test]
fn each_width_fits_at_the_last_place_and_not_one_past_it(rt: HostRuntime) -> Result<(), Fail> {
    let mut memory = RawMem::new(rt.alloc(), 1)?;
    let value = 0x8877_6655_4433_2211;
    check_ends(&rt, &mut memory, 1, value, 0x11);
    check_ends(&rt, &mut memory, 2, value, 0x2211);
    check_ends(&rt, &mut memory, 4, value, 0x4433_2211);
    check_ends(&rt, &mut memory, 8, value, value);
    Ok(())
}

fn check_bytes(rt: &impl Abort, memory: &RawMem, from: u64, expected: &[u8]) {
    match memory.view(from, expected.len() as u64) {
        Some(bytes) => {
            assert!(rt; bytes == expected);
        }
        None => {
            panic!(rt; "the range is there");
        }
    }
}

#[test]
fn a_number_lies_with_its_lowest_byte_first(rt: HostRuntime) -> Result<(), Fail> {
    let mut memory = RawMem::new(rt.alloc(), 1)?;
    assert!(rt; memory.store(1, 4, 0x1234_5678));
    check_bytes(&rt, &memory, 0, b"\x00\x78\x56\x34\x12\x00");
    assert!(rt; memory.write(8, b"\x01\x02\x03\x04\x05\x06\x07\x08"));
    assert!(rt; memory.load(8, 8) == Some(0x0807_0605_0403_0201));
    assert!(rt; memory.load(9, 2) == Some(0x0302));
    Ok(())
}

#[test]
fn copies_overlap_both_ways(rt: HostRuntime) -> Result<(), Fail> {
    let mut memory = RawMem::new(rt.alloc(), 1)?;
    assert!(rt; memory.write(0, b"abcdefgh"));
    assert!(rt; memory.copy_within(2, 0, 4));
    check_bytes(&rt, &memory, 0, b"ababcdgh");
    assert!(rt; memory.write(0, b"abcdefgh"));
    assert!(rt; memory.copy_within(0, 2, 4));
    check_bytes(&rt, &memory, 0, b"cdefefgh");
    assert!(rt; memory.copy_within(3, 3, 4));
    check_bytes(&rt, &memory, 0, b"cdefefgh");
    assert!(rt; memory.copy_within(PAGE - 2, 0, 2));
    assert!(rt; !memory.copy_within(PAGE - 2, 0, 3));
    assert!(rt; !memory.copy_within(0, PAGE - 2, 3));
    check_bytes(&rt, &memory, PAGE - 3, b"\0cd");
    Ok(())
}

#[test]
fn ranges_near_the_end_of_the_numbers_are_refused(rt: HostRuntime) -> Result<(), Fail> {
    let mut memory = RawMem::new(rt.alloc(), 1)?;
    let top = u64::MAX;
    assert!(rt; memory.load(top, 1).is_none());
    assert!(rt; memory.load(top - 7, 8).is_none());
    assert!(rt; !memory.store(top, 1, 1));
    assert!(rt; !memory.store(top - 7, 8, 1));
    assert!(rt; !memory.fill(1, top, 1));
    assert!(rt; !memory.fill(top, top, 1));
    assert!(rt; !memory.fill(top, 0, 1));
    assert!(rt; !memory.copy_within(top, 0, 1));
    assert!(rt; !memory.copy_within(0, top, 1));
    assert!(rt; !memory.copy_within(1, 1, top));
    assert!(rt; !memory.write(top, b"x"));
    assert!(rt; memory.view(1, top).is_none());
    assert!(rt; memory.view(top, 1).is_none());
    assert!(rt; memory.view(top, 0).is_none());
    check_bytes(&rt, &memory, 0, b"\0\0\0\0");
    Ok(())
}

#[test]
fn growth_keeps_the_bytes_and_appends_zeros(rt: HostRuntime) -> Result<(), Fail> {
    let mut memory = RawMem::new(rt.alloc(), 1)?;
    assert!(rt; memory.write(PAGE - 4, b"last"));
    assert!(rt; memory.len() == PAGE);
    memory.grow(0)?;
    assert!(rt; memory.len() == PAGE);
    check_bytes(&rt, &memory, PAGE - 5, b"\0last");
    memory.grow(2)?;
    assert!(rt; memory.len() == 3 * PAGE);
    check_bytes(&rt, &memory, PAGE - 5, b"\0last\0\0");
    check_bytes(&rt, &memory, 3 * PAGE - 2, b"\0\0");
    Ok(())
}

/// One page more, where a memory may have it.
fn grows(memory: &mut RawMem) -> Result<bool, Fail> {
    if memory.len() > 1023 * PAGE {
        return Ok(false);
    }
    memory.grow(1)?;
    Ok(true)
}

#[test]
fn a_memory_grows_page_by_page_to_its_end(rt: HostRuntime) -> Result<(), Fail> {
    let mut memory = RawMem::new(rt.alloc(), 0)?;
    for pages in 0..1024 {
        assert!(rt; grows(&mut memory)?);
        assert!(rt; memory.len() == (pages + 1) * PAGE);
        assert!(rt; memory.store(pages * PAGE, 8, pages));
    }
    for page in 0..1024 {
        assert!(rt; memory.load(page * PAGE, 8) == Some(page));
        assert!(rt; memory.load(page * PAGE + PAGE - 8, 8) == Some(0));
    }
    assert!(rt; !grows(&mut memory)?);
    Ok(())
}

#[test]
fn a_memory_may_have_no_pages(rt: HostRuntime) -> Result<(), Fail> {
    let mut memory = RawMem::new(rt.alloc(), 0)?;
    assert!(rt; memory.len() == 0);
    check_bytes(&rt, &memory, 0, b"");
    assert!(rt; memory.load(0, 1).is_none());
    assert!(rt; memory.fill(0, 0, 1));
    assert!(rt; !memory.fill(0, 1, 1));
    assert!(rt; memory.write(0, b""));
    assert!(rt; memory.copy_within(0, 0, 0));
    memory.grow(1)?;
    assert!(rt; memory.len() == PAGE);
    check_bytes(&rt, &memory, PAGE - 1, b"\0");
    Ok(())
}

#[test]
fn a_memory_may_have_1024_pages(rt: HostRuntime) -> Result<(), Fail> {
    let mut memory = RawMem::new(rt.alloc(), 1024)?;
    assert!(rt; memory.len() == 1024 * PAGE);
    assert!(rt; memory.store(1024 * PAGE - 8, 8, 0x0102));
    check_bytes(&rt, &memory, 1024 * PAGE - 8, b"\x02\x01\0\0\0\0\0\0");
    assert!(rt; memory.view(1024 * PAGE, 1).is_none());
    Ok(())
}

#[test]
fn a_view_may_be_the_whole_or_nothing(rt: HostRuntime) -> Result<(), Fail> {
    let mut memory = RawMem::new(rt.alloc(), 1)?;
    assert!(rt; memory.fill(0, PAGE, 7));
    match memory.view(0, PAGE) {
        Some(bytes) => {
            assert!(rt; bytes.len() == 65536);
            assert!(rt; bytes.iter().all(|b| *b == 7));
        }
        None => {
            panic!(rt; "the whole is there");
        }
    }
    check_bytes(&rt, &memory, 0, b"");
    check_bytes(&rt, &memory, PAGE, b"");
    assert!(rt; memory.view(PAGE + 1, 0).is_none());
    Ok(())
}
