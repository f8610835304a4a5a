//! What scripts over modules with a memory write. The expected values are those that another engine gives, but where a limit of the
//! profile decides.

use crate::modules::{MEMORY, MOST_PAGES, PAST_THE_PAGE, TOO_MANY_PAGES, UP_TO_THREE_PAGES};
use crate::running::{Case, right, writes};
use std::alloc::Global;
use std::test::Fail;

/// How many of these ends, from the first one on, are traps of the function `f`.
fn trapping(alloc: Global, scripts: &[&'static str]) -> Result<usize, Fail> {
    let mut count = 0_usize;
    for script in scripts {
        let case = ("f", *script, "Uncaught|uncaught: RuntimeError\n");
        if !writes(alloc, "--steps=1000000000", MEMORY.as_slice(), &case)? {
            return Ok(count);
        }
        count = count.wrapping_add(1);
    }
    Ok(count)
}

/// Each load at the last place where all its bytes are there, and the high half of the number of 64 bits.
static LOADS: [Case; 12] = [
    ("f", "print(f(40, 65532), f(0));", "Done|-135866940 0\n"),
    (
        "f",
        "print(f(41, 65528), f(0));",
        "Done|-1281191552 -135866940\n",
    ),
    ("f", "print(f(44, 65535), f(0));", "Done|-9 0\n"),
    ("f", "print(f(45, 65535), f(0));", "Done|247 0\n"),
    ("f", "print(f(46, 65534), f(0));", "Done|-2074 0\n"),
    ("f", "print(f(47, 65534), f(0));", "Done|63462 0\n"),
    ("f", "print(f(48, 65535), f(0));", "Done|-9 -1\n"),
    ("f", "print(f(49, 65535), f(0));", "Done|247 0\n"),
    ("f", "print(f(50, 65534), f(0));", "Done|-2074 -1\n"),
    ("f", "print(f(51, 65534), f(0));", "Done|63462 0\n"),
    ("f", "print(f(52, 65532), f(0));", "Done|-135866940 -1\n"),
    ("f", "print(f(53, 65532), f(0));", "Done|-135866940 0\n"),
];

/// Numbers that are as great as they may be without a sign, and the next ones.
static EXTENSIONS: [Case; 6] = [
    (
        "f",
        "print(f(58, 3, 127), f(44, 3), f(45, 3), f(48, 3), f(0), f(49, 3), f(0));",
        "Done|0 127 127 127 0 127 0\n",
    ),
    (
        "f",
        "print(f(58, 3, 128), f(44, 3), f(45, 3), f(48, 3), f(0), f(49, 3), f(0));",
        "Done|0 -128 128 -128 -1 128 0\n",
    ),
    (
        "f",
        "print(f(59, 3, 32767), f(46, 3), f(47, 3), f(50, 3), f(0), f(51, 3), f(0));",
        "Done|0 32767 32767 32767 0 32767 0\n",
    ),
    (
        "f",
        "print(f(59, 3, 32768), f(46, 3), f(47, 3), f(50, 3), f(0), f(51, 3), f(0));",
        "Done|0 -32768 32768 -32768 -1 32768 0\n",
    ),
    (
        "f",
        "print(f(54, 3, 2147483647), f(52, 3), f(0), f(53, 3), f(0), f(40, 3));",
        "Done|0 2147483647 0 2147483647 0 2147483647\n",
    ),
    (
        "f",
        "print(f(54, 3, 2147483648), f(52, 3), f(0), f(53, 3), f(0), f(40, 3));",
        "Done|0 -2147483648 -1 -2147483648 0 -2147483648\n",
    ),
];

/// Each load one place on.
static LOADS_PAST: [&str; 12] = [
    "print(f(40, 65533));",
    "print(f(41, 65529));",
    "print(f(44, 65536));",
    "print(f(45, 65536));",
    "print(f(46, 65535));",
    "print(f(47, 65535));",
    "print(f(48, 65536));",
    "print(f(49, 65536));",
    "print(f(50, 65535));",
    "print(f(51, 65535));",
    "print(f(52, 65533));",
    "print(f(53, 65533));",
];

#[test]
fn loads(rt: HostRuntime) -> Result<(), Fail> {
    let alloc = rt.alloc();
    assert_eq!(rt; right(alloc, MEMORY.as_slice(), LOADS.as_slice())?, 12);
    assert_eq!(rt; right(alloc, MEMORY.as_slice(), EXTENSIONS.as_slice())?, 6);
    assert_eq!(rt; trapping(alloc, LOADS_PAST.as_slice())?, 12);
    Ok(())
}

/// Each store at the last place where all its bytes are there, and the eight bytes at the end afterwards.
static STORES: [Case; 7] = [
    (
        "f",
        "print(f(54, 65532, 305419896, 2596069104), f(41, 65528), f(0));",
        "Done|0 -1281191552 305419896\n",
    ),
    (
        "f",
        "print(f(55, 65528, 305419896, 2596069104), f(41, 65528), f(0));",
        "Done|0 305419896 -1698898192\n",
    ),
    (
        "f",
        "print(f(58, 65535, 305419896, 2596069104), f(41, 65528), f(0));",
        "Done|0 -1281191552 2028393924\n",
    ),
    (
        "f",
        "print(f(59, 65534, 305419896, 2596069104), f(41, 65528), f(0));",
        "Done|0 -1281191552 1450759620\n",
    ),
    (
        "f",
        "print(f(60, 65535, 305419896, 2596069104), f(41, 65528), f(0));",
        "Done|0 -1281191552 2028393924\n",
    ),
    (
        "f",
        "print(f(61, 65534, 305419896, 2596069104), f(41, 65528), f(0));",
        "Done|0 -1281191552 1450759620\n",
    ),
    (
        "f",
        "print(f(62, 65532, 305419896, 2596069104), f(41, 65528), f(0));",
        "Done|0 -1281191552 305419896\n",
    ),
];

/// Each store one place on.
static STORES_PAST: [&str; 7] = [
    "print(f(54, 65533, 1, 2));",
    "print(f(55, 65529, 1, 2));",
    "print(f(58, 65536, 1, 2));",
    "print(f(59, 65535, 1, 2));",
    "print(f(60, 65536, 1, 2));",
    "print(f(61, 65535, 1, 2));",
    "print(f(62, 65533, 1, 2));",
];

#[test]
fn stores(rt: HostRuntime) -> Result<(), Fail> {
    let alloc = rt.alloc();
    assert_eq!(rt; right(alloc, MEMORY.as_slice(), STORES.as_slice())?, 7);
    assert_eq!(rt; trapping(alloc, STORES_PAST.as_slice())?, 7);
    Ok(())
}

/// An operand and an offset that reach the last place.
static OFFSET: [Case; 1] = [("f", "print(f(3, 4));", "Done|-135866940\n")];

/// Sums past the end, also past 2^32: none is taken modulo 2^32.
static OFFSETS_PAST: [&str; 7] = [
    "print(f(3, 5));",
    "print(f(3, 4294967295));",
    "print(f(1, 0));",
    "print(f(1, 1));",
    "print(f(1, 4294967295));",
    "print(f(2, 1, 7, 7));",
    "print(f(44, 4294967295));",
];

#[test]
fn offsets(rt: HostRuntime) -> Result<(), Fail> {
    let alloc = rt.alloc();
    assert_eq!(rt; right(alloc, MEMORY.as_slice(), OFFSET.as_slice())?, 1);
    assert_eq!(rt; trapping(alloc, OFFSETS_PAST.as_slice())?, 7);
    Ok(())
}

/// Copies, also of bytes that overlap their new place, and of none at the end.
static COPIES: [Case; 6] = [
    (
        "f",
        "print(f(8, 0, 0, 10), f(10, 2, 0, 8), f(41, 0), f(0), f(41, 8), f(0));",
        "Done|0 0 33620481 100992003 2055 0\n",
    ),
    (
        "f",
        "print(f(8, 0, 0, 10), f(10, 0, 2, 8), f(41, 0), f(0), f(41, 8), f(0));",
        "Done|0 0 100992003 168364039 2569 0\n",
    ),
    (
        "f",
        "print(f(8, 0, 0, 10), f(10, 1, 1, 8), f(41, 0), f(0), f(41, 8), f(0));",
        "Done|0 0 67305985 134678021 2569 0\n",
    ),
    (
        "f",
        "print(f(10, 0, 65528, 8), f(41, 0), f(0));",
        "Done|0 -1281191552 -135866940\n",
    ),
    (
        "f",
        "print(f(10, 65528, 0, 8), f(41, 65528), f(0));",
        "Done|0 0 0\n",
    ),
    ("f", "print(f(10, 65536, 65536, 0));", "Done|0\n"),
];

/// Copies from past the end or to past it, also of no bytes.
static COPIES_PAST: [&str; 5] = [
    "print(f(10, 0, 65529, 8));",
    "print(f(10, 65529, 0, 8));",
    "print(f(10, 65537, 0, 0));",
    "print(f(10, 0, 65537, 0));",
    "print(f(10, 0, 4294967295, 1));",
];

/// Fills, whose byte is the low one of the number.
static FILLS: [Case; 3] = [
    (
        "f",
        "print(f(11, 65528, 511, 8), f(41, 65528), f(0), f(41, 65520), f(0));",
        "Done|0 -1 -1 0 0\n",
    ),
    (
        "f",
        "print(f(11, 65527, 0, 3), f(41, 65524), f(0));",
        "Done|0 0 -1281228800\n",
    ),
    ("f", "print(f(11, 65536, 1, 0));", "Done|0\n"),
];

/// Fills past the end.
static FILLS_PAST: [&str; 3] = [
    "print(f(11, 65529, 1, 8));",
    "print(f(11, 65537, 1, 0));",
    "print(f(11, 1, 1, 4294967295));",
];

#[test]
fn copies_and_fills(rt: HostRuntime) -> Result<(), Fail> {
    let alloc = rt.alloc();
    assert_eq!(rt; right(alloc, MEMORY.as_slice(), COPIES.as_slice())?, 6);
    assert_eq!(rt; trapping(alloc, COPIES_PAST.as_slice())?, 5);
    assert_eq!(rt; right(alloc, MEMORY.as_slice(), FILLS.as_slice())?, 3);
    assert_eq!(rt; trapping(alloc, FILLS_PAST.as_slice())?, 3);
    Ok(())
}

/// A segment's bytes up to the end of the memory and of the segment, and none of one that was dropped.
static SEGMENTS: [Case; 4] = [
    (
        "f",
        "print(f(8, 65526, 0, 10), f(41, 65528), f(0));",
        "Done|0 100992003 168364039\n",
    ),
    (
        "f",
        "print(f(8, 0, 1, 9), f(41, 0), f(0), f(45, 8), f(45, 9));",
        "Done|0 84148994 151521030 10 0\n",
    ),
    ("f", "print(f(8, 65536, 10, 0));", "Done|0\n"),
    ("f", "print(f(9), f(8, 0, 0, 0), f(9));", "Done|0 0 0\n"),
];

/// Past the end of the memory or of the segment, also of one that was dropped.
static SEGMENTS_PAST: [&str; 5] = [
    "print(f(8, 65527, 0, 10));",
    "print(f(8, 0, 1, 10));",
    "print(f(8, 65537, 0, 0));",
    "print(f(8, 0, 11, 0));",
    "print(f(9), f(8, 0, 0, 1));",
];

/// An active segment that ends one byte past the memory's end.
static SEGMENT_PAST: [Case; 1] = [("f", "print(1);", "Uncaught|uncaught: RuntimeError\n")];

#[test]
fn data_segments(rt: HostRuntime) -> Result<(), Fail> {
    let alloc = rt.alloc();
    assert_eq!(rt; right(alloc, MEMORY.as_slice(), SEGMENTS.as_slice())?, 4);
    assert_eq!(rt; trapping(alloc, SEGMENTS_PAST.as_slice())?, 5);
    assert_eq!(rt;
        right(alloc, PAST_THE_PAGE.as_slice(), SEGMENT_PAST.as_slice())?,
        1
    );
    Ok(())
}

/// Growths up to the 1,024 pages that a memory may have.
static GROWTHS: [Case; 5] = [
    (
        "f",
        "print(f(63), f(64, 0), f(64, 2), f(63), f(45, 196607), f(45, 65535));",
        "Done|1 1 1 3 0 247\n",
    ),
    ("f", "print(f(64, 4294967295), f(63));", "Done|-1 1\n"),
    (
        "f",
        "print(f(64, 1023), f(64, 0), f(64, 1), f(63), f(45, 67108863));",
        "Done|1 1024 -1 1024 0\n",
    ),
    ("f", "print(f(64, 1024), f(63));", "Done|-1 1\n"),
    (
        "f",
        "let a = new WebAssembly.Instance(new WebAssembly.Module(readbuffer(\"m\"))).exports.f; let b = new WebAssembly.Instance(new WebAssembly.Module(readbuffer(\"m\"))).exports.f; let c = new WebAssembly.Instance(new WebAssembly.Module(readbuffer(\"m\"))).exports.f; let d = new WebAssembly.Instance(new WebAssembly.Module(readbuffer(\"m\"))).exports.f; print(f(64, 1023), a(64, 1023), b(64, 1023), c(64, 1022), d(64, 0), c(64, 1), c(64, 0), f(64, 1));",
        "Done|1 1 1 1 1 -1 1023 -1\n",
    ),
];

/// What lies past the pages that there are then.
static GROWN_PAST: [&str; 2] = [
    "print(f(64, 2), f(45, 196608));",
    "print(f(64, 1023), f(45, 67108864));",
];

/// A memory of one page that may have three: its growth by the argument, and the byte at the argument.
static UP_TO_THREE: [Case; 2] = [
    (
        "g",
        "let l = new WebAssembly.Instance(new WebAssembly.Module(readbuffer(\"m\"))).exports.l; print(g(0), g(2), g(1), g(0)); print(l(65535));",
        "Done|1 1 -1 3\n0\n",
    ),
    ("l", "print(l(65536));", "Uncaught|uncaught: RuntimeError\n"),
];

/// A memory begins with at most 1,024 pages.
static AS_MANY: [Case; 1] = [("f", "print(f());", "Done|1024\n")];

static ONE_MORE: [Case; 1] = [("f", "print(1);", "Uncaught|uncaught: RangeError\n")];

#[test]
fn growths(rt: HostRuntime) -> Result<(), Fail> {
    let alloc = rt.alloc();
    assert_eq!(rt; right(alloc, MEMORY.as_slice(), GROWTHS.as_slice())?, 5);
    assert_eq!(rt; trapping(alloc, GROWN_PAST.as_slice())?, 2);
    assert_eq!(rt;
        right(alloc, UP_TO_THREE_PAGES.as_slice(), UP_TO_THREE.as_slice())?,
        2
    );
    assert_eq!(rt; right(alloc, MOST_PAGES.as_slice(), AS_MANY.as_slice())?, 1);
    assert_eq!(rt;
        right(alloc, TOO_MANY_PAGES.as_slice(), ONE_MORE.as_slice())?,
        1
    );
    Ok(())
}

/// A fill of 2,048 bytes takes 3 units at once, after 41 for what comes before it.
static BULK_PAST: Case = (
    "f",
    "print(f(11, 0, 0, 2048));",
    "Budget|budget: needs 3, left 2\n",
);

static BULK_WITHIN: Case = ("f", "print(f(11, 0, 0, 2048));", "Done|0\n");

#[test]
fn charges_of_bulk_instructions(rt: HostRuntime) -> Result<(), Fail> {
    let alloc = rt.alloc();
    let bytes = MEMORY.as_slice();
    assert!(rt; writes(alloc, "--steps=43", bytes, &BULK_PAST)?, "too few");
    assert!(rt; writes(alloc, "--steps=47", bytes, &BULK_WITHIN)?, "enough");
    Ok(())
}
