//! What scripts over modules write. The expected values are those that another engine gives, but where a limit of the profile decides.

ghost use Rattle.std.specs.Prelude.{◌≡◌};

use crate::modules::{
    CONTROL, GLOBALS, LARGE, LOCALS, NUMBERS_32, NUMBERS_64, SEGMENT_AT_END, SEGMENT_PAST_END,
    SEVEN_IN_A_TABLE, START, START_AFTER_SEGMENTS, START_LOOPS, START_RECURS, START_TRAPS, TABLES,
    TOO_LARGE, TRAPS, WITH_AN_IMPORT,
};
use embed_base::{SureFiles, SureSink};
use embed_cmd::run_main;
use std::alloc::Global;
use std::str;
use std::test::Fail;

/// The export that is bound to its own name, what the script does then, and the status with what is written.
pub(crate) type Case = (&'static str, &'static str, &'static str);

/// The words of a command line over the module `m`.
fn words(alloc: Global, steps: &str) -> Result<Vec<String>, Fail> {
    let mut words = Vec::new(alloc);
    for word in ["run", "--module=m=m.wasm", "s.js", steps] {
        words.push(String::from_str(alloc, word)?)?;
    }
    Ok(words)
}

/// The files of a script and a module.
fn files(alloc: Global, bytes: &[u8], script: &str) -> Result<SureFiles, Fail> {
    let mut pairs = Vec::new(alloc);
    let name = String::from_str(alloc, "s.js")?;
    pairs.push((name, Vec::from_slice(alloc, script.as_bytes())?))?;
    let name = String::from_str(alloc, "m.wasm")?;
    pairs.push((name, Vec::from_slice(alloc, bytes)?))?;
    Ok(SureFiles::new(pairs))
}

/// Whether a script over a module with a word for its budget ends and writes so.
pub(crate) fn writes(alloc: Global, steps: &str, bytes: &[u8], case: &Case) -> Result<bool, Fail> {
    let name = case.0;
    let last = case.1;
    let script = format!(in alloc;
        "let {name} = new WebAssembly.Instance(new WebAssembly.Module(readbuffer(\"m\"))).exports.{name}; {last}"
    )?;
    let words = words(alloc, steps)?;
    let mut files = files(alloc, bytes, script.as_str())?;
    let mut out = SureSink::new(alloc);
    let status = run_main(alloc, words.as_slice(), &mut files, &mut out);
    let text = str::from_utf8(out.bytes()).map_err(|_| Fail::from("not UTF-8"))?;
    let told = format!(in alloc; "{status:?}|{text}")?;
    Ok(told.as_str() == case.2)
}

/// How many cases, from the first on, end and write as they say.
pub(crate) fn right(alloc: Global, bytes: &[u8], cases: &[Case]) -> Result<usize, Fail> {
    let mut count = 0_usize;
    for case in cases {
        if !writes(alloc, "--steps=1000000000", bytes, case)? {
            return Ok(count);
        }
        count = count.wrapping_add(1);
    }
    Ok(count)
}

/// Each comparison holds.
static ALL_RIGHT: [Case; 1] = [("f", "print(f());", "Done|0\n")];

#[test]
fn numbers_of_32_bits(rt: HostRuntime) -> Result<(), Fail> {
    assert_eq!(rt;
        right(rt.alloc(), NUMBERS_32.as_slice(), ALL_RIGHT.as_slice())?,
        1
    );
    Ok(())
}

#[test]
fn numbers_of_64_bits(rt: HostRuntime) -> Result<(), Fail> {
    assert_eq!(rt;
        right(rt.alloc(), NUMBERS_64.as_slice(), ALL_RIGHT.as_slice())?,
        1
    );
    Ok(())
}

/// One trap for each argument.
static TRAPPING: [Case; 12] = [
    ("f", "print(f(0));", "Uncaught|uncaught: RuntimeError\n"),
    ("f", "print(f(1));", "Uncaught|uncaught: RuntimeError\n"),
    ("f", "print(f(2));", "Uncaught|uncaught: RuntimeError\n"),
    ("f", "print(f(3));", "Uncaught|uncaught: RuntimeError\n"),
    ("f", "print(f(4));", "Uncaught|uncaught: RuntimeError\n"),
    ("f", "print(f(5));", "Uncaught|uncaught: RuntimeError\n"),
    ("f", "print(f(6));", "Uncaught|uncaught: RuntimeError\n"),
    ("f", "print(f(7));", "Uncaught|uncaught: RuntimeError\n"),
    ("f", "print(f(8));", "Uncaught|uncaught: RuntimeError\n"),
    ("f", "print(f(9));", "Uncaught|uncaught: RuntimeError\n"),
    ("f", "print(f(10));", "Uncaught|uncaught: RuntimeError\n"),
    ("f", "print(f(11));", "Uncaught|uncaught: RuntimeError\n"),
];

#[test]
fn instructions_that_trap(rt: HostRuntime) -> Result<(), Fail> {
    assert_eq!(rt;
        right(rt.alloc(), TRAPS.as_slice(), TRAPPING.as_slice())?,
        12
    );
    Ok(())
}

/// Calls of functions over control.
static CONTROLLED: [Case; 18] = [
    (
        "fib",
        "print(fib(0), fib(1), fib(2), fib(15));",
        "Done|0 1 1 610\n",
    ),
    (
        "ack",
        "print(ack(0, 0), ack(2, 3), ack(3, 3));",
        "Done|1 9 61\n",
    ),
    (
        "even",
        "print(even(0), even(1), even(1000), even(1001));",
        "Done|1 0 1 0\n",
    ),
    ("depth", "print(depth(9999));", "Done|9999\n"),
    (
        "depth",
        "print(depth(10000));",
        "Uncaught|uncaught: RangeError\n",
    ),
    (
        "sum",
        "print(sum(0), sum(1), sum(100), sum(1000));",
        "Done|0 1 5050 500500\n",
    ),
    (
        "choose",
        "print(choose(0), choose(1), choose(2), choose(3), choose(4), choose(5), choose(0 - 1));",
        "Done|30 10 20 10 40 40 40\n",
    ),
    (
        "choose_value",
        "print(choose_value(0), choose_value(1), choose_value(2), choose_value(3));",
        "Done|1005 1105 1115 1115\n",
    ),
    ("order", "print(order(10, 3));", "Done|-7\n"),
    ("params", "print(params(10, 3));", "Done|-27\n"),
    ("below", "print(below(100));", "Done|-101\n"),
    (
        "loop_param",
        "print(loop_param(1), loop_param(30));",
        "Done|20 31\n",
    ),
    ("two_out", "print(two_out(1));", "Done|77\n"),
    ("early", "print(early(9));", "Done|9\n"),
    ("dead", "print(dead(9));", "Done|9\n"),
    (
        "no_else",
        "print(no_else(0), no_else(1), no_else(0 - 1));",
        "Done|0 6 4\n",
    ),
    (
        "pick",
        "print(pick(0), pick(1), pick(0 - 1));",
        "Done|16 6 6\n",
    ),
    ("args", "print(args(8));", "Done|8\n"),
];

#[test]
fn blocks_branches_and_calls(rt: HostRuntime) -> Result<(), Fail> {
    assert_eq!(rt;
        right(rt.alloc(), CONTROL.as_slice(), CONTROLLED.as_slice())?,
        18
    );
    Ok(())
}

/// Calls through entries, and past them.
static CALLED: [Case; 13] = [
    (
        "call0",
        "print(call0(0));",
        "Uncaught|uncaught: RuntimeError\n",
    ),
    ("call0", "print(call0(1));", "Done|7\n"),
    (
        "call0",
        "print(call0(2));",
        "Uncaught|uncaught: RuntimeError\n",
    ),
    (
        "call0",
        "print(call0(3));",
        "Uncaught|uncaught: RuntimeError\n",
    ),
    (
        "call0",
        "print(call0(4));",
        "Uncaught|uncaught: RuntimeError\n",
    ),
    (
        "call0",
        "print(call0(5));",
        "Uncaught|uncaught: RuntimeError\n",
    ),
    (
        "call0",
        "print(call0(0 - 1));",
        "Uncaught|uncaught: RuntimeError\n",
    ),
    (
        "call1",
        "print(call1(0));",
        "Uncaught|uncaught: RuntimeError\n",
    ),
    (
        "call1",
        "print(call1(1));",
        "Uncaught|uncaught: RuntimeError\n",
    ),
    ("call1", "print(call1(2));", "Done|42\n"),
    (
        "call1",
        "print(call1(3));",
        "Uncaught|uncaught: RuntimeError\n",
    ),
    ("set", "print(set());", "Done|60\n"),
    ("changes", "print(changes());", "Done|57\n"),
];

#[test]
fn calls_through_tables(rt: HostRuntime) -> Result<(), Fail> {
    assert_eq!(rt;
        right(rt.alloc(), TABLES.as_slice(), CALLED.as_slice())?,
        13
    );
    Ok(())
}

/// Entries and sizes.
static ENTRIES: [Case; 12] = [
    (
        "get",
        "print(get(0), get(1), get(2), get(3));",
        "Done|1 0 0 1\n",
    ),
    ("get", "print(get(4));", "Uncaught|uncaught: RuntimeError\n"),
    ("set_past", "print(set_past(3));", "Done|1\n"),
    (
        "set_past",
        "print(set_past(4));",
        "Uncaught|uncaught: RuntimeError\n",
    ),
    ("size", "print(size());", "Done|403\n"),
    (
        "grow",
        "print(grow(0), grow(1), grow(1), grow(1), grow(0));",
        "Done|404 405 506 -94 606\n",
    ),
    (
        "grow",
        "print(grow(0 - 1), grow(3), grow(2));",
        "Done|-96 -96 406\n",
    ),
    (
        "grow_big",
        "print(grow_big(0), grow_big(999999), grow_big(2), grow_big(1), grow_big(1), grow_big(0));",
        "Done|0 0 -1 999999 -1 1000000\n",
    ),
    (
        "grow_big",
        "print(grow_big(1000001), grow_big(0 - 1), grow_big(0));",
        "Done|-1 -1 0\n",
    ),
    ("grow_value", "print(grow_value());", "Done|7\n"),
    ("externs", "print(externs());", "Done|2\n"),
    ("funcs", "print(funcs());", "Done|1\n"),
];

#[test]
fn entries_of_tables(rt: HostRuntime) -> Result<(), Fail> {
    assert_eq!(rt;
        right(rt.alloc(), TABLES.as_slice(), ENTRIES.as_slice())?,
        12
    );
    Ok(())
}

/// Ranges that fit, that overlap, and that pass an end by one.
static RANGES: [Case; 21] = [
    ("fill", "print(fill(2, 1));", "Done|7\n"),
    ("fill", "print(fill(0, 4));", "Done|7\n"),
    (
        "fill",
        "print(fill(4, 0));",
        "Uncaught|uncaught: RuntimeError\n",
    ),
    (
        "fill",
        "print(fill(2, 3));",
        "Uncaught|uncaught: RuntimeError\n",
    ),
    (
        "fill",
        "print(fill(5, 0));",
        "Uncaught|uncaught: RuntimeError\n",
    ),
    (
        "fill",
        "print(fill(0 - 1, 2));",
        "Uncaught|uncaught: RuntimeError\n",
    ),
    ("copy", "print(copy(2, 1, 2));", "Done|107\n"),
    (
        "copy",
        "print(copy(3, 1, 2));",
        "Uncaught|uncaught: RuntimeError\n",
    ),
    (
        "copy",
        "print(copy(1, 3, 2));",
        "Uncaught|uncaught: RuntimeError\n",
    ),
    (
        "copy",
        "print(copy(5, 0, 0));",
        "Uncaught|uncaught: RuntimeError\n",
    ),
    ("copy_down", "print(copy_down());", "Done|108\n"),
    ("init", "print(init(3, 1, 1));", "Done|7\n"),
    ("init", "print(init(2, 0, 2));", "Done|7\n"),
    (
        "init",
        "print(init(2, 1, 3));",
        "Uncaught|uncaught: RuntimeError\n",
    ),
    (
        "init",
        "print(init(2, 2, 2));",
        "Uncaught|uncaught: RuntimeError\n",
    ),
    (
        "init",
        "print(init(0, 4, 0));",
        "Uncaught|uncaught: RuntimeError\n",
    ),
    (
        "init",
        "print(init(5, 0, 0));",
        "Uncaught|uncaught: RuntimeError\n",
    ),
    ("dropped", "print(dropped(0));", "Done|9\n"),
    (
        "dropped",
        "print(dropped(1));",
        "Uncaught|uncaught: RuntimeError\n",
    ),
    (
        "active_is_dropped",
        "print(active_is_dropped(0));",
        "Done|8\n",
    ),
    (
        "active_is_dropped",
        "print(active_is_dropped(1));",
        "Uncaught|uncaught: RuntimeError\n",
    ),
];

#[test]
fn ranges_of_tables(rt: HostRuntime) -> Result<(), Fail> {
    assert_eq!(rt;
        right(rt.alloc(), TABLES.as_slice(), RANGES.as_slice())?,
        21
    );
    Ok(())
}

/// Globals of each type.
static GLOBAL_VALUES: [Case; 4] = [
    ("count", "print(count(), count(), count());", "Done|6 7 8\n"),
    ("wide", "print(wide(), wide());", "Done|81 6561\n"),
    ("refs", "print(refs(), refs());", "Done|13 17\n"),
    ("fixed", "print(fixed());", "Done|1234\n"),
];

#[test]
fn globals_are_read_and_written(rt: HostRuntime) -> Result<(), Fail> {
    assert_eq!(rt;
        right(rt.alloc(), GLOBALS.as_slice(), GLOBAL_VALUES.as_slice())?,
        4
    );
    Ok(())
}

/// What the one call of `f` comes to.
static FORTY_TWO: [Case; 1] = [("f", "print(f());", "Done|42\n")];

/// What the one call of `f` comes to.
static RUNTIME_ERROR: [Case; 1] = [("f", "print(f());", "Uncaught|uncaught: RuntimeError\n")];

/// What the one call of `f` comes to.
static RANGE_ERROR: [Case; 1] = [("f", "print(f());", "Uncaught|uncaught: RangeError\n")];

/// What the one call of `f` comes to.
static SIX: [Case; 1] = [("f", "print(f());", "Done|6\n")];

/// What the one call of `f` comes to.
static ONE: [Case; 1] = [("f", "print(f());", "Done|1\n")];

/// What the one call of `f` comes to.
static LARGEST: [Case; 1] = [("f", "print(f());", "Done|999999\n")];

#[test]
fn start_functions_run_behind_the_segments(rt: HostRuntime) -> Result<(), Fail> {
    let alloc = rt.alloc();
    assert_eq!(rt; right(alloc, START.as_slice(), FORTY_TWO.as_slice())?, 1);
    assert_eq!(rt;
        right(alloc, START_AFTER_SEGMENTS.as_slice(), SIX.as_slice())?,
        1
    );
    assert_eq!(rt;
        right(alloc, START_TRAPS.as_slice(), RUNTIME_ERROR.as_slice())?,
        1
    );
    assert_eq!(rt;
        right(alloc, START_RECURS.as_slice(), RANGE_ERROR.as_slice())?,
        1
    );
    Ok(())
}

#[test]
fn segments_and_tables_at_their_limits(rt: HostRuntime) -> Result<(), Fail> {
    let alloc = rt.alloc();
    assert_eq!(rt;
        right(alloc, SEGMENT_PAST_END.as_slice(), RUNTIME_ERROR.as_slice())?,
        1
    );
    assert_eq!(rt; right(alloc, SEGMENT_AT_END.as_slice(), ONE.as_slice())?, 1);
    assert_eq!(rt;
        right(alloc, TOO_LARGE.as_slice(), RANGE_ERROR.as_slice())?,
        1
    );
    assert_eq!(rt; right(alloc, LARGE.as_slice(), LARGEST.as_slice())?, 1);
    Ok(())
}

/// The greatest number of locals.
static SEVEN: [Case; 1] = [("f", "print(f(7));", "Done|7\n")];

#[test]
fn many_locals(rt: HostRuntime) -> Result<(), Fail> {
    assert_eq!(rt; right(rt.alloc(), LOCALS.as_slice(), SEVEN.as_slice())?, 1);
    Ok(())
}

/// A call with a call in it: with 13 units it ends, and with fewer it doesn't.
static WITHIN: Case = ("order", "print(order(10, 3));", "Done|-7\n");

static PAST: Case = (
    "order",
    "print(order(10, 3));",
    "Budget|budget: needs 1, left 0\n",
);

/// How many budgets below 13 are too small for that call.
fn too_small(alloc: Global) -> Result<u32, Fail> {
    let mut count = 0_u32;
    for steps in 0..13_u32 {
        let word = format!(in alloc; "--steps={steps}")?;
        if writes(alloc, word.as_str(), CONTROL.as_slice(), &PAST)? {
            count = count.wrapping_add(1);
        }
    }
    Ok(count)
}

#[test]
fn each_instruction_takes_a_unit(rt: HostRuntime) -> Result<(), Fail> {
    let alloc = rt.alloc();
    assert_eq!(rt; too_small(alloc)?, 13);
    assert!(rt;
        writes(alloc, "--steps=13", CONTROL.as_slice(), &WITHIN)?,
        "13 units"
    );
    Ok(())
}

/// A growth by 2,048 entries takes three units: with 12 the call ends, and with 10 two are left for it.
static GROWN: Case = ("grow_big", "print(grow_big(2048));", "Done|0\n");

static GROWTH_PAST: Case = (
    "grow_big",
    "print(grow_big(2048));",
    "Budget|budget: needs 3, left 2\n",
);

/// A start function that never ends takes all that is left.
static ENDLESS: Case = ("f", "print(f());", "Budget|budget: needs 1, left 0\n");

#[test]
fn charges_of_growths_and_start_functions(rt: HostRuntime) -> Result<(), Fail> {
    let alloc = rt.alloc();
    assert!(rt;
        writes(alloc, "--steps=12", TABLES.as_slice(), &GROWN)?,
        "12 units"
    );
    assert!(rt;
        writes(alloc, "--steps=10", TABLES.as_slice(), &GROWTH_PAST)?,
        "10 units"
    );
    assert!(rt;
        writes(alloc, "--steps=1000", START_LOOPS.as_slice(), &ENDLESS)?,
        "no end"
    );
    Ok(())
}

/// Functions of i32 parameters and one i32 result are called; other exports aren't yet.
static EXPORTS: [Case; 4] = [
    ("f", "print(f());", "Done|7\n"),
    ("g", "print(1);", "Outside|outside: not-yet at 0\n"),
    ("t", "print(1);", "Outside|outside: not-yet at 0\n"),
    ("h", "print(1);", "Outside|outside: not-yet at 0\n"),
];

/// A module with an import isn't instantiated yet.
static NOT_YET: [Case; 1] = [("f", "print(1);", "Outside|outside: not-yet at 0\n")];

/// The fourth charge comes before that.
static THREE_UNITS: Case = ("f", "print(1);", "Budget|budget: needs 1, left 0\n");

static FOUR_UNITS: Case = ("f", "print(1);", "Outside|outside: not-yet at 0\n");

#[test]
fn what_a_script_may_call_of_a_module(rt: HostRuntime) -> Result<(), Fail> {
    let alloc = rt.alloc();
    assert_eq!(rt;
        right(alloc, SEVEN_IN_A_TABLE.as_slice(), EXPORTS.as_slice())?,
        4
    );
    assert_eq!(rt;
        right(alloc, WITH_AN_IMPORT.as_slice(), NOT_YET.as_slice())?,
        1
    );
    Ok(())
}

#[test]
fn the_fourth_charge_comes_before_not_yet(rt: HostRuntime) -> Result<(), Fail> {
    let alloc = rt.alloc();
    let bytes = WITH_AN_IMPORT.as_slice();
    assert!(rt; writes(alloc, "--steps=3", bytes, &THREE_UNITS)?, "3 units");
    assert!(rt; writes(alloc, "--steps=4", bytes, &FOUR_UNITS)?, "4 units");
    Ok(())
}
