//! Scripts whose effects are answered: a Global by each `new`, a printed line by undefined, and all others by an exception that tells the
//! effect and its place.

use crate::runs::{bind_functions, shown, small, tree};
use embed_base::SharedString;
use host_machine::{HostEffect, HostFrame};
use host_parser::Script;
use host_values::{Heap, HostValue, Kind};
use std::alloc::{AllocError, Global};
use std::test::Fail;
use wasm_syntax::GlobalAddr;

/// A run takes at most so many steps.
const MOST_STEPS: u32 = 2000;

/// An effect is answered by an exception.
fn throw(alloc: Global, frame: &mut HostFrame, effect: &str) -> Result<Option<String>, AllocError> {
    if !frame.is_waiting() {
        return Ok(Some(format!(in alloc; "no effect waits")?));
    }
    let place = frame.place();
    let text = format!(in alloc; "{effect} at {place}")?;
    frame.throw(HostValue::Text(SharedString::from_string(alloc, text)?));
    Ok(None)
}

/// And by a value.
fn give(
    alloc: Global,
    frame: &mut HostFrame,
    value: HostValue,
) -> Result<Option<String>, AllocError> {
    if !frame.is_waiting() {
        return Ok(Some(format!(in alloc; "no effect waits")?));
    }
    frame.supply(value);
    Ok(None)
}

/// A line is printed; `throw` is refused by an exception.
fn print(
    alloc: Global,
    frame: &mut HostFrame,
    transcript: &mut String,
    line: &str,
) -> Result<Option<String>, AllocError> {
    if line == "throw" {
        return throw(alloc, frame, "print");
    }
    transcript.push_str(line)?;
    transcript.push_str("\n")?;
    give(alloc, frame, HostValue::Undefined)
}

/// The end by an exception.
fn uncaught(alloc: Global, heap: &Heap, value: &HostValue) -> Result<Option<String>, AllocError> {
    let text = shown(alloc, heap, value)?;
    Ok(Some(format!(in alloc; "uncaught: {text}")?))
}

/// What is answered, or the line that ends the run.
fn answer(
    alloc: Global,
    heap: &mut Heap,
    frame: &mut HostFrame,
    transcript: &mut String,
    effect: HostEffect,
) -> Result<Option<String>, AllocError> {
    match effect {
        HostEffect::Went => Ok(None),
        HostEffect::Print(line) => print(alloc, frame, transcript, line.as_str()),
        HostEffect::Call { callee: _, args: _ } => throw(alloc, frame, "call"),
        HostEffect::New { class: _, args: _ } => {
            let object = heap.add(alloc, Kind::Global(GlobalAddr(0)))?;
            give(alloc, frame, HostValue::Object(object))
        }
        HostEffect::Method {
            object: _,
            name,
            args: _,
        } => throw(alloc, frame, name.as_str()),
        HostEffect::GetMember { object: _, key: _ } => throw(alloc, frame, "get"),
        HostEffect::SetMember {
            object: _,
            key: _,
            value: _,
        } => throw(alloc, frame, "set"),
        HostEffect::Returned(_) => Ok(Some(format!(in alloc; "done")?)),
        HostEffect::Threw(value) => uncaught(alloc, heap, &value),
        HostEffect::Refused(_) => Ok(Some(format!(in alloc; "refused")?)),
    }
}

/// A step of a run, or the line that ends it.
fn go(
    alloc: Global,
    heap: &mut Heap,
    script: &Script,
    frame: &mut HostFrame,
    transcript: &mut String,
) -> Result<Option<String>, AllocError> {
    if frame.is_waiting() {
        return Ok(Some(format!(in alloc; "an effect waits")?));
    }
    let effect = frame.step(alloc, heap, script)?;
    answer(alloc, heap, frame, transcript, effect)
}

/// What a run prints, and the line that ends it.
fn run(alloc: Global, heap: &mut Heap, script: &Script) -> Result<String, AllocError> {
    let mut transcript = String::new(alloc);
    let mut frame = HostFrame::top(alloc)?;
    for _ in 0..MOST_STEPS {
        if let Some(line) = go(alloc, heap, script, &mut frame, &mut transcript)? {
            return format!(in alloc; "{transcript}{line}");
        }
    }
    format!(in alloc; "{transcript}goes on")
}

/// What a script's run tells.
fn told(alloc: Global, text: &str) -> Result<String, AllocError> {
    match tree(alloc, text) {
        Some(script) => {
            let mut heap = Heap::new(alloc, small(script.globals()))?;
            bind_functions(alloc, &mut heap, &script)?;
            run(alloc, &mut heap, &script)
        }
        None => format!(in alloc; "no script"),
    }
}

/// The number of the first row whose run tells something else, or how many rows there are.
fn right_rows(alloc: Global, rows: &[(&str, &str)]) -> Result<usize, AllocError> {
    let mut right: usize = 0;
    for (script, wanted) in rows {
        let found = told(alloc, *script)?;
        if found.as_str() != *wanted {
            break;
        }
        right = right.saturating_add(1);
    }
    Ok(right)
}

static ANSWERED: [(&str, &str); 16] = [
    (
        "let g = new WebAssembly.Global({}); print(g);",
        "[Global]\ndone",
    ),
    (
        "let g = new WebAssembly.Global({}); g.value;",
        "uncaught: get at 37",
    ),
    (
        "let g = new WebAssembly.Global({}); try { g.value; print('no'); } catch (e) { print(e); }",
        "get at 43\ndone",
    ),
    (
        "let g = new WebAssembly.Global({}); try { g['value']; } catch (e) { print(e); }",
        "get at 43\ndone",
    ),
    (
        "let g = new WebAssembly.Global({}); try { g.value = 1; print('no'); } catch (e) { print(e); }",
        "set at 43\ndone",
    ),
    (
        "let g = new WebAssembly.Global({}); try { g['value'] = 1; } catch (e) { print(e); }",
        "set at 43\ndone",
    ),
    (
        "let g = new WebAssembly.Global({}); try { g.valueOf(); print('no'); } catch (e) { print(e); }",
        "valueOf at 51\ndone",
    ),
    (
        "let g = new WebAssembly.Global({}); try { print(1 + g.value * 2); } catch (e) { print(e); }",
        "get at 53\ndone",
    ),
    (
        "let g = new WebAssembly.Global({}); try { print([1, g.value]); } catch (e) { print(e); }",
        "get at 53\ndone",
    ),
    (
        "try { readbuffer('a'); print('no'); } catch (e) { print(e); }",
        " at 16\ndone",
    ),
    (
        "try { Promise.resolve(1); print('no'); } catch (e) { print(e); }",
        "resolve at 21\ndone",
    ),
    (
        "try { print('throw'); print('no'); } catch (e) { print(e); }",
        "print at 11\ndone",
    ),
    (
        "function f() { } try { f(); print('no'); } catch (e) { print(e); }",
        "call at 24\ndone",
    ),
    ("readbuffer('a');", "uncaught:  at 10"),
    (
        "while (true) { try { readbuffer('a'); } catch (e) { break; } } print('out');",
        "out\ndone",
    ),
    (
        "let i = 0; while (i < 2) { i = i + 1; try { readbuffer('a'); } catch (e) { continue; } print('no'); } print(i);",
        "2\ndone",
    ),
];

#[test]
fn answered(rt: HostRuntime) -> Result<(), Fail> {
    assert_eq!(rt; right_rows(rt.alloc(), &ANSWERED)?, ANSWERED.len());
    Ok(())
}
