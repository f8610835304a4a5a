//! Scripts that run a step at a time, up to their end or to an effect that nothing here answers.

use embed_base::{Outside, Place, PlainList, SharedString};
use host_lexer::tokens;
use host_machine::{HostEffect, HostFrame};
use host_parser::{Script, parse};
use host_values::{Callee, Heap, HostValue, Kind, ObjId, Target};
use std::alloc::{AllocError, Global};

/// A run takes at most so many steps.
const MOST_STEPS: u32 = 2000;

/// The number of the script's function that an object is.
fn function_of(heap: &Heap, object: ObjId) -> Option<u32> {
    if !heap.has_object(object) {
        return None;
    }
    match heap.kind(object) {
        Kind::Function(
            Callee::Script {
                function,
                length: _,
            },
        ) => Some(*function),
        _ => None,
    }
}

/// The place of the effect that waits.
fn place_of(frames: &[HostFrame]) -> u32 {
    match frames.last() {
        Some(frame) => { if frame.is_waiting() { frame.place() } else { 0 } }
        None => 0,
    }
}

/// The value that the innermost frame's effect gives.
fn supply(frames: &mut Vec<HostFrame>, value: HostValue) {
    if let Some(frame) = frames.last_mut() {
        if frame.is_waiting() {
            frame.supply(value);
        }
    }
}

/// What the innermost frame's effect throws.
fn throw(frames: &mut Vec<HostFrame>, value: HostValue) {
    if let Some(frame) = frames.last_mut() {
        if frame.is_waiting() {
            frame.throw(value);
        }
    }
}

/// What the next step of the innermost frame takes.
fn charge(frames: &[HostFrame], script: &Script) -> u64 {
    match frames.last() {
        Some(frame) => frame.charge(script),
        None => 0,
    }
}

/// A step of the innermost frame, if there is one that can go on.
fn step(
    alloc: Global,
    heap: &mut Heap,
    script: &Script,
    frames: &mut Vec<HostFrame>,
) -> Result<Option<HostEffect>, AllocError> {
    match frames.last_mut() {
        Some(frame) => {
            if frame.is_waiting() {
                return Ok(None);
            }
            let effect = frame.step(alloc, heap, script)?;
            Ok(Some(effect))
        }
        None => Ok(None),
    }
}

/// A value as it shows.
pub(crate) fn shown(alloc: Global, heap: &Heap, value: &HostValue) -> Result<String, AllocError> {
    if heap.has_value(value) {
        return heap.show(alloc, value);
    }
    format!(in alloc; "nothing")
}

/// The line of a named refusal.
fn refusal(alloc: Global, outside: Outside) -> Result<String, AllocError> {
    let name = outside.kind.name();
    match outside.place {
        Place::Script(place) => format!(in alloc; "outside: {name} at {place}"),
        Place::Module(place) => format!(in alloc; "outside: {name} at module byte {place}"),
    }
}

/// The line of a method, or of a predefined object that is called.
fn method(alloc: Global, object: Target, name: &str, place: u32) -> Result<String, AllocError> {
    match object {
        Target::Builtin(class) => {
            if name == "" {
                return format!(in alloc; "call {class:?} at {place}");
            }
            format!(in alloc; "method {class:?} {name} at {place}")
        }
        Target::Object(_) => format!(in alloc; "method {name} at {place}"),
    }
}

/// A call: the frame of a function of the script, or the line that ends the run.
fn enter(
    alloc: Global,
    heap: &Heap,
    script: &Script,
    frames: &mut Vec<HostFrame>,
    callee: ObjId,
    args: &[HostValue],
) -> Result<Option<String>, AllocError> {
    match function_of(heap, callee) {
        Some(function) => {
            let frame = HostFrame::call(alloc, script, function, args)?;
            frames.push(frame)?;
            Ok(None)
        }
        None => {
            let place = place_of(frames.as_slice());
            Ok(Some(format!(in alloc; "call at {place}")?))
        }
    }
}

/// The end of the innermost frame by a value.
fn returned(
    alloc: Global,
    frames: &mut Vec<HostFrame>,
    value: HostValue,
) -> Result<Option<String>, AllocError> {
    drop(frames.pop());
    if frames.is_empty() {
        return Ok(Some(format!(in alloc; "done")?));
    }
    supply(frames, value);
    Ok(None)
}

/// The end of the innermost frame by an exception.
fn threw(
    alloc: Global,
    heap: &Heap,
    frames: &mut Vec<HostFrame>,
    value: HostValue,
) -> Result<Option<String>, AllocError> {
    drop(frames.pop());
    if frames.is_empty() {
        let text = shown(alloc, heap, &value)?;
        return Ok(Some(format!(in alloc; "uncaught: {text}")?));
    }
    throw(frames, value);
    Ok(None)
}

/// A line is printed.
fn printed(
    frames: &mut Vec<HostFrame>,
    transcript: &mut String,
    line: &str,
) -> Result<Option<String>, AllocError> {
    transcript.push_str(line)?;
    transcript.push_str("\n")?;
    supply(frames, HostValue::Undefined);
    Ok(None)
}

/// What an effect does, or the line that ends the run.
fn answer(
    alloc: Global,
    heap: &Heap,
    script: &Script,
    frames: &mut Vec<HostFrame>,
    transcript: &mut String,
    effect: HostEffect,
) -> Result<Option<String>, AllocError> {
    let place = place_of(frames.as_slice());
    match effect {
        HostEffect::Went => Ok(None),
        HostEffect::Print(line) => printed(frames, transcript, line.as_str()),
        HostEffect::Call { callee, args } => {
            enter(alloc, heap, script, frames, callee, args.as_slice())
        }
        HostEffect::Returned(value) => returned(alloc, frames, value),
        HostEffect::Threw(value) => threw(alloc, heap, frames, value),
        HostEffect::Refused(outside) => Ok(Some(refusal(alloc, outside)?)),
        HostEffect::New { class, args: _ } => {
            Ok(Some(format!(in alloc; "new {class:?} at {place}")?))
        }
        HostEffect::Method {
            object,
            name,
            args: _,
        } => Ok(Some(method(alloc, object, name.as_str(), place)?)),
        HostEffect::GetMember { object: _, key: _ } => {
            Ok(Some(format!(in alloc; "get at {place}")?))
        }
        HostEffect::SetMember {
            object: _,
            key: _,
            value: _,
        } => Ok(Some(format!(in alloc; "set at {place}")?)),
    }
}

/// A step of a run, or the line that ends it.
fn go(
    alloc: Global,
    heap: &mut Heap,
    script: &Script,
    frames: &mut Vec<HostFrame>,
    transcript: &mut String,
) -> Result<Option<String>, AllocError> {
    match step(alloc, heap, script, frames)? {
        Some(effect) => answer(alloc, heap, script, frames, transcript, effect),
        None => Ok(Some(format!(in alloc; "no frame goes on")?)),
    }
}

/// What a run prints, the line that ends it, and the units that it takes.
fn run(alloc: Global, heap: &mut Heap, script: &Script) -> Result<String, AllocError> {
    let mut transcript = String::new(alloc);
    let mut frames = Vec::new(alloc);
    let mut taken: u64 = 0;
    frames.push(HostFrame::top(alloc)?)?;
    for _ in 0..MOST_STEPS {
        taken = taken.saturating_add(charge(frames.as_slice(), script));
        if let Some(line) = go(alloc, heap, script, &mut frames, &mut transcript)? {
            return format!(in alloc; "{transcript}{line} [{taken}]");
        }
    }
    format!(in alloc; "{transcript}goes on")
}

/// A number of the small scripts here.
pub(crate) fn small(number: u64) -> u32 {
    if number < 1000 { number as u32 } else { 1000 }
}

/// The objects of the script's functions, each bound to its name.
pub(crate) fn bind_functions(
    alloc: Global,
    heap: &mut Heap,
    script: &Script,
) -> Result<(), AllocError> {
    let mut number: u64 = 0;
    for function in script.functions() {
        let object = heap.add(
            alloc,
            Kind::Function(Callee::Script {
                function: small(number),
                length: small(function.parameters),
            }),
        )?;
        if number < heap.bindings() as u64 {
            heap.bind(number, HostValue::Object(object));
        }
        number = number.saturating_add(1);
    }
    Ok(())
}

/// The tree of a script's text, where it is one.
pub(crate) fn tree(alloc: Global, text: &str) -> Option<Script> {
    if text.len() >= 10000 {
        return None;
    }
    match tokens(alloc, text) {
        Ok(found) => match parse(alloc, found.as_slice(), text.len() as u32) {
            Ok(script) => Some(script),
            Err(_) => None,
        },
        Err(_) => None,
    }
}

/// What a script's run tells.
pub(crate) fn told(alloc: Global, text: &str) -> Result<String, AllocError> {
    match tree(alloc, text) {
        Some(script) => {
            let mut heap = Heap::new(alloc, small(script.globals()))?;
            bind_functions(alloc, &mut heap, &script)?;
            run(alloc, &mut heap, &script)
        }
        None => format!(in alloc; "no script"),
    }
}

/// The frame of a script up to its first effect, where that prints: the line, and its place.
fn until_print(alloc: Global, heap: &mut Heap, script: &Script) -> Result<String, AllocError> {
    let mut frames = Vec::new(alloc);
    frames.push(HostFrame::top(alloc)?)?;
    for _ in 0..MOST_STEPS {
        match step(alloc, heap, script, &mut frames)? {
            Some(HostEffect::Went) => {}
            Some(HostEffect::Print(line)) => {
                let place = place_of(frames.as_slice());
                let line = line.as_str();
                return format!(in alloc; "{line} at {place}");
            }
            _ => return format!(in alloc; "another effect"),
        }
    }
    format!(in alloc; "goes on")
}

/// What a script prints first, and where.
pub(crate) fn first_print(alloc: Global, text: &str) -> Result<String, AllocError> {
    match tree(alloc, text) {
        Some(script) => {
            let mut heap = Heap::new(alloc, small(script.globals()))?;
            until_print(alloc, &mut heap, &script)
        }
        None => format!(in alloc; "no script"),
    }
}

/// The number of the first row whose run tells something that doesn't begin as it should, or how many rows there are.
pub(crate) fn right_rows(alloc: Global, rows: &[(&str, &str)]) -> Result<usize, AllocError> {
    let mut right: usize = 0;
    for (script, wanted) in rows {
        let found = told(alloc, *script)?;
        if !found.as_str().starts_with(*wanted) {
            break;
        }
        right = right.saturating_add(1);
    }
    Ok(right)
}
