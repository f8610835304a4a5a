//! Entries that are put on top and taken off.

use embed_base::PlainList;
use host_machine::HostFrame;
use host_values::ObjId;
use jspi_stacks::{Frame, Mark, Stack};
use std::alloc::{AllocError, Global};
use std::test::Fail;

/// A letter for an entry.
fn letter(frame: Option<&Frame>) -> &'static str {
    match frame {
        Some(Frame::Host(_)) => "h",
        Some(Frame::Wasm(_)) => "w",
        Some(Frame::Mark(Mark::Call)) => "c",
        Some(Frame::Mark(Mark::Start { .. })) => "s",
        Some(Frame::Mark(_)) => "m",
        None => "-",
    }
}

/// The topmost entry, how many entries there are, and how many functions are running.
fn told(alloc: Global, stack: &Stack, text: &mut String) -> Result<(), AllocError> {
    let top = letter(stack.top());
    let entries = stack.frames().len();
    let running = stack.activations();
    let line = format!(in alloc; "{top}{entries}{running} ")?;
    text.push_str(line.as_str())
}

/// Entries go on top one after the other, and come off again in the other order.
fn grown_and_shrunk(alloc: Global) -> Result<String, AllocError> {
    let mut text = String::new(alloc);
    let mut stack = Stack::new(alloc);
    told(alloc, &stack, &mut text)?;
    stack.push(Frame::Host(HostFrame::top(alloc)?))?;
    told(alloc, &stack, &mut text)?;
    stack.push(Frame::Host(HostFrame::top(alloc)?))?;
    told(alloc, &stack, &mut text)?;
    stack.push(Frame::Mark(Mark::Call))?;
    told(alloc, &stack, &mut text)?;
    stack.push(Frame::Mark(Mark::Start { instance: ObjId(3) }))?;
    told(alloc, &stack, &mut text)?;
    stack.push(Frame::Mark(Mark::HostIn {
        results: PlainList::new(alloc),
    }))?;
    told(alloc, &stack, &mut text)?;
    stack.push(Frame::Host(HostFrame::top(alloc)?))?;
    told(alloc, &stack, &mut text)?;
    for _ in 0..8 {
        drop(stack.pop());
        told(alloc, &stack, &mut text)?;
    }
    Ok(text)
}

#[test]
fn entries(rt: HostRuntime) -> Result<(), Fail> {
    let text = grown_and_shrunk(rt.alloc())?;
    assert_eq!(rt;
        text.as_str(),
        "-00 h10 h21 c31 s41 m51 h62 m51 s41 c31 h21 h10 -00 -00 -00 "
    );
    Ok(())
}
