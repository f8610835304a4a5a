//! How a frame begins.
ghost use Rattle.std.specs.Prelude.{◌≡◌, IfOk, slice_get};
ghost use Rattle.std.specs.Option.{unwrap_or};
ghost use Rattle.host_machine.specs.Frames as spec;

use crate::focus::Focus;
use crate::frame::HostFrame;
use crate::item::{Item, Sequence};
use crate::nodes;
use crate::parts::add_unset;
use host_nodes::Function;
use host_parser::Script;
use host_values::HostValue;
use std::alloc::{AllocError, Global};

/// The argument with this number, undefined where it is missing.
fn argument(args: &[HostValue], index: u64) -> Result<HostValue, AllocError>
    ensures { IfOk result (λ v. v ≡ unwrap_or (slice_get args.now index) HostValue.Undefined) }
{
    match args.get(index as usize) {
        Some(value) => Ok(value.clone()?),
        None => Ok(HostValue::Undefined),
    }
}

/// The bindings of so many parameters.
#[tactic(auto, using(crate::proofs::Lists::parameters_more))]
fn parameters(
    alloc: Global,
    count: u64,
    args: &[HostValue],
) -> Result<Vec<Option<HostValue>>, AllocError>
    ensures { IfOk result (λ v. v.items ≡ spec.parameters count args.now) }
{
    let mut locals = Vec::new(alloc);
    for index in 0..count {
        let value = argument(args, index)?;
        locals.push(Some(value))?;
    }
    Ok(locals)
}

/// The frame of a list of statements, with these bindings.
fn frame(
    alloc: Global,
    sequence: Sequence,
    locals: Vec<Option<HostValue>>,
) -> Result<HostFrame, AllocError>
    ensures { IfOk result (λ f. f ≡ spec.frame_of sequence locals.items) }
{
    let mut items = Vec::new(alloc);
    items.push(Item::List {
        sequence,
        next: 0,
        outer: 0,
    })?;
    Ok(HostFrame {
        items,
        focus: Focus::Done,
        locals,
    })
}

/// The frame of a function.
fn function_frame(
    alloc: Global,
    script: &Script,
    function: &Function,
    args: &[HostValue],
) -> Result<HostFrame, AllocError>
    ensures { IfOk result (λ f. f ≡ spec.function_frame script.now function.now args.now) }
{
    let mut locals = parameters(alloc, function.parameters, args)?;
    let names = nodes::names(script, function.body);
    add_unset(&mut locals, names.saturating_sub(function.parameters))?;
    frame(alloc, Sequence::Block(function.body), locals)
}

impl HostFrame {
    /// The frame of the script itself, before its first statement.
    pub fn top(alloc: Global) -> Result<HostFrame, AllocError>
        ensures { IfOk result (λ f. f ≡ spec.top_frame) }
    {
        frame(alloc, Sequence::Top, Vec::new(alloc))
    }

    /// The frame of a call of the script's function with this number (ECMA-262, section 10.2.1). A missing argument is undefined, and no
    /// more are taken than there are parameters. A number of no function gives a frame that ends at once.
    pub fn call(
        alloc: Global,
        script: &Script,
        function: u32,
        args: &[HostValue],
    ) -> Result<HostFrame, AllocError>
        ensures { IfOk result (λ f. f ≡ spec.call_frame script.now function args.now) }
    {
        match script.functions().get(function as usize) {
            Some(found) => function_frame(alloc, script, found, args),
            None => Ok(HostFrame {
                items: Vec::new(alloc),
                focus: Focus::Done,
                locals: Vec::new(alloc),
            }),
        }
    }
}
