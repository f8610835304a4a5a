//! How a run begins.
ghost use Rattle.std.specs.Prelude.{◌≡◌, ◌<◌, ◌^◌, [], None, IfOk, OnOk};
ghost use Rattle.embed_run.specs.Configurations as spec;
ghost use Rattle.embed_run.specs.Worlds.{configuration_of};

use crate::machine::Machine;
use embed_base::PlainList;
use host_machine::HostFrame;
use host_nodes::Function;
use host_parser::Script;
use host_values::{Callee, Heap, HostValue, Kind};
use iface_caches::Caches;
use iface_objects::{ModuleFile, Realm};
use jspi_stacks::{Frame, Stack};
use promise_jobs::Promises;
use std::alloc::{AllocError, Global};
use wasm_store::Store;

/// A number as one of 32 bits. The numbers of a script are smaller than its text.
fn short(number: u64) -> Result<u32, AllocError>
    ensures { IfOk result (λ n. n ≡ number) }
{
    match u32::try_from(number) {
        Ok(short) => Ok(short),
        Err(_) => Err(AllocError),
    }
}

/// A function of the script as an object, at its binding.
fn add_function(
    alloc: Global,
    heap: &mut Heap,
    number: u64,
    function: &Function,
) -> Result<(), AllocError>
    ensures made { OnOk result (heap.new ≡ spec.with_function number function.now heap.old) }
    ensures small { OnOk result (number < 2 ^ 32) }
{
    let callee = Callee::Script {
        function: short(number)?,
        length: short(function.parameters)?,
    };
    let object = heap.add(alloc, Kind::Function(callee))?;
    if number < heap.bindings() as u64 {
        heap.bind(number, HostValue::Object(object));
    }
    Ok(())
}

/// The functions of the script as objects, each at its binding.
fn add_functions(alloc: Global, heap: &mut Heap, functions: &[Function]) -> Result<(), AllocError>
    ensures { OnOk result (heap.new ≡ spec.with_functions 0 functions.now heap.old) }
{
    let mut number = 0;
    for function in functions {
        add_function(alloc, heap, number, function)?;
        number += 1;
    }
    Ok(())
}

/// The heap before the first statement.
fn heap(alloc: Global, script: &Script) -> Result<Heap, AllocError>
    ensures { IfOk result (λ h. h ≡ spec.starting_heap script.now) }
{
    let mut heap = Heap::new(alloc, short(script.globals())?)?;
    add_functions(alloc, &mut heap, script.functions())?;
    Ok(heap)
}

impl Machine {
    /// A script before its first statement, with these files and this budget. Of two files with one name the first counts.
    pub fn new(
        alloc: Global,
        script: Script,
        files: PlainList<ModuleFile>,
        budget: u64,
    ) -> Result<Machine, AllocError>
        ensures stands { IfOk result (λ m. configuration_of m None [] ≡ spec.starting script files budget) }
        ensures script { IfOk result (λ m. m.script ≡ script) }
    {
        let realm = Realm {
            heap: heap(alloc, &script)?,
            store: Store::new(alloc),
            caches: Caches::new(alloc),
            buffers: PlainList::new(alloc),
            files,
        };
        let mut stack = Stack::new(alloc);
        stack.push(Frame::Host(HostFrame::top(alloc)?))?;
        Ok(Machine {
            script,
            realm,
            promises: Promises::new(alloc),
            stack,
            left: budget,
        })
    }
}
