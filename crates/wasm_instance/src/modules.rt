//! The instantiation as a whole.

ghost use Rattle.std.specs.Prelude.{◌≡◌, ◌<◌, [], length, IfOk, OnErr};
ghost use Rattle.wasm_store.specs.Store.{module_at};
ghost use Rattle.wasm_store.specs.Whole.{AllHaveCode, IsLater};
ghost use Rattle.wasm_store.specs.Allocated.{AreImports};
ghost use Rattle.wasm_instance.specs.Instantiation.{Instantiates};
ghost use Rattle.wasm_instance.specs.Laws.{IsThere};

use crate::allocate::{allocate, is_within_limits};
use crate::constants::imported_values;
use crate::segments::{start_of, write_segments};
use std::alloc::{AllocError, Global};
use wasm_store::laws::{indices, instances_stay, modules_are_allocated};
use wasm_store::{Instance, Store};
use wasm_syntax::{FuncAddr, InstAddr, ModuleAddr, Trap};

/// What an instantiation comes to.
#[derive(Clone, Copy, PartialEq, Eq, Debug)]
pub enum Instantiated {
    /// The new instance, and its start function, which the caller is to call.
    Ready {
        instance: InstAddr,
        start: Option<FuncAddr>,
    },
    /// A segment doesn't fit where it is written. What earlier ones wrote stays.
    Trapped(Trap),
    /// A table or a memory would be larger than the embedding allows, or all memories together would be. Nothing has changed.
    PastLimit,
}

/// Instantiates the module at `a`, whose imports are at the addresses that the lists of `imports` have.
pub fn instantiate(
    alloc: Global,
    store: &mut Store,
    a: ModuleAddr,
    imports: &Instance,
) -> Result<Instantiated, AllocError>
    requires live { a.0 < length store.old.modules }
    requires imports { AreImports store.old (module_at store.old a) imports.now }
    ensures ends { IfOk result (λ r. Instantiates a imports.now store.old r store.new) }
    ensures there { IfOk result (λ r. IsThere a imports.now store.old r store.new) }
    ensures code { IfOk result (λ r. AllHaveCode store.old → AllHaveCode store.new) }
    ensures later { IsLater store.old store.new }
{
    modules_are_allocated();
    instances_stay();
    indices();
    store.whole();
    if !is_within_limits(store, store.module(a).module()) {
        return Ok(Instantiated::PastLimit);
    }
    let values = imported_values(alloc, store, imports.globals.as_slice())?;
    let instance = allocate(alloc, store, a, imports, values.as_slice())?;
    match write_segments(store, instance, values.as_slice()) {
        Ok(()) => Ok(Instantiated::Ready {
            instance,
            start: start_of(store, instance),
        }),
        Err(trap) => Ok(Instantiated::Trapped(trap)),
    }
}
