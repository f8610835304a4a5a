ghost use Rattle.std.specs.Prelude.{◌≡◌, IfOk, map};
ghost use Rattle.wasm_syntax.specs.declared.value.Value.TheVariants as wasm;
ghost use Rattle.wasm_store.specs.Whole.{IsLater, AllHaveCode, HasSameCode};
ghost use Rattle.wasm_machine.specs.Entering.{CanEnter};
ghost use Rattle.embed_script.specs.Functions.{run, result_value, call_of};
ghost use Rattle.embed_script.specs.Serving.{IsCallable};
ghost use Rattle.embed_script.specs.Stops.{MeetsIn, MeetsInAs};
ghost use Rattle.embed_script.specs.Words.{results_in};

use crate::charge::{CALL, charge};
use crate::convert::words;
use crate::state::State;
use crate::stop::Stop;
use crate::value::Value;
use std::alloc::{AllocError, Global};
use wasm_calls::{Ending, Invoked, invoke};
use wasm_store::laws::order;
use wasm_syntax::{FuncAddr, Value as WasmValue};

/// Runs a function of a module on these arguments to its end.
pub(crate) fn run(
    alloc: Global,
    func: FuncAddr,
    args: &[WasmValue],
    state: &mut State,
) -> Result<Vec<WasmValue>, Stop>
    requires enters { CanEnter state.old.store func args.now }
    requires code { AllHaveCode state.old.store }
    ensures meets { MeetsInAs results_in result state.new (run func args.now state.old) }
    ensures later { IsLater state.old.store state.new.store }
    ensures same_code { HasSameCode state.old.store state.new.store }
{
    let Invoked { ending, left } = invoke(alloc, &mut state.store, func, args, state.left)?;
    match ending {
        Ending::Returned(values) => {
            state.left = left;
            Ok(values)
        }
        Ending::Trapped(_) => Err(Stop::RuntimeError),
        Ending::Exhausted => Err(Stop::RangeError),
        Ending::PastBudget { needs } => Err(Stop::Budget { needs, left }),
    }
}

/// Words as arguments.
fn arguments(alloc: Global, words: &[u32]) -> Result<Vec<WasmValue>, AllocError>
    ensures { IfOk result (λ args. args.items ≡ map wasm.I32 words.now) }
{
    words
        .iter()
        .map(|word| WasmValue::I32(*word))
        .collect(alloc)
}

/// A result, as a signed Number.
fn result_value(results: &[WasmValue]) -> Value
    ensures { result ≡ result_value results.now }
{
    match results {
        [WasmValue::I32(word), ..] => Value::Number(i64::from(word.cast_signed())),
        _ => Value::Number(0),
    }
}

/// A call with these arguments, at the place of its `(`.
pub(crate) fn call(
    alloc: Global,
    func: FuncAddr,
    place: u32,
    values: &[Value],
    state: &mut State,
) -> Result<Value, Stop>
    requires callable { IsCallable state.old.store func }
    requires code { AllHaveCode state.old.store }
    ensures meets { MeetsIn result state.new (call_of func place values.now state.old) }
    ensures later { IsLater state.old.store state.new.store }
    ensures same_code { HasSameCode state.old.store state.new.store }
{
    order();
    charge(CALL, state)?;
    let count = state.store.func(func).ty().params.len();
    let words = words(alloc, count, place, values)?;
    let args = arguments(alloc, words.as_slice())?;
    let results = run(alloc, func, args.as_slice(), state)?;
    Ok(result_value(results.as_slice()))
}
