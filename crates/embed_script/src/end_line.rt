ghost use Rattle.std.specs.Prelude.{◌≡◌, ◌++◌, OnOk, string_bytes};
ghost use Rattle.embed_script.specs.Ends.{outside, past_budget, compile_error, runtime_error, range_error};
ghost use Rattle.embed_script.specs.Outcome.{end_line, place_text};

use embed_base::{Outside, Place};
use std::alloc::AllocError;

/// Adds the text of a place.
fn add_place(text: &mut String, place: Place) -> Result<(), AllocError>
    ensures { OnOk result (string_bytes text.new ≡ string_bytes text.old ++ place_text place) }
{
    match place {
        Place::Script(byte) => write!(text, "{byte}"),
        Place::Module(byte) => write!(text, "module byte {byte}"),
    }
}

/// Adds the line that tells a named refusal.
pub(crate) fn add_refusal(text: &mut String, refusal: Outside) -> Result<(), AllocError>
    ensures { OnOk result (string_bytes text.new ≡ string_bytes text.old ++ end_line (outside refusal)) }
{
    text.push_str("outside: ")?;
    text.push_str(refusal.kind.name())?;
    text.push_str(" at ")?;
    add_place(text, refusal.place)?;
    text.push_str("\n")?;
    Ok(())
}

/// Adds the line that tells that bytes are no valid module.
pub(crate) fn add_compile_error(text: &mut String) -> Result<(), AllocError>
    ensures { OnOk result (string_bytes text.new ≡ string_bytes text.old ++ end_line compile_error) }
{
    text.push_str("uncaught: CompileError\n")
}

/// Adds the line that tells a trap.
pub(crate) fn add_runtime_error(text: &mut String) -> Result<(), AllocError>
    ensures { OnOk result (string_bytes text.new ≡ string_bytes text.old ++ end_line runtime_error) }
{
    text.push_str("uncaught: RuntimeError\n")
}

/// Adds the line that tells a call or a table past a limit.
pub(crate) fn add_range_error(text: &mut String) -> Result<(), AllocError>
    ensures { OnOk result (string_bytes text.new ≡ string_bytes text.old ++ end_line range_error) }
{
    text.push_str("uncaught: RangeError\n")
}

/// Adds the line that tells a charge above what was left of the budget.
pub(crate) fn add_charge(text: &mut String, needs: u64, left: u64) -> Result<(), AllocError>
    ensures { OnOk result (string_bytes text.new ≡ string_bytes text.old ++ end_line (past_budget needs left)) }
{
    writeln!(text, "budget: needs {needs}, left {left}")
}
