ghost use Rattle.std.specs.Prelude.{◌≡◌};
ghost use Rattle.embed_script.specs.Ends.{charge};
ghost use Rattle.embed_script.specs.Stops.{Leaves};

use crate::state::State;
use crate::stop::Stop;

/// The charge of a statement that is begun.
pub(crate) const STATEMENT: u64 = 1;

/// The charge of a call, and of `new`.
pub(crate) const CALL: u64 = 1;

/// Takes a charge of what is left of the budget, unless it is above that.
pub(crate) fn charge(needs: u64, state: &mut State) -> Result<(), Stop>
    ensures meets { Leaves result state.new (charge needs state.old) }
    ensures store { state.new.store ≡ state.old.store }
{
    if needs > state.left {
        return Err(Stop::Budget {
            needs,
            left: state.left,
        });
    }
    state.left -= needs;
    Ok(())
}
