//! What a run is at work on.

use host_parser::Script;
use iface_objects::Realm;
use jspi_stacks::Stack;
use promise_jobs::Promises;

/// The script, what the script and its modules share, the promises, the stack, and what is left of the budget.
#[derive(Drop)]
pub struct Machine {
    pub(crate) script: Script,
    pub(crate) realm: Realm,
    pub(crate) promises: Promises,
    pub(crate) stack: Stack,
    pub(crate) left: u64,
}
