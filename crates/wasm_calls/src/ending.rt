//! How a call ends.

use wasm_syntax::{Trap, Value};

/// How a call ends.
#[derive(Debug, Drop)]
pub enum Ending {
    /// With these results, in the order of the function's type.
    Returned(Vec<Value>),
    Trapped(Trap),
    /// In a call that would have opened one frame more than 10,000, of which the embedder makes an exception.
    Exhausted,
    /// Before an instruction that takes more of the budget than is left.
    PastBudget { needs: u64 },
}

/// How a call ended, and what it left of the budget.
#[derive(Debug, Drop)]
pub struct Invoked {
    pub ending: Ending,
    pub left: u64,
}
