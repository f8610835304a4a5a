//! What is at work in a frame.

use crate::completion::Completion;
use crate::reference::{Callable, Reference};
use embed_base::PlainList;
use host_nodes::NodeId;
use host_values::HostValue;

/// The place at work.
#[derive(Debug, Drop)]
pub enum Focus {
    /// A statement or expression that begins.
    Begin(NodeId),
    /// `let` or `const`, before the name with this number.
    Declares {
        node: NodeId,
        index: u64,
    },
    /// `while` whose test was true, before its body.
    Turn(NodeId),
    /// A call or `new` after its arguments.
    Calls {
        node: NodeId,
        callee: Callable,
        arguments: PlainList<HostValue>,
    },
    /// The value of an expression.
    Value(HostValue),
    /// What an expression refers to that is no value, and where it stands.
    Refers {
        reference: Reference,
        place: u32,
    },
    /// A statement that ended normally.
    Done,
    /// A statement that ended otherwise.
    Leaves(Completion),
    /// A hole: an effect was handed out here, and waits for its answer. Its place in the script stands beside it.
    Waits(u32),
}
