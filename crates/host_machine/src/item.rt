//! What waits in a frame.

use crate::reference::{Base, Callable};
use embed_base::PlainList;
use host_nodes::NodeId;
use host_values::{HostValue, ObjId};

/// A list of statements: the script's own, or those of a block.
#[derive(Clone, Copy, PartialEq, Eq, Debug)]
pub enum Sequence {
    Top,
    Block(NodeId),
}

/// A statement or expression at work, but for the part that is at work within it: what it waits for comes from there. Its node is the
/// form itself, unless another one is named.
#[derive(Debug, Drop)]
pub enum Item {
    /// A list of statements, the number of the one that is next, and how many bindings there are outside of its block.
    List {
        sequence: Sequence,
        next: u64,
        outer: u64,
    },
    /// A statement whose expression's value is dropped.
    Expression,
    /// `if`, which waits for its test.
    If(NodeId),
    /// `while`, which waits for its test.
    Test(NodeId),
    /// `while`, which waits for the end of its body.
    Loop(NodeId),
    Return,
    Throw,
    /// `try`, which waits for the end of its first block.
    Try(NodeId),
    /// `let` or `const`, which waits for the first value of the name with this number.
    Declare {
        node: NodeId,
        index: u64,
    },
    /// An assignment to a name, whose node this is, which waits for the value.
    AssignName(NodeId),
    /// An assignment to a member, which waits for what the member is asked of.
    AssignObject(NodeId),
    /// An assignment to a computed member, which waits for its key.
    AssignKey {
        node: NodeId,
        base: Base,
    },
    /// An assignment to `OBJECT.KEY`, the node of which this is, which waits for the value.
    AssignMember {
        target: NodeId,
        base: Base,
    },
    /// An assignment to `OBJECT[KEY]`, the node of which this is, which waits for the value.
    AssignElement {
        target: NodeId,
        base: Base,
        key: HostValue,
    },
    /// A chain of operators, which waits for its first operand.
    Left(NodeId),
    /// A chain of operators, which waits for what stands behind the operator with this number.
    Right {
        node: NodeId,
        index: u64,
        left: HostValue,
    },
    /// An operator before its operand.
    Prefix(NodeId),
    /// An array literal with the elements so far.
    Elements {
        node: NodeId,
        done: PlainList<HostValue>,
    },
    /// An object literal, whose object is made, and which waits for the property with this number.
    Property {
        node: NodeId,
        index: u64,
        object: ObjId,
    },
    /// `OBJECT.KEY`, which waits for what it is asked of.
    Member(NodeId),
    /// `OBJECT[KEY]`, which waits for what it is asked of.
    IndexObject(NodeId),
    /// `OBJECT[KEY]`, which waits for its key.
    IndexKey {
        node: NodeId,
        base: Base,
    },
    /// A call or `new`, which waits for what is called.
    Callee(NodeId),
    /// A call or `new` with the arguments so far.
    Arguments {
        node: NodeId,
        callee: Callable,
        done: PlainList<HostValue>,
    },
}
