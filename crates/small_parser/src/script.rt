ghost use Rattle.small_parser.specs.Shows.{IsTree};

use embed_base::{PlainList, PlainString};
use std::alloc::AllocError;
use thiserror::Error;

/// The number of a node in its script's table.
#[derive(Clone, Copy, PartialEq, Eq, Debug)]
pub struct NodeId(pub usize);

/// An operator between two operands.
#[derive(Clone, Copy, PartialEq, Eq, Debug)]
pub enum Operator {
    Plus,
    Minus,
    Times,
}

/// An operand of a chain, with the operator that follows it and that operator's place.
#[derive(Clone, Copy, PartialEq, Eq, Debug)]
pub struct Operand {
    pub node: NodeId,
    pub operator: Operator,
    pub place: u32,
}

/// What a node is. Operators of one level between operands make one chain: the operands that an operator follows, and
/// the last operand. Parentheses round an expression leave no node.
#[derive(Debug, Drop)]
pub enum Form {
    Number(u64),
    Text(PlainString),
    Name(PlainString),
    Chain(PlainList<Operand>, NodeId),
    /// `CALLEE(ARGUMENTS)`
    Call {
        callee: PlainString,
        arguments: PlainList<NodeId>,
    },
    /// `let NAME = VALUE;`
    Let {
        name: PlainString,
        value: NodeId,
    },
    /// `let NAME = new WebAssembly.Instance(new WebAssembly.Module(readbuffer("FILE"))).exports.EXPORT;`
    Bind {
        name: PlainString,
        file: PlainString,
        export: PlainString,
    },
    /// `print(ARGUMENTS);`
    Print {
        arguments: PlainList<NodeId>,
    },
}

/// A node, and its place: the byte of a chain's first operator, of a call's `(`, or of another form's first token.
#[derive(Debug, Drop)]
pub struct Node {
    pub form: Form,
    pub place: u32,
}

/// A script's tree: its statements in their order, the table of all nodes, and the length of its text. A node stands in
/// the table after its parts. The table is always that of a script of the grammar.
#[derive(Debug, Drop)]
pub struct Script {
    pub top: PlainList<NodeId>,
    pub nodes: PlainList<Node>,
    pub len: u32,
    pub ghost tree: { ∥ IsTree nodes top ∥₁ },
}

/// Why tokens are no script.
#[derive(Debug, Drop, Error)]
pub enum ParseError {
    #[error("the tokens aren't those of a script of the script form")]
    NotYet,
    #[error("out of memory")]
    NoMemory,
}

impl From<AllocError> for ParseError {
    ghost use Rattle.small_parser.specs.declared.script.ParseError.TheVariants.{NoMemory};
    ghost use Rattle.std.specs.Prelude.{◌≡◌};

    ghost from_gives = { λ _ e. e ≡ NoMemory };

    fn from(_: AllocError) -> Self {
        ParseError::NoMemory
    }
}
