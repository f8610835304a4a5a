//! The nodes of a script's tree.

use embed_base::{PlainList, SharedString};

/// The number of a node in its script's table.
#[derive(Clone, Copy, PartialEq, Eq, Debug)]
pub struct NodeId(pub u64);

/// The number of a reference to a name, in the order of the text.
#[derive(Clone, Copy, PartialEq, Eq, Debug)]
pub struct ReferenceId(pub u64);

/// An operator between two operands (ECMA-262, sections 13.7 to 13.13).
#[derive(Clone, Copy, PartialEq, Eq, Debug)]
pub enum BinaryOperator {
    Times,
    Divided,
    Remainder,
    Plus,
    Minus,
    Less,
    Greater,
    LessEquals,
    GreaterEquals,
    StrictEquals,
    StrictNotEquals,
    And,
    Or,
}

/// An operator before its operand (section 13.5).
#[derive(Clone, Copy, PartialEq, Eq, Debug)]
pub enum PrefixOperator {
    Negative,
    Not,
    TypeOf,
}

/// An operand of a chain, with the operator that follows it and that operator's place.
#[derive(Clone, Copy, PartialEq, Eq, Debug)]
pub struct Operand {
    pub node: NodeId,
    pub operator: BinaryOperator,
    pub place: u32,
}

/// How a property of an object literal is written: after a name or a reserved word, after a text, or as a name alone, whose
/// value is that name's.
#[derive(Debug, Drop)]
pub enum Key {
    Word(SharedString),
    Text(SharedString),
    Alone(SharedString),
}

/// A property of an object literal: its key, the key's place, and the node of its value.
#[derive(Debug, Drop)]
pub struct Property {
    pub key: Key,
    pub place: u32,
    pub value: NodeId,
}

/// A name that is declared, and the node of its first value where there is one.
#[derive(Clone, Copy, PartialEq, Eq, Debug)]
pub struct Declaration {
    pub name: NodeId,
    pub value: Option<NodeId>,
}

/// What a node is. Parentheses round an expression leave no node. Operators of one level between operands make one chain: the
/// operands that an operator follows, and the last one.
#[derive(Debug, Drop)]
pub enum Form {
    Undefined,
    Null,
    Boolean(bool),
    Number(u64),
    BigInt(u128),
    Text(SharedString),
    /// A name that is read, written or declared.
    Name {
        text: SharedString,
        reference: ReferenceId,
    },
    Array(PlainList<NodeId>),
    Object(PlainList<Property>),
    /// `OBJECT.KEY`
    Member {
        object: NodeId,
        key: SharedString,
    },
    /// `OBJECT[KEY]`
    Index {
        object: NodeId,
        key: NodeId,
    },
    /// `CALLEE(ARGUMENTS)`
    Call {
        callee: NodeId,
        arguments: PlainList<NodeId>,
    },
    /// `new CLASS(ARGUMENTS)`, where the class is a name or a member.
    New {
        class: NodeId,
        arguments: PlainList<NodeId>,
    },
    Prefix {
        operator: PrefixOperator,
        operand: NodeId,
    },
    Chain {
        operands: PlainList<Operand>,
        last: NodeId,
    },
    /// `;`
    Empty,
    /// `{ ITEMS }`, with the number of names that it declares: of a function's body with its parameters, of a catch's block with
    /// its name.
    Block {
        names: u64,
        items: PlainList<NodeId>,
    },
    /// `VALUE;`
    Expression(NodeId),
    /// `TARGET = VALUE;`, where the target is a name or a member.
    Assign {
        target: NodeId,
        value: NodeId,
    },
    /// `if (TEST) THEN`
    If {
        test: NodeId,
        then: NodeId,
    },
    /// `if (TEST) THEN else OTHER`
    IfElse {
        test: NodeId,
        then: NodeId,
        other: NodeId,
    },
    While {
        test: NodeId,
        body: NodeId,
    },
    Break,
    Continue,
    Return(Option<NodeId>),
    Throw(NodeId),
    /// `try BODY catch (NAME) HANDLER`, both blocks; `caught` tells whether there is a name, which is then the first of those that the
    /// handler declares.
    Try {
        body: NodeId,
        caught: bool,
        handler: NodeId,
    },
    Let(PlainList<Declaration>),
    Const(PlainList<Declaration>),
}

/// A node, and its place: of a statement and an operand its first token, of a chain its first operator, of a prefix its operator,
/// of a member its `.` or `[`, of a call and `new` the `(` of its arguments.
#[derive(Debug, Drop)]
pub struct Node {
    pub form: Form,
    pub place: u32,
}

/// How a name is declared.
#[derive(Clone, Copy, PartialEq, Eq, Debug)]
pub enum Declares {
    /// A function of the script.
    Function,
    /// `let`, a parameter, or the name of a `catch`.
    Variable,
    Constant,
}

/// A name that a scope declares, with its place.
#[derive(Debug, Drop)]
pub struct Declared {
    pub name: SharedString,
    pub place: u32,
    pub declares: Declares,
}

/// What stands in a script in the order of its text, as far as names go: a scope begins, a name is referred to, or a scope ends, with the
/// names that it declares.
#[derive(Debug, Drop)]
pub enum Mention {
    Begins,
    Name(SharedString),
    Ends(PlainList<Declared>),
}

/// A function of a script: its name, the place of its word `function`, how many parameters it has, which are the first names that its
/// body declares, and its body, a block.
#[derive(Debug, Drop)]
pub struct Function {
    pub name: SharedString,
    pub place: u32,
    pub parameters: u64,
    pub body: NodeId,
}
