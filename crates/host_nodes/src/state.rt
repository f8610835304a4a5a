use crate::form::{
    BinaryOperator, Declaration, Declared, Function, Key, NodeId, Operand, PrefixOperator, Property,
};
use crate::stack::Stack;
use embed_base::{PlainList, SharedString};

/// A prefix operator that waits for its operand.
#[derive(Clone, Copy)]
pub struct Prefixed {
    pub operator: PrefixOperator,
    pub place: u32,
}

/// An operator between two operands, with its rank: the tighter it binds, the lower.
#[derive(Clone, Copy)]
pub struct Ranked {
    pub rank: u8,
    pub operator: BinaryOperator,
}

/// The operands of a chain that goes on; the tighter its operators bind, the lower its rank.
#[derive(Drop)]
pub struct Group {
    pub rank: u8,
    pub operands: PlainList<Operand>,
}

/// What stands before an operand in its expression: chains that go on, the tightest on top, prefix operators, the innermost on
/// top, and the place of the first token.
#[derive(Drop)]
pub struct Level {
    pub groups: Stack<Group>,
    pub prefixes: Stack<Prefixed>,
    pub first: Option<u32>,
}

/// An object literal so far, and what stands before it.
#[derive(Drop)]
pub struct ObjectSoFar {
    pub place: u32,
    pub properties: PlainList<Property>,
    pub level: Level,
}

/// The items of a scope so far, the place of its `{`, and the names that it declares.
#[derive(Drop)]
pub struct Scope {
    pub place: u32,
    pub declared: PlainList<Declared>,
    pub items: PlainList<NodeId>,
}

/// What a scope is part of.
#[derive(Drop)]
pub enum Owner {
    Script {
        functions: PlainList<Function>,
    },
    Block,
    Try {
        place: u32,
    },
    Catch {
        place: u32,
        body: NodeId,
        caught: bool,
    },
    Function {
        name: SharedString,
        place: u32,
        parameters: u64,
    },
}

/// What is open.
#[derive(Drop)]
pub enum Item {
    Paren {
        level: Level,
    },
    Index {
        object: NodeId,
        place: u32,
        level: Level,
    },
    Call {
        callee: NodeId,
        place: u32,
        arguments: PlainList<NodeId>,
        level: Level,
    },
    Array {
        place: u32,
        elements: PlainList<NodeId>,
        level: Level,
    },
    New {
        class: NodeId,
        place: u32,
        arguments: PlainList<NodeId>,
        level: Level,
    },
    Object {
        object: ObjectSoFar,
    },
    /// A property whose key is read.
    Keyed {
        object: ObjectSoFar,
        key: Key,
        place: u32,
    },
    Expression,
    Assign {
        target: NodeId,
        place: u32,
    },
    /// The test of an `if` or a `while`.
    IfTest {
        place: u32,
    },
    WhileTest {
        place: u32,
    },
    Return {
        place: u32,
    },
    Throw {
        place: u32,
    },
    /// The value of a name that is declared, and the declarations before it.
    Let {
        place: u32,
        told: PlainList<Declaration>,
        name: NodeId,
    },
    Const {
        place: u32,
        told: PlainList<Declaration>,
        name: NodeId,
    },
    /// The statement of an `if`, of an `else` and of a `while`.
    Then {
        place: u32,
        test: NodeId,
    },
    Else {
        place: u32,
        test: NodeId,
        then: NodeId,
    },
    Body {
        place: u32,
        test: NodeId,
    },
    Scope {
        scope: Scope,
        owner: Owner,
    },
    /// A `try` whose block is read, with the name of its `catch` once that is read.
    Tried {
        place: u32,
        body: NodeId,
        declared: PlainList<Declared>,
    },
    /// A function's name and parameters.
    Head {
        name: SharedString,
        place: u32,
        declared: PlainList<Declared>,
    },
}

/// What stands before the next token, with the places that are needed later.
#[derive(Clone, Copy)]
pub enum At {
    Want,
    Have,
    Dotted(u32),
    Argument,
    Element,
    Given,
    NewBegun,
    NewNamed,
    NewDotted(u32),
    Property,
    NamedKey,
    OtherKey,
    Items,
    Begun,
    Complete,
    IfBegun(u32),
    WhileBegun(u32),
    BreakBegun(u32),
    ContinueBegun(u32),
    ReturnBegun(u32),
    ThrowBegun(u32),
    TryBegun(u32),
    TryRead,
    CatchBegun,
    CatchOpened,
    CatchNamed,
    CatchClosed,
    LetBegun(u32),
    LetNamed(u32),
    ConstBegun(u32),
    ConstNamed(u32),
    FunctionBegun(u32),
    FunctionNamed,
    Parameter,
    ParameterRead,
    ParametersRead,
}
