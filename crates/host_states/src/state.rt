/// What is open around an operand: whether nothing stands before it in its expression, and how many constructs are open
/// around that expression and around the operand.
#[derive(Clone, Copy)]
pub struct Level {
    pub bare: bool,
    pub base: usize,
    pub depth: usize,
}

/// What is open around a statement: how many constructs, and whether a `while` or a function is among them.
#[derive(Clone, Copy)]
pub struct Around {
    pub depth: usize,
    pub in_loop: bool,
    pub in_function: bool,
}

/// Where in an expression the reader is. In a list or an object its item stands on top of the stack.
#[derive(Clone, Copy)]
pub enum InExpression {
    /// An operand is wanted.
    Want,
    /// An operand is read that can't be assigned to, or one that can.
    Have,
    Target,
    /// A name after `.` is wanted.
    Dotted,
    /// An expression or the end of a list in parentheses, brackets, or after `new`.
    Argument,
    Element,
    Given,
    /// `new`, its name, and a dot after it.
    NewBegun,
    NewNamed,
    NewDotted,
    /// A property or the object's end; after a name that may be a key or a property; after another key.
    Property,
    NamedKey,
    OtherKey,
}

/// Where among statements the reader is.
#[derive(Clone, Copy)]
pub enum InStatement {
    /// An item or the end of the items, a statement, and the place after one.
    Items,
    Begun,
    Complete,
    /// After the first tokens of a statement.
    IfBegun,
    WhileBegun,
    BreakBegun,
    ContinueBegun,
    ReturnBegun,
    ThrowBegun,
    TryBegun,
    TryRead,
    CatchBegun,
    CatchOpened,
    CatchNamed,
    CatchClosed,
    LetBegun,
    LetNamed,
    ConstBegun,
    ConstNamed,
}

/// Where in a function's head the reader is.
#[derive(Clone, Copy)]
pub enum InFunction {
    Begun,
    Named,
    Parameter,
    ParameterRead,
    ParametersRead,
}

/// Where the reader is.
#[derive(Clone, Copy)]
pub enum State {
    Expression(InExpression, Level),
    Statement(InStatement, Around),
    Function(InFunction),
}

/// What is open, with what is open around it.
#[derive(Clone, Copy)]
pub enum Open {
    Paren(Level),
    Index(Level),
    Call(Level),
    Array(Level),
    New(Level),
    Object(Level),
    Expression(Around),
    Assign(Around),
    If(Around),
    While(Around),
    Return(Around),
    Throw(Around),
    Let(Around),
    Const(Around),
    Then(Around),
    Else(Around),
    Body(Around),
    Block(Around),
    Try(Around),
    Catch(Around),
    Function,
}

/// What a token does: no script goes on so, it opens a construct too many, or the reader goes on.
#[derive(Clone, Copy)]
pub enum Move {
    Refused,
    TooDeep,
    Went,
}
