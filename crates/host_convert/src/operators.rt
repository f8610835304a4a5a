//! Operators between numbers.

/// The operators that take numbers alone (ECMA-262, sections 13.7 and 13.8.2).
#[derive(Clone, Copy, PartialEq, Eq, Debug)]
pub enum Arith {
    Sub,
    Mul,
    Div,
    Rem,
}

/// The relational operators (ECMA-262, section 13.10).
#[derive(Clone, Copy, PartialEq, Eq, Debug)]
pub enum Rel {
    Lt,
    Gt,
    Le,
    Ge,
}
