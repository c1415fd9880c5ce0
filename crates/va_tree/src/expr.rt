//! Expressions (Expressions).
use crate::name::NameAt;
use sqlite_items::{Boxed, Items as Children};
use va_base::{Decimal, Name};

/// A sign, or the logical not (Operators).
#[derive(Clone, Copy, Debug, PartialEq, Eq)]
pub enum UnaryOp {
    /// `+`
    Plus,
    /// `-`
    Minus,
    /// `!`
    Not,
}

/// An operator between two operands (Operators), by rising precedence.
#[derive(Clone, Copy, Debug, PartialEq, Eq)]
pub enum BinaryOp {
    /// `||`
    Or,
    /// `&&`
    And,
    /// `==`
    Equal,
    /// `!=`
    NotEqual,
    /// `<`
    Less,
    /// `<=`
    AtMost,
    /// `>`
    Greater,
    /// `>=`
    AtLeast,
    /// `+`
    Add,
    /// `-`
    Subtract,
    /// `*`
    Multiply,
    /// `/`
    Divide,
    /// `%`
    Remainder,
    /// `**`
    Power,
}

/// Which kind of name a call has.
#[derive(Clone, Copy, Debug, PartialEq, Eq)]
pub enum Callee {
    /// A word: a function, or an access to a branch.
    Function,
    /// A system name. It begins with `$`.
    System,
}

/// An expression. `at` is the index of its first token: for a binary operator and a choice that of the first operand.
#[cycle(expr)]
#[derive(Debug, Drop)]
pub enum Expr {
    /// A numeral: its exact value, and whether its type is integer, else it is real (Numbers).
    Literal {
        at: u32,
        value: Decimal,
        integer: bool,
    },
    /// `inf`
    Inf {
        at: u32,
    },
    /// A name without parentheses after it.
    Name {
        at: u32,
        name: Name,
    },
    /// `(inner)`
    Group {
        at: u32,
        inner: Boxed<Expr>,
    },
    /// A sign and its operand.
    Unary {
        at: u32,
        op: UnaryOp,
        operand: Boxed<Expr>,
    },
    /// `left op right`. Operators of one precedence associate to the left.
    Binary {
        at: u32,
        left: Boxed<Expr>,
        op: BinaryOp,
        right: Boxed<Expr>,
    },
    /// `test ? yes : no`
    Choose {
        at: u32,
        test: Boxed<Expr>,
        yes: Boxed<Expr>,
        no: Boxed<Expr>,
    },
    /// `name(args)`. A word has its parentheses; a system name stands with or without them where it has no arguments.
    Call {
        at: u32,
        callee: Callee,
        name: Name,
        args: Children<Arg>,
    },
}

/// An argument: a string or an expression.
#[cycle(expr)]
#[derive(Debug, Drop)]
pub enum Arg {
    Text(NameAt),
    Expr(Expr),
}
