//! Statements (Analog procedural block).
use crate::expr::{Arg, Expr};
use crate::module::Declaration;
use crate::name::NameAt;
use sqlite_items::{Boxed, Items as Children};
use va_base::{Items, Name};

/// The event that a statement waits for (Events).
#[derive(Clone, Copy, Debug, PartialEq, Eq)]
pub enum EventKind {
    InitialStep,
    FinalStep,
}

/// `target = value` in the head of a `for` (Looping statements).
#[derive(Debug, Drop)]
pub struct Assignment {
    pub target: NameAt,
    pub value: Expr,
}

/// A statement. `at` is the index of its first token.
#[cycle(stmt)]
#[derive(Debug, Drop)]
pub enum Stmt {
    /// `;`
    Null {
        at: u32,
    },
    /// `begin : label declarations body end`. The label and its `:` may be missing (Block statements).
    Block {
        at: u32,
        label: Option<NameAt>,
        declarations: Items<Declaration>,
        body: Children<Stmt>,
    },
    /// `if (test) yes else no`. The `else` and its statement may be missing (Conditional statements).
    If {
        at: u32,
        test: Expr,
        yes: Boxed<Stmt>,
        no: Option<Boxed<Stmt>>,
    },
    /// `case (selector) items endcase` (Case statements). The defaults stand apart from the items, after them, wherever they
    /// stood among them. More than one is a fault that a later phase finds.
    Case {
        at: u32,
        selector: Expr,
        items: Children<CaseItem>,
        defaults: Children<CaseDefault>,
    },
    /// `for (first; test; step) body` (Looping statements)
    For {
        at: u32,
        first: Assignment,
        test: Expr,
        step: Assignment,
        body: Boxed<Stmt>,
    },
    /// `while (test) body` (Looping statements)
    While {
        at: u32,
        test: Expr,
        body: Boxed<Stmt>,
    },
    /// `repeat (count) body` (Looping statements)
    Repeat {
        at: u32,
        count: Expr,
        body: Boxed<Stmt>,
    },
    /// `@(event(analyses)) body`. The strings in parentheses are one or more, or there are neither (Events).
    Event {
        at: u32,
        event: EventKind,
        analyses: Items<NameAt>,
        body: Boxed<Stmt>,
    },
    /// `target = value;` (Analog procedural block)
    Assign {
        at: u32,
        target: Name,
        value: Expr,
    },
    /// `access(first, second) <+ value;`, or with one name in parentheses (Contribution statements).
    Contribute {
        at: u32,
        access: Name,
        first: NameAt,
        second: Option<NameAt>,
        value: Expr,
    },
    /// `name(args);`, with a system name, which stands with or without parentheses where it has no arguments (Simulation
    /// control and display tasks).
    Task {
        at: u32,
        name: Name,
        args: Items<Arg>,
    },
}

/// `values : body`, with one or more values. `at` is the index of the first value's first token.
#[cycle(stmt)]
#[derive(Debug, Drop)]
pub struct CaseItem {
    pub at: u32,
    pub values: Items<Expr>,
    pub body: Stmt,
}

/// `default : body`. `at` is the index of the word `default`.
#[cycle(stmt)]
#[derive(Debug, Drop)]
pub struct CaseDefault {
    pub at: u32,
    pub body: Stmt,
}
