//! Modules and their items.
use crate::expr::Expr;
use crate::name::NameAt;
use crate::source::AttributeGroup;
use crate::stmt::Stmt;
use va_base::{Items, Name};

/// A type of values (Parameters).
#[derive(Clone, Copy, Debug, PartialEq, Eq)]
pub enum Ty {
    Integer,
    Real,
}

/// A direction of ports.
#[derive(Clone, Copy, Debug, PartialEq, Eq)]
pub enum Direction {
    Input,
    Output,
    Inout,
}

/// `module name(ports); items endmodule`, and the attributes before it. `at` is the index of the name.
#[derive(Debug, Drop)]
pub struct Module {
    pub attributes: Items<AttributeGroup>,
    pub at: u32,
    pub name: Name,
    pub ports: Items<NameAt>,
    pub items: Items<Item>,
}

/// An item of a module, and the attributes before it.
#[derive(Debug, Drop)]
pub struct Item {
    pub attributes: Items<AttributeGroup>,
    pub body: ItemBody,
}

/// An item without its attributes. `at` is the index of its first token.
#[derive(Debug, Drop)]
pub enum ItemBody {
    /// `inout discipline names;`, or another direction. The discipline may be missing.
    Direction {
        at: u32,
        direction: Direction,
        discipline: Option<NameAt>,
        names: Items<NameAt>,
    },
    /// `discipline names;`, which declares nodes.
    Nodes {
        at: u32,
        discipline: Name,
        names: Items<NameAt>,
    },
    /// `branch (first, second) names;`, or with one node in parentheses (Branches).
    Branch {
        at: u32,
        first: NameAt,
        second: Option<NameAt>,
        names: Items<NameAt>,
    },
    /// `parameter ty parameters;`, or `localparam` where it is local. The type may be missing (Parameters).
    Parameters {
        at: u32,
        local: bool,
        ty: Option<Ty>,
        parameters: Items<Parameter>,
    },
    /// `aliasparam name = target;` (Aliasparam)
    Alias {
        at: u32,
        name: NameAt,
        target: NameAt,
    },
    /// `real variables;` or `integer variables;`
    Variables(Declaration),
    /// `analog function ty name; items body endfunction`. The type may be missing (User-defined analog functions).
    Function {
        at: u32,
        ty: Option<Ty>,
        name: NameAt,
        items: Items<FunctionItem>,
        body: Stmt,
    },
    /// `analog body` (Analog procedural block)
    Analog {
        at: u32,
        body: Stmt,
    },
}

/// `name = default ranges` (Parameters).
#[derive(Debug, Drop)]
pub struct Parameter {
    pub name: NameAt,
    pub default: Expr,
    pub ranges: Items<Range>,
}

/// A condition on a parameter's value (Parameters).
#[derive(Debug, Drop)]
pub enum Range {
    /// `from`, with an interval
    From(Interval),
    /// `exclude`, with an interval
    ExcludeInterval(Interval),
    /// `exclude`, with one value, in parentheses or without
    ExcludeValue(Expr),
}

/// `[low : high]`, with a round bracket at an end that is open.
#[derive(Debug, Drop)]
pub struct Interval {
    pub low: Bound,
    pub high: Bound,
}

/// An end of an interval: closed where the interval has it, with a square bracket, else open.
#[derive(Debug, Drop)]
pub struct Bound {
    pub closed: bool,
    pub value: Expr,
}

/// `real variables;` or `integer variables;`. `at` is the index of its first token.
#[derive(Debug, Drop)]
pub struct Declaration {
    pub at: u32,
    pub ty: Ty,
    pub variables: Items<Variable>,
}

/// `name = initialiser`, or a name alone.
#[derive(Debug, Drop)]
pub struct Variable {
    pub name: NameAt,
    pub initialiser: Option<Expr>,
}

/// A declaration in a function (User-defined analog functions). `at` is the index of its first token.
#[derive(Debug, Drop)]
pub enum FunctionItem {
    /// `input names;`
    Input {
        at: u32,
        names: Items<NameAt>,
    },
    /// `real names;` or `integer names;`
    Variables {
        at: u32,
        ty: Ty,
        names: Items<NameAt>,
    },
}
