//! The source tree of a Verilog-A text: what the grammar keeps of it.
//!
//! A tree has each part in the order of the grammar's rows, and with each part the index of its first token in the expanded
//! token list, `at`. Comments, macros and directives are not in it, nor what has no effect: the optional `;` after the name
//! of a nature or discipline, the optional `:` after `default`, the parentheses round an excluded value, and empty
//! parentheses after the name of a module, of a task or of a system function.
#![tactic(auto)]

pub mod expr;
pub mod limit;
pub mod module;
pub mod name;
pub mod source;
pub mod stmt;
pub mod worked;

pub use expr::{Arg, BinaryOp, Callee, Expr, UnaryOp};
pub use module::{
    Bound, Declaration, Direction, FunctionItem, Interval, Item, ItemBody, Module, Parameter,
    Range, Ty, Variable,
};
pub use name::NameAt;
pub use source::{
    Attribute, AttributeGroup, Discipline, DisciplineItem, Nature, NatureItem, Quantity, Source,
};
pub use stmt::{Assignment, CaseDefault, CaseItem, EventKind, Stmt};
