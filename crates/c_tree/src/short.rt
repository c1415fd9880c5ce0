//! The short C file: for each module its two structs, its evaluation and the load of its resistive residuals.
use va_base::Items;

/// A short C file: its modules in order. A module's place is the number in its C names.
#[derive(Drop)]
pub struct ShortFile {
    pub modules: Items<ShortModule>,
}

/// What one module is printed from.
#[derive(Drop)]
pub struct ShortModule {
    /// How many unknowns there are, and rows: row i belongs to unknown i.
    pub unknowns: u32,
    /// How many parameters there are, in order of declaration.
    pub params: u32,
    /// The statements of the evaluation, in order.
    pub eval: Items<Statement>,
    /// The statements of the load, in order.
    pub loads: Items<Load>,
}

/// A statement of an evaluation.
#[derive(Clone, Copy, Debug, PartialEq, Eq)]
pub enum Statement {
    /// `const double vI = ..;`
    Declare { local: u32, right: Right },
    /// `inst -> word = ..;`
    Set { field: Field, value: Atom },
}

/// The right side of a declaration.
#[derive(Clone, Copy, Debug, PartialEq, Eq)]
pub enum Right {
    Same(Atom),
    Negated(Atom),
    Binary(Atom, Operator, Atom),
}

/// What stands where one value is wanted.
#[derive(Clone, Copy, Debug, PartialEq, Eq)]
pub enum Atom {
    /// A local of the evaluation.
    Local(u32),
    /// A field of the instance.
    Field(Field),
    /// The solution at the place to which this unknown is mapped.
    Unknown(u32),
}

/// A field of the instance that holds a real.
#[derive(Clone, Copy, Debug, PartialEq, Eq)]
pub enum Field {
    /// The value of a parameter.
    Param(u32),
    /// The resistive residual of a row.
    Row(u32),
}

/// An operator between two reals.
#[derive(Clone, Copy, Debug, PartialEq, Eq)]
pub enum Operator {
    Plus,
    Minus,
    Times,
    Over,
}

/// A statement of a load: it adds a row to the target of an unknown.
#[derive(Clone, Copy, Debug, PartialEq, Eq)]
pub struct Load {
    pub unknown: u32,
    pub row: u32,
}
