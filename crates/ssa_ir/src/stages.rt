//! What the passes hand on: bodies, with the numbers of the values that stand for something in them.
use crate::body::{Body, Function};
use alg_laws::Ty;
use va_base::Items;

/// A parameter in a body of set-up: its value, and whether that is out of range, where it has a range that is tested (Parameters).
#[derive(Clone, Copy, Debug, PartialEq, Eq)]
pub struct ParameterNumbers {
    pub value: u32,
    pub out_of_range: Option<u32>,
}

/// The set-up of the model or of an instance. Its body reads what was set for the parameters, and which of them were set.
#[derive(Debug, Drop)]
pub struct SetUp {
    pub body: Body,
    /// By the parameters, in order of declaration.
    pub parameters: Items<ParameterNumbers>,
}

/// What each stage has of a module besides its analogue blocks.
#[derive(Debug, Drop)]
pub struct ModuleBodies {
    /// The types of the parameters, in order of declaration.
    pub parameters: Items<Ty>,
    /// How many unknowns there are.
    pub unknowns: u32,
    /// Each calls earlier ones alone.
    pub functions: Items<Function>,
    pub model: SetUp,
    pub instance: SetUp,
}

/// What a collapsing branch has: whether it holds a potential, and its mark (Switch branches).
#[derive(Clone, Copy, Debug, PartialEq, Eq)]
pub struct Collapse {
    pub potential: u32,
    pub mark: u32,
}

/// What a branch holds after the analogue blocks: the sum of what was contributed to it (Contribution statements).
#[derive(Clone, Copy, Debug, PartialEq, Eq)]
pub struct BranchNumbers {
    pub sum: u32,
    pub collapse: Option<Collapse>,
}

/// The resistive part of a value, and the reactive part, which is 0 where there is none.
#[derive(Clone, Copy, Debug, PartialEq, Eq)]
pub struct Parts {
    pub resist: u32,
    pub react: Option<u32>,
}

/// What a branch holds, in two parts.
#[derive(Clone, Copy, Debug, PartialEq, Eq)]
pub struct BranchParts {
    pub sum: Parts,
    pub collapse: Option<Collapse>,
}

/// Both parts of an entry of the Jacobian, as far as they are listed.
#[derive(Clone, Copy, Debug, PartialEq, Eq)]
pub struct EntryParts {
    pub resist: Option<u32>,
    pub react: Option<u32>,
}

/// The collapse flags: a body that reads no unknown, and the marks of the collapsing branches in it, in order of branches.
#[derive(Debug, Drop)]
pub struct Flags {
    pub body: Body,
    pub marks: Items<u32>,
}

/// The analogue blocks as one body.
#[derive(Debug, Drop)]
pub struct Lowered {
    pub module: ModuleBodies,
    pub body: Body,
    /// The value of each variable behind the blocks.
    pub variables: Items<u32>,
    pub branches: Items<BranchNumbers>,
}

/// The same without time derivatives: each value in two parts.
#[derive(Debug, Drop)]
pub struct Split {
    pub module: ModuleBodies,
    pub body: Body,
    pub variables: Items<Parts>,
    pub branches: Items<BranchParts>,
}

/// The residuals of the unknowns' rows, the operating-point variables, and the collapse flags.
#[derive(Debug, Drop)]
pub struct Rows {
    pub module: ModuleBodies,
    pub body: Body,
    pub rows: Items<Parts>,
    pub operating_point: Items<u32>,
    pub flags: Flags,
}

/// The same with the listed entries of the Jacobian, in the order of the pattern.
#[derive(Debug, Drop)]
pub struct Derived {
    pub module: ModuleBodies,
    pub body: Body,
    pub rows: Items<Parts>,
    pub operating_point: Items<u32>,
    pub flags: Flags,
    pub entries: Items<EntryParts>,
}

/// The same with the values that the set-up of an instance computes and stores in cells for its evaluations.
#[derive(Debug, Drop)]
pub struct Staged {
    pub module: ModuleBodies,
    pub body: Body,
    pub rows: Items<Parts>,
    pub operating_point: Items<u32>,
    pub flags: Flags,
    pub entries: Items<EntryParts>,
    /// It reads parameters and the temperature alone.
    pub stored: Body,
    /// The types of the cells.
    pub cell_types: Items<Ty>,
    /// The numbers in `stored` of their values.
    pub cells: Items<u32>,
}
