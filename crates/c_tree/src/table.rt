//! The rows of a module's tables, which tell a simulator what the module is before it runs it.
use va_base::{Items, Name};

/// An unknown and its row of the equations (`OsdiNode`). Its number is its place in the list.
#[derive(Drop)]
pub struct NodeRow {
    pub name: Name,
    /// The unit of the unknown.
    pub units: Name,
    /// The unit of its residual.
    pub residual_units: Name,
    /// 1 for the flow of a potential branch, and 0 for a node.
    pub is_flow: u32,
}

/// A listed entry of the Jacobian (`OsdiJacobianEntry`): the numbers of its row and its column, and which parts it has.
#[derive(Clone, Copy, Debug, PartialEq, Eq)]
pub struct EntryRow {
    pub row: u32,
    pub col: u32,
    pub resist: bool,
    pub react: bool,
}

/// Two unknowns that may collapse into one (`OsdiNodePair`), or one that may collapse into the reference node.
#[derive(Clone, Copy, Debug, PartialEq, Eq)]
pub struct PairRow {
    pub first: u32,
    pub second: Option<u32>,
}

/// A parameter or an operating-point variable (`OsdiParamOpvar`). Its id is its place in the list.
#[derive(Drop)]
pub struct ParamRow {
    /// Its own name, and then its aliases.
    pub names: Items<Name>,
    pub description: Name,
    pub units: Name,
    pub integer: bool,
    pub kind: ParamKind,
}

/// Whose a number is.
#[derive(Clone, Copy, Debug, PartialEq, Eq)]
pub enum ParamKind {
    /// A parameter of an instance.
    Inst,
    /// A parameter of the model alone.
    Model,
    /// An operating-point variable.
    Opvar,
}

/// A field of one of the two structs: its name in C, and whether it is an `int32_t` or a `double`.
#[derive(Drop)]
pub struct FieldRow {
    pub name: Name,
    pub integer: bool,
}
