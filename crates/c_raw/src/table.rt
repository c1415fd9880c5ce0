//! The elements of a module's tables.
use crate::token::At;
use c_tree::{CField, ParamKind};
use va_base::{Items, Name};

/// An element of the nodes (`OsdiNode`), with the two fields whose offsets it names.
#[derive(Drop)]
pub struct RawNode {
    pub name: Name,
    pub units: Name,
    pub residual_units: Name,
    pub resist: At<CField>,
    pub react: At<CField>,
    pub is_flow: u32,
}

/// A pair of nodes (`OsdiNodePair`). None is `UINT32_MAX`.
#[derive(Clone, Copy, Debug, PartialEq, Eq)]
pub struct RawPair {
    pub first: At<u32>,
    pub second: At<Option<u32>>,
}

/// An element of the entries (`OsdiJacobianEntry`). The offset of the reactive part stands at its first token: None is
/// `UINT32_MAX`, and of `offsetof ( inst_0 , jq [ 1u ] )` the number stands six tokens further.
#[derive(Clone, Copy, Debug, PartialEq, Eq)]
pub struct RawEntry {
    pub pair: RawPair,
    pub react_offset: At<Option<u32>>,
    pub resist: bool,
    pub react: bool,
}

/// An element of the parameters (`OsdiParamOpvar`): its own name and its aliases, and their number as it is written.
#[derive(Drop)]
pub struct RawParam {
    pub names: Items<Name>,
    pub num_alias: At<u32>,
    pub description: Name,
    pub units: Name,
    pub integer: bool,
    pub kind: At<ParamKind>,
}
