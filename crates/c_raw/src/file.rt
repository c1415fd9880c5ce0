//! Files, modules and descriptors.
use crate::body::RawStatement;
use crate::load::RawLoads;
use crate::table::{RawEntry, RawNode, RawPair, RawParam};
use crate::token::At;
use alg_laws::Ty;
use c_tree::{CAtom, CCell, CField};
use va_base::{Items, Name};

/// A C text: its modules in order, the number of descriptors that it writes (`OSDI_NUM_DESCRIPTORS`), and its descriptors.
#[derive(Drop)]
pub struct RawFile {
    pub modules: Items<RawModule>,
    pub num_descriptors: At<u32>,
    pub descriptors: Items<RawDescriptor>,
}

/// A module: its structs, functions and tables.
#[derive(Drop)]
pub struct RawModule {
    /// The module's number in each C name that has one, calls of functions among them, in the order of the text.
    pub numbers: Items<At<u32>>,
    pub model_fields: Items<RawField>,
    pub sizes: RawSizes,
    pub inst_fields: Items<RawField>,
    pub functions: Items<RawFunction>,
    pub access: Items<RawAccess>,
    /// The set-up of the model: the statements of its block, the last of which is its `End`.
    pub setup_model: Items<RawStatement>,
    /// The set-up of an instance, likewise.
    pub setup_instance: Items<RawStatement>,
    /// The evaluation, likewise. Its `End` stands behind `return 0u ;`.
    pub eval: Items<RawStatement>,
    pub loads: RawLoads,
    pub nodes: Items<RawNode>,
    pub entries: Items<RawEntry>,
    pub collapse: Items<RawPair>,
    pub params: Items<RawParam>,
}

/// A field of one of the two structs, at its name.
#[derive(Clone, Copy, Debug, PartialEq, Eq)]
pub struct RawField {
    pub ty: Ty,
    pub field: At<CField>,
}

/// The sizes of the arrays `node`, `jr`, `jq` and `col` of the instance, as they are written.
#[derive(Clone, Copy, Debug, PartialEq, Eq)]
pub struct RawSizes {
    pub node: At<u32>,
    pub jr: At<u32>,
    pub jq: At<u32>,
    pub col: At<u32>,
}

/// A function: `static double fn_0_1 ( double a0 , int32_t a1 ) { .. return v1 ; }`.
#[derive(Drop)]
pub struct RawFunction {
    /// The second number of its name, with the index of the name.
    pub number: At<u32>,
    pub result: Ty,
    pub arguments: Items<RawArgument>,
    /// The statements of its block, the last of which is its `End`. It stands behind `return v1 ;`.
    pub body: Items<RawStatement>,
    pub value: At<CAtom>,
}

/// An argument of a function: its type, and the number in its name.
#[derive(Clone, Copy, Debug, PartialEq, Eq)]
pub struct RawArgument {
    pub ty: Ty,
    pub number: At<u32>,
}

/// A row of the access function. A cell stands at `inst` or `model`.
#[derive(Clone, Copy, Debug, PartialEq, Eq)]
pub struct RawAccess {
    pub id: At<u32>,
    pub instance: bool,
    pub flag: Option<At<CCell>>,
    pub cell: At<CCell>,
}

/// A descriptor (`OsdiDescriptor`), with the numbers that it writes.
#[derive(Drop)]
pub struct RawDescriptor {
    /// The module's number in each C name, in the order of the text.
    pub numbers: Items<At<u32>>,
    pub name: Name,
    pub num_nodes: At<u32>,
    pub num_terminals: At<u32>,
    pub num_entries: At<u32>,
    pub num_collapsible: At<u32>,
    pub num_params: At<u32>,
    pub num_instance_params: At<u32>,
    pub num_opvars: At<u32>,
}
