//! C files and their modules. A file keeps what its text says and what does not follow from the rest: numbers in names, sizes of
//! arrays and numbers of elements follow.
use crate::body::{CAtom, CCell, CStatement};
use crate::load::CLoads;
use crate::table::{EntryRow, FieldRow, NodeRow, PairRow, ParamRow};
use alg_laws::Ty;
use va_base::{Items, Name};

/// A C file: its modules in order. A module's place is the number in its C names.
#[derive(Drop)]
pub struct CFile {
    pub modules: Items<CModule>,
}

/// A module: its descriptor (`OsdiDescriptor`) with the tables, its two structs and its functions.
#[derive(Drop)]
pub struct CModule {
    pub name: Name,
    /// The unknowns: the ports, the other nodes, and the flows of potential branches.
    pub nodes: Items<NodeRow>,
    /// How many of the unknowns are ports.
    pub ports: u32,
    pub entries: Items<EntryRow>,
    pub collapse: Items<PairRow>,
    /// The parameters of the instance, those of the model, and the operating-point variables. An id is a place in the list.
    pub params: Items<ParamRow>,
    /// The fields of the model's struct.
    pub model_fields: Items<FieldRow>,
    /// The fields of the instance's struct, without the mappings, the collapse flags and the temperature, which each has.
    pub inst_fields: Items<FieldRow>,
    /// The functions that bodies call. A function's place is the second number in its C name.
    pub functions: Items<CFunction>,
    /// How a host finds the cell of an id: the first row that holds counts.
    pub access: Items<AccessRow>,
    pub setup_model: Items<CStatement>,
    pub setup_instance: Items<CStatement>,
    pub eval: Items<CStatement>,
    pub loads: CLoads,
}

/// A function: `static double fn_0_1 ( double a0 , int32_t a1 ) { .. return v1 ; }`.
#[derive(Drop)]
pub struct CFunction {
    pub result: Ty,
    pub arguments: Items<CArgument>,
    pub body: Items<CStatement>,
    pub value: CAtom,
}

/// An argument of a function: its type, and the number in its name.
#[derive(Clone, Copy, Debug, PartialEq, Eq)]
pub struct CArgument {
    pub ty: Ty,
    pub number: u32,
}

/// A row of the access function (`OsdiDescriptor`, the field `access`). It holds for one id, and where `instance` is true only
/// for calls that ask for the instance's cell. A call that sets the cell sets its flag to 1 as well.
#[derive(Clone, Copy, Debug, PartialEq, Eq)]
pub struct AccessRow {
    pub id: u32,
    pub instance: bool,
    pub flag: Option<CCell>,
    pub cell: CCell,
}
