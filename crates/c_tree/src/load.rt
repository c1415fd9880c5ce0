//! The load functions, by which a simulator adds what an evaluation computed to its own vector and matrix.
ghost use Rattle.std.specs.Prelude.{◌≡◌};
ghost use Rattle.c_tree.specs.Text.{loads_of};

use crate::body::CField;
use va_base::Items;

/// The load functions of a module (`OsdiDescriptor`, the fields `load_..`).
#[derive(Clone, Copy, Debug, PartialEq, Eq)]
pub enum LoadFunction {
    ResidualResist,
    ResidualReact,
    JacobianResist,
    JacobianReact,
    JacobianTran,
    SpiceRhsDc,
    SpiceRhsTran,
}

/// The statements of each load function.
#[derive(Drop)]
pub struct CLoads {
    pub residual_resist: Items<CLoad>,
    pub residual_react: Items<CLoad>,
    pub jacobian_resist: Items<CLoad>,
    pub jacobian_react: Items<CLoad>,
    pub jacobian_tran: Items<CLoad>,
    pub spice_rhs_dc: Items<CLoad>,
    pub spice_rhs_tran: Items<CLoad>,
}

impl CLoads {
    /// The statements of one load function, in order.
    pub fn of(&self, function: LoadFunction) -> &[CLoad]
        ensures { result.now ≡ loads_of self.now function }
    {
        match function {
            LoadFunction::ResidualResist => self.residual_resist.as_list(),
            LoadFunction::ResidualReact => self.residual_react.as_list(),
            LoadFunction::JacobianResist => self.jacobian_resist.as_list(),
            LoadFunction::JacobianReact => self.jacobian_react.as_list(),
            LoadFunction::JacobianTran => self.jacobian_tran.as_list(),
            LoadFunction::SpiceRhsDc => self.spice_rhs_dc.as_list(),
            LoadFunction::SpiceRhsTran => self.spice_rhs_tran.as_list(),
        }
    }
}

/// A statement of a load function: `TARGET += FACTOR * FACTOR ;`, with one factor or more.
#[derive(Drop)]
pub struct CLoad {
    pub target: LoadTarget,
    pub sign: LoadSign,
    pub first: LoadFactor,
    pub more: Items<LoadFactor>,
}

/// Where a load adds.
#[derive(Clone, Copy, Debug, PartialEq, Eq)]
pub enum LoadTarget {
    /// `dst [ inst -> node [ 1u ] ]`, the vector's place for an unknown.
    Node(u32),
    /// `* inst -> jr [ 1u ]`, the matrix's place for the resistive part of an entry.
    EntryResist(u32),
    /// `* inst -> jq [ 1u ]`, the matrix's place for the reactive part of an entry.
    EntryReact(u32),
}

/// What a load does with the product of its factors.
#[derive(Clone, Copy, Debug, PartialEq, Eq)]
pub enum LoadSign {
    /// `=`
    Put,
    /// `+=`
    Add,
    /// `-=`
    Subtract,
}

/// A factor of a load.
#[derive(Clone, Copy, Debug, PartialEq, Eq)]
pub enum LoadFactor {
    /// The argument `alpha`.
    Alpha,
    /// A cell of the instance.
    Cell(CField),
    /// The solution at the place to which this unknown is mapped.
    Solution(u32),
}
