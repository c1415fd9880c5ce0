//! The load functions.
ghost use Rattle.std.specs.Prelude.{◌≡◌};
ghost use Rattle.c_raw.specs.Views.{loads_in};

use crate::token::At;
use c_tree::{LoadFactor, LoadFunction, LoadSign, LoadTarget};
use va_base::Items;

/// The statements of each load function, in the order of the text.
#[derive(Drop)]
pub struct RawLoads {
    pub residual_resist: Items<RawLoad>,
    pub residual_react: Items<RawLoad>,
    pub jacobian_resist: Items<RawLoad>,
    pub jacobian_react: Items<RawLoad>,
    pub jacobian_tran: Items<RawLoad>,
    pub spice_rhs_dc: Items<RawLoad>,
    pub spice_rhs_tran: Items<RawLoad>,
}

impl RawLoads {
    /// The statements of one load function, in order.
    pub fn of(&self, function: LoadFunction) -> &[RawLoad]
        ensures { result.now ≡ loads_in self.now function }
    {
        match function {
            LoadFunction::ResidualResist => self.residual_resist.as_list(),
            LoadFunction::ResidualReact => self.residual_react.as_list(),
            LoadFunction::JacobianResist => self.jacobian_resist.as_list(),
            LoadFunction::JacobianReact => self.jacobian_react.as_list(),
            LoadFunction::JacobianTran => self.jacobian_tran.as_list(),
            LoadFunction::SpiceRhsDc => self.spice_rhs_dc.as_list(),
            LoadFunction::SpiceRhsTran => self.spice_rhs_tran.as_list(),
        }
    }
}

/// A statement of a load function: its target stands at `dst` or `*`, and each factor at its first token. Of `* inst -> jr [ 1u ]`
/// the number stands five tokens behind `*`, and of `dst [ inst -> node [ 1u ] ]` six behind `dst`.
#[derive(Drop)]
pub struct RawLoad {
    pub target: At<LoadTarget>,
    pub sign: LoadSign,
    pub first: At<LoadFactor>,
    pub more: Items<At<LoadFactor>>,
}
