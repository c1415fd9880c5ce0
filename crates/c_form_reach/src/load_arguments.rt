//! Which arguments the load functions have.
ghost use Rattle.std.specs.Prelude.{◌≡◌};
ghost use Rattle.c_tree.specs.rules.Reach as rule;

use c_tree::LoadFunction;

/// Whether a load function has the argument `dst`.
pub fn has_dst(function: LoadFunction) -> bool
    ensures { result ≡ rule.has_dst function }
{
    matches!(
        function,
        LoadFunction::ResidualResist
            | LoadFunction::ResidualReact
            | LoadFunction::SpiceRhsDc
            | LoadFunction::SpiceRhsTran
    )
}

/// Whether a load function has the argument `alpha`.
pub fn has_alpha(function: LoadFunction) -> bool
    ensures { result ≡ rule.has_alpha function }
{
    matches!(
        function,
        LoadFunction::JacobianReact | LoadFunction::JacobianTran | LoadFunction::SpiceRhsTran
    )
}

/// Whether a load function has the argument `x`.
pub fn has_solution(function: LoadFunction) -> bool
    ensures { result ≡ rule.has_solution function }
{
    matches!(
        function,
        LoadFunction::SpiceRhsDc | LoadFunction::SpiceRhsTran
    )
}
