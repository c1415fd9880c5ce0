//! How deep a statement stands in its body.
ghost use Rattle.std.specs.Prelude.{◌≡◌, ◌<◌, ◌^◌};
ghost use Rattle.c_form_reach.specs.Placed as placing;

use c_raw::RawStatement;

/// How many blocks are open around the block behind a statement, where so many are open around its own. Of a body, none are open
/// around the top block.
pub fn around_behind(around: u128, statement: &RawStatement) -> u128
    requires { around < 2 ^ 100 }
    ensures { result ≡ placing.around_behind around statement.now }
{
    match statement {
        RawStatement::Simple(_) => around,
        RawStatement::Leave { .. } => around,
        RawStatement::If { .. } => around + 2,
        RawStatement::For => around + 1,
        RawStatement::End { .. } => around.saturating_sub(1),
    }
}
