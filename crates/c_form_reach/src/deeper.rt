//! Cells are set in the top block of a body alone.
ghost use Rattle.std.specs.Prelude.{◌≡◌, true};
ghost use Rattle.c_tree.specs.rules.Reach.{set_deeper};
ghost use Rattle.c_raw.specs.Blocks.{block_view, is_body};
ghost use Rattle.c_form.specs.Blames.{Blames};
ghost use Rattle.c_form_reach.specs.Placed.{nothing, placed};
ghost use Rattle.c_form_reach.specs.Settings as settings;

use crate::depth::around_behind;
use crate::words::words_set;
use c_raw::RawStatement;

/// What a statement sets that does not stand in the top block.
fn statement_deeper(least: &mut Option<usize>, around: u128, statement: &RawStatement)
    ensures { Blames least.old least.new (placed nothing settings.words_set around statement.now) }
{
    if around == 0 {
        return;
    }
    if let RawStatement::Simple(inner) = statement {
        words_set(least, inner);
    }
}

/// Blames each cell that is set in a block of a body's top block.
pub fn deeper(least: &mut Option<usize>, list: &[RawStatement])
    requires { is_body list.now ≡ true }
    ensures { Blames least.old least.new (set_deeper (block_view list.now)) }
{
    let mut around = 0;
    for statement in list {
        statement_deeper(least, around, statement);
        around = around_behind(around, statement);
    }
}
