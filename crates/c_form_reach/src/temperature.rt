//! No statement of a body sets the temperature.
ghost use Rattle.std.specs.Prelude.{◌≡◌, true};
ghost use Rattle.c_tree.specs.rules.Bodies.{of_statement};
ghost use Rattle.c_tree.specs.rules.Reach as rule;
ghost use Rattle.c_raw.specs.Blocks.{block_view, is_body, simple_view};
ghost use Rattle.c_form.specs.Blames.{Blames};
ghost use Rattle.c_form.specs.Bodies.{in_statement};
ghost use Rattle.c_form_reach.specs.Reach as reach;

use c_form::blame::blame_unless;
use c_raw::{RawSimple, RawStatement};
use c_tree::CField;

fn is_temperature(field: CField) -> bool
    ensures { result ≡ rule.is_temperature field }
{
    matches!(field, CField::Temperature)
}

/// The temperature, where a statement sets it.
fn temperature_of(least: &mut Option<usize>, statement: &RawSimple)
    ensures { Blames least.old least.new (reach.temperature_of (simple_view statement.now)) }
{
    if let RawSimple::SetCell { cell, .. } = statement {
        blame_unless(
            least,
            !is_temperature(cell.value.field),
            cell.at as usize + 2,
        );
    }
}

fn statement_temperature(least: &mut Option<usize>, statement: &RawStatement)
    ensures { Blames least.old least.new (in_statement (of_statement reach.temperature_of) statement.now) }
{
    if let RawStatement::Simple(inner) = statement {
        temperature_of(least, inner);
    }
}

/// Blames each `temp` that a body sets.
pub fn temperatures(least: &mut Option<usize>, list: &[RawStatement])
    requires { is_body list.now ≡ true }
    ensures { Blames least.old least.new (rule.of_fields rule.is_temperature (rule.cells_set_in (block_view list.now))) }
{
    for statement in list {
        statement_temperature(least, statement);
    }
}
