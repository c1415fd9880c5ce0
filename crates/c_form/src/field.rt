//! Names of fields.
ghost use Rattle.std.specs.Prelude.{◌≡◌, if◌then◌else◌};
ghost use Rattle.c_tree.specs.declared.body.CField.TheVariants.{Resist, React};
ghost use Rattle.c_tree.specs.rules.Fields.{same_field};

use c_tree::CField;

/// Whether a field is `rI`, the resistive part of row I.
pub fn is_resist(field: CField, row: usize) -> bool
    ensures { result ≡ same_field field (Resist row) }
{
    match field {
        CField::Resist(number) => number as usize == row,
        _ => false,
    }
}

/// Whether a field is `qI`, the reactive part of row I.
pub fn is_react(field: CField, row: usize) -> bool
    ensures { result ≡ same_field field (React row) }
{
    match field {
        CField::React(number) => number as usize == row,
        _ => false,
    }
}
