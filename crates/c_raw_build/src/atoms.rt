//! Reading types, numbers, fields, cells and atoms.
//!
//! Each function takes the next tree of the parse tree, and its tokens with it.
ghost use Rattle.std.specs.Prelude.{[], ◌∷◌};
ghost use Rattle.c_raw.specs.Blocks.{at_view};
ghost use Rattle.c_raw_build.specs.Due.{IsDue, IsDueIn};
ghost use Rattle.c_raw_build.specs.Nonterminals as nonterminals;
ghost use Rattle.c_raw_build.specs.Reading.{Reads};
ghost use Rattle.c_raw_build.specs.RawAtoms as raw;

use crate::reader::Reader;
use crate::row;
use crate::text::Text;
use alg_laws::Ty;
use c_raw::At;
use c_tree::{CAtom, CCallee, CCell, CField, COperator, Level};

/// `double` or `int32_t`.
pub(crate) fn ty(reader: &mut Reader<'_>) -> Ty
    requires { IsDue (nonterminals.ty ∷ []) reader.old }
    ensures { Reads raw.ty_of reader.old reader.new result }
{
    let row = reader.row();
    reader.pass(1);
    match row {
        row::REAL_TYPE => Ty::Real,
        row::INTEGER_TYPE => Ty::Integer,
        _ => unreachable!(),
    }
}

/// A number, as `3u` or `3`.
pub(crate) fn number(text: &Text<'_>, reader: &mut Reader<'_>) -> u32
    requires { IsDueIn text.now (nonterminals.integer ∷ nonterminals.number ∷ []) reader.old }
    ensures { Reads (raw.number_of_tree text.now) reader.old reader.new result }
{
    let row = reader.row();
    let value = text.number(reader.at());
    reader.pass(1);
    match row {
        row::NUMBER_ZERO => value,
        row::NUMBER_ONE => value,
        row::NUMBER_THREE => value,
        row::NUMBER => value,
        row::INTEGER_ZERO => value,
        row::INTEGER_ONE => value,
        row::INTEGER => value,
        _ => unreachable!(),
    }
}

/// A number, with the index of its token.
pub(crate) fn placed_number(text: &Text<'_>, reader: &mut Reader<'_>) -> At<u32>
    requires { IsDueIn text.now (nonterminals.integer ∷ nonterminals.number ∷ []) reader.old }
    ensures { Reads (raw.number text.now) reader.old reader.new (at_view result) }
{
    let at = reader.at();
    let value = number(text, reader);
    At { at, value }
}

/// A field's name.
pub(crate) fn field(text: &Text<'_>, reader: &mut Reader<'_>) -> CField
    requires { IsDueIn text.now (nonterminals.field_name ∷ []) reader.old }
    ensures { Reads (raw.field text.now) reader.old reader.new result }
{
    let row = reader.row();
    let value = text.field(reader.at());
    reader.pass(1);
    match row {
        row::NUMBERED_FIELD => value,
        row::TEMPERATURE_FIELD => value,
        _ => unreachable!(),
    }
}

/// A field's name, with the index of its token.
pub(crate) fn named_field(text: &Text<'_>, reader: &mut Reader<'_>) -> At<CField>
    requires { IsDueIn text.now (nonterminals.field_name ∷ []) reader.old }
    ensures { Reads (raw.named_field text.now) reader.old reader.new (at_view result) }
{
    let at = reader.at();
    let value = field(text, reader);
    At { at, value }
}

/// A cell, as `inst -> p1`.
pub(crate) fn cell(text: &Text<'_>, reader: &mut Reader<'_>) -> CCell
    requires { IsDueIn text.now (nonterminals.cell ∷ []) reader.old }
    ensures { Reads (raw.cell text.now) reader.old reader.new result }
{
    let row = reader.row();
    reader.pass(2);
    let field = field(text, reader);
    match row {
        row::INSTANCE_CELL => CCell {
            level: Level::Instance,
            field,
        },
        row::MODEL_CELL => CCell {
            level: Level::Model,
            field,
        },
        _ => unreachable!(),
    }
}

/// A cell, with the index of its first token.
pub(crate) fn placed_cell(text: &Text<'_>, reader: &mut Reader<'_>) -> At<CCell>
    requires { IsDueIn text.now (nonterminals.cell ∷ []) reader.old }
    ensures { Reads (raw.placed_cell text.now) reader.old reader.new (at_view result) }
{
    let at = reader.at();
    let value = cell(text, reader);
    At { at, value }
}

/// The number of an unknown, in `inst -> node [ 1u ]`.
pub(crate) fn node_number(text: &Text<'_>, reader: &mut Reader<'_>) -> u32
    requires { IsDueIn text.now (nonterminals.node ∷ []) reader.old }
    ensures { Reads (raw.node_number text.now) reader.old reader.new result }
{
    reader.take(row::NODE);
    reader.pass(4);
    let value = number(text, reader);
    reader.pass(1);
    value
}

/// An atom.
pub(crate) fn atom(text: &Text<'_>, reader: &mut Reader<'_>) -> CAtom
    requires { IsDueIn text.now (nonterminals.atom ∷ []) reader.old }
    ensures { Reads (raw.atom_of text.now) reader.old reader.new result }
{
    let row = reader.row();
    let at = reader.at();
    match row {
        row::LOCAL_ATOM => {
            let local = text.number(at);
            reader.pass(1);
            CAtom::Local(local)
        }
        row::ARGUMENT_ATOM => {
            let argument = text.number(at);
            reader.pass(1);
            CAtom::Argument(argument)
        }
        row::INTEGER_ATOM => {
            let integer = number(text, reader);
            CAtom::Integer(integer)
        }
        row::REAL_ATOM => {
            let real = text.real(at);
            reader.pass(1);
            CAtom::Real(real)
        }
        row::CELL_ATOM => {
            let cell = cell(text, reader);
            CAtom::Cell(cell)
        }
        row::UNKNOWN_ATOM => {
            reader.pass(2);
            let unknown = node_number(text, reader);
            reader.pass(1);
            CAtom::Unknown(unknown)
        }
        _ => unreachable!(),
    }
}

/// An atom, with the index of its first token.
pub(crate) fn placed_atom(text: &Text<'_>, reader: &mut Reader<'_>) -> At<CAtom>
    requires { IsDueIn text.now (nonterminals.atom ∷ []) reader.old }
    ensures { Reads (raw.placed_atom text.now) reader.old reader.new (at_view result) }
{
    let at = reader.at();
    let value = atom(text, reader);
    At { at, value }
}

/// What is called.
pub(crate) fn callee(text: &Text<'_>, reader: &mut Reader<'_>) -> CCallee
    requires { IsDueIn text.now (nonterminals.callee ∷ []) reader.old }
    ensures { Reads (raw.callee_of text.now) reader.old reader.new result }
{
    let row = reader.row();
    let at = reader.at();
    reader.pass(1);
    match row {
        row::NAMED_FUNCTION => { text.library_function(at) }
        row::MODULE_FUNCTION => {
            let number = text.function(at);
            CCallee::Function(number)
        }
        _ => unreachable!(),
    }
}

/// An operator between two operands.
pub(crate) fn operator(reader: &mut Reader<'_>) -> COperator
    requires { IsDue (nonterminals.operator ∷ []) reader.old }
    ensures { Reads raw.operator_of reader.old reader.new result }
{
    let row = reader.row();
    reader.pass(1);
    match row {
        row::PLUS => COperator::Plus,
        row::MINUS => COperator::Minus,
        row::TIMES => COperator::Times,
        row::OVER => COperator::Over,
        row::REMAINDER => COperator::Remainder,
        row::LESS => COperator::Less,
        row::AT_MOST => COperator::AtMost,
        row::GREATER => COperator::Greater,
        row::AT_LEAST => COperator::AtLeast,
        row::SAME => COperator::Same,
        row::DIFFERS => COperator::Differs,
        _ => unreachable!(),
    }
}
