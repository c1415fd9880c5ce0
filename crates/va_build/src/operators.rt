//! The rows of operands and of the operators between them.
ghost use Rattle.std.specs.Prelude.{◌≡◌, true};
ghost use Rattle.predict.specs.Table.{is_among};
ghost use Rattle.va_build.specs.Due.{operand_rows, tail_rows};
ghost use Rattle.va_build.specs.Reading.{IsOperandRow, IsTailRow};

use va_grammar::row;
use va_tree::{BinaryOp, UnaryOp};

/// What a row of operands holds (Operators).
#[derive(Clone, Copy, Debug, PartialEq, Eq)]
pub(crate) enum OperandRow {
    /// A first operand, and the operators and operands behind it.
    Operands,
    /// A sign and its operand.
    Sign(UnaryOp),
    /// An operand without signs.
    Unsigned,
}

/// What a row behind a first operand holds.
#[derive(Clone, Copy, Debug, PartialEq, Eq)]
pub(crate) enum TailRow {
    /// An operator, its right operand, and the rest.
    Operator(BinaryOp),
    /// Nothing.
    End,
}

/// What a row of operands holds.
pub(crate) fn operand_row(row: u16) -> OperandRow
    requires { is_among operand_rows row ≡ true }
    ensures { IsOperandRow row result }
{
    match row {
        row::PLUS => OperandRow::Sign(UnaryOp::Plus),
        row::MINUS => OperandRow::Sign(UnaryOp::Minus),
        row::NOT => OperandRow::Sign(UnaryOp::Not),
        row::UNSIGNED => OperandRow::Unsigned,
        _ => OperandRow::Operands,
    }
}

/// What a row behind a first operand holds.
pub(crate) fn tail_row(row: u16) -> TailRow
    requires { is_among tail_rows row ≡ true }
    ensures { IsTailRow row result }
{
    match row {
        row::OR_MORE => TailRow::Operator(BinaryOp::Or),
        row::AND_MORE => TailRow::Operator(BinaryOp::And),
        row::EQUAL_MORE => TailRow::Operator(BinaryOp::Equal),
        row::NOT_EQUAL_MORE => TailRow::Operator(BinaryOp::NotEqual),
        row::LESS_MORE => TailRow::Operator(BinaryOp::Less),
        row::AT_MOST_MORE => TailRow::Operator(BinaryOp::AtMost),
        row::GREATER_MORE => TailRow::Operator(BinaryOp::Greater),
        row::AT_LEAST_MORE => TailRow::Operator(BinaryOp::AtLeast),
        row::ADD_MORE => TailRow::Operator(BinaryOp::Add),
        row::SUBTRACT_MORE => TailRow::Operator(BinaryOp::Subtract),
        row::MULTIPLY_MORE => TailRow::Operator(BinaryOp::Multiply),
        row::DIVIDE_MORE => TailRow::Operator(BinaryOp::Divide),
        row::REMAINDER_MORE => TailRow::Operator(BinaryOp::Remainder),
        row::POWER_MORE => TailRow::Operator(BinaryOp::Power),
        _ => TailRow::End,
    }
}
