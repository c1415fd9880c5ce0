//! The types of operators' results (Operators, Expressions).
ghost use Rattle.std.specs.Prelude.{◌≡◌, ◌&&◌, ◌||◌};
ghost use Rattle.va_sem.specs.Typing as typing;
ghost use Rattle.va_sem.specs.TypesFaults.{is_real, is_remainder};

use alg_laws::Ty;
use va_tree::{BinaryOp, UnaryOp};

/// The type of a numeral.
pub fn literal_type(integer: bool) -> Ty
    ensures { result ≡ typing.type_of_literal integer }
{
    if integer { Ty::Integer } else { Ty::Real }
}

/// Integer where both are, else real.
pub fn either_type(a: Ty, b: Ty) -> Ty
    ensures { result ≡ typing.either_type a b }
{
    match a {
        Ty::Integer => b,
        Ty::Real => Ty::Real,
    }
}

/// The type of a sign or a logical not, by that of its operand.
pub fn unary_type(op: UnaryOp, operand: Ty) -> Ty
    ensures { result ≡ typing.type_of_unary op operand }
{
    match op {
        UnaryOp::Plus => operand,
        UnaryOp::Minus => operand,
        UnaryOp::Not => Ty::Integer,
    }
}

/// The type of an operator's result, by those of its operands.
pub fn binary_type(op: BinaryOp, a: Ty, b: Ty) -> Ty
    ensures { result ≡ typing.type_of_binary op a b }
{
    match op {
        BinaryOp::Or => Ty::Integer,
        BinaryOp::And => Ty::Integer,
        BinaryOp::Equal => Ty::Integer,
        BinaryOp::NotEqual => Ty::Integer,
        BinaryOp::Less => Ty::Integer,
        BinaryOp::AtMost => Ty::Integer,
        BinaryOp::Greater => Ty::Integer,
        BinaryOp::AtLeast => Ty::Integer,
        BinaryOp::Add => either_type(a, b),
        BinaryOp::Subtract => either_type(a, b),
        BinaryOp::Multiply => either_type(a, b),
        BinaryOp::Divide => either_type(a, b),
        BinaryOp::Remainder => either_type(a, b),
        BinaryOp::Power => Ty::Real,
    }
}

fn is_real_type(ty: Ty) -> bool
    ensures { result ≡ is_real ty }
{
    match ty {
        Ty::Integer => false,
        Ty::Real => true,
    }
}

fn is_remainder_op(op: BinaryOp) -> bool
    ensures { result ≡ is_remainder op }
{
    match op {
        BinaryOp::Remainder => true,
        _ => false,
    }
}

/// Whether a remainder has a real operand (Operators).
pub fn is_real_remainder(op: BinaryOp, a: Ty, b: Ty) -> bool
    ensures { result ≡ is_remainder op && (is_real a || is_real b) }
{
    is_remainder_op(op) && (is_real_type(a) || is_real_type(b))
}
