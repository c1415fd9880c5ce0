//! The types of right sides.
ghost use Rattle.std.specs.Prelude.{◌≡◌, IfOk};
ghost use Rattle.c_tree.specs.rules.Types as rule;
ghost use Rattle.c_raw.specs.Blocks.{right_view};
ghost use Rattle.c_form_types.specs.Places.{Place, AreTypes, IsAt};

use crate::atom_types::{BodyTypes, Walk, atom_type};
use crate::signatures::fitting;
use alg_laws::Ty;
use c_raw::RawRight;
use c_tree::{CAtom, CCallee, COperator};
use std::alloc::Global;
use va_base::NoMemory;

/// Whether an operator is a comparison.
fn is_comparison(operator: COperator) -> bool
    ensures { result ≡ rule.is_comparison operator }
{
    match operator {
        COperator::Plus => false,
        COperator::Minus => false,
        COperator::Times => false,
        COperator::Over => false,
        COperator::Remainder => false,
        COperator::Less => true,
        COperator::AtMost => true,
        COperator::Greater => true,
        COperator::AtLeast => true,
        COperator::Same => true,
        COperator::Differs => true,
    }
}

/// Whether an operator is `%`.
pub fn is_remainder(operator: COperator) -> bool
    ensures { result ≡ rule.is_remainder operator }
{
    matches!(operator, COperator::Remainder)
}

/// The type that an operator gives, by those of its operands.
fn joint(operator: COperator, first: Option<Ty>, second: Option<Ty>) -> Option<Ty>
    ensures { (p : Place) → result ≡ rule.joint p.tree p.body p.known operator first second }
{
    if is_comparison(operator) || is_remainder(operator) {
        return Some(Ty::Integer);
    }
    match first {
        Some(_) => second,
        None => None,
    }
}

/// The type that an operator gives between two atoms.
fn binary_type(
    walk: &Walk,
    left: CAtom,
    operator: COperator,
    right: CAtom,
) -> Result<Option<Ty>, NoMemory>
    ensures { IfOk result (λ ty. (p : Place) → IsAt walk.now p
        → ty ≡ rule.joint p.tree p.body p.known operator (rule.type_of_atom p.tree p.body p.known left) (rule.type_of_atom p.tree p.body p.known right)) }
{
    let first = atom_type(walk, left)?;
    let second = atom_type(walk, right)?;
    Ok(joint(operator, first, second))
}

/// The type that a call gives, where what is called is there and has so many arguments.
fn call_type(
    alloc: Global,
    types: &BodyTypes,
    callee: CCallee,
    count: usize,
) -> Result<Option<Ty>, NoMemory>
    ensures { IfOk result (λ ty. (p : Place) → AreTypes types.now p.tree p.body
        → ty ≡ rule.result_of p.tree p.body p.known (rule.fitting (rule.signature p.tree p.body callee) count)) }
{
    match fitting(alloc, types.tree, &types.body, callee, count)? {
        Some(found) => Ok(Some(found.result)),
        None => Ok(None),
    }
}

/// The type of a right side, where it has one.
pub fn right_type(walk: &Walk, right: &RawRight) -> Result<Option<Ty>, NoMemory>
    ensures { IfOk result (λ ty. (p : Place) → IsAt walk.now p → ty ≡ rule.type_of_right p.tree p.body p.known (right_view right.now)) }
{
    match right {
        RawRight::Same(atom) => atom_type(walk, atom.value),
        RawRight::Negated(atom) => atom_type(walk, atom.value),
        RawRight::Contrary(_) => Ok(Some(Ty::Integer)),
        RawRight::ToReal(_) => Ok(Some(Ty::Real)),
        RawRight::ToInteger(_) => Ok(Some(Ty::Integer)),
        RawRight::Call { callee, args } => {
            call_type(walk.alloc, walk.types, *callee, args.as_list().len())
        }
        RawRight::Binary {
            left,
            operator,
            right,
        } => binary_type(walk, left.value, *operator, right.value),
    }
}
