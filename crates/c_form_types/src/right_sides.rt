//! Right sides: what an operator, a sign, a cast or a call takes, and the type that is declared.
ghost use Rattle.std.specs.Prelude.{◌≡◌, OnOk, length, map, slice_get};
ghost use Rattle.c_tree.specs.Raw as raw_tree;
ghost use Rattle.c_tree.specs.rules.Types as rule;
ghost use Rattle.c_raw.specs.Blocks.{at_view, right_view};
ghost use Rattle.c_form_types.specs.Places.{BlamesAt};

use crate::atom_types::{Walk, atom_type, differs, wanted, wanted_by};
use crate::right_types::{is_remainder, right_type};
use crate::signatures::fitting;
use alg_laws::Ty;
use c_form::blame::blame;
use c_raw::{At, RawRight};
use c_tree::{CAtom, CCallee, COperator};
use va_base::NoMemory;

/// The type that is wanted at a place, where one is.
fn type_at(types: &[Ty], index: usize) -> Option<Ty>
    ensures { result ≡ slice_get types.now index }
{
    types.get(index).copied()
}

/// The arguments of a call, where these types are wanted.
fn arguments_differ(
    walk: &Walk,
    least: &mut Option<usize>,
    all_wanted: &[Ty],
    args: &[At<CAtom>],
) -> Result<(), NoMemory>
    ensures { OnOk result (BlamesAt walk.now least.old least.new
        (λ p. rule.arguments_differ p.tree p.body p.known all_wanted.now (map at_view args.now))) }
{
    for (index, atom) in args.iter().enumerate() {
        let ty = type_at(all_wanted, index);
        wanted_by(walk, least, ty, *atom)?;
    }
    Ok(())
}

/// The arguments of a call of what is there.
fn call_differs(
    walk: &Walk,
    least: &mut Option<usize>,
    callee: CCallee,
    args: &[At<CAtom>],
) -> Result<(), NoMemory>
    ensures { OnOk result (BlamesAt walk.now least.old least.new
        (λ p. rule.call_differs p.tree p.body p.known (rule.fitting (rule.signature p.tree p.body callee) (length (map at_view args.now))) (map at_view args.now))) }
{
    let found = fitting(
        walk.alloc,
        walk.types.tree,
        &walk.types.body,
        callee,
        args.len(),
    )?;
    if let Some(signature) = found {
        arguments_differ(walk, least, &signature.arguments, args)?;
    }
    Ok(())
}

/// What a sign, a cast or a call takes.
fn operand_differs(walk: &Walk, least: &mut Option<usize>, right: &RawRight) -> Result<(), NoMemory>
    ensures { OnOk result (BlamesAt walk.now least.old least.new
        (λ p. rule.operand_differs p.tree p.body p.known (right_view right.now))) }
{
    match right {
        RawRight::Contrary(atom) => wanted(walk, least, Ty::Integer, *atom)?,
        RawRight::ToReal(atom) => wanted(walk, least, Ty::Integer, *atom)?,
        RawRight::ToInteger(atom) => wanted(walk, least, Ty::Real, *atom)?,
        RawRight::Call { callee, args } => { call_differs(walk, least, *callee, args.as_list())? }
        RawRight::Same(_) => {}
        RawRight::Negated(_) => {}
        RawRight::Binary { .. } => {}
    }
    Ok(())
}

/// Of two operands of different types the second is blamed, but with `%` each that is a double.
fn two_operands(
    walk: &Walk,
    least: &mut Option<usize>,
    left: At<CAtom>,
    operator: COperator,
    right: At<CAtom>,
) -> Result<(), NoMemory>
    ensures { OnOk result (BlamesAt walk.now least.old least.new
        (λ p. rule.operands_differ p.tree p.body p.known (raw_tree.binary (at_view left) operator (at_view right)))) }
{
    if is_remainder(operator) {
        wanted(walk, least, Ty::Integer, left)?;
        wanted(walk, least, Ty::Integer, right)?;
    } else {
        let first = atom_type(walk, left.value)?;
        wanted_by(walk, least, first, right)?;
    }
    Ok(())
}

/// The operands of an operator.
fn operands_differ(walk: &Walk, least: &mut Option<usize>, right: &RawRight) -> Result<(), NoMemory>
    ensures { OnOk result (BlamesAt walk.now least.old least.new
        (λ p. rule.operands_differ p.tree p.body p.known (right_view right.now))) }
{
    if let RawRight::Binary {
        left,
        operator,
        right,
    } = right
    {
        two_operands(walk, least, *left, *operator, *right)?;
    }
    Ok(())
}

/// The type of a right side where one is declared, at its first token.
fn result_differs(
    walk: &Walk,
    least: &mut Option<usize>,
    ty: Ty,
    at: u32,
    right: &RawRight,
) -> Result<(), NoMemory>
    ensures { OnOk result (BlamesAt walk.now least.old least.new
        (λ p. rule.differs (rule.type_of_right p.tree p.body p.known (right_view right.now)) ty at)) }
{
    let found = right_type(walk, right)?;
    differs(least, found, ty, at);
    Ok(())
}

/// A right side of a declared type, which isn't tested where an operand is blamed for the other.
pub fn right_differs(
    walk: &Walk,
    least: &mut Option<usize>,
    ty: Ty,
    at: u32,
    right: &RawRight,
) -> Result<(), NoMemory>
    ensures { OnOk result (BlamesAt walk.now least.old least.new
        (λ p. rule.right_differs p.tree p.body p.known ty (record { at = at; value = right_view right.now }))) }
{
    operand_differs(walk, least, right)?;
    let mut operands = None;
    operands_differ(walk, &mut operands, right)?;
    match operands {
        Some(token) => blame(least, token),
        None => result_differs(walk, least, ty, at, right)?,
    }
    Ok(())
}
