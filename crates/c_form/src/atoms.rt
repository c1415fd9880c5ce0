//! The atoms that a statement reads.
ghost use Rattle.std.specs.Prelude.{◌≡◌, ◌∷◌, [], IfOk, map};
ghost use Rattle.c_tree.specs.rules.Bodies.{atoms_of_right, atoms_of_simple};
ghost use Rattle.c_raw.specs.Blocks.{at_view, right_view, simple_view};

use c_raw::{At, RawRight, RawSimple};
use c_tree::CAtom;
use std::alloc::{AllocError, Global};

fn one(alloc: Global, atom: At<CAtom>) -> Result<Vec<At<CAtom>>, AllocError>
    ensures { IfOk result (λ atoms. atoms.items ≡ atom ∷ []) }
{
    let mut atoms = Vec::new(alloc);
    atoms.push(atom)?;
    Ok(atoms)
}

fn two(alloc: Global, left: At<CAtom>, right: At<CAtom>) -> Result<Vec<At<CAtom>>, AllocError>
    ensures { IfOk result (λ atoms. atoms.items ≡ left ∷ right ∷ []) }
{
    let mut atoms = Vec::new(alloc);
    atoms.push(left)?;
    atoms.push(right)?;
    Ok(atoms)
}

fn right_atoms(alloc: Global, right: &RawRight) -> Result<Vec<At<CAtom>>, AllocError>
    ensures { IfOk result (λ atoms. map at_view atoms.items ≡ atoms_of_right (right_view right.now)) }
{
    match right {
        RawRight::Same(atom) => one(alloc, *atom),
        RawRight::Negated(atom) => one(alloc, *atom),
        RawRight::Contrary(atom) => one(alloc, *atom),
        RawRight::ToReal(atom) => one(alloc, *atom),
        RawRight::ToInteger(atom) => one(alloc, *atom),
        RawRight::Call { args, .. } => args.as_list().to_vec(alloc),
        RawRight::Binary { left, right, .. } => two(alloc, *left, *right),
    }
}

/// The atoms that a statement without blocks reads, in the order of the text.
pub fn simple_atoms(alloc: Global, statement: &RawSimple) -> Result<Vec<At<CAtom>>, AllocError>
    ensures { IfOk result (λ atoms. map at_view atoms.items ≡ atoms_of_simple (simple_view statement.now)) }
{
    match statement {
        RawSimple::Constant { right, .. } => right_atoms(alloc, right),
        RawSimple::Head { first, .. } => one(alloc, *first),
        RawSimple::Assign { value, .. } => one(alloc, *value),
        RawSimple::SetCell { value, .. } => one(alloc, *value),
        RawSimple::SetCollapse { value, .. } => one(alloc, *value),
        RawSimple::Join { .. } => Ok(Vec::new(alloc)),
        RawSimple::Report { .. } => Ok(Vec::new(alloc)),
    }
}
