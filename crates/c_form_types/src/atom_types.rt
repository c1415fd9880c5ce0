//! The types of atoms, and atoms where a type is wanted.
ghost use Rattle.std.specs.Prelude.{◌≡◌, IfOk, OnOk};
ghost use Rattle.c_tree.specs.SameType as type_equality;
ghost use Rattle.c_tree.specs.rules.Types as rule;
ghost use Rattle.c_raw.specs.Blocks.{at_view};
ghost use Rattle.c_raw.specs.Views.{module_view};
ghost use Rattle.c_form.specs.Blames.{Blames};
ghost use Rattle.c_form.specs.Bodies.{body_view};
ghost use Rattle.c_form.specs.FieldTypes.{HasTypes};
ghost use Rattle.c_form_types.specs.Places.{BlamesAt, Place, AreTypes, IsAt};

use alg_laws::Ty;
use c_form::arguments::{argument_type, argument_types, arguments};
use c_form::blame::blame_unless;
use c_form::body::Body;
use c_form::cell_types::{CellTypes, cell_type};
use c_form::scope::{Scope, local_type};
use c_raw::{At, RawModule};
use c_tree::CAtom;
use indexmap::IndexMap;
use std::alloc::Global;
use va_base::NoMemory;

/// The types of what stands in a body, but for its locals.
#[derive(Drop)]
pub struct BodyTypes<'a> {
    pub tree: &'a RawModule,
    pub body: Body<'a>,
    pub cells: &'a CellTypes,
    /// The types of its arguments, by their numbers.
    pub arguments: IndexMap<u32, Ty>,
}

/// The types of a body of a module, by those of the module's fields.
pub fn body_types<'a>(
    alloc: Global,
    tree: &'a RawModule,
    body: &Body<'a>,
    cells: &'a CellTypes,
) -> Result<BodyTypes<'a>, NoMemory>
    ensures { IfOk result (λ types. HasTypes cells.now (module_view tree.now) → AreTypes types (module_view tree.now) (body_view body.now)) }
{
    let arguments = argument_types(alloc, arguments(body))?;
    Ok(BodyTypes {
        tree,
        body: *body,
        cells,
        arguments,
    })
}

/// Where a walk over a body stands: what the rule looks at there.
#[derive(Clone, Copy, Drop)]
pub struct Walk<'a> {
    pub alloc: Global,
    pub types: &'a BodyTypes<'a>,
    /// The locals that are known here.
    pub scope: &'a Scope,
}

/// The type of an atom, where it is there.
pub fn atom_type(walk: &Walk, atom: CAtom) -> Result<Option<Ty>, NoMemory>
    ensures { IfOk result (λ ty. (p : Place) → IsAt walk.now p → ty ≡ rule.type_of_atom p.tree p.body p.known atom) }
{
    match atom {
        CAtom::Local(number) => Ok(local_type(walk.scope, number)),
        CAtom::Argument(number) => Ok(argument_type(&walk.types.arguments, number)),
        CAtom::Integer(_) => Ok(Some(Ty::Integer)),
        CAtom::Real(_) => Ok(Some(Ty::Real)),
        CAtom::Cell(cell) => {
            let ty = cell_type(walk.alloc, walk.types.cells, cell)?;
            Ok(ty)
        }
        CAtom::Unknown(_) => Ok(Some(Ty::Real)),
    }
}

fn same_type(left: Ty, right: Ty) -> bool
    ensures { result ≡ type_equality.same_type left right }
{
    matches!(
        (left, right),
        (Ty::Integer, Ty::Integer) | (Ty::Real, Ty::Real)
    )
}

/// What has a type where one is wanted, at its first token.
pub fn differs(least: &mut Option<usize>, found: Option<Ty>, wanted: Ty, at: u32)
    ensures { Blames least.old least.new (rule.differs found wanted at) }
{
    if let Some(ty) = found {
        blame_unless(least, same_type(ty, wanted), at as usize);
    }
}

/// An atom where a type is wanted.
pub fn wanted(
    walk: &Walk,
    least: &mut Option<usize>,
    ty: Ty,
    atom: At<CAtom>,
) -> Result<(), NoMemory>
    ensures { OnOk result (BlamesAt walk.now least.old least.new
        (λ p. rule.wanted p.tree p.body p.known ty (at_view atom))) }
{
    let found = atom_type(walk, atom.value)?;
    differs(least, found, ty, atom.at);
    Ok(())
}

/// An atom where the type of something else is wanted, which may have none.
pub fn wanted_by(
    walk: &Walk,
    least: &mut Option<usize>,
    other: Option<Ty>,
    atom: At<CAtom>,
) -> Result<(), NoMemory>
    ensures { OnOk result (BlamesAt walk.now least.old least.new
        (λ p. rule.wanted_by p.tree p.body p.known other (at_view atom))) }
{
    if let Some(ty) = other {
        wanted(walk, least, ty, atom)?;
    }
    Ok(())
}
