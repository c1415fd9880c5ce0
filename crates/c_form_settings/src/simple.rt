//! What a statement without blocks does at a place of a body: it reads locals, sets one, or declares one.
ghost use Rattle.std.specs.Prelude.{◌≡◌, ◌∷◌, ℕ, [], OnOk, map, nat_eq};
ghost use Rattle.std.specs.List.{flat_map};
ghost use Rattle.indexmap.specs.IndexMap.{get};
ghost use Rattle.c_tree.specs.rules.Bodies.{assigned, atoms_of_simple};
ghost use Rattle.c_raw.specs.Blocks.{at_view, simple_view};
ghost use Rattle.c_raw.specs.declared.body.RawStatement.TheVariants.{Simple};
ghost use Rattle.c_form.specs.Blames.{Blames};
ghost use Rattle.c_form_settings.specs.Passes as passes;
ghost use Rattle.c_form_settings.specs.declared.state.Event.TheVariants as event;

use crate::duty::{is_unread, wants_setting};
use crate::pass::{Pass, declare, depth, duty_of, is_known, is_live, tell};
use crate::start::declared;
use crate::state::Event;
use c_form::atoms::simple_atoms;
use c_form::blame::blame_unless;
use c_raw::{At, RawSimple};
use c_tree::CAtom;
use std::alloc::Global;
use va_base::NoMemory;

/// Blames an atom that reads a local too early.
pub fn read(pass: &Pass, least: &mut Option<usize>, atom: At<CAtom>)
    ensures { Blames least.old least.new (passes.early_in pass.now (at_view atom)) }
{
    if let CAtom::Local(number) = atom.value {
        let unread = is_unread(duty_of(pass, number));
        blame_unless(least, !unread, atom.at as usize);
    }
}

fn read_all(pass: &Pass, least: &mut Option<usize>, atoms: &[At<CAtom>])
    ensures { Blames least.old least.new (flat_map (passes.early_in pass.now) (map at_view atoms.now)) }
{
    for atom in atoms {
        read(pass, least, *atom);
    }
}

/// Blames the atoms of a statement that read a local too early.
pub fn reads(
    alloc: Global,
    pass: &Pass,
    least: &mut Option<usize>,
    statement: &RawSimple,
) -> Result<(), NoMemory>
    ensures { OnOk result (Blames least.old least.new (flat_map (passes.early_in pass.now) (atoms_of_simple (simple_view statement.now)))) }
{
    let atoms = simple_atoms(alloc, statement)?;
    read_all(pass, least, &atoms);
    Ok(())
}

/// Sets a local, and blames the token where it is not to be set.
fn set_local(pass: &mut Pass, least: &mut Option<usize>, local: At<u32>) -> Result<(), NoMemory>
    ensures blames { OnOk result (Blames least.old least.new (passes.wrong_in pass.old (at_view local ∷ []))) }
    ensures blocks { OnOk result (passes.blocks pass.new ≡ passes.blocks pass.old) }
    ensures told { OnOk result ((i : ℕ) → get nat_eq pass.new.locals i
        ≡ passes.told event.Set (passes.depth_of pass.old) i (local.value ∷ []) (get nat_eq pass.old.locals i)) }
{
    let wanted = wants_setting(duty_of(pass, local.value));
    let dead = !is_live(pass, local.value);
    blame_unless(least, dead || wanted, local.at as usize);
    let opened = depth(pass);
    tell(&mut pass.locals, Event::Set, opened, local.value)?;
    Ok(())
}

fn sets(pass: &mut Pass, least: &mut Option<usize>, statement: &RawSimple) -> Result<(), NoMemory>
    ensures blames { OnOk result (Blames least.old least.new (passes.wrong_in pass.old (assigned (simple_view statement.now)))) }
    ensures blocks { OnOk result (passes.blocks pass.new ≡ passes.blocks pass.old) }
    ensures told { OnOk result ((i : ℕ) → get nat_eq pass.new.locals i
        ≡ passes.told event.Set (passes.depth_of pass.old) i (passes.numbers_in (assigned (simple_view statement.now))) (get nat_eq pass.old.locals i)) }
{
    match statement {
        RawSimple::Assign { local, .. } => set_local(pass, least, *local)?,
        RawSimple::Constant { .. } => {}
        RawSimple::Join { .. } => {}
        RawSimple::Head { .. } => {}
        RawSimple::SetCell { .. } => {}
        RawSimple::SetCollapse { .. } => {}
        RawSimple::Report { .. } => {}
    }
    Ok(())
}

/// What a statement reads and sets.
fn uses(
    alloc: Global,
    pass: &mut Pass,
    least: &mut Option<usize>,
    statement: &RawSimple,
) -> Result<(), NoMemory>
    ensures { OnOk result (passes.IsPass pass.old → passes.Uses least.old least.new pass.old pass.new statement.now) }
{
    reads(alloc, pass, least, statement)?;
    sets(pass, least, statement)?;
    Ok(())
}

/// What a declaration adds. Of a number that was declared before the first declaration counts.
fn declares(pass: &mut Pass, statement: &RawSimple) -> Result<(), NoMemory>
    ensures { OnOk result (passes.IsPass pass.old → passes.Adds pass.old pass.new statement.now) }
{
    let Some(start) = declared(statement) else {
        return Ok(());
    };
    if is_known(pass, start.number) {
        return Ok(());
    }
    declare(pass, start.number, start.state)?;
    Ok(())
}

/// Goes behind a statement without blocks.
pub fn simple(
    alloc: Global,
    pass: &mut Pass,
    least: &mut Option<usize>,
    statement: &RawSimple,
) -> Result<(), NoMemory>
    ensures { OnOk result (passes.IsPass pass.old → passes.Steps least.old least.new pass.old pass.new (Simple statement.now)) }
{
    uses(alloc, pass, least, statement)?;
    declares(pass, statement)?;
    Ok(())
}
