//! What a body speaks of: functions read and set no cells, the set-up of the model names no `inst`, an evaluation leaves to the
//! set-ups what they set, only the set-ups report, and of the bodies the evaluation alone reads `x`.
ghost use Rattle.std.specs.Prelude.{◌≡◌, OnOk, true};
ghost use Rattle.std.specs.List.{flat_map};
ghost use Rattle.c_tree.specs.rules.Bodies as bodies;
ghost use Rattle.c_tree.specs.rules.Reach as rule;
ghost use Rattle.c_raw.specs.Blocks.{at_view, simple_view};
ghost use Rattle.c_form.specs.Blames.{Blames};
ghost use Rattle.c_form.specs.Bodies.{body_view, is_one_block};
ghost use Rattle.c_form_reach.specs.Reach as reach;

use c_form::blame::{blame, blame_unless};
use c_form::body::Body;
use c_form::items::{ItemRule, in_items};
use c_raw::{At, RawSimple};
use c_tree::{CAtom, CCell, CField, Level};
use std::alloc::Global;
use va_base::NoMemory;

/// A cell of the instance, at its `inst`.
fn instance_cell(least: &mut Option<usize>, cell: At<CCell>)
    ensures { Blames least.old least.new (rule.of_instance (at_view cell)) }
{
    match cell.value.level {
        Level::Instance => blame(least, cell.at as usize),
        Level::Model => {}
    }
}

/// An atom that reads `x`.
fn solution(least: &mut Option<usize>, atom: At<CAtom>)
    ensures { Blames least.old least.new (reach.solution_at (at_view atom)) }
{
    if let CAtom::Unknown(_) = atom.value {
        blame(least, atom.at as usize);
    }
}

/// An atom of a function: no cell, and no `x`.
fn function_atom(least: &mut Option<usize>, atom: At<CAtom>)
    ensures { Blames least.old least.new (reach.function_atom (at_view atom)) }
{
    match atom.value {
        CAtom::Cell(_) => blame(least, atom.at as usize + 2),
        CAtom::Unknown(_) => blame(least, atom.at as usize),
        _ => {}
    }
}

/// An atom of the model's set-up: no `inst`, and no `x`, behind which `inst` stands too.
fn model_atom(least: &mut Option<usize>, atom: At<CAtom>)
    ensures { Blames least.old least.new (reach.model_atom (at_view atom)) }
{
    match atom.value {
        CAtom::Cell(cell) => instance_cell(
            least,
            At {
                at: atom.at,
                value: cell,
            },
        ),
        CAtom::Unknown(_) => {
            blame(least, atom.at as usize);
            blame(least, atom.at as usize + 2);
        }
        _ => {}
    }
}

/// An atom that a body reads.
fn atom_out(least: &mut Option<usize>, body: &Body, atom: At<CAtom>)
    ensures { Blames least.old least.new (reach.atom_out (bodies.RawBody.kind (body_view body.now)) (at_view atom)) }
{
    match *body {
        Body::Function(_, _) => function_atom(least, atom),
        Body::SetupModel(_) => model_atom(least, atom),
        Body::SetupInstance(_) => solution(least, atom),
        Body::Evaluation(_) => {}
    }
}

/// A statement of a function: it sets no cell and no flag, and reports nothing.
fn function_statement(least: &mut Option<usize>, statement: &RawSimple)
    ensures { Blames least.old least.new (reach.function_statement (simple_view statement.now)) }
{
    match statement {
        RawSimple::SetCell { cell, .. } => blame(least, cell.at as usize + 2),
        RawSimple::SetCollapse { pair, .. } => blame(least, pair.at as usize + 2),
        RawSimple::Report { id } => blame(least, id.at as usize),
        _ => {}
    }
}

/// A statement of the model's set-up: it names no `inst`.
fn model_statement(least: &mut Option<usize>, statement: &RawSimple)
    ensures { Blames least.old least.new (reach.model_statement (simple_view statement.now)) }
{
    match statement {
        RawSimple::SetCell { cell, .. } => instance_cell(least, *cell),
        RawSimple::SetCollapse { pair, .. } => blame(least, pair.at as usize),
        _ => {}
    }
}

/// Whether the set-ups set a field, and no evaluation.
fn is_set_up(field: CField) -> bool
    ensures { result ≡ rule.is_set_up field }
{
    matches!(
        field,
        CField::Param(_) | CField::Given(_) | CField::Stored(_)
    )
}

/// A statement of an evaluation: it sets nothing that the set-ups set, and reports nothing.
fn evaluation_statement(least: &mut Option<usize>, statement: &RawSimple)
    ensures { Blames least.old least.new (reach.evaluation_statement (simple_view statement.now)) }
{
    match statement {
        RawSimple::SetCell { cell, .. } => blame_unless(
            least,
            !is_set_up(cell.value.field),
            cell.at as usize + 2,
        ),
        RawSimple::SetCollapse { pair, .. } => blame(least, pair.at as usize + 2),
        RawSimple::Report { id } => blame(least, id.at as usize),
        _ => {}
    }
}

/// What a statement of a body sets or reports.
fn simple_out(least: &mut Option<usize>, body: &Body, statement: &RawSimple)
    ensures { Blames least.old least.new
        (reach.simple_out (bodies.RawBody.kind (body_view body.now)) (simple_view statement.now)) }
{
    match *body {
        Body::Function(_, _) => function_statement(least, statement),
        Body::SetupModel(_) => model_statement(least, statement),
        Body::SetupInstance(_) => {}
        Body::Evaluation(_) => evaluation_statement(least, statement),
    }
}

/// A body that may not speak of all.
#[derive(Drop)]
struct Speech<'a> {
    body: Body<'a>,
}

impl<'a> ItemRule for Speech<'a> {
    ghost subject = { bodies.RawBody };

    ghost knows = { λ speech b. body_view speech.body ≡ b };

    ghost in_atom = { λ b. reach.atom_out (bodies.RawBody.kind b) };

    ghost in_simple = { λ b. reach.simple_out (bodies.RawBody.kind b) };

    fn blame_atom(
        &self,
        _alloc: Global,
        least: &mut Option<usize>,
        atom: At<CAtom>,
    ) -> Result<(), NoMemory> {
        atom_out(least, &self.body, atom);
        Ok(())
    }

    fn blame_simple(
        &self,
        _alloc: Global,
        least: &mut Option<usize>,
        statement: &RawSimple,
    ) -> Result<(), NoMemory> {
        simple_out(least, &self.body, statement);
        Ok(())
    }
}

/// Blames what a body may not speak of.
pub fn spoken_of(alloc: Global, least: &mut Option<usize>, body: &Body) -> Result<(), NoMemory>
    requires { is_one_block body.now ≡ true }
    ensures { OnOk result (Blames least.old least.new
        (flat_map (rule.out_of_reach (bodies.RawBody.kind (body_view body.now))) (bodies.items_of (body_view body.now)))) }
{
    let speech = Speech { body: *body };
    in_items(alloc, least, &speech, body)?;
    Ok(())
}
