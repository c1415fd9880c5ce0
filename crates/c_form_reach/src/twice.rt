//! Each cell is set at most once in the top block of a body, and so is each collapse flag.
ghost use Rattle.std.specs.Prelude.{◌≡◌, ◌++◌, IfOk, OnOk, map, true};
ghost use Rattle.c_tree.specs.rules.Bodies.{set_cells, set_flags};
ghost use Rattle.c_tree.specs.rules.Reach as rule;
ghost use Rattle.c_raw.specs.Blocks.{at_view, block_view, is_body};
ghost use Rattle.c_form.specs.Blames.{Blames};
ghost use Rattle.c_form_reach.specs.Placed.{nothing, placed, walked};
ghost use Rattle.c_form_reach.specs.Settings.{listed};

use crate::depth::around_behind;
use crate::set_cells::{enter_cell, no_cells};
use crate::words::{cell_set, flag_set};
use c_form::blame::blame_unless;
use c_raw::{At, RawStatement};
use c_tree::CCell;
use indexmap::IndexSet;
use std::alloc::Global;
use va_base::NoMemory;

/// The cell that a statement sets in the top block.
fn top_cell(around: u128, statement: &RawStatement) -> Option<At<CCell>>
    ensures { listed result ≡ placed set_cells nothing around statement.now }
{
    if around > 0 {
        return None;
    }
    match statement {
        RawStatement::Simple(inner) => cell_set(inner),
        _ => None,
    }
}

/// The collapse flag that a statement sets in the top block.
fn top_flag(around: u128, statement: &RawStatement) -> Option<At<u32>>
    ensures { listed result ≡ placed set_flags nothing around statement.now }
{
    if around > 0 {
        return None;
    }
    match statement {
        RawStatement::Simple(inner) => flag_set(inner),
        _ => None,
    }
}

fn push_cell(cells: &mut Vec<At<CCell>>, cell: Option<At<CCell>>) -> Result<(), NoMemory>
    ensures { OnOk result (map at_view cells.new.items ≡ map at_view cells.old.items ++ listed cell) }
{
    if let Some(found) = cell {
        cells.push(found)?;
    }
    Ok(())
}

fn push_flag(flags: &mut Vec<At<u32>>, flag: Option<At<u32>>) -> Result<(), NoMemory>
    ensures { OnOk result (map at_view flags.new.items ≡ map at_view flags.old.items ++ listed flag) }
{
    if let Some(found) = flag {
        flags.push(found)?;
    }
    Ok(())
}

/// The cells that are set in the top block, in order.
fn top_cells(alloc: Global, list: &[RawStatement]) -> Result<Vec<At<CCell>>, NoMemory>
    ensures { IfOk result (λ cells. map at_view cells.items ≡ walked set_cells nothing 0 list.now) }
{
    let mut cells = Vec::new(alloc);
    let mut around = 0;
    for statement in list {
        push_cell(&mut cells, top_cell(around, statement))?;
        around = around_behind(around, statement);
    }
    Ok(cells)
}

/// The collapse flags that are set in the top block, in order.
fn top_flags(alloc: Global, list: &[RawStatement]) -> Result<Vec<At<u32>>, NoMemory>
    ensures { IfOk result (λ flags. map at_view flags.items ≡ walked set_flags nothing 0 list.now) }
{
    let mut flags = Vec::new(alloc);
    let mut around = 0;
    for statement in list {
        push_flag(&mut flags, top_flag(around, statement))?;
        around = around_behind(around, statement);
    }
    Ok(flags)
}

/// Blames each cell that was set before.
fn cells_twice(
    alloc: Global,
    least: &mut Option<usize>,
    cells: &[At<CCell>],
) -> Result<(), NoMemory>
    ensures { OnOk result (Blames least.old least.new (rule.cells_twice (map at_view cells.now))) }
{
    let mut seen = no_cells(alloc);
    for cell in cells {
        let fresh = enter_cell(alloc, &mut seen, cell.value)?;
        blame_unless(least, fresh, cell.at as usize + 2);
    }
    Ok(())
}

/// Blames each collapse flag that was set before.
fn flags_twice(alloc: Global, least: &mut Option<usize>, flags: &[At<u32>]) -> Result<(), NoMemory>
    ensures { OnOk result (Blames least.old least.new (rule.flags_twice (map at_view flags.now))) }
{
    let mut seen: IndexSet<u32> = IndexSet::new(alloc);
    for flag in flags {
        let fresh = seen.insert(flag.value)?;
        blame_unless(least, fresh, flag.at as usize + 2);
    }
    Ok(())
}

/// Blames each cell and each collapse flag that is set again in the top block of a body.
pub fn twice(
    alloc: Global,
    least: &mut Option<usize>,
    list: &[RawStatement],
) -> Result<(), NoMemory>
    requires { is_body list.now ≡ true }
    ensures { OnOk result (Blames least.old least.new (rule.set_twice (block_view list.now))) }
{
    let cells = top_cells(alloc, list)?;
    cells_twice(alloc, least, &cells)?;
    let flags = top_flags(alloc, list)?;
    flags_twice(alloc, least, &flags)?;
    Ok(())
}
