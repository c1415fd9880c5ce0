//! The locals that are declared at a place of a body, with how far the settings of each have come, and the open blocks with those
//! that depend on them.
ghost use Rattle.std.specs.Prelude.{◌≡◌, ◌∷◌, ℕ, [], None, IfOk, OnOk, nat_eq, suc};
ghost use Rattle.std.specs.Option.{is_some};
ghost use Rattle.std.specs.List.{flat_map};
ghost use Rattle.indexmap.specs.IndexMap.{get};
ghost use Rattle.c_form_settings.specs.Passes as passes;
ghost use Rattle.c_form_settings.specs.States.{size};
ghost use Rattle.c_form_settings.specs.declared.state.Event.TheVariants as event;
ghost use Rattle.c_form.specs.Blames.{Blames};

use crate::duty::{Duty, lacks_setting};
use crate::state::{Event, Local, State, duty_here, next};
use c_form::blame::blame_unless;
use indexmap::IndexMap;
use std::alloc::Global;
use va_base::NoMemory;

/// The numbers of locals that depend on an open block.
#[derive(Drop)]
pub struct Frame {
    /// Those that are declared in it, and those of the blocks around it that are to be set in it: its end matters to them.
    pub ending: Vec<u32>,
    /// Those that are declared in it and wait for its next `if`.
    pub joins: Vec<u32>,
    /// Those that are declared in it and wait for its next `for`.
    pub heads: Vec<u32>,
    /// Those that are to be set in it and wait for its `break`.
    pub turns: Vec<u32>,
}

/// A place of a body.
#[derive(Drop)]
pub struct Pass {
    /// Each number that was declared, with its local.
    pub locals: IndexMap<u32, Local>,
    /// The innermost open block.
    pub frame: Frame,
    /// The blocks around it, the innermost last.
    pub outer: Vec<Frame>,
}

fn new_frame(alloc: Global, ending: Vec<u32>, turns: Vec<u32>) -> Frame
    ensures ending { result.ending ≡ ending }
    ensures turns { result.turns ≡ turns }
{
    Frame {
        ending,
        joins: Vec::new(alloc),
        heads: Vec::new(alloc),
        turns,
    }
}

/// The begin of a body.
pub fn no_locals(alloc: Global) -> Pass
    ensures holds { passes.IsPass result }
    ensures none { (i : ℕ) → get nat_eq result.locals i ≡ None }
{
    Pass {
        locals: IndexMap::new(alloc),
        frame: new_frame(alloc, Vec::new(alloc), Vec::new(alloc)),
        outer: Vec::new(alloc),
    }
}

/// How many blocks are open.
pub fn depth(pass: &Pass) -> usize
    ensures { result ≡ passes.depth_of pass.now }
{
    pass.outer.len() + 1
}

/// What is due of a number in the innermost block.
pub fn duty_of(pass: &Pass, number: u32) -> Duty
    ensures { result ≡ passes.due_at (passes.depth_of pass.now) (get nat_eq pass.now.locals number) }
{
    match pass.locals.get(&number).copied() {
        Some(local) => duty_here(local, depth(pass)),
        None => Duty::Unset,
    }
}

/// It was declared.
pub fn is_known(pass: &Pass, number: u32) -> bool
    ensures { result ≡ is_some (get nat_eq pass.now.locals number) }
{
    pass.locals.get(&number).is_some()
}

/// The block of its declaration is open.
pub fn is_live(pass: &Pass, number: u32) -> bool
    ensures { result ≡ passes.is_live (get nat_eq pass.now.locals number) }
{
    match pass.locals.get(&number).copied() {
        Some(local) => !matches!(local.state, State::Gone),
        None => false,
    }
}

/// Tells an event in the innermost of so many blocks to the local of a number.
pub fn tell(
    locals: &mut IndexMap<u32, Local>,
    event: Event,
    depth: usize,
    number: u32,
) -> Result<(), NoMemory>
    ensures { OnOk result ((i : ℕ) → get nat_eq locals.new i ≡ passes.told event depth i (number ∷ []) (get nat_eq locals.old i)) }
{
    if let Some(local) = locals.get(&number).copied() {
        locals.insert(number, next(event, depth, local))?;
    }
    Ok(())
}

fn tell_all(
    locals: &mut IndexMap<u32, Local>,
    event: Event,
    depth: usize,
    numbers: &[u32],
) -> Result<(), NoMemory>
    ensures { OnOk result ((i : ℕ) → get nat_eq locals.new i ≡ passes.told event depth i numbers.now (get nat_eq locals.old i)) }
{
    for number in numbers {
        tell(locals, event, depth, *number)?;
    }
    Ok(())
}

fn copied(alloc: Global, numbers: &[u32]) -> Result<Vec<u32>, NoMemory>
    ensures { IfOk result (λ copy. copy.items ≡ numbers.now) }
{
    let copy = numbers.to_vec(alloc)?;
    Ok(copy)
}

/// Opens a block in the innermost one.
fn open_block(pass: &mut Pass, fresh: Frame) -> Result<(), NoMemory>
    ensures locals { OnOk result (pass.new.locals ≡ pass.old.locals) }
    ensures blocks { OnOk result (passes.blocks pass.new ≡ fresh ∷ passes.blocks pass.old) }
    ensures depth { OnOk result (passes.depth_of pass.new ≡ suc (passes.depth_of pass.old)) }
{
    let around = std::mem::replace(&mut pass.frame, fresh);
    pass.outer.push(around)?;
    Ok(())
}

/// Opens the arms of an `if`, in which the locals of the innermost block are to be set that waited for it.
pub fn open_choice(alloc: Global, pass: &mut Pass) -> Result<(), NoMemory>
    ensures { OnOk result (passes.IsPass pass.old → passes.Moves event.Choice pass.old pass.new) }
{
    let opened = depth(pass);
    let joins = std::mem::replace(&mut pass.frame.joins, Vec::new(alloc));
    let again = copied(alloc, &joins)?;
    tell_all(&mut pass.locals, Event::Choice, opened, &joins)?;
    open_block(pass, new_frame(alloc, again, Vec::new(alloc)))?;
    open_block(pass, new_frame(alloc, joins, Vec::new(alloc)))?;
    Ok(())
}

/// Opens the block of a `for`, in which the locals of the innermost block are to be set that waited for it.
pub fn open_loop(alloc: Global, pass: &mut Pass) -> Result<(), NoMemory>
    ensures { OnOk result (passes.IsPass pass.old → passes.Moves event.Loop pass.old pass.new) }
{
    let opened = depth(pass);
    let heads = std::mem::replace(&mut pass.frame.heads, Vec::new(alloc));
    let turns = copied(alloc, &heads)?;
    tell_all(&mut pass.locals, Event::Loop, opened, &heads)?;
    open_block(pass, new_frame(alloc, heads, turns))?;
    Ok(())
}

/// Goes behind a `break`.
pub fn leave(alloc: Global, pass: &mut Pass) -> Result<(), NoMemory>
    ensures { OnOk result (passes.IsPass pass.old → passes.Moves event.Break pass.old pass.new) }
{
    let opened = depth(pass);
    let turns = std::mem::replace(&mut pass.frame.turns, Vec::new(alloc));
    tell_all(&mut pass.locals, Event::Break, opened, &turns)?;
    Ok(())
}

/// Blames the end of a block where a setting is missing.
fn lacking(pass: &Pass, least: &mut Option<usize>, number: u32, at: usize)
    ensures { Blames least.old least.new (passes.lacking_in pass.now at number) }
{
    let lacks = lacks_setting(duty_of(pass, number));
    blame_unless(least, !lacks, at);
}

fn all_lacking(pass: &Pass, least: &mut Option<usize>, numbers: &[u32], at: usize)
    ensures { Blames least.old least.new (flat_map (passes.lacking_in pass.now at) numbers.now) }
{
    for number in numbers {
        lacking(pass, least, *number, at);
    }
}

/// Goes back to the block around the innermost one. The block of the body stays.
fn close_block(pass: &mut Pass)
    ensures locals { pass.new.locals ≡ pass.old.locals }
    ensures blocks { passes.blocks pass.new ≡ passes.outer_blocks (passes.blocks pass.old) }
{
    if let Some(around) = pass.outer.pop() {
        let _closed = std::mem::replace(&mut pass.frame, around);
    }
}

/// Ends the innermost block.
pub fn close(pass: &mut Pass, least: &mut Option<usize>, at: usize) -> Result<(), NoMemory>
    ensures blames { OnOk result (Blames least.old least.new (flat_map (passes.lacking_in pass.old at) pass.old.frame.ending.items)) }
    ensures moves { OnOk result (passes.IsPass pass.old → passes.Moves event.Close pass.old pass.new) }
{
    all_lacking(pass, least, &pass.frame.ending, at);
    let opened = depth(pass);
    tell_all(&mut pass.locals, Event::Close, opened, &pass.frame.ending)?;
    close_block(pass);
    Ok(())
}

/// Lists a number with those of a block that wait.
fn wait(frame: &mut Frame, number: u32, state: State) -> Result<(), NoMemory>
    ensures ending { frame.new.ending ≡ frame.old.ending }
    ensures joins { OnOk result (frame.new.joins.items ≡ passes.joined state number frame.old.joins.items) }
    ensures heads { OnOk result (frame.new.heads.items ≡ passes.headed state number frame.old.heads.items) }
    ensures turns { frame.new.turns ≡ frame.old.turns }
{
    match state {
        State::AwaitsChoice => frame.joins.push(number)?,
        State::AwaitsLoop => frame.heads.push(number)?,
        _ => {}
    }
    Ok(())
}

/// Declares a local in the innermost block.
pub fn declare(pass: &mut Pass, number: u32, state: State) -> Result<(), NoMemory>
    ensures { OnOk result (size state ≡ 1 → passes.IsPass pass.old → passes.Declares number state pass.old pass.new) }
{
    pass.frame.ending.push(number)?;
    wait(&mut pass.frame, number, state)?;
    let base = pass.outer.len();
    pass.locals.insert(number, Local { base, state })?;
    Ok(())
}
