//! Bodies: flat lists in which each statement with blocks tells how many statements they hold.
//!
//! The list is walked from its end, so that where a statement with blocks is met, what its blocks hold is known. The blocks whose
//! statements were met and whose head was not are kept, the next one last.
ghost use Rattle.std.specs.Prelude.{◌≡◌, ◌+◌, ℕ, List, IfOk, OnOk, reverse, true};
ghost use Rattle.c_tree.specs.FileOf as files;
ghost use Rattle.c_tree.specs.declared.body.CStatement.{CStatement as SpecCStatement};
ghost use Rattle.c_raw.specs.Blocks.{block_view, is_body};
ghost use Rattle.c_raw.specs.declared.body.RawStatement.TheVariants.{Simple, Leave, If, For, End};
ghost use Rattle.c_raw_file.specs.Walked.{closed_here, left_here, longer, total, counted_first, counted_later, Meets};

use crate::statement::simple;
use c_raw::{At, RawSimple, RawStatement};
use c_tree::{CAtom, CStatement};
use std::alloc::{AllocError, Global};
use va_base::Items;

/// How many statements a block has: those before its first `break`, and those behind it, with the test of the `break`.
#[derive(Clone, Copy, Debug, PartialEq, Eq)]
pub(crate) struct Counted {
    before: u32,
    test: CAtom,
    turn: u32,
}

/// A block without statements.
fn empty() -> Counted
    ensures { result ≡ closed_here }
{
    Counted {
        before: 0,
        test: CAtom::Integer(0),
        turn: 0,
    }
}

/// How many statements a block has.
fn statements_in(block: &Counted) -> Result<u32, AllocError>
    ensures { IfOk result (λ n. n ≡ total block.now) }
{
    block.before.checked_add(block.turn).ok_or(AllocError)
}

/// A block with so many statements more, at its front.
fn with_more(block: &Counted, count: u32) -> Result<Counted, AllocError>
    ensures { IfOk result (λ b. b ≡ longer count block.now) }
{
    let before = block.before.checked_add(count).ok_or(AllocError)?;
    Ok(Counted {
        before,
        test: block.test,
        turn: block.turn,
    })
}

/// A block with a `break` more, at its front.
fn with_break(block: &Counted, test: CAtom) -> Result<Counted, AllocError>
    ensures { IfOk result (λ b. b ≡ left_here test block.now) }
{
    let turn = statements_in(block)?;
    Ok(Counted {
        before: 0,
        test,
        turn,
    })
}

/// How many statements a statement with two blocks is, those of its blocks among them.
fn whole(first: u32, second: u32) -> Result<u32, AllocError>
    ensures { IfOk result (λ n. n ≡ first + second + 1) }
{
    let both = first.checked_add(second).ok_or(AllocError)?;
    both.checked_add(1).ok_or(AllocError)
}

/// Takes the next block.
fn next_block(blocks: &mut Vec<Counted>) -> Counted
    ensures block { result ≡ counted_first (reverse blocks.old.items) }
    ensures blocks { reverse blocks.new.items ≡ counted_later (reverse blocks.old.items) }
{
    match blocks.pop() {
        Some(block) => block,
        None => empty(),
    }
}

/// Meets a statement without blocks.
fn put_simple(
    alloc: Global,
    body: &mut Vec<CStatement>,
    blocks: &mut Vec<Counted>,
    raw: &RawSimple,
) -> Result<(), AllocError>
    ensures { OnOk result (Meets (Simple raw.now) blocks.old.items body.old.items blocks.new.items body.new.items) }
{
    let next = next_block(blocks);
    let block = with_more(&next, 1)?;
    let statement = simple(alloc, raw)?;
    body.push(CStatement::Simple(statement))?;
    blocks.push(block)?;
    Ok(())
}

/// Meets a `break`, of which nothing but the test of its loop is kept.
fn put_break(blocks: &mut Vec<Counted>, test: At<CAtom>) -> Result<(), AllocError>
    ensures { OnOk result ((at : ℕ) (body : List SpecCStatement) → Meets (Leave at test) blocks.old.items body blocks.new.items body) }
{
    let next = next_block(blocks);
    let block = with_break(&next, test.value)?;
    blocks.push(block)?;
    Ok(())
}

/// Meets an `if`.
fn put_choice(
    body: &mut Vec<CStatement>,
    blocks: &mut Vec<Counted>,
    test: At<CAtom>,
) -> Result<(), AllocError>
    ensures { OnOk result (Meets (If test) blocks.old.items body.old.items blocks.new.items body.new.items) }
{
    let first = statements_in(&next_block(blocks))?;
    let second = statements_in(&next_block(blocks))?;
    let all = whole(first, second)?;
    let behind = next_block(blocks);
    let block = with_more(&behind, all)?;
    body.push(CStatement::If {
        test: test.value,
        first,
        second,
    })?;
    blocks.push(block)?;
    Ok(())
}

/// Meets a `for`.
fn put_loop(body: &mut Vec<CStatement>, blocks: &mut Vec<Counted>) -> Result<(), AllocError>
    ensures { OnOk result (Meets For blocks.old.items body.old.items blocks.new.items body.new.items) }
{
    let inner = next_block(blocks);
    let all = whole(inner.before, inner.turn)?;
    let behind = next_block(blocks);
    let block = with_more(&behind, all)?;
    body.push(CStatement::For {
        before: inner.before,
        test: inner.test,
        turn: inner.turn,
    })?;
    blocks.push(block)?;
    Ok(())
}

/// Meets the end of a block.
fn put_end(blocks: &mut Vec<Counted>) -> Result<(), AllocError>
    ensures { OnOk result ((at : ℕ) (body : List SpecCStatement) → Meets (End at) blocks.old.items body blocks.new.items body) }
{
    blocks.push(empty())?;
    Ok(())
}

/// Meets a statement, or the end of a block.
fn meet(
    alloc: Global,
    body: &mut Vec<CStatement>,
    blocks: &mut Vec<Counted>,
    statement: &RawStatement,
) -> Result<(), AllocError>
    ensures { OnOk result (Meets statement.now blocks.old.items body.old.items blocks.new.items body.new.items) }
{
    match statement {
        RawStatement::Simple(simple) => put_simple(alloc, body, blocks, simple),
        RawStatement::Leave { test, .. } => {
            put_break(blocks, *test)?;
            Ok(())
        }
        RawStatement::If { test } => put_choice(body, blocks, *test),
        RawStatement::For => put_loop(body, blocks),
        RawStatement::End { .. } => {
            put_end(blocks)?;
            Ok(())
        }
    }
}

/// The statements of a body.
pub(crate) fn body_of(alloc: Global, list: &[RawStatement]) -> Result<Items<CStatement>, AllocError>
    requires { is_body list.now ≡ true }
    ensures { IfOk result (λ body. body ≡ files.body_of (block_view list.now)) }
{
    let mut body = Vec::new(alloc);
    let mut blocks = Vec::new(alloc);
    for i in (0..list.len()).rev() {
        meet(alloc, &mut body, &mut blocks, &list[i])?;
    }
    body.reverse();
    Ok(Items::new(body))
}
