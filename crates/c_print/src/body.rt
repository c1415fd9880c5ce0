//! Bodies, whose blocks are printed with a list of those that are open.
ghost use Rattle.std.specs.Prelude.{◌≡◌, ◌<◌, ◌+◌, ◌*◌, ℕ, List, [], ◌∷◌, ◌++◌, IfOk, OnOk, length, take, drop, codes};
ghost use Rattle.c_tree.specs.Words.{template};
ghost use Rattle.c_tree.specs.Text.{atom_words, choice_opens, leave_words, body_words};
ghost use Rattle.c_print.specs.Prints.{Prints};
ghost use Rattle.c_print.specs.Pending.{pending, weight};

use crate::simple::put_simple;
use crate::value::put_atom;
use crate::words::{put_template, put_word};
use c_tree::{CAtom, CStatement};
use std::alloc::{AllocError, Global};
use va_base::NoMemory;

/// What stands behind the statements of an open block.
#[derive(Clone, Copy, Drop)]
pub enum Closing<'a> {
    /// The second block of an `if`.
    Else(&'a [CStatement]),
    /// The test of a `for` and what stands behind it.
    Leave(CAtom, &'a [CStatement]),
    /// Nothing.
    End,
}

/// A block that is open: what closes it, and the statements behind it.
#[derive(Clone, Copy, Drop)]
pub struct OpenBlock<'a> {
    pub closing: Closing<'a>,
    pub rest: &'a [CStatement],
}

/// The first statements of a list, so many or all there are, and the others.
fn split(list: &[CStatement], count: u32) -> (&[CStatement], &[CStatement])
    ensures first { result.0.now ≡ take count list.now }
    ensures rest { result.1.now ≡ drop count list.now }
{
    let count = (count as usize).min(list.len());
    list.split_at(count)
}

fn put_choice_opens(out: &mut Vec<u8>, test: CAtom) -> Result<(), AllocError>
    ensures { OnOk result (Prints out.old.items out.new.items (choice_opens test)) }
{
    put_template(out, "if (")?;
    put_atom(out, test)?;
    put_template(out, ") {")?;
    Ok(())
}

fn put_leave(out: &mut Vec<u8>, test: CAtom) -> Result<(), AllocError>
    ensures { OnOk result (Prints out.old.items out.new.items (leave_words test)) }
{
    put_template(out, "if ( !")?;
    put_atom(out, test)?;
    put_template(out, ") { break ; }")?;
    Ok(())
}

/// Closes the innermost open block, and answers the statements that come next.
fn put_closing<'a>(
    out: &mut Vec<u8>,
    open: &mut Vec<OpenBlock<'a>>,
    block: OpenBlock<'a>,
    k: usize,
) -> Result<&'a [CStatement], AllocError>
    ensures prints { IfOk result (λ left. (new : List ℕ) → Prints out.new.items new (body_words k left.now ++ pending k open.new.items)
        → Prints out.old.items new (pending k (open.old.items ++ block.entry ∷ []))) }
    ensures less { IfOk result (λ left. 3 * length left.now + weight open.new.items < weight (open.old.items ++ block.entry ∷ [])) }
{
    match block.closing {
        Closing::Else(second) => {
            put_template(out, "} else {")?;
            open.push(OpenBlock {
                closing: Closing::End,
                rest: block.rest,
            })?;
            Ok(second)
        }
        Closing::Leave(test, turn) => {
            put_leave(out, test)?;
            open.push(OpenBlock {
                closing: Closing::End,
                rest: block.rest,
            })?;
            Ok(turn)
        }
        Closing::End => {
            put_word(out, b"}")?;
            Ok(block.rest)
        }
    }
}

/// A statement of a body, or what opens its first block. It answers the statements that come next.
fn put_statement<'a>(
    out: &mut Vec<u8>,
    open: &mut Vec<OpenBlock<'a>>,
    statement: &'a CStatement,
    rest: &'a [CStatement],
    k: usize,
) -> Result<&'a [CStatement], AllocError>
    ensures prints { IfOk result (λ left. (new : List ℕ) → Prints out.new.items new (body_words k left.now ++ pending k open.new.items)
        → Prints out.old.items new (body_words k (statement.now ∷ rest.now) ++ pending k open.old.items)) }
    ensures less { IfOk result (λ left. 3 * length left.now + weight open.new.items < 3 * (length rest.now + 1) + weight open.old.items) }
{
    match statement {
        CStatement::Simple(simple) => {
            put_simple(out, k, simple)?;
            Ok(rest)
        }
        CStatement::If {
            test,
            first,
            second,
        } => {
            put_choice_opens(out, *test)?;
            let (arm, others) = split(rest, *first);
            let (other_arm, rest) = split(others, *second);
            open.push(OpenBlock {
                closing: Closing::Else(other_arm),
                rest,
            })?;
            Ok(arm)
        }
        CStatement::For { before, test, turn } => {
            put_template(out, "for ( ; ; ) {")?;
            let (front, others) = split(rest, *before);
            let (turn, rest) = split(others, *turn);
            open.push(OpenBlock {
                closing: Closing::Leave(*test, turn),
                rest,
            })?;
            Ok(front)
        }
    }
}

/// The statements of a body, in module number k.
pub fn put_body(
    alloc: Global,
    out: &mut Vec<u8>,
    k: usize,
    body: &[CStatement],
) -> Result<(), NoMemory>
    ensures { OnOk result (Prints out.old.items out.new.items (body_words k body.now)) }
{
    let mut open: Vec<OpenBlock> = Vec::new(alloc);
    let mut left = body;
    'steps: while !left.is_empty() || !open.is_empty() {
        left = match left.split_first() {
            Some((statement, rest)) => put_statement(out, &mut open, statement, rest, k)?,
            None => match open.pop() {
                Some(block) => put_closing(out, &mut open, block, k)?,
                None => left,
            },
        };
    }
    Ok(())
}
