//! Reading bodies, as flat lists of statements.
ghost use Rattle.std.specs.Prelude.{◌≡◌, ◌≢◌, IfOk, OnOk, true, [], ◌∷◌};
ghost use Rattle.c_raw.specs.Blocks.{block_view, is_body};
ghost use Rattle.c_raw_build.specs.Due.{IsDue, IsDueIn};
ghost use Rattle.c_raw_build.specs.Nonterminals as nonterminals;
ghost use Rattle.c_raw_build.specs.RawBodies.{body_block};
ghost use Rattle.c_raw_build.specs.BodyDue.{IsDueBehindHead};
ghost use Rattle.c_raw_build.specs.Placed.{Placed, row_of};
ghost use Rattle.c_raw_build.specs.Reading.{Reads, first_tree, trees};
ghost use Rattle.c_raw_build.specs.RowNumbers.{if_row, for_row};
ghost use Rattle.c_raw_build.specs.Steps as steps;
ghost use Rattle.c_raw_build.specs.Words.{CText};

use crate::atoms::placed_atom;
use crate::reader::Reader;
use crate::row;
use crate::simple::simple;
use crate::text::Text;
use c_raw::RawStatement;
use std::alloc::{AllocError, Global};

/// The statements of a body, without its end.
///
/// `between` holds for each open block, the innermost last, how many tokens stand behind it before the statements that follow.
pub(crate) fn statements(
    alloc: Global,
    text: &Text<'_>,
    reader: &mut Reader<'_>,
) -> Result<Vec<RawStatement>, AllocError>
    requires { IsDueIn text.now (nonterminals.statements ∷ []) reader.old }
    ensures { IfOk result (λ v. Reads (steps.statements text.now) reader.old reader.new (steps.before_more v.items)) }
{
    let mut list = Vec::new(alloc);
    let mut between = Vec::new(alloc);
    loop {
        match reader.row() {
            row::STATEMENTS => {
                let next = head(alloc, text, reader)?;
                open_blocks(&mut between, &next)?;
                list.push(next)?;
            }
            row::NO_STATEMENTS => match between.pop() {
                None => return Ok(list),
                Some(count) => {
                    list.push(RawStatement::End { at: reader.at() })?;
                    reader.pass(count);
                }
            },
            _ => unreachable!(),
        }
    }
}

/// A statement up to its first block.
fn head(alloc: Global, text: &Text<'_>, reader: &mut Reader<'_>) -> Result<RawStatement, AllocError>
    requires { IsDueIn text.now (nonterminals.statement ∷ []) reader.old }
    ensures read { IfOk result (λ s. steps.ReadsHead text.now reader.old reader.new s) }
    ensures due { IfOk result (λ s. IsDueBehindHead text.now reader.old reader.new s) }
{
    match reader.next_row() {
        row::IF => Ok(if_head(text, reader)),
        row::FOR => Ok(for_head(reader)),
        _ => simple_head(alloc, text, reader),
    }
}

/// A statement without blocks.
fn simple_head(
    alloc: Global,
    text: &Text<'_>,
    reader: &mut Reader<'_>,
) -> Result<RawStatement, AllocError>
    requires due { IsDueIn text.now (nonterminals.statement ∷ []) reader.old }
    requires no_if { row_of (first_tree (trees reader.old)) ≢ if_row }
    requires no_for { row_of (first_tree (trees reader.old)) ≢ for_row }
    ensures read { IfOk result (λ s. steps.ReadsHead text.now reader.old reader.new s) }
    ensures due { IfOk result (λ s. IsDueBehindHead text.now reader.old reader.new s) }
{
    let statement = simple(alloc, text, reader)?;
    Ok(RawStatement::Simple(statement))
}

/// `for ( ; ; ) {`
fn for_head(reader: &mut Reader<'_>) -> RawStatement
    requires due { IsDue (nonterminals.statement ∷ []) reader.old }
    requires row { row_of (first_tree (trees reader.old)) ≡ for_row }
    ensures read { (text : CText) → steps.ReadsHead text reader.old reader.new result }
    ensures due { (text : CText) → IsDueBehindHead text reader.old reader.new result }
{
    reader.take(row::FOR);
    reader.pass(6);
    RawStatement::For
}

/// `if ( ! v1 ) { break ; }` or `if ( v1 ) {`
fn if_head(text: &Text<'_>, reader: &mut Reader<'_>) -> RawStatement
    requires due { IsDueIn text.now (nonterminals.statement ∷ []) reader.old }
    requires row { row_of (first_tree (trees reader.old)) ≡ if_row }
    ensures read { steps.ReadsHead text.now reader.old reader.new result }
    ensures due { IsDueBehindHead text.now reader.old reader.new result }
{
    reader.take(row::IF);
    let at = reader.at();
    reader.pass(2);
    match reader.row() {
        row::BREAK => {
            reader.pass(1);
            let test = placed_atom(text, reader);
            reader.pass(5);
            RawStatement::Leave { at, test }
        }
        row::TWO_ARMS => {
            let test = placed_atom(text, reader);
            reader.pass(2);
            RawStatement::If { test }
        }
        _ => unreachable!(),
    }
}

/// Adds the blocks that a statement opens, the innermost last.
fn open_blocks(between: &mut Vec<u32>, statement: &RawStatement) -> Result<(), AllocError>
    ensures { OnOk result (steps.innermost_first between.new.items ≡ steps.opened statement.now (steps.innermost_first between.old.items)) }
{
    match statement {
        RawStatement::If { .. } => {
            between.push(1)?;
            between.push(3)?;
        }
        RawStatement::For => {
            between.push(1)?;
        }
        _ => {}
    }
    Ok(())
}

/// A body: its statements, and its end at this token.
pub(crate) fn closed(list: Vec<RawStatement>, last: u32) -> Result<Vec<RawStatement>, AllocError>
    ensures block { IfOk result (λ v. (text : CText) (p : Placed) → steps.before_more list.items ≡ steps.statements text p → block_view v.items ≡ body_block text last p) }
    ensures body { IfOk result (λ v. (text : CText) (p : Placed) → steps.before_more list.items ≡ steps.statements text p → is_body v.items ≡ true) }
{
    let mut body = list;
    body.push(RawStatement::End { at: last })?;
    Ok(body)
}
