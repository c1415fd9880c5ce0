//! Reading statements.
//!
//! Each function takes the next tree of the parse tree, and its tokens with it. A statement that is read goes to the end of a
//! list of those that are done; where it holds others, they are taken from there.
ghost use Rattle.std.specs.Prelude.{◌≡◌, true, [], ◌∷◌, ◌++◌, IfOk, OnOk, None, Some};
ghost use Rattle.predict.specs.Table.{is_among};
ghost use Rattle.va_base.specs.Expansion.{IsExpanded};
ghost use Rattle.va_grammar.specs.declared.nonterminal.Nonterminal.TheVariants as nonterminal;
ghost use Rattle.va_build.specs.Due.{IsDue, next_row, simple_rows, turn_rows};
ghost use Rattle.va_build.specs.Reading.{Reads, first_tree, trees};
ghost use Rattle.std.specs.Option.{is_some};
ghost use Rattle.va_build.specs.StatementHeads.{else_statements};
ghost use Rattle.va_build.specs.SourceStatements as source_statements;

use crate::done::{
    close_block, close_case, close_default, close_if, close_if_else, close_item, close_turn, last,
};
use crate::read_expressions::expression;
use crate::reader::Reader;
use crate::statement_heads::{case_head, if_head, read_turn};
use crate::statement_parts::{colon, declarations, label, simple, values_behind};
use std::alloc::{AllocError, Global};
use va_base::Expanded;
use va_grammar::row;
use va_tree::{CaseDefault, CaseItem, Stmt};

/// A statement.
#[cycle(statement)]
pub(crate) fn statement(
    alloc: Global,
    e: &Expanded,
    reader: &mut Reader<'_>,
    done: &mut Vec<Stmt>,
) -> Result<(), AllocError>
    requires expanded { IsExpanded e.now }
    requires due { IsDue nonterminal.Statement reader.old }
    ensures { OnOk result (Reads (λ at t. done.old.items ++ source_statements.statement e.now at t ∷ []) reader.old reader.new done.new.items) }
{
    match reader.peek() {
        row::BLOCK => block(alloc, e, reader, done),
        row::IF => if_statement(alloc, e, reader, done),
        row::CASE => case_statement(alloc, e, reader, done),
        row::NAMED => simple_done(alloc, e, reader, done),
        row::TASK => simple_done(alloc, e, reader, done),
        row::NULL => simple_done(alloc, e, reader, done),
        _ => loop_or_wait(alloc, e, reader, done),
    }
}

/// A loop or a wait, with the statement in it.
#[cycle(statement)]
fn loop_or_wait(
    alloc: Global,
    e: &Expanded,
    reader: &mut Reader<'_>,
    done: &mut Vec<Stmt>,
) -> Result<(), AllocError>
    requires expanded { IsExpanded e.now }
    requires due { IsDue nonterminal.Statement reader.old }
    requires row { is_among turn_rows (next_row reader.old) ≡ true }
    ensures { OnOk result (Reads (λ at t. done.old.items ++ source_statements.statement e.now at t ∷ []) reader.old reader.new done.new.items) }
{
    let turn = read_turn(alloc, e, reader)?;
    statement(alloc, e, reader, done)?;
    close_turn(alloc, done, turn)?;
    Ok(())
}

/// A statement that holds no other.
fn simple_done(
    alloc: Global,
    e: &Expanded,
    reader: &mut Reader<'_>,
    done: &mut Vec<Stmt>,
) -> Result<(), AllocError>
    requires expanded { IsExpanded e.now }
    requires due { IsDue nonterminal.Statement reader.old }
    requires row { is_among simple_rows (next_row reader.old) ≡ true }
    ensures { OnOk result (Reads (λ at t. done.old.items ++ source_statements.statement e.now at t ∷ []) reader.old reader.new done.new.items) }
{
    let value = simple(alloc, e, reader)?;
    done.push(value)?;
    Ok(())
}

/// A block (Block statements).
#[cycle(statement)]
fn block(
    alloc: Global,
    e: &Expanded,
    reader: &mut Reader<'_>,
    done: &mut Vec<Stmt>,
) -> Result<(), AllocError>
    requires expanded { IsExpanded e.now }
    requires due { IsDue nonterminal.Statement reader.old }
    requires row { next_row reader.old ≡ 89 }
    ensures { OnOk result (Reads (λ at t. done.old.items ++ source_statements.statement e.now at t ∷ []) reader.old reader.new done.new.items) }
{
    reader.enter();
    let at = reader.pass();
    let label = label(alloc, e, reader)?;
    let list = declarations(alloc, e, reader)?;
    let start = done.len();
    statements(alloc, e, reader, done)?;
    reader.pass();
    close_block(alloc, done, start, at, label, list)?;
    Ok(())
}

/// The statements of a block.
#[cycle(statement)]
fn statements(
    alloc: Global,
    e: &Expanded,
    reader: &mut Reader<'_>,
    done: &mut Vec<Stmt>,
) -> Result<(), AllocError>
    requires expanded { IsExpanded e.now }
    requires due { IsDue nonterminal.Statements reader.old }
    ensures { OnOk result (Reads (λ at t. done.old.items ++ source_statements.statements e.now at t) reader.old reader.new done.new.items) }
{
    loop {
        match reader.enter() {
            row::STATEMENTS => statement(alloc, e, reader, done)?,
            row::NO_STATEMENTS => return Ok(()),
            _ => unreachable!(),
        }
    }
}

/// An `if` (Conditional statements).
#[cycle(statement)]
fn if_statement(
    alloc: Global,
    e: &Expanded,
    reader: &mut Reader<'_>,
    done: &mut Vec<Stmt>,
) -> Result<(), AllocError>
    requires expanded { IsExpanded e.now }
    requires due { IsDue nonterminal.Statement reader.old }
    requires row { next_row reader.old ≡ 90 }
    ensures { OnOk result (Reads (λ at t. done.old.items ++ source_statements.statement e.now at t ∷ []) reader.old reader.new done.new.items) }
{
    let test = if_head(alloc, e, reader)?;
    statement(alloc, e, reader, done)?;
    let with_else = else_branch(alloc, e, reader, done)?;
    if with_else {
        close_if_else(alloc, done, test)?;
        return Ok(());
    }
    close_if(alloc, done, test)?;
    Ok(())
}

/// The statement of an `else`, if there is one. Answers whether there is.
#[cycle(statement)]
fn else_branch(
    alloc: Global,
    e: &Expanded,
    reader: &mut Reader<'_>,
    done: &mut Vec<Stmt>,
) -> Result<bool, AllocError>
    requires expanded { IsExpanded e.now }
    requires due { IsDue nonterminal.ElseBranch reader.old }
    ensures read { OnOk result (Reads (λ at t. done.old.items ++ else_statements e.now at t) reader.old reader.new done.new.items) }
    ensures found { IfOk result (λ b. b ≡ is_some (source_statements.else_branch e.now reader.old.at (first_tree (trees reader.old)))) }
{
    match reader.enter() {
        row::ELSE => {
            reader.pass();
            statement(alloc, e, reader, done)?;
            Ok(true)
        }
        row::NO_ELSE => Ok(false),
        _ => unreachable!(),
    }
}

/// A `case` (Case statements).
#[cycle(statement)]
fn case_statement(
    alloc: Global,
    e: &Expanded,
    reader: &mut Reader<'_>,
    done: &mut Vec<Stmt>,
) -> Result<(), AllocError>
    requires expanded { IsExpanded e.now }
    requires due { IsDue nonterminal.Statement reader.old }
    requires row { next_row reader.old ≡ 91 }
    ensures { OnOk result (Reads (λ at t. done.old.items ++ source_statements.statement e.now at t ∷ []) reader.old reader.new done.new.items) }
{
    let selector = case_head(alloc, e, reader)?;
    let mut items = Vec::new(alloc);
    let mut defaults = Vec::new(alloc);
    case_parts(alloc, e, reader, done, &mut items, &mut defaults)?;
    reader.pass();
    close_case(done, selector, items, defaults)?;
    Ok(())
}

/// The items of a `case`, and apart from them its defaults.
#[cycle(statement)]
fn case_parts(
    alloc: Global,
    e: &Expanded,
    reader: &mut Reader<'_>,
    done: &mut Vec<Stmt>,
    items: &mut Vec<CaseItem>,
    defaults: &mut Vec<CaseDefault>,
) -> Result<(), AllocError>
    requires expanded { IsExpanded e.now }
    requires due { IsDue nonterminal.CaseItems reader.old }
    ensures items { OnOk result (Reads (λ at t. items.old.items ++ source_statements.case_items e.now at t) reader.old reader.new items.new.items) }
    ensures defaults { OnOk result (Reads (λ at t. defaults.old.items ++ source_statements.case_defaults e.now at t) reader.old reader.new defaults.new.items) }
    ensures done { OnOk result (done.new.items ≡ done.old.items) }
{
    loop {
        match reader.enter() {
            row::CASE_ITEMS => match reader.peek() {
                row::DEFAULT => case_default(alloc, e, reader, done, defaults)?,
                _ => case_item(alloc, e, reader, done, items)?,
            },
            row::NO_CASE_ITEMS => return Ok(()),
            _ => unreachable!(),
        }
    }
}

/// An item of a `case` with its values.
#[cycle(statement)]
fn case_item(
    alloc: Global,
    e: &Expanded,
    reader: &mut Reader<'_>,
    done: &mut Vec<Stmt>,
    items: &mut Vec<CaseItem>,
) -> Result<(), AllocError>
    requires expanded { IsExpanded e.now }
    requires due { IsDue nonterminal.CaseItem reader.old }
    requires row { next_row reader.old ≡ 112 }
    ensures item { OnOk result (Reads (λ at t. items.old.items ++ source_statements.case_item e.now at t) reader.old reader.new items.new.items) }
    ensures only { OnOk result (source_statements.case_default e.now reader.old.at (first_tree (trees reader.old)) ≡ []) }
    ensures done { OnOk result (done.new.items ≡ done.old.items) }
{
    reader.enter();
    let at = reader.at();
    let first = expression(alloc, e, reader)?;
    let values = values_behind(alloc, e, reader, first)?;
    reader.pass();
    statement(alloc, e, reader, done)?;
    close_item(done, items, at, values)?;
    Ok(())
}

/// A default of a `case`.
#[cycle(statement)]
fn case_default(
    alloc: Global,
    e: &Expanded,
    reader: &mut Reader<'_>,
    done: &mut Vec<Stmt>,
    defaults: &mut Vec<CaseDefault>,
) -> Result<(), AllocError>
    requires expanded { IsExpanded e.now }
    requires due { IsDue nonterminal.CaseItem reader.old }
    requires row { next_row reader.old ≡ 111 }
    ensures item { OnOk result (Reads (λ at t. defaults.old.items ++ source_statements.case_default e.now at t) reader.old reader.new defaults.new.items) }
    ensures only { OnOk result (source_statements.case_item e.now reader.old.at (first_tree (trees reader.old)) ≡ []) }
    ensures done { OnOk result (done.new.items ≡ done.old.items) }
{
    reader.enter();
    let at = reader.pass();
    colon(reader);
    statement(alloc, e, reader, done)?;
    close_default(done, defaults, at)?;
    Ok(())
}

/// A statement by itself.
pub(crate) fn one_statement(
    alloc: Global,
    e: &Expanded,
    reader: &mut Reader<'_>,
) -> Result<Stmt, AllocError>
    requires expanded { IsExpanded e.now }
    requires due { IsDue nonterminal.Statement reader.old }
    ensures { IfOk result (λ v. Reads (source_statements.statement e.now) reader.old reader.new v) }
{
    let mut done = Vec::new(alloc);
    statement(alloc, e, reader, &mut done)?;
    let value = last(&mut done);
    Ok(value)
}
