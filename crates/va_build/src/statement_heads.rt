//! The heads of statements: what stands before the statements in them.
ghost use Rattle.std.specs.Prelude.{◌≡◌, true, [], ◌∷◌, IfOk};
ghost use Rattle.predict.specs.Table.{is_among};
ghost use Rattle.va_base.specs.Expansion.{IsExpanded};
ghost use Rattle.va_grammar.specs.Rows.{rule, token};
ghost use Rattle.va_grammar.specs.declared.nonterminal.Nonterminal.TheVariants as nonterminal;
ghost use Rattle.va_grammar.specs.declared.terminal.Terminal.TheVariants as terminal;
ghost use Rattle.va_build.specs.Due.{AreDue, IsDue, next_row, turn_rows, loop_rows, IsConditionDue, IsAssignmentDue};
ghost use Rattle.va_build.specs.Reading.{first_tree, trees};
ghost use Rattle.va_build.specs.SourceStatements.{statement};
ghost use Rattle.va_build.specs.StatementHeads.{OneLeft, TwoLeft, ReadsAssignment, ReadsCondition, turn_of, if_of, case_of};

use crate::read_expressions::expression;
use crate::read_names::named;
use crate::reader::Reader;
use crate::statement_parts::event;
use sqlite_items::Boxed;
use std::alloc::{AllocError, Global};
use va_base::{Expanded, Items};
use va_grammar::row;
use va_tree::{Assignment, EventKind, Expr, NameAt, Stmt};

/// What stands in parentheses behind a keyword. `at` is the index of the keyword.
#[derive(Drop)]
pub(crate) struct Condition {
    pub at: u32,
    pub value: Expr,
}

/// What stands before the one statement in a statement.
#[derive(Drop)]
pub(crate) enum Turn {
    For {
        at: u32,
        first: Assignment,
        test: Expr,
        step: Assignment,
    },
    While(Condition),
    Repeat(Condition),
    Wait {
        at: u32,
        event: EventKind,
        analyses: Items<NameAt>,
    },
}

/// A keyword, and an expression in parentheses.
fn read_condition(
    alloc: Global,
    e: &Expanded,
    reader: &mut Reader<'_>,
) -> Result<Condition, AllocError>
    requires expanded { IsExpanded e.now }
    requires due { IsConditionDue reader.old }
    ensures { IfOk result (ReadsCondition e.now reader.old reader.new) }
{
    let at = reader.pass();
    reader.pass();
    let value = expression(alloc, e, reader)?;
    reader.pass();
    Ok(Condition { at, value })
}

/// The head of an `if`.
pub(crate) fn if_head(
    alloc: Global,
    e: &Expanded,
    reader: &mut Reader<'_>,
) -> Result<Condition, AllocError>
    requires expanded { IsExpanded e.now }
    requires due { IsDue nonterminal.Statement reader.old }
    requires row { next_row reader.old ≡ 90 }
    ensures left { IfOk result (λ c. TwoLeft e.now reader.old reader.new (if_of e.now reader.new c)) }
    ensures due { IfOk result (λ _. AreDue (rule nonterminal.Statement ∷ rule nonterminal.ElseBranch ∷ []) reader.new) }
{
    reader.enter();
    let test = read_condition(alloc, e, reader)?;
    Ok(test)
}

/// The head of a `case`.
pub(crate) fn case_head(
    alloc: Global,
    e: &Expanded,
    reader: &mut Reader<'_>,
) -> Result<Condition, AllocError>
    requires expanded { IsExpanded e.now }
    requires due { IsDue nonterminal.Statement reader.old }
    requires row { next_row reader.old ≡ 91 }
    ensures left { IfOk result (λ c. OneLeft e.now reader.old reader.new 1 (case_of e.now reader.new c)) }
    ensures due { IfOk result (λ _. AreDue (rule nonterminal.CaseItems ∷ token terminal.Endcase ∷ []) reader.new) }
{
    reader.enter();
    let selector = read_condition(alloc, e, reader)?;
    Ok(selector)
}

/// What stands before the statement of a loop or a wait.
pub(crate) fn read_turn(
    alloc: Global,
    e: &Expanded,
    reader: &mut Reader<'_>,
) -> Result<Turn, AllocError>
    requires expanded { IsExpanded e.now }
    requires due { IsDue nonterminal.Statement reader.old }
    requires row { is_among turn_rows (next_row reader.old) ≡ true }
    ensures left { IfOk result (λ t. OneLeft e.now reader.old reader.new 0 (turn_of t (statement e.now reader.new.at (first_tree (trees reader.new))))) }
    ensures due { IfOk result (λ _. IsDue nonterminal.Statement reader.new) }
{
    match reader.peek() {
        row::FOR => for_head(alloc, e, reader),
        row::WAIT => wait_head(alloc, e, reader),
        _ => loop_head(alloc, e, reader),
    }
}

/// `name = expression`
fn read_assignment(
    alloc: Global,
    e: &Expanded,
    reader: &mut Reader<'_>,
) -> Result<Assignment, AllocError>
    requires expanded { IsExpanded e.now }
    requires due { IsAssignmentDue reader.old }
    ensures { IfOk result (ReadsAssignment e.now reader.old reader.new) }
{
    let target = named(alloc, e, reader)?;
    reader.pass();
    let value = expression(alloc, e, reader)?;
    Ok(Assignment { target, value })
}

fn for_head(alloc: Global, e: &Expanded, reader: &mut Reader<'_>) -> Result<Turn, AllocError>
    requires expanded { IsExpanded e.now }
    requires due { IsDue nonterminal.Statement reader.old }
    requires row { next_row reader.old ≡ 92 }
    ensures left { IfOk result (λ t. OneLeft e.now reader.old reader.new 0 (turn_of t (statement e.now reader.new.at (first_tree (trees reader.new))))) }
    ensures due { IfOk result (λ _. IsDue nonterminal.Statement reader.new) }
{
    reader.enter();
    let at = reader.pass();
    reader.pass();
    let first = read_assignment(alloc, e, reader)?;
    reader.pass();
    let test = expression(alloc, e, reader)?;
    reader.pass();
    let step = read_assignment(alloc, e, reader)?;
    reader.pass();
    Ok(Turn::For {
        at,
        first,
        test,
        step,
    })
}

fn loop_head(alloc: Global, e: &Expanded, reader: &mut Reader<'_>) -> Result<Turn, AllocError>
    requires expanded { IsExpanded e.now }
    requires due { IsDue nonterminal.Statement reader.old }
    requires row { is_among loop_rows (next_row reader.old) ≡ true }
    ensures left { IfOk result (λ t. OneLeft e.now reader.old reader.new 0 (turn_of t (statement e.now reader.new.at (first_tree (trees reader.new))))) }
    ensures due { IfOk result (λ _. IsDue nonterminal.Statement reader.new) }
{
    match reader.enter() {
        row::WHILE => {
            let test = read_condition(alloc, e, reader)?;
            Ok(Turn::While(test))
        }
        row::REPEAT => {
            let count = read_condition(alloc, e, reader)?;
            Ok(Turn::Repeat(count))
        }
        _ => unreachable!(),
    }
}

fn wait_head(alloc: Global, e: &Expanded, reader: &mut Reader<'_>) -> Result<Turn, AllocError>
    requires expanded { IsExpanded e.now }
    requires due { IsDue nonterminal.Statement reader.old }
    requires row { next_row reader.old ≡ 95 }
    ensures left { IfOk result (λ t. OneLeft e.now reader.old reader.new 0 (turn_of t (statement e.now reader.new.at (first_tree (trees reader.new))))) }
    ensures due { IfOk result (λ _. IsDue nonterminal.Statement reader.new) }
{
    reader.enter();
    let at = reader.pass();
    reader.pass();
    let head = event(alloc, e, reader)?;
    reader.pass();
    Ok(Turn::Wait {
        at,
        event: head.event,
        analyses: Items::new(head.analyses),
    })
}

/// A head and the statement behind it.
pub(crate) fn with_body(alloc: Global, turn: Turn, body: Stmt) -> Result<Stmt, AllocError>
    ensures { IfOk result (λ v. v ≡ turn_of turn body) }
{
    let body = Boxed::new(alloc, body)?;
    match turn {
        Turn::For {
            at,
            first,
            test,
            step,
        } => Ok(Stmt::For {
            at,
            first,
            test,
            step,
            body,
        }),
        Turn::While(c) => Ok(Stmt::While {
            at: c.at,
            test: c.value,
            body,
        }),
        Turn::Repeat(c) => Ok(Stmt::Repeat {
            at: c.at,
            count: c.value,
            body,
        }),
        Turn::Wait {
            at,
            event,
            analyses,
        } => Ok(Stmt::Event {
            at,
            event,
            analyses,
            body,
        }),
    }
}
