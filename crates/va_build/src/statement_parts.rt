//! Reading what statements are made of, but for the statements in them.
//!
//! Each function takes the next tree of the parse tree, and its tokens with it.
ghost use Rattle.std.specs.Prelude.{◌≡◌, true, [], ◌∷◌, IfOk};
ghost use Rattle.va_base.specs.Expansion.{IsExpanded};
ghost use Rattle.va_grammar.specs.declared.nonterminal.Nonterminal.TheVariants as nonterminal;
ghost use Rattle.predict.specs.Table.{is_among};
ghost use Rattle.va_build.specs.Due.{IsDue, next_row, simple_rows};
ghost use Rattle.va_build.specs.Reading.{Reads, first_tree, trees};
ghost use Rattle.va_build.specs.SourceStatements as source_statements;

use crate::read_expressions::{arguments, expression};
use crate::read_names::{name_at, named};
use crate::reader::Reader;
use std::alloc::{AllocError, Global};
use va_base::{Expanded, Items};
use va_grammar::row;
use va_tree::{Arg, Declaration, EventKind, Expr, NameAt, Stmt, Ty, Variable};

/// The second name between parentheses, if there is one.
pub(crate) fn second_node(
    alloc: Global,
    e: &Expanded,
    reader: &mut Reader<'_>,
) -> Result<Option<NameAt>, AllocError>
    requires expanded { IsExpanded e.now }
    requires due { IsDue nonterminal.SecondNode reader.old }
    ensures { IfOk result (λ v. Reads (source_statements.second_node e.now) reader.old reader.new v) }
{
    match reader.enter() {
        row::SECOND_NODE => {
            reader.pass();
            let name = named(alloc, e, reader)?;
            Ok(Some(name))
        }
        row::NO_SECOND_NODE => Ok(None),
        _ => unreachable!(),
    }
}

/// The first value of a variable, if it is given.
fn initialiser(
    alloc: Global,
    e: &Expanded,
    reader: &mut Reader<'_>,
) -> Result<Option<Expr>, AllocError>
    requires expanded { IsExpanded e.now }
    requires due { IsDue nonterminal.Initialiser reader.old }
    ensures { IfOk result (λ v. Reads (source_statements.initialiser e.now) reader.old reader.new v) }
{
    match reader.enter() {
        row::INITIALISER => {
            reader.pass();
            let value = expression(alloc, e, reader)?;
            Ok(Some(value))
        }
        row::NO_INITIALISER => Ok(None),
        _ => unreachable!(),
    }
}

/// A variable.
fn variable(alloc: Global, e: &Expanded, reader: &mut Reader<'_>) -> Result<Variable, AllocError>
    requires expanded { IsExpanded e.now }
    requires due { IsDue nonterminal.Variable reader.old }
    ensures { IfOk result (λ v. Reads (source_statements.variable e.now) reader.old reader.new (v ∷ [])) }
{
    reader.enter();
    let name = named(alloc, e, reader)?;
    let initialiser = initialiser(alloc, e, reader)?;
    Ok(Variable { name, initialiser })
}

/// Variables with their first values.
pub(crate) fn variables(
    alloc: Global,
    e: &Expanded,
    reader: &mut Reader<'_>,
) -> Result<Vec<Variable>, AllocError>
    requires expanded { IsExpanded e.now }
    requires due { IsDue nonterminal.Variables reader.old }
    ensures { IfOk result (λ v. Reads (source_statements.variables e.now) reader.old reader.new v.items) }
{
    reader.enter();
    let first = variable(alloc, e, reader)?;
    let list = variables_behind(alloc, e, reader, first)?;
    Ok(list)
}

/// A variable, and those behind it.
fn variables_behind(
    alloc: Global,
    e: &Expanded,
    reader: &mut Reader<'_>,
    first: Variable,
) -> Result<Vec<Variable>, AllocError>
    requires expanded { IsExpanded e.now }
    requires due { IsDue nonterminal.MoreVariables reader.old }
    ensures { IfOk result (λ v. Reads (λ at t. first ∷ source_statements.more_variables e.now at t) reader.old reader.new v.items) }
{
    let mut list = vec![in alloc; first]?;
    loop {
        match reader.enter() {
            row::MORE_VARIABLES => {
                reader.pass();
                let next = variable(alloc, e, reader)?;
                list.push(next)?;
            }
            row::NO_MORE_VARIABLES => return Ok(list),
            _ => unreachable!(),
        }
    }
}

/// The name of a block, if it has one.
pub(crate) fn label(
    alloc: Global,
    e: &Expanded,
    reader: &mut Reader<'_>,
) -> Result<Option<NameAt>, AllocError>
    requires expanded { IsExpanded e.now }
    requires due { IsDue nonterminal.Label reader.old }
    ensures { IfOk result (λ v. Reads (source_statements.label e.now) reader.old reader.new v) }
{
    match reader.enter() {
        row::LABEL => {
            reader.pass();
            let name = named(alloc, e, reader)?;
            Ok(Some(name))
        }
        row::NO_LABEL => Ok(None),
        _ => unreachable!(),
    }
}

/// Variables of one type.
fn declaration(
    alloc: Global,
    e: &Expanded,
    reader: &mut Reader<'_>,
) -> Result<Declaration, AllocError>
    requires expanded { IsExpanded e.now }
    requires due { IsDue nonterminal.Declaration reader.old }
    ensures { IfOk result (λ v. Reads (source_statements.declaration e.now) reader.old reader.new (v ∷ [])) }
{
    let row = reader.enter();
    let at = reader.pass();
    let list = variables(alloc, e, reader)?;
    reader.pass();
    match row {
        row::DECLARED_REAL => Ok(declared(at, Ty::Real, list)),
        row::DECLARED_INTEGER => Ok(declared(at, Ty::Integer, list)),
        _ => unreachable!(),
    }
}

/// Variables of this type.
pub(crate) fn declared(at: u32, ty: Ty, list: Vec<Variable>) -> Declaration
    ensures at { result.at ≡ at }
    ensures ty { result.ty ≡ ty }
    ensures variables { result.variables ≡ list.items }
{
    Declaration {
        at,
        ty,
        variables: Items::new(list),
    }
}

/// The variables of a block.
pub(crate) fn declarations(
    alloc: Global,
    e: &Expanded,
    reader: &mut Reader<'_>,
) -> Result<Vec<Declaration>, AllocError>
    requires expanded { IsExpanded e.now }
    requires due { IsDue nonterminal.Declarations reader.old }
    ensures { IfOk result (λ v. Reads (source_statements.declarations e.now) reader.old reader.new v.items) }
{
    let mut list = Vec::new(alloc);
    loop {
        match reader.enter() {
            row::DECLARATIONS => {
                let next = declaration(alloc, e, reader)?;
                list.push(next)?;
            }
            row::NO_DECLARATIONS => return Ok(list),
            _ => unreachable!(),
        }
    }
}

/// A value of a `case` item, and those behind it.
pub(crate) fn values_behind(
    alloc: Global,
    e: &Expanded,
    reader: &mut Reader<'_>,
    first: Expr,
) -> Result<Vec<Expr>, AllocError>
    requires expanded { IsExpanded e.now }
    requires due { IsDue nonterminal.MoreCaseValues reader.old }
    ensures { IfOk result (λ v. Reads (λ at t. first ∷ source_statements.more_values e.now at t) reader.old reader.new v.items) }
{
    let mut list = vec![in alloc; first]?;
    loop {
        match reader.enter() {
            row::MORE_VALUES => {
                reader.pass();
                let next = expression(alloc, e, reader)?;
                list.push(next)?;
            }
            row::NO_MORE_VALUES => return Ok(list),
            _ => unreachable!(),
        }
    }
}

/// An analysis of an event, and those behind it.
fn analyses_behind(
    alloc: Global,
    e: &Expanded,
    reader: &mut Reader<'_>,
    first: NameAt,
) -> Result<Vec<NameAt>, AllocError>
    requires expanded { IsExpanded e.now }
    requires due { IsDue nonterminal.MoreEventArguments reader.old }
    ensures { IfOk result (λ v. Reads (λ at t. first ∷ source_statements.more_analyses e.now at t) reader.old reader.new v.items) }
{
    let mut list = vec![in alloc; first]?;
    loop {
        match reader.enter() {
            row::MORE_ANALYSES => {
                reader.pass();
                let next = named(alloc, e, reader)?;
                list.push(next)?;
            }
            row::NO_MORE_ANALYSES => return Ok(list),
            _ => unreachable!(),
        }
    }
}

/// The analyses of an event, if it lists any.
fn analyses(alloc: Global, e: &Expanded, reader: &mut Reader<'_>) -> Result<Vec<NameAt>, AllocError>
    requires expanded { IsExpanded e.now }
    requires due { IsDue nonterminal.EventArguments reader.old }
    ensures { IfOk result (λ v. Reads (source_statements.analyses e.now) reader.old reader.new v.items) }
{
    match reader.enter() {
        row::ANALYSES => {
            reader.pass();
            let first = named(alloc, e, reader)?;
            let list = analyses_behind(alloc, e, reader, first)?;
            reader.pass();
            Ok(list)
        }
        row::NO_ANALYSES => Ok(Vec::new(alloc)),
        _ => unreachable!(),
    }
}

/// An event, and its analyses.
#[derive(Drop)]
pub(crate) struct EventHead {
    pub event: EventKind,
    pub analyses: Vec<NameAt>,
}

/// What a statement waits for (Events).
pub(crate) fn event(
    alloc: Global,
    e: &Expanded,
    reader: &mut Reader<'_>,
) -> Result<EventHead, AllocError>
    requires expanded { IsExpanded e.now }
    requires due { IsDue nonterminal.Event reader.old }
    ensures analyses { IfOk result (λ v. Reads (source_statements.event_analyses e.now) reader.old reader.new v.analyses.items) }
    ensures event { IfOk result (λ v. v.event ≡ source_statements.event_kind (first_tree (trees reader.old))) }
{
    match reader.enter() {
        row::INITIAL_STEP => {
            reader.pass();
            let analyses = analyses(alloc, e, reader)?;
            Ok(EventHead {
                event: EventKind::InitialStep,
                analyses,
            })
        }
        row::FINAL_STEP => {
            reader.pass();
            let analyses = analyses(alloc, e, reader)?;
            Ok(EventHead {
                event: EventKind::FinalStep,
                analyses,
            })
        }
        _ => unreachable!(),
    }
}

/// An assignment or a contribution, behind the name with which it begins.
fn named_statement(
    alloc: Global,
    e: &Expanded,
    reader: &mut Reader<'_>,
    at: u32,
) -> Result<Stmt, AllocError>
    requires expanded { IsExpanded e.now }
    requires due { IsDue nonterminal.StatementRest reader.old }
    ensures { IfOk result (λ v. Reads (source_statements.named_statement e.now at) reader.old reader.new v) }
{
    let name = name_at(alloc, e, at)?;
    match reader.enter() {
        row::ASSIGN => {
            reader.pass();
            let value = expression(alloc, e, reader)?;
            reader.pass();
            Ok(Stmt::Assign {
                at,
                target: name,
                value,
            })
        }
        row::CONTRIBUTE => {
            reader.pass();
            let first = named(alloc, e, reader)?;
            let second = second_node(alloc, e, reader)?;
            reader.pass();
            reader.pass();
            let value = expression(alloc, e, reader)?;
            reader.pass();
            Ok(Stmt::Contribute {
                at,
                access: name,
                first,
                second,
                value,
            })
        }
        _ => unreachable!(),
    }
}

/// The arguments of a task between parentheses, if it has any.
fn task_arguments(
    alloc: Global,
    e: &Expanded,
    reader: &mut Reader<'_>,
) -> Result<Vec<Arg>, AllocError>
    requires expanded { IsExpanded e.now }
    requires due { IsDue nonterminal.TaskArguments reader.old }
    ensures { IfOk result (λ v. Reads (source_statements.task_arguments e.now) reader.old reader.new v.items) }
{
    match reader.enter() {
        row::TASK_ARGUMENTS => {
            reader.pass();
            let args = arguments(alloc, e, reader)?;
            reader.pass();
            Ok(args)
        }
        row::NO_TASK_ARGUMENTS => Ok(Vec::new(alloc)),
        _ => unreachable!(),
    }
}

/// A statement that holds no other: an assignment, a contribution, a task, or `;`.
pub(crate) fn simple(
    alloc: Global,
    e: &Expanded,
    reader: &mut Reader<'_>,
) -> Result<Stmt, AllocError>
    requires expanded { IsExpanded e.now }
    requires due { IsDue nonterminal.Statement reader.old }
    requires row { is_among simple_rows (next_row reader.old) ≡ true }
    ensures { IfOk result (λ v. Reads (source_statements.statement e.now) reader.old reader.new v) }
{
    match reader.enter() {
        row::NAMED => {
            let at = reader.pass();
            let value = named_statement(alloc, e, reader, at)?;
            Ok(value)
        }
        row::TASK => {
            let at = reader.pass();
            let name = name_at(alloc, e, at)?;
            let args = task_arguments(alloc, e, reader)?;
            reader.pass();
            Ok(Stmt::Task {
                at,
                name,
                args: Items::new(args),
            })
        }
        row::NULL => {
            let at = reader.pass();
            Ok(Stmt::Null { at })
        }
        _ => unreachable!(),
    }
}

/// A colon, if there is one.
pub(crate) fn colon(reader: &mut Reader<'_>)
    requires due { IsDue nonterminal.OptionalColon reader.old }
    ensures { Reads {X = Unit {0}} (λ _ _. tt) reader.old reader.new tt }
{
    match reader.enter() {
        row::COLON => {
            reader.pass();
        }
        row::NO_COLON => {}
        _ => unreachable!(),
    }
}
