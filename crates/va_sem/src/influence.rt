//! What influences the variables of a module, as edges of a graph, found in one walk over its statements.
//!
//! The nodes are the variables, one for all unknowns, one for having no condition over a statement, and one for each condition. An edge
//! leads to a variable from what is read by a value that is assigned to it, and from the condition over the assignment; to a condition
//! from what it reads, and from the condition over it.
ghost use Rattle.std.specs.Prelude.{◌≡◌, ◌+◌, ◌++◌, ◌∷◌, [], nat_lt, flat_map, IfOk};
ghost use Rattle.std.specs.Ordering.{nat_cmp};
ghost use Rattle.std.specs.BTreeMap as tree;
ghost use Rattle.va_tree.specs.Expressions.{expression_of};
ghost use Rattle.va_tree.specs.Statements.{statement_of, statements_of, items_of, defaults_of};
ghost use Rattle.va_sem.specs.LookedAt.{looked_at};
ghost use Rattle.va_sem.specs.rules.Values.{assigned, value_for, values_in, values_in_statements, values_in_items, values_in_defaults};
ghost use Rattle.va_sem.specs.rules.Findings.{values_in_else, meanings_in, looked_at_first, looked_at_if, in_expr, in_item, item_blocks, blocks_of};
ghost use Rattle.va_sem.specs.rules.Influence.{link, edges_to, Reads, nodes, added, CollectsAll, CollectsOwn};
ghost use Rattle.va_sem.specs.rules.Influence as spec;

use crate::findings::{count_looked_at, is_evaluated, meaning_at};
use crate::names::Meaning;
use graphs::Edge;
use sqlite_items::Boxed;
use std::alloc::{AllocError, Global};
use std::collections::BTreeMap;
use va_base::NoMemory;
use va_tree::{Arg, Assignment, CaseDefault, CaseItem, Expr, Item, ItemBody, Stmt};

/// Whether the number of a variable is below a number of variables.
fn is_below(variable: u32, count: usize) -> bool
    ensures { result ≡ nat_lt variable count }
{
    (variable as usize) < count
}

/// Adds the edge by which a name influences a node.
fn note_name(
    meaning: Option<Meaning>,
    target: usize,
    count: usize,
    edges: &mut Vec<Edge>,
) -> Result<(), AllocError>
    ensures { IfOk result (λ done. edges.new.items ≡ edges.old.items ++ edges_to count target (meaning ∷ [])) }
{
    match meaning {
        Some(Meaning::Access { .. }) => {
            edges.push(Edge {
                from: count,
                to: target,
            })?;
            Ok(())
        }
        Some(Meaning::Var(variable)) => {
            if is_below(variable, count) {
                edges.push(Edge {
                    from: variable as usize,
                    to: target,
                })?;
            }
            Ok(())
        }
        _ => Ok(()),
    }
}

/// The variable of the module that a name means, if it is one.
fn variable_meant(meaning: Option<Meaning>, count: usize) -> Option<usize>
    ensures { result ≡ spec.variable_meant count meaning }
{
    match meaning {
        Some(Meaning::Var(variable)) => {
            if is_below(variable, count) {
                Some(variable as usize)
            } else {
                None
            }
        }
        _ => None,
    }
}

/// Reads an expression that influences a node.
#[cycle(read)]
fn read(
    e: &Expr,
    target: usize,
    count: usize,
    meanings: &BTreeMap<u32, Meaning>,
    edges: &mut Vec<Edge>,
) -> Result<(), AllocError>
    ensures { IfOk result (λ done. Reads (tree.get nat_cmp meanings.now) count target (looked_at (expression_of e.now)) edges.old.items edges.new.items) }
{
    match e {
        Expr::Literal { .. } => Ok(()),
        Expr::Inf { .. } => Ok(()),
        Expr::Name { at, .. } => {
            let done = note_name(meaning_at(meanings, *at), target, count, edges)?;
            Ok(done)
        }
        Expr::Group { inner, .. } => {
            let done = read(inner.get(), target, count, meanings, edges)?;
            Ok(done)
        }
        Expr::Unary { operand, .. } => {
            let done = read(operand.get(), target, count, meanings, edges)?;
            Ok(done)
        }
        Expr::Binary { left, right, .. } => {
            read(left.get(), target, count, meanings, edges)?;
            let done = read(right.get(), target, count, meanings, edges)?;
            Ok(done)
        }
        Expr::Choose { test, yes, no, .. } => {
            read(test.get(), target, count, meanings, edges)?;
            read(yes.get(), target, count, meanings, edges)?;
            let done = read(no.get(), target, count, meanings, edges)?;
            Ok(done)
        }
        Expr::Call {
            at,
            callee,
            name,
            args,
        } => {
            note_name(meaning_at(meanings, *at), target, count, edges)?;
            let args = args.as_slice();
            let first = count_looked_at(*callee, name, args);
            let done = read_args(args, first, target, count, meanings, edges)?;
            Ok(done)
        }
    }
}

/// Reads so many arguments from the first on.
#[cycle(read)]
fn read_args(
    args: &[Arg],
    first: usize,
    target: usize,
    count: usize,
    meanings: &BTreeMap<u32, Meaning>,
    edges: &mut Vec<Edge>,
) -> Result<(), AllocError>
    ensures { IfOk result (λ done. Reads (tree.get nat_cmp meanings.now) count target (looked_at_first first args.now) edges.old.items edges.new.items) }
{
    let mut left = first;
    for arg in args {
        read_arg(arg, left, target, count, meanings, edges)?;
        left = left.saturating_sub(1);
    }
    Ok(())
}

/// Reads an argument, if any is left to be looked at.
#[cycle(read)]
fn read_arg(
    arg: &Arg,
    left: usize,
    target: usize,
    count: usize,
    meanings: &BTreeMap<u32, Meaning>,
    edges: &mut Vec<Edge>,
) -> Result<(), AllocError>
    ensures { IfOk result (λ done. Reads (tree.get nat_cmp meanings.now) count target (looked_at_if left arg.now) edges.old.items edges.new.items) }
{
    if left == 0 {
        return Ok(());
    }
    match arg {
        Arg::Text(_) => Ok(()),
        Arg::Expr(e) => {
            let done = read(e, target, count, meanings, edges)?;
            Ok(done)
        }
    }
}

/// Reads expressions.
fn read_exprs(
    values: &[Expr],
    target: usize,
    count: usize,
    meanings: &BTreeMap<u32, Meaning>,
    edges: &mut Vec<Edge>,
) -> Result<(), AllocError>
    ensures { IfOk result (λ done. Reads (tree.get nat_cmp meanings.now) count target (flat_map in_expr values.now) edges.old.items edges.new.items) }
{
    for value in values {
        read(value, target, count, meanings, edges)?;
    }
    Ok(())
}

/// Reads the values of the items of a `case`.
fn read_items(
    items: &[CaseItem],
    target: usize,
    count: usize,
    meanings: &BTreeMap<u32, Meaning>,
    edges: &mut Vec<Edge>,
) -> Result<(), AllocError>
    ensures { IfOk result (λ done. Reads (tree.get nat_cmp meanings.now) count target (flat_map in_item items.now) edges.old.items edges.new.items) }
{
    for item in items {
        read_exprs(item.values.as_list(), target, count, meanings, edges)?;
    }
    Ok(())
}

/// How many nodes there are with so many edges: the number of the next condition's node.
pub fn count_nodes(count: usize, edges: usize) -> Result<usize, NoMemory>
    ensures { IfOk result (λ number. number ≡ count + 2 + edges) }
{
    match count.checked_add(2) {
        None => Err(NoMemory),
        Some(first) => {
            match first.checked_add(edges) {
                None => Err(NoMemory),
                Some(number) => Ok(number),
            }
        }
    }
}

/// A new node for a condition, under the one over it.
fn add_condition(over: usize, count: usize, edges: &mut Vec<Edge>) -> Result<usize, NoMemory>
    ensures at { IfOk result (λ node. node ≡ nodes count edges.old.items) }
    ensures added { IfOk result (λ node. edges.new.items ≡ edges.old.items ++ link over node ∷ []) }
{
    let node = count_nodes(count, edges.len())?;
    edges.push(Edge {
        from: over,
        to: node,
    })?;
    Ok(node)
}

/// The node of a condition that is one expression.
fn read_condition(
    test: &Expr,
    over: usize,
    count: usize,
    meanings: &BTreeMap<u32, Meaning>,
    edges: &mut Vec<Edge>,
) -> Result<usize, NoMemory>
    ensures at { IfOk result (λ node. node ≡ nodes count edges.old.items) }
    ensures added { IfOk result (λ node. edges.new.items ≡ added count over node (meanings_in (tree.get nat_cmp meanings.now) (looked_at (expression_of test.now))) edges.old.items) }
{
    let node = add_condition(over, count, edges)?;
    read(test, node, count, meanings, edges)?;
    Ok(node)
}

/// An assignment to the variable whose name stands at a token.
fn assign(
    at: u32,
    value: &Expr,
    over: usize,
    count: usize,
    meanings: &BTreeMap<u32, Meaning>,
    edges: &mut Vec<Edge>,
) -> Result<(), AllocError>
    ensures { IfOk result (λ done. CollectsAll (tree.get nat_cmp meanings.now) count over (λ around. value_for around (assigned at) (expression_of value.now) ∷ []) edges.old.items edges.new.items) }
{
    match variable_meant(meaning_at(meanings, at), count) {
        None => Ok(()),
        Some(variable) => {
            edges.push(Edge {
                from: over,
                to: variable,
            })?;
            let done = read(value, variable, count, meanings, edges)?;
            Ok(done)
        }
    }
}

/// An assignment in the head of a `for` (Looping statements).
fn assign_in_head(
    assignment: &Assignment,
    over: usize,
    count: usize,
    meanings: &BTreeMap<u32, Meaning>,
    edges: &mut Vec<Edge>,
) -> Result<(), AllocError>
    ensures { IfOk result (λ done. CollectsAll (tree.get nat_cmp meanings.now) count over (λ around. value_for around (assigned assignment.now.target.at) (expression_of assignment.now.value) ∷ []) edges.old.items edges.new.items) }
{
    assign(
        assignment.target.at,
        &assignment.value,
        over,
        count,
        meanings,
        edges,
    )
}

/// Adds the edges of what a statement evaluates itself, before the statements in it, and answers the node of the condition over these.
fn enter(
    s: &Stmt,
    over: usize,
    count: usize,
    meanings: &BTreeMap<u32, Meaning>,
    edges: &mut Vec<Edge>,
) -> Result<usize, NoMemory>
    ensures { IfOk result (λ inside. CollectsOwn (tree.get nat_cmp meanings.now) count over (statement_of s.now) inside edges.old.items edges.new.items) }
{
    match s {
        Stmt::Null { .. } => Ok(over),
        Stmt::Block { .. } => Ok(over),
        Stmt::If { test, .. } => {
            let inside = read_condition(test, over, count, meanings, edges)?;
            Ok(inside)
        }
        Stmt::Case {
            selector,
            items,
            ..
        } => {
            let inside = read_condition(selector, over, count, meanings, edges)?;
            read_items(items.as_slice(), inside, count, meanings, edges)?;
            Ok(inside)
        }
        Stmt::For {
            first,
            test,
            step,
            ..
        } => {
            let inside = read_condition(test, over, count, meanings, edges)?;
            assign_in_head(first, inside, count, meanings, edges)?;
            assign_in_head(step, inside, count, meanings, edges)?;
            Ok(inside)
        }
        Stmt::While { test, .. } => {
            let inside = read_condition(test, over, count, meanings, edges)?;
            Ok(inside)
        }
        Stmt::Repeat { count: turns, .. } => {
            let inside = read_condition(turns, over, count, meanings, edges)?;
            Ok(inside)
        }
        Stmt::Event { .. } => Ok(over),
        Stmt::Assign { at, value, .. } => {
            assign(*at, value, over, count, meanings, edges)?;
            Ok(over)
        }
        Stmt::Contribute { .. } => Ok(over),
        Stmt::Task { .. } => Ok(over),
    }
}

/// Visits a statement, with the node of the condition over it (Analog procedural block).
#[cycle(visit)]
fn visit(
    s: &Stmt,
    over: usize,
    count: usize,
    meanings: &BTreeMap<u32, Meaning>,
    edges: &mut Vec<Edge>,
) -> Result<(), NoMemory>
    ensures { IfOk result (λ done. CollectsAll (tree.get nat_cmp meanings.now) count over (λ around. values_in around (statement_of s.now)) edges.old.items edges.new.items) }
{
    let inside = enter(s, over, count, meanings, edges)?;
    match s {
        Stmt::Null { .. } => Ok(()),
        Stmt::Block { body, .. } => {
            let done = visit_all(body.as_slice(), inside, count, meanings, edges)?;
            Ok(done)
        }
        Stmt::If { yes, no, .. } => {
            visit(yes.get(), inside, count, meanings, edges)?;
            let done = visit_else(no, inside, count, meanings, edges)?;
            Ok(done)
        }
        Stmt::Case {
            items,
            defaults,
            ..
        } => {
            visit_items(items.as_slice(), inside, count, meanings, edges)?;
            let done = visit_defaults(defaults.as_slice(), inside, count, meanings, edges)?;
            Ok(done)
        }
        Stmt::For { body, .. } => {
            let done = visit(body.get(), inside, count, meanings, edges)?;
            Ok(done)
        }
        Stmt::While { body, .. } => {
            let done = visit(body.get(), inside, count, meanings, edges)?;
            Ok(done)
        }
        Stmt::Repeat { body, .. } => {
            let done = visit(body.get(), inside, count, meanings, edges)?;
            Ok(done)
        }
        Stmt::Event { event, body, .. } => {
            if is_evaluated(*event) {
                let done = visit(body.get(), inside, count, meanings, edges)?;
                Ok(done)
            } else {
                Ok(())
            }
        }
        Stmt::Assign { .. } => Ok(()),
        Stmt::Contribute { .. } => Ok(()),
        Stmt::Task { .. } => Ok(()),
    }
}

#[cycle(visit)]
fn visit_else(
    no: &Option<Boxed<Stmt>>,
    over: usize,
    count: usize,
    meanings: &BTreeMap<u32, Meaning>,
    edges: &mut Vec<Edge>,
) -> Result<(), NoMemory>
    ensures { IfOk result (λ done. CollectsAll (tree.get nat_cmp meanings.now) count over (λ around. values_in_else around no.now) edges.old.items edges.new.items) }
{
    match no {
        None => Ok(()),
        Some(s) => {
            let done = visit(s.get(), over, count, meanings, edges)?;
            Ok(done)
        }
    }
}

/// Visits the statements of a block.
#[cycle(visit)]
fn visit_all(
    body: &[Stmt],
    over: usize,
    count: usize,
    meanings: &BTreeMap<u32, Meaning>,
    edges: &mut Vec<Edge>,
) -> Result<(), NoMemory>
    ensures { IfOk result (λ done. CollectsAll (tree.get nat_cmp meanings.now) count over (λ around. values_in_statements around (statements_of body.now)) edges.old.items edges.new.items) }
{
    for s in body {
        visit(s, over, count, meanings, edges)?;
    }
    Ok(())
}

/// Visits the statements of the items of a `case`.
#[cycle(visit)]
fn visit_items(
    items: &[CaseItem],
    over: usize,
    count: usize,
    meanings: &BTreeMap<u32, Meaning>,
    edges: &mut Vec<Edge>,
) -> Result<(), NoMemory>
    ensures { IfOk result (λ done. CollectsAll (tree.get nat_cmp meanings.now) count over (λ around. values_in_items around (items_of items.now)) edges.old.items edges.new.items) }
{
    for item in items {
        visit(&item.body, over, count, meanings, edges)?;
    }
    Ok(())
}

#[cycle(visit)]
fn visit_defaults(
    defaults: &[CaseDefault],
    over: usize,
    count: usize,
    meanings: &BTreeMap<u32, Meaning>,
    edges: &mut Vec<Edge>,
) -> Result<(), NoMemory>
    ensures { IfOk result (λ done. CollectsAll (tree.get nat_cmp meanings.now) count over (λ around. values_in_defaults around (defaults_of defaults.now)) edges.old.items edges.new.items) }
{
    for default in defaults {
        visit(&default.body, over, count, meanings, edges)?;
    }
    Ok(())
}

/// Visits the statement of an analogue block, over which no condition stands. Any other item has none.
fn visit_item(
    item: &Item,
    over: usize,
    count: usize,
    meanings: &BTreeMap<u32, Meaning>,
    edges: &mut Vec<Edge>,
) -> Result<(), NoMemory>
    ensures { IfOk result (λ done. CollectsAll (tree.get nat_cmp meanings.now) count over (λ around. flat_map (values_in around) (item_blocks item.now)) edges.old.items edges.new.items) }
{
    match &item.body {
        ItemBody::Analog { body, .. } => {
            let done = visit(body, over, count, meanings, edges)?;
            Ok(done)
        }
        _ => Ok(()),
    }
}

/// The edges of a module with `count` variables. Node `count` is that of the unknowns, the next that of no condition.
pub fn influences(
    alloc: Global,
    count: usize,
    items: &[Item],
    meanings: &BTreeMap<u32, Meaning>,
) -> Result<Vec<Edge>, NoMemory>
    ensures { IfOk result (λ edges. CollectsAll (tree.get nat_cmp meanings.now) count (count + 1) (λ around. flat_map (values_in around) (blocks_of items.now)) [] edges.items) }
{
    let over = no_condition(count)?;
    let mut edges = Vec::new(alloc);
    for item in items {
        visit_item(item, over, count, meanings, &mut edges)?;
    }
    Ok(edges)
}

/// The node of having no condition.
fn no_condition(count: usize) -> Result<usize, NoMemory>
    ensures { IfOk result (λ node. node ≡ count + 1) }
{
    match count.checked_add(1) {
        None => Err(NoMemory),
        Some(node) => Ok(node),
    }
}
