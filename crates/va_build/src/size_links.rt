//! How many operators stand behind each operand, read from the last node of a parse tree to the first.
ghost use Rattle.std.specs.Prelude.{◌≡◌, [], ◌∷◌, reverse, get_or, map, IfOk, OnOk};
ghost use Rattle.va_grammar.specs.Parts.{symbol_of};
ghost use Rattle.va_build.specs.Reading.{row_symbols};
ghost use Rattle.va_build.specs.SizeRows.{links_of};
ghost use Rattle.va_build.specs.SizeLinks as chains;

use crate::size_rules::row_parts;
use predict::ParseNode;
use std::alloc::{AllocError, Global};
use va_grammar::row;
use va_grammar::rows::Part;

/// What a tree is to the operand before it.
#[derive(Clone, Copy, Debug, PartialEq, Eq)]
pub(crate) struct Tail {
    /// How many operators it has.
    pub operators: u32,
    /// 1 where it is `?` with its two values, else 0.
    pub choices: u32,
}

/// The links of the tree of each node, that of the last node first.
pub(crate) fn tree_links(alloc: Global, nodes: &[ParseNode]) -> Result<Vec<u32>, AllocError>
    ensures { IfOk result (λ v. reverse v.items ≡ links_of nodes.now) }
{
    let mut tails = Vec::new(alloc);
    let mut links = Vec::new(alloc);
    for i in (0..nodes.len()).rev() {
        join(&mut tails, &mut links, nodes[i].row)?;
    }
    Ok(links)
}

/// Puts a tree of this row in place of the trees below it, which are the last ones, its first one at the end.
fn join(tails: &mut Vec<Tail>, links: &mut Vec<u32>, row: u16) -> Result<(), AllocError>
    ensures tails { OnOk result (reverse tails.new.items ≡ chains.tail_here (row_symbols row) (get_or (reverse tails.old.items) 1 chains.no_tail) ∷ chains.tails_behind (row_symbols row) (reverse tails.old.items)) }
    ensures links { OnOk result (reverse links.new.items ≡ chains.link_here row (row_symbols row) (get_or (reverse tails.old.items) 1 chains.no_tail) ∷ reverse links.old.items) }
{
    let parts = row_parts(row);
    let second = second_tail(tails.as_slice());
    let shape = parts_shape(parts);
    let link = link_here(row, shape, second)?;
    let tail = tail_here(shape, second)?;
    drop_trees(tails, parts);
    tails.push(tail)?;
    links.push(link)?;
    Ok(())
}

/// The second tree, counted from the end.
fn second_tail(tails: &[Tail]) -> Tail
    ensures { result ≡ get_or (reverse tails.now) 1 chains.no_tail }
{
    let count = tails.len();
    if count < 2 {
        Tail {
            operators: 0,
            choices: 0,
        }
    } else {
        tails[count - 2]
    }
}

/// Takes the trees below a row with these parts away.
fn drop_trees(tails: &mut Vec<Tail>, parts: &[Part])
    ensures { reverse tails.new.items ≡ chains.tails_behind (map symbol_of parts.now) (reverse tails.old.items) }
{
    for part in parts {
        drop_tree(tails, *part);
    }
}

/// Takes a tree away, where the part is a nonterminal.
fn drop_tree(tails: &mut Vec<Tail>, part: Part)
    ensures { reverse tails.new.items ≡ chains.tails_behind (symbol_of part ∷ []) (reverse tails.old.items) }
{
    if let Part::Rule(_) = part {
        tails.pop();
    }
}

/// How the parts of a row follow each other, as far as operators go.
#[derive(Clone, Copy, Debug, PartialEq, Eq)]
pub(crate) enum Shape {
    /// Two nonterminals: an operand and what follows it.
    Pair,
    /// A token and two nonterminals: an operator, its right operand, and the rest.
    Operator,
    /// A token, a nonterminal, a token and a nonterminal: `?` with its two values.
    Choice,
    /// Any others.
    Other,
}

/// How the parts of a row follow each other.
fn parts_shape(parts: &[Part]) -> Shape
    ensures { result ≡ chains.shape_of (map symbol_of parts.now) }
{
    match parts {
        [Part::Rule(_), Part::Rule(_)] => Shape::Pair,
        [Part::Token(_), Part::Rule(_), Part::Rule(_)] => Shape::Operator,
        [Part::Token(_), Part::Rule(_), Part::Token(_), Part::Rule(_)] => Shape::Choice,
        _ => Shape::Other,
    }
}

/// What a row of this shape is, where its second tree is this.
fn tail_here(shape: Shape, second: Tail) -> Result<Tail, AllocError>
    ensures { IfOk result (λ t. t ≡ chains.tail_by shape second) }
{
    match shape {
        Shape::Operator => {
            let operators = second.operators.checked_add(1).ok_or(AllocError)?;
            Ok(Tail {
                operators,
                choices: 0,
            })
        }
        Shape::Choice => Ok(Tail {
            operators: 0,
            choices: 1,
        }),
        Shape::Pair | Shape::Other => Ok(Tail {
            operators: 0,
            choices: 0,
        }),
    }
}

/// The links of a row of this shape, where its second tree is this.
fn link_here(row: u16, shape: Shape, second: Tail) -> Result<u32, AllocError>
    ensures { IfOk result (λ n. n ≡ chains.link_by row shape second) }
{
    match shape {
        Shape::Pair => {
            if row == row::EXPRESSION {
                Ok(second.choices)
            } else {
                Ok(second.operators)
            }
        }
        Shape::Operator => second.operators.checked_add(1).ok_or(AllocError),
        Shape::Choice | Shape::Other => Ok(0),
    }
}
