//! `predict`: sentences of three small grammars, their trees, and the first bad token of other texts.
ghost use Rattle.std.specs.Prelude.{◌≡◌, [], ◌∷◌, ◌++◌, IfOk};

use crate::grammars::{Branches, Groups, Pairs};
use predict::{Grammar, ParseErr, ParseNode, ParseTree, parse};
use std::alloc::{AllocError, Global};
use std::process::Abort;
use std::test::Fail;

/// These kinds, with the end kind behind them.
fn ended<G: Grammar>(alloc: Global, grammar: &G, text: &[u16]) -> Result<Vec<u16>, AllocError>
    ensures { IfOk result (λ kinds. kinds.items ≡ text.now ++ (G.rules grammar.now).end_kind ∷ []) }
{
    let mut kinds = Vec::from_slice(alloc, text)?;
    kinds.push(grammar.end_kind())?;
    Ok(kinds)
}

/// What the parser answers for these kinds with the end kind behind them.
fn answer<G: Grammar>(alloc: Global, grammar: &G, text: &[u16]) -> Result<ParseTree, ParseErr> {
    let kinds = ended(alloc, grammar, text)?;
    parse(alloc, grammar, kinds.as_slice())
}

/// The text is a sentence, and its tree has nodes of these rows and so many children.
fn expect_tree<G: Grammar>(
    rt: &impl Abort,
    alloc: Global,
    grammar: &G,
    text: &[u16],
    nodes: &[(u16, u32)],
) {
    match answer(alloc, grammar, text) {
        Ok(tree) => {
            assert_eq!(rt; tree.len(), nodes.len(), "{text:?}");
            for (own, (row, children)) in tree.nodes().iter().zip(nodes) {
                let want = ParseNode {
                    row: *row,
                    children: *children,
                };
                assert_eq!(rt; *own, want, "{text:?}");
            }
        }
        Err(_) => panic!(rt; "{text:?} is refused"),
    }
}

/// The kind with this number is blamed.
fn expect_blame<G: Grammar>(rt: &impl Abort, alloc: Global, grammar: &G, text: &[u16], at: usize) {
    match answer(alloc, grammar, text) {
        Ok(_) => panic!(rt; "{text:?} is parsed"),
        Err(error) => assert_eq!(rt; error, ParseErr::At(at), "{text:?}"),
    }
}

#[test]
fn each_a_has_its_b(rt: HostRuntime) {
    let trees: [(&[u16], &[(u16, u32)]); 2] = [
        (&[1, 2], &[(0, 1), (1, 1), (2, 0)]),
        (&[], &[(0, 1), (2, 0)]),
    ];
    for (text, nodes) in trees {
        expect_tree(&rt, rt.alloc(), &Pairs, text, nodes);
    }
    // The second row blames the end kind.
    let blames: [(&[u16], usize); 4] = [(&[1, 2, 2], 2), (&[1], 1), (&[1, 1, 1], 3), (&[2], 0)];
    for (text, at) in blames {
        expect_blame(&rt, rt.alloc(), &Pairs, text, at);
    }
}

#[test]
fn else_binds_to_nearest_if(rt: HostRuntime) {
    let nodes = [(0, 2), (0, 2), (1, 0), (2, 1), (1, 0), (3, 0)];
    expect_tree(&rt, rt.alloc(), &Branches, &[1, 1, 3, 2, 3], &nodes);
    // the second `else`
    expect_blame(&rt, rt.alloc(), &Branches, &[1, 3, 2, 3, 2, 3], 4);
    expect_blame(&rt, rt.alloc(), &Branches, &[], 0);
}

#[test]
fn empty_before_others(rt: HostRuntime) {
    let trees: [(&[u16], &[(u16, u32)]); 4] = [
        (&[3], &[(0, 3), (3, 0), (5, 0), (1, 0)]),
        (&[2, 1, 3], &[(0, 3), (3, 0), (4, 1), (2, 0), (1, 0)]),
        (&[], &[(1, 0)]),
        (
            &[3, 3],
            &[(0, 3), (3, 0), (5, 0), (0, 3), (3, 0), (5, 0), (1, 0)],
        ),
    ];
    for (text, nodes) in trees {
        expect_tree(&rt, rt.alloc(), &Groups, text, nodes);
    }
    let blames: [(&[u16], usize); 3] = [(&[1, 1], 1), (&[2, 2], 1), (&[3, 1], 2)];
    for (text, at) in blames {
        expect_blame(&rt, rt.alloc(), &Groups, text, at);
    }
}

/// As many a's, and then as many b's.
fn nested(alloc: Global, depth: usize) -> Result<Vec<u16>, AllocError> {
    let mut text = Vec::with_capacity(alloc, depth)?;
    for _ in 0..depth {
        text.push(1)?;
    }
    for _ in 0..depth {
        text.push(2)?;
    }
    Ok(text)
}

#[test]
fn deep_nesting(rt: HostRuntime) -> Result<(), Fail> {
    let text = nested(rt.alloc(), 100_000)?;
    match answer(rt.alloc(), &Pairs, text.as_slice()) {
        Ok(tree) => {
            assert_eq!(rt; tree.len(), 100_002);
            let last = tree.node(100_001);
            assert_eq!(rt; (last.row, last.children), (2, 0));
        }
        Err(_) => panic!(rt; "refused"),
    }
    assert_eq!(rt; ParseErr::from(AllocError), ParseErr::NoMemory);
    Ok(())
}
