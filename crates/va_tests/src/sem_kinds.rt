//! The unknowns of a module: its nodes, and of its branches the one of the kind Potential and not the one that collapses.
use sqlite_items::{Boxed, Items as Children};
use std::alloc::{AllocError, Global};
use std::test::Fail;
use va_base::{Decimal, Items, Name};
use va_sem::kinds::unknowns;
use va_sem::{BranchName, Meaning, ModuleNames, NameUse, NodeName, Unknown};
use va_tree::{Expr, Item, ItemBody, Module, NameAt, Stmt};

fn numeral(mantissa: u128) -> Expr {
    Expr::Literal {
        at: 0,
        value: Decimal { mantissa, power: 0 },
        integer: true,
    }
}

/// `V(a) <+ value;`, with its access at a token
fn contribution(alloc: Global, at: u32, value: u128) -> Stmt {
    let first = NameAt {
        at: 0,
        name: Name::new(Vec::new(alloc)),
    };
    Stmt::Contribute {
        at,
        access: Name::new(Vec::new(alloc)),
        first,
        second: None,
        value: numeral(value),
    }
}

/// `analog begin V(a) <+ 1; if (1) V(c) <+ 0; end`
fn module(alloc: Global) -> Result<Module, AllocError> {
    let choice = Stmt::If {
        at: 0,
        test: numeral(1),
        yes: Boxed::new(alloc, contribution(alloc, 2, 0))?,
        no: None,
    };
    let all = vec![in alloc; contribution(alloc, 1, 1), choice]?;
    let body = Stmt::Block {
        at: 0,
        label: None,
        declarations: Items::new(Vec::new(alloc)),
        body: Children::from_vec(all),
    };
    let item = Item {
        attributes: Items::new(Vec::new(alloc)),
        body: ItemBody::Analog { at: 0, body },
    };
    Ok(Module {
        attributes: Items::new(Vec::new(alloc)),
        at: 0,
        name: Name::new(Vec::new(alloc)),
        ports: Items::new(Vec::new(alloc)),
        items: Items::new(vec![in alloc; item]?),
    })
}

fn node(alloc: Global) -> NodeName {
    NodeName {
        name: Name::new(Vec::new(alloc)),
        discipline: 0,
    }
}

/// The branch from a node to the reference node.
fn branch(plus: u32) -> BranchName {
    BranchName {
        plus,
        minus: None,
        name: None,
    }
}

/// An access to the potential of a branch, at a token.
fn potential(at: u32, branch: u32) -> NameUse {
    let meaning = Meaning::Access {
        branch,
        turned: false,
        flow: false,
    };
    NameUse { at, meaning }
}

/// What the names of the module mean.
fn names(alloc: Global) -> Result<ModuleNames, AllocError> {
    let nodes = vec![in alloc; node(alloc), node(alloc)]?;
    let branches = vec![in alloc; branch(0), branch(1)]?;
    let uses = vec![in alloc; potential(1, 0), potential(2, 1)]?;
    Ok(ModuleNames {
        nodes: Items::new(nodes),
        ports: 0,
        branches: Items::new(branches),
        params: Items::new(Vec::new(alloc)),
        vars: Items::new(Vec::new(alloc)),
        functions: Items::new(Vec::new(alloc)),
        uses: Items::new(uses),
    })
}

#[test]
fn potential_branches_are_unknowns(rt: HostRuntime) -> Result<(), Fail> {
    let alloc = rt.alloc();
    let m = module(alloc)?;
    let names = names(alloc)?;
    let list = unknowns(alloc, &m, &names).ok().ok_or("no unknowns")?;
    let wanted = [Unknown::Node(0), Unknown::Node(1), Unknown::Branch(0)];
    assert_eq!(rt; list.as_list(), wanted.as_slice());
    Ok(())
}
