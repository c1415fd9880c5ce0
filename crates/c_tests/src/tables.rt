//! The tables of a file that was made by hand.
use crate::tree::{empty_module, flow, parameter, potential};
use c_tables::tables;
use c_tree::{CFile, CModule, EntryRow, NodeRow, PairRow, ParamKind, ParamRow};
use std::alloc::{AllocError, Global};
use std::test::Fail;
use va_base::Items;

const TABLES: &str = "module diode
ports 1
node 0 a \"V\" \"A\"
node 1 ci \"V\" \"A\"
node 2 flow(ci) \"A\" \"V\"
entry 0 0 rx
entry 1 2 r
entry 2 1 x
collapse 0 1
collapse 1 ref
param 0 area real instance \"\" \"\"
alias 0 a
alias 0 size
param 1 k integer model \"a \\ factor\" \"1\"
opvar 2 id real \"junction current\" \"A\"
opvar 3 on integer \"\" \"\"
module empty
ports 0
";

fn diode_nodes(alloc: Global) -> Result<Items<NodeRow>, AllocError> {
    let mut list = Vec::new(alloc);
    list.push(potential(alloc, "a")?)?;
    list.push(potential(alloc, "ci")?)?;
    list.push(flow(alloc, "flow(ci)")?)?;
    Ok(Items::new(list))
}

fn diode_entries(alloc: Global) -> Result<Items<EntryRow>, AllocError> {
    let rows = [(0, 0, true, true), (1, 2, true, false), (2, 1, false, true)];
    let mut list = Vec::new(alloc);
    for (row, col, resist, react) in rows {
        list.push(EntryRow {
            row,
            col,
            resist,
            react,
        })?;
    }
    Ok(Items::new(list))
}

fn diode_pairs(alloc: Global) -> Result<Items<PairRow>, AllocError> {
    let mut list = Vec::new(alloc);
    list.push(PairRow {
        first: 0,
        second: Some(1),
    })?;
    list.push(PairRow {
        first: 1,
        second: None,
    })?;
    Ok(Items::new(list))
}

fn diode_params(alloc: Global) -> Result<Items<ParamRow>, AllocError> {
    let current = ["junction current", "A"];
    let factor = ["a \\ factor", "1"];
    Ok(Items::new(vec![in alloc;
        parameter(
            alloc,
            &["area", "a", "size"],
            ["", ""],
            false,
            ParamKind::Inst
        )?,
        parameter(alloc, &["k"], factor, true, ParamKind::Model)?,
        parameter(alloc, &["id"], current, false, ParamKind::Opvar)?,
        parameter(alloc, &["on"], ["", ""], true, ParamKind::Opvar)?,
    ]?))
}

fn diode(alloc: Global) -> Result<CModule, AllocError> {
    let mut tree = empty_module(alloc, "diode")?;
    tree.nodes = diode_nodes(alloc)?;
    tree.ports = 1;
    tree.entries = diode_entries(alloc)?;
    tree.collapse = diode_pairs(alloc)?;
    tree.params = diode_params(alloc)?;
    Ok(tree)
}

#[test]
fn tables_of_two_modules(rt: HostRuntime) -> Result<(), Fail> {
    let mut modules = Vec::new(rt.alloc());
    modules.push(diode(rt.alloc())?)?;
    modules.push(empty_module(rt.alloc(), "empty")?)?;
    let file = CFile {
        modules: Items::new(modules),
    };
    let text = tables(rt.alloc(), &file);
    assert!(rt; text.is_ok_and(|bytes| bytes.as_slice() == TABLES.as_bytes()));
    Ok(())
}
