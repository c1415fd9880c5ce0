//! The file of a raw tree.
use crate::rules::raw_of;
use crate::texts::small;
use c_form::closed::bodies_closed;
use c_raw_file::file_of;
use c_tree::{CAtom, CFile, CSimple, CStatement};
use std::alloc::Global;
use std::test::Fail;

/// A loop with its `break` and an `if`, and reports before, in and behind them.
const EVALUATION: &str =
    "for ( ; ; ) { init_error ( res , 5u ) ; if ( ! v2 ) { break ; } if ( v3 ) { init_error ( res , 6u ) ; } else { } } init_error ( res , 7u ) ;";

/// How a statement is written: F for a loop, I for an `if`, R for a report, with what it holds.
fn written(alloc: Global, statement: &CStatement) -> Result<String, Fail> {
    match statement {
        CStatement::For {
            before,
            test: CAtom::Local(local),
            turn,
        } => Ok(format!(in alloc; "F{before} v{local} {turn}, ")?),
        CStatement::If {
            test: CAtom::Local(local),
            first,
            second,
        } => Ok(format!(in alloc; "I{first} v{local} {second}, ")?),
        CStatement::Simple(CSimple::Report { id }) => Ok(format!(in alloc; "R{id}, ")?),
        _ => Ok("?, ".to_string(alloc)?),
    }
}

/// The file of two modules, of which the second has this evaluation. They lack their descriptors.
fn file_with(alloc: Global, evaluation: &str) -> Result<CFile, Fail> {
    let text = small(alloc, "<eval>", evaluation)?;
    let raw = raw_of(alloc, text.as_str())?;
    if !bodies_closed(&raw) {
        return Err(Fail::from("a body that is not one block"));
    }
    match file_of(alloc, &raw) {
        Ok(file) => Ok(file),
        Err(_) => Err(Fail::from("no memory")),
    }
}

#[test]
fn blocks_are_counted(rt: HostRuntime) -> Result<(), Fail> {
    let file = file_with(rt.alloc(), EVALUATION)?;
    let m = file.modules.as_list().last().ok_or("no module")?;
    let mut row = String::new(rt.alloc());
    for statement in m.eval.as_list() {
        row.push_str(written(rt.alloc(), statement)?.as_str())?;
    }
    assert!(rt; row.as_str() == "F1 v2 2, R5, I1 v3 0, R6, R7, ");
    assert_eq!(rt; m.setup_model.as_list().len(), 0);
    assert_eq!(rt; m.name.as_bytes().len(), 0);
    assert_eq!(rt; m.ports, 0);
    Ok(())
}
