//! Whole files, and their texts that were written by hand.
use crate::sample::sample_module;
use crate::texts::{no_modules, sample};
use c_print::print;
use c_tree::{CFile, CModule};
use std::alloc::Global;
use std::test::Fail;
use va_base::Items;

/// The text of a file of these modules.
fn printed(alloc: Global, modules: Vec<CModule>) -> Result<Vec<u8>, Fail> {
    let file = CFile {
        modules: Items::new(modules),
    };
    let text = print(alloc, &file)?;
    Ok(text)
}

#[test]
fn files_have_their_texts(rt: HostRuntime) -> Result<(), Fail> {
    let alloc = rt.alloc();
    let text = printed(alloc, Vec::new(alloc))?;
    assert!(rt; text.as_slice() == no_modules(alloc)?.as_bytes());
    let text = printed(alloc, vec![in alloc; sample_module(alloc)?]?)?;
    assert!(rt; text.as_slice() == sample(alloc)?.as_bytes());
    Ok(())
}
