//! Which files an expansion reads, and what it answers where a read fails.
use crate::expansion::{answer_of, files_of};
use crate::reading::file;
use std::test::Fail;

/// A text with six reads, in the order of the text, and what is answered where the read of each number fails.
const READS: &str =
    r#"a `include "b.h" d|`include "c.h"|`include "gone.h"|`include "b.h"|@@b.h b `include "e.h"|@@c.h c|@@e.h e|"#;

const READ_ANSWERS: &str = "m.va:3:1: MissingInclude
failed m.va
failed b.h
failed e.h
failed c.h
failed gone.h
m.va:3:1: MissingInclude";

#[test]
fn each_read_may_fail(rt: HostRuntime) -> Result<(), Fail> {
    let alloc = rt.alloc();
    for (number, want) in READ_ANSWERS.lines().enumerate() {
        let found = answer_of(alloc, files_of(alloc, READS)?, "m.va", number as u64)?;
        assert_eq!(rt; found.as_str(), want, "read {number}");
    }
    Ok(())
}

/// A text whose only read is that of the main file: what is skipped is not read, and can't fail.
const SKIPPED: &str = r#"`ifdef A|`include "b.h"|`endif|`define B `include|x|@@b.h b|"#;

/// Files in folders. Names are found from the folder of the file that includes.
const FOLDERS: &str =
    r#"|@@d/e/m.va `include "f/b.h"|@@d/e/f/b.h `include "c.h"|`include "/g.h"|`include "../h.h"|@@d/e/f/c.h c|@@/g.h g|@@d/e/f/../h.h h|"#;

#[test]
fn files_that_are_reached_are_read(rt: HostRuntime) -> Result<(), Fail> {
    let alloc = rt.alloc();
    let skipped = answer_of(alloc, files_of(alloc, SKIPPED)?, "m.va", 2)?;
    assert_eq!(rt; skipped.as_str(), "x");
    let missing = answer_of(alloc, files_of(alloc, SKIPPED)?, "none.va", 0)?;
    assert_eq!(rt; missing.as_str(), "missing");
    let found = answer_of(alloc, files_of(alloc, FOLDERS)?, "d/e/m.va", 0)?;
    assert_eq!(rt; found.as_str(), "c g h");
    // a string that is no UTF-8 names no file
    let main = file(alloc, "m.va", b"x `include \"\xff\"".to_vec(alloc)?)?;
    let refused = answer_of(alloc, vec![in alloc; main]?, "m.va", 0)?;
    assert_eq!(rt; refused.as_str(), "m.va:1:3: Directive");
    Ok(())
}
