//! The command `compile`: macros, includes and limits, and what is refused.
use crate::answers::{NONE, answer_over, answer_to, assert_ends, file, row_files};
use crate::samples::{RESISTOR, TEXTS};
use std::alloc::{AllocError, Global};
use std::test::Fail;
use va_base::FileText;
use va_command::Status;

#[test]
fn a_resistor_is_compiled(rt: HostRuntime) -> Result<(), Fail> {
    let done = answer_to(rt.alloc(), "compile m.va", RESISTOR.as_bytes(), NONE)?;
    assert_eq!(rt; done.status, Status::Done);
    assert!(rt;
        done.out
            .as_slice()
            .starts_with(b"#include \"osdi_0_3.h\"\n")
    );
    assert!(rt; done.err.is_empty());
    Ok(())
}

/// A file of the most bytes that one may have, and one that passes this limit.
#[test]
fn a_file_past_its_limit_is_refused(rt: HostRuntime) -> Result<(), Fail> {
    let mut text = RESISTOR.as_bytes().to_vec(rt.alloc())?;
    text.resize(1 << 24, b' ')?;
    let most = answer_to(rt.alloc(), "compile m.va", text.as_slice(), NONE)?;
    assert_eq!(rt; most.status, Status::Done);
    text.push(b' ')?;
    let past = answer_to(rt.alloc(), "compile m.va", text.as_slice(), NONE)?;
    assert_eq!(rt; past.status, Status::Refused);
    assert_eq!(rt; past.err.as_slice(), "m.va:1:1: FileLarge\n".as_bytes());
    Ok(())
}

#[test]
fn texts_are_expanded(rt: HostRuntime) -> Result<(), Fail> {
    for row in TEXTS.split('~') {
        let (command, rest) = row.split_once('>').ok_or("a row without a command")?;
        let (line, _) = rest.split_once('@').ok_or("a row without a file")?;
        let list = row_files(rt.alloc(), row)?;
        let end = answer_over(rt.alloc(), command, list, NONE)?;
        assert_ends(&rt, &end, line, row);
    }
    Ok(())
}

/// Macros of which each uses the one before it so often, the first being `1`, and then a use of one of them.
fn macros(alloc: Global, count: u32, uses: u32, used: u32) -> Result<String, AllocError> {
    let mut text = String::from_str(alloc, "`define M0")?;
    for _ in 0..uses {
        text.push_str(" 1")?;
    }
    for i in 1..count {
        let before = i.saturating_sub(1);
        text.push_str(format!(in alloc; "\n`define M{i}")?.as_str())?;
        for _ in 0..uses {
            text.push_str(format!(in alloc; " `M{before}")?.as_str())?;
        }
    }
    text.push_str(format!(in alloc; "\n`M{used}\n")?.as_str())?;
    Ok(text)
}

#[test]
fn macros_are_limited(rt: HostRuntime) -> Result<(), Fail> {
    let rows = [
        (64, 1, 63, "m.va:65:1: Syntax"),
        (65, 1, 63, "m.va:66:1: Syntax"),
        (65, 1, 64, "m.va:66:1: MacroDeep"),
        (26, 2, 25, "m.va:27:1: TokensMany"),
        (26, 2, 10, "m.va:27:1: Syntax"),
    ];
    for (count, uses, used, line) in rows {
        let text = macros(rt.alloc(), count, uses, used)?;
        let end = answer_to(rt.alloc(), "compile m.va", text.as_bytes(), NONE)?;
        assert_ends(&rt, &end, line, line);
    }
    Ok(())
}

/// The files `f0.va`, `f1.h` and so on up to the one of this number, each of which includes the next; the last one has this text.
fn chain(alloc: Global, last: u32, text: &str) -> Result<Vec<FileText>, AllocError> {
    let mut list = Vec::new(alloc);
    for i in 0..last {
        let next = i.saturating_add(1);
        let name = if i == 0 {
            "f0.va".to_string(alloc)?
        } else {
            format!(in alloc; "f{i}.h")?
        };
        let include = format!(in alloc; "`include \"f{next}.h\"\n")?;
        list.push(file(alloc, name.as_str(), include.as_bytes())?)?;
    }
    let name = format!(in alloc; "f{last}.h")?;
    list.push(file(alloc, name.as_str(), text.as_bytes())?)?;
    Ok(list)
}

#[test]
fn includes_are_limited(rt: HostRuntime) -> Result<(), Fail> {
    let rows = [
        (32, "", "f0.va:2:1: Unbuilt"),
        (32, RESISTOR, ""),
        (32, "`include \"f33.h\"\n", "f32.h:1:1: IncludeDeep"),
        (31, "`include \"f33.h\"\n", "f31.h:1:1: MissingInclude"),
    ];
    for (last, text, line) in rows {
        let list = chain(rt.alloc(), last, text)?;
        let end = answer_over(rt.alloc(), "compile f0.va", list, NONE)?;
        assert_ends(&rt, &end, line, line);
    }
    Ok(())
}
