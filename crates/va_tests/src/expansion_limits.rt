//! Expansions at the limits: open uses and includes, tokens that are given and read, and bytes of a file.
use crate::expansion::{answer_of, answer_to, expansion_of, file_of, files_of};
use crate::reading::file;
use std::alloc::{AllocError, Global};
use std::process::Abort;
use std::test::Fail;
use va_base::FileText;
use va_preproc::PreErr;

/// The definitions of so many macros, each but the first of which uses the one before it, and a use of the last.
fn chain_of(alloc: Global, count: u32) -> Result<String, Fail> {
    let mut text = "`define M0 1|".to_string(alloc)?;
    let mut last = 0u32;
    for number in 1..count {
        text.push_str(&format!(in alloc; "`define M{number} `M{last}|")?)?;
        last = number;
    }
    text.push_str(&format!(in alloc; "`M{last}")?)?;
    Ok(text)
}

/// So many uses, each in the argument of the one before it.
fn nest_of(alloc: Global, count: u32) -> Result<String, Fail> {
    let mut text = "`define O(x) x|".to_string(alloc)?;
    for _ in 0..count {
        text.push_str("`O(")?;
    }
    text.push('1')?;
    for _ in 0..count {
        text.push(')')?;
    }
    Ok(text)
}

/// A main file and so many files, each of which but the last includes the next.
fn includes_of(alloc: Global, count: u32) -> Result<String, Fail> {
    let mut text = " `include \"f1.h\"|".to_string(alloc)?;
    for number in 1..=count {
        text.push_str(&format!(in alloc; "@@f{number}.h ")?)?;
        if number < count {
            text.push_str(&format!(in alloc; " `include \"f{}.h\"|", number + 1)?)?;
        } else {
            text.push('x')?;
        }
    }
    Ok(text)
}

/// Checks what a text expands to.
fn check(rt: &impl Abort, alloc: Global, text: &str, want: &str) -> Result<(), Fail> {
    assert_eq!(rt; answer_to(alloc, text)?.as_str(), want);
    Ok(())
}

#[test]
fn at_most_64_uses_and_32_includes_are_open(rt: HostRuntime) -> Result<(), Fail> {
    let alloc = rt.alloc();
    check(&rt, alloc, &chain_of(alloc, 64)?, "1")?;
    check(&rt, alloc, &chain_of(alloc, 65)?, "m.va:66:1: MacroDeep")?;
    check(&rt, alloc, &nest_of(alloc, 64)?, "1")?;
    check(&rt, alloc, &nest_of(alloc, 65)?, "m.va:2:1: MacroDeep")?;
    check(&rt, alloc, &includes_of(alloc, 32)?, "x")?;
    check(
        &rt,
        alloc,
        &includes_of(alloc, 33)?,
        "f32.h:1:2: IncludeDeep",
    )?;
    let own = "`include \"a.h\"|@@a.h `include \"a.h\"|";
    check(&rt, alloc, own, "a.h:1:1: IncludeDeep")
}

/// Macros that give 2,000,000 tokens, after some text.
fn bomb_after(alloc: Global, first: &str) -> Result<String, Fail> {
    let mut text = "`define M0 x x x x x|".to_string(alloc)?;
    let mut last = 0u32;
    for number in 1..13u32 {
        let one = format!(in alloc; " `M{last}")?;
        text.push_str(&format!(in alloc; "`define M{number}")?)?;
        let count = if number < 6 { 5 } else { 2 };
        for _ in 0..count {
            text.push_str(&one)?;
        }
        text.push('|')?;
        last = number;
    }
    text.push_str(&format!(in alloc; "{first} `M{last}|")?)?;
    Ok(text)
}

#[test]
fn at_most_2000000_tokens_are_given(rt: HostRuntime) -> Result<(), Fail> {
    let alloc = rt.alloc();
    let files = files_of(alloc, &bomb_after(alloc, "")?)?;
    let most = expansion_of(alloc, files, "m.va", 0)?
        .ok()
        .ok_or("refused")?;
    assert_eq!(rt; most.tokens.as_list().len(), 2000001);
    let more = files_of(alloc, &bomb_after(alloc, "y")?)?;
    match expansion_of(alloc, more, "m.va", 0)? {
        Err(PreErr::Fault { fault, .. }) => {
            let found = format!(in alloc;
                "{}:{}: {} at {}",
                fault.place.line,
                fault.place.col,
                fault.code.spelling(),
                fault.at
            )?;
            assert_eq!(rt; found.as_str(), "14:3: TokensMany at 2000000");
            Ok(())
        }
        _ => Err("not refused".into()),
    }
}

/// Skipped lines of one word each, so many, between the directives of a conditional.
fn skipped_lines(alloc: Global, count: u32) -> Result<String, Fail> {
    let mut text = "`ifdef A|".to_string(alloc)?;
    for _ in 0..count {
        text.push_str("x|")?;
    }
    text.push_str("`endif")?;
    Ok(text)
}

#[test]
fn at_most_4000000_tokens_are_read(rt: HostRuntime) -> Result<(), Fail> {
    let alloc = rt.alloc();
    check(&rt, alloc, &skipped_lines(alloc, 1999998)?, "")?;
    let past = skipped_lines(alloc, 1999999)?;
    check(&rt, alloc, &past, "m.va:2000000:2: TokensMany")
}

/// The most bytes of a file.
const MOST: usize = 1 << 24;

/// A file of this name with spaces after its text, of so many bytes.
fn padded(alloc: Global, name: &str, text: &str, length: usize) -> Result<FileText, AllocError> {
    let mut bytes = text.as_bytes().to_vec(alloc)?;
    bytes.resize(length, b' ')?;
    file(alloc, name, bytes)
}

#[test]
fn a_file_has_at_most_16_mebibytes(rt: HostRuntime) -> Result<(), Fail> {
    let alloc = rt.alloc();
    let whole = vec![in alloc; padded(alloc, "m.va", "x", MOST)?]?;
    assert_eq!(rt; answer_of(alloc, whole, "m.va", 0)?.as_str(), "x");
    let large = vec![in alloc; padded(alloc, "m.va", " x", MOST + 1)?]?;
    assert_eq!(rt;
        answer_of(alloc, large, "m.va", 0)?.as_str(),
        "m.va:1:1: FileLarge"
    );
    let main = file_of(alloc, "m.va", "x `include \"b.h\"|")?;
    let included = padded(alloc, "b.h", " x", MOST + 1)?;
    let files = vec![in alloc; main, included]?;
    assert_eq!(rt;
        answer_of(alloc, files, "m.va", 0)?.as_str(),
        "b.h:1:1: FileLarge"
    );
    Ok(())
}
