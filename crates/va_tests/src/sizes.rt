//! Texts at the limits of size: depths, lengths, and numbers of modules. Tokens are counted from 0.
use crate::reading::{read, refusal};
use std::alloc::{AllocError, Global};
use std::process::Abort;
use std::test::Fail;

/// Each way to stand deeper: what stands in front, what is repeated, what stands in the middle, what is repeated behind it, and the
/// end; then the highest count at which no node is too deep, and the token of the first that is, with one more. The ways are
/// parentheses, signs, a chain of operators (whose first operand is the deepest), choices, calls, `if`, `else if`, blocks; a default of a
/// parameter and the value of an attribute, which have the depth 1; the first value of a variable in a block; and a default of a
/// `case`, which counts where it is written.
const WAYS: &str = "module m ; analog x =|(|1|)|; endmodule|498|505
module m ; analog x =|-|1||; endmodule|498|505
module m ; analog x = 1|+ 1|||; endmodule|498|6
module m ; analog x =|1 ? 1 :|1||; endmodule|498|1998
module m ; analog x =|f (|1|)|; endmodule|498|1004
module m ; analog|if ( 1 )|;||endmodule|499|2002
module m ; analog|if ( 1 ) ; else|;||endmodule|499|3000
module m ; analog|begin||end|endmodule|500|504
module m ; parameter real p =|(|1|)|; endmodule|499|507
(* a =|(|1|)|*) module m ; endmodule|499|503
module m ; analog begin : b real y =|(|1|)|; end endmodule|498|509
module m ; analog case ( 1 ) default : x =|(|1|)|; 1 : ; endcase endmodule|497|510";

/// Texts that are nested much deeper than any stack allows for: the parts as above, how often they are repeated, and the outcome.
const DEEP: &str = "module m ; analog x =|(|1|)|; endmodule|30000|TooDeep 505
module m ; analog x = 1|+ 1|||; endmodule|30000|TooDeep 6
module m ; analog x =|(||||200000|Syntax 200006";

/// Puts a piece behind a text, so often, and a blank behind each.
fn repeat(text: &mut String, piece: &str, count: u32) -> Result<(), AllocError> {
    for _ in 0..count {
        text.push_str(piece)?;
        text.push_str(" ")?;
    }
    Ok(())
}

/// The text of a row's first five parts, of which the second and the fourth are repeated so often.
fn nested(alloc: Global, row: &str, count: u32) -> Result<String, AllocError> {
    let mut text = String::new(alloc);
    for (number, part) in row.split('|').enumerate() {
        match number {
            0 | 2 | 4 => repeat(&mut text, part, 1)?,
            1 | 3 => repeat(&mut text, part, count)?,
            _ => {}
        }
    }
    Ok(text)
}

/// The last two parts of a row, of which the first is a number.
fn ending(row: &str) -> Result<(u32, &str), Fail> {
    let (front, last) = row.rsplit_once('|').ok_or("a row without an outcome")?;
    let (_, count) = front.rsplit_once('|').ok_or("a row without a count")?;
    Ok((count.parse::<u32>().ok().ok_or("no number")?, last))
}

/// What becomes of a text: `Source` where it has one, or its fault.
fn outcome(alloc: Global, text: &str) -> Result<String, Fail> {
    refusal(alloc, &read(alloc, text)?)
}

#[test]
fn a_node_may_have_depth_500(rt: HostRuntime) -> Result<(), Fail> {
    let alloc = rt.alloc();
    for row in WAYS.lines() {
        let (most, at) = ending(row)?;
        let within = nested(alloc, row, most)?;
        assert_eq!(rt; outcome(alloc, &within)?.as_str(), "Source", "{row}");
        let beyond = nested(alloc, row, most.saturating_add(1))?;
        let wanted = format!(in alloc; "TooDeep {at}")?;
        assert_eq!(rt; outcome(alloc, &beyond)?.as_str(), wanted.as_str(), "{row}");
    }
    Ok(())
}

#[test]
fn depth_costs_no_stack(rt: HostRuntime) -> Result<(), Fail> {
    let alloc = rt.alloc();
    for row in DEEP.lines() {
        let (count, wanted) = ending(row)?;
        let text = nested(alloc, row, count)?;
        assert_eq!(rt; outcome(alloc, &text)?.as_str(), wanted, "{row}");
    }
    Ok(())
}

/// A text with so many `x` between two others.
fn with_name(alloc: Global, front: &str, count: u32, back: &str) -> Result<String, AllocError> {
    let mut text = String::from_str(alloc, front)?;
    for _ in 0..count {
        text.push_str("x")?;
    }
    text.push_str(back)?;
    Ok(text)
}

/// What stands before and behind a name, how many bytes that has, and the outcome. Words are counted without the `\` of their
/// escaped form, and strings between their quotes; system names have no limit.
const NAMES: &str = r#"module |; endmodule|1024|Source
module |; endmodule|1025|TooLong 1
module \| ; endmodule|1024|Source
module \| ; endmodule|1025|TooLong 1
(* k = "|" *) module m; endmodule|1024|Source
(* k = "|" *) module m; endmodule|1025|TooLong 3
module m; analog $|; endmodule|1025|Source
module m; analog x = ||1025|Syntax 7"#;

#[test]
fn words_and_strings_are_limited(rt: HostRuntime) -> Result<(), Fail> {
    let alloc = rt.alloc();
    for row in NAMES.lines() {
        let (count, wanted) = ending(row)?;
        let (front, behind) = row.split_once('|').ok_or("a row without a front")?;
        let (back, _) = behind.split_once('|').ok_or("a row without an end")?;
        let text = with_name(alloc, front, count, back)?;
        assert_eq!(rt; outcome(alloc, &text)?.as_str(), wanted, "{row}");
    }
    Ok(())
}

/// What stands before so many parentheses around a name of 1025 bytes, and the outcome: of several faults the one at the lowest
/// token, and at one token that of depth before that of length.
const BOTH: &str = "module m; analog x = |498|TooLong 504
module m; analog x = |499|TooDeep 505
module m; analog x = 1 + |497|TooLong 505";

#[test]
fn the_least_fault_of_size_is_answered(rt: HostRuntime) -> Result<(), Fail> {
    let alloc = rt.alloc();
    for row in BOTH.lines() {
        let (count, wanted) = ending(row)?;
        let (front, _) = row.split_once('|').ok_or("a row without a front")?;
        let mut opened = String::from_str(alloc, front)?;
        repeat(&mut opened, "(", count)?;
        let mut text = with_name(alloc, &opened, 1025, "")?;
        repeat(&mut text, ")", count)?;
        text.push_str("; endmodule")?;
        assert_eq!(rt; outcome(alloc, &text)?.as_str(), wanted, "{row}");
    }
    Ok(())
}

/// Checks what becomes of so many modules, of which the last has this name.
fn check_modules(
    rt: &impl Abort,
    alloc: Global,
    count: u32,
    last: &str,
    wanted: &str,
) -> Result<(), Fail> {
    let mut text = String::new(alloc);
    for _ in 1..count {
        text.push_str("module m; endmodule ")?;
    }
    let end = format!(in alloc; "module {last}; endmodule")?;
    text.push_str(&end)?;
    assert_eq!(rt; outcome(alloc, &text)?.as_str(), wanted, "{count} modules");
    Ok(())
}

#[test]
fn modules_are_limited(rt: HostRuntime) -> Result<(), Fail> {
    let alloc = rt.alloc();
    let long = with_name(alloc, "", 1025, "")?;
    check_modules(&rt, alloc, 64, "m", "Source")?;
    check_modules(&rt, alloc, 65, "m", "ModulesMany 257")?;
    check_modules(&rt, alloc, 66, "m", "ModulesMany 257")?;
    check_modules(&rt, alloc, 64, &long, "TooLong 253")?;
    check_modules(&rt, alloc, 65, &long, "TooLong 257")?;
    check_modules(&rt, alloc, 66, &long, "ModulesMany 257")
}
