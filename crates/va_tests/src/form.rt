//! Texts in and out of the first form.
use crate::reading::{Reading, read, refusal};
use alg_laws::Whole;
use first_form::{TranslateErr, translate};
use std::alloc::Global;
use std::marker::PhantomData;
use std::process::Abort;
use std::test::Fail;
use va_tree::Source;

/// A text of the form.
const RESISTOR: &str =
    "module m(a, c); inout a, c; electrical a, c; parameter real r = 1; analog I(a, c) <+ V(a, c) / r; endmodule";

/// A row has a text that stands once in the resistor's, and then texts in its place that leave it a sentence and take it out of
/// the form.
const SENTENCES: &str =
    "module m(a, c)|(* k *) module m(a, c)|module m(a, c, d)|module m(c, a)|module m(a, a)|module V(a, c)|module \\V (a, c)
inout a, c;|input a, c;|inout electrical a, c;|inout a; inout c;|
electrical a, c;|voltage a, c;|electrical a, c, d;|
parameter real r = 1;||parameter real r = 1, g = 2;|parameter r = 1;|parameter real r = 1.0;|parameter real r = -1;|parameter real r = 1 from (0:inf);|localparam real r = 1;|parameter real r = 1; parameter real r = 2;|(* k *) parameter real r = 1;|real r;|parameter real electrical = 1;
analog I(a, c) <+ V(a, c) / r;|analog ;|analog begin I(a, c) <+ V(a, c) / r; end|analog I(a, c) <+ r; analog I(a, c) <+ r;|analog V(a, c) <+ r;|analog I(a) <+ r;|analog r = 1;|analog I(a, c) <+ V(a, c) / q;|analog I(a, c) <+ -r;|analog I(a, c) <+ 2;|analog I(a, c) <+ r % r;|analog I(a, c) <+ V(c, a);|analog I(a, c) <+ V(a);|analog I(a, c) <+ exp(r);|analog I(a, c) <+ r ? r : r;|analog I(a, c) <+ r; parameter real s = 1;
 endmodule| endmodule module n; endmodule| endmodule nature N endnature";

/// Texts of the form, by a row as above.
const KEPT: &str =
    "module m(a, c)|module \\m (\\a ,c)|module a(a, c)|module \\module (a, c)|module m(a, /* b */ c)
parameter real r = 1;|parameter real r = 1; parameter real g = 2;|parameter real r = 1; parameter real \\real = 2;|parameter real r = 2147483647;|parameter real r = 1_0;
V(a, c) / r|r|(V(a, c))|r - r * (r + V(a, c)) / r|\\V (a, \\c ) / \\r ";

/// What becomes of a source: `Built` where it has a C file, `Unbuilt` where it is not of the first form.
fn of_source(alloc: Global, source: &Source) -> Result<&'static str, Fail> {
    let law: PhantomData<Whole> = PhantomData;
    match translate(alloc, source, law) {
        Ok(_) => Ok("Built"),
        Err(TranslateErr::Unbuilt) => Ok("Unbuilt"),
        Err(TranslateErr::NoMemory) => Err("no memory for the C file".into()),
    }
}

/// What becomes of a text: what becomes of its source, or its fault.
fn outcome(alloc: Global, text: &str) -> Result<String, Fail> {
    let reading = read(alloc, text)?;
    match &reading {
        Reading::Source(source) => Ok(of_source(alloc, source)?.to_string(alloc)?),
        _ => refusal(alloc, &reading),
    }
}

/// Puts each new text of some rows into the resistor's.
fn check(rt: &impl Abort, alloc: Global, rows: &str, wanted: &str) -> Result<(), Fail> {
    for row in rows.lines() {
        let (old, news) = row.split_once('|').ok_or("a row without a change")?;
        let (front, back) = RESISTOR.split_once(old).ok_or("the old text is not there")?;
        for new in news.split('|') {
            let text = format!(in alloc; "{front}{new}{back}")?;
            assert_eq!(rt; outcome(alloc, &text)?.as_str(), wanted, "{new}");
        }
    }
    Ok(())
}

#[test]
fn sentences_of_the_form_alone_are_built(rt: HostRuntime) -> Result<(), Fail> {
    check(&rt, rt.alloc(), SENTENCES, "Unbuilt")?;
    check(&rt, rt.alloc(), KEPT, "Built")
}

/// A piece, how often it stands one after the other, and what stands behind it, as the resistor's flow; and the outcome. The flow begins at
/// token 32. A contribution has the depth 1 and its value the depth 2; the first operand of a chain is its deepest.
const FLOWS: &str = "r + |498|r|Built
r + |499|r|TooDeep 32
r / |498|V(a, c)|Built
r / |499|V(a, c)|TooDeep 32
r + |600|;|Syntax 1232";

#[test]
fn depth_is_limited(rt: HostRuntime) -> Result<(), Fail> {
    let alloc = rt.alloc();
    let (front, back) = RESISTOR.split_once("V(a, c) / r").ok_or("no flow")?;
    for row in FLOWS.lines() {
        let (piece, rest) = row.split_once('|').ok_or("a row without a count")?;
        let (count, rest) = rest.split_once('|').ok_or("a row without an end")?;
        let (end, wanted) = rest.split_once('|').ok_or("a row without an outcome")?;
        let mut text = String::from_str(alloc, front)?;
        for _ in 0..count.parse::<u32>().ok().ok_or("no number")? {
            text.push_str(piece)?;
        }
        text.push_str(end)?;
        text.push_str(back)?;
        assert_eq!(rt; outcome(alloc, &text)?.as_str(), wanted, "{row}");
    }
    Ok(())
}
