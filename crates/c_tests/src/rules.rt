//! The rules of form over C texts, in which the token is marked that a rule blames.
use crate::marked::{LENGTH_LIMIT, changed, unmarked};
use crate::texts::small;
use c_form::breaks::breaks_fault;
use c_form::calls::calls_fault;
use c_form::closed::bodies_closed;
use c_form::fields::fields_fault;
use c_form::locals::locals_fault;
use c_form::numbering::numbering_fault;
use c_form::tables::tables_fault;
use c_form_reach::reach_fault;
use c_form_settings::settings_fault;
use c_form_types::types_fault;
use c_raw::RawFile;
use c_raw_build::read_raw;
use c_reader::form_fault;
use c_syntax::parse_file;
use std::alloc::Global;
use std::process::Abort;
use std::test::Fail;

/// A rule of form, or all of them together.
#[derive(Clone, Copy)]
pub enum Rule {
    Numbering,
    Fields,
    Locals,
    Settings,
    Breaks,
    Types,
    Calls,
    Reach,
    Tables,
    All,
}

/// The raw tree of a text that the grammar spells.
pub fn raw_of(alloc: Global, text: &str) -> Result<RawFile, Fail> {
    if text.len() >= LENGTH_LIMIT {
        return Err(Fail::from("a long text"));
    }
    let Ok(parsed) = parse_file(alloc, text.as_bytes()) else {
        return Err(Fail::from("the grammar does not spell it"));
    };
    let Ok(raw) = read_raw(alloc, &parsed, text.as_bytes()) else {
        return Err(Fail::from("no memory"));
    };
    Ok(raw)
}

/// The token that a rule blames.
fn blamed(alloc: Global, rule: Rule, raw: &RawFile) -> Result<Option<usize>, Fail> {
    if !bodies_closed(raw) {
        return Err(Fail::from("a body that is not one block"));
    }
    let found = match rule {
        Rule::Numbering => Ok(numbering_fault(raw)),
        Rule::Fields => fields_fault(alloc, raw),
        Rule::Locals => locals_fault(alloc, raw),
        Rule::Settings => settings_fault(alloc, raw),
        Rule::Breaks => breaks_fault(alloc, raw),
        Rule::Types => types_fault(alloc, raw),
        Rule::Calls => calls_fault(alloc, raw),
        Rule::Reach => reach_fault(alloc, raw),
        Rule::Tables => tables_fault(alloc, raw),
        Rule::All => form_fault(alloc, raw),
    };
    match found {
        Ok(token) => Ok(token),
        Err(_) => Err(Fail::from("no memory")),
    }
}

/// Compares what a rule blames in a text with the token that is marked in it.
fn check_text(
    rt: &impl Abort,
    alloc: Global,
    rule: Rule,
    text: &str,
    token: Option<usize>,
    row: &str,
) -> Result<(), Fail> {
    let raw = raw_of(alloc, text)?;
    let found = blamed(alloc, rule, &raw)?;
    assert!(rt; found == token, "{row}");
    Ok(())
}

/// A row has a place of the small module, and the lines that stand there.
pub fn check_lines(rt: &impl Abort, alloc: Global, rule: Rule, rows: &str) -> Result<(), Fail> {
    for row in rows.lines() {
        let (place, lines) = row.split_once(' ').ok_or("a row without a place")?;
        let text = small(alloc, place, lines)?;
        let marked = unmarked(alloc, text.as_str())?;
        check_text(rt, alloc, rule, marked.text.as_str(), marked.token, row)?;
    }
    Ok(())
}

/// A row is a change of the text of two small modules.
pub fn check_changes(rt: &impl Abort, alloc: Global, rule: Rule, rows: &str) -> Result<(), Fail> {
    let text = small(alloc, "", "")?;
    for row in rows.lines() {
        let marked = changed(alloc, text.as_str(), row)?;
        check_text(rt, alloc, rule, marked.text.as_str(), marked.token, row)?;
    }
    Ok(())
}
