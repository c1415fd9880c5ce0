//! What a text comes to, from its bytes to its source tree.
ghost use Rattle.std.specs.Prelude.{IfOk};
ghost use Rattle.predict.specs.Sentence.{IsParsed};
ghost use Rattle.va_base.specs.Expansion.{IsExpanded};
ghost use Rattle.va_grammar.specs.Kinds.{kinds_of};
ghost use Rattle.va_grammar.specs.Sets.{va_rules};

use predict::{ParseErr, ParseTree, parse};
use std::alloc::{AllocError, Global};
use std::test::Fail;
use va_base::{Expanded, Fault, FileText, Items, Name, Place};
use va_build::{TreeErr, build};
use va_grammar::{VaRows, kinds};
use va_io::MemFiles;
use va_preproc::expand;
use va_tree::Source;

/// What a text comes to.
#[derive(Drop)]
pub enum Reading {
    Source(Source),
    /// The least fault of size.
    Size(Fault),
    /// The first bad token: its number, from 0, and its place.
    Syntax(usize, Place),
}

/// A file of this name with these bytes.
pub fn file(alloc: Global, name: &str, bytes: Vec<u8>) -> Result<FileText, AllocError> {
    Ok(FileText {
        name: Name::new(name.as_bytes().to_vec(alloc)?),
        bytes: Items::new(bytes),
    })
}

/// The tokens of a text after expansion.
pub fn expanded(alloc: Global, text: &str) -> Result<Expanded, Fail>
    ensures { IfOk result (λ e. IsExpanded e) }
{
    let main = file(alloc, "m.va", text.as_bytes().to_vec(alloc)?)?;
    let mut files = MemFiles::new(alloc, vec![in alloc; main]?, Vec::new(alloc));
    Ok(
        expand(alloc, &mut files, "m.va")
            .ok()
            .ok_or("no expansion")?,
    )
}

/// The parse tree of a text after expansion, or the number of its first bad token.
pub fn parsed(alloc: Global, e: &Expanded) -> Result<Result<ParseTree, usize>, Fail>
    requires { IsExpanded e.now }
    ensures { IfOk result (λ answer. IfOk answer (λ tree. IsParsed va_rules (kinds_of e.now) tree)) }
{
    let kinds = kinds(alloc, e).ok().ok_or("no memory for the kinds")?;
    match parse(alloc, &VaRows, kinds.as_slice()) {
        Ok(tree) => Ok(Ok(tree)),
        Err(ParseErr::At(at)) => Ok(Err(at)),
        Err(ParseErr::NoMemory) => Err("no memory for the parse tree".into()),
    }
}

/// What a text comes to.
pub fn read(alloc: Global, text: &str) -> Result<Reading, Fail> {
    let expanded = expanded(alloc, text)?;
    match parsed(alloc, &expanded)? {
        Ok(tree) => match build(alloc, &tree, &expanded) {
            Ok(source) => Ok(Reading::Source(source)),
            Err(TreeErr::Fault(fault)) => Ok(Reading::Size(fault)),
            Err(TreeErr::NoMemory) => Err("no memory for the source".into()),
        },
        Err(at) => {
            let token = expanded.tokens.as_list().get(at).ok_or("no such token")?;
            Ok(Reading::Syntax(at, token.place))
        }
    }
}

/// How a row of a table writes a reading that has no source: the code of the fault and the number of the token.
pub fn refusal(alloc: Global, reading: &Reading) -> Result<String, Fail> {
    match reading {
        Reading::Source(_) => Ok("Source".to_string(alloc)?),
        Reading::Size(fault) => Ok(format!(in alloc; "{} {}", fault.code.spelling(), fault.at)?),
        Reading::Syntax(at, _) => Ok(format!(in alloc; "Syntax {at}")?),
    }
}
