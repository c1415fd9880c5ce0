//! From the tokens of a text after expansion to its source: kinds, parse tree, source tree.
ghost use Rattle.std.specs.Prelude.{◌≡◌, ◌<◌, ℕ, length, IfOk, IfErr};
ghost use Rattle.predict.specs.Sentence.{IsParsed, IsFirstBad};
ghost use Rattle.va_base.specs.Expansion.{IsExpanded};
ghost use Rattle.va_grammar.specs.Kinds.{kinds_of};
ghost use Rattle.va_grammar.specs.Sets.{va_rules};
ghost use Rattle.va_build.specs.SourceOf.{IsSourceWithinSize};
ghost use Rattle.va_command.specs.Faults.{IsSyntaxFault, IsFrontCause};

use predict::{ParseErr, ParseTree, parse};
use std::alloc::Global;
use va_base::{Expanded, Fault, FaultCode, NoMemory, Phase};
use va_build::{TreeErr, VaRows, build, kinds};
use va_tree::Source;

/// Why a text is refused.
#[derive(Clone, Copy, Debug, PartialEq, Eq)]
pub enum FrontErr {
    /// This fault stands in it, and none comes before it.
    Fault(Fault),
    NoMemory,
}

/// The fault of syntax at the first bad token of a text.
fn syntax_fault(e: &Expanded, at: usize) -> Fault
    requires expanded { IsExpanded e.now }
    requires bad { IsFirstBad va_rules (kinds_of e.now) at }
    ensures { IsSyntaxFault e.now result }
{
    let token = e.tokens.as_list()[at];
    Fault {
        phase: Phase::Syntax,
        at: at as u32,
        place: token.place,
        code: FaultCode::Syntax,
    }
}

/// The source that the parse tree of a text stands for.
fn source_of_tree(alloc: Global, tree: &ParseTree, e: &Expanded) -> Result<Source, FrontErr>
    requires expanded { IsExpanded e.now }
    requires parsed { IsParsed va_rules (kinds_of e.now) tree.now }
    ensures source { IfOk result (IsSourceWithinSize e.now) }
    ensures refused { IfErr result (IsFrontCause e.now) }
{
    match build(alloc, tree, e) {
        Ok(source) => Ok(source),
        Err(TreeErr::Fault(fault)) => Err(FrontErr::Fault(fault)),
        Err(TreeErr::NoMemory) => Err(FrontErr::NoMemory),
    }
}

/// The source of a text after expansion, in which no fault of size stands.
pub fn source_of(alloc: Global, e: &Expanded) -> Result<Source, FrontErr>
    requires expanded { IsExpanded e.now }
    ensures source { IfOk result (IsSourceWithinSize e.now) }
    ensures refused { IfErr result (IsFrontCause e.now) }
{
    let kinds = match kinds(alloc, e) {
        Ok(kinds) => kinds,
        Err(NoMemory) => return Err(FrontErr::NoMemory),
    };
    match parse(alloc, &VaRows, kinds.as_slice()) {
        Ok(tree) => source_of_tree(alloc, &tree, e),
        Err(ParseErr::At(at)) => Err(FrontErr::Fault(syntax_fault(e, at))),
        Err(ParseErr::NoMemory) => Err(FrontErr::NoMemory),
    }
}
