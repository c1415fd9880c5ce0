//! From a parse tree to the source tree.
ghost use Rattle.std.specs.Prelude.{◌≡◌, IfOk, IsErrOf, length};
ghost use Rattle.predict.specs.Sentence.{IsParsed};
ghost use Rattle.va_base.specs.declared.fault.Fault.{Fault};
ghost use Rattle.va_base.specs.Expansion.{IsExpanded};
ghost use Rattle.va_grammar.specs.Kinds.{kinds_of};
ghost use Rattle.va_grammar.specs.Sets.{va_rules};
ghost use Rattle.va_tree.specs.OwnTokens.{EachNameHasItsToken};
ghost use Rattle.va_tree.specs.OrderedNames.{HasNamesInOrder};
ghost use Rattle.va_build.specs.SourceOf.{IsSourceOf, IsSourceWithinSize, IsSourceFaulty};

use crate::read_source::read_source;
use crate::size::size_fault;
use predict::ParseTree;
use std::alloc::{AllocError, Global};
use va_base::{Expanded, Fault, NoMemory};
use va_tree::Source;

/// Why there is no source tree.
#[derive(Clone, Copy, Debug, PartialEq, Eq)]
pub enum TreeErr {
    /// The least fault of size, with its own code: `TooDeep` where too many statements, expressions and parentheses stand in one
    /// another, `TooLong` where a word or a string is too long, `ModulesMany` where the text has too many modules.
    Fault(Fault),
    /// Memory was refused.
    NoMemory,
}

impl From<AllocError> for TreeErr {
    ghost use Rattle.va_build.specs.declared.source.TreeErr.TheVariants.{NoMemory};

    ghost from_gives = { λ _ e. e ≡ NoMemory };

    fn from(_: AllocError) -> Self {
        TreeErr::NoMemory
    }
}

impl From<NoMemory> for TreeErr {
    ghost use Rattle.va_build.specs.declared.source.TreeErr.TheVariants.{NoMemory};

    ghost from_gives = { λ _ e. e ≡ NoMemory };

    fn from(_: NoMemory) -> Self {
        TreeErr::NoMemory
    }
}

/// The source that a parse tree stands for, where it is within the limits of size.
///
/// The tree is the parse tree of the kinds of `e`. `Ok` comes only where no fault of size stands; of several faults the
/// first is answered: by token, and at one token `TooDeep` before `TooLong` before `ModulesMany`. Of the source in `Ok` each
/// name stands at a token of its own, and the names in the order of the text have ascending indices below the number of tokens.
pub fn build(alloc: Global, tree: &ParseTree, e: &Expanded) -> Result<Source, TreeErr>
    requires expanded { IsExpanded e.now }
    requires parsed { IsParsed va_rules (kinds_of e.now) tree.now }
    ensures source { IfOk result (λ s. IsSourceWithinSize e.now s) }
    ensures own_tokens { IfOk result (λ s. EachNameHasItsToken s) }
    ensures text_order { IfOk result (λ s. HasNamesInOrder s (length e.now.tokens)) }
    ensures fault { (f : Fault) → IsErrOf result (TreeErr.Fault f) → IsSourceFaulty e.now f }
{
    let found = size_fault(alloc, tree, e)?;
    match found {
        Some(fault) => Err(TreeErr::Fault(fault)),
        None => {
            let source = read_source(alloc, tree, e)?;
            Ok(source)
        }
    }
}
