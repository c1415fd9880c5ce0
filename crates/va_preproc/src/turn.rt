//! The tokens of a file, but for its includes.
ghost use Rattle.std.specs.Prelude.{◌≡◌, IfOk, List, reverse, length, ◌&&◌, not, false};
ghost use Rattle.va_preproc.specs.Types as types;
ghost use Rattle.va_preproc.specs.Lexemes as lexemes;
ghost use Rattle.va_preproc.specs.Lexemes.{Bytes, a_directive};
ghost use Rattle.va_preproc.specs.Conditionals as conditionals;
ghost use Rattle.va_preproc.specs.Uses.{Use, use_within};
ghost use Rattle.va_preproc.specs.Expansion as file_steps;
ghost use Rattle.va_preproc.specs.Expansion.{Included};
ghost use Rattle.va_preproc.specs.Values.{step_of, state_of, names_of, lexeme_in, lexemes_in, onward_seen, onward_same, is_include_by};
ghost use Rattle.va_preproc.specs.Steps.{IsWithin, AreWithin};

use crate::answer::{Answer, given};
use crate::condition::{Branches, at_else, at_elsif, at_endif, at_if, is_skipped, read_next};
use crate::definition::{Definition, definition_in, first_macro_name, line_len};
use crate::directive::Directive;
use crate::known::{FormalNames, Known};
use crate::progress::Progress;
use crate::reading::{fault_at, give, read_own};
use crate::role::{Role, role_of};
use crate::table::{define, undefine};
use crate::uses::{Inside, expand_use};
use va_base::{FaultCode, Token};

/// `define`: a later definition of a name replaces an earlier one. It tells how many tokens were read.
fn at_define(
    known: &mut Known,
    progress: &mut Progress,
    token: &Token,
    rest: &[Token],
) -> Answer<usize>
    ensures follows { (u : Use) (i : Included) (n : Bytes) (b : List types.Branch) → IfOk result (λ answer.
        file_steps.at_define u i n (lexeme_in known.old.files.items token.now) (lexemes_in known.old.files.items rest.now) b
        (state_of known.old progress.old)
        ≡ step_of (onward_same known.new progress.new b) (names_of known.old) answer) }
    ensures files { known.new.files ≡ known.old.files }
    ensures within { IsWithin known.old → AreWithin (length known.old.files.items) rest.now → IfOk result (λ answer. IsWithin known.new) }
{
    let Definition {
        taken,
        name,
        formals,
        body,
    } = definition_in(known.alloc, known.files.as_slice(), rest)?;
    given!(read_own(progress, rest, taken));
    let Some(name) = name else {
        return Ok(Err(fault_at(progress, FaultCode::Directive, token.place)));
    };
    define(known.alloc, &mut known.macros, name, formals, body)?;
    Ok(Ok(taken))
}

/// `undef`, which has no effect where the name isn't defined. It tells how many tokens were read.
fn at_undef(
    known: &mut Known,
    progress: &mut Progress,
    token: &Token,
    rest: &[Token],
) -> Answer<usize>
    ensures follows { (u : Use) (i : Included) (n : Bytes) (b : List types.Branch) → IfOk result (λ answer.
        file_steps.at_undef u i n (lexeme_in known.old.files.items token.now) (lexemes_in known.old.files.items rest.now) b
        (state_of known.old progress.old)
        ≡ step_of (onward_same known.new progress.new b) (names_of known.old) answer) }
    ensures files { known.new.files ≡ known.old.files }
    ensures within { IsWithin known.old → IfOk result (λ answer. IsWithin known.new) }
{
    let meaning = first_macro_name(known.files.as_slice(), rest);
    let name = given!(read_next(progress, FaultCode::Directive, token, rest, meaning));
    undefine(&mut known.macros, name);
    Ok(Ok(1))
}

/// A directive without effect, which is read to the end of its line. It tells how many tokens that were.
fn at_ignored(progress: &mut Progress, rest: &[Token]) -> Answer<usize>
    ensures { (k : types.Known) (u : Use) (i : Included) (n : Bytes) (b : List types.Branch) → IfOk result (λ answer.
        file_steps.at_ignored u i n (lexemes_in k.files.items rest.now) b (state_of k progress.old)
        ≡ step_of (onward_same k progress.new b) (names_of k) answer) }
{
    let taken = line_len(rest);
    given!(read_own(progress, rest, taken));
    Ok(Ok(taken))
}

/// A directive, where it is no include that is read. It tells how many tokens after it were read.
fn at_directive(
    known: &mut Known,
    progress: &mut Progress,
    branches: &mut Branches,
    directive: Directive,
    token: &Token,
    rest: &[Token],
) -> Answer<usize>
    requires { (is_include_by (a_directive directive) && not (conditionals.is_skipped (reverse branches.old.items))) ≡ false }
    ensures follows { (u : Use) (i : Included) (n : Bytes) → IfOk result (λ answer.
        file_steps.at_directive u i n directive (lexeme_in known.old.files.items token.now) (lexemes_in known.old.files.items rest.now)
        (reverse branches.old.items) (state_of known.old progress.old)
        ≡ step_of (onward_seen known.new progress.new branches.new) (names_of known.old) answer) }
    ensures files { known.new.files ≡ known.old.files }
    ensures within { IsWithin known.old → AreWithin (length known.old.files.items) rest.now → IfOk result (λ answer. IsWithin known.new) }
{
    match directive {
        Directive::Ifdef => at_if(known, progress, branches, false, token, rest),
        Directive::Ifndef => at_if(known, progress, branches, true, token, rest),
        Directive::Elsif => at_elsif(known, progress, branches, token, rest),
        Directive::Else => at_else(progress, branches, token),
        Directive::Endif => Ok(at_endif(progress, branches, token)),
        Directive::Define => {
            if is_skipped(branches) {
                return Ok(Ok(0));
            }
            at_define(known, progress, token, rest)
        }
        Directive::Undef => {
            if is_skipped(branches) {
                return Ok(Ok(0));
            }
            at_undef(known, progress, token, rest)
        }
        Directive::Ignored => {
            if is_skipped(branches) {
                return Ok(Ok(0));
            }
            at_ignored(progress, rest)
        }
        // It is read elsewhere where text isn't skipped.
        Directive::Include => Ok(Ok(0)),
    }
}

/// A use of a macro that stands in a file. It tells how many of the tokens after it were read.
fn at_outermost(
    known: &Known,
    progress: &mut Progress,
    name: &[u8],
    uses: u32,
    token: &Token,
    rest: &[Token],
) -> Answer<usize>
    ensures { (i : Included) (n : Bytes) (b : List types.Branch) → IfOk result (λ answer.
        file_steps.at_outermost (use_within uses) i n name.now (lexeme_in known.now.files.items token.now)
        (lexemes_in known.now.files.items rest.now) b (state_of known.now progress.old)
        ≡ step_of (onward_same known.now progress.new b) (names_of known.now) answer) }
{
    let none = FormalNames::new(known.alloc);
    let inside = Inside {
        outermost: token.place,
        opened: &[],
        formals: &none,
        arguments: &[],
        depth: uses,
    };
    expand_use(known, progress, &inside, name, rest)
}

/// A token that is read, where it is no include that is read. It tells how many of the tokens after it were read.
pub fn at_token(
    known: &mut Known,
    progress: &mut Progress,
    branches: &mut Branches,
    uses: u32,
    token: &Token,
    rest: &[Token],
) -> Answer<usize>
    requires { (is_include_by (lexemes.role_of (lexeme_in known.old.files.items token.now)) && not (conditionals.is_skipped (reverse branches.old.items))) ≡ false }
    ensures follows { (i : Included) (n : Bytes) → IfOk result (λ answer.
        file_steps.at_token (use_within uses) i n (lexemes.role_of (lexeme_in known.old.files.items token.now))
        (lexeme_in known.old.files.items token.now) (lexemes_in known.old.files.items rest.now)
        (reverse branches.old.items) (state_of known.old progress.old)
        ≡ step_of (onward_seen known.new progress.new branches.new) (names_of known.old) answer) }
    ensures files { known.new.files ≡ known.old.files }
    ensures within { IsWithin known.old → AreWithin (length known.old.files.items) rest.now → IfOk result (λ answer. IsWithin known.new) }
{
    match role_of(known.files.as_slice(), token) {
        Role::LineEnd => Ok(Ok(0)),
        Role::Directive(directive) => {
            at_directive(known, progress, branches, directive, token, rest)
        }
        Role::Use(name) => {
            if is_skipped(branches) {
                return Ok(Ok(0));
            }
            at_outermost(known, progress, name, uses, token, rest)
        }
        Role::Name(_) | Role::Another => {
            if is_skipped(branches) {
                return Ok(Ok(0));
            }
            given!(give(progress, token.place, token)?);
            Ok(Ok(0))
        }
    }
}
