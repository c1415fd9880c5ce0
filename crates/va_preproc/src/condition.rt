//! Conditional text (Conditional compilation): its arms, and what its directives do.
ghost use Rattle.std.specs.Prelude.{◌≡◌, IfOk, not, reverse, if◌then◌else◌, option_map, Option};
ghost use Rattle.std.specs.Option.{is_some};
ghost use Rattle.va_preproc.specs.Types as types;
ghost use Rattle.va_preproc.specs.Lexemes as lexemes;
ghost use Rattle.va_preproc.specs.Lexemes.{Lexeme, Bytes};
ghost use Rattle.va_preproc.specs.Definitions.{next_token};
ghost use Rattle.va_preproc.specs.Conditionals as conditionals;
ghost use Rattle.va_preproc.specs.Values.{next_read, macros_of, IsOpenBranch, step_of, state_of, names_of, lexeme_in, lexemes_in, onward_seen};

use crate::answer::{Answer, given};
use crate::known::Known;
use crate::progress::Progress;
use crate::reading::{fault_at, read_own};
use crate::role::name_of;
use smallvec::SmallVec;
use va_base::{Fault, FaultCode, FileText, Place, Token};

/// The present arm of a conditional.
#[derive(Clone, Copy, Debug, PartialEq, Eq)]
pub enum Arm {
    /// It is read.
    Chosen,
    /// None was read yet.
    Waiting,
    /// An earlier one was read, or none is to be.
    Passed,
}

/// A conditional that is open: the place of its `ifdef` or `ifndef`, its present arm, and whether that is the one of `else`.
#[derive(Clone, Copy, Debug)]
pub struct Branch {
    pub begins: Place,
    pub arm: Arm,
    pub is_last: bool,
}

/// What fills unused places of a stack.
impl Default for Branch {
    fn default() -> Branch {
        let begins = Place {
            file: 0,
            line: 1,
            col: 1,
        };
        Branch {
            begins,
            arm: Arm::Waiting,
            is_last: false,
        }
    }
}

/// The conditionals of a file that are open, the innermost last. They are few in ordinary files.
pub type Branches = SmallVec<Branch, 8>;

/// Text is skipped where the innermost open conditional's arm is.
pub fn is_skipped(branches: &Branches) -> bool
    ensures { result ≡ conditionals.is_skipped (reverse branches.now.items) }
{
    match branches.as_slice().last() {
        Some(branch) => match branch.arm {
            Arm::Chosen => false,
            Arm::Waiting => true,
            Arm::Passed => true,
        },
        None => false,
    }
}

/// The first arm, in skipped text or not, by its condition.
fn first_arm(skipped: bool, condition: bool) -> Arm
    ensures { result ≡ conditionals.first_arm skipped condition }
{
    match (skipped, condition) {
        (true, _) => Arm::Passed,
        (false, true) => Arm::Chosen,
        (false, false) => Arm::Waiting,
    }
}

/// The arm after this one, by its condition.
fn next_arm(arm: Arm, condition: bool) -> Arm
    ensures { result ≡ conditionals.next_arm arm condition }
{
    match (arm, condition) {
        (Arm::Waiting, true) => Arm::Chosen,
        (Arm::Waiting, false) => Arm::Waiting,
        (Arm::Chosen, _) => Arm::Passed,
        (Arm::Passed, _) => Arm::Passed,
    }
}

/// What the token after a directive means, which is read; where there is none or it means nothing, that is a fault of the
/// directive.
pub fn read_next<'a>(
    progress: &mut Progress,
    code: FaultCode,
    token: &Token,
    rest: &[Token],
    meaning: Option<&'a [u8]>,
) -> Result<&'a [u8], Fault>
    ensures { (k : types.Known) (read : Lexeme → Option Bytes)
        → option_map (λ name. name.now) meaning.entry ≡ (next_token read (lexemes_in k.files.items rest.now)).meaning
        → next_read read code (lexeme_in k.files.items token.now) (lexemes_in k.files.items rest.now) (state_of k progress.old)
        ≡ step_of (λ name. (name.now, state_of k progress.new)) (names_of k) result }
{
    if let Err(fault) = read_own(progress, rest, 1) {
        return Err(fault);
    }
    match meaning {
        Some(name) => Ok(name),
        None => Err(fault_at(progress, code, token.place)),
    }
}

/// The name that the first of some tokens is, if it is one.
fn first_name<'a>(files: &'a [FileText], tokens: &[Token]) -> Option<&'a [u8]>
    ensures { option_map (λ name. name.now) result ≡ (next_token lexemes.name_of (lexemes_in files.now tokens.now)).meaning }
{
    match tokens.first() {
        Some(token) => name_of(files, token),
        None => None,
    }
}

/// A macro of this name is defined.
fn is_defined(known: &Known, name: &[u8]) -> bool
    ensures { result ≡ is_some (macros_of known.now name.now) }
{
    known.macros.get(name).is_some()
}

/// The condition of `ifdef`, or of `ifndef`, which is negated.
fn is_met(negated: bool, defined: bool) -> bool
    ensures { result ≡ (if negated then not else (λ defined. defined)) defined }
{
    if negated { !defined } else { defined }
}

/// `ifdef` and `ifndef`, which take the next token of their line as a name. It tells how many tokens were read.
pub fn at_if(
    known: &Known,
    progress: &mut Progress,
    branches: &mut Branches,
    negated: bool,
    token: &Token,
    rest: &[Token],
) -> Answer<usize>
    ensures { IfOk result (λ answer.
        conditionals.at_if (if negated then not else (λ defined. defined)) (lexeme_in known.now.files.items token.now)
        (lexemes_in known.now.files.items rest.now) (reverse branches.old.items) (state_of known.now progress.old)
        ≡ step_of (onward_seen known.now progress.new branches.new) (names_of known.now) answer) }
{
    let meaning = first_name(known.files.as_slice(), rest);
    let name = given!(read_next(progress, FaultCode::Conditional, token, rest, meaning));
    let defined = is_defined(known, name);
    let arm = first_arm(is_skipped(branches), is_met(negated, defined));
    branches.push(Branch {
        begins: token.place,
        arm,
        is_last: false,
    })?;
    Ok(Ok(1))
}

/// `elsif`, which takes the next token of its line as a name. It tells how many tokens were read.
pub fn at_elsif(
    known: &Known,
    progress: &mut Progress,
    branches: &mut Branches,
    token: &Token,
    rest: &[Token],
) -> Answer<usize>
    ensures { IfOk result (λ answer.
        conditionals.at_elsif (lexeme_in known.now.files.items token.now)
        (lexemes_in known.now.files.items rest.now) (reverse branches.old.items) (state_of known.now progress.old)
        ≡ step_of (onward_seen known.now progress.new branches.new) (names_of known.now) answer) }
{
    let branch = given!(open_branch(progress, branches, token));
    let meaning = first_name(known.files.as_slice(), rest);
    let name = given!(read_next(progress, FaultCode::Conditional, token, rest, meaning));
    let arm = next_arm(branch.arm, is_defined(known, name));
    branches.push(Branch { arm, ..branch })?;
    Ok(Ok(1))
}

/// The innermost open conditional, which had no `else`. It is taken from the others.
fn open_branch(progress: &Progress, branches: &mut Branches, token: &Token) -> Result<Branch, Fault>
    ensures { (k : types.Known) → IsOpenBranch (lexeme_in k.files.items token.now) (state_of k progress.now) (names_of k)
        (reverse branches.old.items) (reverse branches.new.items) result }
{
    let Some(branch) = branches.pop() else {
        return Err(fault_at(progress, FaultCode::Conditional, token.place));
    };
    if branch.is_last {
        return Err(fault_at(progress, FaultCode::Conditional, token.place));
    }
    Ok(branch)
}

/// `else`. No token after it was read.
pub fn at_else(progress: &Progress, branches: &mut Branches, token: &Token) -> Answer<usize>
    ensures { (k : types.Known) → IfOk result (λ answer.
        conditionals.at_else (lexeme_in k.files.items token.now) (reverse branches.old.items) (state_of k progress.now)
        ≡ step_of (onward_seen k progress.now branches.new) (names_of k) answer) }
{
    let branch = given!(open_branch(progress, branches, token));
    branches.push(Branch {
        arm: next_arm(branch.arm, true),
        is_last: true,
        ..branch
    })?;
    Ok(Ok(0))
}

/// `endif`. No token after it was read.
pub fn at_endif(progress: &Progress, branches: &mut Branches, token: &Token) -> Result<usize, Fault>
    ensures { (k : types.Known) →
        conditionals.at_endif (lexeme_in k.files.items token.now) (reverse branches.old.items) (state_of k progress.now)
        ≡ step_of (onward_seen k progress.now branches.new) (names_of k) result }
{
    let Some(_) = branches.pop() else {
        return Err(fault_at(progress, FaultCode::Conditional, token.place));
    };
    Ok(0)
}

/// At the end of a file the innermost open conditional is a fault.
pub fn all_closed(progress: &Progress, branches: &Branches) -> Result<(), Fault>
    ensures { (k : types.Known) →
        conditionals.all_closed (reverse branches.now.items) (state_of k progress.now)
        ≡ step_of (λ u. state_of k progress.now) (names_of k) result }
{
    match branches.as_slice().last() {
        Some(branch) => Err(fault_at(progress, FaultCode::Conditional, branch.begins)),
        None => Ok(()),
    }
}
