//! Uses of macros (Using a text macro).
ghost use Rattle.std.specs.Prelude.{◌≡◌, IfOk, List, map, Some, option_map};
ghost use Rattle.std.specs.List.{zip};
ghost use Rattle.va_preproc.specs.Types as types;
ghost use Rattle.va_preproc.specs.Lexemes as lexemes;
ghost use Rattle.va_preproc.specs.Lexemes.{found};
ghost use Rattle.va_preproc.specs.Uses as macro_uses;
ghost use Rattle.va_preproc.specs.Uses.{Use, by_formals, use_within};
ghost use Rattle.va_preproc.specs.Values.{step_of, state_of, names_of, lexeme_in, lexemes_in, inside_of, body_inside, arguments_seen, macro_in};

use crate::answer::{Answer, given};
use crate::argument::{ArgumentList, argument_list};
use crate::known::{FormalNames, Known, Macro};
use crate::progress::Progress;
use crate::reading::{fault_at, give, give_all, read_at, read_one};
use crate::role::{Role, role_of};
use smallvec::SmallVec;
use va_base::{FaultCode, Place, Token};

/// Where an argument or a body stands that is expanded.
#[derive(Clone, Copy)]
pub struct Inside<'a> {
    /// The place of the outermost use, at which faults stand and which the tokens of the result have.
    pub outermost: Place,
    /// The macros whose bodies are open, the innermost first.
    pub opened: &'a [&'a [u8]],
    /// The formals of the body.
    pub formals: &'a FormalNames,
    /// What they give: their expanded arguments, in order.
    pub arguments: &'a [Vec<Token>],
    /// How many uses may be open inside each other from here on.
    pub depth: u32,
}

/// A name is among some names.
fn is_among(names: &[&[u8]], name: &[u8]) -> bool
    ensures { result ≡ lexemes.is_among (map (λ other. other.now) names.now) name.now }
{
    for other in names {
        if name == *other {
            return true;
        }
    }
    false
}

/// The argument of the formal of a name, if it is a formal.
fn argument_at<'a>(
    formals: &FormalNames,
    arguments: &'a [Vec<Token>],
    name: &[u8],
) -> Option<&'a [Token]>
    ensures { option_map (λ argument. argument.now) result
        ≡ found (zip (map (λ formal. formal.items) formals.now.keys) (map (λ argument. argument.items) arguments.now)) name.now }
{
    let index = formals.get_index_of(name)?;
    let argument = arguments.get(index)?;
    Some(argument.as_slice())
}

/// What a name gives, if it is a formal: its expanded argument.
fn argument_of<'a>(inside: &Inside<'a>, name: &[u8]) -> Option<&'a [Token]>
    ensures { (files : List types.FileText) → option_map (λ argument. lexemes_in files argument.now) result
        ≡ found (inside_of files inside.now).formals name.now }
{
    argument_at(inside.formals, inside.arguments, name)
}

/// The arguments of a list, where they are as many as the formals.
fn matching<'a>(
    formals: &FormalNames,
    arguments: Option<Vec<&'a [Token]>>,
) -> Option<Vec<&'a [Token]>>
    ensures { (files : List types.FileText) → arguments_seen files result
        ≡ macro_uses.matching (map (λ formal. formal.items) formals.now.keys) (arguments_seen files arguments.entry) }
{
    let arguments = arguments?;
    if arguments.len() != formals.len() {
        return None;
    }
    Some(arguments)
}

/// A use of a macro, from the token after its name on. It tells how many of those were read.
#[cycle(uses)]
pub fn expand_use(
    known: &Known,
    progress: &mut Progress,
    inside: &Inside,
    name: &[u8],
    rest: &[Token],
) -> Answer<usize>
    ensures { IfOk result (λ answer.
        use_within inside.now.depth (inside_of known.now.files.items inside.now) name.now
        (lexemes_in known.now.files.items rest.now) (state_of known.now progress.old)
        ≡ step_of (λ taken. (taken, state_of known.now progress.new)) (names_of known.now) answer) }
{
    let Some(definition) = known.macros.get(name) else {
        return Ok(Err(fault_at(progress, FaultCode::UnknownMacro, inside.outermost)));
    };
    if is_among(inside.opened, name) {
        return Ok(Err(fault_at(progress, FaultCode::MacroSelf, inside.outermost)));
    }
    if inside.depth == 0 {
        return Ok(Err(fault_at(progress, FaultCode::MacroDeep, inside.outermost)));
    }
    let inner = Inside {
        depth: inside.depth - 1,
        ..*inside
    };
    let taken = given!(open_use(known, progress, &inner, name, definition, rest)?);
    Ok(Ok(taken))
}

/// A use that is open.
#[cycle(uses)]
fn open_use(
    known: &Known,
    progress: &mut Progress,
    inside: &Inside,
    name: &[u8],
    definition: &Macro,
    rest: &[Token],
) -> Answer<usize>
    ensures { IfOk result (λ answer.
        macro_uses.open_use (use_within inside.now.depth) (inside_of known.now.files.items inside.now) name.now
        (macro_in known.now.files.items definition.now) (lexemes_in known.now.files.items rest.now) (state_of known.now progress.old)
        ≡ step_of (λ taken. (taken, state_of known.now progress.new)) (names_of known.now) answer) }
{
    let body = definition.body.as_slice();
    match &definition.formals {
        None => {
            let none = FormalNames::new(known.alloc);
            given!(expand_body(known, progress, inside, name, body, &none, &[])?);
            Ok(Ok(0))
        }
        Some(formals) => {
            let taken = given!(expand_with_list(
                known, progress, inside, name, body, formals, rest
            )?);
            Ok(Ok(taken))
        }
    }
}

/// A use of a macro with formals: its list is read, its arguments are expanded where it stands, and then its body.
#[cycle(uses)]
fn expand_with_list(
    known: &Known,
    progress: &mut Progress,
    inside: &Inside,
    name: &[u8],
    body: &[Token],
    formals: &FormalNames,
    rest: &[Token],
) -> Answer<usize>
    ensures { IfOk result (λ answer.
        by_formals (use_within inside.now.depth) (inside_of known.now.files.items inside.now) name.now
        (lexemes_in known.now.files.items body.now) (Some (map (λ formal. formal.items) formals.now.keys))
        (lexemes_in known.now.files.items rest.now) (state_of known.now progress.old)
        ≡ step_of (λ taken. (taken, state_of known.now progress.new)) (names_of known.now) answer) }
{
    let ArgumentList { taken, arguments } = argument_list(
        known.alloc,
        known.files.as_slice(),
        rest,
    )?;
    given!(read_at(progress, inside.outermost, rest, taken));
    let Some(arguments) = matching(formals, arguments) else {
        return Ok(Err(fault_at(progress, FaultCode::MacroArgs, inside.outermost)));
    };
    let expanded = given!(expand_arguments(known, progress, inside, arguments.as_slice())?);
    given!(expand_body(
        known,
        progress,
        inside,
        name,
        body,
        formals,
        expanded.as_slice()
    )?);
    Ok(Ok(taken))
}

/// The arguments of a use, from left to right.
#[cycle(uses)]
fn expand_arguments(
    known: &Known,
    progress: &mut Progress,
    inside: &Inside,
    arguments: &[&[Token]],
) -> Answer<Vec<Vec<Token>>>
    ensures { IfOk result (λ answer.
        macro_uses.expand_arguments (use_within inside.now.depth) (inside_of known.now.files.items inside.now)
        (map (λ argument. lexemes_in known.now.files.items argument.now) arguments.now) (state_of known.now progress.old)
        ≡ step_of (λ all. (map (λ argument. lexemes_in known.now.files.items argument.items) all.items, state_of known.now progress.new))
        (names_of known.now) answer) }
{
    let mut all = Vec::new(known.alloc);
    for argument in arguments {
        let expanded = given!(expand_argument(known, progress, inside, argument)?);
        all.push(expanded)?;
    }
    Ok(Ok(all))
}

/// An argument, whose tokens are given to a list of its own.
#[cycle(uses)]
fn expand_argument(
    known: &Known,
    progress: &mut Progress,
    inside: &Inside,
    argument: &[Token],
) -> Answer<Vec<Token>>
    ensures { IfOk result (λ answer.
        macro_uses.expand_argument (use_within inside.now.depth) (inside_of known.now.files.items inside.now)
        (lexemes_in known.now.files.items argument.now) (state_of known.now progress.old)
        ≡ step_of (λ given. (lexemes_in known.now.files.items given.items, state_of known.now progress.new)) (names_of known.now) answer) }
{
    let outer = progress.argument.replace(Vec::new(known.alloc));
    given!(expand_list(known, progress, inside, argument)?);
    let given = progress.argument.take();
    progress.argument = outer;
    Ok(Ok(given.unwrap_or(Vec::new(known.alloc))))
}

/// The body of a macro, with the macro open.
#[cycle(uses)]
fn expand_body(
    known: &Known,
    progress: &mut Progress,
    inside: &Inside,
    name: &[u8],
    body: &[Token],
    formals: &FormalNames,
    arguments: &[Vec<Token>],
) -> Answer<()>
    ensures { IfOk result (λ answer.
        macro_uses.expand_list (use_within inside.now.depth)
        (body_inside known.now.files.items inside.now name.now formals.now.keys arguments.now) 0
        (lexemes_in known.now.files.items body.now) (state_of known.now progress.old)
        ≡ step_of (λ u. state_of known.now progress.new) (names_of known.now) answer) }
{
    let mut opened = SmallVec::<&[u8], 8>::new(known.alloc);
    opened.push(name)?;
    opened.extend_from_slice(inside.opened)?;
    let inner = Inside {
        outermost: inside.outermost,
        opened: opened.as_slice(),
        formals,
        arguments,
        depth: inside.depth,
    };
    given!(expand_list(known, progress, &inner, body)?);
    Ok(Ok(()))
}

/// The tokens of an argument or a body.
#[cycle(uses)]
fn expand_list(
    known: &Known,
    progress: &mut Progress,
    inside: &Inside,
    tokens: &[Token],
) -> Answer<()>
    ensures { IfOk result (λ answer.
        macro_uses.expand_list (use_within inside.now.depth) (inside_of known.now.files.items inside.now) 0
        (lexemes_in known.now.files.items tokens.now) (state_of known.now progress.old)
        ≡ step_of (λ u. state_of known.now progress.new) (names_of known.now) answer) }
{
    let mut at = 0;
    'tokens: while at < tokens.len() {
        given!(read_one(progress, inside.outermost));
        let rest = &tokens[at + 1..];
        let taken = given!(expand_token(known, progress, inside, &tokens[at], rest)?);
        at += 1 + taken.min(rest.len());
    }
    Ok(Ok(()))
}

/// A token of an argument or a body, and those after it in the list. It tells how many of those were read.
#[cycle(uses)]
fn expand_token(
    known: &Known,
    progress: &mut Progress,
    inside: &Inside,
    token: &Token,
    rest: &[Token],
) -> Answer<usize>
    ensures { IfOk result (λ answer.
        macro_uses.at_role (use_within inside.now.depth) (inside_of known.now.files.items inside.now)
        (lexemes.role_of (lexeme_in known.now.files.items token.now)) (lexeme_in known.now.files.items token.now)
        (lexemes_in known.now.files.items rest.now) (state_of known.now progress.old)
        ≡ step_of (λ taken. (taken, state_of known.now progress.new)) (names_of known.now) answer) }
{
    match role_of(known.files.as_slice(), token) {
        Role::LineEnd => Ok(Ok(0)),
        Role::Directive(_) => {
            Ok(Err(fault_at(progress, FaultCode::Directive, inside.outermost)))
        }
        Role::Use(name) => {
            let taken = given!(expand_use(known, progress, inside, name, rest)?);
            Ok(Ok(taken))
        }
        Role::Name(name) => {
            let argument = argument_of(inside, name);
            given!(give_name(progress, inside, argument, token)?);
            Ok(Ok(0))
        }
        Role::Another => {
            given!(give(progress, inside.outermost, token)?);
            Ok(Ok(0))
        }
    }
}

/// A name gives its expanded argument, or itself where it is no formal.
fn give_name(
    progress: &mut Progress,
    inside: &Inside,
    argument: Option<&[Token]>,
    token: &Token,
) -> Answer<()>
    ensures { (k : types.Known) (at_use : Use) → IfOk result (λ answer.
        macro_uses.at_name at_use (inside_of k.files.items inside.now)
        (option_map (λ argument. lexemes_in k.files.items argument.now) argument.entry)
        (lexeme_in k.files.items token.now) (state_of k progress.old)
        ≡ step_of (λ u. state_of k progress.new) (names_of k) answer) }
{
    match argument {
        Some(argument) => {
            given!(give_all(progress, inside.outermost, argument)?);
            Ok(Ok(()))
        }
        None => {
            given!(give(progress, inside.outermost, token)?);
            Ok(Ok(()))
        }
    }
}
