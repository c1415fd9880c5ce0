//! The files of an expansion: how they are read, and what their tokens do.
ghost use Rattle.std.specs.Prelude.{◌≡◌, ◌<◌, ◌≤◌, ◌^◌, ◌-◌, ◌+◌, ◌++◌, ◌∷◌, [], length, take, IfOk, OnOk, Some, reverse, slice_get, string_bytes, vec_len, vec_capacity, true, option_map, ◌&&◌, not};
ghost use Rattle.va_base.specs.declared.fault.FaultCode.TheVariants.{Directive as directive_code};
ghost use Rattle.va_preproc.specs.Types as types;
ghost use Rattle.va_preproc.specs.Lexemes as lexemes;
ghost use Rattle.va_preproc.specs.Definitions as definitions;
ghost use Rattle.va_preproc.specs.Definitions.{next_token};
ghost use Rattle.va_preproc.specs.Conditionals as conditionals;
ghost use Rattle.va_preproc.specs.Expansion as file_steps;
ghost use Rattle.va_preproc.specs.Values.{next_read, step_of, state_of, names_of, lexeme_in, lexemes_in, onward_seen, is_include_by};
ghost use Rattle.va_preproc.specs.Steps.{limits_of, world, Asks, HasCause, Follows, last_of, AreWithin, IsFit, IfGiven, itself, at_onward, includes_by, expand_read, token_step, file_step};

use crate::broken::{Broken, FileAnswer};
use crate::condition::{Branches, all_closed, is_skipped};
use crate::definition::first_file_name;
use crate::directive::Directive;
use crate::known::Known;
use crate::limits::Limits;
use crate::progress::Progress;
use crate::reading::{fault_at, read_one, read_own};
use crate::role::{Role, role_of};
use crate::turn::at_token;
use smallvec::SmallVec;
use std::alloc::Global;
use va_base::{Fault, FaultCode, FileText, Items, Name, NoMemory, Place, Token};
use va_io::{FileErr, Files};
use va_lexer::lex;

/// A file that is open: its name, and how many includes may be open inside each other from here on.
#[derive(Clone, Copy)]
pub struct Open<'a> {
    pub name: &'a str,
    pub depth: u32,
    pub limits: Limits,
}

/// A file is known from now on. There is room for it.
pub fn add_file(known: &mut Known, name: Name, bytes: Vec<u8>)
    requires { vec_len known.old.files < vec_capacity known.old.files }
    ensures files { known.new.files.items ≡ known.old.files.items ++ record { name = name; bytes = bytes.items } ∷ [] }
    ensures macros { known.new.macros ≡ known.old.macros }
{
    let bytes = Items::new(bytes);
    known.files.push(FileText { name, bytes }).unwrap();
}

/// The place at which a file begins.
fn place_of(file: u32) -> Place
    ensures { result ≡ file_steps.first_place file }
{
    Place {
        file,
        line: 1,
        col: 1,
    }
}

/// A file that was read and is the last that is known: past its limit it is refused; else its tokens are expanded.
#[cycle(files)]
pub fn expand_last<F: Files>(
    files: &mut F,
    known: &mut Known,
    progress: &mut Progress,
    open: &Open,
) -> FileAnswer<()>
    requires some { 0 < length known.old.files.items }
    requires few { length known.old.files.items < 2 ^ 32 }
    requires named { slice_get (names_of known.old) (length known.old.files.items - 1) ≡ Some open.now.name.now }
    requires fit { IsFit open.now.limits.bytes 1 known.old progress.old }
    ensures asks { Asks open.now.limits.bytes
        (world (F.holds files.old) (F.asked files.old) (F.faults files.old))
        (world (F.holds files.new) (F.asked files.new) (F.faults files.new))
        known.old.files.items known.new.files.items (last_of result) }
    ensures cause { HasCause
        (world (F.holds files.old) (F.asked files.old) (F.faults files.old))
        (world (F.holds files.new) (F.asked files.new) (F.faults files.new)) result }
    ensures fit { IfGiven result (IsFit open.now.limits.bytes 0 known.new progress.new) }
    ensures follows { Follows open.now.limits.bytes
        (λ r. expand_read (limits_of open.now.limits) open.now.depth r open.now.name.now (length known.old.files.items - 1) (state_of known.old progress.old))
        (λ u. state_of known.new progress.new) itself known.new.files.items result }
{
    let number = known.files.len() - 1;
    let bytes = known.files[number].bytes.as_list();
    if bytes.len() > open.limits.bytes as usize {
        let place = place_of(number as u32);
        return Ok(Err(fault_at(progress, FaultCode::FileLarge, place)));
    }
    let Ok(tokens) = lex(known.alloc, bytes, number as u32) else {
        return Err(Broken::NoMemory);
    };
    match expand_file(files, known, progress, open, tokens.as_slice()) {
        Ok(Ok(())) => Ok(Ok(())),
        Ok(Err(fault)) => Ok(Err(fault)),
        Err(broken) => Err(broken),
    }
}

/// The tokens of a file.
#[cycle(files)]
fn expand_file<F: Files>(
    files: &mut F,
    known: &mut Known,
    progress: &mut Progress,
    open: &Open,
    tokens: &[Token],
) -> FileAnswer<()>
    requires fit { IsFit open.now.limits.bytes 0 known.old progress.old }
    requires within { AreWithin (length known.old.files.items) tokens.now }
    ensures asks { Asks open.now.limits.bytes
        (world (F.holds files.old) (F.asked files.old) (F.faults files.old))
        (world (F.holds files.new) (F.asked files.new) (F.faults files.new))
        known.old.files.items known.new.files.items (last_of result) }
    ensures cause { HasCause
        (world (F.holds files.old) (F.asked files.old) (F.faults files.old))
        (world (F.holds files.new) (F.asked files.new) (F.faults files.new)) result }
    ensures fit { IfGiven result (IsFit open.now.limits.bytes 0 known.new progress.new) }
    ensures follows { Follows open.now.limits.bytes
        (file_step (limits_of open.now.limits) open.now.depth open.now.name.now known.old.files.items tokens.now [] (state_of known.old progress.old))
        (λ u. state_of known.new progress.new) itself known.new.files.items result }
{
    let mut branches = SmallVec::new(known.alloc);
    let mut at = 0;
    'tokens: while at < tokens.len() {
        if let Err(fault) = read_one(progress, tokens[at].place) {
            return Ok(Err(fault));
        }
        let rest = &tokens[at + 1..];
        match expand_token(
            files,
            known,
            progress,
            open,
            &mut branches,
            &tokens[at],
            rest,
        ) {
            Ok(Ok(taken)) => at += 1 + taken.min(rest.len()),
            Ok(Err(fault)) => return Ok(Err(fault)),
            Err(broken) => return Err(broken),
        }
    }
    match all_closed(progress, &branches) {
        Ok(()) => Ok(Ok(())),
        Err(fault) => Ok(Err(fault)),
    }
}

/// A token of a file. It tells how many of the tokens after it were read.
#[cycle(files)]
fn expand_token<F: Files>(
    files: &mut F,
    known: &mut Known,
    progress: &mut Progress,
    open: &Open,
    branches: &mut Branches,
    token: &Token,
    rest: &[Token],
) -> FileAnswer<usize>
    requires fit { IsFit open.now.limits.bytes 0 known.old progress.old }
    requires within { AreWithin (length known.old.files.items) rest.now }
    ensures asks { Asks open.now.limits.bytes
        (world (F.holds files.old) (F.asked files.old) (F.faults files.old))
        (world (F.holds files.new) (F.asked files.new) (F.faults files.new))
        known.old.files.items known.new.files.items (last_of result) }
    ensures cause { HasCause
        (world (F.holds files.old) (F.asked files.old) (F.faults files.old))
        (world (F.holds files.new) (F.asked files.new) (F.faults files.new)) result }
    ensures fit { IfGiven result (IsFit open.now.limits.bytes 0 known.new progress.new) }
    ensures follows { Follows open.now.limits.bytes
        (token_step (limits_of open.now.limits) open.now.depth open.now.name.now known.old.files.items token.now rest.now
        (reverse branches.old.items) (state_of known.old progress.old))
        (onward_seen known.new progress.new branches.new) at_onward known.new.files.items result }
{
    if is_include(known, branches, token) {
        return match at_include(files, known, progress, open, branches, token, rest) {
            Ok(Ok(taken)) => Ok(Ok(taken)),
            Ok(Err(fault)) => Ok(Err(fault)),
            Err(broken) => Err(broken),
        };
    }
    match at_token(known, progress, branches, open.limits.uses, token, rest) {
        Ok(answer) => Ok(answer),
        Err(NoMemory) => Err(Broken::NoMemory),
    }
}

/// A token is an include in text that isn't skipped.
fn is_include(known: &Known, branches: &Branches, token: &Token) -> bool
    ensures { result ≡ (is_include_by (lexemes.role_of (lexeme_in known.now.files.items token.now))
        && not (conditionals.is_skipped (reverse branches.now.items))) }
{
    match role_of(known.files.as_slice(), token) {
        Role::Directive(Directive::Include) => !is_skipped(branches),
        _ => false,
    }
}

/// An include: it takes a string, the next token of its line, and what follows on the line is read after the file.
#[cycle(files)]
fn at_include<F: Files>(
    files: &mut F,
    known: &mut Known,
    progress: &mut Progress,
    open: &Open,
    branches: &Branches,
    token: &Token,
    rest: &[Token],
) -> FileAnswer<usize>
    requires include { (is_include_by (lexemes.role_of (lexeme_in known.old.files.items token.now))
        && not (conditionals.is_skipped (reverse branches.now.items))) ≡ true }
    requires fit { IsFit open.now.limits.bytes 0 known.old progress.old }
    ensures asks { Asks open.now.limits.bytes
        (world (F.holds files.old) (F.asked files.old) (F.faults files.old))
        (world (F.holds files.new) (F.asked files.new) (F.faults files.new))
        known.old.files.items known.new.files.items (last_of result) }
    ensures cause { HasCause
        (world (F.holds files.old) (F.asked files.old) (F.faults files.old))
        (world (F.holds files.new) (F.asked files.new) (F.faults files.new)) result }
    ensures fit { IfGiven result (IsFit open.now.limits.bytes 0 known.new progress.new) }
    ensures follows { Follows open.now.limits.bytes
        (token_step (limits_of open.now.limits) open.now.depth open.now.name.now known.old.files.items token.now rest.now
        (reverse branches.now.items) (state_of known.old progress.old))
        (onward_seen known.new progress.new branches.now) at_onward known.new.files.items result }
{
    let meaning = first_file_name(known.files.as_slice(), rest);
    let file = match read_file_name(progress, token, rest, meaning) {
        Ok(file) => file,
        Err(fault) => return Ok(Err(fault)),
    };
    let Ok(path) = included_name(known.alloc, open.name, file) else {
        return Err(Broken::NoMemory);
    };
    match include(files, known, progress, open, path, token.place) {
        Ok(Ok(())) => Ok(Ok(1)),
        Ok(Err(fault)) => Ok(Err(fault)),
        Err(broken) => Err(broken),
    }
}

/// The string that an include takes, the next token, which is read.
fn read_file_name<'a>(
    progress: &mut Progress,
    token: &Token,
    rest: &[Token],
    meaning: Option<&'a str>,
) -> Result<&'a str, Fault>
    ensures { (k : types.Known) → option_map (λ name. name.now) meaning.entry ≡ (next_token definitions.file_name (lexemes_in k.files.items rest.now)).meaning
        → next_read definitions.file_name directive_code (lexeme_in k.files.items token.now) (lexemes_in k.files.items rest.now) (state_of k progress.old)
        ≡ step_of (λ name. (name.now, state_of k progress.new)) (names_of k) result }
{
    if let Err(fault) = read_own(progress, rest, 1) {
        return Err(fault);
    }
    match meaning {
        Some(name) => Ok(name),
        None => Err(fault_at(progress, FaultCode::Directive, token.place)),
    }
}

/// How long a file's name is up to and including its last `/`.
fn folder_len(name: &[u8]) -> usize
    ensures folder { file_steps.folder name.now ≡ take result name.now }
    ensures within { result ≤ length name.now }
{
    let mut len = name.len();
    'folder: while len > 0 && name[len - 1] != b'/' {
        len -= 1;
    }
    len
}

/// The name of an included file, by that of the including one and the string.
fn included_name(alloc: Global, including: &str, file: &str) -> Result<String, NoMemory>
    ensures { IfOk result (λ name. string_bytes name ≡ file_steps.included_name including.now file.now) }
{
    let bytes = included_bytes(alloc, including.as_bytes(), file.as_bytes())?;
    match String::from_utf8(bytes) {
        Ok(name) => Ok(name),
        Err(_) => Err(NoMemory),
    }
}

/// The same in bytes.
fn included_bytes(alloc: Global, including: &[u8], file: &[u8]) -> Result<Vec<u8>, NoMemory>
    ensures { IfOk result (λ name. name.items ≡ file_steps.included_name including.now file.now) }
{
    let mut name = Vec::new(alloc);
    if file.first() != Some(&b'/') {
        name.extend_from_slice(&including[..folder_len(including)])?;
    }
    name.extend_from_slice(file)?;
    Ok(name)
}

/// An include of the file of this name, which is blamed at a place.
#[cycle(files)]
fn include<F: Files>(
    files: &mut F,
    known: &mut Known,
    progress: &mut Progress,
    open: &Open,
    name: String,
    place: Place,
) -> FileAnswer<()>
    requires fit { IsFit open.now.limits.bytes 0 known.old progress.old }
    ensures asks { Asks open.now.limits.bytes
        (world (F.holds files.old) (F.asked files.old) (F.faults files.old))
        (world (F.holds files.new) (F.asked files.new) (F.faults files.new))
        known.old.files.items known.new.files.items (last_of result) }
    ensures cause { HasCause
        (world (F.holds files.old) (F.asked files.old) (F.faults files.old))
        (world (F.holds files.new) (F.asked files.new) (F.faults files.new)) result }
    ensures fit { IfGiven result (IsFit open.now.limits.bytes 0 known.new progress.new) }
    ensures follows { Follows open.now.limits.bytes
        (λ r. includes_by (limits_of open.now.limits) open.now.depth r (string_bytes name) place (state_of known.old progress.old))
        (λ u. state_of known.new progress.new) itself known.new.files.items result }
{
    if open.depth == 0 {
        return Ok(Err(fault_at(progress, FaultCode::IncludeDeep, place)));
    }
    let Ok(own) = name_for(known, name.as_str()) else {
        return Err(Broken::NoMemory);
    };
    match files.read(known.alloc, name.as_str(), open.limits.bytes as usize + 1) {
        Ok(bytes) => {
            add_file(known, own, bytes);
            let inner = Open {
                name: name.as_str(),
                depth: open.depth - 1,
                limits: open.limits,
            };
            match expand_last(files, known, progress, &inner) {
                Ok(Ok(())) => Ok(Ok(())),
                Ok(Err(fault)) => Ok(Err(fault)),
                Err(broken) => Err(broken),
            }
        }
        Err(FileErr::Missing) => {
            let fault = fault_at(progress, FaultCode::MissingInclude, place);
            Err(Broken::Missing(fault, own))
        }
        Err(FileErr::Failed) => Err(Broken::Failed(own)),
        Err(FileErr::NoMemory) => Err(Broken::NoMemory),
    }
}

/// A copy of a file's name, with room for the file. No list of files is so long that a number of 32 bits does not tell its length.
pub fn name_for(known: &mut Known, name: &str) -> Result<Name, NoMemory>
    ensures name { IfOk result (λ own. own ≡ name.now) }
    ensures room { OnOk result (vec_len known.new.files < vec_capacity known.new.files) }
    ensures few { OnOk result (1 + length known.new.files.items < 2 ^ 32) }
    ensures files { known.new.files.items ≡ known.old.files.items }
    ensures macros { known.new.macros ≡ known.old.macros }
{
    if known.files.len() >= u32::MAX as usize - 1 {
        return Err(NoMemory);
    }
    known.files.reserve(1)?;
    let bytes = name.as_bytes().to_vec(known.alloc)?;
    Ok(Name::new(bytes))
}
