//! The file that a text spells.
ghost use Rattle.std.specs.Prelude.{◌≡◌, ◌<◌, ◌-◌, ◌^◌, ℕ, IfOk, IsErrOf, OnOk, length, true};
ghost use Rattle.c_tree.specs.FileOf as files;
ghost use Rattle.c_tree.specs.Form.{HasForm, least_blamed};
ghost use Rattle.c_raw.specs.Views.{file_view, has_bodies};
ghost use Rattle.c_syntax.specs.Syntax.{IsSpelled, IsSyntaxFault};
ghost use Rattle.c_raw_build.specs.RawOf.{IsRawOf};
ghost use Rattle.c_reader.specs.Answers.{Reading, IsReading, Answers};
ghost use Rattle.c_reader.specs.Reading.{IsFileOf, IsBadByte, IsFormFault};

use crate::form::form_fault;
use c_raw::RawFile;
use c_raw_build::read_raw;
use c_raw_file::file_of;
use c_syntax::{CErr, ParsedFile, parse_file};
use c_tree::CFile;
use std::alloc::Global;

/// The raw tree of a text that the grammar spells.
fn raw_tree(alloc: Global, parsed: &ParsedFile, bytes: &[u8]) -> Result<RawFile, CErr>
    requires { IsSpelled bytes.now parsed.now.tokens.items parsed.now.tree }
    ensures raw { IfOk result (λ raw. IsRawOf bytes.now (file_view raw)) }
    ensures bodies { IfOk result (λ raw. has_bodies raw ≡ true) }
    ensures bad { (at : ℕ) → IsErrOf result (CErr.BadByte at) → ⊥ }
    ensures syntax { (at : ℕ) → IsErrOf result (CErr.Syntax at) → ⊥ }
    ensures form { (at : ℕ) → IsErrOf result (CErr.Form at) → ⊥ }
{
    match read_raw(alloc, parsed, bytes) {
        Ok(raw) => Ok(raw),
        Err(_) => Err(CErr::NoMemory),
    }
}

/// Whether a raw tree keeps the rules of form.
fn keeps_form(alloc: Global, raw: &RawFile) -> Result<(), CErr>
    requires { has_bodies raw.now ≡ true }
    ensures kept { OnOk result (HasForm (file_view raw.now)) }
    ensures form { (at : ℕ) → IsErrOf result (CErr.Form at) → least_blamed (file_view raw.now) ≡ Some at }
    ensures bad { (at : ℕ) → IsErrOf result (CErr.BadByte at) → ⊥ }
    ensures syntax { (at : ℕ) → IsErrOf result (CErr.Syntax at) → ⊥ }
{
    match form_fault(alloc, raw) {
        Ok(None) => Ok(()),
        Ok(Some(token)) => Err(CErr::Form(token)),
        Err(_) => Err(CErr::NoMemory),
    }
}

/// The file of a raw tree.
fn file(alloc: Global, raw: &RawFile) -> Result<CFile, CErr>
    requires { has_bodies raw.now ≡ true }
    ensures file { IfOk result (λ f. f ≡ files.file_of (file_view raw.now)) }
    ensures bad { (at : ℕ) → IsErrOf result (CErr.BadByte at) → ⊥ }
    ensures syntax { (at : ℕ) → IsErrOf result (CErr.Syntax at) → ⊥ }
    ensures form { (at : ℕ) → IsErrOf result (CErr.Form at) → ⊥ }
{
    match file_of(alloc, raw) {
        Ok(file) => Ok(file),
        Err(_) => Err(CErr::NoMemory),
    }
}

/// The file, or the fault.
fn answer(alloc: Global, bytes: &[u8]) -> Result<CFile, CErr>
    requires { length bytes.now < 2 ^ 32 - 1 }
    ensures file { IfOk result (IsFileOf bytes.now) }
    ensures bad { (at : ℕ) → IsErrOf result (CErr.BadByte at) → IsBadByte bytes.now at }
    ensures syntax { (at : ℕ) → IsErrOf result (CErr.Syntax at) → IsSyntaxFault bytes.now at }
    ensures form { (at : ℕ) → IsErrOf result (CErr.Form at) → IsFormFault bytes.now at }
{
    let parsed = parse_file(alloc, bytes)?;
    let raw = raw_tree(alloc, &parsed, bytes)?;
    keeps_form(alloc, &raw)?;
    let file = file(alloc, &raw)?;
    Ok(file)
}

/// The file that a text spells: the grammar spells the text, its raw tree breaks no rule of form, and the file is that of the raw
/// tree. Else `BadByte` is the index of the first byte that begins no token; `Syntax`, where all bytes make tokens, the number
/// of the first bad token; and `Form`, where the grammar spells the text, the number of the least token at which a rule of form is
/// broken. `NoMemory` may come in place of each of these.
///
/// It takes time and memory in proportion to the text, however deep blocks nest.
pub fn read(alloc: Global, bytes: &[u8]) -> Result<CFile, CErr>
    requires { length bytes.now < 2 ^ 32 - 1 }
    ensures file { IfOk result (IsFileOf bytes.now) }
    ensures bad { (at : ℕ) → IsErrOf result (CErr.BadByte at) → IsBadByte bytes.now at }
    ensures syntax { (at : ℕ) → IsErrOf result (CErr.Syntax at) → IsSyntaxFault bytes.now at }
    ensures form { (at : ℕ) → IsErrOf result (CErr.Form at) → IsFormFault bytes.now at }
    // Whatever of these is so of the text is what is answered, unless memory is refused.
    ensures complete { (r : Reading) → IsReading bytes.now r → Answers r result }
{
    let answer = answer(alloc, bytes);
    answer
}
