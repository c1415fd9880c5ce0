//! Reading set-ups and evaluations.
ghost use Rattle.std.specs.Prelude.{◌≡◌, IfOk, true, [], ◌∷◌};
ghost use Rattle.c_raw.specs.Blocks.{block_view, is_body};
ghost use Rattle.c_raw_build.specs.Due.{IsDueIn};
ghost use Rattle.c_raw_build.specs.Nonterminals as nonterminals;
ghost use Rattle.c_raw_build.specs.Reading.{Reads};
ghost use Rattle.c_raw_build.specs.RawFiles as raw;

use crate::bodies::{closed, statements};
use crate::headers::{instance, model, reset};
use crate::reader::Reader;
use crate::row;
use crate::text::Text;
use c_raw::RawStatement;
use std::alloc::{AllocError, Global};

/// The set-up of the model.
pub(crate) fn setup_model(
    alloc: Global,
    text: &Text<'_>,
    reader: &mut Reader<'_>,
) -> Result<Vec<RawStatement>, AllocError>
    requires { IsDueIn text.now (nonterminals.setup_model ∷ []) reader.old }
    ensures read { IfOk result (λ v. Reads (raw.setup_model text.now) reader.old reader.new (block_view v.items)) }
    ensures body { IfOk result (λ v. is_body v.items ≡ true) }
{
    reader.take(row::SETUP_MODEL);
    reader.pass(21);
    model(reader);
    reset(reader);
    let list = statements(alloc, text, reader)?;
    let body = closed(list, reader.at())?;
    reader.pass(1);
    Ok(body)
}

/// The set-up of an instance.
pub(crate) fn setup_instance(
    alloc: Global,
    text: &Text<'_>,
    reader: &mut Reader<'_>,
) -> Result<Vec<RawStatement>, AllocError>
    requires { IsDueIn text.now (nonterminals.setup_instance ∷ []) reader.old }
    ensures read { IfOk result (λ v. Reads (raw.setup_instance text.now) reader.old reader.new (block_view v.items)) }
    ensures body { IfOk result (λ v. is_body v.items ≡ true) }
{
    reader.take(row::SETUP_INSTANCE);
    reader.pass(31);
    instance(reader);
    model(reader);
    reset(reader);
    reader.pass(6);
    let list = statements(alloc, text, reader)?;
    let body = closed(list, reader.at())?;
    reader.pass(1);
    Ok(body)
}

/// The evaluation.
pub(crate) fn eval(
    alloc: Global,
    text: &Text<'_>,
    reader: &mut Reader<'_>,
) -> Result<Vec<RawStatement>, AllocError>
    requires { IsDueIn text.now (nonterminals.eval ∷ []) reader.old }
    ensures read { IfOk result (λ v. Reads (raw.eval text.now) reader.old reader.new (block_view v.items)) }
    ensures body { IfOk result (λ v. is_body v.items ≡ true) }
{
    reader.take(row::EVAL);
    reader.pass(21);
    instance(reader);
    model(reader);
    reader.pass(9);
    let list = statements(alloc, text, reader)?;
    reader.pass(3);
    let body = closed(list, reader.at())?;
    reader.pass(1);
    Ok(body)
}
