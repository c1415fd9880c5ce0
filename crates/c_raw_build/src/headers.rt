//! Passing the casts with which functions begin.
ghost use Rattle.std.specs.Prelude.{[], ◌∷◌};
ghost use Rattle.c_raw_build.specs.Due.{IsDue};
ghost use Rattle.c_raw_build.specs.Nonterminals as nonterminals;
ghost use Rattle.c_raw_build.specs.Reading.{Skips};

use crate::reader::Reader;
use crate::row;

/// `inst_0 * inst = ( inst_0 * ) ip ;`
pub(crate) fn instance(reader: &mut Reader<'_>)
    requires { IsDue (nonterminals.instance ∷ []) reader.old }
    ensures { Skips reader.old reader.new }
{
    reader.take(row::INSTANCE);
    reader.pass(10);
}

/// `model_0 * model = ( model_0 * ) mp ;`
pub(crate) fn model(reader: &mut Reader<'_>)
    requires { IsDue (nonterminals.model ∷ []) reader.old }
    ensures { Skips reader.old reader.new }
{
    reader.take(row::MODEL);
    reader.pass(10);
}

/// What a set-up does first: it empties the list of errors.
pub(crate) fn reset(reader: &mut Reader<'_>)
    requires { IsDue (nonterminals.reset ∷ []) reader.old }
    ensures { Skips reader.old reader.new }
{
    reader.take(row::RESET);
    reader.pass(18);
}

/// The two functions with which each file begins.
pub(crate) fn help(reader: &mut Reader<'_>)
    requires { IsDue (nonterminals.help ∷ []) reader.old }
    ensures { Skips reader.old reader.new }
{
    reader.take(row::HELP);
    reader.pass(97);
}
