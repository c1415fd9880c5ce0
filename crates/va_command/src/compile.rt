//! From the tokens of a text after expansion to its C text.
ghost use Rattle.std.specs.Prelude.{◌≡◌, IfOk, IfErr};
ghost use Rattle.va_base.specs.Expansion.{IsExpanded};
ghost use Rattle.va_command.specs.Faults.{StandsFirst, IsTextCause};
ghost use Rattle.va_command.specs.Answers.{IsCompiled};

use crate::front::{FrontErr, source_of};
use alg_laws::Algebra;
use c_print::short::print;
use first_form::{TranslateErr, translate};
use std::alloc::Global;
use std::marker::PhantomData;
use va_base::{Expanded, Fault, FaultCode, NoMemory, Phase};

/// The fault of a text that is not of the built form.
fn unbuilt(e: &Expanded) -> Fault
    requires expanded { IsExpanded e.now }
    ensures { StandsFirst e.now result }
{
    let first = e.tokens.as_list()[0];
    Fault {
        phase: Phase::Rules,
        at: 0,
        place: first.place,
        code: FaultCode::Unbuilt,
    }
}

/// The C text of a text after expansion.
pub fn c_text<A: Algebra>(
    alloc: Global,
    law: PhantomData<A>,
    e: &Expanded,
) -> Result<Vec<u8>, FrontErr>
    requires expanded { IsExpanded e.now }
    ensures compiled { IfOk result (λ text. IsCompiled A.ops A.valid e.now text.items) }
    ensures refused { IfErr result (IsTextCause e.now) }
{
    let source = match source_of(alloc, e) {
        Ok(source) => source,
        Err(FrontErr::Fault(fault)) => return Err(FrontErr::Fault(fault)),
        Err(FrontErr::NoMemory) => return Err(FrontErr::NoMemory),
    };
    let file = match translate(alloc, &source, law) {
        Ok(file) => file,
        Err(TranslateErr::Unbuilt) => return Err(FrontErr::Fault(unbuilt(e))),
        Err(TranslateErr::NoMemory) => return Err(FrontErr::NoMemory),
    };
    match print(alloc, &file) {
        Ok(text) => Ok(text),
        Err(NoMemory) => Err(FrontErr::NoMemory),
    }
}
