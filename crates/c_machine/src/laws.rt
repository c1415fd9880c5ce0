//! What follows from the definitions, as the contracts of functions with nothing to do: a contract is what the check proves.
ghost use Rattle.alg_laws.specs.AtFour.{AtFour};
ghost use Rattle.c_machine.specs.MachineLaws.{CallsKeep, LoadsAdd, RunsFollow, TurnsSuffice};
ghost use Rattle.c_machine.specs.NeverStuck.{NeverStuck};

use alg_laws::Algebra;
use std::marker::PhantomData;

/// A run of some calls and then others is the second from where the first ended.
pub fn runs_follow<A: Algebra>(_law: PhantomData<A>)
    ensures { AtFour A.ops A.valid RunsFollow }
{}

/// A run that is defined where each entry to a loop may make n turns is the same for every greater number.
pub fn turns_suffice<A: Algebra>(_law: PhantomData<A>)
    ensures { AtFour A.ops A.valid TurnsSuffice }
{}

/// Each call writes only what calls of its kind may write.
pub fn calls_keep<A: Algebra>(_law: PhantomData<A>)
    ensures { AtFour A.ops A.valid CallsKeep }
{}

/// A load leaves at each place what its statements make of the old value: each sets it, adds to it or takes from it.
pub fn loads_add<A: Algebra>(_law: PhantomData<A>)
    ensures { AtFour A.ops A.valid LoadsAdd }
{}

/// No run of a module of a file that obeys the rules of form is stuck, where the machine has the module's cells with their types,
/// mapped numbers are in range, and each setting finds its cell.
pub fn never_stuck<A: Algebra>(_law: PhantomData<A>)
    ensures { AtFour A.ops A.valid NeverStuck }
{}
