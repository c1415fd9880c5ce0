//! The least of the faults that were found so far: by the token, and at one token by the number of the code.
ghost use Rattle.std.specs.Prelude.{◌≡◌, ◌∷◌, []};
ghost use Rattle.va_sem.specs.NamesFaults.{fault_if};
ghost use Rattle.va_sem.specs.Faults.{is_before as comes_before};
ghost use Rattle.va_scopes.specs.Finds.{Finds};

use va_base::FaultCode;

/// The token of a fault, and its code.
pub type FaultAt = (u32, FaultCode);

/// Whether one fault comes before another.
fn is_before(a: FaultAt, b: FaultAt) -> bool
    ensures { result ≡ comes_before a b }
{
    a.0 < b.0 || a.0 == b.0 && a.1.number() < b.1.number()
}

/// Finds a fault.
pub fn note(least: &mut Option<FaultAt>, at: u32, code: FaultCode)
    ensures { Finds least.old least.new ((at, code) ∷ []) }
{
    let fault = (at, code);
    *least = match *least {
        Some(known) => Some(if is_before(fault, known) {
            fault
        } else {
            known
        }),
        None => Some(fault),
    };
}

/// Finds a fault where it stands.
pub fn note_if(least: &mut Option<FaultAt>, stands: bool, at: u32, code: FaultCode)
    ensures { Finds least.old least.new (fault_if stands at code) }
{
    if stands {
        note(least, at, code);
    }
}
