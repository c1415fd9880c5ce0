//! What walks over expressions find.
ghost use Rattle.std.specs.Prelude.{◌≡◌, ◌+◌, ◌++◌, ◌∷◌, [], length, slice_set, IfOk, Some, None};
ghost use Rattle.alg_laws.specs.declared.number.Ty.TheVariants.{Real};
ghost use Rattle.va_sem.specs.FaultsLaws.{earlier};
ghost use Rattle.va_sem.specs.Faults.{is_before};
ghost use Rattle.va_sem.specs.NamesFaults.{fault_if};
ghost use Rattle.va_types.specs.Found.{Finds};

use alg_laws::Ty;
use std::alloc::{AllocError, Global};
use va_base::FaultCode;

/// The types of expressions in pre-order, and the least fault: its token and its code.
#[derive(Drop)]
pub struct Found {
    pub types: Vec<Ty>,
    pub least: Option<(u32, FaultCode)>,
}

/// Whether a fault stands before another of its phase: by the token, and at one token by the number of the code.
fn is_earlier(a: (u32, FaultCode), b: (u32, FaultCode)) -> bool
    ensures { result ≡ is_before a b }
{
    a.0 < b.0 || a.0 == b.0 && a.1.number() < b.1.number()
}

/// The earlier of a fault and one that may be missing.
fn least_with(known: Option<(u32, FaultCode)>, fault: (u32, FaultCode)) -> Option<(u32, FaultCode)>
    ensures { result ≡ earlier known (Some fault) }
{
    match known {
        None => Some(fault),
        Some(other) => {
            if is_earlier(fault, other) {
                Some(fault)
            } else {
                Some(other)
            }
        }
    }
}

impl Found {
    /// Nothing found so far.
    pub fn new(alloc: Global) -> Found
        ensures types { result.types.items ≡ [] }
        ensures least { result.least ≡ None }
    {
        Found {
            types: Vec::new(alloc),
            least: None,
        }
    }

    /// Adds the type of an expression without others in it.
    pub fn add(&mut self, ty: Ty) -> Result<Ty, AllocError>
        ensures answer { IfOk result (λ answer. answer ≡ ty) }
        ensures finds { IfOk result (λ answer. Finds (ty ∷ []) [] self.old self.new) }
    {
        self.types.push(ty)?;
        Ok(ty)
    }

    /// Makes room for the type of an expression before the types of those in it, and answers where.
    pub fn open(&mut self) -> Result<usize, AllocError>
        ensures place { IfOk result (λ place. place ≡ length self.old.types.items) }
        ensures finds { IfOk result (λ place. Finds (Real ∷ []) [] self.old self.new) }
    {
        let place = self.types.len();
        self.types.push(Ty::Real)?;
        Ok(place)
    }

    /// Puts the type of an expression where room was made for it.
    pub fn close(&mut self, place: usize, ty: Ty) -> Ty
        ensures answer { result ≡ ty }
        ensures types { self.new.types.items ≡ slice_set self.old.types.items place ty }
        ensures least { self.new.least ≡ self.old.least }
    {
        if place < self.types.len() {
            self.types[place] = ty;
        }
        ty
    }

    /// Notes a fault where a rule is broken.
    pub fn note_if(&mut self, broken: bool, at: u32, code: FaultCode)
        ensures { Finds [] (fault_if broken at code) self.old self.new }
    {
        if broken {
            self.least = least_with(self.least, (at, code));
        }
    }
}
