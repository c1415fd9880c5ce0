//! Straight code, written a declaration at a time.
ghost use Rattle.std.specs.Prelude.{◌≡◌, ◌+◌, ◌∷◌, [], ◌++◌, IfOk, OnOk, IsErrOf};
ghost use Rattle.first_form.specs.Reading.{HasDeclared, HasSet};

use crate::TranslateErr;
use c_tree::short::{Atom, Field, Right, Statement};
use std::alloc::Global;

/// The statements so far, and the number of the next local.
#[derive(Drop)]
pub struct Writer {
    pub statements: Vec<Statement>,
    pub next: u32,
}

impl Writer {
    /// No statements.
    pub fn new(alloc: Global) -> Writer
        ensures statements { result.statements.items ≡ [] }
        ensures next { result.next ≡ 0 }
    {
        Writer {
            statements: Vec::new(alloc),
            next: 0,
        }
    }

    /// Declares the next local, and gives it.
    pub fn declare(&mut self, right: Right) -> Result<Atom, TranslateErr>
        ensures declared { IfOk result (λ atom. HasDeclared self.old right self.new atom) }
        ensures memory { IsErrOf result TranslateErr.Unbuilt → ⊥ }
    {
        let local = self.next;
        let Some(next) = local.checked_add(1) else {
            return Err(TranslateErr::NoMemory);
        };
        let Ok(()) = self.statements.push(Statement::Declare { local, right }) else {
            return Err(TranslateErr::NoMemory);
        };
        self.next = next;
        Ok(Atom::Local(local))
    }

    /// Sets a field of the instance.
    pub fn set(&mut self, field: Field, value: Atom) -> Result<(), TranslateErr>
        ensures set { OnOk result (HasSet self.old field value self.new) }
        ensures memory { IsErrOf result TranslateErr.Unbuilt → ⊥ }
    {
        match self.statements.push(Statement::Set { field, value }) {
            Ok(()) => Ok(()),
            Err(_) => Err(TranslateErr::NoMemory),
        }
    }
}
