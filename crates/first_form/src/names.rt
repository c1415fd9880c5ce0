//! Names: those that may be declared, and those of the parameters, by number.
ghost use Rattle.std.specs.Prelude.{◌≡◌, ◌≤◌, ◌<◌, ◌∷◌, [], ◌++◌, ◌⊎◌, ℕ, List, length, map, Contains, MatchOption, OnOk, IsErrOf};
ghost use Rattle.std.specs.List.{list_any};
ghost use Rattle.std.specs.Str.{bytes_eq};
ghost use Rattle.first_form.specs.Form as form_spec;
ghost use Rattle.first_form.specs.Residuals.{number_in};

use crate::TranslateErr;
use indexmap::IndexSet;
use std::alloc::Global;
use std::marker::Model;
use va_base::Name;

/// Whether a name has these bytes.
pub fn is_named(name: &Name, bytes: &[u8]) -> bool
    ensures { result ≡ bytes_eq name.now bytes.now }
{
    name.as_bytes() == bytes
}

/// Whether two names are the same.
pub fn is_bytes(name: &[u8], other: &[u8]) -> bool
    ensures { result ≡ bytes_eq name.now other.now }
{
    name == other
}

/// Whether a name is none that the first form uses itself, so that it may be declared.
pub fn is_free(name: &[u8]) -> bool
    ensures { result ≡ form_spec.is_free name.now }
{
    !is_bytes(name, b"V") && !is_bytes(name, b"I") && !is_bytes(name, b"electrical")
}

/// How many parameters a module may have.
const MAX_PARAMS: usize = 4096;

/// Distinct names, at most 4096, in the order in which they were added. Contracts see the list of their bytes.
#[derive(Drop)]
pub struct Names<'a> {
    set: IndexSet<&'a [u8]>,
}

impl<'a> Model for Names<'a> {
    ghost Value = { List (List ℕ) };

    ghost view = { λ n. map (λ k. k.now) n.set.keys };

    ghost invariant = { λ n. length n.set.keys ≤ 4096 };
}

impl<'a> Names<'a> {
    /// No names.
    pub fn new(alloc: Global) -> Names<'a>
        ensures { result ≡ [] }
    {
        Names {
            set: IndexSet::new(alloc),
        }
    }

    /// How many names there are.
    pub fn len(&self) -> u32
        ensures value { result ≡ length self.now }
        ensures few { result ≤ 4096 }
    {
        self.set.len() as u32
    }

    /// The number of a name, from 0 on.
    pub fn number(&self, name: &[u8]) -> Option<u32>
        ensures { MatchOption result (Contains self.now name.now → ⊥)
            (λ i. Contains self.now name.now × (i ≡ number_in self.now name.now)) }
    {
        let index = self.set.get_index_of(name)?;
        Some(index as u32)
    }

    /// Adds a name. It fails where the name is there already, where there are 4096 names, and where memory is refused.
    pub fn add(&mut self, name: &'a [u8]) -> Result<(), TranslateErr>
        ensures added { OnOk result (self.new ≡ self.old ++ name.now ∷ []) }
        ensures fresh { OnOk result (Contains self.old name.now → ⊥) }
        ensures few { OnOk result (length self.old < 4096) }
        ensures unbuilt { IsErrOf result TranslateErr.Unbuilt
            → Contains self.old name.now ⊎ (length self.old ≡ 4096) }
    {
        if self.set.len() == MAX_PARAMS {
            return Err(TranslateErr::Unbuilt);
        }
        match self.set.insert_full(name) {
            Ok((_, true)) => Ok(()),
            Ok((_, false)) => Err(TranslateErr::Unbuilt),
            Err(_) => Err(TranslateErr::NoMemory),
        }
    }
}
