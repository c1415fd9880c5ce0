//! What the types of a module's expressions rest on.
ghost use Rattle.std.specs.Prelude.{◌≡◌, ℕ, length, get_or, map, slice_set, IfOk};
ghost use Rattle.std.specs.Ordering.{nat_cmp};
ghost use Rattle.std.specs.BTreeMap as tree;
ghost use Rattle.alg_laws.specs.declared.number.Ty.TheVariants.{Real};
ghost use Rattle.va_sem.specs.Typing.{meaning_at, signature_at, type_of_meaning};
ghost use Rattle.va_types.specs.Tables.{signature_in};

use alg_laws::Ty;
use std::alloc::{AllocError, Global};
use std::collections::BTreeMap;
use std::marker::Model;
use va_base::Items;
use va_sem::{Meaning, NameUse};

/// The types of a function's arguments and of its result (User-defined analog functions).
#[derive(Drop)]
pub struct Signature {
    pub arguments: Items<Ty>,
    pub result: Ty,
}

/// What the names of a module mean, and the types of its variables, parameters and functions by their numbers. Contracts see it
/// as a `Typing`.
#[derive(Drop)]
pub struct Table {
    uses: Vec<NameUse>,
    /// The meanings of `uses` by their tokens.
    meanings: BTreeMap<u32, Meaning>,
    variables: Vec<Ty>,
    parameters: Vec<Ty>,
    functions: Vec<Signature>,
}

impl Model for Table {
    ghost use Rattle.va_sem.specs.Typing.{Typing};

    ghost Value = { Typing };

    ghost use Rattle.std.specs.Prelude.{◌≡◌, ℕ, map};
    ghost use Rattle.std.specs.Ordering.{nat_cmp};
    ghost use Rattle.std.specs.BTreeMap as tree;
    ghost use Rattle.va_sem.specs.Typing.{meaning_at};
    ghost use Rattle.va_types.specs.Tables.{signature_in};

    ghost view = { λ c. record { uses = c.uses.items; variables = c.variables.items; parameters = c.parameters.items; functions = map signature_in c.functions.items } };

    ghost invariant = { λ c. (at : ℕ) → tree.get nat_cmp c.meanings at ≡ meaning_at c.uses.items at };
}

/// What the names of a module mean, by their tokens. Of two entries at one token the first counts.
fn meanings_of(alloc: Global, uses: &[NameUse]) -> Result<BTreeMap<u32, Meaning>, AllocError>
    ensures { IfOk result (λ map. (at : ℕ) → tree.get nat_cmp map at ≡ meaning_at uses.now at) }
{
    let mut map = BTreeMap::new(alloc);
    let mut place = uses.len();
    while place > 0 {
        place -= 1;
        let entry = uses[place];
        map.insert(entry.at, entry.meaning)?;
    }
    Ok(map)
}

impl Table {
    /// The table of a module with these names, and the types of its variables, parameters and functions.
    pub fn new(
        alloc: Global,
        uses: &[NameUse],
        variables: Vec<Ty>,
        parameters: Vec<Ty>,
        functions: Vec<Signature>,
    ) -> Result<Table, AllocError>
        ensures uses { IfOk result (λ table. table.uses ≡ uses.now) }
        ensures variables { IfOk result (λ table. table.variables ≡ variables.items) }
        ensures parameters { IfOk result (λ table. table.parameters ≡ parameters.items) }
        ensures functions { IfOk result (λ table. table.functions ≡ map signature_in functions.items) }
    {
        let meanings = meanings_of(alloc, uses)?;
        let uses = Vec::from_slice(alloc, uses)?;
        Ok(Table {
            uses,
            meanings,
            variables,
            parameters,
            functions,
        })
    }

    /// What the name at a token means.
    pub fn meaning(&self, at: u32) -> Option<Meaning>
        ensures { result ≡ meaning_at self.now.uses at }
    {
        self.meanings.get(&at).copied()
    }

    /// The type of a name that is read, by its meaning. Where it has no type it is real.
    pub fn type_of_name(&self, meaning: Option<Meaning>) -> Ty
        ensures { result ≡ type_of_meaning self.now meaning }
    {
        match meaning {
            Some(Meaning::Var(variable)) => type_at(self.variables.as_slice(), variable),
            Some(Meaning::Param(parameter)) => type_at(self.parameters.as_slice(), parameter),
            _ => Ty::Real,
        }
    }

    /// How many arguments a function has.
    pub fn argument_count(&self, function: u32) -> usize
        ensures { result ≡ length (signature_at self.now.functions function).arguments }
    {
        match self.functions.get(function as usize) {
            None => 0,
            Some(signature) => signature.arguments.as_list().len(),
        }
    }

    /// The type of a function's result.
    pub fn result_type(&self, function: u32) -> Ty
        ensures { result ≡ (signature_at self.now.functions function).result }
    {
        match self.functions.get(function as usize) {
            None => Ty::Real,
            Some(signature) => signature.result,
        }
    }

    /// Gives a parameter its type. A number that no parameter has changes nothing.
    pub fn set_parameter(&mut self, parameter: usize, ty: Ty)
        ensures uses { self.new.uses ≡ self.old.uses }
        ensures variables { self.new.variables ≡ self.old.variables }
        ensures parameters { self.new.parameters ≡ slice_set self.old.parameters parameter ty }
        ensures functions { self.new.functions ≡ self.old.functions }
    {
        if parameter < self.parameters.len() {
            self.parameters[parameter] = ty;
        }
    }
}

/// The type at a number, which is real where there is none.
fn type_at(types: &[Ty], number: u32) -> Ty
    ensures { result ≡ get_or types.now number Real }
{
    match types.get(number as usize) {
        None => Ty::Real,
        Some(ty) => *ty,
    }
}
