//! Sources of the first form, from their tree to the short C file.
//!
//! `shape` takes the parts of a source, `form` and `names` ask what they have to keep, `sums` reads the flow, and `code` writes
//! straight code.
#![tactic(auto)]

mod code;
mod form;
mod names;
mod shape;
mod sums;
pub mod worked;

ghost use Rattle.std.specs.Prelude.{◌≡◌, ◌∷◌, [], IfOk, IsErrOf};
ghost use Rattle.first_form.specs.Form.{FirstForm, IsSourceOfForm};
ghost use Rattle.first_form.specs.Translation.{IsTranslation};

use alg_laws::Algebra;
use c_tree::short::{ShortFile, ShortModule};
use form::module_of_source;
use std::alloc::Global;
use std::marker::PhantomData;
use va_base::Items;
use va_tree::Source;

/// Why a source has no C file.
#[derive(Clone, Copy, Debug, PartialEq, Eq)]
pub enum TranslateErr {
    /// It is not of the first form.
    Unbuilt,
    NoMemory,
}

/// The C file of a source of the first form. Its one module has two unknowns, the potentials of the ports in order, and the
/// parameters in order of declaration; each run of it loads the residuals that the source contributes. `Unbuilt` comes only
/// where the source is not of the form.
pub fn translate<A: Algebra>(
    alloc: Global,
    source: &Source,
    _law: PhantomData<A>,
) -> Result<ShortFile, TranslateErr>
    ensures translated { IfOk result (λ file. IsTranslation A.ops A.valid source.now file.modules) }
    ensures unbuilt { IsErrOf result TranslateErr.Unbuilt → (form : FirstForm) → IsSourceOfForm source.now form → ⊥ }
{
    let tree = module_of_source(alloc, source)?;
    let modules = one_module(alloc, tree)?;
    Ok(ShortFile { modules })
}

/// The list of one module.
fn one_module(alloc: Global, tree: ShortModule) -> Result<Items<ShortModule>, TranslateErr>
    ensures alone { IfOk result (λ modules. modules ≡ tree ∷ []) }
    ensures memory { IsErrOf result TranslateErr.Unbuilt → ⊥ }
{
    let mut list = Vec::new(alloc);
    match list.push(tree) {
        Ok(()) => Ok(Items::new(list)),
        Err(_) => Err(TranslateErr::NoMemory),
    }
}
