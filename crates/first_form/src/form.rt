//! The whole form: the conditions on the parts of a source, and the module that is made of them.
ghost use Rattle.std.specs.Prelude.{◌≡◌, ◌↔◌, ℕ, List, IfOk, OnOk, IsErrOf, IsTrue};
ghost use Rattle.va_tree.specs.Expressions.{expression_of};
ghost use Rattle.first_form.specs.Form.{FirstForm, IsSourceOfForm};
ghost use Rattle.first_form.specs.Code.{form_loads};
ghost use Rattle.first_form.specs.Reading.{IsHeader, MayFollow, AddsName, HasNames, IsSumIn, ReadsFlow, IsShapeOfForm, ReadsShape, ReadsSource};

use crate::TranslateErr;
use crate::code::Writer;
use crate::names::{Names, is_free};
use crate::shape::{Shape, parameter_name, shape_of};
use crate::sums::{Scope, sum};
use c_tree::short::{Field, Load, Right, ShortModule};
use std::alloc::Global;
use va_base::Items;
use va_tree::{Expr, Item, Source};

/// How many parentheses may be open at once.
const MAX_OPEN: u32 = 100;

/// Whether the names of the module and of its ports may stand, and those of the ports differ.
fn is_header(name: &[u8], first: &[u8], second: &[u8]) -> bool
    ensures { IsTrue result ↔ IsHeader name.now first.now second.now }
{
    is_free(name) && is_free(first) && is_free(second) && first != second
}

/// Adds the name of the parameter that an item declares.
fn add_parameter<'a>(
    names: &mut Names<'a>,
    item: &'a Item,
    first: &[u8],
    second: &[u8],
) -> Result<(), TranslateErr>
    ensures added { OnOk result (AddsName first.now second.now item.now names.old names.new) }
    ensures unread { IsErrOf result TranslateErr.Unbuilt
        → (name : List ℕ) → MayFollow first.now second.now item.now names.old name → ⊥ }
{
    let Some(name) = parameter_name(&item.body) else {
        return Err(TranslateErr::Unbuilt);
    };
    if !is_free(name) || name == first || name == second {
        return Err(TranslateErr::Unbuilt);
    }
    names.add(name)
}

/// The names of parameters, which stand beside those of the ports.
fn parameters<'a>(
    alloc: Global,
    items: &'a [Item],
    first: &[u8],
    second: &[u8],
) -> Result<Names<'a>, TranslateErr>
    requires apart { first.now ≡ second.now → ⊥ }
    ensures read { IfOk result (λ names. HasNames first.now second.now items.now names) }
    ensures unread { IsErrOf result TranslateErr.Unbuilt
        → (names : List (List ℕ)) → HasNames first.now second.now items.now names → ⊥ }
{
    let mut names = Names::new(alloc);
    for item in items {
        add_parameter(&mut names, item, first, second)?;
    }
    Ok(names)
}

/// The module of a flow in scope.
fn module_of(alloc: Global, scope: &Scope, flow: &Expr) -> Result<ShortModule, TranslateErr>
    ensures read { IfOk result (λ tree. ReadsFlow scope.now (expression_of flow.now) tree) }
    ensures unread { IsErrOf result TranslateErr.Unbuilt → IsSumIn scope.now 100 (expression_of flow.now) → ⊥ }
{
    let mut code = Writer::new(alloc);
    let value = sum(scope, &mut code, flow, MAX_OPEN)?;
    let negative = code.declare(Right::Negated(value))?;
    code.set(Field::Row(0), value)?;
    code.set(Field::Row(1), negative)?;
    let loads = loads_of_rows(alloc)?;
    Ok(ShortModule {
        unknowns: 2,
        params: scope.names.len(),
        eval: Items::new(code.statements),
        loads,
    })
}

/// The load of both rows.
fn loads_of_rows(alloc: Global) -> Result<Items<Load>, TranslateErr>
    ensures loads { IfOk result (λ loads. loads ≡ form_loads) }
    ensures memory { IsErrOf result TranslateErr.Unbuilt → ⊥ }
{
    let rows = [Load { unknown: 0, row: 0 }, Load { unknown: 1, row: 1 }];
    match rows.to_vec(alloc) {
        Ok(loads) => Ok(Items::new(loads)),
        Err(_) => Err(TranslateErr::NoMemory),
    }
}

/// The module of parts of this shape.
fn module_of_shape(alloc: Global, shape: &Shape) -> Result<ShortModule, TranslateErr>
    ensures read { IfOk result (λ tree. ReadsShape shape.now tree) }
    ensures unread { IsErrOf result TranslateErr.Unbuilt
        → (names : List (List ℕ)) → IsShapeOfForm shape.now names → ⊥ }
{
    if !is_header(shape.name, shape.first, shape.second) {
        return Err(TranslateErr::Unbuilt);
    }
    let names = parameters(alloc, shape.parameters, shape.first, shape.second)?;
    let scope = Scope {
        first: shape.first,
        second: shape.second,
        names,
    };
    let tree = module_of(alloc, &scope, shape.flow)?;
    Ok(tree)
}

/// Reads a whole source. It gives the module that is made of it.
pub fn module_of_source(alloc: Global, source: &Source) -> Result<ShortModule, TranslateErr>
    ensures read { IfOk result (λ tree. ReadsSource source.now tree) }
    ensures unbuilt { IsErrOf result TranslateErr.Unbuilt
        → (form : FirstForm) → IsSourceOfForm source.now form → ⊥ }
{
    let Some(shape) = shape_of(source) else {
        return Err(TranslateErr::Unbuilt);
    };
    let tree = module_of_shape(alloc, &shape)?;
    Ok(tree)
}
