//! The shape of a source of the first form: its one module, and the items of that module.
ghost use Rattle.std.specs.Prelude.{◌≡◌, ◌∷◌, [], ℕ, List, Some, None, MatchOption};
ghost use Rattle.va_tree.specs.declared.module.Item.{Item};
ghost use Rattle.va_tree.specs.declared.module.Module.{Module};
ghost use Rattle.va_tree.specs.Expressions.{Expression, expression_of};
ghost use Rattle.first_form.specs.Form as form_spec;
ghost use Rattle.first_form.specs.Form.{names_of, flow_of, HasItems, HasShape};
ghost use Rattle.first_form.specs.Reading.{HasOnly};

use crate::names::is_named;
use va_tree::{Direction, Expr, Item, ItemBody, Module, NameAt, Parameter, Source, Stmt, Ty};

/// What a source of this shape has.
#[derive(Drop)]
pub struct Shape<'a> {
    /// The name of its module.
    pub name: &'a [u8],
    /// The first port.
    pub first: &'a [u8],
    /// The second port.
    pub second: &'a [u8],
    /// The items between those of the ports and the contribution.
    pub parameters: &'a [Item],
    /// What is contributed to the flow.
    pub flow: &'a Expr,
}

/// Whether these names are the ports, in order.
fn are_ports(names: &[NameAt], first: &[u8], second: &[u8]) -> bool
    ensures { result ≡ form_spec.are_ports first.now second.now (names_of names.now) }
{
    match names {
        [a, c] => is_named(&a.name, first) && is_named(&c.name, second),
        _ => false,
    }
}

/// Whether a direction is `inout`, and no discipline follows.
fn is_plain_inout(direction: Direction, discipline: &Option<NameAt>) -> bool
    ensures { result ≡ form_spec.is_plain_inout direction discipline.now }
{
    match direction {
        Direction::Inout => discipline.is_none(),
        Direction::Input | Direction::Output => false,
    }
}

/// Whether an item is `inout` with the ports.
fn is_inout(item: &ItemBody, first: &[u8], second: &[u8]) -> bool
    ensures { result ≡ form_spec.is_inout first.now second.now item.now }
{
    match item {
        ItemBody::Direction {
            direction,
            discipline,
            names,
            ..
        } => is_plain_inout(*direction, discipline) && are_ports(names.as_list(), first, second),
        _ => false,
    }
}

/// Whether an item is `electrical` with the ports.
fn is_electrical(item: &ItemBody, first: &[u8], second: &[u8]) -> bool
    ensures { result ≡ form_spec.is_electrical first.now second.now item.now }
{
    match item {
        ItemBody::Nodes {
            discipline,
            names,
            ..
        } => is_named(discipline, b"electrical") && are_ports(names.as_list(), first, second),
        _ => false,
    }
}

/// Whether an expression is a whole number.
fn is_whole(e: &Expr) -> bool
    ensures { result ≡ form_spec.is_whole e.now }
{
    match e {
        Expr::Literal { integer, .. } => *integer,
        _ => false,
    }
}

/// The name of the only one of some parameters, where its default is a whole number and it has no range.
fn only_parameter(parameters: &[Parameter]) -> Option<&[u8]>
    ensures { MatchOption result (form_spec.only_parameter parameters.now ≡ None)
        (λ name. form_spec.only_parameter parameters.now ≡ Some name.now) }
{
    match parameters {
        [p] if is_whole(&p.default) && p.ranges.as_list().is_empty() => Some(
            p.name.name.as_bytes(),
        ),
        _ => None,
    }
}

/// Whether parameters are not local, and of type real.
fn is_real_parameter(local: bool, ty: Option<Ty>) -> bool
    ensures { result ≡ form_spec.is_real_parameter local ty }
{
    match ty {
        Some(Ty::Real) => !local,
        _ => false,
    }
}

/// The name of the real parameter that an item declares alone.
pub fn parameter_name(item: &ItemBody) -> Option<&[u8]>
    ensures { MatchOption result (form_spec.parameter_name item.now ≡ None)
        (λ name. form_spec.parameter_name item.now ≡ Some name.now) }
{
    match item {
        ItemBody::Parameters {
            local,
            ty,
            parameters,
            ..
        } if is_real_parameter(*local, *ty) => only_parameter(parameters.as_list()),
        _ => None,
    }
}

/// Whether this is the second name of a contribution.
fn is_second(name: &Option<NameAt>, second: &[u8]) -> bool
    ensures { result ≡ form_spec.is_second second.now name.now }
{
    match name {
        Some(n) => is_named(&n.name, second),
        None => false,
    }
}

/// What a statement contributes to the flow of the branch between the ports.
fn contributed<'a>(statement: &'a Stmt, first: &[u8], second: &[u8]) -> Option<&'a Expr>
    ensures { MatchOption result (form_spec.contributed first.now second.now statement.now ≡ None)
        (λ flow. form_spec.contributed first.now second.now statement.now ≡ Some (expression_of flow.now)) }
{
    match statement {
        Stmt::Contribute {
            access,
            first: a,
            second: c,
            value,
            ..
        } if is_named(access, b"I") && is_named(&a.name, first) && is_second(c, second) => {
            Some(value)
        }
        _ => None,
    }
}

/// What an item contributes to the flow of the branch between the ports.
fn flow<'a>(item: &'a ItemBody, first: &[u8], second: &[u8]) -> Option<&'a Expr>
    ensures { MatchOption result (flow_of first.now second.now item.now ≡ None)
        (λ flow. flow_of first.now second.now item.now ≡ Some (expression_of flow.now)) }
{
    match item {
        ItemBody::Analog { body, .. } => contributed(body, first, second),
        _ => None,
    }
}

/// Whether no item has attributes.
fn are_bare(items: &[Item]) -> bool
    ensures { result ≡ form_spec.are_bare items.now }
{
    for item in items {
        if !item.attributes.as_list().is_empty() {
            return false;
        }
    }
    true
}

/// The parameters and the flow of a module of these items and ports.
fn items<'a>(items: &'a [Item], first: &[u8], second: &[u8]) -> Option<(&'a [Item], &'a Expr)>
    ensures { MatchOption result
        ((parameters : List Item) (flow : Expression) → HasItems items.now first.now second.now parameters flow → ⊥)
        (λ p. HasItems items.now first.now second.now p.0.now (expression_of p.1.now)) }
{
    let (directions, rest) = items.split_first()?;
    let (disciplines, rest) = rest.split_first()?;
    let (contribution, parameters) = rest.split_last()?;
    if !are_bare(items)
        || !is_inout(&directions.body, first, second)
        || !is_electrical(&disciplines.body, first, second)
    {
        return None;
    }
    let flow = flow(&contribution.body, first, second)?;
    Some((parameters, flow))
}

/// The one module of a source that has nothing else.
fn only_module(source: &Source) -> Option<&Module>
    ensures { MatchOption result ((only : Module) → HasOnly source.now only → ⊥) (λ only. HasOnly source.now only.now) }
{
    if !source.natures.as_list().is_empty() || !source.disciplines.as_list().is_empty() {
        return None;
    }
    match source.modules.as_list() {
        [only] if only.attributes.as_list().is_empty() => Some(only),
        _ => None,
    }
}

/// The ports of a module that has two.
fn ports(holder: &Module) -> Option<(&[u8], &[u8])>
    ensures { MatchOption result
        ((first second : List ℕ) → names_of holder.now.ports ≡ first ∷ second ∷ [] → ⊥)
        (λ p. names_of holder.now.ports ≡ p.0.now ∷ p.1.now ∷ []) }
{
    match holder.ports.as_list() {
        [first, second] => Some((first.name.as_bytes(), second.name.as_bytes())),
        _ => None,
    }
}

/// The parts of a source that has the shape of the form.
pub fn shape_of(source: &Source) -> Option<Shape<'_>>
    ensures { MatchOption result
        ((name first second : List ℕ) (parameters : List Item) (flow : Expression)
        → HasShape source.now name first second parameters flow → ⊥)
        (λ s. HasShape source.now s.name.now s.first.now s.second.now s.parameters.now (expression_of s.flow.now)) }
{
    let module = only_module(source)?;
    let (first, second) = ports(module)?;
    let (parameters, flow) = items(module.items.as_list(), first, second)?;
    Some(Shape {
        name: module.name.as_bytes(),
        first,
        second,
        parameters,
        flow,
    })
}
