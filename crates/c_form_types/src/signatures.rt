//! The signatures of what is called.
ghost use Rattle.std.specs.Prelude.{◌≡◌, ◌∷◌, [], Some, IfOk, map};
ghost use Rattle.alg_laws.specs.declared.number.Ty.TheVariants.{Real as RealTy};
ghost use Rattle.c_tree.specs.Raw as raw_tree;
ghost use Rattle.c_tree.specs.rules.Types as rule;
ghost use Rattle.c_raw.specs.Views.{argument_view, module_view};
ghost use Rattle.c_form.specs.Bodies.{body_view};
ghost use Rattle.c_form_types.specs.Signatures.{shown};

use alg_laws::Ty;
use c_form::body::Body;
use c_form::calls::functions_before;
use c_raw::{RawArgument, RawModule};
use c_tree::CCallee;
use std::alloc::Global;
use va_base::NoMemory;

/// The types of the arguments of what is called, in order, and of its result.
#[derive(Drop)]
pub struct Signature {
    pub arguments: Vec<Ty>,
    pub result: Ty,
}

fn one_double(alloc: Global) -> Result<Vec<Ty>, NoMemory>
    ensures { IfOk result (λ types. types.items ≡ RealTy ∷ []) }
{
    let mut types = Vec::new(alloc);
    types.push(Ty::Real)?;
    Ok(types)
}

fn two_doubles(alloc: Global) -> Result<Vec<Ty>, NoMemory>
    ensures { IfOk result (λ types. types.items ≡ RealTy ∷ RealTy ∷ []) }
{
    let mut types = Vec::new(alloc);
    types.push(Ty::Real)?;
    types.push(Ty::Real)?;
    Ok(types)
}

/// The signature of a function of C's library, which gives a double, where it has so many arguments.
fn library_signature(arguments: Vec<Ty>, count: usize) -> Option<Signature>
    ensures { shown result ≡ rule.fitting (Some (let s : rule.Signature = record { arguments = arguments.items; result = RealTy } in s)) count }
{
    if arguments.len() != count {
        return None;
    }
    Some(Signature {
        arguments,
        result: Ty::Real,
    })
}

/// The types of arguments, in order.
fn types_of(alloc: Global, list: &[RawArgument]) -> Result<Vec<Ty>, NoMemory>
    ensures { IfOk result (λ types. types.items ≡ map (λ argument. raw_tree.RawArgument.ty argument) (map argument_view list.now)) }
{
    let mut types = Vec::new(alloc);
    for argument in list {
        types.push(argument.ty)?;
    }
    Ok(types)
}

/// The signature of the function at a place of a module, where it stands before a body and has so many arguments.
fn function_signature(
    alloc: Global,
    tree: &RawModule,
    body: &Body,
    number: u32,
    count: usize,
) -> Result<Option<Signature>, NoMemory>
    ensures { IfOk result (λ found. shown found ≡ rule.fitting (rule.signature_of (rule.function_called (module_view tree.now) (body_view body.now) number)) count) }
{
    let functions = tree.functions.as_list();
    let number = number as usize;
    if number >= functions_before(tree, body) || number >= functions.len() {
        return Ok(None);
    }
    let function = &functions[number];
    let list = function.arguments.as_list();
    if list.len() != count {
        return Ok(None);
    }
    let arguments = types_of(alloc, list)?;
    Ok(Some(Signature {
        arguments,
        result: function.result,
    }))
}

/// The signature of what is called, where it is there and has so many arguments.
pub fn fitting(
    alloc: Global,
    tree: &RawModule,
    body: &Body,
    callee: CCallee,
    count: usize,
) -> Result<Option<Signature>, NoMemory>
    ensures { IfOk result (λ found. shown found ≡ rule.fitting (rule.signature (module_view tree.now) (body_view body.now) callee) count) }
{
    match callee {
        CCallee::Fun1(_) => {
            let one = one_double(alloc)?;
            Ok(library_signature(one, count))
        }
        CCallee::Fun2(_) => {
            let two = two_doubles(alloc)?;
            Ok(library_signature(two, count))
        }
        CCallee::Function(number) => function_signature(alloc, tree, body, number, count),
    }
}
