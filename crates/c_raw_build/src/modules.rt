//! Reading modules and files.
ghost use Rattle.std.specs.Prelude.{◌≡◌, IfOk, true, map, [], ◌∷◌};
ghost use Rattle.std.specs.List.{list_all};
ghost use Rattle.c_raw.specs.Views.{module_view, module_has_bodies, file_view, has_bodies};
ghost use Rattle.c_raw_build.specs.Due.{IsDueIn};
ghost use Rattle.c_raw_build.specs.Nonterminals as nonterminals;
ghost use Rattle.c_raw_build.specs.FileParts.{exports_view, exports_of};
ghost use Rattle.c_raw_build.specs.RawFiles as raw;
ghost use Rattle.c_raw_build.specs.Reading.{Reads};

use crate::atoms::placed_number;
use crate::descriptors::descriptors;
use crate::functions::all_functions;
use crate::headers::help;
use crate::loads::loads;
use crate::reader::Reader;
use crate::row;
use crate::setups::{eval, setup_instance, setup_model};
use crate::structs::two_structs;
use crate::tables::four_tables;
use crate::text::Text;
use c_raw::{At, RawDescriptor, RawFile, RawModule};
use std::alloc::{AllocError, Global};
use va_base::Items;

/// A module.
fn module(alloc: Global, text: &Text<'_>, reader: &mut Reader<'_>) -> Result<RawModule, AllocError>
    requires { IsDueIn text.now (nonterminals.one_module ∷ []) reader.old }
    ensures read { IfOk result (λ v. Reads (raw.raw_module text.now) reader.old reader.new (module_view v)) }
    ensures bodies { IfOk result (λ v. module_has_bodies v ≡ true) }
{
    reader.take(row::MODULE);
    let first = reader.at();
    let structs = two_structs(alloc, text, reader)?;
    let callable = all_functions(alloc, text, reader)?;
    let setup_model = setup_model(alloc, text, reader)?;
    let setup_instance = setup_instance(alloc, text, reader)?;
    let eval = eval(alloc, text, reader)?;
    let loads = loads(alloc, text, reader)?;
    let tables = four_tables(alloc, text, reader)?;
    let numbers = text.module_numbers(alloc, first, reader.at())?;
    Ok(RawModule {
        numbers: Items::new(numbers),
        model_fields: Items::new(structs.model_fields),
        sizes: structs.sizes,
        inst_fields: Items::new(structs.inst_fields),
        functions: Items::new(callable.functions),
        access: Items::new(callable.access),
        setup_model: Items::new(setup_model),
        setup_instance: Items::new(setup_instance),
        eval: Items::new(eval),
        loads,
        nodes: Items::new(tables.nodes),
        entries: Items::new(tables.entries),
        collapse: Items::new(tables.collapse),
        params: Items::new(tables.params),
    })
}

/// The modules.
fn all_modules(
    alloc: Global,
    text: &Text<'_>,
    reader: &mut Reader<'_>,
) -> Result<Vec<RawModule>, AllocError>
    requires { IsDueIn text.now (nonterminals.modules ∷ []) reader.old }
    ensures read { IfOk result (λ v. Reads (raw.modules text.now) reader.old reader.new (map module_view v.items)) }
    ensures bodies { IfOk result (λ v. list_all module_has_bodies v.items ≡ true) }
{
    let mut list = Vec::new(alloc);
    loop {
        match reader.row() {
            row::MODULES => {
                let next = module(alloc, text, reader)?;
                list.push(next)?;
            }
            row::NO_MODULES => return Ok(list),
            _ => unreachable!(),
        }
    }
}

/// What stands behind the modules: the number of descriptors, and the descriptors.
#[derive(Drop)]
struct Exports {
    num_descriptors: At<u32>,
    descriptors: Vec<RawDescriptor>,
}

/// What a simulator looks for first.
fn exported(alloc: Global, text: &Text<'_>, reader: &mut Reader<'_>) -> Result<Exports, AllocError>
    requires { IsDueIn text.now (nonterminals.exports ∷ []) reader.old }
    ensures { IfOk result (λ v. Reads (exports_of text.now) reader.old reader.new (exports_view v)) }
{
    reader.take(row::EXPORTS);
    reader.pass(16);
    let num_descriptors = placed_number(text, reader);
    reader.pass(8);
    let descriptors = descriptors(alloc, text, reader)?;
    reader.pass(2);
    Ok(Exports {
        num_descriptors,
        descriptors,
    })
}

/// A file.
pub(crate) fn file(
    alloc: Global,
    text: &Text<'_>,
    reader: &mut Reader<'_>,
) -> Result<RawFile, AllocError>
    requires { IsDueIn text.now (nonterminals.file ∷ []) reader.old }
    ensures read { IfOk result (λ v. Reads (raw.file text.now) reader.old reader.new (file_view v)) }
    ensures bodies { IfOk result (λ v. has_bodies v ≡ true) }
{
    reader.take(row::FILE);
    reader.pass(5);
    help(reader);
    let modules = all_modules(alloc, text, reader)?;
    let exports = exported(alloc, text, reader)?;
    Ok(RawFile {
        modules: Items::new(modules),
        num_descriptors: exports.num_descriptors,
        descriptors: Items::new(exports.descriptors),
    })
}
