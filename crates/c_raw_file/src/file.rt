//! Modules and files.
ghost use Rattle.std.specs.Prelude.{◌≡◌, ◌∷◌, [], IfOk, drop, map, true};
ghost use Rattle.std.specs.List.{list_all};
ghost use Rattle.c_tree.specs.FileOf as files;
ghost use Rattle.c_raw.specs.Views.{descriptor_view, file_view, has_bodies, module_has_bodies, module_view};
ghost use Rattle.c_raw_file.specs.Parts.{HasLists, module_at};

use crate::bodies::body_of;
use crate::functions::{access, functions};
use crate::loads::loads;
use crate::name::name;
use crate::tables::{entries, fields, nodes, pairs, params};
use c_raw::{RawDescriptor, RawFile, RawModule};
use c_tree::{CFile, CModule, EntryRow, FieldRow, NodeRow, PairRow, ParamRow};
use std::alloc::Global;
use va_base::{Items, Name, NoMemory};

/// The tables of a module and the fields of its structs.
#[derive(Drop)]
pub(crate) struct ModuleLists {
    nodes: Items<NodeRow>,
    entries: Items<EntryRow>,
    collapse: Items<PairRow>,
    params: Items<ParamRow>,
    model_fields: Items<FieldRow>,
    inst_fields: Items<FieldRow>,
}

fn lists(alloc: Global, raw: &RawModule) -> Result<ModuleLists, NoMemory>
    ensures { IfOk result (HasLists (module_view raw.now)) }
{
    let nodes = nodes(alloc, raw.nodes.as_list())?;
    let entries = entries(alloc, raw.entries.as_list())?;
    let collapse = pairs(alloc, raw.collapse.as_list())?;
    let params = params(alloc, raw.params.as_list())?;
    let model_fields = fields(alloc, raw.model_fields.as_list())?;
    let inst_fields = fields(alloc, raw.inst_fields.as_list())?;
    Ok(ModuleLists {
        nodes,
        entries,
        collapse,
        params,
        model_fields,
        inst_fields,
    })
}

/// A module of this name, with so many ports.
fn module(alloc: Global, name: Name, ports: u32, raw: &RawModule) -> Result<CModule, NoMemory>
    requires { module_has_bodies raw.now ≡ true }
    ensures { IfOk result (λ v. v ≡ files.module_of name ports (module_view raw.now)) }
{
    let functions = functions(alloc, raw.functions.as_list())?;
    let access = access(alloc, raw.access.as_list())?;
    let setup_model = body_of(alloc, raw.setup_model.as_list())?;
    let setup_instance = body_of(alloc, raw.setup_instance.as_list())?;
    let eval = body_of(alloc, raw.eval.as_list())?;
    let loads = loads(alloc, &raw.loads)?;
    let lists = lists(alloc, raw)?;
    Ok(CModule {
        name,
        nodes: lists.nodes,
        ports,
        entries: lists.entries,
        collapse: lists.collapse,
        params: lists.params,
        model_fields: lists.model_fields,
        inst_fields: lists.inst_fields,
        functions,
        access,
        setup_model,
        setup_instance,
        eval,
        loads,
    })
}

/// A module with its descriptor.
fn described(
    alloc: Global,
    descriptor: &RawDescriptor,
    raw: &RawModule,
) -> Result<CModule, NoMemory>
    requires { module_has_bodies raw.now ≡ true }
    ensures { IfOk result (λ v. v ≡ module_at (descriptor_view descriptor.now ∷ []) (module_view raw.now)) }
{
    let name = name(alloc, &descriptor.name)?;
    let module = module(alloc, name, descriptor.num_terminals.value, raw)?;
    Ok(module)
}

/// A module that lacks a descriptor.
fn undescribed(alloc: Global, raw: &RawModule) -> Result<CModule, NoMemory>
    requires { module_has_bodies raw.now ≡ true }
    ensures { IfOk result (λ v. v ≡ module_at [] (module_view raw.now)) }
{
    let module = module(alloc, Name::new(Vec::new(alloc)), 0, raw)?;
    Ok(module)
}

/// A module with the descriptor at its place.
fn numbered(
    alloc: Global,
    descriptors: &[RawDescriptor],
    index: usize,
    raw: &RawModule,
) -> Result<CModule, NoMemory>
    requires { module_has_bodies raw.now ≡ true }
    ensures { IfOk result (λ v. v ≡ module_at (map descriptor_view (drop index descriptors.now)) (module_view raw.now)) }
{
    match descriptors.get(index) {
        Some(descriptor) => described(alloc, descriptor, raw),
        None => undescribed(alloc, raw),
    }
}

fn modules(
    alloc: Global,
    raw: &[RawModule],
    descriptors: &[RawDescriptor],
) -> Result<Items<CModule>, NoMemory>
    requires { list_all module_has_bodies raw.now ≡ true }
    ensures { IfOk result (λ v. v ≡ files.modules_of (map module_view raw.now) (map descriptor_view descriptors.now)) }
{
    let mut list = Vec::new(alloc);
    for (index, tree) in raw.iter().enumerate() {
        list.push(numbered(alloc, descriptors, index, tree)?)?;
    }
    Ok(Items::new(list))
}

/// The file of a raw tree: a module for each of the tree's, in order, with the name and the number of ports that the descriptor at
/// the same place has. Numbers that follow from the rest are left out, and so is the index of each token. Where the tree breaks
/// no rule of form, each `for` has one `break` and each module its descriptor, so nothing that the text says is lost.
///
/// It takes time and memory in proportion to the tree, however deep blocks nest.
pub fn file_of(alloc: Global, raw: &RawFile) -> Result<CFile, NoMemory>
    requires { has_bodies raw.now ≡ true }
    ensures { IfOk result (λ f. f ≡ files.file_of (file_view raw.now)) }
{
    let modules = modules(alloc, raw.modules.as_list(), raw.descriptors.as_list())?;
    Ok(CFile { modules })
}
