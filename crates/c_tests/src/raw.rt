//! Raw trees of texts.
use crate::rules::raw_of;
use crate::texts::{no_modules, sample};
use c_raw::{RawLoads, RawModule};
use c_tree::LoadFunction;
use std::alloc::Global;
use std::test::Fail;

/// How many elements the lists of a module have: model's fields, instance's fields, functions and access rows; statements of the
/// three bodies, with the ends of blocks; nodes, entries, pairs and parameters.
fn lengths(alloc: Global, m: &RawModule) -> Result<String, Fail> {
    Ok(format!(in alloc;
        "{} {} {} {}, {} {} {}, {} {} {} {}",
        m.model_fields.as_list().len(),
        m.inst_fields.as_list().len(),
        m.functions.as_list().len(),
        m.access.as_list().len(),
        m.setup_model.as_list().len(),
        m.setup_instance.as_list().len(),
        m.eval.as_list().len(),
        m.nodes.as_list().len(),
        m.entries.as_list().len(),
        m.collapse.as_list().len(),
        m.params.as_list().len()
    )?)
}

/// How many statements each load function has, in the order of the text.
fn load_lengths(alloc: Global, loads: &RawLoads) -> Result<String, Fail> {
    Ok(format!(in alloc;
        "{} {} {} {} {} {} {}",
        loads.of(LoadFunction::ResidualResist).len(),
        loads.of(LoadFunction::ResidualReact).len(),
        loads.of(LoadFunction::JacobianResist).len(),
        loads.of(LoadFunction::JacobianReact).len(),
        loads.of(LoadFunction::JacobianTran).len(),
        loads.of(LoadFunction::SpiceRhsDc).len(),
        loads.of(LoadFunction::SpiceRhsTran).len()
    )?)
}

#[test]
fn a_file_without_modules(rt: HostRuntime) -> Result<(), Fail> {
    let raw = raw_of(rt.alloc(), no_modules(rt.alloc())?.as_str())?;
    assert_eq!(rt; raw.modules.as_list().len(), 0);
    assert_eq!(rt; raw.num_descriptors.at, 118);
    assert_eq!(rt; raw.num_descriptors.value, 0);
    Ok(())
}

#[test]
fn each_part_of_the_grammar(rt: HostRuntime) -> Result<(), Fail> {
    let raw = raw_of(rt.alloc(), sample(rt.alloc())?.as_str())?;
    assert_eq!(rt; raw.num_descriptors.value, 1);
    assert_eq!(rt; raw.descriptors.as_list().len(), 1);
    let m = raw.modules.as_list().first().ok_or("no module")?;
    let found = lengths(rt.alloc(), m)?;
    assert!(rt; found.as_str() == "2 11 2 3, 13 3 17, 2 3 1 3");
    let found = load_lengths(rt.alloc(), &m.loads)?;
    assert!(rt; found.as_str() == "1 0 1 1 0 1 0");
    let f = m.functions.as_list().get(1).ok_or("no function")?;
    assert_eq!(rt; f.number.value, 1);
    let p = m.params.as_list().get(1).ok_or("no parameter")?;
    assert!(rt; p.description.as_bytes() == b"in \"ohm\" \\".as_slice());
    Ok(())
}
