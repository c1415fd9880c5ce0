//! What trees of C files are made of, in every test that makes one by hand.
use c_tree::{
    CLoad, CLoads, CModule, LoadFactor, LoadFunction, LoadSign, LoadTarget, NodeRow, ParamKind,
    ParamRow,
};
use std::alloc::{AllocError, Global};
use std::test::Fail;
use va_base::{Items, Name};

pub fn name(alloc: Global, text: &str) -> Result<Name, AllocError> {
    Ok(Name::new(text.as_bytes().to_vec(alloc)?))
}

fn names(alloc: Global, texts: &[&str]) -> Result<Items<Name>, AllocError> {
    let mut list = Vec::new(alloc);
    for text in texts {
        list.push(name(alloc, text)?)?;
    }
    Ok(Items::new(list))
}

/// A node whose unknown is a potential.
pub fn potential(alloc: Global, text: &str) -> Result<NodeRow, AllocError> {
    Ok(NodeRow {
        name: name(alloc, text)?,
        units: name(alloc, "V")?,
        residual_units: name(alloc, "A")?,
        is_flow: 0,
    })
}

/// A node whose unknown is a flow.
pub fn flow(alloc: Global, text: &str) -> Result<NodeRow, AllocError> {
    Ok(NodeRow {
        name: name(alloc, text)?,
        units: name(alloc, "A")?,
        residual_units: name(alloc, "V")?,
        is_flow: 1,
    })
}

/// A parameter with its names, its description and its units.
pub fn parameter(
    alloc: Global,
    all: &[&str],
    [description, units]: [&str; 2],
    integer: bool,
    kind: ParamKind,
) -> Result<ParamRow, AllocError> {
    Ok(ParamRow {
        names: names(alloc, all)?,
        description: name(alloc, description)?,
        units: name(alloc, units)?,
        integer,
        kind,
    })
}

pub fn none<T>(alloc: Global) -> Items<T> {
    Items::new(Vec::new(alloc))
}

fn no_loads(alloc: Global) -> CLoads {
    CLoads {
        residual_resist: none(alloc),
        residual_react: none(alloc),
        jacobian_resist: none(alloc),
        jacobian_react: none(alloc),
        jacobian_tran: none(alloc),
        spice_rhs_dc: none(alloc),
        spice_rhs_tran: none(alloc),
    }
}

/// A module that has nothing but a name.
pub fn empty_module(alloc: Global, text: &str) -> Result<CModule, AllocError> {
    Ok(CModule {
        name: name(alloc, text)?,
        nodes: none(alloc),
        ports: 0,
        entries: none(alloc),
        collapse: none(alloc),
        params: none(alloc),
        model_fields: none(alloc),
        inst_fields: none(alloc),
        functions: none(alloc),
        access: none(alloc),
        setup_model: none(alloc),
        setup_instance: none(alloc),
        eval: none(alloc),
        loads: no_loads(alloc),
    })
}

#[test]
fn each_function_has_its_statements(rt: HostRuntime) -> Result<(), Fail> {
    let mut loads = no_loads(rt.alloc());
    loads.jacobian_react = Items::new(vec![in rt.alloc();
        CLoad {
            target: LoadTarget::EntryReact(2),
            sign: LoadSign::Add,
            first: LoadFactor::Alpha,
            more: none(rt.alloc()),
        },
    ]?);
    assert_eq!(rt; loads.of(LoadFunction::JacobianReact).len(), 1);
    assert_eq!(rt; loads.of(LoadFunction::JacobianTran).len(), 0);
    Ok(())
}
