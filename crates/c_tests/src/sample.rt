//! The tree of the sample text, made by hand: a module that has each part of the grammar.
use crate::tree::{flow, name, parameter, potential};
use alg_laws::{Fun2, Ty};
use c_tree::{
    AccessRow, CArgument, CAtom, CCallee, CCell, CField, CFunction, CLoad, CLoads, CModule,
    COperator, CRight, CSimple, CStatement, EntryRow, FieldRow, Level, LoadFactor, LoadSign,
    LoadTarget, NodeRow, PairRow, ParamKind, ParamRow,
};
use std::alloc::{AllocError, Global};
use va_base::{Decimal, Items};

fn inst(field: CField) -> CCell {
    CCell {
        level: Level::Instance,
        field,
    }
}

fn model(field: CField) -> CCell {
    CCell {
        level: Level::Model,
        field,
    }
}

fn constant(ty: Ty, local: u32, right: CRight) -> CStatement {
    CStatement::Simple(CSimple::Constant { ty, local, right })
}

fn assign(local: u32, value: CAtom) -> CStatement {
    CStatement::Simple(CSimple::Assign { local, value })
}

fn set(cell: CCell, value: CAtom) -> CStatement {
    CStatement::Simple(CSimple::SetCell { cell, value })
}

fn binary(left: CAtom, operator: COperator, right: CAtom) -> CRight {
    CRight::Binary {
        left,
        operator,
        right,
    }
}

fn power(alloc: Global) -> Result<CFunction, AllocError> {
    let arguments = vec![in alloc;
        CArgument {
            ty: Ty::Real,
            number: 0
        },
        CArgument {
            ty: Ty::Integer,
            number: 1
        },
    ]?;
    let args = Items::new(vec![in alloc; CAtom::Local(0), CAtom::Argument(0)]?);
    let callee = CCallee::Fun2(Fun2::Pow);
    let body = vec![in alloc;
        constant(Ty::Real, 0, CRight::ToReal(CAtom::Argument(1))),
        constant(Ty::Real, 1, CRight::Call { callee, args }),
    ]?;
    Ok(CFunction {
        result: Ty::Real,
        arguments: Items::new(arguments),
        body: Items::new(body),
        value: CAtom::Local(1),
    })
}

fn seven(alloc: Global) -> CFunction {
    CFunction {
        result: Ty::Integer,
        arguments: Items::new(Vec::new(alloc)),
        body: Items::new(Vec::new(alloc)),
        value: CAtom::Integer(7),
    }
}

fn setup_model(alloc: Global) -> Result<Items<CStatement>, AllocError> {
    let default = CAtom::Real(Decimal {
        mantissa: 15,
        power: -1,
    });
    let zero = CAtom::Real(Decimal {
        mantissa: 0,
        power: 0,
    });
    Ok(Items::new(vec![in alloc;
        CStatement::Simple(CSimple::Join {
            ty: Ty::Real,
            local: 0
        }),
        CStatement::If {
            test: CAtom::Cell(model(CField::Given(1))),
            first: 1,
            second: 1
        },
        assign(0, CAtom::Cell(model(CField::Param(1)))),
        assign(0, default),
        set(model(CField::Param(1)), CAtom::Local(0)),
        constant(
            Ty::Integer,
            1,
            binary(CAtom::Local(0), COperator::AtMost, zero)
        ),
        CStatement::If {
            test: CAtom::Local(1),
            first: 1,
            second: 0
        },
        CStatement::Simple(CSimple::Report { id: 1 }),
    ]?))
}

fn setup_instance(alloc: Global) -> Result<Items<CStatement>, AllocError> {
    Ok(Items::new(vec![in alloc;
        set(inst(CField::Param(1)), CAtom::Cell(model(CField::Param(1)))),
        CStatement::Simple(CSimple::SetCollapse {
            pair: 0,
            value: CAtom::Integer(1)
        }),
    ]?))
}

fn eval(alloc: Global) -> Result<Items<CStatement>, AllocError> {
    let callee = CCallee::Function(1);
    let args = Items::new(Vec::new(alloc));
    Ok(Items::new(vec![in alloc;
        constant(Ty::Real, 0, CRight::Same(CAtom::Unknown(0))),
        constant(Ty::Real, 1, CRight::Negated(CAtom::Local(0))),
        constant(Ty::Integer, 2, CRight::ToInteger(CAtom::Local(1))),
        constant(Ty::Integer, 3, CRight::Contrary(CAtom::Local(2))),
        CStatement::Simple(CSimple::Head {
            ty: Ty::Integer,
            local: 4,
            first: CAtom::Integer(3)
        }),
        CStatement::For {
            before: 1,
            test: CAtom::Local(4),
            turn: 4
        },
        constant(
            Ty::Integer,
            5,
            binary(CAtom::Local(4), COperator::Remainder, CAtom::Integer(2))
        ),
        CStatement::If {
            test: CAtom::Local(5),
            first: 0,
            second: 1
        },
        constant(Ty::Integer, 6, CRight::Call { callee, args }),
        constant(
            Ty::Integer,
            7,
            binary(CAtom::Local(4), COperator::Minus, CAtom::Integer(1))
        ),
        assign(4, CAtom::Local(7)),
        set(inst(CField::OpVar(0)), CAtom::Local(4)),
    ]?))
}

fn loads_of(
    alloc: Global,
    target: LoadTarget,
    sign: LoadSign,
    first: LoadFactor,
    more: Option<LoadFactor>,
) -> Result<Items<CLoad>, AllocError> {
    let mut factors = Vec::new(alloc);
    if let Some(factor) = more {
        factors.push(factor)?;
    }
    let more = Items::new(factors);
    Ok(Items::new(vec![in alloc;
        CLoad {
            target,
            sign,
            first,
            more
        },
    ]?))
}

fn loads(alloc: Global) -> Result<CLoads, AllocError> {
    let resist = LoadFactor::Cell(CField::Resist(0));
    let entry = LoadFactor::Cell(CField::EntryResist(0));
    let react = LoadFactor::Cell(CField::EntryReact(1));
    Ok(CLoads {
        residual_resist: loads_of(alloc, LoadTarget::Node(0), LoadSign::Add, resist, None)?,
        residual_react: Items::new(Vec::new(alloc)),
        jacobian_resist: loads_of(
            alloc,
            LoadTarget::EntryResist(0),
            LoadSign::Put,
            entry,
            None,
        )?,
        jacobian_react: loads_of(
            alloc,
            LoadTarget::EntryReact(1),
            LoadSign::Add,
            LoadFactor::Alpha,
            Some(react),
        )?,
        jacobian_tran: Items::new(Vec::new(alloc)),
        spice_rhs_dc: loads_of(
            alloc,
            LoadTarget::Node(0),
            LoadSign::Subtract,
            entry,
            Some(LoadFactor::Solution(1)),
        )?,
        spice_rhs_tran: Items::new(Vec::new(alloc)),
    })
}

fn fields(alloc: Global, text: &str) -> Result<Items<FieldRow>, AllocError> {
    let mut fields = Vec::new(alloc);
    for word in text.split(' ') {
        let integer = word == "g0" || word == "g1" || word == "o0";
        fields.push(FieldRow {
            name: name(alloc, word)?,
            integer,
        })?;
    }
    Ok(Items::new(fields))
}

fn entry(row: u32, col: u32, resist: bool, react: bool) -> EntryRow {
    EntryRow {
        row,
        col,
        resist,
        react,
    }
}

fn access_row(id: u32, instance: bool, flag: Option<CCell>, cell: CCell) -> AccessRow {
    AccessRow {
        id,
        instance,
        flag,
        cell,
    }
}

fn access(alloc: Global) -> Result<Items<AccessRow>, AllocError> {
    Ok(Items::new(vec![in alloc;
        access_row(
            0,
            true,
            Some(inst(CField::Given(0))),
            inst(CField::Param(0))
        ),
        access_row(
            1,
            false,
            Some(model(CField::Given(1))),
            model(CField::Param(1))
        ),
        access_row(2, false, None, inst(CField::OpVar(0))),
    ]?))
}

fn parameters(alloc: Global) -> Result<Items<ParamRow>, AllocError> {
    Ok(Items::new(vec![in alloc;
        parameter(alloc, &["area", "ar"], ["", ""], false, ParamKind::Inst)?,
        parameter(
            alloc,
            &["r"],
            ["in \"ohm\" \\", "Ohm"],
            false,
            ParamKind::Model
        )?,
        parameter(alloc, &["n"], ["why?", ""], true, ParamKind::Opvar)?,
    ]?))
}

/// The module of the sample text.
pub fn sample_module(alloc: Global) -> Result<CModule, AllocError> {
    let nodes = vec![in alloc; potential(alloc, "a")?, flow(alloc, "flow(b)")?]?;
    let entries = vec![in alloc;
        entry(0, 0, true, false),
        entry(0, 1, false, true),
        entry(1, 1, true, true),
    ]?;
    Ok(CModule {
        name: name(alloc, "m")?,
        nodes: Items::new(nodes),
        ports: 1,
        entries: Items::new(entries),
        collapse: Items::new(vec![in alloc;
            PairRow {
                first: 0,
                second: None
            },
        ]?),
        params: parameters(alloc)?,
        model_fields: fields(alloc, "p1 g1")?,
        inst_fields: fields(alloc, "p0 p1 g0 r0 q0 r1 q1 er0 eq1 o0 h0")?,
        functions: Items::new(vec![in alloc; power(alloc)?, seven(alloc)]?),
        access: access(alloc)?,
        setup_model: setup_model(alloc)?,
        setup_instance: setup_instance(alloc)?,
        eval: eval(alloc)?,
        loads: loads(alloc)?,
    })
}
