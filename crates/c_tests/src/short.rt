//! Short files, and their texts that were written line by line from the grammar of C files.
use crate::texts::INCLUDES;
use c_print::short::print;
use c_tree::short::{Atom, Field, Load, Operator, Right, ShortFile, ShortModule, Statement};
use std::alloc::{AllocError, Global};
use std::test::Fail;
use va_base::Items;

const RESISTOR: &str = "typedef struct {
uint32_t tag ;
}
model_0 ;
typedef struct {
uint32_t node [ 2u ] ;
double * jr [ 1u ] ;
double * jq [ 1u ] ;
_Bool col [ 1u ] ;
double temp ;
double p0 ;
double r0 ;
double r1 ;
}
inst_0 ;
static uint32_t eval_0 ( void * handle , void * ip , void * mp , OsdiSimInfo * info ) {
inst_0 * inst = ( inst_0 * ) ip ;
model_0 * model = ( model_0 * ) mp ;
const double * x = info -> prev_solve ;
const double v0 = x [ inst -> node [ 0u ] ] - x [ inst -> node [ 1u ] ] ;
const double v1 = v0 / inst -> p0 ;
const double v2 = - v1 ;
inst -> r0 = v1 ;
inst -> r1 = v2 ;
return 0u ;
}
static void load_residual_resist_0 ( void * ip , void * mp , double * dst ) {
inst_0 * inst = ( inst_0 * ) ip ;
dst [ inst -> node [ 0u ] ] += inst -> r0 ;
dst [ inst -> node [ 1u ] ] += inst -> r1 ;
}
";

/// Two modules that have nothing: C has no array of length 0, so their nodes have the length 1.
const TWO: &str = "typedef struct {
uint32_t tag ;
}
model_0 ;
typedef struct {
uint32_t node [ 1u ] ;
double * jr [ 1u ] ;
double * jq [ 1u ] ;
_Bool col [ 1u ] ;
double temp ;
}
inst_0 ;
static uint32_t eval_0 ( void * handle , void * ip , void * mp , OsdiSimInfo * info ) {
inst_0 * inst = ( inst_0 * ) ip ;
model_0 * model = ( model_0 * ) mp ;
const double * x = info -> prev_solve ;
return 0u ;
}
static void load_residual_resist_0 ( void * ip , void * mp , double * dst ) {
inst_0 * inst = ( inst_0 * ) ip ;
}
typedef struct {
uint32_t tag ;
}
model_1 ;
typedef struct {
uint32_t node [ 1u ] ;
double * jr [ 1u ] ;
double * jq [ 1u ] ;
_Bool col [ 1u ] ;
double temp ;
}
inst_1 ;
static uint32_t eval_1 ( void * handle , void * ip , void * mp , OsdiSimInfo * info ) {
inst_1 * inst = ( inst_1 * ) ip ;
model_1 * model = ( model_1 * ) mp ;
const double * x = info -> prev_solve ;
return 0u ;
}
static void load_residual_resist_1 ( void * ip , void * mp , double * dst ) {
inst_1 * inst = ( inst_1 * ) ip ;
}
";

/// A resistor between its ports: the flow `V(a,c) / r`.
fn resistor(alloc: Global) -> Result<ShortModule, AllocError> {
    let voltage = Right::Binary(Atom::Unknown(0), Operator::Minus, Atom::Unknown(1));
    let flow = Right::Binary(Atom::Local(0), Operator::Over, Atom::Field(Field::Param(0)));
    let eval = vec![in alloc;
        Statement::Declare {
            local: 0,
            right: voltage
        },
        Statement::Declare {
            local: 1,
            right: flow
        },
        Statement::Declare {
            local: 2,
            right: Right::Negated(Atom::Local(1))
        },
        Statement::Set {
            field: Field::Row(0),
            value: Atom::Local(1)
        },
        Statement::Set {
            field: Field::Row(1),
            value: Atom::Local(2)
        },
    ]?;
    let loads = vec![in alloc; Load { unknown: 0, row: 0 }, Load { unknown: 1, row: 1 }]?;
    Ok(ShortModule {
        unknowns: 2,
        params: 1,
        eval: Items::new(eval),
        loads: Items::new(loads),
    })
}

/// A module with no unknowns.
fn bare(alloc: Global) -> ShortModule {
    ShortModule {
        unknowns: 0,
        params: 0,
        eval: Items::new(Vec::new(alloc)),
        loads: Items::new(Vec::new(alloc)),
    }
}

/// Compares the text of a file of these modules with the includes and these lines.
fn has_text(alloc: Global, modules: Vec<ShortModule>, lines: &str) -> Result<bool, Fail> {
    let file = ShortFile {
        modules: Items::new(modules),
    };
    let text = print(alloc, &file)?;
    let wanted = format!(in alloc; "{INCLUDES}{lines}")?;
    Ok(text.as_slice() == wanted.as_bytes())
}

#[test]
fn short_files_have_their_texts(rt: HostRuntime) -> Result<(), Fail> {
    let alloc = rt.alloc();
    assert!(rt; has_text(alloc, Vec::new(alloc), "")?);
    assert!(rt; has_text(alloc, vec![in alloc; resistor(alloc)?]?, RESISTOR)?);
    assert!(rt; has_text(alloc, vec![in alloc; bare(alloc), bare(alloc)]?, TWO)?);
    Ok(())
}
