//! The other rules of form, each in turn and all of them together.
use crate::rules::{Rule, check_changes, check_lines};
use c_form::blame::earlier;
use c_form::closed::bodies_closed;
use c_raw::{At, RawFile, RawLoads, RawModule, RawSizes};
use std::alloc::{AllocError, Global};
use std::test::Fail;
use va_base::Items;

/// A loop without its `break` is blamed at its closing brace. A `break` outside the direct block of a loop, or behind another one, is
/// blamed at its `if`.
const BREAKS: &str =
    "<eval> const double v1 = 2 ; for ( ; ; ) { @} const double v1 = v3 ; const double v4 = fn_1_1 ( ) ; inst -> r5 = v1 ;
<eval> const double v1 = 2 ; for ( ; ; ) { if ( ! v1 ) { break ; } }
<eval> @if ( ! 2 ) { break ; }
<eval> for ( ; ; ) { if ( ! 2 ) { break ; } @if ( ! 2 ) { break ; } }
<eval> for ( ; ; ) { if ( ! 2 ) { break ; } if ( 2 ) { @if ( ! 2 ) { break ; } } else { } }
<eval> for ( ; ; ) { if ( ! 2 ) { break ; } for ( ; ; ) { @} }";

/// A call of a function that does not stand earlier, or that has another number of arguments, is blamed at the function's name.
const CALLS: &str =
    "<eval> const double v1 = 2 ; for ( ; ; ) { } const double v1 = v3 ; const double v4 = @fn_1_1 ( ) ; inst -> r5 = v1 ;
<eval> const double v1 = 2 ; for ( ; ; ) { if ( ! v1 ) { break ; } }
<eval> const double v1 = fn_1_0 ( 2 , 2 ) ;
<eval> const double v1 = @fn_1_0 ( 2 ) ;
<eval> const double v1 = pow ( 2 , 2 ) ;
<eval> const double v1 = @pow ( 2 ) ;
<eval> const double v1 = @exp ( ) ;
<function> const double v1 = @fn_1_0 ( a0 , a1 ) ;";

/// A field that isn't there, or has not the type that is wanted, is blamed where it is named; and of two of one name the second.
const FIELDS: &str =
    "<eval> const double v1 = 2 ; for ( ; ; ) { } const double v1 = v3 ; const double v4 = fn_1_1 ( ) ; inst -> @r5 = v1 ;
<eval> const double v1 = 2 ; for ( ; ; ) { if ( ! v1 ) { break ; } }
<eval> const double v1 = inst -> temp ;
<eval> const double v1 = model -> @p0 ;
<access> if ( id == 0u ) { if ( flags & ACCESS_FLAG_SET ) { inst -> h1 = 1 ; } return & inst -> r0 ; }
<access> if ( id == 0u ) { if ( flags & ACCESS_FLAG_SET ) { inst -> @r0 = 1 ; } return & inst -> r0 ; }
<access> if ( id == 0u ) { return & model -> @r0 ; }
<residual_resist> dst [ inst -> node [ 0u ] ] += inst -> @r3 ;
<nodes> { .name = \"a\" , .units = \"V\" , .residual_units = \"A\" , .resist_residual_off = offsetof ( inst_1 , r0 ) , .react_residual_off = offsetof ( inst_1 , @o0 ) , .resist_limit_rhs_off = UINT32_MAX , .react_limit_rhs_off = UINT32_MAX , .is_flow = 0 } ,";

/// A local or an argument is blamed where it is used and not declared before, in its block or one around it, or is declared again in its
/// function.
const LOCALS: &str =
    "<eval> const double v1 = 2 ; for ( ; ; ) { } const double @v1 = v3 ; const double v4 = fn_1_1 ( ) ; inst -> r5 = v1 ;
<eval> const double v1 = 2 ; for ( ; ; ) { if ( ! v1 ) { break ; } }
<eval> @v1 = 2 ; const double v1 = 2 ;
<eval> const double v1 = @a0 ;
<eval> if ( 2 ) { const double v1 = 2 ; } else { inst -> r0 = @v1 ; }
<eval> if ( 2 ) { const double v1 = 2 ; } else { const double @v1 = 2 ; }
<function> const double v1 = a0 ; const int32_t v2 = a1 ;
<function> const double v1 = @a2 ;
<functions> static double fn_1_1 ( double a0 , int32_t @a0 ) { return a0 ; }";

/// A name with a number of another module, or a function with the number of another one, is blamed.
const NUMBERING: &str = "OSDI_VERSION_MAJOR = 0u => OSDI_VERSION_MAJOR = 0u
model_1 ; => @model_2 ;
static double fn_1_0 => static double @fn_1_7
static double fn_1_0 => static double @fn_0_0
static void * access_1 => static void * @access_0
OsdiNode nodes_1 => OsdiNode @nodes_0";

/// The two modules lack their descriptors, which is blamed behind all that is in them.
const DESCRIPTORS: &str = "OSDI_NUM_DESCRIPTORS = 2u => OSDI_NUM_DESCRIPTORS = @2u
OSDI_NUM_DESCRIPTORS = 2u => OSDI_NUM_DESCRIPTORS = @0u
node [ 1u ] => node [ @5u ]";

/// The module has no node, no entry, no pair and no parameter: each number of one is out of range. Where a case adds an element, its own
/// numbers have to agree.
const TABLES: &str = "<eval> const double v1 = x [ inst -> node [ @0u ] ] ;
<eval> init_error ( res , @0u ) ;
<eval> inst -> col [ @0u ] = 1 ;
<jacobian_resist> * inst -> jr [ @0u ] += inst -> r0 ;
<residual_resist> dst [ inst -> node [ @0u ] ] += inst -> r0 ;
<access> if ( id == @0u ) { return & inst -> o0 ; }
<entries> { .nodes = { .node_1 = @0u , .node_2 = 0u } , .react_ptr_off = UINT32_MAX , .flags = JACOBIAN_ENTRY_RESIST } ,
<pairs> { .node_1 = @0u , .node_2 = UINT32_MAX } ,
<nodes> { .name = \"a\" , .units = \"V\" , .residual_units = \"A\" , .resist_residual_off = offsetof ( inst_1 , @r1 ) , .react_residual_off = offsetof ( inst_1 , q0 ) , .resist_limit_rhs_off = UINT32_MAX , .react_limit_rhs_off = UINT32_MAX , .is_flow = 0 } ,
<params> { .name = ( char * [ ] ) { \"a\" , \"b\" } , .num_alias = @2u , .description = \"\" , .units = \"\" , .flags = PARA_TY_REAL | PARA_KIND_INST , .len = 0u } ,
<params> { .name = ( char * [ ] ) { \"a\" } , .num_alias = 0u , .description = \"\" , .units = \"\" , .flags = PARA_TY_REAL | PARA_KIND_MODEL , .len = 0u } , { .name = ( char * [ ] ) { \"b\" } , .num_alias = 0u , .description = \"\" , .units = \"\" , .flags = PARA_TY_REAL | @PARA_KIND_INST , .len = 0u } ,";

/// The least token of all rules.
const ALL: &str = "OSDI_NUM_DESCRIPTORS = 2u => OSDI_NUM_DESCRIPTORS = @2u
node [ 1u ] => node [ @5u ]
model_1 ; => @model_2 ;
return a0 ; => return @a1 ;
return a0 ; => return @a2 ;";

#[test]
fn rules_blame_their_least_tokens(rt: HostRuntime) -> Result<(), Fail> {
    let alloc = rt.alloc();
    check_lines(&rt, alloc, Rule::Breaks, BREAKS)?;
    check_lines(&rt, alloc, Rule::Calls, CALLS)?;
    check_lines(&rt, alloc, Rule::Fields, FIELDS)?;
    check_lines(&rt, alloc, Rule::Locals, LOCALS)?;
    check_lines(&rt, alloc, Rule::Tables, TABLES)?;
    check_changes(&rt, alloc, Rule::Tables, DESCRIPTORS)?;
    check_changes(&rt, alloc, Rule::Numbering, NUMBERING)?;
    check_changes(&rt, alloc, Rule::All, ALL)?;
    Ok(())
}

fn none<T>(alloc: Global) -> Items<T> {
    Items::new(Vec::new(alloc))
}

fn no_loads(alloc: Global) -> RawLoads {
    RawLoads {
        residual_resist: none(alloc),
        residual_react: none(alloc),
        jacobian_resist: none(alloc),
        jacobian_react: none(alloc),
        jacobian_tran: none(alloc),
        spice_rhs_dc: none(alloc),
        spice_rhs_tran: none(alloc),
    }
}

/// A raw tree of a module whose bodies lack their closing braces. No text has it.
fn unclosed(alloc: Global) -> Result<RawFile, AllocError> {
    let size = At { at: 0, value: 1 };
    let module = RawModule {
        numbers: none(alloc),
        model_fields: none(alloc),
        sizes: RawSizes {
            node: size,
            jr: size,
            jq: size,
            col: size,
        },
        inst_fields: none(alloc),
        functions: none(alloc),
        access: none(alloc),
        setup_model: none(alloc),
        setup_instance: none(alloc),
        eval: none(alloc),
        loads: no_loads(alloc),
        nodes: none(alloc),
        entries: none(alloc),
        collapse: none(alloc),
        params: none(alloc),
    };
    Ok(RawFile {
        modules: Items::new(vec![in alloc; module]?),
        num_descriptors: size,
        descriptors: none(alloc),
    })
}

#[test]
fn a_body_without_its_end_is_not_closed(rt: HostRuntime) -> Result<(), Fail> {
    let raw = unclosed(rt.alloc())?;
    assert!(rt; !bodies_closed(&raw));
    Ok(())
}

#[test]
fn the_earlier_token_counts(rt: HostRuntime) {
    let cases = [
        (Some(3), Some(2), Some(2)),
        (Some(3), None, Some(3)),
        (None, Some(2), Some(2)),
        (None, None, None),
    ];
    for (first, second, least) in cases {
        assert_eq!(rt; earlier(first, second), least);
    }
}
