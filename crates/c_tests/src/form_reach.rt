//! The rule on who may do what. The instance has `double r0` and `int32_t o0`. A cell is blamed at the word behind `->`.
use crate::rules::{Rule, check_lines};
use std::test::Fail;

/// Cells are set in the top block of a body alone.
const TOP_BLOCK: &str = "<eval> inst -> r0 = 1 ;
<eval> if ( v1 ) { inst -> @r0 = 1 ; } else { }
<eval> if ( v1 ) { } else { inst -> @r0 = 1 ; }
<eval> for ( ; ; ) { if ( ! v1 ) { break ; } inst -> @r0 = 1 ; }
<eval> for ( ; ; ) { if ( v1 ) { } else { inst -> @r0 = 1 ; } }
<eval> if ( v1 ) { } else { } inst -> r0 = 1 ;
<eval> for ( ; ; ) { } inst -> r0 = 1 ;";

/// Each cell and each flag is set at most once in a body.
const ONCE: &str = "<setup_instance> inst -> r0 = 1 ; inst -> @r0 = 1 ;
<setup_instance> inst -> r0 = 1 ; inst -> @r0 = 1 ; inst -> r0 = 1 ;
<setup_instance> inst -> r0 = 1 ; inst -> q0 = 1 ;
<setup_instance> inst -> r0 = 1 ; inst -> r1 = 1 ;
<setup_instance> inst -> r0 = 1 ; model -> r0 = 1 ;
<setup_instance> inst -> col [ 2u ] = 1 ; inst -> col [ 3u ] = 1 ; inst -> @col [ 2u ] = 1 ;
<setup_instance> inst -> col [ 2u ] = 1 ; inst -> col [ 3u ] = 1 ;";

/// An evaluation sets no parameter, given flag, stored cell, temperature or collapse flag, and reports nothing.
const EVALUATION: &str = "<eval> inst -> o0 = 1 ;
<eval> inst -> @p0 = 1 ;
<eval> model -> @p0 = 1 ;
<eval> inst -> @g0 = 1 ;
<eval> inst -> @h0 = 1 ;
<eval> inst -> @temp = 1 ;
<eval> inst -> @col [ 0u ] = 1 ;
<eval> @init_error ( res , 0u ) ;
<eval> v1 = inst -> p0 ;
<eval> v1 = x [ inst -> node [ 0u ] ] ;";

/// The set-up of an instance sets all but the temperature, and does not read `x`.
const SETUP_INSTANCE: &str = "<setup_instance> inst -> h0 = 1 ;
<setup_instance> model -> p0 = 1 ;
<setup_instance> inst -> @temp = 1 ;
<setup_instance> inst -> col [ 0u ] = 1 ;
<setup_instance> init_error ( res , 0u ) ;
<setup_instance> v1 = inst -> p0 ;
<setup_instance> v1 = @x [ inst -> node [ 0u ] ] ;
<setup_instance> for ( ; ; ) { if ( ! @x [ inst -> node [ 0u ] ] ) { break ; } }";

/// The set-up of the model names no `inst`, which is blamed itself.
const SETUP_MODEL: &str = "<setup_model> model -> p0 = 1 ;
<setup_model> @inst -> p0 = 1 ;
<setup_model> model -> @temp = 1 ;
<setup_model> @inst -> temp = 1 ;
<setup_model> @inst -> col [ 0u ] = 1 ;
<setup_model> init_error ( res , 0u ) ;
<setup_model> v1 = model -> p0 ;
<setup_model> v1 = @inst -> p0 ;
<setup_model> v1 = @x [ inst -> node [ 0u ] ] ;";

/// A function reads and sets no cell, nor does it read `x` or report anything.
const FUNCTION: &str = "<function> model -> @p0 = 1 ;
<function> inst -> @col [ 0u ] = 1 ;
<function> @init_error ( res , 0u ) ;
<function> v1 = model -> @p0 ;
<function> v1 = inst -> @p0 ;
<function> v1 = @x [ inst -> node [ 0u ] ] ;
<function> v1 = a0 ;
<function> v1 = v1 ;
<function> if ( model -> @p0 ) { } else { }
<functions> static double fn_1_1 ( ) { return v1 ; }
<functions> static double fn_1_1 ( ) { return model -> @p0 ; }
<functions> static double fn_1_1 ( ) { return @x [ inst -> node [ 0u ] ] ; }";

/// The flag in the arm, the cell that is set twice, and the report break the rule: the least token of theirs is blamed.
const SEVERAL: &str =
    "<eval> if ( v1 ) { inst -> @col [ 0u ] = 1 ; } else { } inst -> r0 = 1 ; inst -> r0 = 1 ; init_error ( res , 0u ) ;";

/// Loads of vectors have `dst`, those of the matrix have none.
const TARGETS: &str = "<residual_resist> dst [ inst -> node [ 0u ] ] += inst -> r0 * inst -> r0 ;
<residual_react> dst [ inst -> node [ 0u ] ] += inst -> r0 * inst -> r0 ;
<spice_rhs_dc> dst [ inst -> node [ 0u ] ] += inst -> r0 * x [ inst -> node [ 0u ] ] ;
<spice_rhs_tran> dst [ inst -> node [ 0u ] ] += alpha * x [ inst -> node [ 0u ] ] ;
<jacobian_resist> @dst [ inst -> node [ 0u ] ] += inst -> r0 * inst -> r0 ;
<jacobian_react> @dst [ inst -> node [ 0u ] ] += inst -> r0 * inst -> r0 ;
<jacobian_tran> @dst [ inst -> node [ 0u ] ] += inst -> r0 * inst -> r0 ;
<jacobian_tran> * inst -> jq [ 0u ] += inst -> r0 * alpha ;
<jacobian_react> * inst -> jq [ 0u ] += alpha * inst -> r0 ;";

/// A load reads `alpha` and `x` where its function has them, and doubles alone. A cell that isn't there is not blamed.
const FACTORS: &str = "<jacobian_resist> * inst -> jq [ 0u ] += @alpha * inst -> r0 ;
<residual_react> dst [ inst -> node [ 0u ] ] += inst -> r0 * @alpha ;
<spice_rhs_dc> dst [ inst -> node [ 0u ] ] += @alpha * inst -> r0 ;
<residual_resist> dst [ inst -> node [ 0u ] ] += @x [ inst -> node [ 0u ] ] * inst -> r0 ;
<jacobian_tran> * inst -> jq [ 0u ] += inst -> r0 * @x [ inst -> node [ 0u ] ] ;
<residual_resist> dst [ inst -> node [ 0u ] ] += inst -> @o0 * inst -> r0 ;
<residual_resist> dst [ inst -> node [ 0u ] ] += inst -> r0 * inst -> @o0 ;
<residual_resist> dst [ inst -> node [ 0u ] ] += inst -> r0 * inst -> temp ;
<residual_resist> dst [ inst -> node [ 0u ] ] += inst -> r0 * inst -> h7 ;";

#[test]
fn texts_speak_of_what_is_in_reach(rt: HostRuntime) -> Result<(), Fail> {
    for rows in [
        TOP_BLOCK,
        ONCE,
        EVALUATION,
        SETUP_INSTANCE,
        SETUP_MODEL,
        FUNCTION,
        SEVERAL,
        TARGETS,
        FACTORS,
    ] {
        check_lines(&rt, rt.alloc(), Rule::Reach, rows)?;
    }
    Ok(())
}
