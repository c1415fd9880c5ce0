//! The rule on types. The module has `int32_t p1` in its model, `double r0` and `int32_t h1` in its instance, and a function of a double
//! and an integer, which returns a double.
use crate::rules::{Rule, check_lines};
use std::test::Fail;

/// Of two operands of different types the second is blamed, and an operand of `%` that is no integer. Where they agree, a result of
/// another type than the declared one is blamed at the first token of the right side. A comparison is an integer, whatever its
/// operands are.
const OPERANDS: &str = "<eval> const double v1 = 2 + @x [ inst -> node [ 0u ] ] ;
<eval> const double v1 = x [ inst -> node [ 0u ] ] * @2 ;
<eval> const double v1 = x [ inst -> node [ 0u ] ] - x [ inst -> node [ 0u ] ] ;
<eval> const int32_t v1 = @x [ inst -> node [ 0u ] ] / x [ inst -> node [ 0u ] ] ;
<eval> const int32_t v1 = 2 % @x [ inst -> node [ 0u ] ] ;
<eval> const int32_t v1 = @x [ inst -> node [ 0u ] ] % x [ inst -> node [ 0u ] ] ;
<eval> const int32_t v1 = x [ inst -> node [ 0u ] ] < x [ inst -> node [ 0u ] ] ;
<eval> const double v1 = @x [ inst -> node [ 0u ] ] >= x [ inst -> node [ 0u ] ] ;
<eval> const int32_t v1 = x [ inst -> node [ 0u ] ] == @2 ;";

/// A right side has the declared type. What isn't there has no type, and is not blamed.
const RIGHT_SIDES: &str = "<eval> const double v1 = @2 ;
<eval> const double v1 = @model -> p1 ;
<eval> const int32_t v1 = @inst -> temp ;
<eval> const int32_t v1 = v9 ;
<eval> const double v1 = @- 2 ;
<eval> const int32_t v1 = ! @x [ inst -> node [ 0u ] ] ;
<eval> const double v1 = @! x [ inst -> node [ 0u ] ] ;
<eval> const double v1 = ( double ) @x [ inst -> node [ 0u ] ] ;
<eval> const int32_t v1 = ( int32_t ) lround ( @2 ) ;";

/// Arguments have the types that are wanted. A call that doesn't fit has no type, nor have its arguments.
const CALLS: &str = "<eval> const double v1 = exp ( @2 ) ;
<eval> const double v1 = exp ( x [ inst -> node [ 0u ] ] ) ;
<eval> const double v1 = pow ( x [ inst -> node [ 0u ] ] , @2 ) ;
<eval> const double v1 = fn_1_0 ( x [ inst -> node [ 0u ] ] , 2 ) ;
<eval> const double v1 = fn_1_0 ( x [ inst -> node [ 0u ] ] , @x [ inst -> node [ 0u ] ] ) ;
<eval> const int32_t v1 = @fn_1_0 ( x [ inst -> node [ 0u ] ] , 2 ) ;
<eval> const int32_t v1 = fn_1_0 ( 2 ) ;
<eval> const int32_t v1 = fn_1_1 ( x [ inst -> node [ 0u ] ] ) ;";

/// What is set or tested has the type that is wanted.
const STATEMENTS: &str = "<eval> double v1 = x [ inst -> node [ 0u ] ] ; v1 = @2 ;
<eval> double v1 = x [ inst -> node [ 0u ] ] ; v9 = 2 ;
<eval> double v1 = x [ inst -> node [ 0u ] ] ; int32_t v2 = @x [ inst -> node [ 0u ] ] ;
<eval> inst -> r0 = @2 ;
<eval> inst -> h1 = @x [ inst -> node [ 0u ] ] ;
<eval> inst -> h1 = 2 ;
<eval> inst -> h9 = x [ inst -> node [ 0u ] ] ;
<eval> inst -> col [ 0u ] = @x [ inst -> node [ 0u ] ] ;
<eval> if ( @x [ inst -> node [ 0u ] ] ) { } else { }
<eval> if ( 2 ) { } else { }
<eval> double v1 = x [ inst -> node [ 0u ] ] ; if ( ! @v1 ) { break ; }";

/// A local has the type of its innermost declaration.
const HIDDEN: &str =
    "<eval> const double v1 = x [ inst -> node [ 0u ] ] ; if ( 2 ) { const int32_t v1 = 2 ; } else { const double v2 = v1 ; } const double v3 = v1 ;
<eval> const double v1 = x [ inst -> node [ 0u ] ] ; if ( 2 ) { const int32_t v1 = 2 ; } else { const int32_t v2 = @v1 ; } const double v3 = v1 ;";

/// A function returns the type of its result.
const VALUES: &str = "<functions> static double fn_1_1 ( double a0 , int32_t a1 ) { return a0 ; }
<functions> static double fn_1_1 ( double a0 , int32_t a1 ) { return @a1 ; }
<functions> static double fn_1_1 ( double a0 , int32_t a1 ) { return a2 ; }
<functions> static double fn_1_1 ( double a0 , int32_t a1 ) { return @2 ; }";

#[test]
fn types_agree(rt: HostRuntime) -> Result<(), Fail> {
    for rows in [OPERANDS, RIGHT_SIDES, CALLS, STATEMENTS, HIDDEN, VALUES] {
        check_lines(&rt, rt.alloc(), Rule::Types, rows)?;
    }
    Ok(())
}
