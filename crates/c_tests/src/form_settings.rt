//! The rule on settings. What is missing is blamed at the brace that closes the block.
use crate::rules::{Rule, check_lines};
use std::test::Fail;

/// A constant is not set again. In another block its number means another local.
const CONSTANTS: &str = "<setup_instance> const double v1 = 2 ;
<setup_instance> const double v1 = 2 ; @v1 = 2 ;
<setup_instance> const double v1 = 2 ; for ( ; ; ) { if ( ! v9 ) { break ; } @v1 = 2 ; }
<setup_instance> if ( v9 ) { const double v1 = 2 ; } else { v1 = 2 ; }";

/// A join is set once in each arm of the next `if`, directly in the arm.
const JOINS: &str =
    "<setup_instance> double v1 ; if ( v9 ) { v1 = 2 ; } else { v1 = 2 ; } inst -> r0 = v1 ;
<setup_instance> double v1 ; if ( v9 ) { v1 = 2 ; } else { @} inst -> r0 = v1 ;
<setup_instance> double v1 ; if ( v9 ) { v1 = 2 ; @v1 = 2 ; } else { v1 = 2 ; }
<setup_instance> double v1 ; if ( v9 ) { v1 = 2 ; } else { v1 = 2 ; } @v1 = 2 ;
<setup_instance> double v1 ; if ( v9 ) { for ( ; ; ) { if ( ! v9 ) { break ; } @v1 = 2 ; } } else { v1 = 2 ; }";

/// A join is read only behind its `if`.
const JOINS_READ: &str =
    "<setup_instance> double v1 ; inst -> r0 = @v1 ; if ( v9 ) { v1 = 2 ; } else { v1 = 2 ; }
<setup_instance> double v1 ; if ( v9 ) { v1 = 2 ; inst -> r0 = @v1 ; } else { v1 = 2 ; }
<setup_instance> double v9 ; if ( @v9 ) { v9 = 2 ; } else { v9 = 2 ; }
<setup_instance> double v1 ; @
<setup_instance> double v1 ; for ( ; ; ) { if ( ! v9 ) { break ; } @v1 = 2 ; } if ( v9 ) { v1 = 2 ; } else { v1 = 2 ; }";

/// A head is set once in the next `for`, behind the `break`.
const HEADS: &str =
    "<setup_instance> double v1 = 2 ; for ( ; ; ) { if ( ! v9 ) { break ; } v1 = 2 ; } inst -> r0 = v1 ;
<setup_instance> double v1 = 2 ; for ( ; ; ) { @v1 = 2 ; if ( ! v9 ) { break ; } v1 = 2 ; }
<setup_instance> double v1 = 2 ; for ( ; ; ) { if ( ! v9 ) { break ; } @}
<setup_instance> double v1 = 2 ; if ( v9 ) { } else { } @
<setup_instance> double v1 = 2 ; for ( ; ; ) { if ( ! v9 ) { break ; } v1 = 2 ; } for ( ; ; ) { if ( ! v9 ) { break ; } @v1 = 2 ; }";

/// Each local of a block counts.
const BLOCKS: &str =
    "<setup_instance> const double v1 = 2 ; double v2 = 2 ; for ( ; ; ) { if ( ! v9 ) { break ; } v2 = 2 ; }
<setup_instance> if ( v9 ) { double v1 ; @} else { }
<setup_instance> double v1 ; double v2 = 2 ; @v1 = 2 ; v2 = 2 ;";

/// An `if` in an `if` has joins of its own.
const NESTED: &str =
    "<setup_instance> double v1 ; if ( v9 ) { double v2 ; if ( v9 ) { v2 = 2 ; } else { v2 = 2 ; } v1 = 2 ; } else { v1 = 2 ; } inst -> r0 = v1 ;
<setup_instance> double v1 ; if ( v9 ) { double v2 ; if ( v9 ) { v2 = 2 ; } else { @} v1 = 2 ; } else { v1 = 2 ; }
<setup_instance> double v1 ; if ( v9 ) { double v2 ; if ( v9 ) { v2 = 2 ; @v1 = 2 ; } else { v2 = 2 ; } v1 = 2 ; } else { v1 = 2 ; }";

/// Each local of a block waits for itself.
const SEVERAL: &str =
    "<setup_instance> double v1 ; double v2 ; if ( v9 ) { v1 = 2 ; v2 = 2 ; } else { v2 = 2 ; @}
<setup_instance> double v1 ; if ( v9 ) { v1 = 2 ; } else { v1 = 2 ; } double v2 ; if ( v9 ) { v2 = 2 ; @v1 = 2 ; } else { v2 = 2 ; }";

/// Of a number that is declared again the first declaration counts, also where its block has ended.
const AGAIN: &str =
    "<setup_instance> const double v1 = 2 ; double v1 = 2 ; for ( ; ; ) { if ( ! v9 ) { break ; } @v1 = 2 ; }
<setup_instance> double v1 = 2 ; const double v1 = 2 ; for ( ; ; ) { if ( ! v9 ) { break ; } v1 = 2 ; }
<setup_instance> const double v1 = 2 ; double v1 ; if ( v9 ) { } else { @v1 = 2 ; }
<setup_instance> if ( v9 ) { const double v1 = 2 ; } else { double v1 ; if ( v9 ) { v1 = 2 ; } else { v1 = 2 ; } }
<setup_instance> if ( v9 ) { const double v1 = 2 ; } else { double v1 ; if ( v9 ) { v1 = 2 ; } else { } }
<setup_instance> if ( v9 ) { double v1 ; @} else { double v1 ; }
<setup_instance> double v1 ; if ( v9 ) { v1 = 2 ; } else { v1 = 2 ; } double v1 ; double v1 ; inst -> r0 = v1 ; if ( v9 ) { } else { }";

/// One `break` in front of a setting is enough.
const BREAKS: &str =
    "<setup_instance> double v1 = 2 ; double v2 = 2 ; for ( ; ; ) { if ( ! v9 ) { break ; } v2 = 2 ; if ( ! v9 ) { break ; } if ( ! v9 ) { break ; } v1 = 2 ; if ( ! v9 ) { break ; } }
<setup_instance> double v1 = 2 ; for ( ; ; ) { if ( ! v9 ) { break ; } v1 = 2 ; if ( ! v9 ) { break ; } @v1 = 2 ; }
<setup_instance> double v1 = 2 ; for ( ; ; ) { @v1 = 2 ; }
<setup_instance> double v1 = 2 ; for ( ; ; ) { for ( ; ; ) { if ( ! v9 ) { break ; } } @v1 = 2 ; }";

#[test]
fn locals_are_set_as_they_are_declared(rt: HostRuntime) -> Result<(), Fail> {
    for rows in [
        CONSTANTS, JOINS, JOINS_READ, HEADS, BLOCKS, NESTED, SEVERAL, AGAIN, BREAKS,
    ] {
        check_lines(&rt, rt.alloc(), Rule::Settings, rows)?;
    }
    Ok(())
}
