//! Bodies: statements and right sides.
//!
//! A block is a flat list of statements in the order of the text, in which a statement with blocks stands before those of its
//! blocks, and each block's closing brace behind its own. So no walk over a body, and no drop of it, needs a stack as deep as
//! its blocks.
use crate::token::At;
use alg_laws::Ty;
use c_tree::{CAtom, CCallee, CCell, COperator};
use va_base::Items;

/// A statement of a body, or the end of a block. The last one of a body is the `End` of its own block, behind which stands
/// nothing.
#[derive(Drop)]
pub enum RawStatement {
    Simple(RawSimple),
    /// `if ( ! test ) { break ; }`. `at` is the index of its `if`.
    Leave { at: u32, test: At<CAtom> },
    /// `if ( test ) {`. What follows are the statements of the first block with its `End`, those of the second block with its
    /// `End`, and what stands behind the whole statement.
    If { test: At<CAtom> },
    /// `for ( ; ; ) {`. What follows are the statements of its block with its `End`, and what stands behind the whole statement.
    For,
    /// The closing brace of a block. `at` is its index.
    End { at: u32 },
}

/// A statement without blocks. A local stands at its name, and a cell at `inst` or `model`, two tokens before its field's name.
#[derive(Drop)]
pub enum RawSimple {
    /// `const double v1 = .. ;`. `at` is the index of the first token of the right side.
    Constant {
        ty: Ty,
        local: At<u32>,
        at: u32,
        right: RawRight,
    },
    /// `double v1 ;`
    Join {
        ty: Ty,
        local: At<u32>,
    },
    /// `double v1 = .. ;`
    Head {
        ty: Ty,
        local: At<u32>,
        first: At<CAtom>,
    },
    /// `v1 = .. ;`
    Assign {
        local: At<u32>,
        value: At<CAtom>,
    },
    /// `inst -> r1 = .. ;`
    SetCell {
        cell: At<CCell>,
        value: At<CAtom>,
    },
    /// `inst -> col [ 1u ] = .. ;`. The pair's number, with the index of `inst`: `col` stands two tokens further, and the number
    /// four.
    SetCollapse {
        pair: At<u32>,
        value: At<CAtom>,
    },
    /// `init_error ( res , 1u ) ;`. The id, with the index of `init_error`: the number stands four tokens further.
    Report {
        id: At<u32>,
    },
}

/// The right side of a constant local. Each atom stands at its first token.
#[derive(Drop)]
pub enum RawRight {
    Same(At<CAtom>),
    /// `- v1`
    Negated(At<CAtom>),
    /// `! v1`
    Contrary(At<CAtom>),
    /// `( double ) v1`
    ToReal(At<CAtom>),
    /// `( int32_t ) lround ( v1 )`
    ToInteger(At<CAtom>),
    Call {
        callee: CCallee,
        args: Items<At<CAtom>>,
    },
    Binary {
        left: At<CAtom>,
        operator: COperator,
        right: At<CAtom>,
    },
}
