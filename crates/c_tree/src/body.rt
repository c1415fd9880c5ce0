//! Bodies of C functions: statements, right sides and atoms.
//!
//! A body is a flat list of statements in the order of the text, so that no walk over it needs a stack as deep as its blocks.
use alg_laws::{Fun1, Fun2, Ty};
use va_base::{Decimal, Items};

/// A statement of a body. A statement with blocks stands before the statements of its blocks, and tells how many there are.
#[derive(Drop)]
pub enum CStatement {
    Simple(CSimple),
    /// `if ( test ) { .. } else { .. }`: the next `first` statements of the list are the first block, and the `second` ones
    /// after them the second block. Those of inner blocks count too.
    If {
        test: CAtom,
        first: u32,
        second: u32,
    },
    /// `for ( ; ; ) { .. if ( ! test ) { break ; } .. }`: the next `before` statements of the list stand before the test, and
    /// the `turn` ones after them behind it. Those of inner blocks count too.
    For {
        before: u32,
        test: CAtom,
        turn: u32,
    },
}

/// A statement without blocks.
#[derive(Drop)]
pub enum CSimple {
    /// `const double v1 = .. ;`, a local that is never set again.
    Constant { ty: Ty, local: u32, right: CRight },
    /// `double v1 ;`, a local that each arm of the next `if` sets.
    Join { ty: Ty, local: u32 },
    /// `double v1 = .. ;`, a local that each turn of the next `for` sets.
    Head { ty: Ty, local: u32, first: CAtom },
    /// `v1 = .. ;`
    Assign { local: u32, value: CAtom },
    /// `inst -> r1 = .. ;`
    SetCell { cell: CCell, value: CAtom },
    /// `inst -> col [ 1u ] = .. ;`, whether a collapsible pair collapses.
    SetCollapse { pair: u32, value: CAtom },
    /// `init_error ( res , 1u ) ;`, which reports that a parameter is out of its range, by its id.
    Report { id: u32 },
}

/// The right side of a constant local.
#[derive(Drop)]
pub enum CRight {
    Same(CAtom),
    /// `- v1`
    Negated(CAtom),
    /// `! v1`
    Contrary(CAtom),
    /// `( double ) v1`
    ToReal(CAtom),
    /// `( int32_t ) lround ( v1 )`
    ToInteger(CAtom),
    Call {
        callee: CCallee,
        args: Items<CAtom>,
    },
    Binary {
        left: CAtom,
        operator: COperator,
        right: CAtom,
    },
}

/// What is called.
#[derive(Clone, Copy, Debug, PartialEq, Eq)]
pub enum CCallee {
    /// A function of C's library, of one argument.
    Fun1(Fun1),
    /// A function of C's library, of two arguments.
    Fun2(Fun2),
    /// A function of the same module, by its place.
    Function(u32),
}

/// What stands where one value is wanted.
#[derive(Clone, Copy, Debug, PartialEq, Eq)]
pub enum CAtom {
    Local(u32),
    /// An argument of the function.
    Argument(u32),
    Integer(u32),
    Real(Decimal),
    Cell(CCell),
    /// The solution at the place to which this unknown is mapped.
    Unknown(u32),
}

/// A cell of a struct.
#[derive(Clone, Copy, Debug, PartialEq, Eq)]
pub struct CCell {
    pub level: Level,
    pub field: CField,
}

/// Which of the two structs a cell is in.
#[derive(Clone, Copy, Debug, PartialEq, Eq)]
pub enum Level {
    Instance,
    Model,
}

/// A field of a struct. All but the temperature are numbered.
#[derive(Clone, Copy, Debug, PartialEq, Eq)]
pub enum CField {
    /// `p1`, the value of a parameter.
    Param(u32),
    /// `g1`, whether a parameter was given.
    Given(u32),
    /// `r1`, the resistive residual of a row.
    Resist(u32),
    /// `q1`, the reactive residual of a row.
    React(u32),
    /// `er1`, the resistive part of an entry of the Jacobian.
    EntryResist(u32),
    /// `eq1`, the reactive part of an entry of the Jacobian.
    EntryReact(u32),
    /// `o1`, an operating-point variable.
    OpVar(u32),
    /// `h1`, what the set-up of an instance computes for its evaluations.
    Stored(u32),
    /// `temp`
    Temperature,
}

/// An operator between two values.
#[derive(Clone, Copy, Debug, PartialEq, Eq)]
pub enum COperator {
    Plus,
    Minus,
    Times,
    Over,
    Remainder,
    Less,
    AtMost,
    Greater,
    AtLeast,
    Same,
    Differs,
}
