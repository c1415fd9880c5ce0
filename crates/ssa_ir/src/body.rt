//! Bodies as lists of instructions in the order of the text.
use alg_laws::{Fun1, Fun2, Ty};
use sqlite_items::Boxed;
use va_base::{Decimal, Items};

/// An operator on one value.
#[derive(Clone, Copy, Debug, PartialEq, Eq)]
pub enum UnaryOperator {
    /// The negative (Operators).
    Negative,
    /// The integer 1 where the value is false, else 0 (Operators).
    Contrary,
    /// An integer in a real place (Integer to real conversion).
    ToReal,
    /// A real in an integer place (Real to integer conversion).
    ToInteger,
    /// The time derivative (Time derivative operator).
    TimeDerivative,
}

/// An operator on two values of one type (Operators).
#[derive(Clone, Copy, Debug, PartialEq, Eq)]
pub enum BinaryOperator {
    Add,
    Subtract,
    Multiply,
    Divide,
    /// Of integers alone.
    Remainder,
    Less,
    AtMost,
    Equal,
    NotEqual,
}

/// What computes a value, from earlier values by their numbers.
#[derive(Debug, Drop)]
pub enum Operation {
    /// A numeral in a real place (Numbers).
    Literal(Boxed<Decimal>),
    Integer(i32),
    /// The value of a parameter; in a body of set-up what was set for it.
    Parameter(u32),
    /// Whether a parameter was given: the integer 1 or 0.
    Given(u32),
    /// The temperature in kelvin.
    Temperature,
    /// The value of an unknown.
    Unknown(u32),
    /// What the set-up of an instance has stored.
    Cell(u32),
    Unary(UnaryOperator, u32),
    Binary(BinaryOperator, u32, u32),
    /// A named function of one real (Mathematical functions).
    One(Fun1, u32),
    /// A named function of two reals.
    Two(Fun2, u32, u32),
    /// A call of a function by its place in the list of functions (User-defined analog functions).
    Call(u32, Boxed<Items<u32>>),
}

/// An instruction. A choice or a loop stands as several: what lies between them is inside it.
#[derive(Debug, Drop)]
pub enum Instruction {
    /// A value, which is never set again.
    Value {
        number: u32,
        ty: Ty,
        operation: Operation,
    },
    /// A choice begins, by a test of a value. The arm for a true one follows.
    Choice {
        test: u32,
    },
    /// The arm for a false one follows.
    Else,
    /// A number that has the value of one operand behind the first arm, and of another behind the second.
    Join {
        number: u32,
        ty: Ty,
        first: u32,
        second: u32,
    },
    /// The choice ends. Of what is inside nothing is seen behind it but its joins.
    EndChoice,
    /// A loop begins. Its heads follow, and then what stands before its test.
    Loop,
    /// A number that has the value of this operand at the first turn. What it has at the next one stands at the turn's end.
    Head {
        number: u32,
        ty: Ty,
        initial: u32,
    },
    /// The loop goes on where the value is true, and the rest of the turn follows.
    Test {
        test: u32,
    },
    /// What a head has at the next turn, in the order of the heads.
    Next {
        operand: u32,
    },
    /// The loop ends. Of what is inside nothing is seen behind it but its heads.
    EndLoop,
}

/// A list of instructions, and a number above all those that it defines.
#[derive(Debug, Drop)]
pub struct Body {
    pub instructions: Items<Instruction>,
    pub free: u32,
}

/// A function, which reads nothing but its arguments. They have the numbers 0, 1, .. of its body.
#[derive(Debug, Drop)]
pub struct Function {
    pub arguments: Items<Ty>,
    pub body: Body,
    pub ty: Ty,
    /// The number of its value.
    pub result: u32,
}

/// An instruction takes little memory.
const _: () = prove!(size_of::<Instruction>() <= 32);
