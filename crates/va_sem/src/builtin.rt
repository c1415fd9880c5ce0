//! The functions and tasks that the language has by itself.
ghost use Rattle.std.specs.Prelude.{◌≡◌, ◌<◌, ℕ, List, map, length, slice_get, IfSome};
ghost use denote.Bor.{Bor};
ghost use Rattle.va_sem.specs.Lookup.{place_of};
ghost use Rattle.va_sem.specs.Builtins.{builtin_row as row_of, builtin_at as function_of, system_name_of, takes as takes_of, system_takes, answer_type as answer_of, system_answer_type, argument_looked_at, common as common_of, default_type as second_type};
ghost use Rattle.va_sem.specs.TypesFaults.{may_be_called};

use alg_laws::{Fun1, Fun2, Ty};

/// A built-in function with a name that is a word (Mathematical functions). Such a name can't be declared.
#[derive(Clone, Copy, Debug, PartialEq, Eq)]
pub enum Builtin {
    /// A named function of one real.
    One(Fun1),
    /// A named function of two reals.
    Two(Fun2),
    Abs,
    Min,
    Max,
    /// Limited exponential
    LimExp,
    /// Time derivative operator
    Ddt,
    /// A function of the language that this compiler leaves out.
    LeftOut,
}

/// A built-in function with a system name (Environment parameter functions).
#[derive(Clone, Copy, Debug, PartialEq, Eq)]
pub enum SystemFunction {
    /// `$temperature`
    Temperature,
    /// `$vt`, with a temperature or without
    ThermalVoltage,
    /// `$limit`, whose first argument is an access
    Limit,
    /// `$simparam`, with a string and a default
    SimParam,
    /// `$param_given`, of a parameter
    ParamGiven,
}

/// What a system name is.
#[derive(Clone, Copy, Debug, PartialEq, Eq)]
pub enum SystemName {
    /// It stands in expressions.
    Function(SystemFunction),
    /// It is a statement, without effect (Simulation control and display tasks).
    Task,
}

/// The names of the built-in functions in the order of their rows.
const NAMES: [&str; 49] = [
    "exp",
    "ln",
    "log",
    "sqrt",
    "sin",
    "cos",
    "tan",
    "asin",
    "acos",
    "atan",
    "sinh",
    "cosh",
    "tanh",
    "asinh",
    "acosh",
    "atanh",
    "floor",
    "ceil",
    "pow",
    "atan2",
    "hypot",
    "abs",
    "min",
    "max",
    "limexp",
    "ddt",
    "ddx",
    "white_noise",
    "flicker_noise",
    "idt",
    "idtmod",
    "laplace_zp",
    "laplace_zd",
    "laplace_np",
    "laplace_nd",
    "zi_zp",
    "zi_zd",
    "zi_np",
    "zi_nd",
    "transition",
    "slew",
    "absdelay",
    "last_crossing",
    "cross",
    "timer",
    "above",
    "ac_stim",
    "noise_table",
    "analysis",
];

/// The functions of the rows.
const FUNCTIONS: [Builtin; 49] = [
    Builtin::One(Fun1::Exp),
    Builtin::One(Fun1::Ln),
    Builtin::One(Fun1::Log),
    Builtin::One(Fun1::Sqrt),
    Builtin::One(Fun1::Sin),
    Builtin::One(Fun1::Cos),
    Builtin::One(Fun1::Tan),
    Builtin::One(Fun1::Asin),
    Builtin::One(Fun1::Acos),
    Builtin::One(Fun1::Atan),
    Builtin::One(Fun1::Sinh),
    Builtin::One(Fun1::Cosh),
    Builtin::One(Fun1::Tanh),
    Builtin::One(Fun1::Asinh),
    Builtin::One(Fun1::Acosh),
    Builtin::One(Fun1::Atanh),
    Builtin::One(Fun1::Floor),
    Builtin::One(Fun1::Ceil),
    Builtin::Two(Fun2::Pow),
    Builtin::Two(Fun2::Atan2),
    Builtin::Two(Fun2::Hypot),
    Builtin::Abs,
    Builtin::Min,
    Builtin::Max,
    Builtin::LimExp,
    Builtin::Ddt,
    Builtin::LeftOut,
    Builtin::LeftOut,
    Builtin::LeftOut,
    Builtin::LeftOut,
    Builtin::LeftOut,
    Builtin::LeftOut,
    Builtin::LeftOut,
    Builtin::LeftOut,
    Builtin::LeftOut,
    Builtin::LeftOut,
    Builtin::LeftOut,
    Builtin::LeftOut,
    Builtin::LeftOut,
    Builtin::LeftOut,
    Builtin::LeftOut,
    Builtin::LeftOut,
    Builtin::LeftOut,
    Builtin::LeftOut,
    Builtin::LeftOut,
    Builtin::LeftOut,
    Builtin::LeftOut,
    Builtin::LeftOut,
    Builtin::LeftOut,
];

/// The system names that have a meaning.
const SYSTEM_NAMES: [&str; 17] = [
    "$temperature",
    "$vt",
    "$limit",
    "$simparam",
    "$param_given",
    "$strobe",
    "$display",
    "$write",
    "$warning",
    "$error",
    "$info",
    "$debug",
    "$finish",
    "$stop",
    "$fatal",
    "$discontinuity",
    "$bound_step",
];

/// What they are.
const SYSTEM_MEANINGS: [SystemName; 17] = [
    SystemName::Function(SystemFunction::Temperature),
    SystemName::Function(SystemFunction::ThermalVoltage),
    SystemName::Function(SystemFunction::Limit),
    SystemName::Function(SystemFunction::SimParam),
    SystemName::Function(SystemFunction::ParamGiven),
    SystemName::Task,
    SystemName::Task,
    SystemName::Task,
    SystemName::Task,
    SystemName::Task,
    SystemName::Task,
    SystemName::Task,
    SystemName::Task,
    SystemName::Task,
    SystemName::Task,
    SystemName::Task,
    SystemName::Task,
];

/// The place of a name among some words, from 0 on.
fn place_among(words: &[&str], name: &[u8]) -> Option<usize>
    ensures is { result ≡ place_of (map (λ (word : Bor (List ℕ)). word.now) words.now) name.now }
    ensures within { IfSome result (λ place. place < length words.now) }
{
    for (place, word) in words.iter().enumerate() {
        if word.as_bytes() == name {
            return Some(place);
        }
    }
    None
}

/// The row of a built-in function in the table of built-ins, from 1 on, by its name.
pub fn builtin_row(name: &[u8]) -> Option<u32>
    ensures { result ≡ row_of name.now }
{
    match place_among(&NAMES, name) {
        None => None,
        Some(place) => Some(place as u32 + 1),
    }
}

/// The function at a place of some functions.
fn function_at(functions: &[Builtin], place: usize) -> Option<Builtin>
    ensures { result ≡ slice_get functions.now place }
{
    functions.get(place).copied()
}

/// The built-in function of a row.
pub fn builtin_at(row: u32) -> Option<Builtin>
    ensures { result ≡ function_of row }
{
    if row == 0 {
        return None;
    }
    function_at(&FUNCTIONS, row as usize - 1)
}

/// What a system name is, if it has a meaning.
pub fn system_name(name: &[u8]) -> Option<SystemName>
    ensures { result ≡ system_name_of name.now }
{
    match place_among(&SYSTEM_NAMES, name) {
        None => None,
        Some(place) => SYSTEM_MEANINGS.get(place).copied(),
    }
}

impl Builtin {
    /// Whether it takes so many arguments. Of a function that is left out it is not known, and the answer is true.
    pub fn takes(self, count: usize) -> bool
        ensures { result ≡ takes_of self count }
    {
        match self {
            Builtin::One(_) => count == 1,
            Builtin::Two(_) => count == 2,
            Builtin::Abs => count == 1,
            Builtin::Min => count == 2,
            Builtin::Max => count == 2,
            Builtin::LimExp => count == 1,
            Builtin::Ddt => count == 1,
            Builtin::LeftOut => true,
        }
    }

    /// The type of its answer, by those of its arguments. A string has none.
    pub fn answer_type(self, arguments: &[Option<Ty>]) -> Ty
        ensures { result ≡ answer_of self arguments.now }
    {
        match self {
            Builtin::Abs => common(arguments),
            Builtin::Min => common(arguments),
            Builtin::Max => common(arguments),
            Builtin::One(_) => Ty::Real,
            Builtin::Two(_) => Ty::Real,
            Builtin::LimExp => Ty::Real,
            Builtin::Ddt => Ty::Real,
            Builtin::LeftOut => Ty::Real,
        }
    }

    /// Whether defaults, bounds, exclusions and initialisers may call it (Parameters).
    pub fn is_constant(self) -> bool
        ensures { result ≡ may_be_called self }
    {
        match self {
            Builtin::One(_) => true,
            Builtin::Two(_) => true,
            Builtin::Abs => true,
            Builtin::Min => true,
            Builtin::Max => true,
            Builtin::LimExp => true,
            Builtin::Ddt => false,
            Builtin::LeftOut => false,
        }
    }
}

/// Integer where all arguments are, else real.
fn common(arguments: &[Option<Ty>]) -> Ty
    ensures { result ≡ common_of arguments.now }
{
    for argument in arguments {
        match argument {
            Some(Ty::Integer) => {}
            Some(Ty::Real) => return Ty::Real,
            None => return Ty::Real,
        }
    }
    Ty::Integer
}

impl SystemFunction {
    /// Whether it takes so many arguments.
    pub fn takes(self, count: usize) -> bool
        ensures { result ≡ system_takes self count }
    {
        match self {
            SystemFunction::Temperature => count == 0,
            SystemFunction::ThermalVoltage => count <= 1,
            SystemFunction::Limit => count >= 1,
            SystemFunction::SimParam => count == 2,
            SystemFunction::ParamGiven => count == 1,
        }
    }

    /// The type of its answer, by those of its arguments. A string has none.
    pub fn answer_type(self, arguments: &[Option<Ty>]) -> Ty
        ensures { result ≡ system_answer_type self arguments.now }
    {
        match self {
            SystemFunction::Temperature => Ty::Real,
            SystemFunction::ThermalVoltage => Ty::Real,
            SystemFunction::Limit => Ty::Real,
            SystemFunction::SimParam => default_type(arguments),
            SystemFunction::ParamGiven => Ty::Integer,
        }
    }

    /// Whether the argument at a place, from 0 on, is looked at.
    pub fn looks_at(self, place: usize) -> bool
        ensures { result ≡ argument_looked_at self place }
    {
        match self {
            SystemFunction::Temperature => true,
            SystemFunction::ThermalVoltage => true,
            SystemFunction::Limit => place == 0,
            SystemFunction::SimParam => true,
            SystemFunction::ParamGiven => true,
        }
    }
}

/// The type of the second argument, and real where there is none or a string.
fn default_type(arguments: &[Option<Ty>]) -> Ty
    ensures { result ≡ second_type arguments.now }
{
    match arguments {
        [_, Some(ty), ..] => *ty,
        _ => Ty::Real,
    }
}
