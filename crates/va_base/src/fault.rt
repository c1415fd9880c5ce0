//! Faults of texts.
ghost use Rattle.std.specs.Prelude.{◌≡◌, ◌↔◌, IsTrue};
ghost use Rattle.va_base.specs.Faults.{number_of_code, spelling_of_code, ComesBefore};

use crate::place::Place;

/// The phase in which a text is refused, in the order in which texts are looked at.
#[derive(Clone, Copy, Debug, PartialEq, Eq, PartialOrd, Ord)]
pub enum Phase {
    /// Tokens, macros and includes.
    Expand,
    Syntax,
    /// Depths, lengths and the number of modules.
    Size,
    Names,
    Types,
    /// Time derivatives, branches and limits of a module.
    Rules,
    /// A point file.
    Point,
    /// A C file.
    C,
}

/// Why a text is refused. Each code has its number.
#[derive(Clone, Copy, Debug, PartialEq, Eq)]
pub enum FaultCode {
    /// A token that is no token of the language is reached.
    BadToken = 1,
    /// A name is used that is no macro then.
    UnknownMacro = 2,
    /// A macro's arguments have no `(` or no closing `)`, or are not as many as its formals.
    MacroArgs = 3,
    /// A macro is used inside itself.
    MacroSelf = 4,
    /// Too many uses of macros are open at once.
    MacroDeep = 5,
    /// A directive of conditional text has no open conditional or no name, or a conditional is not closed in its file.
    Conditional = 6,
    /// A directive is not of its form, or stands in a macro's argument or body.
    Directive = 7,
    /// The file of an include is missing.
    MissingInclude = 8,
    /// Too many includes are open at once.
    IncludeDeep = 9,
    /// A file has too many bytes.
    FileLarge = 10,
    /// The expansion has or reads too many tokens.
    TokensMany = 11,
    /// No sentence begins with the tokens up to this one, and one begins with those before it.
    Syntax = 12,
    /// A node of the tree is too deep.
    TooDeep = 13,
    /// A word or a string is too long.
    TooLong = 14,
    /// The text has too many modules.
    ModulesMany = 15,
    /// A name has no meaning where it stands.
    UnknownName = 16,
    /// A name is declared twice in one scope.
    TwiceDeclared = 17,
    /// A name means something of another kind than it is used for.
    WrongKind = 18,
    /// An access name is not one of the branch's discipline.
    WrongAccess = 19,
    /// The two nodes of a branch have different disciplines.
    DisciplinesDiffer = 20,
    /// A port has no discipline.
    NotDeclaredNode = 21,
    /// A function is called from one that it reaches by calls.
    FunctionCycle = 22,
    /// What the language has and this compiler leaves out.
    OutOfProfile = 23,
    /// A function has another number of arguments.
    ArgumentCount = 24,
    /// An argument is of another kind than the function takes.
    ArgumentKind = 25,
    /// A default, a bound or an initialiser reads what it may not.
    NotConstant = 26,
    /// `%` has a real operand.
    RealOperand = 27,
    /// A time derivative stands where it is not linear.
    DdtNonLinear = 28,
    /// A time derivative stands under a condition that depends on the solution.
    DdtUnderBias = 29,
    /// A time derivative stands in a loop.
    DdtInLoop = 30,
    /// A time derivative stands in a function.
    DdtInFunction = 31,
    /// A time derivative stands in a time derivative.
    DdtTwice = 32,
    /// A branch is neither a flow, a potential nor a collapsing branch.
    SwitchBranch = 33,
    /// The flow of a branch without potential contributions is read.
    FlowProbe = 34,
    /// The flow of a collapsing branch is read.
    CollapseProbed = 35,
    /// A module has too many unknowns.
    UnknownsMany = 36,
    /// A module has too many parameters.
    ParamsMany = 37,
    /// A derivative stands in a derivative.
    DdxNested = 38,
    /// A derivative stands where none may.
    DdxPlace = 39,
    /// A noise source stands where none may.
    NoisePlace = 40,
    /// A module has too many expression nodes.
    NodesMany = 41,
    /// A name of a point file means no module or no parameter that may be set there.
    PointName = 42,
    /// A value of a point file is not of its type, or the unknowns are not as many as the module's.
    PointValue = 43,
    /// A byte of a C file begins no token.
    BadByte = 44,
    /// A C file breaks a rule of form.
    CForm = 45,
    /// The text is in order so far, and of a form that this compiler does not have yet.
    Unbuilt = 46,
}

/// The word that a code's name is, where these are the names of all codes.
macro_rules! spelled {
    ($code:expr; $($name:ident)*) => {
        match $code {
            $(FaultCode::$name => stringify!($name),)*
        }
    };
}

impl FaultCode {
    /// The number of the code, by which codes are ordered where phase and token are the same.
    pub fn number(self) -> u8
        ensures { result ≡ number_of_code self }
    {
        self as u8
    }

    /// The word by which a report names the code.
    pub fn spelling(self) -> &'static str
        ensures { result.now ≡ spelling_of_code self }
    {
        spelled!(self;
            BadToken UnknownMacro MacroArgs MacroSelf MacroDeep Conditional Directive
            MissingInclude IncludeDeep FileLarge TokensMany Syntax TooDeep TooLong ModulesMany
            UnknownName TwiceDeclared WrongKind WrongAccess DisciplinesDiffer NotDeclaredNode
            FunctionCycle OutOfProfile ArgumentCount ArgumentKind NotConstant RealOperand
            DdtNonLinear DdtUnderBias DdtInLoop DdtInFunction DdtTwice SwitchBranch FlowProbe
            CollapseProbed UnknownsMany ParamsMany DdxNested DdxPlace NoisePlace NodesMany
            PointName PointValue BadByte CForm Unbuilt
        )
    }
}

/// A fault: in which phase a text is refused, at which token, where that stands, and why. `at` is the token's index in the
/// list that the phase reads; in the phase Expand it is the number of tokens that the expansion gave before the fault.
#[derive(Clone, Copy, Debug, PartialEq, Eq)]
pub struct Fault {
    pub phase: Phase,
    pub at: u32,
    pub place: Place,
    pub code: FaultCode,
}

/// Whether one fault comes before another: by phase, then by token, then by the number of the code. Of several faults the
/// first in this order is answered. It takes no memory.
pub fn before(a: &Fault, b: &Fault) -> bool
    ensures { IsTrue result ↔ ComesBefore a.now b.now }
{
    if a.phase != b.phase {
        return a.phase < b.phase;
    }
    if a.at != b.at {
        return a.at < b.at;
    }
    a.code.number() < b.code.number()
}
