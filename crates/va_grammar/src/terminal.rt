//! Kinds of tokens.
//!
//! Made by `tools/grammar_tables` from `tools/grammar/verilog_a.txt`; edit that file.
ghost use Rattle.std.specs.Prelude.{◌≡◌};
ghost use Rattle.std.specs.Option.{option_map};
ghost use Rattle.va_grammar.specs.Terminals.{spelling_of, terminal_number};

/// A kind of token: what a row of the grammar may hold as it stands.
///
/// Keywords and marks are kinds of their own (Lexical conventions). Their numbers are those of this order, from 0.
#[derive(Clone, Copy, Debug, PartialEq, Eq)]
pub enum Terminal {
    /// The end of a text, behind its last token.
    EndOfText,
    /// A word that is no keyword.
    Name,
    /// A word that begins with `$`.
    System,
    /// A number.
    Number,
    /// A string.
    Text,
    /// `module`
    Module,
    /// `endmodule`
    Endmodule,
    /// `input`
    Input,
    /// `output`
    Output,
    /// `inout`
    Inout,
    /// `nature`
    Nature,
    /// `endnature`
    Endnature,
    /// `discipline`
    Discipline,
    /// `enddiscipline`
    Enddiscipline,
    /// `potential`
    Potential,
    /// `flow`
    Flow,
    /// `domain`
    Domain,
    /// `branch`
    Branch,
    /// `parameter`
    Parameter,
    /// `localparam`
    Localparam,
    /// `aliasparam`
    Aliasparam,
    /// `real`
    Real,
    /// `integer`
    Integer,
    /// `from`
    From,
    /// `exclude`
    Exclude,
    /// `inf`
    Inf,
    /// `analog`
    Analog,
    /// `function`
    Function,
    /// `endfunction`
    Endfunction,
    /// `begin`
    Begin,
    /// `end`
    End,
    /// `if`
    If,
    /// `else`
    Else,
    /// `case`
    Case,
    /// `endcase`
    Endcase,
    /// `default`
    Default,
    /// `for`
    For,
    /// `while`
    While,
    /// `repeat`
    Repeat,
    /// `initial_step`
    InitialStep,
    /// `final_step`
    FinalStep,
    /// `(`
    LeftParenthesis,
    /// `)`
    RightParenthesis,
    /// `[`
    LeftBracket,
    /// `]`
    RightBracket,
    /// `,`
    Comma,
    /// `;`
    Semicolon,
    /// `:`
    Colon,
    /// `.`
    Dot,
    /// `=`
    Assign,
    /// `==`
    EqualTo,
    /// `!=`
    NotEqualTo,
    /// `<`
    Less,
    /// `<=`
    LessOrEqual,
    /// `<+`
    Contribute,
    /// `>`
    Greater,
    /// `>=`
    GreaterOrEqual,
    /// `+`
    Plus,
    /// `-`
    Minus,
    /// `*`
    Times,
    /// `**`
    ToThePower,
    /// `/`
    DividedBy,
    /// `%`
    Modulo,
    /// `!`
    Not,
    /// `&&`
    AndAnd,
    /// `||`
    OrOr,
    /// `?`
    Question,
    /// `@`
    At,
    /// `(*`
    AttributeOpen,
    /// `*)`
    AttributeClose,
}

/// How each kind is spelled, in the order of their numbers.
static SPELLINGS: [Option<&'static str>; 70] = [
    None,
    None,
    None,
    None,
    None,
    Some("module"),
    Some("endmodule"),
    Some("input"),
    Some("output"),
    Some("inout"),
    Some("nature"),
    Some("endnature"),
    Some("discipline"),
    Some("enddiscipline"),
    Some("potential"),
    Some("flow"),
    Some("domain"),
    Some("branch"),
    Some("parameter"),
    Some("localparam"),
    Some("aliasparam"),
    Some("real"),
    Some("integer"),
    Some("from"),
    Some("exclude"),
    Some("inf"),
    Some("analog"),
    Some("function"),
    Some("endfunction"),
    Some("begin"),
    Some("end"),
    Some("if"),
    Some("else"),
    Some("case"),
    Some("endcase"),
    Some("default"),
    Some("for"),
    Some("while"),
    Some("repeat"),
    Some("initial_step"),
    Some("final_step"),
    Some("("),
    Some(")"),
    Some("["),
    Some("]"),
    Some(","),
    Some(";"),
    Some(":"),
    Some("."),
    Some("="),
    Some("=="),
    Some("!="),
    Some("<"),
    Some("<="),
    Some("<+"),
    Some(">"),
    Some(">="),
    Some("+"),
    Some("-"),
    Some("*"),
    Some("**"),
    Some("/"),
    Some("%"),
    Some("!"),
    Some("&&"),
    Some("||"),
    Some("?"),
    Some("@"),
    Some("(*"),
    Some("*)"),
];

impl Terminal {
    /// The number of the kind, as the parser knows it.
    pub fn number(self) -> u16
        ensures { result ≡ terminal_number self }
    {
        self as u16
    }

    /// How a keyword or a mark is spelled. The other kinds have no spelling of their own.
    pub fn spelling(self) -> Option<&'static str>
        ensures { option_map (λ text. text.now) result ≡ spelling_of self }
    {
        SPELLINGS[self.number() as usize]
    }
}
