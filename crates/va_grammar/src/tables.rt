//! The tables of the grammar.
//!
//! Made by `tools/grammar_tables` from `tools/grammar/verilog_a.txt`; edit that file.

use crate::nonterminal::Nonterminal::*;
use crate::rows::Part::{self, Rule as N, Token as T};
use crate::terminal::Terminal;
use crate::terminal::Terminal::*;

/// How many nonterminals there are.
pub const NONTERMINALS: usize = 79;

/// How many kinds of tokens there are.
pub const KINDS: usize = 70;

/// The keywords by the number of their bytes, from 0 on (Lexical conventions).
pub static KEYWORDS: [&[Terminal]; 14] = [
    &[],
    &[],
    &[If],
    &[Inf, End, For],
    &[Flow, Real, From, Else, Case],
    &[Input, Inout, Begin, While],
    &[Module, Output, Nature, Domain, Branch, Analog, Repeat],
    &[Integer, Exclude, Endcase, Default],
    &[Function],
    &[Endmodule, Endnature, Potential, Parameter],
    &[Discipline, Localparam, Aliasparam, FinalStep],
    &[Endfunction],
    &[InitialStep],
    &[Enddiscipline],
];

/// The operators and brackets by the number of their bytes, from 0 on (Operators).
pub static MARKS: [&[Terminal]; 3] = [
    &[],
    &[
        LeftParenthesis,
        RightParenthesis,
        LeftBracket,
        RightBracket,
        Comma,
        Semicolon,
        Colon,
        Dot,
        Assign,
        Less,
        Greater,
        Plus,
        Minus,
        Times,
        DividedBy,
        Modulo,
        Not,
        Question,
        At,
    ],
    &[
        EqualTo,
        NotEqualTo,
        LessOrEqual,
        Contribute,
        GreaterOrEqual,
        ToThePower,
        AndAnd,
        OrOr,
        AttributeOpen,
        AttributeClose,
    ],
];

/// The parts of each row, in the written order, and its nonterminal behind them. A row's number is its place, counted from 0.
pub static ROWS: [&[Part]; 173] = [
    &[N(TopItem), N(Source)], // Source
    &[], // Source
    &[N(Attributes), N(TopItemBody)], // TopItem
    &[N(NatureDeclaration)], // TopItemBody
    &[N(DisciplineDeclaration)], // TopItemBody
    &[N(ModuleDeclaration)], // TopItemBody
    &[
        T(AttributeOpen),
        N(Attribute),
        N(MoreAttributes),
        T(AttributeClose),
        N(Attributes),
    ], // Attributes
    &[], // Attributes
    &[T(Comma), N(Attribute), N(MoreAttributes)], // MoreAttributes
    &[], // MoreAttributes
    &[T(Name), N(AttributeValue)], // Attribute
    &[T(Assign), N(Argument)], // AttributeValue
    &[], // AttributeValue
    &[T(Text)], // Argument
    &[N(Expression)], // Argument
    &[
        T(Nature),
        T(Name),
        N(ParentNature),
        N(OptionalSemicolon),
        N(NatureItems),
        T(Endnature),
    ], // NatureDeclaration
    &[T(Colon), T(Name)], // ParentNature
    &[], // ParentNature
    &[T(Semicolon)], // OptionalSemicolon
    &[], // OptionalSemicolon
    &[
        T(Name),
        T(Assign),
        N(Argument),
        T(Semicolon),
        N(NatureItems),
    ], // NatureItems
    &[], // NatureItems
    &[
        T(Discipline),
        T(Name),
        N(OptionalSemicolon),
        N(DisciplineItems),
        T(Enddiscipline),
    ], // DisciplineDeclaration
    &[N(DisciplineItem), N(DisciplineItems)], // DisciplineItems
    &[], // DisciplineItems
    &[T(Potential), N(NatureBinding)], // DisciplineItem
    &[T(Flow), N(NatureBinding)], // DisciplineItem
    &[T(Domain), T(Name), T(Semicolon)], // DisciplineItem
    &[T(Name), T(Semicolon)], // NatureBinding
    &[T(Dot), T(Name), T(Assign), N(Argument), T(Semicolon)], // NatureBinding
    &[
        T(Module),
        T(Name),
        N(Ports),
        T(Semicolon),
        N(Items),
        T(Endmodule),
    ], // ModuleDeclaration
    &[T(LeftParenthesis), N(PortList), T(RightParenthesis)], // Ports
    &[], // Ports
    &[T(Name), N(MoreNames)], // PortList
    &[], // PortList
    &[T(Comma), T(Name), N(MoreNames)], // MoreNames
    &[], // MoreNames
    &[N(Item), N(Items)], // Items
    &[], // Items
    &[N(Attributes), N(ItemBody)], // Item
    &[N(Direction), T(Name), N(DirectionTail), T(Semicolon)], // ItemBody
    &[T(Name), T(Name), N(MoreNames), T(Semicolon)], // ItemBody
    &[
        T(Branch),
        T(LeftParenthesis),
        T(Name),
        N(SecondNode),
        T(RightParenthesis),
        T(Name),
        N(MoreNames),
        T(Semicolon),
    ], // ItemBody
    &[
        T(Parameter),
        N(OptionalType),
        N(ParameterAssignments),
        T(Semicolon),
    ], // ItemBody
    &[
        T(Localparam),
        N(OptionalType),
        N(ParameterAssignments),
        T(Semicolon),
    ], // ItemBody
    &[T(Aliasparam), T(Name), T(Assign), T(Name), T(Semicolon)], // ItemBody
    &[T(Real), N(Variables), T(Semicolon)], // ItemBody
    &[T(Integer), N(Variables), T(Semicolon)], // ItemBody
    &[T(Analog), N(AnalogItem)], // ItemBody
    &[T(Input)], // Direction
    &[T(Output)], // Direction
    &[T(Inout)], // Direction
    &[T(Name), N(MoreNames)], // DirectionTail
    &[N(MoreNames)], // DirectionTail
    &[T(Comma), T(Name)], // SecondNode
    &[], // SecondNode
    &[T(Real)], // OptionalType
    &[T(Integer)], // OptionalType
    &[], // OptionalType
    &[N(ParameterAssignment), N(MoreParameterAssignments)], // ParameterAssignments
    &[
        T(Comma),
        N(ParameterAssignment),
        N(MoreParameterAssignments),
    ], // MoreParameterAssignments
    &[], // MoreParameterAssignments
    &[T(Name), T(Assign), N(Expression), N(Ranges)], // ParameterAssignment
    &[T(From), N(Interval), N(Ranges)], // Ranges
    &[T(Exclude), N(Exclusion), N(Ranges)], // Ranges
    &[], // Ranges
    &[
        N(LowerBracket),
        N(Expression),
        T(Colon),
        N(Expression),
        N(UpperBracket),
    ], // Interval
    &[T(LeftBracket)], // LowerBracket
    &[T(LeftParenthesis)], // LowerBracket
    &[T(RightBracket)], // UpperBracket
    &[T(RightParenthesis)], // UpperBracket
    &[
        T(LeftBracket),
        N(Expression),
        T(Colon),
        N(Expression),
        N(UpperBracket),
    ], // Exclusion
    &[T(LeftParenthesis), N(Expression), N(ExclusionRest)], // Exclusion
    &[N(Expression)], // Exclusion
    &[T(Colon), N(Expression), N(UpperBracket)], // ExclusionRest
    &[T(RightParenthesis)], // ExclusionRest
    &[N(Variable), N(MoreVariables)], // Variables
    &[T(Comma), N(Variable), N(MoreVariables)], // MoreVariables
    &[], // MoreVariables
    &[T(Name), N(Initialiser)], // Variable
    &[T(Assign), N(Expression)], // Initialiser
    &[], // Initialiser
    &[
        T(Function),
        N(OptionalType),
        T(Name),
        T(Semicolon),
        N(FunctionItems),
        N(Statement),
        T(Endfunction),
    ], // AnalogItem
    &[N(Statement)], // AnalogItem
    &[N(FunctionItem), N(FunctionItems)], // FunctionItems
    &[], // FunctionItems
    &[T(Input), T(Name), N(MoreNames), T(Semicolon)], // FunctionItem
    &[T(Real), T(Name), N(MoreNames), T(Semicolon)], // FunctionItem
    &[T(Integer), T(Name), N(MoreNames), T(Semicolon)], // FunctionItem
    &[T(Begin), N(Label), N(Declarations), N(Statements), T(End)], // Statement
    &[
        T(If),
        T(LeftParenthesis),
        N(Expression),
        T(RightParenthesis),
        N(Statement),
        N(ElseBranch),
    ], // Statement
    &[
        T(Case),
        T(LeftParenthesis),
        N(Expression),
        T(RightParenthesis),
        N(CaseItems),
        T(Endcase),
    ], // Statement
    &[
        T(For),
        T(LeftParenthesis),
        T(Name),
        T(Assign),
        N(Expression),
        T(Semicolon),
        N(Expression),
        T(Semicolon),
        T(Name),
        T(Assign),
        N(Expression),
        T(RightParenthesis),
        N(Statement),
    ], // Statement
    &[
        T(While),
        T(LeftParenthesis),
        N(Expression),
        T(RightParenthesis),
        N(Statement),
    ], // Statement
    &[
        T(Repeat),
        T(LeftParenthesis),
        N(Expression),
        T(RightParenthesis),
        N(Statement),
    ], // Statement
    &[
        T(At),
        T(LeftParenthesis),
        N(Event),
        T(RightParenthesis),
        N(Statement),
    ], // Statement
    &[T(Name), N(StatementRest)], // Statement
    &[T(System), N(TaskArguments), T(Semicolon)], // Statement
    &[T(Semicolon)], // Statement
    &[T(Colon), T(Name)], // Label
    &[], // Label
    &[N(Declaration), N(Declarations)], // Declarations
    &[], // Declarations
    &[T(Real), N(Variables), T(Semicolon)], // Declaration
    &[T(Integer), N(Variables), T(Semicolon)], // Declaration
    &[N(Statement), N(Statements)], // Statements
    &[], // Statements
    &[T(Else), N(Statement)], // ElseBranch
    &[], // ElseBranch
    &[N(CaseItem), N(CaseItems)], // CaseItems
    &[], // CaseItems
    &[T(Default), N(OptionalColon), N(Statement)], // CaseItem
    &[N(Expression), N(MoreCaseValues), T(Colon), N(Statement)], // CaseItem
    &[T(Colon)], // OptionalColon
    &[], // OptionalColon
    &[T(Comma), N(Expression), N(MoreCaseValues)], // MoreCaseValues
    &[], // MoreCaseValues
    &[T(InitialStep), N(EventArguments)], // Event
    &[T(FinalStep), N(EventArguments)], // Event
    &[
        T(LeftParenthesis),
        T(Text),
        N(MoreEventArguments),
        T(RightParenthesis),
    ], // EventArguments
    &[], // EventArguments
    &[T(Comma), T(Text), N(MoreEventArguments)], // MoreEventArguments
    &[], // MoreEventArguments
    &[T(Assign), N(Expression), T(Semicolon)], // StatementRest
    &[
        T(LeftParenthesis),
        T(Name),
        N(SecondNode),
        T(RightParenthesis),
        T(Contribute),
        N(Expression),
        T(Semicolon),
    ], // StatementRest
    &[T(LeftParenthesis), N(Arguments), T(RightParenthesis)], // TaskArguments
    &[], // TaskArguments
    &[N(Argument), N(MoreArguments)], // Arguments
    &[], // Arguments
    &[T(Comma), N(Argument), N(MoreArguments)], // MoreArguments
    &[], // MoreArguments
    &[N(Or), N(ConditionalTail)], // Expression
    &[T(Question), N(Expression), T(Colon), N(Expression)], // ConditionalTail
    &[], // ConditionalTail
    &[N(And), N(OrTail)], // Or
    &[T(OrOr), N(And), N(OrTail)], // OrTail
    &[], // OrTail
    &[N(Equality), N(AndTail)], // And
    &[T(AndAnd), N(Equality), N(AndTail)], // AndTail
    &[], // AndTail
    &[N(Relation), N(EqualityTail)], // Equality
    &[T(EqualTo), N(Relation), N(EqualityTail)], // EqualityTail
    &[T(NotEqualTo), N(Relation), N(EqualityTail)], // EqualityTail
    &[], // EqualityTail
    &[N(Sum), N(RelationTail)], // Relation
    &[T(Less), N(Sum), N(RelationTail)], // RelationTail
    &[T(LessOrEqual), N(Sum), N(RelationTail)], // RelationTail
    &[T(Greater), N(Sum), N(RelationTail)], // RelationTail
    &[T(GreaterOrEqual), N(Sum), N(RelationTail)], // RelationTail
    &[], // RelationTail
    &[N(Product), N(SumTail)], // Sum
    &[T(Plus), N(Product), N(SumTail)], // SumTail
    &[T(Minus), N(Product), N(SumTail)], // SumTail
    &[], // SumTail
    &[N(Power), N(ProductTail)], // Product
    &[T(Times), N(Power), N(ProductTail)], // ProductTail
    &[T(DividedBy), N(Power), N(ProductTail)], // ProductTail
    &[T(Modulo), N(Power), N(ProductTail)], // ProductTail
    &[], // ProductTail
    &[N(Unary), N(PowerTail)], // Power
    &[T(ToThePower), N(Unary), N(PowerTail)], // PowerTail
    &[], // PowerTail
    &[T(Plus), N(Unary)], // Unary
    &[T(Minus), N(Unary)], // Unary
    &[T(Not), N(Unary)], // Unary
    &[N(Primary)], // Unary
    &[T(Number)], // Primary
    &[T(Inf)], // Primary
    &[T(LeftParenthesis), N(Expression), T(RightParenthesis)], // Primary
    &[T(Name), N(CallArguments)], // Primary
    &[T(System), N(CallArguments)], // Primary
    &[T(LeftParenthesis), N(Arguments), T(RightParenthesis)], // CallArguments
    &[], // CallArguments
];

/// The number of the first row of each nonterminal.
pub static FIRST_ROWS: [u8; NONTERMINALS] = [
    0, 2, 3, 6, 8, 10, 11, 13, 15, 16, 18, 20, 22, 23, 25, 28, 30, 31, 33, 35, 37, 39, 40, 49, 52,
    54, 56, 59, 60, 62, 63, 66, 67, 69, 71, 74, 76, 77, 79, 80, 82, 84, 86, 89, 99, 101, 103, 105,
    107, 109, 111, 113, 115, 117, 119, 121, 123, 125, 127, 129, 131, 132, 134, 135, 137, 138, 140,
    141, 144, 145, 150, 151, 154, 155, 159, 160, 162, 166, 171,
];

/// The row that each nonterminal gives way to at each kind of token: the first of its rows that fits. There is a line for each
/// nonterminal and a column for each kind, in the order of their numbers. A digit is the row's place among those of the
/// nonterminal, counted from 0, and a dot stands where no row fits. The proof of `VaRows::row` computes that each cell is right.
pub static ROW_AT: [[u8; KINDS]; NONTERMINALS] = [
    *b"1....0....0.0.......................................................0.", // Source
    *b".....0....0.0.......................................................0.", // TopItem
    *b".....2....0.1.........................................................", // TopItemBody
    *b".1...1.1111.1....111111...1.........................................0.", // Attributes
    *b".............................................0.......................1", // MoreAttributes
    *b".0....................................................................", // Attribute
    *b".............................................1...0...................1", // AttributeValue
    *b".1110....................1...............1...............11....1......", // Argument
    *b"..........0...........................................................", // NatureDeclaration
    *b".1.........1..................................10......................", // ParentNature
    *b".1.........1.1111.............................0.......................", // OptionalSemicolon
    *b".0.........1..........................................................", // NatureItems
    *b"............0.........................................................", // DisciplineDeclaration
    *b".............1000.....................................................", // DisciplineItems
    *b"..............012.....................................................", // DisciplineItem
    *b".0..............................................1.....................", // NatureBinding
    *b".....0................................................................", // ModuleDeclaration
    *b".........................................0....1.......................", // Ports
    *b".0........................................1...........................", // PortList
    *b"..........................................1..01.......................", // MoreNames
    *b".0....1000.......000000...0.........................................0.", // Items
    *b".0.....000.......000000...0.........................................0.", // Item
    *b".1.....000.......234567...8...........................................", // ItemBody
    *b".......012............................................................", // Direction
    *b".0...........................................11.......................", // DirectionTail
    *b"..........................................1..0........................", // SecondNode
    *b".2...................01...............................................", // OptionalType
    *b".0....................................................................", // ParameterAssignments
    *b".............................................01.......................", // MoreParameterAssignments
    *b".0....................................................................", // ParameterAssignment
    *b".......................01....................22.......................", // Ranges
    *b".........................................0.0..........................", // Interval
    *b".........................................1.0..........................", // LowerBracket
    *b"..........................................1.0.........................", // UpperBracket
    *b".222.....................2...............1.0.............22....2......", // Exclusion
    *b"..........................................1....0......................", // ExclusionRest
    *b".0....................................................................", // Variables
    *b".............................................01.......................", // MoreVariables
    *b".0....................................................................", // Variable
    *b".............................................11..0....................", // Initialiser
    *b".11........................0.1.1.1..111.......1....................1..", // AnalogItem
    *b".11....0.............00......1.1.1..111.......1....................1..", // FunctionItems
    *b".......0.............12...............................................", // FunctionItem
    *b".78..........................0.1.2..345.......9....................6..", // Statement
    *b".11..................11......111.1..111.......10...................1..", // Label
    *b".11..................00......111.1..111.......1....................1..", // Declarations
    *b".....................01...............................................", // Declaration
    *b".00..........................010.0..000.......0....................0..", // Statements
    *b".111..1111.......111111..11.11110111111..1....1..........11....1...11.", // ElseBranch
    *b".000.....................0........10.....0...............00....0......", // CaseItems
    *b".111.....................1.........0.....1...............11....1......", // CaseItem
    *b".11..........................1.1.1..111.......10...................1..", // OptionalColon
    *b".............................................0.1......................", // MoreCaseValues
    *b".......................................01.............................", // Event
    *b".........................................01...........................", // EventArguments
    *b"..........................................1..0........................", // MoreEventArguments
    *b".........................................1.......0....................", // StatementRest
    *b".........................................0....1.......................", // TaskArguments
    *b".0000....................0...............01..............00....0......", // Arguments
    *b"..........................................1..0........................", // MoreArguments
    *b".000.....................0...............0...............00....0......", // Expression
    *b".......................11.................1.1111..................0..1", // ConditionalTail
    *b".000.....................0...............0...............00....0......", // Or
    *b".......................11.................1.1111.................01..1", // OrTail
    *b".000.....................0...............0...............00....0......", // And
    *b".......................11.................1.1111................011..1", // AndTail
    *b".000.....................0...............0...............00....0......", // Equality
    *b".......................22.................2.2222..01............222..2", // EqualityTail
    *b".000.....................0...............0...............00....0......", // Relation
    *b".......................44.................4.4444..4401.23.......444..4", // RelationTail
    *b".000.....................0...............0...............00....0......", // Sum
    *b".......................22.................2.2222..2222.2201.....222..2", // SumTail
    *b".000.....................0...............0...............00....0......", // Product
    *b".......................33.................3.3333..3333.33330.12.333..3", // ProductTail
    *b".000.....................0...............0...............00....0......", // Power
    *b".......................11.................1.1111..1111.11111011.111..1", // PowerTail
    *b".333.....................3...............3...............01....2......", // Unary
    *b".340.....................1...............2............................", // Primary
    *b".......................11................01.1111..1111.11111111.111..1", // CallArguments
];
