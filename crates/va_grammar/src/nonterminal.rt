//! Nonterminals.
//!
//! Made by `tools/grammar_tables` from `tools/grammar/verilog_a.txt`; edit that file.
ghost use Rattle.std.specs.Prelude.{◌≡◌};
ghost use Rattle.va_grammar.specs.Nonterminals.{nonterminal_number};

/// A nonterminal of the grammar, which gives way to one of its rows.
///
/// Their numbers are those of this order, from 0.
#[derive(Clone, Copy, Debug, PartialEq, Eq)]
pub enum Nonterminal {
    /// A whole text: natures, disciplines and modules.
    Source,
    /// A nature, a discipline or a module, with its attributes.
    TopItem,
    /// A nature, a discipline or a module.
    TopItemBody,
    /// Attribute instances, each between `(*` and `*)`.
    Attributes,
    /// The attributes of an instance behind its first.
    MoreAttributes,
    /// An attribute: a name, and maybe a value.
    Attribute,
    /// The value of an attribute, if it has one.
    AttributeValue,
    /// A string or an expression.
    Argument,
    /// A nature (Natures).
    NatureDeclaration,
    /// The nature from which another is derived, if any.
    ParentNature,
    /// A semicolon, if there is one.
    OptionalSemicolon,
    /// The items of a nature, each a name and its value.
    NatureItems,
    /// A discipline (Disciplines).
    DisciplineDeclaration,
    /// The items of a discipline.
    DisciplineItems,
    /// A bound nature, or the domain.
    DisciplineItem,
    /// What is bound to a potential or a flow: a nature, or an item that overrides one of its own.
    NatureBinding,
    /// A module.
    ModuleDeclaration,
    /// The ports of a module between parentheses, if it lists any.
    Ports,
    /// The names of the ports.
    PortList,
    /// The names of a list behind its first.
    MoreNames,
    /// The items of a module.
    Items,
    /// An item of a module, with its attributes.
    Item,
    /// A declaration, or an analog block or function.
    ItemBody,
    /// `input`, `output` or `inout`.
    Direction,
    /// The names behind the first of a direction; that one is a discipline where another name follows it.
    DirectionTail,
    /// The second of the nodes between parentheses, if there is one (Branches).
    SecondNode,
    /// `real` or `integer`, if it is said.
    OptionalType,
    /// Parameters with their defaults (Parameters).
    ParameterAssignments,
    /// The parameters of a list behind its first.
    MoreParameterAssignments,
    /// A parameter, its default, and the values that it may take.
    ParameterAssignment,
    /// The values that a parameter may and may not take.
    Ranges,
    /// An interval of values.
    Interval,
    /// Where an interval begins, with its bound or behind it.
    LowerBracket,
    /// Where an interval ends, with its bound or before it.
    UpperBracket,
    /// An interval or a single value that a parameter may not take.
    Exclusion,
    /// What follows the first expression of an exclusion between parentheses: its end, or the upper bound.
    ExclusionRest,
    /// Variables with their first values.
    Variables,
    /// The variables of a list behind its first.
    MoreVariables,
    /// A variable.
    Variable,
    /// The first value of a variable, if it is given.
    Initialiser,
    /// A function (User-defined analog functions), or the statement of an analog block (Analog procedural block).
    AnalogItem,
    /// The declarations of a function.
    FunctionItems,
    /// A declaration of a function: its inputs, or variables.
    FunctionItem,
    /// A statement.
    Statement,
    /// The name of a block, if it has one (Block statements).
    Label,
    /// The variables of a block.
    Declarations,
    /// Variables of one type.
    Declaration,
    /// The statements of a block.
    Statements,
    /// The `else` of an `if`, if it has one (Conditional statements).
    ElseBranch,
    /// The items of a case (Case statements).
    CaseItems,
    /// An item of a case: its values, or the default, and a statement.
    CaseItem,
    /// A colon, if there is one.
    OptionalColon,
    /// The values of a case item behind its first.
    MoreCaseValues,
    /// An event (Events).
    Event,
    /// The analyses of an event between parentheses, if it lists any.
    EventArguments,
    /// The analyses behind the first.
    MoreEventArguments,
    /// What follows the name with which a statement begins: an assignment, or the access of a contribution (Contribution statements).
    StatementRest,
    /// The arguments of a system task between parentheses, if it has any.
    TaskArguments,
    /// The arguments of a call.
    Arguments,
    /// The arguments behind the first.
    MoreArguments,
    /// An expression (Expressions).
    Expression,
    /// The two choices of `?:`, if the expression has them.
    ConditionalTail,
    /// Operands of `||`.
    Or,
    /// The operators `||` and operands behind the first.
    OrTail,
    /// Operands of `&&`.
    And,
    /// The operators `&&` and operands behind the first.
    AndTail,
    /// Operands of `==` and `!=`.
    Equality,
    /// The operators `==` and `!=` and operands behind the first.
    EqualityTail,
    /// Operands of `<`, `<=`, `>` and `>=`.
    Relation,
    /// The operators `<`, `<=`, `>` and `>=` and operands behind the first.
    RelationTail,
    /// Operands of `+` and `-`.
    Sum,
    /// The operators `+` and `-` and operands behind the first.
    SumTail,
    /// Operands of `*`, `/` and `%`.
    Product,
    /// The operators `*`, `/` and `%` and operands behind the first.
    ProductTail,
    /// Operands of `**`.
    Power,
    /// The operators `**` and operands behind the first.
    PowerTail,
    /// An operand with its signs.
    Unary,
    /// An operand without signs.
    Primary,
    /// The arguments of a call between parentheses, if it is one.
    CallArguments,
}

impl Nonterminal {
    /// The number of the nonterminal, as the parser knows it.
    pub fn number(self) -> u16
        ensures { result ≡ nonterminal_number self }
    {
        self as u16
    }
}
