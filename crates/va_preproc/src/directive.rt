//! Compiler directives by their names.

/// What a directive does (Compiler directives).
#[derive(Clone, Copy, Debug, PartialEq, Eq)]
pub enum Directive {
    /// Defines a macro.
    Define,
    /// Takes a macro's definition away.
    Undef,
    /// Opens text that is read where a name is defined.
    Ifdef,
    /// Opens text that is read where a name is not defined.
    Ifndef,
    /// Ends an arm of conditional text, and begins one that is read where no earlier one was and a name is defined.
    Elsif,
    /// Ends an arm of conditional text, and begins one that is read where no earlier one was.
    Else,
    /// Closes conditional text.
    Endif,
    /// Puts a file in its place.
    Include,
    /// Has no effect here.
    Ignored,
}
