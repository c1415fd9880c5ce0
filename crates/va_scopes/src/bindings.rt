//! What names are declared as.
ghost use Rattle.std.specs.Prelude.{◌≡◌};
ghost use Rattle.va_sem.specs.Scopes as sem;

use va_sem::builtin::{builtin_at, builtin_row};

/// What a name is declared as, where an alias counts by what it leads to (Lexical conventions, Aliasparam).
#[derive(Clone, Copy, Debug, PartialEq, Eq)]
pub enum Kind {
    Node,
    Branch,
    Parameter,
    Variable,
    Function,
    Label,
    /// An alias that leads to no parameter.
    Nothing,
}

/// What is seen under a name: the token of its declaration, and what it is declared as.
#[derive(Clone, Copy, Debug, PartialEq, Eq)]
pub struct Seen {
    pub at: u32,
    pub kind: Kind,
}

/// A name and what is seen under it.
#[derive(Clone, Copy, Debug)]
pub struct Binding<'a> {
    pub name: &'a [u8],
    pub seen: Seen,
}

/// Whether a name is that of a built-in function, which can't be declared.
pub fn is_builtin(name: &[u8]) -> bool
    ensures { result ≡ sem.is_builtin name.now }
{
    match builtin_row(name) {
        None => false,
        Some(row) => builtin_at(row).is_some(),
    }
}
