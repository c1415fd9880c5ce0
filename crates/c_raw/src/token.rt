//! What stands at a token.

/// A value with the token at which it stands, or with the first of its tokens. `at` is the token's index among the tokens of the
/// text, counted from 0.
#[derive(Clone, Copy, Debug, PartialEq, Eq)]
pub struct At<T> {
    pub at: u32,
    pub value: T,
}
