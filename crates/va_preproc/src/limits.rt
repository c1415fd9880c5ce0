//! The limits of an expansion.

/// The limits of an expansion: how many tokens are read, how many the result has, its end aside, how many uses of macros and
/// how many includes are open inside each other, and how many bytes a file has.
#[derive(Clone, Copy, Debug)]
pub struct Limits {
    pub read: u32,
    pub result: u32,
    pub uses: u32,
    pub includes: u32,
    pub bytes: u32,
}
