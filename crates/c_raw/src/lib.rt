//! The raw tree of a C text: what its rows of the grammar hold, with each number that it writes, and with the index of the token at
//! which each number and name stands. The rules of form speak of it (see `c_tree`); a `CFile` keeps what does not follow from
//! them.
//!
//! `specs/Views.antt` says which raw tree of `c_tree` a value of these types is.
#![tactic(auto)]

pub mod body;
pub mod field_names;
pub mod file;
pub mod load;
pub mod table;
pub mod token;
pub mod worked;

pub use body::{RawRight, RawSimple, RawStatement};
pub use file::{
    RawAccess, RawArgument, RawDescriptor, RawField, RawFile, RawFunction, RawModule, RawSizes,
};
pub use load::{RawLoad, RawLoads};
pub use table::{RawEntry, RawNode, RawPair, RawParam};
pub use token::At;
