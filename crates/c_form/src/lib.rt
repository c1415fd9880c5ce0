//! Rules of form of a C text, asked of its raw tree: which is the least token that breaks one. Six of the nine stand here:
//! numbering, fields, locals, breaks, calls and tables.
//!
//! A rule is a module of this crate, whose function `.._fault` answers the token. It walks the flat lists of statements with a
//! list of open blocks, so no nesting of a text needs a stack that is as deep.
#![tactic(auto)]

pub mod again;
mod argument_uses;
pub mod arguments;
pub mod atoms;
pub mod blame;
pub mod body;
pub mod breaks;
pub mod calls;
mod cell_checks;
pub mod cell_types;
pub mod closed;
mod count;
mod declarations;
mod descriptors;
mod entries;
mod field;
mod field_names;
mod field_rows;
pub mod fields;
pub mod items;
pub mod kinds;
pub mod locals;
pub mod numbering;
mod ranges;
pub mod scope;
pub mod tables;
pub mod walk;
