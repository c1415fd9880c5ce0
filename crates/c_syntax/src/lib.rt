//! Reads C files: their tokens, and whether the grammar spells them.
#![tactic(auto)]

mod bytes;
pub mod c_rows;
pub mod error;
pub mod fault_place;
pub mod front;
pub mod kind_names;
pub mod kinds;
pub mod number;
pub mod row_tables;
pub mod syntax;
pub mod token_list;

pub use c_rows::CRows;
pub use error::CErr;
pub use fault_place::place;
pub use syntax::{ParsedFile, parse_file};
pub use token_list::{TokenErr, tokens};
