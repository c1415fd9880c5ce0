//! What every crate speaks of: places, names, lists, files as values, tokens, numerals, faults, and want of memory.
#![tactic(auto)]

pub mod bytes;
pub mod exact;
pub mod expanded;
pub mod fault;
pub mod file;
pub mod items;
pub mod memory;
pub mod name;
pub mod numeral;
pub mod phase_err;
pub mod place;
pub mod token;
pub mod worked;

pub use exact::Decimal;
pub use expanded::Expanded;
pub use fault::{Fault, FaultCode, Phase, before};
pub use file::FileText;
pub use items::Items;
pub use memory::NoMemory;
pub use name::Name;
pub use numeral::{decimal, numeral_len};
pub use phase_err::PhaseErr;
pub use place::Place;
pub use token::{Token, TokenKind};
