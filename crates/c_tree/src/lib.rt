//! C files as trees, with their text, their raw trees with the rules of form, and their tables.
//!
//! The program so far prints the short file of the module `short`: structs, evaluation and the load of the resistive residuals.
//! The whole file, which `CFile` holds, stands beside it.
#![tactic(auto)]

pub mod body;
pub mod file;
pub mod laws;
pub mod load;
pub mod short;
pub mod table;
pub mod token;
pub mod token_worked;
pub mod worked;
pub mod worked_form;

pub use body::{CAtom, CCallee, CCell, CField, COperator, CRight, CSimple, CStatement, Level};
pub use file::{AccessRow, CArgument, CFile, CFunction, CModule};
pub use load::{CLoad, CLoads, LoadFactor, LoadFunction, LoadSign, LoadTarget};
pub use table::{EntryRow, FieldRow, NodeRow, PairRow, ParamKind, ParamRow};
