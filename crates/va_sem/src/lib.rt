//! What a source tree means, as far as it is known without values: the meanings of its names, the types of its expressions,
//! the rules that it keeps, the kinds of its branches and its unknowns.
#![tactic(auto)]

mod bias;
pub mod branch;
mod branch_set;
pub mod builtin;
pub mod checked;
mod contributions;
mod coverage;
mod findings;
mod influence;
pub mod kinds;
pub mod laws;
pub mod names;
pub mod pattern;
pub mod reach_laws;
pub mod rule_laws;
pub mod rules_worked;
mod surveys;
pub mod typed;
pub mod worked;

pub use alg_laws::Ty;
pub use branch::{BranchKind, Unknown};
pub use builtin::{Builtin, SystemFunction, SystemName};
pub use checked::Checked;
pub use names::{BranchName, Meaning, ModuleNames, NameUse, Names, NodeName};
pub use pattern::{Pattern, PatternEntry};
pub use typed::Typed;
