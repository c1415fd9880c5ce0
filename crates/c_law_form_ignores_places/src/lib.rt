//! Whether a C text breaks a rule of form depends on what it writes alone, and not on where it stands; and what it writes beside
//! its file is what the rules ask for. The laws are the contracts of functions with nothing to do.
#![tactic(auto)]

pub mod laws;

pub use laws::{
    form_forces_numbers, form_of_files, form_of_trees, places_do_not_matter, repeats_do_not_matter,
    trees_worked_by_hand,
};
