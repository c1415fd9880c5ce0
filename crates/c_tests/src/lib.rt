//! Tests of the crates that have the C file: its tree, its text, and the way from a text back to the tree.
#![tactic(auto)]

#[cfg(test)]
mod form;
#[cfg(test)]
mod form_reach;
#[cfg(test)]
mod form_settings;
#[cfg(test)]
mod form_types;
#[cfg(test)]
mod marked;
#[cfg(test)]
mod print;
#[cfg(test)]
mod raw;
#[cfg(test)]
mod raw_file;
#[cfg(test)]
mod reader;
#[cfg(test)]
mod rules;
#[cfg(test)]
mod runs;
#[cfg(test)]
mod sample;
#[cfg(test)]
mod short;
#[cfg(test)]
mod syntax;
#[cfg(test)]
mod tables;
#[cfg(test)]
mod texts;
#[cfg(test)]
mod tree;
