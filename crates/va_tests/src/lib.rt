//! Tests of the crates that read a Verilog-A text: its tokens, its expansion, its grammar, its source tree with the limits of
//! size, what names mean, and the first form.
#![tactic(auto)]

#[cfg(test)]
mod changed_tokens;
#[cfg(test)]
mod expansion;
#[cfg(test)]
mod expansion_files;
#[cfg(test)]
mod expansion_limits;
#[cfg(test)]
mod expansion_rows;
#[cfg(test)]
mod form;
#[cfg(test)]
mod grammar;
#[cfg(test)]
mod lexer;
#[cfg(test)]
mod reading;
#[cfg(test)]
mod sem_builtins;
#[cfg(test)]
mod sem_checked;
#[cfg(test)]
mod sem_kinds;
#[cfg(test)]
mod shown;
#[cfg(test)]
mod sizes;
#[cfg(test)]
mod source;
