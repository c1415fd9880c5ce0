//! Tests of the crates that all others stand on: `va_base`, `va_io`, `predict`, `alg_run` and `graphs`.
#![tactic(auto)]

#[cfg(test)]
mod computing;
#[cfg(test)]
mod files;
#[cfg(test)]
mod grammars;
#[cfg(test)]
mod parsing;
#[cfg(test)]
mod reaching;
#[cfg(test)]
mod sinks;
#[cfg(test)]
mod values;
