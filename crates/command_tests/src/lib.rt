//! Tests of the commands over files and sinks in memory.
#![tactic(auto)]

#[cfg(test)]
mod answers;
#[cfg(test)]
mod commands;
#[cfg(test)]
mod compile;
#[cfg(test)]
mod faulty;
#[cfg(test)]
mod read;
#[cfg(test)]
mod samples;
