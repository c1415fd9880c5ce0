//! The commands of the program: what the words of a command line ask for, over any files and sinks.
#![tactic(auto)]

pub mod command;
mod compile;
mod due;
mod file_name;
mod front;
mod read_file;
mod request;
pub mod status;

pub use command::run;
pub use status::Status;
