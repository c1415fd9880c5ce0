//! The outside: files that are read by name, and sinks that are written. Each has an implementation in memory, whose
//! content contracts can name and whose failures are planned, and one over the real thing.
#![tactic(auto)]

pub mod dir_files;
pub mod files;
pub mod mem_files;
pub mod mem_sink;
mod numbered_calls;
pub mod sink;
pub mod std_sink;

pub use dir_files::DirFiles;
pub use files::{FileErr, Files};
pub use mem_files::MemFiles;
pub use mem_sink::MemSink;
pub use sink::{Sink, SinkErr, write_all};
pub use std_sink::StdSink;
