//! The outside of the tool: files, input and output, each behind a trait whose meanings say what it
//! holds and how often it failed.
#![tactic(auto)]

mod files;
mod memory;
mod safe;
mod schedule;
mod sink;
mod source;
mod std_files;
mod std_streams;

pub use files::{FileFault, Files, Got};
pub use memory::{MemFiles, MemSink, MemSource};
pub use safe::{SafeFiles, SafeSink, SafeSource};
pub use sink::{Sink, SinkFault, write_all};
pub use source::{Failed, Source};
pub use std_files::DirFiles;
pub use std_streams::{StdSink, StdSource};

#[cfg(test)]
mod tests;
