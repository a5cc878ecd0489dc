//! The outside, as two traits: files by name, and a sink for what is reported.
//!
//! `Files` and `Sink` say what a caller may rely on of every implementation: what is told of contents, and when a fault
//! may be answered, by counts of faults that never fall. `MemFiles` and `MemSink` keep all in memory, tell their
//! contents and fail where they are asked to. `HostFiles` and `HostOut` are the trusted edge: the files and the standard
//! output of the host, of whose contents nothing is told.
#![tactic(auto)]

mod failing_put;
mod files;
mod host_files;
mod host_out;
mod mem_files;
mod mem_sink;
mod sink;
mod stored_file;
mod transfer;

pub use files::{Files, LoadFault, SaveFault};
pub use host_files::HostFiles;
pub use host_out::HostOut;
pub use mem_files::MemFiles;
pub use mem_sink::MemSink;
pub use sink::{Sink, SinkFault};
