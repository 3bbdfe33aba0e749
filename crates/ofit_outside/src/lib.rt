//! What the suite asks of the world outside: folders that files are fetched from, and sinks that
//! text is put into. Each kind has one in memory, for tests, whose failures are chosen beforehand,
//! and one over the real thing.
#![tactic(auto)]

mod disk_folder;
mod folder;
mod mem_folder;
mod mem_sink;
mod reading;
mod schedule;
mod sink;
mod std_sink;
mod writing;

pub use disk_folder::DiskFolder;
pub use folder::{FetchFault, Folder};
pub use mem_folder::MemFolder;
pub use mem_sink::MemSink;
pub use sink::{PutFault, Sink};
pub use std_sink::StdSink;
