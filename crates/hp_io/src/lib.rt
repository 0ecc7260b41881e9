//! Where a run reads and writes: folders of files, and sinks that take bytes.
#![tactic(auto)]

mod folder;
mod host;
mod mem_folder;
mod mem_sink;
mod schedule;
mod sink;

pub use folder::{BeginError, Failed, Folder, Input};
pub use host::{HostFolder, HostSink};
pub use mem_folder::MemFolder;
pub use mem_sink::MemSink;
pub use sink::Sink;
