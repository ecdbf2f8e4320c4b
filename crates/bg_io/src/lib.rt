//! The outside: files and sinks that count their faults, whole texts read and written, and the
//! same in memory, without faults, and over the system.
#![tactic(auto)]

mod calls;
mod errors;
mod mem_files;
mod mem_sink;
mod no_fail;
mod outside;
mod reading;
mod stored;
mod system;
mod writing;

pub use errors::{Failed, ReadError, WriteFault};
pub use mem_files::MemFiles;
pub use mem_sink::MemSink;
pub use no_fail::{NoFailFiles, NoFailSink};
pub use outside::{Files, Sink};
pub use reading::read_all;
pub use stored::StoredFile;
pub use system::{RealFiles, StdSink};
pub use writing::write_all;
