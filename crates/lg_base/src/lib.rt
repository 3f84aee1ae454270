//! What every crate of lgparse stands on: texts, costs, lists, and the files and sinks that a run reads and writes.
#![tactic(auto)]

pub mod cost;
pub mod files;
pub mod host;
pub mod list;
pub mod mem_files;
pub mod mem_sink;
pub mod memory;
pub mod printing;
pub mod sinks;
pub mod steps;
pub mod text;

pub use cost::{Cost, cost_number_laws, parse_cost, write_cost};
pub use files::{FileError, Files};
pub use host::{HostFiles, HostSink};
pub use list::List;
pub use mem_files::MemFiles;
pub use mem_sink::MemSink;
pub use memory::NoMemory;
pub use printing::{write_bytes, write_number};
pub use sinks::{Sink, SinkFault};
pub use steps::{Own, Steps};
pub use text::{Codes, Numbers, Text, Texts, copied};
