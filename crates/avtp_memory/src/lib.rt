//! Files and text output in memory: shelves and sinks for tests, and for programs that need no files.
#![tactic(auto)]

mod asked_names;
mod calls;
mod memory_files;
mod memory_shelf;
mod memory_sink;
mod named_files;
mod open_file;
mod quiet_shelf;
mod quiet_sink;
mod room;

pub use memory_shelf::MemoryShelf;
pub use memory_sink::MemorySink;
pub use quiet_shelf::QuietShelf;
pub use quiet_sink::QuietSink;
