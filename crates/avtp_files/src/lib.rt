//! A trait for files and a trait for text output, and their implementations over real files and standard output.
#![tactic(auto)]

mod fault_teller;
mod file_identity;
mod file_shelf;
mod file_sink;
mod part;
mod shelf;
mod sink;
pub mod slots;
mod std_sink;

pub use fault_teller::FaultTeller;
pub use file_shelf::FileShelf;
pub use file_sink::FileSink;
pub use shelf::{Shelf, Slot};
pub use sink::Sink;
pub use std_sink::StdSink;
