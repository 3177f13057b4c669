//! Readers of captures and writers of files, over a shelf.
#![tactic(auto)]

mod capture_reader;
mod capture_writer;
mod contents;
mod end;
mod feed;
mod file_writer;
mod law;
mod pieces;
mod source;

pub use capture_writer::CaptureWriter;
pub use contents::{Contents, read_contents};
pub use end::{End, Stop};
pub use file_writer::FileWriter;
pub use law::{captures_are_written_beside_others, classic_again};
pub use source::Source;
