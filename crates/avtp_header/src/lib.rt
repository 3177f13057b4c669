//! The common stream header of AVTP (IEEE 1722-2016, 4.4.4).
#![tactic(auto)]

mod header;
pub mod laws;
mod reader;
pub mod subtype;
mod writer;

pub use header::{ETHERTYPE, Peeked, StreamHeader};
pub use reader::{exceeds, peek, peek_subtype, read_header_of, read_stream_header};
pub use writer::{header_bytes, write_stream_header};
