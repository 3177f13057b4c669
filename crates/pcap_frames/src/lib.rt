//! Captures in the classic pcap layout, in pieces of any length, and Ethernet frames.
#![tactic(auto)]

mod frame;
mod law;
mod layout;
pub mod numbers;
pub mod part;
mod pieces;
mod reader;
mod style;
mod writer;

pub use frame::{
    FrameView, Tag, frame_again, one_frame, one_frame_spelling, read_frame, write_frame,
};
pub use law::{capture_again, one_capture};
pub use pieces::{Contents, KeptRecord, read_pieces};
pub use reader::Reader;
pub use style::{Order, RecordView, Style, Unit};
pub use writer::{record_header, write_header, write_record};
