//! An AVTP packet, in the format that its subtype names (IEEE 1722-2016, table 6).
#![tactic(auto)]

mod packet;
mod packet_stream;
mod stamp_pattern;

pub use packet::{Packet, read_packet};
pub use packet_stream::{PacketStream, reserved, stream_of};
pub use stamp_pattern::stamp_is_wrong;
