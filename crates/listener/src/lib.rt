//! A listener of one stream. From the bytes of a capture, the listener finds three things: which packets of the stream
//! are presented, at which nanosecond, and why the other packets are not presented.
#![tactic(auto)]

mod blocks;
mod buffer_pool;
mod capture;
mod clock;
mod delivery;
mod delivery_view;
mod heard;
mod item;
pub mod laws;
mod listener;
mod plan;
mod record_listener;
mod units;

pub use capture::whole;
pub use delivery::{StreamPacket, packet_of_stream};
pub use heard::{Counts, Heard, ShownList};
pub use listener::{ListenFault, Listener};
pub use plan::ListenPlan;
pub use record_listener::RecordListener;
