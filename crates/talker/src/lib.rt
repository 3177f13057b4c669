//! A talker: the packets of a stream, made from raw samples or from a byte stream of H.264, and those of its media clock.
#![tactic(auto)]

pub mod examples;
pub mod laws;
mod sent;
mod source;
mod talker;
mod turn;

pub use sent::Sent;
pub use talk_plan::{CrfPlan, TalkFault, TalkKind, TalkPlan};
pub use talker::Talker;
pub use turn::Turn;
