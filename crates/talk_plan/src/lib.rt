//! What a talker sends, and when: plans, the times and the timestamps of their packets, and the headers that all packets share.
#![tactic(auto)]

mod ethernet;
mod fault;
pub mod laws;
mod plan;
mod timing;

pub use ethernet::{ETHERNET_HEADER, write_ethernet};
pub use fault::TalkFault;
pub use plan::{CrfPlan, TalkKind, TalkPlan};
