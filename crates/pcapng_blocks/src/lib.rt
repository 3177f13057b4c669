//! The blocks and options of captures in the pcapng layout: their fields, their lengths, and which fields are refused.
#![tactic(auto)]

mod block;
mod interface;
mod interfaces;
pub mod layout;
pub mod packet;
pub mod refusals;

pub use block::{Kind, Stage};
pub use interface::{Interface, MICROSECONDS};
pub use interfaces::{INTERFACE_LIMIT, Interfaces};
