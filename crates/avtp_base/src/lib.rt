//! The base of every crate: refusals, numbers in bytes, and the state of files and devices as contracts see it.
#![tactic(auto)]

mod buffer;
mod bytes;
mod failed;
mod field;
pub mod octets;
mod refusal;
pub mod rows;
mod spelled;

pub use buffer::Buffer;
pub use bytes::Bytes;
pub use failed::{Failed, FaultPlace, NoMemory, OpenFault};
pub use field::Field;
pub use refusal::{Refusal, Room};
pub use spelled::Spelled;
