//! The schedule of a stream: which packets of a list are presented, at which nanosecond, and why the others are not.
#![tactic(auto)]

mod accepted;
mod batch;
mod entry;
mod head;
mod instants;
mod item;
pub mod laws;
mod noted;
mod plan;
mod shown;
mod timing;

pub use accepted::Accepted;
pub use batch::Batch;
pub use entry::Entry;
pub use instants::Instant;
pub use item::{Bad, Item, Packet, Unit};
pub use noted::Noted;
pub use plan::SchedulePlan;
pub use shown::{Reason, Shown};
pub use time_unfold::HeadRule;
pub use timing::timed;
