//! Finds where two captures of one stream present different samples.
#![tactic(auto)]

mod pair;
mod record_pair;
mod sides;
mod source;

pub use pair::Pair;
pub use record_pair::RecordPair;
