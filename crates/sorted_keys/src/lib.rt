//! Keys of the batches that wait for their instants. The keys are sorted and kept in blocks, so that few keys are moved
//! if a batch arrives out of order.
#![tactic(auto)]

mod block;
mod blocks;
mod key;
mod sorted_keys;

pub use key::Key;
pub use sorted_keys::SortedKeys;
