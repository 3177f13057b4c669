//! Observers of the steps of a ring.

/// The side of a ring where a step is made.
#[derive(Clone, Copy, Debug, PartialEq, Eq)]
pub enum Side {
    /// An item was put into the ring.
    Push,
    /// An item was taken out of the ring.
    Pop,
}

/// Called after each push and each pop. The steps of each side are numbered from 1.
pub trait Gate: Sync {
    fn step(&self, side: Side, number: u64);
}

/// A gate that does nothing.
#[derive(Clone, Copy, Debug)]
pub struct NoGate;

impl Gate for NoGate {
    fn step(&self, _side: Side, _number: u64) {}
}
