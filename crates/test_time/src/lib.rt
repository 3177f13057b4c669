//! Tests of instants, stamps and media clocks: rows that were worked out by hand.
#![tactic(auto)]

#[cfg(test)]
mod clocks;
#[cfg(test)]
mod instants;
#[cfg(test)]
mod stamps;
