//! Tests of the schedule of a stream: what is shown of a list of packets, worked out by hand.
#![tactic(auto)]

#[cfg(test)]
mod captured;
#[cfg(test)]
mod cases;
#[cfg(test)]
mod clocks;
#[cfg(test)]
mod order;
#[cfg(test)]
mod stamps;
