//! Tests of the gateway as a library: what a scan finds, where batches are cut, and what a listener presents from the
//! frames.
#![tactic(auto)]

#[cfg(test)]
mod captures;
#[cfg(test)]
mod checking;
#[cfg(test)]
mod hearing;
#[cfg(test)]
mod pieces;
#[cfg(test)]
mod scans;
#[cfg(test)]
mod streams;
#[cfg(test)]
mod turning;
