//! Tests of the crates that compare two listeners: batches one by one, records of two captures, and bytes of two
//! captures.
#![tactic(auto)]

#[cfg(test)]
mod batches;
#[cfg(test)]
mod bytes;
#[cfg(test)]
mod matching;
#[cfg(test)]
mod records;
#[cfg(test)]
mod told;
