//! Tests of the crates for receivers: listeners, deliveries over a bad network and their counts, and the findings in a
//! stream's packets.
#![tactic(auto)]

#[cfg(test)]
mod captures;
#[cfg(test)]
mod deliveries;
#[cfg(test)]
mod findings;
#[cfg(test)]
mod hearing;
#[cfg(test)]
mod instants;
#[cfg(test)]
mod packets;
#[cfg(test)]
mod records;
#[cfg(test)]
mod units;
