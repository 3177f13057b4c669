//! Tests of the packet formats: what is read from packets, and how NAL units are put together from fragments.
#![tactic(auto)]

#[cfg(test)]
mod assembled;
#[cfg(test)]
mod codes;
#[cfg(test)]
mod packets;
#[cfg(test)]
mod refusals;
#[cfg(test)]
mod units;
