//! Tests of devices, of racks of devices, and of the ring through which a receiver hands items to a presenter.
#![tactic(auto)]

#[cfg(test)]
mod files;
#[cfg(test)]
mod gaps;
#[cfg(test)]
mod items;
#[cfg(test)]
mod racks;
#[cfg(test)]
mod rings;
