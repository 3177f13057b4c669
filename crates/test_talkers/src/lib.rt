//! Tests of the talker: the frames of each kind of plan, and the inputs that it refuses.
#![tactic(auto)]

#[cfg(test)]
mod audio;
#[cfg(test)]
mod blocks;
#[cfg(test)]
mod clock;
#[cfg(test)]
mod faults;
#[cfg(test)]
mod frames;
#[cfg(test)]
mod plans;
#[cfg(test)]
mod vectors;
#[cfg(test)]
mod video;
