//! Tests of the command: transcripts of runs over files in memory.
#![tactic(auto)]

#[cfg(test)]
mod agree;
#[cfg(test)]
mod check;
#[cfg(test)]
mod devices;
#[cfg(test)]
mod faults;
#[cfg(test)]
mod gateway;
#[cfg(test)]
mod listen;
#[cfg(test)]
mod losses;
#[cfg(test)]
mod program;
#[cfg(test)]
mod recipe;
#[cfg(test)]
mod rings;
#[cfg(test)]
mod runs;
#[cfg(test)]
mod show;
#[cfg(test)]
mod talk;
#[cfg(test)]
mod transcript;
