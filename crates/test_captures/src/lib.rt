//! Tests of captures and files: frames, captures that are read and written, and files in memory and on disk.
#![tactic(auto)]

#[cfg(test)]
mod captures;
#[cfg(test)]
mod files;
#[cfg(test)]
mod frames;
#[cfg(test)]
mod reading;
