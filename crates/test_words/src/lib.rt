//! Tests of command lines and of printed lines: which command each command line asks for, and how each line is printed.
#![tactic(auto)]

#[cfg(test)]
mod lines;
#[cfg(test)]
mod packets;
#[cfg(test)]
mod rows;
#[cfg(test)]
mod told;
#[cfg(test)]
mod words;
