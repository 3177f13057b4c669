//! What a command works with.

use avtp_files::{Shelf, Sink};
use avtp_text::Text;
use std::alloc::Global;

/// The files that a command reads and makes, the text that it builds, and the sink that the text is written to.
///
/// A command takes its context by value. In its contract, `context.entry` is what the command was given. After the
/// command, `context.exit.0` is the shelf, `context.exit.1.0` is the text, and `context.exit.1.1.0` is the sink.
#[derive(Drop)]
pub struct Context<'f, 't, 's, F: Shelf, S: Sink> {
    pub shelf: &'f mut F,
    pub text: &'t mut Text,
    pub out: &'s mut S,
}

/// What a command takes from the machine: threads, memory, and the gate, which observes the steps of a ring.
#[derive(Drop)]
pub struct Machine<'a, T, G> {
    pub rt: &'a T,
    pub alloc: Global,
    pub gate: &'a G,
}
