//! Hands the items of a receiver, through a ring, to a presenter in another thread.
#![tactic(auto)]

mod back;
mod ending;
mod front;
mod gate;
mod pipe;
mod presenter;
mod receiver;
mod turns;

pub use gate::{Gate, NoGate, Side};
pub use pipe::{Pipe, Round};
pub use presenter::Presenter;
pub use receiver::{Pull, Receiver};
