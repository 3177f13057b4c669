//! Reads the words of the command line. The result is a command with its options and names, or the position of what is
//! wrong.
#![tactic(auto)]

mod agree;
mod command;
mod crf;
mod device;
mod gateway;
mod limits;
mod listen;
mod listener;
mod operand;
mod rule;
mod talk;

pub use agree::Agree;
pub use command::{Command, Offence, parse};
pub use crf::Crf;
pub use device::{DeviceFile, RawFile, Silence};
pub use gateway::{Gateway, GatewayFormat};
pub use listen::Listen;
pub use listener::ListenerOptions;
pub use talk::{Kind, Talk};
