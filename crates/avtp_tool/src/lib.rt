//! The command `avtp`: from words and captures to text and a status.
#![tactic(auto)]

mod command;
mod device_words;
mod files;
mod law;
mod record;
mod show;
mod soak;

pub use command::run;
pub use device_words::{DeviceWord, device_word, raw_silence};
pub use law::pcapng_reports;
