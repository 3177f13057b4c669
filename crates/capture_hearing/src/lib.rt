//! A capture that is read into a listener, which shows the items one by one.
#![tactic(auto)]

mod hearing;

pub use hearing::{Heard, Hearing, Stage};
