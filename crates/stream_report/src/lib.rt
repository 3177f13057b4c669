//! What is counted for each AVTP stream of a capture, and what is wrong with the stream.
#![tactic(auto)]

mod facts;
mod limits;
mod order;
mod others;
mod pace;
mod rate;
mod sequence;
mod stream;
mod tally;
mod trace;
mod trend;
mod verdict;
mod verdicts;

pub use facts::{Facts, Format, Labels, aaf_facts, crf_facts, h264_facts, iec_facts, subtype_name};
pub use order::Order;
pub use others::{Other, OtherCount, Others, other_frame, unread_format};
pub use pace::{Advance, Miss, Misses, Pace, Stamp, Stamped};
pub use rate::{Beat, Rate};
pub use sequence::{Place, Window, places_tell_what_is_lost};
pub use stream::{Came, FieldCount, Sender, Stream, StreamKey};
pub use tally::{At, Tally};
pub use trace::{Column, Range, Trace};
pub use trend::Trend;
pub use verdict::{ClockGuess, Verdict};
pub use verdicts::{Class, class_of, drift_of, verdicts_of};
