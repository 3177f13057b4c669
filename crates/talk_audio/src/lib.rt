//! The packets of a stream of audio, PCM or AM824, made from raw samples.
#![tactic(auto)]

mod am824;
mod audio;
mod pcm;

pub use audio::AudioStream;
