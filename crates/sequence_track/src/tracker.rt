//! The streams of a capture.

ghost use Rattle.std.specs.Prelude.{◌≡◌, ◌∷◌, ◌++◌, [], List, IfOk, length};
ghost use Rattle.sequence_track.specs.Findings.{findings, tracked};
ghost use Rattle.sequence_track.specs.Tracking.{StandsFor};
ghost use Rattle.sequence_track.specs.declared.seen.Seen.{Seen as SeenValue};

use crate::seen::{Findings, Seen};
use crate::stream::{StreamKey, StreamState, first_findings};
use avtp_base::NoMemory;
use std::alloc::Global;
use std::collections::HashMap;
use std::marker::Model;

/// The greatest number of streams that are tracked.
const MOST_STREAMS: usize = 1024;

/// The state of each of the first 1,024 streams.
#[derive(Drop)]
pub struct Tracker {
    streams: HashMap<StreamKey, StreamState>,
}

impl Model for Tracker {
    ghost use Rattle.std.specs.Prelude.{◌+◌, ◌≤◌, List};
    ghost use Rattle.std.specs.HashMap.{hash_map_len, spare};
    ghost use Rattle.sequence_track.specs.declared.stream.StreamKey.{StreamKey};
    ghost use Rattle.sequence_track.specs.declared.stream.StreamState.{StreamState};
    ghost use Rattle.sequence_track.specs.Findings.{most_streams};

    ghost Value = { List (StreamKey × StreamState) };

    ghost view = { λ tracker. tracker.streams.entries };

    ghost invariant = { λ tracker. (hash_map_len tracker.streams ≤ most_streams)
        × (most_streams ≤ hash_map_len tracker.streams + spare tracker.streams) };
}

impl Tracker {
    /// A tracker that has noted no packet. Memory is reserved for 1,024 streams.
    pub fn begin(alloc: Global) -> Result<Self, NoMemory>
        ensures begun { IfOk result (λ tracker. StandsFor tracker []) }
    {
        let streams = HashMap::with_capacity(alloc, MOST_STREAMS)?;
        Ok(Tracker { streams })
    }

    /// Notes a packet that has a valid stream ID, and returns the findings in it. Allocates nothing.
    pub fn note(&mut self, seen: Seen) -> Findings
        ensures noted { (notes : List SeenValue) → StandsFor self.old notes → StandsFor self.new (notes ++ seen ∷ []) }
        ensures found { (notes : List SeenValue) → StandsFor self.old notes → result ≡ findings notes seen }
    {
        let stream = seen.stream();
        if let Some(state) = self.streams.get_mut(&stream) {
            let findings = state.findings(&seen);
            *state = state.after(&seen);
            return findings;
        }
        if self.streams.len() == MOST_STREAMS {
            return Findings::of_untracked(&seen);
        }
        let Ok(_) = self.streams.insert(stream, StreamState::first(&seen)) else {
            unreachable!()
        };
        first_findings(&seen)
    }

    /// The number of streams that are tracked.
    pub fn streams(&self) -> u32
        ensures { (notes : List SeenValue) → StandsFor self.now notes → result ≡ length (tracked notes) }
    {
        self.streams.len() as u32
    }
}
