//! A sink that never fails and allocates nothing after it was made.

ghost use Rattle.std.specs.Prelude.{◌≤◌, vec_capacity};

use crate::room::keep_within;
use avtp_base::{Failed, NoMemory};
use avtp_files::Sink;
use std::alloc::Global;

/// A sink that keeps as many bytes as fit its room, and takes all further bytes without keeping them. The sink shows
/// its bytes as long as it has kept all written bytes. Once it has dropped some bytes, it never shows bytes again.
#[derive(Debug, Drop)]
pub struct QuietSink {
    bytes: Vec<u8>,
    room: usize,
    all: bool,
    ghost reserved: { room ≤ vec_capacity bytes },
}

impl QuietSink {
    ghost use Rattle.std.specs.Prelude.{◌≡◌, IfOk};
    ghost use Rattle.avtp_memory.specs.QuietSink.{IsNew, kept};

    /// An empty sink that keeps at most `room` bytes. Memory for these bytes is reserved.
    pub fn over(alloc: Global, room: usize) -> Result<Self, NoMemory>
        ensures { IfOk result (λ sink. IsNew sink room) }
    {
        let bytes = Vec::with_capacity(alloc, room)?;
        Ok(QuietSink {
            bytes,
            room,
            all: true,
        })
    }

    /// The kept bytes.
    pub fn bytes(&self) -> &[u8]
        ensures { result.now ≡ kept self.now }
    {
        self.bytes.as_slice()
    }
}

impl Sink for QuietSink {
    ghost use Rattle.avtp_memory.specs.QuietSink.{told, TakesQuietly};

    ghost state = { λ sink. record { held = told sink; faults = 0 } };

    ghost writes = { λ old new piece result. TakesQuietly old new piece result };

    /// Never fails. Takes the whole piece, and keeps as much of it as fits.
    fn write(&mut self, piece: &[u8]) -> Result<usize, Failed> {
        let fits = keep_within(&mut self.bytes, self.room, piece);
        self.all = self.all && fits;
        Ok(piece.len())
    }
}
