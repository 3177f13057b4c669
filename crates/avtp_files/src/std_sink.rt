//! A sink over standard output.

ghost use Rattle.std.specs.Prelude.{◌≡◌, None};

use crate::sink::Sink;
use avtp_base::Failed;
use std::io::Write;

/// Standard output, or another writer of the system. Contracts do not see what the writer holds. If the writer shows
/// its bytes, a write adds exactly the bytes that the call reports.
#[derive(Drop)]
pub struct StdSink<W> {
    writer: W,
    faults: u64,
}

impl<W: Write + Drop> StdSink<W> {
    pub fn new(writer: W) -> Self
        ensures { result.faults ≡ 0 }
    {
        StdSink { writer, faults: 0 }
    }
}

impl<W: Write + Drop> Sink for StdSink<W> {
    ghost use Rattle.std.specs.Io.KnownBytes.{WriteAppends};

    ghost state = { λ sink. record { held = None; faults = sink.faults } };

    ghost writes = { λ old new piece result. WriteAppends (W.contents old.writer) (W.contents new.writer) result piece };

    fn write(&mut self, piece: &[u8]) -> Result<usize, Failed> {
        match self.writer.write(piece) {
            Ok(taken) if taken > 0 => Ok(taken),
            _ => {
                self.faults = self.faults.saturating_add(1);
                Err(Failed)
            }
        }
    }
}
