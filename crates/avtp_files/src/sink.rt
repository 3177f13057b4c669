//! Sinks, which take text.

ghost use Rattle.std.specs.Prelude.{◌<◌, length};
ghost use Rattle.avtp_files.specs.SinkCalls.{WritesPiece};

use avtp_base::Failed;

/// A writer that appends bytes and counts its faults.
pub trait Sink {
    ghost use Rattle.std.specs.Prelude.{ℕ, List, Result};
    ghost use Rattle.avtp_base.specs.declared.failed.Failed.{Failed};
    ghost use Rattle.avtp_base.specs.States.{SinkState};

    /// The bytes that the sink holds, if it shows them, and its count of faults, which stops at the largest 64-bit
    /// number. If a sink stops showing its bytes, it never shows them again.
    ghost state: { Self → SinkState };

    /// The effects of `write` on a sink of the implementing type, beyond the effects of `write` on every sink.
    ghost writes: { Self → Self → List ℕ → Result ℕ Failed → Type 0 } = { λ _ _ _ _. Unit {0} };

    /// Appends a prefix of the piece, at least one byte, and returns the length of the prefix.
    ///
    /// At `Failed` a fault was counted, and nothing was appended.
    fn write(&mut self, piece: &[u8]) -> Result<usize, Failed>
        requires { 0 < length piece.now }
        ensures does { WritesPiece (state self.old) (state self.new) piece.now result }
        ensures own { writes self.old self.new piece.now result };
}
