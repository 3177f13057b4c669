//! Files by name.

ghost use Rattle.std.specs.Prelude.{◌<◌, length, IsSome};
ghost use Rattle.avtp_files.specs.ShelfCalls.{IsMadeIn, OpensInSlot, MakesInSlot, ReadsBytes, WritesBytes, ClosesSlot};

use avtp_base::{Failed, OpenFault};

/// The number of an open file.
#[derive(Clone, Copy, Debug, PartialEq, Eq, Hash)]
pub struct Slot(pub u32);

/// Files by name, read and written in pieces through slots. A shelf counts faults of reading (`open_file` and `read`)
/// and of writing (`create_file` and `write`) separately. A call raises only its own count.
///
/// For each call, one relation says what the call does, whichever type implements the shelf. Each call also has a ghost
/// member: `opens`, `makes`, `reads`, `writes` or `closes`. Each call's ghost member says what else the call does on a
/// shelf of the implementing type. By default the ghost member says nothing.
pub trait Shelf {
    ghost use Rattle.std.specs.Prelude.{ℕ, List, Result};
    ghost use Rattle.avtp_base.specs.declared.failed.Failed.{Failed};
    ghost use Rattle.avtp_base.specs.declared.failed.OpenFault.{OpenFault};
    ghost use Rattle.avtp_files.specs.declared.shelf.Slot.{Slot};
    ghost use Rattle.avtp_base.specs.Files.{left_in, name_in};
    ghost use Rattle.avtp_base.specs.States.{ShelfState};

    /// What contracts see of the shelf: its files, if it shows them; its open files; its counts of faults; and the
    /// names that it was asked for. If a shelf stops showing its files, it never shows them again.
    ghost state: { Self → ShelfState };

    ghost opens: { Self → Self → List ℕ → Result Slot OpenFault → Type 0 } = { λ _ _ _ _. Unit {0} };

    ghost makes: { Self → Self → List ℕ → Result Slot OpenFault → Type 0 } = { λ _ _ _ _. Unit {0} };

    ghost reads: { Self → Self → ℕ → List ℕ → Result ℕ Failed → Type 0 } = { λ _ _ _ _ _. Unit {0} };

    ghost writes: { Self → Self → ℕ → List ℕ → Result ℕ Failed → Type 0 } = { λ _ _ _ _ _. Unit {0} };

    ghost closes: { Self → Self → ℕ → Type 0 } = { λ _ _ _. Unit {0} };

    /// Opens a file for reading, in a slot that was not live.
    ///
    /// Returns `Missing` only if the shelf shows its files and none has the name. If a shelf does not show its files,
    /// it returns `Failed` or `Memory` for a missing name. If the result is `Failed`, a reading fault was counted.
    fn open_file(&mut self, name: &str) -> Result<Slot, OpenFault>
        ensures does { OpensInSlot (state self.old) (state self.new) name.now result }
        ensures own { opens self.old self.new name.now result };

    /// Makes a file, or empties it, and opens it for writing in a slot that was not live.
    ///
    /// If the result is `Failed`, a writing fault was counted. Never returns `Missing`.
    fn create_file(&mut self, name: &str) -> Result<Slot, OpenFault>
        ensures does { MakesInSlot (state self.old) (state self.new) name.now result }
        ensures own { makes self.old self.new name.now result };

    /// If nothing is left to read, returns 0. If something is left to read, moves at least one byte from its front into
    /// the buffer, and returns how many bytes it moved.
    ///
    /// At `Failed` a reading fault was counted, and nothing was moved.
    fn read(&mut self, slot: Slot, buf: &mut [u8]) -> Result<usize, Failed>
        requires live { IsSome ((state self.old).slots slot.0) }
        requires room { 0 < length buf.old }
        ensures does { ReadsBytes (state self.old) (state self.new) slot.0 result buf.new }
        ensures own { reads self.old self.new slot.0 buf.new result };

    /// Appends a prefix of the piece, at least one byte, to the file of the slot, and returns the length of the prefix.
    ///
    /// At `Failed` a writing fault was counted, and nothing was appended.
    fn write(&mut self, slot: Slot, piece: &[u8]) -> Result<usize, Failed>
        requires live { IsMadeIn (state self.old).slots slot.0 }
        requires some { 0 < length piece.now }
        ensures does { WritesBytes (state self.old) (state self.new) slot.0 piece.now result }
        ensures own { writes self.old self.new slot.0 piece.now result };

    /// Frees the slot.
    fn close_file(&mut self, slot: Slot)
        requires { IsSome ((state self.old).slots slot.0) }
        ensures does { ClosesSlot (state self.old) (state self.new) slot.0 }
        ensures own { closes self.old self.new slot.0 };

    /// If the shelf shows its files, it shows the name of each live slot and what is left to read there.
    ghost told: { (shelf : Self) (k : ℕ) → IsSome (state shelf).files → IsSome ((state shelf).slots k) → IsSome (name_in (state shelf).slots k) × IsSome (left_in (state shelf).slots k) };
}
