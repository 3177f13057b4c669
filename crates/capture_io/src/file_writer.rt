//! Writes a file through a buffer.

ghost use Rattle.std.specs.Prelude.{◌≡◌, [], Ok, length};
ghost use Rattle.avtp_files.specs.ShelfCalls.{IsMadeIn};
ghost use Rattle.capture_io.specs.Writing.{AddsBytes, CanHold, ClosesFile, CreatesFile, FinishesFile};
ghost use Rattle.capture_io.specs.state.Writing.{MakesRoom, WritesOut};

use avtp_base::{Buffer, Failed, OpenFault, Spelled};
use avtp_files::{Shelf, Slot};
use std::marker::Model;

/// A file of a shelf that is made and written through a buffer.
///
/// Each added byte is in the file, or still in the buffer. If the shelf fails, the file contains a prefix of the added
/// bytes. Nothing is lost or written twice. Therefore a failed call can be repeated.
#[derive(Drop)]
pub struct FileWriter {
    slot: Slot,
    pub(crate) buffer: Buffer,
}

impl Model for FileWriter {
    ghost use Rattle.avtp_files.specs.ShelfCalls.{IsMadeIn};
    ghost use Rattle.capture_io.specs.Writing.{Writing};

    ghost Value = { Writing };

    ghost view = { λ w. record { slot = w.slot.0; waiting = w.buffer } };
}

impl FileWriter {
    /// Makes or empties a file that is to be written through this buffer. The buffer must be empty.
    ///
    /// At `Failed` the writing count rose. `Memory` means that the shelf had no memory; the buffer's memory was
    /// reserved before. After `Failed` or `Memory` the file is unchanged. Never returns `Missing`.
    pub fn create<F: Shelf>(buffer: Buffer, shelf: &mut F, name: &str) -> Result<Self, OpenFault>
        requires { buffer ≡ [] }
        ensures { CreatesFile (F.state shelf.old) (F.state shelf.new) name.now result }
    {
        let slot = shelf.create_file(name)?;
        Ok(FileWriter { slot, buffer })
    }

    /// Adds the encoding of a value, at most [`Buffer::ROOM`] bytes. The value is encoded in place. If the shelf fails,
    /// the call adds nothing.
    #[inline(always)]
    pub fn add<F: Shelf, W: Spelled>(&mut self, shelf: &mut F, added: &W) -> Result<(), Failed>
        requires { CanHold (F.state shelf.old).slots self.old (length (W.spelling added.now)) }
        ensures { AddsBytes (F.state shelf.old) (F.state shelf.new) self.old self.new (W.spelling added.now) result }
    {
        self.make_room(shelf, added.size())?;
        self.buffer.add(added);
        Ok(())
    }

    /// Writes the buffered bytes if the buffer lacks room for `size` more.
    #[inline(always)]
    pub(crate) fn make_room<F: Shelf>(&mut self, shelf: &mut F, size: usize) -> Result<(), Failed>
        requires { CanHold (F.state shelf.old).slots self.old size }
        ensures { MakesRoom (F.state shelf.old) (F.state shelf.new) self.old self.new size result }
    {
        if self.buffer.room() < size {
            self.flush(shelf)?;
        }
        Ok(())
    }

    /// Writes all buffered bytes.
    #[inline(never)]
    fn flush<F: Shelf>(&mut self, shelf: &mut F) -> Result<(), Failed>
        requires { IsMadeIn (F.state shelf.old).slots self.old.slot }
        ensures { WritesOut (F.state shelf.old) (F.state shelf.new) self.old self.new result }
    {
        while !self.buffer.waiting().is_empty() {
            let count = shelf.write(self.slot, self.buffer.waiting())?;
            self.buffer.drop_front(count);
        }
        Ok(())
    }

    /// Writes the buffered bytes, and closes the file. If the result is `Ok`, the file contains all bytes that were
    /// added; if the result is `Err`, the file contains a prefix of these bytes.
    pub fn finish<F: Shelf>(self, shelf: &mut F) -> Result<(), Failed>
        requires { IsMadeIn (F.state shelf.old).slots self.slot }
        ensures { FinishesFile (F.state shelf.old) (F.state shelf.new) self result }
    {
        let mut writer = self;
        let written = writer.flush(shelf);
        shelf.close_file(writer.slot);
        written
    }

    /// Closes the file, which then contains a prefix of the bytes that were added.
    pub fn abandon<F: Shelf>(self, shelf: &mut F)
        requires { IsMadeIn (F.state shelf.old).slots self.slot }
        ensures { ClosesFile (F.state shelf.old) (F.state shelf.new) self (Ok tt) }
    {
        shelf.close_file(self.slot);
    }
}
