//! A shelf of real files.

ghost use Rattle.std.specs.Prelude.{◌≡◌, ◌<◌, ℕ, None, length, IsSome};
ghost use Rattle.std.proofs.Common.{rules};
ghost use Rattle.avtp_files.specs.Entries.{entry_at};
ghost use Rattle.avtp_files.specs.Parts.{WritesPart};
ghost use Rattle.avtp_files.specs.FileShelf.{known_at, real_slots};
ghost use Rattle.avtp_files.specs.state.FileShelf.{ReadsOpen, real_state};

use crate::fault_teller::FaultTeller;
use crate::file_identity::{FileIdentity, STANDARD_OUTPUT, already_used, identity_of};
use crate::part::write_part;
use crate::shelf::{Shelf, Slot};
use crate::slots::Slots;
use avtp_base::{Failed, NoMemory, OpenFault};
use std::alloc::{Alloc, Global};
use std::fs;
use std::io::{self, Eprint, Read, Write};
use std::rt::Files;

/// A real file that is open, its path, and whether it was made for writing.
#[derive(Drop)]
pub struct RealFile<F> {
    file: F,
    path: String,
    made: bool,
}

/// Real files, named by their paths. The shelf does not show the contents of its files. If the system shows what its
/// files hold, a read or a write moves exactly the bytes that the call reports. A missing file counts as a fault.
///
/// If a file was opened for reading, the file is never made or emptied, under any of its paths. If standard output is a
/// file, the shelf neither makes nor empties that file. If `create_file` is called for a file that was read, or for
/// standard output, it returns `Failed`, and the file is unchanged.
#[derive(Drop)]
pub struct FileShelf<'a, R: Files> {
    rt: &'a R,
    alloc: Global,
    teller: FaultTeller<&'a R>,
    live: Slots<RealFile<R::File>>,
    inputs: Vec<FileIdentity>,
    reading_faults: u64,
    writing_faults: u64,
}

impl<'a, R: Files + Eprint + Alloc> FileShelf<'a, R> {
    pub fn new(alloc: Global, rt: &'a R) -> Self
        ensures closed { (k : ℕ) → real_slots result.live k ≡ None }
        ensures reading { result.reading_faults ≡ 0 }
        ensures writing { result.writing_faults ≡ 0 }
    {
        FileShelf {
            rt,
            alloc,
            teller: FaultTeller::new(rt, None),
            live: Slots::new(alloc),
            inputs: Vec::new(alloc),
            reading_faults: 0,
            writing_faults: 0,
        }
    }

    /// Makes this shelf also report each fault on standard error, with the name of the program.
    pub fn telling(self, program: &'static str) -> Self
        ensures live { result.live ≡ self.entry.live }
        ensures reading { result.reading_faults ≡ self.entry.reading_faults }
        ensures writing { result.writing_faults ≡ self.entry.writing_faults }
    {
        FileShelf {
            teller: FaultTeller::new(self.rt, Some(program)),
            ..self
        }
    }

    /// Reports why a call failed on the file in a slot.
    fn tell(&self, slot: Slot, error: &io::Error) {
        if let Some(open) = self.live.get(slot) {
            self.teller.tell(open.path.as_str(), error);
        }
    }

    /// Remembers that the file at a path was opened for reading, to prevent writing to it.
    fn keep_input(&mut self, name: &str) -> Result<(), NoMemory>
        ensures live { self.new.live ≡ self.old.live }
        ensures reading { self.new.reading_faults ≡ self.old.reading_faults }
        ensures writing { self.new.writing_faults ≡ self.old.writing_faults }
    {
        if let Some(identity) = identity_of(self.rt, name)
            && !self.inputs.contains(&identity)
        {
            self.inputs.push(identity)?;
        }
        Ok(())
    }

    /// Makes the file at a path, or empties it. Fails if the path leads to a file that must not be written.
    fn make(&self, name: &str) -> io::Result<R::File> {
        if self.is_taken(name) {
            return Err(already_used());
        }
        fs::create(self.rt, name)
    }

    /// Whether a path leads to a file that was opened for reading, or to standard output.
    fn is_taken(&self, name: &str) -> bool {
        match identity_of(self.rt, name) {
            Some(identity) => {
                self.inputs.contains(&identity)
                    || identity_of(self.rt, STANDARD_OUTPUT) == Some(identity)
            }
            None => false,
        }
    }
}

impl<R: Files + Eprint + Alloc> Shelf for FileShelf<'_, R> {
    ghost use Rattle.std.specs.Io.KnownBytes.{ReadConsumes, WriteAppends};
    ghost use Rattle.avtp_files.specs.FileShelf.{known_at};

    ghost state = { λ shelf. real_state (real_slots shelf.live) shelf.reading_faults shelf.writing_faults };

    ghost told = { λ shelf k files live. Prim.search rules };

    ghost reads = { λ old new k buffer result. ReadConsumes (known_at R.File.remaining old.live k) (known_at R.File.remaining new.live k) result buffer };

    ghost writes = { λ old new k piece result. WriteAppends (known_at R.File.contents old.live k) (known_at R.File.contents new.live k) result piece };

    fn open_file(&mut self, name: &str) -> Result<Slot, OpenFault> {
        let Ok(slot) = self.live.free_slot() else {
            return Err(OpenFault::Memory);
        };
        let Ok(path) = String::from_str(self.alloc, name) else {
            return Err(OpenFault::Memory);
        };
        let opened = fs::open(self.rt, name);
        if let Err(error) = &opened {
            self.teller.tell(name, error);
        }
        let Ok(file) = opened else {
            self.reading_faults = self.reading_faults.saturating_add(1);
            return Err(OpenFault::Failed);
        };
        if self.keep_input(name).is_err() {
            return Err(OpenFault::Memory);
        }
        let made = false;
        self.live.set(slot, Some(RealFile { file, path, made }));
        Ok(slot)
    }

    fn create_file(&mut self, name: &str) -> Result<Slot, OpenFault> {
        let Ok(slot) = self.live.free_slot() else {
            return Err(OpenFault::Memory);
        };
        let Ok(path) = String::from_str(self.alloc, name) else {
            return Err(OpenFault::Memory);
        };
        let opened = self.make(name);
        if let Err(error) = &opened {
            self.teller.tell(name, error);
        }
        let Ok(file) = opened else {
            self.writing_faults = self.writing_faults.saturating_add(1);
            return Err(OpenFault::Failed);
        };
        let made = true;
        self.live.set(slot, Some(RealFile { file, path, made }));
        Ok(slot)
    }

    fn read(&mut self, slot: Slot, buf: &mut [u8]) -> Result<usize, Failed> {
        match read_open(&mut self.live, slot, buf) {
            Ok(moved) => Ok(moved),
            Err(error) => {
                self.tell(slot, &error);
                self.reading_faults = self.reading_faults.saturating_add(1);
                Err(Failed)
            }
        }
    }

    fn write(&mut self, slot: Slot, piece: &[u8]) -> Result<usize, Failed> {
        match write_open(&mut self.live, slot, piece) {
            Ok(taken) => Ok(taken),
            Err(error) => {
                self.tell(slot, &error);
                self.writing_faults = self.writing_faults.saturating_add(1);
                Err(Failed)
            }
        }
    }

    fn close_file(&mut self, slot: Slot) {
        self.live.set(slot, None);
    }
}

// Reads from the file in a live slot.
fn read_open<F: Read + Drop>(
    live: &mut Slots<RealFile<F>>,
    slot: Slot,
    buf: &mut [u8],
) -> io::Result<usize>
    requires { IsSome (entry_at live.old.entries.items slot.0) }
    ensures { ReadsOpen (known_at F.remaining live.old slot.0) (known_at F.remaining live.new slot.0) (real_slots live.old) (real_slots live.new) result buf.new }
{
    let Some(mut open) = live.take(slot) else {
        unreachable!()
    };
    let moved = open.file.read(buf);
    live.set(slot, Some(open));
    moved
}

// Writes at least one byte to the file in a live slot.
fn write_open<F: Write + Drop>(
    live: &mut Slots<RealFile<F>>,
    slot: Slot,
    piece: &[u8],
) -> io::Result<usize>
    requires { IsSome (entry_at live.old.entries.items slot.0) }
    ensures part { WritesPart (known_at F.contents live.old slot.0) (known_at F.contents live.new slot.0) piece.now result }
    ensures same { (k : ℕ) → real_slots live.new k ≡ real_slots live.old k }
{
    let Some(mut open) = live.take(slot) else {
        unreachable!()
    };
    let taken = write_part(&mut open.file, piece);
    live.set(slot, Some(open));
    taken
}
