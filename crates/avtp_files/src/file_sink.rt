//! A sink over a real file that is written from its start.

ghost use Rattle.std.specs.Prelude.{◌≡◌, ◌<◌, None, length, option_and_then};
ghost use Rattle.avtp_files.specs.Parts.{WritesPart};

use crate::fault_teller::FaultTeller;
use crate::file_identity::{STANDARD_OUTPUT, already_used, identity_of};
use crate::part::write_part;
use crate::sink::Sink;
use avtp_base::Failed;
use std::alloc::Alloc;
use std::fs;
use std::io::{self, Eprint};
use std::rt::Files;

/// A real file. Contracts do not see what the sink holds. If the system shows what the file holds, a write adds exactly
/// the bytes that the call reports.
///
/// Take a file at one of the paths in `apart`. The sink never makes or empties this file, under any of the file's
/// paths. If standard output is a file, that file is not made or emptied, either. If the path of the sink leads to a
/// file that must not be written, `write` returns `Failed`, and the file is unchanged.
#[derive(Drop)]
pub struct FileSink<R: Files> {
    rt: R,
    name: String,
    apart: Vec<String>,
    file: Option<R::File>,
    program: Option<&'static str>,
    faults: u64,
}

impl<R: Files + Eprint + Alloc> FileSink<R> {
    /// A sink over the file at the path `name`. The sink never writes to a file at one of the paths in `apart`. The
    /// file is not made yet: the first `write` makes or empties it.
    pub fn named(rt: R, name: String, apart: Vec<String>) -> Self
        ensures { result.faults ≡ 0 }
    {
        FileSink {
            rt,
            name,
            apart,
            file: None,
            program: None,
            faults: 0,
        }
    }

    /// Makes this sink also report each fault on standard error, with the name of the program.
    pub fn telling(self, program: &'static str) -> Self
        ensures { result.faults ≡ self.faults }
    {
        FileSink {
            program: Some(program),
            ..self
        }
    }

    /// Whether the path leads to a file that must not be written, or to standard output.
    fn is_taken(&self) -> bool {
        let Some(identity) = identity_of(&self.rt, self.name.as_str()) else {
            return false;
        };
        for path in &self.apart {
            if identity_of(&self.rt, path.as_str()) == Some(identity) {
                return true;
            }
        }
        identity_of(&self.rt, STANDARD_OUTPUT) == Some(identity)
    }

    /// Makes the file or empties it. Fails if the file must not be written.
    fn make(&self) -> io::Result<R::File> {
        if self.is_taken() {
            return Err(already_used());
        }
        fs::create(&self.rt, self.name.as_str())
    }

    // Makes or empties the file if that was not done yet, and then writes at least one byte to it. If the file could
    // not be made, the next write tries again to make it.
    fn write_some(&mut self, piece: &[u8]) -> io::Result<usize>
        ensures part { WritesPart (option_and_then R.File.contents self.old.file) (option_and_then R.File.contents self.new.file) piece.now result }
        ensures faults { self.new.faults ≡ self.old.faults }
    {
        if self.file.is_none() {
            self.file = Some(self.make()?);
        }
        let Some(file) = self.file.as_mut() else {
            unreachable!()
        };
        write_part(file, piece)
    }
}

impl<R: Files + Eprint + Alloc> Sink for FileSink<R> {
    ghost use Rattle.std.specs.Prelude.{option_and_then};
    ghost use Rattle.std.specs.Io.KnownBytes.{WriteAppends};

    ghost state = { λ sink. record { held = None; faults = sink.faults } };

    ghost writes = { λ old new piece result. WriteAppends (option_and_then R.File.contents old.file) (option_and_then R.File.contents new.file) result piece };

    fn write(&mut self, piece: &[u8]) -> Result<usize, Failed> {
        match self.write_some(piece) {
            Ok(taken) => Ok(taken),
            Err(error) => {
                FaultTeller::new(&self.rt, self.program).tell(self.name.as_str(), &error);
                self.faults = self.faults.saturating_add(1);
                Err(Failed)
            }
        }
    }
}
