//! The system that a program is started on.

use crate::PROGRAM;
use crate::system::System;
use avtp_base::NoMemory;
use avtp_files::FileSink;
use run_report::Status;
use std::env;
use std::io::ErrorKind;

/// The system that the program was started on. Contracts do not know the arguments of the program.
#[derive(Drop)]
pub struct Host {
    pub rt: HostRuntime,
}

impl System<FileSink<HostRuntime>> for Host {
    ghost use Rattle.std.specs.Prelude.{[], None};

    ghost told = { λ host. None };

    ghost path = { λ host file. [] };

    ghost others = { λ host file. [] };

    fn words(&self) -> Result<Vec<String>, Status> {
        let arguments = match env::args(&self.rt) {
            Ok(arguments) => arguments,
            Err(error) if error.kind() == ErrorKind::OutOfMemory => return Err(Status::Memory),
            Err(_) => return Err(Status::Words),
        };
        arguments
            .skip(1)
            .collect(self.rt.alloc())
            .map_err(|_| Status::Memory)
    }

    fn file(&self, name: &str, apart: Vec<String>) -> Result<FileSink<HostRuntime>, NoMemory> {
        let name = String::from_str(self.rt.alloc(), name)?;
        Ok(FileSink::named(self.rt, name, apart).telling(PROGRAM))
    }
}
