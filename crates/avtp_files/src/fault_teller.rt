//! Reports system faults on standard error.

use std::alloc::Alloc;
use std::io::{self, Eprint};

/// Writes three things to standard error: the name of the program, the file, and the reason why a system call on the
/// file failed. Without a program name, a fault teller writes nothing.
#[derive(Clone, Copy, Drop)]
pub struct FaultTeller<R> {
    rt: R,
    program: Option<&'static str>,
}

impl<R: Eprint + Alloc> FaultTeller<R> {
    pub fn new(rt: R, program: Option<&'static str>) -> Self {
        FaultTeller { rt, program }
    }

    /// Reports why a call failed on the file with this name.
    pub fn tell(&self, name: &str, error: &io::Error) {
        let Some(program) = self.program else {
            return;
        };
        let alloc = self.rt.alloc();
        let _ = match format!(in alloc; "{error}") {
            Ok(reason) => {
                let reason = without_number(reason.as_str());
                eprintln!(self.rt; "{program}: {name}: {reason}")
            }
            Err(_) => eprintln!(self.rt; "{program}: {name}: {error}"),
        };
    }
}

/// The system's reason without its number, as system commands print it.
fn without_number(reason: &str) -> &str {
    match reason.split_once(" (os error ") {
        Some((words, _)) => words,
        None => reason,
    }
}
