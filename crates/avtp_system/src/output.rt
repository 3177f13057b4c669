//! Standard output.

use crate::progress::ProgressLine;
use avtp_files::FaultTeller;
use std::io::{self, ErrorKind, IsTerminal, Print, Write};

/// Standard output. If a write fails, the reason is printed on standard error. If the write fails because the reader of
/// standard output has ended, as `head` does, nothing is printed on standard error.
#[derive(Drop)]
pub struct Output<'a> {
    rt: &'a HostRuntime,
    teller: FaultTeller<&'a HostRuntime>,
    /// The progress line, which is removed before text is written. `None` if standard output is not a terminal.
    covered: Option<&'a ProgressLine>,
}

impl<'a> Output<'a> {
    pub fn of(rt: &'a HostRuntime, program: &'static str, line: &'a ProgressLine) -> Self {
        Output {
            rt,
            teller: FaultTeller::new(rt, Some(program)),
            covered: rt.stdout().is_terminal().then_some(line),
        }
    }
}

impl Write for Output<'_> {
    fn write(&mut self, buf: &[u8]) -> io::Result<usize> {
        if let Some(line) = self.covered {
            line.remove();
        }
        let written = self.rt.write_some(buf);
        if let Err(error) = &written
            && error.kind() != ErrorKind::BrokenPipe
        {
            self.teller.tell("standard output", error);
        }
        written
    }

    // Nothing waits here. `avtp_text::Text` holds the text, and writes it when it has to appear.
    fn flush(&mut self) -> io::Result<()> {
        Ok(())
    }
}
