//! The file of the page.

use avtp_files::{FileSink, Sink};
use std::io::{self, Write};

/// The file that the page is written to. The sink of a page file reports each fault on standard error.
#[derive(Drop)]
pub struct PageFile {
    pub sink: FileSink<HostRuntime>,
}

impl Write for PageFile {
    fn write(&mut self, piece: &[u8]) -> io::Result<usize> {
        if piece.is_empty() {
            return Ok(0);
        }
        match self.sink.write(piece) {
            Ok(taken) => Ok(taken),
            Err(_) => Err(io::Error::other("the page cannot be written")),
        }
    }

    fn flush(&mut self) -> io::Result<()> {
        Ok(())
    }
}
