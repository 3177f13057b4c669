//! Reads a whole file.

ghost use Rattle.capture_io.specs.Contents.{ReadsContents};
ghost use Rattle.capture_io.specs.state.Pieces.{IsDrained, JoinsPieces};

use crate::end::Stop;
use crate::pieces::Pieces;
use avtp_base::{NoMemory, OpenFault};
use avtp_files::Shelf;
use std::alloc::Global;

/// The bytes that were read from a file, and where the reading stopped.
#[derive(Drop)]
pub struct Contents {
    /// The bytes from the start of the file.
    pub bytes: Vec<u8>,
    /// Where the reading stopped.
    pub stop: Stop,
}

/// Opens a file, reads it, and closes it. The reading stops at the end of the file, at a fault, or at the limit of
/// `limit` bytes.
///
/// `Missing` is returned only if the shelf shows its files and none of them has the name. `Failed` means that the file
/// could not be opened, and that the reading count rose. `Memory` means that memory ran out.
pub fn read_contents<F: Shelf>(
    alloc: Global,
    limit: u64,
    shelf: &mut F,
    name: &str,
) -> Result<Contents, OpenFault>
    ensures { ReadsContents (F.state shelf.old) (F.state shelf.new) limit name.now result }
{
    let mut pieces = Pieces::open(alloc, limit, shelf, name)?;
    let contents = join(alloc, &mut pieces, shelf);
    pieces.close(shelf);
    match contents {
        Ok(contents) => Ok(contents),
        Err(NoMemory) => Err(OpenFault::Memory),
    }
}

/// Reads all pieces, and joins them.
fn join<F: Shelf>(alloc: Global, pieces: &mut Pieces, shelf: &mut F) -> Result<Contents, NoMemory>
    requires { IsDrained (F.state shelf.old).slots pieces.old }
    ensures { JoinsPieces (F.state shelf.old) (F.state shelf.new) pieces.old pieces.new result }
{
    let mut bytes = Vec::new(alloc);
    loop {
        if let Some(stop) = pieces.read(shelf) {
            return Ok(Contents { bytes, stop });
        }
        bytes.extend_from_slice(pieces.waiting())?;
        pieces.take_all();
    }
}
