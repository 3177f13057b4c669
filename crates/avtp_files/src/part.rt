//! Writes that can take only a part of a piece.

ghost use Rattle.avtp_files.specs.Parts.{WritesPart};

use std::io::{Error, ErrorKind, Result, Write};

/// Writes a prefix of the piece, and returns how many bytes were written. If no byte was written, the call returns an
/// error.
pub fn write_part<W: Write>(file: &mut W, piece: &[u8]) -> Result<usize>
    ensures { WritesPart (W.contents file.old) (W.contents file.new) piece.now result }
{
    match file.write(piece) {
        Ok(taken) if taken > 0 => Ok(taken),
        Ok(_) => Err(Error::from(ErrorKind::WriteZero)),
        Err(error) => Err(error),
    }
}
