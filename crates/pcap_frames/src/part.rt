//! Collects the bytes of a header or a record that is cut across pieces.

ghost use Rattle.std.specs.Prelude.{◌≤◌, vec_capacity};
ghost use Rattle.pcap_frames.specs.Parts.{Gathers};

/// Moves bytes from the front of the piece to the end of the part, until the part has `end` bytes or the piece has no
/// more. Returns how many bytes it moved.
pub fn gather(part: &mut Vec<u8>, end: usize, piece: &[u8]) -> usize
    requires { end ≤ vec_capacity part.old }
    ensures { Gathers part.old end piece.now result part.new }
{
    let taken = piece.len().min(end.saturating_sub(part.len()));
    let Ok(()) = part.extend_from_slice(&piece[..taken]) else {
        unreachable!()
    };
    taken
}
