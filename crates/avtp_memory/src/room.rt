//! Bytes that are kept up to a limit.

ghost use Rattle.std.specs.Prelude.{◌≡◌, ◌≤◌, ◌+◌, ◌↔◌, ◌++◌, [], IsTrue, OnOk, OnErr, length, vec_len, vec_capacity};
ghost use Rattle.avtp_memory.specs.Room.{kept_within, FitsRoom};

use avtp_base::NoMemory;

/// Appends as much of a piece as fits the room, and returns whether it appended all of the piece. Memory for `room`
/// bytes must have been reserved before.
pub fn keep_within(bytes: &mut Vec<u8>, room: usize, piece: &[u8]) -> bool
    requires { room ≤ vec_capacity bytes.old }
    ensures kept { bytes.new.items ≡ kept_within room bytes.old.items piece.now }
    ensures fits { IsTrue result ↔ FitsRoom room bytes.old.items piece.now }
    ensures capacity { vec_capacity bytes.old ≤ vec_capacity bytes.new }
{
    let left = room.saturating_sub(bytes.len());
    if piece.len() <= left {
        append(bytes, piece);
        return true;
    }
    append(bytes, &piece[..left]);
    false
}

/// Empties the vector, and reserves memory for `room` bytes.
pub fn empty_with_room(bytes: &mut Vec<u8>, room: usize) -> Result<(), NoMemory>
    ensures empty { OnOk result (bytes.new.items ≡ []) }
    ensures roomy { OnOk result (room ≤ vec_capacity bytes.new) }
    ensures same { OnErr result (bytes.new.items ≡ bytes.old.items) }
    ensures capacity { vec_capacity bytes.old ≤ vec_capacity bytes.new }
{
    bytes.reserve(room)?;
    bytes.clear();
    Ok(())
}

// Appends a piece. The memory for the piece is already reserved.
fn append(bytes: &mut Vec<u8>, piece: &[u8])
    requires { vec_len bytes.old + length piece.now ≤ vec_capacity bytes.old }
    ensures appended { bytes.new.items ≡ bytes.old.items ++ piece.now }
    ensures capacity { vec_capacity bytes.old ≤ vec_capacity bytes.new }
{
    let Ok(()) = bytes.extend_from_slice(piece) else {
        unreachable!()
    };
}
