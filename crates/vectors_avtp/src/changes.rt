//! Changes a few bytes.

use avtp_base::NoMemory;

/// Makes each change at its offset, cuts the bytes to `len` bytes, and then appends `zeros` zero bytes.
pub fn changed(
    bytes: Vec<u8>,
    changes: &[(usize, u8)],
    len: usize,
    zeros: usize,
) -> Result<Vec<u8>, NoMemory> {
    let mut bytes = bytes;
    for (at, byte) in changes {
        if let Some(place) = bytes.get_mut(*at) {
            *place = *byte;
        }
    }
    bytes.truncate(len);
    for _ in 0..zeros {
        bytes.push(0)?;
    }
    Ok(bytes)
}
