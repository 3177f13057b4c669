//! Reads whole captures in memory.

ghost use Rattle.std.specs.Prelude.{◌≤◌, ◌^◌, length, map, IfOk};
ghost use Rattle.pcap_frames.specs.state.Reading.{CanKeep, KeepsAll, KeepsHeld};
ghost use Rattle.pcap_frames.specs.Pieces.{ContentsOf, joined, kept};

use crate::reader::Reader;
use crate::style::Style;
use avtp_base::{Bytes, NoMemory, Refusal};
use std::alloc::Global;

/// A captured record that owns its bytes.
#[derive(Debug, Drop)]
pub struct KeptRecord {
    /// When the frame was captured, in nanoseconds.
    pub arrival: i64,
    /// The length in bytes of the frame on the wire.
    pub orig_len: u32,
    /// The captured bytes of the frame.
    pub bytes: Bytes,
}

/// What a capture holds.
#[derive(Debug, Drop)]
pub struct Contents {
    /// The style, if the file header is whole and accepted.
    pub style: Option<Style>,
    /// The whole records before the refusal, in order.
    pub records: Vec<KeptRecord>,
    /// The first field that is cut off or refused.
    pub refusal: Option<Refusal>,
}

/// Reads a capture that is cut into these pieces, at most 2^62 bytes in all. The style, the records and the refusal are
/// those of the whole capture, wherever the capture is cut.
pub fn read_pieces(alloc: Global, pieces: &[Bytes]) -> Result<Contents, NoMemory>
    requires { length (joined pieces.now) ≤ 2 ^ 62 }
    ensures { IfOk result (ContentsOf (joined pieces.now)) }
{
    let mut reader = Reader::new(alloc)?;
    let mut records = Vec::new(alloc);
    for piece in pieces {
        read_piece(alloc, &mut reader, &mut records, piece.as_slice())?;
    }
    let refusal = reader.finish().err();
    Ok(Contents {
        style: reader.style(),
        records,
        refusal,
    })
}

/// Feeds the whole piece, and keeps each record that becomes whole.
fn read_piece(
    alloc: Global,
    reader: &mut Reader,
    records: &mut Vec<KeptRecord>,
    piece: &[u8],
) -> Result<(), NoMemory>
    requires { CanKeep reader.old piece.now }
    ensures { KeepsAll reader.old (map kept records.old.items) piece.now result reader.new (map kept records.new.items) }
{
    let mut used = 0;
    while used < piece.len() {
        match reader.feed(&piece[used..]) {
            Err(_) => return Ok(()),
            Ok(taken) => {
                keep_held(alloc, reader, records)?;
                used += taken;
            }
        }
    }
    Ok(())
}

/// Keeps the held record, if any.
fn keep_held(
    alloc: Global,
    reader: &mut Reader,
    records: &mut Vec<KeptRecord>,
) -> Result<(), NoMemory>
    ensures { KeepsHeld reader.old (map kept records.old.items) result reader.new (map kept records.new.items) }
{
    let Some(record) = reader.held() else {
        return Ok(());
    };
    let Ok(bytes) = Vec::from_slice(alloc, record.bytes) else {
        return Err(NoMemory);
    };
    let kept = KeptRecord {
        arrival: record.arrival,
        orig_len: record.orig_len,
        bytes: Bytes::over(bytes),
    };
    if records.push(kept).is_err() {
        return Err(NoMemory);
    }
    let _ = reader.release();
    Ok(())
}
