//! The talker sends the test vectors.

use crate::frames::{begin, frames_of};
use crate::plans::Planned;
use std::alloc::Global;
use std::test::Fail;
use vectors_avtp::bytes_of;

/// The bytes of the first sent frame, from byte `from` on.
fn first_frame(
    alloc: Global,
    planned: Planned,
    input: &[u8],
    from: usize,
) -> Result<Vec<u8>, Fail> {
    let mut talker = begin(alloc, planned.plan(), input)?;
    let frames = frames_of(alloc, &mut talker)?;
    let frame = frames.first().ok_or("no frame")?;
    let bytes = frame.bytes.get(from..).ok_or("a short frame")?;
    Ok(Vec::from_slice(alloc, bytes)?)
}

/// Plans, the input of each, and what is sent first: the frame, or its bytes from an offset on.
const SENT: [(Planned, &str, usize, &str); 4] = [
    (Planned::Pcm, SAMPLES, 0, "frame"),
    (Planned::Blocks, BLOCKS, 18, "iec"),
    (Planned::Video, "00000001 6742000a", 18, "h264"),
    (Planned::Clocked, SAMPLES, 18, "crf"),
];

const SAMPLES: &str = "0001ffff 0002fffe 0003fffd 0004fffc 0005fffb 0006fffa";

/// Six data blocks of two silent channels.
const BLOCKS: &str =
    "4000000040000000 4000000040000000 4000000040000000 4000000040000000 4000000040000000 4000000040000000";

#[test]
fn the_vectors_are_sent(rt: HostRuntime) -> Result<(), Fail> {
    let alloc = rt.alloc();
    for (planned, input, from, vector) in SENT {
        let sent = first_frame(alloc, planned, &bytes_of(alloc, input)?, from)?;
        let wanted = bytes_of(alloc, vector)?;
        assert!(rt; sent.as_slice() == wanted.as_slice(), "{vector}: {sent:?}");
    }
    Ok(())
}
