//! Inputs that make no stream.

use crate::frames::bytes_of;
use crate::plans::Planned;
use std::test::Fail;
use talker::{TalkFault, Talker};

/// A plan, the first bytes of an input, how many units of type 6 follow these bytes, and the fault.
type Row = (Planned, &'static [u8], usize, Option<TalkFault>);

const ROWS: [Row; 16] = [
    // incomplete sample frames and data blocks
    (Planned::Pcm, &[1, 2, 3], 0, Some(TalkFault::Frames)),
    (Planned::Pcm, &[1, 2, 3, 4], 0, None),
    (Planned::Blocks, &[1, 2, 3, 4], 0, Some(TalkFault::Frames)),
    (Planned::Blocks, &[1, 2, 3, 4], 1, None),
    // no start code
    (Planned::Video, &[], 0, Some(TalkFault::StartCode)),
    (Planned::Video, &[1, 2, 3], 0, Some(TalkFault::StartCode)),
    (Planned::Video, &[0, 0, 0, 0], 0, Some(TalkFault::StartCode)),
    // Units of types 28, 0 and 24 are refused. A unit of type 23 is accepted, and so is an input that has start codes
    // but no unit.
    (
        Planned::Video,
        &[0, 0, 1, 0x1c, 1],
        0,
        Some(TalkFault::NalType),
    ),
    (
        Planned::Video,
        &[0, 0, 1, 0x60],
        1,
        Some(TalkFault::NalType),
    ),
    (
        Planned::Video,
        &[0, 0, 1, 0x18],
        0,
        Some(TalkFault::NalType),
    ),
    (Planned::Video, &[0, 0, 1, 0xf7], 0, None),
    (Planned::Video, &[0, 0, 1, 0, 0, 1], 0, None),
    // An access unit has at most 255 packets. A unit after a slice begins another access unit.
    (Planned::Video, &[], 255, None),
    (Planned::Video, &[], 256, Some(TalkFault::Packets)),
    (Planned::Video, &[0, 0, 1, 0x65], 255, None),
    (
        Planned::Video,
        &[0, 0, 1, 0x18],
        256,
        Some(TalkFault::NalType),
    ),
];

#[test]
fn an_input_is_refused_for_its_first_fault(rt: HostRuntime) -> Result<(), Fail> {
    for row in &ROWS {
        let bytes = bytes_of(rt.alloc(), (row.1, &[0, 0, 1, 0x06], row.2))?;
        if bytes.len() > 1_000_000 {
            return Err(Fail::new("a long input"));
        }
        let fault = Talker::begin(rt.alloc(), row.0.plan(), &bytes).err();
        assert_eq!(rt; fault, row.3, "{:?} and {} units", row.1, row.2);
    }
    Ok(())
}
