//! Tests of Ethernet frames.

use pcap_frames::read_frame;
use std::alloc::Global;
use std::test::Fail;
use vectors_avtp::{bytes_of, check_rows, refusal_text, told_when_cut};

/// Frames, and what is read from each: the addresses, the tag, the EtherType, the offset of the payload, and the
/// payload.
const FRAMES: &str = "\
frame len=21 => 91e0f000fe00 020000000001 Some(Tag { pcp: 3, dei: false, vid: 2 }) 22f0 18 028100
frame len=12 22f0 028100 => 91e0f000fe00 020000000001 None 22f0 14 028100
frame len=12 0800 => 91e0f000fe00 020000000001 None 0800 14
// The five highest bits of the tag, one at a time, and a VLAN identifier with all bits set.
frame 14=8000 len=18 => 91e0f000fe00 020000000001 Some(Tag { pcp: 4, dei: false, vid: 0 }) 22f0 18
frame 14=4000 len=18 => 91e0f000fe00 020000000001 Some(Tag { pcp: 2, dei: false, vid: 0 }) 22f0 18
frame 14=2000 len=18 => 91e0f000fe00 020000000001 Some(Tag { pcp: 1, dei: false, vid: 0 }) 22f0 18
frame 14=1000 len=18 => 91e0f000fe00 020000000001 Some(Tag { pcp: 0, dei: true, vid: 0 }) 22f0 18
frame 14=0800 len=18 => 91e0f000fe00 020000000001 Some(Tag { pcp: 0, dei: false, vid: 2048 }) 22f0 18
frame 14=0fff 16=8100 len=18 => 91e0f000fe00 020000000001 Some(Tag { pcp: 0, dei: false, vid: 4095 }) 8100 18";

/// What is read from a frame, as text.
fn told(alloc: Global, frame: &[u8]) -> Result<String, Fail> {
    let view = read_frame(frame).ok().ok_or("a frame is refused")?;
    let payload = hex::encode(alloc, view.payload)?;
    Ok(format!(in alloc;
        "{:012x} {:012x} {:?} {:04x} {} {payload}",
        view.dst, view.src, view.tag, view.ethertype, view.start
    )?)
}

#[test]
fn each_field_of_a_frame_is_read_from_its_bits(rt: HostRuntime) -> Result<(), Fail> {
    let alloc = rt.alloc();
    check_rows(FRAMES, |row| told(alloc, &bytes_of(alloc, row)?))
}

/// Frames that are cut off: each length where the result of reading changes, and the new result.
const CUT: &str = "\
frame len=18 => 0: destination at 0 short; 6: source at 6 short; 12: ethertype at 12 short; 14: tag_control at 14 short; 16: ethertype at 16 short; 18: read;
frame len=12 22f0 => 0: destination at 0 short; 6: source at 6 short; 12: ethertype at 12 short; 14: read;";

/// The refusal of a frame, or else `read`.
fn answer(alloc: Global, frame: &[u8]) -> Result<String, Fail> {
    Ok(match read_frame(frame) {
        Err(refusal) => refusal_text(alloc, refusal)?,
        Ok(_) => String::from_str(alloc, "read")?,
    })
}

#[test]
fn a_short_frame_is_refused_by_the_field_that_is_cut_off(rt: HostRuntime) -> Result<(), Fail> {
    let alloc = rt.alloc();
    check_rows(CUT, |row| {
        told_when_cut(alloc, &bytes_of(alloc, row)?, |frame| answer(alloc, frame))
    })
}
