//! Tests of the codes and numbers of the formats, and of the stream header alone.

use aaf_format::rate_of;
use avtp_header::{peek, read_stream_header, write_stream_header};
use crf_format::{point, read_crf};
use cvf_format::fragments;
use iec61883_format::{rate_of_fdf, syt_interval};
use std::test::Fail;
use vectors_avtp::bytes_of;

/// A code, its sample rate in PCM, its sample rate in AM824, and how many blocks share one timestamp in AM824.
const CODES: &str = "
0: None Some(32000) Some(8)
1: Some(8000) Some(44100) Some(8)
2: Some(16000) Some(48000) Some(8)
3: Some(32000) Some(88200) Some(16)
4: Some(44100) Some(96000) Some(16)
5: Some(48000) Some(176400) Some(32)
6: Some(88200) Some(192000) Some(32)
7: Some(96000) None None
8: Some(176400) None None
9: Some(192000) None None
10: Some(24000) None None
11: None None None";

#[test]
fn a_code_stands_for_a_rate(rt: HostRuntime) -> Result<(), Fail> {
    let mut found = String::new(rt.alloc());
    for code in 0..12u8 {
        let (pcm, am824) = (rate_of(code), rate_of_fdf(code));
        let line = format!(in rt.alloc(); "\n{code}: {pcm:?} {am824:?} {:?}", syt_interval(code))?;
        found.push_str(line.as_str())?;
    }
    assert_eq!(rt; found.as_str(), CODES);
    Ok(())
}

/// A packet holds at most 1400 bytes of a NAL unit. A fragment holds at most 1398 bytes after the unit's first byte.
#[test]
fn a_long_unit_is_sent_in_fragments(rt: HostRuntime) {
    for (len, packets) in [
        (1usize, 1),
        (1_400, 1),
        (1_401, 2),
        (2_797, 2),
        (2_798, 3),
        (268_435_456, 192_014),
    ] {
        assert_eq!(rt; fragments(len), packets, "{len} bytes");
    }
}

#[test]
fn a_stream_header_is_written_without_what_formats_put_into_it(
    rt: HostRuntime,
) -> Result<(), Fail> {
    let packet = bytes_of(rt.alloc(), "aaf 2=07")?;
    let peeked = format!(in rt.alloc(); "{:?}", peek(&packet))?;
    let wanted = "Some(Peeked { subtype: 2, sv: true, seq: 7, stream_id: 144115188075921409 })";
    assert_eq!(rt; peeked.as_str(), wanted);
    let mut header = read_stream_header(&packet)
        .ok()
        .ok_or("a packet is refused")?;
    header.format_bits = 0;
    let mut out = [0xffu8; 26];
    assert_eq!(rt; write_stream_header(&mut out, &header), Ok(24));
    let wanted = bytes_of(rt.alloc(), "aaf 2=07 16=00000000 len=24 ffff")?;
    assert_eq!(rt; out.as_slice(), wanted.as_slice());
    Ok(())
}

#[test]
fn a_clock_packet_has_its_timestamps_one_after_the_other(rt: HostRuntime) -> Result<(), Fail> {
    let packet = bytes_of(rt.alloc(), "crf 16=0010 0000000000000100")?;
    let clock = read_crf(&packet).ok().ok_or("a packet is refused")?;
    assert_eq!(rt; clock.payload.len(), 16);
    assert_eq!(rt; (point(&clock, 0), point(&clock, 1)), (1_002_000_000, 256));
    Ok(())
}
