//! Prints each kind of line, in the order of `EVERY_LINE`. Some lines have short numbers, and others have the longest
//! numbers.

use crate::packets::{CRF, DENSE, H264, IEC, OTHER, SPARSE};
use aaf_format::{AafFormat, AafView};
use avtp_base::{Failed, Field, NoMemory, Refusal};
use avtp_memory::MemorySink;
use avtp_text::{PacketPair, Text};
use cvf_format::{CvfView, NalPart};
use listener::Counts;
use sample_schedule::Reason;
use sequence_track::Findings;
use soak_run::SoakCounts;
use talker::TalkFault;

const EVERY_LINE: &str = "\
frame 1 at 1000000000 aaf id 0200000000010001 seq 0 ts 1002000000 tv 1 tu 0 mr 0 sp 0 evt 0 format int16 rate 48000 channels 2 depth 16 count 6 bytes 24
frame 2 at 0 aaf id fedcba9876543210 seq 255 ts 4294967295 tv 0 tu 1 mr 1 sp 1 evt 15 format float32 rate 0 channels 2 depth 16 count 6 bytes 65535
frame 2 at 0 aaf id fedcba9876543210 seq 255 ts 4294967295 tv 0 tu 1 mr 1 sp 1 evt 15 format int32 rate 0 channels 2 depth 16 count 6 bytes 65535
frame 2 at 0 aaf id fedcba9876543210 seq 255 ts 4294967295 tv 0 tu 1 mr 1 sp 1 evt 15 format int24 rate 0 channels 2 depth 16 count 6 bytes 65535
frame 18446744073709551615 at -9223372036854775808 iec id fedcba9876543210 seq 255 ts 4294967295 tv 0 tu 1 mr 1 dbs 256 dbc 254 fdf 255 count 4294967295 bytes 65535
frame 18446744073709551615 at -9223372036854775808 h264 id fedcba9876543210 seq 255 ts 4294967295 tv 0 tu 1 mr 1 ptv 1 pt 4294967295 marker 0 nal 23 part single bytes 65535
frame 18446744073709551615 at -9223372036854775808 h264 id fedcba9876543210 seq 255 ts 4294967295 tv 0 tu 1 mr 1 ptv 1 pt 4294967295 marker 0 nal 23 part first bytes 65535
frame 18446744073709551615 at -9223372036854775808 h264 id fedcba9876543210 seq 255 ts 4294967295 tv 0 tu 1 mr 1 ptv 1 pt 4294967295 marker 0 nal 23 part middle bytes 65535
frame 18446744073709551615 at -9223372036854775808 h264 id fedcba9876543210 seq 255 ts 4294967295 tv 0 tu 1 mr 1 ptv 1 pt 4294967295 marker 0 nal 23 part last bytes 65535
frame 18446744073709551615 at -9223372036854775808 crf id fedcba9876543210 seq 255 mr 0 tu 1 type 254 base 536870911 pull 5 interval 65535 points 3 first 18446744073709551615
frame 3 at -1 ethertype 35063 bytes 44
frame 18446744073709551615 at -9223372036854775808 other 250
frame 5 at 9223372036854775807 refused subtype at 14 short
frame 6 at 7 refused incl_len at 32
end frames 6
capture refused: incl_len at 32
capture refused: subtype at 14 short
read fault
device fault
limit 105
words: 2
capture c.pcap
flag frame 12 seq 255 malformed channels_per_frame
flag frame 12 seq 255 uncertain
flag frame 12 seq 255 empty
flag frame 12 seq 255 norate
flag frame 12 seq 255 untimed
flag frame 12 seq 255 noclock
flag frame 12 seq 255 late
flag frame 12 seq 255 repeat
flag frame 12 seq 255 full
flag frame 12 seq 255 broken
flag frame 12 seq 255 long
end frames 4 packets 3 presented 2 flagged 1
talk packets 8000 clock 500
talk input: frames
talk input: start_code
talk input: nal_type
talk input: packets
talk input: arrival
soak 1000 delivered 1 presented 2 late 3 repeat 4 untimed 5 full 6
finding frame 1 id 0200000000010001 reserved
finding frame 1 id 0200000000010001 streams
finding frame 1 id 0200000000010001 step 0
finding frame 1 id 0200000000010001 hold 1
finding frame 1 id 0200000000010001 stamp
finding frame 18446744073709551615 id fedcba9876543210 reserved
finding frame 18446744073709551615 id fedcba9876543210 streams
finding frame 18446744073709551615 id fedcba9876543210 step 255
finding frame 18446744073709551615 id fedcba9876543210 hold 4294967295
finding frame 18446744073709551615 id fedcba9876543210 stamp
finding frame 2 malformed subtype at 14 short
finding frame 2 malformed incl_len at 32
end frames 1000000 streams 1024 findings 3
differ frame 3 4 seq 7 count 6 5
differ frame 18446744073709551615 18446744073709551615 seq 255 sample 4294967295 at -9223372036854775808 9223372036854775807
differ frame 3 4 seq 7 sample 2 bytes
end matched 8 only 1 2 differ 3
gateway input: label at frame 12
skip frame 5 overlap
gateway batches 1000 packets 1001 skipped 1
";

const SHORT: Refusal = Refusal {
    field: Field::Subtype,
    at: 14,
    short: true,
};

const WHOLE: Refusal = Refusal {
    field: Field::InclLen,
    at: 32,
    short: false,
};

const PARTS: [NalPart; 4] = [
    NalPart::Single,
    NalPart::First,
    NalPart::Middle,
    NalPart::Last,
];

const REASONS: [Reason; 11] = [
    Reason::Malformed(Field::ChannelsPerFrame),
    Reason::Uncertain,
    Reason::Empty,
    Reason::NoRate,
    Reason::Untimed,
    Reason::NoClock,
    Reason::Late,
    Reason::Repeat,
    Reason::Full,
    Reason::Broken,
    Reason::Long,
];

const FAULTS: [TalkFault; 5] = [
    TalkFault::Frames,
    TalkFault::StartCode,
    TalkFault::NalType,
    TalkFault::Packets,
    TalkFault::Arrival,
];

const NOTHING: Findings = Findings {
    reserved: false,
    step: None,
    hold: None,
    stamp: false,
    untracked: false,
};

const LONGEST: Findings = Findings {
    reserved: true,
    step: Some(255),
    hold: Some(u32::MAX),
    stamp: true,
    untracked: true,
};

fn print_pcm(text: &mut Text, out: &mut MemorySink) -> Result<(), Failed> {
    text.frame_aaf(out, 1, 1_000_000_000, &DENSE)?;
    for format in [AafFormat::Float32, AafFormat::Int32, AafFormat::Int24] {
        text.frame_aaf(out, 2, 0, &AafView { format, ..SPARSE })?;
    }
    Ok(())
}

fn print_video(text: &mut Text, out: &mut MemorySink) -> Result<(), Failed> {
    for part in PARTS {
        text.frame_h264(out, u64::MAX, i64::MIN, &CvfView { part, ..H264 })?;
    }
    Ok(())
}

fn print_packets(text: &mut Text, out: &mut MemorySink) -> Result<(), Failed> {
    print_pcm(text, out)?;
    text.frame_iec(out, u64::MAX, i64::MIN, &IEC)?;
    print_video(text, out)?;
    text.frame_crf(out, u64::MAX, i64::MIN, &CRF)
}

fn print_other_frames(text: &mut Text, out: &mut MemorySink) -> Result<(), Failed> {
    text.frame_ethertype(out, 3, -1, &OTHER)?;
    text.frame_other(out, u64::MAX, i64::MIN, 0xfa)?;
    text.frame_refused(out, 5, i64::MAX, SHORT)?;
    text.frame_refused(out, 6, 7, WHOLE)?;
    text.end_frames(out, 6)
}

fn print_notices(text: &mut Text, out: &mut MemorySink) -> Result<(), Failed> {
    text.capture_refused(out, WHOLE)?;
    text.capture_refused(out, SHORT)?;
    text.read_fault(out)?;
    text.device_fault(out)?;
    text.limit(out, 105)?;
    text.words(out, 2)
}

fn print_listen(text: &mut Text, out: &mut MemorySink) -> Result<(), Failed> {
    text.capture(out, "c.pcap")?;
    for reason in REASONS {
        text.flag(out, 12, 255, reason)?;
    }
    let counts = Counts {
        frames: 4,
        packets: 3,
        presented: 2,
        flagged: 1,
    };
    text.end_listen(out, &counts)
}

fn print_talk(text: &mut Text, out: &mut MemorySink) -> Result<(), Failed> {
    text.talk(out, 8_000, 500)?;
    for fault in FAULTS {
        text.talk_input(out, fault)?;
    }
    let counts = SoakCounts {
        delivered: 1,
        presented: 2,
        late: 3,
        repeat: 4,
        untimed: 5,
        full: 6,
    };
    text.soak(out, 1_000, &counts)
}

/// Prints the lines for a packet without findings, for packets with one finding each, and for a packet with all
/// findings and the longest numbers. Prints the remaining lines of `check` at the end.
fn print_findings(text: &mut Text, out: &mut MemorySink) -> Result<(), Failed> {
    let alone = [
        NOTHING,
        Findings {
            reserved: true,
            ..NOTHING
        },
        Findings {
            untracked: true,
            ..NOTHING
        },
        Findings {
            step: Some(0),
            ..NOTHING
        },
        Findings {
            hold: Some(1),
            ..NOTHING
        },
        Findings {
            stamp: true,
            ..NOTHING
        },
    ];
    for findings in &alone {
        text.findings(out, 1, 0x0200_0000_0001_0001, findings)?;
    }
    text.findings(out, u64::MAX, 0xfedc_ba98_7654_3210, &LONGEST)?;
    text.finding_malformed(out, 2, SHORT)?;
    text.finding_malformed(out, 2, WHOLE)?;
    text.end_check(out, 1_000_000, 1_024, 3)
}

fn print_pairs(text: &mut Text, out: &mut MemorySink) -> Result<(), Failed> {
    let pair = PacketPair {
        frame_a: 3,
        frame_b: 4,
        seq: 7,
    };
    let longest = PacketPair {
        frame_a: u64::MAX,
        frame_b: u64::MAX,
        seq: 255,
    };
    text.differ_count(out, pair, 6, 5)?;
    text.differ_at(out, longest, u32::MAX, i64::MIN, i64::MAX)?;
    text.differ_bytes(out, pair, 2)?;
    text.end_agree(out, 8, 1, 2, 3)
}

fn print_gateway(text: &mut Text, out: &mut MemorySink) -> Result<(), Failed> {
    text.gateway_input(out, "label", 12)?;
    text.skip(out, 5, "overlap")?;
    text.gateway(out, 1_000, 1_001, 1)
}

fn print_all(text: &mut Text, out: &mut MemorySink) -> Result<(), Failed> {
    print_packets(text, out)?;
    print_other_frames(text, out)?;
    print_notices(text, out)?;
    print_listen(text, out)?;
    print_talk(text, out)?;
    print_findings(text, out)?;
    print_pairs(text, out)?;
    print_gateway(text, out)?;
    text.flush(out)
}

#[test]
fn each_line_is_printed_as_stated_by_a_sink_that_takes_seven_bytes_a_call(
    rt: HostRuntime,
) -> Result<(), NoMemory> {
    let mut text = Text::new(rt.alloc())?;
    let mut out = MemorySink::over(rt.alloc(), Vec::new(rt.alloc())).at_most(7);
    assert!(rt; print_all(&mut text, &mut out).is_ok());
    let printed = str::from_utf8(out.bytes()).unwrap_or("no text");
    assert_eq!(rt; printed.lines().count(), EVERY_LINE.lines().count());
    for (line, stated) in printed.lines().zip(EVERY_LINE.lines()) {
        assert_eq!(rt; line, stated);
    }
    Ok(())
}

#[test]
fn a_failing_sink_loses_nothing_and_gets_nothing_twice(rt: HostRuntime) -> Result<(), NoMemory> {
    let alloc = rt.alloc();
    let mut text = Text::new(alloc)?;
    let mut out = MemorySink::over(alloc, vec![in alloc; 3, 6, 9, 12]?).at_most(10_000);
    let mut accepted = Vec::new(alloc);
    let mut refused = 0u32;
    for number in 0..40u8 {
        let piece = [number; 5_000];
        match text.print(&mut out, &piece) {
            Ok(()) => accepted.extend_from_slice(&piece)?,
            Err(Failed) => refused = refused.saturating_add(1),
        }
    }
    for _ in 0..10 {
        let _ = text.flush(&mut out);
    }
    assert!(rt; refused > 0);
    assert!(rt; out.bytes() == accepted.as_slice());
    Ok(())
}
