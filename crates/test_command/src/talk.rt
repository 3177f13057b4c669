//! The commands `talk` and `soak`.

use crate::recipe::bytes_of;
use crate::transcript::{follow, follow_each};
use avtp_base::NoMemory;

const VECTORS: &str = "\
< a.raw V1/82
$ talk a.raw c.pcap
talk packets 1 clock 0
? c.pcap V1
$ talk --crf 0200000000010002 a.raw c.pcap
talk packets 1 clock 1
? c.pcap V4 capture:1000000000 V1/24
< a.raw
$ talk a.raw c.pcap
talk packets 0 clock 0
? c.pcap V1 ..24
< a.raw x40000000*12
$ talk --kind am824 a.raw c.pcap
talk packets 1 clock 0
? c.pcap V2 capture:1000000000
< a.raw x40000000*2
$ talk --kind am824 a.raw c.pcap
talk packets 1 clock 0
? c.pcap V2 capture:1000000000
< a.264 x000000016742000a
$ talk --kind h264 a.264 c.pcap
talk packets 1 clock 0
? c.pcap V3 capture:1000000000
$ listen 0200000000010001 c.pcap
capture c.pcap
at 1002000000 frame 1 seq 0 sample 0 6742000a
end frames 1 packets 1 presented 1 flagged 0
";

const REFUSED: &str = "\
< a.raw V1/103
$ talk a.raw c.pcap
talk input: frames
[9]
$ talk --format int24 a.raw c.pcap
talk input: frames
[9]
$ talk --channels 500 a.raw c.pcap
words: 1
[2]
$ talk --crf 0200000000010002 --crf-rate 44100 a.raw c.pcap
words: 1
[2]
$ talk a.raw a.raw
words: 1
[2]
$ talk b.raw c.pcap
read fault
[4]
< a.raw x40000000*3
$ talk --kind am824 a.raw c.pcap
talk input: frames
[9]
< a.264 x010203
$ talk --kind h264 a.264 c.pcap
talk input: start_code
[9]
< a.264 x0000011c01
$ talk --kind h264 a.264 c.pcap
talk input: nal_type
[9]
$ show c.pcap
read fault
[4]
";

/// Sample 5 of packet 999 is 5,999 sample frames after 1.002 s. Sample 5 of packet 3,999 is 23,999 sample frames after
/// 1.002 s.
const HEARD: &str = "\
< a.raw noise:24000
$ talk a.raw c.pcap
talk packets 1000 clock 0
$ listen 0200000000010001 c.pcap
capture c.pcap
at 1002000000 frame 1 seq 0 sample 0 00010203
...
at 1126979166 frame 1000 seq 231 sample 5 *
end frames 1000 packets 1000 presented 1000 flagged 0
< a.raw zeros:192000
$ talk --kind am824 a.raw c.pcap
talk packets 4000 clock 0
$ listen 0200000000010001 c.pcap
capture c.pcap
...
at 1501979166 frame 4000 seq 159 sample 5 0000000000000000
end frames 4000 packets 4000 presented 4000 flagged 0
< a.264 x0000000165 xff*2999
$ talk --kind h264 --last-stamp a.264 c.pcap
talk packets 3 clock 0
$ show c.pcap
frame 1 at 1000000000 h264 id 0200000000010001 seq 0 ts 0 tv 0 tu 0 mr 0 ptv 1 pt 1002000000 marker 0 nal 5 part first bytes 1404
frame 2 at 1000000000 h264 id 0200000000010001 seq 1 ts 0 tv 0 tu 0 mr 0 ptv 1 pt 1002000000 marker 0 nal 5 part middle bytes 1404
frame 3 at 1000000000 h264 id 0200000000010001 seq 2 ts 1002000000 tv 1 tu 0 mr 0 ptv 1 pt 1002000000 marker 1 nal 5 part last bytes 209
end frames 3
$ listen 0200000000010001 c.pcap
capture c.pcap
at 1002000000 frame 3 seq 2 sample 0 65ffff*
end frames 3 packets 3 presented 1 flagged 0
";

/// One second of stereo at 48 kHz. The packets before the clock's second timestamp have no media clock.
const CLOCKS: &str = "\
< a.raw noise:192000
$ talk --crf 0200000000010002 a.raw c.pcap
talk packets 8000 clock 500
# c.pcap 687024
$ listen 0200000000010001 c.pcap
capture c.pcap
...
end frames 8500 packets 8000 presented 8000 flagged 0
$ listen --clock 0200000000010002 0200000000010001 c.pcap
capture c.pcap
flag frame 2 seq 0 noclock
...
flag frame 17 seq 15 noclock
at 1004000000 frame 19 seq 16 sample 0 *
...
end frames 8500 packets 8000 presented 7984 flagged 16
";

const OTHER_CLOCKS: &str = "\
< a.raw noise:192000
$ talk --crf 0200000000010002 --crf-rate 44100 --crf-interval 147 a.raw c.pcap
talk packets 8000 clock 300
# c.pcap 674624
$ listen --clock 0200000000010002 0200000000010001 c.pcap
capture c.pcap
flag frame 2 seq 0 noclock
...
flag frame 28 seq 26 noclock
at *
...
end frames 8300 packets 8000 presented 7973 flagged 27
";

/// After a lost timestamp or a restart, the packets of a sparse stream are untimed until the next packet that has a
/// timestamp. The timestamp of a packet that was sent 256 packets earlier is not used.
const SPARSE: &str = "\
< a.raw noise:384
$ talk --sparse a.raw c.pcap
talk packets 16 clock 0
@ c.pcap 1 2 3 4 5 6 7 8 9 10 11 12 13 14 15
$ listen 0200000000010001 c.pcap
capture c.pcap
flag frame 1 seq 1 untimed
flag frame 2 seq 2 untimed
flag frame 3 seq 3 untimed
flag frame 4 seq 4 untimed
flag frame 5 seq 5 untimed
flag frame 6 seq 6 untimed
flag frame 7 seq 7 untimed
at 1003000000 frame 8 seq 8 sample 0 *
...
at 1003125000 frame 9 seq 9 sample 0 *
...
end frames 15 packets 15 presented 8 flagged 7
< a.raw noise:6192
$ talk --sparse a.raw c.pcap
talk packets 258 clock 0
@ c.pcap 0 257
$ listen 0200000000010001 c.pcap
capture c.pcap
at 1002000000 frame 1 seq 0 sample 0 *
...
flag frame 2 seq 1 untimed
end frames 2 packets 2 presented 1 flagged 1
< a.raw noise:480
$ talk --sparse --restart 10 a.raw c.pcap
talk packets 20 clock 0
$ listen 0200000000010001 c.pcap
capture c.pcap
...
flag frame 11 seq 10 untimed
...
flag frame 16 seq 15 untimed
...
at 1005000000 frame 17 seq 16 sample 0 *
...
end frames 20 packets 20 presented 14 flagged 6
";

/// If one packet is sent, the only copy of this packet arrives 0.48 ms after the packet's presentation time. If two
/// packets are sent, the second packet arrives exactly at its presentation time.
const SOAKS: &str = "\
$ soak 0
soak 0 delivered 0 presented 0 late 0 repeat 0 untimed 0 full 0
$ soak 1
soak 1 delivered 1 presented 0 late 1 repeat 0 untimed 0 full 0
$ soak 2
soak 2 delivered 2 presented 2 late 0 repeat 0 untimed 0 full 0
$ soak 1000
soak 1000 delivered 1002 presented 727 late 171 repeat 42 untimed 62 full 0
$ soak 1000001
words: 2
[2]
$ frob
words: 1
[2]
";

const RATES: [&str; 10] = [
    "8000", "16000", "24000", "32000", "44100", "48000", "88200", "96000", "176400", "192000",
];

/// The sample formats, and what `show` prints of six stereo sample frames in each format: the depth, the count and the
/// bytes.
const FORMATS: [(&str, &str); 4] = [
    ("int16", "depth 16 count 6 bytes 24"),
    ("int24", "depth 24 count 6 bytes 36"),
    ("int32", "depth 32 count 6 bytes 48"),
    ("float32", "depth 32 count 6 bytes 48"),
];

#[test]
fn a_packet_of_each_format_and_rate_is_shown_as_it_was_asked_for(
    rt: HostRuntime,
) -> Result<(), NoMemory> {
    for (format, size) in FORMATS {
        for rate in RATES {
            let lines = format!(in rt.alloc();
                "\
< a.raw noise:24
$ talk --rate {rate} --format {format} a.raw c.pcap
...
$ show c.pcap
frame 1 at 1000000000 aaf id 0200000000010001 seq 0 ts 1002000000 tv 1 tu 0 mr 0 sp 0 evt 0 format {format} rate {rate} channels 2 {size}
end frames 1
"
            )?;
            follow(&rt, rt.alloc(), format, &lines)?;
        }
    }
    Ok(())
}

/// One sample frame of 1,023 channels of 32 bits has 4,092 bytes. The record with this wide sample frame has 4,134
/// captured bytes.
#[test]
fn a_sample_longer_than_a_piece_of_digits_is_printed_whole(
    rt: HostRuntime,
) -> Result<(), NoMemory> {
    let digits = hex::encode(rt.alloc(), bytes_of(rt.alloc(), "noise:4092")?)?;
    let lines = format!(in rt.alloc();
        "\
< c.pcap V1 32=2610 36=2610 74=0253ff20 78=0ffc ..82 noise:4092
$ listen 0200000000010001 c.pcap
capture c.pcap
at 1002000000 frame 1 seq 0 sample 0 {digits}
end frames 1 packets 1 presented 1 flagged 0
"
    )?;
    follow(&rt, rt.alloc(), "a wide sample frame", &lines)
}

/// The transcripts of runs of `talk`, each after its title.
const TRANSCRIPTS: [(&str, &str); 7] = [
    ("the vectors are what is talked", VECTORS),
    ("words and inputs that make no capture leave none", REFUSED),
    ("what is talked is heard whole", HEARD),
    (
        "a second beside a clock is heard on it from the second point on",
        CLOCKS,
    ),
    (
        "a second beside a clock of another rate is heard on it",
        OTHER_CLOCKS,
    ),
    (
        "a sparse stream is known from a stamp of its own run on",
        SPARSE,
    ),
    ("a soak counts what comes of its packets", SOAKS),
];

#[test]
fn talk_prints_what_its_transcripts_state(rt: HostRuntime) -> Result<(), NoMemory> {
    follow_each(&rt, rt.alloc(), &TRANSCRIPTS)
}
