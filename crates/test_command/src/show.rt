//! The command `show`.

use crate::transcript::follow_each;
use avtp_base::NoMemory;

const CAPTURES: &str = "\
< c.pcap V1
$ show c.pcap
frame 1 at 1000000000 aaf id 0200000000010001 seq 0 ts 1002000000 tv 1 tu 0 mr 0 sp 0 evt 0 format int16 rate 48000 channels 2 depth 16 count 6 bytes 24
end frames 1
$ show --limit 106 c.pcap
frame 1 at 1000000000 aaf id 0200000000010001 seq 0 ts 1002000000 tv 1 *
end frames 1
$ show --limit 105 c.pcap
limit 105
[7]
$ show --limit 24 c.pcap
limit 24
[7]
$ show --limit 3 c.pcap
limit 3
[7]
$ show d.pcap
read fault
[4]
$ show
words: 2
[2]
$ show c.pcap d.pcap
words: 3
[2]
! shelf 3
$ show c.pcap
frame 1 at 1000000000 aaf id 0200000000010001 seq 0 ts 1002000000 tv 1 *
read fault
[4]
! sink 1
$ show c.pcap
[5]
< c.pcap
$ show c.pcap
capture refused: magic at 0 short
[3]
< c.pcap V1 ..10
$ show c.pcap
capture refused: thiszone at 8 short
[3]
< c.pcap V1 ..24
$ show c.pcap
end frames 0
< c.pcap V1 ..28
$ show c.pcap
capture refused: ts_fraction at 28 short
[3]
< c.pcap V1 ..105
$ show c.pcap
capture refused: packet_bytes at 40 short
[3]
< c.pcap V1 32=01000400
$ show c.pcap
capture refused: incl_len at 32
[3]
< c.pcap V1 20=02
$ show c.pcap
capture refused: network at 20
[3]
< c.pcap V1 0=00
! shelf 3
$ show c.pcap
capture refused: magic at 0
[3]
< c.pcap V1 61=fe 32=4e 36=4e zeros:12
$ show c.pcap
frame 1 at 1000000000 aaf id 0200000000010001 seq 0 ts 1002000000 tv 1 *
end frames 1
< c.pcap V1 59=91
$ show c.pcap
frame 1 at 1000000000 refused version at 19
end frames 1
< c.pcap V1 75=5000
$ show c.pcap
frame 1 at 1000000000 refused channels_per_frame at 35
end frames 1
< c.pcap V1 58=6e
$ show c.pcap
frame 1 at 1000000000 other 110
end frames 1
< c.pcap V1 ..24 zeros:8 x0000040000000400 zeros:262144
$ show c.pcap
frame 1 at 0 ethertype 0 bytes 262130
end frames 1
< c.pcap V1 ..24 zeros:8 x0e0000000e000000 x000102030405060708090a0b22f0
$ show c.pcap
frame 1 at 0 refused subtype at 14 short
end frames 1
$ listen 0200000000010001 c.pcap
capture c.pcap
end frames 1 packets 0 presented 0 flagged 0
";

/// Big- and little-endian captures, in microseconds and in nanoseconds.
const STYLES: &str = "\
< c.pcap xd4c3b2a1020004000000000000000000000004000100000001000000000000004200000042000000
+ c.pcap V1/40
$ show c.pcap
frame 1 at 1000000000 aaf id 0200000000010001 seq 0 ts 1002000000 *
end frames 1
< c.pcap xa1b2c3d4000200040000000000000000000400000000000100000001000000000000004200000042
+ c.pcap V1/40
$ show c.pcap
frame 1 at 1000000000 aaf id 0200000000010001 seq 0 ts 1002000000 *
end frames 1
< c.pcap xa1b23c4d000200040000000000000000000400000000000100000001000000000000004200000042
+ c.pcap V1/40
$ show c.pcap
frame 1 at 1000000000 aaf id 0200000000010001 seq 0 ts 1002000000 *
end frames 1
< c.pcap xa1b2c3d4000200040000000000000000000400000000000100000001000001f40000004200000042
+ c.pcap V1/40
$ show c.pcap
frame 1 at 1000500000 aaf id 0200000000010001 seq 0 ts 1002000000 *
end frames 1
< c.pcap V1 28=20a10700
$ show c.pcap
frame 1 at 1000500000 aaf id 0200000000010001 seq 0 ts 1002000000 *
end frames 1
";

const PACKETS: &str = "\
< c.pcap V2 capture:1000000000
$ show c.pcap
frame 1 at 1000000000 iec id 0200000000010001 seq 0 ts 1002000000 tv 1 tu 0 mr 0 dbs 2 dbc 0 fdf 2 count 6 bytes 56
end frames 1
< c.pcap V2 zeros:46 capture:1000000000
$ show c.pcap
frame 1 at 1000000000 iec id 0200000000010001 seq 0 ts 1002000000 tv 1 tu 0 mr 0 dbs 2 dbc 0 fdf 2 count 6 bytes 56
end frames 1
< c.pcap V2 20=0408 25=00 ..32 zeros:1024 capture:1000000000
$ show c.pcap
frame 1 at 1000000000 iec id 0200000000010001 seq 0 ts 1002000000 tv 1 tu 0 mr 0 dbs 256 dbc 0 fdf 2 count 1 bytes 1032
end frames 1
< c.pcap V2 21=08 29=ff ..32 capture:1000000000
$ show c.pcap
frame 1 at 1000000000 iec id 0200000000010001 seq 0 ts 1002000000 tv 1 tu 0 mr 0 dbs 2 dbc 0 fdf 255 count 0 bytes 8
end frames 1
< c.pcap V2 27=fa capture:1000000000
$ show c.pcap
frame 1 at 1000000000 iec id 0200000000010001 seq 0 ts 1002000000 tv 1 tu 0 mr 0 dbs 2 dbc 250 fdf 2 count 6 bytes 56
end frames 1
< c.pcap V3 capture:1000000000
$ show c.pcap
frame 1 at 1000000000 h264 id 0200000000010001 seq 0 ts 1002000000 tv 1 tu 0 mr 0 ptv 1 pt 1002000000 marker 1 nal 7 part single bytes 8
end frames 1
< c.pcap V3 28=7c85 capture:1000000000
$ show c.pcap
frame 1 at 1000000000 h264 id 0200000000010001 seq 0 ts 1002000000 tv 1 tu 0 mr 0 ptv 1 pt 1002000000 marker 1 nal 5 part first bytes 8
end frames 1
< c.pcap V3 28=7c05 capture:1000000000
$ show c.pcap
frame 1 at 1000000000 h264 id 0200000000010001 seq 0 ts 1002000000 tv 1 tu 0 mr 0 ptv 1 pt 1002000000 marker 1 nal 5 part middle bytes 8
end frames 1
< c.pcap V3 28=7c45 capture:1000000000
$ show c.pcap
frame 1 at 1000000000 h264 id 0200000000010001 seq 0 ts 1002000000 tv 1 tu 0 mr 0 ptv 1 pt 1002000000 marker 1 nal 5 part last bytes 8
end frames 1
< c.pcap V3 22=10 capture:1000000000
$ show c.pcap
frame 1 at 1000000000 h264 id 0200000000010001 seq 0 ts 1002000000 tv 1 tu 0 mr 0 ptv 0 pt 1002000000 marker 1 nal 7 part single bytes 8
end frames 1
< c.pcap V3 22=20 24=00000009 capture:1000000000
$ show c.pcap
frame 1 at 1000000000 h264 id 0200000000010001 seq 0 ts 1002000000 tv 1 tu 0 mr 0 ptv 1 pt 9 marker 0 nal 7 part single bytes 8
end frames 1
< c.pcap V4 capture:1000000000
$ show c.pcap
frame 1 at 1000000000 crf id 0200000000010002 seq 0 mr 0 tu 0 type 1 base 48000 pull 0 interval 96 points 1 first 1002000000
end frames 1
< c.pcap V4 17=10 zeros:8 capture:1000000000
$ show c.pcap
frame 1 at 1000000000 crf id 0200000000010002 seq 0 mr 0 tu 0 type 1 base 48000 pull 0 interval 96 points 2 first 1002000000
end frames 1
< c.pcap V4 1=890904 12=a0 19=01 capture:1000000000
$ show c.pcap
frame 1 at 1000000000 crf id 0200000000010002 seq 9 mr 1 tu 1 type 4 base 48000 pull 5 interval 1 points 1 first 1002000000
end frames 1
";

/// The packet begins at byte 18 of its frame.
const REFUSED: &str = "\
< c.pcap V2 26=48 capture:1000000000
$ show c.pcap
frame 1 at 1000000000 refused fn at 44
end frames 1
< c.pcap V2 ..23 capture:1000000000
$ show c.pcap
frame 1 at 1000000000 refused format_flags at 40 short
end frames 1
< c.pcap V3 28=7cc5 capture:1000000000
$ show c.pcap
frame 1 at 1000000000 refused fu_header at 47
end frames 1
< c.pcap V3 21=05 28=7c ..29 capture:1000000000
$ show c.pcap
frame 1 at 1000000000 refused fu_header at 47 short
end frames 1
< c.pcap V4 ..27 capture:1000000000
$ show c.pcap
frame 1 at 1000000000 refused crf_data_length at 34
end frames 1
< c.pcap V4 ..19 capture:1000000000
$ show c.pcap
frame 1 at 1000000000 refused timestamp_interval at 36 short
end frames 1
";

/// The transcripts of runs of `show`, each after its title.
const TRANSCRIPTS: [(&str, &str); 4] = [
    (
        "a capture is shown up to its end, its limit or its first refusal",
        CAPTURES,
    ),
    ("arrivals are nanoseconds in each style of capture", STYLES),
    ("each packet is shown with its fields", PACKETS),
    ("a packet is refused by its first bad field", REFUSED),
];

#[test]
fn show_prints_what_its_transcripts_state(rt: HostRuntime) -> Result<(), NoMemory> {
    follow_each(&rt, rt.alloc(), &TRANSCRIPTS)
}
