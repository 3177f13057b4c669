//! The command `listen`.

use crate::runs::words_of;
use crate::transcript::follow_each;
use avtp_base::NoMemory;
use avtp_tool::{DeviceWord, device_word};
use device_rack::Silence;

const CAPTURES: &str = "\
< c.pcap V1
$ listen 0200000000010001 c.pcap
capture c.pcap
at 1002000000 frame 1 seq 0 sample 0 0001ffff
at 1002020833 frame 1 seq 0 sample 1 0002fffe
at 1002041666 frame 1 seq 0 sample 2 0003fffd
at 1002062500 frame 1 seq 0 sample 3 0004fffc
at 1002083333 frame 1 seq 0 sample 4 0005fffb
at 1002104166 frame 1 seq 0 sample 5 0006fffa
end frames 1 packets 1 presented 1 flagged 0
$ listen 0200000000010002 c.pcap
capture c.pcap
end frames 1 packets 0 presented 0 flagged 0
$ listen --limit 106 0200000000010001 c.pcap
capture c.pcap
...
end frames 1 packets 1 presented 1 flagged 0
$ listen --limit 105 0200000000010001 c.pcap
capture c.pcap
limit 105
[7]
$ listen --buffer 1 --room 1 0200000000010001 c.pcap
capture c.pcap
flag frame 1 seq 0 full
end frames 1 packets 1 presented 0 flagged 1
$ listen 02 c.pcap
words: 2
[2]
$ listen --look 65 0200000000010001 c.pcap
words: 3
[2]
$ listen --silence zero 0200000000010001 c.pcap
words: 1
[2]
! shelf 1
$ listen 0200000000010001 c.pcap
read fault
[4]
! shelf 3
$ listen 0200000000010001 c.pcap
capture c.pcap
read fault
[4]
< c.pcap V1 75=40
$ listen 0200000000010001 c.pcap
capture c.pcap
at 1002000000 frame 1 seq 0 sample 0 0001ffff
at 1002022675 frame 1 seq 0 sample 1 0002fffe
at 1002045351 frame 1 seq 0 sample 2 0003fffd
at 1002068027 frame 1 seq 0 sample 3 0004fffc
at 1002090702 frame 1 seq 0 sample 4 0005fffb
at 1002113378 frame 1 seq 0 sample 5 0006fffa
end frames 1 packets 1 presented 1 flagged 0
< c.pcap V1 61=fe 32=4e 36=4e zeros:12
$ listen 0200000000010001 c.pcap
capture c.pcap
at 1002000000 frame 1 seq 0 sample 0 0001ffff
at 1002020833 frame 1 seq 0 sample 1 0002fffe
at 1002041666 frame 1 seq 0 sample 2 0003fffd
at 1002062500 frame 1 seq 0 sample 3 0004fffc
at 1002083333 frame 1 seq 0 sample 4 0005fffb
at 1002104166 frame 1 seq 0 sample 5 0006fffa
end frames 1 packets 1 presented 1 flagged 0
< c.pcap V1 zeros:1
$ listen 0200000000010001 c.pcap
capture c.pcap
at 1002000000 frame 1 seq 0 sample 0 0001ffff
...
at 1002104166 frame 1 seq 0 sample 5 0006fffa
capture refused: ts_sec at 106 short
[3]
< c.pcap V1 ..105
$ listen 0200000000010001 c.pcap
capture c.pcap
capture refused: packet_bytes at 40 short
[3]
< c.pcap V1 75=5000
$ listen 0200000000010001 c.pcap
capture c.pcap
flag frame 1 seq 0 malformed channels_per_frame
end frames 1 packets 1 presented 0 flagged 1
< c.pcap V1 59=01
$ listen 0200000000010001 c.pcap
capture c.pcap
end frames 1 packets 0 presented 0 flagged 0
< c.pcap V1 58=6e
$ listen 0200000000010001 c.pcap
capture c.pcap
end frames 1 packets 0 presented 0 flagged 0
";

const FILES: &str = "\
< c.pcap V1
< b.pcap V1 0=00
$ listen 0200000000010001 c.pcap c.pcap
capture c.pcap
...
end frames 1 packets 1 presented 1 flagged 0
capture c.pcap
at 1002000000 frame 1 seq 0 sample 0 0001ffff
...
end frames 1 packets 1 presented 1 flagged 0
$ listen 0200000000010001 c.pcap d.pcap
capture c.pcap
...
end frames 1 packets 1 presented 1 flagged 0
read fault
[4]
$ listen 0200000000010001 d.pcap c.pcap
read fault
[4]
$ listen 0200000000010001 c.pcap b.pcap
capture c.pcap
...
end frames 1 packets 1 presented 1 flagged 0
capture b.pcap
capture refused: magic at 0
[3]
! shelf 3
$ listen 0200000000010001 b.pcap c.pcap
capture b.pcap
capture refused: magic at 0
[3]
";

const TIMESTAMPS: &str = "\
< c.pcap V1/58 ts:3557549055 capture:10000000000
$ listen 0200000000010001 c.pcap
capture c.pcap
at 12147483647 frame 1 seq 0 sample 0 0001ffff
...
at 12147587813 frame 1 seq 0 sample 5 0006fffa
end frames 1 packets 1 presented 1 flagged 0
< c.pcap V1/58 ts:3557549056 capture:10000000000
$ listen 0200000000010001 c.pcap
capture c.pcap
flag frame 1 seq 0 late
end frames 1 packets 1 presented 0 flagged 1
< c.pcap V1/58 ts:112 capture:12884901000
$ listen 0200000000010001 c.pcap
capture c.pcap
at 12884902000 frame 1 seq 0 sample 0 0001ffff
...
at 12885006166 frame 1 seq 0 sample 5 0006fffa
end frames 1 packets 1 presented 1 flagged 0
";

const SEVERAL: &str = "\
< c.pcap V1
+ c.pcap V1/58 record:1000500000
+ c.pcap V1/58 record:1003000000
$ listen 0200000000010001 c.pcap
capture c.pcap
flag frame 2 seq 0 repeat
at 1002000000 frame 1 seq 0 sample 0 0001ffff
at 1002020833 frame 1 seq 0 sample 1 0002fffe
at 1002041666 frame 1 seq 0 sample 2 0003fffd
at 1002062500 frame 1 seq 0 sample 3 0004fffc
at 1002083333 frame 1 seq 0 sample 4 0005fffb
at 1002104166 frame 1 seq 0 sample 5 0006fffa
flag frame 3 seq 0 late
end frames 3 packets 3 presented 1 flagged 2
< c.pcap V1/58 2=02 ts:1002250000 capture:1000000000
+ c.pcap V1/58 2=00 ts:1002000000 record:1000000100
+ c.pcap V1/58 2=01 ts:1002125000 record:1000000200
$ listen 0200000000010001 c.pcap
capture c.pcap
at 1002000000 frame 2 seq 0 sample 0 0001ffff
...
at 1002104166 frame 2 seq 0 sample 5 0006fffa
at 1002125000 frame 3 seq 1 sample 0 0001ffff
...
at 1002229166 frame 3 seq 1 sample 5 0006fffa
at 1002250000 frame 1 seq 2 sample 0 0001ffff
...
at 1002354166 frame 1 seq 2 sample 5 0006fffa
end frames 3 packets 3 presented 3 flagged 0
< c.pcap V1
+ c.pcap V1/58 2=01 ts:1002125000 record:1000125000
+ c.pcap V1/58 2=02 ts:1002250000 record:1000250000
$ listen --buffer 2 0200000000010001 c.pcap
capture c.pcap
flag frame 3 seq 2 full
at 1002000000 frame 1 seq 0 sample 0 0001ffff
...
at 1002125000 frame 2 seq 1 sample 0 0001ffff
...
at 1002229166 frame 2 seq 1 sample 5 0006fffa
end frames 3 packets 3 presented 2 flagged 1
$ listen --room 30 0200000000010001 c.pcap
capture c.pcap
flag frame 2 seq 1 full
flag frame 3 seq 2 full
at 1002000000 frame 1 seq 0 sample 0 0001ffff
...
at 1002104166 frame 1 seq 0 sample 5 0006fffa
end frames 3 packets 3 presented 1 flagged 2
";

/// The timestamp of the first packet, 5 s, belongs to the fifth of its six blocks. No block of the second packet has a
/// timestamp.
const BLOCKS: &str = "\
< c.pcap V2 27=0c ts:705032704 capture:4997916666
+ c.pcap V2 1=8001 27=12 ts:0 record:4998041666
$ listen 0200000000010001 c.pcap
capture c.pcap
at 4999916666 frame 1 seq 0 sample 0 4000000040000000
at 4999937500 frame 1 seq 0 sample 1 4000000040000000
at 4999958333 frame 1 seq 0 sample 2 4000000040000000
at 4999979166 frame 1 seq 0 sample 3 4000000040000000
at 5000000000 frame 1 seq 0 sample 4 4000000040000000
at 5000020833 frame 1 seq 0 sample 5 4000000040000000
at 5000041666 frame 2 seq 1 sample 0 4000000040000000
at 5000062500 frame 2 seq 1 sample 1 4000000040000000
at 5000083333 frame 2 seq 1 sample 2 4000000040000000
at 5000104166 frame 2 seq 1 sample 3 4000000040000000
at 5000125000 frame 2 seq 1 sample 4 4000000040000000
at 5000145833 frame 2 seq 1 sample 5 4000000040000000
end frames 2 packets 2 presented 2 flagged 0
@ c.pcap 1
$ listen 0200000000010001 c.pcap
capture c.pcap
flag frame 1 seq 1 untimed
end frames 1 packets 1 presented 0 flagged 1
< c.pcap V2 21=08 29=ff ..32 capture:1000000000
$ listen 0200000000010001 c.pcap
capture c.pcap
flag frame 1 seq 0 empty
end frames 1 packets 1 presented 0 flagged 1
";

/// Packets 0 to 3 are the first fragment of a NAL unit, a middle fragment, the same middle fragment again, and the last
/// fragment.
const FRAGMENTS: &str = "\
< c.pcap V3 28=7c85 capture:1000000000
+ c.pcap V3 2=01 28=7c05 record:1000000000
+ c.pcap V3 2=01 28=7c05 record:1000000000
+ c.pcap V3 2=02 28=7c45 record:1000000000
$ listen 0200000000010001 c.pcap
capture c.pcap
flag frame 1 seq 0 broken
flag frame 2 seq 1 broken
flag frame 3 seq 1 broken
flag frame 4 seq 2 broken
end frames 4 packets 4 presented 0 flagged 4
@ c.pcap 0 1 3
$ listen 0200000000010001 c.pcap
capture c.pcap
at 1002000000 frame 3 seq 2 sample 0 65000a000a000a
end frames 3 packets 3 presented 1 flagged 0
< c.pcap V3 1=80 28=7c85 ts:0 capture:1000000000
+ c.pcap V3 1=80 2=01 28=7c05 ts:0 record:1000000000
+ c.pcap V3 1=80 2=01 28=7c05 ts:0 record:1000000000
+ c.pcap V3 2=02 28=7c45 record:1000000000
$ listen 0200000000010001 c.pcap
capture c.pcap
flag frame 1 seq 0 broken
flag frame 2 seq 1 broken
flag frame 3 seq 1 broken
flag frame 4 seq 2 broken
end frames 4 packets 4 presented 0 flagged 4
@ c.pcap 0 1 3
$ listen 0200000000010001 c.pcap
capture c.pcap
at 1002000000 frame 3 seq 2 sample 0 65000a000a000a
end frames 3 packets 3 presented 1 flagged 0
< c.pcap V3 28=7cc5 capture:1000000000
$ listen 0200000000010001 c.pcap
capture c.pcap
flag frame 1 seq 0 malformed fu_header
end frames 1 packets 1 presented 0 flagged 1
< c.pcap V3 28=7c85 capture:1000000000
+ c.pcap V3 2=01 28=7c45 ts:1002000001 record:1000000000
$ listen 0200000000010001 c.pcap
capture c.pcap
flag frame 1 seq 0 broken
flag frame 2 seq 1 broken
end frames 2 packets 2 presented 0 flagged 2
< c.pcap V3 28=7c85 capture:1000000000
+ c.pcap V3 1=80 2=01 28=7c45 ts:0 record:1000000000
$ listen 0200000000010001 c.pcap
capture c.pcap
flag frame 1 seq 0 broken
flag frame 2 seq 1 untimed
end frames 2 packets 2 presented 0 flagged 2
";

/// A timestamp of the clock arrives after the packets that it covers. In the last run, the clock states a rate of 44.1
/// kHz, but its events are 20,833.3 ns apart. Samples of the 48 kHz stream are therefore 19,140.625 ns apart.
const CLOCKS: &str = "\
< c.pcap V4 capture:1000000000
+ c.pcap V1/58 ts:1004000000 record:1002000000
+ c.pcap V1/58 2=01 ts:1004125000 record:1002125000
+ c.pcap V4 2=01 point:1004000000 record:1002200000
$ listen --look 0 --clock 0200000000010002 0200000000010001 c.pcap
capture c.pcap
flag frame 2 seq 0 noclock
flag frame 3 seq 1 noclock
end frames 4 packets 2 presented 0 flagged 2
$ listen --look 1 --clock 0200000000010002 0200000000010001 c.pcap
capture c.pcap
flag frame 2 seq 0 noclock
at 1004125000 frame 3 seq 1 sample 0 0001ffff
at 1004145833 frame 3 seq 1 sample 1 0002fffe
...
end frames 4 packets 2 presented 1 flagged 1
$ listen --look 2 --clock 0200000000010002 0200000000010001 c.pcap
capture c.pcap
at 1004000000 frame 2 seq 0 sample 0 0001ffff
at 1004020833 frame 2 seq 0 sample 1 0002fffe
...
at 1004125000 frame 3 seq 1 sample 0 0001ffff
...
end frames 4 packets 2 presented 2 flagged 0
< c.pcap V4 capture:1000000000
+ c.pcap V1/58 ts:1004000000 record:1002000000
+ c.pcap V1/58 2=01 ts:1004125000 record:1002125000
+ c.pcap V4 1=88 2=01 point:1004000000 record:1002200000
$ listen --look 2 --clock 0200000000010002 0200000000010001 c.pcap
capture c.pcap
flag frame 2 seq 0 noclock
flag frame 3 seq 1 noclock
end frames 4 packets 2 presented 0 flagged 2
< c.pcap V4 12=0000ac44 capture:1000000000
+ c.pcap V1/58 ts:1004000000 record:1002000000
+ c.pcap V1/58 2=01 ts:1004125000 record:1002125000
+ c.pcap V4 2=01 12=0000ac44 point:1004000000 record:1002200000
$ listen --look 2 --clock 0200000000010002 0200000000010001 c.pcap
capture c.pcap
at 1004000000 frame 2 seq 0 sample 0 0001ffff
at 1004019140 frame 2 seq 0 sample 1 0002fffe
at 1004038281 frame 2 seq 0 sample 2 0003fffd
at 1004057421 frame 2 seq 0 sample 3 0004fffc
at 1004076562 frame 2 seq 0 sample 4 0005fffb
at 1004095703 frame 2 seq 0 sample 5 0006fffa
at 1004125000 frame 3 seq 1 sample 0 0001ffff
at 1004144140 frame 3 seq 1 sample 1 0002fffe
at 1004163281 frame 3 seq 1 sample 2 0003fffd
at 1004182421 frame 3 seq 1 sample 3 0004fffc
at 1004201562 frame 3 seq 1 sample 4 0005fffb
at 1004220703 frame 3 seq 1 sample 5 0006fffa
end frames 4 packets 2 presented 2 flagged 0
";

/// `=` is followed by one number for each of the three devices. The digits of a device's number are the frame numbers
/// of the items that the device took, in order. If the device took no item, its number is 0. In the last run, each
/// packet makes the packet before it due, and the third record exceeds the limit.
const RACKS: &str = "\
< one.pcap V1
! devices 1 0 0
$ listen 0200000000010001 one.pcap
capture one.pcap
at 1002000000 frame 1 seq 0 sample 0 0001ffff
...
end frames 1 packets 1 presented 1 flagged 0
device fault
[8]
= 0 1 1
! devices 1 1 1
$ show one.pcap
frame 1 at 1000000000 aaf *
end frames 1
= 0 0 0
< three.pcap V1
+ three.pcap V1/58 record:1000500000
+ three.pcap V1/58 record:1003000000
! devices 0 2 0
$ listen 0200000000010001 three.pcap
capture three.pcap
flag frame 2 seq 0 repeat
at 1002000000 frame 1 seq 0 sample 0 0001ffff
...
flag frame 3 seq 0 late
end frames 3 packets 3 presented 1 flagged 2
device fault
[8]
= 213 2 213
< c.pcap V1
+ c.pcap V1/58 2=01 ts:1002125000 record:1000125000
$ listen 0200000000010001 c.pcap
capture c.pcap
...
end frames 2 packets 2 presented 2 flagged 0
= 12 12 12
! devices 2 1 0
$ listen 0200000000010001 c.pcap
capture c.pcap
...
end frames 2 packets 2 presented 2 flagged 0
device fault
[8]
= 1 0 12
! devices 0 3 0
$ listen 0200000000010001 c.pcap c.pcap
capture c.pcap
...
end frames 2 packets 2 presented 2 flagged 0
capture c.pcap
...
end frames 2 packets 2 presented 2 flagged 0
device fault
[8]
= 1212 12 1212
! devices 1 0 0
$ listen 0200000000010001 c.pcap d.pcap
capture c.pcap
...
end frames 2 packets 2 presented 2 flagged 0
read fault
[4]
= 0 12 12
! sink 1
$ listen 0200000000010001 c.pcap
[5]
= 0 0 0
! sink 2
$ listen --ring 1 0200000000010001 c.pcap
capture c.pcap
[5]
= 1 1 1
! sink 3
$ listen --ring 1 0200000000010001 c.pcap
capture c.pcap
...
at 1002104166 frame 1 seq 0 sample 5 0006fffa
[5]
= 12 12 12
+ c.pcap x00
! devices 2 0 0
$ listen 0200000000010001 c.pcap
capture c.pcap
...
at 1002229166 frame 2 seq 1 sample 5 0006fffa
capture refused: ts_sec at 188 short
[3]
= 1 12 12
< c.pcap V1
+ c.pcap V1/58 2=01 ts:2002000000 record:2000000000
+ c.pcap V1/58 2=02 ts:3002000000 record:3000000000
! devices 0 1 0
$ listen --limit 269 0200000000010001 c.pcap
capture c.pcap
at 1002000000 frame 1 seq 0 sample 0 0001ffff
...
at 1002104166 frame 1 seq 0 sample 5 0006fffa
limit 269
[7]
= 1 0 1
";

#[test]
fn the_words_name_the_device_of_raw_audio_before_that_of_h264(
    rt: HostRuntime,
) -> Result<(), NoMemory> {
    let line = "listen --annexb y --raw x --silence am824 0200000000010001 c.pcap";
    let words = words_of(rt.alloc(), line)?;
    let raw = DeviceWord::Raw {
        word: 4,
        silence: Silence::Am824,
    };
    assert_eq!(rt; device_word(&words, 0), Some(raw));
    assert_eq!(rt;
        device_word(&words, 1),
        Some(DeviceWord::AnnexB { word: 2 })
    );
    assert_eq!(rt; device_word(&words, 2), None);
    Ok(())
}

/// The transcripts of runs of `listen`, each after its title.
const TRANSCRIPTS: [(&str, &str); 8] = [
    (
        "a capture is heard up to its end, its limit or its first refusal",
        CAPTURES,
    ),
    (
        "captures are heard one after the other up to the first fault",
        FILES,
    ),
    (
        "a timestamp is unfolded to the half circle around the arrival",
        TIMESTAMPS,
    ),
    (
        "packets are presented in order once and as far as there is room",
        SEVERAL,
    ),
    ("blocks are counted from the stamped one", BLOCKS),
    ("a NAL unit is heard only of all its fragments", FRAGMENTS),
    (
        "samples follow the points that the look-ahead reaches",
        CLOCKS,
    ),
    ("each device takes what is presented until it fails", RACKS),
];

#[test]
fn listen_prints_what_its_transcripts_state(rt: HostRuntime) -> Result<(), NoMemory> {
    follow_each(&rt, rt.alloc(), &TRANSCRIPTS)
}
