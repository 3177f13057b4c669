//! The command `gateway`. With 24 bits per sample, the packet of the first vector has four stereo sample frames.

use crate::transcript::{columns, follow, follow_each};
use avtp_base::NoMemory;

const TURNED: &str = "\
< a.raw noise:36
$ talk --format int24 a.raw c.pcap
talk packets 1 clock 0
$ gateway --to am824 0200000000010001 c.pcap d.pcap
gateway batches 1 packets 1 skipped 0
$ listen 0200000000010001 d.pcap
capture d.pcap
at 1002000000 frame 1 seq 0 sample 0 4000010240030405
at 1002020833 frame 1 seq 0 sample 1 4006070840090a0b
at 1002041666 frame 1 seq 0 sample 2 400c0d0e400f1011
at 1002062500 frame 1 seq 0 sample 3 4012131440151617
at 1002083333 frame 1 seq 0 sample 4 4018191a401b1c1d
at 1002104166 frame 1 seq 0 sample 5 401e1f2040212223
end frames 1 packets 1 presented 1 flagged 0
$ check d.pcap
capture d.pcap
end frames 1 streams 1 findings 0
$ gateway --to aaf 0200000000010001 d.pcap e.pcap
gateway batches 1 packets 1 skipped 0
~ e.pcap c.pcap
< c.pcap V2 ..56 21=20 25=01 27=0c ts:705032704 capture:4997916666
+ c.pcap V2 ..56 1=8001 21=20 25=01 27=12 ts:0 record:4998041666
$ gateway --to aaf 0200000000010001 c.pcap d.pcap
gateway batches 2 packets 4 skipped 0
$ listen 0200000000010001 d.pcap
capture d.pcap
at 4999916666 frame 1 seq 0 sample 0 000000
at 4999937500 frame 2 seq 1 sample 0 000000
at 4999958333 frame 2 seq 1 sample 1 000000
at 4999979166 frame 2 seq 1 sample 2 000000
at 5000000000 frame 2 seq 1 sample 3 000000
at 5000020833 frame 2 seq 1 sample 4 000000
at 5000041666 frame 3 seq 2 sample 0 000000
at 5000062500 frame 4 seq 3 sample 0 000000
at 5000083333 frame 4 seq 3 sample 1 000000
at 5000104166 frame 4 seq 3 sample 2 000000
at 5000125000 frame 4 seq 3 sample 3 000000
at 5000145833 frame 4 seq 3 sample 4 000000
end frames 4 packets 4 presented 4 flagged 0
< c.pcap V1
$ gateway --to am824 0200000000010001 c.pcap new.pcap
gateway input: format at frame 1
[9]
$ show new.pcap
read fault
[4]
< c.pcap V4 capture:1000000000
$ gateway --to aaf 0200000000010001 c.pcap d.pcap
gateway batches 0 packets 0 skipped 0
? d.pcap V1 ..24
";

/// After a packet of four blocks, the DBC of the next packet is the next multiple of eight.
const OUTPUT: &str = "\
< in V1 74=03 77=18
+ in V1/58 2=01 16=03 19=18 ts:1012000000 record:1010000000
< first V2 ..32 21=28 x400001ff40ff000240fffe004003fffd400004ff40fc000540fffb004006fffa capture:1000000000
< both V2 ..32 21=28 x400001ff40ff000240fffe004003fffd400004ff40fc000540fffb004006fffa capture:1000000000
+ both V2 ..32 2=01 21=28 27=08 ts:1012000000 x400001ff40ff000240fffe004003fffd400004ff40fc000540fffb004006fffa record:1010000000
$ gateway --to am824 0200000000010001 in out
gateway batches 2 packets 2 skipped 0
~ out both
$ check out
capture out
end frames 2 streams 1 findings 0
! shelf 7
$ gateway --to am824 0200000000010001 in out
read fault
[4]
~ out first
! shelf 6
$ gateway --to am824 0200000000010001 in out
read fault
[4]
? out V1 ..24
! sink 1
$ gateway --to am824 0200000000010001 in out
[5]
~ out both
< in V5 122=03 125=18
$ gateway --to am824 0200000000010001 in out
gateway batches 1 packets 1 skipped 0
~ out first
$ gateway --to am824 --id 0200000000010009 0200000000010001 in out
gateway batches 1 packets 1 skipped 0
? out V2 ..32 11=09 21=28 x400001ff40ff000240fffe004003fffd400004ff40fc000540fffb004006fffa capture:1000000000
$ gateway --to aaf 0200000000010009 out back
gateway batches 1 packets 1 skipped 0
? back V1 69=09 74=03 77=18
";

/// The last sample of the first packet is due at 1002062500. The largest possible arrival is one nanosecond below 2^32
/// seconds.
const SKIPPED: &str = "\
< in V1 74=03 77=18
+ in V1/58 2=01 16=03 19=18 ts:1002062500 record:1000062500
$ gateway --to am824 0200000000010001 in out
skip frame 2 overlap
gateway batches 2 packets 1 skipped 1
[1]
# out 122
< in V1 74=03 77=18
+ in V1/58 2=01 16=03 19=18 ts:1002062501 record:1000062501
$ gateway --to am824 0200000000010001 in out
gateway batches 2 packets 2 skipped 0
# out 220
< in V1/58 16=03 19=18 ts:2000000 capture:4294967295999000000
$ gateway --to am824 0200000000010001 in out
skip frame 1 range
gateway batches 1 packets 0 skipped 1
[1]
? out V1 ..24
< in V1/58 16=03 19=18 ts:1999999 capture:4294967295999000000
$ gateway --to am824 0200000000010001 in out
gateway batches 1 packets 1 skipped 0
? out V2 ..32 21=28 ts:1999999 x400001ff40ff000240fffe004003fffd400004ff40fc000540fffb004006fffa capture:4294967295999999999
";

const UNMADE: &str = "\
< out x00
$ gateway --to aaf 0200000000010001 in out
read fault
[4]
? out x00
< in V2 capture:1000000000
+ in x00
$ gateway --to aaf 0200000000010001 in out
capture refused: ts_sec at 138 short
[3]
? out x00
$ gateway --to aaf --limit 138 0200000000010001 in out
limit 138
[7]
? out x00
< in V2 capture:1000000000
+ in V1/58 record:1000000000
$ gateway --to aaf --limit 138 0200000000010001 in out
limit 138
[7]
? out x00
< in V1 0=00
$ gateway --to aaf 0200000000010001 in out
capture refused: magic at 0
[3]
? out x00
< in V2 capture:1000000000
$ gateway 0200000000010001 in out
words: 1
[2]
$ gateway --to aaf 0200000000010001 in in
words: 1
[2]
$ gateway --to int24 0200000000010001 in out
words: 3
[2]
$ gateway --to aaf --ring 4 0200000000010001 in out
words: 4
[2]
$ gateway --to aaf 0200000000010001 in
words: 6
[2]
? out x00
? in V2 capture:1000000000
$ gateway --to aaf 0200000000010001 in out
gateway batches 1 packets 1 skipped 0
";

/// The format that is asked for, two packets, and the fault that the scan finds.
const FAULTS: &str = "\
am824 | V2 | V1/58 16=03 19=18 | kind at frame 1
am824 | V1/58 16=03 19=18 | V2 | kind at frame 2
am824 | V3 | V1/58 16=03 19=18 | kind at frame 1
am824 | V1/58 16=03 19=18 | V3 16=00 | kind at frame 2
am824 | V1/58 | V2 | format at frame 1
am824 | V1/58 16=03 19=18 | V1/58 16=02 19=20 | format at frame 2
am824 | V1/58 16=03 19=00 | V1/58 16=03 19=10 | format at frame 2
am824 | V1/58 16=03 17=10 19=18 | V1/58 | rate at frame 1
am824 | V1/58 16=03 19=18 | V1/58 16=03 17=40 19=18 | rate at frame 2
am824 | V1/58 ..24 16=03 17=5101 19=18 20=0303 zeros:771 | V1/58 | channels at frame 1
am824 | V1/58 ..24 16=03 17=5100 19=18 20=0300 zeros:768 | V1/58 16=03 19=18 | channels at frame 2
am824 | V1/58 16=03 19=18 | V1/58 16=03 17=4001 19=18 | rate at frame 2
aaf | V1/58 | V2 | kind at frame 1
aaf | V2 | V1/58 16=03 19=18 | kind at frame 2
aaf | V2 | V3 | kind at frame 2
aaf | V2 | V2 29=03 76=41 | rate at frame 2
aaf | V2 | V2 25=01 76=41 | channels at frame 2
aaf | V2 32=41 | V1/58 | label at frame 1
aaf | V2 | V2 76=42 | label at frame 2
";

#[test]
fn the_first_fault_of_the_scan_ends_the_run(rt: HostRuntime) -> Result<(), NoMemory> {
    for row in FAULTS.lines() {
        let [to, first, second, fault, _] = columns(row);
        let lines = format!(in rt.alloc();
            "\
< in {first} capture:1000000000
+ in {second} record:1000083333
< out x00
$ gateway --to {to} 0200000000010001 in out
gateway input: {fault}
[9]
? out x00
"
        )?;
        follow(&rt, rt.alloc(), row, &lines)?;
    }
    Ok(())
}

/// The format that is asked for, a packet that the scan ignores, and a packet that is converted.
const PASSED: &str = "\
am824 | V1/58 1=01 | V1/58 16=03 19=18
am824 | V1/58 11=02 | V1/58 16=03 19=18
am824 | V1/58 17=5000 | V1/58 16=03 19=18
am824 | V1/58 ..24 20=0000 | V1/58 16=03 19=18
am824 | V1/58 17=00 | V1/58 16=03 19=18
am824 | V1/58 3=01 16=03 19=18 | V1/58 16=03 19=18
am824 | V2 22=1f | V1/58 16=03 19=18
am824 | V4 | V1/58 16=03 19=18
aaf | V2 29=ff 76=42 | V2
aaf | V2 ..32 21=08 | V2
aaf | V1/58 ..24 20=0000 | V2
";

#[test]
fn a_packet_without_samples_of_the_stream_has_no_fault(rt: HostRuntime) -> Result<(), NoMemory> {
    for row in PASSED.lines() {
        let [to, first, second, _, _] = columns(row);
        let lines = format!(in rt.alloc();
            "\
< in {first} capture:1000000000
+ in {second} record:1000000000
$ gateway --to {to} 0200000000010001 in out
gateway batches 1 packets 1 skipped 0
"
        )?;
        follow(&rt, rt.alloc(), row, &lines)?;
    }
    Ok(())
}

/// For each format, one second of audio in 1,000 packets. Then an eighth of a second of AM824, in packets of six
/// blocks. The timestamp of a packet of six blocks can belong to a block after the first.
const SECONDS: &str = "\
< a.raw noise:96000
$ talk --format int24 --rate 32000 --channels 1 --count 32 a.raw c
talk packets 1000 clock 0
$ gateway --to am824 0200000000010001 c d
gateway batches 1000 packets 1000 skipped 0
$ check d
capture d
end frames 1000 streams 1 findings 0
$ gateway --to aaf 0200000000010001 d e
gateway batches 1000 packets 1000 skipped 0
~ e c
< a.raw x4000010240fffefd*16000
$ talk --kind am824 --rate 32000 --channels 1 --count 32 a.raw c
talk packets 1000 clock 0
$ gateway --to aaf 0200000000010001 c d
gateway batches 1000 packets 1000 skipped 0
$ check d
capture d
end frames 1000 streams 1 findings 0
$ gateway --to am824 0200000000010001 d e
gateway batches 1000 packets 1000 skipped 0
~ e c
< a.raw x4000010240fffefd*6000
$ talk --kind am824 a.raw c
talk packets 1000 clock 0
$ gateway --to aaf 0200000000010001 c d
gateway batches 1000 packets *
$ gateway --to am824 0200000000010001 d e
gateway batches *
$ check e
capture e
end frames *
$ gateway --to aaf 0200000000010001 e f
gateway batches *
~ f d
$ gateway --to am824 0200000000010001 f g
gateway batches *
~ g e
";

/// The transcripts of runs of `gateway`, each after its title.
const TRANSCRIPTS: [(&str, &str); 5] = [
    ("each sample is due when it was in the other format", TURNED),
    ("the capture has the packets of what was due", OUTPUT),
    (
        "a batch that overlaps or comes too late is skipped",
        SKIPPED,
    ),
    ("a run that ends before the scan does makes nothing", UNMADE),
    ("a second turned there and back is the same bytes", SECONDS),
];

#[test]
fn gateway_prints_what_its_transcripts_state(rt: HostRuntime) -> Result<(), NoMemory> {
    follow_each(&rt, rt.alloc(), &TRANSCRIPTS)
}
