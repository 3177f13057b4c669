//! The command `check`.

use crate::transcript::follow_each;
use avtp_base::NoMemory;

const CAPTURES: &str = "\
$ check
words: 2
[2]
< c.pcap V1
$ check c.pcap
capture c.pcap
end frames 1 streams 1 findings 0
< c.pcap V1 61=fe 32=4e 36=4e zeros:12
$ check c.pcap
capture c.pcap
finding frame 1 id 0200000000010001 reserved
end frames 1 streams 1 findings 1
[1]
< c.pcap V1 59=80
$ check c.pcap
capture c.pcap
finding frame 1 id 0200000000010001 stamp
end frames 1 streams 1 findings 1
[1]
$ check c.pcap c.pcap
capture c.pcap
finding frame 1 id 0200000000010001 stamp
end frames 1 streams 1 findings 1
capture c.pcap
finding frame 1 id 0200000000010001 stamp
end frames 1 streams 1 findings 1
[1]
$ check c.pcap d.pcap
capture c.pcap
finding frame 1 id 0200000000010001 stamp
end frames 1 streams 1 findings 1
read fault
[4]
$ check --limit 105 c.pcap c.pcap
capture c.pcap
limit 105
[7]
< c.pcap V1 59=80 61=fe
$ check c.pcap
capture c.pcap
finding frame 1 id 0200000000010001 reserved
finding frame 1 id 0200000000010001 stamp
end frames 1 streams 1 findings 2
[1]
< c.pcap V1 59=00 61=fe
$ check c.pcap
capture c.pcap
finding frame 1 id 0200000000010001 reserved
end frames 1 streams 0 findings 1
[1]
< c.pcap V1 59=91
$ check c.pcap
capture c.pcap
finding frame 1 malformed version at 19
end frames 1 streams 0 findings 1
[1]
< c.pcap V1 32=0d 36=0d ..53
$ check c.pcap
capture c.pcap
finding frame 1 malformed ethertype at 12 short
end frames 1 streams 0 findings 1
[1]
< c.pcap V1 58=6e
$ check c.pcap
capture c.pcap
end frames 1 streams 0 findings 0
< c.pcap V1 ..105
$ check c.pcap
capture c.pcap
capture refused: packet_bytes at 40 short
[3]
< c.pcap V1 59=80 zeros:1
$ check c.pcap
capture c.pcap
finding frame 1 id 0200000000010001 stamp
capture refused: ts_sec at 106 short
[3]
< c.pcap V1 ..24
$ check c.pcap
capture c.pcap
end frames 0 streams 0 findings 0
";

/// First, all packets are captured as they were sent. Then one packet is lost and one packet is repeated. In a further
/// capture, a media clock restart comes too early.
const STREAMS: &str = "\
< a.raw noise:480
$ talk --sparse a.raw c.pcap
talk packets 20 clock 0
$ check c.pcap
capture c.pcap
end frames 20 streams 1 findings 0
$ talk a.raw c.pcap
talk packets 20 clock 0
$ check c.pcap
capture c.pcap
end frames 20 streams 1 findings 0
@ c.pcap 0 1 3 3 4
$ check c.pcap
capture c.pcap
finding frame 3 id 0200000000010001 step 2
finding frame 4 id 0200000000010001 step 0
end frames 5 streams 1 findings 2
[1]
$ talk --restart 8 a.raw c.pcap
talk packets 20 clock 0
@ c.pcap 0 1 2 3 4 5 6 7 8 9 10 11 12 16
$ check c.pcap
capture c.pcap
finding frame 14 id 0200000000010001 step 4
finding frame 14 id 0200000000010001 hold 5
end frames 14 streams 1 findings 2
[1]
@ c.pcap 6 7 8 9
$ check c.pcap
capture c.pcap
end frames 4 streams 1 findings 0
";

const PCAPNG: &str = "\
< c.pcap V5
$ show c.pcap
frame 1 at 1000000000 aaf id 0200000000010001 seq 0 ts 1002000000 tv 1 tu 0 mr 0 sp 0 evt 0 format int16 rate 48000 channels 2 depth 16 count 6 bytes 24
end frames 1
$ listen 0200000000010001 c.pcap
capture c.pcap
at 1002000000 frame 1 seq 0 sample 0 0001ffff
at 1002020833 frame 1 seq 0 sample 1 0002fffe
at 1002041666 frame 1 seq 0 sample 2 0003fffd
at 1002062500 frame 1 seq 0 sample 3 0004fffc
at 1002083333 frame 1 seq 0 sample 4 0005fffb
at 1002104166 frame 1 seq 0 sample 5 0006fffa
end frames 1 packets 1 presented 1 flagged 0
$ check c.pcap
capture c.pcap
end frames 1 streams 1 findings 0
$ show --limit 160 c.pcap
frame 1 at 1000000000 aaf *
end frames 1
$ show --limit 159 c.pcap
limit 159
[7]
$ show --limit 3 c.pcap
limit 3
[7]
$ check --limit 159 c.pcap
capture c.pcap
limit 159
[7]
< c.pcap V5 ..159
$ show c.pcap
capture refused: block_body at 68 short
[3]
< c.pcap V5 156=60
$ show c.pcap
capture refused: block_trailer at 156
[3]
< c.pcap V5 ..28
$ show c.pcap
end frames 0
< c.pcap V5 ..4
$ show c.pcap
capture refused: block_length at 4 short
[3]
< c.pcap V5 ..3
$ show c.pcap
capture refused: magic at 0 short
[3]
< c.pcap V5 3=0b
$ show c.pcap
capture refused: magic at 0
[3]
< c.pcap V5 36=02
$ show --limit 60 c.pcap
capture refused: link_type at 36
[3]
";

/// The transcripts of runs of `check`, each after its title.
const TRANSCRIPTS: [(&str, &str); 3] = [
    ("each packet is checked by itself", CAPTURES),
    ("packets are checked against those of their stream", STREAMS),
    ("a pcapng file is read as the same capture", PCAPNG),
];

#[test]
fn check_prints_what_its_transcripts_state(rt: HostRuntime) -> Result<(), NoMemory> {
    follow_each(&rt, rt.alloc(), &TRANSCRIPTS)
}
