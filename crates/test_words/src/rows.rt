//! Command lines. In a word, `_` stands for a space, and `''` is an empty word.

/// Command lines, and what each of them asks for: the options that are not at their default, and the names.
pub const COMMANDS: &str = "\
show c.pcap => show (c.pcap)
show --limit 1 c.pcap => show limit 1 (c.pcap)
show --limit 1099511627776 c.pcap => show (c.pcap)
show --limit 106 a_b => show limit 106 (a b)
show show => show (show)
show a-b => show (a-b)
check a => check (a)
check a a => check (a) (a)
check b a b => check (b) (a) (b)
check check 5 => check (check) (5)
check --limit 1 a b- => check limit 1 (a) (b-)
check --limit 106 1 => check limit 106 (1)
check --limit 1099511627776 a => check (a)
soak 0 => soak 0
soak 1 => soak 1
soak 1000000 => soak 1000000
listen 02aBCdef00010001 c.pcap => listen 02abcdef00010001 (c.pcap)
listen ffffffffffffffff c.pcap => listen ffffffffffffffff (c.pcap)
listen --buffer 65536 0200000000010001 c.pcap => listen 0200000000010001 buffer 65536 (c.pcap)
listen --room 1 --buffer 2 0200000000010001 c.pcap => listen 0200000000010001 buffer 2 room 1 (c.pcap)
listen --room 1073741824 0200000000010001 c.pcap => listen 0200000000010001 room 1073741824 (c.pcap)
listen --lead 0 0200000000010001 c.pcap => listen 0200000000010001 lead 0 (c.pcap)
listen --lead 1000000000 0200000000010001 c.pcap => listen 0200000000010001 lead 1000000000 (c.pcap)
listen --limit 1 0200000000010001 c.pcap => listen 0200000000010001 limit 1 (c.pcap)
listen --limit 1099511627776 0200000000010001 c.pcap => listen 0200000000010001 (c.pcap)
listen --look 0 0200000000010001 c.pcap => listen 0200000000010001 (c.pcap)
listen --look 64 0200000000010001 c.pcap => listen 0200000000010001 look 64 (c.pcap)
listen --clock 0000000000000000 0200000000010001 c.pcap => listen 0200000000010001 clock 0000000000000000 (c.pcap)
listen --clock 02aBCdef00010001 0200000000010001 c.pcap => listen 0200000000010001 clock 02abcdef00010001 (c.pcap)
listen --ring 1 0200000000010001 c.pcap => listen 0200000000010001 ring 1 (c.pcap)
listen --ring 64 0200000000010001 c.pcap => listen 0200000000010001 (c.pcap)
listen --ring 256 0200000000010001 c.pcap => listen 0200000000010001 ring 256 (c.pcap)
listen --crf-shift 0 0200000000010001 c.pcap => listen 0200000000010001 (c.pcap)
listen --crf-shift 1 0200000000010001 c.pcap => listen 0200000000010001 shift 1 (c.pcap)
listen --crf-shift -1 0200000000010001 c.pcap => listen 0200000000010001 shift -1 (c.pcap)
listen --crf-shift 1000000000 0200000000010001 c.pcap => listen 0200000000010001 shift 1000000000 (c.pcap)
listen --crf-shift -1000000000 0200000000010001 c.pcap => listen 0200000000010001 shift -1000000000 (c.pcap)
listen --crf-shift -5 --clock 02aBCdef00010001 --look 2 0200000000010001 c => listen 0200000000010001 look 2 clock 02abcdef00010001 shift -5 (c)
listen --raw x 0200000000010001 c.pcap => listen 0200000000010001 zero raw 2 (x) (c.pcap)
listen --raw x --silence zero 0200000000010001 c.pcap => listen 0200000000010001 zero raw 2 (x) (c.pcap)
listen --raw x --silence am824 0200000000010001 c.pcap => listen 0200000000010001 am824 raw 2 (x) (c.pcap)
listen --silence am824 --raw am824 0200000000010001 c.pcap => listen 0200000000010001 am824 raw 4 (am824) (c.pcap)
listen --silence zero --raw am824 0200000000010001 c.pcap => listen 0200000000010001 zero raw 4 (am824) (c.pcap)
listen --annexb x 0200000000010001 c.pcap => listen 0200000000010001 annexb 2 (x) (c.pcap)
listen --annexb y --raw x 0200000000010001 c.pcap => listen 0200000000010001 zero raw 4 (x) annexb 2 (y) (c.pcap)
listen --raw raw --look 0 --annexb annexb 0200000000010001 c => listen 0200000000010001 zero raw 2 (raw) annexb 6 (annexb) (c)
listen --ring 64 --raw 64 --annexb listen 0200000000010001 c => listen 0200000000010001 zero raw 4 (64) annexb 6 (listen) (c)
listen --raw 0200000000010001 --look 0 0200000000010001 c => listen 0200000000010001 zero raw 2 (0200000000010001) (c)
listen --annexb C.pcap --raw c.pcap_ 0200000000010001 c.pcap => listen 0200000000010001 zero raw 4 (c.pcap ) annexb 2 (C.pcap) (c.pcap)
listen --raw x- --annexb ./x- 0200000000010001 c.pcap => listen 0200000000010001 zero raw 2 (x-) annexb 4 (./x-) (c.pcap)
listen 0200000000010001 a b => listen 0200000000010001 (a) (b)
listen 0200000000010001 b a b => listen 0200000000010001 (b) (a) (b)
listen 0200000000010001 0200000000010001 listen 5 => listen 0200000000010001 (0200000000010001) (listen) (5)
listen --lead 2000000 0200000000010001 a b- _ => listen 0200000000010001 (a) (b-) ( )
agree 0200000000010001 a b => agree 0200000000010001 (a) (b)
agree 02aBCdef00010001 b a => agree 02abcdef00010001 (b) (a)
agree FFFFFFFFFFFFFFFF a a => agree ffffffffffffffff (a) (a)
agree 0200000000010001 0200000000010001 agree => agree 0200000000010001 (0200000000010001) (agree)
agree 0200000000010001 a- _ => agree 0200000000010001 (a-) ( )
agree --limit 1 0200000000010001 a b => agree 0200000000010001 limit 1 (a) (b)
agree --limit 1099511627776 0200000000010001 a b => agree 0200000000010001 (a) (b)
agree --buffer 1 --room 1 0200000000010001 a b => agree 0200000000010001 buffer 1 room 1 (a) (b)
agree --room 1073741824 --buffer 65536 0200000000010001 a b => agree 0200000000010001 buffer 65536 room 1073741824 (a) (b)
agree --look 0 0200000000010001 a b => agree 0200000000010001 (a) (b)
agree --look 64 0200000000010001 a b => agree 0200000000010001 look 64 (a) (b)
agree --lead 0 0200000000010001 a b => agree 0200000000010001 lead 0 (a) (b)
agree --lead 1000000000 0200000000010001 a b => agree 0200000000010001 lead 1000000000 (a) (b)
agree --clock 02aBCdef00010001 0200000000010001 a b => agree 0200000000010001 clock 02abcdef00010001 (a) (b)
agree --crf-shift -1000000000 0200000000010001 a b => agree 0200000000010001 shift -1000000000 (a) (b)
agree --crf-shift 5 --lead 7 --clock 0000000000000000 --limit 106 --look 2 --room 3 --buffer 4 0200000000010001 a b => agree 0200000000010001 limit 106 buffer 4 room 3 look 2 lead 7 clock 0000000000000000 shift 5 (a) (b)
gateway --to am824 0200000000010001 a b => gateway 0200000000010001 to am824 (a) (b)
gateway --to aaf 0200000000010001 a b => gateway 0200000000010001 to aaf (a) (b)
gateway --to aaf 02aBCdef00010001 b a => gateway 02abcdef00010001 to aaf (b) (a)
gateway --to aaf FFFFFFFFFFFFFFFF a A => gateway ffffffffffffffff to aaf (a) (A)
gateway --to am824 0000000000000000 0000000000000000 gateway => gateway 0000000000000000 to am824 (0000000000000000) (gateway)
gateway --to am824 0200000000010001 am824 aaf => gateway 0200000000010001 to am824 (am824) (aaf)
gateway --to aaf 0200000000010001 a- _ => gateway 0200000000010001 to aaf (a-) ( )
gateway --to aaf 0200000000010001 a ./a => gateway 0200000000010001 to aaf (a) (./a)
gateway --to aaf --id 02aBCdef00010009 0200000000010001 a b => gateway 0200000000010001 to aaf id 02abcdef00010009 (a) (b)
gateway --id 0000000000000000 --to am824 ffffffffffffffff a b => gateway ffffffffffffffff to am824 id 0000000000000000 (a) (b)
gateway --id FFFFFFFFFFFFFFFF --to am824 0000000000000000 a b => gateway 0000000000000000 to am824 id ffffffffffffffff (a) (b)
gateway --id 0200000000010001 --to am824 0200000000010001 a b => gateway 0200000000010001 to am824 (a) (b)
gateway --limit 1 --to aaf 0200000000010001 a b => gateway 0200000000010001 limit 1 to aaf (a) (b)
gateway --limit 1099511627776 --to aaf 0200000000010001 a b => gateway 0200000000010001 to aaf (a) (b)
gateway --to aaf --buffer 1 --room 1 0200000000010001 a b => gateway 0200000000010001 buffer 1 room 1 to aaf (a) (b)
gateway --room 1073741824 --to aaf --buffer 65536 0200000000010001 a b => gateway 0200000000010001 buffer 65536 room 1073741824 to aaf (a) (b)
gateway --to aaf --look 64 0200000000010001 a b => gateway 0200000000010001 look 64 to aaf (a) (b)
gateway --lead 0 --to aaf 0200000000010001 a b => gateway 0200000000010001 lead 0 to aaf (a) (b)
gateway --lead 1000000000 --to aaf 0200000000010001 a b => gateway 0200000000010001 lead 1000000000 to aaf (a) (b)
gateway --clock 02aBCdef00010002 --to aaf 0200000000010001 a b => gateway 0200000000010001 clock 02abcdef00010002 to aaf (a) (b)
gateway --to aaf --crf-shift -1000000000 0200000000010001 a b => gateway 0200000000010001 shift -1000000000 to aaf (a) (b)
gateway --crf-shift 5 --id 0200000000010003 --lead 7 --clock 0000000000000000 --to am824 --limit 106 --look 2 --room 3 --buffer 4 0200000000010001 a b => gateway 0200000000010001 limit 106 buffer 4 room 3 look 2 lead 7 clock 0000000000000000 shift 5 to am824 id 0200000000010003 (a) (b)
talk a b => talk Aaf { format: Int16, sparse: false } (a) (b)
talk --kind aaf a b => talk Aaf { format: Int16, sparse: false } (a) (b)
talk --format float32 a b => talk Aaf { format: Float32, sparse: false } (a) (b)
talk --format int32 a b => talk Aaf { format: Int32, sparse: false } (a) (b)
talk --rate 44100 --format int24 a b => talk Aaf { format: Int24, sparse: false } rate 44100 (a) (b)
talk --channels 123 a b => talk Aaf { format: Int16, sparse: false } channels 123 (a) (b)
talk --count 738 --channels 1 a b => talk Aaf { format: Int16, sparse: false } channels 1 count 738 (a) (b)
talk --id 02aBCdef00010001 a b => talk Aaf { format: Int16, sparse: false } id 02abcdef00010001 (a) (b)
talk --start 4000000000000000000 a b => talk Aaf { format: Int16, sparse: false } start 4000000000000000000 (a) (b)
talk --start 0 --lead 1 a b => talk Aaf { format: Int16, sparse: false } start 0 lead 1 (a) (b)
talk --sparse a b => talk Aaf { format: Int16, sparse: true } (a) (b)
talk --restart 8 a b => talk Aaf { format: Int16, sparse: false } restart 8 (a) (b)
talk --jump 4 --restart 1000000000 a b => talk Aaf { format: Int16, sparse: false } restart 1000000000 jump 4 (a) (b)
talk --rate 8000 --sparse --lead 1 a b => talk Aaf { format: Int16, sparse: true } rate 8000 lead 1 (a) (b)
talk --kind am824 a b => talk Am824 (a) (b)
talk --kind am824 --count 1 --channels 256 a b => talk Am824 channels 256 count 1 (a) (b)
talk --kind am824 --count 367 --channels 1 a b => talk Am824 channels 1 count 367 (a) (b)
talk --kind am824 --channels 61 a b => talk Am824 channels 61 (a) (b)
talk --rate 88200 --count 2 --kind am824 a b => talk Am824 rate 88200 count 2 (a) (b)
talk --rate 192000 --kind am824 --count 4 a b => talk Am824 rate 192000 count 4 (a) (b)
talk --crf 02aBCdef00010001 a b => talk Aaf { format: Int16, sparse: false } crf 02abcdef00010001 (a) (b)
talk --crf 0200000000010002 --crf-interval 1 a b => talk Aaf { format: Int16, sparse: false } crf 0200000000010002 interval 1 (a) (b)
talk --crf 0200000000010002 --crf-interval 65535 a b => talk Aaf { format: Int16, sparse: false } crf 0200000000010002 interval 65535 (a) (b)
talk --crf 0200000000010002 --crf-points 1 a b => talk Aaf { format: Int16, sparse: false } crf 0200000000010002 (a) (b)
talk --crf 0200000000010002 --crf-points 180 a b => talk Aaf { format: Int16, sparse: false } crf 0200000000010002 points 180 (a) (b)
talk --crf 0200000000010002 --crf-rate 1 a b => talk Aaf { format: Int16, sparse: false } crf 0200000000010002 crf-rate 1 (a) (b)
talk --crf 0200000000010002 --crf-rate 200000000 --crf-interval 12500 a b => talk Aaf { format: Int16, sparse: false } crf 0200000000010002 crf-rate 200000000 interval 12500 (a) (b)
talk --crf 0200000000010002 --crf-interval 147 --crf-rate 44100 a b => talk Aaf { format: Int16, sparse: false } crf 0200000000010002 crf-rate 44100 interval 147 (a) (b)
talk --crf 0200000000010002 --crf-pull 0 a b => talk Aaf { format: Int16, sparse: false } crf 0200000000010002 (a) (b)
talk --crf 0200000000010002 --crf-pull 1 --crf-interval 1000 a b => talk Aaf { format: Int16, sparse: false } crf 0200000000010002 pull 1 interval 1000 (a) (b)
talk --crf 0200000000010002 --crf-pull 2 --crf-interval 1001 a b => talk Aaf { format: Int16, sparse: false } crf 0200000000010002 pull 2 interval 1001 (a) (b)
talk --crf 0200000000010002 --crf-pull 3 --crf-interval 24 a b => talk Aaf { format: Int16, sparse: false } crf 0200000000010002 pull 3 interval 24 (a) (b)
talk --crf 0200000000010002 --crf-pull 4 --crf-interval 25 a b => talk Aaf { format: Int16, sparse: false } crf 0200000000010002 pull 4 interval 25 (a) (b)
talk --crf 0200000000010002 --crf-pull 5 a b => talk Aaf { format: Int16, sparse: false } crf 0200000000010002 pull 5 (a) (b)
talk --rate 44100 --crf 0200000000010002 a b => talk Aaf { format: Int16, sparse: false } rate 44100 crf 0200000000010002 (a) (b)
talk --crf 0200000000010002 --kind am824 a b => talk Am824 crf 0200000000010002 (a) (b)
talk --crf 0200000000010002 --restart 128 a b => talk Aaf { format: Int16, sparse: false } restart 128 crf 0200000000010002 (a) (b)
talk --restart 256 --crf-points 2 --crf 0200000000010002 a b => talk Aaf { format: Int16, sparse: false } restart 256 crf 0200000000010002 points 2 (a) (b)
talk --kind h264 a b => talk H264 { last_stamp: false } rate 30 (a) (b)
talk --kind h264 --last-stamp a b => talk H264 { last_stamp: true } rate 30 (a) (b)
talk --kind h264 --rate 1 a b => talk H264 { last_stamp: false } rate 1 (a) (b)
talk --kind h264 --rate 240 a b => talk H264 { last_stamp: false } rate 240 (a) (b)
talk --kind h264 --last-stamp --rate 30 a b => talk H264 { last_stamp: true } rate 30 (a) (b)
talk --kind h264 --id 02aBCdef00010001 a b => talk H264 { last_stamp: false } rate 30 id 02abcdef00010001 (a) (b)
talk --kind h264 --start 0 a b => talk H264 { last_stamp: false } rate 30 start 0 (a) (b)
talk --kind h264 --lead 1 a b => talk H264 { last_stamp: false } rate 30 lead 1 (a) (b)
";

/// Bad command lines, and the position of the first argument that is wrong or missing.
pub const OFFENCES: &str = "\
=> 1
'' => 1
frob => 1
frob c.pcap => 1
Show c.pcap => 1
--help => 1
--version => 1
--limit 1 show c.pcap => 1
show => 2
show '' => 2
show - => 2
show -- => 2
show --help => 2
show --limit=1 c.pcap => 2
show --look 1 c.pcap => 2
show --raw x c.pcap => 2
show --limit --limit 1 c.pcap => 3
show c.pcap d.pcap => 3
show --limit 1 => 4
check => 2
check '' => 2
check - => 2
check --limit=1 a => 2
check --look 1 a => 2
check a '' => 3
check --limit 1 => 4
check a b -c => 4
check --limit 1 a --limit 1 => 5
soak => 2
soak '' => 2
soak 1000001 => 2
soak 4294967296 => 2
soak 00 => 2
soak -1 => 2
soak +1 => 2
soak a => 2
soak --limit 1 5 => 2
soak 5 5 => 3
soak 5 --limit => 3
listen => 2
listen 02 c.pcap => 2
listen c.pcap 0200000000010001 => 2
listen 0200000000010001_ c.pcap => 2
listen +200000000010001 c.pcap => 2
listen 020000000001000g c.pcap => 2
listen 02000000000100010 c.pcap => 2
listen 0200000000010001 => 3
listen 0200000000010001 '' => 3
listen 0200000000010001 --room 1 c.pcap => 3
listen --lead 0200000000010001 c.pcap => 3
listen --look 65 0200000000010001 c.pcap => 3
listen 0200000000010001 a '' => 4
listen 0200000000010001 a -b => 4
listen 0200000000010001 a --lead 5 => 4
listen --raw x => 4
listen --raw 0200000000010001 c.pcap => 4
listen 0200000000010001 a b - => 5
listen --silence zero 0200000000010001 => 5
listen --raw x --annexb x c.pcap => 6
listen --raw a 0200000000010001 a --silence zero => 6
agree => 2
agree a b => 2
agree a b 0200000000010001 => 2
agree 020000000001000g a b => 2
agree --ring 64 0200000000010001 a b => 2
agree --raw x 0200000000010001 a b => 2
agree --silence zero 0200000000010001 a b => 2
agree --annexb x 0200000000010001 a b => 2
agree --format int16 0200000000010001 a b => 2
agree 0200000000010001 => 3
agree 0200000000010001 '' b => 3
agree 0200000000010001 --limit 1 a b => 3
agree --limit 0 0200000000010001 a b => 3
agree --look 65 0200000000010001 a b => 3
agree --lead 0200000000010001 a b => 3
agree 0200000000010001 a => 4
agree 0200000000010001 a '' => 4
agree 0200000000010001 a -b => 4
agree 0200000000010001 a --look 1 b => 4
agree --limit 1 => 4
agree --limit 1 a b => 4
agree --look 1 --look 1 0200000000010001 a b => 4
agree 0200000000010001 a b c => 5
agree 0200000000010001 a b --look 1 => 5
agree --look 1 0200000000010001 => 5
agree --look 1 0200000000010001 a => 6
agree --look 1 0200000000010001 a b c => 7
gateway => 2
gateway a b => 2
gateway a b 0200000000010001 => 2
gateway 020000000001000g a b => 2
gateway --format int24 0200000000010001 a b => 2
gateway --kind aaf 0200000000010001 a b => 2
gateway --ring 64 0200000000010001 a b => 2
gateway --raw x 0200000000010001 a b => 2
gateway --to=aaf 0200000000010001 a b => 2
gateway 0200000000010001 => 3
gateway 0200000000010001 '' b => 3
gateway 0200000000010001 --to aaf a b => 3
gateway --to 0200000000010001 a b => 3
gateway --to h264 0200000000010001 a b => 3
gateway --id 0200 0200000000010001 a b => 3
gateway --limit 0 0200000000010001 a a => 3
gateway 0200000000010001 a => 4
gateway 0200000000010001 a '' => 4
gateway 0200000000010001 a -b => 4
gateway 0200000000010001 a --to aaf => 4
gateway --to aaf => 4
gateway --to aaf a b => 4
gateway --to aaf --to am824 0200000000010001 a b => 4
gateway 0200000000010001 a b c => 5
gateway 0200000000010001 a b --to aaf => 5
gateway --to aaf 0200000000010001 => 5
gateway --to aaf 0200000000010001 a => 6
gateway --to aaf 0200000000010001 a a c => 7
talk => 2
talk --limit 1 a b => 2
talk a => 3
talk --sparse --sparse a b => 3
talk --last-stamp --last-stamp a b => 3
talk --sparse a => 4
talk a b c => 4
talk --sparse a b c => 5
talk --channels 500 a => 5
";

/// Options of commands, each with a value that it accepts, and then with values that it does not accept.
pub const VALUES: &str = "\
show --limit 1 : '' 0 01 +1 1099511627777
check --limit 1 : 0 1099511627777
listen --limit 1 : 0 1099511627777 01 +1 -1 -0 ''
listen --buffer 1 : 0 65537
listen --room 1 : 0 1073741825
listen --look 1 : 65 01 00 +1 -1 -0 ''
listen --lead 1 : 1000000001
listen --clock 02aBCdef00010001 : 0 02aBCdef0001000 02aBCdef000100011 -2aBCdef00010001 ''
listen --crf-shift -1 : 1000000001 -1000000001 01 -01 +1 -+1 --1 -0 - --clock ''
listen --ring 1 : 0 257 01 +1 -1 ''
listen --raw x : '' - -x --silence
listen --silence zero : '' Zero zeros 0 aaf AM824 --raw
listen --annexb x : '' - -x --raw
agree --limit 1 : 0 1099511627777 01 +1 -1 -0 ''
agree --buffer 1 : 0 65537
agree --room 1 : 0 1073741825
agree --look 1 : 65 01 00 +1 -1 -0 ''
agree --lead 0 : 1000000001 -1
agree --clock 02aBCdef00010001 : 0 02aBCdef0001000 02aBCdef000100011 -2aBCdef00010001 ''
agree --crf-shift -1 : 1000000001 -1000000001 01 -01 +1 -0 - --clock ''
gateway --limit 1 : 0 1099511627777 01 +1 -1 -0 ''
gateway --buffer 1 : 0 65537
gateway --room 1 : 0 1073741825
gateway --look 1 : 65 01 00 +1 -1 -0 ''
gateway --lead 0 : 1000000001 -1
gateway --clock 02aBCdef00010001 : 0 02aBCdef0001000 02aBCdef000100011 -2aBCdef00010001 ''
gateway --crf-shift -1 : 1000000001 -1000000001 01 -01 +1 -0 - --clock ''
gateway --to am824 : AM824 am82 am8240 Aaf aa zero h264 int24 0 '' --id
gateway --to aaf : aaf_ _aaf
gateway --id 02aBCdef00010001 : 0 02aBCdef0001000 02aBCdef000100011 -2aBCdef00010001 '' --to
talk --kind aaf : AM824 h265
talk --format int16 : int8 ''
talk --rate 1 : 0 192001
talk --channels 1 : 0 1024
talk --count 1 : 0 1477
talk --id 02aBCdef00010001 : 0200
talk --start 1 : 4000000000000000001 -1
talk --lead 1 : 0 1000000001
talk --restart 8 : 7 1000000001
talk --jump 4 : 3 1000000001
talk --crf 02aBCdef00010001 : 0200
talk --crf-interval 1 : 0 65536
talk --crf-points 1 : 0 181
talk --crf-rate 1 : 0 200000001
talk --crf-pull 0 : 6
";

/// Command lines in which each word is accepted, but the words contradict one another.
pub const RULES: &str = "\
listen --silence zero 0200000000010001 c.pcap
listen --silence am824 0200000000010001 c.pcap
listen --silence zero --annexb x 0200000000010001 c.pcap
listen --raw c.pcap 0200000000010001 c.pcap
listen --annexb c.pcap 0200000000010001 c.pcap
listen --raw b 0200000000010001 a b c
listen --annexb c 0200000000010001 a b c
listen --raw x --annexb x 0200000000010001 c.pcap
listen --annexb x --raw x 0200000000010001 c.pcap
listen --raw x --annexb a 0200000000010001 a
listen --raw 0200000000010001 0200000000010001 a 0200000000010001
gateway 0200000000010001 a b
gateway --id 0200000000010009 0200000000010001 a b
gateway --limit 1 --buffer 1 --look 1 0200000000010001 a b
gateway 0200000000010001 am824 aaf
gateway 0200000000010001 a a
gateway --to am824 0200000000010001 a a
gateway --to aaf --id 0200000000010009 0200000000010001 a a
gateway --to aaf 0200000000010001 0200000000010001 0200000000010001
talk --jump 1000000 a b
talk --jump 4 --sparse a b
talk a a
talk --rate 44101 a b
talk --rate 1 a b
talk --channels 500 a b
talk --channels 62 --format int32 a b
talk --count 370 a b
talk --kind am824 --format int16 a b
talk --kind am824 --sparse a b
talk --kind am824 --rate 8000 a b
talk --kind am824 --rate 24000 a b
talk --kind am824 --rate 48001 a b
talk --kind am824 --rate 88200 --count 1 a b
talk --kind am824 --rate 192000 --count 3 a b
talk --kind am824 --channels 257 --count 1 a b
talk --kind am824 --channels 1 --count 368 a b
talk --kind am824 --channels 62 a b
talk --kind am824 --last-stamp a b
talk --crf-interval 96 a b
talk --crf-points 1 a b
talk --crf-rate 48000 a b
talk --crf-pull 0 a b
talk --crf 0200000000010002 --crf-rate 44100 a b
talk --crf 0200000000010002 --crf-pull 1 --crf-interval 1001 a b
talk --crf 0200000000010002 --crf-pull 2 --crf-interval 1000 a b
talk --crf 0200000000010002 --crf-pull 3 --crf-interval 25 a b
talk --crf 0200000000010002 --crf-pull 4 --crf-interval 24 a b
talk --crf 0200000000010002 --restart 127 a b
talk --crf 0200000000010002 --restart 129 a b
talk --crf 0200000000010002 --restart 128 --crf-points 2 a b
talk --kind h264 --rate 241 a b
talk --kind h264 --format int16 a b
talk --kind h264 --channels 2 a b
talk --kind h264 --count 6 a b
talk --kind h264 --sparse a b
talk --kind h264 --restart 8 a b
talk --kind h264 --restart 8 --jump 4 a b
talk --kind h264 --jump 1000000 a b
talk --kind h264 --crf 0200000000010002 a b
talk --kind h264 --crf-interval 96 a b
talk --kind h264 --crf-points 1 a b
talk --kind h264 --crf-rate 30 a b
talk --kind h264 --crf-pull 0 a b
talk --kind aaf --last-stamp a b
talk --kind aaf --last-stamp --rate 44100 a b
talk --last-stamp a b
";
