//! Packets of PCM audio, of IEC 61883-6, and of a stream with its media clock.

use crate::hearing::check_shown;
use std::test::Fail;

const AUDIO: &str = "\
// a nanosecond before half the circle
aaf at:10000000000 ts:3557549055 => 1/0 at 12147483647
// half the circle
aaf at:10000000000 ts:3557549056 => 1/0 Late
// across the wrap, with timestamp 112
aaf at:12884901000 ts:12884902000 => 1/0 at 12884902000
// reserved bits, and bytes after the samples
aaf 3=fe len=60 => 1/0 at 1002000000
// three copies, of which the last comes late
aaf, aaf at:1000500000, aaf at:1003000000 => 2/0 Repeat, 1/0 at 1002000000, 3/0 Late
// packets that overtake each other
aaf seq:2 ts:1002250000, aaf at:1000000100, aaf at:1000000200 seq:1 ts:1002125000 => 2/0 at 1002000000, 3/1 at 1002125000, 1/2 at 1002250000
// sparse packets before and after the only stamp
aaf at:1000875000 seq:7 1=80 12=00000000 22=10, aaf at:1001000000 seq:8 ts:1003000000 22=10, aaf at:1001125000 seq:9 1=80 12=00000000 22=10 => 1/7 Untimed, 2/8 at 1003000000, 3/9 at 1003125000
// a full buffer
buffer:2 | aaf, second, third => 3/2 Full, 1/0 at 1002000000, 2/1 at 1002125000
// no room
buffer:1 room:1 | aaf => 1/0 Full
// a full room
room:30 | aaf, second, third => 2/1 Full, 3/2 Full, 1/0 at 1002000000";

#[test]
fn packets_come_in_order_once_and_within_the_buffer(rt: HostRuntime) -> Result<(), Fail> {
    check_shown(rt.alloc(), AUDIO)
}

/// A changed packet, and a packet after it. The changed packet is flagged or does not belong to the stream.
const CHANGED: &str = "\
aaf 3=01, second => 1/0 Uncertain, 2/1 at 1002125000
aaf 21=00, second => 1/0 Empty, 2/1 at 1002125000
aaf 17=00, second => 1/0 NoRate, 2/1 at 1002125000
aaf 1=80, second => 1/0 Untimed, 2/1 at 1002125000
aaf 0=00, second => 1/0 Malformed(Tag), 2/1 at 1002125000
aaf 1=91, second => 1/0 Malformed(Version), 2/1 at 1002125000
aaf 16=05, second => 1/0 Malformed(Format), 2/1 at 1002125000
aaf 17=b0, second => 1/0 Malformed(Nsr), 2/1 at 1002125000
aaf 18=00, second => 1/0 Malformed(ChannelsPerFrame), 2/1 at 1002125000
aaf 19=11, second => 1/0 Malformed(BitDepth), 2/1 at 1002125000
aaf 21=19, second => 1/0 Malformed(StreamDataLength), 2/1 at 1002125000
aaf len=12, second => 1/0 Malformed(AvtpTimestamp), 2/1 at 1002125000
aaf len=16, second => 1/0 Malformed(FormatData), 2/1 at 1002125000
aaf len=20, second => 1/0 Malformed(StreamDataLength), 2/1 at 1002125000
aaf len=22, second => 1/0 Malformed(FormatFlags), 2/1 at 1002125000
aaf len=47, second => 1/0 Malformed(StreamDataLength), 2/1 at 1002125000
// no valid stream ID, another stream ID, and other subtypes
aaf 1=01, second => 2/1 at 1002125000
aaf 11=02, second => 2/1 at 1002125000
aaf 0=05, second => 2/1 at 1002125000
aaf 0=04, second => 2/1 at 1002125000
// cut in the first 12 bytes of the packet, or in the header of the frame
aaf cut:29, second => 2/1 at 1002125000
aaf cut:18, second => 2/1 at 1002125000
aaf cut:17, second => 2/1 at 1002125000
aaf cut:0, second => 2/1 at 1002125000";

/// The packet after a changed packet is presented, whatever happens to the changed packet.
#[test]
fn a_changed_packet_is_flagged_or_passed(rt: HostRuntime) -> Result<(), Fail> {
    check_shown(rt.alloc(), CHANGED)
}

const BLOCKS: &str = "\
// blocks before the stamped one, and in the next packet
stamped, next => 1/0 at 4999916666, 2/1 at 5000041666
// the packet with the stamp is lost
next => 1/1 Untimed
// no data
iec at:4997916666 ts:5000000000 21=08 29=ff => 1/0 Empty
// a timestamp that belongs to none of the blocks 1 to 6
iec at:4997916666 ts:5000000000 27=01 => 1/0 Untimed
// no CIP header
iec at:4997916666 ts:5000000000 22=1f => 1/0 Malformed(Tag)";

#[test]
fn blocks_are_counted_from_the_stamped_one(rt: HostRuntime) -> Result<(), Fail> {
    check_shown(rt.alloc(), BLOCKS)
}

const CLOCK: &str = "\
// no look ahead
look:0 | crf, clocked, clocked-second, tock => 2/0 NoClock, 3/1 NoClock
// the second point is known when the second packet is judged
look:1 | crf, clocked, clocked-second, tock => 2/0 NoClock, 3/1 at 1004125000
// and when the first is
look:2 | crf, clocked, clocked-second, tock => 2/0 at 1004000000, 3/1 at 1004125000
// a clock that restarts
look:2 | crf, clocked, clocked-second, tock 1=88 => 2/0 NoClock, 3/1 NoClock";

#[test]
fn packets_are_judged_once_the_look_ahead_is_known(rt: HostRuntime) -> Result<(), Fail> {
    check_shown(rt.alloc(), CLOCK)
}

/// A clock packet that is left without a valid timestamp: the version, the uncertain bit, the type or the interval is
/// changed. A packet with another bit for a valid ID, or with another ID, does not belong to the clock.
const POINTLESS: &str = "\
look:1 | crf, clocked, between 1=90, tock => 2/0 NoClock
look:2 | crf, clocked, between 1=90, tock => 2/0 at 1004000000
look:1 | crf, clocked, between 1=81, tock => 2/0 NoClock
look:2 | crf, clocked, between 1=81, tock => 2/0 at 1004000000
look:1 | crf, clocked, between 3=02, tock => 2/0 NoClock
look:2 | crf, clocked, between 3=02, tock => 2/0 at 1004000000
look:1 | crf, clocked, between 19=00, tock => 2/0 NoClock
look:2 | crf, clocked, between 19=00, tock => 2/0 at 1004000000
look:1 | crf, clocked, between 1=00, tock => 2/0 at 1004000000
look:2 | crf, clocked, between 1=00, tock => 2/0 at 1004000000
look:1 | crf, clocked, between 11=03, tock => 2/0 at 1004000000
look:2 | crf, clocked, between 11=03, tock => 2/0 at 1004000000";

/// A clock packet without a valid timestamp counts for the look-ahead. The timestamps of the clock packets before and
/// after the packet without points still make a line.
#[test]
fn a_clock_packet_without_points_is_waited_for(rt: HostRuntime) -> Result<(), Fail> {
    check_shown(rt.alloc(), POINTLESS)
}
