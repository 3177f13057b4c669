//! What is read from packets.

use avtp_packet::{read_packet, reserved, stamp_is_wrong, stream_of};
use std::alloc::Global;
use std::test::Fail;
use vectors_avtp::{bytes_of, check_rows, row_of};

/// Packets, and what is read from each of them.
const FIELDS: &str = "\
aaf => subtype: 2, sv: true, mr: false, format_bits: 0, tv: true, seq: 0, tu: false, stream_id: 144115188075921409, timestamp: 1002000000, data_length: 24, format: Int16, nsr: 5, channels: 2, depth: 16, sparse: false, evt: 0, count: 6, reserved: false, stamp_is_wrong: false
iec => subtype: 0, sv: true, mr: false, format_bits: 0, tv: true, seq: 0, tu: false, stream_id: 144115188075921409, timestamp: 1002000000, data_length: 56, gateway_info: 0, channel: 31, tcode: 10, sy: 0, sid: 63, dbs: 2, dbc: 0, fdf: 2, syt: 65535, count: 6, reserved: false, stamp_is_wrong: false
h264 => subtype: 3, sv: true, mr: false, format_bits: 0, tv: true, seq: 0, tu: false, stream_id: 144115188075921409, timestamp: 1002000000, data_length: 8, ptv: true, marker: true, evt: 0, h264_timestamp: 1002000000, nal: 103, part: Single, body: [66, 0, 10], reserved: false, stamp_is_wrong: false
crf => sv: true, mr: false, fs: false, tu: false, seq: 0, kind: 1, stream_id: 144115188075921410, pull: 0, base_frequency: 48000, interval: 96, payload: [0, 0, 0, 0, 59, 185, 78, 128], reserved: false, stamp_is_wrong: false
6e => Ok(Other(110)), stamp_is_wrong: false
// Each bit of the second byte outside the version.
aaf 1=80 => sv: true, mr: false, format_bits: 0, tv: false
aaf 1=08 => sv: false, mr: true, format_bits: 0, tv: false
aaf 1=04 => sv: false, mr: false, format_bits: 2, tv: false
aaf 1=02 => sv: false, mr: false, format_bits: 1, tv: false
aaf 1=01 => sv: false, mr: false, format_bits: 0, tv: true
crf 1=80 => sv: true, mr: false, fs: false, tu: false
crf 1=08 => sv: false, mr: true, fs: false, tu: false
crf 1=02 => sv: false, mr: false, fs: true, tu: false
crf 1=01 => sv: false, mr: false, fs: false, tu: true
aaf 2=07ff => seq: 7, tu: true
aaf 12=01020304 => timestamp: 16909060
iec 1=83 16=010203fe => format_bits: 1, gateway_info: 16909310, reserved: false
// 1023 channels, and sparse timestamps.
aaf 17=53ff 20=07fe len=2070 => channels: 1023, count: 1
aaf 16=0150011f => format: Float32, channels: 1, depth: 31, count: 6
aaf 16=0250 => format: Int32, count: 3
aaf 16=0350 => format: Int24, count: 4
aaf 22=19 => sparse: true, evt: 9
// 256 quadlets in a block, and packets without blocks.
iec 20=0408 25=00 len=1056 => dbs: 256, count: 1
iec 20=0408 25=00 29=ff len=1056 => dbs: 256, fdf: 255, count: 0
iec 21=37 29=ff => fdf: 255, count: 0
iec 21=08 => count: 0, payload: []
iec 22=41b5 24=3e020009 30=1234 => channel: 1, tcode: 11, sy: 5, sid: 62, dbc: 9, syt: 4660
// Flags, the event field and both timestamps of H.264.
h264 22=2a 24=12b94e34 => ptv: true, marker: false, evt: 10, h264_timestamp: 314134068, timestamp: 1002000000
h264 22=15 => ptv: false, marker: true, evt: 5
// The FU indicator and the FU header.
h264 28=7c85 => nal: 101, part: First, body: [0, 10], reserved: false
h264 28=7c05 => nal: 101, part: Middle, reserved: false
h264 28=7c45 => nal: 101, part: Last, reserved: false
h264 28=7c41 => nal: 97, part: Last, reserved: false
h264 28=1c97 => nal: 23, part: First, reserved: false
h264 28=fc01 => nal: 225, part: Middle, reserved: false
h264 28=3c25 => nal: 37, part: Middle, reserved: true
h264 28=6762 => nal: 103, part: Single, reserved: false
h264 28=7c85 21=06 => part: First, body: []
h264 28=65 21=05 => nal: 101, part: Single, body: []
// The highest numbers of a clock, and each of its timestamps.
crf 2=09ff 12=bfffffff 18=ffff => seq: 9, kind: 255, pull: 5, base_frequency: 536870911, interval: 65535
crf 3=00 => kind: 0
// Bytes after the stated length do not belong to the packet. The packet's last byte is 250 or 7.
aaf len=60 => count: 6, 250], reserved: false
iec 79=07 len=96 => count: 6, 7], reserved: false
h264 len=40 => body: [66, 0, 10], reserved: false
crf len=44 => payload: [0, 0, 0, 0, 59, 185, 78, 128], reserved: false
// PCM has a timestamp in each packet, or in every eighth if it is sparse.
aaf 1=80 => stamp_is_wrong: true
aaf 1=80 2=01 => stamp_is_wrong: true
aaf 1=80 21=00 => count: 0, stamp_is_wrong: false
aaf 1=80 22=10 => sparse: true, stamp_is_wrong: true
aaf 1=80 2=f8 22=10 => sparse: true, seq: 248, stamp_is_wrong: true
aaf 1=80 2=07 22=10 => sparse: true, seq: 7, stamp_is_wrong: false
aaf 1=81 2=07 22=10 => sparse: true, seq: 7, stamp_is_wrong: true
aaf 1=81 2=07 21=00 22=10 => count: 0, stamp_is_wrong: false
// AM824 has a timestamp if the count of one of its blocks is a multiple of the interval.
iec 1=80 => stamp_is_wrong: true
iec 1=80 27=02 => dbc: 2, stamp_is_wrong: false
iec 1=81 27=02 => dbc: 2, stamp_is_wrong: true
iec 1=80 27=03 => dbc: 3, stamp_is_wrong: true
iec 1=81 27=0a 29=04 => fdf: 4, dbc: 10, stamp_is_wrong: true
iec 1=81 27=0b 29=04 => fdf: 4, dbc: 11, stamp_is_wrong: false
iec 1=81 21=08 => count: 0, stamp_is_wrong: false
iec 1=80 29=ff => fdf: 255, stamp_is_wrong: false
// H.264 has a timestamp if a NAL unit ends in the packet.
h264 1=80 => part: Single, stamp_is_wrong: true
h264 1=80 28=7c85 => part: First, stamp_is_wrong: false
";

/// The fields that are read from a packet, each between a space and a comma.
fn fields_of(alloc: Global, packet: &[u8]) -> Result<String, Fail> {
    let read = read_packet(packet);
    let wrong = read.as_ref().is_ok_and(|packet| stamp_is_wrong(packet));
    let text = format!(in alloc; " {read:?}, stamp_is_wrong: {wrong},")?;
    Ok(text.replace(alloc, " }", ",")?)
}

#[test]
fn each_field_is_read_from_its_bits(rt: HostRuntime) -> Result<(), Fail> {
    for line in FIELDS.lines().filter(|line| !line.starts_with("//")) {
        let (row, wanted) = row_of(line)?;
        let found = fields_of(rt.alloc(), &bytes_of(rt.alloc(), row)?)?;
        for field in wanted.split(", ") {
            let field = format!(in rt.alloc(); " {field},")?;
            assert!(rt;
                found.contains(field.as_str()),
                "{row}: no{field} in{found}"
            );
        }
    }
    Ok(())
}

/// Packets, with the offset of each byte that has reserved bits, and these bits.
const RESERVED: &str = "\
aaf => 1=06 3=fe 17=0c 22=e0 23=ff
iec => 1=04 3=fe 26=03
h264 => 1=06 3=fe 18=ff 19=ff 22=c0 23=ff
h264 28=7c85 => 1=06 3=fe 18=ff 19=ff 22=c0 23=ff 29=20
crf => 1=04";

/// The reserved bits of the byte at offset `at`. A bit is reserved if, after the bit is inverted, the packet is still
/// read and `reserved` is true of the packet.
fn reserved_bits(packet: &mut [u8], at: usize) -> u8 {
    let mut bits = 0u8;
    for bit in [0x80u8, 0x40, 0x20, 0x10, 8, 4, 2, 1] {
        turn(packet, at, bit);
        if read_packet(packet).is_ok_and(|read| reserved(&read)) {
            bits |= bit;
        }
        turn(packet, at, bit);
    }
    bits
}

fn turn(packet: &mut [u8], at: usize, bit: u8) {
    if let Some(byte) = packet.get_mut(at) {
        *byte ^= bit;
    }
}

/// Each byte of a packet that has reserved bits: its offset, and these bits.
fn reserved_text(alloc: Global, row: &str) -> Result<String, Fail> {
    let mut packet = bytes_of(alloc, row)?;
    let mut text = String::new(alloc);
    for at in 0..packet.len() {
        let bits = reserved_bits(&mut packet, at);
        if bits != 0 {
            text.push_str(format!(in alloc; "{at}={bits:02x} ")?.as_str())?;
        }
    }
    Ok(text)
}

#[test]
fn a_reserved_bit_is_free_and_told(rt: HostRuntime) -> Result<(), Fail> {
    let alloc = rt.alloc();
    check_rows(RESERVED, |row| reserved_text(alloc, row))
}

/// The stream of a packet of each supported format, and of a packet of another format.
const STREAMS: &str = "\
aaf 1=89 2=07 => Some(PacketStream { subtype: 2, id: 144115188075921409, sv: true, seq: 7, mr: true })
iec 1=09 => Some(PacketStream { subtype: 0, id: 144115188075921409, sv: false, seq: 0, mr: true })
h264 4=0000000000000001 => Some(PacketStream { subtype: 3, id: 1, sv: true, seq: 0, mr: false })
crf 1=08 2=09 => Some(PacketStream { subtype: 4, id: 144115188075921410, sv: false, seq: 9, mr: true })
6e => None";

fn stream_text(alloc: Global, packet: &[u8]) -> Result<String, Fail> {
    let packet = read_packet(packet).ok().ok_or("a packet is refused")?;
    Ok(format!(in alloc; "{:?}", stream_of(&packet))?)
}

#[test]
fn a_packet_belongs_to_a_stream_of_its_format(rt: HostRuntime) -> Result<(), Fail> {
    let alloc = rt.alloc();
    check_rows(STREAMS, |row| stream_text(alloc, &bytes_of(alloc, row)?))
}
