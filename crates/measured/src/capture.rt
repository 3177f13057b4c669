//! A capture of AAF packets, in which several streams take turns. Each packet has six sample frames of 16-bit stereo at
//! 48 kHz.

ghost use Rattle.std.specs.Prelude.{◌≡◌, ◌+◌, ◌*◌, ◌≤◌, pos};

use aaf_format::{AafFormat, AafView, write_aaf};
use avtp_header::{ETHERTYPE, StreamHeader, subtype};
use pcap_frames::{FrameView, Order, Style, Tag, Unit, write_frame, write_header, write_record};
use std::alloc::Global;

/// The ID of the first stream. Each further stream has the next higher ID.
pub const STREAM: u64 = 0x0200_0000_0001_0000;

const STYLE: Style = Style {
    order: Order::Little,
    unit: Unit::Nano,
};

const SAMPLES: [u8; 24] = [
    0x00, 0x01, 0xff, 0xff, 0x00, 0x02, 0xff, 0xfe, 0x00, 0x03, 0xff, 0xfd, 0x00, 0x04, 0xff, 0xfc,
    0x00, 0x05, 0xff, 0xfb, 0x00, 0x06, 0xff, 0xfa,
];

/// When the samples of packet n are due, in nanoseconds.
fn due(n: u32) -> u64
    ensures { result ≡ 1002000000 + n * 125000 }
{
    1_002_000_000 + u64::from(n) * 125_000
}

/// When packet n is captured, in nanoseconds: 2 ms before its samples are due.
fn arrival(n: u32) -> i64
    ensures { result ≡ pos (1000000000 + n * 125000) }
{
    (due(n) - 2_000_000) as i64
}

/// Packet n of the capture. The packets of all streams are numbered together.
fn packet(n: u32, streams: u32) -> Option<[u8; 48]>
    requires some { 1 ≤ streams }
    requires most { streams ≤ 65536 }
{
    let view = AafView {
        header: StreamHeader {
            subtype: subtype::AAF,
            sv: true,
            mr: false,
            format_bits: 0,
            tv: true,
            seq: (n / streams % 256) as u8,
            tu: false,
            stream_id: STREAM + u64::from(n % streams),
            timestamp: (due(n) % (1 << 32)) as u32,
            data_length: 24,
        },
        format: AafFormat::Int16,
        nsr: 5,
        channels: 2,
        depth: 16,
        sparse: false,
        evt: 0,
        count: 6,
        payload: &SAMPLES,
        reserved: false,
    };
    let mut packet = [0; 48];
    write_aaf(&mut packet, &view).ok()?;
    Some(packet)
}

/// The Ethernet frame of a packet.
fn frame(packet: &[u8; 48]) -> Option<[u8; 66]> {
    let view = FrameView {
        dst: 0x91e0_f000_fe00,
        src: 0x0200_0000_0001,
        tag: Some(Tag {
            pcp: 3,
            dei: false,
            vid: 2,
        }),
        ethertype: ETHERTYPE,
        start: 18,
        payload: packet,
    };
    let mut frame = [0; 66];
    write_frame(&mut frame, &view).ok()?;
    Some(frame)
}

/// The record of packet n of the capture.
fn record(n: u32, streams: u32) -> Option<[u8; 82]>
    requires some { 1 ≤ streams }
    requires most { streams ≤ 65536 }
{
    let frame = frame(&packet(n, streams)?)?;
    let mut record = [0; 82];
    write_record(&mut record, STYLE, arrival(n), 66, &frame).ok()?;
    Some(record)
}

/// A capture of `streams` streams, with `packets` packets in all.
pub fn capture(alloc: Global, streams: u32, packets: u32) -> Option<Vec<u8>>
    requires some { 1 ≤ streams }
    requires most { streams ≤ 65536 }
{
    let mut header = [0; 24];
    write_header(&mut header, STYLE).ok()?;
    let mut capture = Vec::from_slice(alloc, &header).ok()?;
    for n in 0..packets {
        capture.extend_from_slice(&record(n, streams)?).ok()?;
    }
    Some(capture)
}
