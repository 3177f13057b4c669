//! Where batches are cut, which of them are skipped, and the frames of the pieces.

ghost use Rattle.std.specs.Prelude.{IfSome};
ghost use Rattle.am824_gateway.specs.Scan.{IsShape};

use crate::captures::Recorded;
use crate::hearing::batches_text;
use crate::scans::changed;
use crate::turning::{line_of, turn_as, turn_scanned};
use am824_gateway::{Shape, To};
use std::alloc::Global;
use std::test::Fail;
use vectors_avtp::check_rows;

/// Streams that are converted to AM824. After `=>` are the numbers of batches and packets, what is skipped, and the
/// instants and counts of the packets. In the first rows, batches touch, overlap, or lie apart. In later rows, packets
/// arrive at the last nanosecond that a capture can state, and after it.
const TO_AM824: &str = "\
packets=1 => 1 1: 1002000000*6
packets=1, packets=1 start=1002104167 => 2 2: 1002000000*6 1002104167*6
packets=1, packets=1 start=1002104166 => 2 1 2 Overlap: 1002000000*6
packets=1, packets=1 start=1002104165 => 2 1 2 Overlap: 1002000000*6
packets=1, packets=1 start=1002000001 => 2 1 2 Overlap: 1002000000*6
packets=1, packets=1 start=1002050000, packets=1 start=1002104167 => 3 2 2 Overlap: 1002000000*6 1002104167*6
packets=1, packets=1 start=1009000000 => 2 2: 1002000000*6 1009000000*6
packets=1 count=184 => 1 2: 1002000000*183 1005812500*1
packets=1 count=246 channels=2 => 1 2: 1002000000*183 1005812500*63
packets=1 start=4294967296001999999 lead=4000000 => 1 1: 4294967296001999999*6
packets=1 start=4294967296002000000 lead=4000000 => 1 0 1 Range:
packets=1 start=4294967295999000000 lead=9000000 count=246 => 1 0 1 Range:
packets=1 start=4294967295999000000 lead=9000000 count=246, packets=1 start=4294967296001000000 lead=9000000 => 2 1 1 Range: 4294967296001000000*6
packets=0 => 0 0:
";

/// Streams that are converted to PCM, in rows of the same form as in `TO_AM824`. In the first row, the timestamp of the
/// first packet belongs to its fifth block, and the samples of the second packet are counted from that block.
const TO_AAF: &str = "\
am824 channels=1 packets=2 dbc=12 start=4999916666 | 1@30=2a05f200 => 2 4: 4999916666*1 4999937500*5 5000041666*1 5000062500*5
am824 packets=1 => 1 1: 1002000000*6
am824 packets=1, am824 packets=1 start=1002104167 => 2 2: 1002000000*6 1002104167*6
am824 packets=1, am824 packets=1 start=1002104166 => 2 1 2 Overlap: 1002000000*6
";

fn text_of(alloc: Global, to: To, records: &[Recorded]) -> Result<String, Fail> {
    let turned = turn_scanned(alloc, to, records, 0)?;
    let (line, batches) = (
        line_of(alloc, &turned)?,
        batches_text(alloc, &turned.records)?,
    );
    Ok(format!(in alloc; "{line}: {batches}")?)
}

#[test]
fn batches_are_cut_where_they_leave_the_nominal_line(rt: HostRuntime) -> Result<(), Fail> {
    let alloc = rt.alloc();
    for (to, rows) in [(To::Am824, TO_AM824), (To::Aaf, TO_AAF)] {
        check_rows(rows, |row| text_of(alloc, to, &changed(alloc, row)?))?;
    }
    Ok(())
}

/// Shapes for the gateway: a rate and channels, or no shape. Some of these shapes differ from the stream's shape.
const SHAPES: &str = "\
48000 2 | packets=2 => 2 2
44100 2 | packets=1 => 1 6
48000 1 | packets=2 => 2 0 1 ShapeOff 2 ShapeOff
48000 3 | packets=1 => 1 0 1 ShapeOff
none | packets=2 => 2 0 1 ShapeOff 2 ShapeOff
48000 2 | packets=1, packets=1 channels=1 start=1003000000, packets=1 start=1004000000 => 3 2 2 ShapeOff
48000 2 | packets=1, packets=1 channels=1 start=1002000001 => 2 1 2 ShapeOff
";

fn shape_in(words: &str) -> Option<Shape>
    ensures { IfSome result IsShape }
{
    match words.trim() {
        "44100 2" => Some(Shape {
            rate: 44_100,
            channels: 2,
        }),
        "48000 1" => Some(Shape {
            rate: 48_000,
            channels: 1,
        }),
        "48000 2" => Some(Shape {
            rate: 48_000,
            channels: 2,
        }),
        "48000 3" => Some(Shape {
            rate: 48_000,
            channels: 3,
        }),
        _ => None,
    }
}

/// What a gateway for the shape of a row makes from the row's streams.
fn turned_as(alloc: Global, row: &str) -> Result<String, Fail> {
    let (shape, streams) = row.split_once('|').ok_or("a row without a shape")?;
    let records = changed(alloc, streams)?;
    let turned = turn_as(alloc, To::Am824, shape_in(shape), &records, 0)?;
    Ok(line_of(alloc, &turned)?)
}

#[test]
fn batches_of_another_shape_are_skipped(rt: HostRuntime) -> Result<(), Fail> {
    let alloc = rt.alloc();
    check_rows(SHAPES, |row| turned_as(alloc, row))
}

/// A stream of PCM, and one of the frames that the stream is converted to. The frame is given by its index, its
/// arrival, and the first bytes of its packet, without the stream ID. If a block count is not a multiple of the SYT
/// interval, the count is raised to the next multiple. The block count wraps after 255.
const FRAMES: &str = "\
packets=1 | 0 => 1000000000 00810000 3bb94e80 0000000000385fa03f0200009002ffff
packets=2 | 1 => 1000125000 00810100 3bbb36c8 0000000000385fa03f0200089002ffff
packets=33 | 31 => 1003875000 00811f00 3bf46f38 0000000000385fa03f0200f89002ffff
packets=33 | 32 => 1004000000 00812000 3bf65780 0000000000385fa03f0200009002ffff
packets=257 | 256 => 1032000000 00810000 3da19680 0000000000385fa03f0200009002ffff
packets=3 count=8 | 2 => 1000333333 00810200 3bbe6495 0000000000485fa03f0200109002ffff
packets=3 count=9 | 2 => 1000375000 00810200 3bbf0758 0000000000505fa03f0200209002ffff
packets=2 rate=96000 | 1 => 1000062500 00810100 3bba42a4 0000000000385fa03f0200109004ffff
packets=2 rate=192000 count=33 | 1 => 1000171875 00810100 3bbbede3 0000000001105fa03f0200409006ffff
packets=2 channels=256 count=1 | 1 => 1000020833 00810100 3bb99fe1 0000000004085fa03f0000089002ffff
packets=1 start=1999999 | 0 => 0 00810000 001e847f 0000000000385fa03f0200009002ffff
";

/// The arrival of a frame, and the first bytes of its packet, without the stream ID.
fn start_of(alloc: Global, records: &[Recorded], place: usize) -> Result<String, Fail> {
    let record = records.get(place).ok_or("no such frame")?;
    let head = hex::encode(alloc, record.frame.get(18..22).unwrap_or(&[]))?;
    let stamp = hex::encode(alloc, record.frame.get(30..34).unwrap_or(&[]))?;
    let rest = hex::encode(alloc, record.frame.get(34..50).unwrap_or(&[]))?;
    let arrival = record.arrival;
    Ok(format!(in alloc; "{arrival} {head} {stamp} {rest}")?)
}

/// The start of the frame that a row names, of those that the row's streams are converted to.
fn start_in(alloc: Global, row: &str) -> Result<String, Fail> {
    let (streams, place) = row.split_once('|').ok_or("a row without a place")?;
    let turned = turn_scanned(alloc, To::Am824, &changed(alloc, streams)?, 0)?;
    start_of(alloc, &turned.records, place.trim().parse()?)
}

#[test]
fn block_counts_are_raised_to_the_interval(rt: HostRuntime) -> Result<(), Fail> {
    let alloc = rt.alloc();
    check_rows(FRAMES, |row| start_in(alloc, row))
}

/// A frame of six stereo sample frames of 24 bits: as PCM, and as AM824 with each value after the label 0x40.
const AS_PCM: &str =
    "91e0f000fe000200000000018100600222f00281000002000000000100013bb94e800350021800240000000102030405060708090a0b0c0d0e0f101112131415161718191a1b1c1d1e1f20212223";

const AS_AM824: &str =
    "91e0f000fe000200000000018100600222f00081000002000000000100013bb94e800000000000385fa03f0200009002ffff40000102400304054006070840090a0b400c0d0e400f101140121314401516174018191a401b1c1d401e1f2040212223";

/// A frame with a unit of H.264. The unit has three bytes, as many as a sample of one channel.
const UNIT: &str =
    "91e0f000fe000200000000018100600222f00381000002000000000100013bb94e8002010000000730003bb94e8067420a";

/// The record of a frame that arrives 2 ms before its samples are presented.
fn record_of(alloc: Global, frame: &str) -> Result<Vec<Recorded>, Fail> {
    let mut records = Vec::new(alloc);
    let frame = hex::decode(alloc, frame)?;
    records.push(Recorded {
        arrival: 1_000_000_000,
        frame,
    })?;
    Ok(records)
}

fn frame_text(alloc: Global, records: &[Recorded]) -> Result<String, Fail> {
    let [record] = records else {
        return Err(Fail::new("not one frame"));
    };
    let (arrival, frame) = (record.arrival, hex::encode(alloc, &record.frame)?);
    Ok(format!(in alloc; "{arrival} {frame}")?)
}

#[test]
fn a_packet_is_turned_and_turned_back(rt: HostRuntime) -> Result<(), Fail> {
    let pcm = record_of(rt.alloc(), AS_PCM)?;
    let there = turn_scanned(rt.alloc(), To::Am824, &pcm, 0)?;
    let came = frame_text(rt.alloc(), &there.records)?;
    assert!(rt;
        came.as_str().strip_prefix("1000000000 ") == Some(AS_AM824),
        "{came}"
    );
    let back = turn_scanned(rt.alloc(), To::Aaf, &there.records, 0)?;
    let came = frame_text(rt.alloc(), &back.records)?;
    assert!(rt;
        came.as_str().strip_prefix("1000000000 ") == Some(AS_PCM),
        "{came}"
    );
    Ok(())
}

#[test]
fn a_unit_of_video_is_skipped(rt: HostRuntime) -> Result<(), Fail> {
    let records = record_of(rt.alloc(), UNIT)?;
    let shape = shape_in("48000 1");
    let turned = turn_as(rt.alloc(), To::Am824, shape, &records, 0)?;
    let came = line_of(rt.alloc(), &turned)?;
    assert!(rt; came.as_str() == "1 0 1 ShapeOff", "{came}");
    Ok(())
}
