//! Captures of a stream and its clock, packet by packet.

use avtp_base::NoMemory;
use std::alloc::Global;
use std::test::Fail;
use vectors_avtp::bytes_of;

const SECOND: u64 = 1_000_000_000;

/// Packets that rows name. `stamped` has six data blocks, numbered from 12, and block 16 is stamped. `next` has the
/// next six data blocks, and none of them is stamped. `crf` and `tock` are packets of the clock, 96 events apart.
/// `first`, `middle` and `last` are the fragments of a unit of type 5, each with two bytes of the unit.
const NAMED: &str = "\
second = aaf at:1000125000 seq:1 ts:1002125000
third = aaf at:1000250000 seq:2 ts:1002250000
stamped = iec at:4997916666 ts:5000000000 27=0c
next = iec at:4998041666 seq:1 1=80 12=00000000 27=12
between = crf at:1002100000 seq:1 tick:1004000000
tock = crf at:1002200000 seq:1 tick:1004000000
clocked = aaf at:1002000000 ts:1004000000
clocked-second = aaf at:1002125000 seq:1 ts:1004125000
first = h264 28=7c850001
middle = h264 seq:1 28=7c050002
last = h264 seq:2 28=7c450003
long-first = h264 20=ffff 28=7c85 len=30 len=65559
long-middle = h264 seq:1 20=ffff 28=7c05 len=30 len=65559";

/// The words of a packet that rows name, or else the name itself.
fn named(name: &str) -> &str {
    for line in NAMED.lines() {
        if let Some((known, words)) = line.split_once(" = ")
            && known == name
        {
            return words;
        }
    }
    name
}

/// The text after `name` in the first word that begins with `name`.
pub fn after<'a>(words: &'a str, name: &str) -> Option<&'a str> {
    for word in words.split_whitespace() {
        if let Some(rest) = word.strip_prefix(name) {
            return Some(rest);
        }
    }
    None
}

/// Adds the record of a frame to a capture.
fn put(bytes: &mut Vec<u8>, arrival: u64, frame: &[u8]) -> Result<(), NoMemory> {
    let size = frame.len() as u64;
    for number in [arrival / SECOND, arrival % SECOND, size, size] {
        let [b0, b1, b2, b3, _, _, _, _] = number.to_le_bytes();
        bytes.extend_from_slice(&[b0, b1, b2, b3])?;
    }
    bytes.extend_from_slice(frame)?;
    Ok(())
}

/// Adds the records of a packet to a capture.
fn put_packet(alloc: Global, bytes: &mut Vec<u8>, words: &str) -> Result<(), Fail> {
    let mut packet = String::new(alloc);
    for word in words.split_whitespace() {
        let part = match word.split_once(':') {
            None => format!(in alloc; " {word}")?,
            Some(("ts", stamp)) => {
                format!(in alloc; " 12={:08x}", stamp.parse::<u64>()? % (1 << 32))?
            }
            Some(("tick", stamp)) => format!(in alloc; " 20={:016x}", stamp.parse::<u64>()?)?,
            Some(_) => String::new(alloc),
        };
        packet.push_str(part.as_str())?;
    }
    let arrival = after(words, "at:").unwrap_or("1000000000").parse()?;
    let seq: u64 = after(words, "seq:").unwrap_or("0").parse()?;
    let copies: u64 = after(words, "copies:").unwrap_or("1").parse()?;
    for copy in 0..copies {
        let seq = seq.wrapping_add(copy) % 256;
        let mut frame = bytes_of(alloc, "frame len=18")?;
        frame.extend_from_slice(&bytes_of(
            alloc,
            format!(in alloc; "{packet} 2={seq:02x}")?.as_str(),
        )?)?;
        frame.truncate(after(words, "cut:").unwrap_or("100000").parse()?);
        put(bytes, arrival, &frame)?;
    }
    Ok(())
}

/// The capture of these packets, which commas separate. Each packet has a frame of its own. A packet has the words of
/// `vectors_avtp::bytes_of`, and these words:
///
/// - `at:1000125000` is when the packet was captured, in nanoseconds. If it is left out, this is 1,000,000,000.
/// - `seq:1` is the packet's sequence number. If it is left out, this is 0.
/// - `ts:1002125000` is the timestamp of a packet of the stream, which carries the low 32 bits of this number.
/// - `tick:1004000000` is the timestamp of a packet of the clock.
/// - `cut:17` is the most bytes of the frame that are captured.
/// - `copies:63` sends the packet 63 times, with one sequence number after the other.
pub fn capture(alloc: Global, packets: &str) -> Result<Vec<u8>, Fail> {
    let mut bytes = bytes_of(alloc, "pcap len=24")?;
    for packet in packets.split(", ") {
        let (name, words) = packet.split_once(' ').unwrap_or((packet, ""));
        let words = format!(in alloc; "{} {words}", named(name))?;
        put_packet(alloc, &mut bytes, words.as_str())?;
    }
    Ok(bytes)
}
