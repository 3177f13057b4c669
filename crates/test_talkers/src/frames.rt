//! All frames of a plan, and the frames that are expected.

ghost use Rattle.talk_plan.specs.Plan.{IsPlan};

use crate::plans::Planned;
use avtp_base::NoMemory;
use std::alloc::Global;
use std::process::Abort;
use std::test::Fail;
use talker::{Sent, TalkPlan, Talker};

/// An input: some bytes, then other bytes that are repeated, and how often they are repeated.
pub type Input = (&'static [u8], &'static [u8], usize);

/// What is sent for a plan and an input.
pub struct Row {
    pub name: &'static str,
    pub plan: Planned,
    pub input: Input,
    /// How many packets the stream and its clock have, and the size of the capture of all frames.
    pub sums: (u64, u64, usize),
    /// Indices of frames in the order of sending, and for each index, the beginning of the frame's line.
    pub frames: &'static [(usize, &'static str)],
}

/// A frame that was sent.
#[derive(Debug, Drop)]
pub struct Frame {
    pub arrival: i64,
    pub number: u64,
    pub clock: bool,
    pub bytes: Vec<u8>,
}

pub fn bytes_of(alloc: Global, input: Input) -> Result<Vec<u8>, NoMemory> {
    let mut bytes = Vec::from_slice(alloc, input.0)?;
    for _ in 0..input.2 {
        bytes.extend_from_slice(input.1)?;
    }
    Ok(bytes)
}

/// A talker of a plan.
pub fn begin(alloc: Global, plan: TalkPlan, input: &[u8]) -> Result<Talker<'_>, Fail>
    requires { IsPlan plan }
{
    if input.len() > 1_000_000 {
        return Err(Fail::new("a long input"));
    }
    Ok(Talker::begin(alloc, plan, input)?)
}

/// All frames, in the order in which they are sent.
pub fn frames_of(alloc: Global, talker: &mut Talker<'_>) -> Result<Vec<Frame>, Fail> {
    let mut frames = Vec::new(alloc);
    for _ in 0..20_000u32 {
        match talker.next() {
            None => break,
            Some(sent) => {
                let bytes = Vec::from_slice(alloc, sent.bytes)?;
                frames.push(Frame {
                    arrival: sent.arrival,
                    number: sent.number,
                    clock: sent.clock,
                    bytes,
                })?;
            }
        }
    }
    Ok(frames)
}

fn is_same(sent: Sent<'_>, frame: &Frame) -> bool {
    sent.arrival == frame.arrival
        && sent.number == frame.number
        && sent.clock == frame.clock
        && sent.bytes == frame.bytes.as_slice()
}

/// Checks that a talker writes exactly these frames in order. Checks also that the talker returns each frame of the
/// stream for the number of the frame's packet.
fn check_written(
    rt: &impl Abort,
    name: &str,
    mut talker: Talker<'_>,
    frames: &[Frame],
) -> Result<(), Fail> {
    let mut memory = [0; 1518];
    for frame in frames {
        let turn = talker.turn().ok_or("no turn")?;
        let out = &mut memory[..turn.size];
        talker.write(turn, out);
        talker.go_on(turn);
        let sent = Sent {
            arrival: turn.arrival,
            number: turn.number,
            clock: turn.clock,
            bytes: out,
        };
        assert!(rt; is_same(sent, frame), "{name}: {frame:?} is written");
        if !frame.clock && frame.number < talker.packets() {
            assert!(rt;
                is_same(talker.packet(frame.number), frame),
                "{name}: {frame:?} is packet {}",
                frame.number
            );
        }
    }
    assert!(rt; talker.turn().is_none(), "{name}");
    Ok(())
}

/// The 32-bit number in the four bytes at `at`.
fn number_at(bytes: &[u8], at: usize) -> u32 {
    match bytes.get(at..) {
        Some([b0, b1, b2, b3, ..]) => u32::from_be_bytes([*b0, *b1, *b2, *b3]),
        _ => 0,
    }
}

/// A frame's line: the frame's arrival; then its packet's number, the packet's first four bytes, the low 32 bits of the
/// packet's first timestamp, and what follows the packet's common header.
fn line_of(alloc: Global, frame: &Frame) -> Result<String, NoMemory> {
    let head = number_at(&frame.bytes, 18);
    let stamp = number_at(&frame.bytes, if frame.clock { 42 } else { 30 });
    let rest = hex::encode(alloc, frame.bytes.get(34..).unwrap_or(&[]))?;
    let (arrival, number) = (frame.arrival, frame.number);
    Ok(format!(in alloc; "{arrival} {number} {head:08x} {stamp} {rest}")?)
}

/// The number of bytes in the capture of these frames.
fn capture_size(frames: &[Frame]) -> usize {
    let mut size = 24usize;
    for frame in frames {
        size = size.saturating_add(16).saturating_add(frame.bytes.len());
    }
    size
}

fn check_row(rt: &impl Abort, alloc: Global, row: &Row) -> Result<(), Fail> {
    let (name, plan) = (row.name, row.plan.plan());
    let input = bytes_of(alloc, row.input)?;
    let mut given = begin(alloc, plan, &input)?;
    let frames = frames_of(alloc, &mut given)?;
    let sums = (given.packets(), given.clocks(), capture_size(&frames));
    assert_eq!(rt; sums, row.sums, "{name}");
    for (place, wanted) in row.frames {
        let line = line_of(alloc, frames.get(*place).ok_or("no such frame")?)?;
        assert!(rt; line.starts_with(wanted), "{name}, frame {place}: {line}");
    }
    check_written(rt, name, begin(alloc, plan, &input)?, &frames)
}

/// Checks, for each row, that the frames of the row's plan are the frames that the row lists.
pub fn check_sent(rt: &impl Abort, alloc: Global, rows: &[Row]) -> Result<(), Fail> {
    for row in rows {
        check_row(rt, alloc, row)?;
    }
    Ok(())
}
