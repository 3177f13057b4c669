//! The line of a sample. The line is reused for the next samples.

ghost use Rattle.std.specs.Prelude.{◌≡◌, ◌+◌, ◌^◌, ◌<◌, ◌≤◌, ℕ, ◌++◌, length, decimal, IfSome, IsTrue};
ghost use Rattle.hex.specs.Hex.{encode_lower};
ghost use Rattle.avtp_text.specs.Listen.{due_text, place_text};
ghost use Rattle.avtp_text.specs.Pieces.{newline};
ghost use Rattle.avtp_text.specs.SampleLines.{SamplePacket};
ghost use Rattle.avtp_text.specs.state.SampleLines.{AddsSample, Fits, IsWholeLine, KnowsGaps, StartsAt, SuitsSample, seen_as};

use crate::line::{LONGEST, Line};
use crate::overwrite::{overwrite_decimal, overwrite_eight_digits, overwrite_hex};
use avtp_base::Buffer;
use std::marker::Model;

/// If a sample has at most this many bytes, its line fits a [`Line`].
pub const SHORT: usize = 64;

/// The number of instants that differ only in their last eight digits. Instants that differ only in their last eight
/// digits span a tenth of a second.
const INSTANTS: i64 = 100_000_000;

/// The longest line that is kept, in bytes. A longer line is built anew for each sample.
const KEPT: usize = 128;

/// The numbers from `least` to `limit - 1`.
#[derive(Clone, Copy)]
struct Numbers {
    least: u32,
    limit: u32,
}

impl Numbers {
    const NONE: Self = Numbers { least: 0, limit: 0 };

    /// A range of numbers that have as many digits as `number`. The range is empty if `number` has more than three
    /// digits.
    #[tactic(auto, using(crate::proofs::Digits::as_long_one, crate::proofs::Digits::as_long_two, crate::proofs::Digits::as_long_three))]
    fn as_long_as(number: u32) -> Self
        ensures { (n : ℕ) → result.least ≤ n → n < result.limit → length (decimal n) ≡ length (decimal number) }
    {
        let (least, limit) = match number {
            0..10 => (0, 10),
            10..100 => (10, 100),
            100..1_000 => (100, 1_000),
            _ => (0, 0),
        };
        Numbers { least, limit }
    }
}

/// The number `instant` with its last eight digits replaced by 0. `None` if `instant` is below 10^8.
fn start_of(instant: i64) -> Option<i64>
    ensures { IfSome result (StartsAt instant) }
{
    if instant < INSTANTS {
        return None;
    }
    let high = instant as u64 / INSTANTS as u64;
    Some((high * INSTANTS as u64) as i64)
}

/// How many bytes of a line follow the instant, how many follow the number of the frame, and how many follow the
/// sequence number.
#[derive(Clone, Copy)]
struct Behind {
    instant: usize,
    frame: usize,
    seq: usize,
}

/// The whole line of a sample, and how many bytes of the line follow each of three parts: the instant, the number of
/// the frame, and the sequence number.
#[tactic(auto, unfolding(crate::specs::state::SampleLines::behind_instant))]
fn whole_line(instant: i64, frame: u64, seq: u8, j: u32, bytes: &[u8]) -> (Line, Behind)
    requires { length bytes.now ≤ SHORT }
    ensures { IsWholeLine result.0 result.1 instant frame seq j bytes.now }
{
    let mut line = Line::new();
    line.prepend_hex(bytes);
    line.prepend(" ");
    line.prepend_u32(" sample ", j);
    let behind_seq = line.len();
    line.prepend_u32(" seq ", seq as u32);
    let behind_frame = line.len();
    line.prepend_u64(" frame ", frame);
    let behind_instant = line.len();
    line.prepend_i64("at ", instant);
    let behind = Behind {
        instant: behind_instant,
        frame: behind_frame,
        seq: behind_seq,
    };
    (line, behind)
}

/// The last eight digits of `instant`, if the kept line fits the sample. The kept line fits if it differs from the
/// sample's line only in the last eight digits of the instant, the sample's number, and the sample's bytes.
#[inline(always)]
fn low_of(from: i64, numbers: Numbers, instant: i64, j: u32) -> Option<u32>
    ensures { IfSome result (λ low. Fits from numbers instant j low) }
{
    if instant < from {
        return None;
    }
    // A difference that overflows 64 bits wraps to a negative number.
    let low = instant.wrapping_sub(from);
    if low < 0 || low >= INSTANTS {
        return None;
    }
    if j < numbers.least || j >= numbers.limit {
        return None;
    }
    Some(low as u32)
}

/// The line that is kept for later samples. A line that is too long is not kept.
#[derive(Clone, Copy)]
struct KeptLine {
    /// The line's bytes, then unused bytes. All `KEPT` bytes are copied, because a copy of constant size needs no call.
    bytes: [u8; KEPT],
    len: usize,
    behind: Behind,
    /// The instant that has the digits of the line's instant, except that the last eight are 0.
    from: i64,
    /// The sample numbers that have as many digits as the number in the line. Empty if no line is kept.
    numbers: Numbers,
}

impl KeptLine {
    /// Overwrites the number of the frame and the sequence number in the line. Returns whether each new number has as
    /// many digits as the number that it replaces.
    #[tactic(auto, using(crate::proofs::Digits::digits_of_u64))]
    fn turn_to(&mut self, frame: u64, seq: u8) -> bool
        ensures { IsTrue result → (packet : SamplePacket) → KnowsGaps self.old packet → KnowsGaps self.new (seen_as frame seq packet.size) }
    {
        let (len, behind) = (self.len, self.behind);
        if len > KEPT || len < 20 || behind.frame > len - 20 || behind.seq > len - 20 {
            return false;
        }
        let text = &mut self.bytes[..len];
        let frame_len = overwrite_decimal(text, frame, behind.frame);
        let seq_len = overwrite_decimal(text, seq as u64, behind.seq);
        frame_len + behind.frame + 7 == behind.instant && seq_len + behind.seq + 5 == behind.frame
    }
}

/// The line of a sample, which is kept for the next sample. Contracts see the line as a packet: the line shows samples
/// of this packet. Usually the next line differs only in the last eight digits of the instant, the sample's number, and
/// the sample's bytes. In the usual case, only the changed digits, the sample's number and the sample's bytes are
/// written, over a copy of the kept line. The line is built anew in two cases: the sample's number gains a digit, or
/// other digits of the instant change.
#[derive(Drop)]
pub struct SampleLine {
    line: KeptLine,
    /// The number of the packet's frame. `seq` is the packet's sequence number.
    frame: u64,
    seq: u8,
    /// The size of a sample in bytes.
    size: usize,
}

impl Model for SampleLine {
    ghost use Rattle.avtp_text.specs.SampleLines.{SamplePacket};
    ghost use Rattle.avtp_text.specs.state.SampleLines.{KnowsGaps, seen_as};

    ghost Value = { SamplePacket };

    ghost view = { λ s. seen_as s.frame s.seq s.size };

    ghost invariant = { λ s. KnowsGaps s.line (seen_as s.frame s.seq s.size) };
}

impl SampleLine {
    /// A state in which no line is kept.
    pub fn new() -> Self {
        let line = KeptLine {
            bytes: [0; KEPT],
            len: 0,
            behind: Behind {
                instant: 0,
                frame: 0,
                seq: 0,
            },
            from: 0,
            numbers: Numbers::NONE,
        };
        SampleLine {
            line,
            frame: 0,
            seq: 0,
            size: 0,
        }
    }

    /// Prepares the line for samples of another packet. The kept line stays in use if only digits in it have to be
    /// overwritten.
    pub fn turn_to(&mut self, frame: u64, seq: u8, size: usize)
        ensures { self.new ≡ seen_as frame seq size }
    {
        if !self.line.turn_to(frame, seq) || size != self.size {
            self.line.numbers = Numbers::NONE;
        }
        self.frame = frame;
        self.seq = seq;
        self.size = size;
    }

    /// Appends the line of a sample to a buffer. The buffer must have room for a line. Keeps the line for later samples
    /// if the line is short enough.
    #[inline(never)]
    fn add_anew(&mut self, buffer: &mut Buffer, instant: i64, j: u32, bytes: &[u8])
        requires { SuitsSample self.old buffer.old bytes.now }
        ensures { AddsSample self.old self.new buffer.old buffer.new instant j bytes.now }
    {
        let (line, behind) = whole_line(instant, self.frame, self.seq, j, bytes);
        buffer.push(line.as_slice());
        self.line.numbers = Numbers::NONE;
        let Some(from) = start_of(instant) else {
            return;
        };
        if line.len() <= KEPT {
            self.line.bytes[..line.len()].copy_from_slice(line.as_slice());
            self.line.len = line.len();
            self.line.behind = behind;
            self.line.from = from;
            self.line.numbers = Numbers::as_long_as(j);
        }
    }

    /// Appends the line of a sample to a buffer. The buffer must have room for a line.
    #[inline(always)]
    pub fn add_to(&mut self, buffer: &mut Buffer, instant: i64, j: u32, bytes: &[u8])
        requires { SuitsSample self.old buffer.old bytes.now }
        ensures { AddsSample self.old self.new buffer.old buffer.new instant j bytes.now }
    {
        let Some(low) = low_of(self.line.from, self.line.numbers, instant, j) else {
            self.add_anew(buffer, instant, j, bytes);
            return;
        };
        buffer.push_first(&self.line.bytes, self.line.len);
        let text = buffer.waiting_mut();
        overwrite_eight_digits(text, low, self.line.behind.instant);
        overwrite_decimal(text, j as u64, 2 * bytes.len() + 2);
        overwrite_hex(text, bytes, 1);
    }
}
