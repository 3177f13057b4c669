//! Pieces of a batch.

ghost use Rattle.std.specs.Prelude.{◌≡◌, ◌+◌, ◌≤◌, ◌<◌, ◌||◌, int_le, pos, ◌+ℤ◌, [], ◌∷◌, ◌++◌, true, vec_len, vec_capacity};
ghost use Rattle.std.specs.Ordering.{int_eq};
ghost use Rattle.iec61883_format.specs.Iec.{IsSytInterval};
ghost use Rattle.talk_plan.specs.Timing.{nominal_offset};
ghost use Rattle.am824_gateway.specs.Pieces.{arrival_at, captures_end, most_frames as most_frames_of, next_block as next_block_of};
ghost use Rattle.am824_gateway.specs.Scan.{IsShape};
ghost use Rattle.am824_gateway.specs.state.Cutting.{BeginsPiece, CountsPiece, CutsBatch, IsOnePiece};

use crate::rates::interval_of;
use crate::scan::{Shape, To};
use sample_schedule::{Batch, Instant};

/// A piece of a batch. Each piece is carried by one packet.
#[derive(Clone, Copy, Debug, PartialEq, Eq)]
pub struct Piece {
    /// The number of the piece's first sample. The samples of a batch are numbered from 0.
    pub first: u32,
    /// How many samples the piece has.
    pub count: u32,
    /// The block count, modulo 256, of the piece's first data block in AM824 (IEC 61883-6).
    pub block: u8,
}

/// The pieces of a batch, with room for the pieces of any batch.
#[derive(Drop)]
pub(crate) struct Pieces {
    pub list: Vec<Piece>,
    ghost room: { 65535 ≤ vec_capacity list },
}

/// The maximum number of pieces in a batch. A batch has at most this many samples, and each piece has at least one
/// sample.
pub(crate) const MOST_PIECES: usize = 65_535;

const NANOSECONDS: u64 = 1_000_000_000;

/// A packet arrives this many nanoseconds before its presentation time: the max transit time of stream reservation
/// class A (IEEE 802.1BA).
const TRANSIT: i64 = 2_000_000;

/// 2^32 seconds, in nanoseconds. A capture cannot state an arrival at or after `CAPTURES_END`.
const CAPTURES_END: i64 = (1 << 32) * 1_000_000_000;

/// The arrival of a packet in nanoseconds of gPTP. The packet's first sample is presented at `instant`.
pub(crate) fn arrival_of(instant: i64) -> i64
    ensures { result ≡ arrival_at instant }
{
    instant.saturating_sub(TRANSIT).max(0)
}

/// The result is true in two cases: `late` is true, or a packet would arrive at a time that a capture cannot state.
/// That packet's first sample is presented at `instant`.
fn is_late_with(late: bool, instant: i64) -> bool
    ensures { result ≡ (late || int_le (pos captures_end) (arrival_at instant)) }
{
    late || arrival_of(instant) >= CAPTURES_END
}

/// The maximum number of sample frames in a packet.
fn most_frames(to: To, shape: Shape) -> u32
    requires { IsShape shape }
    ensures { result ≡ most_frames_of to shape.channels }
{
    let (bytes, value) = match to {
        To::Am824 => (1468, 4),
        To::Aaf => (1476, 3),
    };
    bytes / (value * u32::from(shape.channels))
}

/// The block count of the next packet, after a packet with the block count `block` and `count` data blocks.
fn next_block(interval: u32, block: u8, count: u32) -> u8
    requires { IsSytInterval interval }
    ensures { result ≡ next_block_of interval block count }
{
    let counted = u64::from(block) + u64::from(count);
    let interval = u64::from(interval);
    (counted.div_ceil(interval) * interval % 256) as u8
}

/// Whether sample `k` of a piece is presented at its nominal instant. The sample is presented at `instant`, and sample 0
/// of the piece at `start`.
fn is_on_line(instant: i64, start: i64, rate: u32, k: u32) -> bool
    requires { 1 ≤ rate }
    ensures { result ≡ int_eq instant (start +ℤ pos (nominal_offset rate k)) }
{
    let offset = u64::from(k) * NANOSECONDS / u64::from(rate);
    i128::from(instant) == i128::from(start) + i128::from(offset)
}

/// The number of samples in the piece that begins at `instant`. Moves `instant` to the first sample after the piece.
fn count_piece(instant: &mut Instant, batch: &Batch, rate: u32, most: u32) -> u32
    requires { BeginsPiece rate most batch.now instant.old }
    ensures { CountsPiece rate most batch.now instant.old instant.new result }
{
    let start = instant.nanoseconds;
    let limit = most.min(batch.count - instant.j);
    let mut count = 1;
    instant.next(batch);
    while count < limit && is_on_line(instant.nanoseconds, start, rate, count) {
        count += 1;
        instant.next(batch);
    }
    count
}

/// Whether the line and the size of the batch show that the batch is one piece. Two things must hold: the line has the
/// nominal rate and begins at the first sample, and one packet can carry all samples.
fn is_one_piece(to: To, shape: Shape, batch: &Batch) -> bool
    requires { IsShape shape }
    ensures { result ≡ true → IsOnePiece to shape batch.now }
{
    batch.from == 0
        && batch.line.num == NANOSECONDS
        && batch.line.den == u64::from(shape.rate)
        && batch.count <= most_frames(to, shape)
}

/// Cuts a batch into pieces; the first piece has the block count `block`. Returns two values: the block count of the
/// next packet, and whether the packet of some piece would arrive at a time that a capture cannot state.
pub(crate) fn cut(pieces: &mut Pieces, to: To, shape: Shape, batch: &Batch, block: u8) -> (u8, bool)
    requires { IsShape shape }
    ensures { CutsBatch to shape batch.now block pieces.new.list.items result.0 result.1 }
{
    if is_one_piece(to, shape, batch) {
        cut_once(pieces, to, shape, batch, block)
    } else {
        cut_by_instants(pieces, to, shape, batch, block)
    }
}

/// Replaces `pieces` by the only piece of a batch.
fn cut_once(pieces: &mut Pieces, to: To, shape: Shape, batch: &Batch, block: u8) -> (u8, bool)
    requires { IsOnePiece to shape batch.now }
    ensures { CutsBatch to shape batch.now block pieces.new.list.items result.0 result.1 }
{
    let count = batch.count;
    pieces.list.clear();
    push(
        pieces,
        Piece {
            first: 0,
            count,
            block,
        },
    );
    let next = next_block(interval_of(shape.rate), block, count);
    (next, is_late_with(false, batch.instant(0)))
}

/// Replaces `pieces` by the pieces of any batch. Computes the instant of each sample from the instant of the previous
/// sample.
fn cut_by_instants(
    pieces: &mut Pieces,
    to: To,
    shape: Shape,
    batch: &Batch,
    block: u8,
) -> (u8, bool)
    requires { IsShape shape }
    ensures { CutsBatch to shape batch.now block pieces.new.list.items result.0 result.1 }
{
    let most = most_frames(to, shape);
    let interval = interval_of(shape.rate);
    let mut instant = Instant::first(batch);
    let mut next = block;
    let mut late = false;
    pieces.list.clear();
    while instant.j < batch.count {
        let first = instant.j;
        late = is_late_with(late, instant.nanoseconds);
        let count = count_piece(&mut instant, batch, shape.rate, most);
        push(
            pieces,
            Piece {
                first,
                count,
                block: next,
            },
        );
        next = next_block(interval, next, count);
    }
    (next, late)
}

/// Adds a piece of a batch.
fn push(pieces: &mut Pieces, piece: Piece)
    requires { vec_len pieces.old.list < 65535 }
    ensures { pieces.new.list.items ≡ pieces.old.list.items ++ piece ∷ [] }
{
    let Ok(()) = pieces.list.push(piece) else {
        unreachable!()
    };
}
