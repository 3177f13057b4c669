//! Converts the batches that a listener presents into packets of the other format.

ghost use Rattle.std.specs.Prelude.{◌≡◌, ◌^◌, ◌<◌, ◌∷◌, [], ◌≤◌, length, slice_get, take, Some, IfOk, IfSome};
ghost use Rattle.talker.specs.Frames.{sent_frame};
ghost use Rattle.talker.specs.Turns.{frame_in};
ghost use Rattle.am824_gateway.specs.Gateways.{IsPieceFrame, IsPieceTurn, TakesBatch};
ghost use Rattle.am824_gateway.specs.Labels.{value_in};
ghost use Rattle.am824_gateway.specs.Pieces.{has_shape as has_shape_by, nothing_given, overlaps as overlaps_by};
ghost use Rattle.am824_gateway.specs.Packets.{frame_size, piece_frame};
ghost use Rattle.am824_gateway.specs.Scan.{IsShape};

use crate::labels::are_linear;
use crate::packet::{AM824_HEADERS, Stream, first_headers};
use crate::piece::{MOST_PIECES, Piece, Pieces, arrival_of, cut};
use crate::scan::{Shape, To};
use crate::skip::Skip;
use avtp_base::{Bytes, NoMemory};
use sample_schedule::Batch;
use std::alloc::Global;
use std::marker::Model;
use talker::{Sent, Turn};

/// The maximum number of bytes of a frame.
const LONGEST_FRAME: usize = 1518;

/// The last batch that was not skipped, the stream of this batch, and the number of packets before the first packet of
/// this batch.
#[derive(Drop)]
pub(crate) struct Current {
    pub stream: Stream,
    pub batch: Batch,
    pub first: u64,
}

/// Cuts the batches that a listener presents into packets of the other format. From a gateway's packets, listeners
/// present samples with the same values and at the same instants as in the batches. Memory is reserved when the gateway
/// is made.
pub struct Gateway {
    to: To,
    shape: Option<Shape>,
    id: u64,
    /// The headers of the frames, if there is a shape.
    headers: [u8; AM824_HEADERS],
    /// The number of batches that were not skipped, and the number of their packets.
    batches: u64,
    packets: u64,
    /// The block count, modulo 256, of the next packet of AM824.
    block: u8,
    /// The instant of the last sample of the last batch that was not skipped.
    last: Option<i64>,
    current: Option<Current>,
    /// The pieces of the last batch that was not skipped.
    pieces: Pieces,
    /// The pieces of the next batch, until it is known that the batch is not skipped.
    spare: Pieces,
    /// The frame that the last call of `piece` wrote.
    frame: Vec<u8>,
}

// One call for the proofs of all owners, instead of the drops of the parts at each of their ends.
impl Drop for Gateway {
    fn drop(self) {
        let Gateway {
            to: _,
            shape: _,
            id: _,
            headers: _,
            batches: _,
            packets: _,
            block: _,
            last: _,
            current: _,
            pieces: _,
            spare: _,
            frame: _,
        } = self;
    }
}

impl Model for Gateway {
    ghost use Rattle.std.specs.Prelude.{length};
    ghost use Rattle.am824_gateway.specs.Gateways.{Gating};
    ghost use Rattle.am824_gateway.specs.state.Kept.{IsGateway, frames_in};

    ghost Value = { Gating };

    ghost view = { λ g. record { to = g.to; shape = g.shape; id = g.id; given = record { batches = g.batches; packets = g.packets; block = g.block; last = g.last }; frames = frames_in g.current g.pieces.list.items } };

    ghost invariant = { IsGateway };
}

impl Current {
    ghost use Rattle.am824_gateway.specs.state.Kept.{IsCut};

    /// Writes the frame of packet `number`, which carries `piece` of the batch.
    fn write(&self, piece: Piece, number: u64, out: &mut [u8])
        requires cut { IsCut self.now (piece ∷ []) }
        requires room { length out.old ≡ frame_size self.now.stream.to self.now.stream.shape piece }
        ensures { out.new ≡ (piece_frame self.now.stream.to self.now.stream.shape self.now.stream.id number self.now.batch piece).bytes }
    {
        let batch = &self.batch;
        let sample = value_size(self.stream.to) * usize::from(self.stream.shape.channels);
        let from = piece.first as usize * sample;
        let values = &batch.bytes.as_slice()[from..from + piece.count as usize * sample];
        self.stream
            .write(out, number, batch.instant(piece.first), piece, values);
    }

    /// Writes the frame of a piece of the batch into the first bytes of `out`. `turn` states the frame's number and
    /// size.
    fn write_front(&self, piece: Piece, turn: Turn, out: &mut [u8])
        requires cut { IsCut self.now (piece ∷ []) }
        requires size { turn.size ≡ frame_size self.now.stream.to self.now.stream.shape piece }
        requires room { turn.size ≤ length out.old }
        ensures { take turn.size out.new ≡ (piece_frame self.now.stream.to self.now.stream.shape self.now.stream.id turn.number self.now.batch piece).bytes }
    {
        self.write(piece, turn.number, &mut out[..turn.size]);
    }
}

/// The number of bytes of a value as it is presented.
fn value_size(to: To) -> usize
    ensures { result ≡ value_in to }
{
    match to {
        To::Am824 => 3,
        To::Aaf => 4,
    }
}

/// Whether the batch consists of samples of this shape.
fn has_shape(to: To, shape: Shape, batch: &Batch) -> bool
    ensures { result ≡ has_shape_by to shape batch.now }
{
    let bytes = batch.bytes.as_slice();
    let sample = value_size(to) * usize::from(shape.channels);
    !batch.is_unit()
        && bytes.len() == batch.count as usize * sample
        && match to {
            To::Am824 => true,
            To::Aaf => are_linear(bytes),
        }
}

/// Whether the batch begins at or before the instant `last`.
fn overlaps(last: Option<i64>, batch: &Batch) -> bool
    ensures { result ≡ overlaps_by last batch.now }
{
    match last {
        Some(last) => batch.instant(0) <= last,
        None => false,
    }
}

impl Gateway {
    ghost use Rattle.std.specs.Borrow.{sem};
    ghost use Rattle.am824_gateway.specs.Lending.{EndsAs};

    /// A gateway before its first batch. The gateway converts a stream of this shape to the format `to`, and sends it
    /// under the stream ID `id`. The shape is the one that the scan found. Without a shape, all batches are skipped.
    pub fn begin(alloc: Global, to: To, shape: Option<Shape>, id: u64) -> Result<Self, NoMemory>
        requires { IfSome shape IsShape }
        ensures { IfOk result (λ gateway. gateway ≡ record { to = to; shape = shape; id = id; given = nothing_given; frames = [] }) }
    {
        let headers = first_headers(to, shape, id);
        let pieces = Pieces {
            list: Vec::with_capacity(alloc, MOST_PIECES)?,
        };
        let spare = Pieces {
            list: Vec::with_capacity(alloc, MOST_PIECES)?,
        };
        let frame = vec![in alloc; 0u8; LONGEST_FRAME]?;
        Ok(Gateway {
            to,
            shape,
            id,
            headers,
            batches: 0,
            packets: 0,
            block: 0,
            last: None,
            current: None,
            pieces,
            spare,
            frame,
        })
    }

    /// Takes the next batch that is presented, cuts it into pieces, and returns the number of pieces. Call `put` only
    /// while `batches` is below 2^44. A skipped batch changes nothing. The call allocates nothing.
    ///
    /// A batch is skipped for the first of these reasons that holds. `ShapeOff` has four cases: there is no shape, the
    /// batch is a unit of H.264, the batch does not have one value of 24 bits for each channel of each sample, or a
    /// value has a label other than 0x40. `Overlap`: the batch begins at or before the last sample of the batches that
    /// were not skipped. `Range`: a packet would arrive at 2^32 seconds or later.
    pub fn put(&mut self, batch: Batch) -> Result<u32, Skip>
        requires few { self.old.given.batches < 2 ^ 44 }
        ensures { TakesBatch batch self.old self.new result }
    {
        let Some(shape) = self.shape else {
            return Err(Skip::ShapeOff);
        };
        if !has_shape(self.to, shape, &batch) {
            return Err(Skip::ShapeOff);
        }
        if overlaps(self.last, &batch) {
            return Err(Skip::Overlap);
        }
        let (block, late) = cut(&mut self.spare, self.to, shape, &batch, self.block);
        if late {
            return Err(Skip::Range);
        }
        std::mem::swap(&mut self.pieces, &mut self.spare);
        let number = self.pieces.list.len();
        let first = self.packets;
        self.batches += 1;
        self.packets += number as u64;
        self.block = block;
        self.last = Some(batch.instant(batch.count - 1));
        let stream = Stream {
            to: self.to,
            shape,
            id: self.id,
            headers: self.headers,
        };
        self.current = Some(Current {
            stream,
            batch,
            first,
        });
        Ok(number as u32)
    }

    /// The number of batches that were not skipped.
    pub fn batches(&self) -> u64
        ensures { result ≡ self.now.given.batches }
    {
        self.batches
    }

    /// The number of packets of all batches that were not skipped.
    pub fn packets(&self) -> u64
        ensures { result ≡ self.now.given.packets }
    {
        self.packets
    }

    /// What is sent for piece `i` of the last batch that was not skipped. Pieces are counted from 0.
    pub fn turn(&self, i: u32) -> Turn
        requires { i < length self.now.frames }
        ensures { IsPieceTurn self.now i result }
    {
        let Some(current) = &self.current else {
            unreachable!()
        };
        let piece = self.pieces.list[i as usize];
        Turn {
            arrival: arrival_of(current.batch.instant(piece.first)),
            number: current.first + u64::from(i),
            clock: false,
            size: current.stream.frame_size(piece),
        }
    }

    /// Writes the frame of piece `i` of the last batch that was not skipped. Allocates nothing.
    pub fn write(&self, i: u32, turn: Turn, out: &mut [u8])
        requires turn { IsPieceTurn self.now i turn }
        requires room { length out.old ≡ turn.size }
        ensures { slice_get self.now.frames i ≡ Some (frame_in turn out.new) }
    {
        let Some(current) = &self.current else {
            unreachable!()
        };
        let piece = self.pieces.list[i as usize];
        current.write(piece, current.first + u64::from(i), out);
    }

    /// Returns the bytes of the last batch that was not skipped, so that their memory can be used again. Call
    /// `give_back` only after the batch's packets are written, because the call removes the pieces.
    pub fn give_back(&mut self) -> Option<Bytes>
        ensures { self.new ≡ record self.old { frames = [] } }
    {
        self.pieces.list.clear();
        let current = self.current.take()?;
        Some(current.batch.bytes)
    }

    /// Returns the frame of piece `i` of the last batch that was not skipped. Pieces are counted from 0. Allocates
    /// nothing.
    pub fn piece(&mut self, i: u32) -> Sent<'_>
        requires { i < length self.old.frames }
        ensures lent { IsPieceFrame self.old i (sent_frame result) }
        ensures* after { sem 𝓛 (EndsAs self.entry (λ last. last ≡ self.old)) }
    {
        let turn = self.turn(i);
        let Some(current) = &self.current else {
            unreachable!()
        };
        let piece = self.pieces.list[i as usize];
        current.write_front(piece, turn, self.frame.as_mut_slice());
        Sent {
            arrival: turn.arrival,
            number: turn.number,
            clock: turn.clock,
            bytes: &self.frame.as_slice()[..turn.size],
        }
    }
}
