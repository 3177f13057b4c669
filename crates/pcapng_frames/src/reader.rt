//! Reads the packets of a pcapng capture, in pieces of any length.

ghost use Rattle.std.specs.Prelude.{is_some, ◌≡◌, ◌+◌, ◌≤◌, ◌^◌, length, None, Ok, IfOk};
ghost use Rattle.pcap_frames.specs.Readers.{Ends, Feeds, FindsNext, IsView, Views};
ghost use Rattle.pcap_frames.specs.state.Readers.{Accepts, Advances, IsSure};
ghost use Rattle.pcapng_blocks.specs.declared.block.Stage.TheVariants as stage;
ghost use Rattle.pcapng_frames.specs.Reading.{IsNext, LetsGo, held, meaning, nothing_read, passing, progress, taken, with_block};
ghost use Rattle.pcapng_frames.specs.state.Reading.{IsAt, IsGoing, IsSkipping, TakesSome, lacks};

use crate::cursor::Cursor;
use crate::steps;
use avtp_base::rows::cut_off;
use avtp_base::{Field, NoMemory, Refusal};
use pcap_frames::part::gather;
use pcap_frames::{Order, RecordView};
use pcapng_blocks::packet::{packet_size, packet_view};
use pcapng_blocks::{Interfaces, Stage, layout, refusals};
use std::alloc::Global;
use std::marker::Model;

/// At most this many bytes of a block are held: the fixed fields of a packet and its captured bytes.
const PART_ROOM: usize = 262_172;

/// The greatest number of bytes of an option that are held: its header and the value of `if_tsoffset`.
const TAIL_ROOM: usize = 12;

/// Reads a pcapng capture (draft-ietf-opsawg-pcapng). The reader takes the capture's bytes in pieces of any length, and
/// holds one packet at a time. Feed a piece until all of it is taken; after each call, look at the held packet and
/// release it.
///
/// If a packet's block is complete in a piece, the packet need not be copied. If `whole_ahead` finds a complete block,
/// use `lend` to see the packet in the piece and `pass` to skip it, instead of `feed`, `held` and `release`.
#[derive(Debug, Drop)]
pub struct Ng {
    cursor: Cursor,
    /// The section's interfaces.
    interfaces: Interfaces,
    /// The bytes held of the block: its fixed fields, and the captured bytes of a packet.
    part: Vec<u8>,
    /// The bytes taken of an option or a trailer.
    tail: Vec<u8>,
    /// Whether the block of a packet is whole.
    whole: bool,
    refusal: Option<Refusal>,
}

impl Model for Ng {
    ghost use Rattle.std.specs.Prelude.{vec_capacity};
    ghost use Rattle.pcapng_frames.specs.Reading.{Reading};
    ghost use Rattle.pcapng_frames.specs.state.Reading.{IsReader, part_at, place_of};

    ghost Value = { Reading };

    ghost view = { λ r. record { place = place_of r.cursor r.interfaces r.part.items; skip = r.cursor.skip; part = part_at r.cursor.stage r.part.items r.tail.items; whole = r.whole; refusal = r.refusal } };

    ghost invariant = { λ r. IsReader r.cursor r.interfaces r.part.items r.tail.items r.whole r.refusal (vec_capacity r.part) (vec_capacity r.tail) };
}

impl Ng {
    /// A reader that has taken nothing. This call allocates the memory of one packet and of 256 interfaces. Later calls
    /// allocate nothing.
    pub fn new(alloc: Global) -> Result<Self, NoMemory>
        ensures { IfOk result (λ reader. reader ≡ nothing_read) }
    {
        let interfaces = Interfaces::new(alloc)?;
        let Ok(part) = Vec::with_capacity(alloc, PART_ROOM) else {
            return Err(NoMemory);
        };
        let Ok(tail) = Vec::with_capacity(alloc, TAIL_ROOM) else {
            return Err(NoMemory);
        };
        Ok(Ng {
            cursor: Cursor::START,
            interfaces,
            part,
            tail,
            whole: false,
            refusal: None,
        })
    }

    /// Takes bytes up to the end of one packet's block or up to the end of the piece, and returns the number of bytes
    /// taken.
    ///
    /// While nothing is refused, the call returns `Ok(0)` if and only if the piece is empty or a whole packet is held.
    /// As soon as the bytes so far show the first refusal of the capture, the call returns that refusal. Once `feed`
    /// has returned a refusal, every `feed` and every `finish` returns the same refusal.
    ///
    /// The bytes taken before and the bytes of the piece must together number at most 2^62.
    pub fn feed(&mut self, piece: &[u8]) -> Result<usize, Refusal>
        requires { taken self.old + length piece.now ≤ 2 ^ 62 }
        ensures { Feeds meaning (progress self.old) piece.now result (progress self.new) }
    {
        match self.refusal {
            Some(refusal) => Err(refusal),
            None => self.advance(piece),
        }
    }

    /// Takes bytes up to the end of one packet's block or of the piece.
    fn advance(&mut self, piece: &[u8]) -> Result<usize, Refusal>
        requires { Accepts (progress self.old) piece.now }
        ensures advances { Advances (progress self.old) piece.now result (progress self.new) }
        ensures sure { IsSure meaning (progress self.new) }
    {
        let mut used = 0;
        while used < piece.len() && !self.whole {
            used += self.feed_place(&piece[used..])?;
        }
        Ok(used)
    }

    /// Skips bytes, or takes bytes until more is known of what follows next.
    fn feed_place(&mut self, piece: &[u8]) -> Result<usize, Refusal>
        requires { IsGoing self.old piece.now }
        ensures { TakesSome self.old piece.now result self.new }
    {
        if self.cursor.skip > 0 {
            let taken = self.skip(piece);
            return Ok(taken);
        }
        match self.cursor.stage {
            Stage::Block => {
                let taken = self.feed_block(piece)?;
                Ok(taken)
            }
            Stage::Option => {
                let taken = self.feed_option(piece)?;
                Ok(taken)
            }
            Stage::Trailer => {
                let taken = self.feed_trailer(piece)?;
                Ok(taken)
            }
        }
    }

    /// Drops the held packet, to make room for the next one. Returns whether a packet was held.
    pub fn release(&mut self) -> bool
        ensures { LetsGo self.old result self.new }
    {
        if !self.is_whole() {
            return false;
        }
        self.interfaces.add_described(self.cursor.interface);
        self.cursor = steps::after_trailer(self.cursor);
        self.part.clear();
        self.tail.clear();
        self.whole = false;
        true
    }

    /// The size of the next packet's block, if the piece begins with the whole block and no byte of the block was taken
    /// yet.
    ///
    /// The result is `None` in each of these cases: a block of another kind comes first, some bytes of the block were
    /// taken, a field is refused, or the block continues after the piece. If the result is `None`, feed the piece.
    #[inline(always)]
    pub fn whole_ahead(&self, piece: &[u8]) -> Option<usize>
        ensures { FindsNext (IsNext self.now) piece.now result }
    {
        if self.refusal.is_some() || !self.part.is_empty() {
            return None;
        }
        match self.cursor.stage {
            Stage::Block => {
                // In each of the two calls, the compiler knows the byte order.
                match self.cursor.order? {
                    Order::Little => packet_size(Order::Little, &self.interfaces, piece),
                    Order::Big => packet_size(Order::Big, &self.interfaces, piece),
                }
            }
            _ => None,
        }
    }

    /// A view of the next packet in the bytes of its block.
    #[inline(always)]
    pub fn lend<'a>(&self, block: &'a [u8]) -> RecordView<'a>
        requires { IsNext self.now block.now }
        ensures { IsView (held (with_block self.now block.now)) result }
    {
        // In each of the two calls, the compiler knows the byte order.
        match layout::order_or_little(self.cursor.order) {
            Order::Little => packet_view(Order::Little, &self.interfaces, block),
            Order::Big => packet_view(Order::Big, &self.interfaces, block),
        }
    }

    /// Skips the block of the next packet, as if its bytes had been fed and the packet released.
    ///
    /// The bytes that were taken before and the bytes of this block are together at most 2^62 bytes.
    #[inline(always)]
    pub fn pass(&mut self, block: &[u8])
        requires next { IsNext self.old block.now }
        requires bounded { taken self.old + length block.now ≤ 2 ^ 62 }
        ensures exact { self.new ≡ passing self.old block.now }
    {
        self.cursor.start += block.len() as u64;
    }

    /// Whether the bytes so far are a whole capture, which consists of whole blocks and begins with a section header.
    ///
    /// If the capture is not whole, the call returns the refusal that an earlier `feed` returned, if there is one.
    /// Otherwise the call refuses the first incomplete field, with `short` set. If only the block type of a section's
    /// 257th interface description is present, the call refuses that interface instead. The call changes nothing, and
    /// more bytes can be fed afterwards.
    pub fn finish(&self) -> Result<(), Refusal>
        ensures { Ends meaning (progress self.now) result }
    {
        match self.refusal {
            Some(refusal) => return Err(refusal),
            None => {}
        }
        match self.missing() {
            None => Ok(()),
            Some(refusal) => Err(refusal),
        }
    }

    /// What is missing for the bytes so far to be a whole capture; `None` if nothing is missing.
    fn missing(&self) -> Option<Refusal>
        requires accepted { self.now.refusal ≡ None }
        ensures { result ≡ lacks self.now }
    {
        if self.whole {
            return None;
        }
        let cursor = self.cursor;
        match cursor.stage {
            Stage::Block => steps::missing_of_block(
                cursor.order,
                self.interfaces.len(),
                cursor.start,
                self.part.as_slice(),
            ),
            _ => Some(cut_off(Field::BlockBody, cursor.start + 8)),
        }
    }

    /// Takes bytes that are to be skipped. None of these bytes is kept, so a skipped block may have any length.
    fn skip(&mut self, piece: &[u8]) -> usize
        requires { IsSkipping self.old piece.now }
        ensures { TakesSome self.old piece.now (Ok result) self.new }
    {
        let taken = piece.len().min(self.cursor.skip as usize);
        self.cursor.skip -= taken as u32;
        taken
    }

    /// Takes bytes until more is known of a block.
    fn feed_block(&mut self, piece: &[u8]) -> Result<usize, Refusal>
        requires { IsAt stage.Block self.old piece.now }
        ensures { TakesSome self.old piece.now result self.new }
    {
        let need = steps::block_need(self.cursor.order, self.part.as_slice());
        let taken = gather(&mut self.part, need, piece);
        let part = self.part.as_slice();
        let cursor = self.cursor;
        let refusal = refusals::block_refusal(cursor.order, &self.interfaces, cursor.start, part);
        match refusal {
            Some(refusal) => {
                self.refusal = Some(refusal);
                return Err(refusal);
            }
            None => {}
        }
        if part.len() < steps::block_need(cursor.order, part) {
            return Ok(taken);
        }
        let kind = layout::kind_at(cursor.order, part);
        self.cursor = steps::after_block(cursor, &self.interfaces, part);
        self.interfaces.settle(kind);
        self.tail.clear();
        Ok(taken)
    }

    /// Takes bytes until more is known of an option.
    fn feed_option(&mut self, piece: &[u8]) -> Result<usize, Refusal>
        requires { IsAt stage.Option self.old piece.now }
        ensures { TakesSome self.old piece.now result self.new }
    {
        let cursor = self.cursor;
        let order = layout::order_or_little(cursor.order);
        let need = steps::option_need(order, self.tail.as_slice());
        let taken = gather(&mut self.tail, need, piece);
        let tail = self.tail.as_slice();
        let at = cursor.start + u64::from(cursor.total - 4 - cursor.left);
        let refusal = refusals::option_refusal(order, at, cursor.left, tail);
        match refusal {
            Some(refusal) => {
                self.refusal = Some(refusal);
                return Err(refusal);
            }
            None => {}
        }
        if tail.len() < steps::option_need(order, tail) {
            return Ok(taken);
        }
        self.cursor = steps::after_option(cursor, tail);
        self.tail.clear();
        Ok(taken)
    }

    /// Takes bytes up to the end of a trailer.
    fn feed_trailer(&mut self, piece: &[u8]) -> Result<usize, Refusal>
        requires { IsAt stage.Trailer self.old piece.now }
        ensures { TakesSome self.old piece.now result self.new }
    {
        let cursor = self.cursor;
        let order = layout::order_or_little(cursor.order);
        let taken = gather(&mut self.tail, 4, piece);
        let tail = self.tail.as_slice();
        let at = cursor.start + u64::from(cursor.total - 4);
        let refusal = steps::trailer_refusal(order, at, cursor.total, tail);
        match refusal {
            Some(refusal) => {
                self.refusal = Some(refusal);
                return Err(refusal);
            }
            None => {}
        }
        if tail.len() < 4 {
            return Ok(taken);
        }
        if cursor.packet.is_some() {
            self.whole = true;
            return Ok(taken);
        }
        self.interfaces.add_described(cursor.interface);
        self.cursor = steps::after_trailer(cursor);
        self.part.clear();
        self.tail.clear();
        Ok(taken)
    }

    /// Whether a packet is held.
    fn is_whole(&self) -> bool
        ensures { result ≡ is_some (held self.now) }
    {
        match self.refusal {
            Some(_) => false,
            None => self.whole,
        }
    }

    /// The held packet: the most recent packet, if its block was taken whole and the packet was not released.
    pub fn held(&self) -> Option<RecordView<'_>>
        ensures { Views (held self.now) result }
    {
        if self.refusal.is_some() || !self.whole {
            return None;
        }
        let packet = self.cursor.packet?;
        Some(steps::view(packet, self.part.as_slice()))
    }
}
