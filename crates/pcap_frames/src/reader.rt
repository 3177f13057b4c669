//! Reads the records of a capture, in pieces of any length.

ghost use Rattle.pcap_frames.specs.Capture.{Record, style_of};
ghost use Rattle.pcap_frames.specs.Readers.{Feeds, FindsNext, IsView, Views};
ghost use Rattle.pcap_frames.specs.state.Readers.{Advances};
ghost use Rattle.pcap_frames.specs.Reading.{Finishes, HasRead, IsNext, LetsGo, Passes, held, meaning, nothing_read, progress, taken, with_part};
ghost use Rattle.pcap_frames.specs.state.Reading.{CanFill, Fills, IsBefore, TakesHeader, ending};
ghost use Rattle.std.specs.Prelude.{ℕ, List, is_some, ◌≡◌, ◌+◌, ◌≤◌, ◌^◌, length, None, Some, IfOk, [], vec_capacity};

use crate::layout::{self, FILE_HEADER, RECORD_HEADER, RECORD_LIMIT};
use crate::numbers::u32_at;
use crate::part::gather;
use crate::style::{Order, RecordView, Style};
use avtp_base::{NoMemory, Refusal};
use std::alloc::Global;
use std::marker::Model;

/// Reads a capture in the classic pcap layout (draft-ietf-opsawg-pcap). The reader takes the capture's bytes in pieces
/// of any length, and holds one record at a time. Feed a piece until all of it is taken; after each call, look at the
/// held record and release it.
///
/// A record that is complete in a piece need not be copied. If `whole_ahead` finds a complete record, the calls `feed`,
/// `held` and `release` are not needed: use `lend` to see the record in the piece, and `pass` to skip the record.
#[derive(Debug, Drop)]
pub struct Reader {
    style: Option<Style>,
    /// The offset, in the capture, of the file header or record that is being read.
    start: u64,
    /// The bytes taken so far of the file header or of the current record. The header and the captured bytes of a
    /// record share this buffer.
    part: Vec<u8>,
    refusal: Option<Refusal>,
}

impl Model for Reader {
    ghost use Rattle.std.specs.Prelude.{vec_capacity};
    ghost use Rattle.pcap_frames.specs.Reading.{Reading};
    ghost use Rattle.pcap_frames.specs.state.Reading.{IsReader};

    ghost Value = { Reading };

    ghost view = { λ r. record { style = r.style; start = r.start; part = r.part.items; refusal = r.refusal } };

    ghost invariant = { λ r. IsReader (record { style = r.style; start = r.start; part = r.part.items; refusal = r.refusal }) (vec_capacity r.part) };
}

impl Reader {
    /// A reader that has taken nothing. `new` allocates memory for one record. Later calls allocate nothing.
    #[tactic(auto, using(crate::proofs::Fields::header_begins, crate::proofs::Steps::read_nothing))]
    pub fn new(alloc: Global) -> Result<Self, NoMemory>
        ensures empty { IfOk result (λ reader. reader ≡ nothing_read) }
        ensures read { IfOk result (λ reader. HasRead reader [] []) }
    {
        let room = RECORD_HEADER + RECORD_LIMIT as usize;
        match Vec::with_capacity(alloc, room) {
            Ok(part) => Ok(Reader {
                style: None,
                start: 0,
                part,
                refusal: None,
            }),
            Err(_) => Err(NoMemory),
        }
    }

    /// Takes bytes up to the end of one record or of the piece, and returns how many it took.
    ///
    /// While nothing is refused, the call returns `Ok(0)` if and only if the piece is empty or a whole record is held.
    /// As soon as the bytes so far show the first refusal of the capture, the call returns that refusal. Once `feed`
    /// has returned a refusal, every `feed` and every `finish` returns the same refusal without looking at further
    /// bytes, and each fed piece counts as read.
    ///
    /// At most 2^62 bytes may be taken in all, including the piece.
    pub fn feed(&mut self, piece: &[u8]) -> Result<usize, Refusal>
        requires { taken self.old + length piece.now ≤ 2 ^ 62 }
        ensures { Feeds meaning (progress self.old) piece.now result (progress self.new) }
    {
        match self.refusal {
            Some(refusal) => Err(refusal),
            None => match self.style {
                Some(style) => self.feed_record(style, piece),
                None => self.feed_first(piece),
            },
        }
    }

    /// Takes bytes up to the end of the file header, and then up to the end of the first record.
    fn feed_first(&mut self, piece: &[u8]) -> Result<usize, Refusal>
        requires { IsBefore None self.old piece.now }
        ensures { Advances (progress self.old) piece.now result (progress self.new) }
    {
        let header = self.feed_header(piece)?;
        match self.style {
            None => Ok(header),
            Some(style) => {
                let record = self.feed_record(style, &piece[header..])?;
                Ok(header + record)
            }
        }
    }

    /// Takes bytes up to the end of the file header.
    fn feed_header(&mut self, piece: &[u8]) -> Result<usize, Refusal>
        requires { IsBefore None self.old piece.now }
        ensures { TakesHeader self.old piece.now result self.new }
    {
        let taken = gather(&mut self.part, FILE_HEADER, piece);
        let header = self.part.as_slice();
        match layout::file_refusal(header) {
            None => {
                self.style = layout::style_at(header);
                self.start = FILE_HEADER as u64;
                self.part.clear();
                Ok(taken)
            }
            Some(refusal) if refusal.short => Ok(taken),
            Some(refusal) => {
                self.refusal = Some(refusal);
                Err(refusal)
            }
        }
    }

    /// Takes bytes up to the end of a record.
    fn feed_record(&mut self, style: Style, piece: &[u8]) -> Result<usize, Refusal>
        requires { IsBefore (Some style) self.old piece.now }
        ensures { Advances (progress self.old) piece.now result (progress self.new) }
    {
        match fill_record(style.order, self.start, &mut self.part, piece) {
            Ok(taken) => Ok(taken),
            Err(refusal) => {
                self.refusal = Some(refusal);
                Err(refusal)
            }
        }
    }

    /// The capture's style, once the whole file header was taken and accepted.
    pub fn style(&self) -> Option<Style>
        ensures kept { result ≡ self.now.style }
        ensures exact { (bytes : List ℕ) (records : List Record) → HasRead self.now bytes records → result ≡ style_of bytes }
    {
        self.style
    }

    /// Whether the bytes taken are a whole record, which is then held.
    fn is_whole(&self) -> bool
        ensures { result ≡ is_some (held self.now) }
    {
        match self.style {
            Some(style) if self.refusal.is_none() => {
                layout::record_refusal(style.order, self.start, self.part.as_slice()).is_none()
            }
            _ => false,
        }
    }

    /// The held record: the most recent record, if it was taken whole and was not released.
    #[tactic(auto, using(crate::proofs::Fields::record_whole))]
    pub fn held(&self) -> Option<RecordView<'_>>
        ensures { Views (held self.now) result }
    {
        if !self.is_whole() {
            return None;
        }
        let style = self.style?;
        Some(layout::view(style, self.part.as_slice()))
    }

    /// Drops the held record, to make room for the next one. Returns whether a record was held.
    pub fn release(&mut self) -> bool
        ensures { LetsGo self.old result self.new }
    {
        if !self.is_whole() {
            return false;
        }
        self.start += self.part.len() as u64;
        self.part.clear();
        true
    }

    /// The size of the next record, if the piece begins with the whole record and no byte of the record was taken yet.
    ///
    /// The result is `None` before the end of the file header. The result is also `None` if some bytes of the record
    /// were taken, a field is refused, or the record continues after the piece. At `None` the piece must be fed.
    pub fn whole_ahead(&self, piece: &[u8]) -> Option<usize>
        ensures { FindsNext (IsNext self.now) piece.now result }
    {
        if self.refusal.is_some() || !self.part.is_empty() {
            return None;
        }
        let style = self.style?;
        layout::whole_size(style.order, piece)
    }

    /// A view of the next record. `bytes` are the start of the piece: the header and the captured bytes of the next
    /// record.
    pub fn lend<'a>(&self, bytes: &'a [u8]) -> RecordView<'a>
        requires { IsNext self.now bytes.now }
        ensures { IsView (held (with_part self.now bytes.now)) result }
    {
        let Some(style) = self.style else {
            unreachable!()
        };
        layout::view(style, bytes)
    }

    /// Skips the next record, as if its bytes had been fed and the record released.
    ///
    /// At most 2^62 bytes may be taken in all, including `bytes`.
    pub fn pass(&mut self, bytes: &[u8])
        requires next { IsNext self.old bytes.now }
        requires bounded { taken self.old + length bytes.now ≤ 2 ^ 62 }
        ensures { Passes self.old bytes.now self.new }
    {
        self.start += bytes.len() as u64;
    }

    /// Whether the bytes so far are a whole capture: a file header and whole records.
    ///
    /// If the capture is not whole and an earlier `feed` returned a refusal, the call returns this refusal. If no
    /// earlier `feed` returned a refusal, the call refuses the first field that lacks a byte, and this refusal has
    /// `short` set. A held record counts as whole. The call changes nothing, and more bytes can be fed afterwards.
    pub fn finish(&self) -> Result<(), Refusal>
        ensures { Finishes self.now result }
    {
        match self.missing() {
            None => Ok(()),
            Some(refusal) => Err(refusal),
        }
    }

    /// The first refusal of the capture, if the capture ends with the bytes so far.
    fn missing(&self) -> Option<Refusal>
        ensures { result ≡ ending self.now }
    {
        if self.refusal.is_some() {
            return self.refusal;
        }
        let part = self.part.as_slice();
        match self.style {
            None => layout::file_refusal(part),
            Some(_) if part.is_empty() => None,
            Some(style) => layout::record_refusal(style.order, self.start, part),
        }
    }
}

/// Moves bytes from the front of the piece to `part`, up to the end of the record, and returns how many bytes it moved.
fn fill_record(order: Order, start: u64, part: &mut Vec<u8>, piece: &[u8]) -> Result<usize, Refusal>
    requires { CanFill order start part.old.items piece.now (vec_capacity part.old) }
    ensures { Fills order start part.old.items piece.now result part.new.items (vec_capacity part.new) }
{
    let header = gather(part, RECORD_HEADER, piece);
    let refusal = layout::record_refusal(order, start, part.as_slice());
    match layout::certain(refusal) {
        Some(refusal) => return Err(refusal),
        None => {}
    }
    if part.len() < RECORD_HEADER {
        return Ok(header);
    }
    let captured = u32_at(order, part.as_slice(), 8);
    let size = RECORD_HEADER + captured as usize;
    let bytes = gather(part, size, &piece[header..]);
    Ok(header + bytes)
}
