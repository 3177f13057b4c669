//! Reads captures in either layout, classic pcap or pcapng, in pieces of any length.

ghost use Rattle.std.specs.Prelude.{◌≡◌, ◌+◌, ◌≤◌, ◌^◌, ℕ, List, length, None, IfOk};
ghost use Rattle.std.specs.Result.{result_err};
ghost use Rattle.pcap_frames.specs.Capture.{Record};
ghost use Rattle.pcap_frames.specs.Readers.{FindsNext, IsView, Views};
ghost use Rattle.capture_io.specs.Formats.{format_in};
ghost use Rattle.capture_io.specs.Reader.{HasRead, held, progress_by};
ghost use Rattle.capture_io.specs.state.Reader.{CanPass, EndsHere, Feeds, FeedsFormat, IsNext, Releases, nothing_read, taken, with_record};

use avtp_base::rows::cut_off;
use avtp_base::{Field, NoMemory, Refusal};
use byteorder::{ByteOrder, LittleEndian};
use pcap_frames::{Reader, RecordView};
use pcapng_frames::Ng;
use std::alloc::Global;
use std::marker::Model;

/// The layout of a capture.
#[derive(Clone, Copy, Debug, PartialEq, Eq)]
pub enum Format {
    /// Classic pcap (draft-ietf-opsawg-pcap).
    Classic,
    /// pcapng (draft-ietf-opsawg-pcapng).
    Pcapng,
}

/// The first four bytes of a pcapng capture, which are the same in either byte order.
const SECTION_HEADER: u32 = 0x0A0D_0D0A;

/// The number of bytes that show the layout.
const FRONT: usize = 4;

/// Reads a capture in either layout, with the same calls as [`Reader`]. The first four bytes show the layout, and are
/// held back until all four have arrived.
pub struct CaptureReader {
    format: Option<Format>,
    /// The bytes that arrived before the layout was known.
    front: Vec<u8>,
    classic: Reader,
    ng: Ng,
}

// One call for the proofs of all owners, instead of the drops of the parts at each of their ends.
impl Drop for CaptureReader {
    fn drop(self) {
        let CaptureReader {
            format: _,
            front: _,
            classic: _,
            ng: _,
        } = self;
    }
}

impl Model for CaptureReader {
    ghost use Rattle.std.specs.Prelude.{◌≤◌, vec_capacity};
    ghost use Rattle.capture_io.specs.Reader.{CaptureReading};
    ghost use Rattle.capture_io.specs.state.Reader.{IsFront};

    ghost Value = { CaptureReading };

    ghost view = { λ r. record { format = r.format; front = r.front.items; classic = r.classic; ng = r.ng } };

    ghost invariant = { λ r. (4 ≤ vec_capacity r.front) × IsFront r.format r.front.items r.classic r.ng };
}

impl CaptureReader {
    /// A reader that has taken nothing. The call allocates the memory of one reader for each layout. Later calls
    /// allocate nothing.
    pub fn new(alloc: Global) -> Result<Self, NoMemory>
        ensures { IfOk result (λ reader. reader ≡ nothing_read) }
    {
        let Ok(front) = Vec::with_capacity(alloc, FRONT) else {
            return Err(NoMemory);
        };
        let classic = Reader::new(alloc)?;
        let ng = Ng::new(alloc)?;
        Ok(CaptureReader {
            format: None,
            front,
            classic,
            ng,
        })
    }

    /// Takes bytes from the front of the piece, at most up to the end of one record, and returns how many it took. As
    /// soon as the bytes so far show the capture's first refusal, the call returns that refusal instead.
    ///
    /// The first bytes are held back until there are four; these four bytes are then fed to the reader of their layout.
    pub fn feed(&mut self, piece: &[u8]) -> Result<usize, Refusal>
        requires { taken self.old + length piece.now ≤ 2 ^ 62 }
        ensures { Feeds self.old piece.now result self.new }
    {
        match self.format {
            Some(format) => return feed_format(format, &mut self.classic, &mut self.ng, piece),
            None => {}
        }
        let taken = piece.len().min(FRONT - self.front.len());
        let Ok(()) = self.front.extend_from_slice(&piece[..taken]) else {
            unreachable!()
        };
        if self.front.len() < FRONT {
            return Ok(taken);
        }
        let format = format_of(self.front.as_slice());
        self.format = Some(format);
        let _ = feed_format(
            format,
            &mut self.classic,
            &mut self.ng,
            self.front.as_slice(),
        )?;
        Ok(taken)
    }

    /// The held record: the most recent record, if it was taken whole and was not released.
    pub fn held(&self) -> Option<RecordView<'_>>
        ensures { Views (held self.now) result }
    {
        match self.classic.held() {
            Some(record) => Some(record),
            None => self.ng.held(),
        }
    }

    /// Drops the held record, to make room for the next one.
    pub fn release(&mut self)
        ensures { Releases self.old self.new }
    {
        let _ = self.classic.release();
        let _ = self.ng.release();
    }

    /// The size of the next record, if the piece begins with the whole record and no byte of the record was taken yet.
    ///
    /// If the result is `None`, no whole record can be taken from the piece, and the piece must be fed.
    #[inline(always)]
    pub fn whole_ahead(&self, piece: &[u8]) -> Option<usize>
        ensures { FindsNext (IsNext self.now) piece.now result }
    {
        match self.format {
            None => None,
            Some(format) => match format {
                Format::Classic => self.classic.whole_ahead(piece),
                Format::Pcapng => self.ng.whole_ahead(piece),
            },
        }
    }

    /// Whether the piece is assumed to contain the whole next record. In a pcapng capture, the whole next record is
    /// assumed to be in the piece as soon as the piece has one byte, because programs write whole blocks.
    pub fn is_ahead(&self, piece: &[u8]) -> bool {
        match self.format {
            None => false,
            Some(Format::Classic) => self.classic.whole_ahead(piece).is_some(),
            Some(Format::Pcapng) => !piece.is_empty(),
        }
    }

    /// A view of the next record. `bytes` are the start of the piece: the record with its header, or the packet's whole
    /// block.
    #[inline(always)]
    pub fn lend<'a>(&self, bytes: &'a [u8]) -> RecordView<'a>
        requires { IsNext self.now bytes.now }
        ensures { IsView (held (with_record self.now bytes.now)) result }
    {
        match self.format {
            None => unreachable!(),
            Some(format) => match format {
                Format::Classic => self.classic.lend(bytes),
                Format::Pcapng => self.ng.lend(bytes),
            },
        }
    }

    /// Skips the next record, as if its bytes had been fed and the record released.
    #[inline(always)]
    pub fn pass(&mut self, bytes: &[u8])
        requires { CanPass self.old bytes.now }
        ensures { Releases (with_record self.old bytes.now) self.new }
    {
        match self.format {
            None => unreachable!(),
            Some(format) => match format {
                Format::Classic => self.classic.pass(bytes),
                Format::Pcapng => self.ng.pass(bytes),
            },
        }
    }

    /// Whether the bytes so far are a whole capture; if not, returns their first refusal. The call changes nothing, and
    /// more bytes can be fed afterwards. With fewer than four bytes, the refusal is at the magic number of a classic
    /// capture.
    pub fn finish(&self) -> Result<(), Refusal>
        ensures { (bytes : List ℕ) (records : List Record) → HasRead self.now bytes records → EndsHere self.now bytes records (result_err result) }
    {
        match self.format {
            None => Err(cut_off(Field::Magic, 0)),
            Some(format) => match format {
                Format::Classic => self.classic.finish(),
                Format::Pcapng => self.ng.finish(),
            },
        }
    }
}

/// Feeds the reader of this layout.
fn feed_format(
    format: Format,
    classic: &mut Reader,
    ng: &mut Ng,
    piece: &[u8],
) -> Result<usize, Refusal>
    requires { (progress_by format classic.old ng.old).taken + length piece.now ≤ 2 ^ 62 }
    ensures { FeedsFormat format classic.old classic.new ng.old ng.new piece.now result }
{
    match format {
        Format::Classic => classic.feed(piece),
        Format::Pcapng => ng.feed(piece),
    }
}

/// The layout of a capture with these first four bytes.
#[tactic(auto, unfolding(crate::specs::Formats::is_pcapng, pcap_frames::specs::Layout::number_at))]
fn format_of(front: &[u8]) -> Format
    requires { 4 ≤ length front.now }
    ensures { result ≡ format_in front.now }
{
    if LittleEndian::read_u32(front) == SECTION_HEADER {
        Format::Pcapng
    } else {
        Format::Classic
    }
}
