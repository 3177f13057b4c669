//! The line of an AAF packet. The line's end is reused for the next packet.

ghost use Rattle.std.specs.Prelude.{◌≡◌, ◌+◌, ◌-◌, ◌≤◌, ◌++◌, length, drop};
ghost use Rattle.aaf_format.specs.Aaf.{aaf_shape};
ghost use Rattle.avtp_text.specs.state.AafLines.{IsEndAlone, IsEnd, IsShortEnd};
ghost use Rattle.avtp_text.specs.Pieces.{id_text, newline};
ghost use Rattle.avtp_text.specs.state.Lines.{IsTextOf};
ghost use Rattle.avtp_text.specs.Show.{aaf_content, frame_line};

use crate::line::{LONGEST, Line};
use crate::pairs::write_hex;
use crate::show::{format_name, prepend_frame};
use aaf_format::{AafFormat, AafView, rate_of};

/// The maximum number of bytes in the end of a line.
const LONGEST_END: usize = 138;

/// The fields that the line of an AAF packet shows after the timestamp. The fields after the timestamp seldom change
/// from packet to packet.
#[derive(Clone, Copy, PartialEq, Eq)]
struct AafEnd {
    tv: bool,
    tu: bool,
    mr: bool,
    sparse: bool,
    evt: u8,
    format: AafFormat,
    nsr: u8,
    channels: u16,
    depth: u8,
    count: u32,
    data_length: u16,
}

/// Puts the end of a line before the newline.
#[tactic(auto, using(crate::proofs::Names::format_fits))]
fn prepend_end(line: &mut Line, end: &AafEnd)
    requires { line.old ≡ newline }
    ensures { IsShortEnd end.now line.new }
{
    line.prepend_u32(" bytes ", end.data_length as u32);
    line.prepend_u32(" count ", end.count);
    line.prepend_u32(" depth ", end.depth as u32);
    line.prepend_u32(" channels ", end.channels as u32);
    line.prepend_u32(" rate ", rate_of(end.nsr).unwrap_or(0));
    line.prepend(format_name(end.format));
    line.prepend(" format ");
    line.prepend_u32(" evt ", end.evt as u32);
    line.prepend_flag(" sp ", end.sparse);
    line.prepend_flag(" mr ", end.mr);
    line.prepend_flag(" tu ", end.tu);
    line.prepend_flag(" tv ", end.tv);
}

/// A stream ID and its hexadecimal digits.
#[derive(Drop)]
struct IdText {
    id: u64,
    digits: [u8; 16],
    ghost named: { digits ≡ id_text id },
}

impl IdText {
    #[tactic(auto, unfolding(crate::specs::Pieces::id_text))]
    fn new(id: u64) -> Self
        ensures { result.id ≡ id }
    {
        let mut digits = [0; 16];
        write_hex(&id.to_be_bytes(), &mut digits);
        IdText { id, digits }
    }

    /// Changes the ID and the digits to those of the stream ID `id`.
    #[inline(always)]
    fn set(&mut self, id: u64)
        ensures { self.new.id ≡ id }
    {
        if self.id != id {
            *self = IdText::new(id);
        }
    }
}

/// The line of an AAF packet. The end of the line is kept for the next packet. If the next packet's line has the same
/// end, only the part before the end is written. If the next packet has the same stream ID, the digits of the ID are
/// copied.
#[derive(Drop)]
pub struct AafLine {
    line: Line,
    end: AafEnd,
    /// The number of bytes in the line's end.
    len: usize,
    id: IdText,
    ghost short: { len ≤ 138 },
    ghost within: { len ≤ length line },
    ghost kept: { IsEnd end (drop (length line - len) line) },
}

impl AafLine {
    /// A line that so far consists only of its end.
    pub fn new() -> Self {
        let end = AafEnd {
            tv: false,
            tu: false,
            mr: false,
            sparse: false,
            evt: 0,
            format: AafFormat::Int16,
            nsr: 0,
            channels: 0,
            depth: 0,
            count: 0,
            data_length: 0,
        };
        let mut line = Line::new();
        prepend_end(&mut line, &end);
        let len = line.len();
        AafLine {
            line,
            end,
            len,
            id: IdText::new(0),
        }
    }

    /// The line's bytes.
    #[inline(always)]
    pub fn as_slice(&self) -> &[u8]
        ensures { IsTextOf self.now.line result.now }
    {
        self.line.as_slice()
    }

    /// Keeps only the end of the line. If the end is not the text of `end`, writes the end anew.
    #[inline(always)]
    fn leave_end(&mut self, end: AafEnd)
        ensures { IsEndAlone self.new.line self.new.len self.new.end end }
    {
        if self.end == end {
            self.line.keep_last(self.len);
        } else {
            self.write_end(end);
        }
    }

    // Out of line, because the end of most packets is that of the packet before.
    #[cold]
    #[inline(never)]
    fn write_end(&mut self, end: AafEnd)
        ensures { IsEndAlone self.new.line self.new.len self.new.end end }
    {
        self.line = Line::new();
        prepend_end(&mut self.line, &end);
        self.len = self.line.len();
        self.end = end;
    }

    /// Replaces the line with the line of the packet `view`.
    #[inline(always)]
    pub fn write(&mut self, number: u64, arrival: i64, view: &AafView<'_>)
        ensures { self.new.line ≡ frame_line number arrival (aaf_content (aaf_shape view.now)) }
    {
        self.leave_end(AafEnd {
            tv: view.header.tv,
            tu: view.header.tu,
            mr: view.header.mr,
            sparse: view.sparse,
            evt: view.evt,
            format: view.format,
            nsr: view.nsr,
            channels: view.channels,
            depth: view.depth,
            count: view.count,
            data_length: view.header.data_length,
        });
        self.id.set(view.header.stream_id);
        self.line.prepend_u32(" ts ", view.header.timestamp);
        self.line.prepend_u32(" seq ", view.header.seq as u32);
        self.line.prepend_bytes(&self.id.digits);
        self.line.prepend("id ");
        self.line.prepend("aaf ");
        prepend_frame(&mut self.line, number, arrival);
    }
}
