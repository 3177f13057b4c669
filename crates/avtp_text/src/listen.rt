//! The lines of `listen`: one for each sample that is presented and for each item that is not.

ghost use Rattle.std.specs.Prelude.{◌≡◌, ◌+◌, ◌*◌, ◌/◌, ◌<◌, ◌≤◌, ◌++◌, length};
ghost use Rattle.hex.specs.Hex.{encode_lower};
ghost use Rattle.avtp_text.specs.Listen.{batch_lines, capture_line, end_listen_line, flag_line, list_lines, reason_text, sample_line, due_text, place_text, shown_lines};
ghost use Rattle.time_unfold.specs.Time.{IsInstant};
ghost use Rattle.sample_schedule.specs.Instants.{IsInstantOf};
ghost use Rattle.avtp_text.specs.Pieces.{newline};
ghost use Rattle.avtp_text.specs.state.SampleLines.{HaveShortSize, IsSampleOf, IsShortSample, PrintsSample};
ghost use Rattle.avtp_text.specs.state.Lines.{Prepends};
ghost use Rattle.avtp_text.specs.Written.{Prints, PrintsPart};

use crate::buffer::{ROOM, Text, make_room};
use crate::line::{LONGEST, Line};
use crate::sample_line::{SHORT, SampleLine};
use avtp_base::{Buffer, Failed};
use avtp_files::Sink;
use listener::Counts;
use sample_schedule::{Batch, Instant, Reason, Shown};

/// If a sample is too long for a [`Line`], the bytes of the sample are printed in pieces of this many bytes.
const PIECE: usize = 2_048;

/// The start of a sample's line: all of the line before the sample's bytes.
#[tactic(auto, unfolding(crate::specs::Listen::due_text, crate::specs::Listen::place_text))]
fn sample_start(instant: i64, frame: u64, seq: u8, j: u32) -> Line
    ensures { result ≡ due_text instant frame ++ place_text seq j }
{
    let mut line = Line::blank();
    line.prepend(" ");
    line.prepend_u32(" sample ", j);
    line.prepend_u32(" seq ", seq as u32);
    line.prepend_u64(" frame ", frame);
    line.prepend_i64("at ", instant);
    line
}

/// Prepends the reason for a flag to the line.
#[tactic(auto, using(crate::proofs::Names::name_fits))]
fn prepend_reason(line: &mut Line, reason: Reason)
    requires { 40 + length line.old ≤ LONGEST }
    ensures { Prepends line.old line.new (reason_text reason) 40 }
{
    match reason {
        Reason::Malformed(field) => {
            line.prepend(field.name());
            line.prepend("malformed ");
        }
        Reason::Uncertain => line.prepend("uncertain"),
        Reason::Empty => line.prepend("empty"),
        Reason::NoRate => line.prepend("norate"),
        Reason::Untimed => line.prepend("untimed"),
        Reason::NoClock => line.prepend("noclock"),
        Reason::Late => line.prepend("late"),
        Reason::Repeat => line.prepend("repeat"),
        Reason::Full => line.prepend("full"),
        Reason::Broken => line.prepend("broken"),
        Reason::Long => line.prepend("long"),
    }
}

/// Appends the line of a sample to a buffer.
#[inline(always)]
fn print_sample<S: Sink>(
    buffer: &mut Buffer,
    line: &mut SampleLine,
    out: &mut S,
    instant: i64,
    j: u32,
    bytes: &[u8],
) -> Result<(), Failed>
    requires { IsShortSample line.old bytes.now }
    ensures { PrintsSample (S.state out.old) (S.state out.new) buffer.old buffer.new result line.old line.new instant j bytes.now }
{
    make_room(buffer, out, LONGEST)?;
    line.add_to(buffer, instant, j, bytes);
    Ok(())
}

/// Appends the lines of a batch to a buffer. Each sample is short enough that its line fits a [`Line`].
fn short_samples<S: Sink>(
    buffer: &mut Buffer,
    line: &mut SampleLine,
    out: &mut S,
    batch: &Batch,
    size: usize,
) -> Result<(), Failed>
    requires { HaveShortSize batch.now size }
    ensures { PrintsPart (S.state out.old) (S.state out.new) buffer.old buffer.new result (batch_lines batch.now) }
{
    let bytes = batch.bytes.as_slice();
    line.turn_to(batch.frame, batch.seq, size);
    let mut instant = Instant::first(batch);
    for j in 0..batch.count {
        let start = j as usize * size;
        print_sample(
            buffer,
            line,
            out,
            instant.nanoseconds,
            j,
            &bytes[start..start + size],
        )?;
        instant.next(batch);
    }
    Ok(())
}

impl Text {
    /// Prints a text of any length. If the sink fails, a prefix of the text was printed.
    #[tactic(auto, using(crate::proofs::Printing::part_of))]
    fn print_all<S: Sink>(&mut self, out: &mut S, text: &[u8]) -> Result<(), Failed>
        ensures { PrintsPart (S.state out.old) (S.state out.new) self.old self.new result text.now }
    {
        if text.len() <= ROOM {
            return self.print(out, text);
        }
        let (piece, rest) = text.split_at(ROOM);
        self.print(out, piece)?;
        self.print_all(out, rest)
    }

    /// Prints the lower-case hexadecimal digits of `bytes`.
    fn print_hex<S: Sink>(&mut self, out: &mut S, bytes: &[u8]) -> Result<(), Failed>
        ensures { PrintsPart (S.state out.old) (S.state out.new) self.old self.new result (encode_lower bytes.now) }
    {
        if bytes.len() <= PIECE {
            return self.print_hex_piece(out, bytes);
        }
        let (piece, rest) = bytes.split_at(PIECE);
        self.print_hex_piece(out, piece)?;
        self.print_hex(out, rest)
    }

    fn print_hex_piece<S: Sink>(&mut self, out: &mut S, bytes: &[u8]) -> Result<(), Failed>
        requires { length bytes.now ≤ PIECE }
        ensures { Prints (S.state out.old) (S.state out.new) self.old self.new result (encode_lower bytes.now) }
    {
        let mut digits = [0; 2 * PIECE];
        let digits = &mut digits[..2 * bytes.len()];
        let Ok(()) = hex::encode_to_slice(bytes, digits) else {
            unreachable!()
        };
        self.print(out, digits)
    }

    /// Prints the name of the capture that was opened.
    #[tactic(auto, unfolding(crate::specs::Listen::capture_line))]
    pub fn capture<S: Sink>(&mut self, out: &mut S, name: &str) -> Result<(), Failed>
        ensures { PrintsPart (S.state out.old) (S.state out.new) self.old self.new result (capture_line name.now) }
    {
        self.print(out, b"capture ")?;
        self.print_all(out, name.as_bytes())?;
        self.print(out, b"\n")
    }

    /// Prints that an item is not presented, and why.
    #[tactic(auto, unfolding(crate::specs::Listen::flag_line))]
    pub fn flag<S: Sink>(
        &mut self,
        out: &mut S,
        frame: u64,
        seq: u8,
        reason: Reason,
    ) -> Result<(), Failed>
        ensures { Prints (S.state out.old) (S.state out.new) self.old self.new result (flag_line frame seq reason) }
    {
        let mut line = Line::new();
        prepend_reason(&mut line, reason);
        line.prepend(" ");
        line.prepend_u32(" seq ", seq as u32);
        line.prepend_u64("flag frame ", frame);
        self.print(out, line.as_slice())
    }

    /// Prints sample `j` of a batch. `bytes` are the sample's bytes.
    fn sample<S: Sink>(
        &mut self,
        out: &mut S,
        batch: &Batch,
        j: u32,
        bytes: &[u8],
    ) -> Result<(), Failed>
        requires { IsSampleOf batch.now j bytes.now }
        ensures { PrintsPart (S.state out.old) (S.state out.new) self.old self.new result (sample_line batch.now j) }
    {
        self.long_sample(out, batch.instant(j), batch.frame, batch.seq, j, bytes)
    }

    /// Prints a sample of any length.
    fn long_sample<S: Sink>(
        &mut self,
        out: &mut S,
        instant: i64,
        frame: u64,
        seq: u8,
        j: u32,
        bytes: &[u8],
    ) -> Result<(), Failed>
        ensures { PrintsPart (S.state out.old) (S.state out.new) self.old self.new result (due_text instant frame ++ place_text seq j ++ encode_lower bytes.now ++ newline) }
    {
        self.print(out, sample_start(instant, frame, seq, j).as_slice())?;
        self.print_hex(out, bytes)?;
        self.print(out, b"\n")
    }

    /// Prints the samples of a batch. The samples can have any length.
    fn long_samples<S: Sink>(
        &mut self,
        out: &mut S,
        batch: &Batch,
        size: usize,
    ) -> Result<(), Failed>
        requires { size ≡ length batch.now.bytes / batch.now.count }
        ensures { PrintsPart (S.state out.old) (S.state out.new) self.old self.new result (batch_lines batch.now) }
    {
        let bytes = batch.bytes.as_slice();
        for j in 0..batch.count {
            let start = j as usize * size;
            self.sample(out, batch, j, &bytes[start..start + size])?;
        }
        Ok(())
    }

    /// Prints an item that a schedule shows: the samples of a batch, or the reason for a flag.
    pub fn shown<S: Sink>(&mut self, out: &mut S, shown: &Shown) -> Result<(), Failed>
        ensures { PrintsPart (S.state out.old) (S.state out.new) self.old self.new result (shown_lines shown.now) }
    {
        match shown {
            Shown::Present(batch) => {
                let size = batch.bytes.as_slice().len() / batch.count as usize;
                if size <= SHORT {
                    short_samples(&mut self.buffer, &mut self.sample, out, batch, size)
                } else {
                    self.long_samples(out, batch, size)
                }
            }
            Shown::Flag { frame, seq, reason } => self.flag(out, *frame, *seq, *reason),
        }
    }

    /// Prints all items that a schedule shows, in order.
    pub fn shown_list<S: Sink>(&mut self, out: &mut S, list: &[Shown]) -> Result<(), Failed>
        ensures { PrintsPart (S.state out.old) (S.state out.new) self.old self.new result (list_lines list.now) }
    {
        for shown in list {
            self.shown(out, shown)?;
        }
        Ok(())
    }

    /// Prints that a capture ended, with four counts: its records, the stream's packets, presented items, and flagged
    /// items.
    #[tactic(auto, unfolding(crate::specs::Listen::end_listen_line))]
    pub fn end_listen<S: Sink>(&mut self, out: &mut S, counts: &Counts) -> Result<(), Failed>
        ensures { Prints (S.state out.old) (S.state out.new) self.old self.new result (end_listen_line counts.now) }
    {
        let mut line = Line::new();
        line.prepend_u64(" flagged ", counts.flagged);
        line.prepend_u64(" presented ", counts.presented);
        line.prepend_u64(" packets ", counts.packets);
        line.prepend_u64("end frames ", counts.frames);
        self.print(out, line.as_slice())
    }
}
