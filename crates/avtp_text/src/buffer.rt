//! The one buffer through which all text goes.

ghost use Rattle.std.specs.Prelude.{◌≡◌, ◌≤◌, [], length, IfOk};
ghost use Rattle.avtp_text.specs.state.Moves.{MakesRoom, MovesAll, TakesFront};
ghost use Rattle.avtp_text.specs.Written.{Flushes, Prints};

use crate::aaf_line::AafLine;
use crate::sample_line::SampleLine;
use avtp_base::{Buffer, Failed, NoMemory};
use avtp_files::Sink;
use std::alloc::Global;
use std::marker::Model;

/// The maximum number of bytes in a [`Text`]. If a piece of text is printed as a whole, the piece has at most this many
/// bytes.
pub const ROOM: usize = Buffer::ROOM;

/// Text that is buffered until it is written to a sink. Contracts see a `Text` as the list of its bytes, which has at
/// most 65,536 bytes. Memory for this many bytes is reserved once.
///
/// Each call that can write to the sink takes the sink as an argument. All text that was written so far has two parts:
/// first what the sink holds, then what is buffered. If a call prints a text of bounded length, the call appends all of
/// the text, or nothing if the sink fails. After a failure of the sink, the call can be repeated, and no text is lost
/// or written twice. A call that prints a text of any length appends all of it, or a prefix if the sink fails.
#[derive(Drop)]
pub struct Text {
    pub(crate) buffer: Buffer,
    pub(crate) aaf: AafLine,
    pub(crate) sample: SampleLine,
}

impl Model for Text {
    ghost use Rattle.std.specs.Prelude.{List, ℕ};

    ghost Value = { List ℕ };

    ghost view = { λ text. text.buffer };
}

/// Writes bytes to the sink until the sink has taken all of them or fails. Returns how many bytes the sink took.
#[tactic(auto, using(crate::proofs::Moved::taken_none, crate::proofs::Moved::taken_more))]
fn write_out<S: Sink>(out: &mut S, bytes: &[u8]) -> usize
    ensures { TakesFront (S.state out.old) (S.state out.new) bytes.now result }
{
    let mut taken = 0;
    while taken < bytes.len() {
        match out.write(&bytes[taken..]) {
            Ok(count) => taken += count,
            Err(_) => return taken,
        }
    }
    taken
}

/// Writes all buffered text to the sink. If the sink fails, the text that it has not taken stays buffered.
#[tactic(auto, using(crate::proofs::Moved::written_moved, crate::proofs::Growth::grows_by))]
#[inline(never)]
fn flush<S: Sink>(buffer: &mut Buffer, out: &mut S) -> Result<(), Failed>
    ensures { MovesAll (S.state out.old) (S.state out.new) buffer.old buffer.new result }
{
    let waiting = buffer.waiting().len();
    let taken = write_out(out, buffer.waiting());
    buffer.drop_front(taken);
    if taken < waiting {
        return Err(Failed);
    }
    Ok(())
}

/// Makes room in the buffer for `len` bytes.
#[tactic(auto, using(crate::proofs::Growth::grows_none))]
#[inline(always)]
pub(crate) fn make_room<S: Sink>(buffer: &mut Buffer, out: &mut S, len: usize) -> Result<(), Failed>
    requires { len ≤ ROOM }
    ensures { MakesRoom (S.state out.old) (S.state out.new) buffer.old buffer.new result len }
{
    if buffer.room() < len {
        return flush(buffer, out);
    }
    Ok(())
}

impl Text {
    /// An empty text. All the memory that the text will ever need is reserved here.
    pub fn new(alloc: Global) -> Result<Self, NoMemory>
        ensures { IfOk result (λ text. text ≡ []) }
    {
        let buffer = Buffer::new(alloc)?;
        Ok(Text {
            buffer,
            aaf: AafLine::new(),
            sample: SampleLine::new(),
        })
    }

    /// Writes all buffered text to the sink. If the sink fails, the text that it has not taken stays buffered.
    pub fn flush<S: Sink>(&mut self, out: &mut S) -> Result<(), Failed>
        ensures { Flushes (S.state out.old) (S.state out.new) self.old self.new result }
    {
        flush(&mut self.buffer, out)
    }

    /// Appends a piece of text of at most [`ROOM`] bytes: all of it, or nothing if the sink fails.
    #[inline(always)]
    pub fn print<S: Sink>(&mut self, out: &mut S, piece: &[u8]) -> Result<(), Failed>
        requires { length piece.now ≤ ROOM }
        ensures { Prints (S.state out.old) (S.state out.new) self.old self.new result piece.now }
    {
        make_room(&mut self.buffer, out, piece.len())?;
        self.buffer.push(piece);
        Ok(())
    }
}
