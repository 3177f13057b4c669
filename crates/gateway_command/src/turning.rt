//! A capture that is converted: what a listener presents from the capture is written as packets of the other format.

ghost use Rattle.std.specs.Prelude.{◌≡◌, ◌≤◌, ◌<◌, ◌^◌, length};
ghost use Rattle.avtp_files.specs.ShelfCalls.{IsMadeIn};
ghost use Rattle.avtp_text.specs.Written.{Prints};
ghost use Rattle.am824_gateway.specs.Gateways.{IsPieceTurn};
ghost use Rattle.am824_gateway.specs.Pieces.{nothing_given};
ghost use Rattle.gateway_command.specs.Gateway.{skip_name as skip_name_of, skipped_line};
ghost use Rattle.capture_hearing.specs.Hearing.{IsAtReading};
ghost use Rattle.run_report.specs.Made.{WritesFrames};
ghost use Rattle.run_report.specs.Outcome.{WritesWaiting};
ghost use Rattle.gateway_command.specs.state.Turning.{AreOpenIn, PutsBatch, Turns, given_back, piece_bytes, turned_as};

use am824_gateway::{Gateway, Skip};
use avtp_base::{Failed, Spelled};
use avtp_files::{Shelf, Sink};
use avtp_text::Text;
use capture_hearing::{Heard, Hearing};
use capture_io::{CaptureWriter, End};
use presenter_ring::Pull;
use sample_schedule::{Batch, Shown};
use talker::Turn;

/// The result of converting a capture.
#[derive(Clone, Copy, Debug, PartialEq, Eq)]
pub enum Turned {
    /// The capture was converted as far as it could be read. `end` says how the reading ended; `presented` is the
    /// number of presented batches.
    Ended { end: End, presented: u64 },
    /// The conversion stopped at a record for which there was no memory.
    NoMemory,
    /// The conversion stopped at a packet that could not be written.
    Unwritten,
}

/// What was done with a batch.
#[derive(Clone, Copy, Debug, PartialEq, Eq)]
pub enum Put {
    /// The batch's packets were written, or the batch was skipped.
    Done,
    /// A packet could not be written.
    Unwritten,
}

/// The frame of a packet. The packet carries a piece of the most recent batch that was not skipped.
#[derive(Drop)]
pub struct PieceFrame<'a> {
    pub gateway: &'a Gateway,
    pub index: u32,
    pub turn: Turn,
    ghost piece: { IsPieceTurn gateway.now index turn },
}

impl Spelled for PieceFrame<'_> {
    ghost spelling = { λ p. piece_bytes p.gateway.now p.index };

    #[inline(always)]
    fn size(&self) -> usize {
        self.turn.size
    }

    #[inline(always)]
    fn write(&self, out: &mut [u8]) {
        self.gateway.write(self.index, self.turn, out);
    }
}

/// The capture that is made: a gateway cuts batches into packets, and a writer adds the packets to the file.
#[derive(Drop)]
pub struct Output {
    pub gateway: Gateway,
    pub writer: CaptureWriter,
}

impl Output {
    /// Writes the packets of a batch, or prints why the batch is skipped.
    fn put<F: Shelf, S: Sink>(
        &mut self,
        batch: Batch,
        shelf: &mut F,
        text: &mut Text,
        out: &mut S,
    ) -> Result<Put, Failed>
        requires made { IsMadeIn (F.state shelf.old).slots self.old.writer.slot }
        requires few { self.old.gateway.given.batches < 2 ^ 44 }
        ensures { PutsBatch batch (F.state shelf.old) (F.state shelf.new) self.old self.new (S.state out.old) (S.state out.new) text.old text.new result }
    {
        let frame = batch.frame;
        match self.gateway.put(batch) {
            Ok(number) => match write_frames(&self.gateway, number, &mut self.writer, shelf) {
                Ok(()) => Ok(Put::Done),
                Err(Failed) => Ok(Put::Unwritten),
            },
            Err(skip) => {
                print_skip(text, out, frame, skip)?;
                Ok(Put::Done)
            }
        }
    }
}

/// Adds to the capture the first `number` frames of the most recent batch that was not skipped.
fn write_frames<F: Shelf>(
    gateway: &Gateway,
    number: u32,
    writer: &mut CaptureWriter,
    shelf: &mut F,
) -> Result<(), Failed>
    requires number { number ≤ length gateway.now.frames }
    requires made { IsMadeIn (F.state shelf.old).slots writer.old.slot }
    ensures { WritesFrames gateway.now.frames number (F.state shelf.old) (F.state shelf.new) writer.old writer.new result }
{
    for index in 0..number {
        let turn = gateway.turn(index);
        let frame = PieceFrame {
            gateway,
            index,
            turn,
        };
        writer.add(shelf, turn.arrival, &frame)?;
    }
    Ok(())
}

/// The printed name of a reason to skip a batch.
fn skip_name(skip: Skip) -> &'static str
    ensures { result.now ≡ skip_name_of skip }
{
    match skip {
        Skip::ShapeOff => "shape",
        Skip::Overlap => "overlap",
        Skip::Range => "range",
    }
}

/// Prints why a batch is skipped.
fn print_skip<S: Sink>(text: &mut Text, out: &mut S, frame: u64, skip: Skip) -> Result<(), Failed>
    ensures { Prints (S.state out.old) (S.state out.new) text.old text.new result (skipped_line (record { frame = frame; why = skip })) }
{
    text.skip(out, frame, skip_name(skip))
}

/// If it is possible that the next record has not arrived yet, writes the pending text.
fn write_ahead<S: Sink>(hearing: &Hearing, text: &mut Text, out: &mut S) -> Result<(), Failed>
    ensures { WritesWaiting (S.state out.old) (S.state out.new) text.old text.new result }
{
    if hearing.may_wait() {
        text.flush(out)
    } else {
        Ok(())
    }
}

/// Returns the samples of the most recent batch to the listener, which reuses their memory.
fn give_back(hearing: &mut Hearing, output: &mut Output)
    ensures source { hearing.new.source ≡ hearing.old.source }
    ensures listener { hearing.new.listener ≡ hearing.old.listener }
    ensures stage { hearing.new.stage ≡ hearing.old.stage }
    ensures output { output.new ≡ given_back output.old }
{
    if let Some(samples) = output.gateway.give_back() {
        hearing.listener.give_back(samples);
    }
}

/// Converts each batch that a listener presents from a capture, as far as the capture can be read, and writes the
/// batch's packets.
pub fn turn_records<F: Shelf, S: Sink>(
    hearing: &mut Hearing,
    output: &mut Output,
    shelf: &mut F,
    text: &mut Text,
    out: &mut S,
) -> Result<Turned, Failed>
    requires open { AreOpenIn (F.state shelf.old).slots hearing.old.source output.old }
    requires reading { IsAtReading (F.state shelf.old).slots hearing.old.source hearing.old.stage }
    requires none { output.old.gateway.given ≡ nothing_given }
    ensures { Turns (F.state shelf.old) (F.state shelf.new) hearing.old.source hearing.new.source hearing.old.listener output.old output.new (S.state out.old) (S.state out.new) text.old text.new result }
{
    loop {
        write_ahead(hearing, text, out)?;
        match hearing.next(shelf) {
            Pull::Item(shown) => match shown {
                Shown::Present(batch) => {
                    if let Put::Unwritten = output.put(batch, shelf, text, out)? {
                        return Ok(Turned::Unwritten);
                    }
                    give_back(hearing, output);
                }
                Shown::Flag { .. } => {}
            },
            _ => return Ok(turned_by(hearing.heard())),
        }
    }
}

/// The result of a conversion, given the result of the hearing.
fn turned_by(heard: Heard) -> Turned
    ensures { result ≡ turned_as heard }
{
    match heard {
        Heard::Ended { end, counts } => Turned::Ended {
            end,
            presented: counts.presented,
        },
        Heard::NoMemory => Turned::NoMemory,
    }
}
