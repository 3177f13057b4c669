//! Writes the pending text before a read that may block.

ghost use Rattle.std.specs.Prelude.{IsSome};
ghost use Rattle.capture_io.specs.Source.{slot_of};
ghost use Rattle.run_report.specs.Outcome.{WritesWaiting};
ghost use Rattle.run_report.specs.Reading.{ReadsAhead};

use avtp_base::Failed;
use avtp_files::{Shelf, Sink};
use avtp_text::Text;
use capture_io::{End, Source};

/// Reads the next record. If it is possible that the record has not arrived yet, the pending text is written first.
/// Whoever watches a growing capture thus sees each line as soon as its packet has arrived.
#[inline(always)]
pub fn next_record<F: Shelf, S: Sink>(
    source: &mut Source,
    shelf: &mut F,
    text: &mut Text,
    out: &mut S,
) -> Result<Option<End>, Failed>
    requires { IsSome ((F.state shelf.old).slots (slot_of source.old)) }
    ensures { ReadsAhead (F.state shelf.old) (F.state shelf.new) source.old source.new (S.state out.old) (S.state out.new) text.old text.new result }
{
    if source.advance() {
        return Ok(None);
    }
    write_ahead(source, text, out)?;
    Ok(source.next(shelf))
}

/// If it is possible that the next record has not arrived yet, writes the pending text.
#[inline(always)]
fn write_ahead<S: Sink>(source: &Source, text: &mut Text, out: &mut S) -> Result<(), Failed>
    ensures { WritesWaiting (S.state out.old) (S.state out.new) text.old text.new result }
{
    if source.must_read() {
        text.flush(out)
    } else {
        Ok(())
    }
}
