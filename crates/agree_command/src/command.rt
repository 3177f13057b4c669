//! The command `agree`: compares what a listener presents of one stream in two captures.

ghost use Rattle.std.specs.Prelude.{◌≡◌, [], ◌∷◌, ◌++◌};
ghost use Rattle.avtp_text.specs.Written.{Prints, PrintsPart};
ghost use Rattle.avtp_words.specs.Grammar.{agreeing_of};
ghost use Rattle.agree_command.specs.Agree.{agree_status, counts_line, difference_line, last_lines};
ghost use Rattle.run_report.specs.Endings.{side_line};
ghost use Rattle.agree_command.specs.Agree.{AgreeYields, IsAgreeing};
ghost use Rattle.agree_command.specs.state.Agree.{EndsWithLines};
ghost use Rattle.run_report.specs.Reading.{DoesReading};
ghost use Rattle.run_report.specs.Yield.{HandsNothing};

use crate::comparing::{Compared, Comparing, Ended};
use avtp_base::Failed;
use avtp_files::{Shelf, Sink};
use avtp_text::{PacketPair, Text};
use avtp_words::Agree;
use capture_io::End;
use listener_pair::{Difference, PairCounts, Way};
use run_report::{Context, Status, print_fault, print_side, print_unopened};
use std::alloc::Global;

/// Compares the samples that a listener presents of one stream in two captures, and prints each difference. Then prints
/// how many packets are presented from both captures and how many from only one. If a capture was not read to its end,
/// prints the reason instead. Each capture is read only as far as the comparison needs. All memory except that of
/// samples is allocated before the first line is printed.
pub fn agree<F: Shelf, S: Sink>(
    alloc: Global,
    asked: &Agree<'_>,
    context: Context<'_, '_, '_, F, S>,
) -> Result<Status, Failed>
    requires { IsAgreeing (agreeing_of asked.now) }
    ensures { DoesReading (AgreeYields (agreeing_of asked.now)) (asked.now.a.now ∷ asked.now.b.now ∷ []) HandsNothing (F.state context.entry.shelf.now) (F.state context.exit.0.now) (S.state context.entry.out.now) (S.state context.exit.1.1.0.now) context.entry.text.now context.exit.1.0.now result }
{
    let Context { shelf, text, out } = context;
    let mut comparing = match Comparing::open(alloc, asked, shelf) {
        Ok(comparing) => comparing,
        Err(fault) => return print_unopened(text, out, fault),
    };
    let compared = comparing.compare(alloc, Context { shelf, text, out });
    comparing.close(shelf);
    match compared? {
        Compared::Ended(ended) => print_end(text, out, asked.listener.limit, &ended),
        Compared::Fault => print_fault(text, out),
        Compared::NoMemory => Ok(Status::Memory),
    }
}

/// Prints a difference.
pub fn print_difference<S: Sink>(
    text: &mut Text,
    out: &mut S,
    difference: Difference,
) -> Result<(), Failed>
    ensures { Prints (S.state out.old) (S.state out.new) text.old text.new result (difference_line difference) }
{
    let pair = PacketPair {
        frame_a: difference.frame_a,
        frame_b: difference.frame_b,
        seq: difference.seq,
    };
    match difference.way {
        Way::Count { a, b } => text.differ_count(out, pair, a, b),
        Way::At { sample, a, b } => text.differ_at(out, pair, sample, a, b),
        Way::Bytes { sample } => text.differ_bytes(out, pair, sample),
    }
}

/// Prints the last lines, and returns the status of the run.
fn print_end<S: Sink>(
    text: &mut Text,
    out: &mut S,
    limit: u64,
    ended: &Ended,
) -> Result<Status, Failed>
    ensures { EndsWithLines limit ended.now (S.state out.old) (S.state out.new) text.old text.new result }
{
    print_last(text, out, limit, ended)?;
    Ok(status_of(ended))
}

/// If both captures were read to their ends, prints the counts. If a capture was not read to its end, prints a line for
/// this capture instead.
fn print_last<S: Sink>(
    text: &mut Text,
    out: &mut S,
    limit: u64,
    ended: &Ended,
) -> Result<(), Failed>
    ensures { PrintsPart (S.state out.old) (S.state out.new) text.old text.new result (last_lines limit ended.now.counts ended.now.a ended.now.b) }
{
    match (ended.a, ended.b) {
        (End::Whole, End::Whole) => print_counts(text, out, &ended.counts),
        (End::Whole, b) => print_side(text, out, limit, b),
        (a, b) => print_sides(text, out, limit, a, b),
    }
}

/// For each capture that was not read to its end, prints the reason.
fn print_sides<S: Sink>(
    text: &mut Text,
    out: &mut S,
    limit: u64,
    a: End,
    b: End,
) -> Result<(), Failed>
    ensures { PrintsPart (S.state out.old) (S.state out.new) text.old text.new result (side_line limit a ++ side_line limit b) }
{
    print_side(text, out, limit, a)?;
    print_side(text, out, limit, b)
}

/// Prints how many packets both listeners present, how many only one presents, and how many pairs differ.
fn print_counts<S: Sink>(text: &mut Text, out: &mut S, counts: &PairCounts) -> Result<(), Failed>
    ensures { Prints (S.state out.old) (S.state out.new) text.old text.new result (counts_line counts.now) }
{
    text.end_agree(
        out,
        counts.matched,
        counts.only_a,
        counts.only_b,
        counts.differ,
    )
}

/// The status of a run whose comparison ended in this way.
fn status_of(ended: &Ended) -> Status
    ensures { result ≡ agree_status ended.now.counts.differ ended.now.a ended.now.b }
{
    match (ended.a, ended.b) {
        (End::Whole, End::Whole) if ended.counts.differ > 0 => Status::Findings,
        (End::Whole, b) => Status::of(b),
        (a, _) => Status::of(a),
    }
}
