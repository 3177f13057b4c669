//! Two captures that are read side by side, each only as far as the comparison needs.

ghost use Rattle.std.specs.Prelude.{◌≡◌, ◌<◌, ◌^◌, Some, IsSome};
ghost use Rattle.capture_io.specs.Source.{held_in, slot_of};
ghost use Rattle.avtp_words.specs.Grammar.{agreeing_of};
ghost use Rattle.capture_pair.specs.Pairing.{IsThrough, listener_of, wanted_by};
ghost use Rattle.agree_command.specs.Agree.{IsAgreeing};
ghost use Rattle.agree_command.specs.state.Comparing.{ClosesTwo, Compares, EndsCompared, IsBegun, IsOpenAt, OpensTwo, PrintsDifferences, ReadsOn, ReadsSide, TakesHeld, is_fault as is_fault_end};

use crate::command::print_difference;
use avtp_base::{Failed, NoMemory, OpenFault};
use avtp_files::{Shelf, Sink};
use avtp_text::Text;
use avtp_words::Agree;
use capture_io::{End, Source};
use capture_pair::RecordPair;
use listener_pair::{PairCounts, Which};
use run_report::{Context, next_record, plan};
use std::alloc::Global;

/// How far two captures were compared.
#[derive(Clone, Copy, Debug, PartialEq, Eq)]
pub enum Compared {
    /// Both readings ended.
    Ended(Ended),
    /// The comparison stopped at a read fault.
    Fault,
    /// The comparison stopped at a record, because there was no memory for that record.
    NoMemory,
}

/// How the readings of A and B ended, and the final counts.
#[derive(Clone, Copy, Debug, PartialEq, Eq)]
pub struct Ended {
    pub a: End,
    pub b: End,
    pub counts: PairCounts,
}

/// The result of one step of reading one of two captures.
#[derive(Clone, Copy, Debug, PartialEq, Eq)]
pub enum Step {
    /// A record was read and given to the pair.
    Took,
    /// The reading ended in this way. No record follows.
    Ended(End),
    /// A read fault occurred.
    Fault,
    /// There was no memory for a record.
    NoMemory,
}

/// One of two captures. `end` says how the reading of the capture ended, once it has ended.
#[derive(Drop)]
pub struct Side {
    pub source: Source,
    pub end: Option<End>,
}

/// Two captures, and the comparison of what a listener presents from each.
#[derive(Drop)]
pub struct Comparing {
    pub a: Side,
    pub b: Side,
    pub pair: RecordPair,
}

impl Comparing {
    /// Opens the two captures, A before B. At most `asked.listener.limit` bytes of each capture will be read. If a
    /// capture cannot be opened or memory runs out, neither capture stays open.
    pub fn open<F: Shelf>(
        alloc: Global,
        asked: &Agree<'_>,
        shelf: &mut F,
    ) -> Result<Comparing, OpenFault>
        requires { IsAgreeing (agreeing_of asked.now) }
        ensures { OpensTwo (F.state shelf.old) (F.state shelf.new) (agreeing_of asked.now) result }
    {
        let limit = asked.listener.limit;
        let a = Source::open(alloc, limit, shelf, asked.a)?;
        let b = match Source::open(alloc, limit, shelf, asked.b) {
            Ok(b) => b,
            Err(fault) => {
                a.close(shelf);
                return Err(fault);
            }
        };
        let Ok(pair) = RecordPair::begin(alloc, plan(&asked.listener)) else {
            b.close(shelf);
            a.close(shelf);
            return Err(OpenFault::Memory);
        };
        Ok(Comparing {
            a: Side {
                source: a,
                end: None,
            },
            b: Side {
                source: b,
                end: None,
            },
            pair,
        })
    }

    /// Closes both captures, however far they were read.
    pub fn close<F: Shelf>(self, shelf: &mut F)
        requires { IsOpenAt (F.state shelf.old) self }
        ensures { ClosesTwo (F.state shelf.old) (F.state shelf.new) (slot_of self.a.source) (slot_of self.b.source) }
    {
        let Comparing { a, b, .. } = self;
        b.source.close(shelf);
        a.source.close(shelf);
    }

    /// Compares both captures as far as they can be read, and prints each difference as soon as it is known.
    pub fn compare<F: Shelf, S: Sink>(
        &mut self,
        alloc: Global,
        context: Context<'_, '_, '_, F, S>,
    ) -> Result<Compared, Failed>
        requires open { IsOpenAt (F.state context.shelf.now) self.old }
        requires begun { IsBegun self.old }
        ensures { Compares (F.state context.entry.shelf.now) (F.state context.exit.0.now) self.old self.new (S.state context.entry.out.now) (S.state context.exit.1.1.0.now) context.entry.text.now context.exit.1.0.now result }
    {
        let Context { shelf, text, out } = context;
        loop {
            print_differences(&mut self.pair, text, out)?;
            let Some(which) = self.pair.wants() else {
                return Ok(Compared::Ended(self.ended()));
            };
            match self.read_on(alloc, which, Context { shelf, text, out })? {
                Step::Fault => return Ok(Compared::Fault),
                Step::NoMemory => return Ok(Compared::NoMemory),
                _ => {}
            }
        }
    }

    /// Reads the next record of the capture that the pair needs next.
    fn read_on<F: Shelf, S: Sink>(
        &mut self,
        alloc: Global,
        which: Which,
        context: Context<'_, '_, '_, F, S>,
    ) -> Result<Step, Failed>
        requires wanted { wanted_by self.old.pair ≡ Some which }
        requires few { (listener_of which self.old.pair).counts.frames < 2 ^ 61 }
        requires open { IsOpenAt (F.state context.shelf.now) self.old }
        ensures { ReadsOn which (F.state context.entry.shelf.now) (F.state context.exit.0.now) self.old self.new (S.state context.entry.out.now) (S.state context.exit.1.1.0.now) context.entry.text.now context.exit.1.0.now result }
    {
        match which {
            Which::A => read_side(alloc, which, &mut self.a, &mut self.pair, context),
            Which::B => read_side(alloc, which, &mut self.b, &mut self.pair, context),
        }
    }

    /// The result of the comparison, once both readings have ended and all differences are printed.
    fn ended(&self) -> Ended
        requires ends { IsSome self.now.a.end × IsSome self.now.b.end }
        requires through { IsThrough self.now.pair }
        ensures { EndsCompared self.now result }
    {
        let (Some(a), Some(b)) = (self.a.end, self.b.end) else {
            unreachable!()
        };
        Ended {
            a,
            b,
            counts: self.pair.counts(),
        }
    }
}

/// Prints the known differences that have not been printed yet.
fn print_differences<S: Sink>(
    pair: &mut RecordPair,
    text: &mut Text,
    out: &mut S,
) -> Result<(), Failed>
    ensures { PrintsDifferences pair.old pair.new (S.state out.old) (S.state out.new) text.old text.new result }
{
    while let Some(difference) = pair.next_difference() {
        print_difference(text, out, difference)?;
    }
    Ok(())
}

/// Reads the next record of the capture `which` and gives it to the pair, or tells the pair that the capture has ended.
fn read_side<F: Shelf, S: Sink>(
    alloc: Global,
    which: Which,
    side: &mut Side,
    pair: &mut RecordPair,
    context: Context<'_, '_, '_, F, S>,
) -> Result<Step, Failed>
    requires wanted { wanted_by pair.old ≡ Some which }
    requires few { (listener_of which pair.old).counts.frames < 2 ^ 61 }
    requires live { IsSome ((F.state context.shelf.now).slots (slot_of side.old.source)) }
    ensures { ReadsSide which (F.state context.entry.shelf.now) (F.state context.exit.0.now) side.old side.new pair.old pair.new (S.state context.entry.out.now) (S.state context.exit.1.1.0.now) context.entry.text.now context.exit.1.0.now result }
{
    let Context { shelf, text, out } = context;
    let end = next_record(&mut side.source, shelf, text, out)?;
    side.end = end;
    let Some(end) = end else {
        return Ok(take_record(alloc, which, &side.source, pair));
    };
    if is_fault(end) {
        return Ok(Step::Fault);
    }
    pair.close(which);
    Ok(Step::Ended(end))
}

/// Whether a reading ended with a read fault.
fn is_fault(end: End) -> bool
    ensures { result ≡ is_fault_end end }
{
    matches!(end, End::ReadFault)
}

/// Gives the pair the record that `source` holds.
fn take_record(alloc: Global, which: Which, source: &Source, pair: &mut RecordPair) -> Step
    requires held { IsSome (held_in source.now) }
    requires wanted { wanted_by pair.old ≡ Some which }
    requires few { (listener_of which pair.old).counts.frames < 2 ^ 61 }
    ensures { TakesHeld which (held_in source.now) pair.old pair.new result }
{
    match pair.take_record(alloc, which, &source.record()) {
        Ok(()) => Step::Took,
        Err(NoMemory) => Step::NoMemory,
    }
}
