//! Puts NAL units together from packets (RFC 6184, 5.8).

ghost use Rattle.std.specs.Prelude.{◌≡◌, ◌+◌, ◌%◌, ◌≤◌, ◌<◌, ◌++◌, ◌∷◌, [], length, slice_get, List, IfOk, IsTrue, IsSome, true, if◌then◌else◌};
ghost use Rattle.cvf_format.specs.WholeOrBroken.{Event, packet, lost_marks, sequence_numbers, whole_unit, completes, goes_on, begins};
ghost use Rattle.cvf_format.specs.Assembly.{Cuts, Pushes, StandsFor, fragment_of, longest_body, shown_unit};
ghost use Rattle.cvf_format.specs.state.Assembly.{Leaves, agree, broken, gave_up, goes_on_here, has_room, lost_for, settled, size_with, with_first, with_next};

use crate::cvf::{CvfView, NalPart};
use crate::piece::{Lost, Mark, Piece, Pushed};
use avtp_base::NoMemory;
use std::alloc::Global;
use std::marker::Model;

/// The length in bytes of the longest unit.
const LONGEST_UNIT: usize = 4_194_304;

/// The greatest number of fragments of a unit.
const MOST_FRAGMENTS: usize = 4_096;

/// Puts NAL units together from the packets of a stream. The packets are pushed in the order of their arrival.
///
/// A unit is in one packet, or is split into a first fragment, any number of middle fragments, and a last fragment. All
/// fragments carry the same first byte of the unit, and their sequence numbers are consecutive modulo 256. All
/// fragments with a timestamp must have the same presentation time.
///
/// A stretch is a packet that begins a unit, followed by packets that each continue this unit. The longest stretch that
/// ends with a packet decides what becomes of the packet. The assembler keeps only the longest stretch that ends with
/// the most recent packet.
#[derive(Drop)]
pub struct Assembler {
    /// The bytes of the unit so far; if `whole` is true, the unit is complete.
    bytes: Vec<u8>,
    /// The marks of the fragments that wait for the rest of their unit.
    held: Vec<Mark>,
    /// The marks of the fragments that the most recent packet or cut gave up.
    lost: Vec<Mark>,
    nal: u8,
    next_seq: u8,
    instant: Option<i64>,
    whole: bool,
}

impl Model for Assembler {
    ghost use Rattle.std.specs.Prelude.{◌≤◌, vec_len, vec_capacity};
    ghost use Rattle.cvf_format.specs.Assembly.{Assembly};
    ghost use Rattle.cvf_format.specs.WholeOrBroken.{longest_unit, most_fragments};

    ghost Value = { Assembly };

    ghost view = { λ a. record {
      bytes = a.bytes.items;
      held = a.held.items;
      lost = a.lost.items;
      nal = a.nal;
      next_seq = a.next_seq;
      instant = a.instant;
      whole = a.whole;
    } };

    ghost invariant = { λ a. (vec_len a.bytes ≤ longest_unit)
        × (longest_unit ≤ vec_capacity a.bytes)
        × (vec_len a.held ≤ most_fragments)
        × (most_fragments ≤ vec_capacity a.held)
        × (vec_len a.lost ≤ most_fragments)
        × (most_fragments ≤ vec_capacity a.lost) };
}

/// Whether two presentation times are equal, or one of them is unknown.
fn agrees(a: Option<i64>, b: Option<i64>) -> bool
    ensures { result ≡ agree a b }
{
    match (a, b) {
        (Some(a), Some(b)) => a == b,
        _ => true,
    }
}

fn continues_unit(part: NalPart) -> bool
    ensures { result ≡ goes_on part }
{
    matches!(part, NalPart::Middle | NalPart::Last)
}

fn begins_unit(part: NalPart) -> bool
    ensures { result ≡ begins part }
{
    matches!(part, NalPart::Single | NalPart::First)
}

fn completes_unit(part: NalPart) -> bool
    ensures { result ≡ completes part }
{
    matches!(part, NalPart::Single | NalPart::Last)
}

impl Assembler {
    /// An assembler without a packet. Reserves the memory for a unit of 4,194,304 bytes, and for the marks of 4,096
    /// waiting fragments and of 4,096 fragments that were given up.
    pub fn new(alloc: Global) -> Result<Self, NoMemory>
        ensures { IfOk result (λ assembler. StandsFor assembler []) }
    {
        Ok(Assembler {
            bytes: Vec::with_capacity(alloc, LONGEST_UNIT)?,
            held: Vec::with_capacity(alloc, MOST_FRAGMENTS)?,
            lost: Vec::with_capacity(alloc, MOST_FRAGMENTS)?,
            nal: 0,
            next_seq: 0,
            instant: None,
            whole: false,
        })
    }

    /// Takes a packet with its mark and its presentation time in nanoseconds of gPTP. A packet without a timestamp has
    /// no presentation time.
    ///
    /// A unit is complete when its last packet is pushed. If a packet does not continue the waiting unit, the assembler
    /// gives that unit up. If a packet would make the unit longer than 4,194,304 bytes or 4,096 fragments, the packet
    /// is lost. The waiting unit is then given up, too. A packet that completes a unit must have a timestamp. A body
    /// must have at most 65,530 bytes. Allocates nothing.
    pub fn push(&mut self, mark: Mark, instant: Option<i64>, view: &CvfView<'_>) -> Pushed
        requires body { length view.now.body.now ≤ longest_body }
        requires stamped { IsTrue (completes view.now.part) → IsSome instant }
        ensures { Pushes self.old self.new (fragment_of mark instant view.now) result }
    {
        if begins_unit(view.part) {
            return self.begin(mark, instant, view);
        }
        if !self.goes_on_with(mark, instant, view) {
            return self.lose(Lost::Broken);
        }
        if !self.has_room_for(view.body) {
            return self.lose(Lost::Long);
        }
        self.go_on(mark, instant, view)
    }

    /// The mark of fragment `i` among the fragments that the most recent packet or cut gave up. The given-up fragments
    /// are counted from 0, in the order of their arrival. `i` must be less than the number of the given-up fragments.
    pub fn lost_mark(&self, i: u32) -> Mark
        requires { i < length self.now.lost }
        ensures { (events : List Event) → StandsFor self.now events → slice_get (lost_marks events) i ≡ Some result }
    {
        self.lost[i as usize]
    }

    /// Marks a cut: no unit continues across it. Gives up the waiting fragments and returns their number. Allocates
    /// nothing.
    pub fn cut(&mut self) -> u32
        ensures { Cuts self.old self.new result }
    {
        self.give_up()
    }

    /// The bytes of the unit that the most recent packet completed. The result is empty after a cut, or if that packet
    /// completed no unit.
    #[tactic(auto, using(crate::proofs::AssemblyLemmas::unit_shown))]
    pub fn unit(&self) -> &[u8]
        ensures { (events : List Event) → StandsFor self.now events → result.now ≡ whole_unit events }
    {
        self.shown()
    }

    /// The size of the unit that this packet would complete, or 0 if it would complete none. With this size, the caller
    /// can reserve memory for the unit before it pushes the packet. The packet must meet the requirements of `push`.
    pub fn unit_with(&self, mark: Mark, instant: Option<i64>, view: &CvfView<'_>) -> usize
        requires { length view.now.body.now ≤ longest_body }
        ensures { (events : List Event) → StandsFor self.now events
            → result ≡ length (whole_unit (events ++ packet (fragment_of mark instant view.now) ∷ [])) }
    {
        self.size_with(mark, instant, view)
    }

    fn size_with(&self, mark: Mark, instant: Option<i64>, view: &CvfView<'_>) -> usize
        requires { length view.now.body.now ≤ longest_body }
        ensures { result ≡ size_with self.now (fragment_of mark instant view.now) }
    {
        if !completes_unit(view.part) {
            return 0;
        }
        if begins_unit(view.part) {
            return 1 + view.body.len();
        }
        if self.goes_on_with(mark, instant, view) && self.has_room_for(view.body) {
            return self.bytes.len() + view.body.len();
        }
        0
    }

    fn shown(&self) -> &[u8]
        ensures { result.now ≡ shown_unit self.now }
    {
        if self.whole {
            return self.bytes.as_slice();
        }
        &[]
    }

    /// Gives up all waiting fragments and returns their number.
    fn give_up(&mut self) -> u32
        ensures { Leaves self.new (gave_up self.old) result (length self.old.held) }
    {
        self.whole = false;
        std::mem::swap(&mut self.held, &mut self.lost);
        self.held.clear();
        self.lost.len() as u32
    }

    /// Whether a packet continues the waiting unit.
    #[tactic(auto, unfolding(crate::specs::state::Assembly::goes_on_here))]
    fn goes_on_with(&self, mark: Mark, instant: Option<i64>, view: &CvfView<'_>) -> bool
        ensures { result ≡ goes_on_here self.now (fragment_of mark instant view.now) }
    {
        !self.held.is_empty()
            && continues_unit(view.part)
            && view.nal == self.nal
            && mark.seq == self.next_seq
            && agrees(self.instant, instant)
    }

    /// Whether the unit stays within the limits after one more fragment.
    #[tactic(auto, unfolding(crate::specs::state::Assembly::has_room))]
    fn has_room_for(&self, body: &[u8]) -> bool
        ensures { result ≡ has_room self.now body.now }
    {
        body.len() <= LONGEST_UNIT - self.bytes.len() && self.held.len() < MOST_FRAGMENTS
    }

    /// Adds these bytes to the unit, which must have room for them.
    fn append(&mut self, bytes: &[u8])
        requires { length self.old.bytes + length bytes.now ≤ LONGEST_UNIT }
        ensures { self.new ≡ record self.old { bytes = self.old.bytes ++ bytes.now } }
    {
        let Ok(()) = self.bytes.extend_from_slice(bytes) else {
            unreachable!()
        };
    }

    /// Notes what the next fragment must carry.
    fn expect_after(&mut self, mark: Mark, nal: u8)
        ensures { self.new ≡ record self.old { nal = nal; next_seq = (mark.seq + 1) % sequence_numbers } }
    {
        self.nal = nal;
        self.next_seq = mark.seq.wrapping_add(1);
    }

    /// Notes that the packet waits, or that it completes the unit.
    fn settle(&mut self, mark: Mark, part: NalPart) -> Piece
        requires { length self.old.held < MOST_FRAGMENTS }
        ensures { Leaves self.new (record self.old { held = if completes part then [] else self.old.held ++ mark ∷ []; whole = completes part }) result (settled part) }
    {
        self.whole = completes_unit(part);
        if self.whole {
            self.held.clear();
            return Piece::Whole;
        }
        let Ok(()) = self.held.push(mark) else {
            unreachable!()
        };
        Piece::Held
    }

    /// Begins a unit. The waiting unit, if there is one, is given up.
    fn begin(&mut self, mark: Mark, instant: Option<i64>, view: &CvfView<'_>) -> Pushed
        requires { length view.now.body.now ≤ longest_body }
        ensures { Leaves self.new (with_first self.old (fragment_of mark instant view.now)) result (record { lost = length self.old.held; why = broken; piece = settled view.now.part }) }
    {
        let lost = self.give_up();
        self.bytes.clear();
        self.append(&[view.nal]);
        self.append(view.body);
        self.instant = instant;
        self.expect_after(mark, view.nal);
        let piece = self.settle(mark, view.part);
        Pushed {
            lost,
            why: Lost::Broken,
            piece,
        }
    }

    /// Continues the unit, which must have room for the packet.
    #[tactic(auto, unfolding(crate::specs::state::Assembly::has_room))]
    fn go_on(&mut self, mark: Mark, instant: Option<i64>, view: &CvfView<'_>) -> Pushed
        requires { has_room self.old view.now.body.now ≡ true }
        ensures { Leaves self.new (with_next self.old (fragment_of mark instant view.now)) result (record { lost = 0; why = broken; piece = settled view.now.part }) }
    {
        self.lost.clear();
        self.append(view.body);
        self.instant = self.instant.or(instant);
        self.expect_after(mark, view.nal);
        let piece = self.settle(mark, view.part);
        Pushed {
            lost: 0,
            why: Lost::Broken,
            piece,
        }
    }

    /// Loses the packet, and gives up the waiting unit.
    fn lose(&mut self, why: Lost) -> Pushed
        ensures { Leaves self.new (gave_up self.old) result (record { lost = length self.old.held; why = why; piece = lost_for why }) }
    {
        let lost = self.give_up();
        Pushed {
            lost,
            why,
            piece: Piece::Lost(why),
        }
    }
}
