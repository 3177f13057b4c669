//! The units of H.264 that a stream's deliveries make.

ghost use Rattle.std.specs.Prelude.{◌≡◌, ◌≢◌, ◌+◌, ◌++◌, [], ◌≤◌, None, vec_len, vec_capacity, List, length, map, IfOk, IfNone, IfSome, MatchResult};
ghost use Rattle.std.specs.Option.{option_to_list};
ghost use Rattle.cvf_format.specs.Assembly.{longest_body};
ghost use Rattle.cvf_format.specs.Cvf.{cvf_of, cvf_shape, cvf_subtype};
ghost use Rattle.cvf_format.specs.WholeOrBroken.{completes};
ghost use Rattle.crf_format.specs.Crf.{crf_subtype};
ghost use Rattle.packet_journal.specs.Deliveries.{Delivery};
ghost use Rattle.sample_schedule.specs.Limits.{IsItem};
ghost use Rattle.time_unfold.specs.Time.{Unfolds, unfolded};
ghost use Rattle.listener.specs.Gathering.{HasUnits, item_entry, left, lost_item as lost_item_of};
ghost use Rattle.listener.specs.state.Gathering.{Begins, Cuts, CutsFirst, Gives, GivesFirst, GivesItem, Pushes, Takes, own_item as own_item_of};
ghost use Rattle.listener.specs.Items.{left_at_end, lost_for as lost_reason, made_entry};
ghost use Rattle.listener.specs.Units.{flaw_in, flaw_of, fragment_in, mark_of as mark_of_delivery};
ghost use Rattle.listener.specs.state.Views.{delivery_shape};

use crate::buffer_pool::BufferPool;
use crate::delivery_view::DeliveryView;
use crate::item::{item_of, malformed};
use avtp_base::{Bytes, NoMemory};
use avtp_header::subtype;
use cvf_format::{Assembler, CvfView, Lost, Mark, NalPart, Piece, read_cvf};
use sample_schedule::{Bad, Item, Reason, Unit};
use std::alloc::Global;
use std::marker::Model;
use time_unfold::unfold;

/// Puts the units of a stream together, and queues the items of the last delivery. The queued items are the fragments
/// that were given up because of the last delivery, and then the delivery's own item. Memory for the fragments is
/// reserved at the start.
pub struct Units {
    assembler: Assembler,
    /// For the fragments that were given up most recently: why they were given up, how many there are, and how many of
    /// them were taken.
    why: Lost,
    lost: u32,
    taken: u32,
    /// The last delivery's own item.
    own: Option<Item>,
}

// One call for the proofs of all owners, instead of the drops of the parts at each of their ends.
impl Drop for Units {
    fn drop(self) {
        let Units {
            assembler: _,
            why: _,
            lost: _,
            taken: _,
            own: _,
        } = self;
    }
}

impl Model for Units {
    ghost use Rattle.std.specs.Prelude.{◌≡◌, ◌≤◌, length};
    ghost use Rattle.listener.specs.Gathering.{Gathered};
    ghost use Rattle.listener.specs.state.Gathering.{IsSound};

    ghost Value = { Gathered };

    ghost view = { λ units. record { assembly = units.assembler; why = units.why; taken = units.taken; own = units.own } };

    ghost invariant = { λ units. IsSound (record { assembly = units.assembler; why = units.why; taken = units.taken; own = units.own })
        × (units.lost ≡ length units.assembler.lost)
        × (units.taken ≤ units.lost) };
}

fn mark_of(delivery: &DeliveryView<'_>) -> Mark
    ensures { result ≡ mark_of_delivery (delivery_shape delivery.now) }
{
    Mark {
        frame: delivery.frame,
        seq: delivery.seq,
        arrival: delivery.arrival,
    }
}

/// The item of a packet that is not presented.
fn lost_item(mark: Mark, reason: Reason) -> Item
    ensures { result ≡ lost_item_of reason mark }
{
    Item::Bad(Bad {
        frame: mark.frame,
        arrival: mark.arrival,
        seq: mark.seq,
        reason,
    })
}

fn reason_for(lost: Lost) -> Reason
    ensures { result ≡ lost_reason lost }
{
    match lost {
        Lost::Broken => Reason::Broken,
        Lost::Long => Reason::Long,
    }
}

fn completes_unit(part: NalPart) -> bool
    ensures { result ≡ completes part }
{
    match part {
        NalPart::Single | NalPart::Last => true,
        NalPart::First | NalPart::Middle => false,
    }
}

/// Why a packet cannot be in a unit, whatever comes before or after it: its time is uncertain, or it would complete a
/// unit but has no timestamp.
fn flaw(view: &CvfView<'_>) -> Option<Reason>
    ensures { result ≡ flaw_in (cvf_shape view.now) }
{
    if view.header.tu {
        return Some(Reason::Uncertain);
    }
    if completes_unit(view.part) && !view.header.tv {
        return Some(Reason::Untimed);
    }
    None
}

/// The presentation time of a packet.
fn instant_of(delivery: &DeliveryView<'_>, view: &CvfView<'_>) -> i64
    ensures value { result ≡ unfolded view.now.header.timestamp delivery.now.arrival }
    ensures unfolds { Unfolds view.now.header.timestamp delivery.now.arrival result }
{
    unfold(view.header.timestamp, delivery.arrival)
}

fn stamp_of(delivery: &DeliveryView<'_>, view: &CvfView<'_>) -> Option<i64>
    ensures { result ≡ (fragment_in (delivery_shape delivery.now) (cvf_shape view.now)).instant }
{
    if view.header.tv {
        Some(instant_of(delivery, view))
    } else {
        None
    }
}

/// The bytes of a unit, in memory that was allocated for them.
fn unit_bytes(mut bytes: Vec<u8>, unit: &[u8]) -> Bytes
    requires { vec_len bytes + length unit.now ≤ vec_capacity bytes }
    ensures { result ≡ bytes.items ++ unit.now }
{
    let Ok(()) = bytes.extend_from_slice(unit) else {
        unreachable!()
    };
    Bytes::over(bytes)
}

/// The own item of an H.264 packet: the unit of these bytes if the packet completes one, none if the packet waits for
/// the rest of its unit, and a flagged item if the packet is lost. Memory for the unit was allocated before.
fn own_item(
    delivery: &DeliveryView<'_>,
    view: &CvfView<'_>,
    bytes: Vec<u8>,
    unit: &[u8],
    piece: Piece,
) -> Option<Item>
    requires room { vec_len bytes + length unit.now ≤ vec_capacity bytes }
    requires empty { bytes.items ≡ [] }
    ensures own { result ≡ own_item_of (delivery_shape delivery.now) (unfolded view.now.header.timestamp delivery.now.arrival) unit.now piece }
    ensures item { IfSome result IsItem }
{
    match piece {
        Piece::Whole => Some(Item::Unit(Unit {
            frame: delivery.frame,
            arrival: delivery.arrival,
            seq: delivery.seq,
            instant: instant_of(delivery, view),
            bytes: unit_bytes(bytes, unit),
        })),
        Piece::Held => None,
        Piece::Lost(why) => Some(lost_item(mark_of(delivery), reason_for(why))),
    }
}

impl Units {
    /// The state before the first delivery. Reserves the memory for the fragments of a unit.
    pub fn new(alloc: Global) -> Result<Self, NoMemory>
        ensures { IfOk result Begins }
    {
        Ok(Units {
            assembler: Assembler::new(alloc)?,
            why: Lost::Broken,
            lost: 0,
            taken: 0,
            own: None,
        })
    }

    /// Ends the current unit because of a delivery whose own item is `item`.
    #[inline(always)]
    fn cut(&mut self, item: Item)
        requires { IsItem item }
        ensures { Cuts item self.old self.new }
    {
        self.lost = self.assembler.cut();
        self.why = Lost::Broken;
        self.taken = 0;
        self.own = Some(item);
    }

    /// Ends the current unit because of a delivery whose own item is `item`. Returns the first resulting item; the
    /// others are queued.
    #[inline(always)]
    fn cut_first(&mut self, item: Item) -> Option<Item>
        requires { IsItem item }
        ensures { CutsFirst item self.old self.new result }
    {
        self.lost = self.assembler.cut();
        self.why = Lost::Broken;
        self.taken = 0;
        if self.lost == 0 && self.own.is_none() {
            return Some(item);
        }
        self.own = Some(item);
        self.next()
    }

    /// Adds a packet, which begins a unit, continues one, or is lost. Memory for a unit that the packet might complete
    /// is allocated first. If there is no memory, returns `NoMemory`, and nothing changes.
    fn push(
        &mut self,
        alloc: Global,
        pool: &mut BufferPool,
        delivery: &DeliveryView<'_>,
        view: &CvfView<'_>,
    ) -> Result<(), NoMemory>
        requires body { length view.now.body.now ≤ longest_body }
        requires flawless { flaw_in (cvf_shape view.now) ≡ None }
        ensures { MatchResult result
            (λ ok. Pushes (delivery_shape delivery.now) (cvf_shape view.now) self.old self.new)
            (λ no_memory. self.new ≡ self.old) }
    {
        let mark = mark_of(delivery);
        let stamp = stamp_of(delivery, view);
        let bytes = pool.take(alloc, self.assembler.unit_with(mark, stamp, view))?;
        let pushed = self.assembler.push(mark, stamp, view);
        self.lost = pushed.lost;
        self.why = pushed.why;
        self.taken = 0;
        self.own = own_item(delivery, view, bytes, self.assembler.unit(), pushed.piece);
        Ok(())
    }

    /// Takes the next delivery of the stream. All items of the earlier deliveries must have been taken. Returns the
    /// delivery's first item, if it has any. Only an H.264 delivery can have more items; they are queued.
    ///
    /// Returns `NoMemory` if there is no memory for a packet's samples or for a unit; then nothing changes.
    #[inline(always)]
    pub fn take_delivery(
        &mut self,
        alloc: Global,
        pool: &mut BufferPool,
        delivery: &DeliveryView<'_>,
    ) -> Result<Option<Item>, NoMemory>
        requires stream { delivery.now.subtype ≢ crf_subtype }
        ensures { MatchResult result
            (λ first. GivesFirst (delivery_shape delivery.now) self.old self.new first)
            (λ no_memory. self.new ≡ self.old) }
    {
        if delivery.subtype != subtype::CVF {
            let item = item_of(alloc, pool, delivery)?;
            return Ok(self.cut_first(item));
        }
        self.take_video(alloc, pool, delivery)?;
        Ok(self.next())
    }

    /// Takes the next delivery of an H.264 stream.
    fn take_video(
        &mut self,
        alloc: Global,
        pool: &mut BufferPool,
        delivery: &DeliveryView<'_>,
    ) -> Result<(), NoMemory>
        requires video { delivery.now.subtype ≡ cvf_subtype }
        ensures { MatchResult result
            (λ ok. (ds : List Delivery) → HasUnits ds self.old → Gives ds (delivery_shape delivery.now) self.new)
            (λ no_memory. self.new ≡ self.old) }
    {
        match read_cvf(delivery.packet) {
            Ok(view) => self.take_packet(alloc, pool, delivery, &view)?,
            Err(refusal) => self.cut(malformed(delivery, refusal)),
        }
        Ok(())
    }

    /// Takes a packet of H.264 that its reader accepted.
    fn take_packet(
        &mut self,
        alloc: Global,
        pool: &mut BufferPool,
        delivery: &DeliveryView<'_>,
        view: &CvfView<'_>,
    ) -> Result<(), NoMemory>
        requires body { length view.now.body.now ≤ longest_body }
        ensures { MatchResult result
            (λ ok. Takes (flaw_in (cvf_shape view.now)) (delivery_shape delivery.now) (cvf_shape view.now) self.old self.new)
            (λ no_memory. self.new ≡ self.old) }
    {
        match flaw(view) {
            Some(reason) => self.cut(lost_item(mark_of(delivery), reason)),
            None => self.push(alloc, pool, delivery, view)?,
        }
        Ok(())
    }

    /// Ends the stream. If a unit is not whole, the fragments of the unit are given up.
    pub fn end(&mut self)
        ensures gives { (ds : List Delivery) → HasUnits ds self.old → map item_entry (left self.new) ≡ map made_entry (left_at_end ds) }
    {
        self.lost = self.assembler.cut();
        self.why = Lost::Broken;
        self.taken = 0;
        self.own = None;
    }

    /// The next queued item, which the last delivery or the end of the stream has yielded. Allocates nothing.
    #[inline(always)]
    pub fn next(&mut self) -> Option<Item>
        ensures { GivesItem self.old self.new result }
    {
        if self.taken < self.lost {
            let mark = self.assembler.lost_mark(self.taken);
            self.taken += 1;
            return Some(lost_item(mark, reason_for(self.why)));
        }
        if self.own.is_none() {
            return None;
        }
        self.own.take()
    }
}
