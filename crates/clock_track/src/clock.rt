//! A media clock that keeps its last packets.

ghost use Rattle.std.specs.Prelude.{◌≡◌, ◌<◌, ◌≤◌, ◌+◌, ◌++◌, ◌∷◌, [], All, IfOk, IfSome, List, length, map, vec_capacity, vec_len};
ghost use Rattle.clock_track.specs.declared.clock_row.ClockRow.{ClockRow as ClockRowValue};
ghost use Rattle.clock_track.specs.Limits.{IsClockLine, IsNotable, IsShift};
ghost use Rattle.clock_track.specs.Rows.{clock_spot};
ghost use Rattle.clock_track.specs.Views.{answered, row_of};
ghost use Rattle.clock_track.specs.Window.{StandsFor};
ghost use Rattle.clock_track.specs.state.Window.{HasBounds, HoldsRooms, IsKept, IsRoom, TakesRoom, kept_row};

use crate::answer::ClockAnswer;
use crate::bounds::Bounds;
use crate::clock_row::Points;
use crate::over::{WINDOW, line_among};
use crate::query::{Query, Usable, lead_of};
use crate::search::{Rows, bound_groups, bounds_of};
use avtp_base::NoMemory;
use circular_buffer::HeapCircularBuffer;
use std::alloc::Global;
use std::marker::Model;

/// The maximum number of timestamp bytes in a packet.
const ROOM: usize = 65_528;

/// The maximum number of groups of pairs in a packet.
const GROUPS: usize = 256;

/// Memory for a packet's timestamps, and for the bounds of its groups of pairs.
#[derive(Drop)]
struct Room {
    payload: Vec<u8>,
    groups: Vec<Bounds>,
}

/// What is kept of a packet. The memory of a dropped packet is reused, so noting a packet allocates nothing.
#[derive(Drop)]
struct Kept {
    usable: bool,
    seq: u8,
    mr: bool,
    base_frequency: u32,
    pull: u8,
    interval: u16,
    payload: Vec<u8>,
    /// Bounds of the pairs whose later point is in the packet.
    bounds: Bounds,
    /// The bounds of each group of 32 pairs inside the packet.
    groups: Vec<Bounds>,
}

impl Kept {
    /// The packet, with its timestamps copied into `room`. Allocates nothing.
    fn in_room(room: Room, row: &Usable<'_>) -> Self
        requires { IsRoom room }
        ensures { IsKept row.now.shift (row_of row.now.points) result }
    {
        let points = &row.points;
        let Room {
            mut payload,
            mut groups,
        } = room;
        payload.clear();
        let Ok(()) = payload.extend_from_slice(points.payload) else {
            unreachable!()
        };
        bound_groups(&mut groups, row);
        Kept {
            usable: points.usable,
            seq: points.seq,
            mr: points.mr,
            base_frequency: points.base_frequency,
            pull: points.pull,
            interval: points.interval,
            payload,
            bounds: bounds_of(row),
            groups,
        }
    }

    fn points(&self) -> Points<'_>
        ensures { row_of result ≡ kept_row self.now }
    {
        Points {
            usable: self.usable,
            seq: self.seq,
            mr: self.mr,
            base_frequency: self.base_frequency,
            pull: self.pull,
            interval: self.interval,
            payload: self.payload.as_slice(),
        }
    }
}

/// The packets that a clock keeps, in a ring buffer.
#[derive(Clone, Copy)]
struct Ring<'a> {
    rows: &'a HeapCircularBuffer<Kept>,
}

impl Rows for Ring<'_> {
    ghost rows = { λ ring. map kept_row ring.rows.now.items };

    ghost bounded = { λ ring shift. All (HasBounds shift) ring.rows.now.items };

    fn count(&self) -> usize {
        self.rows.len()
    }

    fn row(&self, place: usize) -> Points<'_> {
        match self.rows.get(place) {
            Some(kept) => kept.points(),
            None => unreachable!(),
        }
    }

    fn bounds(&self, place: usize) -> Option<Bounds> {
        match self.rows.get(place) {
            Some(kept) => Some(kept.bounds),
            None => unreachable!(),
        }
    }

    fn groups(&self, place: usize) -> &[Bounds] {
        match self.rows.get(place) {
            Some(kept) => kept.groups.as_slice(),
            None => unreachable!(),
        }
    }
}

/// Room for one more packet. If there is no spare room, the oldest packet is dropped and its room is returned.
fn take_room(rows: &mut HeapCircularBuffer<Kept>, spare: &mut Vec<Room>) -> Room
    requires { HoldsRooms rows.old.items spare.old 64 }
    ensures { TakesRoom rows.old rows.new spare.new result }
{
    if let Some(room) = spare.pop() {
        return room;
    }
    match rows.pop_front() {
        Some(oldest) => Room {
            payload: oldest.payload,
            groups: oldest.groups,
        },
        None => unreachable!(),
    }
}

/// A media clock (IEEE 1722-2016, 10). The clock keeps packets that give points, and of these only the last 64.
#[derive(Drop)]
pub struct Clock {
    shift: i64,
    rows: HeapCircularBuffer<Kept>,
    /// Room for further packets, until 64 are kept.
    spare: Vec<Room>,
}

impl Model for Clock {
    ghost use Rattle.std.specs.Prelude.{map};
    ghost use Rattle.clock_track.specs.Limits.{IsShift};
    ghost use Rattle.clock_track.specs.Window.{ClockState};
    ghost use Rattle.clock_track.specs.state.Window.{IsWindow, kept_row};

    ghost Value = { ClockState };

    ghost view = { λ clock. record { shift = clock.shift; rows = map kept_row clock.rows.items } };

    ghost invariant = { λ clock. IsWindow clock.shift clock.rows clock.spare × IsShift clock.shift };
}

impl Clock {
    /// A clock without packets. `shift` is added to each timestamp of the clock. The shift is in nanoseconds, and is at
    /// most a second, forward or back.
    pub fn new(alloc: Global, shift: i64) -> Result<Self, NoMemory>
        requires { IsShift shift }
        ensures empty { IfOk result (λ clock. StandsFor clock []) }
        ensures shift { IfOk result (λ clock. clock.shift ≡ shift) }
    {
        let rows = HeapCircularBuffer::with_capacity(alloc, WINDOW)?;
        let mut spare = Vec::with_capacity(alloc, WINDOW)?;
        for _ in 0..WINDOW {
            let payload = Vec::with_capacity(alloc, ROOM)?;
            let groups = Vec::with_capacity(alloc, GROUPS)?;
            spare.push(Room { payload, groups })?;
        }
        Ok(Clock { shift, rows, spare })
    }

    /// Notes a packet of the clock. If 64 packets are kept already, the oldest is dropped. A packet that gives no
    /// points is ignored. A packet that gives points must be within these limits: at most 8,191 timestamps, each of
    /// them complete; a pull of at most 5; a base frequency from 1 to 2^29 - 1; and an interval of at least 1.
    /// Allocates nothing.
    pub fn note(&mut self, points: &Points<'_>)
        requires { IsNotable (row_of points.now) }
        ensures noted { (rows : List ClockRowValue) → StandsFor self.old rows → StandsFor self.new (rows ++ row_of points.now ∷ []) }
        ensures shift { self.new.shift ≡ self.old.shift }
    {
        if points.usable {
            let room = take_room(&mut self.rows, &mut self.spare);
            let row = Usable {
                points: *points,
                shift: self.shift,
            };
            let Ok(()) = self.rows.try_push_back(Kept::in_room(room, &row)) else {
                unreachable!()
            };
        }
    }

    /// The line of the sample with the presentation time `instant` (in nanoseconds of gPTP), and the number of the
    /// sample on that line. The stream has `rate` samples a second, at least 1. The answer is that of `line_over` for
    /// all packets that were noted. The answer is `NoClock` if and only if no pair covers the instant. Allocates
    /// nothing.
    pub fn line_for(&self, instant: i64, rate: u32) -> ClockAnswer
        requires { 1 ≤ rate }
        ensures value { (rows : List ClockRowValue) → StandsFor self.now rows → answered result ≡ clock_spot rows self.now.shift instant rate }
        ensures line { IfSome (answered result) (IsClockLine rate instant) }
    {
        let ring = Ring { rows: &self.rows };
        line_among(
            &ring,
            &Query {
                shift: self.shift,
                instant,
                rate,
                lead: lead_of(rate),
            },
        )
    }
}
