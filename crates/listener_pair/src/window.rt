//! The batches that wait for a partner.

ghost use Rattle.std.specs.Prelude.{◌≡◌, None, IfSome, IsSome};
ghost use Rattle.listener_pair.specs.state.Window.{Enters, FindsPartner, Tells, made, placed, risen, takes_by};

use crate::difference::Which;
use crate::placed::{Entered, Placed};
use crate::reach::fits;
use crate::timed::Timed;
use crate::way::difference_of;
use avtp_base::{Bytes, NoMemory};
use std::alloc::Global;
use std::collections::VecDeque;
use std::marker::Model;

/// A batch is paired only with one of this many batches directly before it in merged order.
const WINDOW: usize = 512;

/// The memory of the samples is kept for at most this many batches, to be used again.
const SPENT: usize = 8;

/// The batches of a side that wait for a partner, and the memory of the samples of some batches that no longer wait.
#[derive(Drop)]
pub struct Waiting {
    batches: VecDeque<Placed>,
    spent: Vec<Bytes>,
}

impl Model for Waiting {
    ghost use Rattle.std.specs.Prelude.{◌≤◌, List};
    ghost use Rattle.std.specs.VecDeque.{deque_capacity};
    ghost use Rattle.listener_pair.specs.declared.placed.Placed.{Placed as PlacedValue};

    ghost Value = { List PlacedValue };

    ghost view = { λ waiting. waiting.batches.items };

    ghost invariant = { λ waiting. 512 ≤ deque_capacity waiting.batches };
}

impl Waiting {
    ghost use Rattle.std.specs.Prelude.{◌≡◌, ◌<◌, ◌++◌, ◌∷◌, [], length, IfOk};
    ghost use Rattle.std.specs.List.{find};
    ghost use Rattle.listener_pair.specs.Pairs.{without_first};
    ghost use Rattle.listener_pair.specs.state.Window.{takes_by, without_passed};

    /// No batch waits yet. Reserves all memory that is needed.
    pub fn begin(alloc: Global) -> Result<Self, NoMemory>
        ensures { IfOk result (λ waiting. waiting ≡ []) }
    {
        let batches = VecDeque::with_capacity(alloc, WINDOW)?;
        let spent = Vec::with_capacity(alloc, SPENT)?;
        Ok(Waiting { batches, spent })
    }

    /// Returns the memory of the samples of a batch that no longer waits, if any is kept.
    pub fn take_spent(&mut self) -> Option<Bytes>
        ensures { self.new ≡ self.old }
    {
        self.spent.pop()
    }

    /// Keeps the memory of a batch's samples, if there is room.
    #[inline(always)]
    fn spend(&mut self, batch: Timed)
        ensures { self.new ≡ self.old }
    {
        if self.spent.len() < self.spent.capacity() {
            self.spent.push_reserved(batch.into_samples());
        }
    }

    /// Removes and returns the first waiting batch that may be paired with batch `x` of the other side.
    fn take_partner(&mut self, side: Which, x: &Timed) -> Option<Placed>
        ensures found { result ≡ find (takes_by side x.now) self.old }
        ensures left { self.new ≡ without_first (takes_by side x.now) self.old }
    {
        match find_partner(&self.batches, side, x) {
            Some(i) => self.batches.remove(i),
            None => None,
        }
    }

    /// Drops the first waiting batch if it is not among the 512 batches before position `place`.
    fn drop_passed(&mut self, place: u64)
        ensures { self.new ≡ without_passed place self.old }
    {
        let passed = match self.batches.front() {
            Some(first) => place.saturating_sub(first.place) > WINDOW as u64,
            None => false,
        };
        if !passed {
            return;
        }
        if let Some(first) = self.batches.pop_front() {
            self.spend(first.batch);
        }
    }

    /// Adds a batch. There is always room, because at most 511 other batches wait. If there were no room, all waiting
    /// batches would be dropped.
    #[inline(always)]
    fn keep(&mut self, batch: Placed)
        ensures { length self.old < 512 → self.new ≡ self.old ++ batch ∷ [] }
    {
        if self.batches.len() >= WINDOW {
            self.batches.clear();
        }
        self.batches.push_back_reserved(batch);
    }
}

/// The index of the first waiting batch that may be paired with batch `x` of `side`.
fn find_partner(waiting: &VecDeque<Placed>, side: Which, x: &Timed) -> Option<usize>
    ensures { FindsPartner (takes_by side x.now) waiting.now.items result }
{
    for i in 0..waiting.len() {
        if fits(side, x, &waiting[i].batch) {
            return Some(i);
        }
    }
    None
}

/// Takes the next batch of a side. If the batch may be paired with waiting batches of the other side, it is paired with
/// the first of them. Otherwise it waits. Waiting batches that are no longer among the last 512 batches are dropped.
#[inline(always)]
pub fn enter(
    side: Which,
    place: u64,
    next: &mut Option<Timed>,
    own: &mut Waiting,
    other: &mut Waiting,
) -> Entered
    requires { IsSome next.old }
    ensures enters { IfSome next.old (λ batch. Enters (placed place side batch) (risen place) own.old other.old own.new other.new (made (placed place side batch) other.old)) }
    ensures tells { IfSome next.old (λ batch. Tells (made (placed place side batch) other.old) result) }
    ensures taken { next.new ≡ None }
{
    let Some(x) = &*next else { unreachable!() };
    let partner = other.take_partner(side, x);
    let then = place.saturating_add(1);
    own.drop_passed(then);
    other.drop_passed(then);
    match partner {
        Some(earlier) => {
            let difference = difference_of(side, x, &earlier.batch);
            other.spend(earlier.batch);
            if let Some(batch) = next.take() {
                own.spend(batch);
            }
            Entered {
                paired: true,
                difference,
            }
        }
        None => {
            if let Some(batch) = next.take() {
                own.keep(Placed { place, side, batch });
            }
            Entered {
                paired: false,
                difference: None,
            }
        }
    }
}
