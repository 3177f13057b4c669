//! The ring, and its rounds.

ghost use Rattle.std.specs.Prelude.{◌≡◌, ◌++◌, ◌≤◌};
ghost use Rattle.rtrb.specs.Ring.{sent, received, known_items, consumer_capacity, IsPair};

use crate::back::Back;
use crate::front::Front;
use crate::gate::Gate;
use crate::presenter::Presenter;
use crate::receiver::{Pull, Receiver};
use crate::turns::both_turns;
use avtp_base::{Failed, NoMemory};
use rtrb::RingBuffer;
use std::alloc::Global;
use std::thread::Threads;

/// How a round ended.
#[derive(Clone, Copy, Debug, PartialEq, Eq)]
pub enum Round {
    /// No presentation failed, and some items may still have to be presented.
    More,
    /// The receiver has ended, and the presenter got every item.
    Drained,
    /// The presenter failed.
    PresentFault,
}

/// A ring between a receiver and a presenter, and the item that was pulled but found no free slot. The pipe works in
/// rounds. In each round, both sides take their turns, in two threads.
pub struct Pipe {
    front: Front,
    back: Back,
    capacity: u32,
    ghost some: { 1 ≤ capacity },
    ghost most: { capacity ≤ 256 },
    ghost pair: { IsPair front.producer back.consumer },
    ghost fifo: { received back.consumer ++ known_items back.consumer ≡ sent front.producer },
    ghost rings: { consumer_capacity back.consumer ≡ capacity },
}

// One call for the proofs of all owners, instead of the drops of the parts at each of their ends.
impl Drop for Pipe {
    fn drop(self) {
        let Pipe {
            front: _,
            back: _,
            capacity: _,
        } = self;
    }
}

impl Pipe {
    ghost use Rattle.std.specs.Prelude.{◌≡◌, ◌+◌, ◌*◌, ◌<◌, ◌≤◌, ◌^◌, [], ◌↔◌, None, length, IsTrue, IfSome, IfOk};
    ghost use Rattle.avtp_base.specs.Faults.{Rose};
    ghost use Rattle.presenter_ring.specs.state.Fronts.{CanFeed};
    ghost use Rattle.presenter_ring.specs.Pipes.{ring_of, ended_with, given_to, capacity_of, work, IsCapacity, IsEmptyPipe, IsRound, IsDrained, EndsWith};
    ghost use Rattle.presenter_ring.specs.state.Pipes.{Advances, PresentsHand, TakesTurns};
    ghost use Rattle.presenter_ring.specs.Pulls.{items_of};

    /// An empty pipe whose ring has room for 1 to 256 items. Returns `NoMemory` if the ring cannot be allocated.
    pub fn begin(alloc: Global, capacity: u32) -> Result<Self, NoMemory>
        requires { IsCapacity capacity }
        ensures { IfOk result (λ pipe. IsEmptyPipe capacity pipe) }
    {
        let (producer, consumer) = RingBuffer::new(alloc, capacity as usize)?;
        let (spent, samples) = RingBuffer::new(alloc, capacity as usize)?;
        Ok(Pipe {
            front: Front {
                producer,
                samples,
                hand: None,
                ended: None,
                given: 0,
                pushes: 0,
            },
            back: Back {
                consumer,
                samples: spent,
                pops: 0,
            },
            capacity,
        })
    }

    /// The answer that the receiver ended with, if the receiver has ended. The answer is never an item.
    pub fn ended(&self) -> Option<Pull>
        ensures answer { result ≡ ended_with self.now }
        ensures no_item { IfSome result (λ pull. items_of pull ≡ []) }
    {
        match self.front.ended {
            Some(ending) => Some(Pull::from(ending)),
            None => None,
        }
    }

    /// Both sides take their turns. Returns whether an item was pushed or popped.
    fn take_turns<T: Threads + Sync, R: Receiver, P: Presenter, G: Gate>(
        &mut self,
        rt: &T,
        receiver: &mut R,
        presenter: &mut P,
        gate: &G,
    ) -> Result<bool, Failed>
        requires { CanFeed R.left R.ended receiver.old self.old.front }
        ensures { TakesTurns R.gave R.left R.ended P.handed P.faults receiver.old receiver.new presenter.old presenter.new self.old self.new result }
    {
        let pushes = self.front.pushes;
        let pops = self.back.pops;
        let most = self.capacity as usize;
        let presented = both_turns(
            rt,
            &mut self.front,
            receiver,
            &mut self.back,
            presenter,
            gate,
            most,
        );
        // Both ends of the ring are here again, so the presenter's side can see all items that were pushed.
        let front = &mut self.front;
        let back = &mut self.back;
        back.consumer.slots_beside(&mut front.producer);
        presented?;
        Ok(self.front.pushes != pushes || self.back.pops != pops)
    }

    /// Hands the item in `hand` directly to the presenter, without the ring.
    fn present_hand<P: Presenter>(&mut self, presenter: &mut P) -> Result<(), Failed>
        ensures { PresentsHand P.handed P.faults presenter.old presenter.new self.old self.new result }
    {
        match self.front.hand.take() {
            Some(shown) => {
                presenter.present(&shown)?;
                presenter.pause()
            }
            None => Ok(()),
        }
    }

    /// Both sides take their turns. If nothing was pushed or popped and an item is in `hand`, the ring is empty and its
    /// producer knew of no free slot. The item is then presented directly, without the ring.
    fn advance<T: Threads + Sync, R: Receiver, P: Presenter, G: Gate>(
        &mut self,
        rt: &T,
        receiver: &mut R,
        presenter: &mut P,
        gate: &G,
    ) -> Result<(), Failed>
        requires { CanFeed R.left R.ended receiver.old self.old.front }
        ensures { Advances R.gave R.left R.ended P.handed P.faults receiver.old receiver.new presenter.old presenter.new self.old self.new result }
    {
        if self.take_turns(rt, receiver, presenter, gate)? {
            return Ok(());
        }
        self.present_hand(presenter)?;
        Ok(())
    }

    /// Whether the receiver has ended and no item waits.
    fn is_drained(&self) -> bool
        ensures { IsTrue result ↔ IsDrained self.now }
    {
        self.front.ended.is_some()
            && self.front.hand.is_none()
            && self.back.consumer.cached_slots() == 0
    }

    /// Runs one round, in which each side takes its turn in a thread of its own. The receiver's side pulls and pushes
    /// at most as many items as the ring can hold. The receiver's side stops earlier if there is no free slot or the
    /// receiver has ended. After the first push, it also stops if the receiver may have to wait. If there is no free
    /// slot for an item, the receiver's side keeps the item. If a round pushes and pops nothing, the kept item is
    /// presented directly, without the ring. The presenter's side pops and presents at most as many items as the ring
    /// can hold. The presenter's side stops earlier if the ring is empty or a presentation fails. The gate is called
    /// after each push and each pop.
    ///
    /// If `ended` is `None`, the receiver must not have ended. In all rounds together, the receiver may give at most
    /// 2^62 items.
    pub fn round<T: Threads + Sync, R: Receiver, P: Presenter, G: Gate>(
        &mut self,
        rt: &T,
        receiver: &mut R,
        presenter: &mut P,
        gate: &G,
    ) -> Round
        requires live { ended_with self.old ≡ None → R.ended receiver.old ≡ None }
        requires room { given_to self.old + R.left receiver.old ≤ 2 ^ 62 }
        ensures moved { IsRound R.gave R.left P.handed receiver.old receiver.new presenter.old presenter.new self.old self.new }
        ensures ends { EndsWith R.ended receiver.old receiver.new self.old self.new }
        ensures live { ended_with self.new ≡ None → R.ended receiver.new ≡ None }

        ensures drained { result ≡ Round.Drained → IsDrained self.new }
        ensures more { result ≡ Round.More → IsDrained self.new → ⊥ }
        ensures fault { result ≡ Round.PresentFault → Rose (P.faults presenter.old) (P.faults presenter.new) }
        ensures quiet { (result ≡ Round.PresentFault → ⊥) → P.faults presenter.new ≡ P.faults presenter.old }

        ensures shrinks { (result ≡ Round.Drained → ⊥) → work (R.left receiver.new) self.new < work (R.left receiver.old) self.old }
        ensures bounded { length (ring_of self.new) ≤ capacity_of self.new }
        ensures capacity { capacity_of self.new ≡ capacity_of self.old }
    {
        match self.advance(rt, receiver, presenter, gate) {
            Err(Failed) => Round::PresentFault,
            Ok(()) => {
                if self.is_drained() {
                    Round::Drained
                } else {
                    Round::More
                }
            }
        }
    }
}
