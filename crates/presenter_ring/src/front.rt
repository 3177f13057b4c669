//! The receiver's side of a ring.

ghost use Rattle.std.specs.Prelude.{◌≡◌, ◌+◌, ◌≤◌, None, length};
ghost use Rattle.std.specs.Option.{option_to_list};
ghost use Rattle.rtrb.specs.Ring.{sent};
ghost use Rattle.presenter_ring.specs.state.Pulls.{HasAnswered, StaysAs};

use crate::ending::{Ending, end_of};
use crate::gate::{Gate, Side};
use crate::receiver::{Pull, Receiver};
use avtp_base::Bytes;
use rtrb::{Consumer, Producer, PushError};
use sample_schedule::Shown;

/// The producer's end of the ring that carries items, and the consumer's end of the ring that returns the samples of
/// presented items. If no slot was free for an item, `hand` holds this item. `ended` is how the receiver ended.
#[derive(Drop)]
pub struct Front {
    pub producer: Producer<Shown>,
    pub samples: Consumer<Bytes>,
    pub hand: Option<Shown>,
    pub ended: Option<Ending>,
    /// How many items the receiver gave.
    pub given: u64,
    /// How many items were pushed.
    pub pushes: u64,
    ghost counted: { pushes ≡ length (sent producer) },
    ghost bounded: { pushes + length (option_to_list hand) ≤ given },
}

impl Front {
    ghost use Rattle.std.specs.Prelude.{◌≡◌, ◌+◌, ◌<◌, ◌≤◌, None};
    ghost use Rattle.presenter_ring.specs.state.Fronts.{CanFeed, CanTurn, Feeds, Takes, TakesFrontTurn};

    /// The item in `hand`. If `hand` is empty, returns the receiver's next item, or `None` if the receiver has ended.
    #[inline(always)]
    fn next_item<R: Receiver>(&mut self, receiver: &mut R) -> Option<Shown>
        requires { CanFeed R.left R.ended receiver.old self.old }
        ensures { Takes R.gave R.left R.ended receiver.old receiver.new self.old self.new result }
    {
        if self.hand.is_some() {
            return self.hand.take();
        }
        if self.ended.is_some() {
            return None;
        }
        match pull(receiver, &mut self.samples) {
            Pull::Item(shown) => {
                self.given += 1;
                Some(shown)
            }
            last => {
                self.ended = end_of(last);
                None
            }
        }
    }

    /// Pushes the item in `hand`. If `hand` is empty, pulls an item and pushes it. An item for which no slot is free is
    /// kept in `hand`. Returns whether an item was pushed.
    #[inline(always)]
    fn push_next<R: Receiver, G: Gate>(&mut self, receiver: &mut R, gate: &G) -> bool
        requires { CanFeed R.left R.ended receiver.old self.old }
        ensures { Feeds R.gave R.left R.ended receiver.old receiver.new self.old self.new result }
    {
        match self.next_item(receiver) {
            Some(shown) => match self.producer.push(shown) {
                Ok(()) => {
                    self.pushes += 1;
                    gate.step(Side::Push, self.pushes);
                    true
                }
                Err(PushError::Full(shown)) => {
                    self.hand = Some(shown);
                    false
                }
            },
            None => false,
        }
    }

    /// The receiver's turn in a round: pulls and pushes at most `most` items, as long as the ring has a free slot.
    /// After the first push, the turn ends as soon as `may_wait` returns `true`, so that the presenter gets the pushed
    /// items without delay.
    pub fn take_turn<R: Receiver, G: Gate>(&mut self, receiver: &mut R, gate: &G, most: usize)
        requires { CanTurn R.left R.ended receiver.old self.old most }
        ensures { TakesFrontTurn R.gave R.left R.ended receiver.old receiver.new self.old self.new }
    {
        for turn in 0..most {
            if turn > 0 && receiver.may_wait() {
                return;
            }
            if !self.push_next(receiver, gate) {
                return;
            }
        }
    }
}

/// The receiver's next answer. Before answering, the receiver gets back the samples of a presented item, if some have
/// arrived.
#[inline(always)]
fn pull<R: Receiver>(receiver: &mut R, samples: &mut Consumer<Bytes>) -> Pull
    requires { R.ended receiver.old ≡ None }
    ensures { HasAnswered R.gave R.left R.ended receiver.old receiver.new result }
{
    take_back(receiver, samples);
    receiver.next()
}

/// Gives the samples of a presented item back to the receiver, if some have arrived.
#[inline(always)]
fn take_back<R: Receiver>(receiver: &mut R, samples: &mut Consumer<Bytes>)
    ensures { StaysAs R.gave R.left R.ended receiver.old receiver.new }
{
    if let Ok(spent) = samples.pop() {
        receiver.take_back(spent);
    }
}
