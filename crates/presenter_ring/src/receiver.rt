//! Where the items come from.

ghost use Rattle.std.specs.Prelude.{◌≡◌, ◌+◌, ◌++◌, ◌≤◌, None, length};
ghost use Rattle.presenter_ring.specs.Pulls.{items_of, ending_of};

use avtp_base::{Bytes, Refusal};
use sample_schedule::Shown;

/// A receiver's answer: the next item, or why there will be none.
#[derive(Debug, Drop)]
pub enum Pull {
    /// The next item.
    Item(Shown),
    /// The capture has ended.
    Done,
    /// The capture was refused.
    Refused(Refusal),
    /// The capture could not be read.
    ReadFault,
    /// The capture has more bytes than may be read.
    Limit,
    /// There was no memory.
    Memory,
}

/// Gives items, one after another, until it ends. `gave` relates two states of the receiver: an earlier one and a later
/// one. The reason: if a side borrows the receiver, the side does not keep the receiver's first state.
pub trait Receiver: Send {
    ghost use Rattle.std.specs.Prelude.{List, ℕ, Option};
    ghost use Rattle.sample_schedule.specs.declared.shown.Shown.{Shown as ShownValue};
    ghost use Rattle.presenter_ring.specs.declared.receiver.Pull.{Pull as PullValue};

    /// The receiver gave these items, in this order, between the first state and the second state.
    ghost gave: { Self → Self → List ShownValue → Type 0 };

    /// The maximum number of items that the receiver can still give.
    ghost left: { Self → ℕ };

    /// If the receiver has ended, the answer that ended it.
    ghost ended: { Self → Option PullValue };

    /// Gives the next item. Any answer other than an item means that the receiver has ended and must not be called
    /// again.
    fn next(&mut self) -> Pull
        requires { ended self.old ≡ None }
        ensures gave { (begun : Self) (items : List ShownValue) → gave begun self.old items → gave begun self.new (items ++ items_of result) }
        ensures left { left self.new + length (items_of result) ≤ left self.old }
        ensures ended { ended self.new ≡ ending_of result };

    /// Whether `next` may have to wait for its input. The items that were given so far should be presented before
    /// `next` waits.
    fn may_wait(&self) -> bool {
        false
    }

    /// Gets back the samples of a presented item. The receiver is free to reuse the memory of `samples`.
    fn take_back(&mut self, samples: Bytes)
        ensures gave { (begun : Self) (items : List ShownValue) → gave begun self.old items → gave begun self.new items }
        ensures left { left self.new ≡ left self.old }
        ensures ended { ended self.new ≡ ended self.old }
    {
        drop(samples);
    }
}
