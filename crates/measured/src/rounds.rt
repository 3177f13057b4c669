//! Measures how fast items go through a ring.

ghost use Rattle.std.specs.Prelude.{◌≡◌, ◌+◌, ◌≤◌, ◌^◌, None};
ghost use Rattle.presenter_ring.specs.Pipes.{ended_with, given_to};

use avtp_base::Failed;
use presenter_ring::{NoGate, Pipe, Presenter, Pull, Receiver, Round};
use sample_schedule::{Reason, Shown};
use std::alloc::Global;
use std::thread::Threads;

/// A receiver that returns flags with the frame numbers 1, 2, 3 and so on.
#[derive(Drop)]
struct Flags {
    given: u64,
    left: u64,
    ended: bool,
}

impl Receiver for Flags {
    ghost use Rattle.std.specs.Prelude.{◌≡◌, ◌+◌, Some, None, cond, length};
    ghost use Rattle.presenter_ring.specs.declared.receiver.Pull.TheVariants.{Done};

    ghost gave = { λ begun flags items. flags.given ≡ begun.given + length items };

    ghost left = { λ flags. flags.left };

    ghost ended = { λ flags. cond flags.ended (Some Done) None };

    fn next(&mut self) -> Pull {
        if self.left == 0 || self.given == u64::MAX {
            self.ended = true;
            return Pull::Done;
        }
        self.left -= 1;
        self.given += 1;
        Pull::Item(Shown::Flag {
            frame: self.given,
            seq: 0,
            reason: Reason::Late,
        })
    }
}

/// A presenter that counts the items that it is given.
#[derive(Drop)]
struct Counted {
    items: u64,
}

impl Presenter for Counted {
    ghost use Rattle.std.specs.Prelude.{◌≡◌, ◌+◌, ◌-◌, ◌^◌, min, length};

    ghost handed = { λ begun counted items. counted.items ≡ min (begun.items + length items) (2 ^ 64 - 1) };

    ghost faults = { λ counted. 0 };

    fn present(&mut self, _shown: &Shown) -> Result<(), Failed> {
        self.items = self.items.saturating_add(1);
        Ok(())
    }
}

/// Sends `count` items through a ring with a capacity of 1 to 256, and returns how many arrived.
pub fn rounds<T: Threads + Sync>(rt: &T, alloc: Global, capacity: u32, count: u32) -> Option<u64>
    requires some { 1 ≤ capacity }
    requires most { capacity ≤ 256 }
{
    let mut pipe = Pipe::begin(alloc, capacity).ok()?;
    let mut flags = Flags {
        given: 0,
        left: u64::from(count),
        ended: false,
    };
    let mut counted = Counted { items: 0 };
    drain(rt, &mut pipe, &mut flags, &mut counted);
    Some(counted.items)
}

/// Runs rounds until a round leaves nothing more to do.
fn drain<T: Threads + Sync, R: Receiver, P: Presenter>(
    rt: &T,
    pipe: &mut Pipe,
    receiver: &mut R,
    presenter: &mut P,
)
    requires live { ended_with pipe.old ≡ None → R.ended receiver.old ≡ None }
    requires room { given_to pipe.old + R.left receiver.old ≤ 2 ^ 62 }
{
    while let Round::More = pipe.round(rt, receiver, presenter, &NoGate) {}
}
