//! Flags that go through a ring, counted on both sides.

ghost use Rattle.std.specs.Prelude.{◌≡◌, ◌+◌, ◌≤◌, ◌^◌, false, None};
ghost use Rattle.presenter_ring.specs.Pipes.{ended_with, given_to};

use crate::items::late;
use avtp_base::Failed;
use presenter_ring::{Gate, Pipe, Presenter, Pull, Receiver, Round, Side};
use sample_schedule::Shown;
use std::sync::atomic::{AtomicU64, Ordering};
use std::test::Fail;
use std::thread::Threads;

/// Gives one flagged item for each of the frames 1, 2, 3 and so on, up to a limit.
#[derive(Drop)]
struct Flags {
    given: u64,
    left: u64,
    ended: bool,
}

impl Receiver for Flags {
    ghost use Rattle.std.specs.Prelude.{◌≡◌, ◌+◌, Some, None, cond, length};
    ghost use Rattle.presenter_ring.specs.declared.receiver.Pull.TheVariants.{Limit};

    ghost gave = { λ begun flags items. flags.given ≡ begun.given + length items };

    ghost left = { λ flags. flags.left };

    ghost ended = { λ flags. cond flags.ended (Some Limit) None };

    fn next(&mut self) -> Pull {
        if self.left == 0 || self.given == u64::MAX {
            self.ended = true;
            return Pull::Limit;
        }
        self.left -= 1;
        self.given += 1;
        Pull::Item(late(self.given))
    }
}

/// Counts the items that it gets, and the frames that are out of order. Fails at a chosen item.
#[derive(Drop)]
struct Counted {
    items: u64,
    out_of_order: u64,
    fails_at: u64,
    faults: u64,
}

impl Presenter for Counted {
    ghost use Rattle.std.specs.Prelude.{◌≡◌, ◌+◌, ◌-◌, ◌^◌, min, length};

    ghost handed = { λ begun counted items. counted.items ≡ min (begun.items + length items) (2 ^ 64 - 1) };

    ghost faults = { λ counted. counted.faults };

    fn present(&mut self, shown: &Shown) -> Result<(), Failed> {
        self.items = self.items.saturating_add(1);
        if frame_of(shown) != self.items {
            self.out_of_order = self.out_of_order.saturating_add(1);
        }
        if self.items == self.fails_at {
            self.faults = self.faults.saturating_add(1);
            return Err(Failed);
        }
        Ok(())
    }
}

fn frame_of(shown: &Shown) -> u64 {
    match shown {
        Shown::Present(batch) => batch.frame,
        Shown::Flag { frame, .. } => *frame,
    }
}

/// Counts the steps of each side, and the steps that are numbered out of order.
#[derive(Drop)]
struct Counting {
    pushes: AtomicU64,
    pops: AtomicU64,
    gaps: AtomicU64,
}

impl Gate for Counting {
    fn step(&self, side: Side, number: u64) {
        let before = match side {
            Side::Push => self.pushes.fetch_add(1, Ordering::SeqCst),
            Side::Pop => self.pops.fetch_add(1, Ordering::SeqCst),
        };
        if number != before.wrapping_add(1) {
            self.gaps.fetch_add(1, Ordering::SeqCst);
        }
    }
}

fn flags_of(left: u64) -> Flags
    ensures left { result.left ≡ left }
    ensures live { result.ended ≡ false }
{
    Flags {
        given: 0,
        left,
        ended: false,
    }
}

/// Runs rounds until one returns an answer other than `More`.
fn last_round<T: Threads + Sync, R: Receiver, P: Presenter, G: Gate>(
    rt: &T,
    pipe: &mut Pipe,
    receiver: &mut R,
    presenter: &mut P,
    gate: &G,
) -> Round
    requires live { ended_with pipe.old ≡ None → R.ended receiver.old ≡ None }
    requires room { given_to pipe.old + R.left receiver.old ≤ 2 ^ 62 }
{
    loop {
        match pipe.round(rt, receiver, presenter, gate) {
            Round::More => {}
            last => return last,
        }
    }
}

/// How many items a ring has room for, and the item at which the presenter fails, if any.
#[derive(Clone, Copy)]
struct Ring {
    capacity: u32,
    fails_at: u64,
}

const RINGS: [Ring; 4] = [
    Ring {
        capacity: 1,
        fails_at: 0,
    },
    Ring {
        capacity: 256,
        fails_at: 0,
    },
    Ring {
        capacity: 2,
        fails_at: 1,
    },
    Ring {
        capacity: 2,
        fails_at: 500,
    },
];

#[test]
fn all_come_in_order_up_to_a_fault(rt: HostRuntime) -> Result<(), Fail> {
    for ring in &RINGS {
        assert!(rt; 1 <= ring.capacity && ring.capacity <= 256);
        let mut pipe = Pipe::begin(rt.alloc(), ring.capacity)?;
        let mut receiver = flags_of(1_000);
        let mut presenter = Counted {
            items: 0,
            out_of_order: 0,
            fails_at: ring.fails_at,
            faults: 0,
        };
        let gate = Counting {
            pushes: AtomicU64::new(0),
            pops: AtomicU64::new(0),
            gaps: AtomicU64::new(0),
        };
        let last = last_round(&rt, &mut pipe, &mut receiver, &mut presenter, &gate);
        let came = (last, presenter.items, presenter.out_of_order);
        if ring.fails_at > 0 {
            let want = (Round::PresentFault, ring.fails_at, 0);
            assert_eq!(rt; came, want, "a ring of {}", ring.capacity);
        } else {
            let want = (Round::Drained, 1_000, 0);
            assert_eq!(rt; came, want, "a ring of {}", ring.capacity);
            assert!(rt; matches!(pipe.ended(), Some(Pull::Limit)));
            assert_eq!(rt; gate.pushes.load(Ordering::SeqCst), 1_000);
            assert_eq!(rt; gate.pops.load(Ordering::SeqCst), 1_000);
        }
        assert_eq!(rt; gate.gaps.load(Ordering::SeqCst), 0);
    }
    Ok(())
}
