//! A listener hears deliveries one by one. The items that the listener shows are returned one by one.

ghost use Rattle.std.specs.Prelude.{◌≡◌, ◌≤◌, ◌<◌, ◌^◌, [], All, IfOk, IsTrue, None, false, length, ℕ};
ghost use Rattle.listener.specs.Listening.{StandsFor, is_closed};
ghost use Rattle.soak_run.specs.state.Hearing.{AreDeliverable, CanDeliver, Delivers, IsDeliverable, closed_at, records_of, shown_by};

use avtp_base::NoMemory;
use listener::{ListenPlan, RecordListener};
use pcap_frames::RecordView;
use presenter_ring::{Pull, Receiver};
use std::alloc::Global;
use talker::Talker;

/// The listener of the stream.
const SOAK_LISTENER: ListenPlan = ListenPlan {
    stream: 0x0200_0000_0001_0001,
    clock: None,
    buffer: 4_096,
    room: 67_108_864,
    look: 32,
    lead: 2_000_000,
    shift: 0,
};

/// How far a hearing has come.
#[derive(Clone, Copy, Debug, PartialEq, Eq)]
pub enum Stage {
    /// Deliveries are still being given to the listener, and the items that are due so far are shown.
    Giving,
    /// All deliveries were given, and the remaining items are being shown.
    Showing,
    /// Everything was shown.
    Ended,
    /// There was no memory for a delivery.
    NoMemory,
}

/// Gives a delivery to the listener.
fn deliver(
    alloc: Global,
    talker: &mut Talker<'_>,
    listener: &mut RecordListener,
    delivery: (i64, u64),
) -> Result<(), NoMemory>
    requires { CanDeliver talker.old listener.old delivery }
    ensures { Delivers talker.old talker.new delivery listener.old listener.new result }
{
    let (arrival, number) = delivery;
    let sent = talker.packet(number);
    let record = RecordView {
        arrival,
        orig_len: sent.bytes.len() as u32,
        bytes: sent.bytes,
    };
    listener.take_record(alloc, &record)?;
    Ok(())
}

/// The delivered packets of a talker, the listener that hears these packets, and how far the hearing has come.
#[derive(Drop)]
pub struct Hearing<'a> {
    pub alloc: Global,
    pub talker: Talker<'a>,
    pub deliveries: &'a [(i64, u64)],
    /// The number of deliveries that were given to the listener.
    pub given: usize,
    pub listener: RecordListener,
    pub stage: Stage,
    ghost deliverable: { All (IsDeliverable talker) deliveries.now },
    ghost few: { length deliveries.now ≤ 2 ^ 62 },
    ghost closed: { is_closed listener ≡ closed_at stage },
    ghost stands: { ∥ StandsFor (records_of talker deliveries.now given) (shown_by listener) listener ∥₁ },
}

impl<'a> Hearing<'a> {
    ghost use Rattle.soak_run.specs.state.Showing.{GoesOn, HasBegun, IsWaiting};

    /// A hearing before the first delivery is given.
    pub fn begin(
        alloc: Global,
        talker: Talker<'a>,
        deliveries: &'a [(i64, u64)],
    ) -> Result<Self, NoMemory>
        requires { AreDeliverable talker deliveries.now }
        ensures { IfOk result (HasBegun talker.entry deliveries.now) }
    {
        let listener = RecordListener::begin(alloc, SOAK_LISTENER)?;
        Ok(Hearing {
            alloc,
            talker,
            deliveries,
            given: 0,
            listener,
            stage: Stage::Giving,
        })
    }

    /// Gives the next delivery to the listener. If all deliveries were given, closes the listener. All items that were
    /// due before the call must have been shown.
    fn go_on(&mut self) -> Result<(), NoMemory>
        requires { IsWaiting self.old }
        ensures { GoesOn self.old self.new result }
    {
        if self.given < self.deliveries.len() {
            let delivery = self.deliveries[self.given];
            deliver(self.alloc, &mut self.talker, &mut self.listener, delivery)?;
            self.given += 1;
        } else {
            self.listener.close();
            self.stage = Stage::Showing;
        }
        Ok(())
    }
}

impl<'a> Receiver for Hearing<'a> {
    ghost use Rattle.soak_run.specs.state.Hearing.{left_of, pull_at};
    ghost use Rattle.soak_run.specs.state.Showing.{HasShown};

    ghost gave = { HasShown };

    ghost left = { λ hearing. left_of hearing.deliveries.now hearing.listener };

    ghost ended = { λ hearing. pull_at hearing.stage };

    fn next(&mut self) -> Pull {
        loop {
            if let Some(shown) = self.listener.next_out() {
                return Pull::Item(shown);
            }
            match self.stage {
                Stage::Showing => {
                    self.stage = Stage::Ended;
                    return Pull::Done;
                }
                _ => {
                    if self.go_on().is_err() {
                        self.stage = Stage::NoMemory;
                        return Pull::Memory;
                    }
                }
            }
        }
    }
}
