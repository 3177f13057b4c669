//! Counts of what becomes of deliveries.

ghost use Rattle.std.specs.Prelude.{◌≡◌, []};
ghost use Rattle.soak_run.specs.state.Counting.{with_flag as with_flag_of, with_shown as with_shown_of};
ghost use Rattle.soak_run.specs.Outcomes.{outcomes};

use avtp_base::Failed;
use presenter_ring::Presenter;
use sample_schedule::{Reason, Shown};

/// How many deliveries of a stream have each outcome. As a presenter, this type counts the items that it gets. Each
/// count stops at 2^64 - 1, because a presenter can get any number of items. No count of `soak` reaches 2^64 - 1.
#[derive(Clone, Copy, Debug, PartialEq, Eq)]
pub struct SoakCounts {
    /// The number of deliveries, which are the packets that arrive. A packet that arrives twice counts twice.
    pub delivered: u64,
    /// The deliveries that are presented.
    pub presented: u64,
    /// The deliveries whose presentation time had passed when they arrived.
    pub late: u64,
    /// The deliveries of a packet that was accepted before.
    pub repeat: u64,
    /// The deliveries without a known timestamp.
    pub untimed: u64,
    /// The deliveries for which the buffer had no room.
    pub full: u64,
}

impl SoakCounts {
    /// The counts for this many deliveries, before any item is shown.
    pub(crate) fn of(delivered: u64) -> Self
        ensures { result ≡ outcomes delivered [] }
    {
        SoakCounts {
            delivered,
            presented: 0,
            late: 0,
            repeat: 0,
            untimed: 0,
            full: 0,
        }
    }

    /// The counts after one more item was shown.
    fn with_shown(self, shown: &Shown) -> Self
        ensures { result ≡ with_shown_of self shown.now }
    {
        match shown {
            Shown::Present(_) => SoakCounts {
                presented: self.presented.saturating_add(1),
                ..self
            },
            Shown::Flag { reason, .. } => self.with_flag(*reason),
        }
    }

    /// The counts after one more item was flagged.
    fn with_flag(self, reason: Reason) -> Self
        ensures { result ≡ with_flag_of self reason }
    {
        match reason {
            Reason::Late => SoakCounts {
                late: self.late.saturating_add(1),
                ..self
            },
            Reason::Repeat => SoakCounts {
                repeat: self.repeat.saturating_add(1),
                ..self
            },
            Reason::Untimed => SoakCounts {
                untimed: self.untimed.saturating_add(1),
                ..self
            },
            Reason::Full => SoakCounts {
                full: self.full.saturating_add(1),
                ..self
            },
            _ => self,
        }
    }
}

impl Presenter for SoakCounts {
    ghost use Rattle.std.specs.Prelude.{◌≡◌};
    ghost use Rattle.soak_run.specs.state.Counting.{with_all};

    ghost handed = { λ begun now items. now ≡ with_all begun items };

    ghost faults = { λ _. 0 };

    fn present(&mut self, shown: &Shown) -> Result<(), Failed> {
        *self = self.with_shown(shown);
        Ok(())
    }
}
