//! What a listener shows of a capture.

ghost use Rattle.std.specs.Prelude.{◌≡◌, ◌<◌, ◌≤◌, ◌+◌, ◌^◌};
ghost use Rattle.listener.specs.state.Listening.{with_record as with_record_of, with_shown as with_shown_of, without_shown as without_shown_of};

use avtp_base::Refusal;
use sample_schedule::Shown;
use std::marker::Model;

/// The items that are shown, in the order in which they are shown. Contracts see the items as a list.
#[derive(Debug, Drop)]
pub struct ShownList {
    items: Vec<Shown>,
}

impl Model for ShownList {
    ghost use Rattle.std.specs.Prelude.{List};
    ghost use Rattle.sample_schedule.specs.declared.shown.Shown.{Shown as ShownValue};

    ghost Value = { List ShownValue };

    ghost view = { λ list. list.items.items };
}

impl ShownList {
    /// The items of the vector. Allocates nothing.
    pub fn over(items: Vec<Shown>) -> Self
        ensures { result ≡ items.items }
    {
        ShownList { items }
    }

    pub fn as_slice(&self) -> &[Shown]
        ensures { result.now ≡ self.now }
    {
        self.items.as_slice()
    }
}

/// How much of a capture a listener saw.
#[derive(Clone, Copy, Debug, PartialEq, Eq)]
pub struct Counts {
    /// The number of whole records.
    pub frames: u64,
    /// The number of records that belong to the stream.
    pub packets: u64,
    /// The number of batches that are presented.
    pub presented: u64,
    /// The number of items that are flagged.
    pub flagged: u64,
}

/// What a listener shows of a capture.
#[derive(Debug, Drop)]
pub struct Heard {
    pub shown: ShownList,
    pub counts: Counts,
    /// The capture's first field that is cut off or refused, if there is one. Only the records before the cut-off or
    /// refused field are heard.
    pub refused: Option<Refusal>,
}

impl Counts {
    /// The counts before the first record.
    pub(crate) fn none() -> Self
        ensures { result ≡ record { frames = 0; packets = 0; presented = 0; flagged = 0 } }
    {
        Counts {
            frames: 0,
            packets: 0,
            presented: 0,
            flagged: 0,
        }
    }

    /// The counts after one more record. `in_stream` says whether the record belongs to the stream.
    pub(crate) fn with_record(self, in_stream: bool) -> Self
        requires within { self.packets ≤ self.frames }
        requires few { self.frames < 2 ^ 63 }
        ensures { result ≡ with_record_of self in_stream }
    {
        Counts {
            frames: self.frames + 1,
            packets: self.packets + u64::from(in_stream),
            ..self
        }
    }

    /// The counts after one more item is shown.
    pub(crate) fn with_shown(self, shown: &Shown) -> Self
        requires { self.presented + self.flagged < self.frames }
        ensures { result ≡ with_shown_of self shown.now }
    {
        match shown {
            Shown::Present(_) => Counts {
                presented: self.presented + 1,
                ..self
            },
            Shown::Flag { .. } => Counts {
                flagged: self.flagged + 1,
                ..self
            },
        }
    }

    /// The counts before this item was shown.
    pub(crate) fn without_shown(self, shown: &Shown) -> Self
        ensures { result ≡ without_shown_of self shown.now }
    {
        match shown {
            Shown::Present(_) => Counts {
                presented: self.presented.saturating_sub(1),
                ..self
            },
            Shown::Flag { .. } => Counts {
                flagged: self.flagged.saturating_sub(1),
                ..self
            },
        }
    }
}
