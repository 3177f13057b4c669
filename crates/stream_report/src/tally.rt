//! How often something was seen, and the frame where it was first seen.

ghost use Rattle.std.specs.Prelude.{◌≡◌, ◌==◌, ◌+◌, ◌-◌, ◌^◌, min, None, Some, if◌then◌else◌};
ghost use Rattle.std.specs.Option.{option_or};

/// A frame: the number of its file, and the number of the frame in that file. The file number and the frame number are
/// both counted from 1.
#[derive(Clone, Copy, PartialEq, Eq)]
pub struct At {
    pub file: u32,
    pub frame: u64,
}

/// The number of times that something was seen, and the frame in which it was seen first.
#[derive(Clone, Copy)]
pub struct Tally {
    pub count: u64,
    /// The first frame; `None` while the count is 0.
    pub first: Option<At>,
}

impl Tally {
    pub const NONE: Tally = Tally {
        count: 0,
        first: None,
    };

    /// Adds one to the count, for the frame `at`.
    pub fn note(&mut self, at: At)
        ensures count { self.new.count ≡ min (self.old.count + 1) (2 ^ 64 - 1) }
        ensures first { self.new.first ≡ option_or self.old.first (Some at) }
    {
        self.add(1, at);
    }

    /// Adds `more` to the count, for the frame `at`.
    pub fn add(&mut self, more: u64, at: At)
        ensures count { self.new.count ≡ min (self.old.count + more) (2 ^ 64 - 1) }
        ensures first { self.new.first ≡ (if more == 0 then self.old.first else option_or self.old.first (Some at)) }
    {
        self.count = self.count.saturating_add(more);
        if more > 0 && self.first.is_none() {
            self.first = Some(at);
        }
    }

    /// Subtracts one from the count, because a packet that was counted as missing has arrived late.
    pub fn take_back(&mut self)
        ensures count { self.new.count ≡ self.old.count - 1 }
        ensures first { self.new.first ≡ (if self.new.count == 0 then None else self.old.first) }
    {
        self.count = self.count.saturating_sub(1);
        if self.count == 0 {
            self.first = None;
        }
    }
}
