//! How the batches that two listeners present differ.

/// One of two listeners.
#[derive(Clone, Copy, Debug, PartialEq, Eq)]
pub enum Which {
    A,
    B,
}

/// How two batches of the same packet differ.
#[derive(Clone, Copy, Debug, PartialEq, Eq)]
pub enum Way {
    /// The batch of A has `a` samples, and the batch of B has `b` samples.
    Count { a: u32, b: u32 },
    /// The sample with the number `sample` is presented at `a` in the batch of A and at `b` in the batch of B, in
    /// nanoseconds of gPTP.
    At { sample: u32, a: i64, b: i64 },
    /// The bytes of the sample with the number `sample` differ.
    Bytes { sample: u32 },
}

/// Two batches that are paired and differ: the numbers of their frames in the two captures, counted from 1; their
/// sequence number; and how they differ.
#[derive(Clone, Copy, Debug, PartialEq, Eq)]
pub struct Difference {
    pub frame_a: u64,
    pub frame_b: u64,
    pub seq: u8,
    pub way: Way,
}

/// How many pairs there are, how many batches of A and of B are in no pair, and how many pairs differ.
#[derive(Clone, Copy, Debug, PartialEq, Eq)]
pub struct PairCounts {
    pub matched: u64,
    pub only_a: u64,
    pub only_b: u64,
    pub differ: u64,
}

impl PairCounts {
    ghost use Rattle.std.specs.Prelude.{◌≡◌};
    ghost use Rattle.listener_pair.specs.state.Window.{with_alone, with_pair};

    /// The counts before the first batch.
    pub(crate) fn none() -> Self
        ensures { result ≡ record { matched = 0; only_a = 0; only_b = 0; differ = 0 } }
    {
        PairCounts {
            matched: 0,
            only_a: 0,
            only_b: 0,
            differ: 0,
        }
    }

    /// The counts after one more batch of `side`. The added batch is in no pair.
    pub(crate) fn with_alone(self, side: Which) -> Self
        ensures { result ≡ with_alone side self }
    {
        match side {
            Which::A => PairCounts {
                only_a: self.only_a.saturating_add(1),
                ..self
            },
            Which::B => PairCounts {
                only_b: self.only_b.saturating_add(1),
                ..self
            },
        }
    }

    /// The counts after one more pair. The pair consists of a new batch of `side` and a batch of the other side that
    /// was in no pair. `differs` says whether the pair differs.
    pub(crate) fn with_pair(self, side: Which, differs: bool) -> Self
        ensures { result ≡ with_pair side differs self }
    {
        let matched = self.matched.saturating_add(1);
        let differ = if differs {
            self.differ.saturating_add(1)
        } else {
            self.differ
        };
        match side {
            Which::A => PairCounts {
                matched,
                differ,
                only_b: self.only_b.saturating_sub(1),
                ..self
            },
            Which::B => PairCounts {
                matched,
                differ,
                only_a: self.only_a.saturating_sub(1),
                ..self
            },
        }
    }
}
