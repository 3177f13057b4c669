//! A listener as one side of a pair.

ghost use Rattle.std.specs.Prelude.{◌≡◌, false};
ghost use Rattle.listener.specs.Feeding.{is_ended};
ghost use Rattle.listener.specs.Listening.{is_closed};

use avtp_base::Bytes;
use listener::{Listener, RecordListener};
use sample_schedule::Shown;

/// One of two listeners. A listener is asked for the items that it shows, one at a time.
pub trait Source {
    ghost use Rattle.std.specs.Prelude.{◌≡◌, ◌+◌, ◌≤◌, List, ℕ, IfNone, length, slice_get};
    ghost use Rattle.std.specs.Option.{option_to_list};
    ghost use Rattle.sample_schedule.specs.declared.shown.Shown.{Shown as ShownValue};
    ghost use Rattle.capture_pair.specs.Sources.{Kept, Taken};

    /// The listener took these records or bytes, shows this list of items from them, and has shown this many items of
    /// the list so far.
    ghost shows: { Self → Taken → List ShownValue → ℕ → Type 0 };

    /// The listener has shown all items that are known so far.
    ghost is_quiet: { Self → Type 0 };

    /// What does not change while the listener is asked for items.
    ghost kept: { Self → Kept };

    /// The maximum number of items that the listener can still show.
    ghost work: { Self → ℕ };

    /// The listener shows a list of items from what it has taken so far. The call returns the next item of this list,
    /// or `None` if and only if all items of the list were shown. The listener reuses the memory of `spent`.
    fn next_out(&mut self, spent: Option<Bytes>) -> Option<Shown>
        ensures given { (taken : Taken) (list : List ShownValue) (n : ℕ) → shows self.old taken list n → result ≡ slice_get list n }
        ensures shows { (taken : Taken) (list : List ShownValue) (n : ℕ) → shows self.old taken list n → shows self.new taken list (n + length (option_to_list result)) }
        ensures quiet { IfNone result (is_quiet self.new) }
        ensures kept { kept self.new ≡ kept self.old }
        ensures less { work self.new + length (option_to_list result) ≤ work self.old };

    /// Whether the listener takes no more input. If the listener takes no more input, it shows all items that are left.
    fn has_ended(&self) -> bool
        ensures { result ≡ (kept self.now).ended };
}

/// A listener of records, and whether it was closed.
#[derive(Drop)]
pub struct RecordSource {
    pub listener: RecordListener,
    pub closed: bool,
    ghost closes: { closed ≡ is_closed listener },
}

impl Source for RecordSource {
    ghost use Rattle.listener.specs.Listening.{IsIdle, work as work_of};
    ghost use Rattle.capture_pair.specs.state.Sides.{ShowsRecords, kept_of_records};

    ghost shows = { λ s taken list n. ShowsRecords s.listener taken list n };

    ghost is_quiet = { λ s. IsIdle s.listener };

    ghost kept = { λ s. kept_of_records s.listener };

    ghost work = { λ s. work_of s.listener };

    fn next_out(&mut self, spent: Option<Bytes>) -> Option<Shown> {
        if let Some(samples) = spent {
            self.listener.give_back(samples);
        }
        self.listener.next_out()
    }

    fn has_ended(&self) -> bool {
        self.closed
    }
}

/// A listener of bytes, with two facts: whether the listener's capture has ended, and whether the listener ran out of
/// memory.
#[derive(Drop)]
pub struct ByteSource {
    pub listener: Listener,
    pub ended: bool,
    pub out_of_memory: bool,
    ghost ends: { ended ≡ is_ended listener },
    ghost spent: { ended ≡ false → out_of_memory ≡ listener.out_of_memory },
}

impl Source for ByteSource {
    ghost use Rattle.listener.specs.Feeding.{IsQuiet, work as work_of};
    ghost use Rattle.capture_pair.specs.state.Sides.{ShowsBytes, kept_of_bytes};

    ghost shows = { λ s taken list n. ShowsBytes s.listener taken list n };

    ghost is_quiet = { λ s. IsQuiet s.listener };

    ghost kept = { λ s. kept_of_bytes s.listener };

    ghost work = { λ s. work_of s.listener };

    fn next_out(&mut self, spent: Option<Bytes>) -> Option<Shown> {
        if let Some(samples) = spent {
            self.listener.give_back(samples);
        }
        self.listener.next_out()
    }

    fn has_ended(&self) -> bool {
        self.ended
    }
}
