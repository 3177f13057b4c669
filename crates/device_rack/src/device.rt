//! A device, which takes what a listener shows.

ghost use Rattle.std.specs.Prelude.{◌++◌, [], ◌∷◌, IfSome, OnOk, OnErr};
ghost use Rattle.avtp_base.specs.Faults.{IsCounted};
ghost use Rattle.device_rack.specs.Devices.{FailsAsTold};

use avtp_base::Failed;
use sample_schedule::Shown;

/// A device takes the items that a listener shows, one after another. The device counts its own faults.
pub trait Device: Drop {
    ghost use Rattle.std.specs.Prelude.{List, ℕ, Option};
    ghost use Rattle.sample_schedule.specs.declared.shown.Shown.{Shown as ShownValue};

    /// The device has taken these items, in this order. A new device has taken no items.
    ghost took: { Self → List ShownValue → Type 0 };

    /// The number of faults so far; once it has reached the greatest 64-bit number, it stays there.
    ghost faults: { Self → ℕ };

    /// The numbers of the device's future failing calls, if the device reports them; the next call has number 1.
    ghost failing: { Self → Option (List ℕ) };

    /// Takes an item.
    ///
    /// If `Failed` is returned, the count of faults rose and the item was not taken.
    fn take(&mut self, shown: &Shown) -> Result<(), Failed>
        ensures took { OnOk result ((items : List ShownValue) → took self.old items → took self.new (items ++ shown.now ∷ [])) }
        ensures refused { OnErr result ((items : List ShownValue) → took self.old items → took self.new items) }
        ensures counted { IsCounted (faults self.old) (faults self.new) result }
        ensures told { IfSome (failing self.old) (λ numbers. FailsAsTold numbers (failing self.new) result) };
}
