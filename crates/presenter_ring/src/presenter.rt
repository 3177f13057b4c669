//! Where the items go.

ghost use Rattle.std.specs.Prelude.{◌≡◌, ◌++◌, [], ◌∷◌};
ghost use Rattle.avtp_base.specs.Faults.{IsCounted};

use avtp_base::Failed;
use sample_schedule::Shown;

/// Takes items one at a time, and counts its faults.
pub trait Presenter: Send {
    ghost use Rattle.std.specs.Prelude.{List, ℕ};
    ghost use Rattle.sample_schedule.specs.declared.shown.Shown.{Shown as ShownValue};

    /// Giving these items, in this order, took the presenter from the first state to the second state.
    ghost handed: { Self → Self → List ShownValue → Type 0 };

    /// The number of faults so far; once it has reached the greatest 64-bit number, it stays there.
    ghost faults: { Self → ℕ };

    /// Presents an item. Returns `Failed` only if the count of faults rose; even then the item counts as presented.
    fn present(&mut self, shown: &Shown) -> Result<(), Failed>
        ensures handed { (begun : Self) (items : List ShownValue) → handed begun self.old items → handed begun self.new (items ++ shown.now ∷ []) }
        ensures counted { IsCounted (faults self.old) (faults self.new) result };

    /// Called when there is nothing more to present for now. A presenter that buffers output should write the output
    /// now. Returns `Failed` only if the count of faults rose.
    fn pause(&mut self) -> Result<(), Failed>
        ensures handed { (begun : Self) (items : List ShownValue) → handed begun self.old items → handed begun self.new items }
        ensures counted { IsCounted (faults self.old) (faults self.new) result }
    {
        Ok(())
    }
}
