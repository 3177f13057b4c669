//! Devices that are given the items that a listener shows.

ghost use Rattle.std.specs.Prelude.{◌≡◌, ◌++◌, [], ◌∷◌};

use crate::device::Device;
use crate::rack::Rack;
use sample_schedule::Shown;

/// Devices that are given what is shown, item by item.
pub trait Devices {
    ghost use Rattle.std.specs.Prelude.{List, ℕ};
    ghost use Rattle.sample_schedule.specs.declared.shown.Shown.{Shown as ShownValue};

    /// The devices were in the first state, were given these items in this order, and are now in the second state.
    ghost handed: { Self → Self → List ShownValue → Type 0 };

    /// How many of the devices have failed.
    ghost failures: { Self → ℕ };

    /// Gives an item to each of the devices that has not failed.
    fn hand_on(&mut self, shown: &Shown)
        ensures { (begun : Self) (items : List ShownValue) → handed begun self.old items → handed begun self.new (items ++ shown.now ∷ []) };

    /// How many of the devices have failed.
    fn count_failed(&self) -> u32
        ensures { result ≡ failures self.now };
}

impl Devices for Rack {
    ghost use Rattle.device_rack.specs.Handed.{HandsAll};
    ghost use Rattle.device_rack.specs.Racks.{failed_count, places_of};

    ghost handed = { λ begun now items. HandsAll (λ device. (Device-box device).took device.value) (λ device. (Device-box device).faults device.value) (λ device. (Device-box device).failing device.value)
        items (places_of begun) (places_of now) };

    ghost failures = { λ rack. failed_count (places_of rack) };

    fn hand_on(&mut self, shown: &Shown) {
        self.hand(shown);
    }

    fn count_failed(&self) -> u32 {
        self.failed()
    }
}
