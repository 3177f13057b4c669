//! Laws of what the devices write, and of what happens when a list of items is given to devices. Each call only states
//! its contract, and does nothing.

ghost use Rattle.std.specs.Prelude.{◌≡◌, List, All, map};
ghost use Rattle.std.specs.List.{AllZip};
ghost use Rattle.sample_schedule.specs.declared.shown.Shown.{Shown};
ghost use Rattle.device_rack.specs.Handed.{AreHanded, HandsAll};
ghost use Rattle.device_rack.specs.Laws.{IsCarried, nal_units_of};
ghost use Rattle.device_rack.specs.RawOutput.{annexb, units};
ghost use Rattle.device_rack.specs.Racks.{places_of};

use crate::rack::Rack;

/// If a byte stream can carry each unit, the NAL units of the output are exactly the units that were taken, in their order.
pub fn units_again()
    ensures { (items : List Shown) → All (λ unit. IsCarried unit.bytes) (units items) → nal_units_of (annexb items) ≡ map (λ unit. unit.bytes) (units items) }
{}

/// Assume that the rack was given the items of a list one after another. If a device is live at the end, it took all
/// items, and its count of faults is unchanged. If a device failed, it took a proper prefix of the items, and its count
/// rose. A place that had failed before is unchanged. Take a device that reported the numbers of its future failing
/// calls. That device failed if and only if one of these numbers is at most the number of items.
pub fn lists_are_handed(before: &Rack, after: &Rack)
    ensures { (items : List Shown) → HandsAll (λ device. took device) (λ device. faults device) (λ device. failing device) items (places_of before.now) (places_of after.now) → AllZip (AreHanded (λ device. took device) (λ device. faults device) (λ device. failing device) items) (places_of before.now) (places_of after.now) }
{}
