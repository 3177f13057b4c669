//! A place of a rack.

ghost use Rattle.std.specs.Prelude.{◌<◌, ◌^◌, length};
ghost use Rattle.device_rack.specs.Racks.{HandsEach};
ghost use Rattle.device_rack.specs.state.Racks.{HandsPlace};

use crate::device::Device;
use sample_schedule::Shown;

/// A device, and whether it is live. A place that is not live has failed. A boxed device has a type of its own, which
/// no model of the rack could name. For this reason, contracts see a rack as the list of its places.
#[derive(Drop)]
pub struct Place {
    pub device: Box<dyn Device + Send>,
    pub live: bool,
}

/// Gives an item to the place if it is live. Returns whether the place failed in this call.
fn hand(place: &mut Place, shown: &Shown) -> bool
    ensures { HandsPlace (λ device. took device) (λ device. faults device) (λ device. failing device) shown.now place.old place.new result }
{
    if !place.live {
        return false;
    }
    place.live = place.device.take(shown).is_ok();
    !place.live
}

/// Gives an item to each live place, in the order of the places. Returns how many places failed in this call.
pub fn hand_each(places: &mut [Place], shown: &Shown) -> u32
    requires { length places.old < 2 ^ 32 }
    ensures { HandsEach (λ device. took device) (λ device. faults device) (λ device. failing device) shown.now places.old places.new result }
{
    let mut failures = 0;
    for place in places.iter_mut() {
        failures += u32::from(hand(place, shown));
    }
    failures
}
