//! The rack.

ghost use Rattle.std.specs.Prelude.{◌<◌, ◌^◌, length};

use crate::place::{Place, hand_each};
use sample_schedule::Shown;

/// The places of several devices.
#[derive(Drop)]
pub struct Rack {
    places: Vec<Place>,
    ghost fit: { length places.items < 2 ^ 32 },
}

impl Rack {
    ghost use Rattle.std.specs.Prelude.{◌≡◌, ◌<◌, ◌^◌, true, length, All};
    ghost use Rattle.device_rack.specs.Racks.{HandsEach, places_of, live_count, failed_count};

    /// A rack of the given places, which are all live. The number of places is less than 2^32. Allocates nothing.
    pub fn over(places: Vec<Place>) -> Self
        requires fit { length places.items < 2 ^ 32 }
        requires live { All (λ place. place.live ≡ true) places.items }
        ensures { places_of result ≡ places.items }
    {
        Rack { places }
    }

    /// The number of live places.
    pub fn live(&self) -> u32
        ensures { result ≡ live_count (places_of self.now) }
    {
        let mut live = 0;
        for place in &self.places {
            if place.live {
                live += 1;
            }
        }
        live
    }

    /// The number of failed places.
    pub fn failed(&self) -> u32
        ensures { result ≡ failed_count (places_of self.now) }
    {
        self.places.len() as u32 - self.live()
    }

    /// Gives an item to each live device, in the order of the places. Returns how many places failed in this call. A
    /// place fails if its device returns `Failed`. From then on, the place is given nothing.
    pub fn hand(&mut self, shown: &Shown) -> u32
        ensures { HandsEach (λ device. took device) (λ device. faults device) (λ device. failing device) shown.now (places_of self.old) (places_of self.new) result }
    {
        hand_each(self.places.as_mut_slice(), shown)
    }
}
