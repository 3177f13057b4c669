//! A device that is given items until it fails.

ghost use Rattle.std.specs.Prelude.{◌≡◌, false, true};
ghost use Rattle.device_rack.specs.Outlets.{IsHandedTo, IsLive};

use crate::device::Device;
use sample_schedule::Shown;

/// A device, and whether it is live: a device that has failed is given nothing more.
#[derive(Drop)]
pub struct Outlet<D> {
    device: D,
    live: bool,
}

impl<D: Device> Outlet<D> {
    /// A live device.
    pub fn over(device: D) -> Self
        ensures { IsLive device result }
    {
        Outlet { device, live: true }
    }

    /// Whether the device has not failed.
    pub fn is_live(&self) -> bool
        ensures { result ≡ self.now.live }
    {
        self.live
    }

    /// Gives the device an item, if it is live.
    pub fn hand(&mut self, shown: &Shown)
        ensures { IsHandedTo D.took D.faults D.failing shown.now self.old self.new }
    {
        if self.live {
            self.live = self.device.take(shown).is_ok();
        }
    }
}
