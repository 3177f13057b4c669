//! The devices of a program: at most one that writes raw samples, and at most one that writes units.

ghost use Rattle.device_rack.specs.Outlets.{Both, IsHandedTo};
ghost use Rattle.device_rack.specs.OutputFiles.{AreLive};
ghost use Rattle.device_rack.specs.state.Outlets.{CountsFailed};

use crate::annex_b::AnnexBDevice;
use crate::device::Device;
use crate::devices::Devices;
use crate::outlet::Outlet;
use crate::raw::RawDevice;
use avtp_files::Sink;
use sample_schedule::Shown;

/// At most one device that writes raw samples, and at most one device that writes units.
#[derive(Drop)]
pub struct OutputFiles<S> {
    raw: Option<Outlet<RawDevice<S>>>,
    units: Option<Outlet<AnnexBDevice<S>>>,
}

impl<S: Sink + Drop> OutputFiles<S> {
    ghost use Rattle.device_rack.specs.OutputFiles.{AreNew};

    /// The given devices, all of them live.
    pub fn over(raw: Option<RawDevice<S>>, units: Option<AnnexBDevice<S>>) -> Self
        ensures { AreNew raw units result }
    {
        OutputFiles {
            raw: live(raw),
            units: live(units),
        }
    }
}

impl<S: Sink + Drop> Devices for OutputFiles<S> {
    ghost use Rattle.device_rack.specs.OutputFiles.{AreOutput, failures_of};

    ghost handed = { λ begun now items. AreOutput S.state items begun now };

    ghost failures = { λ outputs. failures_of outputs };

    fn hand_on(&mut self, shown: &Shown) {
        hand(&mut self.raw, shown);
        hand(&mut self.units, shown);
    }

    fn count_failed(&self) -> u32 {
        count(&self.raw) + count(&self.units)
    }
}

/// The device as a live outlet, if there is a device.
fn live<D: Device>(device: Option<D>) -> Option<Outlet<D>>
    ensures { AreLive device result }
{
    match device {
        Some(device) => Some(Outlet::over(device)),
        None => None,
    }
}

/// Gives an item to the device, if there is a live device.
fn hand<D: Device>(outlet: &mut Option<Outlet<D>>, shown: &Shown)
    ensures { Both (IsHandedTo D.took D.faults D.failing shown.now) outlet.old outlet.new }
{
    if let Some(outlet) = outlet {
        outlet.hand(shown);
    }
}

/// 1 for a device that has failed, else 0.
fn count<D: Device>(outlet: &Option<Outlet<D>>) -> u32
    ensures { CountsFailed outlet.now result }
{
    match outlet {
        Some(outlet) if !outlet.is_live() => 1,
        _ => 0,
    }
}
