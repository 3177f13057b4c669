//! Devices in memory, by themselves and in a rack.

use crate::items::late;
use device_rack::{Device, MemoryDevice, Place, Rack};
use sample_schedule::Shown;
use std::test::Fail;

#[test]
fn a_device_keeps_what_it_does_not_refuse(rt: HostRuntime) -> Result<(), Fail> {
    let mut device = MemoryDevice::over(rt.alloc(), vec![in rt.alloc(); 2]?);
    assert!(rt; device.take(&late(1)).is_ok());
    assert!(rt; device.take(&late(2)).is_err());
    assert!(rt; device.take(&late(3)).is_ok());
    match device.taken() {
        [Shown::Flag { frame: 1, .. }, Shown::Flag { frame: 3, .. }] => Ok(()),
        _ => Err("other items")?,
    }
}

#[test]
fn one_device_fails_and_the_other_goes_on(rt: HostRuntime) -> Result<(), Fail> {
    let alloc = rt.alloc();
    let mut places = Vec::new(alloc);
    places.push(Place {
        device: Box::new(alloc, MemoryDevice::over(alloc, vec![in alloc; 2]?))?,
        live: true,
    })?;
    places.push(Place {
        device: Box::new(alloc, MemoryDevice::over(alloc, Vec::new(alloc)))?,
        live: true,
    })?;
    let mut rack = Rack::over(places);
    assert_eq!(rt; rack.hand(&late(1)), 0);
    assert_eq!(rt; rack.hand(&late(2)), 1);
    assert_eq!(rt; rack.hand(&late(3)), 0);
    assert_eq!(rt; (rack.live(), rack.failed()), (1, 1));
    Ok(())
}
