//! A rack of three devices that note what they take.

ghost use Rattle.std.specs.Prelude.{◌≡◌, true, IfOk};

use avtp_base::{Failed, NoMemory};
use device_rack::{Device, MemoryDevice, Place, Rack};
use sample_schedule::Shown;
use std::alloc::Global;
use std::sync::Arc;
use std::sync::atomic::{AtomicU64, Ordering};

/// What was done to each of the three devices. The digits of a number in `frames` are the frame numbers of the items that
/// the device took, in order. A number in `drops` counts how often the device was dropped.
#[derive(Drop)]
pub struct Notes {
    frames: [AtomicU64; 3],
    drops: [AtomicU64; 3],
}

/// Three counts, all zero.
fn zeros() -> [AtomicU64; 3] {
    [AtomicU64::new(0), AtomicU64::new(0), AtomicU64::new(0)]
}

fn frame_of(shown: &Shown) -> u64 {
    match shown {
        Shown::Present(batch) => batch.frame,
        Shown::Flag { frame, .. } => *frame,
    }
}

impl Notes {
    /// For each device, a number whose digits are the frame numbers of the items that the device took, in order. If the
    /// device was not dropped exactly once, its number is `u64::MAX`.
    pub fn taken(&self) -> [u64; 3] {
        [self.taken_by(0), self.taken_by(1), self.taken_by(2)]
    }

    fn taken_by(&self, device: usize) -> u64 {
        match (self.frames.get(device), self.drops.get(device)) {
            (Some(frames), Some(drops)) if drops.load(Ordering::SeqCst) == 1 => {
                frames.load(Ordering::SeqCst)
            }
            _ => u64::MAX,
        }
    }

    fn note(&self, device: usize, frame: u64) {
        if let Some(frames) = self.frames.get(device) {
            let before = frames.load(Ordering::SeqCst);
            frames.store(
                before.wrapping_mul(10).wrapping_add(frame),
                Ordering::SeqCst,
            );
        }
    }

    fn note_drop(&self, device: usize) {
        if let Some(drops) = self.drops.get(device) {
            drops.fetch_add(1, Ordering::SeqCst);
        }
    }
}

/// A device that records what is done to the device. The record is in memory that the device shares with the test.
struct Noting {
    device: MemoryDevice,
    place: usize,
    notes: Arc<Notes, Global>,
}

impl Drop for Noting {
    fn drop(self) {
        self.notes.note_drop(self.place);
        let Noting {
            device: _,
            place: _,
            notes: _,
        } = self;
    }
}

impl Device for Noting {
    ghost use Rattle.std.specs.Prelude.{Some};
    ghost use Rattle.device_rack.specs.MemoryDevice.{failing_calls, fault_count};
    ghost use Rattle.device_rack.specs.state.MemoryDevice.{HasTaken};

    ghost took = { λ noting. HasTaken noting.device };

    ghost faults = { λ noting. fault_count noting.device };

    ghost failing = { λ noting. Some (failing_calls noting.device) };

    fn take(&mut self, shown: &Shown) -> Result<(), Failed> {
        self.device.take(shown)?;
        self.notes.note(self.place, frame_of(shown));
        Ok(())
    }
}

/// The device number `place` of a rack. Call number `fails` of the device fails.
fn device_at(
    alloc: Global,
    notes: &Arc<Notes, Global>,
    place: usize,
    fails: u64,
) -> Result<Place, NoMemory>
    ensures { IfOk result (λ place. place.live ≡ true) }
{
    let device = Noting {
        device: MemoryDevice::over(alloc, Vec::from_slice(alloc, &[fails])?),
        place,
        notes: Arc::try_clone(notes)?,
    };
    Ok(Place {
        device: Box::new(alloc, device)?,
        live: true,
    })
}

/// A rack of devices, and what is noted of them. For each device, `fails` has the number of the call that fails.
pub fn rack_of(alloc: Global, fails: [u64; 3]) -> Result<(Rack, Arc<Notes, Global>), NoMemory> {
    let notes = Arc::new(
        alloc,
        Notes {
            frames: zeros(),
            drops: zeros(),
        },
    )?;
    let mut places = Vec::new(alloc);
    places.push(device_at(alloc, &notes, 0, fails[0])?)?;
    places.push(device_at(alloc, &notes, 1, fails[1])?)?;
    places.push(device_at(alloc, &notes, 2, fails[2])?)?;
    Ok((Rack::over(places), notes))
}
