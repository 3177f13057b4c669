//! A device in memory, which fails at chosen calls.

ghost use Rattle.std.specs.Prelude.{◌≡◌, IfOk};

use crate::device::Device;
use avtp_base::{Bytes, Failed, NoMemory};
use sample_schedule::{Batch, Shown};
use std::alloc::Global;

/// Keeps copies of the items that it takes. The device is made with a list of call numbers, and its calls are numbered
/// from 1. A call fails if its number is in the list of call numbers.
///
/// If there is no memory to keep an item, the device takes this item and all later items without keeping them.
#[derive(Drop)]
pub struct MemoryDevice {
    alloc: Global,
    items: Vec<Shown>,
    is_cut: bool,
    fails: Vec<u64>,
    calls: u64,
    faults: u64,
}

/// A copy of a batch.
fn copy_of_batch(alloc: Global, batch: &Batch) -> Result<Batch, NoMemory>
    ensures { IfOk result (λ copy. copy ≡ batch.now) }
{
    let bytes = Vec::from_slice(alloc, batch.bytes.as_slice())?;
    Ok(Batch {
        frame: batch.frame,
        seq: batch.seq,
        line: batch.line,
        from: batch.from,
        count: batch.count,
        bytes: Bytes::over(bytes),
    })
}

/// A copy of an item.
fn copy_of(alloc: Global, shown: &Shown) -> Result<Shown, NoMemory>
    ensures { IfOk result (λ copy. copy ≡ shown.now) }
{
    match shown {
        Shown::Present(batch) => {
            let copy = copy_of_batch(alloc, batch)?;
            Ok(Shown::Present(copy))
        }
        Shown::Flag { frame, seq, reason } => Ok(Shown::Flag {
            frame: *frame,
            seq: *seq,
            reason: *reason,
        }),
    }
}

impl MemoryDevice {
    ghost use Rattle.std.specs.Prelude.{◌≡◌, [], ◌∷◌, ◌++◌, List};
    ghost use Rattle.sample_schedule.specs.declared.shown.Shown.{Shown as ShownValue};
    ghost use Rattle.device_rack.specs.MemoryDevice.{IsNewMemory, kept_items};
    ghost use Rattle.device_rack.specs.state.MemoryDevice.{CountsCall, HasTaken, KeepsCalls};

    /// A device that has taken nothing. `fails` lists the numbers of the calls that will fail. Allocates nothing.
    pub fn over(alloc: Global, fails: Vec<u64>) -> Self
        ensures { IsNewMemory fails.items result }
    {
        MemoryDevice {
            alloc,
            items: Vec::new(alloc),
            is_cut: false,
            fails,
            calls: 0,
            faults: 0,
        }
    }

    /// The items that were kept.
    pub fn taken(&self) -> &[Shown]
        ensures { result.now ≡ kept_items self.now }
    {
        self.items.as_slice()
    }

    /// Counts the next call, and says whether it fails.
    fn next_fails(&mut self) -> bool
        ensures { CountsCall self.old self.new result }
    {
        let fails = self.fails.as_slice();
        match self.calls.checked_add(1) {
            Some(number) => {
                self.calls = number;
                fails.contains(&number)
            }
            None => false,
        }
    }

    /// Keeps a copy of an item, unless memory has run out.
    fn keep(&mut self, shown: &Shown)
        ensures taken { (items : List ShownValue) → HasTaken self.old items → HasTaken self.new (items ++ shown.now ∷ []) }
        ensures calls { KeepsCalls self.old self.new }
    {
        if self.is_cut {
            return;
        }
        match copy_of(self.alloc, shown) {
            Ok(copy) => self.is_cut = self.items.push(copy).is_err(),
            Err(NoMemory) => self.is_cut = true,
        }
    }
}

impl Device for MemoryDevice {
    ghost use Rattle.std.specs.Prelude.{Some};
    ghost use Rattle.device_rack.specs.MemoryDevice.{failing_calls, fault_count};
    ghost use Rattle.device_rack.specs.state.MemoryDevice.{HasTaken};

    ghost took = { HasTaken };

    ghost faults = { fault_count };

    ghost failing = { λ device. Some (failing_calls device) };

    /// The device was made with a list of call numbers. The call fails if its number is in this list.
    fn take(&mut self, shown: &Shown) -> Result<(), Failed> {
        if self.next_fails() {
            self.faults = self.faults.saturating_add(1);
            return Err(Failed);
        }
        self.keep(shown);
        Ok(())
    }
}
