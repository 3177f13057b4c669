//! Open files by slot number.

ghost use Rattle.std.specs.Prelude.{◌≡◌, ◌^◌, ◌<◌, ◌≤◌, [], vec_len, option_copied};
ghost use Rattle.avtp_files.specs.Entries.{entry_at, FindsFree, SetsEntry, TakesEntry};

use crate::shelf::Slot;
use avtp_base::NoMemory;
use std::alloc::Global;

/// Entries by slot number. A freed slot is used again.
#[derive(Debug, Drop)]
pub struct Slots<T> {
    pub entries: Vec<Option<T>>,
    ghost few: { vec_len entries ≤ 2 ^ 32 },
}

impl<T: Drop> Slots<T> {
    pub fn new(alloc: Global) -> Self
        ensures { result.entries.items ≡ [] }
    {
        Slots {
            entries: Vec::new(alloc),
        }
    }

    /// A slot that is not live.
    pub fn free_slot(&mut self) -> Result<Slot, NoMemory>
        ensures { FindsFree self.old.entries.items self.new.entries.items (vec_len self.new.entries) result }
    {
        if let Some(free) = self.entries.iter().position(|entry| entry.is_none()) {
            return Ok(Slot(free as u32));
        }
        let last = self.entries.len();
        if last > u32::MAX as usize {
            return Err(NoMemory);
        }
        self.entries.push(None)?;
        Ok(Slot(last as u32))
    }

    pub fn get(&self, slot: Slot) -> Option<&T>
        ensures { option_copied result ≡ entry_at self.now.entries.items slot.0 }
    {
        match self.entries.get(slot.0 as usize) {
            Some(Some(entry)) => Some(entry),
            _ => None,
        }
    }

    /// Takes the entry out of a slot, and leaves the slot free.
    pub fn take(&mut self, slot: Slot) -> Option<T>
        requires { slot.0 < vec_len self.old.entries }
        ensures { TakesEntry self.old.entries.items self.new.entries.items (vec_len self.old.entries) (vec_len self.new.entries) slot.0 result }
    {
        self.entries[slot.0 as usize].take()
    }

    /// Replaces the entry of a slot.
    pub fn set(&mut self, slot: Slot, entry: Option<T>)
        requires { slot.0 < vec_len self.old.entries }
        ensures { SetsEntry self.old.entries.items self.new.entries.items slot.0 entry }
    {
        self.entries[slot.0 as usize] = entry;
    }
}
