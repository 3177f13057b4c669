//! The data of a stream's pictures: its leads and arrival distances over time, in columns that become wider as time goes on.

use avtp_base::NoMemory;
use std::alloc::Global;
use std::mem;

/// The maximum number of columns of a stream. If a stream has this many columns when a packet is noted, the columns
/// first become twice as wide, and neighboring columns are merged.
const MOST_COLUMNS: usize = 512;

/// At first, each column is 2^16 ns wide, some 66 microseconds.
const FIRST_SHIFT: u32 = 16;

/// Columns become at most 2^62 ns wide.
const LAST_SHIFT: u32 = 62;

/// The least and the greatest of some values.
#[derive(Clone, Copy)]
pub struct Range {
    pub least: i64,
    pub greatest: i64,
}

impl Range {
    pub fn of(value: i64) -> Range {
        Range {
            least: value,
            greatest: value,
        }
    }

    /// The smallest range that includes both ranges.
    pub fn with(self, other: Range) -> Range {
        Range {
            least: self.least.min(other.least),
            greatest: self.greatest.max(other.greatest),
        }
    }
}

fn either(one: Option<Range>, other: Option<Range>) -> Option<Range> {
    match (one, other) {
        (Some(one), Some(other)) => Some(one.with(other)),
        (one, None) => one,
        (None, other) => other,
    }
}

/// The packets of one interval of time.
#[derive(Clone, Copy)]
pub struct Column {
    /// The index of the interval, which begins `slot` column widths after the arrival of the capture's first frame.
    pub slot: u64,
    pub lead: Option<Range>,
    pub distance: Option<Range>,
    /// The number of packets that are missing directly before packets of the interval. `take_back` subtracts packets
    /// that arrived late.
    pub lost: u64,
}

impl Column {
    fn join(&mut self, other: &Column) {
        self.lead = either(self.lead, other.lead);
        self.distance = either(self.distance, other.distance);
        self.lost = self.lost.saturating_add(other.lost);
    }
}

/// A stream over time. The range of a column includes each value of the column, so no peak is lost when columns are
/// merged.
#[derive(Drop)]
pub struct Trace {
    columns: Vec<Column>,
    shift: u32,
}

impl Trace {
    pub fn new(alloc: Global) -> Self {
        Trace {
            columns: Vec::new(alloc),
            shift: FIRST_SHIFT,
        }
    }

    /// The columns, in order of time.
    pub fn columns(&self) -> &[Column] {
        self.columns.as_slice()
    }

    /// The width of a column, in nanoseconds.
    pub fn width(&self) -> u64 {
        1u64.checked_shl(self.shift).unwrap_or(u64::MAX)
    }

    /// Notes a packet that arrived `since` nanoseconds after the capture's first frame.
    pub fn note(&mut self, since: u64, mut added: Column) -> Result<(), NoMemory> {
        for _ in FIRST_SHIFT..LAST_SHIFT {
            if self.columns.len() < MOST_COLUMNS {
                break;
            }
            self.halve()?;
        }
        added.slot = since.checked_shr(self.shift).unwrap_or(0);
        self.add(added)
    }

    /// Subtracts one missing packet, which arrived late, from the newest column that has missing packets.
    pub fn take_back(&mut self) {
        for column in self.columns.iter_mut().rev() {
            if column.lost > 0 {
                column.lost = column.lost.saturating_sub(1);
                return;
            }
        }
    }

    /// Makes the columns twice as wide.
    fn halve(&mut self) -> Result<(), NoMemory> {
        let alloc = *self.columns.allocator();
        let old = mem::replace(&mut self.columns, Vec::with_capacity(alloc, MOST_COLUMNS)?);
        self.shift = self.shift.saturating_add(1);
        for column in old.iter() {
            let mut wider = *column;
            wider.slot /= 2;
            self.add(wider)?;
        }
        Ok(())
    }

    /// Appends `column`. If `column` is not later than the last column, the two columns are joined.
    fn add(&mut self, column: Column) -> Result<(), NoMemory> {
        if let Some(last) = self.columns.last_mut() {
            if last.slot >= column.slot {
                last.join(&column);
                return Ok(());
            }
        }
        self.columns.push(column)?;
        Ok(())
    }
}
