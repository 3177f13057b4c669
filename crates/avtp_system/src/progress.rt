//! The progress that a long run shows on a terminal.

use avtp_base::{Failed, OpenFault};
use avtp_files::{Shelf, Slot};
use std::io::{Eprint, IsTerminal};
use std::sync::atomic::{AtomicBool, Ordering};
use std::time::{Duration, Instant};

/// The time in milliseconds before a run first shows how much it has read.
const FIRST: u64 = 1000;

/// The time in milliseconds from one update of the progress to the next.
const AGAIN: u64 = 100;

/// A line on standard error that says how much was read, such as `12.3 MB read`.
///
/// The cursor stays at the start of the progress line. Each line that reports a fault is at least as long as the
/// progress line, and thus covers it.
#[derive(Drop)]
pub struct ProgressLine {
    rt: HostRuntime,
    is_shown: AtomicBool,
}

impl ProgressLine {
    pub fn new(rt: HostRuntime) -> Self {
        ProgressLine {
            rt,
            is_shown: AtomicBool::new(false),
        }
    }

    fn show(&self, bytes: u64) {
        let (whole, tenths) = (bytes / 1_000_000, bytes / 100_000 % 10);
        self.is_shown.store(true, Ordering::SeqCst);
        let _ = eprint!(self.rt; "{whole}.{tenths} MB read\r");
    }

    /// If the line is shown, makes it blank.
    pub fn remove(&self) {
        if self.is_shown.swap(false, Ordering::SeqCst) {
            let _ = eprint!(self.rt; "                    \r");
        }
    }
}

/// How much a run has read. The run shows its progress only if standard error is a terminal.
#[derive(Drop)]
struct Progress<'a> {
    line: &'a ProgressLine,
    /// When the run began; `None` if no progress is shown.
    start: Option<Instant>,
    bytes: u64,
    /// The progress is next shown at this time after `start`.
    due: Duration,
}

impl<'a> Progress<'a> {
    fn on(line: &'a ProgressLine) -> Self {
        let start = if line.rt.stderr().is_terminal() {
            Instant::now(&line.rt).ok()
        } else {
            None
        };
        Progress {
            line,
            start,
            bytes: 0,
            due: Duration::from_millis(FIRST),
        }
    }

    /// Counts bytes that were read.
    fn count(&mut self, moved: usize) {
        let Some(start) = self.start else {
            return;
        };
        self.bytes = self.bytes.saturating_add(moved as u64);
        if let Ok(worked) = start.elapsed(&self.line.rt)
            && worked >= self.due
        {
            self.line.show(self.bytes);
            self.due = worked.saturating_add(Duration::from_millis(AGAIN));
        }
    }
}

/// Files that count the bytes that are read from them, so that a long run can show its progress on a terminal.
#[derive(Drop)]
pub struct WatchedShelf<'a, F> {
    shelf: F,
    progress: Progress<'a>,
}

impl<'a, F: Shelf> WatchedShelf<'a, F> {
    pub fn over(shelf: F, line: &'a ProgressLine) -> Self {
        WatchedShelf {
            shelf,
            progress: Progress::on(line),
        }
    }
}

impl<F: Shelf> Shelf for WatchedShelf<'_, F> {
    ghost state = { λ watched. F.state watched.shelf };

    ghost opens = { λ old new name result. F.opens old.shelf new.shelf name result };

    ghost makes = { λ old new name result. F.makes old.shelf new.shelf name result };

    ghost reads = { λ old new k buffer result. F.reads old.shelf new.shelf k buffer result };

    ghost writes = { λ old new k piece result. F.writes old.shelf new.shelf k piece result };

    ghost closes = { λ old new k. F.closes old.shelf new.shelf k };

    ghost told = { λ watched k files live. F.told watched.shelf k files live };

    fn open_file(&mut self, name: &str) -> Result<Slot, OpenFault> {
        self.shelf.open_file(name)
    }

    fn create_file(&mut self, name: &str) -> Result<Slot, OpenFault> {
        self.shelf.create_file(name)
    }

    fn read(&mut self, slot: Slot, buf: &mut [u8]) -> Result<usize, Failed> {
        let moved = self.shelf.read(slot, buf)?;
        self.progress.count(moved);
        Ok(moved)
    }

    fn write(&mut self, slot: Slot, piece: &[u8]) -> Result<usize, Failed> {
        self.shelf.write(slot, piece)
    }

    fn close_file(&mut self, slot: Slot) {
        self.shelf.close_file(slot);
    }
}
