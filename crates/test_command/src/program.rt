//! The program over a system in memory.

use crate::runs::{one_file, words_of};
use avtp_base::{Failed, NoMemory};
use avtp_files::Sink;
use avtp_memory::{MemoryShelf, MemorySink};
use avtp_system::{System, run_over};
use run_report::Status;
use std::alloc::Global;
use std::sync::Arc;
use std::sync::atomic::{AtomicU64, Ordering};
use std::thread::Threads;
use vectors_avtp::vector;

/// The bytes that were written to the file `x`, and to all other files together.
#[derive(Drop)]
struct Counts {
    x: AtomicU64,
    others: AtomicU64,
}

/// A file that counts its bytes, in memory that it shares with the test.
#[derive(Drop)]
struct Counting {
    counts: Arc<Counts, Global>,
    is_x: bool,
}

impl Sink for Counting {
    ghost use Rattle.std.specs.Prelude.{None};

    ghost state = { λ sink. record { held = None; faults = 0 } };

    fn write(&mut self, piece: &[u8]) -> Result<usize, Failed> {
        let bytes = if self.is_x {
            &self.counts.x
        } else {
            &self.counts.others
        };
        bytes.fetch_add(piece.len() as u64, Ordering::SeqCst);
        Ok(piece.len())
    }
}

/// A system with the arguments `line`. If `line` is `None`, the system has no memory for arguments.
#[derive(Drop)]
struct Arguments {
    alloc: Global,
    line: Option<&'static str>,
    counts: Arc<Counts, Global>,
}

impl System<Counting> for Arguments {
    ghost use Rattle.std.specs.Prelude.{[], None};

    ghost told = { λ arguments. None };

    ghost path = { λ arguments file. [] };

    ghost others = { λ arguments file. [] };

    fn words(&self) -> Result<Vec<String>, Status> {
        let line = self.line.ok_or(Status::Memory)?;
        words_of(self.alloc, line).map_err(|_| Status::Memory)
    }

    fn file(&self, name: &str, _apart: Vec<String>) -> Result<Counting, NoMemory> {
        Ok(Counting {
            counts: self.counts.clone()?,
            is_x: name == "x",
        })
    }
}

impl Arguments {
    fn of(alloc: Global, line: Option<&'static str>) -> Result<Self, NoMemory> {
        let counts = Arc::new(
            alloc,
            Counts {
                x: AtomicU64::new(0),
                others: AtomicU64::new(0),
            },
        )?;
        Ok(Arguments {
            alloc,
            line,
            counts,
        })
    }

    /// The sizes of the file `x` and of all other files.
    fn counted(&self) -> [u64; 2] {
        let Counts { x, others } = &*self.counts;
        [x.load(Ordering::SeqCst), others.load(Ordering::SeqCst)]
    }
}

/// Each row has the arguments, the status, whether the text of `listen` is complete, the size of the file `x`, and the
/// size of all other files.
const RUNS: [(Option<&str>, Status, bool, u64, u64); 5] = [
    (
        Some("listen --raw x --annexb y 0200000000010001 c.pcap"),
        Status::Done,
        true,
        24,
        0,
    ),
    (
        Some("listen --raw y --annexb x 0200000000010001 c.pcap"),
        Status::Done,
        true,
        0,
        24,
    ),
    (
        Some("listen 0200000000010001 c.pcap"),
        Status::Done,
        true,
        0,
        0,
    ),
    (Some("listen --raw x"), Status::Words, false, 0, 0),
    (None, Status::Memory, false, 0, 0),
];

/// How a program ends over the first vector, and its text.
fn ended<T: Threads + Sync>(
    rt: &T,
    alloc: Global,
    system: &Arguments,
) -> Result<(Status, String), NoMemory> {
    let files = one_file(alloc, "c.pcap", &vector(alloc, 1)?)?;
    let mut shelf = MemoryShelf::over(alloc, files, Vec::new(alloc));
    let mut sink = MemorySink::over(alloc, Vec::new(alloc));
    let ended = run_over(rt, alloc, system, &mut shelf, &mut sink);
    let text = str::from_utf8(sink.bytes()).unwrap_or("no text");
    Ok((ended, String::from_str(alloc, text)?))
}

#[test]
fn a_program_does_what_its_arguments_ask_for(rt: HostRuntime) -> Result<(), NoMemory> {
    for (line, status, whole, x, others) in RUNS {
        let system = Arguments::of(rt.alloc(), line)?;
        let (ended, text) = ended(&rt, rt.alloc(), &system)?;
        let counted = system.counted();
        let is_whole = text.ends_with("end frames 1 packets 1 presented 1 flagged 0\n");
        let is_stated = ended == status && is_whole == whole && counted == [x, others];
        assert!(rt; is_stated, "{line:?}: {ended:?} {counted:?} {text}");
    }
    Ok(())
}
