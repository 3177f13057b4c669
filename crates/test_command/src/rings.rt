//! The two threads of `listen`, and the ring between them.

use crate::recipe::bytes_of;
use crate::runs::{one_file, status_without_devices};
use crate::transcript::Bench;
use avtp_base::{Failed, NoMemory, OpenFault};
use avtp_files::{Shelf, Sink, Slot};
use avtp_memory::{MemoryShelf, MemorySink};
use presenter_ring::{Gate, NoGate, Side};
use run_report::Status;
use std::alloc::Global;
use std::sync::Arc;
use std::sync::atomic::{AtomicBool, AtomicU64, Ordering};
use std::thread::Threads;

/// Counts the steps of each side, and the steps that are out of order.
#[derive(Drop)]
struct Counting {
    pushes: AtomicU64,
    pops: AtomicU64,
    gaps: AtomicU64,
}

impl Gate for Counting {
    fn step(&self, side: Side, number: u64) {
        let before = match side {
            Side::Push => self.pushes.fetch_add(1, Ordering::SeqCst),
            Side::Pop => self.pops.fetch_add(1, Ordering::SeqCst),
        };
        if number != before.wrapping_add(1) {
            self.gaps.fetch_add(1, Ordering::SeqCst);
        }
    }
}

impl Counting {
    fn new() -> Self {
        Counting {
            pushes: AtomicU64::new(0),
            pops: AtomicU64::new(0),
            gaps: AtomicU64::new(0),
        }
    }

    /// The steps of each side, and the steps that are out of order.
    fn counts(&self) -> [u64; 3] {
        [
            self.pushes.load(Ordering::SeqCst),
            self.pops.load(Ordering::SeqCst),
            self.gaps.load(Ordering::SeqCst),
        ]
    }
}

/// A shelf whose file `c.pcap` has these bytes.
fn shelf_of(alloc: Global, bytes: &[u8]) -> Result<MemoryShelf, NoMemory> {
    let files = one_file(alloc, "c.pcap", bytes)?;
    Ok(MemoryShelf::over(alloc, files, Vec::new(alloc)))
}

/// Whether `listen` ends well over a capture and prints this text, with a ring that has room for `ring` items, and what
/// the gate counted.
fn heard_in<T: Threads + Sync>(
    rt: &T,
    alloc: Global,
    ring: &str,
    capture: &[u8],
    text: &str,
) -> Result<(bool, [u64; 3]), NoMemory> {
    let line = format!(in alloc; "listen --ring {ring} 0200000000010001 c.pcap")?;
    let mut shelf = shelf_of(alloc, capture)?;
    let mut sink = MemorySink::over(alloc, Vec::new(alloc));
    let gate = Counting::new();
    let status = status_without_devices(rt, alloc, line.as_str(), &mut shelf, &mut sink, &gate)?;
    let is_whole = status == Status::Done && sink.bytes() == text.as_bytes();
    Ok((is_whole, gate.counts()))
}

#[test]
fn each_item_is_pushed_and_popped_once_whatever_room_the_ring_has(
    rt: HostRuntime,
) -> Result<(), NoMemory> {
    let mut bench = Bench::new(rt.alloc());
    bench.put("a.raw", bytes_of(rt.alloc(), "noise:24000")?)?;
    let _ = bench.run(&rt, "talk a.raw c.pcap")?;
    let text = bench.run(&rt, "listen 0200000000010001 c.pcap")?;
    let capture = bench.file("c.pcap");
    for ring in ["1", "2", "64", "256"] {
        let (is_whole, counts) = heard_in(&rt, rt.alloc(), ring, capture, text.as_str())?;
        assert!(rt;
            is_whole && counts == [1_000, 1_000, 0],
            "{ring}: {is_whole} {counts:?}"
        );
    }
    Ok(())
}

/// Whether a read is running, whether a write is running, and whether one of the two calls has seen the other call.
#[derive(Drop)]
struct Meeting {
    reading: AtomicBool,
    writing: AtomicBool,
    met: AtomicBool,
}

/// Waits until the other call is running, for at most 20,000,000 rounds. Once one of the two calls has seen the other,
/// neither call waits.
fn stay(mine: &AtomicBool, other: &AtomicBool, met: &AtomicBool) {
    mine.store(true, Ordering::SeqCst);
    for _ in 0..20_000_000 {
        if met.load(Ordering::SeqCst) {
            break;
        }
        if other.load(Ordering::SeqCst) {
            met.store(true, Ordering::SeqCst);
        }
    }
    mine.store(false, Ordering::SeqCst);
}

/// A shelf for `one_thread_reads_while_the_other_writes`. From the fourth read on, each read waits until it sees that a
/// write of the sink is running.
#[derive(Drop)]
struct MeetingShelf {
    shelf: MemoryShelf,
    meeting: Arc<Meeting, Global>,
    reads: u64,
}

impl Shelf for MeetingShelf {
    ghost use Rattle.avtp_memory.specs.state.MemoryFiles.{told_of_live};
    ghost use Rattle.avtp_memory.specs.state.MemoryShelf.{state_of};

    ghost state = { λ meeting. state_of meeting.shelf };

    ghost told = { λ meeting k told live. told_of_live meeting.shelf.held k live };

    fn open_file(&mut self, name: &str) -> Result<Slot, OpenFault> {
        self.shelf.open_file(name)
    }

    fn create_file(&mut self, name: &str) -> Result<Slot, OpenFault> {
        self.shelf.create_file(name)
    }

    fn read(&mut self, slot: Slot, buf: &mut [u8]) -> Result<usize, Failed> {
        self.reads = self.reads.saturating_add(1);
        if self.reads > 3 {
            stay(
                &self.meeting.reading,
                &self.meeting.writing,
                &self.meeting.met,
            );
        }
        self.shelf.read(slot, buf)
    }

    fn write(&mut self, slot: Slot, piece: &[u8]) -> Result<usize, Failed> {
        self.shelf.write(slot, piece)
    }

    fn close_file(&mut self, slot: Slot) {
        self.shelf.close_file(slot);
    }
}

/// A sink. Each write to this sink waits until a read of the shelf is running.
#[derive(Drop)]
struct MeetingSink {
    sink: MemorySink,
    meeting: Arc<Meeting, Global>,
}

impl Sink for MeetingSink {
    ghost use Rattle.std.specs.Prelude.{Some};
    ghost use Rattle.avtp_memory.specs.MemorySink.{kept, fault_count};

    ghost state = { λ meeting. record { held = Some (kept meeting.sink); faults = fault_count meeting.sink } };

    fn write(&mut self, piece: &[u8]) -> Result<usize, Failed> {
        stay(
            &self.meeting.writing,
            &self.meeting.reading,
            &self.meeting.met,
        );
        self.sink.write(piece)
    }
}

/// The vector's samples in packets that arrive one second apart.
fn seconds_apart(alloc: Global, count: u8) -> Result<Vec<u8>, NoMemory> {
    let mut capture = bytes_of(alloc, "V1 ..24")?;
    for n in 0..count {
        let second = u32::from(n).wrapping_add(1);
        let due = second.wrapping_mul(1_000_000_000).wrapping_add(2_000_000);
        let steps = format!(in alloc; "V1/58 2={n:02x} ts:{due} record:{second}000000000")?;
        capture.extend_from_slice(&bytes_of(alloc, &steps)?)?;
    }
    Ok(capture)
}

impl Meeting {
    fn new(alloc: Global) -> Result<Arc<Meeting, Global>, NoMemory> {
        Ok(Arc::new(
            alloc,
            Meeting {
                reading: AtomicBool::new(false),
                writing: AtomicBool::new(false),
                met: AtomicBool::new(false),
            },
        )?)
    }
}

/// A shelf whose file `c.pcap` has the packets. The first read returns the file header and a part of the first record.
/// Each later read completes a record.
fn meeting_shelf(alloc: Global, meeting: &Arc<Meeting, Global>) -> Result<MeetingShelf, NoMemory> {
    let capture = seconds_apart(alloc, 16)?;
    Ok(MeetingShelf {
        shelf: shelf_of(alloc, &capture)?.at_most(82),
        meeting: meeting.clone()?,
        reads: 0,
    })
}

fn meeting_sink(alloc: Global, meeting: &Arc<Meeting, Global>) -> Result<MeetingSink, NoMemory> {
    Ok(MeetingSink {
        sink: MemorySink::over(alloc, Vec::new(alloc)),
        meeting: meeting.clone()?,
    })
}

/// Whether `listen` ends well over a shelf and prints this end.
fn ends_with<T: Threads + Sync>(
    rt: &T,
    alloc: Global,
    meeting: &Arc<Meeting, Global>,
    end: &str,
) -> Result<bool, NoMemory> {
    let mut shelf = meeting_shelf(alloc, meeting)?;
    let mut sink = meeting_sink(alloc, meeting)?;
    let line = "listen --ring 4 0200000000010001 c.pcap";
    let status = status_without_devices(rt, alloc, line, &mut shelf, &mut sink, &NoGate)?;
    Ok(status == Status::Done && sink.sink.bytes().ends_with(end.as_bytes()))
}

/// One packet arrives each second, and makes the packet before it due. There are more packets than the ring has room
/// for, so both threads have work in the second round at the latest.
#[test]
fn one_thread_reads_while_the_other_writes(rt: HostRuntime) -> Result<(), NoMemory> {
    let meeting = Meeting::new(rt.alloc())?;
    let end = "\nend frames 16 packets 16 presented 16 flagged 0\n";
    let is_whole = ends_with(&rt, rt.alloc(), &meeting, end)?;
    assert!(rt; is_whole);
    assert!(rt; meeting.met.load(Ordering::SeqCst));
    Ok(())
}
