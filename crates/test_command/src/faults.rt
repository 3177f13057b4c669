//! In each run, a different call to the shelf or the sink fails. The test is run with calls that move few bytes and
//! with calls that move many. The status names the fault, and the text is what was certain before the fault.

use crate::recipe::file_of;
use crate::runs::{Files, Outcome, Way, add_file, one_file, ran};
use avtp_base::NoMemory;
use run_report::Status;
use std::alloc::Global;
use std::process::Abort;
use std::thread::Threads;

/// Limits on the number of bytes that one read moves.
const READS: [usize; 2] = [1, 65_536];

const WRITES: [usize; 2] = [7, 65_536];

/// A command that reads one or two captures of equal size. `before` is printed before the command reads. `certain` is
/// printed once the command has read all bytes, and `end` is printed at the end of the run.
#[derive(Clone, Copy)]
struct Case {
    line: &'static str,
    capture: &'static str,
    second: Option<&'static str>,
    before: &'static str,
    certain: &'static str,
    end: &'static str,
    status: Status,
}

const SHOWN: Case = Case {
    line: "show c.pcap",
    capture: "V1",
    second: None,
    before: "",
    certain: "frame 1 at 1000000000 aaf id 0200000000010001 seq 0 ts 1002000000 tv 1 tu 0 mr 0 sp 0 evt 0 format int16 rate 48000 channels 2 depth 16 count 6 bytes 24\n",
    end: "end frames 1\n",
    status: Status::Done,
};

const HEARD: Case = Case {
    line: "listen --buffer 8 --room 192 0200000000010001 c.pcap",
    capture: "V1",
    second: None,
    before: "capture c.pcap\n",
    certain: "",
    end: "\
at 1002000000 frame 1 seq 0 sample 0 0001ffff
at 1002020833 frame 1 seq 0 sample 1 0002fffe
at 1002041666 frame 1 seq 0 sample 2 0003fffd
at 1002062500 frame 1 seq 0 sample 3 0004fffc
at 1002083333 frame 1 seq 0 sample 4 0005fffb
at 1002104166 frame 1 seq 0 sample 5 0006fffa
end frames 1 packets 1 presented 1 flagged 0
",
    status: Status::Done,
};

/// Two packets of a stream, and a media clock whose second timestamp arrives after them.
const CLOCKED: Case = Case {
    line: "listen --buffer 8 --room 192 --look 2 --clock 0200000000010002 0200000000010001 c.pcap",
    capture: "\
V4 capture:1000000000
V1/58 ts:1004000000 record:1002000000
V1/58 2=01 ts:1004125000 record:1002125000
V4 2=01 point:1004000000 record:1002200000
",
    second: None,
    before: "capture c.pcap\n",
    certain: "",
    end: "\
at 1004000000 frame 2 seq 0 sample 0 0001ffff
at 1004020833 frame 2 seq 0 sample 1 0002fffe
at 1004041666 frame 2 seq 0 sample 2 0003fffd
at 1004062500 frame 2 seq 0 sample 3 0004fffc
at 1004083333 frame 2 seq 0 sample 4 0005fffb
at 1004104166 frame 2 seq 0 sample 5 0006fffa
at 1004125000 frame 3 seq 1 sample 0 0001ffff
at 1004145833 frame 3 seq 1 sample 1 0002fffe
at 1004166666 frame 3 seq 1 sample 2 0003fffd
at 1004187500 frame 3 seq 1 sample 3 0004fffc
at 1004208333 frame 3 seq 1 sample 4 0005fffb
at 1004229166 frame 3 seq 1 sample 5 0006fffa
end frames 4 packets 2 presented 2 flagged 0
",
    status: Status::Done,
};

const CHECKED: Case = Case {
    line: "check c.pcap",
    capture: "V1 32=4e 36=4e 61=fe zeros:12",
    second: None,
    before: "capture c.pcap\n",
    certain: "finding frame 1 id 0200000000010001 reserved\n",
    end: "end frames 1 streams 1 findings 1\n",
    status: Status::Findings,
};

/// The capture of `SHOWN` as pcapng.
const SHOWN_NG: Case = Case {
    capture: "V5",
    ..SHOWN
};

const HEARD_NG: Case = Case {
    capture: "V5",
    ..HEARD
};

/// Two packets in each of two captures. The first packet of a capture is due once the second packet arrives. The first
/// packets of the two captures differ. The difference between the first packets is certain once the first capture has
/// ended.
const AGREED: Case = Case {
    line: "agree --buffer 8 --room 192 0200000000010001 c.pcap d.pcap",
    capture: "\
V1/58 capture:1000000000
V1/58 2=01 ts:1012000000 record:1010000000
",
    second: Some(
        "\
V1/58 47=fb capture:1000000000
V1/58 2=01 ts:1012000000 record:1010000000
",
    ),
    before: "",
    certain: "differ frame 1 1 seq 0 sample 5 bytes\n",
    end: "end matched 2 only 0 0 differ 1\n",
    status: Status::Findings,
};

/// A capture is turned into another one. The second packet overlaps the first packet. The third packet makes the second
/// packet due. With 24 bits per sample, a packet has four stereo sample frames.
const TURNED: Case = Case {
    line: "gateway --to am824 0200000000010001 c.pcap d.pcap",
    capture: "\
V1 74=03 77=18
V1/58 2=01 16=03 19=18 ts:1002062500 record:1000062500
V1/58 2=02 16=03 19=18 ts:1012000000 record:1010000000
",
    second: None,
    before: "",
    certain: "skip frame 2 overlap\n",
    end: "gateway batches 3 packets 2 skipped 1\n",
    status: Status::Findings,
};

/// Whether the text consists of these parts, in order.
fn is_made_of(text: &str, parts: [&str; 3]) -> bool {
    let mut rest = text;
    for part in parts {
        match rest.strip_prefix(part) {
            Some(after) => rest = after,
            None => return false,
        }
    }
    rest.is_empty()
}

impl Case {
    fn files(&self, alloc: Global) -> Result<Files, NoMemory> {
        let mut files = Vec::new(alloc);
        add_file(alloc, &mut files, "c.pcap", &file_of(alloc, self.capture)?)?;
        if let Some(second) = self.second {
            add_file(alloc, &mut files, "d.pcap", &file_of(alloc, second)?)?;
        }
        Ok(files)
    }

    fn captures(&self) -> usize {
        if self.second.is_some() { 2 } else { 1 }
    }

    /// The number of calls to the shelf in a run. Each capture is opened, takes `reads` reads, and is read once more to
    /// find that nothing is left.
    fn calls(&self, reads: usize) -> usize {
        self.captures().saturating_mul(reads.saturating_add(2))
    }

    /// The parts of the text of a run without a fault.
    fn whole(&self) -> [&'static str; 3] {
        [self.before, self.certain, self.end]
    }

    /// The status and the parts of the text of a run in which call number `call` of the shelf fails and each capture
    /// takes `reads` reads.
    fn told(&self, call: usize, reads: usize) -> (Status, [&'static str; 3]) {
        let last = self.calls(reads);
        if call > last {
            return (self.status, self.whole());
        }
        let before = if call <= self.captures() {
            ""
        } else {
            self.before
        };
        let certain = if call < last { "" } else { self.certain };
        (Status::ReadFault, [before, certain, "read fault\n"])
    }
}

/// Asserts how a run ends if call number `call` of the shelf fails and each call moves at most `most` bytes.
fn ends_as_told<T: Threads + Sync + Abort>(
    rt: &T,
    alloc: Global,
    case: &Case,
    reads: usize,
    way: &Way<'_>,
) -> Result<(), NoMemory> {
    let ran = ran(rt, alloc, way, case.files(alloc)?)?;
    let (status, parts) = case.told(way.shelf_fails as usize, reads);
    let is_told = ran.status == status && is_made_of(ran.text.as_str(), parts);
    let (found, text) = (ran.status, ran.text.as_str());
    assert!(rt; is_told, "{way:?}: {found:?} {text}");
    Ok(())
}

/// Whichever call of the shelf fails, the run ends as the case states.
fn ends_where_a_read_fails<T: Threads + Sync + Abort>(
    rt: &T,
    alloc: Global,
    case: &Case,
) -> Result<(), NoMemory> {
    let size = file_of(alloc, case.capture)?.len();
    for most in READS {
        let reads = size.div_ceil(most.max(1));
        for call in 1..=case.calls(reads).saturating_add(1) {
            let way = Way {
                line: case.line,
                shelf_fails: call as u64,
                sink_fails: 0,
                most,
            };
            ends_as_told(rt, alloc, case, reads, &way)?;
        }
    }
    Ok(())
}

#[test]
fn a_failing_read_ends_the_run_after_what_was_certain(rt: HostRuntime) -> Result<(), NoMemory> {
    for case in [SHOWN, HEARD, CLOCKED, CHECKED, SHOWN_NG, HEARD_NG] {
        ends_where_a_read_fails(&rt, rt.alloc(), &case)?;
    }
    Ok(())
}

#[test]
fn a_failing_read_of_either_capture_ends_their_comparison(rt: HostRuntime) -> Result<(), NoMemory> {
    ends_where_a_read_fails(&rt, rt.alloc(), &AGREED)
}

/// Runs a command in which a call of the sink fails, and asserts that the text and the file that is made are prefixes of
/// those of the whole run. Returns the status and the length of the text.
fn prefix_of<T: Threads + Sync + Abort>(
    rt: &T,
    alloc: Global,
    case: &Case,
    whole: &Outcome,
    way: &Way<'_>,
) -> Result<(Status, usize), NoMemory> {
    let ran = ran(rt, alloc, way, case.files(alloc)?)?;
    let made = ran.made.as_deref().unwrap_or(&[]);
    let is_prefix = whole.text.starts_with(ran.text.as_str())
        && whole.made.as_deref().unwrap_or(&[]).starts_with(made);
    let (status, text) = (ran.status, ran.text.as_str());
    assert!(rt; is_prefix, "{way:?}: {status:?} {text}");
    Ok((status, text.len()))
}

/// A run that fails at write n writes at most as much text as a run that fails at write n + 1. A run whose writes all
/// succeed writes the whole text.
fn ends_where_a_write_fails<T: Threads + Sync + Abort>(
    rt: &T,
    alloc: Global,
    case: &Case,
    whole: &Outcome,
    most: usize,
) -> Result<(), NoMemory> {
    let mut written = 0;
    for call in 1..=whole.text.len().saturating_add(1) {
        let way = Way {
            line: case.line,
            shelf_fails: 0,
            sink_fails: call as u64,
            most,
        };
        let (status, len) = prefix_of(rt, alloc, case, whole, &way)?;
        let is_more = written <= len && (status == Status::WriteFault || status == case.status);
        assert!(rt; is_more, "{way:?}: {status:?}, {len} bytes after {written}");
        written = len;
        if status == case.status {
            break;
        }
    }
    assert_eq!(rt; written, whole.text.len(), "{most} bytes");
    Ok(())
}

#[test]
fn a_failing_write_leaves_a_prefix_of_the_text(rt: HostRuntime) -> Result<(), NoMemory> {
    for case in [SHOWN, HEARD, CHECKED, AGREED, TURNED] {
        let way = Way {
            line: case.line,
            shelf_fails: 0,
            sink_fails: 0,
            most: 65_536,
        };
        let whole = ran(&rt, rt.alloc(), &way, case.files(rt.alloc())?)?;
        let is_whole = whole.status == case.status && is_made_of(whole.text.as_str(), case.whole());
        let text = whole.text.as_str();
        assert!(rt; is_whole, "{way:?}: {text}");
        for most in WRITES {
            ends_where_a_write_fails(&rt, rt.alloc(), &case, &whole, most)?;
        }
    }
    Ok(())
}

/// A command that makes the capture `c.pcap` of the file `a`: its words, the steps of both files, how often it reads `a`,
/// and its text.
#[derive(Clone, Copy)]
struct Making {
    line: &'static str,
    input: &'static str,
    output: &'static str,
    readings: usize,
    text: &'static str,
}

const TALKED: Making = Making {
    line: "talk a c.pcap",
    input: "V1/82",
    output: "V1",
    readings: 1,
    text: "talk packets 1 clock 0\n",
};

const GATEWAY: Making = Making {
    line: "gateway --to am824 0200000000010001 a c.pcap",
    input: "V1 74=03 77=18",
    output: "V2 ..32 21=28 x400001ff40ff000240fffe004003fffd400004ff40fc000540fffb004006fffa capture:1000000000",
    readings: 2,
    text: "gateway batches 1 packets 1 skipped 0\n",
};

/// How a command of `Making` ends: the status, and the size of the capture if it was created.
#[derive(Clone, Copy)]
struct Made {
    status: Status,
    size: Option<usize>,
}

/// How a run ends in which call number `call` of the shelf fails. The first `reading` calls open the input, read it and
/// find its end. The next call creates the capture. If the input is read twice, `reading` calls follow. After a failed
/// read, the capture has only its file header. The other calls write the `size` bytes of the capture, at most `most`
/// bytes in each call.
fn end_at(call: usize, reading: usize, again: usize, size: usize, most: usize) -> Made {
    let create = reading.saturating_add(1);
    let done = call.saturating_sub(create.saturating_add(again));
    let written = done.saturating_sub(1).saturating_mul(most);
    if call <= reading {
        Made {
            status: Status::ReadFault,
            size: None,
        }
    } else if call == create {
        Made {
            status: Status::WriteFault,
            size: None,
        }
    } else if done == 0 {
        Made {
            status: Status::ReadFault,
            size: Some(24),
        }
    } else if written < size {
        Made {
            status: Status::WriteFault,
            size: Some(written),
        }
    } else {
        Made {
            status: Status::Done,
            size: Some(size),
        }
    }
}

impl Making {
    /// How a run ends with a capture of `size` bytes of an input of `read` bytes.
    fn ends(&self, way: &Way<'_>, read: usize, size: usize) -> Made {
        let reading = read.div_ceil(way.most.max(1)).saturating_add(2);
        let again = if self.readings == 2 { reading } else { 0 };
        end_at(way.shelf_fails as usize, reading, again, size, way.most)
    }

    fn text(&self, status: Status) -> &'static str {
        match status {
            Status::ReadFault => "read fault\n",
            Status::WriteFault => "",
            _ => self.text,
        }
    }
}

/// Whether a capture was made of the first `size` bytes of `whole`. If `size` is `None`, whether no capture was made.
fn is_front(made: Option<&[u8]>, whole: &[u8], size: Option<usize>) -> bool {
    match (made, size) {
        (Some(made), Some(size)) => made.len() == size && whole.starts_with(made),
        (None, None) => true,
        _ => false,
    }
}

/// Asserts how a run ends if a call of the shelf fails.
fn leaves_a_prefix<T: Threads + Sync + Abort>(
    rt: &T,
    alloc: Global,
    making: &Making,
    way: &Way<'_>,
) -> Result<(), NoMemory> {
    let input = file_of(alloc, making.input)?;
    let whole = file_of(alloc, making.output)?;
    let ran = ran(rt, alloc, way, one_file(alloc, "a", &input)?)?;
    let Made { status, size } = making.ends(way, input.len(), whole.len());
    let is_stated = ran.status == status
        && ran.text.as_str() == making.text(status)
        && is_front(ran.made.as_deref(), &whole, size);
    let (found, text) = (ran.status, ran.text.as_str());
    assert!(rt; is_stated, "{way:?}: {found:?} {text}");
    Ok(())
}

#[test]
fn a_failing_call_leaves_a_prefix_of_the_capture(rt: HostRuntime) -> Result<(), NoMemory> {
    for making in [TALKED, GATEWAY] {
        for most in [1, 7, 65_536] {
            for call in 1..=140 {
                let way = Way {
                    line: making.line,
                    shelf_fails: call,
                    sink_fails: 0,
                    most,
                };
                leaves_a_prefix(&rt, rt.alloc(), &making, &way)?;
            }
        }
    }
    Ok(())
}
