//! Captures in which packets of a talker and of its clock are lost, repeated and reordered. All that is presented is at
//! the talker's instants.

use crate::recipe::{bytes_of, number};
use crate::transcript::{Bench, columns, numbers_in, records_at, records_in};
use avtp_base::NoMemory;
use std::alloc::Global;
use std::process::Abort;
use std::thread::Threads;
use vectors_avtp::Draws;

/// A row has five fields:
///
/// - The options of `talk`. The input of `talk` has 9,600 bytes.
/// - The options of `listen`.
/// - The number of items that the listener looks ahead.
/// - The numbers of the delivered records, in order.
/// - The end of the text of `listen`, or the minimum number of packets that it presents.
///
/// In the fourth field, `mixed` stands for the numbers in `MIXED`. `7/5/3` says that every seventh record is lost, every
/// fifth is delivered twice, and every third overtakes the record before it. A record that is lost is not delivered at
/// all. `drawn:9` says that the seed 9 decides what happens to each record.
///
/// The first six rows are of AAF. In these rows, every eighth packet has a timestamp, and the media clock restarts after
/// every 12 packets. Packets 12 to 15 are thus sent after a restart and before the next timestamp. Row 1 delivers
/// packets 0 to 27 once and in order. Row 2 loses packets, row 3 loses timestamps, and row 4 repeats packets. In row 5,
/// packets overtake a timestamp. In row 6, packets overtake a restart.
const ROWS: &str = "\
--sparse --restart 12 |  | 0 | 0 1 2 3 4 5 6 7 8 9 10 11 12 13 14 15 16 17 18 19 20 21 22 23 24 25 26 27 | presented 24 flagged 4
--sparse --restart 12 |  | 0 | 0 2 5 11 12 16 17 23 24 31 | presented 8 flagged 2
--sparse --restart 12 |  | 0 | 0 7 9 10 16 23 25 31 32 33 | presented 6 flagged 4
--sparse --restart 12 |  | 0 | 0 0 1 1 8 8 9 9 | presented 4 flagged 4
--sparse --restart 12 |  | 0 | 1 0 2 9 8 10 17 16 18 | presented 6 flagged 3
--sparse --restart 12 |  | 0 | 0 8 16 11 10 19 9 24 | presented 7 flagged 1
--kind am824 --channels 1 --restart 12 --rate 44100 --count 1 |  | 0 | mixed | presented 20 flagged 8
--kind am824 --channels 1 --restart 12 --rate 44100 --count 5 |  | 0 | mixed | presented 21 flagged 7
--kind am824 --channels 1 --restart 12 --rate 44100 --count 6 |  | 0 | mixed | presented 20 flagged 8
--kind am824 --channels 1 --restart 12 --rate 44100 --count 7 |  | 0 | mixed | presented 23 flagged 5
--kind am824 --channels 1 --restart 12 --rate 44100 --count 32 |  | 0 | mixed | presented 25 flagged 3
--kind am824 --channels 1 --restart 12 --rate 48000 --count 1 |  | 0 | mixed | presented 20 flagged 8
--kind am824 --channels 1 --restart 12 --rate 48000 --count 5 |  | 0 | mixed | presented 21 flagged 7
--kind am824 --channels 1 --restart 12 --rate 48000 --count 6 |  | 0 | mixed | presented 20 flagged 8
--kind am824 --channels 1 --restart 12 --rate 48000 --count 7 |  | 0 | mixed | presented 23 flagged 5
--kind am824 --channels 1 --restart 12 --rate 48000 --count 32 |  | 0 | mixed | presented 25 flagged 3
--kind am824 --channels 1 --restart 12 --rate 192000 --count 5 |  | 0 | mixed | presented 22 flagged 6
--kind am824 --channels 1 --restart 12 --rate 192000 --count 6 |  | 0 | mixed | presented 17 flagged 11
--kind am824 --channels 1 --restart 12 --rate 192000 --count 7 |  | 0 | mixed | presented 14 flagged 14
--kind am824 --channels 1 --restart 12 --rate 192000 --count 32 |  | 0 | mixed | presented 25 flagged 3
--crf 0200000000010002 | --clock 0200000000010002 | 0 | 7/5/3 | 100
--crf 0200000000010002 --crf-points 180 --crf-interval 6 | --clock 0200000000010002 | 64 | 11/0/9 | 100
--crf 0200000000010002 --rate 44100 --crf-interval 24 | --clock 0200000000010002 --crf-shift -250000 | 2 | 9/4/5 | 100
--crf 0200000000010002 --rate 44100 --crf-rate 48000 --crf-interval 160 | --clock 0200000000010002 --crf-shift 1000000 | 64 | 0/3/2 | 100
--crf 0200000000010002 --crf-pull 1 --crf-rate 48000 --crf-interval 1000 | --clock 0200000000010002 | 0 | 6/0/0 | 1
--crf 0200000000010002 --crf-pull 5 --crf-rate 384000 --crf-interval 96 | --clock 0200000000010002 --crf-shift 1 | 2 | 10/6/4 | 100
--crf 0200000000010002 --restart 64 --jump 4 --crf-interval 48 | --clock 0200000000010002 | 64 | 8/7/6 | 100
--crf 0200000000010002 --sparse --restart 64 --jump 4 --crf-interval 24 --crf-points 2 | --clock 0200000000010002 --crf-shift -1 | 64 | 12/5/0 | 50
";

/// Record numbers with losses, repeats and reordering, also after restarts.
const MIXED: &str = "0 1 1 3 2 5 6 8 9 7 9 11 13 12 14 16 17 19 18 20 23 25 24 26 32 33 33 39";

/// The numbers of the delivered records of a capture with `records` records.
pub fn places_of(alloc: Global, comes: &str, records: usize) -> Result<Vec<usize>, NoMemory> {
    match comes {
        "mixed" => numbers_in(alloc, MIXED),
        _ if comes.contains('/') => network_places(alloc, comes, records),
        _ => match comes.strip_prefix("drawn:") {
            Some(seed) => drawn_places(alloc, number(seed), records),
            None => numbers_in(alloc, comes),
        },
    }
}

fn network_places(alloc: Global, comes: &str, records: usize) -> Result<Vec<usize>, NoMemory> {
    let (lost, rest) = comes.split_once('/').unwrap_or((comes, ""));
    let (twice, overtaken) = rest.split_once('/').unwrap_or((rest, ""));
    let (lost, twice, overtaken) = (number(lost), number(twice), number(overtaken));
    let mut places = Vec::new(alloc);
    for n in 0..records {
        let fate = Fate {
            lost: is_each(n, lost),
            twice: is_each(n, twice),
            overtakes: is_each(n, overtaken),
        };
        deliver(&mut places, n, fate)?;
    }
    Ok(places)
}

/// On average, one record in eight is lost, one in eight is delivered twice, and one in eight overtakes the record
/// before it.
fn drawn_places(alloc: Global, seed: usize, records: usize) -> Result<Vec<usize>, NoMemory> {
    let mut draws = Draws::seeded(seed as u64);
    let mut places = Vec::new(alloc);
    for n in 0..records {
        let drawn = draws.below(8);
        let fate = Fate {
            lost: drawn == 0,
            twice: drawn == 1,
            overtakes: drawn == 2,
        };
        deliver(&mut places, n, fate)?;
    }
    Ok(places)
}

/// What happens to a record.
#[derive(Clone, Copy)]
struct Fate {
    lost: bool,
    twice: bool,
    overtakes: bool,
}

fn deliver(places: &mut Vec<usize>, n: usize, fate: Fate) -> Result<(), NoMemory> {
    if fate.lost {
        return Ok(());
    }
    places.push(n)?;
    if fate.twice {
        places.push(n)?;
    }
    let last = places.len().saturating_sub(1);
    if fate.overtakes && last > 0 {
        places.swap(last - 1, last);
    }
    Ok(())
}

/// Whether `n`, counted from 0, is the last of a group of `each` numbers. If `each` is 0, the result is `false`.
fn is_each(n: usize, each: usize) -> bool {
    each > 0 && n % each == each - 1
}

/// If `line` shows a sample, the line that shows this sample in the text of the complete capture.
fn as_sent(alloc: Global, line: &str, places: &[usize]) -> Result<Option<String>, NoMemory> {
    if let Some((instant, rest)) = line.split_once(" frame ")
        && let Some((frame, sample)) = rest.split_once(" seq ")
        && instant.starts_with("at ")
    {
        let place = places
            .get(number(frame).saturating_sub(1))
            .copied()
            .unwrap_or(0);
        let number = place.saturating_add(1);
        return Ok(Some(format!(in alloc; "{instant} frame {number} seq {sample}")?));
    }
    Ok(None)
}

/// Whether each sample that is presented from these records is also presented from the complete capture, at the same
/// instant and in the same order.
fn is_among(alloc: Global, whole: &str, text: &str, places: &[usize]) -> Result<bool, NoMemory> {
    let mut sent = whole.lines();
    for line in text.lines() {
        if let Some(same) = as_sent(alloc, line, places)?
            && !sent.any(|other| other == same.as_str())
        {
            return Ok(false);
        }
    }
    Ok(true)
}

/// If `end` is a number, whether the text presents at least `end` packets. If `end` is not a number, whether the text
/// ends with `end`.
fn ends_as_stated(text: &str, end: &str) -> bool {
    if end.starts_with("presented") {
        return text.trim_ascii_end().ends_with(end);
    }
    let mut presented = 0usize;
    for line in text.lines() {
        if line.contains(" sample 0 ") {
            presented = presented.saturating_add(1);
        }
    }
    number(end) <= presented
}

/// The text of a complete capture, the text of the delivered records, and their numbers.
#[derive(Drop)]
struct Heard {
    whole: String,
    text: String,
    places: Vec<usize>,
}

/// Runs `talk` with these options over the file `a.raw`, which makes the capture `c.pcap`.
pub fn talk<T: Threads + Sync>(rt: &T, bench: &mut Bench, options: &str) -> Result<(), NoMemory> {
    let line = format!(in bench.alloc(); "talk {options} a.raw c.pcap")?;
    let _ = bench.run(rt, line.as_str())?;
    Ok(())
}

/// Puts the delivered records of `c.pcap` on the shelf under this name, and returns their numbers.
pub fn deliver_as(bench: &mut Bench, name: &str, comes: &str) -> Result<Vec<usize>, NoMemory> {
    let alloc = bench.alloc();
    let records = records_in(alloc, bench.file("c.pcap"))?.len();
    let places = places_of(alloc, comes, records)?;
    let picked = records_at(alloc, bench.file("c.pcap"), &places)?;
    bench.put(name, picked)?;
    Ok(places)
}

/// Runs `listen` with these options over `c.pcap`.
fn listen<T: Threads + Sync>(
    rt: &T,
    bench: &mut Bench,
    options: &str,
    look: &str,
) -> Result<String, NoMemory> {
    let alloc = bench.alloc();
    let line = format!(in alloc; "listen {options} --look {look} 0200000000010001 c.pcap")?;
    bench.run(rt, line.as_str())
}

/// Runs the `listen` of a row over the complete capture and over the delivered records. The look-ahead is 64 for the
/// complete capture.
fn hear<T: Threads + Sync>(rt: &T, alloc: Global, row: &str) -> Result<Heard, NoMemory> {
    let [options, listening, look, comes, _] = columns(row);
    let mut bench = Bench::new(alloc);
    bench.put("a.raw", bytes_of(alloc, "noise:9600")?)?;
    talk(rt, &mut bench, options)?;
    let whole = listen(rt, &mut bench, listening, "64")?;
    let places = deliver_as(&mut bench, "c.pcap", comes)?;
    let text = listen(rt, &mut bench, listening, look)?;
    Ok(Heard {
        whole,
        text,
        places,
    })
}

fn is_heard_as_sent<T: Threads + Sync + Abort>(
    rt: &T,
    alloc: Global,
    row: &str,
) -> Result<(), NoMemory> {
    let heard = hear(rt, alloc, row)?;
    let [_, _, _, _, end] = columns(row);
    let is_among = is_among(alloc, &heard.whole, &heard.text, &heard.places)?;
    let text = heard.text.as_str();
    let ends = ends_as_stated(text, end);
    assert!(rt;
        ends && is_among,
        "{row}: ends {ends}, is among {is_among}: {text}"
    );
    Ok(())
}

#[test]
fn what_is_presented_of_a_lossy_capture_is_what_was_sent(rt: HostRuntime) -> Result<(), NoMemory> {
    for row in ROWS.lines() {
        is_heard_as_sent(&rt, rt.alloc(), row)?;
    }
    Ok(())
}
