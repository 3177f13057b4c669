//! The command `agree`.

use crate::losses::{deliver_as, talk};
use crate::recipe::bytes_of;
use crate::transcript::{Bench, columns, follow_each};
use avtp_base::NoMemory;
use std::alloc::Global;
use std::process::Abort;
use std::thread::Threads;

const CAPTURES: &str = "\
< a V1
< b V1
$ agree 0200000000010001 a b
end matched 1 only 0 0 differ 0
$ agree 0200000000010001 a a
end matched 1 only 0 0 differ 0
$ agree 0200000000010002 a b
end matched 0 only 0 0 differ 0
< b V1 105=fb
$ agree 0200000000010001 a b
differ frame 1 1 seq 0 sample 5 bytes
end matched 1 only 0 0 differ 1
[1]
< b V1 70=3bb94e81
$ agree 0200000000010001 a b
differ frame 1 1 seq 0 sample 0 at 1002000000 1002000001
end matched 1 only 0 0 differ 1
[1]
$ agree 0200000000010001 b a
differ frame 1 1 seq 0 sample 0 at 1002000001 1002000000
end matched 1 only 0 0 differ 1
[1]
< b V1 60=01
$ agree 0200000000010001 a b
end matched 0 only 1 1 differ 0
< b V1 ..24
$ agree 0200000000010001 a b
end matched 0 only 1 0 differ 0
$ agree 0200000000010001 b a
end matched 0 only 0 1 differ 0
< b V5
$ agree 0200000000010001 a b
end matched 1 only 0 0 differ 0
< in.264 x0000000165 xff*2999 x0000000141 xab*100
$ talk --kind h264 in.264 a
talk packets 4 clock 0
$ talk --kind h264 in.264 b
talk packets 4 clock 0
@ b 0 2 3
$ agree 0200000000010001 a b
end matched 1 only 1 0 differ 0
";

/// Each packet is due before the next packet of its capture is read. The differences of a packet are therefore known
/// even if its capture cannot be read further.
const ENDS: &str = "\
< a V1
< b V1 ..105
$ agree 0200000000010001 a b
capture refused: packet_bytes at 40 short
[3]
< b V1 105=fb x00
$ agree 0200000000010001 a b
differ frame 1 1 seq 0 sample 5 bytes
capture refused: ts_sec at 106 short
[3]
$ agree 0200000000010001 b a
differ frame 1 1 seq 0 sample 5 bytes
capture refused: ts_sec at 106 short
[3]
< c V1 0=00
$ agree 0200000000010001 c b
capture refused: magic at 0
capture refused: ts_sec at 106 short
[3]
$ agree --limit 106 0200000000010001 a b
differ frame 1 1 seq 0 sample 5 bytes
limit 106
[7]
$ agree --limit 105 0200000000010001 a b
limit 105
limit 105
[7]
$ agree --limit 105 0200000000010001 a c
limit 105
capture refused: magic at 0
[7]
$ agree --limit 105 0200000000010001 c a
capture refused: magic at 0
limit 105
[3]
$ agree 0200000000010001 d b
read fault
[4]
$ agree 0200000000010001 c d
read fault
[4]
! shelf 1
$ agree 0200000000010001 a b
read fault
[4]
! shelf 2
$ agree 0200000000010001 a b
read fault
[4]
! shelf 3
$ agree 0200000000010001 a b
read fault
[4]
! shelf 4
$ agree 0200000000010001 a b
read fault
[4]
! shelf 5
$ agree 0200000000010001 a b
read fault
[4]
! sink 1
$ agree 0200000000010001 a b
[5]
$ agree 0200000000010001 a
words: 4
[2]
";

/// A row has the input of `talk`, the options of `talk`, and the options of `agree`. Then the row has, for each of two
/// captures, the records that are delivered, written as in the rows of `losses`. In the first row of H.264, each access
/// unit has 255 NAL units. In the second row of H.264, the second access unit is a single NAL unit in 255 fragments.
/// All 255 fragments are delivered.
const ROWS: &str = "\
noise:2400 | --sparse --restart 12 |  | mixed | 0/0/0
noise:2400 | --sparse --restart 12 |  | mixed | 9/3/4
noise:2400 |  |  | 7/5/3 | 5/4/9
noise:2400 |  |  | 2/0/0 | 3/0/0
noise:7200 |  |  | 7/5/3 | 0/0/2
noise:12000 |  |  | drawn:1 | drawn:2
noise:9600 | --sparse --restart 96 | --look 8 | drawn:3 | drawn:4
noise:2400 | --kind am824 --channels 1 --restart 12 --rate 44100 --count 6 |  | mixed | 8/5/0
noise:9600 | --kind am824 --channels 1 --restart 64 | --look 4 | drawn:5 | drawn:6
noise:2400 | --crf 0200000000010002 | --clock 0200000000010002 | 7/5/3 | 11/0/9
noise:9600 | --crf 0200000000010002 | --look 16 --clock 0200000000010002 | drawn:7 | drawn:8
noise:2400 | --crf 0200000000010002 --restart 64 --jump 4 --crf-interval 48 | --look 64 --clock 0200000000010002 | 8/7/6 | 9/4/5
x0000000106ab*254 x000000016588 x0000000106cd*254 x000000016588 | --kind h264 |  | drawn:9 | drawn:10
x0000000106ab*254 x000000016588 x0000000165 xff*356000 x0000000106cd*254 x000000016588 | --kind h264 |  | 600/0/0 | 520/0/0
";

/// Two parts of the line of a packet's first sample: the instant, and the text from the sequence number on. In all
/// captures of one talker, these parts of the line are the same.
#[derive(Clone, Copy)]
struct Sample<'a> {
    instant: &'a str,
    rest: &'a str,
}

fn first_sample(line: &str) -> Option<Sample<'_>> {
    let (instant, rest) = line.split_once(" frame ")?;
    let (_, rest) = rest.split_once(" seq ")?;
    if rest.contains(" sample 0 ") {
        Some(Sample { instant, rest })
    } else {
        None
    }
}

/// The first sample of each packet that a listener presents.
fn presented(alloc: Global, text: &str) -> Result<Vec<Sample<'_>>, NoMemory> {
    let mut samples = Vec::new(alloc);
    for line in text.lines() {
        if let Some(sample) = first_sample(line) {
            samples.push(sample)?;
        }
    }
    Ok(samples)
}

fn has(samples: &[Sample<'_>], sample: Sample<'_>) -> bool {
    for other in samples {
        if other.instant == sample.instant && other.rest == sample.rest {
            return true;
        }
    }
    false
}

/// How many packets are presented in both texts.
fn in_both(a: &[Sample<'_>], b: &[Sample<'_>]) -> usize {
    let mut both = 0usize;
    for sample in a {
        if has(b, *sample) {
            both = both.saturating_add(1);
        }
    }
    both
}

/// What `agree` should print, according to the texts of `listen` over the two captures.
fn end_of(alloc: Global, heard: [&str; 2]) -> Result<String, NoMemory> {
    let [a, b] = heard;
    let a = presented(alloc, a)?;
    let b = presented(alloc, b)?;
    let both = in_both(&a, &b);
    let only_a = a.len().saturating_sub(both);
    let only_b = b.len().saturating_sub(both);
    Ok(format!(in alloc; "end matched {both} only {only_a} {only_b} differ 0\n")?)
}

/// Runs a command with these options over the captures that `names` has.
fn text_of<T: Threads + Sync>(
    rt: &T,
    bench: &mut Bench,
    verb: &str,
    options: &str,
    names: &str,
) -> Result<String, NoMemory> {
    let line = format!(in bench.alloc(); "{verb} {options} 0200000000010001 {names}")?;
    bench.run(rt, line.as_str())
}

/// A shelf with two captures, `a` and `b`, of the talker of a row.
fn captures_of<T: Threads + Sync>(rt: &T, alloc: Global, row: &str) -> Result<Bench, NoMemory> {
    let [steps, options, _, first, second] = columns(row);
    let mut bench = Bench::new(alloc);
    bench.put("a.raw", bytes_of(alloc, steps)?)?;
    talk(rt, &mut bench, options)?;
    let _ = deliver_as(&mut bench, "a", first)?;
    let _ = deliver_as(&mut bench, "b", second)?;
    Ok(bench)
}

/// What `agree` should print of the captures `a` and `b`, according to what `listen` presents of each.
fn stated_end<T: Threads + Sync>(
    rt: &T,
    bench: &mut Bench,
    options: &str,
) -> Result<String, NoMemory> {
    let a = text_of(rt, bench, "listen", options, "a")?;
    let b = text_of(rt, bench, "listen", options, "b")?;
    end_of(bench.alloc(), [a.as_str(), b.as_str()])
}

fn agrees_as_heard<T: Threads + Sync + Abort>(
    rt: &T,
    alloc: Global,
    row: &str,
) -> Result<(), NoMemory> {
    let [_, _, options, _, _] = columns(row);
    let mut bench = captures_of(rt, alloc, row)?;
    let end = stated_end(rt, &mut bench, options)?;
    let found = text_of(rt, &mut bench, "agree", options, "a b")?;
    let text = found.as_str();
    let agrees = text == end.as_str() && !text.starts_with("end matched 0 ");
    assert!(rt; agrees, "{row}: {text}");
    Ok(())
}

#[test]
fn captures_of_one_talker_match_in_what_both_present(rt: HostRuntime) -> Result<(), NoMemory> {
    for row in ROWS.lines() {
        agrees_as_heard(&rt, rt.alloc(), row)?;
    }
    Ok(())
}

/// The transcripts of runs of `agree`, each after its title.
const TRANSCRIPTS: [(&str, &str); 2] = [
    ("a pair differs in the first sample that does", CAPTURES),
    ("a side that ends early is compared up to there", ENDS),
];

#[test]
fn agree_prints_what_its_transcripts_state(rt: HostRuntime) -> Result<(), NoMemory> {
    follow_each(&rt, rt.alloc(), &TRANSCRIPTS)
}
