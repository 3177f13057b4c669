//! Scans a capture, listens to it, and converts it to the other format.

ghost use Rattle.std.specs.Prelude.{◌≡◌, ◌+◌, ◌^◌, ◌<◌, ◌≤◌, length, IfOk, IfSome, OnOk};
ghost use Rattle.sample_schedule.specs.Limits.{IsPlan};
ghost use Rattle.listener.specs.Heard.{schedule_plan};
ghost use Rattle.am824_gateway.specs.Scan.{IsShape};

use crate::captures::{Recorded, STREAM, capture_of};
use am824_gateway::{Gateway, Scan, ScanFault, Shape, To};
use avtp_base::{Bytes, NoMemory};
use listener::{Heard, ListenPlan, whole};
use sample_schedule::{Batch, Shown};
use std::alloc::Global;
use std::test::Fail;

/// The plan of a listener that hears the stream and looks this many items ahead.
pub fn plan_of(look: u32) -> ListenPlan
    ensures { IsPlan (schedule_plan result) }
{
    ListenPlan {
        stream: STREAM,
        clock: None,
        buffer: 4_096,
        room: 67_108_864,
        look: look.min(64),
        lead: 2_000_000,
        shift: 0,
    }
}

/// What a listener shows for these records.
pub fn heard(alloc: Global, records: &[Recorded], look: u32) -> Result<Heard, Fail> {
    let bytes = capture_of(alloc, records)?;
    if bytes.len() > 100_000_000 {
        return Err(Fail::new("a long capture"));
    }
    Ok(whole(alloc, &plan_of(look), &bytes)?)
}

/// The shape of the stream, or the first fault and the number of its record.
pub fn scanned(to: To, records: &[Recorded]) -> Result<Option<Shape>, (ScanFault, usize)>
    ensures { IfOk result (λ shape. IfSome shape IsShape) }
{
    let mut scan = Scan::new(to, STREAM);
    let mut number = 0usize;
    for record in records {
        number = number.saturating_add(1);
        if let Err(fault) = scan.note(&record.frame) {
            return Err((fault, number));
        }
    }
    Ok(scan.shape())
}

/// What a gateway made from a capture: the records of its frames, the number of batches, and which batches were
/// skipped.
#[derive(Debug, Drop)]
pub struct Turned {
    pub records: Vec<Recorded>,
    pub batches: u64,
    pub skipped: String,
}

fn copy_of(alloc: Global, batch: &Batch) -> Result<Batch, NoMemory>
    ensures { IfOk result (λ copy. copy ≡ batch.now) }
{
    let bytes = Bytes::over(Vec::from_slice(alloc, batch.bytes.as_slice())?);
    Ok(Batch {
        frame: batch.frame,
        seq: batch.seq,
        count: batch.count,
        line: batch.line,
        from: batch.from,
        bytes,
    })
}

/// The frame that `write` writes for a piece, as a record.
fn record_of(alloc: Global, gateway: &Gateway, i: u32) -> Result<Recorded, Fail>
    requires { i < length gateway.now.frames }
{
    let turn = gateway.turn(i);
    let mut memory = [0; 1518];
    let out = &mut memory[..turn.size];
    gateway.write(i, turn, out);
    let frame = Vec::from_slice(alloc, out)?;
    Ok(Recorded {
        arrival: turn.arrival,
        frame,
    })
}

/// Checks that the method `piece` lends the frame that the method `write` writes for piece `i`.
fn check_lent(alloc: Global, gateway: &mut Gateway, i: u32) -> Result<(), Fail>
    requires { i < length gateway.old.frames }
    ensures { gateway.new ≡ gateway.old }
{
    let written = record_of(alloc, gateway, i)?;
    let lent = gateway.piece(i);
    if lent.bytes != written.frame.as_slice() || lent.arrival != written.arrival {
        return Err(Fail::new("a frame is lent that is not the one written"));
    }
    Ok(())
}

/// Checks that the gateway gives the bytes of the batch back.
fn check_given_back(gateway: &mut Gateway, batch: &Batch) -> Result<(), Fail>
    ensures { gateway.new.given ≡ gateway.old.given }
{
    match gateway.give_back() {
        Some(samples) if samples.as_slice() == batch.bytes.as_slice() => Ok(()),
        _ => Err(Fail::new("other samples are given back")),
    }
}

/// Gives a batch to the gateway, and adds to `turned` the frames of the batch or the reason why the batch is skipped.
fn turn_batch(
    alloc: Global,
    gateway: &mut Gateway,
    batch: &Batch,
    turned: &mut Turned,
) -> Result<(), Fail>
    requires { gateway.old.given.batches < 2 ^ 40 }
    ensures { OnOk result (gateway.new.given.batches ≤ gateway.old.given.batches + 1) }
{
    turned.batches = turned.batches.saturating_add(1);
    match gateway.put(copy_of(alloc, batch)?) {
        Ok(number) => {
            if let Some(last) = number.checked_sub(1) {
                check_lent(alloc, gateway, last)?;
            }
            for i in 0..number {
                turned.records.push(record_of(alloc, gateway, i)?)?;
            }
            check_given_back(gateway, batch)?;
        }
        Err(skip) => {
            let frame = batch.frame;
            let text = format!(in alloc; " {frame} {skip:?}")?;
            turned.skipped.push_str(&text)?;
        }
    }
    Ok(())
}

fn turn_all(
    alloc: Global,
    gateway: &mut Gateway,
    shown: &[Shown],
    turned: &mut Turned,
) -> Result<(), Fail>
    requires { gateway.old.given.batches ≡ 0 }
{
    if shown.len() > 1_000_000 {
        return Err(Fail::new("a long schedule"));
    }
    for k in 0..shown.len() {
        if let Shown::Present(batch) = &shown[k] {
            turn_batch(alloc, gateway, batch, turned)?;
        }
    }
    Ok(())
}

/// Lets a gateway for streams of this shape convert what a listener presents from these records.
pub fn turn_as(
    alloc: Global,
    to: To,
    shape: Option<Shape>,
    records: &[Recorded],
    look: u32,
) -> Result<Turned, Fail>
    requires { IfSome shape IsShape }
{
    let mut turned = Turned {
        records: Vec::new(alloc),
        batches: 0,
        skipped: String::new(alloc),
    };
    let heard = heard(alloc, records, look)?;
    let mut gateway = Gateway::begin(alloc, to, shape, STREAM)?;
    turn_all(alloc, &mut gateway, heard.shown.as_slice(), &mut turned)?;
    Ok(turned)
}

/// Scans these records, and converts what a listener presents from them.
pub fn turn_scanned(
    alloc: Global,
    to: To,
    records: &[Recorded],
    look: u32,
) -> Result<Turned, Fail> {
    match scanned(to, records) {
        Ok(shape) => turn_as(alloc, to, shape, records, look),
        Err((fault, frame)) => {
            let text = format!(in alloc; "{fault:?} at {frame}")?;
            Err(Fail::new(text.as_str()))
        }
    }
}

/// The number of batches and of frames, and the batches that were skipped.
pub fn line_of(alloc: Global, turned: &Turned) -> Result<String, NoMemory> {
    let (batches, packets) = (turned.batches, turned.records.len());
    let skipped = turned.skipped.as_str();
    Ok(format!(in alloc; "{batches} {packets}{skipped}")?)
}
