//! A capture that is scanned for records that cannot be converted to the other format.

ghost use Rattle.std.specs.Prelude.{◌≡◌, ◌≤◌, ◌^◌};
ghost use Rattle.avtp_words.specs.Grammar.{turning_of};
ghost use Rattle.run_report.specs.Reading.{IsOpen};
ghost use Rattle.gateway_command.specs.state.Scanning.{ScansFile, ScansRecords, scanned_as};

use crate::command::format;
use am824_gateway::{Scan, ScanFault, Shape, To};
use avtp_base::OpenFault;
use avtp_files::Shelf;
use avtp_words::Gateway;
use capture_io::{End, Source};
use std::alloc::Global;

/// What a scan found in a capture.
#[derive(Clone, Copy, Debug, PartialEq, Eq)]
pub enum Scanned {
    /// The capture was read to its end, and each record can be converted. The shape is that of the stream, or `None` if
    /// the stream has no packets of samples.
    Clean(Option<Shape>),
    /// The record with this number, counted from 1, cannot be converted.
    Faulty { fault: ScanFault, frame: u64 },
    /// The reading ended in this way before the capture's end. Each record that was read can be converted.
    Cut(End),
}

/// Scans the capture that is to be converted, up to the first record that cannot be converted.
pub fn scan<F: Shelf>(
    alloc: Global,
    asked: &Gateway<'_>,
    shelf: &mut F,
) -> Result<Scanned, OpenFault>
    requires { asked.now.listener.limit ≤ 2 ^ 40 }
    ensures { ScansFile (turning_of asked.now) (F.state shelf.old) (F.state shelf.new) result }
{
    let listener = &asked.listener;
    let mut source = Source::open(alloc, listener.limit, shelf, asked.input)?;
    let scanned = scan_records(format(asked.to), listener.stream, &mut source, shelf);
    source.close(shelf);
    Ok(scanned)
}

/// Scans the records of an open capture until one cannot be converted or the reading ends.
fn scan_records<F: Shelf>(to: To, stream: u64, source: &mut Source, shelf: &mut F) -> Scanned
    requires { IsOpen (F.state shelf.old).slots source.old }
    ensures { ScansRecords to stream (F.state shelf.old) (F.state shelf.new) source.old source.new result }
{
    let mut scan = Scan::new(to, stream);
    let mut frame = 0;
    loop {
        if let Some(end) = source.next(shelf) {
            return scanned_by(end, scan.shape());
        }
        frame += 1;
        if let Err(fault) = scan.note(source.record().bytes) {
            return Scanned::Faulty { fault, frame };
        }
    }
}

/// The result of a scan that finds no fault in any record, given how the reading ended and the shape of the stream.
fn scanned_by(end: End, shape: Option<Shape>) -> Scanned
    ensures { result ≡ scanned_as end shape }
{
    match end {
        End::Whole => Scanned::Clean(shape),
        _ => Scanned::Cut(end),
    }
}
