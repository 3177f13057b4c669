//! Writes a capture to a file.

ghost use Rattle.std.specs.Prelude.{◌≡◌, [], Ok};
ghost use Rattle.avtp_files.specs.ShelfCalls.{IsMadeIn};
ghost use Rattle.pcap_frames.specs.Capture.{header_spelling};
ghost use Rattle.capture_io.specs.CaptureWriting.{AddsRecord, BeginsCapture, CanAdd, ClosesCapture, FinishesCapture, whole_record, written_style};

use crate::file_writer::FileWriter;
use avtp_base::{Buffer, Failed, OpenFault, Spelled};
use avtp_files::Shelf;
use pcap_frames::{Order, Style, Unit, record_header, write_header};
use std::marker::Model;

/// The style of each capture that is written: little-endian, with nanoseconds.
const STYLE: Style = Style {
    order: Order::Little,
    unit: Unit::Nano,
};

/// The length of the file header of a capture.
const FILE_HEADER: usize = 24;

/// The length of the header of a record.
const RECORD_HEADER: usize = 16;

/// A classic capture, little-endian with nanoseconds (draft-ietf-opsawg-pcap), that is written to a file of a shelf.
///
/// The file's bytes and then the buffered bytes make up the file header and one record for each added frame. If the
/// shelf fails, the file contains a prefix of that file header and those records. Nothing is lost or written twice. A
/// call that failed can be repeated. Between the calls, other files of the shelf may be read.
#[derive(Drop)]
pub struct CaptureWriter {
    file: FileWriter,
}

impl Model for CaptureWriter {
    ghost use Rattle.capture_io.specs.Writing.{Writing};

    ghost Value = { Writing };

    ghost view = { λ w. w.file };
}

/// The file header of the capture.
fn file_header() -> [u8; FILE_HEADER]
    ensures { result ≡ header_spelling written_style }
{
    let mut header = [0; FILE_HEADER];
    let Ok(_) = write_header(&mut header, STYLE) else {
        unreachable!()
    };
    header
}

impl CaptureWriter {
    /// Makes or empties a file for a capture that has no record so far.
    ///
    /// If the result is `Failed`, the count of writing faults rose. `Memory` means that the shelf had no memory; the
    /// buffer's memory was reserved before. After `Failed` or `Memory` the file is unchanged. Never returns `Missing`.
    pub fn create<F: Shelf>(buffer: Buffer, shelf: &mut F, name: &str) -> Result<Self, OpenFault>
        requires { buffer ≡ [] }
        ensures { BeginsCapture (F.state shelf.old) (F.state shelf.new) name.now result }
    {
        let mut file = FileWriter::create(buffer, shelf, name)?;
        file.buffer.push(&file_header());
        Ok(CaptureWriter { file })
    }

    /// Adds the record of a frame of at most 65,520 bytes. The frame is captured whole, and the record is encoded in
    /// place. If the shelf fails, the call adds nothing. `arrival` is in nanoseconds, from 0 up to but excluding 2^32
    /// seconds.
    #[inline(always)]
    pub fn add<F: Shelf, W: Spelled>(
        &mut self,
        shelf: &mut F,
        arrival: i64,
        frame: &W,
    ) -> Result<(), Failed>
        requires { CanAdd (F.state shelf.old).slots self.old arrival (W.spelling frame.now) }
        ensures { AddsRecord (F.state shelf.old) (F.state shelf.new) self.old self.new (whole_record arrival (W.spelling frame.now)) result }
    {
        let size = frame.size();
        self.file.make_room(shelf, RECORD_HEADER + size)?;
        self.file
            .buffer
            .push(&record_header(STYLE, arrival, size as u32, size as u32));
        self.file.buffer.add(frame);
        Ok(())
    }

    /// Writes the buffered bytes, and closes the file. With `Ok` the file contains the whole capture; with `Err` it
    /// contains a prefix of the capture.
    pub fn finish<F: Shelf>(self, shelf: &mut F) -> Result<(), Failed>
        requires { IsMadeIn (F.state shelf.old).slots self.slot }
        ensures { FinishesCapture (F.state shelf.old) (F.state shelf.new) self result }
    {
        self.file.finish(shelf)
    }

    /// Closes the file, which then contains a prefix of the capture.
    pub fn abandon<F: Shelf>(self, shelf: &mut F)
        requires { IsMadeIn (F.state shelf.old).slots self.slot }
        ensures { ClosesCapture (F.state shelf.old) (F.state shelf.new) self (Ok tt) }
    {
        self.file.abandon(shelf);
    }
}
