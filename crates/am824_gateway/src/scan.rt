//! What is checked in a capture before any of it is converted.

ghost use Rattle.std.specs.Prelude.{◌≡◌, ◌≤◌, ◌++◌, ◌∷◌, [], ℕ, suc, List, length, Some, IfSome, IfErr, OnOk};
ghost use Rattle.pcap_frames.specs.Capture.{Record};
ghost use Rattle.am824_gateway.specs.Scan.{HasScanned, IsShape, fault_rows, first_fault, first_of, shape_in};
ghost use Rattle.am824_gateway.specs.state.Noting.{NotesSamples};

use crate::content::{Content, Samples, content_of};
use crate::rates::fdf_of;
use std::marker::Model;

/// A stream is converted to this format.
#[derive(Clone, Copy, Debug, PartialEq, Eq)]
pub enum To {
    /// AM824 (IEC 61883-6).
    Am824,
    /// PCM in the AVTP audio format (IEEE 1722-2016, 7).
    Aaf,
}

/// Why a capture cannot be converted.
#[derive(Clone, Copy, Debug, PartialEq, Eq)]
pub enum ScanFault {
    /// A packet of the stream is neither AM824 nor PCM, or it already has the wanted format.
    Kind,
    /// The samples are PCM that does not have 24 bits or does not use all of its bits.
    Format,
    /// IEC 61883-6 does not have this sample rate, or the rate differs from that of the first packet.
    Rate,
    /// The packet has more than 256 channels, or another number of channels than the first packet.
    Channels,
    /// A quadlet of AM824 is not linear audio of 24 bits: its label is not 0x40.
    Label,
}

/// What all packets of a converted stream have in common.
#[derive(Clone, Copy, Debug, PartialEq, Eq)]
pub struct Shape {
    /// The sample rate in Hz, one of those of IEC 61883-6.
    pub rate: u32,
    /// The channels of each sample frame, 1 to 256.
    pub channels: u16,
}

/// A scan reads the records of a capture, and looks for records that cannot be converted. It allocates nothing.
#[derive(Debug, Drop)]
pub struct Scan {
    to: To,
    stream: u64,
    /// The shape of the first packet of samples.
    shape: Option<Shape>,
}

impl Model for Scan {
    ghost use Rattle.std.specs.Prelude.{IfSome};
    ghost use Rattle.am824_gateway.specs.Scan.{IsShape, Scanning};

    ghost Value = { Scanning };

    ghost view = { λ s. record { to = s.to; stream = s.stream; shape = s.shape } };

    ghost invariant = { λ s. IfSome s.shape IsShape };
}

/// The first fault of a packet of samples. `first` is the shape of the stream's first packet of samples.
fn fault_of(to: To, first: Shape, samples: &Samples) -> Option<ScanFault>
    ensures { result ≡ first_of (fault_rows to first samples.now) }
{
    if samples.format == to {
        return Some(ScanFault::Kind);
    }
    if !samples.whole {
        return Some(ScanFault::Format);
    }
    if fdf_of(samples.rate).is_none() || samples.rate != first.rate {
        return Some(ScanFault::Rate);
    }
    if samples.channels > 256 || samples.channels != first.channels {
        return Some(ScanFault::Channels);
    }
    if !samples.linear {
        return Some(ScanFault::Label);
    }
    None
}

impl Scan {
    /// A new scan. The scan looks for packets of the stream with this ID that cannot be converted to the format `to`.
    pub fn new(to: To, stream: u64) -> Self
        ensures { HasScanned to stream [] result }
    {
        Scan {
            to,
            stream,
            shape: None,
        }
    }

    /// Looks at the next record of a capture, given its bytes. Only packets of the stream are tested. A packet of audio
    /// is tested only if three things hold: the reader of its format accepts it, it has samples, and its rate is known.
    /// Other packets of audio are never presented. Each packet of H.264 is a fault, even a malformed one. After a fault
    /// the scan promises nothing.
    ///
    /// The fault is the first of these that holds: `Kind`, `Format`, `Rate`, `Channels`, `Label`.
    pub fn note(&mut self, bytes: &[u8]) -> Result<(), ScanFault>
        ensures scanned { OnOk result ((to : To) (stream : ℕ) (records : List Record) (r : Record) → r.bytes ≡ bytes.now → HasScanned to stream records self.old → HasScanned to stream (records ++ r ∷ []) self.new) }
        ensures fault { IfErr result (λ fault. (to : To) (stream : ℕ) (records others : List Record) (r : Record) → r.bytes ≡ bytes.now → HasScanned to stream records self.old → first_fault to stream (records ++ r ∷ others) ≡ Some (record { frame = suc (length records); fault = fault })) }
    {
        match content_of(self.stream, bytes) {
            Content::Silent => Ok(()),
            Content::Video => Err(ScanFault::Kind),
            Content::Audio(samples) => self.note_samples(&samples),
        }
    }

    /// Looks at a packet of samples.
    fn note_samples(&mut self, samples: &Samples) -> Result<(), ScanFault>
        requires { 1 ≤ samples.now.channels }
        ensures { NotesSamples self.old self.new samples.now result }
    {
        let first = self.shape.unwrap_or(Shape {
            rate: samples.rate,
            channels: samples.channels,
        });
        if let Some(fault) = fault_of(self.to, first, samples) {
            return Err(fault);
        }
        self.shape = Some(first);
        Ok(())
    }

    /// The sample rate and the channels of the stream's packets; `None` if the stream has no packet of samples so far.
    pub fn shape(&self) -> Option<Shape>
        ensures exact { (to : To) (stream : ℕ) (records : List Record) → HasScanned to stream records self.now → result ≡ shape_in stream records }
        ensures sound { IfSome result IsShape }
    {
        self.shape
    }
}
