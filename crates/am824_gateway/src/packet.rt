//! The packets that carry pieces, and their frames.

ghost use Rattle.std.specs.Prelude.{◌≡◌, ◌*◌, ◌++◌, ℕ, IfSome, List, [], length, pos};
ghost use Rattle.aaf_format.specs.Aaf.{aaf_shape};
ghost use Rattle.iec61883_format.specs.Iec.{iec_shape};
ghost use Rattle.talk_plan.specs.Ethernet.{packet_bytes};
ghost use Rattle.am824_gateway.specs.Labels.{turned, value_out};
ghost use Rattle.am824_gateway.specs.Packets.{aaf_packet as aaf_packet_of, am824_packet as am824_packet_of, frame_size as frame_size_of, header_at as header_by, headers_of, packet_of, timestamp_at};
ghost use Rattle.am824_gateway.specs.Scan.{IsShape};
ghost use Rattle.am824_gateway.specs.state.Streams.{HasHeaders, TakesFrame, TakesHeaders, no_samples, stated_of};

use crate::labels::{put_bytes, turn_values};
use crate::piece::Piece;
use crate::rates::{fdf_of, nsr_of};
use crate::scan::{Shape, To};
use aaf_format::{AafFormat, AafView, write_aaf};
use avtp_header::{StreamHeader, subtype};
use iec61883_format::{Cip, IecView, write_iec};
use talk_plan::{ETHERNET_HEADER, write_ethernet};

/// The length of the headers of a frame of AM824: the Ethernet header with its tag, the stream header and the CIP
/// header.
pub(crate) const AM824_HEADERS: usize = ETHERNET_HEADER + 32;

/// The length of the headers of a frame of PCM.
const AAF_HEADERS: usize = ETHERNET_HEADER + 24;

/// The offset of the packet's sequence number in a frame (IEEE 1722-2016, 4.4.4).
const SEQUENCE_NUMBER: usize = ETHERNET_HEADER + 2;

/// The offset of the packet's timestamp in a frame.
const TIMESTAMP: usize = ETHERNET_HEADER + 12;

/// The offset, in a frame, of the stream data length, which is the number of bytes after the stream header.
const DATA_LENGTH: usize = ETHERNET_HEADER + 20;

/// The offset, in a frame of AM824, of the block count of the packet's first data block (IEC 61883-1).
const BLOCK_COUNT: usize = ETHERNET_HEADER + 27;

/// What all packets of a stream have in common: their format, their sample rate and channels, and their stream ID.
#[derive(Clone, Copy, Debug)]
pub(crate) struct Stream {
    pub to: To,
    pub shape: Shape,
    pub id: u64,
    /// The headers of a frame, which are encoded once. Frames differ in the sequence number, the timestamp, the length
    /// and the block count.
    pub headers: [u8; AM824_HEADERS],
}

/// The stream header of a packet that has no samples and whose payload has `length` bytes.
fn first_header(subtype: u8, id: u64, length: u16) -> StreamHeader
    ensures { result ≡ header_by subtype id 0 (pos 0) length }
{
    StreamHeader {
        subtype,
        sv: true,
        mr: false,
        format_bits: 0,
        tv: true,
        seq: 0,
        tu: false,
        stream_id: id,
        timestamp: 0,
        data_length: length,
    }
}

/// A packet of AM824 without samples.
fn am824_packet(shape: Shape, id: u64) -> IecView<'static>
    ensures { iec_shape result ≡ am824_packet_of shape (header_by 0 id 0 (pos 0) 8) no_samples [] }
{
    IecView {
        header: first_header(subtype::IEC_61883, id, 8),
        gateway_info: 0,
        channel: 31,
        tcode: 0xa,
        sy: 0,
        cip: Cip {
            sid: 63,
            dbs: shape.channels,
            dbc: 0,
            fdf: fdf_of(shape.rate).unwrap_or(0),
            syt: 0xffff,
        },
        count: 0,
        payload: &[],
        reserved: false,
    }
}

/// A packet of PCM without samples.
fn aaf_packet(shape: Shape, id: u64) -> AafView<'static>
    ensures { aaf_shape result ≡ aaf_packet_of shape (header_by 2 id 0 (pos 0) 0) no_samples [] }
{
    AafView {
        header: first_header(subtype::AAF, id, 0),
        format: AafFormat::Int24,
        nsr: nsr_of(shape.rate),
        channels: shape.channels,
        depth: 24,
        sparse: false,
        evt: 0,
        count: 0,
        payload: &[],
        reserved: false,
    }
}

/// The timestamp of an instant: the low 32 bits of the instant.
fn timestamp_of(instant: i64) -> u32
    ensures { result ≡ timestamp_at instant }
{
    instant.rem_euclid(1 << 32) as u32
}

/// The length of a frame's headers.
fn headers_size(to: To) -> usize
    ensures { result ≡ headers_of to }
{
    match to {
        To::Am824 => AM824_HEADERS,
        To::Aaf => AAF_HEADERS,
    }
}

/// Writes a frame without samples.
#[tactic(auto, unfolding(talk_plan::specs::Ethernet::packet_bytes))]
fn write_frame(out: &mut [u8], to: To, shape: Shape, id: u64)
    requires shape { IsShape shape }
    requires room { length out.old ≡ headers_of to }
    ensures { out.new ≡ packet_bytes (packet_of to shape id 0 (pos 0) no_samples []) }
{
    write_ethernet(&mut out[..ETHERNET_HEADER]);
    let packet = &mut out[ETHERNET_HEADER..];
    match to {
        To::Am824 => {
            let Ok(_) = write_iec(packet, &am824_packet(shape, id)) else {
                unreachable!()
            };
        }
        To::Aaf => {
            let Ok(_) = write_aaf(packet, &aaf_packet(shape, id)) else {
                unreachable!()
            };
        }
    }
}

/// The headers of a frame without samples, if the stream has a shape. The headers of PCM are shorter, and zeros follow
/// them.
pub(crate) fn first_headers(to: To, shape: Option<Shape>, id: u64) -> [u8; AM824_HEADERS]
    requires { IfSome shape IsShape }
    ensures { IfSome shape (λ shape. HasHeaders to shape id result) }
{
    let mut headers = [0; AM824_HEADERS];
    if let Some(shape) = shape {
        write_frame(&mut headers[..headers_size(to)], to, shape, id);
    }
    headers
}

impl Stream {
    /// The number of bytes of a value as it is sent.
    fn value_size(&self) -> usize
        ensures { result ≡ value_out self.now.to }
    {
        match self.to {
            To::Am824 => 4,
            To::Aaf => 3,
        }
    }

    /// The length of a piece's frame.
    pub fn frame_size(&self, piece: Piece) -> usize
        ensures { result ≡ frame_size_of self.now.to self.now.shape piece }
    {
        headers_size(self.to)
            + piece.count as usize * (self.value_size() * usize::from(self.shape.channels))
    }

    /// Writes the headers of a frame without samples.
    fn write_first(&self, out: &mut [u8])
        requires { TakesHeaders self.now out.old }
        ensures { out.new ≡ packet_bytes (packet_of self.now.to self.now.shape self.now.id 0 (pos 0) no_samples []) }
    {
        match self.to {
            To::Am824 => put_bytes(out, 0, &self.headers),
            To::Aaf => {
                let Some(headers) = self.headers.first_chunk::<AAF_HEADERS>() else {
                    unreachable!()
                };
                put_bytes(out, 0, headers);
            }
        }
    }

    /// Writes the headers of packet `n`, which carries `piece`. The piece's first sample is presented at `instant`.
    /// `stated` is the number of bytes after the stream header.
    fn write_headers(&self, out: &mut [u8], n: u64, instant: i64, piece: Piece, stated: u16)
        requires headers { TakesHeaders self.now out.old }
        requires stated { stated ≡ stated_of self.now.to self.now.shape piece }
        ensures { (samples : List ℕ) → out.new ++ samples ≡ packet_bytes (packet_of self.now.to self.now.shape self.now.id n instant piece samples) }
    {
        let timestamp = timestamp_of(instant);
        self.write_first(out);
        put_bytes(out, SEQUENCE_NUMBER, &[(n % 256) as u8]);
        put_bytes(out, TIMESTAMP, &timestamp.to_be_bytes());
        put_bytes(out, DATA_LENGTH, &stated.to_be_bytes());
        match self.to {
            To::Am824 => put_bytes(out, BLOCK_COUNT, &[piece.block]),
            To::Aaf => {}
        }
    }

    /// Writes the frame of packet `n`, which carries `piece` with these values. The piece's first sample is presented
    /// at `instant`.
    pub fn write(&self, out: &mut [u8], n: u64, instant: i64, piece: Piece, values: &[u8])
        requires { TakesFrame self.now piece values.now out.old }
        ensures { out.new ≡ packet_bytes (packet_of self.now.to self.now.shape self.now.id n instant piece (turned self.now.to (piece.count * self.now.shape.channels) values.now)) }
    {
        let stated = (out.len() - AAF_HEADERS) as u16;
        let number = piece.count as usize * usize::from(self.shape.channels);
        let (headers, samples) = out.split_at_mut(headers_size(self.to));
        self.write_headers(headers, n, instant, piece, stated);
        turn_values(self.to, samples, number, values);
    }
}
