//! What a gateway reads from a record.

ghost use Rattle.std.specs.Prelude.{◌≡◌};
ghost use Rattle.aaf_format.specs.Aaf.{aaf_of, aaf_refusal};
ghost use Rattle.iec61883_format.specs.Iec.{iec_of, iec_refusal};
ghost use Rattle.listener.specs.Streams.{stream_packet_shape};
ghost use Rattle.am824_gateway.specs.Content.{am824_content as am824_content_of, content, packet_content as packet_content_of, pcm_content as pcm_content_of};

use crate::labels::are_linear;
use crate::scan::To;
use aaf_format::{AafFormat, rate_of, read_aaf};
use avtp_header::subtype;
use iec61883_format::{rate_of_fdf, read_iec};
use listener::{StreamPacket, packet_of_stream};

/// What a gateway reads from a packet of audio samples.
#[derive(Clone, Copy, Debug)]
pub(crate) struct Samples {
    /// The packet's format.
    pub format: To,
    /// Whether each sample has 24 bits and uses all of them.
    pub whole: bool,
    /// The sample rate in Hz.
    pub rate: u32,
    pub channels: u16,
    /// Whether each quadlet is linear audio of 24 bits. PCM has no quadlets, so for PCM this field is true.
    pub linear: bool,
}

/// The content of a record, as far as it belongs to a stream.
#[derive(Clone, Copy, Debug)]
pub(crate) enum Content {
    /// Nothing that can be presented.
    Silent,
    /// A packet of H.264.
    Video,
    Audio(Samples),
}

fn pcm_content(packet: &[u8]) -> Content
    ensures { result ≡ pcm_content_of (aaf_refusal packet.now) (aaf_of packet.now) }
{
    let Ok(view) = read_aaf(packet) else {
        return Content::Silent;
    };
    match rate_of(view.nsr) {
        Some(rate) if view.count != 0 => Content::Audio(Samples {
            format: To::Aaf,
            whole: view.format == AafFormat::Int24 && (view.depth == 0 || view.depth == 24),
            rate,
            channels: view.channels,
            linear: true,
        }),
        _ => Content::Silent,
    }
}

fn am824_content(packet: &[u8]) -> Content
    ensures { result ≡ am824_content_of (iec_refusal packet.now) (iec_of packet.now) }
{
    let Ok(view) = read_iec(packet) else {
        return Content::Silent;
    };
    match rate_of_fdf(view.cip.fdf) {
        Some(rate) if view.count != 0 => Content::Audio(Samples {
            format: To::Am824,
            whole: true,
            rate,
            channels: view.cip.dbs,
            linear: are_linear(view.payload),
        }),
        _ => Content::Silent,
    }
}

fn packet_content(packet: &StreamPacket<'_>) -> Content
    ensures { result ≡ packet_content_of (stream_packet_shape packet.now) }
{
    match packet.subtype {
        subtype::CVF => Content::Video,
        subtype::AAF => pcm_content(packet.bytes),
        _ => am824_content(packet.bytes),
    }
}

/// The content of a record with these bytes, as far as it belongs to the stream with this ID.
pub(crate) fn content_of(stream: u64, frame: &[u8]) -> Content
    ensures { result ≡ content stream frame.now }
{
    match packet_of_stream(stream, frame) {
        Some(packet) => packet_content(&packet),
        None => Content::Silent,
    }
}
