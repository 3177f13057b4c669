//! Which packets of a stream must have a timestamp.

ghost use Rattle.std.specs.Prelude.{◌≡◌};
ghost use Rattle.aaf_format.specs.Aaf.{aaf_shape};
ghost use Rattle.cvf_format.specs.Cvf.{cvf_shape};
ghost use Rattle.iec61883_format.specs.Iec.{iec_shape};
ghost use Rattle.avtp_packet.specs.Packet.{packet_shape};
ghost use Rattle.avtp_packet.specs.StampPattern.{aaf_is_off as aaf_off, h264_is_off as h264_off, iec_is_off as iec_off, stamp_is_off};

use crate::packet::Packet;
use aaf_format::AafView;
use cvf_format::{CvfView, NalPart};
use iec61883_format::{IecView, anchor_index, syt_interval};

fn aaf_is_off(view: &AafView<'_>) -> bool
    ensures { result ≡ aaf_off (aaf_shape view.now) }
{
    let must_stamp = !view.sparse || view.header.seq % 8 == 0;
    view.count > 0 && view.header.tv != must_stamp
}

fn iec_is_off(view: &IecView<'_>) -> bool
    ensures { result ≡ iec_off (iec_shape view.now) }
{
    match syt_interval(view.cip.fdf) {
        Some(interval) => {
            let must_stamp = anchor_index(view.cip.dbc, interval) < view.count;
            view.count > 0 && view.header.tv != must_stamp
        }
        None => false,
    }
}

fn h264_is_off(view: &CvfView<'_>) -> bool
    ensures { result ≡ h264_off (cvf_shape view.now) }
{
    matches!(view.part, NalPart::Single | NalPart::Last) && !view.header.tv
}

/// Whether the packet has a timestamp that it must not have, or lacks one that it must have.
///
/// In a stream that is not sparse, each PCM packet must have a timestamp. In a sparse stream, a PCM packet must have a
/// timestamp if its sequence number is a multiple of 8, and must have none otherwise. An AM824 packet must have a
/// timestamp if the block count of one of its data blocks is a multiple of SYT_INTERVAL; otherwise it must have none.
/// The rules for PCM and AM824 do not apply to packets without samples. An H.264 packet that ends a NAL unit must have
/// a timestamp. For other packets there is no rule.
pub fn stamp_is_wrong(packet: &Packet<'_>) -> bool
    ensures { result ≡ stamp_is_off (packet_shape packet.now) }
{
    match packet {
        Packet::Iec(view) => iec_is_off(view),
        Packet::Aaf(view) => aaf_is_off(view),
        Packet::H264(view) => h264_is_off(view),
        Packet::Crf(_) | Packet::Other(_) => false,
    }
}
