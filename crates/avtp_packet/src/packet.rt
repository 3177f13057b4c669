//! The AVTP packet in a frame.

ghost use Rattle.std.specs.Prelude.{◌≡◌, ◌<◌, ◌^◌, IfErr, IfOk};
ghost use Rattle.avtp_base.specs.Rows.{Reads};
ghost use Rattle.aaf_format.specs.Aaf.{aaf_of, aaf_refusal};
ghost use Rattle.crf_format.specs.Crf.{crf_of, crf_refusal};
ghost use Rattle.cvf_format.specs.Cvf.{cvf_of, cvf_refusal};
ghost use Rattle.iec61883_format.specs.Iec.{iec_of, iec_refusal};
ghost use Rattle.avtp_packet.specs.Packet.{HasPoint, OfAaf, OfCrf, OfH264, OfIec, kind_of, kind_refusal, packet_of, packet_refusal, packet_shape};

use aaf_format::{AafView, read_aaf};
use avtp_base::Refusal;
use avtp_header::{peek_subtype, subtype};
use crf_format::{CrfView, read_crf};
use cvf_format::{CvfView, read_cvf};
use iec61883_format::{IecView, read_iec};

/// A packet of a supported format, or a packet of another format.
#[derive(Clone, Copy, Debug)]
pub enum Packet<'a> {
    /// AM824 data blocks (IEC 61883-6).
    Iec(IecView<'a>),
    /// PCM samples of the AVTP audio format (IEEE 1722-2016, 7).
    Aaf(AafView<'a>),
    /// A NAL unit of H.264 or a fragment of one (IEEE 1722-2016, 8).
    H264(CvfView<'a>),
    /// Timestamps of a media clock (IEEE 1722-2016, 10).
    Crf(CrfView<'a>),
    /// A packet of another format, with this subtype.
    Other(u8),
}

/// Reads a packet in the format that its subtype names.
///
/// An empty slice is refused, because it cuts off the subtype. A slice of a supported format is refused if and only if
/// that format refuses it. A packet of another format is never refused. A clock reference packet has at least one
/// timestamp.
#[inline(always)]
pub fn read_packet(pdu: &[u8]) -> Result<Packet<'_>, Refusal>
    ensures exact { Reads packet_shape (packet_refusal pdu.now) (packet_of pdu.now) result }
    ensures near { IfErr result (λ refusal. refusal.at < 2 ^ 32) }
    ensures point { IfOk result HasPoint }
{
    let subtype = peek_subtype(pdu)?;
    read_kind(subtype, pdu)
}

#[inline(always)]
#[tactic(auto, unfolding(crate::specs::Packet::kind_of, crate::specs::Packet::kind_refusal))]
fn read_kind(subtype: u8, pdu: &[u8]) -> Result<Packet<'_>, Refusal>
    ensures exact { Reads packet_shape (kind_refusal subtype pdu.now) (kind_of subtype pdu.now) result }
    ensures near { IfErr result (λ refusal. refusal.at < 2 ^ 32) }
    ensures point { IfOk result HasPoint }
{
    match subtype {
        subtype::IEC_61883 => iec(pdu),
        subtype::AAF => aaf(pdu),
        subtype::CVF => h264(pdu),
        subtype::CRF => crf(pdu),
        _ => Ok(Packet::Other(subtype)),
    }
}

#[inline(always)]
fn iec(pdu: &[u8]) -> Result<Packet<'_>, Refusal>
    ensures exact { Reads packet_shape (iec_refusal pdu.now) (OfIec (iec_of pdu.now)) result }
    ensures near { IfErr result (λ refusal. refusal.at < 2 ^ 32) }
    ensures point { IfOk result HasPoint }
{
    match read_iec(pdu) {
        Ok(view) => Ok(Packet::Iec(view)),
        Err(refusal) => Err(refusal),
    }
}

#[inline(always)]
fn aaf(pdu: &[u8]) -> Result<Packet<'_>, Refusal>
    ensures exact { Reads packet_shape (aaf_refusal pdu.now) (OfAaf (aaf_of pdu.now)) result }
    ensures near { IfErr result (λ refusal. refusal.at < 2 ^ 32) }
    ensures point { IfOk result HasPoint }
{
    match read_aaf(pdu) {
        Ok(view) => Ok(Packet::Aaf(view)),
        Err(refusal) => Err(refusal),
    }
}

#[inline(always)]
fn h264(pdu: &[u8]) -> Result<Packet<'_>, Refusal>
    ensures exact { Reads packet_shape (cvf_refusal pdu.now) (OfH264 (cvf_of pdu.now)) result }
    ensures near { IfErr result (λ refusal. refusal.at < 2 ^ 32) }
    ensures point { IfOk result HasPoint }
{
    match read_cvf(pdu) {
        Ok(view) => Ok(Packet::H264(view)),
        Err(refusal) => Err(refusal),
    }
}

#[inline(always)]
fn crf(pdu: &[u8]) -> Result<Packet<'_>, Refusal>
    ensures exact { Reads packet_shape (crf_refusal pdu.now) (OfCrf (crf_of pdu.now)) result }
    ensures near { IfErr result (λ refusal. refusal.at < 2 ^ 32) }
    ensures point { IfOk result HasPoint }
{
    match read_crf(pdu) {
        Ok(view) => Ok(Packet::Crf(view)),
        Err(refusal) => Err(refusal),
    }
}
