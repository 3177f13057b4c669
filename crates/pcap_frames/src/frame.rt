//! Ethernet frames (IEEE 802.3), untagged or with one VLAN tag (IEEE 802.1Q).

ghost use Rattle.std.specs.Prelude.{◌≡◌, ◌+◌, ◌*◌, ◌^◌, ◌≤◌, ◌<◌, ◌==◌, List, ℕ, true, false, length, take, Some, IfOk, IsOkAnd};
ghost use Rattle.avtp_base.specs.Octets.{AreBytes, bits, flag, is_set};
ghost use Rattle.avtp_base.specs.Layout.{first_short, spelling};
ghost use Rattle.avtp_base.specs.Rows.{IsSpelledOnce, Reads, Writes};
ghost use Rattle.pcap_frames.specs.Frame.{Frame, IsWritableFrame, SpellsFrame, frame_layout, frame_of, frame_refusal, frame_shape, frame_spelling, plain_frame, tag_in as tag_that_stands_in};
ghost use Rattle.pcap_frames.specs.state.Frame.{HasHeader};

use avtp_base::octets::{bit_at, bits_at, low_bits_at, u16_at, u48_at, write_front};
use avtp_base::rows::cut_off;
use avtp_base::{Field, Refusal, Room};

/// The tag control information of a VLAN tag.
#[derive(Clone, Copy, Debug, PartialEq, Eq)]
pub struct Tag {
    /// The priority code point, 0 to 7.
    pub pcp: u8,
    /// The drop eligible indicator.
    pub dei: bool,
    /// The VLAN identifier, 0 to 4095.
    pub vid: u16,
}

/// An Ethernet frame.
#[derive(Clone, Copy, Debug)]
pub struct FrameView<'a> {
    /// The destination address, 48 bits.
    pub dst: u64,
    /// The source address, 48 bits.
    pub src: u64,
    pub tag: Option<Tag>,
    /// The EtherType, which is after the tag if there is one.
    pub ethertype: u16,
    /// The payload's offset in the frame, 14 or 18.
    pub start: usize,
    /// Everything after the header.
    pub payload: &'a [u8],
}

/// The EtherType that announces a VLAN tag.
const TAGGED: u16 = 0x8100;

fn short_untagged(len: usize) -> Option<Refusal>
    ensures { result ≡ first_short (frame_layout false) len }
{
    match len {
        0..=5 => Some(cut_off(Field::Destination, 0)),
        6..=11 => Some(cut_off(Field::Source, 6)),
        12..=13 => Some(cut_off(Field::Ethertype, 12)),
        _ => None,
    }
}

fn short_tag(len: usize) -> Option<Refusal>
    requires { 14 ≤ len }
    ensures { result ≡ first_short (frame_layout true) len }
{
    match len {
        14..=15 => Some(cut_off(Field::TagControl, 14)),
        16..=17 => Some(cut_off(Field::Ethertype, 16)),
        _ => None,
    }
}

fn tag_in(frame: &[u8]) -> Tag
    requires { 16 ≤ length frame.now }
    ensures { result ≡ tag_that_stands_in frame.now }
{
    Tag {
        pcp: bits_at(frame, 14, 0, 3),
        dei: bit_at(frame, 14, 3),
        vid: low_bits_at(frame, 14, 12),
    }
}

#[inline(always)]
fn read_untagged(frame: &[u8]) -> FrameView<'_>
    requires { HasHeader false frame.now }
    ensures { frame_shape result ≡ frame_of frame.now }
{
    FrameView {
        dst: u48_at(frame, 0),
        src: u48_at(frame, 6),
        tag: None,
        ethertype: u16_at(frame, 12),
        start: 14,
        payload: &frame[14..],
    }
}

#[inline(always)]
fn read_tagged(frame: &[u8]) -> FrameView<'_>
    requires { HasHeader true frame.now }
    ensures { frame_shape result ≡ frame_of frame.now }
{
    FrameView {
        dst: u48_at(frame, 0),
        src: u48_at(frame, 6),
        tag: Some(tag_in(frame)),
        ethertype: u16_at(frame, 16),
        start: 18,
        payload: &frame[18..],
    }
}

#[inline(always)]
fn read_either(frame: &[u8]) -> Result<FrameView<'_>, Refusal>
    ensures { Reads frame_shape (frame_refusal frame.now) (frame_of frame.now) result }
{
    if let Some(refusal) = short_untagged(frame.len()) {
        return Err(refusal);
    }
    if u16_at(frame, 12) != TAGGED {
        return Ok(read_untagged(frame));
    }
    if let Some(refusal) = short_tag(frame.len()) {
        return Err(refusal);
    }
    Ok(read_tagged(frame))
}

/// Reads an Ethernet frame with at most one tag; everything after the header is payload. If the header is cut off, the
/// call refuses the first field that is cut off. Nothing else is refused.
#[inline(always)]
pub fn read_frame(frame: &[u8]) -> Result<FrameView<'_>, Refusal>
    ensures exact { Reads frame_shape (frame_refusal frame.now) (frame_of frame.now) result }
    ensures spelled { IfOk result (λ view. SpellsFrame frame.now (frame_shape view)) }
    ensures only { (v : Frame) → SpellsFrame frame.now v → IsOkAnd result (λ view. frame_shape view ≡ v) }
{
    read_either(frame)
}

fn untagged_header(frame: &FrameView<'_>) -> [u8; 14]
    ensures { result ≡ spelling (frame_layout false) (frame_shape frame.now) }
{
    let dst = frame.dst.to_be_bytes();
    let src = frame.src.to_be_bytes();
    let ethertype = frame.ethertype.to_be_bytes();
    [
        dst[2],
        dst[3],
        dst[4],
        dst[5],
        dst[6],
        dst[7],
        src[2],
        src[3],
        src[4],
        src[5],
        src[6],
        src[7],
        ethertype[0],
        ethertype[1],
    ]
}

/// The tag control information as a 16-bit number.
fn control_of(tag: Tag) -> u16
    requires pcp { tag.pcp < 2 ^ 3 }
    requires vid { tag.vid < 2 ^ 12 }
    ensures { result ≡ (tag.pcp * 2 + flag tag.dei) * 2 ^ 12 + tag.vid }
{
    let high = u16::from(tag.pcp) << 1 | u16::from(tag.dei);
    high << 12 | tag.vid
}

fn tagged_header(frame: &FrameView<'_>, tag: Tag) -> [u8; 18]
    requires tag { frame.now.tag ≡ Some tag }
    requires whole { IsWritableFrame (frame_shape frame.now) }
    ensures { result ≡ spelling (frame_layout true) (frame_shape frame.now) }
{
    let dst = frame.dst.to_be_bytes();
    let src = frame.src.to_be_bytes();
    let mark = TAGGED.to_be_bytes();
    let control = control_of(tag).to_be_bytes();
    let ethertype = frame.ethertype.to_be_bytes();
    [
        dst[2],
        dst[3],
        dst[4],
        dst[5],
        dst[6],
        dst[7],
        src[2],
        src[3],
        src[4],
        src[5],
        src[6],
        src[7],
        mark[0],
        mark[1],
        control[0],
        control[1],
        ethertype[0],
        ethertype[1],
    ]
}

/// Writes an Ethernet frame, and returns its length. If the slice is too short, returns `Room` and leaves the slice
/// unchanged.
///
/// The addresses must be below 2^48, the tag's priority at most 7, and its VLAN identifier at most 4095. The EtherType
/// of an untagged frame must not be 0x8100, which would announce a tag. The view's `start` is not read.
pub fn write_frame(out: &mut [u8], frame: &FrameView<'_>) -> Result<usize, Room>
    requires { IsWritableFrame (frame_shape frame.now) }
    ensures written { Writes (frame_spelling (frame_shape frame.now)) out.old out.new result }
    ensures read_back { IfOk result (λ n. SpellsFrame (take n out.new) (plain_frame (frame_shape frame.now))) }
{
    match frame.tag {
        None => write_front(out, &untagged_header(frame), frame.payload),
        Some(tag) => write_front(out, &tagged_header(frame, tag), frame.payload),
    }
}

/// A law: bytes either encode exactly one frame, or are refused and encode none. The call does nothing.
pub fn one_frame()
    ensures { (bytes : List ℕ) → IsSpelledOnce (frame_refusal bytes) (λ (v : Frame). SpellsFrame bytes v) }
{}

/// A law: the bytes written for a frame encode that frame, with the length of its header as `start`. The call does
/// nothing.
pub fn frame_again()
    ensures { (v : Frame) → IsWritableFrame v → SpellsFrame (frame_spelling v) (plain_frame v) }
{}

/// A law: if bytes encode a frame, they are the bytes that are written for it. The call does nothing.
pub fn one_frame_spelling()
    ensures { (bytes : List ℕ) (v : Frame) → AreBytes bytes → SpellsFrame bytes v → bytes ≡ frame_spelling v }
{}
