//! Packets of each format. Some packets have short numbers, and others have the longest numbers.

use aaf_format::{AafFormat, AafView};
use avtp_header::StreamHeader;
use crf_format::CrfView;
use cvf_format::{CvfView, NalPart};
use iec61883_format::{Cip, IecView};
use pcap_frames::FrameView;

const SHORT_HEADER: StreamHeader = StreamHeader {
    subtype: 2,
    sv: true,
    mr: false,
    format_bits: 0,
    tv: true,
    seq: 0,
    tu: false,
    stream_id: 0x0200_0000_0001_0001,
    timestamp: 1_002_000_000,
    data_length: 24,
};

const LONG_HEADER: StreamHeader = StreamHeader {
    subtype: 2,
    sv: true,
    mr: true,
    format_bits: 0,
    tv: false,
    seq: 255,
    tu: true,
    stream_id: 0xfedc_ba98_7654_3210,
    timestamp: u32::MAX,
    data_length: u16::MAX,
};

pub const DENSE: AafView<'static> = AafView {
    header: SHORT_HEADER,
    format: AafFormat::Int16,
    nsr: 5,
    channels: 2,
    depth: 16,
    sparse: false,
    evt: 0,
    count: 6,
    payload: &[],
    reserved: false,
};

pub const SPARSE: AafView<'static> = AafView {
    header: LONG_HEADER,
    format: AafFormat::Int16,
    nsr: 0,
    channels: 2,
    depth: 16,
    sparse: true,
    evt: 15,
    count: 6,
    payload: &[],
    reserved: false,
};

pub const IEC: IecView<'static> = IecView {
    header: LONG_HEADER,
    gateway_info: 1,
    channel: 63,
    tcode: 15,
    sy: 14,
    cip: Cip {
        sid: 62,
        dbs: 256,
        dbc: 254,
        fdf: 255,
        syt: 0,
    },
    count: u32::MAX,
    payload: &[],
    reserved: true,
};

pub const H264: CvfView<'static> = CvfView {
    header: LONG_HEADER,
    ptv: true,
    marker: false,
    evt: 15,
    h264_timestamp: u32::MAX,
    nal: 0xf7,
    part: NalPart::Single,
    body: &[],
    reserved: true,
};

pub const CRF: CrfView<'static> = CrfView {
    sv: false,
    mr: false,
    fs: true,
    tu: true,
    seq: 255,
    kind: 254,
    stream_id: 0xfedc_ba98_7654_3210,
    pull: 5,
    base_frequency: 0x1fff_ffff,
    interval: 65_535,
    payload: &[0xff; 24],
    reserved: true,
};

/// A frame whose EtherType is not that of AVTP.
pub const OTHER: FrameView<'static> = FrameView {
    dst: 0,
    src: 0,
    tag: None,
    ethertype: 0x88f7,
    start: 14,
    payload: &[0; 44],
};
