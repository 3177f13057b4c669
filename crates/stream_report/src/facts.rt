//! What a report notes about a packet.

use crate::pace::Stamp;
use crate::rate::Rate;
use crate::stream::StreamKey;
use aaf_format::{AafFormat, AafView, rate_of};
use avtp_header::{StreamHeader, subtype};
use crf_format::{CrfView, point};
use cvf_format::CvfView;
use iec61883_format::{IecView, anchor_index, rate_of_fdf, syt_interval};

/// The format of a stream's packets.
#[derive(Clone, Copy, PartialEq, Eq)]
pub enum Format {
    /// PCM of AAF. `depth` is the field `bit_depth`. The value 0 means that all bits of a sample are used.
    Aaf {
        format: AafFormat,
        rate: Option<u32>,
        channels: u16,
        depth: u8,
        sparse: bool,
    },
    /// AM824 data blocks of IEC 61883-6, with the number of quadlets in each block. A packet without data has no rate.
    Iec {
        rate: Option<u32>,
        quadlets: u16,
    },
    /// H.264.
    H264,
    /// A media clock: the type of its events, its base frequency, the code of its pull factor, the events per
    /// timestamp, and the timestamps per packet.
    Crf {
        kind: u8,
        base: u32,
        pull: u8,
        interval: u16,
        points: u32,
    },
    /// Unknown, because no packet was accepted yet.
    Unknown,
}

impl Format {
    /// The nominal rate of the stream's events. `None` if the format gives no rate.
    pub fn rate(&self) -> Option<Rate> {
        match *self {
            Format::Aaf { rate, .. } | Format::Iec { rate, .. } => rate.map(Rate::of),
            Format::Crf { base, pull, .. } => Rate::of_clock(base, pull),
            Format::H264 | Format::Unknown => None,
        }
    }
}

/// Counts of the labels of a packet's AM824 quadlets.
#[derive(Clone, Copy)]
pub struct Labels {
    /// The number of quadlets with a label other than 0x40.
    pub other: u32,
    /// The number of quadlets whose label is reserved by IEC 61883-6. `first_reserved` is the label of the first
    /// quadlet with a reserved label.
    pub reserved: u32,
    pub first_reserved: u8,
}

/// What a report notes about a packet.
#[derive(Clone, Copy)]
pub struct Facts {
    pub key: StreamKey,
    /// Whether the stream ID is valid.
    pub sv: bool,
    pub seq: u8,
    pub mr: bool,
    pub tu: bool,
    /// Whether a reserved bit is set.
    pub reserved: bool,
    /// Whether the packet has a timestamp that it should not have, or lacks one that it should have.
    pub stamp_wrong: bool,
    pub format: Format,
    /// The number of sample frames, data blocks or media clock events in the packet; 0 for H.264.
    pub count: u32,
    /// The index, among the packet's events, of the event that the timestamp belongs to.
    pub anchor: u32,
    pub stamp: Option<Stamp>,
    /// The block count (DBC) of the packet's first data block, modulo 256.
    pub dbc: Option<u8>,
    pub labels: Labels,
}

const NO_LABELS: Labels = Labels {
    other: 0,
    reserved: 0,
    first_reserved: 0,
};

/// The facts that the common header holds.
fn header_facts(header: &StreamHeader, format: Format) -> Facts {
    Facts {
        key: StreamKey {
            subtype: header.subtype,
            id: header.stream_id,
        },
        sv: header.sv,
        seq: header.seq,
        mr: header.mr,
        tu: header.tu,
        reserved: false,
        stamp_wrong: false,
        format,
        count: 0,
        anchor: 0,
        stamp: header.tv.then_some(Stamp::Short(header.timestamp)),
        dbc: None,
        labels: NO_LABELS,
    }
}

/// The facts of a packet of PCM.
pub fn aaf_facts(view: &AafView<'_>) -> Facts {
    let format = Format::Aaf {
        format: view.format,
        rate: rate_of(view.nsr),
        channels: view.channels,
        depth: view.depth,
        sparse: view.sparse,
    };
    let mut facts = header_facts(&view.header, format);
    facts.reserved = view.reserved;
    facts.count = view.count;
    facts
}

/// The facts of a packet of AM824.
pub fn iec_facts(view: &IecView<'_>) -> Facts {
    let format = Format::Iec {
        rate: rate_of_fdf(view.cip.fdf),
        quadlets: view.cip.dbs,
    };
    let mut facts = header_facts(&view.header, format);
    facts.reserved = view.reserved;
    facts.count = view.count;
    facts.anchor = anchor_of(view);
    facts.dbc = Some(view.cip.dbc);
    if view.count > 0 {
        facts.labels = labels_in(view.payload);
    }
    facts
}

fn anchor_of(view: &IecView<'_>) -> u32 {
    match syt_interval(view.cip.fdf) {
        Some(interval) => anchor_index(view.cip.dbc, interval),
        None => 0,
    }
}

/// The facts of a packet of H.264.
pub fn h264_facts(view: &CvfView<'_>) -> Facts {
    let mut facts = header_facts(&view.header, Format::H264);
    facts.reserved = view.reserved;
    facts
}

/// The facts of a packet of a media clock.
pub fn crf_facts(view: &CrfView<'_>) -> Facts {
    let points = u32::try_from(view.payload.len() / 8).unwrap_or(u32::MAX);
    let format = Format::Crf {
        kind: view.kind,
        base: view.base_frequency,
        pull: view.pull,
        interval: view.interval,
        points,
    };
    Facts {
        key: StreamKey {
            subtype: subtype::CRF,
            id: view.stream_id,
        },
        sv: view.sv,
        seq: view.seq,
        mr: view.mr,
        tu: view.tu,
        reserved: view.reserved,
        stamp_wrong: false,
        format,
        count: points.saturating_mul(u32::from(view.interval)),
        anchor: 0,
        stamp: first_point(view),
        dbc: None,
        labels: NO_LABELS,
    }
}

fn first_point(view: &CrfView<'_>) -> Option<Stamp> {
    if view.payload.len() < 8 {
        return None;
    }
    Some(Stamp::Long(point(view, 0)))
}

impl Labels {
    /// Counts a label if it is not 0x40.
    fn note(&mut self, label: u8) {
        if label == PLAIN_LABEL {
            return;
        }
        self.other = self.other.saturating_add(1);
        if is_reserved_label(label) {
            if self.reserved == 0 {
                self.first_reserved = label;
            }
            self.reserved = self.reserved.saturating_add(1);
        }
    }
}

/// Counts the labels of successive quadlets.
fn labels_in(quadlets: &[u8]) -> Labels {
    let mut labels = NO_LABELS;
    for quadlet in quadlets.chunks_exact(4) {
        if let Some(label) = quadlet.first().copied() {
            labels.note(label);
        }
    }
    labels
}

/// The label of linear audio of 24 bits (IEC 61883-6).
const PLAIN_LABEL: u8 = 0x40;

/// Whether IEC 61883-6 reserves the label. A reserved label has no meaning yet.
fn is_reserved_label(label: u8) -> bool {
    matches!(label, 0x44..=0x47 | 0x5c..=0x7f | 0x84..=0x87 | 0x90..=0xbf | 0xf0..=0xff)
}

/// The name of a subtype of AVTP (IEEE 1722-2016, table 6).
pub fn subtype_name(code: u8) -> Option<&'static str> {
    Some(match code {
        subtype::IEC_61883 => "iec",
        subtype::AAF => "aaf",
        subtype::CVF => "cvf",
        subtype::CRF => "crf",
        0x01 => "MMA",
        0x05 => "TSCF",
        0x06 => "SVF",
        0x07 => "RVF",
        0x6e => "AEF continuous",
        0x6f => "vendor stream",
        0x7f => "experimental stream",
        0x82 => "NTSCF",
        0xec => "ESCF",
        0xed => "EECF",
        0xee => "AEF discrete",
        0xfa => "ADP",
        0xfb => "AECP",
        0xfc => "ACMP",
        0xfe => "MAAP",
        0xff => "experimental control",
        _ => return None,
    })
}
