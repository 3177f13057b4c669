//! The options of each command in one table: their names, ranges and defaults.

use aaf_format::AafFormat;
use option_words::{OptionRow, Takes};

/// The greatest value of `--limit`, and also its default: 1 TiB. The option limits how many bytes of a capture are
/// read.
pub const MAX_LIMIT: u64 = 1 << 40;

pub const SHOW_OPTIONS: [OptionRow; 1] = [LIMIT];

pub const CHECK_OPTIONS: [OptionRow; 1] = [LIMIT];

pub const LIMIT: OptionRow = OptionRow {
    name: "--limit",
    takes: Takes::Number {
        low: 1,
        high: MAX_LIMIT,
    },
};

pub const LISTEN_OPTIONS: [OptionRow; 11] = [
    LIMIT,
    BUFFER,
    ROOM,
    LOOK,
    LISTEN_LEAD,
    CLOCK,
    CRF_SHIFT,
    RING,
    RAW,
    SILENCE,
    ANNEXB,
];

/// The options of `agree`. `agree` has the options of a listener.
pub const AGREE_OPTIONS: [OptionRow; 7] = [
    LIMIT,
    BUFFER,
    ROOM,
    LOOK,
    LISTEN_LEAD,
    CLOCK,
    CRF_SHIFT,
];

pub const GATEWAY_OPTIONS: [OptionRow; 9] = [
    LIMIT,
    BUFFER,
    ROOM,
    LOOK,
    LISTEN_LEAD,
    CLOCK,
    CRF_SHIFT,
    TO,
    ID,
];

/// The format that `gateway` writes. `--to` must be given.
pub const TO: OptionRow = OptionRow {
    name: "--to",
    takes: Takes::OutFormat,
};

/// The maximum number of packets that are queued until their presentation time.
pub const BUFFER: OptionRow = OptionRow {
    name: "--buffer",
    takes: Takes::Number {
        low: 1,
        high: 65_536,
    },
};

pub const BUFFER_DEFAULT: u32 = 4_096;

/// The maximum number of bytes in the queued packets: at most 1 GiB, by default 64 MiB.
pub const ROOM: OptionRow = OptionRow {
    name: "--room",
    takes: Takes::Number {
        low: 1,
        high: 1 << 30,
    },
};

pub const ROOM_DEFAULT: u32 = 1 << 26;

/// How many later items are read before an item is judged.
pub const LOOK: OptionRow = OptionRow {
    name: "--look",
    takes: Takes::Number { low: 0, high: 64 },
};

pub const LOOK_DEFAULT: u32 = 0;

/// The stream ID of the media clock whose timestamps determine the presentation times. Without this option, the
/// stream's own timestamps determine the presentation times.
pub const CLOCK: OptionRow = OptionRow {
    name: "--clock",
    takes: Takes::Id,
};

/// What is added to each timestamp of the media clock, in nanoseconds.
pub const CRF_SHIFT: OptionRow = OptionRow {
    name: "--crf-shift",
    takes: Takes::Signed {
        most: 1_000_000_000,
    },
};

pub const CRF_SHIFT_DEFAULT: i64 = 0;

/// How many items fit into the queue between the thread that judges and the thread that presents.
pub const RING: OptionRow = OptionRow {
    name: "--ring",
    takes: Takes::Number { low: 1, high: 256 },
};

pub const RING_DEFAULT: u32 = 64;

/// The file that gets the presented samples as raw audio. Without this option, no file of raw audio is written.
pub const RAW: OptionRow = OptionRow {
    name: "--raw",
    takes: Takes::Name,
};

/// The bytes that are written as silence in the raw audio; by default, bytes of 0.
pub const SILENCE: OptionRow = OptionRow {
    name: "--silence",
    takes: Takes::Silence,
};

/// The options that need `--raw`.
pub const RAW_OPTIONS: [OptionRow; 1] = [SILENCE];

/// Presented H.264 units are written to this file as a byte stream. Without `--annexb`, no byte stream of H.264 units
/// is written.
pub const ANNEXB: OptionRow = OptionRow {
    name: "--annexb",
    takes: Takes::Name,
};

/// The max transit time in nanoseconds. For a listener, 0 is allowed. For a talker, 0 is not allowed, because a talker
/// sends each packet before its presentation time.
pub const LISTEN_LEAD: OptionRow = OptionRow {
    name: "--lead",
    takes: Takes::Number {
        low: 0,
        high: 1_000_000_000,
    },
};

pub const TALK_LEAD: OptionRow = OptionRow {
    name: "--lead",
    takes: Takes::Number {
        low: 1,
        high: 1_000_000_000,
    },
};

pub const LEAD_DEFAULT: u32 = 2_000_000;

pub const TALK_OPTIONS: [OptionRow; 17] = [
    KIND,
    FORMAT,
    RATE,
    CHANNELS,
    COUNT,
    ID,
    START,
    TALK_LEAD,
    SPARSE,
    RESTART,
    JUMP,
    CRF,
    CRF_INTERVAL,
    CRF_POINTS,
    CRF_RATE,
    CRF_PULL,
    LAST_STAMP,
];

/// The options of `talk` that AAF does not allow.
pub const AAF_LACKS: [OptionRow; 1] = [LAST_STAMP];

/// The options of `talk` that AM824 does not allow.
pub const AM824_LACKS: [OptionRow; 3] = [FORMAT, SPARSE, LAST_STAMP];

/// The options of `talk` that H.264 does not allow.
pub const H264_LACKS: [OptionRow; 11] = [
    FORMAT,
    CHANNELS,
    COUNT,
    SPARSE,
    RESTART,
    JUMP,
    CRF,
    CRF_INTERVAL,
    CRF_POINTS,
    CRF_RATE,
    CRF_PULL,
];

/// The options that need `--restart`.
pub const RESTART_OPTIONS: [OptionRow; 1] = [JUMP];

/// The options that need `--crf`.
pub const CLOCK_OPTIONS: [OptionRow; 4] = [CRF_INTERVAL, CRF_POINTS, CRF_RATE, CRF_PULL];

pub const KIND: OptionRow = OptionRow {
    name: "--kind",
    takes: Takes::Kind,
};

pub const FORMAT: OptionRow = OptionRow {
    name: "--format",
    takes: Takes::Format,
};

pub const FORMAT_DEFAULT: AafFormat = AafFormat::Int16;

/// The sample rate in Hz, or for H.264 the access units per second.
pub const RATE: OptionRow = OptionRow {
    name: "--rate",
    takes: Takes::Number {
        low: 1,
        high: 192_000,
    },
};

pub const AUDIO_RATE_DEFAULT: u32 = 48_000;

pub const VIDEO_RATE_DEFAULT: u32 = 30;

/// The maximum number of H.264 access units per second.
pub const MAX_VIDEO_RATE: u32 = 240;

/// The number of channels of a sample frame.
pub const CHANNELS: OptionRow = OptionRow {
    name: "--channels",
    takes: Takes::Number {
        low: 1,
        high: 1_023,
    },
};

pub const CHANNELS_DEFAULT: u16 = 2;

/// The number of sample frames in a packet.
pub const COUNT: OptionRow = OptionRow {
    name: "--count",
    takes: Takes::Number {
        low: 1,
        high: 1_476,
    },
};

pub const COUNT_DEFAULT: u32 = 6;

/// The stream ID.
pub const ID: OptionRow = OptionRow {
    name: "--id",
    takes: Takes::Id,
};

pub const ID_DEFAULT: u64 = 0x0200_0000_0001_0001;

/// When the first packet is sent, in nanoseconds of gPTP.
pub const START: OptionRow = OptionRow {
    name: "--start",
    takes: Takes::Number {
        low: 0,
        high: 4_000_000_000_000_000_000,
    },
};

pub const START_DEFAULT: u64 = 1_000_000_000;

pub const SPARSE: OptionRow = OptionRow {
    name: "--sparse",
    takes: Takes::Nothing,
};

/// Only the last packet of each H.264 NAL unit has a timestamp.
pub const LAST_STAMP: OptionRow = OptionRow {
    name: "--last-stamp",
    takes: Takes::Nothing,
};

/// The number of packets from one media clock restart to the next. Without this option, there is no restart.
pub const RESTART: OptionRow = OptionRow {
    name: "--restart",
    takes: Takes::Number {
        low: 8,
        high: 1_000_000_000,
    },
};

/// How far each restart sets presentation times forward, in nanoseconds.
pub const JUMP: OptionRow = OptionRow {
    name: "--jump",
    takes: Takes::Number {
        low: 4,
        high: 1_000_000_000,
    },
};

pub const JUMP_DEFAULT: u32 = 1_000_000;

/// The stream ID of the media clock that is sent with the stream. Without this option, no clock is sent.
pub const CRF: OptionRow = OptionRow {
    name: "--crf",
    takes: Takes::Id,
};

/// The number of events of the clock from one timestamp to the next.
pub const CRF_INTERVAL: OptionRow = OptionRow {
    name: "--crf-interval",
    takes: Takes::Number {
        low: 1,
        high: 65_535,
    },
};

pub const CRF_INTERVAL_DEFAULT: u16 = 96;

/// The number of timestamps in a packet of the clock.
pub const CRF_POINTS: OptionRow = OptionRow {
    name: "--crf-points",
    takes: Takes::Number { low: 1, high: 180 },
};

pub const CRF_POINTS_DEFAULT: u8 = 1;

/// The base frequency of the clock in Hz, by default the stream's rate.
pub const CRF_RATE: OptionRow = OptionRow {
    name: "--crf-rate",
    takes: Takes::Number {
        low: 1,
        high: 200_000_000,
    },
};

/// The code of the pull factor. The clock's base frequency is multiplied by this factor.
pub const CRF_PULL: OptionRow = OptionRow {
    name: "--crf-pull",
    takes: Takes::Number { low: 0, high: 5 },
};

pub const CRF_PULL_DEFAULT: u8 = 0;

/// `soak` has no options.
pub const SOAK_OPTIONS: [OptionRow; 0] = [];

/// The maximum number of sample bytes in an AAF packet. An Ethernet frame carries 1,500 bytes, and the header takes 24
/// of them.
pub const MAX_SAMPLES: u64 = 1_476;

/// The maximum number of data block bytes in an AM824 packet. An Ethernet frame carries 1,500 bytes. The stream header
/// takes 24 bytes of the Ethernet payload, and the CIP header takes 8.
pub const MAX_BLOCKS: u64 = 1_468;

/// The maximum number of quadlets in an AM824 data block, one for each channel (IEC 61883-1).
pub const MAX_QUADLETS: u16 = 256;
