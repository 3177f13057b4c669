//! The plans of the tests.

ghost use Rattle.talk_plan.specs.Plan.{IsPlan};

use aaf_format::AafFormat;
use talker::{CrfPlan, TalkKind, TalkPlan};

/// A plan: its format, and how it differs from a plan with six stereo sample frames in a packet at 48 kHz.
#[derive(Clone, Copy)]
pub enum Planned {
    Pcm,
    Int24,
    Int32,
    Float32,
    Pcm24000,
    Pcm44100,
    Pcm88200,
    Pcm176400,
    Sparse,
    /// Sparse PCM, with a restart after every ten packets.
    Restarting,
    Blocks,
    /// One data block in a packet at 44.1 kHz.
    Blocks44100By1,
    Blocks44100By6,
    Blocks48000By5,
    Blocks192000By5,
    Blocks192000By6,
    Blocks192000By7,
    Blocks192000By32,
    /// A CRF timestamp every 2 ms.
    Clocked,
    /// A CRF timestamp every 147 events of a clock of 44.1 kHz.
    Clocked44100,
    /// A CRF packet with every second packet of the stream.
    Beside,
    /// A restart after every eight packets, and a CRF packet with each packet of the stream.
    RestartingClock,
    /// A stream and its clock at 44.1 kHz, with a CRF timestamp every 100 events.
    OnClock,
    /// 30 access units of H.264 a second.
    Video,
    /// NAL units that are stamped only on their last fragments.
    LastStamp,
    /// One access unit a second.
    Slow,
}

/// A plan with some fields changed.
macro_rules! with {
    ($plan:ident, $($field:ident: $value:expr),+) => {
        TalkPlan { $($field: $value,)+ ..$plan }
    };
}

/// A format of PCM.
macro_rules! pcm {
    ($format:ident) => {
        TalkKind::Aaf { format: AafFormat::$format, sparse: false }
    };
}

/// The plan `CLOCK` with another rate and interval.
macro_rules! crf {
    ($rate:expr, $interval:expr) => {
        Some(CrfPlan { rate: $rate, interval: $interval, ..CLOCK })
    };
}

const PCM: TalkPlan = TalkPlan {
    kind: TalkKind::Aaf {
        format: AafFormat::Int16,
        sparse: false,
    },
    rate: 48_000,
    channels: 2,
    count: 6,
    id: 0x0200_0000_0001_0001,
    start: 1_000_000_000,
    lead: 2_000_000,
    restart: None,
    jump: 1_000_000,
    crf: None,
};

const SPARSE: TalkPlan = TalkPlan {
    kind: TalkKind::Aaf {
        format: AafFormat::Int16,
        sparse: true,
    },
    ..PCM
};

const BLOCKS: TalkPlan = TalkPlan {
    kind: TalkKind::Am824,
    ..PCM
};

const CLOCK: CrfPlan = CrfPlan {
    id: 0x0200_0000_0001_0002,
    rate: 48_000,
    pull: 0,
    interval: 96,
    points: 1,
};

const VIDEO: TalkPlan = TalkPlan {
    kind: TalkKind::H264 { last_stamp: false },
    rate: 30,
    ..PCM
};

impl Planned {
    #[tactic(auto, unfolding(talk_plan::specs::Plan::spacing_of))]
    pub fn plan(self) -> TalkPlan
        ensures { IsPlan result }
    {
        match self {
            Planned::Pcm => PCM,
            Planned::Int24 => with!(PCM, kind: pcm!(Int24)),
            Planned::Int32 => with!(PCM, kind: pcm!(Int32)),
            Planned::Float32 => with!(PCM, kind: pcm!(Float32)),
            Planned::Pcm24000 => with!(PCM, rate: 24_000),
            Planned::Pcm44100 => with!(PCM, rate: 44_100),
            Planned::Pcm88200 => with!(PCM, rate: 88_200),
            Planned::Pcm176400 => with!(PCM, rate: 176_400),
            Planned::Sparse => SPARSE,
            Planned::Restarting => with!(SPARSE, restart: Some(10)),
            Planned::Blocks => BLOCKS,
            Planned::Blocks44100By1 => with!(BLOCKS, rate: 44_100, count: 1),
            Planned::Blocks44100By6 => with!(BLOCKS, rate: 44_100),
            Planned::Blocks48000By5 => with!(BLOCKS, count: 5),
            Planned::Blocks192000By5 => with!(BLOCKS, rate: 192_000, count: 5),
            Planned::Blocks192000By6 => with!(BLOCKS, rate: 192_000),
            Planned::Blocks192000By7 => with!(BLOCKS, rate: 192_000, count: 7),
            Planned::Blocks192000By32 => with!(BLOCKS, rate: 192_000, count: 32),
            Planned::Clocked => with!(PCM, crf: Some(CLOCK)),
            Planned::Clocked44100 => with!(PCM, crf: crf!(44_100, 147)),
            Planned::Beside => with!(PCM, crf: crf!(48_000, 12)),
            Planned::RestartingClock => with!(PCM, restart: Some(8), crf: crf!(48_000, 6)),
            Planned::OnClock => with!(PCM, rate: 44_100, crf: crf!(44_100, 100)),
            Planned::Video => VIDEO,
            Planned::LastStamp => with!(VIDEO, kind: TalkKind::H264 { last_stamp: true }),
            Planned::Slow => with!(VIDEO, rate: 1),
        }
    }
}
