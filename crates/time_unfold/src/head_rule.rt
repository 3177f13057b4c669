//! Which sample of a packet is stamped, and how far back the stamped sample is for a packet without a timestamp.

ghost use Rattle.std.specs.Prelude.{◌≡◌, ◌≤◌, ◌<◌, ℕ, IfSome};
ghost use Rattle.time_unfold.specs.Heads.{counted_block as counted_block_of, distance as distance_of, stamped_block as stamped_block_of, stamped_index as stamped_index_of};
ghost use Rattle.time_unfold.specs.Limits.{IsBehind, IsRule};

/// In a sparse stream, every eighth packet has a timestamp (IEEE 1722-2016, 7).
const SPARSE: u32 = 8;

/// The stamped sample is at most this many packets back.
const FARTHEST: u32 = 7;

/// Says which sample of a packet the packet's timestamp belongs to. If a packet has no timestamp, says which earlier
/// stamped sample the packet's first sample is counted from.
#[derive(Clone, Copy, Debug, PartialEq, Eq)]
pub enum HeadRule {
    /// AAF: each packet has a timestamp, which belongs to its first sample (IEEE 1722-2016, 7).
    Own,
    /// AAF in sparse mode: a packet has a timestamp if its sequence number is a multiple of 8, and the timestamp
    /// belongs to the packet's first sample (IEEE 1722-2016, 7).
    Eight,
    /// IEC 61883-6: the timestamp belongs to the first data block whose block count is a multiple of `interval`. The
    /// first block of the packet has the count `dbc`, modulo 256.
    Blocks { dbc: u8, interval: u32 },
}

/// A packet is counted from this stamped sample.
#[derive(Clone, Copy, Debug, PartialEq, Eq)]
pub struct Head {
    /// The instant of the stamped sample, in nanoseconds of gPTP.
    pub instant: i64,
    /// The number of samples from the stamped sample to the packet's first sample; negative if the stamped sample comes
    /// later.
    pub first: i64,
}

/// How far back the stamped sample is for a packet without a timestamp.
#[derive(Clone, Copy, Debug, PartialEq, Eq)]
pub struct Distance {
    /// The number of packets from the packet with the stamped sample to this packet.
    pub packets: u32,
    /// The number of samples from the stamped sample to the packet's first sample.
    pub samples: u32,
}

impl HeadRule {
    /// The timestamp of a packet belongs to one sample. The result is the number of that sample, counted from 0. In AAF
    /// the stamped sample is the first sample (IEEE 1722-2016, 7). In IEC 61883-6 the timestamp belongs to the first
    /// block whose block count is a multiple of the interval, which is 8, 16 or 32. The stamped block can be past the
    /// end of the packet.
    pub fn stamped_index(self) -> u32
        requires { IsRule self }
        ensures value { result ≡ stamped_index_of self }
        ensures few { result < 32 }
    {
        match self {
            HeadRule::Own | HeadRule::Eight => 0,
            HeadRule::Blocks { dbc, interval } => (interval - u32::from(dbc) % interval) % interval,
        }
    }

    /// The timestamp of a packet belongs to one block (IEC 61883-6). The result is the block count of that block,
    /// modulo 256; `None` for AAF. The interval is 8, 16 or 32.
    pub fn stamped_block(self) -> Option<u8>
        requires { IsRule self }
        ensures { result ≡ stamped_block_of self }
    {
        match self {
            HeadRule::Own | HeadRule::Eight => None,
            HeadRule::Blocks { dbc, interval: _ } => Some(dbc.wrapping_add(
                self.stamped_index() as u8,
            )),
        }
    }

    /// The time of a packet without a timestamp is counted from an earlier stamped block. In IEC 61883-6, the result is
    /// the block count, modulo 256, of the earlier stamped block; for AAF the result is `None`. The interval of a
    /// `Blocks` rule is 8, 16 or 32.
    pub fn counted_block(self) -> Option<u8>
        requires { IsRule self }
        ensures { result ≡ counted_block_of self }
    {
        match self {
            HeadRule::Own | HeadRule::Eight => None,
            HeadRule::Blocks { dbc, interval } => Some(
                (u32::from(dbc) - u32::from(dbc) % interval) as u8,
            ),
        }
    }

    /// How far back the stamped sample is if the packet has no timestamp. In sparse AAF, the stamped sample is the
    /// first sample of the nearest earlier packet whose sequence number is a multiple of 8. In IEC 61883-6, the stamped
    /// sample is the nearest earlier block whose block count is a multiple of the interval.
    ///
    /// `None` for AAF that is not sparse. The result is also `None` if the packet's own first sample should be stamped,
    /// or if the stamped sample is more than 7 packets back. The packet has 1 to 65,535 samples, and the interval is 8,
    /// 16 or 32.
    pub fn distance(self, seq: u8, count: u32) -> Option<Distance>
        requires rule { IsRule self }
        requires some { 1 ≤ count }
        requires count { count ≤ 65535 }
        ensures value { result ≡ distance_of self seq count }
        ensures behind { IfSome result (IsBehind count) }
    {
        match self {
            HeadRule::Own => None,
            HeadRule::Eight => {
                let packets = u32::from(seq) % SPARSE;
                if packets == 0 {
                    return None;
                }
                Some(Distance {
                    packets,
                    samples: packets * count,
                })
            }
            HeadRule::Blocks { dbc, interval } => {
                let samples = u32::from(dbc) % interval;
                if samples == 0 {
                    return None;
                }
                let packets = samples.div_ceil(count);
                if packets > FARTHEST {
                    return None;
                }
                Some(Distance { packets, samples })
            }
        }
    }
}
