//! The rates of data blocks, and which block a packet's timestamp belongs to.

ghost use Rattle.std.specs.Prelude.{◌≡◌, ◌+◌, ◌%◌, ◌<◌, ◌↔◌, IfSome, IsNone};
ghost use Rattle.iec61883_format.specs.Iec.{IsSytInterval, anchor_index as index_of_anchor, rate_of_fdf as rate_of, syt_interval as interval_of};

use time_unfold::HeadRule;

/// The sample rate in Hz of an FDF (IEC 61883-6). `None` for codes above 6, including 255, the FDF of a no-data packet.
pub fn rate_of_fdf(fdf: u8) -> Option<u32>
    ensures exact { result ≡ rate_of fdf }
    ensures none { IsNone result ↔ (6 < fdf) }
{
    Some(match fdf {
        0 => 32_000,
        1 => 44_100,
        2 => 48_000,
        3 => 88_200,
        4 => 96_000,
        5 => 176_400,
        6 => 192_000,
        _ => return None,
    })
}

/// The SYT_INTERVAL of an FDF: one data block in this many has a timestamp (IEC 61883-6). `None` for codes above 6.
pub fn syt_interval(fdf: u8) -> Option<u32>
    ensures exact { result ≡ interval_of fdf }
    ensures none { IsNone result ↔ (6 < fdf) }
    ensures interval { IfSome result (λ interval. IsSytInterval interval) }
{
    Some(match fdf {
        0 | 1 | 2 => 8,
        3 | 4 => 16,
        5 | 6 => 32,
        _ => return None,
    })
}

/// The index of the data block that the timestamp of a packet belongs to, counted from 0. The packet's first block has
/// the count `dbc`. The timestamp belongs to the first block whose count is a multiple of the interval. The timestamp
/// can belong to a block that is past the end of the packet. The interval is 8, 16 or 32.
pub fn anchor_index(dbc: u8, interval: u32) -> u32
    requires { IsSytInterval interval }
    ensures exact { result ≡ index_of_anchor dbc interval }
    ensures within { result < interval }
    ensures multiple { (dbc + result) % interval ≡ 0 }
{
    HeadRule::Blocks { dbc, interval }.stamped_index()
}
