//! The codes of the sample rates that both formats have.

ghost use Rattle.std.specs.Prelude.{◌≡◌, unwrap_or};
ghost use Rattle.talk_plan.specs.Plan.{fdf_of as fdf_by, interval_of as interval_by, rate_code};

/// The code (FDF) of a sample rate in Hz, if IEC 61883-6 has one.
pub(crate) fn fdf_of(rate: u32) -> Option<u8>
    ensures { result ≡ fdf_by rate }
{
    Some(match rate {
        32_000 => 0,
        44_100 => 1,
        48_000 => 2,
        88_200 => 3,
        96_000 => 4,
        176_400 => 5,
        192_000 => 6,
        _ => return None,
    })
}

/// SYT_INTERVAL at a sample rate in Hz, and 8 if IEC 61883-6 does not have the rate. One in this many data blocks has a
/// timestamp.
pub(crate) fn interval_of(rate: u32) -> u32
    ensures { result ≡ interval_by rate }
{
    match rate {
        88_200 | 96_000 => 16,
        176_400 | 192_000 => 32,
        _ => 8,
    }
}

/// The code, in AAF, of a sample rate in Hz, and 0 if AAF does not have the rate (IEEE 1722-2016, 7).
pub(crate) fn nsr_of(rate: u32) -> u8
    ensures { result ≡ unwrap_or (rate_code rate) 0 }
{
    match rate {
        8_000 => 1,
        16_000 => 2,
        32_000 => 3,
        44_100 => 4,
        48_000 => 5,
        88_200 => 6,
        96_000 => 7,
        176_400 => 8,
        192_000 => 9,
        24_000 => 10,
        _ => 0,
    }
}
