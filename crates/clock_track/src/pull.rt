//! The pull of a clock: the clock's base frequency is multiplied by this factor.

ghost use Rattle.std.specs.Prelude.{◌≡◌};
ghost use Rattle.clock_track.specs.Limits.{IsFactor};
ghost use Rattle.clock_track.specs.PairLines.{pull_down as pull_down_of, pull_up as pull_up_of};

/// The numerator of the factor that the code `pull` names. The base frequency is multiplied by this factor (IEEE
/// 1722-2016, 10).
pub fn pull_up(pull: u8) -> u64
    ensures value { result ≡ pull_up_of pull }
    ensures within { IsFactor result }
{
    match pull {
        1 => 1000,
        2 => 1001,
        3 => 24,
        4 => 25,
        _ => 1,
    }
}

/// The denominator of the factor that the code `pull` names.
pub fn pull_down(pull: u8) -> u64
    ensures value { result ≡ pull_down_of pull }
    ensures within { IsFactor result }
{
    match pull {
        1 => 1001,
        2 => 1000,
        3 => 25,
        4 => 24,
        5 => 8,
        _ => 1,
    }
}
