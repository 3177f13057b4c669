//! The clock of an interface.

ghost use Rattle.std.specs.Prelude.{◌≡◌, ◌≤◌, ◌<◌, ◌*◌, ◌/◌, ◌^◌, true, pos, IfSome};
ghost use Rattle.std.specs.Option.{option_map};
ghost use Rattle.pcapng_blocks.specs.Interface.{arrival_of, instant, is_resolution, units};

/// How an interface counts time (draft-ietf-opsawg-pcapng, section 4.2).
#[derive(Clone, Copy, Debug, PartialEq, Eq)]
pub struct Interface {
    /// The option `if_tsresol`: k for units of 10^-k seconds; 128 + k for units of 2^-k seconds.
    pub resolution: u8,
    /// The option `if_tsoffset`: seconds that are added to each timestamp.
    pub offset: i64,
}

/// The nanoseconds in a second.
const SECOND: u128 = 1_000_000_000;

/// The first instant, in nanoseconds, that is too late for an arrival.
const ARRIVAL_LIMIT: u64 = 4_294_967_296_000_000_000;

/// A clock that counts microseconds since the epoch.
pub const MICROSECONDS: Interface = Interface {
    resolution: 6,
    offset: 0,
};

/// Whether the resolution is accepted: no finer than 10^-18 or 2^-63 seconds.
pub fn resolved(resolution: u8) -> bool
    ensures { result ≡ is_resolution resolution }
{
    if resolution < 128 {
        resolution <= 18
    } else {
        resolution <= 191
    }
}

/// A timestamp converted to nanoseconds, rounded down.
///
/// Decimal units need no long division. If a unit is at least a nanosecond, it is a whole number of nanoseconds;
/// otherwise a nanosecond is a whole number of units.
#[tactic(auto, using(crate::proofs::Numbers::long_units, crate::proofs::Numbers::short_units, crate::proofs::Numbers::power_some, crate::proofs::Numbers::units_some))]
fn nanoseconds(resolution: u8, timestamp: u64) -> u128
    requires { is_resolution resolution ≡ true }
    ensures { result ≡ timestamp * 1000000000 / units resolution }
{
    if resolution >= 128 {
        u128::from(timestamp) * SECOND / u128::from(2u64.pow(u32::from(resolution) - 128))
    } else if resolution <= 9 {
        u128::from(timestamp) * u128::from(10u64.pow(9 - u32::from(resolution)))
    } else {
        u128::from(timestamp / 10u64.pow(u32::from(resolution) - 9))
    }
}

/// The instant of a timestamp, in nanoseconds, rounded down.
#[tactic(auto, using(crate::proofs::Numbers::time_limit), unfolding(crate::specs::Interface::instant))]
fn instant_of(interface: Interface, timestamp: u64) -> i128
    requires { is_resolution interface.resolution ≡ true }
    ensures { result ≡ instant interface timestamp }
{
    let nanoseconds = nanoseconds(interface.resolution, timestamp);
    i128::from(interface.offset) * 1_000_000_000 + nanoseconds as i128
}

/// The arrival of a packet, for any clock.
#[inline(never)]
fn any_arrival(interface: Interface, timestamp: u64) -> Option<i64>
    requires { is_resolution interface.resolution ≡ true }
    ensures { result ≡ arrival_of interface timestamp }
{
    let instant = instant_of(interface, timestamp);
    if instant < 0 || instant >= i128::from(ARRIVAL_LIMIT) {
        return None;
    }
    Some(instant as i64)
}

/// The arrival of a packet, in nanoseconds. `None` if the arrival is before the epoch, or at least 2^32 seconds after
/// the epoch.
///
/// Most clocks count nanoseconds or microseconds from the epoch. For a clock that counts nanoseconds or microseconds
/// from the epoch, one multiplication is enough.
#[tactic(auto, using(crate::proofs::Numbers::nanosecond_arrival, crate::proofs::Numbers::microsecond_arrival, crate::proofs::Numbers::nanosecond_late, crate::proofs::Numbers::microsecond_late))]
#[inline(always)]
pub fn arrival(interface: Interface, timestamp: u64) -> Option<i64>
    requires { is_resolution interface.resolution ≡ true }
    ensures { result ≡ arrival_of interface timestamp }
{
    match interface.resolution {
        9 if interface.offset == 0 => {
            if timestamp < ARRIVAL_LIMIT {
                Some(timestamp as i64)
            } else {
                None
            }
        }
        6 if interface.offset == 0 => {
            if timestamp < ARRIVAL_LIMIT / 1_000 {
                Some((timestamp * 1_000) as i64)
            } else {
                None
            }
        }
        _ => any_arrival(interface, timestamp),
    }
}
