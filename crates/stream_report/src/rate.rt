//! How many events a stream has per second, and how long a number of events takes.

/// Events per second, as a fraction. Events are sample frames, data blocks, or events of a media clock.
#[derive(Clone, Copy)]
pub struct Rate {
    pub events: u64,
    pub seconds: u64,
}

/// The number of nanoseconds in a second.
const SECOND: u64 = 1_000_000_000;

impl Rate {
    /// The rate of `events` events per second.
    pub fn of(events: u32) -> Rate {
        Rate {
            events: u64::from(events),
            seconds: 1,
        }
    }

    /// The rate of a media clock: its base frequency multiplied by the factor of the code `pull` (IEEE 1722-2016, 10.4.11).
    /// `None` for a reserved code.
    pub fn of_clock(base: u32, pull: u8) -> Option<Rate> {
        let (up, down) = match pull {
            0 => (1, 1),
            1 => (1000, 1001),
            2 => (1001, 1000),
            3 => (24, 25),
            4 => (25, 24),
            5 => (1, 8),
            _ => return None,
        };
        Some(Rate {
            events: u64::from(base).saturating_mul(up),
            seconds: down,
        })
    }

    /// The time that a number of events takes, in nanoseconds, rounded down. If the rate is 0, the time is 0.
    pub fn time_of(self, events: u64) -> u64 {
        let nanoseconds = SECOND.saturating_mul(self.seconds);
        if let Some(product) = events.checked_mul(nanoseconds) {
            return product.checked_div(self.events).unwrap_or(0);
        }
        let product = u128::from(events).saturating_mul(u128::from(nanoseconds));
        let time = product.checked_div(u128::from(self.events)).unwrap_or(0);
        u64::try_from(time).unwrap_or(u64::MAX)
    }
}

/// A rate, and the duration of a packet with the usual number of events. The duration is kept, because computing it for
/// each packet takes time.
#[derive(Clone, Copy)]
pub struct Beat {
    pub rate: Rate,
    events: u64,
    time: u64,
}

impl Beat {
    /// The beat of a stream where most packets have `events` events.
    pub fn new(rate: Rate, events: u32) -> Beat {
        let events = u64::from(events);
        Beat {
            rate,
            events,
            time: rate.time_of(events),
        }
    }

    /// The time that a number of events takes at this rate, in nanoseconds.
    pub fn time_of(self, events: u64) -> u64 {
        if events == self.events {
            self.time
        } else if events == 0 {
            0
        } else {
            self.rate.time_of(events)
        }
    }
}
