//! How fast the lead of a stream changes: the drift of the stream's timestamps against the packets' arrivals.

/// Arrival times are counted in units of 2^20 ns, about a millisecond.
const UNIT: u32 = 20;

/// If a lead moves further than this, some 18 minutes, the movement is not drift.
const FARTHEST: i64 = 1 << 40;

/// The maximum number of packets that are summed up. Times are less than 2^44, and leads are at most 2^40. No sum over
/// this many packets reaches 2^127.
const MOST: u64 = 1 << 32;

/// Sums of the times and leads of packets, for the straight line through them (least squares). Steps of the timestamps,
/// such as those at restarts of the media clock, are left out.
#[derive(Clone, Copy)]
pub struct Trend {
    count: u64,
    /// The lead of the last packet, with steps left out.
    lead: i64,
    least: i64,
    greatest: i64,
    last_time: u64,
    times: i128,
    leads: i128,
    squares: i128,
    products: i128,
}

impl Trend {
    /// The trend of no packets. Times and leads are measured relative to the time and the lead of the first packet.
    pub const NONE: Trend = Trend {
        count: 0,
        lead: 0,
        least: 0,
        greatest: 0,
        last_time: 0,
        times: 0,
        leads: 0,
        squares: 0,
        products: 0,
    };

    /// Notes a packet that arrived `since` nanoseconds after the first packet. The packet's lead exceeds the previous
    /// packet's lead by `change`.
    pub fn note(&mut self, since: u64, change: i64) {
        let lead = self.lead.saturating_add(change);
        if lead.unsigned_abs() > FARTHEST.unsigned_abs() || self.count >= MOST {
            return;
        }
        self.lead = lead;
        self.least = self.least.min(lead);
        self.greatest = self.greatest.max(lead);
        self.last_time = self.last_time.max(since);
        self.count = self.count.saturating_add(1);
        let time = i128::from(since >> UNIT);
        let lead = i128::from(lead);
        self.times = self.times.wrapping_add(time);
        self.leads = self.leads.wrapping_add(lead);
        self.squares = self.squares.wrapping_add(time.wrapping_mul(time));
        self.products = self.products.wrapping_add(time.wrapping_mul(lead));
    }

    /// The drift in parts of 10^9: by how many nanoseconds the lead grows in a second. `None` if there are too few
    /// packets to tell, or the sums are too great.
    pub fn drift(&self) -> Option<i64> {
        let count = i128::from(self.count);
        let rise = count
            .checked_mul(self.products)?
            .checked_sub(self.times.checked_mul(self.leads)?)?;
        let run = count
            .checked_mul(self.squares)?
            .checked_sub(self.times.checked_mul(self.times)?)?;
        quotient(rise, run)
    }

    /// The difference between the greatest and the least lead, with steps left out.
    pub fn spread(&self) -> u64 {
        self.greatest.abs_diff(self.least)
    }

    /// The time from the first packet's arrival to the latest arrival of a packet, in nanoseconds.
    pub fn time(&self) -> u64 {
        self.last_time
    }
}

/// The quotient of `rise`, in nanoseconds, and `run`, in time units, as parts of 10^9. If a product would not fit,
/// `rise` and `run` are divided by the same power of two.
fn quotient(rise: i128, run: i128) -> Option<i64> {
    let cut = bits_of(rise)
        .saturating_sub(96)
        .max(bits_of(run).saturating_sub(106));
    let whole = 1i128.checked_shl(cut)?;
    let up = rise.checked_div(whole)?.checked_mul(1_000_000_000)?;
    let down = run.checked_div(whole)?.checked_mul(1 << UNIT)?;
    i64::try_from(up.checked_div(down)?).ok()
}

/// The number of bits of a number's magnitude.
fn bits_of(number: i128) -> u32 {
    128u32.saturating_sub(number.unsigned_abs().leading_zeros())
}
