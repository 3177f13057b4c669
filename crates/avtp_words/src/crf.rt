//! The media clock that `talk` sends with a stream.

ghost use Rattle.std.specs.Prelude.{◌↔◌, IsTrue};
ghost use Rattle.avtp_words.specs.Grammar.{FitsClock, HasWholeRuns};
ghost use Rattle.avtp_words.specs.state.Reading.{ClockIsWithin, IsEvents, IsReadClock, IsSpacing, IsWithin};
ghost use Rattle.option_words.specs.Word.{texts};

use crate::limits::{
    CRF, CRF_INTERVAL, CRF_INTERVAL_DEFAULT, CRF_POINTS, CRF_POINTS_DEFAULT, CRF_PULL,
    CRF_PULL_DEFAULT, CRF_RATE,
};
use clock_track::{pull_down, pull_up};
use option_words::{byte_after, id_if, short_number_after, small_number_after};

/// A media clock that is sent with a stream (IEEE 1722-2016, 10). The clock's timestamps are at whole sample frames of
/// the stream. If the stream restarts, there is a whole number of clock packets between two restarts, and this number
/// is a multiple of 8.
#[derive(Clone, Copy, Debug, PartialEq, Eq)]
pub struct Crf {
    /// The stream ID of the clock.
    pub id: u64,
    /// The base frequency in Hz, 1 to 200,000,000.
    pub rate: u32,
    /// The code, 0 to 5, of the pull factor. The base frequency is multiplied by this factor.
    pub pull: u8,
    /// The number of events of the clock from one timestamp to the next, 1 to 65,535.
    pub interval: u16,
    /// The number of timestamps in a packet, 1 to 180.
    pub points: u8,
}

/// The media clock that the options ask for. The stream has `rate` sample frames a second. `None` if the options ask
/// for no media clock.
pub fn crf_after(options: &[String], rate: u32) -> Option<Crf>
    ensures { IsReadClock (texts options.now) rate result }
{
    let id = id_if(options, CRF.name)?;
    Some(Crf {
        id,
        rate: small_number_after(options, CRF_RATE.name, rate),
        pull: byte_after(options, CRF_PULL.name, CRF_PULL_DEFAULT),
        interval: short_number_after(options, CRF_INTERVAL.name, CRF_INTERVAL_DEFAULT),
        points: byte_after(options, CRF_POINTS.name, CRF_POINTS_DEFAULT),
    })
}

/// Whether the clock fits a stream with `rate` sample frames a second and `count` sample frames in a packet. True if
/// there is no clock.
pub fn fits_clock(crf: Option<Crf>, rate: u32, count: u32, restart: Option<u32>) -> bool
    requires { ClockIsWithin crf rate }
    ensures { IsTrue result ↔ FitsClock crf rate count restart }
{
    match crf {
        Some(crf) => {
            let up = u64::from(crf.rate) * pull_up(crf.pull);
            let events = crf.events_by(rate);
            events % up == 0 && crf.has_whole_runs(events / up, rate, count, restart)
        }
        None => true,
    }
}

impl Crf {
    /// The product of the clock's interval, `rate`, and the denominator of the pull factor.
    fn events_by(self, rate: u32) -> u64
        requires { IsWithin self rate }
        ensures { IsEvents self rate result }
    {
        u64::from(self.interval) * u64::from(rate) * pull_down(self.pull)
    }

    /// Whether the number of clock packets between two restarts is whole and a multiple of 8. True if there are no
    /// restarts.
    fn has_whole_runs(self, spacing: u64, rate: u32, count: u32, restart: Option<u32>) -> bool
        requires { IsSpacing self rate spacing }
        ensures { IsTrue result ↔ HasWholeRuns self rate count restart }
    {
        match restart {
            Some(packets) => {
                let run = u64::from(packets) * u64::from(count);
                run % (8 * spacing * u64::from(self.points)) == 0
            }
            None => true,
        }
    }
}
