//! Verdicts in words.

use crate::units::{Grouped, Packets, Signed, Span, Thousandths};
use std::fmt;
use stream_report::{At, ClockGuess, FieldCount, Tally, Verdict};

/// A verdict on a stream, in words. If there are several files, each frame is given with the number of its file.
#[derive(Clone, Copy)]
pub struct Said<'a> {
    pub verdict: Verdict,
    /// The fields at which the stream's malformed packets are refused.
    pub fields: &'a [FieldCount],
    pub many_files: bool,
}

impl fmt::Display for Said<'_> {
    fn fmt<W: fmt::Write>(&self, f: &mut fmt::Formatter<W>) -> fmt::Result {
        match self.verdict {
            Verdict::NotInOrder { .. } => self.say_order(f),
            Verdict::Clocks { lead, guess, exact } => say_clocks(lead, guess, exact, f),
            Verdict::FirstStamp { found, wanted } => say_first(found, wanted, f),
            Verdict::Steps { .. } => self.say_steps(f),
            Verdict::Drift { parts } => say_drift(parts, f),
            Verdict::Malformed { packets } => self.say_malformed(packets, f),
            Verdict::Lost { packets, most } => self.say_lost(packets, most, f),
            Verdict::Late { .. } => self.say_late(f),
            Verdict::Jitter { .. } => self.say_jitter(f),
            Verdict::Labels { quadlets, label } => self.say_labels(quadlets, label, f),
            Verdict::Flapping { restarts } => self.say_flapping(restarts, f),
            other => self.say_plain(other, f),
        }
    }
}

/// A frame in words: its number, and the number of its file if there are several files.
#[derive(Clone, Copy)]
struct Place {
    word: &'static str,
    at: At,
    many_files: bool,
}

impl fmt::Display for Place {
    fn fmt<W: fmt::Write>(&self, f: &mut fmt::Formatter<W>) -> fmt::Result {
        let word = self.word;
        let At { file, frame } = self.at;
        if self.many_files {
            write!(f, "{word} frame {frame} of file {file}")
        } else {
            write!(f, "{word} frame {frame}")
        }
    }
}

impl Said<'_> {
    fn place(&self, word: &'static str, at: At) -> Place {
        Place {
            word,
            at,
            many_files: self.many_files,
        }
    }

    /// Says in which frame something was first seen.
    fn say_where<W: fmt::Write>(
        &self,
        word: &'static str,
        tally: Tally,
        f: &mut fmt::Formatter<W>,
    ) -> fmt::Result {
        match tally.first {
            Some(at) => {
                let place = self.place(word, at);
                write!(f, ", first {place}")
            }
            None => Ok(()),
        }
    }

    fn say_order<W: fmt::Write>(&self, f: &mut fmt::Formatter<W>) -> fmt::Result {
        let Verdict::NotInOrder {
            off,
            compared,
            first,
            swapped,
        } = self.verdict
        else {
            return Ok(());
        };
        let off = Grouped(off);
        let compared = Grouped(compared);
        let place = self.place("in", first.at);
        let tail = if swapped {
            " (byte-swapped they would)"
        } else {
            ""
        };
        if first.wanted == 0 {
            return write!(
                f,
                "timestamps are not in order: {off} of {compared} go back, or far ahead{tail}, first {place}"
            );
        }
        let wanted = Span(first.wanted);
        write!(
            f,
            "timestamps are not in order: {off} of {compared} do not advance by {wanted}{tail}, first {place}"
        )
    }

    fn say_steps<W: fmt::Write>(&self, f: &mut fmt::Formatter<W>) -> fmt::Result {
        let Verdict::Steps {
            off,
            compared,
            first,
        } = self.verdict
        else {
            return Ok(());
        };
        let off = Grouped(off);
        let compared = Grouped(compared);
        let found = Signed(first.found);
        let wanted = Span(first.wanted);
        let place = self.place("in", first.at);
        write!(
            f,
            "{off} of {compared} timestamps step off their packets' time, first {place}: by {found}, {wanted} expected"
        )
    }

    fn say_malformed<W: fmt::Write>(
        &self,
        packets: Tally,
        f: &mut fmt::Formatter<W>,
    ) -> fmt::Result {
        say(packets, f, "malformed, by")?;
        for (place, counted) in self.fields.iter().enumerate() {
            let comma = if place > 0 { "," } else { "" };
            let name = counted.field.name();
            let count = Grouped(counted.count);
            write!(f, "{comma} {name} {count}")?;
        }
        self.say_where("in", packets, f)
    }

    fn say_lost<W: fmt::Write>(
        &self,
        packets: Tally,
        most: u64,
        f: &mut fmt::Formatter<W>,
    ) -> fmt::Result {
        let most = Grouped(most);
        say(packets, f, "lost, up to ")?;
        write!(f, "{most} in a row")?;
        self.say_where("before", packets, f)
    }

    fn say_late<W: fmt::Write>(&self, f: &mut fmt::Formatter<W>) -> fmt::Result {
        let Verdict::Late {
            packets,
            stamped,
            most,
        } = self.verdict
        else {
            return Ok(());
        };
        let late = Grouped(packets.count);
        let stamped = Packets(stamped);
        let most = Span(most);
        write!(
            f,
            "{late} of {stamped} after their presentation time, by up to {most}"
        )?;
        self.say_where("in", packets, f)
    }

    fn say_jitter<W: fmt::Write>(&self, f: &mut fmt::Formatter<W>) -> fmt::Result {
        let Verdict::Jitter {
            packets,
            compared,
            bursts,
        } = self.verdict
        else {
            return Ok(());
        };
        let head = if bursts {
            "packets come in bursts: "
        } else {
            ""
        };
        let uneven = Grouped(packets.count);
        let compared = Packets(compared);
        write!(
            f,
            "{head}{uneven} of {compared} come more than half a packet's time early or late"
        )?;
        self.say_where("in", packets, f)
    }

    fn say_labels<W: fmt::Write>(
        &self,
        quadlets: Tally,
        label: u8,
        f: &mut fmt::Formatter<W>,
    ) -> fmt::Result {
        let count = Grouped(quadlets.count);
        write!(
            f,
            "{count} AM824 quadlets with a label that has no meaning ({label:#04x})"
        )?;
        self.say_where("in", quadlets, f)
    }

    fn say_flapping<W: fmt::Write>(
        &self,
        restarts: Tally,
        f: &mut fmt::Formatter<W>,
    ) -> fmt::Result {
        let count = Grouped(restarts.count);
        let times = if restarts.count == 1 { "time" } else { "times" };
        write!(
            f,
            "media clock restart (mr) changed after fewer than 8 packets: {count} {times}"
        )?;
        self.say_where("in", restarts, f)
    }

    /// Says how many packets the verdict is about, and what is wrong with them.
    fn say_plain<W: fmt::Write>(&self, verdict: Verdict, f: &mut fmt::Formatter<W>) -> fmt::Result {
        let (packets, words) = plain(verdict);
        say(packets, f, words)?;
        self.say_where("in", packets, f)
    }
}

/// The count of packets, and the words that follow it.
fn plain(verdict: Verdict) -> (Tally, &'static str) {
    match verdict {
        Verdict::Senders { packets } => (packets, "of another sender, VLAN or destination"),
        Verdict::Blocks { packets } => (packets, "whose block count (DBC) does not continue"),
        Verdict::Repeated { packets } => (packets, "repeated"),
        Verdict::Reordered { packets } => (packets, "out of order"),
        Verdict::Missing { packets } => (packets, "without a timestamp where one belongs"),
        Verdict::Unwanted { packets } => (packets, "with a timestamp where none belongs"),
        Verdict::Formats { packets } => (packets, "of another format than the first"),
        Verdict::Reserved { packets } => (packets, "with a reserved bit set"),
        Verdict::Uncertain { packets } => (packets, "with an uncertain timestamp (tu)"),
        _ => (Tally::NONE, ""),
    }
}

fn say<W: fmt::Write>(packets: Tally, f: &mut fmt::Formatter<W>, words: &str) -> fmt::Result {
    let packets = Packets(packets.count);
    write!(f, "{packets} {words}")
}

fn say_clocks<W: fmt::Write>(
    lead: i64,
    guess: ClockGuess,
    exact: bool,
    f: &mut fmt::Formatter<W>,
) -> fmt::Result {
    let about = if exact { "" } else { " (modulo 4.29 s)" };
    match guess {
        ClockGuess::CaptureBehind => write!(
            f,
            "presentation times are 37 s after their arrivals{about}: the capture's clock is UTC, the talker's TAI"
        ),
        ClockGuess::CaptureAhead => write!(
            f,
            "presentation times are 37 s before their arrivals{about}: the talker's clock is UTC, the capture's TAI"
        ),
        ClockGuess::Apart => {
            let span = Span(lead.unsigned_abs());
            let way = if lead < 0 { "before" } else { "after" };
            write!(
                f,
                "presentation times are {span} {way} their arrivals{about}: the clocks of talker and capture are not synchronised"
            )
        }
    }
}

fn say_first<W: fmt::Write>(found: i64, wanted: u64, f: &mut fmt::Formatter<W>) -> fmt::Result {
    let found = Signed(found);
    let wanted = Span(wanted);
    write!(
        f,
        "the first timestamp is off: the second is {found} from it, {wanted} expected"
    )
}

/// This limit is 1,000 ppm, stated in parts per 10^9. A drift up to the limit is given in ppm. A greater drift is given
/// in percent, because it cannot come from a clock.
const MOST_DRIFT: u64 = 1_000_000;

fn say_drift<W: fmt::Write>(parts: i64, f: &mut fmt::Formatter<W>) -> fmt::Result {
    if parts.unsigned_abs() <= MOST_DRIFT {
        let ppm = Thousandths(i128::from(parts));
        return write!(
            f,
            "timestamps drift by {ppm} ppm against the capture's clock"
        );
    }
    let percent = Thousandths(i128::from(parts.unsigned_abs() / 10_000));
    let way = if parts < 0 { "slower" } else { "faster" };
    write!(
        f,
        "timestamps advance {percent} % {way} than their packets arrive"
    )
}
