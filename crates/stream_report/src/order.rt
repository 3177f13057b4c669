//! How many packets of a stream are lost, how many arrived more than once, and how many arrived after packets with
//! later numbers.

ghost use Rattle.std.specs.Prelude.{◌≡◌, ◌%◌, ℕ, []};
ghost use Rattle.stream_report.specs.Sequence.{CountsAhead, CountsNext, CountsOf};
ghost use Rattle.stream_report.specs.state.Orders.{PassesBy};

use crate::sequence::{Place, Window};
use crate::tally::{At, Tally};

/// The counts of a stream that are based on its sequence numbers.
#[derive(Clone, Copy)]
pub struct Order {
    window: Window,
    /// Packets that are missing. `most_lost` is the number of packets missing in the longest gap, as counted when the
    /// packet after that gap arrived.
    pub lost: Tally,
    pub most_lost: u64,
    /// Packets whose sequence number had arrived before.
    pub repeated: Tally,
    /// Packets that arrived after packets with later numbers.
    pub late: Tally,
}

impl Order {
    /// The counts of a stream whose first packet has this sequence number.
    pub fn first(seq: u8) -> Self
        ensures counts { (first : ℕ) → first % 256 ≡ seq → CountsOf result first [] }
    {
        Order {
            lost: Tally::NONE,
            most_lost: 0,
            repeated: Tally::NONE,
            late: Tally::NONE,
            window: Window::first(seq),
        }
    }

    /// Counts the next packet, and returns its place.
    pub fn note(&mut self, seq: u8, at: At) -> Place
        ensures { CountsNext self.old self.new seq result }
    {
        let place = self.window.place(seq);
        match place {
            Place::Ahead { missing } => self.pass(seq, u64::from(missing), at),
            Place::Late => {
                self.window.fill(seq);
                self.lost.take_back();
                self.late.note(at);
            }
            Place::Early => {
                self.window.fill(seq);
                self.late.note(at);
            }
            Place::Repeat => {
                self.window.fill(seq);
                self.repeated.note(at);
            }
        }
        place
    }

    /// Counts the next packet as one that is ahead of the newest by at most 256. Returns how many packets are missing
    /// between the newest packet and the next.
    pub fn resume(&mut self, seq: u8, at: At) -> u64
        ensures { CountsAhead self.old self.new seq result }
    {
        let missing = self.window.ahead(seq).saturating_sub(1);
        self.pass(seq, missing, at);
        missing
    }

    /// Counts a packet that is ahead of the newest. `missing` is the number of packets that are missing before the
    /// packet.
    fn pass(&mut self, seq: u8, missing: u64, at: At)
        ensures { PassesBy self.old self.new seq missing }
    {
        self.window.pass(seq);
        self.lost.add(missing, at);
        self.most_lost = self.most_lost.max(missing);
    }
}
