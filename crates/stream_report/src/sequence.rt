//! How a packet's sequence number relates to the sequence numbers that have arrived before.

ghost use Rattle.std.specs.Prelude.{◌≡◌, ◌==◌, ◌%◌, ◌≤◌, ◌<◌, ℕ, List, [], ◌∷◌};
ghost use Rattle.std.specs.Int.{bit_at};
ghost use Rattle.stream_report.specs.Sequence.{Follows, Passes, Returns, StandsFor, ahead_of, greatest, lost, lost_with, place_of};
ghost use Rattle.stream_report.specs.state.Bits.{Moves, Marks};

/// If a sequence number is at most this far ahead of the newest, it belongs to a later packet. A sequence number that
/// is more than this far ahead of the newest belongs to an earlier packet.
const FARTHEST: u8 = 192;

/// The window covers this many sequence numbers, up to and including the newest, and knows which of them have arrived.
const KNOWN: u64 = 64;

/// The newest sequence number of a stream, and which of the 64 numbers up to the newest have arrived.
#[derive(Clone, Copy)]
pub struct Window {
    newest: u8,
    /// Bit `i` is set if the newest number minus `i` has arrived.
    came: u64,
    /// How far the first packet's number is before the newest number, but at most 64.
    begin: u64,
}

/// How a packet's number relates to the numbers that have arrived before.
#[derive(Clone, Copy)]
pub enum Place {
    /// The packet is ahead of the newest packet. `missing` is the number of packets that are missing between the newest
    /// packet and this packet.
    Ahead { missing: u8 },
    /// The number is between the first packet's number and the newest number, and had not arrived before. The packet is
    /// late, and was counted as missing.
    Late,
    /// The number is before the first packet's number, and had not arrived before. The packet is late, but was not
    /// counted as missing.
    Early,
    /// The number has arrived already.
    Repeat,
}

impl Window {
    /// The window of a stream whose first packet has the sequence number `seq`.
    pub fn first(seq: u8) -> Self
        ensures stands { (first : ℕ) → first % 256 ≡ seq → StandsFor result first [] }
    {
        Window {
            newest: seq,
            came: 1,
            begin: 0,
        }
    }

    /// The place of a packet with the sequence number `seq`.
    pub fn place(&self, seq: u8) -> Place
        ensures place { (first : ℕ) → (later : List ℕ) → (number : ℕ) → StandsFor self.now first later → Follows first later number → number % 256 ≡ seq
            → result ≡ place_of first later number }
    {
        let ahead = seq.wrapping_sub(self.newest);
        if ahead >= 1 && ahead <= FARTHEST {
            return Place::Ahead {
                missing: ahead.saturating_sub(1),
            };
        }
        self.place_behind(self.newest.wrapping_sub(seq))
    }

    /// The place of a packet whose number is the newest number minus `behind`.
    fn place_behind(&self, behind: u8) -> Place
        ensures place { (first : ℕ) → (later : List ℕ) → (number : ℕ) → StandsFor self.now first later → Returns first later number behind
            → result ≡ place_of first later number }
    {
        if self.has_come(behind) {
            Place::Repeat
        } else if u64::from(behind) > self.begin {
            Place::Early
        } else {
            Place::Late
        }
    }

    /// Whether the number `newest - behind` has arrived.
    fn has_come(&self, behind: u8) -> bool
        ensures { behind < 64 → result ≡ (bit_at self.now.came behind == 1) }
    {
        self.came.checked_shr(u32::from(behind)).unwrap_or(1) % 2 == 1
    }

    /// How far `seq` is ahead of the newest number. The result is from 1 to 256.
    pub fn ahead(&self, seq: u8) -> u64
        ensures { result ≡ ahead_of self.now.newest seq }
    {
        u64::from(seq.wrapping_sub(self.newest).wrapping_sub(1)).saturating_add(1)
    }

    /// Notes a packet that is ahead of the newest.
    pub fn pass(&mut self, seq: u8)
        ensures stands { (first : ℕ) → (later : List ℕ) → (number : ℕ) → StandsFor self.old first later → Passes first later number → number % 256 ≡ seq
            → StandsFor self.new first (number ∷ later) }
    {
        let ahead = self.ahead(seq);
        self.came = moved(self.came, ahead);
        self.begin = self.begin.saturating_add(ahead).min(KNOWN);
        self.newest = seq;
    }

    /// Notes a packet that is late or repeated.
    pub fn fill(&mut self, seq: u8)
        ensures stands { (first : ℕ) → (later : List ℕ) → (number : ℕ) → StandsFor self.old first later → Follows first later number
            → number ≤ greatest first later → number % 256 ≡ seq → StandsFor self.new first (number ∷ later) }
    {
        self.came = marked(self.came, self.newest.wrapping_sub(seq));
    }
}

/// A law about a count: if each arriving packet updates the count with the packet's place, the count always equals the
/// number of lost packets. Packets that arrived late or twice do not count as lost.
pub fn places_tell_what_is_lost()
    ensures { (first : ℕ) → (later : List ℕ) → (number : ℕ)
        → lost first (number ∷ later) ≡ lost_with (lost first later) (place_of first later number) }
{}

/// The next value of `came`, after a packet that is ahead of the newest by `ahead`.
fn moved(came: u64, ahead: u64) -> u64
    ensures { 1 ≤ ahead → Moves came ahead result }
{
    if ahead < KNOWN { came << ahead | 1 } else { 1 }
}

/// The next value of `came`, after a packet whose number is the newest number minus `behind`.
fn marked(came: u64, behind: u8) -> u64
    ensures { behind < 64 → Marks came behind result }
{
    if u64::from(behind) < KNOWN {
        came | 1 << behind
    } else {
        came
    }
}
