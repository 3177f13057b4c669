//! The lines of `agree`: what two listeners present differently. Records are numbered from 1, and samples from 0.

ghost use Rattle.std.specs.Prelude.{◌≡◌, ◌+◌, ◌≤◌, ◌++◌, length};
ghost use Rattle.avtp_text.specs.Agree.{differ_at_line, differ_bytes_line, differ_count_line, differ_start, end_agree_line};
ghost use Rattle.avtp_text.specs.state.Lines.{Prepends};
ghost use Rattle.avtp_text.specs.Written.{Prints};

use crate::buffer::Text;
use crate::line::{LONGEST, Line};
use avtp_base::Failed;
use avtp_files::Sink;

/// A packet that is in both captures: the number of the packet's frame in each capture, and the packet's sequence
/// number.
#[derive(Clone, Copy, Debug, PartialEq, Eq)]
pub struct PacketPair {
    pub frame_a: u64,
    pub frame_b: u64,
    pub seq: u8,
}

/// Prepends the numbers of the packet's frames and the packet's sequence number to the line.
#[tactic(auto, unfolding(crate::specs::Agree::differ_start))]
fn prepend_pair(line: &mut Line, pair: PacketPair)
    requires { 70 + length line.old ≤ LONGEST }
    ensures { Prepends line.old line.new (differ_start pair.frame_a pair.frame_b pair.seq) 70 }
{
    line.prepend(" ");
    line.prepend_u32(" seq ", u32::from(pair.seq));
    line.prepend_u64(" ", pair.frame_b);
    line.prepend_u64("differ frame ", pair.frame_a);
}

impl Text {
    /// Prints that the listeners present different numbers of samples of a packet.
    #[tactic(auto, unfolding(crate::specs::Agree::differ_count_line))]
    pub fn differ_count<S: Sink>(
        &mut self,
        out: &mut S,
        pair: PacketPair,
        a: u32,
        b: u32,
    ) -> Result<(), Failed>
        ensures { Prints (S.state out.old) (S.state out.new) self.old self.new result (differ_count_line pair.frame_a pair.frame_b pair.seq a b) }
    {
        let mut line = Line::new();
        line.prepend_u32(" ", b);
        line.prepend_u32("count ", a);
        prepend_pair(&mut line, pair);
        self.print(out, line.as_slice())
    }

    /// Prints that the listeners present a sample of a packet at different instants, in nanoseconds.
    #[tactic(auto, unfolding(crate::specs::Agree::differ_at_line))]
    pub fn differ_at<S: Sink>(
        &mut self,
        out: &mut S,
        pair: PacketPair,
        sample: u32,
        a: i64,
        b: i64,
    ) -> Result<(), Failed>
        ensures { Prints (S.state out.old) (S.state out.new) self.old self.new result (differ_at_line pair.frame_a pair.frame_b pair.seq sample a b) }
    {
        let mut line = Line::new();
        line.prepend_i64(" ", b);
        line.prepend_i64(" at ", a);
        line.prepend_u32("sample ", sample);
        prepend_pair(&mut line, pair);
        self.print(out, line.as_slice())
    }

    /// Prints that the listeners present a sample of a packet with different bytes.
    #[tactic(auto, unfolding(crate::specs::Agree::differ_bytes_line))]
    pub fn differ_bytes<S: Sink>(
        &mut self,
        out: &mut S,
        pair: PacketPair,
        sample: u32,
    ) -> Result<(), Failed>
        ensures { Prints (S.state out.old) (S.state out.new) self.old self.new result (differ_bytes_line pair.frame_a pair.frame_b pair.seq sample) }
    {
        let mut line = Line::new();
        line.prepend(" bytes");
        line.prepend_u32("sample ", sample);
        prepend_pair(&mut line, pair);
        self.print(out, line.as_slice())
    }

    /// Prints how many packets both listeners present, how many only the first listener presents, how many only the
    /// second listener presents, and how many both listeners present, but differently.
    #[tactic(auto, unfolding(crate::specs::Agree::end_agree_line))]
    pub fn end_agree<S: Sink>(
        &mut self,
        out: &mut S,
        matched: u64,
        only_a: u64,
        only_b: u64,
        differ: u64,
    ) -> Result<(), Failed>
        ensures { Prints (S.state out.old) (S.state out.new) self.old self.new result (end_agree_line matched only_a only_b differ) }
    {
        let mut line = Line::new();
        line.prepend_u64(" differ ", differ);
        line.prepend_u64(" ", only_b);
        line.prepend_u64(" only ", only_a);
        line.prepend_u64("end matched ", matched);
        self.print(out, line.as_slice())
    }
}
