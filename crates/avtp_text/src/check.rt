//! The lines of `check`: one for each finding, and one at the end of a capture. The records are numbered from 1.

ghost use Rattle.std.specs.Prelude.{◌≡◌, ◌+◌, ◌*◌, ◌≤◌, ◌++◌, flat_map, length};
ghost use Rattle.avtp_text.specs.Check.{counted, end_check_line, finding_start, findings_lines, found, malformed_line, packet_line, packet_start};
ghost use Rattle.avtp_text.specs.state.Lines.{AppendsUpTo, FitsFinding, Prepends};
ghost use Rattle.avtp_text.specs.Written.{Prints};

use crate::buffer::{ROOM, Text, make_room};
use crate::line::{LONGEST, Line};
use avtp_base::{Failed, Refusal};
use avtp_files::Sink;
use sequence_track::Findings;

/// The room for the line of a finding in a packet, in bytes.
const FINDING: usize = 80;

/// The room, in bytes, for the lines of the five findings that a packet can have.
const FINDINGS: usize = 5 * FINDING;

/// Prepends the number of a finding's frame to the line.
#[tactic(auto, unfolding(crate::specs::Check::finding_start))]
fn prepend_finding(line: &mut Line, number: u64)
    requires { 35 + length line.old ≤ LONGEST }
    ensures { Prepends line.old line.new (finding_start number) 35 }
{
    line.prepend(" ");
    line.prepend_u64("finding frame ", number);
}

/// Prepends the number of a packet's frame and the ID of the packet's stream to the line.
#[tactic(auto, unfolding(crate::specs::Check::packet_start))]
fn prepend_packet(line: &mut Line, number: u64, id: u64)
    requires { 55 + length line.old ≤ LONGEST }
    ensures { Prepends line.old line.new (packet_start number id) 55 }
{
    line.prepend(" ");
    line.prepend_id("id ", id);
    prepend_finding(line, number);
}

impl Text {
    /// Appends the line of a finding in a packet if `is_found` is true. There must be room for the line.
    fn push_found(&mut self, number: u64, id: u64, is_found: bool, name: &str)
        requires { FitsFinding self.old name.now }
        ensures { AppendsUpTo self.old self.new (flat_map (packet_line number id) (found is_found name.now)) FINDING }
    {
        if is_found {
            let mut line = Line::new();
            line.prepend(name);
            prepend_packet(&mut line, number, id);
            self.buffer.push(line.as_slice());
        }
    }

    /// Appends the line of a finding with the number in `count`, or nothing if `count` is `None`. There must be room
    /// for the line.
    fn push_counted(&mut self, number: u64, id: u64, count: Option<u32>, label: &str)
        requires { FitsFinding self.old label.now }
        ensures { AppendsUpTo self.old self.new (flat_map (packet_line number id) (counted count label.now)) FINDING }
    {
        if let Some(count) = count {
            let mut line = Line::new();
            line.prepend_u32(label, count);
            prepend_packet(&mut line, number, id);
            self.buffer.push(line.as_slice());
        }
    }

    /// Appends a line for each finding in a packet. There must be room for these lines.
    fn push_findings(&mut self, number: u64, id: u64, findings: &Findings)
        requires { length self.old + FINDINGS ≤ ROOM }
        ensures { self.new ≡ self.old ++ findings_lines number id findings.now }
    {
        self.push_found(number, id, findings.reserved, "reserved");
        self.push_found(number, id, findings.untracked, "streams");
        self.push_counted(number, id, findings.step.map(u32::from), "step ");
        self.push_counted(number, id, findings.hold, "hold ");
        self.push_found(number, id, findings.stamp, "stamp");
    }

    /// Prints the findings in a packet of the stream `id`, one on each line.
    pub fn findings<S: Sink>(
        &mut self,
        out: &mut S,
        number: u64,
        id: u64,
        findings: &Findings,
    ) -> Result<(), Failed>
        ensures { Prints (S.state out.old) (S.state out.new) self.old self.new result (findings_lines number id findings.now) }
    {
        make_room(&mut self.buffer, out, FINDINGS)?;
        self.push_findings(number, id, findings);
        Ok(())
    }

    /// Prints which field makes a frame or its packet malformed, and the field's offset from the start of the frame.
    #[tactic(auto, unfolding(crate::specs::Check::malformed_line))]
    pub fn finding_malformed<S: Sink>(
        &mut self,
        out: &mut S,
        number: u64,
        refusal: Refusal,
    ) -> Result<(), Failed>
        ensures { Prints (S.state out.old) (S.state out.new) self.old self.new result (malformed_line number refusal) }
    {
        let mut line = Line::new();
        line.prepend_refusal(refusal);
        line.prepend("malformed ");
        prepend_finding(&mut line, number);
        self.print(out, line.as_slice())
    }

    /// Prints that a capture ended after `frames` records, how many streams of the capture are tracked, and how many
    /// findings the capture has.
    #[tactic(auto, unfolding(crate::specs::Check::end_check_line))]
    pub fn end_check<S: Sink>(
        &mut self,
        out: &mut S,
        frames: u64,
        streams: u64,
        findings: u64,
    ) -> Result<(), Failed>
        ensures { Prints (S.state out.old) (S.state out.new) self.old self.new result (end_check_line frames streams findings) }
    {
        let mut line = Line::new();
        line.prepend_u64(" findings ", findings);
        line.prepend_u64(" streams ", streams);
        line.prepend_u64("end frames ", frames);
        self.print(out, line.as_slice())
    }
}
