//! The lines of `talk`: what was sent, or why nothing was.

ghost use Rattle.std.specs.Prelude.{◌≡◌};
ghost use Rattle.avtp_text.specs.Talk.{fault_text, talk_input_line, talk_line};
ghost use Rattle.avtp_text.specs.Written.{Prints};

use crate::buffer::Text;
use crate::line::Line;
use avtp_base::Failed;
use avtp_files::Sink;
use talker::TalkFault;

/// The name of a fault.
fn fault_name(fault: TalkFault) -> &'static str
    ensures { result.now ≡ fault_text fault }
{
    match fault {
        TalkFault::Frames => "frames",
        TalkFault::StartCode => "start_code",
        TalkFault::NalType => "nal_type",
        TalkFault::Packets => "packets",
        TalkFault::Arrival => "arrival",
        TalkFault::Memory => "memory",
    }
}

impl Text {
    /// Prints how many stream packets and how many media clock packets the new capture has.
    #[tactic(auto, unfolding(crate::specs::Talk::talk_line))]
    pub fn talk<S: Sink>(&mut self, out: &mut S, packets: u64, clocks: u64) -> Result<(), Failed>
        ensures { Prints (S.state out.old) (S.state out.new) self.old self.new result (talk_line packets clocks) }
    {
        let mut line = Line::new();
        line.prepend_u64(" clock ", clocks);
        line.prepend_u64("talk packets ", packets);
        self.print(out, line.as_slice())
    }

    /// Prints why an input cannot be made into a stream.
    #[tactic(auto, using(crate::proofs::Names::fault_fits), unfolding(crate::specs::Talk::talk_input_line))]
    pub fn talk_input<S: Sink>(&mut self, out: &mut S, fault: TalkFault) -> Result<(), Failed>
        ensures { Prints (S.state out.old) (S.state out.new) self.old self.new result (talk_input_line fault) }
    {
        let mut line = Line::new();
        line.prepend(fault_name(fault));
        line.prepend("talk input: ");
        self.print(out, line.as_slice())
    }
}
