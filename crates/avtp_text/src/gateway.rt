//! The lines of `gateway`: why a stream cannot be converted, which packets were skipped, and what was written. Records are
//! numbered from 1.

ghost use Rattle.std.specs.Prelude.{◌≤◌, length};
ghost use Rattle.avtp_text.specs.Gateway.{gateway_input_line, gateway_line, skip_line};
ghost use Rattle.avtp_text.specs.Written.{Prints};

use crate::buffer::Text;
use crate::line::Line;
use avtp_base::Failed;
use avtp_files::Sink;

impl Text {
    /// Prints why a stream cannot be converted: what is wrong with a packet, and the number of the packet's frame.
    #[tactic(auto, unfolding(crate::specs::Gateway::gateway_input_line))]
    pub fn gateway_input<S: Sink>(
        &mut self,
        out: &mut S,
        fault: &str,
        frame: u64,
    ) -> Result<(), Failed>
        requires { length fault.now ≤ 16 }
        ensures { Prints (S.state out.old) (S.state out.new) self.old self.new result (gateway_input_line fault.now frame) }
    {
        let mut line = Line::new();
        line.prepend_u64(" at frame ", frame);
        line.prepend(fault);
        line.prepend("gateway input: ");
        self.print(out, line.as_slice())
    }

    /// Prints why a packet is skipped.
    #[tactic(auto, unfolding(crate::specs::Gateway::skip_line))]
    pub fn skip<S: Sink>(&mut self, out: &mut S, frame: u64, reason: &str) -> Result<(), Failed>
        requires { length reason.now ≤ 16 }
        ensures { Prints (S.state out.old) (S.state out.new) self.old self.new result (skip_line frame reason.now) }
    {
        let mut line = Line::new();
        line.prepend(reason);
        line.prepend(" ");
        line.prepend_u64("skip frame ", frame);
        self.print(out, line.as_slice())
    }

    /// Prints how many packets were presented, written and skipped.
    #[tactic(auto, unfolding(crate::specs::Gateway::gateway_line))]
    pub fn gateway<S: Sink>(
        &mut self,
        out: &mut S,
        batches: u64,
        packets: u64,
        skipped: u64,
    ) -> Result<(), Failed>
        ensures { Prints (S.state out.old) (S.state out.new) self.old self.new result (gateway_line batches packets skipped) }
    {
        let mut line = Line::new();
        line.prepend_u64(" skipped ", skipped);
        line.prepend_u64(" packets ", packets);
        line.prepend_u64("gateway batches ", batches);
        self.print(out, line.as_slice())
    }
}
