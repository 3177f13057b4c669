//! The line of `soak`: what became of the packets that were sent over a bad network.

ghost use Rattle.avtp_text.specs.Soak.{soak_line};
ghost use Rattle.avtp_text.specs.Written.{Prints};

use crate::buffer::Text;
use crate::line::Line;
use avtp_base::Failed;
use avtp_files::Sink;
use soak_run::SoakCounts;

impl Text {
    /// Prints what became of the deliveries of `packets` packets.
    #[tactic(auto, unfolding(crate::specs::Soak::soak_line))]
    pub fn soak<S: Sink>(
        &mut self,
        out: &mut S,
        packets: u32,
        counts: &SoakCounts,
    ) -> Result<(), Failed>
        ensures { Prints (S.state out.old) (S.state out.new) self.old self.new result (soak_line packets counts.now) }
    {
        let mut line = Line::new();
        line.prepend_u64(" full ", counts.full);
        line.prepend_u64(" untimed ", counts.untimed);
        line.prepend_u64(" repeat ", counts.repeat);
        line.prepend_u64(" late ", counts.late);
        line.prepend_u64(" presented ", counts.presented);
        line.prepend_u64(" delivered ", counts.delivered);
        line.prepend_u32("soak ", packets);
        self.print(out, line.as_slice())
    }
}
