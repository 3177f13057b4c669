//! The lines that a command can write at its end, whichever command it is.

ghost use Rattle.avtp_text.specs.Notices.{capture_refused_line, read_fault_line, device_fault_line, limit_line, words_line};
ghost use Rattle.avtp_text.specs.Written.{Prints};

use crate::buffer::Text;
use crate::line::Line;
use avtp_base::{Failed, Refusal};
use avtp_files::Sink;

impl Text {
    /// Prints the field at which a capture was refused, and the field's offset from the start of the file.
    #[tactic(auto, unfolding(crate::specs::Notices::capture_refused_line))]
    pub fn capture_refused<S: Sink>(&mut self, out: &mut S, refusal: Refusal) -> Result<(), Failed>
        ensures { Prints (S.state out.old) (S.state out.new) self.old self.new result (capture_refused_line refusal) }
    {
        let mut line = Line::new();
        line.prepend_refusal(refusal);
        line.prepend("capture refused: ");
        self.print(out, line.as_slice())
    }

    /// Prints that the rest of a file could not be read.
    #[tactic(auto, unfolding(crate::specs::Notices::read_fault_line))]
    pub fn read_fault<S: Sink>(&mut self, out: &mut S) -> Result<(), Failed>
        ensures { Prints (S.state out.old) (S.state out.new) self.old self.new result read_fault_line }
    {
        self.print(out, b"read fault\n")
    }

    /// Prints that a device failed to accept an item.
    #[tactic(auto, unfolding(crate::specs::Notices::device_fault_line))]
    pub fn device_fault<S: Sink>(&mut self, out: &mut S) -> Result<(), Failed>
        ensures { Prints (S.state out.old) (S.state out.new) self.old self.new result device_fault_line }
    {
        self.print(out, b"device fault\n")
    }

    /// Prints that a file has more than `bytes` bytes.
    #[tactic(auto, unfolding(crate::specs::Notices::limit_line))]
    pub fn limit<S: Sink>(&mut self, out: &mut S, bytes: u64) -> Result<(), Failed>
        ensures { Prints (S.state out.old) (S.state out.new) self.old self.new result (limit_line bytes) }
    {
        let mut line = Line::new();
        line.prepend_u64("limit ", bytes);
        self.print(out, line.as_slice())
    }

    /// Prints the position of the first argument that is wrong, counted from 1.
    #[tactic(auto, unfolding(crate::specs::Notices::words_line))]
    pub fn words<S: Sink>(&mut self, out: &mut S, place: u64) -> Result<(), Failed>
        ensures { Prints (S.state out.old) (S.state out.new) self.old self.new result (words_line place) }
    {
        let mut line = Line::new();
        line.prepend_u64("words: ", place);
        self.print(out, line.as_slice())
    }
}
