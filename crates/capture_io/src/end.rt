//! How the reading of a capture ends.

ghost use Rattle.std.specs.Prelude.{◌≡◌};
ghost use Rattle.capture_io.specs.Ends.{end_at};

use avtp_base::Refusal;

/// How the reading of a capture ended.
#[derive(Clone, Copy, Debug, PartialEq, Eq)]
pub enum End {
    /// At the end of a whole capture.
    Whole,
    /// At a field that cannot be accepted.
    Refused(Refusal),
    /// At a read fault, possibly before the first byte.
    ReadFault,
    /// At the limit: no more bytes may be read, although the file has more.
    Limit,
}

/// Where the reading of a file stopped.
#[derive(Clone, Copy, Debug, PartialEq, Eq)]
pub enum Stop {
    /// At the end of the file.
    End,
    /// At a read fault.
    Fault,
    /// At the limit: no more bytes may be read, although the file has more.
    Limit,
}

impl Stop {
    /// How a capture ends if nothing in it was refused and the reading stopped here. If the file ended, `lack` is the
    /// first field that is missing, if any.
    pub fn end(self, lack: Option<Refusal>) -> End
        ensures { result ≡ end_at self lack }
    {
        match (self, lack) {
            (Stop::End, None) => End::Whole,
            (Stop::End, Some(refusal)) => End::Refused(refusal),
            (Stop::Fault, _) => End::ReadFault,
            (Stop::Limit, _) => End::Limit,
        }
    }
}
