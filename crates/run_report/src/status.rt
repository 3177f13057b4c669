//! How a run ends.

ghost use Rattle.std.specs.Prelude.{◌≡◌};
ghost use Rattle.run_report.specs.Status.{code_of, status_of};

use capture_io::End;

/// How a run ended. The code of a status is the exit status of the command.
#[derive(Clone, Copy, Debug, PartialEq, Eq)]
pub enum Status {
    /// Everything that was asked for was done.
    Done,
    /// `check` found something, the captures that `agree` compares differ, or `gateway` skipped a batch. The text gives
    /// the details.
    Findings,
    /// The words are not a command line.
    Words,
    /// A capture was refused at a field.
    Refused,
    /// A file could not be read.
    ReadFault,
    /// The text or a file could not be written.
    WriteFault,
    /// Memory ran out.
    Memory,
    /// A file has more bytes than the limit.
    Limit,
    /// A device failed.
    DeviceFault,
    /// The input of a talker was refused.
    TalkInput,
}

impl Status {
    /// The status of a run, given how the reading of its last capture ended.
    pub fn of(end: End) -> Status
        ensures { result ≡ status_of end }
    {
        match end {
            End::Whole => Status::Done,
            End::Refused(_) => Status::Refused,
            End::ReadFault => Status::ReadFault,
            End::Limit => Status::Limit,
        }
    }

    /// The exit status of the command.
    pub fn code(self) -> u8
        ensures { result ≡ code_of self }
    {
        match self {
            Status::Done => 0,
            Status::Findings => 1,
            Status::Words => 2,
            Status::Refused => 3,
            Status::ReadFault => 4,
            Status::WriteFault => 5,
            Status::Memory => 6,
            Status::Limit => 7,
            Status::DeviceFault => 8,
            Status::TalkInput => 9,
        }
    }
}
