//! How a receiver ends.

ghost use Rattle.std.specs.Prelude.{◌≡◌, option_map};
ghost use Rattle.presenter_ring.specs.Pulls.{ending_of, pull_of};

use crate::receiver::Pull;
use avtp_base::Refusal;

/// Why a receiver gives no more items.
#[derive(Clone, Copy, Debug)]
pub enum Ending {
    Done,
    Refused(Refusal),
    ReadFault,
    Limit,
    Memory,
}

/// Why the receiver gives no more items, or `None` if its answer is an item.
pub fn end_of(pull: Pull) -> Option<Ending>
    ensures { option_map pull_of result ≡ ending_of pull }
{
    match pull {
        Pull::Item(_) => None,
        Pull::Done => Some(Ending::Done),
        Pull::Refused(refusal) => Some(Ending::Refused(refusal)),
        Pull::ReadFault => Some(Ending::ReadFault),
        Pull::Limit => Some(Ending::Limit),
        Pull::Memory => Some(Ending::Memory),
    }
}

impl From<Ending> for Pull {
    ghost from_gives = { λ ending pull. pull ≡ pull_of ending };

    fn from(ending: Ending) -> Pull {
        match ending {
            Ending::Done => Pull::Done,
            Ending::Refused(refusal) => Pull::Refused(refusal),
            Ending::ReadFault => Pull::ReadFault,
            Ending::Limit => Pull::Limit,
            Ending::Memory => Pull::Memory,
        }
    }
}
