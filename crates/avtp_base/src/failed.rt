//! Failed calls to objects outside the program, where they failed, and missing memory.

use std::alloc::{AllocError, AllocFailed};
use thiserror::Error;

/// A call to an object outside the program failed. The object counts the failure.
#[derive(Clone, Copy, Debug, PartialEq, Eq, Error)]
#[error("a call of the outside failed")]
pub struct Failed;

/// Memory ran out.
#[derive(Clone, Copy, Debug, PartialEq, Eq, Error)]
#[error("out of memory")]
pub struct NoMemory;

/// Why a file could not be opened or made.
#[derive(Clone, Copy, Debug, PartialEq, Eq, Error)]
pub enum OpenFault {
    /// The shelf shows its files, and none has the name.
    #[error("no such file")]
    Missing,
    /// A call of the shelf failed, and the shelf counted the failure.
    #[error("the file could not be opened")]
    Failed,
    /// Memory ran out.
    #[error("out of memory")]
    Memory,
}

/// Where a reading fault occurred.
#[derive(Clone, Copy, Debug, PartialEq, Eq)]
pub enum FaultPlace {
    /// At the opening of a file.
    Opening,
    /// At a read. The number is the number of bytes of the file that were still to be read.
    Reading(usize),
}

impl From<AllocError> for NoMemory {
    fn from(_error: AllocError) -> NoMemory {
        NoMemory
    }
}

impl<T: Drop> From<AllocFailed<T>> for NoMemory {
    fn from(_failed: AllocFailed<T>) -> NoMemory {
        NoMemory
    }
}

impl From<NoMemory> for OpenFault {
    ghost use Rattle.std.specs.Prelude.{◌≡◌};
    ghost use Rattle.avtp_base.specs.declared.failed.OpenFault.TheVariants.{Memory};

    ghost from_gives = { λ _ fault. fault ≡ Memory };

    fn from(_error: NoMemory) -> OpenFault {
        OpenFault::Memory
    }
}
