// Why an image has no sound chain of logs.
use bow_log::LogFault;
use bow_units::Failed;
use std::alloc::{AllocError, AllocFailed};

/// Why no chain was loaded. Depth 0 is the log in block 0, and each older log is one deeper. Parts are tested from
/// depth 0 on; at one depth the fields of the log, then its sequence, then its sums from the last entry to the first.
/// The first fault in this order is told.
#[derive(Clone, Copy, Debug, PartialEq, Eq)]
pub enum ChainFault {
    /// Block 0 begins with neither magic: there is no log.
    NoLog,
    /// The block where the log at this depth lies spells none. Below depth 0 the magic of a log under restoration is
    /// none.
    BadLog {
        depth: u32,
        fault: LogFault,
    },
    /// The log at this depth is not the one before the log above it, whose sequence is `wanted` and one more.
    BadSequence {
        depth: u32,
        found: u32,
        wanted: u32,
    },
    /// The content that this entry of the log at this depth backed up has not the sum that the entry states.
    BadSum {
        depth: u32,
        index: u32,
        found: u32,
        stated: u32,
    },
    /// A call of the disk failed.
    DiskFault,
    /// There was no memory.
    NoMemory,
}

impl From<Failed> for ChainFault {
    ghost use Rattle.std.specs.Prelude.{◌≡◌};
    ghost use Rattle.bow_chain.specs.declared.faults.ChainFault.TheVariants.{DiskFault};

    ghost from_gives = { λ _ e. e ≡ DiskFault };

    fn from(_: Failed) -> Self {
        ChainFault::DiskFault
    }
}

impl From<AllocError> for ChainFault {
    ghost use Rattle.std.specs.Prelude.{◌≡◌};
    ghost use Rattle.bow_chain.specs.declared.faults.ChainFault.TheVariants.{NoMemory};

    ghost from_gives = { λ _ e. e ≡ NoMemory };

    fn from(_: AllocError) -> Self {
        ChainFault::NoMemory
    }
}

impl<T: Drop> From<AllocFailed<T>> for ChainFault {
    ghost use Rattle.std.specs.Prelude.{◌≡◌};
    ghost use Rattle.bow_chain.specs.declared.faults.ChainFault.TheVariants.{NoMemory};

    ghost from_gives = { λ _ e. e ≡ NoMemory };

    fn from(_: AllocFailed<T>) -> Self {
        ChainFault::NoMemory
    }
}
