// The kinds of blocks, and what the device tells of itself.
use crate::Phase;

/// What a block is used for. Block 0 is always `Sector0`.
#[derive(Clone, Copy, Debug, PartialEq, Eq)]
pub enum Kind {
    /// Block 0.
    Sector0,
    /// Where the current content of block 0 lies while a log stands in block 0.
    Current,
    /// Holds what it held at the checkpoint.
    Unchanged,
    /// Holds nothing that anyone asked to keep.
    Free,
    /// May be written in place.
    Changed,
    /// Holds the backup of another block.
    Backup,
    /// Backed up, but by a log that is not yet known to be durable: it may not be written yet.
    Saved,
}

/// What the device tells of itself.
#[derive(Clone, Copy, Debug, PartialEq, Eq)]
pub struct Status {
    /// How far it is.
    pub phase: Phase,
    /// The number of free blocks.
    pub free: u64,
    /// The sequence number of the log in memory, 0 where there is none.
    pub sequence: u32,
    /// The number of entries of the log in memory, 0 where there is none.
    pub entries: u32,
}

/// A status with the number of the step after which it was taken. Later statuses have larger versions.
#[derive(Clone, Copy, Debug, PartialEq, Eq)]
pub struct Seen {
    /// The number of the step.
    pub version: u64,
    /// What the device told after it.
    pub status: Status,
}
