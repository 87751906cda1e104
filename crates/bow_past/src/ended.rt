// What becomes of the blocks of a reader, and what a step tells.
use bow_units::Payload;

/// What became of a block.
#[derive(Drop)]
pub enum Ended {
    /// It was read, and these are its bytes.
    Got(Payload),
    /// The read of the disk failed, of the block or of a log that was missing.
    Failed,
    /// The block that was read at the place of a missing log spells no such log.
    Strange,
}

/// What a step of a reader did.
#[derive(Clone, Copy, Debug, PartialEq, Eq)]
pub enum PastStep {
    /// The reader is not ready, and nothing was done.
    Idle,
    /// A log that was missing was read, and is kept.
    Working,
    /// The block was read.
    Got { block: u64 },
    /// The block ended with a read that failed.
    Failed { block: u64 },
    /// The block ended with a block of the disk that should spell a log, and does not.
    Strange { block: u64 },
}
