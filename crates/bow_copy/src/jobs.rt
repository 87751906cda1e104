// What a batch is for, its acts, and what an act leads to.

/// What a batch is for. Numbers of blocks count blocks of the device.
#[derive(Clone, Copy, Debug, PartialEq, Eq)]
pub enum Job {
    /// Writes the log in memory again.
    Rewrite,
    /// Keeps the full log in the block `dest`, and begins a new log.
    Link { dest: u64 },
    /// Backs up the `count` blocks from `source` on to the blocks from `dest` on.
    Copy { source: u64, dest: u64, count: u32 },
    /// Moves the current content of block 0 from the block `from` to the block `to`.
    Move { from: u64, to: u64 },
}

/// One call on the disk. A slot is a place for one block in the batch's buffer.
#[derive(Clone, Copy, Debug, PartialEq, Eq)]
pub enum Act {
    /// Reads the block into the slot.
    Read { block: u64, slot: u32 },
    /// Writes the slot's content to the block. In a `Link` that content is the full log.
    Write { block: u64, slot: u32 },
    /// Flushes the disk.
    Flush,
    /// Writes the log in memory to block 0.
    WriteLog,
    /// No call: the batch is over.
    End,
}

/// What an act leads to.
#[derive(Clone, Copy, Debug, PartialEq, Eq)]
pub enum After {
    /// The batch goes on.
    Going,
    /// The log was given to the disk. The flush after it is still to come.
    LogGiven,
    /// The last flush was made: the log is durable, and the batch is over.
    Clean,
    /// The act failed, and the batch is over. `log_given` says whether writing the log had been tried.
    Failed { log_given: bool },
}
