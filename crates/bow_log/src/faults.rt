// Why a block spells no log.

/// What is wrong with a block that spells no log: the first fault in the order of the variants.
#[derive(Clone, Copy, Debug, PartialEq, Eq)]
pub enum LogFault {
    /// The first four bytes are neither magic.
    NoMagic,
    /// The version is not `0x0100`.
    Version,
    /// The header size is not 28.
    HeaderSize,
    /// The block size is not the device's.
    BlockSize,
    /// There is no entry, or there are more than a block has room for.
    Count,
    /// A byte after the last entry is not zero.
    Tail,
    /// The place of the current block 0 is sector 0, does not begin a block, or is not on the device.
    Sector0,
    /// The entry of this index, the lowest such, breaks a rule of [`Entry`](crate::Entry).
    Entry(u32),
}
