// What holds of chains of logs, whatever reads and writes them.
ghost use Rattle.bow_chain.specs.Laws.{OneChain, SameWhereItCounts, ChainsMove, BasesAreOn, KeptAtBases, LogsFit, OwnBlocks, OwnBlocksAbove, FaultyIsNotSound, OneFault, SoundOrFaulty};

/// An image is sound with one chain of logs. Of two images that agree in block 0 and at the places that count, where
/// one is sound so is the other, with the same logs, and both keep the same of the used blocks. And where two images
/// agree along two routes, logs that are a chain along the one are a chain along the other.
pub fn chain_law()
    ensures one { OneChain }
    ensures same { SameWhereItCounts }
    ensures moved { ChainsMove }
{}

/// What a reader of a sound image relies on: each block's base is on the device and not block 0; what the image keeps
/// of a block is what it holds at that base; and the logs of an image of bytes have numbers that fit their places, so
/// that each is spelled again as it was read.
pub fn base_law()
    ensures on { BasesAreOn }
    ensures kept { KeptAtBases }
    ensures fit { LogsFit }
{}

/// The logs of a sound image lie in blocks of their own, and so do the logs above a fault: there are at most as many as
/// the device has blocks.
pub fn own_blocks_law()
    ensures sound { OwnBlocks }
    ensures above { OwnBlocksAbove }
{}

/// An image is sound or has a first fault, and not both; it has one first fault.
pub fn fault_law()
    ensures not_sound { FaultyIsNotSound }
    ensures one { OneFault }
    ensures either { SoundOrFaulty }
{}
