// What the changes of a table do to the counts of its kinds.
ghost use Rattle.bow_ranges.specs.Laws.{SetCounts, ReclaimKeepsCounts, PicksOne};

/// Where an extent is given a kind, the blocks of each sort of kind become more by those that it brings, and
/// fewer by those that stood there.
pub fn set_counts_law()
    ensures { SetCounts }
{}

/// A discard makes changed blocks free and nothing else: a sort that has both kinds, or neither, keeps its count.
pub fn reclaim_counts_law()
    ensures { ReclaimKeepsCounts }
{}

/// Where no block is free nothing is picked. Otherwise the picked blocks are the first ones of one longest run of
/// free blocks of the device, at least one and no more than were wanted.
pub fn picked_law()
    ensures { PicksOne }
{}
