// Which blocks an extent has.
ghost use Rattle.std.specs.Prelude.{◌≡◌};
ghost use Rattle.bow_queue.specs.Extents.{covers, is_on_device, overlaps, OverlapsShareABlock};

use bow_units::Extent;

// Whether `block` is one of its blocks.
pub(crate) fn covers(extent: Extent, block: u64) -> bool
    ensures { result ≡ covers extent block }
{
    extent.first <= block && block - extent.first < extent.count
}

// Whether a device of so many blocks has all of its blocks.
pub(crate) fn is_on_device(extent: Extent, blocks: u64) -> bool
    ensures { result ≡ is_on_device blocks extent }
{
    extent.count <= blocks && extent.first <= blocks - extent.count
}

// Whether the two have a block in common.
pub(crate) fn overlap(one: Extent, other: Extent) -> bool
    ensures { result ≡ overlaps one other }
{
    if one.first <= other.first {
        other.first - one.first < one.count && other.count > 0
    } else {
        one.first - other.first < other.count && one.count > 0
    }
}

/// Two extents overlap exactly where some block is covered by both. It holds of all numbers; the blocks of an extent
/// near the last value of a `u64` are counted past it.
pub fn overlap_law()
    ensures { OverlapsShareABlock }
{}
