// What a request asks for.
ghost use Rattle.std.specs.Prelude.{◌≡◌};
ghost use Rattle.bow_queue.specs.Extents.{is_on_device};
ghost use Rattle.bow_machine.specs.Steps.{extent_of};

use bow_units::{Extent, Op};

/// The blocks of a request that has blocks.
pub(crate) fn extent_of(op: &Op) -> Extent
    ensures { result ≡ extent_of op.now }
{
    match op {
        Op::Read(extent, _) | Op::Write(extent, _) | Op::Discard(extent) => *extent,
        Op::Flush | Op::Prepare | Op::Commit => Extent { first: 0, count: 0 },
    }
}

/// Whether a device of so many blocks has all blocks of the extent.
pub(crate) fn is_on_device(extent: Extent, blocks: u64) -> bool
    ensures { result ≡ is_on_device blocks extent }
{
    extent.count <= blocks && extent.first <= blocks - extent.count
}
