// Where logs have put the content of a block.
ghost use Rattle.std.specs.Prelude.{◌≡◌, ◌<◌};
ghost use Rattle.bow_units.specs.Sizes.{IsValid};
ghost use Rattle.bow_log.specs.Generations.{IsEntry, backup_of, generation_of};
ghost use Rattle.bow_log.specs.Rules.{IsLog};
ghost use Rattle.bow_chain.specs.Places.{hop, pass};

use bow_log::{Entry, Log};
use bow_units::Geometry;

// Where this entry put it.
fn place_by_entry(entry: Entry, geometry: Geometry, block: u64) -> u64
    requires valid { IsValid geometry }
    requires entry { IsEntry geometry entry }
    requires on { block < geometry.blocks }
    ensures is { result ≡ hop (backup_of geometry entry) block }
    ensures on { result < geometry.blocks }
{
    let source = entry.source_blocks(geometry);
    if block < source.first || block - source.first >= source.count {
        return block;
    }
    entry.dest_blocks(geometry).first + (block - source.first)
}

/// Where the entries of this log, the oldest first, put the content of a block of the device.
pub(crate) fn place_by_log(log: &Log, geometry: Geometry, block: u64) -> u64
    requires log { IsLog geometry log.now }
    requires on { block < geometry.blocks }
    ensures is { result ≡ pass (generation_of geometry log.now).entries block }
    ensures on { result < geometry.blocks }
{
    let entries: &[Entry] = &log.entries;
    let mut place = block;
    for entry in entries {
        place = place_by_entry(*entry, geometry, place);
    }
    place
}
