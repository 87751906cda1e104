// The log that a mark is.
ghost use Rattle.std.specs.Prelude.{◌≡◌, ◌≤◌, ◌<◌, ◌^◌, take, length};
ghost use Rattle.bow_log.specs.Generations.{GenerationFits, generation_of};
ghost use Rattle.bow_log.specs.Rules.{IsLog};
ghost use Rattle.bow_log.specs.declared.logs.Magic.TheVariants.{Restoring};

use arrayvec::ArrayVec;
use bow_log::{Entry, Log, Magic};
use bow_units::Geometry;

// The number, which is one of 32 bits.
fn bounded(number: u32) -> u32
    ensures same { result ≡ number }
    ensures bound { result < 2 ^ 32 }
{
    number
}

// The entry, whose sum is a number of 32 bits.
fn same_entry(entry: Entry) -> Entry
    ensures same { result ≡ entry }
    ensures sum { result.sum < 2 ^ 32 }
{
    Entry {
        source: entry.source,
        dest: entry.dest,
        size: entry.size,
        sum: bounded(entry.sum),
    }
}

/// The log under restoration, with its first entries alone, so many.
pub(crate) fn cut_to(log: &Log, geometry: Geometry, count: usize) -> Log
    requires log { IsLog geometry log.now }
    requires some { 0 < count }
    requires within { count ≤ length log.now.entries }
    ensures log { IsLog geometry result }
    ensures fits { GenerationFits (generation_of geometry result) }
    ensures magic { result.magic ≡ Restoring }
    ensures sequence { result.sequence ≡ log.now.sequence }
    ensures sector0 { result.sector0 ≡ log.now.sector0 }
    ensures entries { result.entries ≡ take count log.now.entries }
{
    let mut entries = ArrayVec::new();
    for index in 0..count {
        entries.push(same_entry(log.entries[index]));
    }
    Log {
        magic: Magic::Restoring,
        block_size: log.block_size,
        sequence: bounded(log.sequence),
        sector0: log.sector0,
        entries,
    }
}
