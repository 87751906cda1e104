// An entry of a log, and the rules for one.
ghost use Rattle.std.specs.Prelude.{◌≡◌, ◌+◌, ◌^◌, ◌<◌};
ghost use Rattle.bow_units.specs.Sizes.{IsValid};
ghost use Rattle.bow_log.specs.Rules.{keeps_rules, are_apart, has_own_source};
ghost use Rattle.bow_log.specs.Generations.{Backup, IsBackup, IsEntry, backup_of, entry_of};

use crate::sectors::{begins_block, block_of};
use bow_units::{Extent, Geometry};

/// A run of blocks, and where its content was put: `source` and `dest` are the sectors of 512 bytes at
/// which the two runs begin, and `size` is their length in bytes. `sum` is the
/// [`entry_sum`](bow_crc::entry_sum) of the content, by the block numbers of the source.
///
/// Both runs are of whole blocks of the device, at least one, and share no block. Entry 0 of a log has
/// block 0 alone as its source; no other entry has block 0 in its source, and none in its dest.
#[derive(Clone, Copy, Debug, Default, PartialEq, Eq)]
pub struct Entry {
    pub source: u64,
    pub dest: u64,
    pub size: u32,
    pub sum: u32,
}

fn apart(source: Extent, dest: Extent) -> bool
    requires first { source.first + source.count < 2 ^ 64 }
    requires second { dest.first + dest.count < 2 ^ 64 }
    requires same { source.count ≡ dest.count }
    ensures { result ≡ are_apart source.first dest.first source.count }
{
    source.first + source.count <= dest.first || dest.first + dest.count <= source.first
}

impl Entry {
    /// The entry of a backup in blocks: `count` of them from `source` on, whose content was put at those from `dest` on
    /// and has this sum.
    pub fn of_backup(geometry: Geometry, source: u64, dest: u64, count: u32, sum: u32) -> Entry
        requires valid { IsValid geometry }
        requires backup { IsBackup geometry (record { source = source; dest = dest; count = count; sum = sum }) }
        ensures entry { IsEntry geometry result }
        ensures backup { backup_of geometry result ≡ record { source = source; dest = dest; count = count; sum = sum } }
        ensures spelled { result
            ≡ entry_of geometry (record { source = source; dest = dest; count = count; sum = sum }) }
    {
        Entry {
            source: source * geometry.sectors(),
            dest: dest * geometry.sectors(),
            size: count * geometry.block_size,
            sum,
        }
    }

    /// The blocks that it backed up.
    pub fn source_blocks(&self, geometry: Geometry) -> Extent
        requires { IsValid geometry }
        ensures first { result.first ≡ (backup_of geometry self.now).source }
        ensures count { result.count ≡ (backup_of geometry self.now).count }
    {
        Extent {
            first: block_of(self.source, geometry),
            count: (self.size / geometry.block_size) as u64,
        }
    }

    /// The blocks where their content was put.
    pub fn dest_blocks(&self, geometry: Geometry) -> Extent
        requires { IsValid geometry }
        ensures first { result.first ≡ (backup_of geometry self.now).dest }
        ensures count { result.count ≡ (backup_of geometry self.now).count }
    {
        Extent {
            first: block_of(self.dest, geometry),
            count: (self.size / geometry.block_size) as u64,
        }
    }

    /// Whether the entry keeps the rules, as the one of this index in a log.
    pub(crate) fn keeps_rules(&self, index: u32, geometry: Geometry) -> bool
        requires { IsValid geometry }
        ensures { result ≡ keeps_rules geometry index self.now }
    {
        if !begins_block(self.source, geometry)
            || !begins_block(self.dest, geometry)
            || self.size % geometry.block_size != 0
        {
            return false;
        }
        let source = self.source_blocks(geometry);
        let dest = self.dest_blocks(geometry);
        if source.count == 0
            || !source.inside(geometry)
            || !dest.inside(geometry)
            || !apart(source, dest)
            || dest.first == 0
        {
            return false;
        }
        if index == 0 {
            source.first == 0 && source.count == 1
        } else {
            source.first > 0
        }
    }
}
