// What a restoration writes to block 0.
ghost use Rattle.std.specs.Prelude.{◌≡◌, ◌≤◌, ◌<◌, Some, OnOk, length, take, map};
ghost use Rattle.bow_units.specs.Sizes.{IsValid};
ghost use Rattle.bow_units.specs.Causes.{HasCause};
ghost use Rattle.bow_log.specs.Generations.{backup_of};
ghost use Rattle.bow_log.specs.Rules.{IsLog};
ghost use Rattle.bow_disk.specs.Disk.{Content};
ghost use Rattle.bow_restore.specs.Replaying.{HeadPut, IsHeadCut, MarkMade, IsMarkCut};
ghost use Rattle.bow_disk.specs.Moments.{AddsCuts, Tells};

use crate::marks::cut_to;
use bow_disk::Disk;
use bow_log::{Log, write_log};
use bow_units::{Failed, Geometry};

/// Flushes, so that all that was copied back is durable, and writes block 0 of a device of these sizes.
pub(crate) fn put_head<D: Disk>(
    disk: &mut D,
    geometry: Geometry,
    block: &[u8],
) -> Result<(), Failed>
    requires valid { IsValid geometry }
    requires sizes { D.stated disk.old ≡ Some geometry }
    requires one { length block.now ≡ geometry.block_size }
    ensures put { (c : Content) → D.content disk.old ≡ Some c
        → OnOk result (Tells D.content (HeadPut block.now c) disk.new) }
    ensures cuts { (c : Content) → D.content disk.old ≡ Some c
        → AddsCuts D.moment D.left_since (IsHeadCut geometry block.now c.now) disk.old disk.new }
    ensures sizes { D.stated disk.new ≡ Some geometry }
    ensures cause { HasCause (D.faults disk.old) (D.faults disk.new) result }
{
    disk.flush()?;
    disk.write(0, block)
}

/// Makes a mark: the log under restoration, with its first entries alone, so many.
pub(crate) fn mark<D: Disk>(
    disk: &mut D,
    geometry: Geometry,
    log: &Log,
    count: usize,
    block: &mut [u8],
) -> Result<(), Failed>
    requires sizes { D.stated disk.old ≡ Some geometry }
    requires log { IsLog geometry log.now }
    requires some { 0 < count }
    requires within { count ≤ length log.now.entries }
    requires one { length block.old ≡ geometry.block_size }
    ensures made { (c : Content) → D.content disk.old ≡ Some c →
        OnOk result (Tells D.content (MarkMade geometry (map (backup_of geometry) (take count log.now.entries))
        log.now.sequence c) disk.new) }
    ensures cuts { (c : Content) → D.content disk.old ≡ Some c →
        AddsCuts D.moment D.left_since (IsMarkCut geometry (map (backup_of geometry) (take count log.now.entries))
        log.now.sequence c.now) disk.old disk.new }
    ensures sizes { D.stated disk.new ≡ Some geometry }
    ensures cause { HasCause (D.faults disk.old) (D.faults disk.new) result }
{
    write_log(&cut_to(log, geometry, count), geometry, block);
    put_head(disk, geometry, block)?;
    disk.flush()
}
