// Copies of blocks, from a dest back to its source.
ghost use Rattle.std.specs.Prelude.{◌≡◌, ◌≤◌, ◌<◌, ℕ, Some, OnOk, IfErr, length};
ghost use Rattle.bow_units.specs.Sizes.{IsValid};
ghost use Rattle.bow_units.specs.Causes.{Rose};
ghost use Rattle.bow_log.specs.Generations.{backup_of};
ghost use Rattle.bow_disk.specs.Disk.{Content};
ghost use Rattle.bow_chain.specs.Chains.{IsEntry};
ghost use Rattle.bow_restore.specs.Limits.{IsLimit, GoesOn, StopsWithin, spent};
ghost use Rattle.bow_restore.specs.Replaying.{CopiedBack, IsCutBeside};
ghost use Rattle.bow_disk.specs.Moments.{AddsCuts, Tells};
ghost use Rattle.bow_restore.specs.declared.halts.Halt.TheVariants.{Limit, Fault};

use crate::halts::{Halt, spend};
use crate::runs::run_of;
use bow_disk::Disk;
use bow_log::Entry;
use bow_units::Geometry;

/// Copies the blocks of this entry back, in rising order, until the limit is reached.
pub(crate) fn copy_back<D: Disk>(
    disk: &mut D,
    geometry: Geometry,
    entry: Entry,
    left: &mut Option<u32>,
    block: &mut [u8],
) -> Result<(), Halt>
    requires valid { IsValid geometry }
    requires sizes { D.stated disk.old ≡ Some geometry }
    requires entry { IsEntry geometry entry }
    requires limit { IsLimit left.old }
    requires one { length block.old ≡ geometry.block_size }
    // The limit.
    ensures going { OnOk result (GoesOn left.old (backup_of geometry entry).count) }
    ensures rest { OnOk result (left.new ≡ spent left.old (backup_of geometry entry).count) }
    ensures stops { IfErr result (λ halt. halt ≡ Limit → StopsWithin left.old (backup_of geometry entry).count) }
    // What was copied, all or up to the limit.
    ensures copied { (c : Content) → D.content disk.old ≡ Some c
        → OnOk result (Tells D.content (CopiedBack (backup_of geometry entry) (backup_of geometry entry).count c)
        disk.new) }
    ensures part { (c : Content) → D.content disk.old ≡ Some c → (k : ℕ) → left.old ≡ Some k
        → IfErr result (λ halt. halt ≡ Limit → Tells D.content (CopiedBack (backup_of geometry entry) k c) disk.new) }
    ensures cuts { (c : Content) → D.content disk.old ≡ Some c
        → AddsCuts D.moment D.left_since (IsCutBeside geometry (backup_of geometry entry) c) disk.old disk.new }
    ensures sizes { D.stated disk.new ≡ Some geometry }
    ensures faults { D.faults disk.old ≤ D.faults disk.new }
    ensures cause { IfErr result (λ halt. halt ≡ Fault → Rose (D.faults disk.old) (D.faults disk.new)) }
{
    let run = run_of(entry, geometry);
    for offset in 0..run.count {
        disk.read(run.dest + offset, block)?;
        disk.write(run.source + offset, block)?;
        spend(left)?;
    }
    Ok(())
}
