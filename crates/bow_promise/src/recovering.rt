// The restoration after a play that was cut.
ghost use Rattle.std.specs.Prelude.{◌≡◌, ◌≤◌, ℕ, List, None, Some};
ghost use Rattle.bow_units.specs.Sizes.{IsValid};
ghost use Rattle.bow_disk.specs.Disk.{Content};
ghost use Rattle.bow_restore.specs.Answers.{IsCaused};
ghost use Rattle.bow_promise.specs.Cutting.{Play, IsCutOf};
ghost use Rattle.bow_promise.specs.Recovering.{HasEndedWell, IsLeftOf, IsRecovered, Recovers};

use bow_disk::Disk;
use bow_restore::{Restored, restore};
use bow_units::Geometry;
use std::alloc::Global;

/// Recovers what a play left that was cut anywhere: `restore` without a limit, also where restorations and boots were
/// cut before, any number of them, each anywhere. Where it ends well, with `Done` or `Nothing`, what is promised of
/// that cut is fulfilled, and all is flushed: the checkpoint is back, or there was nothing to restore, and what was
/// flushed and not changed since is as it might have been read then. And whatever a cut of this call leaves is what
/// such a restoration leaves: the next one goes on from there.
///
/// Condition: the geometry is valid and the disk's.
pub fn recover<D: Disk>(alloc: Global, disk: &mut D, geometry: Geometry) -> Restored
    requires valid { IsValid geometry }
    requires sizes { D.stated disk.old ≡ Some geometry }
    ensures cause { IsCaused None (D.faults disk.old) (D.faults disk.new) result }
    ensures recovered { (c : Content) → D.content disk.old ≡ Some c → (p : Play) (n : ℕ) (first : List (List ℕ))
        → (k : IsCutOf p n first) → p.plan.sizes ≡ geometry → IsLeftOf geometry first c
        → IsRecovered D.content D.moment D.left_since geometry p n first k (HasEndedWell result) disk.old
        disk.new }
    ensures recovers { (c : Content) → D.content disk.old ≡ Some c → (p : Play) (n : ℕ) (first : List (List ℕ))
        → (k : IsCutOf p n first) → p.plan.sizes ≡ geometry → IsLeftOf geometry first c
        → Recovers geometry k.way.flat.phase k.way.flat D.content disk.new result }
    ensures sizes { D.stated disk.new ≡ Some geometry }
    ensures faults { D.faults disk.old ≤ D.faults disk.new }
{
    restore(alloc, disk, geometry, None)
}
