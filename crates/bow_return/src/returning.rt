// The restoration of what the device left.
ghost use Rattle.std.specs.Prelude.{◌≡◌, ◌≤◌, ℕ, List, None, Some};
ghost use Rattle.bow_units.specs.Sizes.{IsValid};
ghost use Rattle.bow_flat.specs.Flat.{Flat};
ghost use Rattle.bow_disk.specs.Disk.{Content, IsCrash};
ghost use Rattle.bow_restore.specs.Answers.{IsCaused, EndsBack};
ghost use Rattle.bow_return.specs.Laws.{IsLeft};

use bow_disk::Disk;
use bow_restore::{Restored, restore};
use bow_units::Geometry;
use std::alloc::Global;

/// Brings the checkpoint back that a device left: `restore` without a limit. Cut the device anywhere before its
/// decision, and then cut restorations as often as may be, each anywhere. The first that ends, with `Done` or
/// `Nothing`, has each block that was in use at the checkpoint as it then was, in its place, no magic in block 0, and
/// all flushed. And whatever a cut of this call leaves is again such an image.
///
/// Condition: the geometry is valid and the disk's.
pub fn bring_back<D: Disk>(alloc: Global, disk: &mut D, geometry: Geometry) -> Restored
    requires valid { IsValid geometry }
    requires sizes { D.stated disk.old ≡ Some geometry }
    ensures cause { IsCaused None (D.faults disk.old) (D.faults disk.new) result }
    ensures back { (c : Content) → D.content disk.old ≡ Some c → (f : Flat)
        → ((image : List (List ℕ)) → IsCrash c.candidates image → IsLeft geometry f image)
        → EndsBack geometry f.used f.saved D.content disk.new result }
    ensures cuts { (c new : Content) → D.content disk.old ≡ Some c → D.content disk.new ≡ Some new → (f : Flat)
        → ((image : List (List ℕ)) → IsCrash c.candidates image → IsLeft geometry f image)
        → (cut : List (List ℕ)) → D.left_since disk.new (D.moment disk.old) cut → IsLeft geometry f cut }
    ensures sizes { D.stated disk.new ≡ Some geometry }
    ensures faults { D.faults disk.old ≤ D.faults disk.new }
{
    restore(alloc, disk, geometry, None)
}
