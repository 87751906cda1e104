// The sizes of a disk that a command works on.
ghost use Rattle.std.specs.Prelude.{◌≡◌, Some, IfOk, IfErr};
ghost use Rattle.bow_units.specs.Sizes.{IsValid};
ghost use Rattle.bow_tool.specs.Outside.{disk_view};
ghost use Rattle.bow_tool.specs.Sizes.{SizesCause, OnlySizes};

use crate::refusals::Refusal;
use bow_disk::Disk;
use bow_units::Geometry;

// The sizes that the disk states, where a device may have them. `DiskFault` is answered where its call failed, and
// `BadGeometry` for other sizes. Nothing changes.
pub(crate) fn sizes_of<D: Disk>(disk: &mut D) -> Result<Geometry, Refusal>
    ensures valid { IfOk result IsValid }
    ensures sizes { IfOk result (λ geometry. D.stated disk.new ≡ Some geometry) }
    ensures cause { IfErr result (SizesCause (D.stated disk.new) (D.faults disk.old) (D.faults disk.new)) }
    ensures only { OnlySizes (disk_view D.stated D.content D.moment D.left_since D.faults) disk.old disk.new }
{
    let Ok(geometry) = disk.sizes() else {
        return Err(Refusal::DiskFault);
    };
    if !geometry.valid() {
        return Err(Refusal::BadGeometry(geometry));
    }
    Ok(geometry)
}
