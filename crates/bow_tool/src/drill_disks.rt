// The disks of a drill.
ghost use Rattle.std.specs.Prelude.{◌≡◌, ◌*◌, length, IfOk};
ghost use Rattle.bow_units.specs.Sizes.{IsValid};
ghost use Rattle.bow_disk.specs.Bytes.{image_of};
ghost use Rattle.bow_disk.specs.Disk.{IsSettledOn};
ghost use Rattle.bow_disk.specs.Memory.{content, fresh};
ghost use Rattle.bow_tool.specs.Drills.{IsDrillDisk, drill_room, drill_sizes as sizes_of_drill};

use bow_disk::MemDisk;
use bow_units::{Geometry, NoMemory, fill_pattern};
use std::alloc::Global;

// The sizes of a disk of the drill.
#[tactic(auto, unfolding(crate::specs::Drills::drill_sizes))]
pub(crate) fn drill_sizes() -> Geometry
    ensures is { result ≡ sizes_of_drill }
    ensures size { result.block_size ≡ 512 }
    ensures blocks { result.blocks ≡ 1024 }
    ensures valid { IsValid result }
{
    Geometry {
        block_size: 512,
        blocks: 1024,
    }
}

// The disk on which a drill begins: each block is the pattern of its number with seed 0.
pub(crate) fn drill_disk(alloc: Global) -> Result<MemDisk, NoMemory>
    ensures { IfOk result IsDrillDisk }
{
    let mut image = Vec::with_capacity(alloc, 1024 * 512)?;
    let mut block = [0u8; 512];
    for number in 0..1024u64 {
        fill_pattern(number, 0, &mut block);
        image.extend_from_slice(&block)?;
    }
    disk_on(alloc, image)
}

// A disk that is settled on this image.
pub(crate) fn disk_on(alloc: Global, image: Vec<u8>) -> Result<MemDisk, NoMemory>
    requires { length image.items ≡ sizes_of_drill.blocks * sizes_of_drill.block_size }
    ensures fresh { IfOk result (λ d. d.state ≡ fresh sizes_of_drill (image_of sizes_of_drill image.items)
        drill_room) }
    ensures settled { IfOk result (λ d. IsSettledOn (image_of sizes_of_drill image.items) (content d.state)) }
{
    MemDisk::new(alloc, drill_sizes(), image, 8192)
}
