// The cuts and the restorations of a drill.
ghost use Rattle.std.specs.Prelude.{◌≡◌, ◌*◌, ◌∷◌, ◌<◌, ◌≤◌, ◌^◌, ℕ, Bool, List, None, length, IfOk};
ghost use Rattle.bow_disk.specs.Bytes.{image_of};
ghost use Rattle.bow_disk.specs.Disk.{IsCrash, IsImage};
ghost use Rattle.bow_disk.specs.Memory.{content};
ghost use Rattle.bow_log.specs.Generations.{Generation};
ghost use Rattle.bow_chain.specs.Contents.{Contents, contents_of};
ghost use Rattle.bow_chain.specs.Sound.{IsSound};
ghost use Rattle.bow_restore.specs.Answers.{TellsHead, TellsSound};
ghost use Rattle.bow_restore.specs.Rewinds.{PassesOn, Reruns};
ghost use Rattle.bow_restore.specs.declared.answers.Restored.TheVariants.{DiskFault as Faulted, NoMemory as WantedMemory};
ghost use Rattle.bow_tool.specs.Drills.{AreBack, HasEnded, IsHeldIn, IsRerunFrom, drill_sizes as sizes_of_drill};

use crate::drill_disks::{disk_on, drill_sizes};
use bow_disk::{MemDisk, Pick};
use bow_restore::{Restored, restore};
use bow_units::NoMemory;
use std::alloc::Global;

// What is left of a disk that is cut, and then restored three times, each time cut too. What each cut leaves is drawn
// from the numbers from `seed` on.
pub(crate) fn cut_thrice(alloc: Global, disk: &MemDisk, seed: u64) -> Result<Vec<u8>, NoMemory>
    requires sizes { disk.now.state.geometry ≡ sizes_of_drill }
    requires seed { seed < 2 ^ 31 }
    ensures whole { IfOk result (λ last. length last.items ≡ sizes_of_drill.blocks * sizes_of_drill.block_size) }
    ensures reruns { IfOk result (λ last. IsRerunFrom sizes_of_drill (content disk.now.state).candidates
        (image_of sizes_of_drill last.items)) }
{
    let mut image = disk.cut(alloc, Pick::Seeded(seed))?;
    for round in 1..4u32 {
        image = restore_and_cut(alloc, image, 20 * round, seed + round as u64)?;
    }
    Ok(image)
}

// Restores so many blocks of an image, and cuts that.
fn restore_and_cut(
    alloc: Global,
    image: Vec<u8>,
    limit: u32,
    seed: u64,
) -> Result<Vec<u8>, NoMemory>
    requires whole { length image.items ≡ sizes_of_drill.blocks * sizes_of_drill.block_size }
    requires limit { 1 ≤ limit }
    ensures whole { IfOk result (λ next. length next.items ≡ sizes_of_drill.blocks * sizes_of_drill.block_size) }
    ensures passes { IfOk result (λ next. PassesOn sizes_of_drill (image_of sizes_of_drill image.items)
        (image_of sizes_of_drill next.items)) }
    ensures image { IfOk result (λ next. IsImage sizes_of_drill.block_size sizes_of_drill.blocks
        (image_of sizes_of_drill next.items)) }
{
    let mut disk = disk_on(alloc, image)?;
    let answer = restore(alloc, &mut disk, drill_sizes(), Some(limit));
    if answer == Restored::NoMemory {
        return Err(NoMemory);
    }
    disk.cut(alloc, Pick::Seeded(seed))
}

// Restores an image that holds a checkpoint, whole. It answers how that ended, and what the disk then holds: each block
// that was in use at the checkpoint as it was. `NoMemory` is answered for want of memory, or where a call of the disk
// failed.
pub(crate) fn restore_last(alloc: Global, last: &[u8]) -> Result<(Restored, Vec<u8>), NoMemory>
    requires whole { length last.now ≡ sizes_of_drill.blocks * sizes_of_drill.block_size }
    requires held { (used : ℕ → Bool) × (saved : Contents) × IsHeldIn sizes_of_drill used saved (image_of sizes_of_drill
        last.now) }
    ensures head { IfOk result (λ r. TellsHead (contents_of (image_of sizes_of_drill last.now) 0) r.0) }
    ensures counts { IfOk result (λ r. (log : Generation) (older : List Generation)
        → IsSound sizes_of_drill (contents_of (image_of sizes_of_drill last.now)) log older
        → TellsSound None (log ∷ older) r.0) }
    ensures well { IfOk result (λ r. HasEnded r.0) }
    ensures whole { IfOk result (λ r. length r.1.items ≡ sizes_of_drill.blocks * sizes_of_drill.block_size) }
    ensures back { IfOk result (λ r. (used : ℕ → Bool) (saved : Contents) → IsHeldIn sizes_of_drill used saved (image_of
        sizes_of_drill last.now) → AreBack sizes_of_drill used saved (image_of sizes_of_drill r.1.items)) }
{
    let image = last.to_vec(alloc)?;
    let mut disk = disk_on(alloc, image)?;
    let answer = restore(alloc, &mut disk, drill_sizes(), None);
    let ended = unless_it_failed(answer)?;
    let left = disk.image(alloc)?;
    Ok((ended, left))
}

// What was answered, unless memory was wanting or a call of the disk failed.
fn unless_it_failed(answer: Restored) -> Result<Restored, NoMemory>
    ensures is { IfOk result (λ r. r ≡ answer) }
    ensures went { IfOk result (λ r. (r ≡ WantedMemory → ⊥) × (r ≡ Faulted → ⊥)) }
{
    match answer {
        Restored::NoMemory | Restored::DiskFault => Err(NoMemory),
        _ => Ok(answer),
    }
}
