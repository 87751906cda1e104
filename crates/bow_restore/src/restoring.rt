// Restoration, whole.
ghost use Rattle.std.specs.Prelude.{◌≡◌, ◌≤◌, ◌∷◌, ◌⊎◌, ℕ, List, Some, IfOk, IfErr, MatchResult};
ghost use Rattle.bow_units.specs.Causes.{Rose};
ghost use Rattle.bow_disk.specs.Disk.{Goes, Same};
ghost use Rattle.bow_chain.specs.Answers.{IsOutside};
ghost use Rattle.bow_chain.specs.declared.faults.ChainFault.TheVariants.{DiskFault as ChainDiskFault};
ghost use Rattle.bow_units.specs.Sizes.{IsValid};
ghost use Rattle.bow_log.specs.Generations.{Generation};
ghost use Rattle.bow_disk.specs.Disk.{Content, IsSettledOn};
ghost use Rattle.bow_chain.specs.Contents.{contents_of};
ghost use Rattle.bow_chain.specs.Sound.{IsSound};
ghost use Rattle.bow_chain.specs.Kept.{IsPlain, kept, Holds};
ghost use Rattle.bow_chain.specs.Chains.{IsSoundWith};
ghost use Rattle.bow_chain.specs.Faults.{IsFirstFault};
ghost use Rattle.bow_chain.specs.declared.faults.ChainFault.{ChainFault};
ghost use Rattle.bow_restore.specs.Limits.{IsLimit};
ghost use Rattle.bow_restore.specs.Rewinds.{every, PassesOn};
ghost use Rattle.bow_restore.specs.Replaying.{IsFlushed};
ghost use Rattle.bow_disk.specs.Moments.{AddsCuts, AddsNoCut, Tells};
ghost use Rattle.bow_restore.specs.Answers.{IsCaused, TellsHead, TellsSound, TellsFault, LeftBy, Untouched, EndsBack, IsRefusal, FromSound, FromFault, FromHeld, CutsHold};

use crate::answers::Restored;
use crate::generations::replay;
use crate::halts::Halt;
use bow_chain::{Chain, ChainFault, load};
use bow_disk::Disk;
use bow_units::Geometry;
use std::alloc::Global;

// Replays a chain of a flushed disk, with memory for one block and for one note on each block of the device.
fn replay_chain<D: Disk>(
    alloc: Global,
    disk: &mut D,
    geometry: Geometry,
    chain: &Chain,
    limit: Option<u32>,
) -> Restored
    requires valid { IsValid geometry }
    requires sizes { D.stated disk.old ≡ Some geometry }
    requires chain { chain.now.geometry ≡ geometry }
    requires limit { IsLimit limit }
    ensures cause { IsCaused limit (D.faults disk.old) (D.faults disk.new) result }
    ensures counts { TellsSound limit chain.now.generations result }
    ensures left { (c : Content) → D.content disk.old ≡ Some c → IsFlushed c
        → IsSoundWith geometry (contents_of c.now) chain.now.generations
        → LeftBy geometry chain.now.generations D.content disk.new c result }
    ensures cuts { (c : Content) → D.content disk.old ≡ Some c → IsFlushed c
        → IsSoundWith geometry (contents_of c.now) chain.now.generations
        → AddsCuts D.moment D.left_since (λ image. Holds geometry every (kept (contents_of c.now) chain.now.generations)
        (contents_of image)) disk.old disk.new }
    ensures sizes { D.stated disk.new ≡ Some geometry }
    ensures faults { D.faults disk.old ≤ D.faults disk.new }
{
    let Ok(mut block) = vec![in alloc; 0u8; geometry.block_size as usize] else {
        return Restored::NoMemory;
    };
    let Ok(mut dests) = vec![in alloc; false; geometry.blocks as usize] else {
        return Restored::NoMemory;
    };
    let mut left = limit;
    match replay(
        disk,
        geometry,
        chain.generations(),
        &mut left,
        &mut dests,
        &mut block,
    ) {
        Ok(counts) => Restored::Done {
            entries: counts.entries,
            marks: counts.marks,
        },
        Err(Halt::Fault) => Restored::DiskFault,
        Err(Halt::Limit) => Restored::Stopped {
            writes: limit.unwrap_or(0),
        },
    }
}

// What is answered where no chain was loaded.
fn refusal(fault: ChainFault) -> Restored
    ensures { IsRefusal fault result }
{
    match fault {
        ChainFault::NoLog => Restored::Nothing,
        ChainFault::DiskFault => Restored::DiskFault,
        ChainFault::NoMemory => Restored::NoMemory,
        fault => Restored::BadChain(fault),
    }
}

// Restores what a flushed disk keeps.
fn restore_flushed<D: Disk>(
    alloc: Global,
    disk: &mut D,
    geometry: Geometry,
    limit: Option<u32>,
) -> Restored
    requires valid { IsValid geometry }
    requires sizes { D.stated disk.old ≡ Some geometry }
    requires limit { IsLimit limit }
    ensures cause { IsCaused limit (D.faults disk.old) (D.faults disk.new) result }
    ensures head { (c : Content) → D.content disk.old ≡ Some c → TellsHead (contents_of c.now 0) result }
    ensures each_sound { FromSound geometry D.content disk.old (λ c log older. TellsSound limit (log ∷ older) result) }
    ensures each_fault { FromFault geometry D.content disk.old (λ c first. TellsFault first result) }
    ensures left { (c : Content) → D.content disk.old ≡ Some c → IsFlushed c
        → (log : Generation) (older : List Generation) → IsSound geometry (contents_of c.now) log older
        → LeftBy geometry (log ∷ older) D.content disk.new c result }
    ensures untouched { (c : Content) → D.content disk.old ≡ Some c → IsFlushed c → (first : ChainFault)
        → IsFirstFault geometry (contents_of c.now) first
        → Tells D.content (Untouched result c) disk.new }
    ensures plain { (c : Content) → D.content disk.old ≡ Some c → IsFlushed c → IsPlain (contents_of c.now 0)
        → Tells D.content (Untouched result c) disk.new }
    ensures cuts { (c : Content) → D.content disk.old ≡ Some c → IsFlushed c
        → AddsCuts D.moment D.left_since (PassesOn geometry c.now) disk.old disk.new }
    ensures sizes { D.stated disk.new ≡ Some geometry }
    ensures faults { D.faults disk.old ≤ D.faults disk.new }
{
    match load(alloc, disk, geometry) {
        Ok(chain) => replay_chain(alloc, disk, geometry, &chain, limit),
        Err(fault) => refusal(fault),
    }
}

/// Puts back what the image keeps of each block: after `Done` the phone has the data of the checkpoint, each block in
/// its place. However often a call is cut or fails, nothing is lost: the next call goes on from what it left.
///
/// It flushes, loads the chain of logs and tests it whole, takes all its memory, and then copies each backup back, the
/// newest first, block by block. Where the copies so far would spoil what is still to be read after a cut, it makes a
/// mark: it writes to block 0 what is left to do. With a limit it stops after so many blocks; the limit is at least 1.
///
/// `Nothing` comes exactly where block 0 has no magic, `BadChain` exactly where it has one and the image has that
/// first fault, `Stopped` and `Done` exactly where the image is sound, by the limit; `DiskFault` only where the
/// disk's count of faults rose in this call, and `NoMemory` where there is none, either in place of what lies behind.
///
/// Condition: the geometry is valid and the disk's.
pub fn restore<D: Disk>(
    alloc: Global,
    disk: &mut D,
    geometry: Geometry,
    limit: Option<u32>,
) -> Restored
    requires valid { IsValid geometry }
    requires sizes { D.stated disk.old ≡ Some geometry }
    requires limit { IsLimit limit }
    // Over any disk: causes.
    ensures cause { IsCaused limit (D.faults disk.old) (D.faults disk.new) result }
    // Over a disk that tells its content: which answer, by the image at entry.
    ensures head { (c : Content) → D.content disk.old ≡ Some c → TellsHead (contents_of c.now 0) result }
    ensures each_sound { FromSound geometry D.content disk.old (λ c log older. TellsSound limit (log ∷ older) result) }
    ensures each_fault { FromFault geometry D.content disk.old (λ c first. TellsFault first result) }
    // What stands after it.
    ensures left { FromSound geometry D.content disk.old (λ c log older.
        LeftBy geometry (log ∷ older) D.content disk.new c result) }
    ensures untouched { FromFault geometry D.content disk.old (λ c first.
        Tells D.content (Untouched result c) disk.new) }
    ensures plain { (c : Content) → D.content disk.old ≡ Some c → IsPlain (contents_of c.now 0)
        → Tells D.content (Untouched result c) disk.new }
    // What a cut leaves that might not have been left before passes on what the image at entry keeps.
    ensures cuts { (c : Content) → D.content disk.old ≡ Some c
        → AddsCuts D.moment D.left_since (PassesOn geometry c.now) disk.old disk.new }
    ensures settled { (c : Content) → D.content disk.old ≡ Some c → IsSettledOn c.now c
        → (cut : List (List ℕ)) → D.left_since disk.new (D.moment disk.old) cut → PassesOn geometry c.now cut }
    // Where whatever a cut might have left at entry holds the checkpoint, with a plain block 0, so does whatever a
    // cut of this call leaves; and once it ends with Done or Nothing the checkpoint is back.
    ensures holds { FromHeld geometry D.content disk.old (CutsHold geometry D.moment D.left_since disk.old disk.new) }
    ensures back { FromHeld geometry D.content disk.old (λ used saved.
        EndsBack geometry used saved D.content disk.new result) }
    ensures sizes { D.stated disk.new ≡ Some geometry }
    ensures faults { D.faults disk.old ≤ D.faults disk.new }
{
    if disk.flush().is_err() {
        return Restored::DiskFault;
    }
    restore_flushed(alloc, disk, geometry, limit)
}

/// Loads the chain that a restoration would replay, under the restorer's name: `load`.
pub fn check<D: Disk>(alloc: Global, disk: &mut D, geometry: Geometry) -> Result<Chain, ChainFault>
    requires valid { IsValid geometry }
    requires sizes { D.stated disk.old ≡ Some geometry }
    ensures geometry { IfOk result (λ chain. chain.geometry ≡ geometry) }
    ensures sound { (c : Content) → D.content disk.old ≡ Some c
        → IfOk result (λ chain. IsSoundWith geometry (contents_of c.now) chain.generations) }
    ensures each_sound { (c : Content) → D.content disk.old ≡ Some c → (log : Generation) (older : List Generation)
        → IsSound geometry (contents_of c.now) log older →
        MatchResult result (λ chain. chain.generations ≡ log ∷ older) IsOutside }
    ensures each_fault { (c : Content) → D.content disk.old ≡ Some c → (first : ChainFault)
        → IsFirstFault geometry (contents_of c.now) first →
        MatchResult result (λ _. ⊥) (λ fault. (fault ≡ first) ⊎ IsOutside fault) }
    ensures sizes { D.stated disk.new ≡ Some geometry }
    ensures step { Goes Same (D.content disk.old) (D.content disk.new) }
    ensures cuts { AddsNoCut D.content D.moment D.left_since disk.old disk.new }
    ensures faults { D.faults disk.old ≤ D.faults disk.new }
    ensures cause { IfErr result (λ fault. fault ≡ ChainDiskFault → Rose (D.faults disk.old) (D.faults disk.new)) }
{
    load(alloc, disk, geometry)
}
