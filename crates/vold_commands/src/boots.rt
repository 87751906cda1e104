// A boot: the attempts are marked, the checkpoint is put back where it is asked for, and the answer says how it ended.
ghost use Rattle.std.specs.Prelude.{◌≡◌, ◌≤◌, ℕ, true, List, Option, Some, IfOk};
ghost use Rattle.bow_units.specs.Sizes.{IsValid};
ghost use Rattle.bow_units.specs.Causes.{Rose};
ghost use Rattle.bow_disk.specs.Disk.{Content};
ghost use Rattle.bow_chain.specs.Contents.{contents_of};
ghost use Rattle.bow_restore.specs.Rewinds.{PassesOn};
ghost use Rattle.bow_disk.specs.Moments.{AddsCuts, Tells as HoldsOf};
ghost use Rattle.bow_restore.specs.Answers.{IsBack, FromHeld, CutsHold};
ghost use Rattle.vold_meta.specs.Keeper.{Goes, TimeGoes};
ghost use Rattle.vold_commands.specs.Boot.{IsToldAs, Backs, IsBackCaused, EndsBy, KeepsBy, end_calls, IsBootAnswer, IsBootCaused, BootLeaves, BootIsCut, IsPutBack, BootPuts, BootTime};

use crate::commands::mark;
use bow_chain::ChainFault;
use bow_disk::Disk;
use bow_restore::{Restored, restore};
use bow_units::{Failed, Geometry};
use std::alloc::Global;
use vold_meta::{AttemptFault, Keeper};

/// How a boot ended that ended well.
#[derive(Clone, Copy, Debug, PartialEq, Eq)]
pub enum Booted {
    /// Neither a number of attempts nor a checkpoint was there.
    Plain,
    /// So many attempts are left for the system to be committed.
    Checkpointing(u32),
    /// The checkpoint is in place again, and no attempts are kept.
    RolledBack,
}

/// Why a boot did not end well.
#[derive(Clone, Copy, Debug, PartialEq, Eq)]
pub enum BootFault {
    /// A call of the keeper failed.
    KeeperFault,
    /// A text is kept that is no text of attempts. Nothing was changed.
    BadAttempts,
    /// There is no sound chain of logs. The image was not changed.
    BadChain(ChainFault),
    /// A call of the disk failed. The system may boot again.
    DiskFault,
    /// There was no memory. The image was not changed.
    NoMemory,
}

// What a restoration's answer is for a boot.
fn told(answer: Restored) -> Result<bool, BootFault>
    ensures { IsToldAs answer result }
{
    match answer {
        Restored::Nothing => Ok(false),
        Restored::Done { .. } => Ok(true),
        // Without a limit it does not stop.
        Restored::Stopped { .. } => Ok(true),
        Restored::BadChain(fault) => Err(BootFault::BadChain(fault)),
        Restored::DiskFault => Err(BootFault::DiskFault),
        Restored::NoMemory => Err(BootFault::NoMemory),
    }
}

// Restores where block 0 begins with a magic, and answers whether it did.
fn put_back<D: Disk>(alloc: Global, disk: &mut D, geometry: Geometry) -> Result<bool, BootFault>
    requires valid { IsValid geometry }
    requires sizes { D.stated disk.old ≡ Some geometry }
    ensures cause { IsBackCaused (D.faults disk.old) (D.faults disk.new) result }
    ensures back { (c : Content) → D.content disk.old ≡ Some c → Backs geometry D.content disk.new c result }
    ensures cuts { (c : Content) → D.content disk.old ≡ Some c
        → AddsCuts D.moment D.left_since (PassesOn geometry c.now) disk.old disk.new }
    ensures holds { FromHeld geometry D.content disk.old (CutsHold geometry D.moment D.left_since disk.old disk.new) }
    ensures in_place { FromHeld geometry D.content disk.old (λ used saved.
        IfOk result (λ _. HoldsOf D.content (IsBack geometry used saved) disk.new)) }
    ensures sizes { D.stated disk.new ≡ Some geometry }
    ensures faults { D.faults disk.old ≤ D.faults disk.new }
{
    let answer = restore(alloc, disk, geometry, None);
    told(answer)
}

// Ends a boot by the marked attempts, and by whether block 0 had begun with a magic.
fn end<K: Keeper>(keeper: &mut K, attempts: Option<u32>, logged: bool) -> Result<Booted, BootFault>
    ensures answer { EndsBy attempts logged result }
    ensures step { Goes (KeepsBy attempts result) (K.kept keeper.old) (K.kept keeper.new) }
    ensures time { TimeGoes (K.kept keeper.new) (end_calls attempts) (K.moment keeper.old) (K.moment keeper.new)
        (K.left_since keeper.old) (K.left_since keeper.new) (λ c. (attempts ≡ Some 0) × (c ≡ None)) }
    ensures cause { IsBootCaused (K.faults keeper.old) (K.faults keeper.new) 0 0 result }
    ensures faults { K.faults keeper.old ≤ K.faults keeper.new }
{
    match attempts {
        Some(left) if left > 0 => Ok(Booted::Checkpointing(left)),
        Some(_) => match keeper.remove() {
            Ok(()) => Ok(Booted::RolledBack),
            Err(Failed) => Err(BootFault::KeeperFault),
        },
        None => {
            if logged {
                Ok(Booted::RolledBack)
            } else {
                Ok(Booted::Plain)
            }
        }
    }
}

/// Boots: it marks the attempts where a number is kept, puts the checkpoint back where block 0 begins with a magic, and
/// where the marked number is 0 it keeps no attempts any more. However often it is cut or fails, nothing is lost: the
/// next boot goes on from what it left.
///
/// `Checkpointing` comes where so many attempts, more than 0, are left, `RolledBack` where none is left, or where no
/// number was kept and block 0 began with a magic, and `Plain` else. `BadAttempts` comes exactly where a text is kept
/// that is none of attempts, and then nothing has changed. After `BadChain`, `DiskFault` and `NoMemory` a mark that was
/// made stands, and no text is removed. `KeeperFault` and `DiskFault` come only where that count of faults rose.
///
/// Condition: the geometry is valid and the disk's.
pub fn boot<D: Disk, K: Keeper>(
    alloc: Global,
    disk: &mut D,
    geometry: Geometry,
    keeper: &mut K,
) -> Result<Booted, BootFault>
    requires valid { IsValid geometry }
    requires sizes { D.stated disk.old ≡ Some geometry }
    // Over any disk and keeper: causes, and what the answer may be.
    ensures answer { IfOk result IsBootAnswer }
    ensures cause { IsBootCaused (K.faults keeper.old) (K.faults keeper.new) (D.faults disk.old) (D.faults disk.new)
        result }
    // Over those that tell what they hold: what it answers and leaves, and that a boot that failed is one that was cut.
    ensures leaves { (c : Content) → D.content disk.old ≡ Some c → (k : Option (List ℕ)) → K.kept keeper.old ≡ Some k
        → BootLeaves geometry D.content K.kept disk.new keeper.new c k result }
    ensures is_cut { (c : Content) → D.content disk.old ≡ Some c → (k : Option (List ℕ)) → K.kept keeper.old ≡ Some k
        → BootIsCut geometry D.content K.kept disk.new keeper.new c k result }
    // What a cut leaves of the text: what it might have left before, the marked one, or none, and that only once the
    // restoration has ended well.
    ensures texts { (k : Option (List ℕ)) → K.kept keeper.old ≡ Some k
        → BootTime (K.moment keeper.old) (K.moment keeper.new) (K.left_since keeper.old) (K.left_since keeper.new)
        (BootPuts (IsPutBack geometry D.content disk.old disk.new) k) }
    // What a cut leaves of the image.
    ensures cuts { (c : Content) → D.content disk.old ≡ Some c
        → AddsCuts D.moment D.left_since (PassesOn geometry c.now) disk.old disk.new }
    ensures holds { FromHeld geometry D.content disk.old (CutsHold geometry D.moment D.left_since disk.old disk.new) }
    ensures in_place { FromHeld geometry D.content disk.old (λ used saved.
        IfOk result (λ _. HoldsOf D.content (IsBack geometry used saved) disk.new)) }
    ensures sizes { D.stated disk.new ≡ Some geometry }
    ensures keeper_faults { K.faults keeper.old ≤ K.faults keeper.new }
    ensures disk_faults { D.faults disk.old ≤ D.faults disk.new }
{
    let attempts = match mark(keeper) {
        Ok(attempts) => attempts,
        Err(AttemptFault::KeeperFault) => return Err(BootFault::KeeperFault),
        Err(AttemptFault::BadAttempts) => return Err(BootFault::BadAttempts),
    };
    let logged = match put_back(alloc, disk, geometry) {
        Ok(logged) => logged,
        Err(fault) => return Err(fault),
    };
    end(keeper, attempts, logged)
}
