// The decision of several devices.
ghost use Rattle.std.specs.Prelude.{◌≡◌, ◌<◌, ◌^◌, ℕ, List, None, Option, Some, IfSome, length};
ghost use Rattle.vold_meta.specs.Decisions.{commit_text};
ghost use Rattle.bow_pair.specs.Deciding.{AgreesBy, AreAtRest, EachPair, FailsAt, IsDecidedCaused, NoneFell, StillForward, StillHolds, TakePart, WasCommitted, WasFlushed, disks_of};
ghost use Rattle.bow_pair.specs.Joint.{IsJointCut, Member};
ghost use Rattle.bow_pair.specs.declared.deciding.Decided.TheVariants.{NotCommitted};

use crate::committing::{commit, flush};
use bow_core::Core;
use bow_disk::Disk;
use bow_ranges::Ranges;
use vold_meta::{Keeper, drop_decision, write_decision};

/// How a decision of several devices came out.
#[derive(Clone, Copy, Debug, PartialEq, Eq)]
pub enum Decided {
    /// Each device is committed, and no text is kept any more.
    Committed,
    /// The flush of this device failed. No decision was kept: a boot rolls all devices back.
    NotCommitted { device: u32 },
    /// The commit of this device failed. The decision is kept: a boot gives each checkpoint up forward.
    Unfinished { device: u32 },
    /// A call of the keeper failed. The decision may be kept or not.
    KeeperFault,
}

// Flushes the devices in order, and answers the first of which that failed.
fn flush_each<D: Disk, R: Ranges>(cores: &mut [Core<D, R>]) -> Option<u32>
    requires few { length cores.old < 2 ^ 32 }
    requires rests { AreAtRest D.stated 2 cores.old }
    ensures kept { EachPair (StillHolds D.stated D.content D.faults) cores.old cores.new }
    ensures flushed { result ≡ None → EachPair (WasFlushed D.content) cores.old cores.new }
    ensures failed { IfSome result (λ device. FailsAt D.faults device cores.old cores.new) }
{
    for device in 0..cores.len() {
        let core = &mut cores[device];
        let done = flush(core);
        if !done {
            return Some(device as u32);
        }
    }
    None
}

// Commits the devices in order, and answers the first of which that failed.
fn commit_each<D: Disk, R: Ranges>(cores: &mut [Core<D, R>]) -> Option<u32>
    requires few { length cores.old < 2 ^ 32 }
    requires rests { AreAtRest D.stated 1 cores.old }
    ensures kept { EachPair (StillForward D.stated D.content D.faults) cores.old cores.new }
    ensures committed { result ≡ None → EachPair (WasCommitted D.content) cores.old cores.new }
    ensures failed { IfSome result (λ device. FailsAt D.faults device cores.old cores.new) }
{
    for device in 0..cores.len() {
        let core = &mut cores[device];
        let done = commit(core);
        if !done {
            return Some(device as u32);
        }
    }
    None
}

/// Commits several devices together, each at rest in the checkpoint: it flushes each, keeps the decision, commits each
/// in order, and removes the text. It stops at the first fault and makes no further call. Whatever a cut leaves at its
/// exit, a boot of these devices leaves all of them with their committed data, or all with their checkpoint. It takes
/// no memory.
///
/// `NotCommitted` names the first device whose flush failed, and comes only where its disk's count of faults rose;
/// those behind it and the keeper are as they were. `Unfinished` names the first device whose commit failed, and comes
/// only where its disk's count rose; the decision is kept. `KeeperFault` comes only where the keeper's count rose.
///
/// Condition: no request waits in a device, its phase is `Checkpoint`, and it can take in two more requests; each
/// device has a number in `u32`.
pub fn decide<D: Disk, R: Ranges, K: Keeper>(cores: &mut [Core<D, R>], keeper: &mut K) -> Decided
    requires few { length cores.old < 2 ^ 32 }
    requires rests { AreAtRest D.stated 2 cores.old }
    // Over any disks and keeper: causes.
    ensures cause { IsDecidedCaused (K.faults keeper.old) (K.faults keeper.new) D.faults cores.old cores.new result }
    ensures untouched { (device : ℕ) → result ≡ NotCommitted device → keeper.new ≡ keeper.old }
    ensures counts { NoneFell D.faults cores.old cores.new }
    // Over those that tell what they hold, where no text was kept: what each joint cut agrees on with the text left.
    ensures agreed { (left : Option (List ℕ)) → K.kept keeper.old ≡ Some None → K.kept keeper.new ≡ Some left
        → (members : List Member) → TakePart D.content cores.old members → (images : ℕ → List (List ℕ))
        → IsJointCut D.content (disks_of cores.new) images → AgreesBy result left members images }
{
    if let Some(device) = flush_each(cores) {
        return Decided::NotCommitted { device };
    }
    if write_decision(keeper).is_err() {
        return Decided::KeeperFault;
    }
    if let Some(device) = commit_each(cores) {
        return Decided::Unfinished { device };
    }
    if drop_decision(keeper).is_err() {
        return Decided::KeeperFault;
    }
    Decided::Committed
}
