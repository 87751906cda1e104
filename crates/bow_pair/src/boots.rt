// A boot of several devices: they are settled by the one decision that is kept.
ghost use Rattle.std.specs.Prelude.{◌≡◌, ◌<◌, ◌≤◌, ◌^◌, ℕ, List, Option, Some, IfOk, IfErr, length};
ghost use Rattle.bow_disk.specs.Disk.{Content};
ghost use Rattle.vold_meta.specs.Keeper.{Goes, Changes};
ghost use Rattle.vold_meta.specs.Decisions.{text_of_decision};
ghost use Rattle.bow_pair.specs.Boot.{AreTold, Ends, IsCaused, SettlesAs, StaysAgreed, StopsBy};
ghost use Rattle.bow_pair.specs.Boots.{CutBoot};
ghost use Rattle.bow_pair.specs.Ending.{EndsBy, KeepsBy, EndIsCaused};
ghost use Rattle.bow_pair.specs.Joint.{IsJointCut};
ghost use Rattle.bow_pair.specs.Settling.{AreStated, AreValid, EachDisk};

use crate::settling::settle_each;
use bow_chain::ChainFault;
use bow_disk::Disk;
use bow_log::LogFault;
use bow_units::{Failed, Geometry};
use std::alloc::Global;
use vold_meta::{DecisionFault, Keeper, drop_decision, read_decision};

/// How a boot of several devices ended that ended well.
#[derive(Clone, Copy, Debug, PartialEq, Eq)]
pub enum PairBooted {
    /// The decision to commit was kept: each device has its committed data, and no text is kept any more.
    Forwarded,
    /// No decision was kept, and some device had a log: each device has its checkpoint in place.
    RolledBack,
    /// No decision was kept, and no device had a log: nothing was changed.
    Plain,
}

/// Why a boot of several devices did not end well. It may be run again.
#[derive(Clone, Copy, Debug, PartialEq, Eq)]
pub enum PairBootFault {
    /// A call of the keeper failed.
    KeeperFault,
    /// A text is kept that is no decision. Nothing was changed.
    BadDecision,
    /// This device has no sound chain of logs. Its image was not changed.
    BadChain { device: u32, fault: ChainFault },
    /// The header of this device's log has this fault. Its image was not changed.
    BadHeader { device: u32, fault: LogFault },
    /// The current block 0 of this device begins with a magic. Its image was not changed.
    Reserved { device: u32 },
    /// A call of a disk failed.
    DiskFault,
    /// There was no memory.
    NoMemory,
}

// Ends a boot whose devices are settled, by the decision and by whether there was a log in some block 0.
fn end<K: Keeper>(
    keeper: &mut K,
    committed: bool,
    logged: bool,
) -> Result<PairBooted, PairBootFault>
    ensures answer { EndsBy committed logged result }
    ensures step { Goes (KeepsBy committed result) (K.kept keeper.old) (K.kept keeper.new) }
    ensures cause { EndIsCaused (K.faults keeper.old) (K.faults keeper.new) result }
{
    if committed {
        return match drop_decision(keeper) {
            Ok(()) => Ok(PairBooted::Forwarded),
            Err(Failed) => Err(PairBootFault::KeeperFault),
        };
    }
    if logged {
        Ok(PairBooted::RolledBack)
    } else {
        Ok(PairBooted::Plain)
    }
}

/// Settles several devices after a cut, by the one decision that is kept: where it is to commit, each checkpoint is
/// given up, in the order of the devices, and then the text is removed; where no text is kept, each device is restored.
/// It stops at the first fault and makes no further call. However often it is cut or fails, nothing is lost: the
/// devices and the text go on agreeing, and the next call goes on from what it left.
///
/// `Forwarded` comes exactly where the decision was kept, `Plain` exactly where no text was kept and no block 0 began
/// with a magic, and `RolledBack` else. `BadDecision` comes exactly where another text is kept, and then nothing has
/// changed. `BadChain`, `BadHeader` and `Reserved` name the first device that has that fault, whose image is unchanged.
/// `KeeperFault` and `DiskFault` come only where that count of faults rose.
///
/// Condition: the geometries are valid and the disks', as many as disks, and each has a number in `u32`.
pub fn pair_boot<D: Disk, K: Keeper>(
    alloc: Global,
    disks: &mut [D],
    geometries: &[Geometry],
    keeper: &mut K,
) -> Result<PairBooted, PairBootFault>
    requires many { length disks.old ≡ length geometries.now }
    requires few { length geometries.now < 2 ^ 32 }
    requires valid { AreValid geometries.now }
    requires sizes { AreStated D.stated geometries.now disks.old }
    // Over any disks and keeper: causes.
    ensures cause { IsCaused (K.faults keeper.old) (K.faults keeper.new) D.faults disks.old disks.new result }
    // Over those that tell what they hold: what it answers and leaves, and that one that failed is a boot that was cut.
    ensures ends { (told : ℕ → Content) → AreTold D.content disks.old told → (text left : Option (List ℕ))
        → K.kept keeper.old ≡ Some text → K.kept keeper.new ≡ Some left
        → IfOk result (Ends D.content geometries.now disks.new told text left) }
    ensures stops { (text left : Option (List ℕ)) → K.kept keeper.old ≡ Some text → K.kept keeper.new ≡ Some left
        → IfErr result (StopsBy D.content D.faults geometries.now disks.old disks.new text left) }
    ensures is_cut { (told : ℕ → Content) → AreTold D.content disks.old told → (text left : Option (List ℕ))
        → K.kept keeper.old ≡ Some text → K.kept keeper.new ≡ Some left → (j : ℕ → List (List ℕ))
        → IsJointCut D.content disks.new j
        → IfErr result (λ _. (i : ℕ → List (List ℕ)) × IsJointCut D.content disks.old i × CutBoot geometries.now i text
        j left) }
    // In a user's words: what is left agrees again, and once it ended well each device is settled so.
    ensures agreed { (told : ℕ → Content) → AreTold D.content disks.old told → (text left : Option (List ℕ))
        → K.kept keeper.old ≡ Some text → K.kept keeper.new ≡ Some left
        → StaysAgreed D.content geometries.now disks.old disks.new text left }
    ensures settles { (told : ℕ → Content) → AreTold D.content disks.old told → (text : Option (List ℕ))
        → K.kept keeper.old ≡ Some text
        → IfOk result (λ _. SettlesAs D.content geometries.now disks.old disks.new text) }
    ensures tells { (text : Option (List ℕ)) → K.kept keeper.old ≡ Some text → (left : Option (List ℕ))
        × (K.kept keeper.new ≡ Some left) }
    ensures sizes { AreStated D.stated geometries.now disks.new }
    ensures keeper_faults { K.faults keeper.old ≤ K.faults keeper.new }
    ensures disk_faults { EachDisk (λ k g old new. D.faults old ≤ D.faults new) geometries.now disks.old disks.new }
{
    let committed = match read_decision(keeper) {
        Ok(committed) => committed,
        Err(DecisionFault::KeeperFault) => return Err(PairBootFault::KeeperFault),
        Err(DecisionFault::BadDecision) => return Err(PairBootFault::BadDecision),
    };
    let logged = match settle_each(alloc, disks, geometries, committed) {
        Ok(logged) => logged,
        Err(fault) => return Err(fault),
    };
    end(keeper, committed, logged)
}
