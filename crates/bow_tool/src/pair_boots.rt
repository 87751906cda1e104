// Settling several devices, with its line.
ghost use Rattle.std.specs.Prelude.{◌≡◌, ◌⊎◌, ◌≤◌, IfErr, IfOk, MatchResult, OnErr, OnOk, length};
ghost use Rattle.bow_pair.specs.Settling.{AreStated, AreValid};
ghost use Rattle.bow_tool.specs.Outside.{disk_view, keeper_view};
ghost use Rattle.bow_tool.specs.PairBoots.{DecisionCause, IsPairBootRefusal, IsPairBootedLine, KeepsDecision};
ghost use Rattle.bow_tool.specs.PairBoots.{PairSettled, PairUnsettled, SizesStop};
ghost use Rattle.bow_tool.specs.PairCalls.{OnlyAsked, OnlyRead};
ghost use Rattle.bow_tool.specs.declared.refusals.Refusal.TheVariants.{NoMemory};

use crate::lines::line;
use crate::refusals::Refusal;
use crate::sizes::sizes_of;
use bow_disk::Disk;
use bow_pair::{PairBootFault, PairBooted, pair_boot};
use bow_units::Geometry;
use std::alloc::Global;
use vold_meta::{DecisionFault, Keeper, read_decision};

// Settles the devices on these disks by the decision that is kept, and gives the line. The decision is read first, then
// the sizes of all disks are asked.
pub(crate) fn boot_pair<D: Disk, K: Keeper>(
    alloc: Global,
    disks: &mut [D],
    keeper: &mut K,
) -> Result<Vec<u8>, Refusal>
    requires few { length disks.old ≤ 8 }
    ensures done { IfOk result (λ text. PairSettled (disk_view D.stated D.content D.moment D.left_since D.faults)
        (keeper_view K.kept K.moment K.left_since K.faults) disks.old disks.new keeper.old keeper.new (λ r.
        IsPairBootedLine r text.items)) }
    ensures cause { IfErr result (PairUnsettled (disk_view D.stated D.content D.moment D.left_since D.faults)
        (keeper_view K.kept K.moment K.left_since K.faults) disks.old disks.new keeper.old keeper.new) }
{
    if let Err(refusal) = keeps_decision(keeper) {
        return Err(refusal);
    }
    let geometries = match all_sizes(alloc, disks) {
        Ok(geometries) => geometries,
        Err(refusal) => return Err(refusal),
    };
    let answer = pair_boot(alloc, disks, &geometries, keeper);
    told_pair_boot(alloc, answer)
}

// A decision is kept, or nothing. It is read once more as the devices are settled.
fn keeps_decision<K: Keeper>(keeper: &mut K) -> Result<(), Refusal>
    ensures read { OnlyRead (keeper_view K.kept K.moment K.left_since K.faults) keeper.old keeper.new }
    ensures decided { OnOk result (KeepsDecision (keeper_view K.kept K.moment K.left_since K.faults) keeper.old) }
    ensures cause { IfErr result (DecisionCause (keeper_view K.kept K.moment K.left_since K.faults) keeper.old
        keeper.new) }
{
    match read_decision(keeper) {
        Ok(_) => Ok(()),
        Err(DecisionFault::BadDecision) => Err(Refusal::BadAttempts),
        Err(DecisionFault::KeeperFault) => Err(Refusal::KeeperFault),
    }
}

// The sizes of all disks, in their order, up to the first that states none that a device may have.
fn all_sizes<D: Disk>(alloc: Global, disks: &mut [D]) -> Result<Vec<Geometry>, Refusal>
    ensures asked { OnlyAsked (disk_view D.stated D.content D.moment D.left_since D.faults) disks.old disks.new }
    ensures many { IfOk result (λ sizes. length sizes.items ≡ length disks.new) }
    ensures valid { IfOk result (λ sizes. AreValid sizes.items) }
    ensures stated { IfOk result (λ sizes. AreStated D.stated sizes.items disks.new) }
    ensures cause { IfErr result (λ refusal. (refusal ≡ NoMemory) ⊎ SizesStop (disk_view D.stated D.content D.moment
        D.left_since D.faults) disks.old disks.new refusal) }
{
    let Ok(mut geometries) = Vec::with_capacity(alloc, disks.len()) else {
        return Err(Refusal::NoMemory);
    };
    for device in 0..disks.len() {
        let disk = &mut disks[device];
        let geometry = match sizes_of(disk) {
            Ok(geometry) => geometry,
            Err(refusal) => return Err(refusal),
        };
        geometries.push_reserved(geometry);
    }
    Ok(geometries)
}

// The line of a boot of several devices that ended well; each fault is a refusal.
fn told_pair_boot(
    alloc: Global,
    answer: Result<PairBooted, PairBootFault>,
) -> Result<Vec<u8>, Refusal>
    ensures { MatchResult result (λ text. IsPairBootedLine answer text.items) (IsPairBootRefusal answer) }
{
    match answer {
        Ok(PairBooted::Forwarded) => Ok(line(alloc, b"forwarded\n")?),
        Ok(PairBooted::RolledBack) => Ok(line(alloc, b"rolled back\n")?),
        Ok(PairBooted::Plain) => Ok(line(alloc, b"plain\n")?),
        Err(PairBootFault::KeeperFault) => Err(Refusal::KeeperFault),
        Err(PairBootFault::BadDecision) => Err(Refusal::BadAttempts),
        Err(PairBootFault::BadChain { fault, .. }) => Err(Refusal::BadChain(fault)),
        Err(PairBootFault::BadHeader { fault, .. }) => Err(Refusal::BadHeader(fault)),
        Err(PairBootFault::Reserved { .. }) => Err(Refusal::Reserved),
        Err(PairBootFault::DiskFault) => Err(Refusal::DiskFault),
        Err(PairBootFault::NoMemory) => Err(Refusal::NoMemory),
    }
}
