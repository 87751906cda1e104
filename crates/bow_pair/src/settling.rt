// Settling devices by the decision: each checkpoint is given up, or each is restored.
ghost use Rattle.std.specs.Prelude.{◌≡◌, ◌<◌, ◌≤◌, ◌^◌, true, false, Some, IfOk, IfErr, length};
ghost use Rattle.bow_units.specs.Sizes.{IsValid};
ghost use Rattle.bow_pair.specs.Settling.{AreStated, AreValid, EachDisk, IsLeft, IsRefused, IsSettled, StopsAt, TellsLogged, TellsSome};
ghost use Rattle.bow_pair.specs.Told.{IsForwardAnswer, IsRestoreAnswer};

use crate::boots::PairBootFault;
use bow_disk::Disk;
use bow_restore::{Forwarded, Restored, forward, restore};
use bow_units::Geometry;
use std::alloc::Global;

// What a restoration's answer is for a device: whether a log was in its block 0.
fn told_restored(answer: Restored, device: u32) -> Result<bool, PairBootFault>
    ensures { IsRestoreAnswer device answer result }
{
    match answer {
        Restored::Nothing => Ok(false),
        Restored::Done { .. } => Ok(true),
        // Without a limit it does not stop.
        Restored::Stopped { .. } => Ok(true),
        Restored::BadChain(fault) => Err(PairBootFault::BadChain { device, fault }),
        Restored::DiskFault => Err(PairBootFault::DiskFault),
        Restored::NoMemory => Err(PairBootFault::NoMemory),
    }
}

// What giving up is for a device.
fn told_forwarded(answer: Forwarded, device: u32) -> Result<bool, PairBootFault>
    ensures { IsForwardAnswer device answer result }
{
    match answer {
        Forwarded::Nothing => Ok(false),
        Forwarded::Done => Ok(true),
        Forwarded::BadHeader(fault) => Err(PairBootFault::BadHeader { device, fault }),
        Forwarded::Reserved => Err(PairBootFault::Reserved { device }),
        Forwarded::DiskFault => Err(PairBootFault::DiskFault),
        Forwarded::NoMemory => Err(PairBootFault::NoMemory),
    }
}

// Restores one device, and answers whether a log was in its block 0.
fn put_back<D: Disk>(
    alloc: Global,
    disk: &mut D,
    geometry: Geometry,
    device: u32,
) -> Result<bool, PairBootFault>
    requires valid { IsValid geometry }
    requires sizes { D.stated disk.old ≡ Some geometry }
    ensures settled { IfOk result (λ _. IsSettled D.content false geometry disk.old disk.new) }
    ensures logged { IfOk result (TellsLogged D.content disk.old) }
    ensures refused { IfErr result (IsRefused D.content D.faults false device geometry disk.old disk.new) }
    ensures left { IsLeft D.content false geometry disk.old disk.new }
    ensures sizes { D.stated disk.new ≡ Some geometry }
    ensures faults { D.faults disk.old ≤ D.faults disk.new }
{
    let answer = restore(alloc, disk, geometry, None);
    told_restored(answer, device)
}

// Gives up the checkpoint of one device, and answers whether there was a log in its block 0.
fn give_up<D: Disk>(
    alloc: Global,
    disk: &mut D,
    geometry: Geometry,
    device: u32,
) -> Result<bool, PairBootFault>
    requires valid { IsValid geometry }
    requires sizes { D.stated disk.old ≡ Some geometry }
    ensures settled { IfOk result (λ _. IsSettled D.content true geometry disk.old disk.new) }
    ensures logged { IfOk result (TellsLogged D.content disk.old) }
    ensures refused { IfErr result (IsRefused D.content D.faults true device geometry disk.old disk.new) }
    ensures left { IsLeft D.content true geometry disk.old disk.new }
    ensures sizes { D.stated disk.new ≡ Some geometry }
    ensures faults { D.faults disk.old ≤ D.faults disk.new }
{
    let answer = forward(alloc, disk, geometry);
    told_forwarded(answer, device)
}

// Settles one device by the decision, and answers whether there was a log in its block 0.
fn settle<D: Disk>(
    alloc: Global,
    disk: &mut D,
    geometry: Geometry,
    device: u32,
    committed: bool,
) -> Result<bool, PairBootFault>
    requires valid { IsValid geometry }
    requires sizes { D.stated disk.old ≡ Some geometry }
    ensures settled { IfOk result (λ _. IsSettled D.content committed geometry disk.old disk.new) }
    ensures logged { IfOk result (TellsLogged D.content disk.old) }
    ensures refused { IfErr result (IsRefused D.content D.faults committed device geometry disk.old disk.new) }
    ensures left { IsLeft D.content committed geometry disk.old disk.new }
    ensures sizes { D.stated disk.new ≡ Some geometry }
    ensures faults { D.faults disk.old ≤ D.faults disk.new }
{
    if committed {
        give_up(alloc, disk, geometry, device)
    } else {
        put_back(alloc, disk, geometry, device)
    }
}

// Settles the devices in order, and answers whether there was a log in some block 0. It stops at the first device that
// can't be settled, and makes no call on those behind it.
pub(crate) fn settle_each<D: Disk>(
    alloc: Global,
    disks: &mut [D],
    geometries: &[Geometry],
    committed: bool,
) -> Result<bool, PairBootFault>
    requires many { length disks.old ≡ length geometries.now }
    requires few { length geometries.now < 2 ^ 32 }
    requires valid { AreValid geometries.now }
    requires sizes { AreStated D.stated geometries.now disks.old }
    ensures settled { IfOk result (λ _. EachDisk (λ k g old new. IsSettled D.content committed g old new)
        geometries.now disks.old disks.new) }
    ensures logged { IfOk result (TellsSome D.content disks.old) }
    ensures stops { IfErr result (StopsAt D.content D.faults committed geometries.now disks.old disks.new) }
    ensures left { EachDisk (λ k g old new. IsLeft D.content committed g old new) geometries.now disks.old disks.new }
    ensures sizes { AreStated D.stated geometries.now disks.new }
    ensures faults { EachDisk (λ k g old new. D.faults old ≤ D.faults new) geometries.now disks.old disks.new }
{
    let mut logged = false;
    for device in 0..disks.len() {
        let disk = &mut disks[device];
        match settle(alloc, disk, geometries[device], device as u32, committed) {
            Ok(one) => logged = logged || one,
            Err(fault) => return Err(fault),
        }
    }
    Ok(logged)
}
