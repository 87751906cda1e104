// Opening a device on each of several disks.
ghost use Rattle.std.specs.Prelude.{◌≡◌, ◌+◌, ◌<◌, ◌≤◌, ◌++◌, ◌∷◌, [], map, length, IfErr, OnOk, vec_capacity};
ghost use Rattle.bow_core.specs.Openings.{KeepsImage, OpenCause};
ghost use Rattle.bow_core.specs.declared.device.OpenFault.{OpenFault};
ghost use Rattle.bow_pair.specs.Joining.{AreOpenedOver, FailsNext, OpensNext, StopsAfter, fault_at};

use bow_core::{Core, OpenFault};
use bow_disk::Disk;
use bow_ranges::Ranges;
use bow_units::Geometry;
use std::alloc::Global;

/// Why devices can't be joined.
#[derive(Clone, Copy, Debug, PartialEq, Eq)]
pub enum PairFault {
    /// The disk of this device states these sizes, which no device has.
    BadGeometry { device: u32, geometry: Geometry },
    /// Block 0 of this device begins with a magic: the devices have to be settled first.
    NeedsRestore { device: u32 },
    /// A call on a disk failed.
    DiskFault,
    /// There was no memory.
    NoMemory,
}

// What a device's fault of opening is for the pair.
fn fault_at(device: u32, fault: OpenFault) -> PairFault
    ensures { result ≡ fault_at device fault }
{
    match fault {
        OpenFault::BadGeometry(geometry) => PairFault::BadGeometry { device, geometry },
        OpenFault::NeedsRestore => PairFault::NeedsRestore { device },
        OpenFault::DiskFault => PairFault::DiskFault,
        OpenFault::NoMemory => PairFault::NoMemory,
    }
}

// Opens a device on the next disk.
fn open_next<D: Disk + Drop, R: Ranges + Drop>(
    alloc: Global,
    disks: &mut Vec<D>,
    cores: &mut Vec<Core<D, R>>,
) -> Result<(), (OpenFault, D)>
    requires some { 0 < length disks.old.items }
    requires room { length cores.old.items < vec_capacity cores.old }
    ensures opened { OnOk result (OpensNext D.stated D.content D.moment D.left_since D.faults disks.old.items
        disks.new.items cores.old.items cores.new.items) }
    ensures failed { IfErr result (λ e. (cores.new.items ≡ cores.old.items) × FailsNext D.stated D.content D.moment
        D.left_since D.faults disks.old.items disks.new.items e.1 e.0) }
    ensures room { vec_capacity cores.new ≡ vec_capacity cores.old }
{
    let disk = disks.remove(0);
    match Core::open(alloc, disk, 16) {
        Ok(core) => {
            cores.push_reserved(core);
            Ok(())
        }
        Err(refused) => Err(refused),
    }
}

// Opens a device on each disk, in order, up to the first on which none can be opened.
pub(crate) fn open_each<D: Disk + Drop, R: Ranges + Drop>(
    alloc: Global,
    disks: &mut Vec<D>,
    cores: &mut Vec<Core<D, R>>,
) -> Result<(), (PairFault, D)>
    requires few { length disks.old.items ≤ 8 }
    requires none { cores.old.items ≡ [] }
    requires room { length disks.old.items ≤ vec_capacity cores.old }
    ensures opened { OnOk result (AreOpenedOver D.stated D.content D.moment D.left_since D.faults disks.old.items []
        cores.new.items) }
    ensures stopped { IfErr result (λ e. StopsAfter D.stated D.content D.moment D.left_since D.faults disks.old.items
        disks.new.items cores.new.items e.1 e.0) }
    ensures room { vec_capacity cores.new ≡ vec_capacity cores.old }
{
    let count = disks.len() as u32;
    for device in 0..count {
        if let Err((fault, disk)) = open_next(alloc, disks, cores) {
            return Err((fault_at(device, fault), disk));
        }
    }
    Ok(())
}

// Closes devices, and puts their disks behind the others.
pub(crate) fn close_onto<D: Disk + Drop, R: Ranges + Drop>(
    cores: Vec<Core<D, R>>,
    mut disks: Vec<D>,
) -> Vec<D>
    requires room { length disks.items + length cores.items ≤ vec_capacity disks }
    ensures disks { result.items ≡ disks.items ++ map (λ v. v.disk) cores.items }
    ensures room { vec_capacity result ≡ vec_capacity disks }
{
    for core in cores {
        let disk = core.close();
        disks.push_reserved(disk);
    }
    disks
}

// Puts disks behind the others.
pub(crate) fn put_onto<D: Disk + Drop>(rest: Vec<D>, mut disks: Vec<D>) -> Vec<D>
    requires room { length disks.items + length rest.items ≤ vec_capacity disks }
    ensures disks { result.items ≡ disks.items ++ rest.items }
{
    for disk in rest {
        disks.push_reserved(disk);
    }
    disks
}
