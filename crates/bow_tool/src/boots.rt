// A boot, with its line.
ghost use Rattle.std.specs.Prelude.{◌≡◌, ◌++◌, codes, IfOk, IfErr, MatchResult};
ghost use Rattle.std.specs.Fmt.{decimal};
ghost use Rattle.bow_tool.specs.Outside.{disk_view, keeper_view};
ghost use Rattle.bow_tool.specs.Boots.{BootRefused, BootWith, IsBootRefusal, IsBootedLine};

use crate::lines::line;
use crate::refusals::Refusal;
use crate::sizes::sizes_of;
use bow_disk::Disk;
use bow_units::NoMemory;
use std::alloc::Global;
use vold_commands::{BootFault, Booted, boot};
use vold_meta::Keeper;

// Boots, and gives the line. The sizes are asked first, and the attempts before the image.
pub(crate) fn boot_image<D: Disk, K: Keeper>(
    alloc: Global,
    disk: &mut D,
    keeper: &mut K,
) -> Result<Vec<u8>, Refusal>
    ensures done { let v = disk_view D.stated D.content D.moment D.left_since D.faults in
        let w = keeper_view K.kept K.moment K.left_since K.faults in
        IfOk result (λ text. BootWith v w disk.old disk.new keeper.old keeper.new (λ r. IsBootedLine r text.items)) }
    ensures cause { let v = disk_view D.stated D.content D.moment D.left_since D.faults in
        let w = keeper_view K.kept K.moment K.left_since K.faults in
        IfErr result (BootRefused v w disk.old disk.new keeper.old keeper.new) }
{
    let geometry = match sizes_of(disk) {
        Ok(geometry) => geometry,
        Err(refusal) => return Err(refusal),
    };
    let answer = boot(alloc, disk, geometry, keeper);
    told_boot(alloc, answer)
}

// The line of a boot that ended well; each fault is a refusal.
fn told_boot(alloc: Global, answer: Result<Booted, BootFault>) -> Result<Vec<u8>, Refusal>
    ensures { MatchResult result (λ text. IsBootedLine answer text.items) (IsBootRefusal answer) }
{
    match answer {
        Ok(Booted::Plain) => Ok(line(alloc, b"plain\n")?),
        Ok(Booted::Checkpointing(left)) => Ok(checkpointing_line(alloc, left)?),
        Ok(Booted::RolledBack) => Ok(line(alloc, b"rolled back\n")?),
        Err(BootFault::KeeperFault) => Err(Refusal::KeeperFault),
        Err(BootFault::BadAttempts) => Err(Refusal::BadAttempts),
        Err(BootFault::BadChain(fault)) => Err(Refusal::BadChain(fault)),
        Err(BootFault::DiskFault) => Err(Refusal::DiskFault),
        Err(BootFault::NoMemory) => Err(Refusal::NoMemory),
    }
}

// The line of a boot that leaves so many attempts.
fn checkpointing_line(alloc: Global, left: u32) -> Result<Vec<u8>, NoMemory>
    ensures { IfOk result (λ text. text.items ≡ codes "checkpointing " ++ decimal left ++ codes "\n") }
{
    let line = format!(in alloc; "checkpointing {left}\n")?;
    Ok(line.into_bytes())
}
