// Restoration, and giving the checkpoint up, with their lines.
ghost use Rattle.std.specs.Prelude.{◌≡◌, IfOk, IfErr, MatchResult};
ghost use Rattle.bow_restore.specs.Limits.{IsLimit};
ghost use Rattle.bow_tool.specs.Outside.{disk_view};
ghost use Rattle.bow_tool.specs.Restores.{ImageCause, IsForwardRefusal, IsForwarded, IsForwardedLine, IsRestoreRefusal, IsRestored, IsRestoredLine, WithSizes, restored_line as restored_text};

use crate::lines::line;
use crate::refusals::Refusal;
use crate::sizes::sizes_of;
use bow_disk::Disk;
use bow_restore::{Forwarded, Restored, forward, restore};
use bow_units::NoMemory;
use std::alloc::Global;

// Puts the checkpoint back that the image keeps, or so many of its writes, and gives the line.
pub(crate) fn restore_image<D: Disk>(
    alloc: Global,
    disk: &mut D,
    limit: Option<u32>,
) -> Result<Vec<u8>, Refusal>
    requires limit { IsLimit limit }
    ensures done { let v = disk_view D.stated D.content D.moment D.left_since D.faults in
        IfOk result (λ text. WithSizes v disk.new (λ g answer. IsRestored v g limit disk.old disk.new answer)
        (λ answer. IsRestoredLine answer text.items)) }
    ensures cause { let v = disk_view D.stated D.content D.moment D.left_since D.faults in
        IfErr result (ImageCause v disk.old disk.new (λ g answer. IsRestored v g limit disk.old disk.new answer)
        IsRestoreRefusal) }
{
    let geometry = match sizes_of(disk) {
        Ok(geometry) => geometry,
        Err(refusal) => return Err(refusal),
    };
    let answer = restore(alloc, disk, geometry, limit);
    told_restored(alloc, answer)
}

// Gives the checkpoint up, and gives the line.
pub(crate) fn forward_image<D: Disk>(alloc: Global, disk: &mut D) -> Result<Vec<u8>, Refusal>
    ensures done { let v = disk_view D.stated D.content D.moment D.left_since D.faults in
        IfOk result (λ text. WithSizes v disk.new (λ g answer. IsForwarded v g disk.old disk.new answer)
        (λ answer. IsForwardedLine answer text.items)) }
    ensures cause { let v = disk_view D.stated D.content D.moment D.left_since D.faults in
        IfErr result (ImageCause v disk.old disk.new (λ g answer. IsForwarded v g disk.old disk.new answer)
        IsForwardRefusal) }
{
    let geometry = match sizes_of(disk) {
        Ok(geometry) => geometry,
        Err(refusal) => return Err(refusal),
    };
    let answer = forward(alloc, disk, geometry);
    told_forwarded(alloc, answer)
}

// The line of a restoration that ended well; each other answer is a refusal.
pub(crate) fn told_restored(alloc: Global, answer: Restored) -> Result<Vec<u8>, Refusal>
    ensures { MatchResult result (λ text. IsRestoredLine answer text.items) (IsRestoreRefusal answer) }
{
    match answer {
        Restored::Nothing => Ok(line(alloc, b"nothing to restore\n")?),
        Restored::Done { entries, marks } => Ok(restored_line(alloc, entries, marks)?),
        Restored::Stopped { writes } => Err(Refusal::Stopped(writes)),
        Restored::BadChain(fault) => Err(Refusal::BadChain(fault)),
        Restored::DiskFault => Err(Refusal::DiskFault),
        Restored::NoMemory => Err(Refusal::NoMemory),
    }
}

// The line of a restoration with these counts.
fn restored_line(alloc: Global, entries: u64, marks: u64) -> Result<Vec<u8>, NoMemory>
    ensures { IfOk result (λ text. text.items ≡ restored_text entries marks) }
{
    let line = format!(in alloc; "restored entries {entries} marks {marks}\n")?;
    Ok(line.into_bytes())
}

// The line of a checkpoint that was given up; each other answer is a refusal.
fn told_forwarded(alloc: Global, answer: Forwarded) -> Result<Vec<u8>, Refusal>
    ensures { MatchResult result (λ text. IsForwardedLine answer text.items) (IsForwardRefusal answer) }
{
    match answer {
        Forwarded::Nothing => Ok(line(alloc, b"nothing to forward\n")?),
        Forwarded::Done => Ok(line(alloc, b"forwarded\n")?),
        Forwarded::BadHeader(fault) => Err(Refusal::BadHeader(fault)),
        Forwarded::Reserved => Err(Refusal::Reserved),
        Forwarded::DiskFault => Err(Refusal::DiskFault),
        Forwarded::NoMemory => Err(Refusal::NoMemory),
    }
}
