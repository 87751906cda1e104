// Giving the checkpoint up.
ghost use Rattle.std.specs.Prelude.{◌≡◌, ◌≤◌, ◌⊎◌, ℕ, List, Some, IfOk, length};
ghost use Rattle.bow_units.specs.Sizes.{IsValid};
ghost use Rattle.bow_units.specs.Causes.{HasCause};
ghost use Rattle.bow_disk.specs.Disk.{Content, IsCrash};
ghost use Rattle.bow_chain.specs.Contents.{contents_of};
ghost use Rattle.bow_disk.specs.Moments.{AddsCuts, Tells};
ghost use Rattle.bow_restore.specs.Forwarding.{HasReason, TellsForward, LeftForward, LeftAtForward, IsForwardCut, IsHeaderRefusal};
ghost use Rattle.bow_restore.specs.declared.answers.Forwarded.TheVariants.{NoMemory};

use crate::answers::Forwarded;
use bow_disk::Disk;
use bow_log::{LogFault, read_current};
use bow_units::{Failed, Geometry, has_magic};
use std::alloc::Global;

// What is answered where the header has this fault.
fn refused(fault: LogFault) -> Forwarded
    ensures { IsHeaderRefusal fault result }
{
    match fault {
        LogFault::NoMagic => Forwarded::Nothing,
        fault => Forwarded::BadHeader(fault),
    }
}

// Gives the checkpoint up, with one block of memory.
fn give_up<D: Disk>(disk: &mut D, geometry: Geometry, block: &mut [u8]) -> Result<Forwarded, Failed>
    requires valid { IsValid geometry }
    requires sizes { D.stated disk.old ≡ Some geometry }
    requires one { length block.old ≡ geometry.block_size }
    ensures reason { IfOk result (λ answer. HasReason (D.faults disk.old) (D.faults disk.new) answer
        × (answer ≡ NoMemory → ⊥)) }
    ensures tells { (c : Content) → D.content disk.old ≡ Some c
        → IfOk result (TellsForward geometry (contents_of c.now)) }
    ensures left { (c : Content) → D.content disk.old ≡ Some c
        → IfOk result (λ answer. Tells D.content (LeftForward geometry answer c) disk.new) }
    ensures cuts { (c : Content) → D.content disk.old ≡ Some c
        → AddsCuts D.moment D.left_since (λ image. IsCrash c.candidates image
        ⊎ IsForwardCut geometry c.now image) disk.old disk.new }
    ensures sizes { D.stated disk.new ≡ Some geometry }
    ensures cause { HasCause (D.faults disk.old) (D.faults disk.new) result }
{
    disk.flush()?;
    disk.read(0, block)?;
    let at = match read_current(block, geometry) {
        Ok(at) => at,
        Err(fault) => return Ok(refused(fault)),
    };
    disk.read(at, block)?;
    if has_magic(block) {
        return Ok(Forwarded::Reserved);
    }
    disk.write(0, block)?;
    disk.flush()?;
    Ok(Forwarded::Done)
}

/// Gives the checkpoint up: block 0 becomes what it was since, where the log says that its current content lies, and
/// the log is gone. Whatever tail or entries the log has, they are not looked at.
///
/// `Nothing` comes exactly where block 0 has no magic, `BadHeader` exactly where it has one and its header has that
/// first fault, `Reserved` exactly where the header is good and the block that it names begins with a magic; then
/// nothing is changed. After `Done` all else is as it was, and all is flushed. `DiskFault` comes only where the
/// disk's count of faults rose in this call, and `NoMemory` before any call on the disk.
///
/// After a restoration that wrote something the result is a mixture of old and current blocks.
///
/// Condition: the geometry is valid and the disk's.
pub fn forward<D: Disk>(alloc: Global, disk: &mut D, geometry: Geometry) -> Forwarded
    requires valid { IsValid geometry }
    requires sizes { D.stated disk.old ≡ Some geometry }
    // Over any disk: causes.
    ensures reason { HasReason (D.faults disk.old) (D.faults disk.new) result }
    ensures memory { result ≡ NoMemory → disk.new ≡ disk.old }
    // Over a disk that tells its content: which answer, by the image at entry, and what it leaves.
    ensures tells { (c : Content) → D.content disk.old ≡ Some c → TellsForward geometry (contents_of c.now) result }
    ensures left { (c : Content) → D.content disk.old ≡ Some c → LeftAtForward geometry D.content disk.new c result }
    // Whatever a cut leaves might have been left before, or is what stood at entry with block 0 as it was or as it
    // was named.
    ensures cuts { (c : Content) → D.content disk.old ≡ Some c
        → AddsCuts D.moment D.left_since (IsForwardCut geometry c.now) disk.old disk.new }
    ensures sizes { D.stated disk.new ≡ Some geometry }
    ensures faults { D.faults disk.old ≤ D.faults disk.new }
{
    let Ok(mut block) = vec![in alloc; 0u8; geometry.block_size as usize] else {
        return Forwarded::NoMemory;
    };
    match give_up(disk, geometry, &mut block) {
        Ok(answer) => answer,
        Err(Failed) => Forwarded::DiskFault,
    }
}
