// Tells whether the chain of logs of an image is sound.
ghost use Rattle.std.specs.Prelude.{◌≡◌, ◌≤◌, codes, Some, IfOk, IfErr};
ghost use Rattle.bow_units.specs.Sizes.{IsValid};
ghost use Rattle.bow_disk.specs.Disk.{Content, Goes, Same};
ghost use Rattle.bow_chain.specs.Contents.{contents_of};
ghost use Rattle.bow_disk.specs.Moments.{AddsNoCut};
ghost use Rattle.bow_tool.specs.Check.{TellsChain, OfImage, Finds, sound_text};

use crate::refusals::Refusal;
use bow_chain::{Chain, ChainFault, load};
use bow_disk::Disk;
use bow_report::chain_lines;
use bow_units::{Geometry, NoMemory};
use std::alloc::Global;

// The lines of the chain of logs of the image that the disk holds, and `sound`; or `no log` where block 0 has no magic.
// It makes reads alone. The refusals are `DiskFault` where a call of the disk failed, `BadGeometry` where it states
// sizes that no device has, `BadChain` with the first fault of the image, and `NoMemory`.
pub(crate) fn check<D: Disk>(alloc: Global, disk: &mut D) -> Result<Vec<u8>, Refusal>
    ensures text { IfOk result (λ text. OfImage (D.stated disk.new) (D.content disk.old)
        (λ g image. TellsChain g image text.items)) }
    ensures cause { IfErr result (Finds (D.stated disk.new) (D.content disk.old) (D.faults disk.old)
        (D.faults disk.new)) }
    ensures step { Goes Same (D.content disk.old) (D.content disk.new) }
    ensures cuts { AddsNoCut D.content D.moment D.left_since disk.old disk.new }
{
    let Ok(geometry) = disk.sizes() else {
        return Err(Refusal::DiskFault);
    };
    if !geometry.valid() {
        return Err(Refusal::BadGeometry(geometry));
    }
    loaded_text(alloc, disk, geometry)
}

// The same, of a disk of these sizes.
fn loaded_text<D: Disk>(alloc: Global, disk: &mut D, geometry: Geometry) -> Result<Vec<u8>, Refusal>
    requires valid { IsValid geometry }
    requires sizes { D.stated disk.old ≡ Some geometry }
    ensures text { (c : Content) → D.content disk.old ≡ Some c
        → IfOk result (λ text. TellsChain geometry (contents_of c.now) text.items) }
    ensures cause { IfErr result (Finds (D.stated disk.new) (D.content disk.old) (D.faults disk.old)
        (D.faults disk.new)) }
    ensures sizes { D.stated disk.new ≡ Some geometry }
    ensures step { Goes Same (D.content disk.old) (D.content disk.new) }
    ensures cuts { AddsNoCut D.content D.moment D.left_since disk.old disk.new }
    ensures faults { D.faults disk.old ≤ D.faults disk.new }
{
    match load(alloc, disk, geometry) {
        Ok(chain) => Ok(sound_lines(alloc, &chain)?),
        Err(ChainFault::NoLog) => Ok(no_log(alloc)?),
        Err(ChainFault::DiskFault) => Err(Refusal::DiskFault),
        Err(ChainFault::NoMemory) => Err(Refusal::NoMemory),
        Err(fault) => Err(Refusal::BadChain(fault)),
    }
}

// The lines of a chain, and `sound`.
fn sound_lines(alloc: Global, chain: &Chain) -> Result<Vec<u8>, NoMemory>
    ensures { IfOk result (λ text. text.items ≡ sound_text chain.now.geometry chain.now.generations) }
{
    let mut text = chain_lines(alloc, chain)?;
    text.extend_from_slice(b"sound\n")?;
    Ok(text)
}

fn no_log(alloc: Global) -> Result<Vec<u8>, NoMemory>
    ensures { IfOk result (λ text. text.items ≡ codes "no log\n") }
{
    Ok(b"no log\n".to_vec(alloc)?)
}
