// The drill.
ghost use Rattle.std.specs.Prelude.{IfOk};
ghost use Rattle.bow_tool.specs.Drills.{IsDrilled};
ghost use Rattle.bow_tool.specs.Outcomes.{IsDrillTold};

use crate::drill_cuts::{cut_thrice, restore_last};
use crate::drill_lines::{count_kept, drill_lines, tells_fault, used_blocks};
use crate::drill_plays::{begin, play};
use crate::outcomes::Outcome;
use crate::refusals::Refusal;
use bow_disk::MemDisk;
use bow_ranges::Ranges;
use bow_restore::Restored;
use bow_script::drill_script;
use bow_session::Session;
use bow_tree::RangeTree;
use bow_units::{Draws, NoMemory};
use std::alloc::Global;

/// A drill that was made: its session, as the cut found it; the turns of its second section; the image before the last
/// restoration, block after block, and the answer of that; and the five lines that tell of it all.
#[derive(Drop)]
pub struct Drilled<R: Ranges> {
    pub session: Session<MemDisk, R>,
    pub turns: u32,
    pub last: Vec<u8>,
    pub restored: Restored,
    pub text: Vec<u8>,
}

/// A failed update that is cut and restored, on a disk in memory of 1,024 blocks of 512 bytes, each the pattern of its
/// number with seed 0. All is drawn from one number: the script, which gives some blocks away, prepares, and then
/// writes, reads, discards and flushes in four lanes beside one another; the turn at which the disk is cut, in the
/// midst of these lanes; and what each cut leaves. Three restorations are cut after 20, 40 and 60 blocks, and the
/// fourth goes on to its end. Then the blocks that were in use are looked at.
///
/// `NoMemory` is answered for want of memory. The contracts of devices and restorations speak of any disk, and so allow
/// a call to fail on this one too, which has no call that is listed to fail and room for all writes: the drill would
/// give up with the same answer. Where none fails, the device is in the checkpoint, the image that is cut holds that,
/// and each block in use is kept.
pub fn drill<R: Ranges>(alloc: Global, number: u64) -> Result<Drilled<R>, NoMemory>
    ensures { IfOk result (λ d. IsDrilled number d.session d.turns d.last.items d.restored d.text.items) }
{
    let mut draws = Draws::new(number);
    let script = drill_script(alloc, &mut draws)?;
    let most = draws.draw(4096);
    let seed = draws.draw(2_147_483_648) as u64;
    let mut session = begin(alloc, script)?;
    let turns = play(&mut session, seed, most);
    let journal = session.journal();
    if tells_fault(journal) {
        return Err(NoMemory);
    }
    let last = cut_thrice(alloc, session.disk(), seed)?;
    let (restored, image) = restore_last(alloc, &last)?;
    let kept = count_kept(&image, used_blocks(number));
    let status = session.status();
    let text = drill_lines(alloc, number, status, turns, journal, restored, kept)?;
    Ok(Drilled {
        session,
        turns,
        last,
        restored,
        text,
    })
}

// Makes a drill over the tree of ranges, and gives its lines.
pub(crate) fn make_drill(alloc: Global, number: u64) -> Outcome
    ensures { IsDrillTold number result }
{
    let drilled: Result<Drilled<RangeTree>, NoMemory> = drill(alloc, number);
    match drilled {
        Ok(drilled) => {
            let Drilled { text, .. } = drilled;
            Outcome::Done(text)
        }
        Err(NoMemory) => Outcome::Refused(Refusal::NoMemory),
    }
}
