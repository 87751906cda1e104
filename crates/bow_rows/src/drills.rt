// The drill: its lines by the program, a second time, over the list of runs, and by the steps that it is made of.
ghost use Rattle.std.specs.Prelude.{◌≡◌, IfOk};

use crate::images::patterns;
use crate::phones::{is_back, phone_with, run};
use bow_core::Core;
use bow_crc::crc_table;
use bow_disk::{MemDisk, Pick};
use bow_ranges::RangeList;
use bow_restore::{Restored, restore};
use bow_script::drill_script;
use bow_session::{Actor, Item, Session};
use bow_tool::{Drilled, drill};
use bow_tree::RangeTree;
use bow_units::{Draws, Geometry, NoMemory, Outcome, Phase, Status};
use std::alloc::Global;
use std::sync::Wait;
use std::test::Fail;
use std::thread::Threads;

type Played = Session<MemDisk, RangeTree>;

const SIZES: Geometry = Geometry {
    block_size: 512,
    blocks: 1024,
};

// The CRC-32 of what each drill from 0 to 31 tells, as another program takes it.
const SUMS: [u32; 32] = [
    0x40d0f1ce, 0x98980cce, 0x66cd2734, 0x0c6e6436, 0xd27ba1ea, 0x0d3d77d9, 0xb03867a7, 0x6ad64505,
    0x1b2e5d20, 0xb8b674a2, 0x89c7522c, 0x91ea0a81, 0xf6417360, 0xa339284c, 0xdb661ba7, 0xc1b5983f,
    0xab32a7f4, 0xcb46f7d1, 0xd3137866, 0xf8d8090b, 0x17d808cc, 0x81949bad, 0x579b989a, 0x9921fac2,
    0xf5640d25, 0x69392bb0, 0x89c2c598, 0x47c5a8b1, 0x9ef62367, 0xb2510b1f, 0x3875a52a, 0xf629c660,
];

// What the program tells of this drill.
fn told<H: Threads + Wait + Sync>(rt: &H, alloc: Global, number: u64) -> Result<Vec<u8>, Fail> {
    let word = format!(in alloc; "{number}")?;
    let phone = phone_with(Vec::new(alloc));
    let ran = run(rt, alloc, &phone, &["drill", word.as_str()], "")?;
    Ok(ran.told)
}

// What a drill over the list of runs tells.
fn told_by_runs(alloc: Global, number: u64) -> Result<Vec<u8>, Fail> {
    let drilled: Result<Drilled<RangeList>, NoMemory> = drill(alloc, number);
    match drilled {
        Ok(drilled) => Ok(drilled.text),
        Err(NoMemory) => Err(Fail::from("memory")),
    }
}

// How many blocks this drill keeps in use.
fn used_blocks(number: u64) -> u32 {
    512 + Draws::new(number).draw(256)
}

// Whether a drill keeps all, and tells it again, over either table, as it was told before.
fn is_as_before<H: Threads + Wait + Sync>(
    rt: &H,
    alloc: Global,
    number: u64,
    sum: u32,
) -> Result<bool, Fail> {
    let text = told(rt, alloc, number)?;
    let again = told(rt, alloc, number)?;
    let runs = told_by_runs(alloc, number)?;
    let used = used_blocks(number);
    let kept = format!(in alloc; "\nkept {used} of {used}\n")?;
    if !text.ends_with(kept.as_bytes()) || crc_table(&text) != sum {
        return Ok(false);
    }
    Ok(text.as_slice() == again.as_slice() && text.as_slice() == runs.as_slice())
}

// Of the eight drills from this one on, the first that is not as before.
fn first_other<H: Threads + Wait + Sync>(
    rt: &H,
    alloc: Global,
    from: usize,
) -> Result<Option<usize>, Fail> {
    for (number, sum) in SUMS.iter().enumerate() {
        let is_here = from <= number && number - from < 8;
        if is_here && !is_as_before(rt, alloc, number as u64, *sum)? {
            return Ok(Some(number));
        }
    }
    Ok(None)
}

#[test]
fn the_lines_of_drill_0(rt: HostRuntime) -> Result<(), Fail> {
    let text = told(&rt, rt.alloc(), 0)?;
    let lines =
        b"drill 0\nphase checkpoint free 293 sequence 0 entries 12\nturns 151 answered 26 no space 0\n\
nothing to restore\nkept 703 of 703\n";
    assert!(rt; text.as_slice() == lines.as_slice());
    Ok(())
}

#[test]
fn drills_0_to_7_are_as_before(rt: HostRuntime) -> Result<(), Fail> {
    assert_eq!(rt; first_other(&rt, rt.alloc(), 0)?, None);
    Ok(())
}

#[test]
fn drills_8_to_15_are_as_before(rt: HostRuntime) -> Result<(), Fail> {
    assert_eq!(rt; first_other(&rt, rt.alloc(), 8)?, None);
    Ok(())
}

#[test]
fn drills_16_to_23_are_as_before(rt: HostRuntime) -> Result<(), Fail> {
    assert_eq!(rt; first_other(&rt, rt.alloc(), 16)?, None);
    Ok(())
}

#[test]
fn drills_24_to_31_are_as_before(rt: HostRuntime) -> Result<(), Fail> {
    assert_eq!(rt; first_other(&rt, rt.alloc(), 24)?, None);
    Ok(())
}

// A disk of the drill's sizes that holds this image.
fn disk_of(alloc: Global, image: Vec<u8>) -> Result<MemDisk, Fail>
    ensures { IfOk result (λ disk. disk.state.geometry ≡ record { block_size = 512; blocks = 1024 }) }
{
    if image.len() != 524_288 {
        return Err(Fail::from("an image of 1,024 blocks"));
    }
    Ok(MemDisk::new(alloc, SIZES, image, 8192)?)
}

// The session of a drill before its first step.
fn loaded(alloc: Global, draws: &mut Draws) -> Result<Played, Fail> {
    let script = drill_script(alloc, draws)?;
    let disk = disk_of(alloc, patterns(alloc, 1024)?)?;
    let Ok(core) = Core::open(alloc, disk, 16) else {
        return Err(Fail::from("a device"));
    };
    match Session::load(alloc, core, script) {
        Ok(session) => Ok(session),
        Err((_, _)) => Err(Fail::from("memory")),
    }
}

// One step of the first ready actor from a drawn one on, of the four lanes, the worker and the commands: `false` where
// none is ready.
fn step(session: &mut Played, draws: &mut Draws) -> bool {
    if session.over() {
        return false;
    }
    let drawn = draws.draw(6);
    for more in 0..6u32 {
        let actor = match (drawn + more) % 6 {
            4 => Actor::Worker,
            5 => Actor::Command,
            lane => Actor::Lane(lane),
        };
        if session.step(actor) {
            return true;
        }
    }
    false
}

// Makes the turns of the first section, and then so many more at most. It answers how many more were made.
fn turns_of(session: &mut Played, seed: u64, most: u32) -> u32 {
    let mut draws = Draws::new(seed);
    let mut turns = 0u32;
    for _ in 0..4200u32 {
        let is_opening = session.answered(0) < 2;
        if (is_opening || turns < most) && step(session, &mut draws) && !is_opening {
            turns = turns.saturating_add(1);
        }
    }
    turns
}

// How many answers of the second section there are, and how many of these found no space.
fn answers_of(journal: &[Item]) -> (u32, u32) {
    let mut answers = 0u32;
    let mut full = 0u32;
    for item in journal {
        if let Item::Answered { outcome, .. } = item {
            answers = answers.saturating_add(1);
            if let Outcome::NoSpace { .. } = outcome {
                full = full.saturating_add(1);
            }
        }
    }
    (answers.saturating_sub(2), full)
}

// The first three lines of a drill, the image that the first cut leaves, and the number from which that was drawn.
fn played(alloc: Global, number: u64) -> Result<(String, Vec<u8>, u32), Fail> {
    let mut draws = Draws::new(number);
    let mut session = loaded(alloc, &mut draws)?;
    let most = draws.draw(4096);
    let seed = draws.draw(2_147_483_648);
    let turns = turns_of(&mut session, seed as u64, most);
    let (answers, full) = answers_of(session.journal());
    let Status {
        phase,
        free,
        sequence,
        entries,
    } = session.status();
    let cut = session.disk().cut(alloc, Pick::Seeded(seed as u64));
    drop(session);
    if phase != Phase::Checkpoint {
        return Err(Fail::from("the phase"));
    }
    let lines = format!(in alloc;
        "drill {number}\nphase checkpoint free {free} sequence {sequence} entries {entries}\n\
turns {turns} answered {answers} no space {full}\n"
    )?;
    Ok((lines, cut?, seed))
}

// The last two lines, of an image that a cut left: three restorations that are cut, and one that is not.
fn restored(alloc: Global, mut image: Vec<u8>, seed: u32, used: u32) -> Result<String, Fail> {
    for round in 1..4u32 {
        let mut disk = disk_of(alloc, image)?;
        let _ = restore(alloc, &mut disk, SIZES, Some(20 * round));
        image = disk.cut(alloc, Pick::Seeded(seed as u64 + round as u64))?;
    }
    let mut disk = disk_of(alloc, image)?;
    let line = match restore(alloc, &mut disk, SIZES, None) {
        Restored::Done { entries, marks } => {
            format!(in alloc; "restored entries {entries} marks {marks}\n")?
        }
        _ => format!(in alloc; "nothing to restore\n")?,
    };
    if !is_back(&disk.image(alloc)?, used as usize) {
        return Err(Fail::from("the blocks in use"));
    }
    Ok(format!(in alloc; "{line}kept {used} of {used}\n")?)
}

#[test]
fn a_drill_is_what_its_steps_come_to(rt: HostRuntime) -> Result<(), Fail> {
    for number in 0..8u64 {
        let (front, image, seed) = played(rt.alloc(), number)?;
        let back = restored(rt.alloc(), image, seed, used_blocks(number))?;
        let text = told(&rt, rt.alloc(), number)?;
        assert!(rt; text.starts_with(front.as_bytes()) && text.ends_with(back.as_bytes()));
        assert_eq!(rt; text.len(), front.len() + back.len());
    }
    Ok(())
}
