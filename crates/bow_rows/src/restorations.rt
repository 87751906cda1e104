// Restorations of worked images over disks in memory: whole, limited, stopped after each number of calls and cut, with
// each call failing, and of images that hold no sound chain; and giving a checkpoint up.
ghost use Rattle.std.specs.Prelude.{◌≡◌, ◌*◌, length, IfOk};
ghost use Rattle.bow_units.specs.Sizes.{IsValid};
ghost use Rattle.bow_restore.specs.Limits.{IsLimit};

use crate::images::{
    add_entry_of, flip, log_of, one_log, patterns, put_log, put_pattern, set, two_logs,
};
use bow_chain::ChainFault;
use bow_disk::{FailMode, MemDisk, Pick};
use bow_log::LogFault;
use bow_restore::{Forwarded, Restored, check, forward, restore};
use bow_units::{Geometry, has_magic, pattern_of};
use std::alloc::Global;
use std::test::Fail;

// With what a restoration is tried: a limit, a call that fails, a last call that succeeds, and whether a second one
// follows it.
#[derive(Clone, Copy)]
struct Trial {
    limit: Option<u32>,
    failing: Option<(u64, FailMode)>,
    stop: Option<u64>,
    again: bool,
}

const WHOLE: Trial = Trial {
    limit: None,
    failing: None,
    stop: None,
    again: false,
};

// What came of it: the last answer, how many calls were made, what the disk holds, and two of its crash images.
#[derive(Drop)]
struct Tried {
    answer: Restored,
    calls: u64,
    image: Vec<u8>,
    oldest: Vec<u8>,
    newest: Vec<u8>,
}

// The sizes of a device of 512-byte blocks that holds this image.
fn device(image: &[u8]) -> Result<Geometry, Fail>
    ensures valid { IfOk result IsValid }
    ensures whole { IfOk result (λ g. length image.now ≡ g.blocks * g.block_size) }
{
    let geometry = Geometry {
        block_size: 512,
        blocks: (image.len() / 512) as u64,
    };
    if !geometry.valid() || image.len() % 512 != 0 {
        return Err(Fail::from("the sizes of an image"));
    }
    Ok(geometry)
}

// The limit of a trial, where it is not 0.
fn limit_of(trial: Trial) -> Option<u32>
    ensures { IsLimit result }
{
    match trial.limit {
        Some(0) => None,
        limit => limit,
    }
}

// Lists the call that fails, and the last one that succeeds.
fn set_up(disk: &mut MemDisk, trial: Trial) -> Result<(), Fail>
    ensures { disk.new.state.geometry ≡ disk.old.state.geometry }
{
    if let Some((call, mode)) = trial.failing {
        disk.fail_at(call, mode)?;
    }
    if let Some(calls) = trial.stop {
        disk.stop_after(calls);
    }
    Ok(())
}

// Restores this image so, over a disk in memory.
fn restoration(alloc: Global, image: &[u8], trial: Trial) -> Result<Tried, Fail> {
    let geometry = device(image)?;
    let mut disk = MemDisk::new(alloc, geometry, image.to_vec(alloc)?, 200)?;
    set_up(&mut disk, trial)?;
    let mut answer = restore(alloc, &mut disk, geometry, limit_of(trial));
    if trial.again {
        answer = restore(alloc, &mut disk, geometry, limit_of(trial));
    }
    Ok(Tried {
        answer,
        calls: disk.calls(),
        image: disk.image(alloc)?,
        oldest: disk.cut(alloc, Pick::Oldest)?,
        newest: disk.cut(alloc, Pick::Newest)?,
    })
}

// Whether block `at` holds the pattern of this block with this seed.
fn holds(image: &[u8], at: usize, block: u32, seed: u32) -> bool {
    at < 64
        && at * 512 + 512 <= image.len()
        && pattern_of(&image[at * 512..at * 512 + 512]) == Some((block, seed))
}

// Whether each block below this one holds its own pattern with seed 0.
fn is_back(image: &[u8], blocks: usize) -> bool {
    for block in 0..blocks.min(64) {
        if !holds(image, block, block as u32, 0) {
            return false;
        }
    }
    true
}

// Whether a restoration of this image ends well, and has the blocks below this one back, whatever a cut then leaves.
fn ends_well(alloc: Global, image: &[u8], blocks: usize) -> Result<bool, Fail> {
    let ran = restoration(alloc, image, WHOLE)?;
    Ok(
        matches!(ran.answer, Restored::Done { .. } | Restored::Nothing)
            && is_back(&ran.oldest, blocks)
            && is_back(&ran.newest, blocks),
    )
}

// Stopped after so many calls and cut either way, the image may be restored again.
fn survives_a_cut(alloc: Global, image: &[u8], calls: u64, blocks: usize) -> Result<bool, Fail> {
    let trial = Trial {
        stop: Some(calls),
        ..WHOLE
    };
    let ran = restoration(alloc, image, trial)?;
    Ok(
        ran.answer == Restored::DiskFault
            && ends_well(alloc, &ran.oldest, blocks)?
            && ends_well(alloc, &ran.newest, blocks)?,
    )
}

// With this call failing so, a second restoration ends well.
fn survives_a_fault(
    alloc: Global,
    image: &[u8],
    failing: (u64, FailMode),
    blocks: usize,
) -> Result<bool, Fail> {
    let trial = Trial {
        failing: Some(failing),
        ..WHOLE
    };
    let once = restoration(alloc, image, trial)?;
    let twice = restoration(
        alloc,
        image,
        Trial {
            again: true,
            ..trial
        },
    )?;
    Ok(
        once.answer == Restored::DiskFault
            && matches!(twice.answer, Restored::Done { .. } | Restored::Nothing)
            && is_back(&twice.oldest, blocks)
            && is_back(&twice.newest, blocks),
    )
}

// The answer of a whole restoration of an image that survives each cut and each failing call.
fn answer_of(alloc: Global, image: &[u8], blocks: usize) -> Result<Restored, Fail> {
    let whole = restoration(alloc, image, WHOLE)?;
    for call in 0..whole.calls {
        if !survives_a_cut(alloc, image, call, blocks)?
            || !survives_a_fault(alloc, image, (call + 1, FailMode::Lost), blocks)?
            || !survives_a_fault(alloc, image, (call + 1, FailMode::Kept), blocks)?
        {
            return Err(Fail::from("a cut or a failing call"));
        }
    }
    if is_back(&whole.oldest, blocks) {
        Ok(whole.answer)
    } else {
        Err(Fail::from("the blocks in use"))
    }
}

// 16 blocks whose first free one was the last but two: these blocks hold what they say (block, pattern, seed), and the
// log backups of one block each: source, dest, and where what was backed up lies now.
fn image_with(
    alloc: Global,
    current: u64,
    changed: &[(usize, u64, u32)],
    entries: &[(u64, u64, u64)],
) -> Result<Vec<u8>, Fail> {
    let mut image = patterns(alloc, 16)?;
    for &(at, block, seed) in changed {
        put_pattern(&mut image, at, block, seed);
    }
    let mut log = log_of(0, current);
    for &(source, dest, content) in entries {
        add_entry_of(&mut log, &image, source, dest, content);
    }
    put_log(&mut image, 0, &log);
    Ok(image)
}

// Block 1 was written, and then the block to which it had been backed up.
fn backup_written(alloc: Global) -> Result<Vec<u8>, Fail> {
    let changed = [(8, 0, 0), (9, 0, 0), (11, 1, 0), (10, 10, 6), (1, 1, 5)];
    image_with(alloc, 8, &changed, &[(0, 9, 9), (1, 10, 11), (10, 11, 11)])
}

// Block 1 was written and then given back, and took the backup of block 2.
pub(crate) fn block_given_back(alloc: Global) -> Result<Vec<u8>, Fail> {
    let changed = [(13, 0, 0), (14, 0, 0), (15, 1, 0), (1, 2, 0), (2, 2, 5)];
    image_with(alloc, 13, &changed, &[(0, 14, 14), (1, 15, 15), (2, 1, 1)])
}

// So it was with block 1 and then with block 2.
fn two_given_back(alloc: Global) -> Result<Vec<u8>, Fail> {
    let changed = [(13, 0, 0), (14, 0, 0), (15, 1, 0), (2, 2, 0), (1, 1, 6)];
    let entries = [(0, 14, 14), (1, 15, 15), (2, 1, 2), (1, 2, 2)];
    image_with(alloc, 13, &changed, &entries)
}

#[test]
fn each_cut_and_each_fault_is_survived(rt: HostRuntime) -> Result<(), Fail> {
    let alloc = rt.alloc();
    for (image, blocks, entries, marks) in [
        (one_log(alloc)?, 8, 2, 0),
        (backup_written(alloc)?, 8, 3, 0),
        (block_given_back(alloc)?, 13, 3, 1),
        (two_given_back(alloc)?, 13, 4, 2),
    ] {
        let done = Restored::Done { entries, marks };
        assert_eq!(rt; answer_of(alloc, &image, blocks)?, done);
    }
    Ok(())
}

#[test]
fn two_logs_are_restored(rt: HostRuntime) -> Result<(), Fail> {
    let alloc = rt.alloc();
    let done = Restored::Done {
        entries: 22,
        marks: 0,
    };
    assert_eq!(rt; answer_of(alloc, &two_logs(alloc)?, 30)?, done);
    Ok(())
}

#[test]
fn a_limited_restoration_goes_on(rt: HostRuntime) -> Result<(), Fail> {
    let alloc = rt.alloc();
    let mut image = backup_written(alloc)?;
    let one = Trial {
        limit: Some(1),
        ..WHOLE
    };
    for _ in 0..3 {
        let ran = restoration(alloc, &image, one)?;
        assert_eq!(rt; ran.answer, Restored::Stopped { writes: 1 });
        image = ran.image;
    }
    let whole = restoration(alloc, &image, WHOLE)?;
    let done = Restored::Done {
        entries: 3,
        marks: 0,
    };
    assert_eq!(rt; whole.answer, done);
    assert!(rt; is_back(&whole.image, 8) && holds(&whole.image, 10, 1, 0));
    let last = restoration(alloc, &whole.image, one)?;
    assert_eq!(rt; last.answer, Restored::Nothing);
    Ok(())
}

#[test]
fn no_mark_is_made_for_a_copy_that_was_not_begun(rt: HostRuntime) -> Result<(), Fail> {
    let alloc = rt.alloc();
    let image = block_given_back(alloc)?;
    // The second copy wants a mark before it; a mark begins with the second magic and is no copy.
    for (limit, first) in [(1, 0x42), (2, 0x57)] {
        let trial = Trial {
            limit: Some(limit),
            ..WHOLE
        };
        let ran = restoration(alloc, &image, trial)?;
        assert_eq!(rt; ran.answer, Restored::Stopped { writes: limit });
        assert_eq!(rt; ran.image.first(), Some(&first));
        assert!(rt; ends_well(alloc, &ran.oldest, 13)? && ends_well(alloc, &ran.newest, 13)?);
    }
    Ok(())
}

#[test]
fn a_backup_that_was_damaged_is_refused(rt: HostRuntime) -> Result<(), Fail> {
    let alloc = rt.alloc();
    let mut image = one_log(alloc)?;
    flip(&mut image, 5120);
    let ran = restoration(alloc, &image, WHOLE)?;
    let is_sum = matches!(
        ran.answer,
        Restored::BadChain(ChainFault::BadSum {
            depth: 0,
            index: 1,
            ..
        })
    );
    assert!(rt; is_sum);
    assert_eq!(rt; ran.image, image);
    let gave = given_up(alloc, &image)?;
    assert_eq!(rt; gave.0, Forwarded::Done);
    assert!(rt; holds(&gave.1, 0, 0, 0) && holds(&gave.1, 1, 1, 5));
    Ok(())
}

// Whether `restore` refuses an image exactly where `check` does, with the same fault, and then leaves it as it was.
fn goes_with_check(alloc: Global, image: &[u8]) -> Result<bool, Fail> {
    let geometry = device(image)?;
    let mut disk = MemDisk::new(alloc, geometry, image.to_vec(alloc)?, 0)?;
    let checked = check(alloc, &mut disk, geometry);
    let ran = restoration(alloc, image, WHOLE)?;
    Ok(match checked {
        Ok(_) => matches!(ran.answer, Restored::Done { .. }),
        Err(ChainFault::NoLog) => ran.answer == Restored::Nothing && ran.image.as_slice() == image,
        Err(fault) => { ran.answer == Restored::BadChain(fault) && ran.image.as_slice() == image }
    })
}

#[test]
fn what_check_refuses_is_not_restored(rt: HostRuntime) -> Result<(), Fail> {
    let alloc = rt.alloc();
    assert!(rt; goes_with_check(alloc, &patterns(alloc, 16)?)?);
    for at in 0..512 {
        let mut image = one_log(alloc)?;
        flip(&mut image, at);
        assert!(rt; goes_with_check(alloc, &image)?, "byte {at}");
    }
    // The older log lies in block 51.
    for at in 26_112..26_200 {
        let mut image = two_logs(alloc)?;
        flip(&mut image, at);
        assert!(rt; goes_with_check(alloc, &image)?, "byte {at}");
    }
    Ok(())
}

// What giving the checkpoint of this image up answers, and the image after it.
fn given_up(alloc: Global, image: &[u8]) -> Result<(Forwarded, Vec<u8>), Fail> {
    let geometry = device(image)?;
    let mut disk = MemDisk::new(alloc, geometry, image.to_vec(alloc)?, 200)?;
    let answer = forward(alloc, &mut disk, geometry);
    Ok((answer, disk.image(alloc)?))
}

#[test]
fn a_bad_header_is_not_given_up(rt: HostRuntime) -> Result<(), Fail> {
    let alloc = rt.alloc();
    let plain = patterns(alloc, 16)?;
    let gave = given_up(alloc, &plain)?;
    assert!(rt; gave.0 == Forwarded::Nothing && gave.1 == plain);
    for (at, byte, fault) in [
        (4, 1, LogFault::Version),
        (6, 29, LogFault::HeaderSize),
        (8, 1, LogFault::BlockSize),
        (12, 0, LogFault::Count),
        (12, 21, LogFault::Count),
        (20, 16, LogFault::Sector0),
        (20, 0, LogFault::Sector0),
    ] {
        let mut image = one_log(alloc)?;
        set(&mut image, at, byte);
        let gave = given_up(alloc, &image)?;
        assert_eq!(rt; gave.0, Forwarded::BadHeader(fault));
        assert_eq!(rt; gave.1, image);
    }
    let mut image = one_log(alloc)?;
    for (offset, byte) in [0x42, 0x4f, 0x57, 0].into_iter().enumerate() {
        set(&mut image, 4096 + offset, byte);
    }
    let gave = given_up(alloc, &image)?;
    assert!(rt; gave.0 == Forwarded::Reserved && gave.1 == image);
    Ok(())
}

#[test]
fn what_lies_behind_the_header_is_not_asked_for(rt: HostRuntime) -> Result<(), Fail> {
    let alloc = rt.alloc();
    // The tail, and the source of the first entry.
    for at in [511, 28] {
        let mut image = one_log(alloc)?;
        set(&mut image, at, 1);
        let gave = given_up(alloc, &image)?;
        assert_eq!(rt; gave.0, Forwarded::Done);
        assert!(rt; holds(&gave.1, 0, 0, 0) && holds(&gave.1, 1, 1, 5));
    }
    Ok(())
}
