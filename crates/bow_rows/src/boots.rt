// The commands on attempts in a row over a keeper in memory, and boots over a disk and a keeper in memory, with each of
// their calls failing.
ghost use Rattle.std.specs.Prelude.{◌≡◌, length, IfOk};

use crate::images::one_log;
use arrayvec::ArrayVec;
use bow_disk::{FailMode, MemDisk};
use bow_units::{Geometry, pattern_of};
use std::alloc::Global;
use std::test::Fail;
use vold_commands::{
    BootFault, Booted, StartFault, abort, boot, committed, mark, needs_checkpoint, needs_rollback,
    start,
};
use vold_meta::{AttemptFault, AttemptText, MemKeeper};

const DEVICE: Geometry = Geometry {
    block_size: 512,
    blocks: 16,
};

// A text of these bytes, of which there are at most 16.
fn text(bytes: &[u8]) -> AttemptText {
    let mut text = ArrayVec::new();
    let _ = text.try_extend_from_slice(bytes);
    text
}

// Whether the keeper keeps this text.
fn keeps(keeper: &MemKeeper, bytes: &[u8]) -> bool {
    match keeper.text() {
        Some(text) => text.as_slice() == bytes,
        None => false,
    }
}

// The image of 16 blocks in which block 1 was written after a checkpoint of the blocks 0 to 7.
fn logged(alloc: Global) -> Result<Vec<u8>, Fail>
    ensures { IfOk result (λ image. length image.items ≡ 8192) }
{
    let image = one_log(alloc)?;
    if image.len() != 8192 {
        return Err(Fail::from("the sizes of an image"));
    }
    Ok(image)
}

// Whether the blocks 0 to 7 hold their own patterns with seed 0.
fn is_back(image: &[u8]) -> bool {
    if image.len() != 8192 {
        return false;
    }
    for block in 0..8usize {
        if pattern_of(&image[block * 512..block * 512 + 512]) != Some((block as u32, 0)) {
            return false;
        }
    }
    true
}

#[test]
fn commands_go_from_step_to_step(rt: HostRuntime) -> Result<(), Fail> {
    let mut keeper = MemKeeper::new(rt.alloc(), None);
    assert_eq!(rt; mark(&mut keeper), Ok(None));
    assert_eq!(rt; abort(&mut keeper, false), Ok(None));
    assert_eq!(rt; needs_rollback(&mut keeper), Ok(false));
    assert_eq!(rt; start(&mut keeper, 3), Ok(4));
    assert_eq!(rt; mark(&mut keeper), Ok(Some(3)));
    assert_eq!(rt; abort(&mut keeper, true), Ok(Some(3)));
    assert_eq!(rt; needs_checkpoint(&mut keeper), Ok(true));
    assert_eq!(rt; abort(&mut keeper, false), Ok(Some(0)));
    assert_eq!(rt; needs_rollback(&mut keeper), Ok(true));
    assert_eq!(rt; needs_checkpoint(&mut keeper), Ok(false));
    assert_eq!(rt; mark(&mut keeper), Ok(Some(0)));
    assert!(rt; committed(&mut keeper).is_ok() && keeper.text().is_none());
    assert_eq!(rt; start(&mut keeper, 2147483646), Ok(2147483647));
    assert_eq!(rt;
        start(&mut keeper, 2147483647),
        Err(StartFault::BadRetry(2147483647))
    );
    assert!(rt; keeps(&keeper, b"2147483647"));
    Ok(())
}

#[test]
fn a_text_that_is_none_is_refused(rt: HostRuntime) -> Result<(), Fail> {
    for bytes in [b"007".as_slice(), b"", b"2147483648", b"1\n", b"-1"] {
        let mut keeper = MemKeeper::new(rt.alloc(), Some(text(bytes)));
        assert_eq!(rt; mark(&mut keeper), Err(AttemptFault::BadAttempts));
        assert_eq!(rt; abort(&mut keeper, false), Err(AttemptFault::BadAttempts));
        assert_eq!(rt;
            needs_checkpoint(&mut keeper),
            Err(AttemptFault::BadAttempts)
        );
        assert_eq!(rt; needs_rollback(&mut keeper), Err(AttemptFault::BadAttempts));
        assert!(rt; keeps(&keeper, bytes));
        assert_eq!(rt; start(&mut keeper, 0), Ok(1), "what was kept is not read");
    }
    Ok(())
}

#[test]
fn a_fault_leaves_the_old_text_or_the_new(rt: HostRuntime) -> Result<(), Fail> {
    for (call, kept, left) in [
        (1, false, b"2".as_slice()),
        (1, true, b"2"),
        (2, false, b"2"),
        (2, true, b"1"),
    ] {
        let mut keeper = MemKeeper::new(rt.alloc(), Some(text(b"2")));
        keeper
            .fail_at(call, kept)
            .expect(&rt, "memory for a listing");
        assert_eq!(rt; mark(&mut keeper), Err(AttemptFault::KeeperFault));
        assert!(rt; keeps(&keeper, left));
    }
    let mut keeper = MemKeeper::new(rt.alloc(), Some(text(b"0")));
    keeper.fail_at(2, false).expect(&rt, "memory for a listing");
    assert_eq!(rt; mark(&mut keeper), Ok(Some(0)), "0 is not written again");
    assert!(rt; committed(&mut keeper).is_err() && keeps(&keeper, b"0"));
    Ok(())
}

#[test]
fn the_last_attempt_rolls_back(rt: HostRuntime) -> Result<(), Fail> {
    let alloc = rt.alloc();
    let mut disk = MemDisk::new(alloc, DEVICE, logged(alloc)?, 100)?;
    let mut keeper = MemKeeper::new(alloc, Some(text(b"1")));
    let first = boot(alloc, &mut disk, DEVICE, &mut keeper);
    assert_eq!(rt; first, Ok(Booted::RolledBack));
    assert!(rt; is_back(&disk.image(alloc)?) && keeper.text().is_none());
    let second = boot(alloc, &mut disk, DEVICE, &mut keeper);
    assert_eq!(rt; second, Ok(Booted::Plain));
    Ok(())
}

#[test]
fn attempts_that_are_left_are_answered(rt: HostRuntime) -> Result<(), Fail> {
    let alloc = rt.alloc();
    let mut disk = MemDisk::new(alloc, DEVICE, logged(alloc)?, 100)?;
    let mut keeper = MemKeeper::new(alloc, Some(text(b"2")));
    let first = boot(alloc, &mut disk, DEVICE, &mut keeper);
    assert_eq!(rt; first, Ok(Booted::Checkpointing(1)));
    assert!(rt; is_back(&disk.image(alloc)?) && keeps(&keeper, b"1"));
    let mut none = MemKeeper::new(alloc, None);
    let mut again = MemDisk::new(alloc, DEVICE, logged(alloc)?, 100)?;
    let unasked = boot(alloc, &mut again, DEVICE, &mut none);
    assert_eq!(rt; unasked, Ok(Booted::RolledBack));
    Ok(())
}

#[test]
fn a_bad_text_leaves_the_disk_as_it_was(rt: HostRuntime) -> Result<(), Fail> {
    let alloc = rt.alloc();
    let mut disk = MemDisk::new(alloc, DEVICE, logged(alloc)?, 100)?;
    let mut keeper = MemKeeper::new(alloc, Some(text(b"007")));
    let answer = boot(alloc, &mut disk, DEVICE, &mut keeper);
    assert_eq!(rt; answer, Err(BootFault::BadAttempts));
    assert!(rt; keeps(&keeper, b"007") && disk.calls() == 0);
    assert_eq!(rt; disk.image(alloc)?, logged(alloc)?);
    Ok(())
}

#[test]
fn a_failing_call_of_the_keeper_is_survived(rt: HostRuntime) -> Result<(), Fail> {
    let alloc = rt.alloc();
    for (call, left) in [(1, b"1".as_slice()), (2, b"1"), (3, b"0")] {
        let mut disk = MemDisk::new(alloc, DEVICE, logged(alloc)?, 100)?;
        let mut keeper = MemKeeper::new(alloc, Some(text(b"1")));
        keeper
            .fail_at(call, false)
            .expect(&rt, "memory for a listing");
        let first = boot(alloc, &mut disk, DEVICE, &mut keeper);
        assert_eq!(rt; first, Err(BootFault::KeeperFault));
        assert!(rt; keeps(&keeper, left));
        let second = boot(alloc, &mut disk, DEVICE, &mut keeper);
        assert_eq!(rt; second, Ok(Booted::RolledBack));
        assert!(rt; is_back(&disk.image(alloc)?) && keeper.text().is_none());
    }
    Ok(())
}

#[test]
fn a_failing_call_of_the_disk_is_survived(rt: HostRuntime) -> Result<(), Fail> {
    let alloc = rt.alloc();
    for call in 1..10u64 {
        let mut disk = MemDisk::new(alloc, DEVICE, logged(alloc)?, 100)?;
        disk.fail_at(call, FailMode::Lost)?;
        let mut keeper = MemKeeper::new(alloc, Some(text(b"1")));
        let first = boot(alloc, &mut disk, DEVICE, &mut keeper);
        assert_eq!(rt; first, Err(BootFault::DiskFault));
        assert!(rt; keeps(&keeper, b"0"));
        let second = boot(alloc, &mut disk, DEVICE, &mut keeper);
        assert_eq!(rt; second, Ok(Booted::RolledBack));
        assert!(rt; is_back(&disk.image(alloc)?));
    }
    Ok(())
}
