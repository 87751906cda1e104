// A disk over files that are noted: what it asks of the system, what each refusal of the system leaves, and files that
// give a part or become shorter.
use crate::tests::{fill, filling, fillings};
use crate::{Disk, FileDisk};
use bow_noted::{Call, Noted, Notes};
use std::fs::{self, OpenFile, OpenOptions};
use std::rc::Rc;
use std::rt::Files;
use std::test::Fail;

const SIZE: usize = 512;

// A disk over a file of two blocks that are full of ones, and what it asks for.
fn over_two_blocks<H: Files + AllocGlobal + Clone + Drop>(
    rt: &H,
    path: &str,
) -> Result<(FileDisk<Noted<H>>, Rc<Notes>), Fail> {
    let alloc = rt.alloc();
    fs::write(rt, path, &[1u8; 2 * SIZE])?;
    let notes = Rc::new(alloc, Notes::new())?;
    let files = Noted::new(rt.clone()?, notes.clone()?);
    let disk = FileDisk::new(files, String::from_str(alloc, path)?, 512);
    Ok((disk, notes))
}

// What a disk asks for as it tells its sizes, reads, writes and flushes.
fn asked<D: Disk>(disk: &mut D, notes: &Notes) -> Option<[u64; 4]> {
    disk.sizes().ok()?;
    let sizes = notes.take();
    filling(disk, 1)?;
    let read = notes.take();
    if !fill(disk, 1, 2) {
        return None;
    }
    let written = notes.take();
    disk.flush().ok()?;
    Some([sizes, read, written, notes.take()])
}

fn asked_of<H: Files + AllocGlobal + Clone + Drop>(rt: &H) -> Result<Option<[u64; 4]>, Fail> {
    let path = "bow_disk_asked";
    let (mut disk, notes) = over_two_blocks(rt, path)?;
    let asked = asked(&mut disk, &notes);
    fs::remove_file(rt, path)?;
    Ok(asked)
}

#[test]
fn each_call_asks_for_what_it_needs(rt: HostRuntime) -> Result<(), Fail> {
    // The file is opened, and its length asked for. A place is sought and read, and sought and written. The data are
    // synced.
    assert_eq!(rt; asked_of(&rt)?, Some([0x23, 0x45, 0x46, 0x7]));
    Ok(())
}

// Whether a disk writes and reads a block whose bytes move one by one.
fn moves_bytes<H: Files + AllocGlobal + Clone + Drop>(rt: &H) -> Result<bool, Fail> {
    let path = "bow_disk_bytes";
    let (mut disk, notes) = over_two_blocks(rt, path)?;
    notes.move_at_most(1);
    let written = fill(&mut disk, 0, 3) && filling(&mut disk, 0) == Some(3);
    let kept = fs::read(rt, path)?;
    fs::remove_file(rt, path)?;
    Ok(written && kept.len() == 2 * SIZE && fillings(&kept) == [Some(3), Some(1), None, None])
}

#[test]
fn a_file_may_move_byte_after_byte(rt: HostRuntime) -> Result<(), Fail> {
    assert!(rt; moves_bytes(&rt)?);
    Ok(())
}

// Whether a disk fails to tell its sizes after so many calls, and tells them once calls go through.
fn fails_to_tell<D: Disk>(disk: &mut D, notes: &Notes, through: u64) -> bool {
    notes.let_through(through);
    if disk.sizes().is_ok() {
        return false;
    }
    notes.let_through(u64::MAX);
    disk.sizes().is_ok()
}

fn tells_no_sizes<H: Files + AllocGlobal + Clone + Drop>(rt: &H) -> Result<bool, Fail> {
    let path = "bow_disk_refused_sizes";
    for through in 0..2 {
        let (mut disk, notes) = over_two_blocks(rt, path)?;
        if !fails_to_tell(&mut disk, &notes, through) {
            return Ok(false);
        }
    }
    fs::remove_file(rt, path)?;
    Ok(true)
}

#[test]
fn each_refusal_fails_the_question_for_the_sizes(rt: HostRuntime) -> Result<(), Fail> {
    assert!(rt; tells_no_sizes(&rt)?);
    Ok(())
}

// Whether a read and a write of block 1 fail that are refused after so many calls.
fn fails_after<D: Disk>(disk: &mut D, notes: &Notes, through: u64) -> bool {
    notes.let_through(through);
    if filling(disk, 1).is_some() {
        return false;
    }
    notes.let_through(through);
    !fill(disk, 1, 2)
}

// Whether no read and no write goes past a refusal, and nothing of them is kept; then, byte by byte, none that is
// refused in the midst.
fn keeps_to_refusals<D: Disk>(disk: &mut D, notes: &Notes) -> bool {
    if disk.sizes().is_err() || !fails_after(disk, notes, 0) || !fails_after(disk, notes, 1) {
        return false;
    }
    notes.let_through(u64::MAX);
    notes.refuse(Some(Call::Seek));
    if filling(disk, 1).is_some() || fill(disk, 1, 2) {
        return false;
    }
    notes.refuse(None);
    if filling(disk, 1) != Some(1) {
        return false;
    }
    notes.move_at_most(1);
    fails_after(disk, notes, 300)
}

fn is_refused<H: Files + AllocGlobal + Clone + Drop>(rt: &H) -> Result<bool, Fail> {
    let path = "bow_disk_refused";
    let (mut disk, notes) = over_two_blocks(rt, path)?;
    let kept = keeps_to_refusals(&mut disk, &notes);
    fs::remove_file(rt, path)?;
    Ok(kept)
}

#[test]
fn each_refusal_fails_its_read_or_write(rt: HostRuntime) -> Result<(), Fail> {
    assert!(rt; is_refused(&rt)?);
    Ok(())
}

// Whether a flush succeeds once the file is opened and synced, and not before.
fn flushes_at_last<D: Disk>(disk: &mut D, notes: &Notes) -> bool {
    notes.let_through(0);
    if disk.flush().is_ok() {
        return false;
    }
    notes.let_through(1);
    if disk.flush().is_ok() {
        return false;
    }
    notes.let_through(1);
    disk.flush().is_ok()
}

fn is_synced_at_last<H: Files + AllocGlobal + Clone + Drop>(rt: &H) -> Result<bool, Fail> {
    let path = "bow_disk_unsynced";
    let (mut disk, notes) = over_two_blocks(rt, path)?;
    let flushed = flushes_at_last(&mut disk, &notes);
    fs::remove_file(rt, path)?;
    Ok(flushed)
}

#[test]
fn a_refused_sync_fails_the_flush(rt: HostRuntime) -> Result<(), Fail> {
    assert!(rt; is_synced_at_last(&rt)?);
    Ok(())
}

// The bytes that fill both blocks once the file has lost half of the second one.
fn left_when_shorter<H: Files + AllocGlobal + Clone + Drop>(
    rt: &H,
) -> Result<[Option<u8>; 2], Fail> {
    let path = "bow_disk_shorter";
    let (mut disk, _notes) = over_two_blocks(rt, path)?;
    let before = filling(&mut disk, 1);
    fs::write(rt, path, &[1u8; SIZE + SIZE / 2])?;
    let left = [filling(&mut disk, 0), filling(&mut disk, 1)];
    fs::remove_file(rt, path)?;
    if before != Some(1) {
        return Err(Fail::from("the whole file is read"));
    }
    Ok(left)
}

#[test]
fn a_file_that_becomes_shorter_fails_a_read(rt: HostRuntime) -> Result<(), Fail> {
    assert_eq!(rt; left_when_shorter(&rt)?, [Some(1), None]);
    Ok(())
}

// The sizes of a file of 1,048,577 blocks and a rest.
fn sizes_when_long<H: Files + AllocGlobal + Clone + Drop>(rt: &H) -> Result<(u32, u64), Fail> {
    let path = "bow_disk_long";
    let (mut disk, _notes) = over_two_blocks(rt, path)?;
    let file = OpenOptions::new().write(true).open(rt, path)?;
    file.set_len(1_048_577 * 512 + 511)?;
    let sizes = disk.sizes();
    fs::remove_file(rt, path)?;
    match sizes {
        Ok(sizes) => Ok((sizes.block_size, sizes.blocks)),
        Err(_) => Err(Fail::from("the file is there")),
    }
}

#[test]
fn more_blocks_than_a_device_has_are_counted(rt: HostRuntime) -> Result<(), Fail> {
    assert_eq!(rt; sizes_when_long(&rt)?, (512, 1_048_577));
    Ok(())
}
