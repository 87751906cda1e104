// What `check` tells of an image, and what the image keeps of the checkpoint.
use crate::images::{
    flip, front, one_log, patterns, prepared, set, state_first_sum, sum_at, two_logs,
};
use crate::phones::{phone_with, run};
use bow_chain::load;
use bow_disk::{FailMode, MemDisk};
use bow_units::{Geometry, pattern_of};
use std::alloc::Global;
use std::fmt::Write;
use std::sync::Wait;
use std::test::Fail;
use std::thread::Threads;

// Whether `check` ends with this status and this text, and leaves the image.
fn tells<H: Threads + Wait + Sync>(
    rt: &H,
    alloc: Global,
    image: &[u8],
    status: u8,
    text: &str,
) -> Result<bool, Fail> {
    let ran = run(rt, alloc, &phone_with(image.to_vec(alloc)?), &["check"], "")?;
    Ok(
        ran.status == status
            && ran.told.as_slice() == text.as_bytes()
            && ran.image.as_slice() == image,
    )
}

// Adds the line of the entry of a backup of one block.
fn push_entry(
    text: &mut String,
    image: &[u8],
    index: u64,
    source: u64,
    dest: u64,
) -> Result<(), Fail> {
    let sum = sum_at(image, source, dest);
    writeln!(
        text,
        "entry {index} source {source} dest {dest} size 512 sum {sum:08x}"
    )?;
    Ok(())
}

// Whether `check` tells the one log of a device that was prepared, before a write or after one.
fn tells_one_log<H: Threads + Wait + Sync>(
    rt: &H,
    alloc: Global,
    image: &[u8],
    entries: u64,
) -> Result<bool, Fail> {
    let mut text = String::new(alloc);
    writeln!(text, "generation 0 magic log sector0 8 entries {entries}")?;
    for index in 0..entries.min(2) {
        push_entry(&mut text, image, index, index, index + 9)?;
    }
    writeln!(text, "sound")?;
    tells(rt, alloc, image, 0, text.as_str())
}

// Whether `check` tells two logs, the first of which is full.
fn tells_two_logs<H: Threads + Wait + Sync>(
    rt: &H,
    alloc: Global,
    image: &[u8],
) -> Result<bool, Fail> {
    let mut text = String::new(alloc);
    writeln!(text, "generation 1 magic log sector0 30 entries 2")?;
    push_entry(&mut text, image, 0, 0, 51)?;
    push_entry(&mut text, image, 1, 20, 52)?;
    writeln!(text, "generation 0 magic log sector0 30 entries 20")?;
    for index in 0..20 {
        push_entry(&mut text, image, index, index, index + 31)?;
    }
    writeln!(text, "sound")?;
    tells(rt, alloc, image, 0, text.as_str())
}

// Whether `check` tells that this entry of the log in block 0 states another sum than is found.
fn tells_sum<H: Threads + Wait + Sync>(
    rt: &H,
    alloc: Global,
    image: &[u8],
    entry: u64,
    found: u32,
    stated: u32,
) -> Result<bool, Fail> {
    let line = format!(in alloc;
        "bad chain: depth 0 entry {entry} sum {found:08x} stated {stated:08x}\n"
    )?;
    tells(rt, alloc, image, 9, line.as_str())
}

// The lowest bit of both sums is turned over: the last one is told.
fn tells_both_sums<H: Threads + Wait + Sync>(rt: &H, alloc: Global) -> Result<bool, Fail> {
    let mut image = one_log(alloc)?;
    let right = sum_at(&image, 1, 10);
    flip(&mut image, 48);
    flip(&mut image, 72);
    tells_sum(rt, alloc, &image, 1, right, right ^ 1)
}

// The lowest bit of the first byte of block 10 is turned over.
fn tells_backup<H: Threads + Wait + Sync>(rt: &H, alloc: Global) -> Result<bool, Fail> {
    let mut image = one_log(alloc)?;
    let stated = sum_at(&image, 1, 10);
    flip(&mut image, 5120);
    let found = sum_at(&image, 1, 10);
    tells_sum(rt, alloc, &image, 1, found, stated)
}

// Of two logs the older one, which lies in block 51, has these bytes at these places.
fn older_changed(alloc: Global, changes: &[(usize, u8)]) -> Result<Vec<u8>, Fail> {
    let mut image = two_logs(alloc)?;
    for (at, byte) in changes {
        set(&mut image, 26_112 + (*at).min(511), *byte);
    }
    Ok(image)
}

// The newer log states the sum of what the older one then is.
fn older_mended(alloc: Global, changes: &[(usize, u8)]) -> Result<Vec<u8>, Fail> {
    let mut image = older_changed(alloc, changes)?;
    let sum = sum_at(&image, 0, 51);
    state_first_sum(&mut image, sum);
    Ok(image)
}

// The older log is changed so, and its sum is not mended.
fn tells_older_changed<H: Threads + Wait + Sync>(
    rt: &H,
    alloc: Global,
    changes: &[(usize, u8)],
) -> Result<bool, Fail> {
    let stated = sum_at(&two_logs(alloc)?, 0, 51);
    let image = older_changed(alloc, changes)?;
    let found = sum_at(&image, 0, 51);
    tells_sum(rt, alloc, &image, 0, found, stated)
}

// Whether what the image keeps of this block is the pattern with seed 0.
fn keeps_block(alloc: Global, image: &[u8], block: u64) -> Result<bool, Fail> {
    let geometry = Geometry {
        block_size: 512,
        blocks: (image.len() / 512) as u64,
    };
    if !geometry.valid()
        || image.len() as u64 != geometry.blocks * 512
        || block >= geometry.blocks
    {
        return Ok(false);
    }
    let mut disk = MemDisk::new(alloc, geometry, image.to_vec(alloc)?, 0)?;
    let Ok(chain) = load(alloc, &mut disk, geometry) else {
        return Ok(false);
    };
    let mut kept = [0u8; 512];
    let read = chain.kept(&mut disk, block, &mut kept);
    Ok(read.is_ok() && pattern_of(&kept) == Some((block as u32, 0)))
}

// So of each block below this one.
pub(crate) fn keeps(alloc: Global, image: &[u8], blocks: u64) -> Result<bool, Fail> {
    for block in 0..blocks {
        if !keeps_block(alloc, image, block)? {
            return Ok(false);
        }
    }
    Ok(true)
}

#[test]
fn sound_images_and_the_want_of_a_log(rt: HostRuntime) -> Result<(), Fail> {
    let alloc = rt.alloc();
    assert!(rt; tells(&rt, alloc, &patterns(alloc, 16)?, 0, "no log\n")?);
    assert!(rt; tells_one_log(&rt, alloc, &prepared(alloc)?, 1)?);
    assert!(rt; tells_one_log(&rt, alloc, &one_log(alloc)?, 2)?);
    assert!(rt; tells_two_logs(&rt, alloc, &two_logs(alloc)?)?);
    Ok(())
}

#[test]
fn a_byte_of_a_log_is_wrong(rt: HostRuntime) -> Result<(), Fail> {
    let alloc = rt.alloc();
    let first = prepared(alloc)?;
    let one = one_log(alloc)?;
    for (image, at, byte, line) in [
        (&first, 12, 0, "bad chain: depth 0 log count\n"),
        (&first, 16, 1, "bad chain: depth 1 log no magic\n"),
        (&one, 4, 1, "bad chain: depth 0 log version\n"),
        (&one, 6, 29, "bad chain: depth 0 log header size\n"),
        (&one, 8, 1, "bad chain: depth 0 log block size\n"),
        (&one, 12, 21, "bad chain: depth 0 log count\n"),
        (&one, 511, 1, "bad chain: depth 0 log tail\n"),
        (&one, 20, 16, "bad chain: depth 0 log sector0\n"),
        (&one, 28, 1, "bad chain: depth 0 log entry 0\n"),
        (&one, 60, 1, "bad chain: depth 0 log entry 1\n"),
        (&one, 16, 1, "bad chain: depth 1 log no magic\n"),
    ] {
        let mut hostile = image.as_slice().to_vec(alloc)?;
        set(&mut hostile, at, byte);
        assert!(rt; tells(&rt, alloc, &hostile, 9, line)?, "byte {at}");
    }
    Ok(())
}

#[test]
fn a_sum_is_wrong_or_a_dest_beyond_the_image(rt: HostRuntime) -> Result<(), Fail> {
    let alloc = rt.alloc();
    assert!(rt; tells_both_sums(&rt, alloc)?);
    assert!(rt; tells_backup(&rt, alloc)?);
    let short = front(alloc, &one_log(alloc)?, 5120)?;
    assert!(rt; tells(&rt, alloc, &short, 9, "bad chain: depth 0 log entry 1\n")?);
    Ok(())
}

#[test]
fn the_older_of_two_logs_is_wrong(rt: HostRuntime) -> Result<(), Fail> {
    let alloc = rt.alloc();
    // The magic of a log under restoration.
    let restoring = [(0, 0x57), (2, 0x42)];
    assert!(rt; tells_older_changed(&rt, alloc, &restoring)?);
    let image = older_mended(alloc, &restoring)?;
    assert!(rt; tells(&rt, alloc, &image, 9, "bad chain: depth 1 log no magic\n")?);
    let image = older_mended(alloc, &[(16, 5)])?;
    assert!(rt;
        tells(
            &rt,
            alloc,
            &image,
            9,
            "bad chain: depth 1 sequence 5 wanted 0\n"
        )?
    );
    Ok(())
}

#[test]
fn the_blocks_in_use_are_kept(rt: HostRuntime) -> Result<(), Fail> {
    let alloc = rt.alloc();
    assert!(rt; keeps(alloc, &prepared(alloc)?, 8)?);
    assert!(rt; keeps(alloc, &one_log(alloc)?, 8)?);
    assert!(rt; keeps(alloc, &two_logs(alloc)?, 30)?);
    Ok(())
}

#[test]
fn the_disk_fails_or_states_seven_blocks(rt: HostRuntime) -> Result<(), Fail> {
    let alloc = rt.alloc();
    let mut failing = phone_with(patterns(alloc, 16)?);
    failing.fails = Some((1, FailMode::Lost));
    let ran = run(&rt, alloc, &failing, &["check"], "")?;
    assert!(rt; ran.status == 6 && ran.told.as_slice() == b"disk fault\n".as_slice());
    let ran = run(&rt, alloc, &phone_with(patterns(alloc, 7)?), &["check"], "")?;
    assert!(rt; ran.status == 13 && ran.told.as_slice() == b"bad geometry 512 7\n".as_slice());
    Ok(())
}
