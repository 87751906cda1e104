// Images of 512-byte blocks that hold logs.
use arrayvec::ArrayVec;
use bow_crc::entry_sum;
use bow_log::{Entry, Log, Magic, write_log};
use bow_units::{Geometry, fill_pattern};
use std::alloc::Global;
use std::test::Fail;

/// So many blocks, up to 1,024, each of which holds its own pattern with seed 0.
pub(crate) fn patterns(alloc: Global, blocks: usize) -> Result<Vec<u8>, Fail> {
    let mut image = Vec::new(alloc);
    for block in 0..blocks.min(1024) {
        let mut bytes = [0u8; 512];
        fill_pattern(block as u64, 0, &mut bytes);
        image.extend_from_slice(&bytes)?;
    }
    Ok(image)
}

/// 16 blocks after `discard 8 8` and `prepare`.
pub(crate) fn prepared(alloc: Global) -> Result<Vec<u8>, Fail> {
    let mut image = patterns(alloc, 16)?;
    put_pattern(&mut image, 8, 0, 0);
    put_pattern(&mut image, 9, 0, 0);
    let mut log = log_of(0, 8);
    add_entry(&mut log, &image, 0, 9);
    put_log(&mut image, 0, &log);
    Ok(image)
}

/// The same after `write 1 1 5`.
pub(crate) fn one_log(alloc: Global) -> Result<Vec<u8>, Fail> {
    let mut image = patterns(alloc, 16)?;
    put_pattern(&mut image, 8, 0, 0);
    put_pattern(&mut image, 9, 0, 0);
    put_pattern(&mut image, 10, 1, 0);
    put_pattern(&mut image, 1, 1, 5);
    let mut log = log_of(0, 8);
    add_entry(&mut log, &image, 0, 9);
    add_entry(&mut log, &image, 1, 10);
    put_log(&mut image, 0, &log);
    Ok(image)
}

/// 64 blocks after `discard 30 34`, `prepare` and a write of each of the blocks 1 to 20 with seed 5: the first log is
/// full and lies in block 51.
pub(crate) fn two_logs(alloc: Global) -> Result<Vec<u8>, Fail> {
    let mut image = patterns(alloc, 64)?;
    put_pattern(&mut image, 30, 0, 0);
    put_pattern(&mut image, 31, 0, 0);
    let mut first = log_of(0, 30);
    add_entry(&mut first, &image, 0, 31);
    for block in 1..20u64 {
        put_pattern(&mut image, 31 + block as usize, block, 0);
        add_entry(&mut first, &image, block, 31 + block);
        put_pattern(&mut image, block as usize, block, 5);
    }
    put_log(&mut image, 51, &first);
    put_pattern(&mut image, 52, 20, 0);
    put_pattern(&mut image, 20, 20, 5);
    let mut second = log_of(1, 30);
    add_entry(&mut second, &image, 0, 51);
    add_entry(&mut second, &image, 20, 52);
    put_log(&mut image, 0, &second);
    Ok(image)
}

/// The first of its bytes, so many.
pub(crate) fn front(alloc: Global, image: &[u8], bytes: usize) -> Result<Vec<u8>, Fail> {
    Ok(image[..bytes.min(image.len())].to_vec(alloc)?)
}

/// Puts this byte there.
pub(crate) fn set(image: &mut [u8], at: usize, byte: u8) {
    if at < image.len() {
        image[at] = byte;
    }
}

/// Turns the lowest bit of this byte over.
pub(crate) fn flip(image: &mut [u8], at: usize) {
    if at < image.len() {
        image[at] ^= 1;
    }
}

/// States the sum in the first entry of the log in block 0.
pub(crate) fn state_first_sum(image: &mut [u8], sum: u32) {
    for (index, byte) in sum.to_le_bytes().iter().enumerate() {
        set(image, 48 + index, *byte);
    }
}

/// The sum of a backup of block `source` that lies in block `at`.
pub(crate) fn sum_at(image: &[u8], source: u64, at: u64) -> u32 {
    let at = at.min(63) as usize;
    if source < 64 && at * 512 + 512 <= image.len() {
        entry_sum(source, &image[at * 512..at * 512 + 512], 512)
    } else {
        0
    }
}

// Puts the pattern of a block with this seed into block `at`.
pub(crate) fn put_pattern(image: &mut [u8], at: usize, block: u64, seed: u32) {
    if at < 64 && block < 1_048_576 && at * 512 + 512 <= image.len() {
        fill_pattern(block, seed, &mut image[at * 512..at * 512 + 512]);
    }
}

// A log without entries.
pub(crate) fn log_of(sequence: u32, sector0: u64) -> Log {
    Log {
        magic: Magic::Log,
        block_size: 512,
        sequence,
        sector0,
        entries: ArrayVec::new(),
    }
}

// Adds the entry of a backup of one block, with the sum of what its dest holds.
fn add_entry(log: &mut Log, image: &[u8], source: u64, dest: u64) {
    add_entry_of(log, image, source, dest, dest);
}

/// Adds the entry of a backup of one block, with the sum of what block `at` holds: that is where what was backed up
/// lies now.
pub(crate) fn add_entry_of(log: &mut Log, image: &[u8], source: u64, dest: u64, at: u64) {
    let entry = Entry {
        source,
        dest,
        size: 512,
        sum: sum_at(image, source, at),
    };
    if log.entries.try_push(entry).is_ok() {}
}

pub(crate) fn put_log(image: &mut [u8], at: usize, log: &Log) {
    let geometry = Geometry {
        block_size: 512,
        blocks: (image.len() / 512) as u64,
    };
    if at < 64 && at * 512 + 512 <= image.len() && log.valid(geometry) {
        write_log(log, geometry, &mut image[at * 512..at * 512 + 512]);
    }
}
