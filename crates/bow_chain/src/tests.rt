// A chain over a disk in memory.
ghost use Rattle.std.specs.Prelude.{◌≡◌, length, IfOk};

use crate::{ChainFault, load};
use arrayvec::ArrayVec;
use bow_crc::entry_sum;
use bow_disk::MemDisk;
use bow_log::{Entry, Log, Magic, write_log};
use bow_units::{Geometry, fill_pattern, pattern_of};
use std::alloc::Global;
use std::test::Fail;

const DEVICE: Geometry = Geometry {
    block_size: 512,
    blocks: 16,
};

// Block 0 was backed up to 9, block 1 to 10, and then block 10 to 11, after which 1 and 10 were written.
fn move_backups(image: &mut [u8]) -> Log
    requires { length image.old ≡ 8192 }
{
    fill_pattern(0, 0, &mut image[4608..5120]);
    fill_pattern(1, 5, &mut image[512..1024]);
    fill_pattern(10, 6, &mut image[5120..5632]);
    fill_pattern(1, 0, &mut image[5632..6144]);
    let mut entries = ArrayVec::new();
    for (source, dest, sum) in [
        (0u64, 9u64, entry_sum(0, &image[4608..5120], 512)),
        (1, 10, entry_sum(1, &image[5632..6144], 512)),
        (10, 11, entry_sum(10, &image[5632..6144], 512)),
    ] {
        let size = 512;
        let entry = Entry {
            source,
            dest,
            size,
            sum,
        };
        if entries.try_push(entry).is_ok() {}
    }
    Log {
        magic: Magic::Log,
        block_size: 512,
        sequence: 0,
        sector0: 8,
        entries,
    }
}

fn put(log: &Log, block: &mut [u8]) {
    if block.len() == 512 && log.valid(DEVICE) {
        write_log(log, DEVICE, block);
    }
}

fn fill(image: &mut [u8], flipped: u8)
    requires { length image.old ≡ 8192 }
{
    let log = move_backups(image);
    let (first, _) = image.split_at_mut(512);
    put(&log, first);
    image[5632] ^= flipped;
}

// An image with that log in block 0, and with this bit of the first byte of block 11 flipped.
fn image_with(alloc: Global, flipped: u8) -> Result<Vec<u8>, Fail>
    ensures { IfOk result (λ image. length image.items ≡ 8192) }
{
    let mut image = vec![in alloc; 0u8; 8192]?;
    fill(&mut image, flipped);
    Ok(image)
}

#[test]
fn backups_that_moved_on_are_found(rt: HostRuntime) -> Result<(), Fail> {
    let alloc = rt.alloc();
    let image = image_with(alloc, 0)?;
    let mut disk = MemDisk::new(alloc, DEVICE, image, 0)?;
    let Ok(chain) = load(alloc, &mut disk, DEVICE) else {
        return Err(Fail::from("a sound chain"));
    };
    assert_eq!(rt; chain.geometry(), DEVICE);
    assert_eq!(rt; chain.generations().len(), 1);
    for (block, place) in [(0u64, 9u64), (1, 11), (2, 2), (10, 11)] {
        assert_eq!(rt; chain.place(block), place, "block {block}");
    }
    let mut kept = [0u8; 512];
    assert!(rt; chain.kept(&mut disk, 1, &mut kept).is_ok());
    assert_eq!(rt; pattern_of(&kept), Some((1, 0)));
    Ok(())
}

#[test]
fn a_changed_bit_is_told_and_no_magic_is_no_log(rt: HostRuntime) -> Result<(), Fail> {
    let alloc = rt.alloc();
    let mut disk = MemDisk::new(alloc, DEVICE, image_with(alloc, 1)?, 0)?;
    let told = load(alloc, &mut disk, DEVICE);
    assert!(rt;
        matches!(
            told,
            Err(ChainFault::BadSum {
                depth: 0,
                index: 2,
                ..
            })
        )
    );
    let mut disk = MemDisk::new(alloc, DEVICE, vec![in alloc; 0u8; 8192]?, 0)?;
    let told = load(alloc, &mut disk, DEVICE);
    assert!(rt; matches!(told, Err(ChainFault::NoLog)));
    Ok(())
}
