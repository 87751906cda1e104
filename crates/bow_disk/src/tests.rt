// Worked rows of the disk in memory, and each call of a disk over a real file.
use crate::{Disk, FailMode, FileDisk, MemDisk, Pick};
use bow_units::{Geometry, NoMemory};
use std::alloc::Global;
use std::fs;
use std::test::Fail;

const SIZE: usize = 512;

// Eight blocks that hold zeros, with room for five writes.
fn zeros(alloc: Global) -> Result<MemDisk, NoMemory> {
    let geometry = Geometry {
        block_size: 512,
        blocks: 8,
    };
    let image = vec![in alloc; 0u8; 8 * SIZE]?;
    MemDisk::new(alloc, geometry, image, 5)
}

// Whether a write of a block full of one byte succeeds.
pub(crate) fn fill<D: Disk>(disk: &mut D, at: u64, byte: u8) -> bool {
    let block = [byte; SIZE];
    match disk.sizes() {
        Ok(sizes) if at < sizes.blocks && sizes.block_size == 512 => {
            disk.write(at, &block).is_ok()
        }
        _ => false,
    }
}

// The byte that fills a block, where reading it succeeds.
pub(crate) fn filling<D: Disk>(disk: &mut D, at: u64) -> Option<u8> {
    let mut block = [0u8; SIZE];
    match disk.sizes() {
        Ok(sizes) if at < sizes.blocks && sizes.block_size == 512 => {
            disk.read(at, &mut block).ok()?;
        }
        _ => return None,
    }
    filling_of(&block)
}

fn filling_of(block: &[u8]) -> Option<u8> {
    let first = *block.first()?;
    for &byte in block {
        if byte != first {
            return None;
        }
    }
    Some(first)
}

// The bytes that fill the first four blocks of an image.
pub(crate) fn fillings(image: &[u8]) -> [Option<u8>; 4] {
    let mut found = [None; 4];
    for (at, block) in image.chunks(SIZE).take(4).enumerate() {
        if at < 4 {
            found[at] = filling_of(block);
        }
    }
    found
}

#[test]
fn cuts_leave_what_was_written_since_the_flush(rt: HostRuntime) -> Result<(), Fail> {
    let alloc = rt.alloc();
    let mut disk = zeros(rt.alloc()).expect(&rt, "memory for the disk");
    for (call, mode) in [
        (4, FailMode::Kept),
        (5, FailMode::Kept),
        (5, FailMode::Lost),
        (6, FailMode::Lost),
    ] {
        disk.fail_at(call, mode).expect(&rt, "memory for a listing");
    }
    assert!(rt; fill(&mut disk, 1, 7));
    assert!(rt; disk.flush().is_ok());
    assert!(rt; fill(&mut disk, 1, 8));
    assert!(rt; !fill(&mut disk, 2, 9), "call 4 is listed");
    assert!(rt; !fill(&mut disk, 3, 6), "call 5 is listed, at last as Lost");
    assert!(rt; disk.flush().is_err(), "call 6 is listed");
    assert!(rt; fill(&mut disk, 1, 5));
    for (pick, left) in [
        (Pick::Oldest, [Some(0), Some(7), Some(0), Some(0)]),
        (Pick::Newest, [Some(0), Some(5), Some(9), Some(0)]),
        // From 0 the draws are 167951807 and 218396424: of the three candidates of block 1 the last, of the two of
        // block 2 the first.
        (Pick::Seeded(0), [Some(0), Some(5), Some(0), Some(0)]),
    ] {
        let image = disk.cut(alloc, pick).expect(&rt, "memory for a cut");
        assert_eq!(rt; fillings(&image), left, "{pick:?}");
    }
    let image = disk.image(alloc).expect(&rt, "memory for the image");
    assert_eq!(rt; fillings(&image), [Some(0), Some(5), Some(9), Some(0)]);
    assert_eq!(rt; image.len(), 8 * SIZE);
    Ok(())
}

#[test]
fn nothing_goes_beyond_the_room_or_the_stop(rt: HostRuntime) -> Result<(), Fail> {
    let mut disk = zeros(rt.alloc()).expect(&rt, "memory for the disk");
    for byte in 1..6 {
        assert!(rt; fill(&mut disk, 0, byte));
    }
    assert!(rt; !fill(&mut disk, 0, 6), "there is room for five writes");
    assert_eq!(rt; filling(&mut disk, 0), Some(5));
    disk.stop_after(8);
    assert_eq!(rt; filling(&mut disk, 0), Some(5));
    assert_eq!(rt; filling(&mut disk, 0), None, "call 9 comes after the last");
    assert_eq!(rt; disk.calls(), 9);
    Ok(())
}

#[test]
fn a_disk_of_any_sizes_may_fail_to_tell_them(rt: HostRuntime) -> Result<(), Fail> {
    let alloc = rt.alloc();
    let geometry = Geometry {
        block_size: 3,
        blocks: 2,
    };
    let mut disk = MemDisk::new(alloc, geometry, b"abcdef".to_vec(alloc)?, 1).expect(
        &rt,
        "memory for the disk",
    );
    disk.fail_sizes(2);
    assert!(rt; disk.sizes().is_err());
    assert!(rt; disk.sizes().is_err());
    assert_eq!(rt; disk.sizes(), Ok(geometry));
    assert_eq!(rt; disk.calls(), 0);
    let image = disk.image(alloc).expect(&rt, "memory for the image");
    assert_eq!(rt; image.as_slice(), b"abcdef".as_slice());
    Ok(())
}

#[test]
fn a_disk_over_a_file_keeps_to_whole_blocks(rt: HostRuntime) -> Result<(), Fail> {
    let alloc = rt.alloc();
    let path = "bow_disk_whole_blocks";
    let mut bytes = vec![in alloc; 1u8; 2 * SIZE + 3]?;
    fs::write(&rt, path, &bytes)?;
    let mut disk = FileDisk::new(rt.clone()?, String::from_str(alloc, path)?, 512);
    let sizes = disk.sizes().expect(&rt, "the file is there");
    assert_eq!(rt; (sizes.block_size, sizes.blocks), (512, 2));
    assert_eq!(rt; filling(&mut disk, 1), Some(1));
    assert!(rt; fill(&mut disk, 1, 2));
    assert_eq!(rt; filling(&mut disk, 0), Some(1));
    assert_eq!(rt; filling(&mut disk, 1), Some(2));
    assert!(rt; disk.flush().is_ok());
    bytes[SIZE..2 * SIZE].copy_from_slice(&[2; SIZE]);
    let kept = fs::read(&rt, path)?;
    assert!(rt;
        kept.as_slice() == bytes.as_slice(),
        "the rest is untouched"
    );
    fs::remove_file(&rt, path)?;
    Ok(())
}

#[test]
fn a_missing_file_is_a_fault_of_each_call(rt: HostRuntime) -> Result<(), Fail> {
    let alloc = rt.alloc();
    let mut disk = FileDisk::new(
        rt.clone()?,
        String::from_str(alloc, "bow_disk_missing")?,
        512,
    );
    assert!(rt; disk.flush().is_err());
    assert!(rt; disk.sizes().is_err());
    Ok(())
}
