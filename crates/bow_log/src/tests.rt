use crate::{Entry, Log, LogFault, Magic, capacity, read_log, write_log};
use arrayvec::ArrayVec;
use bow_units::Geometry;

// The sum of block 0 where its eight-byte groups count from 0, by Python's zlib.
const SUM: u32 = 0x9480_DA6B;

fn backup(source: u64, dest: u64, size: u32) -> Entry {
    Entry {
        source,
        dest,
        size,
        sum: SUM,
    }
}

fn empty() -> Log {
    Log {
        magic: Magic::Restoring,
        block_size: 0,
        sequence: 0,
        sector0: 0,
        entries: ArrayVec::new(),
    }
}

#[test]
fn the_first_log_byte_by_byte(rt: HostRuntime) {
    let geometry = Geometry {
        block_size: 512,
        blocks: 16,
    };
    let mut want = [0; 512];
    for (index, byte) in [
        0x42, 0x4f, 0x57, 0, 0, 1, 0x1c, 0, 0, 2, 0, 0, 1, 0, 0, 0, 0, 0, 0, 0, 8, 0, 0, 0, 0, 0,
        0, 0, 0, 0, 0, 0, 0, 0, 0, 0, 9, 0, 0, 0, 0, 0, 0, 0, 0, 2, 0, 0, 0x6b, 0xda, 0x80, 0x94,
    ]
    .iter()
    .enumerate()
    {
        want[index] = *byte;
    }
    let entry = Entry {
        source: 0,
        dest: 9,
        size: 512,
        sum: SUM,
    };
    let log = Log::first(geometry, 8, entry);
    assert!(rt; log.valid(geometry));
    let mut block = [0xff; 512];
    write_log(&log, geometry, &mut block);
    assert!(rt; block == want);
    let mut read = empty();
    assert_eq!(rt; read_log(&block, geometry, &mut read), Ok(()));
    assert_eq!(rt; read.magic, Magic::Log);
    assert_eq!(rt; (read.block_size, read.sequence, read.sector0), (512, 0, 8));
    assert_eq!(rt; read.entries.as_slice(), [entry].as_slice());
    assert!(rt; read.valid(geometry));
}

// A log of as many entries as fit, then one byte of it changed.
#[test]
fn each_fault_at_each_block_size(rt: HostRuntime) {
    for (block_size, most) in [(512u32, 20u32), (1024, 41), (2048, 84), (4096, 169)] {
        assert_eq!(rt; capacity(block_size), most);
        let geometry = Geometry {
            block_size,
            blocks: 1024,
        };
        let sectors = (block_size / 512) as u64;
        let mut log = empty();
        log.block_size = block_size;
        log.sector0 = 1023 * sectors;
        for index in 0..most as u64 {
            let entry = backup(index * sectors, (512 + index) * sectors, block_size);
            assert!(rt; log.entries.try_push(entry).is_ok());
        }
        let mut bytes = [0; 4096];
        let block = &mut bytes[..block_size as usize];
        assert!(rt; log.valid(geometry));
        write_log(&log, geometry, block);
        for (at, byte, fault) in [
            (0, 0x58, LogFault::NoMagic),
            (4, 1, LogFault::Version),
            (6, 29, LogFault::HeaderSize),
            (8, 1, LogFault::BlockSize),
            (12, 0, LogFault::Count),
            (12, most as u8 + 1, LogFault::Count),
            (block_size as usize - 1, 1, LogFault::Tail),
            (12, most as u8 - 1, LogFault::Tail),
            (22, 1, LogFault::Sector0),
            (28 + 24 * 3 + 3, 1, LogFault::Entry(3)),
        ] {
            assert!(rt; at < block.len());
            let before = block[at];
            block[at] = byte;
            let mut read = empty();
            assert_eq!(rt;
                read_log(block, geometry, &mut read),
                Err(fault),
                "byte {at} of {block_size}"
            );
            assert!(rt; read.entries.is_empty());
            block[at] = before;
        }
        let mut read = empty();
        assert_eq!(rt; read_log(block, geometry, &mut read), Ok(()));
        assert_eq!(rt; read.entries.len(), most as usize);
    }
}
