// The device over a disk in memory, request by request: its answers, its calls, what it shows, and its log; and what
// the image, and each cut of it, keeps of the checkpoint.
ghost use Rattle.std.specs.Prelude.{IsTrue};
ghost use Rattle.bow_machine.specs.MemoryIsSound.{IsAdmissible};

use crate::chains::keeps;
use crate::images::patterns;
use bow_core::{Core, Step, Ticket, Turn};
use bow_disk::{FailMode, MemDisk, Pick};
use bow_tree::RangeTree;
use bow_units::{Extent, Geometry, Op, Outcome, Payload, Phase, fill_pattern, pattern_of};
use std::alloc::Global;
use std::test::Fail;

type Device = Core<MemDisk, RangeTree>;

// What is asked: a write is of the patterns of its blocks with a seed, and a read of one block.
#[derive(Clone, Copy)]
enum Ask {
    Write(u64, u64, u32),
    Read(u64),
    Discard(u64, u64),
    Prepare,
    Commit,
}

// What is asked of a device, with what each is answered; and then how many calls it has made, its phase, free blocks,
// sequence and entries, and the entries of its log in blocks: source, dest and count.
#[derive(Clone, Copy)]
struct Row<'a> {
    asked: &'a [(Ask, Outcome)],
    calls: u64,
    shown: (Phase, u64, u32, u32),
    entries: &'a [(u64, u64, u32)],
}

const DONE: Outcome = Outcome::Done;

const FULL: Outcome = Outcome::NoSpace { done: 0 };

const FAULT: Outcome = Outcome::DiskFault { done: 0 };

// The checkpoint begins with the blocks from 8 on free.
const EIGHT: (Ask, Outcome) = (Ask::Discard(8, 8), DONE);

const THREE: (Ask, Outcome) = (Ask::Discard(13, 3), DONE);

const PREPARE: (Ask, Outcome) = (Ask::Prepare, DONE);

// A disk whose blocks, 16 or 64, each hold their own pattern with seed 0.
fn disk_of(alloc: Global, blocks: usize) -> Result<MemDisk, Fail> {
    let image = patterns(alloc, blocks)?;
    let geometry = Geometry {
        block_size: 512,
        blocks: (image.len() / 512) as u64,
    };
    if image.len() % 512 != 0 {
        return Err(Fail::from("an image of whole blocks"));
    }
    Ok(MemDisk::new(alloc, geometry, image, 400)?)
}

fn opened(alloc: Global, disk: MemDisk) -> Result<Device, Fail> {
    match Core::open(alloc, disk, 16) {
        Ok(core) => Ok(core),
        Err((_, _)) => Err(Fail::from("an opening")),
    }
}

// The patterns of so many blocks, 16 at most.
fn payload(alloc: Global, first: u64, count: u64, seed: u32) -> Result<Payload, Fail> {
    let mut bytes = Vec::new(alloc);
    for index in 0..count.min(16) {
        let mut block = [0u8; 512];
        fill_pattern(first.min(1_000_000) + index, seed, &mut block);
        bytes.extend_from_slice(&block)?;
    }
    Ok(Payload::new(bytes))
}

fn op_of(alloc: Global, ask: Ask) -> Result<Op, Fail> {
    Ok(match ask {
        Ask::Write(first, count, seed) => {
            Op::Write(Extent { first, count }, payload(alloc, first, count, seed)?)
        }
        Ask::Read(first) => Op::Read(Extent { first, count: 1 }, payload(alloc, 0, 1, 0)?),
        Ask::Discard(first, count) => Op::Discard(Extent { first, count }),
        Ask::Prepare => Op::Prepare,
        Ask::Commit => Op::Commit,
    })
}

// Whether the request may be taken in: a read or a write has 1 to 16 blocks, and a buffer of that many.
fn is_admissible(geometry: Geometry, op: &Op) -> bool
    ensures { IsTrue result → IsAdmissible geometry op.now }
{
    match op {
        Op::Read(extent, payload) | Op::Write(extent, payload) => {
            extent.count >= 1
                && extent.count <= 16
                && payload.as_slice().len() as u64 == extent.count * geometry.block_size as u64
        }
        Op::Discard(_) | Op::Flush | Op::Prepare | Op::Commit => true,
    }
}

fn admitted(core: &mut Device, op: Op) -> Result<Ticket, Fail> {
    if core.spare() == 0 || core.admitted() == u64::MAX || !is_admissible(core.geometry(), &op) {
        return Err(Fail::from("an admission"));
    }
    Ok(core.admit(op))
}

// A step of the first of these turns that is ready: the request's, the worker's, the commands'.
fn step(core: &mut Device, ticket: Ticket) -> Step {
    for turn in [Turn::Map(ticket), Turn::Worker, Turn::Command] {
        if core.ready(turn) {
            return core.step(turn);
        }
    }
    Step::Idle
}

// The request from its admission to its answer.
fn served(core: &mut Device, op: Op) -> Result<(Outcome, Op), Fail> {
    let ticket = admitted(core, op)?;
    for _ in 0..200 {
        if let Step::Answered { op, outcome, .. } = step(core, ticket) {
            return Ok((outcome, op));
        }
    }
    Err(Fail::from("an answer"))
}

// Whether each is answered so.
fn answers(alloc: Global, core: &mut Device, asked: &[(Ask, Outcome)]) -> Result<bool, Fail> {
    for (ask, outcome) in asked {
        let (answer, _) = served(core, op_of(alloc, *ask)?)?;
        if answer != *outcome {
            return Ok(false);
        }
    }
    Ok(true)
}

// Whether the log in memory has these entries, or there is none.
fn has_entries(core: &Device, wanted: &[(u64, u64, u32)]) -> bool {
    let Some(log) = core.log() else {
        return wanted.is_empty();
    };
    if log.entries.len() != wanted.len() {
        return false;
    }
    for (entry, want) in log.entries.as_slice().iter().zip(wanted) {
        if (entry.source, entry.dest, entry.size / 512) != *want {
            return false;
        }
    }
    true
}

// Whether all comes as the row says over this disk, which is handed back.
fn comes(alloc: Global, disk: MemDisk, row: Row<'_>) -> Result<(bool, MemDisk), Fail> {
    let mut core = opened(alloc, disk)?;
    let answered = answers(alloc, &mut core, row.asked)?;
    let shown = core.status();
    let same = answered
        && core.calls() == row.calls
        && (shown.phase, shown.free, shown.sequence, shown.entries) == row.shown
        && has_entries(&core, row.entries);
    Ok((same, core.close()))
}

// The same over 16 blocks with a call that fails so, if any; and the image keeps so many blocks of the checkpoint.
fn holds(
    alloc: Global,
    row: Row<'_>,
    failing: Option<(u64, FailMode)>,
    used: u64,
) -> Result<bool, Fail> {
    let mut disk = disk_of(alloc, 16)?;
    if let Some((call, mode)) = failing {
        disk.fail_at(call, mode)?;
    }
    let (same, disk) = comes(alloc, disk, row)?;
    Ok(same && keeps(alloc, &disk.image(alloc)?, used)?)
}

// The pattern of the block that a read gives.
fn pattern_read(alloc: Global, core: &mut Device, block: u64) -> Result<Option<(u32, u32)>, Fail> {
    let (_, op) = served(core, op_of(alloc, Ask::Read(block))?)?;
    Ok(match &op {
        Op::Read(_, payload) if payload.as_slice().len() == 512 => pattern_of(payload.as_slice()),
        _ => None,
    })
}

// A checkpoint with the blocks from 8 on free.
fn prepared(alloc: Global, disk: MemDisk) -> Result<Device, Fail> {
    let mut core = opened(alloc, disk)?;
    let _ = answers(alloc, &mut core, &[EIGHT, PREPARE])?;
    Ok(core)
}

#[test]
fn each_request_is_answered_so(rt: HostRuntime) -> Result<(), Fail> {
    let alloc = rt.alloc();
    for (row, used) in [
        // No two blocks are free; nothing to commit.
        (
            Row {
                asked: &[
                    (Ask::Prepare, FULL),
                    (Ask::Commit, Outcome::WrongPhase(Phase::Trim)),
                ],
                calls: 2,
                shown: (Phase::Trim, 0, 0, 0),
                entries: &[],
            },
            0,
        ),
        (
            Row {
                asked: &[
                    (Ask::Discard(15, 1), DONE),
                    (Ask::Prepare, FULL),
                    (Ask::Write(1, 1, 5), DONE),
                ],
                calls: 3,
                shown: (Phase::Trim, 1, 0, 0),
                entries: &[],
            },
            0,
        ),
        (
            Row {
                asked: &[EIGHT, PREPARE],
                calls: 8,
                shown: (Phase::Checkpoint, 6, 0, 1),
                entries: &[(0, 9, 1)],
            },
            8,
        ),
        // A write of one block, then of a block that holds a backup.
        (
            Row {
                asked: &[
                    EIGHT,
                    PREPARE,
                    (Ask::Write(1, 1, 5), DONE),
                    (Ask::Write(10, 1, 6), DONE),
                ],
                calls: 20,
                shown: (Phase::Checkpoint, 4, 0, 3),
                entries: &[(0, 9, 1), (1, 10, 1), (10, 11, 1)],
            },
            8,
        ),
        // One free block is left, and then none.
        (
            Row {
                asked: &[
                    THREE,
                    PREPARE,
                    (Ask::Write(1, 1, 5), DONE),
                    (Ask::Write(2, 1, 5), FULL),
                    (Ask::Write(1, 1, 6), DONE),
                    (Ask::Write(13, 1, 5), FULL),
                    (Ask::Write(15, 1, 5), FULL),
                ],
                calls: 15,
                shown: (Phase::Checkpoint, 0, 0, 2),
                entries: &[(0, 14, 1), (1, 15, 1)],
            },
            13,
        ),
        // What is discarded serves again.
        (
            Row {
                asked: &[
                    THREE,
                    PREPARE,
                    (Ask::Write(1, 1, 5), DONE),
                    (Ask::Discard(1, 1), DONE),
                    (Ask::Write(2, 1, 5), DONE),
                    (Ask::Discard(2, 1), DONE),
                    (Ask::Write(1, 1, 6), DONE),
                ],
                calls: 26,
                shown: (Phase::Checkpoint, 0, 0, 4),
                entries: &[(0, 14, 1), (1, 15, 1), (2, 1, 1), (1, 2, 1)],
            },
            13,
        ),
        // A batch of four blocks; and two batches, as the free blocks lie.
        (
            Row {
                asked: &[EIGHT, PREPARE, (Ask::Write(1, 4, 5), DONE)],
                calls: 23,
                shown: (Phase::Checkpoint, 2, 0, 2),
                entries: &[(0, 9, 1), (1, 10, 4)],
            },
            8,
        ),
        (
            Row {
                asked: &[
                    (Ask::Discard(8, 3), DONE),
                    (Ask::Discard(12, 2), DONE),
                    PREPARE,
                    (Ask::Write(1, 3, 5), DONE),
                ],
                calls: 23,
                shown: (Phase::Checkpoint, 0, 0, 3),
                entries: &[(0, 9, 1), (1, 12, 2), (3, 10, 1)],
            },
            8,
        ),
        (
            Row {
                asked: &[
                    EIGHT,
                    PREPARE,
                    (Ask::Write(1, 1, 5), DONE),
                    (Ask::Prepare, Outcome::WrongPhase(Phase::Checkpoint)),
                    (Ask::Commit, DONE),
                ],
                calls: 18,
                shown: (Phase::Committed, 0, 0, 0),
                entries: &[],
            },
            0,
        ),
    ] {
        assert!(rt; holds(alloc, row, None, used)?, "{} calls", row.calls);
    }
    Ok(())
}

#[test]
fn a_call_fails(rt: HostRuntime) -> Result<(), Fail> {
    let alloc = rt.alloc();
    let twice = Row {
        asked: &[
            EIGHT,
            (Ask::Prepare, FAULT),
            (Ask::Write(1, 1, 5), Outcome::Unsettled(Phase::Arming)),
            PREPARE,
            (Ask::Write(1, 1, 5), DONE),
        ],
        calls: 15,
        shown: (Phase::Checkpoint, 5, 0, 2),
        entries: &[(0, 9, 1), (1, 10, 1)],
    };
    assert!(rt; holds(alloc, twice, Some((7, FailMode::Lost)), 8)?);
    let rewritten = Row {
        asked: &[
            EIGHT,
            PREPARE,
            (Ask::Write(1, 1, 5), FAULT),
            (Ask::Write(1, 1, 8), DONE),
        ],
        calls: 15,
        shown: (Phase::Checkpoint, 5, 0, 2),
        entries: &[(0, 9, 1), (1, 10, 1)],
    };
    assert!(rt; holds(alloc, rewritten, Some((12, FailMode::Kept)), 8)?);
    let decided = Row {
        asked: &[
            EIGHT,
            PREPARE,
            (Ask::Write(1, 1, 5), DONE),
            (Ask::Commit, FAULT),
            (Ask::Write(2, 1, 5), Outcome::Unsettled(Phase::Deciding)),
            (Ask::Commit, DONE),
            (Ask::Write(2, 1, 5), DONE),
        ],
        calls: 22,
        shown: (Phase::Committed, 0, 0, 0),
        entries: &[],
    };
    assert!(rt; holds(alloc, decided, Some((17, FailMode::Lost)), 0)?);
    Ok(())
}

#[test]
fn a_batch_fails_at_each_call(rt: HostRuntime) -> Result<(), Fail> {
    let alloc = rt.alloc();
    for call in 9..18u64 {
        let free = if call < 16 { 6 } else { 3 };
        let mut disk = disk_of(alloc, 16)?;
        disk.fail_at(call, FailMode::Lost)?;
        let mut core = prepared(alloc, disk)?;
        assert!(rt;
            answers(alloc, &mut core, &[(Ask::Write(1, 3, 5), FAULT)])?,
            "call {call}"
        );
        assert_eq!(rt; core.status().free, free, "call {call}");
        assert!(rt;
            answers(alloc, &mut core, &[(Ask::Write(1, 3, 6), DONE)])?,
            "call {call}"
        );
        assert_eq!(rt; core.status().free, 3, "call {call}");
        let newest = core.close().cut(alloc, Pick::Newest)?;
        assert!(rt; keeps(alloc, &newest, 8)?, "call {call}");
    }
    Ok(())
}

#[test]
fn a_cut_after_each_call(rt: HostRuntime) -> Result<(), Fail> {
    let alloc = rt.alloc();
    for calls in 8..15u64 {
        let mut disk = disk_of(alloc, 16)?;
        disk.stop_after(calls);
        let mut core = prepared(alloc, disk)?;
        let wanted = if calls == 14 { DONE } else { FAULT };
        assert!(rt;
            answers(alloc, &mut core, &[(Ask::Write(1, 1, 5), wanted)])?,
            "{calls}"
        );
        let disk = core.close();
        assert!(rt;
            keeps(alloc, &disk.cut(alloc, Pick::Oldest)?, 8)?,
            "{calls}"
        );
        assert!(rt;
            keeps(alloc, &disk.cut(alloc, Pick::Newest)?, 8)?,
            "{calls}"
        );
    }
    Ok(())
}

#[test]
fn a_full_log_is_linked(rt: HostRuntime) -> Result<(), Fail> {
    let alloc = rt.alloc();
    let mut core = opened(alloc, disk_of(alloc, 64)?)?;
    assert!(rt; answers(alloc, &mut core, &[(Ask::Discard(30, 34), DONE), PREPARE])?);
    for block in 1..21u64 {
        assert!(rt;
            answers(alloc, &mut core, &[(Ask::Write(block, 1, 5), DONE)])?,
            "{block}"
        );
    }
    assert!(rt; has_entries(&core, &[(0, 51, 1), (20, 52, 1)]));
    let shown = core.status();
    assert!(rt; shown.sequence == 1 && shown.entries == 2 && shown.free == 11);
    assert!(rt; keeps(alloc, &core.close().image(alloc)?, 30)?);
    Ok(())
}

#[test]
fn the_current_block_0_moves(rt: HostRuntime) -> Result<(), Fail> {
    let alloc = rt.alloc();
    let mut core = prepared(alloc, disk_of(alloc, 16)?)?;
    assert_eq!(rt; pattern_read(alloc, &mut core, 0)?, Some((0, 0)));
    assert!(rt; answers(alloc, &mut core, &[(Ask::Write(0, 1, 5), DONE)])?);
    assert_eq!(rt; pattern_read(alloc, &mut core, 0)?, Some((0, 5)));
    assert!(rt; answers(alloc, &mut core, &[(Ask::Write(8, 1, 6), DONE)])?);
    assert_eq!(rt; pattern_read(alloc, &mut core, 0)?, Some((0, 5)));
    assert_eq!(rt; pattern_read(alloc, &mut core, 8)?, Some((8, 6)));
    assert_eq!(rt; core.log().map_or(0, |log| log.sector0), 10);
    assert!(rt; has_entries(&core, &[(0, 9, 1)]));
    assert!(rt; keeps(alloc, &core.close().image(alloc)?, 8)?);
    Ok(())
}

#[test]
fn a_direct_write_goes_beside_a_batch(rt: HostRuntime) -> Result<(), Fail> {
    let alloc = rt.alloc();
    let mut core = prepared(alloc, disk_of(alloc, 16)?)?;
    let copied = admitted(&mut core, op_of(alloc, Ask::Write(1, 2, 5))?)?;
    let direct = admitted(&mut core, op_of(alloc, Ask::Write(14, 1, 5))?)?;
    assert!(rt; matches!(core.step(Turn::Worker), Step::Moved));
    assert!(rt; core.ready(Turn::Map(direct)) && !core.ready(Turn::Map(copied)));
    assert!(rt; matches!(core.step(Turn::Map(copied)), Step::Idle));
    assert!(rt; matches!(core.step(Turn::Map(direct)), Step::Wrote { index: 0, .. }));
    // The batch ends; a block that a waiting write covers isn't given back by a discard.
    for _ in 0..6 {
        assert!(rt; matches!(core.step(Turn::Worker), Step::Moved));
    }
    assert!(rt; matches!(core.step(Turn::Map(copied)), Step::Wrote { index: 0, .. }));
    assert_eq!(rt; core.status().free, 3);
    assert!(rt; answers(alloc, &mut core, &[(Ask::Discard(1, 1), DONE)])?);
    assert_eq!(rt; core.status().free, 3);
    for _ in 0..2 {
        let _ = core.step(Turn::Map(copied));
    }
    assert!(rt; answers(alloc, &mut core, &[(Ask::Discard(1, 1), DONE)])?);
    assert_eq!(rt; core.status().free, 4);
    assert_eq!(rt; core.spare(), 15);
    Ok(())
}
