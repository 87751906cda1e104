// Sessions of lanes over the device on a disk in memory: their journals with the count of calls after each item, their
// sections, what they read, and how the device stands after them.
use crate::images::patterns;
use bow_core::Core;
use bow_disk::{FailMode, MemDisk};
use bow_script::read_script;
use bow_session::{Actor, Item, Session};
use bow_tree::RangeTree;
use bow_units::{Geometry, Outcome, Phase, Status, pattern_of};
use std::alloc::Global;
use std::test::Fail;

type Played = Session<MemDisk, RangeTree>;

// The disk of 16 blocks with their patterns, of which this call fails.
fn disk_of(alloc: Global, fails: u64) -> Result<MemDisk, Fail> {
    let image = patterns(alloc, 16)?;
    if image.len() != 8192 {
        return Err(Fail::from("an image of 16 blocks"));
    }
    let sizes = Geometry {
        block_size: 512,
        blocks: 16,
    };
    let mut disk = MemDisk::new(alloc, sizes, image, 400)?;
    if 0 < fails {
        disk.fail_at(fails, FailMode::Lost)?;
    }
    Ok(disk)
}

// A session over it, before its first step. Its opening makes the first two calls.
fn loaded(alloc: Global, text: &[u8], fails: u64) -> Result<Played, Fail> {
    let Ok(core) = Core::open(alloc, disk_of(alloc, fails)?, 16) else {
        return Err(Fail::from("a device"));
    };
    let Ok(script) = read_script(alloc, text) else {
        return Err(Fail::from("a script"));
    };
    match Session::load(alloc, core, script) {
        Ok(session) => Ok(session),
        Err((_, _)) => Err(Fail::from("memory")),
    }
}

fn played(alloc: Global, text: &[u8], number: u64) -> Result<Played, Fail> {
    let mut session = loaded(alloc, text, 0)?;
    session.finish(number);
    Ok(session)
}

fn wrote(lane: u32, number: u32, block: u64) -> Item {
    Item::Wrote {
        lane,
        number,
        block,
    }
}

fn got(lane: u32, number: u32, block: u64) -> Item {
    Item::Got {
        lane,
        number,
        block,
    }
}

fn answered(lane: u32, number: u32, outcome: Outcome) -> Item {
    Item::Answered {
        lane,
        number,
        outcome,
    }
}

fn shown(phase: Phase, free: u64, entries: u32) -> Status {
    Status {
        phase,
        free,
        sequence: 0,
        entries,
    }
}

#[test]
fn the_journal_of_a_small_script(rt: HostRuntime) -> Result<(), Fail> {
    let text = b"write 3 2 7\nread 3 1\nread 15 2\nwrite 7 1 9\n";
    let mut session = loaded(rt.alloc(), text, 6)?;
    session.finish(1);
    let wanted = [
        (wrote(0, 0, 3), 3),
        (wrote(0, 0, 4), 4),
        (answered(0, 0, Outcome::Done), 4),
        (got(0, 1, 3), 5),
        (answered(0, 1, Outcome::Data), 5),
        (answered(0, 2, Outcome::OutOfRange), 5),
        (answered(0, 3, Outcome::DiskFault { done: 0 }), 6),
    ];
    assert_eq!(rt; session.journal().len(), wanted.len());
    for i in 0..session.journal().len() {
        let item = session.journal()[i];
        let moment = session.moment(i as u32);
        assert_eq!(rt; wanted.get(i).copied(), Some((item, moment)));
    }
    let core = session.close();
    assert_eq!(rt; core.admitted(), 4);
    assert_eq!(rt; core.spare(), 16);
    Ok(())
}

#[test]
fn a_section_begins_after_the_last_one(rt: HostRuntime) -> Result<(), Fail> {
    let text = b"write 3 1 7\nlane\nread 5 1\nsection\nread 3 1\n";
    let mut session = loaded(rt.alloc(), text, 0)?;
    assert_eq!(rt; session.lanes(), 2);
    assert_eq!(rt; session.requests(0), 2);
    for actor in [Actor::Lane(0), Actor::Lane(0), Actor::Lane(0)] {
        assert!(rt; session.step(actor));
    }
    assert!(rt; !session.step(Actor::Lane(0)), "lane 1 is not answered");
    assert!(rt; !session.step(Actor::Worker));
    session.finish(5);
    assert!(rt; session.over());
    assert_eq!(rt; session.answered(0), 2);
    assert!(rt; session.data(0, 0).is_none(), "a write has no data");
    let content = match session.content(got(0, 1, 3)) {
        Some(block) => pattern_of(block),
        None => None,
    };
    assert_eq!(rt; content, Some((3, 7)), "the pattern of block 3");
    Ok(())
}

// The seed of the one write whose blocks all four reads have.
fn one_seed(session: &Played) -> Option<u32> {
    let bytes = session.data(0, 1)?;
    let (_, seed) = pattern_of(bytes.get(..512)?)?;
    for at in 0..4u32 {
        let start = at as usize * 512;
        let block = bytes.get(start..start + 512)?;
        if pattern_of(block) != Some((1 + at, seed)) {
            return None;
        }
    }
    Some(seed)
}

// The seed of the lane of the last write's block.
fn last_seed(session: &Played) -> Option<u32> {
    let mut seed = None;
    for item in session.journal() {
        if let Item::Wrote { lane, .. } = item {
            seed = Some(lane.saturating_add(5));
        }
    }
    seed
}

// Two writes of the same blocks, beside one another: they don't mix, whatever the order of the turns.
#[test]
fn writes_do_not_mix(rt: HostRuntime) -> Result<(), Fail> {
    let text = b"lane\nwrite 1 4 5\nlane\nwrite 1 4 6\nsection\nread 1 4\n";
    for number in 0..100u64 {
        let session = played(rt.alloc(), text, number)?;
        let seed = one_seed(&session);
        assert!(rt; seed.is_some());
        assert_eq!(rt; seed, last_seed(&session));
    }
    Ok(())
}

// Phase, free blocks and entries, after an opening, in the checkpoint, and once it is committed.
#[test]
fn phases_are_shown(rt: HostRuntime) -> Result<(), Fail> {
    let rows: [(&[u8], Status); 3] = [
        (b"", shown(Phase::Trim, 0, 0)),
        (
            b"discard 8 8\nprepare\nwrite 1 1 5\n",
            shown(Phase::Checkpoint, 5, 2),
        ),
        (
            b"discard 8 8\nprepare\nwrite 1 1 5\ncommit\n",
            shown(Phase::Committed, 0, 0),
        ),
    ];
    for (text, status) in rows {
        let session = played(rt.alloc(), text, 3)?;
        assert_eq!(rt; session.status(), status);
        assert_eq!(rt; session.log().is_some(), status.phase == Phase::Checkpoint);
    }
    Ok(())
}
