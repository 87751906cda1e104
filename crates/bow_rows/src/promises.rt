// A phone whose update is cut, by the calls of the library: what is told of it, and what comes back.
ghost use Rattle.std.specs.Prelude.{◌≡◌, IfOk};

use crate::images::patterns;
use bow_disk::{MemDisk, Pick};
use bow_play::{has_committed, play};
use bow_promise::recover;
use bow_report::{item_line, status_line, transcript};
use bow_restore::Restored;
use bow_session::{Item, Session};
use bow_tree::RangeTree;
use bow_units::{Geometry, MemSource, Outcome, Phase, Status};
use std::alloc::Global;
use std::test::Fail;

const SIZES: Geometry = Geometry {
    block_size: 512,
    blocks: 16,
};

// A disk of 16 blocks that holds this image.
fn disk_of(alloc: Global, image: Vec<u8>) -> Result<MemDisk, Fail>
    ensures { IfOk result (λ disk. disk.state.geometry ≡ record { block_size = 512; blocks = 16 }) }
{
    if image.len() != 8192 {
        return Err(Fail::from("an image of 16 blocks"));
    }
    Ok(MemDisk::new(alloc, SIZES, image, 100)?)
}

// The session of a script over the patterns.
fn played(alloc: Global, script: &[u8]) -> Result<Session<MemDisk, RangeTree>, Fail> {
    let disk = disk_of(alloc, patterns(alloc, 16)?)?;
    let mut source = MemSource::new(alloc, script.to_vec(alloc)?);
    match play(alloc, 7, disk, &mut source) {
        Ok(session) => Ok(session),
        Err((_, _)) => Err(Fail::from("a play")),
    }
}

#[test]
fn an_update_that_is_cut_comes_back(rt: HostRuntime) -> Result<(), Fail> {
    let session = played(rt.alloc(), b"discard 8 8\nprepare\nwrite 1 1 5\nread 1 1\n")?;
    assert!(rt; !has_committed(&session));
    let told = transcript(rt.alloc(), &session)?;
    let wanted = b"0.0 done\n0.1 done\n0.2 wrote 1\n0.2 done\n0.3 got 1 pattern 1 5\n0.3 data\n";
    assert!(rt; told.as_slice() == wanted.as_slice());
    let left = session.close().close().cut(rt.alloc(), Pick::Newest)?;
    let mut disk = disk_of(rt.alloc(), left)?;
    let answer = recover(rt.alloc(), &mut disk, SIZES);
    assert!(rt;
        matches!(
            answer,
            Restored::Done {
                entries: 2,
                marks: 0
            }
        )
    );
    let image = disk.image(rt.alloc())?;
    let before = patterns(rt.alloc(), 16)?;
    for at in 0..4096 {
        assert!(rt; image.get(at) == before.get(at));
    }
    Ok(())
}

#[test]
fn a_commit_that_is_answered_stays(rt: HostRuntime) -> Result<(), Fail> {
    let session = played(rt.alloc(), b"discard 8 8\nprepare\nwrite 1 1 5\ncommit\n")?;
    assert!(rt; has_committed(&session));
    let left = session.close().close().cut(rt.alloc(), Pick::Oldest)?;
    let mut disk = disk_of(rt.alloc(), left)?;
    let answer = recover(rt.alloc(), &mut disk, SIZES);
    assert!(rt; matches!(answer, Restored::Nothing));
    Ok(())
}

#[test]
fn the_lines_of_an_item_and_of_a_status(rt: HostRuntime) -> Result<(), Fail> {
    let item = Item::Answered {
        lane: 1,
        number: 2,
        outcome: Outcome::WrongPhase(Phase::Arming),
    };
    let line = item_line(rt.alloc(), item, None)?;
    assert!(rt; line.as_slice() == b"1.2 wrong phase arming\n".as_slice());
    let status = Status {
        phase: Phase::Checkpoint,
        free: 3,
        sequence: 1,
        entries: 2,
    };
    let line = status_line(rt.alloc(), status)?;
    assert!(rt; line.as_slice() == b"phase checkpoint free 3 sequence 1 entries 2\n".as_slice());
    Ok(())
}
