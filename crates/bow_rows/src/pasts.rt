// The program beside a reader of the checkpoint, over phones in memory: what it tells behind the transcript.
use crate::images::patterns;
use crate::phones::{phone_with, run};
use std::test::Fail;

// The first eight blocks as they were before the prepare, and the first thirty.
const EIGHT: &str =
    "past 0 pattern 0 0\npast 1 pattern 1 0\npast 2 pattern 2 0\npast 3 pattern 3 0\n\
    past 4 pattern 4 0\npast 5 pattern 5 0\npast 6 pattern 6 0\npast 7 pattern 7 0\n\
    past read 8 of 8\n";

const THIRTY: &str =
    "past 0 pattern 0 0\npast 1 pattern 1 0\npast 2 pattern 2 0\npast 3 pattern 3 0\n\
    past 4 pattern 4 0\npast 5 pattern 5 0\npast 6 pattern 6 0\npast 7 pattern 7 0\n\
    past 8 pattern 8 0\npast 9 pattern 9 0\npast 10 pattern 10 0\npast 11 pattern 11 0\n\
    past 12 pattern 12 0\npast 13 pattern 13 0\npast 14 pattern 14 0\npast 15 pattern 15 0\n\
    past 16 pattern 16 0\npast 17 pattern 17 0\npast 18 pattern 18 0\npast 19 pattern 19 0\n\
    past 20 pattern 20 0\npast 21 pattern 21 0\npast 22 pattern 22 0\npast 23 pattern 23 0\n\
    past 24 pattern 24 0\npast 25 pattern 25 0\npast 26 pattern 26 0\npast 27 pattern 27 0\n\
    past 28 pattern 28 0\npast 29 pattern 29 0\npast read 30 of 30\n";

// Of 64 blocks each of the first ones: a full log is followed by a second one.
const FULL: &str =
    "discard 30 34\nprepare\nwrite 1 1 5\nwrite 2 1 5\nwrite 3 1 5\nwrite 4 1 5\nwrite 5 1 5\n\
    write 6 1 5\nwrite 7 1 5\nwrite 8 1 5\nwrite 9 1 5\nwrite 10 1 5\nwrite 11 1 5\nwrite 12 1 5\n\
    write 13 1 5\nwrite 14 1 5\nwrite 15 1 5\nwrite 16 1 5\nwrite 17 1 5\nwrite 18 1 5\n\
    write 19 1 5\nwrite 20 1 5\n";

// Ten lanes, drawn: they write blocks in use, trimmed ones and backups, and fill the first log.
const LANES: &str =
    "discard 30 34\nprepare\nsection\nlane\nwrite 27 2 1\nwrite 3 1 2\nwrite 44 1 3\nlane\n\
    write 42 1 11\nwrite 15 1 12\nwrite 13 1 13\nlane\nwrite 30 1 21\nwrite 38 1 22\nwrite 3 2 23\n\
    lane\nwrite 0 1 31\nwrite 17 2 32\nwrite 21 1 33\nlane\nwrite 23 1 41\nwrite 7 2 42\n\
    write 45 1 43\nlane\nwrite 37 1 51\nwrite 21 1 52\nwrite 9 1 53\nlane\nwrite 26 1 61\n\
    write 33 1 62\nwrite 23 2 63\nlane\nwrite 23 1 71\nwrite 22 2 72\nwrite 43 1 73\nlane\n\
    write 36 1 81\nwrite 18 1 82\nwrite 46 1 83\nlane\nwrite 27 2 91\nwrite 7 1 92\nwrite 21 1 93\n";

// A script over so many blocks, the number and the blocks to read, and the lines behind the transcript. Where there is
// one lane, the transcript and the image are those of a play.
#[test]
fn the_checkpoint_is_read_beside_writers(rt: HostRuntime) -> Result<(), Fail> {
    let alloc = rt.alloc();
    for (blocks, script, own, lines) in [
        (
            16,
            "discard 8 8\nprepare\nwrite 1 1 5\n",
            ["past", "0", "0", "8"],
            EIGHT,
        ),
        (64, FULL, ["past", "0", "0", "30"], THIRTY),
        (
            16,
            "write 1 1 5\n",
            ["past", "0", "0", "8"],
            "past read 0 of 8\n",
        ),
        (16, "", ["past", "0", "14", "4"], "past out of range\n"),
        (64, LANES, ["past", "1", "0", "30"], THIRTY),
        (64, LANES, ["past", "2", "0", "30"], THIRTY),
    ] {
        let phone = phone_with(patterns(alloc, blocks)?);
        let play = run(&rt, alloc, &phone, &["play", "0"], script)?;
        let past = run(&rt, alloc, &phone, &own, script)?;
        assert_eq!(rt; past.status, 0);
        assert!(rt; past.told.ends_with(lines.as_bytes()));
        assert_eq!(rt;
            past.told.len(),
            play.told.len().saturating_add(lines.len())
        );
        if script != LANES {
            assert!(rt; past.told.starts_with(&play.told));
            assert!(rt; past.image.as_slice() == play.image.as_slice());
        }
    }
    Ok(())
}
