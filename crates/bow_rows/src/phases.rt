// The program over phones in memory: plays in each phase, what its cuts leave, restorations and boots after them.
use crate::images::{flip, patterns};
use crate::phones::{Phone, holds, is_back, keeps, phone_with, run, text};
use bow_disk::FailMode;
use std::alloc::Global;
use std::sync::Wait;
use std::test::Fail;
use std::thread::Threads;

const PREPARED: &str = "discard 8 8\nprepare\nwrite 1 1 5\n";

const FULL: &str =
    "discard 13 3\nprepare\nwrite 1 1 5\nwrite 2 1 5\nwrite 1 1 6\nwrite 13 1 5\nwrite 15 1 5\n";

// Of 16 blocks with their patterns: what these scripts tell.
fn plays() -> [(&'static str, &'static str); 12] {
    [
        ("", ""),
        (
            "write 15 1 7\nread 15 1\nwrite 16 1 7\nread 15 2\n",
            "0.0 wrote 15\n0.0 done\n0.1 got 15 pattern 15 7\n0.1 data\n0.2 out of range\n0.3 out of range\n",
        ),
        ("discard 8 8\nprepare\n", "0.0 done\n0.1 done\n"),
        (
            "discard 15 1\nprepare\nwrite 1 1 5\n",
            "0.0 done\n0.1 no space after 0\n0.2 wrote 1\n0.2 done\n",
        ),
        (
            "writehex 0 424f5700\nwritehex 0 574f4200\nwritehex 1 424f5700\nread 1 1\n",
            "0.0 reserved magic\n0.1 reserved magic\n0.2 wrote 1\n0.2 done\n0.3 got 1 hex 424f57\n0.3 data\n",
        ),
        (
            "discard 8 8\nprepare\nread 0 1\nwrite 0 1 5\nread 0 1\nwrite 8 1 6\nread 0 1\nread 8 1\n",
            "0.0 done\n0.1 done\n0.2 got 0 pattern 0 0\n0.2 data\n0.3 wrote 0\n0.3 done\n\
            0.4 got 0 pattern 0 5\n0.4 data\n0.5 wrote 8\n0.5 done\n0.6 got 0 pattern 0 5\n0.6 data\n\
            0.7 got 8 pattern 8 6\n0.7 data\n",
        ),
        (
            FULL,
            "0.0 done\n0.1 done\n0.2 wrote 1\n0.2 done\n0.3 no space after 0\n0.4 wrote 1\n0.4 done\n\
            0.5 no space after 0\n0.6 no space after 0\n",
        ),
        (
            "discard 8 8\nprepare\nwrite 1 1 5\nwrite 10 1 6\n",
            "0.0 done\n0.1 done\n0.2 wrote 1\n0.2 done\n0.3 wrote 10\n0.3 done\n",
        ),
        (
            "discard 8 8\nprepare\nwrite 1 1 5\ncommit\n",
            "0.0 done\n0.1 done\n0.2 wrote 1\n0.2 done\n0.3 done\n",
        ),
        (
            "prepare\ncommit\n",
            "0.0 no space after 0\n0.1 wrong phase trim\n",
        ),
        (
            "discard 8 8\nprepare\nwrite 1 1 5\nprepare\n",
            "0.0 done\n0.1 done\n0.2 wrote 1\n0.2 done\n0.3 wrong phase checkpoint\n",
        ),
        (
            "discard 8 3\ndiscard 12 2\nprepare\nwrite 1 3 5\n",
            "0.0 done\n0.1 done\n0.2 done\n0.3 wrote 1\n0.3 wrote 2\n0.3 wrote 3\n0.3 done\n",
        ),
    ]
}

#[test]
fn each_phase_is_told(rt: HostRuntime) -> Result<(), Fail> {
    let alloc = rt.alloc();
    for (script, told) in plays() {
        for number in ["0", "7"] {
            let ran = run(
                &rt,
                alloc,
                &phone_with(patterns(alloc, 16)?),
                &["play", number],
                script,
            )?;
            assert_eq!(rt; ran.status, 0);
            assert_eq!(rt; ran.told.as_slice(), told.as_bytes());
        }
    }
    Ok(())
}

// What `check` tells of the image that this script leaves of so many blocks.
fn checked<H: Threads + Wait + Sync>(
    rt: &H,
    alloc: Global,
    blocks: usize,
    script: &str,
) -> Result<Vec<u8>, Fail> {
    let ran = run(
        rt,
        alloc,
        &phone_with(patterns(alloc, blocks)?),
        &["play", "0"],
        script,
    )?;
    let check = run(rt, alloc, &phone_with(ran.image), &["check"], "")?;
    Ok(check.told)
}

// The sums are another program's.
#[test]
fn the_logs_that_plays_leave(rt: HostRuntime) -> Result<(), Fail> {
    let alloc = rt.alloc();
    for (script, lines) in [
        (
            "discard 8 8\nprepare\n",
            "generation 0 magic log sector0 8 entries 1\nentry 0 source 0 dest 9 size 512 sum 9480da6b\n\
            sound\n",
        ),
        (
            "discard 8 8\nprepare\nread 0 1\nwrite 0 1 5\nread 0 1\nwrite 8 1 6\n",
            "generation 0 magic log sector0 10 entries 1\n\
            entry 0 source 0 dest 9 size 512 sum 9480da6b\nsound\n",
        ),
        (
            "discard 8 8\nprepare\nwrite 1 1 5\nwrite 10 1 6\n",
            "generation 0 magic log sector0 8 entries 3\nentry 0 source 0 dest 9 size 512 sum 9480da6b\n\
            entry 1 source 1 dest 10 size 512 sum accfdf60\n\
            entry 2 source 10 dest 11 size 512 sum b2e65d7a\nsound\n",
        ),
        (
            "discard 13 3\nprepare\nwrite 1 1 5\ndiscard 1 1\nwrite 2 1 5\n",
            "generation 0 magic log sector0 13 entries 3\n\
            entry 0 source 0 dest 14 size 512 sum 9480da6b\n\
            entry 1 source 1 dest 15 size 512 sum accfdf60\n\
            entry 2 source 2 dest 1 size 512 sum e41ed07d\nsound\n",
        ),
        ("discard 8 8\nprepare\nwrite 1 1 5\ncommit\n", "no log\n"),
    ] {
        assert_eq!(rt;
            checked(&rt, alloc, 16, script)?.as_slice(),
            lines.as_bytes()
        );
    }
    Ok(())
}

#[test]
fn a_full_log_is_followed_by_a_second_one(rt: HostRuntime) -> Result<(), Fail> {
    let alloc = rt.alloc();
    let mut script = String::from_str(alloc, "discard 30 34\nprepare\n")?;
    for block in 1..21u32 {
        let line = format!(in alloc; "write {block} 1 5\n")?;
        script.push_str(line.as_str())?;
    }
    let lines = checked(&rt, alloc, 64, script.as_str())?;
    let newest =
        "generation 1 magic log sector0 30 entries 2\nentry 0 source 0 dest 51 size 512 sum df6050eb\n\
        entry 1 source 20 dest 52 size 512 sum 47ae9275\ngeneration 0 magic log sector0 30 entries 20\n\
        entry 0 source 0 dest 31 size 512 sum 9480da6b\n";
    assert!(rt; lines.starts_with(newest.as_bytes()));
    assert!(rt; lines.ends_with(b"entry 19 source 19 dest 50 size 512 sum ee438944\nsound\n"));
    Ok(())
}

// Whether a restoration of this image ends well and has the blocks below this one back.
fn comes_back<H: Threads + Wait + Sync>(
    rt: &H,
    alloc: Global,
    image: &[u8],
    blocks: usize,
) -> Result<bool, Fail> {
    let ran = run(
        rt,
        alloc,
        &phone_with(image.to_vec(alloc)?),
        &["restore"],
        "",
    )?;
    Ok(ran.status == 0 && is_back(&ran.oldest, blocks) && is_back(&ran.newest, blocks))
}

#[test]
fn whatever_a_cut_before_the_commit_leaves_comes_back(rt: HostRuntime) -> Result<(), Fail> {
    let alloc = rt.alloc();
    let whole = run(
        &rt,
        alloc,
        &phone_with(patterns(alloc, 16)?),
        &["play", "0"],
        PREPARED,
    )?;
    assert_eq!(rt; whole.calls, 14);
    for calls in 2..15u64 {
        let mut cut = phone_with(patterns(alloc, 16)?);
        cut.stops = Some(calls);
        let ran = run(&rt, alloc, &cut, &["play", "0"], PREPARED)?;
        assert_eq!(rt; ran.status, 0);
        assert!(rt;
            comes_back(&rt, alloc, &ran.oldest, 8)? && comes_back(&rt, alloc, &ran.newest, 8)?
        );
    }
    Ok(())
}

#[test]
fn the_deciding_write_decides(rt: HostRuntime) -> Result<(), Fail> {
    let alloc = rt.alloc();
    let script = "discard 8 8\nprepare\nwrite 1 1 5\ncommit\n";
    let mut cut = phone_with(patterns(alloc, 16)?);
    cut.stops = Some(17);
    let ran = run(&rt, alloc, &cut, &["play", "0"], script)?;
    assert!(rt; ran.told.ends_with(b"0.3 disk fault after 0\n"));
    let back = run(&rt, alloc, &phone_with(ran.oldest), &["restore"], "")?;
    assert_eq!(rt;
        back.told.as_slice(),
        b"restored entries 2 marks 0\n".as_slice()
    );
    assert!(rt; is_back(&back.image, 8));
    let on = run(&rt, alloc, &phone_with(ran.newest), &["restore"], "")?;
    assert_eq!(rt; on.told.as_slice(), b"nothing to restore\n".as_slice());
    assert!(rt; holds(&on.image, 1, 5));
    Ok(())
}

#[test]
fn a_commit_that_failed_is_made_again(rt: HostRuntime) -> Result<(), Fail> {
    let alloc = rt.alloc();
    let script =
        "discard 8 8\nprepare\nwrite 1 1 5\ncommit\nwrite 2 1 5\ncommit\nwrite 2 1 5\nread 2 1\n";
    let mut failing = phone_with(patterns(alloc, 16)?);
    failing.fails = Some((17, FailMode::Lost));
    let ran = run(&rt, alloc, &failing, &["play", "0"], script)?;
    let told =
        "0.0 done\n0.1 done\n0.2 wrote 1\n0.2 done\n0.3 disk fault after 0\n0.4 unsettled deciding\n\
        0.5 done\n0.6 wrote 2\n0.6 done\n0.7 got 2 pattern 2 5\n0.7 data\n";
    assert_eq!(rt; ran.told.as_slice(), told.as_bytes());
    Ok(())
}

#[test]
fn a_log_write_that_failed_is_made_again(rt: HostRuntime) -> Result<(), Fail> {
    let alloc = rt.alloc();
    let script = "discard 8 8\nprepare\nwrite 1 1 5\nwrite 1 1 8\n";
    let mut failing = phone_with(patterns(alloc, 16)?);
    failing.fails = Some((12, FailMode::Kept));
    let ran = run(&rt, alloc, &failing, &["play", "0"], script)?;
    let told = "0.0 done\n0.1 done\n0.2 disk fault after 0\n0.3 wrote 1\n0.3 done\n";
    assert_eq!(rt; ran.told.as_slice(), told.as_bytes());
    assert_eq!(rt; ran.calls, 15);
    assert!(rt; comes_back(&rt, alloc, &ran.newest, 8)?);
    Ok(())
}

#[test]
fn a_prepare_that_failed_is_made_again(rt: HostRuntime) -> Result<(), Fail> {
    let alloc = rt.alloc();
    let script = "discard 8 8\nprepare\nwrite 1 1 5\nprepare\nwrite 1 1 5\n";
    let mut failing = phone_with(patterns(alloc, 16)?);
    failing.fails = Some((7, FailMode::Lost));
    let ran = run(&rt, alloc, &failing, &["play", "0"], script)?;
    let told =
        "0.0 done\n0.1 disk fault after 0\n0.2 unsettled arming\n0.3 done\n0.4 wrote 1\n0.4 done\n";
    assert_eq!(rt; ran.told.as_slice(), told.as_bytes());
    Ok(())
}

#[test]
fn a_checkpoint_is_not_played_over(rt: HostRuntime) -> Result<(), Fail> {
    let alloc = rt.alloc();
    let ran = run(
        &rt,
        alloc,
        &phone_with(patterns(alloc, 16)?),
        &["play", "0"],
        FULL,
    )?;
    let image = ran.image;
    let again = run(
        &rt,
        alloc,
        &phone_with(image.to_vec(alloc)?),
        &["play", "0"],
        "",
    )?;
    assert_eq!(rt; again.status, 8);
    assert_eq!(rt; again.told.as_slice(), b"needs restore\n".as_slice());
    assert_eq!(rt; again.image, image);
    let back = run(&rt, alloc, &phone_with(image), &["restore"], "")?;
    assert_eq!(rt;
        back.told.as_slice(),
        b"restored entries 2 marks 0\n".as_slice()
    );
    assert!(rt; is_back(&back.image, 13));
    Ok(())
}

#[test]
fn a_limited_restoration_is_stopped(rt: HostRuntime) -> Result<(), Fail> {
    let alloc = rt.alloc();
    let script = "discard 8 8\nprepare\nwrite 1 1 5\nwrite 10 1 6\n";
    let mut image = run(
        &rt,
        alloc,
        &phone_with(patterns(alloc, 16)?),
        &["play", "0"],
        script,
    )?
    .image;
    for _ in 0..3 {
        let ran = run(
            &rt,
            alloc,
            &phone_with(image),
            &["restore", "--limit", "1"],
            "",
        )?;
        assert_eq!(rt; ran.status, 12);
        assert_eq!(rt; ran.told.as_slice(), b"stopped after 1 writes\n".as_slice());
        image = ran.image;
    }
    let back = run(&rt, alloc, &phone_with(image), &["restore"], "")?;
    assert_eq!(rt;
        back.told.as_slice(),
        b"restored entries 3 marks 0\n".as_slice()
    );
    assert!(rt; is_back(&back.image, 8));
    let last = run(&rt, alloc, &phone_with(back.image), &["restore"], "")?;
    assert_eq!(rt; last.told.as_slice(), b"nothing to restore\n".as_slice());
    Ok(())
}

#[test]
fn a_damaged_backup_is_told_and_may_be_given_up(rt: HostRuntime) -> Result<(), Fail> {
    let alloc = rt.alloc();
    let mut image = run(
        &rt,
        alloc,
        &phone_with(patterns(alloc, 16)?),
        &["play", "0"],
        PREPARED,
    )?
    .image;
    flip(&mut image, 5120);
    let told = b"bad chain: depth 0 entry 1 sum bcbd0448 stated accfdf60\n".as_slice();
    for own in [["check"], ["restore"]] {
        let ran = run(&rt, alloc, &phone_with(image.to_vec(alloc)?), &own, "")?;
        assert_eq!(rt; ran.status, 9);
        assert_eq!(rt; ran.told.as_slice(), told);
        assert_eq!(rt; ran.image, image);
    }
    let on = run(&rt, alloc, &phone_with(image), &["forward"], "")?;
    assert_eq!(rt; on.told.as_slice(), b"forwarded\n".as_slice());
    assert!(rt; holds(&on.image, 0, 0) && holds(&on.image, 1, 5));
    let last = run(&rt, alloc, &phone_with(on.image), &["forward"], "")?;
    assert_eq!(rt; last.told.as_slice(), b"nothing to forward\n".as_slice());
    Ok(())
}

#[test]
fn an_update_that_is_never_committed_is_rolled_back(rt: HostRuntime) -> Result<(), Fail> {
    let alloc = rt.alloc();
    let mut old = phone_with(patterns(alloc, 16)?);
    for (own, script, told) in [
        (["start", "1"].as_slice(), "", "attempts 2\n"),
        (["boot"].as_slice(), "", "checkpointing 1\n"),
        (
            ["play", "0"].as_slice(),
            PREPARED,
            "0.0 done\n0.1 done\n0.2 wrote 1\n0.2 done\n",
        ),
        (["boot"].as_slice(), "", "rolled back\n"),
        (["boot"].as_slice(), "", "plain\n"),
    ] {
        let ran = run(&rt, alloc, &old, own, script)?;
        assert_eq!(rt; ran.status, 0);
        assert_eq!(rt; ran.told.as_slice(), told.as_bytes());
        old = phone_with(ran.image);
        old.kept = ran.kept;
    }
    assert!(rt; is_back(&old.image, 8) && old.kept.is_none());
    old.kept = Some(text(b"007"));
    let bad = run(&rt, alloc, &old, &["boot"], "")?;
    assert_eq!(rt; bad.status, 10);
    assert_eq!(rt; bad.told.as_slice(), b"bad attempts\n".as_slice());
    Ok(())
}

#[test]
fn attempts_go_from_command_to_command(rt: HostRuntime) -> Result<(), Fail> {
    let alloc = rt.alloc();
    let mut old = phone_with(patterns(alloc, 16)?);
    for (own, told) in [
        (["start", "3"].as_slice(), "attempts 4\n"),
        (["mark"].as_slice(), "attempts 3\n"),
        (["abort", "--retry"].as_slice(), "attempts 3\n"),
        (["abort"].as_slice(), "attempts 0\n"),
        (["needs-rollback"].as_slice(), "yes\n"),
        (["needs-checkpoint"].as_slice(), "no\n"),
    ] {
        let ran = run(&rt, alloc, &old, own, "")?;
        assert_eq!(rt; ran.status, 0);
        assert_eq!(rt; ran.told.as_slice(), told.as_bytes());
        assert_eq!(rt; ran.calls, 0);
        old.kept = ran.kept;
    }
    Ok(())
}

#[test]
fn a_commit_drops_the_attempts(rt: HostRuntime) -> Result<(), Fail> {
    let alloc = rt.alloc();
    let script = "discard 8 8\nprepare\nwrite 1 1 5\ncommit\n";
    let told = "0.0 done\n0.1 done\n0.2 wrote 1\n0.2 done\n0.3 done\n";
    let mut started = phone_with(patterns(alloc, 16)?);
    started.kept = Some(text(b"4"));
    let ran = run(&rt, alloc, &started, &["play", "0"], script)?;
    assert_eq!(rt; ran.status, 0);
    assert!(rt; ran.kept.is_none());
    started.keeper_fails = Some(1);
    let ran = run(&rt, alloc, &started, &["play", "0"], script)?;
    assert_eq!(rt; ran.status, 7);
    let line = format!(in alloc; "{told}keeper fault\n")?;
    assert_eq!(rt; ran.told.as_slice(), line.as_bytes());
    assert!(rt; keeps(&ran.kept, b"4"));
    Ok(())
}

// The phone ends with this status and this line, after so many calls of its disk, and its image is as it was.
fn refuses<H: Threads + Wait + Sync>(
    rt: &H,
    alloc: Global,
    phone: &Phone,
    script: &str,
    status: u8,
    line: &str,
) -> Result<bool, Fail> {
    let ran = run(rt, alloc, phone, &["play", "0"], script)?;
    Ok(ran.status == status && ran.told.as_slice() == line.as_bytes() && ran.image == phone.image)
}

#[test]
fn failing_ends_have_their_statuses(rt: HostRuntime) -> Result<(), Fail> {
    let alloc = rt.alloc();
    let script = "write 15 1 7\nread 15 1\n";
    let mut one = phone_with(patterns(alloc, 16)?);
    one.source_fails = Some(2);
    assert!(rt; refuses(&rt, alloc, &one, script, 4, "source fault\n")?);
    one = phone_with(patterns(alloc, 16)?);
    one.hides_sizes = true;
    assert!(rt; refuses(&rt, alloc, &one, script, 6, "disk fault\n")?);
    one = phone_with(patterns(alloc, 16)?);
    one.fails = Some((1, FailMode::Lost));
    assert!(rt; refuses(&rt, alloc, &one, script, 6, "disk fault\n")?);
    one = phone_with(patterns(alloc, 7)?);
    assert!(rt; refuses(&rt, alloc, &one, script, 13, "bad geometry 512 7\n")?);
    one = phone_with(patterns(alloc, 16)?);
    assert!(rt;
        refuses(
            &rt,
            alloc,
            &one,
            "write 1 1 5\nwrit 2\n",
            3,
            "bad script at line 2\n"
        )?
    );
    one.sink_fails = Some(1);
    let ran = run(&rt, alloc, &one, &["play", "0"], script)?;
    assert_eq!(rt; ran.status, 5);
    assert!(rt; holds(&ran.image, 15, 7) && ran.told.is_empty());
    let bad = run(&rt, alloc, &one, &["play"], "")?;
    assert_eq!(rt; bad.calls, 0);
    Ok(())
}

#[test]
fn a_failing_write_is_a_line_and_reads_tell_what_it_left(rt: HostRuntime) -> Result<(), Fail> {
    let alloc = rt.alloc();
    let mut failing = phone_with(patterns(alloc, 16)?);
    // Calls 1 and 2 are the opening's, calls 3 and 4 are the writes of blocks 1 and 2.
    failing.fails = Some((4, FailMode::Kept));
    let ran = run(
        &rt,
        alloc,
        &failing,
        &["play", "0"],
        "write 1 2 5\nread 1 2\n",
    )?;
    assert_eq!(rt; ran.status, 0);
    let told =
        "0.0 wrote 1\n0.0 disk fault after 1\n0.1 got 1 pattern 1 5\n0.1 got 2 pattern 2 5\n0.1 data\n";
    assert_eq!(rt; ran.told.as_slice(), told.as_bytes());
    Ok(())
}
