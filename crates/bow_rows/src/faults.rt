// Each call of the disk, of the keeper, of the source and of the sink failing once, by the program.
use crate::images::{one_log, patterns};
use crate::phones::{Phone, Ran, holds, is_back, keeps, phone_with, run, text};
use crate::restorations::block_given_back;
use bow_disk::FailMode;
use std::alloc::Global;
use std::sync::Wait;
use std::test::Fail;
use std::thread::Threads;

const UPDATE: &str = "discard 8 8\nprepare\nwrite 1 1 5\nwrite 2 1 5\nread 1 1\ncommit\n";

// Whether this line was told.
fn tells(told: &[u8], line: &[u8]) -> bool {
    for from in 0..told.len() {
        if told[from..].starts_with(line) {
            return true;
        }
    }
    false
}

// Whether a block is as its write of the update left it, by what was told: the new pattern where it was done, and the
// old one too where the disk failed.
fn is_written(image: &[u8], block: usize, told: &[u8], done: &[u8], fault: &[u8]) -> bool {
    if tells(told, done) {
        holds(image, block, 5)
    } else {
        holds(image, block, 0) || tells(told, fault) && holds(image, block, 5)
    }
}

// Whether the image has the data of the update, as far as they were told.
fn is_updated(image: &[u8], told: &[u8]) -> bool {
    holds(image, 0, 0)
        && is_written(image, 1, told, b"0.2 done\n", b"0.2 disk fault after 0\n")
        && is_written(image, 2, told, b"0.3 done\n", b"0.3 disk fault after 0\n")
        && [3, 4, 5, 6, 7].iter().all(|block| holds(image, *block, 0))
}

// Whether what a cut left of an update ends well: after a restoration the checkpoint is in place, or the data of the
// update; these alone, where its commit was done.
fn ends_well<H: Threads + Wait + Sync>(
    rt: &H,
    alloc: Global,
    cut: &[u8],
    told: &[u8],
) -> Result<bool, Fail> {
    let back = run(rt, alloc, &phone_with(cut.to_vec(alloc)?), &["restore"], "")?;
    let kept = is_back(&back.image, 8) && !tells(told, b"0.5 done\n");
    Ok(back.status == 0 && (kept || is_updated(&back.image, told)))
}

// The program over a phone of which this call of the disk fails so.
fn failing<H: Threads + Wait + Sync>(
    rt: &H,
    alloc: Global,
    image: &[u8],
    fails: (u64, FailMode),
    word: &[&str],
    script: &str,
) -> Result<Ran, Fail> {
    let mut phone = phone_with(image.to_vec(alloc)?);
    phone.fails = Some(fails);
    run(rt, alloc, &phone, word, script)
}

#[test]
fn each_call_of_the_disk_fails_once(rt: HostRuntime) -> Result<(), Fail> {
    let alloc = rt.alloc();
    let image = patterns(alloc, 16)?;
    let whole = run(
        &rt,
        alloc,
        &phone_with(patterns(alloc, 16)?),
        &["play", "0"],
        UPDATE,
    )?;
    for call in 1..whole.calls.min(100) + 1 {
        for mode in [FailMode::Lost, FailMode::Kept] {
            let ran = failing(&rt, alloc, &image, (call, mode), &["play", "0"], UPDATE)?;
            assert!(rt; ran.status == 0 || ran.status == 6);
            assert!(rt; ends_well(&rt, alloc, &ran.oldest, &ran.told)?);
            assert!(rt; ends_well(&rt, alloc, &ran.newest, &ran.told)?);
        }
    }
    let logged = block_given_back(alloc)?;
    let whole = run(
        &rt,
        alloc,
        &phone_with(block_given_back(alloc)?),
        &["restore"],
        "",
    )?;
    for call in 1..whole.calls.min(100) + 1 {
        for mode in [FailMode::Lost, FailMode::Kept] {
            let ran = failing(&rt, alloc, &logged, (call, mode), &["restore"], "")?;
            assert!(rt; ran.status == 6 && ran.told.as_slice() == b"disk fault\n".as_slice());
            let again = run(&rt, alloc, &phone_with(ran.image), &["restore"], "")?;
            assert!(rt; again.status == 0 && is_back(&again.image, 13));
        }
    }
    Ok(())
}

// A phone at its last attempt, with the image of an update that was not committed, whose keeper fails at this call.
fn last_attempt(alloc: Global, call: u64) -> Result<Phone, Fail> {
    let mut phone = phone_with(one_log(alloc)?);
    phone.kept = Some(text(b"1"));
    phone.keeper_fails = Some(call);
    Ok(phone)
}

#[test]
fn each_call_of_the_keeper_and_of_the_ends_fails_once(rt: HostRuntime) -> Result<(), Fail> {
    let alloc = rt.alloc();
    let logged = one_log(alloc)?;
    for call in 1..4u64 {
        let ran = run(&rt, alloc, &last_attempt(alloc, call)?, &["boot"], "")?;
        assert!(rt; ran.status == 7 && ran.told.as_slice() == b"keeper fault\n".as_slice());
        if call < 3 {
            assert!(rt; keeps(&ran.kept, b"1") && ran.image.as_slice() == logged.as_slice());
        } else {
            assert!(rt; keeps(&ran.kept, b"0"));
            let mut phone = phone_with(ran.image);
            phone.kept = ran.kept;
            let again = run(&rt, alloc, &phone, &["boot"], "")?;
            assert!(rt;
                again.told.as_slice() == b"rolled back\n".as_slice() && again.kept.is_none()
            );
        }
    }
    let mut phone = phone_with(patterns(alloc, 16)?);
    phone.keeper_fails = Some(1);
    let script = "discard 8 8\nprepare\nwrite 1 1 5\ncommit\n";
    let ran = run(&rt, alloc, &phone, &["play", "0"], script)?;
    let told = b"0.0 done\n0.1 done\n0.2 wrote 1\n0.2 done\n0.3 done\nkeeper fault\n";
    assert!(rt; ran.status == 7 && ran.told.as_slice() == told.as_slice());
    phone = phone_with(patterns(alloc, 16)?);
    phone.sink_fails = Some(1);
    let script = "write 15 1 7\nread 15 1\nwrite 16 1 7\nread 15 2\n";
    let ran = run(&rt, alloc, &phone, &["play", "0"], script)?;
    assert!(rt; ran.status == 5 && is_back(&ran.image, 15) && holds(&ran.image, 15, 7));
    phone = phone_with(patterns(alloc, 16)?);
    phone.source_fails = Some(1);
    let ran = run(&rt, alloc, &phone, &["play", "0"], script)?;
    assert!(rt;
        ran.status == 4 && ran.told.as_slice() == b"source fault\n".as_slice() && ran.calls == 0
    );
    Ok(())
}
