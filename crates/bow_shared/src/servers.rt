// What a serving thread does.
ghost use Rattle.std.specs.Prelude.{◌≡◌, ◌+◌, ◌<◌, ◌≤◌, [], length};
ghost use Rattle.bow_tags.specs.Seats.{lanes_of};
ghost use Rattle.bow_shared.specs.Hands.{InHand};

use crate::desk::{Desk, Served};
use crate::naming::Naming;
use bow_disk::Disk;
use bow_ranges::Ranges;
use bow_status::StatusCell;
use bow_tags::{Job, ServerSeat, Tags};
use bow_units::Outcome;
use std::sync::atomic::{AtomicU64, Ordering};
use std::sync::{Mutex, Wait};
use std::thread;

/// Takes what the first so many lanes post, and makes steps for the jobs that it holds, until all are answered and no
/// reply is left to give. It yields wherever no step could be made.
pub(crate) fn run_server<J: Naming<D>, D: Disk, R: Ranges, H: Wait>(
    rt: &H,
    tags: &Tags<(), Outcome>,
    cell: &StatusCell,
    seat: &mut ServerSeat<(), Outcome>,
    jobs: &mut Vec<Job>,
    lanes: u32,
    left: &AtomicU64,
    desk: &Mutex<Desk<J, D, R>>,
)
    requires cell { cell.now ≡ J.cell }
    requires own { seat.old.table ≡ tags.now }
    requires lanes { lanes ≤ lanes_of tags.now }
    requires none { jobs.old.items ≡ [] }
    ensures same { seat.new.table ≡ seat.old.table }
    ensures none { jobs.new.items ≡ [] }
{
    for _ in rt.forever() {
        take_posted(tags, seat, jobs, lanes);
        let got_on = serve_all(rt, tags, cell, seat, jobs, left, desk);
        if jobs.is_empty() && left.load(Ordering::SeqCst) == 0 {
            return;
        }
        if !got_on {
            thread::yield_now();
        }
    }
    unreachable!()
}

// Takes every posted number that it sees.
fn take_posted(
    tags: &Tags<(), Outcome>,
    seat: &mut ServerSeat<(), Outcome>,
    jobs: &mut Vec<Job>,
    lanes: u32,
)
    requires own { seat.old.table ≡ tags.now }
    requires lanes { lanes ≤ lanes_of tags.now }
    requires hand { InHand seat.old.view.jobs jobs.old.items }
    ensures same { seat.new.table ≡ seat.old.table }
    ensures hand { InHand seat.new.view.jobs jobs.new.items }
{
    for lane in 0..lanes {
        take_lane(tags, seat, jobs, lane);
    }
}

// Takes the lane's number, where it is posted.
fn take_lane(
    tags: &Tags<(), Outcome>,
    seat: &mut ServerSeat<(), Outcome>,
    jobs: &mut Vec<Job>,
    lane: u32,
)
    requires own { seat.old.table ≡ tags.now }
    requires lane { lane < lanes_of tags.now }
    requires hand { InHand seat.old.view.jobs jobs.old.items }
    ensures same { seat.new.table ≡ seat.old.table }
    ensures hand { InHand seat.new.view.jobs jobs.new.items }
{
    if jobs.len() >= jobs.capacity() {
        return;
    }
    let Some(number) = tags.look(seat, lane) else {
        return;
    };
    let Ok((job, ())) = tags.take(seat, lane, number) else {
        return;
    };
    jobs.push_reserved(job);
}

// One hold of the lock for each job in hand. It says whether any of them got on.
fn serve_all<J: Naming<D>, D: Disk, R: Ranges, H: Wait>(
    rt: &H,
    tags: &Tags<(), Outcome>,
    cell: &StatusCell,
    seat: &mut ServerSeat<(), Outcome>,
    jobs: &mut Vec<Job>,
    left: &AtomicU64,
    desk: &Mutex<Desk<J, D, R>>,
) -> bool
    requires cell { cell.now ≡ J.cell }
    requires own { seat.old.table ≡ tags.now }
    requires hand { InHand seat.old.view.jobs jobs.old.items }
    ensures same { seat.new.table ≡ seat.old.table }
    ensures hand { InHand seat.new.view.jobs jobs.new.items }
{
    let mut got_on = false;
    for _i in 0..jobs.len() {
        if jobs.is_empty() {
            return got_on;
        }
        if serve_first(rt, tags, cell, seat, jobs, left, desk) {
            got_on = true;
        }
    }
    got_on
}

// One hold of the lock for the first job, which then is answered, or goes behind the others. It says whether it got on.
fn serve_first<J: Naming<D>, D: Disk, R: Ranges, H: Wait>(
    rt: &H,
    tags: &Tags<(), Outcome>,
    cell: &StatusCell,
    seat: &mut ServerSeat<(), Outcome>,
    jobs: &mut Vec<Job>,
    left: &AtomicU64,
    desk: &Mutex<Desk<J, D, R>>,
) -> bool
    requires cell { cell.now ≡ J.cell }
    requires own { seat.old.table ≡ tags.now }
    requires hand { InHand seat.old.view.jobs jobs.old.items }
    requires some { 0 < length jobs.old.items }
    ensures same { seat.new.table ≡ seat.old.table }
    ensures hand { InHand seat.new.view.jobs jobs.new.items }
{
    let job = jobs.remove(0);
    let served = desk.lock(rt).serve(rt, cell, tags, seat, job);
    match served {
        Served::Answered => {
            left.fetch_sub(1, Ordering::SeqCst);
            true
        }
        Served::Stepped(job) => {
            jobs.push_reserved(job);
            true
        }
        Served::Waiting(job) => {
            jobs.push_reserved(job);
            false
        }
    }
}
