// The threads' work.
ghost use Rattle.std.specs.Prelude.{◌≡◌, ℕ, ◌<◌, ◌≤◌, [], All, length, OnOk};
ghost use Rattle.bow_status.specs.Rising.{IsFirstWatcher};
ghost use Rattle.bow_tags.specs.Seats.{lanes_of, Numbered, IsFirstLane, IsFirstServer};
ghost use Rattle.bow_shared.specs.Works.{MayBegin, HasEnded};

use crate::desk::Desk;
use crate::lanes::run_lane;
use crate::naming::Naming;
use crate::servers::run_server;
use bow_disk::Disk;
use bow_ranges::Ranges;
use bow_session::Session;
use bow_status::{StatusCell, Watcher};
use bow_tags::{Job, LaneSeat, ServerSeat, Tags};
use bow_units::{Gate, Outcome};
use std::alloc::{AllocError, Global};
use std::sync::atomic::AtomicU64;
use std::sync::{Mutex, Wait};

/// A thread's work.
#[derive(Drop)]
pub(crate) enum Worker {
    /// A lane with this number, and with so many requests.
    Lane {
        seat: LaneSeat<(), Outcome>,
        watcher: Watcher,
        lane: u32,
        requests: u32,
    },
    /// A server, with the jobs that it holds.
    Server {
        seat: ServerSeat<(), Outcome>,
        jobs: Vec<Job>,
    },
}

/// Does the work to its end.
pub(crate) fn work<J: Naming<D>, D: Disk, R: Ranges, H: Wait, G: Gate>(
    rt: &H,
    tags: &Tags<(), Outcome>,
    cell: &StatusCell,
    worker: &mut Worker,
    lanes: u32,
    gate: &G,
    left: &AtomicU64,
    desk: &Mutex<Desk<J, D, R>>,
)
    requires cell { cell.now ≡ J.cell }
    requires begin { MayBegin tags.now cell.now worker.old }
    requires lanes { lanes ≤ lanes_of tags.now }
    ensures { HasEnded tags.now worker.new }
{
    match worker {
        Worker::Lane {
            seat,
            watcher,
            lane,
            requests,
        } => run_lane(rt, tags, cell, seat, watcher, *lane, *requests, gate),
        Worker::Server { seat, jobs } => run_server(rt, tags, cell, seat, jobs, lanes, left, desk),
    }
}

/// Adds the work of each lane, with the number of its requests.
pub(crate) fn add_lanes<D: Disk, R: Ranges>(
    workers: &mut Vec<Worker>,
    session: &Session<D, R>,
    tags: &Tags<(), Outcome>,
    cell: &StatusCell,
    seats: Vec<LaneSeat<(), Outcome>>,
    watchers: Vec<Watcher>,
) -> Result<(), AllocError>
    requires before { workers.old.items ≡ [] }
    requires seats { (servers : ℕ) × Numbered (IsFirstLane tags.now servers 0) seats.items }
    requires few { length seats.items ≤ 16 }
    requires watchers { (length watchers.items ≡ length seats.items) × All (IsFirstWatcher cell.now) watchers.items }
    ensures many { OnOk result (length workers.new.items ≡ length seats.items) }
    ensures may { OnOk result (All (MayBegin tags.now cell.now) workers.new.items) }
{
    let mut watchers = watchers;
    for seat in seats {
        let Some(watcher) = watchers.pop() else {
            unreachable!()
        };
        let lane = workers.len() as u32;
        let requests = session.requests(lane);
        workers.push(Worker::Lane {
            seat,
            watcher,
            lane,
            requests,
        })?;
    }
    Ok(())
}

/// Adds the work of each server, with room for a job of each lane.
pub(crate) fn add_servers(
    alloc: Global,
    workers: &mut Vec<Worker>,
    tags: &Tags<(), Outcome>,
    cell: &StatusCell,
    seats: Vec<ServerSeat<(), Outcome>>,
) -> Result<(), AllocError>
    requires before { All (MayBegin tags.now cell.now) workers.old.items }
    requires some { 0 < length workers.old.items }
    requires seats { (servers : ℕ) × Numbered (IsFirstServer tags.now servers 0) seats.items }
    ensures some { OnOk result (0 < length workers.new.items) }
    ensures may { OnOk result (All (MayBegin tags.now cell.now) workers.new.items) }
{
    for seat in seats {
        let jobs = Vec::with_capacity(alloc, 16)?;
        workers.push(Worker::Server { seat, jobs })?;
    }
    Ok(())
}
