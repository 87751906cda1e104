// A session is run by threads.
ghost use Rattle.std.specs.Prelude.{◌≡◌, ◌<◌, ◌≤◌, [], All, length, IfOk, IfErr};
ghost use Rattle.bow_flat.specs.Flat.{Flat};
ghost use Rattle.bow_guard.specs.Standing.{StandsFor};
ghost use Rattle.bow_core.specs.Further.{LedIn};
ghost use Rattle.bow_core.specs.Views.{View};
ghost use Rattle.bow_history.specs.Complete.{IsComplete};
ghost use Rattle.bow_history.specs.DiskCuts.{StandsAheadToo};
ghost use Rattle.bow_history.specs.Fits.{Agrees};
ghost use Rattle.bow_session.specs.Leads.{BeginsAt, FaultsAreCounted, LeadsFrom, StaysBelow, WasLoaded};
ghost use Rattle.bow_session.specs.Requests.{lanes_of as lanes_in};
ghost use Rattle.bow_session.specs.Sessions.{IsOver, plan_in, state_in};
ghost use Rattle.bow_tags.specs.Seats.{lanes_of};
ghost use Rattle.bow_shared.specs.Desks.{GoesOnFrom, IsCounted};
ghost use Rattle.bow_shared.specs.Ends.{IsPlayedOut};
ghost use Rattle.bow_shared.specs.Works.{MayBegin, HasEnded};

use crate::desk::Desk;
use crate::naming::Naming;
use crate::workers::{Worker, add_lanes, add_servers, work};
use bow_disk::Disk;
use bow_ranges::Ranges;
use bow_session::Session;
use bow_status::{Publisher, StatusCell};
use bow_tags::Tags;
use bow_units::{Gate, NoMemory, Outcome};
use std::alloc::Global;
use std::marker::Brand;
use std::sync::atomic::AtomicU64;
use std::sync::{Mutex, Wait};
use std::thread;
use std::thread::Threads;

/// Plays a session to its end by threads: one for each of its lanes, and 1 to 8 that serve them. Before a lane posts a
/// request it asks the gate, each time with the status that it sees then, until the gate lets it start; and it goes on
/// once it has its reply. A server takes every posted request that it sees, and makes steps for those that it holds,
/// each in one hold of the lock, in which its status is published under its number. What a reply tells is what the
/// journal tells of that request. The session that comes back is over. It may wait for as long as the gate says no.
/// `NoMemory` comes before any step.
pub fn run<H: Threads + Wait + Sync, D: Disk + Send, R: Ranges + Send, G: Gate + Sync>(
    rt: &H,
    alloc: Global,
    session: Session<D, R>,
    servers: u32,
    gate: &G,
) -> Result<Session<D, R>, (Session<D, R>, NoMemory)>
    requires servers { (1 ≤ servers) × (servers ≤ 8) }
    requires lanes { 1 ≤ lanes_in session.script }
    ensures over { IfOk result (λ s. IsOver s) }
    ensures script { IfOk result (λ s. (s.script ≡ session.script) × (s.core.geometry ≡ session.core.geometry)) }
    ensures idle { IfOk result (λ s. s.core.memory.requests ≡ []) }
    ensures buffers { IfOk result (λ s. Agrees (plan_in s) (state_in s) (state_in s).kept) }
    ensures loaded { IfOk result (λ s. (first : View D)
        → WasLoaded D.stated D.content D.moment D.left_since D.faults first session
        → WasLoaded D.stated D.content D.moment D.left_since D.faults first s) }
    ensures complete { IfOk result (λ s. (first : View D)
        → WasLoaded D.stated D.content D.moment D.left_since D.faults first session
        → IsComplete (plan_in s) s.journal) }
    ensures faults { IfOk result (λ s. (first : View D)
        → WasLoaded D.stated D.content D.moment D.left_since D.faults first session
        → FaultsAreCounted D.faults first s) }
    ensures leads { IfOk result (λ s. (first : View D) (f : Flat)
        → WasLoaded D.stated D.content D.moment D.left_since D.faults first session
        → BeginsAt D.content (plan_in session) first f
        → LeadsFrom D.content D.moment D.left_since (StandsFor s.core.geometry) first f s) }
    ensures ahead { IfOk result (λ s. (first : View D) (f : Flat)
        → WasLoaded D.stated D.content D.moment D.left_since D.faults first session
        → BeginsAt D.content (plan_in session) first f → LedIn D.content first f
        → StaysBelow (D.faults first.disk) (D.faults s.core.disk)
        → LeadsFrom D.content D.moment D.left_since (StandsAheadToo s.core.geometry) first f s) }
    ensures kept { IfErr result (λ e. e.0 ≡ session) }
{
    let lanes = session.lanes();
    let Ok((tags, lane_seats, server_seats)) = Tags::<(), Outcome>::open(alloc, lanes, servers, 0)
    else {
        return Err((session, NoMemory));
    };
    let Ok((cell, publisher, watchers)) = StatusCell::open(alloc, lanes) else {
        return Err((session, NoMemory));
    };
    let mut workers = Vec::new(alloc);
    if add_lanes(&mut workers, &session, &tags, &cell, lane_seats, watchers).is_err() {
        return Err((session, NoMemory));
    }
    if add_servers(alloc, &mut workers, &tags, &cell, server_seats).is_err() {
        return Err((session, NoMemory));
    }
    Ok(run_workers(
        rt,
        session,
        publisher,
        &tags,
        &cell,
        workers.as_mut_slice(),
        lanes,
        gate,
    ))
}

// Runs the workers over the session until each has ended.
fn run_workers<H: Threads + Wait + Sync, D: Disk + Send, R: Ranges + Send, G: Gate + Sync>(
    rt: &H,
    session: Session<D, R>,
    publisher: Publisher,
    tags: &Tags<(), Outcome>,
    cell: &StatusCell,
    workers: &mut [Worker],
    lanes: u32,
    gate: &G,
) -> Session<D, R>
    requires workers { All (MayBegin tags.now cell.now) workers.old }
    requires some { 0 < length workers.old }
    requires lanes { lanes ≤ lanes_of tags.now }
    requires publisher { (publisher.cell ≡ cell.now) × (publisher.sent ≡ []) }
    ensures played { IsPlayedOut D.stated D.content D.moment D.left_since D.faults result }
    ensures script { (result.script ≡ session.script) × (result.core.geometry ≡ session.core.geometry) }
    ensures loaded { (first : View D) → WasLoaded D.stated D.content D.moment D.left_since D.faults first session
        → WasLoaded D.stated D.content D.moment D.left_since D.faults first result }
    ensures workers { All (HasEnded tags.now) workers.new }
{
    run_named::<Brand, H, D, R, G>(rt, session, publisher, tags, cell, workers, lanes, gate)
}

// Runs them over the session with which the run named here began.
fn run_named<
    J: Naming<D> + Send + Sync,
    H: Threads + Wait + Sync,
    D: Disk + Send,
    R: Ranges + Send,
    G: Gate + Sync,
>(
    rt: &H,
    session: Session<D, R>,
    publisher: Publisher,
    tags: &Tags<(), Outcome>,
    cell: &StatusCell,
    workers: &mut [Worker],
    lanes: u32,
    gate: &G,
) -> Session<D, R>
    requires run { GoesOnFrom D.stated D.content D.moment D.left_since D.faults J.loaded J.script J.sizes session }
    requires counted { IsCounted D.stated D.content D.faults J.begun 0 session }
    requires cell { (cell.now ≡ J.cell) × (publisher.cell ≡ J.cell) × (publisher.sent ≡ []) }
    requires workers { All (MayBegin tags.now cell.now) workers.old }
    requires some { 0 < length workers.old }
    requires lanes { lanes ≤ lanes_of tags.now }
    ensures played { IsPlayedOut D.stated D.content D.moment D.left_since D.faults result }
    ensures run { GoesOnFrom D.stated D.content D.moment D.left_since D.faults J.loaded J.script J.sizes result }
    ensures workers { All (HasEnded tags.now) workers.new }
{
    let replies = AtomicU64::new(replies_in(&session, lanes));
    let desk: Mutex<Desk<J, D, R>> = Mutex::new(Desk::new(session, publisher));
    let (left, shared) = (&replies, &desk);
    let threads = workers.len();
    thread::for_each_mut(
        rt,
        workers,
        threads,
        &|_, worker| work(rt, tags, cell, worker, lanes, gate, left, shared),
    );
    over(rt, desk)
}

// How many requests the first so many lanes have.
fn replies_in<D: Disk, R: Ranges>(session: &Session<D, R>, lanes: u32) -> u64 {
    let mut replies: u64 = 0;
    for lane in 0..lanes {
        replies = replies.saturating_add(session.requests(lane) as u64);
    }
    replies
}

// The session, once it is over.
fn over<J: Naming<D>, H: Wait, D: Disk, R: Ranges>(
    rt: &H,
    desk: Mutex<Desk<J, D, R>>,
) -> Session<D, R>
    ensures played { IsPlayedOut D.stated D.content D.moment D.left_since D.faults result }
    ensures run { GoesOnFrom D.stated D.content D.moment D.left_since D.faults J.loaded J.script J.sizes result }
{
    let session = desk.into_inner().into_session();
    for _ in rt.forever() {
        if session.over() {
            // A look at the journal, for what its contract says of the run.
            session.journal();
            return session;
        }
        thread::yield_now();
    }
    unreachable!()
}
