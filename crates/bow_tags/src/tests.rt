ghost use Rattle.std.specs.Prelude.{◌≡◌, ◌+◌, ◌<◌, ◌≤◌, [], ◌∷◌, All, IfSome};
ghost use Rattle.bow_tags.specs.declared.view.Stance.TheVariants.{Idle, Posted};
ghost use Rattle.bow_tags.specs.Steps.{lane_of};
ghost use Rattle.bow_tags.specs.Rule.{new_view, fresh_lane};
ghost use Rattle.bow_tags.specs.Seats.{lanes_of, HasNotPosted};

use crate::{Fits, LaneSeat, Reply, ServerSeat, Tags};
use arrayvec::ArrayVec;
use bow_units::Outcome;
use std::alloc::{AllocError, Global};
use std::process::Abort;
use std::sync::{Mutex, Wait};
use std::test::Fail;
use std::thread;
use std::thread::Threads;

// The two elements of a vector of two.
fn both<T: Drop>(mut items: Vec<T>) -> Option<(T, T)>
    ensures { IfSome result (λ r. items.items ≡ r.0 ∷ r.1 ∷ []) }
{
    let second = items.pop()?;
    let first = items.pop()?;
    if !items.is_empty() {
        return None;
    }
    Some((first, second))
}

fn one<T: Drop>(mut items: Vec<T>) -> Option<T>
    ensures { IfSome result (λ r. items.items ≡ r ∷ []) }
{
    let first = items.pop()?;
    if !items.is_empty() {
        return None;
    }
    Some(first)
}

#[test]
fn one_number_is_taken_once_and_answered_once(rt: HostRuntime) -> Result<(), Fail> {
    let alloc = rt.alloc();
    let Ok((tags, lanes, servers)) = Tags::<(), Outcome>::open(alloc, 1, 2, 0) else {
        panic!(rt; "memory");
    };
    let Some(lane) = one(lanes) else {
        panic!(rt; "one lane");
    };
    let Some((first, second)) = both(servers) else {
        panic!(rt; "two servers");
    };
    let words = one_round(&rt, alloc, tags, lane, first, second)?;
    assert_eq!(rt; words.as_slice(), [4u64].as_slice());
    Ok(())
}

fn one_round(
    rt: &impl Abort,
    alloc: Global,
    tags: Tags<(), Outcome>,
    mut lane: LaneSeat<(), Outcome>,
    mut first: ServerSeat<(), Outcome>,
    mut second: ServerSeat<(), Outcome>,
) -> Result<ArrayVec<u64, 16>, AllocError>
    requires own { (lane.table ≡ tags) × (first.table ≡ tags) × (second.table ≡ tags) × (lanes_of tags ≡ 1) }
    requires lane { lane.view ≡ new_view 1 2 0 (fresh_lane 0 ∷ []) [] }
    requires servers { (first.view ≡ new_view 1 2 0 [] (0 ∷ [])) × (second.view ≡ new_view 1 2 0 [] (1 ∷ [])) }
{
    tags.post(&mut lane, ());
    assert_eq!(rt; tags.look(&mut first, 0), Some(0));
    let Ok((job, ())) = tags.take(&mut first, 0, 0) else {
        panic!(rt; "lost");
    };
    assert!(rt; job.lane == 0 && job.number == 0);
    let Err(lost) = tags.take(&mut second, 0, 0) else {
        panic!(rt; "taken twice");
    };
    assert_eq!(rt; lost.found, 2);
    assert!(rt; tags.poll(&mut lane).is_none());
    tags.answer(&mut first, job, Outcome::Done);
    let Some(reply) = tags.poll(&mut lane) else {
        panic!(rt; "no reply");
    };
    assert!(rt; reply.lane == 0 && reply.number == 0);
    assert_eq!(rt; reply.outcome, Outcome::Done);
    close_all(alloc, tags, lane, first, second)
}

fn close_all(
    alloc: Global,
    tags: Tags<(), Outcome>,
    lane: LaneSeat<(), Outcome>,
    first: ServerSeat<(), Outcome>,
    second: ServerSeat<(), Outcome>,
) -> Result<ArrayVec<u64, 16>, AllocError>
    requires own { (lane.table ≡ tags) × (first.table ≡ tags) × (second.table ≡ tags) × (lanes_of tags ≡ 1) }
    requires lane { ((lane_of lane.view).lane ≡ 0) × ((lane_of lane.view).stance ≡ Idle) }
    requires servers { (first.view.speaks ≡ 0 ∷ []) × (first.view.servers ≡ 2)
        × (second.view.speaks ≡ 1 ∷ []) × (second.view.servers ≡ 2) }
{
    let mut lanes = Vec::new(alloc);
    lanes.push(lane)?;
    let mut servers = Vec::new(alloc);
    servers.push(first)?;
    servers.push(second)?;
    Ok(tags.close(lanes, servers))
}

#[derive(Clone, Copy)]
struct Question(u32);

impl Fits for Question {
    ghost use Rattle.std.specs.Prelude.{◌<◌};

    ghost fits = { λ size ask. ask.0 < size };
}

// A thread's seat, of a lane or of a server, and what it counts.
#[derive(Drop)]
struct Worker {
    lane: Option<LaneSeat<Question, u32>>,
    server: Option<ServerSeat<Question, u32>>,
    number: u32,
    right: u32,
    answered: [u32; 6],
}

// Three requests, one after another: counts the replies that are the lane's own.
fn run_lane<R: Wait>(
    rt: &R,
    tags: &Tags<Question, u32>,
    seat: &mut LaneSeat<Question, u32>,
    lane: u32,
    right: &mut u32,
)
    requires own { seat.old.table ≡ tags.now }
    requires fresh { HasNotPosted 100 seat.old.view }
    requires lane { lane < 2 }
{
    for number in 0..3 {
        let question = 10 * lane + number;
        tags.post(seat, Question(question));
        let reply = receive(rt, tags, seat);
        if reply.lane == lane && reply.number == number && reply.outcome == question + 1000 {
            *right = right.saturating_add(1);
        }
    }
}

fn receive<R: Wait>(
    rt: &R,
    tags: &Tags<Question, u32>,
    seat: &mut LaneSeat<Question, u32>,
) -> Reply<u32>
    requires own { seat.old.table ≡ tags.now }
    requires posted { (lane_of seat.old.view).stance ≡ Posted }
    ensures same { (seat.new.table ≡ seat.old.table) × (seat.new.view.size ≡ seat.old.view.size) }
    ensures idle { (lane_of seat.new.view).stance ≡ Idle }
    ensures next { (lane_of seat.new.view).number ≡ (lane_of seat.old.view).number + 1 }
{
    for _ in rt.forever() {
        if let Some(reply) = tags.poll(seat) {
            return reply;
        }
        thread::yield_now();
    }
    unreachable!()
}

// Takes and answers what is posted until all is answered: counts its answers for each lane and number.
fn run_server<R: Wait>(
    rt: &R,
    tags: &Tags<Question, u32>,
    seat: &mut ServerSeat<Question, u32>,
    answered: &mut [u32; 6],
    all: &Mutex<u32>,
)
    requires own { (seat.old.table ≡ tags.now) × (lanes_of tags.now ≡ 2) }
{
    for _ in rt.forever() {
        let mut new = serve(tags, seat, 0, answered);
        new += serve(tags, seat, 1, answered);
        let mut sum = all.lock(rt);
        *sum = sum.saturating_add(new);
        if *sum >= 6 {
            return;
        }
        drop(sum);
        thread::yield_now();
    }
    unreachable!()
}

fn serve(
    tags: &Tags<Question, u32>,
    seat: &mut ServerSeat<Question, u32>,
    lane: u32,
    answered: &mut [u32; 6],
) -> u32
    requires own { seat.old.table ≡ tags.now }
    requires lane { lane < lanes_of tags.now }
    ensures same { seat.new.table ≡ seat.old.table }
    ensures few { result ≤ 1 }
{
    let Some(number) = tags.look(seat, lane) else {
        return 0;
    };
    let Ok((job, Question(question))) = tags.take(seat, lane, number) else {
        return 0;
    };
    tags.answer(seat, job, question.saturating_add(1000));
    let place = 3 * lane as usize + number as usize;
    if let Some(count) = answered.get_mut(place) {
        *count = count.saturating_add(1);
    }
    1
}

#[test]
fn two_lanes_and_two_servers_run_beside_each_other(rt: HostRuntime) -> Result<(), Fail> {
    let alloc = rt.alloc();
    let Ok((tags, lanes, servers)) = Tags::<Question, u32>::open(alloc, 2, 2, 100) else {
        panic!(rt; "memory");
    };
    let (Some((left, right)), Some((first, second))) = (both(lanes), both(servers)) else {
        panic!(rt; "four seats");
    };
    let mut workers = [
        lane_worker(&tags, left, 0),
        lane_worker(&tags, right, 1),
        server_worker(&tags, first),
        server_worker(&tags, second),
    ];
    let all = Mutex::new(0);
    run_workers(&rt, &tags, &mut workers, &all);
    assert_eq!(rt; workers[0].right, 3);
    assert_eq!(rt; workers[1].right, 3);
    for i in 0..6 {
        assert_eq!(rt;
            workers[2].answered[i].saturating_add(workers[3].answered[i]),
            1
        );
    }
    Ok(())
}

fn lane_worker(tags: &Tags<Question, u32>, seat: LaneSeat<Question, u32>, number: u32) -> Worker
    requires own { seat.table ≡ tags.now }
    requires first { seat.view ≡ new_view 2 2 100 (fresh_lane number ∷ []) [] }
    ensures number { result.number ≡ number }
    ensures lane { IfSome result.lane (λ s. (s.table ≡ tags.now) × HasNotPosted 100 s.view) }
    ensures server { IfSome result.server (λ s. s.table ≡ tags.now) }
{
    Worker {
        lane: Some(seat),
        server: None,
        number,
        right: 0,
        answered: [0; 6],
    }
}

fn server_worker(tags: &Tags<Question, u32>, seat: ServerSeat<Question, u32>) -> Worker
    requires own { seat.table ≡ tags.now }
    ensures number { result.number ≡ 0 }
    ensures lane { IfSome result.lane (λ s. (s.table ≡ tags.now) × HasNotPosted 100 s.view) }
    ensures server { IfSome result.server (λ s. s.table ≡ tags.now) }
{
    Worker {
        lane: None,
        server: Some(seat),
        number: 0,
        right: 0,
        answered: [0; 6],
    }
}

fn run_workers<R: Threads + Wait + Sync>(
    rt: &R,
    tags: &Tags<Question, u32>,
    workers: &mut [Worker],
    all: &Mutex<u32>,
)
    requires lanes { lanes_of tags.now ≡ 2 }
    requires number { All (λ w. w.number < 2) workers.old }
    requires lane { All (λ w. IfSome w.lane (λ s. (s.table ≡ tags.now) × HasNotPosted 100 s.view)) workers.old }
    requires server { All (λ w. IfSome w.server (λ s. s.table ≡ tags.now)) workers.old }
{
    thread::for_each_mut(
        rt,
        workers,
        4,
        &|_, worker| run_worker(rt, tags, worker, all),
    );
}

fn run_worker<R: Wait>(rt: &R, tags: &Tags<Question, u32>, worker: &mut Worker, all: &Mutex<u32>)
    requires lanes { lanes_of tags.now ≡ 2 }
    requires number { worker.old.number < 2 }
    requires lane { IfSome worker.old.lane (λ s. (s.table ≡ tags.now) × HasNotPosted 100 s.view) }
    requires server { IfSome worker.old.server (λ s. s.table ≡ tags.now) }
{
    if let Some(seat) = &mut worker.lane {
        run_lane(rt, tags, seat, worker.number, &mut worker.right);
    }
    if let Some(seat) = &mut worker.server {
        run_server(rt, tags, seat, &mut worker.answered, all);
    }
}
