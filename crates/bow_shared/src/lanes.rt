// What the thread of a lane does.
ghost use Rattle.std.specs.Prelude.{◌≡◌, ◌+◌, ◌<◌, ◌≤◌};
ghost use Rattle.bow_tags.specs.declared.view.Stance.TheVariants.{Idle, Posted};
ghost use Rattle.bow_tags.specs.Steps.{lane_of};

use bow_status::{StatusCell, Watcher};
use bow_tags::{LaneSeat, Reply, Tags};
use bow_units::{Gate, Outcome};
use std::sync::Wait;
use std::thread;

/// Posts so many requests, each once the one before has its reply and the gate lets it start.
pub(crate) fn run_lane<H: Wait, G: Gate>(
    rt: &H,
    tags: &Tags<(), Outcome>,
    cell: &StatusCell,
    seat: &mut LaneSeat<(), Outcome>,
    watcher: &mut Watcher,
    lane: u32,
    requests: u32,
    gate: &G,
)
    requires own { seat.old.table ≡ tags.now }
    requires idle { (lane_of seat.old.view).stance ≡ Idle }
    requires first { (lane_of seat.old.view).number ≡ 0 }
    requires cell { watcher.old.cell ≡ cell.now }
    ensures same { seat.new.table ≡ seat.old.table }
    ensures idle { (lane_of seat.new.view).stance ≡ Idle }
    ensures done { (lane_of seat.new.view).number ≡ requests }
{
    for number in 0..requests {
        pass(rt, cell, watcher, lane, number, gate);
        tags.post(seat, ());
        receive(rt, tags, seat);
    }
}

// Asks the gate, each time with the status that the lane then sees, until it says true.
fn pass<H: Wait, G: Gate>(
    rt: &H,
    cell: &StatusCell,
    watcher: &mut Watcher,
    lane: u32,
    number: u32,
    gate: &G,
)
    requires cell { watcher.old.cell ≡ cell.now }
    ensures cell { watcher.new.cell ≡ watcher.old.cell }
{
    for _ in rt.forever() {
        let seen = cell.look(rt, watcher);
        if gate.may_start(lane, number, seen) {
            return;
        }
        thread::yield_now();
    }
    unreachable!()
}

// Polls until the reply is there.
fn receive<H: Wait>(
    rt: &H,
    tags: &Tags<(), Outcome>,
    seat: &mut LaneSeat<(), Outcome>,
) -> Reply<Outcome>
    requires own { seat.old.table ≡ tags.now }
    requires posted { (lane_of seat.old.view).stance ≡ Posted }
    ensures same { seat.new.table ≡ seat.old.table }
    ensures idle { (lane_of seat.new.view).stance ≡ Idle }
    ensures next { (lane_of seat.new.view).number ≡ (lane_of seat.old.view).number + 1 }
{
    for _ in rt.forever() {
        if let Some(reply) = tags.poll(seat) {
            return reply;
        }
        thread::yield_now();
    }
    unreachable!()
}
