// The parts of a session at work: the device, the script, and what is kept beside them.
ghost use Rattle.std.specs.Prelude.{◌≡◌, ◌+◌, ◌<◌, ◌≤◌, ℕ, List, length, true, false, None, Some};
ghost use Rattle.std.specs.Option.{option_map};
ghost use Rattle.bow_history.specs.declared.items.Actor.{Actor};
ghost use Rattle.bow_history.specs.declared.items.Actor.TheVariants.{Lane};
ghost use Rattle.bow_history.specs.Ready.{is_actor_ready};
ghost use Rattle.bow_history.specs.Sessions.{Turned, turn_of, IsActor};
ghost use Rattle.bow_session.specs.Sessions.{plan_in, state_in};
ghost use Rattle.bow_session.specs.Turns.{IsOneTurn, StepsBy};
ghost use Rattle.bow_session.specs.Plays.{Plays};
ghost use Rattle.bow_session.specs.Requests.{lanes_of, requests_in};
ghost use Rattle.bow_history.specs.Journal.{Plan};
ghost use Rattle.bow_history.specs.Ends.{actor_in, turns_left};
ghost use Rattle.bow_machine.specs.Ready.{is_ready};
ghost use Rattle.bow_history.specs.Schedule.{actor_at, drawn, next_round};
ghost use Rattle.bow_units.specs.Draws.{next_number};
ghost use Rattle.std.specs.List.{list_all};

use crate::lines::line_of;
use crate::payloads::request;
use crate::records::Records;
use crate::seats::{Asked, Hand, are_over, first_block, is_from, lent_blocks};
use bow_core::{Core, Step, Turn};
use bow_disk::Disk;
use bow_history::Actor;
use bow_ranges::Ranges;
use bow_script::Script;
use bow_units::Draws;

#[derive(Drop)]
pub(crate) struct Desk<D: Disk, R: Ranges> {
    pub(crate) core: Core<D, R>,
    pub(crate) script: Script,
    pub(crate) records: Records,
}

impl<D: Disk, R: Ranges + Drop> Desk<D, R> {
    ghost use Rattle.bow_session.specs.Desks.{Fits, run_of};
    ghost use Rattle.bow_session.specs.Seats.{is_over};

    // Whether the actor makes a step.
    pub(crate) fn is_ready(&self, actor: Actor) -> bool
        requires fits { Fits self.now }
        ensures { result ≡ is_actor_ready (plan_in (run_of self.now)) (state_in (run_of self.now)) actor }
    {
        match actor {
            Actor::Lane(lane) => self.is_lane_ready(lane as usize),
            Actor::Worker => self.core.ready(Turn::Worker),
            Actor::Command => self.core.ready(Turn::Command),
        }
    }

    // A lane does whose request the device can carry on, or whose next request is of the present section.
    fn is_lane_ready(&self, lane: usize) -> bool
        requires fits { Fits self.now }
        ensures { result ≡ is_actor_ready (plan_in (run_of self.now)) (state_in (run_of self.now)) (Lane lane) }
    {
        if lane >= self.records.seats.len() {
            return false;
        }
        let seat = &self.records.seats[lane];
        if let Some(hand) = seat.hand {
            return self.core.ready(Turn::Map(hand.ticket));
        }
        match seat.section() {
            Some(section) => is_from(&self.records.seats, section),
            None => false,
        }
    }

    // Makes steps until all requests are answered, each of the actor who is drawn.
    pub(crate) fn finish(&mut self, number: u64)
        requires { Fits self.old }
        ensures fits { Fits self.new }
        ensures over { list_all is_over self.new.records.seats.items ≡ true }
        ensures plays { (turns : List Turned) × Plays D.stated D.content D.moment D.left_since D.faults number (run_of
            self.old) turns (run_of self.new) }
    {
        let mut draws = Draws::new(number);
        while !are_over(&self.records.seats) {
            self.turn(&mut draws);
        }
    }

    // One step, of the actor who is drawn: of the first ready one from a drawn number on, going round.
    pub(crate) fn turn(&mut self, draws: &mut Draws)
        requires fits { Fits self.old }
        requires left { list_all is_over self.old.records.seats.items ≡ false }
        ensures fits { Fits self.new }
        ensures number { draws.new ≡ next_number draws.old }
        ensures turn { (turn : Turned) × (actor_in turn ≡ drawn (plan_in (run_of self.old)) (state_in (run_of self.old))
            draws.old) × IsOneTurn D.stated D.content D.moment D.left_since D.faults (run_of self.old) turn (run_of
            self.new) }
        ensures fewer { turns_left (plan_in (run_of self.new)) (requests_in self.new.script) (state_in (run_of
            self.new)) < turns_left (plan_in (run_of self.old)) (requests_in self.old.script) (state_in (run_of
            self.old)) }
    {
        let lanes = self.records.seats.len() as u32;
        let mut left = lanes + 2;
        let mut number = draws.draw(left);
        while left > 0 {
            if self.attempt(actor_at(lanes, number)) {
                return;
            }
            number = after_actor(lanes, number);
            left -= 1;
        }
        // A whole round leads to the first again.
        self.step(actor_at(lanes, number));
    }

    // One step of an actor that is ready.
    pub(crate) fn step(&mut self, actor: Actor)
        requires fits { Fits self.old }
        requires ready { is_actor_ready (plan_in (run_of self.old)) (state_in (run_of self.old)) actor ≡ true }
        ensures fits { Fits self.new }
        ensures turn { StepsBy D.stated D.content D.moment D.left_since D.faults (run_of self.old) actor (run_of
            self.new) }
    {
        let _made = self.attempt(actor);
    }

    // One step of the actor, where it is ready: the device looks at that once. It is `false` exactly where it is not,
    // and then nothing changes.
    fn attempt(&mut self, actor: Actor) -> bool
        requires fits { Fits self.old }
        ensures fits { Fits self.new }
        ensures ready { result ≡ is_actor_ready (plan_in (run_of self.old)) (state_in (run_of self.old)) actor }
        ensures idle { result ≡ false → self.new ≡ self.old }
        ensures turn { result ≡ true → StepsBy D.stated D.content D.moment D.left_since D.faults (run_of self.old) actor
            (run_of self.new) }
    {
        match actor {
            Actor::Lane(lane) => self.attempt_lane(lane as usize),
            Actor::Worker => self.attempt_turn(Turn::Worker),
            Actor::Command => self.attempt_turn(Turn::Command),
        }
    }

    // The lane's request goes on, or its next one is taken in.
    fn attempt_lane(&mut self, lane: usize) -> bool
        requires fits { Fits self.old }
        ensures fits { Fits self.new }
        ensures ready { result ≡ is_actor_ready (plan_in (run_of self.old)) (state_in (run_of self.old)) (Lane lane) }
        ensures idle { result ≡ false → self.new ≡ self.old }
        ensures turn { result ≡ true → StepsBy D.stated D.content D.moment D.left_since D.faults (run_of self.old)
            (Lane lane) (run_of self.new) }
    {
        if lane >= self.records.seats.len() {
            return false;
        }
        let seat = &self.records.seats[lane];
        match seat.hand {
            Some(hand) => self.attempt_turn(Turn::Map(hand.ticket)),
            None => self.attempt_next(lane),
        }
    }

    // The lane's next request is taken in, where it is of the present section.
    fn attempt_next(&mut self, lane: usize) -> bool
        requires fits { Fits self.old }
        requires free { (state_in (run_of self.old)).hand lane ≡ None }
        ensures fits { Fits self.new }
        ensures ready { result ≡ is_actor_ready (plan_in (run_of self.old)) (state_in (run_of self.old)) (Lane lane) }
        ensures idle { result ≡ false → self.new ≡ self.old }
        ensures turn { result ≡ true → StepsBy D.stated D.content D.moment D.left_since D.faults (run_of self.old)
            (Lane lane) (run_of self.new) }
    {
        if !self.is_lane_ready(lane) {
            return false;
        }
        self.admit_next(lane);
        true
    }

    // The device takes the lane's next request in.
    fn admit_next(&mut self, lane: usize)
        requires fits { Fits self.old }
        requires ready { is_actor_ready (plan_in (run_of self.old)) (state_in (run_of self.old)) (Lane lane) ≡ true }
        requires free { (state_in (run_of self.old)).hand lane ≡ None }
        ensures fits { Fits self.new }
        ensures turn { StepsBy D.stated D.content D.moment D.left_since D.faults (run_of self.old) (Lane lane) (run_of
            self.new) }
    {
        let geometry = self.core.geometry();
        let seat = &mut self.records.seats[lane];
        let Some(line) = line_of(&self.script, lane, seat.answered.len()) else {
            return;
        };
        let Some(asked) = seat.pending.pop_front() else {
            return;
        };
        let Asked { section, buffer } = asked;
        let Some(op) = request(line, buffer, &mut seat.buffers, geometry) else {
            return;
        };
        let first = first_block(&op);
        let lent = lent_blocks(&op);
        let ticket = self.core.admit(op);
        seat.hand = Some(Hand {
            ticket,
            section,
            first,
            lent,
        });
    }

    // The device makes one step, where the turn is ready, and what it told is noted.
    fn attempt_turn(&mut self, turn: Turn) -> bool
        requires fits { Fits self.old }
        requires actor { (actor : Actor) × IsActor (plan_in (run_of self.old)) (state_in (run_of self.old)) actor
            × (turn_of (state_in (run_of self.old)) actor ≡ Some turn) }
        ensures fits { Fits self.new }
        ensures ready { result ≡ is_ready self.old.core.geometry self.old.core.memory turn }
        ensures idle { result ≡ false → self.new ≡ self.old }
        ensures turn { result ≡ true → (actor : Actor) → IsActor (plan_in (run_of self.old)) (state_in (run_of
            self.old)) actor → turn_of (state_in (run_of self.old)) actor ≡ Some turn
            → StepsBy D.stated D.content D.moment D.left_since D.faults (run_of self.old) actor (run_of self.new) }
    {
        let told = self.core.step(turn);
        if matches!(told, Step::Idle) {
            return false;
        }
        let calls = self.core.calls();
        self.records.note(told, calls);
        true
    }
}

/// The actor of a number: the lanes, then the worker, then the commands.
pub fn actor_at(lanes: u32, number: u32) -> Actor
    requires { lanes ≤ 16 }
    ensures { (plan : Plan) → plan.lanes ≡ lanes → result ≡ actor_at plan number }
{
    if number < lanes {
        return Actor::Lane(number);
    }
    if number == lanes {
        return Actor::Worker;
    }
    Actor::Command
}

// The number of the next actor, going round.
fn after_actor(lanes: u32, number: u32) -> u32
    requires lanes { lanes ≤ 16 }
    requires inside { number ≤ lanes + 1 }
    ensures next { (plan : Plan) → plan.lanes ≡ lanes → result ≡ next_round plan number }
    ensures inside { result ≤ lanes + 1 }
{
    if number == lanes + 1 {
        return 0;
    }
    number + 1
}
