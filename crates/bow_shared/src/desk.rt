// What the threads share under one lock: the session, and the right to publish its status.
ghost use Rattle.std.specs.Prelude.{◌≡◌, ◌+◌, ◌-◌, ◌^◌, ◌<◌, ◌≤◌, [], IfSome};
ghost use Rattle.bow_status.specs.Rising.{newest};
ghost use Rattle.bow_tags.specs.Steps.{HoldsJob};
ghost use Rattle.bow_history.specs.declared.items.Item.TheVariants.{Answered};
ghost use Rattle.bow_history.specs.Promises.{held};
ghost use Rattle.bow_shared.specs.Desks.{GoesOnFrom, HasAnswer, IsCounted, IsPublished};
ghost use Rattle.bow_shared.specs.Serving.{IsServed};

use crate::naming::Naming;
use bow_disk::Disk;
use bow_ranges::Ranges;
use bow_session::{Actor, Item, Session};
use bow_status::{Publisher, StatusCell};
use bow_tags::{Job, ServerSeat, Tags};
use bow_units::{Outcome, Seen, Status};
use std::marker::{Model, PhantomData};
use std::sync::Wait;

/// What came of a job in one hold of the lock.
#[derive(Drop)]
pub(crate) enum Served {
    /// It is answered.
    Answered,
    /// A step was made, and it is not answered yet.
    Stepped(Job),
    /// No step could be made for it.
    Waiting(Job),
}

/// The session with the publisher of its status. It keeps that the session is a run since it was loaded, and that what
/// was published last is the number of the steps of this run, with the session's present status.
pub(crate) struct Desk<J: Naming<D>, D: Disk, R: Ranges> {
    session: Session<D, R>,
    publisher: Publisher,
    steps: u64,
    of: PhantomData<J>,
}

impl<J: Naming<D>, D: Disk, R: Ranges> Model for Desk<J, D, R> {
    ghost use Rattle.std.specs.Prelude.{◌≡◌};
    ghost use Rattle.bow_session.specs.Sessions.{Run};
    ghost use Rattle.bow_shared.specs.Desks.{GoesOnFrom, IsCounted, IsPublished};

    ghost Value = { Run D };

    ghost view = { λ d. d.session };

    ghost invariant = { λ d. GoesOnFrom D.stated D.content D.moment D.left_since D.faults J.loaded J.script J.sizes
        d.session × IsCounted D.stated D.content D.faults J.begun d.steps d.session
        × IsPublished d.session d.steps d.publisher.sent × (d.publisher.cell ≡ J.cell) };
}

impl<J: Naming<D>, D: Disk, R: Ranges> Desk<J, D, R> {
    /// A desk before its first step.
    pub(crate) fn new(session: Session<D, R>, publisher: Publisher) -> Desk<J, D, R>
        requires run { GoesOnFrom D.stated D.content D.moment D.left_since D.faults J.loaded J.script J.sizes session }
        requires counted { IsCounted D.stated D.content D.faults J.begun 0 session }
        requires cell { publisher.cell ≡ J.cell }
        requires fresh { publisher.sent ≡ [] }
    {
        Desk {
            session,
            publisher,
            steps: 0,
            of: PhantomData,
        }
    }

    /// Makes one step for a job that the seat holds, if its request is not answered yet. Once it is, what the journal
    /// tells of it is put into the tags; before then the job comes back.
    pub(crate) fn serve<H: Wait>(
        &mut self,
        rt: &H,
        cell: &StatusCell,
        tags: &Tags<(), Outcome>,
        seat: &mut ServerSeat<(), Outcome>,
        job: Job,
    ) -> Served
        requires cell { cell.now ≡ J.cell }
        requires own { seat.old.table ≡ tags.now }
        requires holds { HoldsJob seat.old.view job.lane job.number }
        ensures same { seat.new.table ≡ seat.old.table }
        ensures served { IsServed result job seat.old.view seat.new.view self.new.journal }
    {
        if let Some(outcome) = self.outcome(job.lane, job.number) {
            tags.answer(seat, job, outcome);
            return Served::Answered;
        }
        if !self.step(rt, cell, job.lane) {
            return Served::Waiting(job);
        }
        let Some(outcome) = self.outcome(job.lane, job.number) else {
            return Served::Stepped(job);
        };
        tags.answer(seat, job, outcome);
        Served::Answered
    }

    // One step: of the lane, or else of the device's copying, or of the command that it has in hand.
    fn step<H: Wait>(&mut self, rt: &H, cell: &StatusCell, lane: u32) -> bool
        requires { cell.now ≡ J.cell }
    {
        self.step_by(rt, cell, Actor::Lane(lane))
            || self.step_by(rt, cell, Actor::Worker)
            || self.step_by(rt, cell, Actor::Command)
    }

    // One step of the actor, and its status is published. False where the actor is not ready.
    fn step_by<H: Wait>(&mut self, rt: &H, cell: &StatusCell, actor: Actor) -> bool
        requires { cell.now ≡ J.cell }
    {
        if !self.session.step(actor) {
            return false;
        }
        let status = self.session.status();
        self.steps = publish_next(rt, cell, &mut self.publisher, self.steps, status);
        true
    }

    // The outcome of a request, once it is answered.
    fn outcome(&self, lane: u32, number: u32) -> Option<Outcome>
        ensures { IfSome result (λ outcome. HasAnswer self.now.journal lane number outcome) }
    {
        if self.session.answered(lane) <= number {
            return None;
        }
        last_answer(self.session.journal(), lane, number)
    }

    /// Gives the session back.
    pub(crate) fn into_session(self) -> Session<D, R>
        ensures same { result ≡ self }
        ensures run { GoesOnFrom D.stated D.content D.moment D.left_since D.faults J.loaded J.script J.sizes result }
    {
        let Desk {
            session,
            publisher: _,
            steps: _,
            of: _,
        } = self;
        session
    }
}

// Counts the step, and publishes its status under its number. The last number is not published.
fn publish_next<H: Wait>(
    rt: &H,
    cell: &StatusCell,
    publisher: &mut Publisher,
    steps: u64,
    status: Status,
) -> u64
    requires own { publisher.old.cell ≡ cell.now }
    requires below { (newest publisher.old.sent).version ≤ steps }
    ensures same { publisher.new.cell ≡ publisher.old.cell }
    ensures next { result ≡ held (steps + 1) }
    ensures below { (newest publisher.new.sent).version ≤ result }
    ensures last { result < 2 ^ 64 - 1 → newest publisher.new.sent ≡ record { version = result; status = status } }
{
    if steps >= u64::MAX - 1 {
        return u64::MAX;
    }
    let version = steps + 1;
    cell.publish(rt, publisher, Seen { version, status });
    version
}

// The last outcome that the journal tells of a request.
fn last_answer(journal: &[Item], lane: u32, number: u32) -> Option<Outcome>
    ensures { IfSome result (λ outcome. HasAnswer journal.now lane number outcome) }
{
    let mut left = journal.len();
    while left > 0 {
        left -= 1;
        if let Some(outcome) = answer_in(journal[left], lane, number) {
            return Some(outcome);
        }
    }
    None
}

// The outcome that an item tells of a request.
fn answer_in(item: Item, lane: u32, number: u32) -> Option<Outcome>
    ensures { IfSome result (λ outcome. item ≡ Answered lane number outcome) }
{
    match item {
        Item::Answered {
            lane: of,
            number: at,
            outcome,
        } if of == lane && at == number => Some(outcome),
        _ => None,
    }
}
