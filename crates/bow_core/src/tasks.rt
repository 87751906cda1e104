// What a turn does.
ghost use Rattle.std.specs.Prelude.{◌≡◌, ◌+◌, ◌^◌, ◌<◌, ◌≤◌, length, None, Some, is_some, option_copied};
ghost use Rattle.bow_units.specs.Sizes.{IsValid};
ghost use Rattle.bow_machine.specs.Requests.{Request, refusal, unsettled, has_magic};
ghost use Rattle.bow_machine.specs.MemoryIsSound.{IsAdmissible, IsWaiting, MemoryIsSound};
ghost use Rattle.bow_machine.specs.Tasks.{task_for, unless_command, unless_refused, is_waiting, needs_worker, head};
ghost use Rattle.bow_machine.specs.declared.turns.Turn.TheVariants.{Map, Worker, Command};
ghost use Rattle.bow_machine.specs.Ready.{is_ready, is_idle};
ghost use Rattle.bow_core.specs.Tasks.{task_of_request, IsReadOf, IsWriteOf};

use crate::hands::Hand;
use crate::requests::is_on_device;
use crate::state::State;
use crate::{Ticket, Turn};
use bow_queue::Request;
use bow_ranges::Ranges;
use bow_units::{Extent, Geometry, Op, Outcome, Phase};

/// What a request's turn does: nothing, an answer, one block, a flush, or a discard.
#[derive(Clone, Copy, PartialEq, Eq)]
pub(crate) enum Task {
    Waits,
    Answers(Outcome),
    WritesBlock(u64),
    ReadsBlock(u64),
    Flushes,
    Discards,
}

/// The write at the head: its extent, and how many of its blocks are done.
#[derive(Clone, Copy)]
pub(crate) struct Head {
    pub(crate) ticket: Ticket,
    pub(crate) extent: Extent,
    pub(crate) done: u32,
}

impl Head {
    /// Its next block.
    pub(crate) fn next(self) -> u64
        requires { self.extent.first + self.done < 2 ^ 64 }
        ensures { result ≡ self.extent.first + self.done }
    {
        self.extent.first + self.done as u64
    }
}

impl Task {
    /// Whether it is to do nothing.
    fn is_idle(self) -> bool
        ensures { (r : Request) → is_idle (task_of_request r self) ≡ result }
    {
        matches!(self, Task::Waits)
    }
}

/// Whether a payload begins with one of the two magics.
fn begins_magic(payload: &[u8]) -> bool
    requires { 4 ≤ length payload.now }
    ensures { result ≡ has_magic payload.now }
{
    bow_units::has_magic(payload)
}

/// In `Arming` and `Deciding` nothing but a read or a command is done.
fn unsettled(phase: Phase) -> Option<Outcome>
    ensures { result ≡ unsettled phase }
{
    match phase {
        Phase::Arming | Phase::Deciding => Some(Outcome::Unsettled(phase)),
        _ => None,
    }
}

/// Why the request is refused, by the first of the three tests that it fails.
pub(crate) fn refusal(geometry: Geometry, phase: Phase, op: &Op) -> Option<Outcome>
    requires valid { IsValid geometry }
    requires admitted { IsAdmissible geometry op.now }
    ensures { result ≡ refusal geometry phase op.now }
{
    match op {
        Op::Read(extent, _) => {
            if !is_on_device(*extent, geometry.blocks) {
                return Some(Outcome::OutOfRange);
            }
            None
        }
        Op::Write(extent, payload) => {
            if !is_on_device(*extent, geometry.blocks) {
                return Some(Outcome::OutOfRange);
            }
            if extent.first == 0 && begins_magic(payload.as_slice()) {
                return Some(Outcome::ReservedMagic);
            }
            unsettled(phase)
        }
        Op::Discard(extent) => {
            if !is_on_device(*extent, geometry.blocks) {
                return Some(Outcome::OutOfRange);
            }
            unsettled(phase)
        }
        Op::Flush => unsettled(phase),
        Op::Prepare | Op::Commit => None,
    }
}

impl<R: Ranges> State<R> {
    /// What the turn of the request does.
    pub(crate) fn task(&self, request: &Request) -> Task
        requires waiting { IsWaiting self.now.geometry request.now }
        ensures { task_of_request request.now result ≡ task_for self.now.geometry self.now.memory request.now
            request.now.op }
    {
        match &request.op {
            Op::Read(extent, _) => self.task_of_read(request, *extent),
            Op::Write(extent, _) => self.task_of_write(request, *extent),
            Op::Discard(_) => self.unless_refused(request, Task::Discards),
            Op::Flush => self.unless_refused(request, Task::Flushes),
            Op::Prepare | Op::Commit => Task::Waits,
        }
    }

    /// Nothing while a command is in hand, and a refused request is answered.
    fn unless_refused(&self, request: &Request, task: Task) -> Task
        requires waiting { IsWaiting self.now.geometry request.now }
        ensures { task_of_request request.now result ≡ unless_command self.now.memory (unless_refused request.now
            (refusal self.now.geometry self.now.memory.phase request.now.op) (task_of_request request.now task)) }
    {
        if self.has_command() {
            return Task::Waits;
        }
        match refusal(self.geometry, self.phase, &request.op) {
            Some(outcome) => Task::Answers(outcome),
            None => task,
        }
    }

    fn task_of_read(&self, request: &Request, extent: Extent) -> Task
        requires waiting { IsWaiting self.now.geometry request.now }
        requires op { IsReadOf request.now.op extent }
        ensures { task_of_request request.now result ≡ task_for self.now.geometry self.now.memory request.now
            request.now.op }
    {
        if let Some(outcome) = refusal(self.geometry, self.phase, &request.op) {
            return Task::Answers(outcome);
        }
        if request.done as u64 == extent.count {
            return Task::Answers(Outcome::Data);
        }
        Task::ReadsBlock(extent.first + request.done as u64)
    }

    fn task_of_write(&self, request: &Request, extent: Extent) -> Task
        requires waiting { IsWaiting self.now.geometry request.now }
        requires op { IsWriteOf request.now.op extent }
        ensures { task_of_request request.now result ≡ task_for self.now.geometry self.now.memory request.now
            request.now.op }
    {
        if self.has_command() {
            return Task::Waits;
        }
        if let Some(outcome) = refusal(self.geometry, self.phase, &request.op) {
            return Task::Answers(outcome);
        }
        if self.is_waiting(request) {
            return Task::Waits;
        }
        if request.done as u64 == extent.count {
            return Task::Answers(Outcome::Done);
        }
        let next = extent.first + request.done as u64;
        if !self.is_direct(next) {
            return Task::Waits;
        }
        Task::WritesBlock(next)
    }

    /// Whether an unanswered write of a smaller serial number overlaps this one.
    fn is_waiting(&self, request: &Request) -> bool
        ensures { result ≡ is_waiting self.now.memory request.now }
    {
        self.queue.waits_on(request.ticket).is_some()
    }

    /// Whether the turn of the request of this ticket makes a step.
    pub(crate) fn is_request_ready(&self, ticket: Ticket) -> bool
        requires { MemoryIsSound self.now.geometry self.now.memory }
        ensures { result ≡ is_ready self.now.geometry self.now.memory (Map ticket) }
    {
        match self.queue.request(ticket) {
            Some(request) => !self.task(request).is_idle(),
            None => false,
        }
    }

    /// Whether a turn makes a step: by the table of readiness.
    pub(crate) fn is_ready(&self, turn: Turn) -> bool
        requires { MemoryIsSound self.now.geometry self.now.memory }
        ensures { result ≡ is_ready self.now.geometry self.now.memory turn }
    {
        match turn {
            Turn::Map(ticket) => self.is_request_ready(ticket),
            Turn::Worker => self.is_worker_ready(),
            Turn::Command => self.is_command_ready(),
        }
    }

    /// Whether the worker's turn makes a step: a batch is in hand, or a write in the checkpoint needs one.
    fn is_worker_ready(&self) -> bool
        requires { MemoryIsSound self.now.geometry self.now.memory }
        ensures { result ≡ is_ready self.now.geometry self.now.memory Worker }
    {
        match &self.hand {
            Hand::Batching(_, _) => true,
            Hand::Empty => self.phase == Phase::Checkpoint && self.head().is_some(),
            Hand::Preparing(_) | Hand::Committing(_) => false,
        }
    }

    /// Whether the commands' turn makes a step: a command is in hand, or waits with nothing in hand.
    fn is_command_ready(&self) -> bool
        ensures { result ≡ is_ready self.now.geometry self.now.memory Command }
    {
        match &self.hand {
            Hand::Batching(_, _) => false,
            Hand::Empty => self.queue.first_command().is_some(),
            Hand::Preparing(_) | Hand::Committing(_) => true,
        }
    }

    /// Whether the request is a write that passed the tests, waits on no other, and whose next block is not direct.
    fn needs_worker(&self, request: &Request) -> bool
        requires waiting { IsWaiting self.now.geometry request.now }
        ensures { result ≡ needs_worker self.now.geometry self.now.memory request.now request.now.op }
    {
        match &request.op {
            Op::Write(extent, _) => self.write_needs_worker(request, *extent),
            Op::Read(_, _) | Op::Discard(_) | Op::Flush | Op::Prepare | Op::Commit => false,
        }
    }

    fn write_needs_worker(&self, request: &Request, extent: Extent) -> bool
        requires waiting { IsWaiting self.now.geometry request.now }
        requires op { IsWriteOf request.now.op extent }
        ensures { result ≡ needs_worker self.now.geometry self.now.memory request.now request.now.op }
    {
        if refusal(self.geometry, self.phase, &request.op).is_some() {
            return false;
        }
        if self.is_waiting(request) {
            return false;
        }
        if request.done as u64 >= extent.count {
            return false;
        }
        !self.is_direct(extent.first + request.done as u64)
    }

    /// Of the writes that need the worker, the one of the smallest serial number.
    pub(crate) fn head(&self) -> Option<&Request>
        requires { MemoryIsSound self.now.geometry self.now.memory }
        ensures { option_copied result ≡ head self.now.geometry self.now.memory }
    {
        for request in self.queue.iter() {
            if self.needs_worker(request) {
                return Some(request);
            }
        }
        None
    }
}
