// A step of a request.
ghost use Rattle.std.specs.Prelude.{◌≡◌, ◌+◌, ◌*◌, ◌<◌, ◌≤◌, length, Some, IsSome, false, ℕ, []};
ghost use Rattle.bow_machine.specs.Calls.{WriteCall};
ghost use Rattle.bow_machine.specs.Memory.{place_of};
ghost use Rattle.bow_machine.specs.Requests.{request_of, with_request};
ghost use Rattle.bow_machine.specs.Steps.{above_0, answered_for, kinds_discarded, next_block, payload_of};
ghost use Rattle.bow_machine.specs.Steps.{extent_of as extent_in};
ghost use Rattle.bow_machine.specs.Tasks.{task_of, WritesBlock, ReadsBlock, FlushesFor};
ghost use Rattle.bow_machine.specs.declared.turns.Turn.TheVariants.{Map};
ghost use Rattle.bow_core.specs.Calls.{reply_of};
ghost use Rattle.bow_core.specs.Held.{with_memory};
ghost use Rattle.bow_core.specs.Ports.{Makes};
ghost use Rattle.bow_queue.specs.Requests.{the_request, one_done};
ghost use Rattle.bow_core.specs.Steps.{Does, IsInOrder};
ghost use Rattle.bow_core.specs.Turns.{told_of};
ghost use Rattle.bow_core.specs.Tasks.{IsWriteOf};
ghost use Rattle.bow_core.specs.Inside.{is_saved};
ghost use Rattle.bow_ranges.specs.Kinds.{kind_at};

use crate::Ticket;
use crate::ports::Port;
use crate::requests::extent_of;
use crate::slots::read_block;
use crate::state::{State, run};
use crate::tasks::Task;
use crate::turns::Step;
use bow_disk::Disk;
use bow_queue::Request;
use bow_ranges::Ranges;
use bow_units::{Extent, Failed, Kind, Op, Outcome, Phase};

/// The step of a request's turn.
pub(crate) fn map_step<D: Disk, R: Ranges>(
    port: &mut Port<D>,
    state: &mut State<R>,
    ticket: Ticket,
) -> Step
    requires order { IsInOrder D.stated port.old state.old }
    ensures { Does D.stated D.content D.moment D.left_since D.faults port.old state.old
        (task_of state.old.geometry state.old.memory (Map ticket)) result port.new state.new }
{
    let Some(request) = state.queue.request(ticket) else {
        return Step::Idle;
    };
    let task = state.task(request);
    let done = request.done;
    let extent = extent_of(&request.op);
    match task {
        Task::Waits => Step::Idle,
        Task::Answers(outcome) => state.answer(ticket, outcome),
        Task::WritesBlock(block) => write_next(port, state, ticket, block, done),
        Task::ReadsBlock(block) => read_next(port, state, ticket, block, done),
        Task::Flushes => flush_for(port, state, ticket),
        Task::Discards => {
            state.discard(extent);
            state.answer(ticket, Outcome::Done)
        }
    }
}

/// Writes the next block of a write, which is direct.
fn write_next<D: Disk, R: Ranges>(
    port: &mut Port<D>,
    state: &mut State<R>,
    ticket: Ticket,
    block: u64,
    done: u32,
) -> Step
    requires order { IsInOrder D.stated port.old state.old }
    requires number { (the_request ticket state.old.memory.requests).done ≡ done }
    requires task { task_of state.old.geometry state.old.memory (Map ticket) ≡ WritesBlock (the_request ticket
        state.old.memory.requests) block }
    ensures { Does D.stated D.content D.moment D.left_since D.faults port.old state.old
        (task_of state.old.geometry state.old.memory (Map ticket)) result port.new state.new }
{
    let place = state.place_of(block);
    let wrote = write_payload(port, state, ticket, place);
    state.mark_written(block);
    match wrote {
        Ok(()) => {
            state.go_on(ticket);
            Step::Wrote {
                ticket,
                index: done,
            }
        }
        Err(Failed) => state.answer(ticket, Outcome::DiskFault { done }),
    }
}

/// Writes the next block of the write's payload to this place.
fn write_payload<D: Disk, R: Ranges>(
    port: &mut Port<D>,
    state: &State<R>,
    ticket: Ticket,
    place: u64,
) -> Result<(), Failed>
    requires sizes { D.stated port.old.disk ≡ Some state.now.geometry }
    requires inside { place < state.now.geometry.blocks }
    requires waits { IsSome (request_of ticket state.now.memory.requests) }
    requires op { IsWriteOf (the_request ticket state.now.memory.requests).op (extent_in (the_request ticket
        state.now.memory.requests).op) }
    requires few { (the_request ticket state.now.memory.requests).done < 16 }
    requires room { ((the_request ticket state.now.memory.requests).done + 1) * state.now.geometry.block_size ≤
        length (payload_of (the_request ticket state.now.memory.requests).op) }
    ensures { Makes D.stated D.content D.moment D.left_since D.faults state.now.geometry (Some (WriteCall place
        (next_block state.now.geometry (the_request ticket state.now.memory.requests)))) (reply_of result)
        port.old.disk port.new.disk port.old.calls port.new.calls }
{
    let size = state.size();
    let Some(request) = state.queue.request(ticket) else {
        unreachable!()
    };
    let Op::Write(_, payload) = &request.op else {
        unreachable!()
    };
    let start = request.done as usize * size;
    port.write(place, &payload.as_slice()[start..start + size])
}

/// Reads the next block of a read. It is read into a block of the device's own, since a read that fails may leave
/// anything there.
fn read_next<D: Disk, R: Ranges>(
    port: &mut Port<D>,
    state: &mut State<R>,
    ticket: Ticket,
    block: u64,
    done: u32,
) -> Step
    requires order { IsInOrder D.stated port.old state.old }
    requires number { (the_request ticket state.old.memory.requests).done ≡ done }
    requires task { task_of state.old.geometry state.old.memory (Map ticket) ≡ ReadsBlock (the_request ticket
        state.old.memory.requests) block }
    ensures { Does D.stated D.content D.moment D.left_since D.faults port.old state.old
        (task_of state.old.geometry state.old.memory (Map ticket)) result port.new state.new }
{
    let place = state.place_of(block);
    match read_block(port, &mut state.block, place) {
        Ok(()) => {
            state.queue.fill(ticket, &state.block);
            Step::Got {
                ticket,
                index: done,
            }
        }
        Err(Failed) => state.answer(ticket, Outcome::DiskFault { done }),
    }
}

/// One flush of the disk.
fn flush_for<D: Disk, R: Ranges>(port: &mut Port<D>, state: &mut State<R>, ticket: Ticket) -> Step
    requires order { IsInOrder D.stated port.old state.old }
    requires task { task_of state.old.geometry state.old.memory (Map ticket) ≡ FlushesFor (the_request ticket
        state.old.memory.requests) }
    ensures { Does D.stated D.content D.moment D.left_since D.faults port.old state.old
        (task_of state.old.geometry state.old.memory (Map ticket)) result port.new state.new }
{
    match port.flush() {
        Ok(()) => state.answer(ticket, Outcome::Done),
        Err(Failed) => state.answer(ticket, Outcome::DiskFault { done: 0 }),
    }
}

/// The extent without block 0.
fn above_0(extent: Extent) -> Extent
    ensures { result ≡ above_0 extent }
{
    if extent.first == 0 {
        run(1, extent.count.saturating_sub(1))
    } else {
        extent
    }
}

impl<R: Ranges> State<R> {
    /// One block more of the request is done.
    fn go_on(&mut self, ticket: Ticket)
        requires waits { IsSome (request_of ticket self.old.memory.requests) }
        requires few { (the_request ticket self.old.memory.requests).done < 16 }
        ensures { self.new ≡ with_memory self.old (record self.old.memory {
          requests = with_request (one_done
              (the_request ticket self.old.memory.requests)) self.old.memory.requests;
        }) }
    {
        self.queue.advance(ticket);
    }

    /// Answers the request of this ticket, if it waits.
    pub(crate) fn answer(&mut self, ticket: Ticket, outcome: Outcome) -> Step
        ensures told { told_of result ≡ (answered_for self.old.memory (request_of ticket self.old.memory.requests)
            (λ r. outcome) (λ r. [])).told }
        ensures memory { self.new ≡ with_memory self.old (answered_for self.old.memory (request_of ticket
            self.old.memory.requests) (λ r. outcome) (λ r. [])).memory }
    {
        let Some(Request { op, .. }) = self.queue.remove(ticket) else {
            return Step::Moved;
        };
        Step::Answered {
            ticket,
            op,
            outcome,
        }
    }

    /// In `Trim` what is discarded is free. In `Checkpoint` a changed block that no unanswered write covers is free
    /// again.
    fn discard(&mut self, extent: Extent)
        requires inside { extent.first + extent.count ≤ self.old.geometry.blocks }
        requires trim { self.old.memory.phase ≡ Phase.Trim → (b : ℕ) → b < self.old.geometry.blocks → is_saved
            (kind_at self.old.memory.kinds b) ≡ false }
        ensures { self.new ≡ with_memory self.old (record self.old.memory {
          kinds = kinds_discarded
              self.old.geometry self.old.memory extent self.old.memory.phase;
        }) }
    {
        match self.phase {
            Phase::Trim => self.table.set(above_0(extent), Kind::Free),
            Phase::Checkpoint => {
                let open = self.queue.open_writes();
                self.table.reclaim(extent, &open);
            }
            _ => (),
        }
    }
}
