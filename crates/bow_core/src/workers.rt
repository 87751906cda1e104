// How the worker forms a batch.
ghost use Rattle.std.specs.Prelude.{OnOk, OnErr, ◌≡◌, ◌≢◌, ◌+◌, ◌≤◌, ◌==◌, []};
ghost use Rattle.std.specs.Prelude.{length, min, Some, None, IsSome, true, false};
ghost use Rattle.bow_log.specs.Generations.{room};
ghost use Rattle.bow_machine.specs.Memory.{Empty, is_kind_current};
ghost use Rattle.bow_machine.specs.Steps.{log_of_memory};
ghost use Rattle.bow_machine.specs.Tasks.{alike_from, is_source, task_of, without_picked};
ghost use Rattle.bow_machine.specs.declared.turns.Turn.TheVariants.{Worker};
ghost use Rattle.bow_machine.specs.MemoryIsSound.{IsTable};
ghost use Rattle.bow_ranges.specs.Kinds.{kind_at};
ghost use Rattle.bow_ranges.specs.Picks.{picked};
ghost use Rattle.bow_core.specs.Batches.{IsBatching, IsFormed, IsServed};
ghost use Rattle.bow_core.specs.Held.{with_memory};
ghost use Rattle.bow_queue.specs.Requests.{the_request};
ghost use Rattle.bow_core.specs.Steps.{Does, IsInOrder};

use crate::batches::act_of_batch;
use crate::hands::Hand;
use crate::ports::Port;
use crate::requests::extent_of;
use crate::slots::spell_slot;
use crate::state::{MOST_COPIED, State};
use crate::tasks::Head;
use crate::turns::Step;
use bow_copy::{Batch, Job};
use bow_disk::Disk;
use bow_ranges::Ranges;
use bow_units::{Extent, Kind, Outcome, Phase};

/// No block is free.
struct NoSpace;

/// Forms a batch for the head, if there is one, and makes its first act. It forms none but in `Checkpoint`.
pub(crate) fn serve<D: Disk, R: Ranges>(port: &mut Port<D>, state: &mut State<R>) -> Step
    requires order { IsInOrder D.stated port.old state.old }
    requires empty { state.old.memory.hand ≡ Empty }
    ensures { Does D.stated D.content D.moment D.left_since D.faults port.old state.old
        (task_of state.old.geometry state.old.memory Worker) result port.new state.new }
{
    let Phase::Checkpoint = state.phase else {
        return Step::Idle;
    };
    let Some(request) = state.head() else {
        return Step::Idle;
    };
    let head = Head {
        ticket: request.ticket,
        extent: extent_of(&request.op),
        done: request.done,
    };
    match state.form(head) {
        Ok(()) => act_of_batch(port, state, head.ticket),
        Err(NoSpace) => state.answer(head.ticket, Outcome::NoSpace { done: head.done }),
    }
}

impl<R: Ranges> State<R> {
    /// Takes a batch for the head in hand, by the first rule that applies: the log is written again where it is not
    /// clean; the current block 0 is moved where the head writes its place; the log is linked where it is full; else
    /// blocks are copied. What it picks holds backups from then on.
    fn form(&mut self, head: Head) -> Result<(), NoSpace>
        requires served { IsServed self.old.geometry self.old.memory head }
        ensures formed { IsFormed (task_of self.old.geometry self.old.memory Worker) (the_request head.ticket
            self.old.memory.requests) result self.new.memory }
        ensures kept { self.new ≡ with_memory self.old self.new.memory }
        ensures held { OnOk result (IsBatching self.new.memory.hand head.ticket) }
        ensures same { OnErr result (self.new ≡ self.old) }
    {
        if !self.clean {
            self.hand = Hand::Batching(Batch::new(Job::Rewrite), head.ticket);
            return Ok(());
        }
        if self.table.kind(head.next()) == Kind::Current {
            return self.form_move(head);
        }
        if self.is_log_full() {
            return self.form_link(head);
        }
        self.form_copy(head)
    }

    /// The current block 0 is moved to a free block.
    fn form_move(&mut self, head: Head) -> Result<(), NoSpace>
        requires served { IsServed self.old.geometry self.old.memory head }
        requires clean { self.old.memory.clean ≡ true }
        requires current { is_kind_current (kind_at self.old.memory.kinds (head.extent.first + head.done)) ≡ true }
        ensures formed { IsFormed (task_of self.old.geometry self.old.memory Worker) (the_request head.ticket
            self.old.memory.requests) result self.new.memory }
        ensures kept { self.new ≡ with_memory self.old self.new.memory }
        ensures held { OnOk result (IsBatching self.new.memory.hand head.ticket) }
        ensures same { OnErr result (self.new ≡ self.old) }
    {
        let Some(to) = self.take_free(1) else {
            return Err(NoSpace);
        };
        let job = Job::Move {
            from: head.next(),
            to: to.first,
        };
        self.hand = Hand::Batching(Batch::new(job), head.ticket);
        Ok(())
    }

    /// The full log is kept in a free block. It is spelled into the first slot.
    fn form_link(&mut self, head: Head) -> Result<(), NoSpace>
        requires served { IsServed self.old.geometry self.old.memory head }
        requires clean { self.old.memory.clean ≡ true }
        requires other { is_kind_current (kind_at self.old.memory.kinds (head.extent.first + head.done)) ≡ false }
        requires full { length (log_of_memory self.old.memory).entries ≡ room self.old.geometry.block_size }
        ensures formed { IsFormed (task_of self.old.geometry self.old.memory Worker) (the_request head.ticket
            self.old.memory.requests) result self.new.memory }
        ensures kept { self.new ≡ with_memory self.old self.new.memory }
        ensures held { OnOk result (IsBatching self.new.memory.hand head.ticket) }
        ensures same { OnErr result (self.new ≡ self.old) }
    {
        let Some(dest) = self.take_free(1) else {
            return Err(NoSpace);
        };
        let Some(log) = &self.log else { unreachable!() };
        spell_slot(log, self.geometry, &mut self.buffer);
        self.hand = Hand::Batching(Batch::new(Job::Link { dest: dest.first }), head.ticket);
        Ok(())
    }

    /// As many of the head's next blocks of one kind as were picked are copied.
    fn form_copy(&mut self, head: Head) -> Result<(), NoSpace>
        requires served { IsServed self.old.geometry self.old.memory head }
        requires clean { self.old.memory.clean ≡ true }
        requires other { is_kind_current (kind_at self.old.memory.kinds (head.extent.first + head.done)) ≡ false }
        requires not_full { length (log_of_memory self.old.memory).entries ≢ room self.old.geometry.block_size }
        ensures formed { IsFormed (task_of self.old.geometry self.old.memory Worker) (the_request head.ticket
            self.old.memory.requests) result self.new.memory }
        ensures kept { self.new ≡ with_memory self.old self.new.memory }
        ensures held { OnOk result (IsBatching self.new.memory.hand head.ticket) }
        ensures same { OnErr result (self.new ≡ self.old) }
    {
        let source = head.next();
        let most = (head.extent.count - head.done as u64).min(MOST_COPIED);
        let want = self.count_alike(source, most);
        let Some(dest) = self.take_free(want) else {
            return Err(NoSpace);
        };
        let job = Job::Copy {
            source,
            dest: dest.first,
            count: dest.count as u32,
        };
        self.hand = Hand::Batching(Batch::new(job), head.ticket);
        Ok(())
    }

    /// Picks at most so many free blocks, which hold backups from then on.
    fn take_free(&mut self, want: u64) -> Option<Extent>
        requires some { 1 ≤ want }
        requires table { IsTable self.old.geometry self.old.memory.kinds }
        ensures picked { result ≡ picked self.old.memory.kinds want }
        ensures taken { self.new ≡ with_memory self.old (record self.old.memory {
          kinds = without_picked self.old.memory.kinds result;
        }) }
    {
        let Some(free) = self.table.pick(want) else {
            return None;
        };
        self.table.set(free, Kind::Backup);
        Some(free)
    }

    /// Whether the log has as many entries as a block has room for.
    fn is_log_full(&self) -> bool
        requires { IsSome self.now.memory.log }
        ensures { result ≡ (length (log_of_memory self.now.memory).entries == room self.now.geometry.block_size) }
    {
        match &self.log {
            Some(log) => log.is_full(self.geometry),
            None => unreachable!(),
        }
    }

    /// How many blocks from `first` on, which can be copied, are of its kind: so many at most.
    fn count_alike(&self, first: u64, most: u64) -> u64
        requires inside { first + most ≤ length self.now.memory.kinds }
        requires some { 1 ≤ most }
        requires source { is_source (kind_at self.now.memory.kinds first) (kind_at self.now.memory.kinds first) ≡ true }
        ensures { result ≡ alike_from self.now.memory.kinds (kind_at self.now.memory.kinds first) first most }
    {
        let run = self.table.run(first);
        (run.first + run.count - first).min(most)
    }
}
