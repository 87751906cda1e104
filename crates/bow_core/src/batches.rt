// The steps of a batch, from its first act to its end.
ghost use Rattle.std.specs.Prelude.{◌≡◌, ◌≢◌, ◌+◌, []};
ghost use Rattle.std.specs.Prelude.{Some, None, true, false};
ghost use Rattle.bow_copy.specs.Acts.{after_act, log_tried, next_act};
ghost use Rattle.bow_copy.specs.declared.jobs.Act.{Act};
ghost use Rattle.bow_copy.specs.declared.jobs.Act.TheVariants as acts;
ghost use Rattle.bow_copy.specs.declared.jobs.Job.TheVariants as jobs;
ghost use Rattle.bow_machine.specs.Memory.{Empty, picks};
ghost use Rattle.bow_ranges.specs.Kinds.{with_kind};
ghost use Rattle.bow_units.specs.declared.statuses.Kind.TheVariants.{Free};
ghost use Rattle.bow_machine.specs.Memory.{Batching as HeldBatch};
ghost use Rattle.bow_machine.specs.MemoryIsSound.{MemoryIsSound};
ghost use Rattle.bow_machine.specs.Requests.{request_of};
ghost use Rattle.bow_machine.specs.Steps.{answered_for, changed, cleaned, fault_after};
ghost use Rattle.bow_machine.specs.Tasks.{Acts, task_of};
ghost use Rattle.bow_machine.specs.declared.turns.Turn.TheVariants.{Worker};
ghost use Rattle.bow_core.specs.Batches.{ArePicked, batch_in_hand, gone_on, let_go};
ghost use Rattle.bow_core.specs.Held.{slots_in, with_memory};
ghost use Rattle.bow_core.specs.Steps.{Does, IsInOrder};
ghost use Rattle.bow_core.specs.Turns.{told_of};

use crate::Ticket;
use crate::commands::give_log;
use crate::hands::Hand;
use crate::ports::Port;
use crate::slots::{entry_of_slots, read_slot, write_slot};
use crate::state::{State, run};
use crate::turns::Step;
use crate::workers::serve;
use bow_copy::{Act, After, Job, done, next};
use bow_disk::Disk;
use bow_ranges::Ranges;
use bow_units::{Extent, Failed, Kind, Outcome};

/// The step of the worker's turn.
pub(crate) fn step_worker<D: Disk, R: Ranges>(port: &mut Port<D>, state: &mut State<R>) -> Step
    requires order { IsInOrder D.stated port.old state.old }
    ensures { Does D.stated D.content D.moment D.left_since D.faults port.old state.old
        (task_of state.old.geometry state.old.memory Worker) result port.new state.new }
{
    match &state.hand {
        Hand::Batching(_, ticket) => {
            let ticket = *ticket;
            act_of_batch(port, state, ticket)
        }
        Hand::Empty => serve(port, state),
        Hand::Preparing(_) | Hand::Committing(_) => Step::Idle,
    }
}

/// Makes the next act of the batch in hand, which was formed for the write of this ticket.
pub(crate) fn act_of_batch<D: Disk, R: Ranges>(
    port: &mut Port<D>,
    state: &mut State<R>,
    ticket: Ticket,
) -> Step
    requires order { IsInOrder D.stated port.old state.old }
    requires held { state.old.memory.hand ≡ HeldBatch (batch_in_hand state.old.memory.hand) }
    requires own { (batch_in_hand state.old.memory.hand).ticket ≡ ticket }
    ensures { Does D.stated D.content D.moment D.left_since D.faults port.old state.old
        (Acts state.old.memory) result port.new state.new }
{
    match state.next_act() {
        Act::Read { block, slot } => read_source(port, state, ticket, block, slot),
        Act::Write { block, slot } => write_dest(port, state, ticket, block, slot),
        Act::WriteLog => write_changed_log(port, state, ticket),
        Act::Flush => flush_batch(port, state, ticket),
        Act::End => unreachable!(),
    }
}

/// Reads a block into its slot.
fn read_source<D: Disk, R: Ranges>(
    port: &mut Port<D>,
    state: &mut State<R>,
    ticket: Ticket,
    block: u64,
    slot: u32,
) -> Step
    requires order { IsInOrder D.stated port.old state.old }
    requires held { state.old.memory.hand ≡ HeldBatch (batch_in_hand state.old.memory.hand) }
    requires own { (batch_in_hand state.old.memory.hand).ticket ≡ ticket }
    requires act { next_act (batch_in_hand state.old.memory.hand).progress ≡ acts.Read block slot }
    ensures { Does D.stated D.content D.moment D.left_since D.faults port.old state.old
        (Acts state.old.memory) result port.new state.new }
{
    let size = state.size();
    match read_slot(port, &mut state.buffer, size, block, slot) {
        Ok(()) => {
            let Hand::Batching(batch, _) = &mut state.hand else {
                unreachable!()
            };
            done(batch, true);
            Step::Moved
        }
        Err(Failed) => state.fail(ticket),
    }
}

/// Writes a slot to a picked block.
fn write_dest<D: Disk, R: Ranges>(
    port: &mut Port<D>,
    state: &mut State<R>,
    ticket: Ticket,
    block: u64,
    slot: u32,
) -> Step
    requires order { IsInOrder D.stated port.old state.old }
    requires held { state.old.memory.hand ≡ HeldBatch (batch_in_hand state.old.memory.hand) }
    requires own { (batch_in_hand state.old.memory.hand).ticket ≡ ticket }
    requires act { next_act (batch_in_hand state.old.memory.hand).progress ≡ acts.Write block slot }
    ensures { Does D.stated D.content D.moment D.left_since D.faults port.old state.old
        (Acts state.old.memory) result port.new state.new }
{
    let size = state.size();
    match write_slot(port, &state.buffer, size, block, slot) {
        Ok(()) => state.act_done(),
        Err(Failed) => state.fail(ticket),
    }
}

/// Changes the log in memory, and writes it to block 0.
fn write_changed_log<D: Disk, R: Ranges>(
    port: &mut Port<D>,
    state: &mut State<R>,
    ticket: Ticket,
) -> Step
    requires order { IsInOrder D.stated port.old state.old }
    requires held { state.old.memory.hand ≡ HeldBatch (batch_in_hand state.old.memory.hand) }
    requires own { (batch_in_hand state.old.memory.hand).ticket ≡ ticket }
    requires act { next_act (batch_in_hand state.old.memory.hand).progress ≡ acts.WriteLog }
    ensures { Does D.stated D.content D.moment D.left_since D.faults port.old state.old
        (Acts state.old.memory) result port.new state.new }
{
    state.change();
    match give_log(port, state) {
        Ok(()) => state.act_done(),
        Err(Failed) => state.fail(ticket),
    }
}

/// Flushes what the batch wrote.
fn flush_batch<D: Disk, R: Ranges>(port: &mut Port<D>, state: &mut State<R>, ticket: Ticket) -> Step
    requires order { IsInOrder D.stated port.old state.old }
    requires held { state.old.memory.hand ≡ HeldBatch (batch_in_hand state.old.memory.hand) }
    requires own { (batch_in_hand state.old.memory.hand).ticket ≡ ticket }
    requires act { next_act (batch_in_hand state.old.memory.hand).progress ≡ acts.Flush }
    ensures { Does D.stated D.content D.moment D.left_since D.faults port.old state.old
        (Acts state.old.memory) result port.new state.new }
{
    match port.flush() {
        Ok(()) => state.act_done(),
        Err(Failed) => state.fail(ticket),
    }
}

/// The blocks that a job picked.
fn picks(job: Job) -> Extent
    ensures { result ≡ picks job }
{
    match job {
        Job::Rewrite => run(0, 0),
        Job::Link { dest } => run(dest, 1),
        Job::Copy { dest, count, .. } => run(dest, count as u64),
        Job::Move { to, .. } => run(to, 1),
    }
}

impl<R: Ranges> State<R> {
    /// The next act of the batch in hand.
    fn next_act(&self) -> Act
        ensures { result ≡ next_act (batch_in_hand self.now.memory.hand).progress }
    {
        match &self.hand {
            Hand::Batching(batch, _) => next(batch),
            Hand::Empty | Hand::Preparing(_) | Hand::Committing(_) => Act::End,
        }
    }

    /// An act of the batch in hand, other than a read, was done. After the last one nothing is in hand, the log is
    /// durable, and what was saved is changed.
    fn act_done(&mut self) -> Step
        requires held { self.old.memory.hand ≡ HeldBatch (batch_in_hand self.old.memory.hand) }
        requires act { next_act (batch_in_hand self.old.memory.hand).progress ≢ acts.End }
        requires same { (let p = (batch_in_hand self.old.memory.hand).progress in slots_in p.job (p.done + 1) ≡ slots_in
            p.job p.done) }
        ensures told { told_of result ≡ told_of Step.Moved }
        ensures memory { self.new ≡ with_memory self.old (gone_on self.old.memory (batch_in_hand self.old.memory.hand)
            (after_act (batch_in_hand self.old.memory.hand).progress true)) }
    {
        let Hand::Batching(batch, _) = &mut self.hand else {
            return Step::Moved;
        };
        if done(batch, true) != After::Clean {
            return Step::Moved;
        }
        self.mark_clean();
        Step::Moved
    }

    /// Nothing is in hand any more, the log is durable, and what was saved is changed.
    fn mark_clean(&mut self)
        ensures { self.new ≡ with_memory self.old (cleaned self.old.memory) }
    {
        self.hand = Hand::Empty;
        self.clean = true;
        self.table.set(self.saved, Kind::Changed);
        self.saved = run(0, 0);
    }

    /// An act of the batch in hand failed: nothing is in hand any more, the picked blocks are free again unless writing
    /// the log was tried, and the write for which the batch was formed is answered with a fault.
    fn fail(&mut self, ticket: Ticket) -> Step
        requires held { self.old.memory.hand ≡ HeldBatch (batch_in_hand self.old.memory.hand) }
        requires act { next_act (batch_in_hand self.old.memory.hand).progress ≢ acts.End }
        requires picked { (let p = (batch_in_hand self.old.memory.hand).progress in log_tried p.job (p.done + 1) ≡ false
            → ArePicked self.old.memory.kinds (picks p.job)) }
        ensures told { told_of result ≡ (answered_for (let_go self.old.memory (batch_in_hand self.old.memory.hand))
            (request_of ticket self.old.memory.requests) fault_after (λ r. [])).told }
        ensures memory { self.new ≡ with_memory self.old (answered_for (let_go self.old.memory (batch_in_hand
            self.old.memory.hand)) (request_of ticket self.old.memory.requests) fault_after (λ r. [])).memory }
    {
        self.let_go();
        let done = match self.queue.request(ticket) {
            Some(request) => request.done,
            None => 0,
        };
        self.answer(ticket, Outcome::DiskFault { done })
    }

    /// The batch in hand is given up: unless writing its log was tried, the blocks that it picked are free again.
    fn let_go(&mut self)
        requires held { self.old.memory.hand ≡ HeldBatch (batch_in_hand self.old.memory.hand) }
        requires act { next_act (batch_in_hand self.old.memory.hand).progress ≢ acts.End }
        requires picked { (let p = (batch_in_hand self.old.memory.hand).progress in log_tried p.job (p.done + 1) ≡ false
            → ArePicked self.old.memory.kinds (picks p.job)) }
        ensures { self.new ≡ with_memory self.old (let_go self.old.memory (batch_in_hand self.old.memory.hand)) }
    {
        let Hand::Batching(batch, _) = &mut self.hand else {
            return;
        };
        let picked = picks(batch.job());
        let after = done(batch, false);
        self.hand = Hand::Empty;
        match after {
            After::Failed { log_given: false } => self.give_back(picked),
            _ => (),
        }
    }

    /// Picked blocks are free again.
    fn give_back(&mut self, picked: Extent)
        requires { ArePicked self.old.memory.kinds picked }
        ensures { self.new ≡ with_memory self.old (record self.old.memory {
          kinds = with_kind self.old.memory.kinds picked Free;
        }) }
    {
        self.table.set(picked, Kind::Free);
    }

    /// The change of the log and of the kinds just before the log is written. From then on the log is not clean.
    fn change(&mut self)
        requires sound { MemoryIsSound self.old.geometry self.old.memory }
        requires held { self.old.memory.hand ≡ HeldBatch (batch_in_hand self.old.memory.hand) }
        requires act { next_act (batch_in_hand self.old.memory.hand).progress ≡ acts.WriteLog }
        ensures { self.new ≡ with_memory self.old (changed self.old.memory (batch_in_hand self.old.memory.hand)) }
    {
        let job = self.job();
        match job {
            Job::Rewrite => self.clean = false,
            Job::Link { dest } => self.begin_log(dest),
            Job::Copy {
                source,
                dest,
                count,
            } => self.add_entry(source, dest, count),
            Job::Move { from, to } => self.move_current(from, to),
        }
    }

    /// The job of the batch in hand.
    fn job(&self) -> Job
        ensures { result ≡ (batch_in_hand self.now.memory.hand).progress.job }
    {
        match &self.hand {
            Hand::Batching(batch, _) => batch.job(),
            Hand::Empty | Hand::Preparing(_) | Hand::Committing(_) => Job::Rewrite,
        }
    }

    /// Begins the next log, which names the full one in the block `dest`.
    fn begin_log(&mut self, dest: u64)
        requires sound { MemoryIsSound self.old.geometry self.old.memory }
        requires held { self.old.memory.hand ≡ HeldBatch (batch_in_hand self.old.memory.hand) }
        requires act { next_act (batch_in_hand self.old.memory.hand).progress ≡ acts.WriteLog }
        requires job { (batch_in_hand self.old.memory.hand).progress.job ≡ jobs.Link dest }
        ensures { self.new ≡ with_memory self.old (changed self.old.memory (batch_in_hand self.old.memory.hand)) }
    {
        let entry = entry_of_slots(self.geometry, &self.buffer, 0, dest, 1);
        let Some(log) = &mut self.log else {
            unreachable!()
        };
        log.begin_next(self.geometry, entry);
        self.clean = false;
    }

    /// Adds the entry of a copy, whose sources are saved from then on.
    fn add_entry(&mut self, source: u64, dest: u64, count: u32)
        requires sound { MemoryIsSound self.old.geometry self.old.memory }
        requires held { self.old.memory.hand ≡ HeldBatch (batch_in_hand self.old.memory.hand) }
        requires act { next_act (batch_in_hand self.old.memory.hand).progress ≡ acts.WriteLog }
        requires job { (batch_in_hand self.old.memory.hand).progress.job ≡ jobs.Copy source dest count }
        ensures { self.new ≡ with_memory self.old (changed self.old.memory (batch_in_hand self.old.memory.hand)) }
    {
        let entry = entry_of_slots(self.geometry, &self.buffer, source, dest, count);
        let Some(log) = &mut self.log else {
            unreachable!()
        };
        log.add(self.geometry, entry);
        self.clean = false;
        self.saved = run(source, count as u64);
        self.table.set(self.saved, Kind::Saved);
    }

    /// The current block 0 lies in the block `to`, and the old place is saved from then on.
    fn move_current(&mut self, from: u64, to: u64)
        requires sound { MemoryIsSound self.old.geometry self.old.memory }
        requires held { self.old.memory.hand ≡ HeldBatch (batch_in_hand self.old.memory.hand) }
        requires act { next_act (batch_in_hand self.old.memory.hand).progress ≡ acts.WriteLog }
        requires job { (batch_in_hand self.old.memory.hand).progress.job ≡ jobs.Move from to }
        ensures { self.new ≡ with_memory self.old (changed self.old.memory (batch_in_hand self.old.memory.hand)) }
    {
        let Some(log) = &mut self.log else {
            unreachable!()
        };
        log.set_current(self.geometry, to);
        self.clean = false;
        self.table.set(run(to, 1), Kind::Current);
        self.saved = run(from, 1);
        self.table.set(self.saved, Kind::Saved);
    }
}
