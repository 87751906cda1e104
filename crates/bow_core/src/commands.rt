// The steps of prepare and commit.
ghost use Rattle.std.specs.Prelude.{◌≡◌, ◌-◌, ◌<◌, length, Some, None, IsSome, false, []};
ghost use Rattle.bow_ranges.specs.Kinds.{kind_at, with_kind};
ghost use Rattle.bow_units.specs.declared.requests.Phase.TheVariants.{Committed, Trim};
ghost use Rattle.bow_units.specs.declared.requests.Op.TheVariants.{Prepare};
ghost use Rattle.bow_log.specs.Rules.{IsLog};
ghost use Rattle.bow_log.specs.Spelling.{spell};
ghost use Rattle.bow_core.specs.Orders.{task_of_order};
ghost use Rattle.bow_queue.specs.Requests.{the_request};
ghost use Rattle.bow_units.specs.declared.statuses.Kind.TheVariants.{Unchanged};
ghost use Rattle.bow_machine.specs.Memory.{Memory, Empty, FlushesAll, ReadsCurrent, WritesBlock0, FlushesDecision};
ghost use Rattle.bow_machine.specs.Memory.{ReadsBlock0, WritesCurrent, WritesBackup, FlushesCopies};
ghost use Rattle.bow_machine.specs.Memory.{WritesFirstLog, FlushesFirstLog};
ghost use Rattle.bow_machine.specs.Memory.{Committing as HeldCommit, Preparing as HeldPrepare};
ghost use Rattle.bow_machine.specs.MemoryIsSound.{MemoryIsSound};
ghost use Rattle.bow_machine.specs.Requests.{Request, request_of};
ghost use Rattle.bow_machine.specs.MemoryIsSound.{IsTable};
ghost use Rattle.bow_machine.specs.Steps.{answered_for, armed, log_of_memory};
ghost use Rattle.bow_machine.specs.Calls.{WriteCall};
ghost use Rattle.bow_core.specs.Calls.{reply_of};
ghost use Rattle.bow_core.specs.Ports.{Makes};
ghost use Rattle.bow_machine.specs.Tasks.{Acts, spelling, taken, task_of};
ghost use Rattle.bow_machine.specs.declared.turns.Turn.TheVariants.{Command};
ghost use Rattle.bow_core.specs.Commands.{two_picked, block_in_hand};
ghost use Rattle.bow_core.specs.Held.{with_memory, commit_of, prepare_of};
ghost use Rattle.bow_core.specs.Inside.{is_saved};
ghost use Rattle.bow_core.specs.Steps.{Does, IsInOrder};
ghost use Rattle.bow_core.specs.Turns.{told_of};

use crate::Ticket;
use crate::hands::{CommitAct, Committing, Hand, PrepareAct, Preparing};
use crate::ports::Port;
use crate::slots::{entry_of_slots, read_slot, write_slot};
use crate::state::{State, run};
use crate::turns::Step;
use bow_disk::Disk;
use bow_log::{Log, write_log};
use bow_ranges::Ranges;
use bow_units::{Failed, Geometry, Kind, Op, Outcome, Phase};

/// What a command that is taken does: it prepares, prepares again, commits, or has no place in this phase.
#[derive(Clone, Copy)]
enum Order {
    Prepares,
    PreparesAgain,
    Commits(bool),
    Refused(Phase),
}

/// What a command does in this phase.
fn order_of(op: &Op, phase: Phase) -> Order
    ensures { (m : Memory) → (r : Request) → task_of_order m r result ≡ taken m r op.now phase }
{
    match op {
        Op::Prepare => match phase {
            Phase::Trim => Order::Prepares,
            Phase::Arming => Order::PreparesAgain,
            _ => Order::Refused(phase),
        },
        Op::Commit => match phase {
            Phase::Checkpoint => Order::Commits(false),
            Phase::Deciding => Order::Commits(true),
            _ => Order::Refused(phase),
        },
        _ => Order::Refused(phase),
    }
}

/// The step of the commands' turn.
pub(crate) fn step_command<D: Disk, R: Ranges>(port: &mut Port<D>, state: &mut State<R>) -> Step
    requires order { IsInOrder D.stated port.old state.old }
    ensures { Does D.stated D.content D.moment D.left_since D.faults port.old state.old
        (task_of state.old.geometry state.old.memory Command) result port.new state.new }
{
    match &state.hand {
        Hand::Empty => take_command(port, state),
        Hand::Preparing(prepare) => {
            let prepare = *prepare;
            act_of_prepare(port, state, prepare)
        }
        Hand::Committing(commit) => {
            let commit = *commit;
            act_of_commit(port, state, commit)
        }
        Hand::Batching(_, _) => Step::Idle,
    }
}

/// Takes the first command in hand, if one waits, and makes its first act.
fn take_command<D: Disk, R: Ranges>(port: &mut Port<D>, state: &mut State<R>) -> Step
    requires order { IsInOrder D.stated port.old state.old }
    requires empty { state.old.memory.hand ≡ Empty }
    ensures { Does D.stated D.content D.moment D.left_since D.faults port.old state.old
        (task_of state.old.geometry state.old.memory Command) result port.new state.new }
{
    let Some(request) = state.queue.first_command() else {
        return Step::Idle;
    };
    let ticket = request.ticket;
    let order = order_of(&request.op, state.phase);
    match order {
        Order::Prepares => take_prepare(port, state, ticket),
        Order::PreparesAgain => repeat_prepare(port, state, ticket),
        Order::Commits(again) => begin_commit(port, state, ticket, again),
        Order::Refused(phase) => state.answer(ticket, Outcome::WrongPhase(phase)),
    }
}

/// Takes a prepare in hand, with two free blocks, and makes its first act.
fn take_prepare<D: Disk, R: Ranges>(
    port: &mut Port<D>,
    state: &mut State<R>,
    ticket: Ticket,
) -> Step
    requires order { IsInOrder D.stated port.old state.old }
    requires waits { IsSome (request_of ticket state.old.memory.requests) }
    requires task { task_of state.old.geometry state.old.memory Command ≡ taken state.old.memory (the_request ticket
        state.old.memory.requests) Prepare Trim }
    ensures { Does D.stated D.content D.moment D.left_since D.faults port.old state.old
        (task_of state.old.geometry state.old.memory Command) result port.new state.new }
{
    match state.pick_two() {
        Some((current, backup)) => begin_prepare(port, state, ticket, current, backup),
        None => state.answer(ticket, Outcome::NoSpace { done: 0 }),
    }
}

/// Takes a prepare in hand that has picked these blocks, and makes its first act.
fn begin_prepare<D: Disk, R: Ranges>(
    port: &mut Port<D>,
    state: &mut State<R>,
    ticket: Ticket,
    current: u64,
    backup: u64,
) -> Step
    requires order { IsInOrder D.stated port.old state.old }
    requires task { task_of state.old.geometry state.old.memory Command ≡ Acts (record state.old.memory {
      hand = HeldPrepare ticket current backup ReadsBlock0;
    }) }
    ensures { Does D.stated D.content D.moment D.left_since D.faults port.old state.old
        (task_of state.old.geometry state.old.memory Command) result port.new state.new }
{
    let prepare = Preparing {
        ticket,
        current,
        backup,
        act: PrepareAct::ReadBlock0,
    };
    state.hand = Hand::Preparing(prepare);
    read_block0(port, state, prepare)
}

/// Takes a prepare in hand that finds the checkpoint armed, and makes its first act.
fn repeat_prepare<D: Disk, R: Ranges>(
    port: &mut Port<D>,
    state: &mut State<R>,
    ticket: Ticket,
) -> Step
    requires order { IsInOrder D.stated port.old state.old }
    requires task { task_of state.old.geometry state.old.memory Command ≡ Acts (record state.old.memory {
      hand = HeldPrepare ticket 0 0 WritesFirstLog;
    }) }
    ensures { Does D.stated D.content D.moment D.left_since D.faults port.old state.old
        (task_of state.old.geometry state.old.memory Command) result port.new state.new }
{
    let prepare = Preparing {
        ticket,
        current: 0,
        backup: 0,
        act: PrepareAct::WriteFirstLog,
    };
    state.hand = Hand::Preparing(prepare);
    write_first_log(port, state, prepare)
}

/// Takes a commit in hand, and makes its first act.
fn begin_commit<D: Disk, R: Ranges>(
    port: &mut Port<D>,
    state: &mut State<R>,
    ticket: Ticket,
    again: bool,
) -> Step
    requires order { IsInOrder D.stated port.old state.old }
    requires task { task_of state.old.geometry state.old.memory Command ≡ Acts (record state.old.memory {
      hand = HeldCommit ticket again FlushesAll;
    }) }
    ensures { Does D.stated D.content D.moment D.left_since D.faults port.old state.old
        (task_of state.old.geometry state.old.memory Command) result port.new state.new }
{
    let commit = Committing {
        ticket,
        again,
        act: CommitAct::FlushAll,
    };
    state.hand = Hand::Committing(commit);
    flush_all(port, state, commit)
}

/// The first act of a prepare: block 0 is read.
fn read_block0<D: Disk, R: Ranges>(
    port: &mut Port<D>,
    state: &mut State<R>,
    prepare: Preparing,
) -> Step
    requires order { IsInOrder D.stated port.old state.old }
    requires held { state.old.memory.hand ≡ HeldPrepare prepare.ticket prepare.current prepare.backup ReadsBlock0 }
    ensures { Does D.stated D.content D.moment D.left_since D.faults port.old state.old
        (Acts state.old.memory) result port.new state.new }
{
    let size = state.size();
    state.hand = Hand::Empty;
    match read_slot(port, &mut state.buffer, size, 0, 0) {
        Ok(()) => {
            state.hand = Hand::Preparing(Preparing {
                act: PrepareAct::WriteCurrent,
                ..prepare
            });
            Step::Moved
        }
        Err(Failed) => state.answer(prepare.ticket, Outcome::DiskFault { done: 0 }),
    }
}

/// Then it is written to the block that was picked for the current block 0.
fn write_current<D: Disk, R: Ranges>(
    port: &mut Port<D>,
    state: &mut State<R>,
    prepare: Preparing,
) -> Step
    requires order { IsInOrder D.stated port.old state.old }
    requires held { state.old.memory.hand ≡ HeldPrepare prepare.ticket prepare.current prepare.backup (WritesCurrent
        (block_in_hand
        state.old.memory.hand)) }
    ensures { Does D.stated D.content D.moment D.left_since D.faults port.old state.old
        (Acts state.old.memory) result port.new state.new }
{
    let size = state.size();
    match write_slot(port, &state.buffer, size, prepare.current, 0) {
        Ok(()) => {
            state.hand = Hand::Preparing(Preparing {
                act: PrepareAct::WriteBackup,
                ..prepare
            });
            Step::Moved
        }
        Err(Failed) => state.end(prepare.ticket, Outcome::DiskFault { done: 0 }),
    }
}

/// Then it is written to the block that was picked for its backup.
fn write_backup<D: Disk, R: Ranges>(
    port: &mut Port<D>,
    state: &mut State<R>,
    prepare: Preparing,
) -> Step
    requires order { IsInOrder D.stated port.old state.old }
    requires held { state.old.memory.hand ≡ HeldPrepare prepare.ticket prepare.current prepare.backup (WritesBackup
        (block_in_hand
        state.old.memory.hand)) }
    ensures { Does D.stated D.content D.moment D.left_since D.faults port.old state.old
        (Acts state.old.memory) result port.new state.new }
{
    let size = state.size();
    match write_slot(port, &state.buffer, size, prepare.backup, 0) {
        Ok(()) => {
            state.hand = Hand::Preparing(Preparing {
                act: PrepareAct::FlushCopies,
                ..prepare
            });
            Step::Moved
        }
        Err(Failed) => state.end(prepare.ticket, Outcome::DiskFault { done: 0 }),
    }
}

/// Then both are flushed, and the checkpoint is armed.
fn flush_copies<D: Disk, R: Ranges>(
    port: &mut Port<D>,
    state: &mut State<R>,
    prepare: Preparing,
) -> Step
    requires order { IsInOrder D.stated port.old state.old }
    requires held { state.old.memory.hand ≡ HeldPrepare prepare.ticket prepare.current prepare.backup (FlushesCopies
        (block_in_hand
        state.old.memory.hand)) }
    ensures { Does D.stated D.content D.moment D.left_since D.faults port.old state.old
        (Acts state.old.memory) result port.new state.new }
{
    match port.flush() {
        Ok(()) => {
            state.arm(prepare);
            Step::Moved
        }
        Err(Failed) => state.end(prepare.ticket, Outcome::DiskFault { done: 0 }),
    }
}

/// Then the first log is written to block 0.
fn write_first_log<D: Disk, R: Ranges>(
    port: &mut Port<D>,
    state: &mut State<R>,
    prepare: Preparing,
) -> Step
    requires order { IsInOrder D.stated port.old state.old }
    requires held { state.old.memory.hand ≡ HeldPrepare prepare.ticket prepare.current prepare.backup WritesFirstLog }
    ensures { Does D.stated D.content D.moment D.left_since D.faults port.old state.old
        (Acts state.old.memory) result port.new state.new }
{
    match give_log(port, state) {
        Ok(()) => {
            state.hand = Hand::Preparing(Preparing {
                act: PrepareAct::FlushFirstLog,
                ..prepare
            });
            Step::Moved
        }
        Err(Failed) => state.end(prepare.ticket, Outcome::DiskFault { done: 0 }),
    }
}

/// The last act of a prepare: the log is flushed, and the checkpoint has begun.
fn flush_first_log<D: Disk, R: Ranges>(
    port: &mut Port<D>,
    state: &mut State<R>,
    prepare: Preparing,
) -> Step
    requires order { IsInOrder D.stated port.old state.old }
    requires held { state.old.memory.hand ≡ HeldPrepare prepare.ticket prepare.current prepare.backup FlushesFirstLog }
    ensures { Does D.stated D.content D.moment D.left_since D.faults port.old state.old
        (Acts state.old.memory) result port.new state.new }
{
    match port.flush() {
        Ok(()) => {
            state.phase = Phase::Checkpoint;
            state.clean = true;
            state.end(prepare.ticket, Outcome::Done)
        }
        Err(Failed) => state.end(prepare.ticket, Outcome::DiskFault { done: 0 }),
    }
}

/// The next act of the prepare in hand.
fn act_of_prepare<D: Disk, R: Ranges>(
    port: &mut Port<D>,
    state: &mut State<R>,
    prepare: Preparing,
) -> Step
    requires order { IsInOrder D.stated port.old state.old }
    requires held { state.old.memory.hand ≡ HeldPrepare prepare.ticket prepare.current prepare.backup (prepare_of
        (block_in_hand
        state.old.memory.hand) prepare.act) }
    ensures { Does D.stated D.content D.moment D.left_since D.faults port.old state.old
        (Acts state.old.memory) result port.new state.new }
{
    match prepare.act {
        PrepareAct::ReadBlock0 => read_block0(port, state, prepare),
        PrepareAct::WriteCurrent => write_current(port, state, prepare),
        PrepareAct::WriteBackup => write_backup(port, state, prepare),
        PrepareAct::FlushCopies => flush_copies(port, state, prepare),
        PrepareAct::WriteFirstLog => write_first_log(port, state, prepare),
        PrepareAct::FlushFirstLog => flush_first_log(port, state, prepare),
    }
}

/// Writes the log in memory to block 0.
pub(crate) fn give_log<D: Disk, R: Ranges>(
    port: &mut Port<D>,
    state: &mut State<R>,
) -> Result<(), Failed>
    requires sizes { D.stated port.old.disk ≡ Some state.old.geometry }
    requires there { IsSome state.old.memory.log }
    ensures made { Makes D.stated D.content D.moment D.left_since D.faults state.old.geometry (Some (WriteCall 0
        (spelling state.old.geometry (log_of_memory state.old.memory)))) (reply_of result) port.old.disk port.new.disk
        port.old.calls port.new.calls }
    ensures kept { state.new ≡ state.old }
{
    let Some(log) = &state.log else {
        unreachable!()
    };
    spell_into(log, state.geometry, &mut state.block);
    port.write(0, &state.block)
}

/// Spells a log into a buffer of one block.
fn spell_into(log: &Log, geometry: Geometry, block: &mut Vec<u8>)
    requires valid { IsLog geometry log.now }
    requires one { length block.old.items ≡ geometry.block_size }
    ensures len { length block.new.items ≡ length block.old.items }
    ensures spelled { block.new.items ≡ spell log.now }
{
    write_log(log, geometry, block);
}

/// The first act of a commit: all is flushed.
fn flush_all<D: Disk, R: Ranges>(
    port: &mut Port<D>,
    state: &mut State<R>,
    commit: Committing,
) -> Step
    requires order { IsInOrder D.stated port.old state.old }
    requires held { state.old.memory.hand ≡ HeldCommit commit.ticket commit.again FlushesAll }
    ensures { Does D.stated D.content D.moment D.left_since D.faults port.old state.old
        (Acts state.old.memory) result port.new state.new }
{
    match port.flush() {
        Ok(()) => {
            state.hand = Hand::Committing(Committing {
                act: CommitAct::ReadCurrent,
                ..commit
            });
            Step::Moved
        }
        Err(Failed) => state.end(commit.ticket, Outcome::DiskFault { done: 0 }),
    }
}

/// Then the current block 0 is read.
fn read_current<D: Disk, R: Ranges>(
    port: &mut Port<D>,
    state: &mut State<R>,
    commit: Committing,
) -> Step
    requires order { IsInOrder D.stated port.old state.old }
    requires held { state.old.memory.hand ≡ HeldCommit commit.ticket commit.again ReadsCurrent }
    ensures { Does D.stated D.content D.moment D.left_since D.faults port.old state.old
        (Acts state.old.memory) result port.new state.new }
{
    let size = state.size();
    let place = state.place_of_0();
    state.hand = Hand::Empty;
    match read_slot(port, &mut state.buffer, size, place, 0) {
        Ok(()) => {
            state.hand = Hand::Committing(Committing {
                act: CommitAct::WriteBlock0,
                ..commit
            });
            Step::Moved
        }
        Err(Failed) => state.answer(commit.ticket, Outcome::DiskFault { done: 0 }),
    }
}

/// Then it is written to block 0, which decides.
fn write_block0<D: Disk, R: Ranges>(
    port: &mut Port<D>,
    state: &mut State<R>,
    commit: Committing,
) -> Step
    requires order { IsInOrder D.stated port.old state.old }
    requires held { state.old.memory.hand ≡ HeldCommit commit.ticket commit.again (WritesBlock0 (block_in_hand
        state.old.memory.hand)) }
    ensures { Does D.stated D.content D.moment D.left_since D.faults port.old state.old
        (Acts state.old.memory) result port.new state.new }
{
    let size = state.size();
    let made = write_slot(port, &state.buffer, size, 0, 0);
    state.phase = Phase::Deciding;
    match made {
        Ok(()) => {
            state.hand = Hand::Committing(Committing {
                act: CommitAct::FlushDecision,
                ..commit
            });
            Step::Moved
        }
        Err(Failed) => state.end(commit.ticket, Outcome::DiskFault { done: 0 }),
    }
}

/// The last act of a commit: the decision is flushed, and the checkpoint is given up.
fn flush_decision<D: Disk, R: Ranges>(
    port: &mut Port<D>,
    state: &mut State<R>,
    commit: Committing,
) -> Step
    requires order { IsInOrder D.stated port.old state.old }
    requires held { state.old.memory.hand ≡ HeldCommit commit.ticket commit.again FlushesDecision }
    ensures { Does D.stated D.content D.moment D.left_since D.faults port.old state.old
        (Acts state.old.memory) result port.new state.new }
{
    match port.flush() {
        Ok(()) => {
            state.release();
            state.end(commit.ticket, Outcome::Done)
        }
        Err(Failed) => state.end(commit.ticket, Outcome::DiskFault { done: 0 }),
    }
}

/// The next act of the commit in hand.
fn act_of_commit<D: Disk, R: Ranges>(
    port: &mut Port<D>,
    state: &mut State<R>,
    commit: Committing,
) -> Step
    requires order { IsInOrder D.stated port.old state.old }
    requires held { state.old.memory.hand ≡ HeldCommit commit.ticket commit.again (commit_of (block_in_hand
        state.old.memory.hand) commit.act) }
    ensures { Does D.stated D.content D.moment D.left_since D.faults port.old state.old
        (Acts state.old.memory) result port.new state.new }
{
    match commit.act {
        CommitAct::FlushAll => flush_all(port, state, commit),
        CommitAct::ReadCurrent => read_current(port, state, commit),
        CommitAct::WriteBlock0 => write_block0(port, state, commit),
        CommitAct::FlushDecision => flush_decision(port, state, commit),
    }
}

impl<R: Ranges> State<R> {
    /// Two free blocks: one, and then another as if that one were not free.
    fn pick_two(&mut self) -> Option<(u64, u64)>
        requires { IsTable self.old.geometry self.old.memory.kinds }
        ensures picked { result ≡ two_picked self.old.memory.kinds }
        ensures kept { self.new ≡ self.old }
    {
        if self.table.free_blocks() < 2 {
            return None;
        }
        let Some(current) = self.table.pick(1) else {
            return None;
        };
        self.table.set(current, Kind::Backup);
        let backup = self.table.pick(1);
        self.table.set(current, Kind::Free);
        let Some(backup) = backup else {
            return None;
        };
        Some((current.first, backup.first))
    }

    /// The copies of block 0 are durable: the checkpoint is armed.
    fn arm(&mut self, prepare: Preparing)
        requires sound { MemoryIsSound self.old.geometry self.old.memory }
        requires held { self.old.memory.hand ≡ HeldPrepare prepare.ticket prepare.current prepare.backup
            (FlushesCopies (block_in_hand self.old.memory.hand)) }
        ensures { self.new ≡ with_memory self.old (armed self.old.memory prepare.ticket prepare.current prepare.backup
            (block_in_hand self.old.memory.hand)) }
    {
        let entry = entry_of_slots(self.geometry, &self.buffer, 0, prepare.backup, 1);
        self.trimmed = self.table.free_blocks();
        self.log = Some(Log::first(self.geometry, prepare.current, entry));
        self.clean = false;
        self.phase = Phase::Arming;
        self.table.set(run(prepare.current, 1), Kind::Current);
        self.table.set(run(prepare.backup, 1), Kind::Backup);
        self.hand = Hand::Preparing(Preparing {
            act: PrepareAct::WriteFirstLog,
            ..prepare
        });
    }

    /// Nothing is in hand any more, and the request of this ticket is answered, if it waits.
    fn end(&mut self, ticket: Ticket, outcome: Outcome) -> Step
        ensures told { told_of result ≡ (answered_for (record self.old.memory { hand = Empty }) (request_of ticket
            self.old.memory.requests) (λ r. outcome) (λ r. [])).told }
        ensures memory { self.new ≡ with_memory self.old (answered_for (record self.old.memory { hand = Empty })
            (request_of ticket self.old.memory.requests) (λ r. outcome) (λ r. [])).memory }
    {
        self.hand = Hand::Empty;
        self.answer(ticket, outcome)
    }

    /// The checkpoint is given up: all blocks but 0 are unchanged.
    fn release(&mut self)
        requires { is_saved (kind_at self.old.memory.kinds 0) ≡ false }
        ensures { self.new ≡ with_memory self.old (record self.old.memory {
          phase = Committed;
          kinds = with_kind self.old.memory.kinds (record { first = 1; count = length self.old.memory.kinds - 1 })
              Unchanged;
          log = None;
          clean = false;
        }) }
    {
        self.phase = Phase::Committed;
        self.table
            .set(run(1, self.geometry.blocks - 1), Kind::Unchanged);
        self.log = None;
        self.clean = false;
        self.saved = run(0, 0);
    }
}
