// The device.
ghost use Rattle.std.specs.Prelude.{◌≡◌, ◌+◌, ◌-◌, ◌<◌, ◌≤◌, ◌↔◌, ◌^◌, ◌++◌, ◌∷◌, [], length, IfOk, IfErr};
ghost use Rattle.std.specs.Prelude.{OnErr, OnOk, IsSome, List, Some, true, false, option_copied, MatchResult};
ghost use Rattle.std.specs.Prelude.{slice_index_or};
ghost use Rattle.std.specs.Option.{option_map};
ghost use Rattle.bow_core.specs.Calls.{read_reply, Counted};
ghost use Rattle.bow_core.specs.Forward.{IsForward, StaysForward};
ghost use Rattle.bow_core.specs.Further.{BehindIn, IsReadable, KeepsOn, LedIn};
ghost use Rattle.bow_core.specs.Openings.{KeepsImage, LeftBy, OpenCause, OpenedBy};
ghost use Rattle.bow_core.specs.Ports.{Makes};
ghost use Rattle.bow_core.specs.Refusals.{RefusesExactly};
ghost use Rattle.bow_core.specs.Room.{FindsNoSpace, IsExactRoom};
ghost use Rattle.bow_core.specs.Standing.{StandsIn, Leads};
ghost use Rattle.bow_core.specs.Steps.{Does, FailureIsTold, IsInOrder, IsStep};
ghost use Rattle.bow_core.specs.Ties.{IsTied};
ghost use Rattle.bow_core.specs.Turns.{told_of};
ghost use Rattle.bow_core.specs.Views.{IsOpened};
ghost use Rattle.bow_disk.specs.Disk.{Content};
ghost use Rattle.bow_flat.specs.Flat.Event.{Flushes};
ghost use Rattle.bow_flat.specs.Flat.{Flat, after, opening};
ghost use Rattle.bow_flat.specs.Valid.{HasCheckpoint};
ghost use Rattle.bow_log.specs.Generations.{fields_of, Generation};
ghost use Rattle.bow_machine.specs.Calls.{ReadCall};
ghost use Rattle.bow_machine.specs.Laws.{opened};
ghost use Rattle.bow_machine.specs.MemoryIsSound.{IsAdmissible};
ghost use Rattle.bow_machine.specs.MemoryLaws.{tells_fault};
ghost use Rattle.bow_machine.specs.Ready.{is_ready};
ghost use Rattle.bow_machine.specs.Requests.{Request};
ghost use Rattle.bow_machine.specs.Shown.{status_of, IsShown};
ghost use Rattle.bow_machine.specs.Steps.{Answered, Idle};
ghost use Rattle.bow_machine.specs.Tasks.{task_of};
ghost use Rattle.bow_machine.specs.declared.turns.Turn.TheVariants.{Command, Map};
ghost use Rattle.bow_queue.specs.declared.tickets.Ticket.{Ticket};
ghost use Rattle.bow_units.specs.Causes.{Rose};
ghost use Rattle.bow_units.specs.Magics.{IsPlain};
ghost use Rattle.bow_units.specs.Sizes.{IsValid};
ghost use Rattle.bow_units.specs.declared.requests.Op.TheVariants.{Flush};
ghost use Rattle.bow_units.specs.declared.requests.Outcome.TheVariants.{Done, NoSpace};
ghost use Rattle.bow_units.specs.declared.requests.Phase.TheVariants.{Checkpoint};

use crate::batches::step_worker;
use crate::commands::step_command;
use crate::mapping::map_step;
use crate::ports::Port;
use crate::slots::read_block;
use crate::state::State;
use crate::turns::Step;
use crate::{Ticket, Turn};
use bow_disk::Disk;
use bow_log::Log;
use bow_ranges::Ranges;
use bow_units::{Failed, Geometry, Op, Status, has_magic};
use std::alloc::Global;
use std::marker::Model;

/// Why a device could not be opened.
#[derive(Clone, Copy, Debug, PartialEq, Eq)]
pub enum OpenFault {
    /// The disk states these sizes, which no device has.
    BadGeometry(Geometry),
    /// Block 0 begins with a magic: the disk has to be restored first.
    NeedsRestore,
    /// A call on the disk failed.
    DiskFault,
    /// There was no memory.
    NoMemory,
}

/// A device over a disk, with places for 1 to 16 requests. It takes requests in and carries them out, step by step,
/// in the order of the turns that it is given. Contracts see it as its disk, its sizes and places, the machine's
/// memory, how many requests it admitted, and how many calls it has made on the disk.
#[derive(Drop)]
pub struct Core<D: Disk, R: Ranges> {
    port: Port<D>,
    state: State<R>,
}

impl<D: Disk, R: Ranges> Model for Core<D, R> {
    ghost use Rattle.bow_core.specs.Views.{View, view_of, IsOpened};

    ghost Value = { View D };

    ghost view = { λ c. view_of c.port.disk c.state c.port.calls };

    ghost invariant = { λ c. IsOpened D.stated (view_of c.port.disk c.state c.port.calls) };
}

/// Before anything waits the disk is flushed, and block 0 begins with no magic.
fn settle<D: Disk, R: Ranges>(port: &mut Port<D>, state: &mut State<R>) -> Result<(), OpenFault>
    requires sizes { D.stated port.old.disk ≡ Some state.old.geometry }
    requires none { port.old.calls ≡ 0 }
    ensures state { state.new ≡ state.old }
    ensures calls { OnOk result (port.new.calls ≡ 2) }
    ensures left { LeftBy D.stated D.content D.moment D.left_since D.faults state.old.geometry result port.old.disk
        port.new.disk }
{
    let Ok(()) = port.flush() else {
        return Err(OpenFault::DiskFault);
    };
    let Ok(()) = read_block(port, &mut state.block, 0) else {
        return Err(OpenFault::DiskFault);
    };
    if has_magic(&state.block) {
        return Err(OpenFault::NeedsRestore);
    }
    Ok(())
}

/// The step of a turn.
fn step_turn<D: Disk, R: Ranges>(port: &mut Port<D>, state: &mut State<R>, turn: Turn) -> Step
    requires order { IsInOrder D.stated port.old state.old }
    ensures { Does D.stated D.content D.moment D.left_since D.faults port.old state.old
        (task_of state.old.geometry state.old.memory turn) result port.new state.new }
{
    match turn {
        Turn::Map(ticket) => map_step(port, state, ticket),
        Turn::Worker => step_worker(port, state),
        Turn::Command => step_command(port, state),
    }
}

impl<D: Disk, R: Ranges> Core<D, R> {
    /// Opens a device of 1 to 16 places on a disk: asks the sizes, takes all memory, flushes, and reads block 0. The
    /// device is then in phase `Trim`, no request waits, and it stands for the opening state of the disk's image, of
    /// which block 0 begins with no magic; none of its calls has failed. The image is unchanged, and what a cut leaves
    /// meanwhile it might have left before; on an error the disk is handed back so: `BadGeometry` comes exactly where
    /// the disk states sizes that are not valid, before any read, write or flush; `NeedsRestore` exactly where block 0
    /// begins with a magic; `DiskFault` only where its count of faults rose in this call, and then its sizes are valid
    /// or nothing was read, written or flushed.
    pub fn open(alloc: Global, mut disk: D, places: u32) -> Result<Core<D, R>, (OpenFault, D)>
        requires some { 1 ≤ places }
        requires few { places ≤ 16 }
        ensures valid { IfOk result (λ core. IsValid core.geometry) }
        ensures opened { IfOk result (λ core. IsOpened D.stated core) }
        ensures fresh { IfOk result (λ core. (core.memory ≡ opened core.geometry.blocks) × (core.places ≡ places) ×
            (core.admitted ≡ 0) × (core.calls ≡ 2)) }
        ensures kept { MatchResult result (λ core. KeepsImage D.stated D.content D.moment D.left_since D.faults disk
            core.disk) (λ e. KeepsImage D.stated D.content D.moment D.left_since D.faults disk e.1) }
        ensures stands { (c : Content) → D.content disk ≡ Some c → IfOk result (λ core. IsPlain (slice_index_or c.now 0
            []) × StandsIn D.content core (opening c.now)) }
        ensures led { (c : Content) → D.content disk ≡ Some c → IfOk result (λ core. LedIn D.content core (opening
            c.now)) }
        ensures unfailed { IfOk result (λ core. OpenedBy D.stated D.content D.moment D.left_since D.faults core.geometry
            disk core.disk) }
        ensures clock { (c : Content) → D.content disk ≡ Some c → MatchResult result (λ core. Counted 2 (D.moment disk)
            (D.moment core.disk)) (λ e. D.moment e.1 ≤ D.moment disk + 2) }
        ensures cause { IfErr result (λ e. OpenCause D.stated D.content D.moment D.faults disk e.1 e.0) }
    {
        let Ok(geometry) = disk.sizes() else {
            return Err((OpenFault::DiskFault, disk));
        };
        if !geometry.valid() {
            return Err((OpenFault::BadGeometry(geometry), disk));
        }
        let Ok(mut state) = State::open(alloc, geometry, places) else {
            return Err((OpenFault::NoMemory, disk));
        };
        let mut port = Port { disk, calls: 0 };
        match settle(&mut port, &mut state) {
            Ok(()) => Ok(Core { port, state }),
            Err(fault) => {
                let Port { disk, .. } = port;
                Err((fault, disk))
            }
        }
    }

    /// The sizes with which it was opened. They are those that its disk states.
    pub fn geometry(&self) -> Geometry
        ensures is { result ≡ self.now.geometry }
        ensures opened { IsOpened D.stated self.now }
    {
        self.state.geometry
    }

    /// How many more requests it can take in now.
    pub fn spare(&self) -> u32
        ensures { result + length self.now.memory.requests ≡ self.now.places }
    {
        self.state.spare()
    }

    /// How many requests it has taken in.
    pub fn admitted(&self) -> u64
        ensures { result ≡ self.now.admitted }
    {
        self.state.admitted()
    }

    /// How many reads, writes and flushes it has made on its disk since its opening began, or the last value of `u64`
    /// where there were more.
    pub fn calls(&self) -> u64
        ensures { result ≡ self.now.calls }
    {
        self.port.calls
    }

    /// The phase, how many blocks are free, and the sequence number and the entries of the log in memory, which are 0
    /// in `Trim` and `Committed`; in `Committed` none is free. From `Arming` to `Deciding` the room is exact: how many
    /// blocks are free follows from how many were when the checkpoint was prepared, which is what each flat state for
    /// which the device stands says.
    pub fn status(&self) -> Status
        ensures is { result ≡ status_of self.now.memory }
        ensures shown { IsShown self.now.geometry result }
        ensures room { HasCheckpoint result.phase → IsExactRoom self.now.memory result }
        ensures trimmed { (f : Flat) → StandsIn D.content self.now f → HasCheckpoint result.phase → f.trimmed ≡
            self.now.memory.trimmed }
    {
        self.state.status()
    }

    /// The log in memory. There is none exactly in `Trim` and `Committed`. In `Checkpoint` the checkpoint can be read
    /// beside running writers by it, for each flat state for which the device stands.
    pub fn log(&self) -> Option<&Log>
        ensures is { option_copied result ≡ option_map (fields_of self.now.geometry) self.now.memory.log }
        ensures there { IsSome result ↔ HasCheckpoint self.now.memory.phase }
        ensures readable { (f : Flat) (log : Generation) → StandsIn D.content self.now f → self.now.memory.phase ≡
            Checkpoint → self.now.memory.log ≡ Some log → IsReadable D.content self.now log f }
    {
        self.state.log()
    }

    /// One read of block `at`, beside the device, into a buffer of one block: all else stays, and so does all for which
    /// the device stands. The image is unchanged, and what a cut leaves meanwhile it might have left before. `Failed`
    /// comes only where the disk's count of faults rose in this call.
    pub fn raw(&mut self, at: u64, into: &mut [u8]) -> Result<(), Failed>
        requires on { at < self.old.geometry.blocks }
        requires one { length into.old ≡ self.old.geometry.block_size }
        ensures made { Makes D.stated D.content D.moment D.left_since D.faults self.old.geometry (Some (ReadCall at))
            (read_reply result into.new) self.old.disk self.new.disk self.old.calls self.new.calls }
        ensures kept { self.new ≡ record self.old { disk = self.new.disk; calls = self.new.calls } }
        ensures image { KeepsImage D.stated D.content D.moment D.left_since D.faults self.old.disk self.new.disk }
        ensures cause { OnErr result (Rose (D.faults self.old.disk) (D.faults self.new.disk)) }
        ensures opened { IsOpened D.stated self.new }
        ensures stands { (f : Flat) → StandsIn D.content self.old f → StandsIn D.content self.new f }
        ensures led { (f : Flat) → LedIn D.content self.old f → LedIn D.content self.new f }
        ensures older { (log : Generation) (older : List Generation) → BehindIn D.content self.old log older → BehindIn
            D.content self.new log older }
    {
        self.port.read(at, into)
    }

    /// The disk.
    pub fn disk(&self) -> &D
        ensures { result.now ≡ self.now.disk }
    {
        &self.port.disk
    }

    /// Takes a request in: a read or a write has 1 to 16 blocks and a buffer of that many. It waits under the ticket
    /// until a step answers it. There is a spare place, and fewer than 2^64 - 1 requests were admitted before. All for
    /// which the device stands stays.
    pub fn admit(&mut self, op: Op) -> Ticket
        requires place { length self.old.memory.requests < self.old.places }
        requires number { self.old.admitted < 2 ^ 64 - 1 }
        requires whole { IsAdmissible self.old.geometry op }
        ensures serial { result.serial ≡ self.old.admitted }
        ensures waits { self.new ≡ record self.old {
          memory = record self.old.memory {
            requests =
                self.old.memory.requests ++ record { ticket = result; op = op; done = 0 } ∷ [];
          };
          admitted =
              self.old.admitted + 1;
        } }
        ensures opened { IsOpened D.stated self.new }
        ensures stands { (f : Flat) → StandsIn D.content self.old f → StandsIn D.content self.new f }
        ensures led { (f : Flat) → LedIn D.content self.old f → LedIn D.content self.new f }
        ensures forward { (f : Flat) → IsForward D.content self.old f → IsForward D.content self.new f }
    {
        self.state.admit(op)
    }

    /// Whether a turn makes a step: by the table of readiness.
    pub fn ready(&self, turn: Turn) -> bool
        ensures { result ≡ is_ready self.now.geometry self.now.memory turn }
    {
        self.state.is_ready(turn)
    }

    /// One step, with at most one call on the disk: one step of the machine. It is `Idle` exactly where the table of
    /// readiness says that the turn is not ready, and then nothing changes. A request is answered `DiskFault` only
    /// where the disk's count of faults rose in this step, and `NoSpace` exactly where the turn finds none: where no
    /// block is free for the worker's head, or no two for a prepare. It is refused exactly where it fails a test at its
    /// own turn, or is a command that has no place in this phase. The step leads from each flat state for which the
    /// device stood to one for which it stands, by events that may be, and what a cut leaves meanwhile was left before
    /// or stands for it. Where a call of the step failed, a fault is told. From a flush in `Checkpoint` that is
    /// answered done, before which no call has failed, to the end of a commit, with no steps but those of the commands
    /// between, each crash image may be given up forward, also where the last call failed.
    pub fn step(&mut self, turn: Turn) -> Step
        ensures step { IsStep D.stated D.content D.moment D.left_since D.faults self.old turn result self.new }
        ensures idle { (told_of result ≡ Idle) ↔ (is_ready self.old.geometry self.old.memory turn ≡ false) }
        ensures still { told_of result ≡ Idle → self.new ≡ self.old }
        ensures cause { tells_fault (told_of result) ≡ true → Rose (D.faults self.old.disk) (D.faults self.new.disk) }
        ensures failed { FailureIsTold D.stated D.content D.moment D.left_since D.faults self.old turn result self.new }
        ensures faults { D.faults self.old.disk ≤ D.faults self.new.disk }
        ensures space { (r : Request) → (told_of result ≡ Answered r.ticket r.op (NoSpace r.done)) ↔ FindsNoSpace
            self.old.geometry self.old.memory turn r }
        ensures refused { RefusesExactly self.old.geometry self.old.memory turn result }
        ensures tied { IsTied self.old.geometry self.old.memory self.new.memory }
        ensures calls { (self.old.calls ≤ self.new.calls) × (self.new.calls ≤ self.old.calls + 1) }
        ensures opened { IsOpened D.stated self.new }
        ensures leads { (f : Flat) → StandsIn D.content self.old f → Leads D.content D.moment D.left_since self.old
            turn result self.new f }
        ensures further { (f : Flat) → StandsIn D.content self.old f → KeepsOn D.content self.old turn result self.new
            f }
        ensures flushed { (f : Flat) (asked t : Ticket) → StandsIn D.content self.old f → LedIn D.content self.old f →
            self.old.memory.phase ≡ Checkpoint → turn ≡ Map asked → told_of result ≡ Answered t Flush Done →
            IsForward D.content self.new (after self.old.geometry.blocks Flushes f) }
        ensures forward { (f : Flat) → IsForward D.content self.old f → turn ≡ Command → StaysForward D.content
            D.moment D.left_since self.old result self.new f }
    {
        step_turn(&mut self.port, &mut self.state, turn)
    }

    /// Gives the disk back, without a call on it. Requests that wait are dropped.
    pub fn close(self) -> D
        ensures same { result ≡ self.disk }
        ensures sizes { D.stated result ≡ Some self.geometry }
    {
        let Core { port, .. } = self;
        let Port { disk, .. } = port;
        disk
    }
}
