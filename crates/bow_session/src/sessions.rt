// A session.
ghost use Rattle.std.specs.Prelude.{◌≡◌, ◌+◌, ◌-◌, ◌%◌, ◌<◌, ◌≤◌, ◌^◌, ◌↔◌, ◌∷◌, [], ℕ, length, slice_index_or, IsTrue, IfOk, IfErr, IfSome, IsSome, OnOk, Some, None, false};
ghost use Rattle.std.specs.Prelude.{true, List, ◌++◌};
ghost use Rattle.bow_history.specs.Ready.{is_actor_ready};
ghost use Rattle.bow_history.specs.Sessions.{Turned};
ghost use Rattle.bow_history.specs.SoundSessions.{IsSoundSession};
ghost use Rattle.bow_history.specs.Complete.{IsComplete};
ghost use Rattle.bow_history.specs.DiskCuts.{StandsAheadToo};
ghost use Rattle.bow_history.specs.Fits.{Agrees};
ghost use Rattle.bow_flat.specs.Flat.{Flat};
ghost use Rattle.bow_guard.specs.Standing.{StandsFor};
ghost use Rattle.bow_core.specs.Further.{LedIn};
ghost use Rattle.bow_history.specs.Prepared.{IsPrepared};
ghost use Rattle.bow_session.specs.Leads.{BeginsAt, FaultsAreCounted, LeadsAhead, LeadsFrom, MayBeginAnew};
ghost use Rattle.bow_session.specs.Leads.{StaysBelow, TellsNoFault, WasLoaded, requests_of};
ghost use Rattle.bow_units.specs.declared.requests.Phase.TheVariants.{Checkpoint};
ghost use Rattle.std.specs.Option.{option_map};
ghost use Rattle.bow_log.specs.Generations.{fields_of};
ghost use Rattle.bow_machine.specs.Calls.{ReadCall};
ghost use Rattle.bow_machine.specs.Shown.{status_of, IsShown};
ghost use Rattle.bow_core.specs.Calls.{read_reply};
ghost use Rattle.bow_core.specs.Ports.{Makes};
ghost use Rattle.bow_core.specs.Views.{View};
ghost use Rattle.bow_script.specs.Scripts.{IsWithinLimits, IsWellFormed};
ghost use Rattle.bow_session.specs.Loading.{loaded};
ghost use Rattle.bow_session.specs.Parts.{account_of};
ghost use Rattle.bow_session.specs.Plays.{Plays};
ghost use Rattle.bow_history.specs.Ends.{actor_in, turns_left};
ghost use Rattle.bow_history.specs.Schedule.{FollowsDraws, chosen, drawn};
ghost use Rattle.bow_units.specs.Draws.{next_number};
ghost use Rattle.bow_machine.specs.Steps.{payload_of};
ghost use Rattle.bow_units.specs.Sizes.{IsBlockSize};
ghost use Rattle.std.specs.Prelude.{option_copied, slice_get};
ghost use Rattle.bow_flat.specs.Flat.{block_at};
ghost use Rattle.bow_session.specs.Contents.{bytes_given, content_in, data_of};
ghost use Rattle.bow_session.specs.Cuts.{CutsAreOfRun, GoesOn};
ghost use Rattle.bow_session.specs.Runs.{IsRun};
ghost use Rattle.bow_session.specs.Requests.{lane_lines, lanes_of, requests_in};
ghost use Rattle.bow_session.specs.Sessions.{IsOver, lane_at, plan_in, state_in};
ghost use Rattle.bow_session.specs.Turns.{IsOneTurn, StepsBy};

use crate::desks::Desk;
use crate::lines::line_of;
use crate::loading::take;
use crate::parts::Part;
use crate::seats::are_over;
use bow_core::Core;
use bow_disk::Disk;
use bow_history::{Actor, Item};
use bow_log::Log;
use bow_ranges::Ranges;
use bow_script::{Line, Script};
use bow_units::{Draws, Failed, Geometry, NoMemory, Status};
use std::alloc::Global;
use std::marker::Model;

/// A script, played step by step against a device: in each section its lanes beside one another, and a section once
/// the earlier ones are answered. Contracts see it as its device, its script, of each lane the answered requests with
/// their buffers and the ticket of the one that the device has, the journal, and the device's count of calls right
/// after each item.
#[derive(Drop)]
pub struct Session<D: Disk, R: Ranges> {
    desk: Desk<D, R>,
}

impl<D: Disk, R: Ranges> Model for Session<D, R> {
    ghost use Rattle.bow_session.specs.Sessions.{Run};

    ghost Value = { Run D };

    ghost use Rattle.bow_session.specs.Desks.{Fits, run_of};

    ghost view = { λ s. run_of s.desk };

    ghost invariant = { λ s. Fits s.desk };
}

impl<D: Disk, R: Ranges + Drop> Session<D, R> {
    /// A session before its first step, over a device of 16 places in which no request waits. It takes all memory of
    /// the run: each later call takes none. `NoMemory` comes with the device as it was.
    pub fn load(
        alloc: Global,
        core: Core<D, R>,
        script: Script,
    ) -> Result<Session<D, R>, (Core<D, R>, NoMemory)>
        requires limits { IsWithinLimits script }
        requires numbers { IsWellFormed script }
        requires idle { core.memory.requests ≡ [] }
        requires places { core.places ≡ 16 }
        requires serials { core.admitted < 2 ^ 63 }
        requires early { core.calls ≤ 2 ^ 64 - 1 }
        ensures fresh { IfOk result (λ s. s ≡ loaded core script) }
        ensures run { IfOk result (λ s. IsRun D.stated D.content D.faults core [] s) }
        ensures cuts { IfOk result (λ s. CutsAreOfRun D.content D.moment D.left_since core [] s) }
        ensures loaded { IfOk result (λ s. WasLoaded D.stated D.content D.moment D.left_since D.faults core s) }
        ensures kept { IfErr result (λ e. e.0 ≡ core) }
    {
        match take(alloc, &script, core.geometry()) {
            Ok(records) => Ok(Session {
                desk: Desk {
                    core,
                    script,
                    records,
                },
            }),
            Err(NoMemory) => Err((core, NoMemory)),
        }
    }

    /// The largest number of lanes in a section.
    pub fn lanes(&self) -> u32
        ensures is { result ≡ lanes_of self.now.script }
        ensures few { result ≤ 16 }
    {
        self.desk.records.seats.len() as u32
    }

    /// Whether the actor makes a step.
    pub fn ready(&self, actor: Actor) -> bool
        ensures { result ≡ is_actor_ready (plan_in self.now) (state_in self.now) actor }
    {
        self.desk.is_ready(actor)
    }

    /// One step. It is `false` exactly where the actor is not ready, and then nothing changes. Else a lane whose next
    /// request the device does not have hands it over, and no call is made; any other actor makes one step of the
    /// device, and what that told is at most one more item of the journal.
    pub fn step(&mut self, actor: Actor) -> bool
        ensures ready { result ≡ is_actor_ready (plan_in self.old) (state_in self.old) actor }
        ensures idle { result ≡ false → self.new ≡ self.old }
        ensures turn { result ≡ true → StepsBy D.stated D.content D.moment D.left_since D.faults self.old actor
            self.new }
        ensures run { (first : View D) (turns : List Turned) → IsRun D.stated D.content D.faults first turns self.old
            → result ≡ true → (turn : Turned) × GoesOn D.stated D.content D.moment D.left_since D.faults first turns
            (turn ∷ []) self.old self.new }
        ensures loaded { (first : View D) → WasLoaded D.stated D.content D.moment D.left_since D.faults first self.old
            → WasLoaded D.stated D.content D.moment D.left_since D.faults first self.new }
    {
        let ready = self.desk.is_ready(actor);
        if ready {
            self.desk.step(actor);
        }
        ready
    }

    /// One turn by a draw: a number below that of all actors is drawn, which are the lanes in their order, the worker
    /// and the commands; of them the first ready one from there on, going round, makes a step. It is `false` exactly
    /// where all requests are answered, and then nothing is drawn.
    pub fn turn(&mut self, draws: &mut Draws) -> bool
        ensures over { result ≡ false ↔ IsOver self.old }
        ensures still { result ≡ false → (self.new ≡ self.old) × (draws.new ≡ draws.old) }
        ensures number { result ≡ true → draws.new ≡ next_number draws.old }
        ensures turn { result ≡ true → (turn : Turned) × (actor_in turn ≡ drawn (plan_in self.old) (state_in self.old)
            draws.old) × IsOneTurn D.stated D.content D.moment D.left_since D.faults self.old turn self.new }
        ensures fewer { result ≡ true → turns_left (plan_in self.new) (requests_in self.new.script) (state_in self.new)
            < turns_left (plan_in self.old) (requests_in self.old.script) (state_in self.old) }
        ensures loaded { (first : View D) → WasLoaded D.stated D.content D.moment D.left_since D.faults first self.old
            → WasLoaded D.stated D.content D.moment D.left_since D.faults first self.new }
    {
        if are_over(&self.desk.records.seats) {
            return false;
        }
        self.desk.turn(draws);
        true
    }

    /// Makes steps until all requests are answered. Each turn draws a number below that of all actors, which are the
    /// lanes in their order, the worker and the commands: of them the first ready one from there on, going round, makes
    /// a step. Then no request waits, and each request of the script was answered, in its lane's order and section by
    /// section; the disk's count of faults rose by at least the answers that tell one. Where the disk tells its
    /// content, the journal leads from the state for which the device stood when the session was loaded to one for
    /// which it stands; so do all cuts since then and since the moment of each item; and where no call failed, whatever
    /// a cut leaves is ahead for its state too.
    pub fn finish(&mut self, number: u64)
        ensures over { IsOver self.new }
        ensures plays { (turns : List Turned) × Plays D.stated D.content D.moment D.left_since D.faults number self.old
            turns self.new }
        ensures run { (first : View D) (turns : List Turned) → IsRun D.stated D.content D.faults first turns self.old
            → (more : List Turned) × FollowsDraws (plan_in self.old) (state_in self.old) number more × GoesOn D.stated
            D.content D.moment D.left_since D.faults first turns more self.old self.new }
        ensures script { (self.new.script ≡ self.old.script) × (self.new.core.geometry ≡ self.old.core.geometry) }
        ensures idle { self.new.core.memory.requests ≡ [] }
        ensures buffers { Agrees (plan_in self.new) (state_in self.new) (state_in self.new).kept }
        ensures loaded { (first : View D) → WasLoaded D.stated D.content D.moment D.left_since D.faults first self.old
            → WasLoaded D.stated D.content D.moment D.left_since D.faults first self.new }
        ensures complete { (first : View D) → WasLoaded D.stated D.content D.moment D.left_since D.faults first self.old
            → IsComplete (plan_in self.new) self.new.journal }
        ensures faults { (first : View D) → WasLoaded D.stated D.content D.moment D.left_since D.faults first self.old
            → FaultsAreCounted D.faults first self.new }
        ensures leads { (first : View D) (f : Flat) → WasLoaded D.stated D.content D.moment D.left_since D.faults first
            self.old → BeginsAt D.content (plan_in self.old) first f → LeadsFrom D.content D.moment D.left_since
            (StandsFor self.new.core.geometry) first f self.new }
        ensures ahead { (first : View D) (f : Flat) → WasLoaded D.stated D.content D.moment D.left_since D.faults first
            self.old → BeginsAt D.content (plan_in self.old) first f → LedIn D.content first f → StaysBelow (D.faults
            first.disk) (D.faults self.new.core.disk) → LeadsFrom D.content D.moment D.left_since (StandsAheadToo
            self.new.core.geometry) first f self.new }
    {
        self.desk.finish(number);
    }

    /// Whether all requests are answered. Then none waits, and the journal has each request's answer, in its lane's
    /// order and section by section. Until then the first ready actor from any on, going round, is ready.
    pub fn over(&self) -> bool
        ensures over { IsTrue result ↔ IsOver self.now }
        ensures ready { result ≡ false → (k : ℕ) → k < (plan_in self.now).lanes + 2 → is_actor_ready (plan_in self.now)
            (state_in self.now) (chosen (plan_in self.now) (state_in self.now) k) ≡ true }
        ensures idle { result ≡ true → self.now.core.memory.requests ≡ [] }
        ensures buffers { result ≡ true → Agrees (plan_in self.now) (state_in self.now) (state_in self.now).kept }
        ensures complete { (first : View D) → WasLoaded D.stated D.content D.moment D.left_since D.faults first self.now
            → result ≡ true → IsComplete (plan_in self.now) self.now.journal }
    {
        are_over(&self.desk.records.seats)
    }

    /// Request `number` of the lane as the script has it.
    pub fn line(&self, lane: u32, number: u32) -> Option<&Line>
        ensures { option_copied result ≡ slice_get (lane_lines self.now.script lane) number }
    {
        line_of(&self.desk.script, lane as usize, number as usize)
    }

    /// How many requests the script has for the lane.
    pub fn requests(&self, lane: u32) -> u32
        ensures is { result ≡ requests_in self.now.script lane }
        ensures few { result ≤ 65536 }
    {
        let lane = lane as usize;
        if lane < self.desk.records.seats.len() {
            let seat = &self.desk.records.seats[lane];
            seat.requests()
        } else {
            0
        }
    }

    /// How many requests of the lane are answered.
    pub fn answered(&self, lane: u32) -> u32
        ensures { result ≡ length ((lane_at self.now.lanes lane).answered) }
    {
        let lane = lane as usize;
        if lane < self.desk.records.seats.len() {
            let seat = &self.desk.records.seats[lane];
            seat.number()
        } else {
            0
        }
    }

    /// What was done, in order. The disk's count of faults rose by at least the answers that tell one. Where the disk
    /// tells its content, the journal is legal from the state for which the device stood when the session was loaded,
    /// and so is the way of what cuts leave; where no call failed, that is ahead for its state too: so it is where the
    /// journal tells no fault, and then the device stays led.
    pub fn journal(&self) -> &[Item]
        ensures is { result.now ≡ self.now.journal }
        ensures faults { (first : View D) → WasLoaded D.stated D.content D.moment D.left_since D.faults first self.now
            → FaultsAreCounted D.faults first self.now }
        ensures leads { (first : View D) (f : Flat) → WasLoaded D.stated D.content D.moment D.left_since D.faults first
            self.now → BeginsAt D.content (plan_in self.now) first f → LeadsFrom D.content D.moment D.left_since
            (StandsFor self.now.core.geometry) first f self.now }
        ensures ahead { (first : View D) (f : Flat) → WasLoaded D.stated D.content D.moment D.left_since D.faults first
            self.now → BeginsAt D.content (plan_in self.now) first f → LedIn D.content first f → StaysBelow (D.faults
            first.disk) (D.faults self.now.core.disk) → LeadsFrom D.content D.moment D.left_since (StandsAheadToo
            self.now.core.geometry) first f self.now }
        ensures unfailed { (first : View D) (f : Flat) → WasLoaded D.stated D.content D.moment D.left_since D.faults
            first self.now → BeginsAt D.content (plan_in self.now) first f → LedIn D.content first f → TellsNoFault
            self.now → LeadsAhead D.content D.moment D.left_since first f self.now }
    {
        self.desk.records.journal.as_slice()
    }

    /// The bytes in the buffer of an answered read. `None` exactly where that request is no answered read.
    pub fn data(&self, lane: u32, number: u32) -> Option<&[u8]>
        ensures { option_copied result ≡ data_of self.now.lanes lane number }
    {
        self.desk.records.data(lane, number)
    }

    /// The block that an item of a read has read, from the buffer of that request once it is answered; `None` of any
    /// other item.
    pub fn content(&self, item: Item) -> Option<&[u8]>
        ensures bytes { bytes_given (option_copied result)
            ≡ content_in (plan_in self.now) (state_in self.now).kept item }
        ensures block { IfSome result (λ bytes. IsBlockSize (length bytes.now)) }
    {
        let geometry = self.desk.core.geometry();
        self.desk.records.content(&self.desk.script, geometry, item)
    }

    /// The device's count of calls right after the step that gave that item of the journal, items counted from 0.
    pub fn moment(&self, item: u32) -> u64
        requires { item < length self.now.journal }
        ensures is { result ≡ slice_index_or self.now.moments item 0 }
    {
        self.desk.records.moments.as_slice()[item as usize]
    }

    /// The sizes of the device. The session is sound, whatever its disk has replied.
    pub fn geometry(&self) -> Geometry
        ensures is { result ≡ self.now.core.geometry }
        ensures sound { IsSoundSession (plan_in self.now) (state_in self.now) }
    {
        self.desk.core.geometry()
    }

    /// The device's phase, how many of its blocks are free, and the sequence number and the entries of its log, which
    /// are 0 in `Trim` and `Committed`.
    pub fn status(&self) -> Status
        ensures is { result ≡ status_of self.now.core.memory }
        ensures shown { IsShown self.now.core.geometry result }
    {
        self.desk.core.status()
    }

    /// The device's log in memory. There is none exactly in `Trim` and `Committed`.
    pub fn log(&self) -> Option<&Log>
        ensures { option_copied result
            ≡ option_map (fields_of self.now.core.geometry) self.now.core.memory.log }
    {
        self.desk.core.log()
    }

    /// The device's disk.
    pub fn disk(&self) -> &D
        ensures { result.now ≡ self.now.core.disk }
    {
        self.desk.core.disk()
    }

    /// One read of block `at`, beside the requests, into a buffer of one block. The device counts the call; all else
    /// stays. `Failed` comes only where the disk's count of faults rose in this call.
    pub fn raw(&mut self, at: u64, into: &mut [u8]) -> Result<(), Failed>
        requires on { at < self.old.core.geometry.blocks }
        requires one { length into.old ≡ self.old.core.geometry.block_size }
        ensures made { Makes D.stated D.content D.moment D.left_since D.faults self.old.core.geometry (Some (ReadCall
            at)) (read_reply result into.new) self.old.core.disk self.new.core.disk self.old.core.calls
            self.new.core.calls }
        ensures kept { self.new ≡ record self.old {
          core = record self.old.core { disk = self.new.core.disk; calls = self.new.core.calls };
        } }
    {
        self.desk.core.raw(at, into)
    }

    /// Gives the device back, as `close_with` does, and drops what was done.
    pub fn close(self) -> Core<D, R>
        ensures same { result ≡ self.core }
        ensures places { result.places ≡ 16 }
        ensures idle { IsOver self → result.memory.requests ≡ [] }
        ensures admitted { (first : View D) → WasLoaded D.stated D.content D.moment D.left_since D.faults first self
            → result.admitted ≤ first.admitted + requests_of self.script }
        ensures anew { (first : View D) → WasLoaded D.stated D.content D.moment D.left_since D.faults first self
            → IsOver self → (result.memory.phase ≡ Checkpoint → IsPrepared (plan_in self) self.journal)
            → MayBeginAnew result }
    {
        let (core, _part) = self.close_with();
        core
    }

    /// Gives the device back, and what was done apart from it. The device has 16 places, and where all requests are
    /// answered none waits in it. Since it was taken it has admitted at most as many requests as the script has.
    /// Another session may begin over it where all requests are answered, and it is in no checkpoint, or the journal
    /// has a prepare's `Done` after which no write was answered: then the log is the first one, and no block is changed
    /// or saved.
    pub fn close_with(self) -> (Core<D, R>, Part)
        ensures same { result.0 ≡ self.core }
        ensures part { result.1 ≡ account_of self }
        ensures places { result.0.places ≡ 16 }
        ensures idle { IsOver self → result.0.memory.requests ≡ [] }
        ensures admitted { (first : View D) → WasLoaded D.stated D.content D.moment D.left_since D.faults first self
            → result.0.admitted ≤ first.admitted + requests_of self.script }
        ensures anew { (first : View D) → WasLoaded D.stated D.content D.moment D.left_since D.faults first self
            → IsOver self → (result.0.memory.phase ≡ Checkpoint → IsPrepared (plan_in self) self.journal)
            → MayBeginAnew result.0 }
    {
        let Session { desk } = self;
        let Desk {
            core,
            script,
            records,
        } = desk;
        let geometry = core.geometry();
        let part = Part {
            geometry,
            script,
            records,
        };
        (core, part)
    }
}
