// The play of a drill.
ghost use Rattle.std.specs.Prelude.{◌≡◌, ◌⊎◌, ◌≤◌, ℕ, List, [], length, IfOk};
ghost use Rattle.bow_core.specs.Views.{View};
ghost use Rattle.bow_disk.specs.Memory.{Memory};
ghost use Rattle.bow_history.specs.Sessions.{Turned};
ghost use Rattle.bow_script.specs.Scripts.{IsWellFormed, IsWithinLimits};
ghost use Rattle.bow_session.specs.Requests.{lane_lines};
ghost use Rattle.bow_session.specs.Runs.{begun_over};
ghost use Rattle.bow_session.specs.Sessions.{IsOver, lane_at, plan_in};
ghost use Rattle.bow_play.specs.Beginning.{HasBegun};
ghost use Rattle.bow_tool.specs.Outside.{disk_view};
ghost use Rattle.bow_tool.specs.Drills.{DrawsOn, IsAnswered, IsDrawn, IsDrillDisk, Waits, memory_view};

use crate::drill_disks::drill_disk;
use bow_core::Core;
use bow_disk::{Disk, MemDisk};
use bow_ranges::Ranges;
use bow_script::Script;
use bow_session::Session;
use bow_units::{Draws, NoMemory};
use std::alloc::Global;

// The session of a drill before its first step.
pub(crate) fn begin<R: Ranges>(
    alloc: Global,
    script: Script,
) -> Result<Session<MemDisk, R>, NoMemory>
    requires limits { IsWithinLimits script }
    requires numbers { IsWellFormed script }
    ensures begun { IfOk result (λ s. (disk : Memory) × IsDrillDisk disk × HasBegun memory_view.stated
        memory_view.content memory_view.moment memory_view.left_since memory_view.faults disk s) }
    ensures script { IfOk result (λ s. s.script ≡ script) }
{
    let disk = drill_disk(alloc)?;
    begin_on(alloc, disk, script)
}

// A session over a device that is opened on the disk.
fn begin_on<D: Disk + Drop, R: Ranges>(
    alloc: Global,
    disk: D,
    script: Script,
) -> Result<Session<D, R>, NoMemory>
    requires limits { IsWithinLimits script }
    requires numbers { IsWellFormed script }
    ensures begun { IfOk result (λ s. HasBegun D.stated D.content D.moment D.left_since D.faults disk s) }
    ensures script { IfOk result (λ s. s.script ≡ script) }
{
    let Ok(core) = Core::open(alloc, disk, 16) else {
        return Err(NoMemory);
    };
    match Session::load(alloc, core, script) {
        Ok(session) => Ok(session),
        Err(_) => Err(NoMemory),
    }
}

// Makes turns by the draws from this number: first until the first section is answered, then so many more at most. It
// answers how many more were made.
pub(crate) fn play<D: Disk, R: Ranges>(session: &mut Session<D, R>, seed: u64, most: u32) -> u32
    requires { 2 ≤ length (lane_lines session.old.script 0) }
    ensures turns { let v = disk_view D.stated D.content D.moment D.left_since D.faults in (first : View D)
        → (k : IsDrawn v seed first session.old seed) → k.turns ≡ [] → (opening : List Turned)
        × (number : ℕ) × DrawsOn v seed first opening result session.new number
        × Waits (plan_in session.new) (begun_over first) opening
        × IsAnswered (plan_in session.new) (begun_over first) opening }
    ensures enough { (result ≡ most) ⊎ ((result ≤ most) × IsOver session.new) }
    ensures script { session.new.script ≡ session.old.script }
{
    let mut draws = Draws::new(seed);
    answer_opening(session, &mut draws);
    go_on(session, &mut draws, most)
}

// Makes turns until the first section is answered.
fn answer_opening<D: Disk, R: Ranges>(session: &mut Session<D, R>, draws: &mut Draws)
    ensures turns { let v = disk_view D.stated D.content D.moment D.left_since D.faults in (first : View D) (seed : ℕ)
        → (k : IsDrawn v seed first session.old draws.old) → k.turns ≡ [] → (j : IsDrawn v seed first
        session.new draws.new) × Waits (plan_in session.new) (begun_over first) j.turns }
    ensures answered { (2 ≤ length ((lane_at session.new.lanes 0).answered)) ⊎ IsOver session.new }
    ensures script { session.new.script ≡ session.old.script }
{
    while session.answered(0) < 2 && session.turn(draws) {}
}

// Makes so many turns, or fewer where all is answered, and answers how many.
fn go_on<D: Disk, R: Ranges>(session: &mut Session<D, R>, draws: &mut Draws, most: u32) -> u32
    ensures turns { let v = disk_view D.stated D.content D.moment D.left_since D.faults in (first : View D) (seed : ℕ)
        → (k : IsDrawn v seed first session.old draws.old) → DrawsOn v seed first k.turns result session.new
        draws.new }
    ensures enough { (result ≡ most) ⊎ ((result ≤ most) × IsOver session.new) }
    ensures script { session.new.script ≡ session.old.script }
    ensures plan { plan_in session.new ≡ plan_in session.old }
{
    let mut turns = 0;
    while turns < most && session.turn(draws) {
        turns += 1;
    }
    turns
}
