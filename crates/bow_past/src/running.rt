// A run of a session beside a reader.
ghost use Rattle.std.specs.Prelude.{◌≡◌, ◌+◌, ◌<◌, ◌≤◌, ℕ, List, [], false, true, slice_index_or, IfNone, IfSome, None, Option, Some};
ghost use Rattle.bow_units.specs.Causes.{Rose};
ghost use Rattle.bow_units.specs.Magics.{IsPlain};
ghost use Rattle.bow_units.specs.Sizes.{IsValid};
ghost use Rattle.bow_disk.specs.Disk.{Content};
ghost use Rattle.bow_guard.specs.Standing.{StandsFor};
ghost use Rattle.bow_history.specs.Complete.{IsComplete};
ghost use Rattle.bow_history.specs.DiskCuts.{StandsAheadToo};
ghost use Rattle.bow_history.specs.Ready.{is_actor_ready};
ghost use Rattle.bow_session.specs.Sessions.{IsOver, Run, plan_in, state_in};
ghost use Rattle.bow_play.specs.Beginning.{HasBegun};
ghost use Rattle.bow_play.specs.Leading.{PlayLeads};
ghost use Rattle.bow_past.specs.Beside.{IsBeside, IsNew, LeadsOn, MaybeAgrees, first_ready_at};
ghost use Rattle.bow_past.specs.Readings.{Reading};
ghost use Rattle.bow_past.specs.Running.{FaultsAreCountedBeside, PlaysBeside, RanBeside, ReadsOn, ReadsTheCheckpoint, is_reading, is_ready_at, next_below};

use crate::readers::Past;
use bow_disk::Disk;
use bow_ranges::Ranges;
use bow_session::{Actor, Session, actor_at};
use bow_units::{Draws, NoMemory};
use std::alloc::Global;

/// Makes steps of a session that was just loaded, and of a reader beside it, if there is one, until all requests are
/// answered and the reader makes no step. Each step draws a number below that of all actors, which are the lanes in
/// their order, the worker, the commands and the reader: of them the first ready one from there on, going round, makes
/// a step. A reader whose step finds no memory is given up, and the session goes on without it.
///
/// The session is then what `play` leaves: the journal is complete, and over a disk that tells its content it is legal
/// from the opening state of the image to one for which the device stands. What a cut since the play began leaves was
/// left before or stands for a state on the journal's way; since the moment of an item, for one that has the item; and
/// now for the last one. Where no call of the disk failed, it is ahead for these too. What the reader got of a block in
/// use is what the checkpoint has saved of it.
pub fn run_beside<D: Disk, R: Ranges + Drop>(
    alloc: Global,
    number: u64,
    past: Option<Past>,
    session: &mut Session<D, R>,
) -> Option<Past>
    requires begun { (before : D) × HasBegun D.stated D.content D.moment D.left_since D.faults before session.old }
    requires agrees { MaybeAgrees D.content past session.old.core }
    requires new { IsNew past }
    ensures over { IsOver session.new }
    ensures read { is_reading result session.new.core.memory.phase ≡ false }
    ensures steps { (n : ℕ) × PlaysBeside D.stated D.content D.moment D.left_since D.faults n number past session.old
        result session.new }
    ensures script { (session.new.script ≡ session.old.script) × (session.new.core.geometry
        ≡ session.old.core.geometry) }
    ensures ran { (before : D) → HasBegun D.stated D.content D.moment D.left_since D.faults before session.old
        → RanBeside D.stated D.content D.moment D.left_since D.faults before session.new }
    ensures complete { (before : D) → HasBegun D.stated D.content D.moment D.left_since D.faults before session.old
        → IsComplete (plan_in session.new) session.new.journal }
    ensures sizes { (before : D) → HasBegun D.stated D.content D.moment D.left_since D.faults before session.old
        → (D.stated session.new.core.disk ≡ Some session.new.core.geometry) × IsValid session.new.core.geometry }
    ensures faults { (before : D) → HasBegun D.stated D.content D.moment D.left_since D.faults before session.old
        → FaultsAreCountedBeside D.faults before result session.new }
    ensures leads { (before : D) → HasBegun D.stated D.content D.moment D.left_since D.faults before session.old
        → (c : Content) → D.content before ≡ Some c → PlayLeads D.content D.moment D.left_since (StandsFor
        session.new.core.geometry) before c session.new }
    ensures ahead { (before : D) → HasBegun D.stated D.content D.moment D.left_since D.faults before session.old
        → (c : Content) → D.content before ≡ Some c → (Rose (D.faults before) (D.faults session.new.core.disk) → ⊥)
        → PlayLeads D.content D.moment D.left_since (StandsAheadToo session.new.core.geometry) before c session.new }
    ensures reads { (before : D) → HasBegun D.stated D.content D.moment D.left_since D.faults before session.old
        → (c : Content) → D.content before ≡ Some c → ReadsTheCheckpoint D.content c.now result session.new }
{
    play_on(alloc, number, past, session)
}

// The steps themselves.
fn play_on<D: Disk, R: Ranges + Drop>(
    alloc: Global,
    number: u64,
    past: Option<Past>,
    session: &mut Session<D, R>,
) -> Option<Past>
    requires beside { IsBeside D.stated D.content past session.old }
    ensures over { IsOver session.new }
    ensures read { is_reading result session.new.core.memory.phase ≡ false }
    ensures steps { (n : ℕ) × PlaysBeside D.stated D.content D.moment D.left_since D.faults n number past session.old
        result session.new }
    ensures script { (session.new.script ≡ session.old.script) × (session.new.core.geometry
        ≡ session.old.core.geometry) }
{
    let mut past = past;
    let mut draws = Draws::new(number);
    'turns: while let Some(actor) = next_actor(alloc, &mut past, session, &mut draws) {
        // A look at the sizes, for what their contract says of the session.
        session.geometry();
        session.step(actor);
    }
    past
}

// The next actor of the session that is to make a step, after those of the reader. There is none where all requests are
// answered and the reader makes no step.
fn next_actor<D: Disk, R: Ranges + Drop>(
    alloc: Global,
    past: &mut Option<Past>,
    session: &mut Session<D, R>,
    draws: &mut Draws,
) -> Option<Actor>
    requires beside { IsBeside D.stated D.content past.old session.old }
    ensures beside { IsBeside D.stated D.content past.new session.new }
    ensures still { session.new ≡ record session.old {
      core = record session.old.core { disk = session.new.core.disk; calls = session.new.core.calls };
    } }
    ensures ready { IfSome result (λ actor. is_actor_ready (plan_in session.new) (state_in session.new) actor
        ≡ true) }
    ensures none { IfNone result (IsOver session.new × (is_reading past.new session.new.core.memory.phase ≡ false)) }
    ensures leads { LeadsOn D.stated D.content D.moment D.left_since D.faults draws.old past.old session.old result
        draws.new past.new session.new }
{
    'reads: loop {
        let lanes = session.lanes();
        let drawn = draws.draw(lanes + 3);
        let Some(number) = chosen(past, session, drawn) else {
            // A look whether all is answered, for what its contract says.
            session.over();
            return None;
        };
        if number < lanes + 2 {
            return Some(actor_at(lanes, number));
        }
        read_once(alloc, past, session);
    }
}

// Whether the reader makes a step.
fn reads<D: Disk, R: Ranges + Drop>(past: &Option<Past>, session: &Session<D, R>) -> bool
    ensures { result ≡ is_reading past.now session.now.core.memory.phase }
{
    match past {
        Some(past) => past.ready(session),
        None => false,
    }
}

// Whether the actor of this number makes a step: behind those of the session stands the reader.
fn is_ready<D: Disk, R: Ranges + Drop>(
    past: &Option<Past>,
    session: &Session<D, R>,
    number: u32,
) -> bool
    requires inside { number < (plan_in session.now).lanes + 3 }
    ensures { result ≡ is_ready_at (plan_in session.now) (state_in session.now) (is_reading past.now
        session.now.core.memory.phase) number }
{
    let lanes = session.lanes();
    if number == lanes + 2 {
        return reads(past, session);
    }
    session.ready(actor_at(lanes, number))
}

// The number of the first ready actor from this one on, going round once.
fn chosen<D: Disk, R: Ranges + Drop>(
    past: &Option<Past>,
    session: &Session<D, R>,
    drawn: u32,
) -> Option<u32>
    requires inside { drawn < (plan_in session.now).lanes + 3 }
    ensures first { result ≡ first_ready_at past.now session.now drawn }
{
    let actors = session.lanes() + 3;
    let mut left = actors;
    let mut number = drawn;
    while left > 0 {
        if is_ready(past, session, number) {
            return Some(number);
        }
        number = next_round(actors, number);
        left -= 1;
    }
    None
}

// The number after it, going round below this many.
fn next_round(actors: u32, number: u32) -> u32
    requires inside { number < actors }
    ensures next { result ≡ next_below actors number }
    ensures inside { result < actors }
{
    if number + 1 == actors {
        return 0;
    }
    number + 1
}

// One step of the reader. Where it finds no memory the reader is given up.
fn read_once<D: Disk, R: Ranges + Drop>(
    alloc: Global,
    past: &mut Option<Past>,
    session: &mut Session<D, R>,
)
    requires beside { IsBeside D.stated D.content past.old session.old }
    requires ready { is_reading past.old session.old.core.memory.phase ≡ true }
    ensures beside { IsBeside D.stated D.content past.new session.new }
    ensures reads { ReadsOn D.stated D.content D.moment D.left_since D.faults past.old session.old past.new
        session.new }
{
    let Some(reader) = past else {
        return;
    };
    if let Err(NoMemory) = reader.step(alloc, session) {
        *past = None;
    }
}
