// One device of several: its flush before the decision, and its commit after it.
ghost use Rattle.std.specs.Prelude.{◌≡◌, ◌≤◌, true, false};
ghost use Rattle.bow_units.specs.Causes.{Rose};
ghost use Rattle.bow_flat.specs.Flat.{Flat, after};
ghost use Rattle.bow_flat.specs.Flat.Event.{Flushes};
ghost use Rattle.bow_core.specs.Forward.{AreForwardable};
ghost use Rattle.bow_core.specs.Further.{LedIn};
ghost use Rattle.bow_core.specs.Standing.{StandsIn};
ghost use Rattle.bow_core.specs.Turns.{told_of};
ghost use Rattle.bow_core.specs.Views.{IsOpened};
ghost use Rattle.bow_pair.specs.Committing.{AreCurrent, IsAtRest, IsFlushedFor, answer_in};

use bow_core::{Core, Step, Turn};
use bow_disk::Disk;
use bow_ranges::Ranges;
use bow_units::{Op, Outcome};

// What a step told is for the one request that waits: none while it goes on, and else whether it was done.
fn answer_of(told: Step) -> Option<bool>
    ensures { result ≡ answer_in (told_of told) }
{
    match told {
        Step::Answered { outcome, .. } => Some(outcome == Outcome::Done),
        Step::Idle | Step::Moved | Step::Wrote { .. } | Step::Got { .. } => None,
    }
}

// Flushes a device at rest, and answers whether that was done.
pub(crate) fn flush<D: Disk, R: Ranges>(core: &mut Core<D, R>) -> bool
    requires { IsAtRest D.stated 2 core.old }
    ensures rests { IsAtRest D.stated 1 core.new }
    ensures flushed { result ≡ true → (f : Flat) → StandsIn D.content core.old f → LedIn D.content core.old f
        → IsFlushedFor D.content core.new (after core.old.geometry.blocks Flushes f) }
    ensures failed { result ≡ false → Rose (D.faults core.old.disk) (D.faults core.new.disk) }
    ensures stands { result ≡ false → (f : Flat) → StandsIn D.content core.old f → StandsIn D.content core.new f }
    ensures geometry { core.new.geometry ≡ core.old.geometry }
    ensures faults { D.faults core.old.disk ≤ D.faults core.new.disk }
{
    let ticket = core.admit(Op::Flush);
    let told = core.step(Turn::Map(ticket));
    answer_of(told).unwrap_or(false)
}

// Commits a device that was flushed, and answers whether that was done.
pub(crate) fn commit<D: Disk, R: Ranges>(core: &mut Core<D, R>) -> bool
    requires { IsAtRest D.stated 1 core.old }
    ensures opened { IsOpened D.stated core.new }
    ensures done { result ≡ true → (f : Flat) → IsFlushedFor D.content core.old f → AreCurrent D.content core.new f }
    ensures failed { result ≡ false → Rose (D.faults core.old.disk) (D.faults core.new.disk) }
    ensures images { (f : Flat) → IsFlushedFor D.content core.old f → AreForwardable D.content core.new f }
    ensures geometry { core.new.geometry ≡ core.old.geometry }
    ensures faults { D.faults core.old.disk ≤ D.faults core.new.disk }
{
    let _ticket = core.admit(Op::Commit);
    for act in 0..4u32 {
        let told = core.step(Turn::Command);
        if let Some(done) = answer_of(told) {
            return done;
        }
    }
    false
}
