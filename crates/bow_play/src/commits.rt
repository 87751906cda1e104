// Whether a session gave the checkpoint up.
ghost use Rattle.std.specs.Prelude.{◌≡◌, ◌↔◌, IsTrue, Some, option_copied};
ghost use Rattle.bow_script.specs.declared.scripts.Line.TheVariants as lines;
ghost use Rattle.bow_session.specs.Sessions.{plan_in};
ghost use Rattle.bow_play.specs.Committing.{HasCommitted, IsCommitDone};

use bow_disk::Disk;
use bow_ranges::Ranges;
use bow_script::Line;
use bow_session::{Item, Session};
use bow_units::Outcome;

/// Whether the journal tells of a commit that was answered `Done`: the checkpoint is given up.
pub fn has_committed<D: Disk, R: Ranges + Drop>(session: &Session<D, R>) -> bool
    ensures { IsTrue result ↔ HasCommitted (plan_in session.now) session.now.journal }
{
    for item in session.journal() {
        if is_commit_done(session, *item) {
            return true;
        }
    }
    false
}

// Whether the item answers a commit with `Done`.
fn is_commit_done<D: Disk, R: Ranges + Drop>(session: &Session<D, R>, item: Item) -> bool
    ensures { IsTrue result ↔ IsCommitDone (plan_in session.now) item }
{
    let Item::Answered {
        lane,
        number,
        outcome: Outcome::Done,
    } = item
    else {
        return false;
    };
    is_commit(session.line(lane, number))
}

// Whether it is a commit.
fn is_commit(line: Option<&Line>) -> bool
    ensures { IsTrue result ↔ (option_copied line.entry ≡ Some lines.Commit) }
{
    matches!(line, Some(Line::Commit))
}
