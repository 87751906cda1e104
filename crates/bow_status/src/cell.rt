// The cell, the one right to publish, and the watchers.
ghost use Rattle.std.specs.Prelude.{◌≡◌, ◌+◌, ◌<◌, ◌≤◌, [], ◌∷◌, ◌++◌, All, IfOk, length};
ghost use Rattle.crossbeam_utils.specs.Seq.{cell_view};
ghost use Rattle.bow_status.specs.Rising.{IsFirstWatcher, IsSameOrNewer, newest, opening_value, seen_of, VersionsRise};

use crate::shown::Shown;
use crate::view::View;
use atomic_table::Split;
use bow_units::{NoMemory, Phase, Seen, Status};
use crossbeam_utils::atomic::seq_cell::{Pass, RuledSeqCell};
use crossbeam_utils::rule::{Outcome, Protocol};
use std::alloc::{AllocError, Global};
use std::marker::Model;
use std::sync::Wait;

pub struct Rising;

impl Protocol<Shown, View> for Rising {
    ghost use Rattle.std.specs.Prelude.{[]};
    ghost use Rattle.bow_status.specs.Rising.{StatusRule, publishing};

    ghost holds = { StatusRule };

    ghost first = { publishing [] };
}

struct Publishes;

impl Outcome<Shown, View> for Publishes {
    ghost use Rattle.bow_status.specs.Rising.{publishes};

    ghost then = { publishes };
}

struct Looks;

impl Outcome<Shown, View> for Looks {
    ghost use Rattle.bow_status.specs.Rising.{looks};

    ghost then = { looks };
}

struct Reads;

impl Outcome<Shown, View> for Reads {
    ghost use Rattle.bow_status.specs.Rising.{reads};

    ghost then = { reads };
}

struct ForWatcher;

impl Split<View> for ForWatcher {
    ghost use Rattle.bow_status.specs.Rising.{opening_value, watching};

    ghost left = { λ v. v };

    ghost right = { λ v. watching 0 opening_value };
}

type Cell = RuledSeqCell<Shown, View, Rising, 5>;

/// A cell with the latest published status. Contracts see which cell it is.
#[derive(Drop)]
pub struct StatusCell {
    cell: Cell,
}

impl Model for StatusCell {
    ghost use Rattle.atomic_table.specs.Seated.{TableId};

    ghost Value = { TableId };

    ghost view = { λ c. c.cell.table.shared.table_id };
}

/// The right to publish in one cell. Contracts see the cell and all that was sent there, oldest first.
#[derive(Drop)]
pub struct Publisher {
    pass: Pass<Shown, View>,
}

impl Model for Publisher {
    ghost use Rattle.std.specs.Prelude.{◌≡◌, true};
    ghost use Rattle.crossbeam_utils.specs.Seq.{cell_view};
    ghost use Rattle.bow_status.specs.Rising.{Publishing};

    ghost Value = { Publishing };

    ghost view = { λ p. record { cell = p.pass.table_id; sent = (cell_view p.pass).sent } };

    ghost invariant = { λ p. (cell_view p.pass).publishes ≡ true };
}

/// The right to look at one cell. Contracts see the cell, the number of looks, and what the last one saw,
/// which is the opening value before the first.
#[derive(Drop)]
pub struct Watcher {
    pass: Pass<Shown, View>,
}

impl Model for Watcher {
    ghost use Rattle.crossbeam_utils.specs.Seq.{cell_view};
    ghost use Rattle.bow_status.specs.Rising.{Watching};

    ghost Value = { Watching };

    ghost view = { λ w. record {
      cell = w.pass.table_id;
      looks = (cell_view w.pass).looks;
      last = (cell_view w.pass).last;
    } };
}

fn shown_of(seen: Seen) -> Shown
    ensures { seen_of result ≡ seen }
{
    Shown {
        version: seen.version,
        phase: seen.status.phase,
        free: seen.status.free,
        sequence: seen.status.sequence as u64,
        entries: seen.status.entries as u64,
    }
}

fn seen_in(shown: Shown) -> Seen
    ensures { result ≡ seen_of shown }
{
    Seen {
        version: shown.version,
        status: Status {
            phase: shown.phase,
            free: shown.free,
            sequence: shown.sequence as u32,
            entries: shown.entries as u32,
        },
    }
}

fn opening() -> Shown
    ensures { seen_of result ≡ opening_value }
{
    shown_of(Seen {
        version: 0,
        status: Status {
            phase: Phase::Trim,
            free: 0,
            sequence: 0,
            entries: 0,
        },
    })
}

// Splits a watcher's pass off the publisher's, `count` times.
fn split_watchers(
    alloc: Global,
    cell: &Cell,
    pass: &mut Pass<Shown, View>,
    count: u32,
) -> Result<Vec<Watcher>, AllocError>
    requires { pass.old.table_id ≡ cell.now.table.shared.table_id }
    ensures pass { IfOk result (λ _.
        (pass.new.table_id ≡ pass.old.table_id) × (cell_view pass.new ≡ cell_view pass.old)) }
    ensures watchers { IfOk result (λ v.
        (length v.items ≡ count) × All (IsFirstWatcher cell.now.table.shared.table_id) v.items) }
{
    let mut watchers = Vec::new(alloc);
    for _ in 0..count {
        let pass = cell.split_pass::<ForWatcher>(pass);
        watchers.push(Watcher { pass })?;
    }
    Ok(watchers)
}

impl StatusCell {
    /// A cell with the opening value (version 0, phase Trim, and zeros), its one publisher and `watchers`
    /// watchers.
    pub fn open(
        alloc: Global,
        watchers: u32,
    ) -> Result<(StatusCell, Publisher, Vec<Watcher>), NoMemory>
        requires { (0 < watchers) × (watchers ≤ 16) }
        ensures publisher { IfOk result (λ r. (r.1.cell ≡ r.0) × (r.1.sent ≡ [])) }
        ensures watchers { IfOk result (λ r. (length r.2.items ≡ watchers) × All (IsFirstWatcher r.0) r.2.items) }
    {
        let (cell, mut pass) = Cell::ruled(alloc, opening())?;
        let watchers = split_watchers(alloc, &cell, &mut pass, watchers)?;
        Ok((StatusCell { cell }, Publisher { pass }, watchers))
    }

    /// Puts this value into the cell, in one swap. It may wait for another swap or look to end.
    pub fn publish<R: Wait>(&self, rt: &R, publisher: &mut Publisher, seen: Seen)
        requires own { publisher.old.cell ≡ self.now }
        requires rises { (newest publisher.old.sent).version < seen.version }
        ensures cell { publisher.new.cell ≡ publisher.old.cell }
        ensures sent { publisher.new.sent ≡ publisher.old.sent ++ seen ∷ [] }
        ensures newest { newest publisher.new.sent ≡ seen }
    {
        self.cell
            .swap_as::<Publishes, R>(rt, &mut publisher.pass, shown_of(seen));
    }

    /// What the cell contains at the one load of this call, whole: the value that was published last, or
    /// the opening value. It may wait for a swap to end.
    pub fn look<R: Wait>(&self, rt: &R, watcher: &mut Watcher) -> Seen
        requires own { watcher.old.cell ≡ self.now }
        ensures cell { watcher.new.cell ≡ watcher.old.cell }
        ensures looks { watcher.new.looks ≡ watcher.old.looks + 1 }
        ensures last { watcher.new.last ≡ result }
        ensures newer { IsSameOrNewer watcher.old.last result }
    {
        seen_in(self.cell.load_as::<Looks, R>(rt, &mut watcher.pass))
    }

    /// What the cell contains while its one publisher is here: the value that was published last, or the
    /// opening value.
    pub fn latest<R: Wait>(&self, rt: &R, publisher: &mut Publisher) -> Seen
        requires own { publisher.old.cell ≡ self.now }
        ensures same { publisher.new ≡ publisher.old }
        ensures latest { result ≡ newest publisher.old.sent }
        ensures rises { VersionsRise 0 publisher.old.sent }
    {
        seen_in(self.cell.load_as::<Reads, R>(rt, &mut publisher.pass))
    }
}
