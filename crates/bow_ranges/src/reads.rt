// What a list of runs tells of its blocks.
ghost use Rattle.std.specs.Prelude.{◌≡◌, ◌+◌, ◌-◌, ◌<◌, ◌≤◌, length, None, drop};
ghost use Rattle.bow_ranges.specs.Kinds.{is_free, kind_at, count_of, IsRunOf};
ghost use Rattle.bow_ranges.specs.Picks.{picked_of};
ghost use Rattle.bow_ranges.specs.Runs.{end_of, spread, free_parts, longer_of, IsNormal};

use crate::runs::{Run, count_within, start_of};
use bow_units::{Extent, Kind};

/// The kind of a block.
pub fn kind_in(runs: &[Run], block: u32) -> Kind
    requires normal { IsNormal 0 None runs.now }
    requires inside { block < end_of 0 runs.now }
    ensures { result ≡ kind_at (spread 0 runs.now) block }
{
    let place = count_within(runs, block);
    runs[place].kind
}

/// The run that holds a block.
pub fn run_in(runs: &[Run], block: u32) -> Extent
    requires normal { IsNormal 0 None runs.now }
    requires inside { block < end_of 0 runs.now }
    ensures { IsRunOf (spread 0 runs.now) block result }
{
    let place = count_within(runs, block);
    let first = start_of(runs, place);
    Extent {
        first: first as u64,
        count: (runs[place].end - first) as u64,
    }
}

/// How many blocks are free.
pub fn count_free(runs: &[Run]) -> u64
    requires { IsNormal 0 None runs.now }
    ensures { result ≡ count_of is_free (spread 0 runs.now) }
{
    let mut free = 0;
    let mut start = 0;
    for run in runs {
        if run.kind == Kind::Free {
            free += (run.end - start) as u64;
        }
        start = run.end;
    }
    free
}

// The longer of the longest run so far and the next one.
fn longer(best: Option<Extent>, next: Extent) -> Extent
    ensures { result ≡ longer_of best next }
{
    match best {
        Some(best) if best.count >= next.count => best,
        _ => next,
    }
}

/// The free blocks that are picked.
pub fn pick_from(runs: &[Run], want: u64) -> Option<Extent>
    requires { IsNormal 0 None runs.now }
    ensures { result ≡ picked_of (free_parts 0 runs.now) want }
{
    let mut best = None;
    let mut start = 0;
    for run in runs {
        let next = Extent {
            first: start as u64,
            count: (run.end - start) as u64,
        };
        start = run.end;
        if run.kind == Kind::Free {
            if want <= next.count {
                return Some(Extent {
                    first: next.first,
                    count: want,
                });
            }
            best = Some(longer(best, next));
        }
    }
    best
}
