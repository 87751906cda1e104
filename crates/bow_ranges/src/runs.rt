// Runs of blocks of one kind, one after the other.
ghost use Rattle.std.specs.Prelude.{◌≡◌, ◌≢◌, ◌↔◌, IsTrue, ◌+◌, ◌-◌, ◌<◌, ◌≤◌, ◌∷◌, ◌++◌, [], length, take, drop, replicate, vec_len, vec_capacity};
ghost use Rattle.bow_units.specs.declared.statuses.Kind.TheVariants.{Unchanged};
ghost use Rattle.bow_ranges.specs.Runs.{spread, IsKept, end_of, kind_of, IsAbove, BeginsWith, IsNormal, IsCut, IsTail, IsHead, IsPut};

use bow_units::Kind;

/// A run of blocks of one kind. It begins where the run before it ends.
#[derive(Clone, Copy, Debug, PartialEq, Eq)]
pub struct Run {
    /// The first block after the run.
    pub end: u32,
    pub kind: Kind,
}

// Puts the run in place of those from `low` to before `high`.
fn replace(runs: &mut Vec<Run>, low: usize, high: usize, run: Run)
    requires within { low ≤ high }
    requires inside { high ≤ vec_len runs.old }
    requires room { vec_len runs.old < vec_capacity runs.old + (high - low) }
    ensures items { runs.new.items ≡ take low runs.old.items ++ run ∷ drop high runs.old.items }
    ensures room_stays { vec_capacity runs.old ≤ vec_capacity runs.new }
{
    if low == high {
        runs.insert(low, run).unwrap();
        return;
    }
    runs[low] = run;
    runs.drain(low + 1..high);
}

/// Makes the first run of an empty list.
pub fn first_run(runs: &mut Vec<Run>, end: u32)
    requires empty { runs.old.items ≡ [] }
    requires some { 0 < end }
    requires few { end ≤ 1048576 }
    requires room { end ≤ vec_capacity runs.old }
    ensures spread { spread 0 runs.new.items ≡ replicate end Unchanged }
    ensures kept { IsKept runs.new.items (vec_capacity runs.new) }
{
    let kind = Kind::Unchanged;
    replace(runs, 0, 0, Run { end, kind });
}

// Takes the runs from `low` to before `high` away.
fn cut_out(runs: &mut Vec<Run>, low: usize, high: usize)
    requires within { low ≤ high }
    requires inside { high ≤ vec_len runs.old }
    ensures items { runs.new.items ≡ take low runs.old.items ++ drop high runs.old.items }
    ensures room_stays { vec_capacity runs.old ≤ vec_capacity runs.new }
{
    runs.drain(low..high);
}

// Whether there is a run at `place`, and it has this kind.
fn begins_with(kind: Kind, runs: &[Run], place: usize) -> bool
    ensures { IsTrue result ↔ BeginsWith kind (drop place runs.now) }
{
    if place >= runs.len() {
        return false;
    }
    runs[place].kind == kind
}

// How many runs end at or before the block `at`.
pub fn count_within(runs: &[Run], at: u32) -> usize
    requires { IsNormal 0 None runs.now }
    ensures { IsCut runs.now at result }
{
    runs.partition_point(|run| run.end <= at)
}

// Where the run at `place` begins.
pub fn start_of(runs: &[Run], place: usize) -> u32
    requires { place ≤ length runs.now }
    ensures { result ≡ end_of 0 (take place runs.now) }
{
    if place == 0 { 0 } else { runs[place - 1].end }
}

// Puts the run in place of those from `low` to before `high`. The next one takes its blocks over where it has
// the same kind.
fn put_right(runs: &mut Vec<Run>, low: usize, high: usize, start: u32, run: Run)
    requires within { low ≤ high }
    requires inside { high ≤ vec_len runs.old }
    requires room { vec_len runs.old < vec_capacity runs.old + (high - low) }
    requires some { start < run.end }
    requires above { IsAbove run.end (drop high runs.old.items) }
    requires normal { IsNormal 0 None runs.old.items }
    ensures head { take low runs.new.items ≡ take low runs.old.items }
    ensures tail { IsTail start run.end run.kind (drop high runs.old.items) (drop low runs.new.items) }
    ensures room_stays { vec_capacity runs.old ≤ vec_capacity runs.new }
{
    if begins_with(run.kind, runs, high) {
        cut_out(runs, low, high);
        return;
    }
    replace(runs, low, high, run);
}

// Makes the first `low` runs end at `start`, so that a run of the kind `kind` may follow: the last of them
// goes where it has that kind, and what is left of a run of the kind `left` comes behind them where it has not.
// Answers how many they are then.
fn put_left(runs: &mut Vec<Run>, low: usize, start: u32, left: Kind, kind: Kind) -> usize
    requires within { low ≤ vec_len runs.old }
    requires ends { end_of 0 (take low runs.old.items) ≤ start }
    requires normal { IsNormal 0 None (take low runs.old.items) }
    requires last { kind_of None (take low runs.old.items) ≢ Some left }
    requires room { start + length (drop low runs.old.items) ≤ vec_capacity runs.old }
    ensures head { IsHead start kind left (take low runs.old.items) (take result runs.new.items) }
    ensures tail { drop result runs.new.items ≡ drop low runs.old.items }
    ensures inside { result ≤ vec_len runs.new }
    ensures room_stays { vec_capacity runs.old ≤ vec_capacity runs.new }
{
    if start_of(runs, low) < start {
        if left == kind {
            return low;
        }
        let rest = Run {
            end: start,
            kind: left,
        };
        replace(runs, low, low, rest);
        return low + 1;
    }
    if low == 0 {
        return 0;
    }
    if runs[low - 1].kind == kind {
        cut_out(runs, low - 1, low);
        return low - 1;
    }
    low
}

/// Gives the blocks from `start` to before `end` this kind.
pub fn put(runs: &mut Vec<Run>, start: u32, end: u32, kind: Kind)
    requires normal { IsNormal 0 None runs.old.items }
    requires some { start < end }
    requires inside { end ≤ end_of 0 runs.old.items }
    requires room { end_of 0 runs.old.items ≤ vec_capacity runs.old }
    ensures put { IsPut runs.old.items start end kind runs.new.items }
    ensures room_stays { vec_capacity runs.old ≤ vec_capacity runs.new }
{
    let low = count_within(runs, start);
    let high = count_within(runs, end);
    let left = runs[low].kind;
    put_right(runs, low, high, start, Run { end, kind });
    let _ = put_left(runs, low, start, left, kind);
}
