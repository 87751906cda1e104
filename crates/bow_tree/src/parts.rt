// What is known of some blocks in a row.
ghost use Rattle.std.specs.Prelude.{◌≡◌, ◌+◌, ◌<◌, ◌≤◌, ◌^◌, replicate};
ghost use Rattle.bow_units.specs.declared.statuses.Kind.TheVariants.{Free};
ghost use Rattle.bow_tree.specs.Parts.{in_run, alike_of, IsKnown, IsLastBehind, IsFirstBefore, HasRow, IsJoined};

use bow_units::Kind;

/// So many blocks of one kind.
#[derive(Clone, Copy, Debug, PartialEq, Eq)]
pub struct Run {
    pub kind: Kind,
    pub count: u32,
}

/// What is known of some blocks in a row, at least one.
#[derive(Clone, Copy, Debug, PartialEq, Eq)]
pub struct Part {
    /// The run at their beginning: all of them, where they have one kind.
    pub first: Run,
    /// The run at their end.
    pub last: Run,
    /// How many are free.
    pub free: u32,
    /// How many the longest run of free ones has.
    pub longest: u32,
}

/// So many blocks of one kind.
pub fn alike(kind: Kind, count: u32) -> Part
    ensures part { result ≡ alike_of kind count }
    ensures known { IsKnown count (replicate count kind) result }
{
    let run = Run { kind, count };
    let free = free_in(run);
    Part {
        first: run,
        last: run,
        free,
        longest: free,
    }
}

/// How many free blocks the run has.
pub fn free_in(run: Run) -> u32
    ensures { result ≡ in_run Free run }
{
    if run.kind == Kind::Free { run.count } else { 0 }
}

/// How many blocks of this kind the run has.
pub fn alike_in(run: Run, kind: Kind) -> u32
    ensures { result ≡ in_run kind run }
{
    if run.kind == kind { run.count } else { 0 }
}

/// The run at the end, where `size` blocks of which `part` tells come behind those that end with `before`.
pub fn last_behind(before: Run, part: Part, size: u32) -> Run
    requires { before.count + size < 2 ^ 32 }
    ensures { IsLastBehind before part.last size result }
{
    if part.last.count == size && part.last.kind == before.kind {
        return Run {
            kind: before.kind,
            count: before.count + size,
        };
    }
    part.last
}

/// The run at the beginning, where `size` blocks of which `part` tells come before those that begin with `after`.
pub fn first_before(part: Part, size: u32, after: Run) -> Run
    requires { size + after.count < 2 ^ 32 }
    ensures { IsFirstBefore part.first size after result }
{
    if part.first.count == size && part.first.kind == after.kind {
        return Run {
            kind: after.kind,
            count: size + after.count,
        };
    }
    part.first
}

/// What is known of two parts, the second behind the first.
pub fn joined(low: Part, low_size: u32, high: Part, high_size: u32) -> Part
    requires some_low { 0 < low_size }
    requires some_high { 0 < high_size }
    requires few { low_size + high_size ≤ 1048576 }
    requires low { HasRow low_size low }
    requires high { HasRow high_size high }
    ensures { IsJoined low_size low high_size high result }
{
    let across = free_in(low.last) + free_in(high.first);
    Part {
        first: first_before(low, low_size, high.first),
        last: last_behind(low.last, high, high_size),
        free: low.free + high.free,
        longest: across.max(low.longest).max(high.longest),
    }
}
