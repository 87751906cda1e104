// A table of the kinds of all blocks, however it is kept.
ghost use Rattle.std.specs.Prelude.{◌≡◌, ◌≢◌, ◌+◌, ◌-◌, ◌<◌, ◌≤◌, ◌↔◌, ℕ, Bool, List, length, replicate, IfOk, if◌then◌else◌};
ghost use Rattle.bow_units.specs.declared.statuses.Kind.{Kind};
ghost use Rattle.bow_units.specs.declared.statuses.Kind.TheVariants.{Unchanged, Free, Changed};
ghost use Rattle.bow_ranges.specs.Kinds.{is_free, kind_at, count_of, part, with_kind, reclaimed, IsRunOf};
ghost use Rattle.bow_ranges.specs.Picks.{picked};

use crate::pieces::piece_of;
use bow_units::{Extent, Kind, NoMemory};
use std::alloc::Global;

/// The kinds of all blocks of a device. Its content is the list of the kinds, one for each block, in order.
/// Only `open` takes memory.
pub trait Ranges: Sized + Drop {
    /// The kind of each block.
    ghost kinds: { Self → List Kind };

    /// A table of so many blocks, all `Unchanged`. It takes all memory that it will ever need.
    fn open(alloc: Global, blocks: u64) -> Result<Self, NoMemory>
        requires some { 1 ≤ blocks }
        requires few { blocks ≤ 1048576 }
        ensures { IfOk result (λ table. kinds table ≡ replicate blocks Unchanged) };

    /// The kind of a block.
    fn kind(&self, block: u64) -> Kind
        requires { block < length (kinds self.now) }
        ensures { result ≡ kind_at (kinds self.now) block };

    /// The longest run of blocks of one kind that holds the block.
    fn run(&self, block: u64) -> Extent
        requires { block < length (kinds self.now) }
        ensures run { IsRunOf (kinds self.now) block result }
        ensures few { length (kinds self.now) ≤ 1048576 };

    /// Gives the blocks of the extent this kind.
    fn set(&mut self, extent: Extent, kind: Kind)
        requires { extent.first + extent.count ≤ length (kinds self.old) }
        ensures set { kinds self.new ≡ with_kind (kinds self.old) extent kind }
        ensures blocks { length (kinds self.new) ≡ length (kinds self.old) };

    /// How many blocks are `Free`.
    fn free_blocks(&self) -> u64
        ensures { result ≡ count_of is_free (kinds self.now) };

    /// The first `want` blocks of the first run of free blocks that has as many. Where there is none, the
    /// longest run of free blocks, the lowest at a tie. `None` comes exactly where no block is free.
    fn pick(&self, want: u64) -> Option<Extent>
        requires { 1 ≤ want }
        ensures { result ≡ picked (kinds self.now) want };

    /// Each `Changed` block of the extent that lies in none of `but` becomes `Free`. All else stays.
    fn reclaim(&mut self, extent: Extent, but: &[Extent])
        requires { extent.first + extent.count ≤ length (kinds self.old) }
        ensures reclaimed { kinds self.new ≡ reclaimed (kinds self.old) extent but.now }
        ensures blocks { length (kinds self.new) ≡ length (kinds self.old) }
    {
        let mut at = extent.first;
        let mut left = extent.count;
        'pieces: while left > 0 {
            let run = self.run(at);
            let limit = left.min(run.first + run.count - at);
            let piece = piece_of(at, limit, but);
            let freed = Extent {
                first: at,
                count: piece.count,
            };
            at += piece.count;
            left -= piece.count;
            if piece.spared {
                continue;
            }
            if self.kind(freed.first) != Kind::Changed {
                continue;
            }
            self.set(freed, Kind::Free);
        }
    }
}
