// The table as a list of runs.
use crate::Ranges;
use crate::reads::{count_free, kind_in, pick_from, run_in};
use crate::runs::{Run, first_run, put};
use bow_units::{Extent, Kind, NoMemory};
use std::alloc::Global;
use std::marker::Model;

/// The kinds of all blocks as a list of runs of one kind. It has room for as many runs as there are blocks, at
/// most 16 MiB for 1,048,576 blocks.
#[derive(Drop)]
pub struct RangeList {
    runs: Vec<Run>,
}

impl Model for RangeList {
    ghost use Rattle.std.specs.Prelude.{List};
    ghost use Rattle.bow_units.specs.declared.statuses.Kind.{Kind};
    ghost use Rattle.bow_ranges.specs.Runs.{spread, IsKept};
    ghost use Rattle.std.specs.Vec.{vec_capacity};

    ghost Value = { List Kind };

    ghost view = { λ r. spread 0 r.runs.items };

    ghost invariant = { λ r. IsKept r.runs.items (vec_capacity r.runs) };
}

impl Ranges for RangeList {
    ghost kinds = { λ table. table };

    fn open(alloc: Global, blocks: u64) -> Result<RangeList, NoMemory> {
        let mut runs = Vec::with_capacity(alloc, blocks as usize)?;
        first_run(&mut runs, blocks as u32);
        Ok(RangeList { runs })
    }

    fn kind(&self, block: u64) -> Kind {
        kind_in(&self.runs, block as u32)
    }

    fn run(&self, block: u64) -> Extent {
        run_in(&self.runs, block as u32)
    }

    fn set(&mut self, extent: Extent, kind: Kind) {
        if extent.count > 0 {
            let end = extent.first + extent.count;
            put(&mut self.runs, extent.first as u32, end as u32, kind);
        }
    }

    fn free_blocks(&self) -> u64 {
        count_free(&self.runs)
    }

    fn pick(&self, want: u64) -> Option<Extent> {
        pick_from(&self.runs, want)
    }
}
