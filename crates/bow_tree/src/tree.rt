// The table as a tree.
ghost use Rattle.std.specs.Prelude.{◌≡◌, ◌+◌, ◌*◌, ◌<◌, ◌≤◌, ℕ, List, length, IfOk};
ghost use Rattle.bow_ranges.specs.Kinds.{kind_at, IsRunOf};
ghost use Rattle.bow_ranges.specs.Picks.{picked};
ghost use Rattle.bow_tree.specs.Rows.{runs_in};
ghost use Rattle.bow_tree.specs.Visits.{IsBinaryRoot};

use crate::nodes::{Nodes, height_for, kinds_for, parts_for, size_of};
use crate::parts::{Part, alike};
use crate::reads::{kind_in, pick_in, run_in};
use crate::steps::Steps;
use crate::writes::set_in;
use bow_ranges::Ranges;
use bow_units::{Extent, Kind, NoMemory};
use std::alloc::Global;
use std::marker::{Brand, Model};
use std::sync::ledger::{Blank, Ledger};

/// The kinds of all blocks as a tree, with room for all that it will ever need: a byte a block, and 24 bytes for each
/// leaf and each node above. For 1,048,576 blocks that is 2.6 MiB.
#[derive(Drop)]
pub struct RangeTree {
    blocks: u32,
    height: u32,
    known: Part,
    parts: Vec<Part>,
    cells: Vec<Kind>,
}

impl Model for RangeTree {
    ghost use Rattle.std.specs.Prelude.{List};
    ghost use Rattle.bow_units.specs.declared.statuses.Kind.{Kind};

    ghost Value = { List Kind };

    ghost use Rattle.bow_tree.specs.Tables.{kinds_of, IsTable};

    ghost view = { λ t. kinds_of t.blocks t.height t.known (t.parts.items, t.cells.items) };

    ghost invariant = { λ t. IsTable t.blocks t.height t.known (t.parts.items, t.cells.items) };
}

impl RangeTree {
    /// As `kind`, with a tick for each visit: a node of sixteen parts, or a leaf of sixteen kinds, that is read.
    pub fn kind_steps<L: Ledger>(&self, block: u64, steps: &mut Steps<L>) -> Kind
        requires { block < length self.now }
        ensures kind { result ≡ kind_at self.now block }
        ensures few { steps.new ≤ steps.old + 5 }
        ensures visits { (h : ℕ) → IsBinaryRoot (runs_in self.now) h → steps.new ≤ steps.old + 2 * h }
    {
        kind_in(
            self.known,
            Nodes::over(&self.parts, &self.cells),
            self.height,
            block as u32,
            steps,
        )
    }

    /// As `pick`, with a tick for each visit: a node of sixteen parts, or a leaf of sixteen kinds, that is read.
    pub fn pick_steps<L: Ledger>(&self, want: u64, steps: &mut Steps<L>) -> Option<Extent>
        requires { 1 ≤ want }
        ensures picked { result ≡ picked self.now want }
        ensures few { steps.new ≤ steps.old + 5 }
        ensures visits { (h : ℕ) → IsBinaryRoot (runs_in self.now) h → steps.new ≤ steps.old + 2 * h }
    {
        pick_in(
            self.known,
            Nodes::over(&self.parts, &self.cells),
            self.height,
            want,
            steps,
        )
    }
}

// Looks a kind up, and counts nothing.
fn kind_uncounted<L: Ledger>(tree: &RangeTree, block: u64, blank: Blank) -> Kind
    requires name { blank.name ≡ L.name }
    requires parts { blank.parts ≡ L.parts }
    requires some { 0 < blank.parts }
    requires inside { block < length tree.now }
    ensures { result ≡ kind_at tree.now block }
{
    let mut steps = Steps::<L>::new(blank);
    tree.kind_steps(block, &mut steps)
}

// Picks, and counts nothing.
fn pick_uncounted<L: Ledger>(tree: &RangeTree, want: u64, blank: Blank) -> Option<Extent>
    requires name { blank.name ≡ L.name }
    requires parts { blank.parts ≡ L.parts }
    requires some { 0 < blank.parts }
    requires wanted { 1 ≤ want }
    ensures { result ≡ picked tree.now want }
{
    let mut steps = Steps::<L>::new(blank);
    tree.pick_steps(want, &mut steps)
}

// The run that holds a block, with nothing counted.
fn run_uncounted<L: Ledger>(tree: &RangeTree, block: u64, blank: Blank) -> Extent
    requires name { blank.name ≡ L.name }
    requires parts { blank.parts ≡ L.parts }
    requires some { 0 < blank.parts }
    requires inside { block < length tree.now }
    ensures run { IsRunOf tree.now block result }
    ensures few { length tree.now ≤ 1048576 }
{
    let mut steps = Steps::<L>::new(blank);
    let nodes = Nodes::over(&tree.parts, &tree.cells);
    let run = run_in(tree.known, nodes, tree.height, block as u32, &mut steps);
    let end = (run.first + run.count).min(tree.blocks as u64);
    Extent {
        first: run.first,
        count: end - run.first,
    }
}

impl Ranges for RangeTree {
    ghost kinds = { λ table. table };

    fn open(alloc: Global, blocks: u64) -> Result<RangeTree, NoMemory> {
        let blocks = blocks as u32;
        let height = height_for(blocks);
        let known = alike(Kind::Unchanged, size_of(height));
        let parts = vec![in alloc; known; parts_for(height, blocks)]?;
        let cells = vec![in alloc; Kind::Unchanged; kinds_for(blocks)]?;
        Ok(RangeTree {
            blocks,
            height,
            known,
            parts,
            cells,
        })
    }

    fn kind(&self, block: u64) -> Kind {
        kind_uncounted::<Brand>(self, block, Blank::new(1))
    }

    fn run(&self, block: u64) -> Extent {
        run_uncounted::<Brand>(self, block, Blank::new(1))
    }

    fn set(&mut self, extent: Extent, kind: Kind) {
        let height = self.height;
        let from = extent.first as u32;
        let to = (extent.first + extent.count) as u32;
        self.known = set_in(
            self.known,
            &mut self.parts,
            &mut self.cells,
            height,
            from,
            to,
            kind,
        );
    }

    fn free_blocks(&self) -> u64 {
        self.known.free as u64
    }

    fn pick(&self, want: u64) -> Option<Extent> {
        pick_uncounted::<Brand>(self, want, Blank::new(1))
    }
}
