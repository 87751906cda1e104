// What a tree tells of its blocks.
ghost use Rattle.std.specs.Prelude.{◌≡◌, ◌+◌, ◌*◌, ◌<◌, ◌≤◌, length};
ghost use Rattle.bow_ranges.specs.Kinds.{kind_at, IsRunOf};
ghost use Rattle.bow_ranges.specs.Picks.{picked};
ghost use Rattle.bow_tree.specs.Rows.{fit};
ghost use Rattle.bow_tree.specs.Trees.{blocks_of, kinds_in, IsTree};
ghost use Rattle.bow_tree.specs.Fits.{HasFit, FitsAt};

use crate::nodes::{Node, Nodes, WIDTH, first_of, last_of, size_of};
use crate::parts::{Part, Run, alike_in, free_in, last_behind};
use crate::steps::Steps;
use bow_units::{Extent, Kind};
use std::sync::ledger::Ledger;

/// The kind of a block.
pub fn kind_in<L: Ledger>(
    known: Part,
    tree: Nodes,
    height: u32,
    block: u32,
    steps: &mut Steps<L>,
) -> Kind
    requires height { height ≤ 5 }
    requires tree { IsTree height known tree }
    requires inside { block < blocks_of height }
    ensures kind { result ≡ kind_at (kinds_in height known tree.entry) block }
    ensures visits { steps.new ≤ steps.old + height }
{
    let mut known = known;
    let mut tree = tree;
    let mut height = height;
    let mut block = block;
    'descent: while known.first.count < size_of(height) {
        height -= 1;
        let node = tree.visit(height, steps);
        let size = size_of(height);
        let place = (block / size) as usize;
        block %= size;
        known = node.part(place);
        tree = tree.below(height, place);
    }
    known.first.kind
}

/// Where in a node so many blocks in a row are free.
pub enum Fit {
    /// From this block on.
    At(u32),
    /// In the part at this place.
    Within(usize),
}

/// Where in a node so many blocks in a row are free, its parts having `size` blocks each.
pub fn fit_in(node: &Node, size: u32, count: u32) -> Fit
    requires width { length node.now ≡ 16 }
    requires some { 0 < size }
    requires few { 16 * size ≤ 1048576 }
    requires wanted { 1 ≤ count }
    requires known { HasFit size count node.now }
    ensures { FitsAt size count node.now result }
{
    let mut run = 0;
    for place in 0..WIDTH {
        let part = node.part(place);
        if count <= run + free_in(part.first) {
            return Fit::At(place as u32 * size - run);
        }
        if count <= part.longest {
            return Fit::Within(place);
        }
        let before = Run {
            kind: Kind::Free,
            count: run,
        };
        run = free_in(last_behind(before, part, size));
    }
    unreachable!()
}

/// The first block from which on so many are free.
pub fn fit_from<L: Ledger>(
    known: Part,
    tree: Nodes,
    height: u32,
    count: u32,
    steps: &mut Steps<L>,
) -> u32
    requires height { height ≤ 5 }
    requires tree { IsTree height known tree }
    requires wanted { 1 ≤ count }
    requires fits { count ≤ known.longest }
    ensures fit { result ≡ fit count (kinds_in height known tree.entry) }
    ensures visits { steps.new ≤ steps.old + height }
{
    let mut known = known;
    let mut tree = tree;
    let mut height = height;
    let mut first = 0;
    'descent: while free_in(known.first) < count {
        height -= 1;
        let node = tree.visit(height, steps);
        let size = size_of(height);
        match fit_in(&node, size, count) {
            Fit::At(block) => return first + block,
            Fit::Within(place) => {
                first += place as u32 * size;
                known = node.part(place);
                tree = tree.below(height, place);
            }
        }
    }
    first
}

/// The free blocks that are picked.
pub fn pick_in<L: Ledger>(
    known: Part,
    tree: Nodes,
    height: u32,
    want: u64,
    steps: &mut Steps<L>,
) -> Option<Extent>
    requires height { height ≤ 5 }
    requires tree { IsTree height known tree }
    requires wanted { 1 ≤ want }
    ensures picked { result ≡ picked (kinds_in height known tree.entry) want }
    ensures visits { steps.new ≤ steps.old + height }
{
    if known.longest == 0 {
        return None;
    }
    let count = want.min(known.longest as u64);
    let first = fit_from(known, tree, height, count as u32, steps);
    Some(Extent {
        first: first as u64,
        count,
    })
}

/// The run that holds a block.
pub fn run_in<L: Ledger>(
    known: Part,
    tree: Nodes,
    height: u32,
    block: u32,
    steps: &mut Steps<L>,
) -> Extent
    requires height { height ≤ 5 }
    requires tree { IsTree height known tree }
    requires inside { block < blocks_of height }
    ensures { IsRunOf (kinds_in height known tree.entry) block result }
{
    let mut known = known;
    let mut tree = tree;
    let mut height = height;
    let mut block = block;
    let mut first = 0;
    let mut before = Run {
        kind: Kind::Unchanged,
        count: 0,
    };
    let mut after = before;
    'descent: while known.first.count < size_of(height) {
        height -= 1;
        let node = tree.visit(height, steps);
        let size = size_of(height);
        let place = (block / size) as usize;
        block %= size;
        before = last_of(before, &node, place, size);
        after = first_of(&node, place + 1, size, after);
        first += place as u32 * size;
        known = node.part(place);
        tree = tree.below(height, place);
    }
    let low = alike_in(before, known.first.kind);
    let high = alike_in(after, known.first.kind);
    Extent {
        first: (first - low) as u64,
        count: (low + size_of(height) + high) as u64,
    }
}
