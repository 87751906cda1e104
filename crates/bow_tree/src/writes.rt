// Changes of a tree.
ghost use Rattle.std.specs.Prelude.{◌≡◌, ◌*◌, ◌<◌, ◌≤◌, length, take, replicate};
ghost use Rattle.bow_tree.specs.Rows.{put};
ghost use Rattle.bow_tree.specs.Parts.{IsKnown};
ghost use Rattle.bow_tree.specs.Trees.{blocks_of, kinds_in, IsTree, ArePartsRight, IsPut, leaf_kinds};
ghost use Rattle.bow_tree.specs.Rooms.{HasRoom, HaveRoom};

use crate::nodes::{Node, WIDTH, known_of, parts_of, size_of};
use crate::parts::{Part, alike};
use bow_units::Kind;

// Gives all parts the same value.
fn fill(parts: &mut [Part], part: Part)
    ensures { parts.new ≡ replicate (length parts.old) part }
{
    parts.fill(part);
}

// Gives the blocks from `from` to before `to` this kind.
fn put(kinds: &mut [Kind], from: usize, to: usize, kind: Kind)
    requires some { from ≤ to }
    requires inside { to ≤ length kinds.old }
    ensures { kinds.new ≡ put from to kind kinds.old }
{
    for block in from..to {
        kinds[block] = kind;
    }
}

// The same for the blocks of a leaf.
fn set_leaf(known: Part, kinds: &mut [Kind], from: u32, to: u32, kind: Kind) -> Part
    requires room { 16 ≤ length kinds.old }
    requires some { from ≤ to }
    requires inside { to ≤ 16 }
    ensures known { IsKnown 16 (take 16 kinds.new) result }
    ensures put { take 16 kinds.new ≡ put from to kind (leaf_kinds known kinds.old) }
{
    let (leaf, _others) = kinds.split_at_mut(WIDTH);
    if known.first.count == WIDTH as u32 {
        put(leaf, 0, WIDTH, known.first.kind);
    }
    put(leaf, from as usize, to as usize, kind);
    known_of(&Node::of_kinds(leaf), 1)
}

/// Gives the blocks from `from` to before `to` this kind. Answers what is known of the tree then.
#[cycle(writes)]
pub fn set_in(
    known: Part,
    parts: &mut [Part],
    kinds: &mut [Kind],
    height: u32,
    from: u32,
    to: u32,
    kind: Kind,
) -> Part
    requires height { height ≤ 5 }
    requires room { HasRoom height to (parts.old, kinds.old) }
    requires tree { IsTree height known (parts.old, kinds.old) }
    requires inside { to ≤ blocks_of height }
    ensures tree { IsTree height result (parts.new, kinds.new) }
    ensures put { kinds_in height result (parts.new, kinds.new)
        ≡ put from to kind (kinds_in height known (parts.old, kinds.old)) }
{
    if from >= to {
        return known;
    }
    let size = size_of(height);
    if from == 0 && to == size {
        return alike(kind, size);
    }
    if height == 1 {
        return set_leaf(known, kinds, from, to, kind);
    }
    let below = size_of(height - 1);
    let (node, trees) = parts.split_at_mut(WIDTH);
    if known.first.count == size {
        fill(node, alike(known.first.kind, below));
    }
    set_parts(node, trees, kinds, height - 1, from, to, kind);
    known_of(&Node::of_parts(node), below)
}

// The same for the blocks of some parts, whose trees have this height. The parts that lie before them stay as they are.
#[cycle(writes)]
fn set_parts(
    parts: &mut [Part],
    trees: &mut [Part],
    kinds: &mut [Kind],
    height: u32,
    from: u32,
    to: u32,
    kind: Kind,
)
    requires some { 1 ≤ height }
    requires height { height ≤ 4 }
    requires any { from < to }
    requires inside { to ≤ length parts.old * blocks_of height }
    requires room { HaveRoom height to (trees.old, kinds.old) }
    requires trees { ArePartsRight height parts.old (trees.old, kinds.old) }
    ensures trees { ArePartsRight height parts.new (trees.new, kinds.new) }
    ensures put { IsPut height from to kind parts.old (trees.old, kinds.old) parts.new (trees.new, kinds.new) }
{
    let size = size_of(height);
    let before = from / size;
    let passed = before * size;
    let (_before, parts) = parts.split_at_mut(before as usize);
    let (_before, trees) = trees.split_at_mut(before as usize * parts_of(height));
    let (_before, kinds) = kinds.split_at_mut(passed as usize);
    set_next(
        parts,
        trees,
        kinds,
        height,
        from - passed,
        to - passed,
        kind,
    );
}

// The same, from the first of these parts on to the last one that has such a block.
#[cycle(writes)]
fn set_next(
    parts: &mut [Part],
    trees: &mut [Part],
    kinds: &mut [Kind],
    height: u32,
    from: u32,
    to: u32,
    kind: Kind,
)
    requires some { 1 ≤ height }
    requires height { height ≤ 4 }
    requires room { HaveRoom height to (trees.old, kinds.old) }
    requires trees { ArePartsRight height parts.old (trees.old, kinds.old) }
    ensures trees { ArePartsRight height parts.new (trees.new, kinds.new) }
    ensures put { IsPut height from to kind parts.old (trees.old, kinds.old) parts.new (trees.new, kinds.new) }
{
    if from >= to || parts.is_empty() {
        return;
    }
    let size = size_of(height);
    let (part, others) = parts.split_at_mut(1);
    let (tree, trees) = trees.split_at_mut(parts_of(height).min(trees.len()));
    let (row, kinds) = kinds.split_at_mut((size as usize).min(kinds.len()));
    part[0] = set_in(
        part[0],
        tree,
        row,
        height,
        from.min(size),
        to.min(size),
        kind,
    );
    let from = from.saturating_sub(size);
    let to = to.saturating_sub(size);
    set_next(others, trees, kinds, height, from, to, kind);
}
