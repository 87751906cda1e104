// The nodes of the tree. A tree of some height, over 16 ^ height blocks, is kept in two slices. The one has the
// sixteen parts of its root, and then, one after the other, what is kept of the trees of these parts, each lower
// by one. The other has the kinds of its blocks. A root whose parts are single blocks is a leaf: only the kinds of
// its blocks are kept. What lies behind the last block of the device, both slices leave out.
ghost use Rattle.std.specs.Prelude.{◌≡◌, ◌+◌, ◌*◌, ◌<◌, ◌≤◌, length, map, take, drop, slice_index_or};
ghost use Rattle.bow_tree.specs.Parts.{lone, no_part, HasRows, IsWhole, HasRowsBehind, EndsBelow};
ghost use Rattle.bow_tree.specs.Parts.{HasRowsBefore, BeginsFrom};
ghost use Rattle.bow_tree.specs.Trees.{blocks_of, width_of, room_of, root_of, below_root, tree_at};
ghost use Rattle.bow_tree.specs.Rooms.{room_for, kinds_for};

use crate::parts::{Part, Run, alike, first_before, joined, last_behind};
use crate::steps::Steps;
use bow_units::Kind;
use std::marker::Model;
use std::sync::ledger::Ledger;

/// How many parts a node has.
pub const WIDTH: usize = 16;

/// How many blocks a tree of this height has.
pub fn size_of(height: u32) -> u32
    requires { height ≤ 5 }
    ensures size { result ≡ blocks_of height }
    ensures some { 1 ≤ result }
    ensures few { result ≤ 1048576 }
{
    match height {
        0 => 1,
        1 => 16,
        2 => 256,
        3 => 4_096,
        4 => 65_536,
        _ => 1_048_576,
    }
}

/// How many parts are kept of a tree in all.
pub fn parts_of(height: u32) -> usize
    requires { height ≤ 5 }
    ensures room { result ≡ room_of height }
    ensures few { result ≤ 69904 }
{
    match height {
        0 => 0,
        1 => 0,
        2 => 16,
        3 => 272,
        4 => 4_368,
        _ => 69_904,
    }
}

/// How many parts are kept of a root whose parts have this height.
fn width_of(height: u32) -> usize
    ensures width { result ≡ width_of height }
    ensures few { result ≤ 16 }
{
    if height == 0 { 0 } else { WIDTH }
}

/// How many parts are kept of a tree for its first blocks.
pub fn parts_for(height: u32, blocks: u32) -> usize
    requires height { height ≤ 5 }
    requires inside { blocks ≤ blocks_of height }
    ensures { result ≡ room_for height blocks }
{
    let mut height = height;
    let mut blocks = blocks;
    let mut count = 0;
    while blocks > 0 && height > 0 {
        height -= 1;
        let size = size_of(height);
        count += width_of(height) + (blocks / size) as usize * parts_of(height);
        blocks %= size;
    }
    count
}

/// How many kinds are kept for so many blocks: whole leaves of sixteen.
pub fn kinds_for(blocks: u32) -> usize
    requires { blocks ≤ 1048576 }
    ensures { result ≡ kinds_for blocks }
{
    (blocks as usize + WIDTH - 1) / WIDTH * WIDTH
}

/// The least height of a tree that has so many blocks.
pub fn height_for(blocks: u32) -> u32
    requires { blocks ≤ 1048576 }
    ensures few { result ≤ 5 }
    ensures enough { blocks ≤ blocks_of result }
{
    let mut height = 0;
    while size_of(height) < blocks {
        height += 1;
    }
    height
}

/// The sixteen parts of a node. Of a leaf, whose parts are single blocks, it has the kinds.
#[derive(Drop)]
pub struct Node<'a> {
    cells: Cells<'a>,
}

/// What is kept of a node.
#[derive(Drop)]
pub enum Cells<'a> {
    /// Its parts.
    Parts(&'a [Part]),
    /// The kinds of its blocks.
    Kinds(&'a [Kind]),
}

impl<'a> Model for Node<'a> {
    ghost use Rattle.std.specs.Prelude.{List};
    ghost use Rattle.bow_tree.specs.declared.parts.Part.{Part};
    ghost use Rattle.bow_tree.specs.Nodes.{parts_in};

    ghost Value = { List Part };

    ghost view = { λ n. parts_in n.cells };
}

impl<'a> Node<'a> {
    /// A node of these parts.
    pub fn of_parts(parts: &'a [Part]) -> Node<'a>
        ensures { result ≡ parts.now }
    {
        Node {
            cells: Cells::Parts(parts),
        }
    }

    /// A leaf of blocks of these kinds.
    pub fn of_kinds(kinds: &'a [Kind]) -> Node<'a>
        ensures { result ≡ map lone kinds.now }
    {
        Node {
            cells: Cells::Kinds(kinds),
        }
    }

    /// The part at a place.
    pub fn part(&self, place: usize) -> Part
        requires width { length self.now ≡ 16 }
        requires place { place < 16 }
        ensures { result ≡ slice_index_or self.now place no_part }
    {
        match self.cells {
            Cells::Parts(parts) => parts[place],
            Cells::Kinds(kinds) => alike(kinds[place], 1),
        }
    }
}

/// What is kept of a tree. It is read by `visit` alone.
#[derive(Drop)]
pub struct Nodes<'a> {
    parts: &'a [Part],
    kinds: &'a [Kind],
}

impl<'a> Model for Nodes<'a> {
    ghost use Rattle.bow_tree.specs.Trees.{Store};

    ghost Value = { Store };

    ghost view = { λ n. (n.parts.now, n.kinds.now) };
}

impl<'a> Nodes<'a> {
    /// These parts and kinds.
    pub fn over(parts: &'a [Part], kinds: &'a [Kind]) -> Nodes<'a>
        ensures { result ≡ (parts.now, kinds.now) }
    {
        Nodes { parts, kinds }
    }

    /// Reads the root, and ticks: a node of sixteen parts, or a leaf of sixteen kinds. Its parts have this height.
    pub fn visit<L: Ledger>(&self, height: u32, steps: &mut Steps<L>) -> Node<'a>
        requires { length (root_of height self.now) ≡ 16 }
        ensures node { result ≡ root_of height self.now }
        ensures width { length result ≡ 16 }
        ensures ticked { steps.new ≡ steps.old + 1 }
    {
        steps.tick();
        if height == 0 {
            return Node::of_kinds(&self.kinds[..WIDTH]);
        }
        Node::of_parts(&self.parts[..WIDTH])
    }

    /// What is kept of the tree of one of the root's parts, which has this height.
    pub fn below(&self, height: u32, place: usize) -> Nodes<'a>
        requires height { height ≤ 4 }
        requires place { place < 16 }
        ensures { result ≡ tree_at height place (below_root height self.now) }
    {
        let room = parts_of(height);
        let size = size_of(height) as usize;
        Nodes {
            parts: piece(self.parts, width_of(height) + place * room, room),
            kinds: piece(self.kinds, place * size, size),
        }
    }
}

/// So many items from a place on, or as many as there are.
fn piece<T>(items: &[T], from: usize, count: usize) -> &[T]
    ensures { result.now ≡ take count (drop from items.now) }
{
    let rest = &items[from.min(items.len())..];
    &rest[..count.min(rest.len())]
}

/// What is known of a node's blocks, its parts having `size` blocks each.
pub fn known_of(node: &Node, size: u32) -> Part
    requires width { length node.now ≡ 16 }
    requires some { 0 < size }
    requires few { 16 * size ≤ 1048576 }
    requires known { HasRows size node.now }
    ensures { IsWhole size node.now result }
{
    let mut known = node.part(0);
    for place in 1..WIDTH {
        known = joined(known, place as u32 * size, node.part(place), size);
    }
    known
}

/// The run at the end of a node's parts up to a place, which come behind blocks that end with `before`.
pub fn last_of(before: Run, node: &Node, place: usize, size: u32) -> Run
    requires width { length node.now ≡ 16 }
    requires place { place ≤ 16 }
    requires some { 0 < size }
    requires known { HasRowsBehind before size node.now }
    ensures { EndsBelow before size node.now place result }
{
    let mut last = before;
    for low in 0..place {
        last = last_behind(last, node.part(low), size);
    }
    last
}

/// The run at the beginning of a node's parts from a place on, which come before blocks that begin with `after`.
pub fn first_of(node: &Node, place: usize, size: u32, after: Run) -> Run
    requires width { length node.now ≡ 16 }
    requires place { place ≤ 16 }
    requires some { 0 < size }
    requires known { HasRowsBefore after size node.now }
    ensures { BeginsFrom after size node.now place result }
{
    let mut first = after;
    let mut high = WIDTH;
    while high > place {
        high -= 1;
        first = first_before(node.part(high), size, first);
    }
    first
}
