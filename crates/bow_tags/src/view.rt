// What a seat knows. No value of a view is made: views exist in proofs alone.
use std::collections::LinkedList;

/// What may be asked, with the fact that it fits a number, as a block size.
pub trait Fits {
    ghost use Rattle.std.specs.Prelude.{ℕ};

    ghost fits: { ℕ → Self → Type 0 };
}

impl Fits for () {
    ghost fits = { λ size ask. Unit {0} };
}

/// What a lane's slot contains.
#[derive(Drop)]
pub enum Slot<P, Q> {
    Empty,
    Ask(P),
    Answer(Q),
}

/// What a lane is doing, as its own seat knows it.
pub enum Stance {
    /// It may post.
    Idle,
    /// It has its slot, and is about to post.
    Holding,
    /// It has posted, and waits for its reply.
    Posted,
}

/// A lane for which a seat speaks: its number, and all its asks, where that of number k stands at place k.
pub struct LaneView<P> {
    pub lane: u32,
    pub number: u32,
    pub stance: Stance,
    pub asked: LinkedList<P>,
}

/// A job that a seat holds, with what was asked.
pub struct Held<P> {
    pub lane: u32,
    pub number: u32,
    pub ask: P,
}

/// What was asked under a lane and number, and what was answered.
pub struct Entry<P, Q> {
    pub lane: u32,
    pub number: u32,
    pub ask: P,
    pub answer: Q,
}

/// What a seat knows.
pub struct View<P, Q> {
    /// False once another seat has taken it in.
    pub live: bool,
    /// The size, the number of lanes and the number of servers given to `open`.
    pub size: u32,
    pub width: u32,
    pub servers: u32,
    /// The number of looks, and the lane and the word of the last one.
    pub looks: u64,
    pub at: u32,
    pub found: u64,
    /// The lanes for which it speaks.
    pub lanes: LinkedList<LaneView<P>>,
    /// The jobs that it holds.
    pub jobs: LinkedList<Held<P>>,
    /// The server numbers for which it speaks.
    pub speaks: LinkedList<u32>,
    /// The replies that it got, and those that it gave.
    pub got: LinkedList<Entry<P, Q>>,
    pub given: LinkedList<Entry<P, Q>>,
    /// The reply that it has taken out of a slot that it has not given back yet, if any.
    pub hand: LinkedList<Entry<P, Q>>,
}
