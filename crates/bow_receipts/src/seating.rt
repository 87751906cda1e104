// The callers of a desk that is to be set up.
ghost use Rattle.std.specs.Prelude.{◌≡◌, ◌<◌, ◌≤◌, IfOk, length, sum};
ghost use Rattle.bow_units.specs.Sizes.{IsBlockSize};

use crate::asks::{Answer, Ask};
use bow_tags::{LaneSeat, ServerSeat, Tags};
use bow_units::NoMemory;
use std::alloc::Global;
use std::marker::Model;

/// The callers of a desk that is to be set up, with how many calls each may make. Contracts see the table of their
/// tags, the size of the blocks of which they may ask, and these numbers.
#[derive(Drop)]
pub struct Callers {
    pub(crate) tags: Tags<Ask, Answer>,
    pub(crate) lanes: Vec<LaneSeat<Ask, Answer>>,
    pub(crate) servers: Vec<ServerSeat<Ask, Answer>>,
    pub(crate) calls: Vec<u32>,
    pub(crate) size: u32,
}

impl Model for Callers {
    ghost use Rattle.bow_receipts.specs.Openings.{AreCallers, Seated};

    ghost Value = { Seated };

    ghost view = { λ c. record { table = c.tags; size = c.size; calls = c.calls.items } };

    ghost invariant = { λ c. AreCallers c.tags c.size c.lanes.items c.servers.items c.calls.items };
}

impl Callers {
    /// As many callers as there are numbers, 1 to 16, each of which may make so many calls, at most 65,536 in all, of a
    /// device of this block size.
    pub fn new(alloc: Global, calls: &[u32], block_size: u32) -> Result<Callers, NoMemory>
        requires some { 0 < length calls.now }
        requires few { length calls.now ≤ 16 }
        requires total { sum calls.now ≤ 65536 }
        ensures calls { IfOk result (λ c. c.calls ≡ calls.now) }
        ensures size { IfOk result (λ c. c.size ≡ block_size) }
    {
        let numbers = calls.to_vec(alloc)?;
        let (tags, lanes, servers) = Tags::<Ask, Answer>::open(
            alloc,
            calls.len() as u32,
            1,
            block_size,
        )?;
        Ok(Callers {
            tags,
            lanes,
            servers,
            calls: numbers,
            size: block_size,
        })
    }
}
