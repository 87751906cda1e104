// A desk is closed.
ghost use Rattle.std.specs.Prelude.{◌≡◌, ◌≤◌, ℕ, [], length, vec_capacity};
ghost use Rattle.bow_tags.specs.Seats.{Numbered};
ghost use Rattle.bow_receipts.specs.Closing.{IsClosed, entries_of};
ghost use Rattle.bow_receipts.specs.Passes.{AreSeats};
ghost use Rattle.bow_receipts.specs.Sectioned.{Between};

use crate::asks::{Answer, Ask, Call};
use crate::desk::Desk;
use crate::locked::Parts;
use crate::naming::Naming;
use crate::passes::Pass;
use crate::service::Service;
use bow_core::Core;
use bow_disk::Disk;
use bow_history::Item;
use bow_ranges::Ranges;
use bow_tags::LaneSeat;

/// What a desk leaves: the device, in which no request waits, the journal of all that was done, and the calls, in the
/// order of their answers.
#[derive(Drop)]
pub struct Closed<D: Disk, R: Ranges> {
    pub core: Core<D, R>,
    pub journal: Vec<Item>,
    pub calls: Vec<Call>,
}

impl<J: Naming<D>, D: Disk, R: Ranges> Desk<J, D, R> {
    /// Closes the desk, with all its passes, in the order in which it gave them. The journal is legal, with the ops of
    /// the calls as its requests and their bytes as the contents of what was read; each answer has as many bytes as the
    /// blocks have that its call has read; the calls are those of the journal, each at its place; and for each pass
    /// they are exactly its calls, each once, in its order, with the answers that it was given.
    pub fn close(self, passes: Vec<Pass<J, D>>) -> Closed<D, R>
        requires all { length passes.items ≡ J.callers }
        requires order { Numbered (λ i pass. pass.lane ≡ i) passes.items }
        ensures sections { (high : ℕ) × Between J.section 0 result.journal.items high }
        ensures closed { IsClosed D.content D.moment D.left_since D.faults J.sizes J.callers J.begins passes.items
            result.core result.journal.items (entries_of result.calls.items) }
    {
        let Desk {
            alloc: _,
            tags,
            locked,
        } = self;
        let Parts {
            service,
            lanes,
            mut servers,
        } = locked.into_inner().into_parts();
        let lanes = seats_of(lanes, passes);
        let Service {
            core,
            server,
            hands: _,
            journal,
            calls,
            low: _,
        } = service;
        servers.push_reserved(server);
        tags.close(lanes, servers);
        Closed {
            core,
            journal,
            calls,
        }
    }
}

// The seats of these passes, in a vector with room for them.
fn seats_of<J: Naming<D>, D>(
    mut seats: Vec<LaneSeat<Ask, Answer>>,
    passes: Vec<Pass<J, D>>,
) -> Vec<LaneSeat<Ask, Answer>>
    requires none { seats.items ≡ [] }
    requires room { length passes.items ≤ vec_capacity seats }
    ensures { AreSeats J.table J.sizes.block_size J.callers J.allowed J.section passes.items result.items }
{
    for pass in passes {
        let Pass { seat, .. } = pass;
        seats.push_reserved(seat);
    }
    seats
}
