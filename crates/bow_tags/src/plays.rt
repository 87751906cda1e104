// What each step tells. These types are for the proofs alone.
ghost use Rattle.bow_tags.specs.Steps.{holds_slot, posts, polls, retires, looks, takes_job, answers, settles};

use crate::view::{Fits, Slot, View};
use atomic_table::Play;

pub struct Hold;

impl<P, Q> Play<Slot<P, Q>, View<P, Q>> for Hold {
    ghost then = { holds_slot };
}

pub struct Post;

impl<P, Q> Play<Slot<P, Q>, View<P, Q>> for Post {
    ghost then = { posts };
}

pub struct Poll;

impl<P, Q> Play<Slot<P, Q>, View<P, Q>> for Poll {
    ghost then = { polls };
}

pub struct Retire;

impl<P, Q> Play<Slot<P, Q>, View<P, Q>> for Retire {
    ghost then = { retires };
}

pub struct Look;

impl<P, Q> Play<Slot<P, Q>, View<P, Q>> for Look {
    ghost then = { looks };
}

pub struct Take;

impl<P: Fits, Q> Play<Slot<P, Q>, View<P, Q>> for Take {
    ghost then = { takes_job P.fits };
}

pub struct Give;

impl<P, Q> Play<Slot<P, Q>, View<P, Q>> for Give {
    ghost then = { answers };
}

pub struct Settle;

impl<P, Q> Play<Slot<P, Q>, View<P, Q>> for Settle {
    ghost then = { settles };
}
