// The table under the rule of the tags.
use crate::view::{Fits, Slot, View};
use atomic_table::{Table, TableRule};
use std::alloc::Global;

/// What the table is told when it is made.
#[derive(Clone, Copy)]
pub struct Opening {
    pub lanes: u32,
    pub servers: u32,
    pub size: u32,
}

pub struct Law;

impl<P: Fits, Q> TableRule<Slot<P, Q>, View<P, Q>, Opening> for Law {
    ghost use Rattle.bow_tags.specs.Rule.{Rule, whole};

    ghost holds = { λ k. Rule P.fits };

    ghost first = { λ k. whole k };
}

pub type TagTable<P, Q> = Table<Slot<P, Q>, View<P, Q>, Opening, Law, Global>;
