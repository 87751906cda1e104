// The tags and their seats.
use crate::table::TagTable;
use crate::view::{Fits, Slot, View};
use arrayvec::ArrayVec;
use atomic_table::Seat;
use std::marker::Model;

/// The tags of 1 to 16 lanes. Contracts see the table under them, which has the number of lanes.
#[derive(Drop)]
pub struct Tags<P: Fits, Q> {
    pub(crate) table: TagTable<P, Q>,
}

impl<P: Fits, Q> Model for Tags<P, Q> {
    ghost use Rattle.std.specs.Prelude.{◌≡◌, ◌<◌, ◌≤◌};
    ghost use Rattle.atomic_table.specs.Seated.{TableId};

    ghost Value = { TableId };

    ghost view = { λ t. t.table.shared.table_id };

    ghost invariant = { λ t. (t.table.shared.table_id.words ≡ t.table.shared.table_id.slots)
        × (0 < t.table.shared.table_id.slots) × (t.table.shared.table_id.slots ≤ 16) };
}

/// The seat of one lane, with which it posts and polls.
#[derive(Drop)]
pub struct LaneSeat<P, Q> {
    pub(crate) lane: u32,
    pub(crate) number: u32,
    pub(crate) posted: bool,
    pub(crate) seat: Seat<Slot<P, Q>, View<P, Q>>,
}

impl<P, Q> Model for LaneSeat<P, Q> {
    ghost use Rattle.std.specs.Prelude.{◌≡◌, []};
    ghost use Rattle.bow_tags.specs.Seats.{Sitting, IsLaneSeat};

    ghost Value = { Sitting P Q };

    ghost view = { λ s. record { table = s.seat.table_id; id = s.seat.id; view = s.seat.me.0 } };

    ghost invariant = { λ s. (s.seat.me.1 ≡ [])
        × IsLaneSeat s.seat.table_id.slots s.lane s.number s.posted s.seat.me.0 };
}

/// The seat of one server, with which it looks, takes and answers, with the lanes whose jobs it holds in the
/// order of the slots that it carries.
#[derive(Drop)]
pub struct ServerSeat<P, Q> {
    pub(crate) held: ArrayVec<u32, 16>,
    pub(crate) seat: Seat<Slot<P, Q>, View<P, Q>>,
}

impl<P, Q> Model for ServerSeat<P, Q> {
    ghost use Rattle.bow_tags.specs.Seats.{Sitting, IsServerSeat};

    ghost Value = { Sitting P Q };

    ghost view = { λ s. record { table = s.seat.table_id; id = s.seat.id; view = s.seat.me.0 } };

    ghost invariant = { λ s. IsServerSeat s.seat.table_id.slots s.held.items s.seat.me.1 s.seat.me.0 };
}
