// Tags are made, with their seats.
ghost use Rattle.std.specs.Prelude.{◌≡◌, ℕ, ◌+◌, ◌-◌, ◌*◌, ◌^◌, ◌<◌, ◌≤◌, [], ◌∷◌, ◌++◌, length, true, false, IfSome, IfNone, IfOk, vec_len, replicate};
ghost use Rattle.bow_tags.specs.declared.view.Slot.TheVariants.{Empty};
ghost use Rattle.bow_tags.specs.Rule.{all_lanes, below, whole};
ghost use Rattle.bow_tags.specs.Seats.{lanes_of, IsFirstLane, IsFirstServer, Numbered, ByIndex, first_view};

use crate::seats::{LaneSeat, ServerSeat, Tags};
use crate::table::{Opening, TagTable};
use crate::view::{Fits, Slot, View};
use arrayvec::ArrayVec;
use atomic_table::{Seat, Split, Table};
use bow_units::NoMemory;
use std::alloc::{AllocError, Global};

struct OneLane;

impl<P, Q> Split<View<P, Q>> for OneLane {
    ghost use Rattle.bow_tags.specs.Steps.{with_first_lane, without_first_lane};

    ghost left = { without_first_lane };

    ghost right = { with_first_lane };
}

struct OneServer;

impl<P, Q> Split<View<P, Q>> for OneServer {
    ghost use Rattle.bow_tags.specs.Steps.{with_first_server, without_first_server};

    ghost left = { without_first_server };

    ghost right = { with_first_server };
}

fn empty_slots<P, Q>(alloc: Global, count: u32) -> Result<Vec<Slot<P, Q>>, AllocError>
where
    P: Drop,
    Q: Drop,
    ensures { IfOk result (λ v. v.items ≡ replicate count Empty) }
{
    let mut slots = Vec::new(alloc);
    for _i in 0..count {
        slots.push(Slot::Empty)?;
    }
    Ok(slots)
}

// The table, with the first seat, which speaks for all.
fn made<P: Fits + Drop, Q: Drop>(
    alloc: Global,
    opening: Opening,
) -> Result<(TagTable<P, Q>, Seat<Slot<P, Q>, View<P, Q>>), AllocError>
    requires { (0 < opening.lanes) × (opening.lanes ≤ 16) }
    ensures counts { IfOk result (λ r. (r.0.shared.table_id.slots ≡ opening.lanes)
        × (r.0.shared.table_id.words ≡ opening.lanes)) }
    ensures seat { IfOk result (λ r. (r.1.table_id ≡ r.0.shared.table_id) × (r.1.me ≡ (whole opening, []))) }
{
    let words = [0u64; 16];
    let slots = empty_slots(alloc, opening.lanes)?;
    match Table::new(alloc, &words[..opening.lanes as usize], slots, &opening) {
        Ok(made) => Ok(made),
        Err(_) => Err(AllocError),
    }
}

// Gives each lane its seat, cut from the first.
fn lane_seats<P: Fits + Drop, Q: Drop>(
    alloc: Global,
    table: &TagTable<P, Q>,
    first: &mut Seat<Slot<P, Q>, View<P, Q>>,
    opening: Opening,
) -> Result<Vec<LaneSeat<P, Q>>, AllocError>
    requires own { (first.old.table_id ≡ table.now.shared.table_id) × (opening.lanes ≡ table.now.shared.table_id.slots)
        × (0 < table.now.shared.table_id.words) }
    requires whole { first.old.me ≡ (first_view opening.lanes opening.servers opening.size 0 0, []) }
    ensures first { IfOk result (λ _. (first.new.table_id ≡ first.old.table_id)
        × (first.new.me ≡ (first_view opening.lanes opening.servers opening.size opening.lanes 0, []))) }
    ensures seats { IfOk result (λ v. (length v.items ≡ opening.lanes)
        × Numbered (IsFirstLane first.old.table_id opening.servers opening.size) v.items) }
{
    let mut seats = Vec::new(alloc);
    for lane in 0..opening.lanes {
        let seat = table.shared.split_seat::<OneLane>(first);
        seats.push(LaneSeat {
            lane,
            number: 0,
            posted: false,
            seat,
        })?;
    }
    Ok(seats)
}

// Gives each server number its seat, cut from the first.
fn server_seats<P: Fits + Drop, Q: Drop>(
    alloc: Global,
    table: &TagTable<P, Q>,
    first: &mut Seat<Slot<P, Q>, View<P, Q>>,
    opening: Opening,
) -> Result<Vec<ServerSeat<P, Q>>, AllocError>
    requires own { (first.old.table_id ≡ table.now.shared.table_id) × (opening.lanes ≡ table.now.shared.table_id.slots)
        × (0 < table.now.shared.table_id.words) }
    requires few { opening.lanes ≤ 16 }
    requires whole { first.old.me ≡ (first_view opening.lanes opening.servers opening.size opening.lanes 0, []) }
    ensures { IfOk result (λ v. (length v.items ≡ opening.servers)
        × Numbered (IsFirstServer first.old.table_id opening.servers opening.size) v.items) }
{
    let mut seats = Vec::new(alloc);
    for _server in 0..opening.servers {
        let seat = table.shared.split_seat::<OneServer>(first);
        seats.push(ServerSeat {
            held: ArrayVec::new(),
            seat,
        })?;
    }
    Ok(seats)
}

impl<P: Fits + Drop, Q: Drop> Tags<P, Q> {
    /// Tags for so many lanes, with the seats of the lanes 0, 1, 2 and so on, and those of the server numbers 0,
    /// 1, 2 and so on. Each ask has to fit `size`.
    pub fn open(
        alloc: Global,
        lanes: u32,
        servers: u32,
        size: u32,
    ) -> Result<(Tags<P, Q>, Vec<LaneSeat<P, Q>>, Vec<ServerSeat<P, Q>>), NoMemory>
        requires lanes { (0 < lanes) × (lanes ≤ 16) }
        requires servers { (0 < servers) × (servers ≤ 8) }
        ensures tags { IfOk result (λ r. lanes_of r.0 ≡ lanes) }
        ensures lanes { IfOk result (λ r. (length r.1.items ≡ lanes)
            × Numbered (IsFirstLane r.0 servers size) r.1.items) }
        ensures servers { IfOk result (λ r. (length r.2.items ≡ servers)
            × Numbered (IsFirstServer r.0 servers size) r.2.items) }
        ensures by_index { IfOk result (λ r. ByIndex (IsFirstLane r.0 servers size) r.1.items
            × ByIndex (IsFirstServer r.0 servers size) r.2.items) }
    {
        let opening = Opening {
            lanes,
            servers,
            size,
        };
        let (table, mut first) = made(alloc, opening)?;
        let lane_seats = lane_seats(alloc, &table, &mut first, opening)?;
        let server_seats = server_seats(alloc, &table, &mut first, opening)?;
        Ok((Tags { table }, lane_seats, server_seats))
    }
}
