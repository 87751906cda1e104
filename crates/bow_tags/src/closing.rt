// Tags are closed.
ghost use Rattle.std.specs.Prelude.{◌≡◌, ℕ, ◌<◌, ◌≤◌, ◌⊎◌, [], length, slice_index, true};
ghost use Rattle.std.specs.Mem.Slots.{slots_items, slots_len, IsFull};
ghost use Rattle.bow_tags.specs.Seats.{lanes_of, Numbered, IsLaneAt, IsServerAt, AllIdle, NoJobs, IsLastWord, AllGiven, AnsweredOnce};
ghost use Rattle.bow_tags.specs.Gathering.{AtTable, Gathers, CountsGiven, HasLanes};
ghost use Rattle.bow_tags.specs.Steps.{lane_of, looked, SpeaksForIdle};

use crate::plays::Settle;
use crate::seats::{LaneSeat, ServerSeat, Tags};
use crate::table::TagTable;
use crate::view::{Fits, Slot, View};
use arrayvec::ArrayVec;
use atomic_table::{Closed, Join, Seat};
use std::alloc::Global;

struct Both;

impl<P, Q> Join<View<P, Q>> for Both {
    ghost use Rattle.bow_tags.specs.Steps.{joined, spent};

    ghost both = { joined };

    ghost spent = { spent };
}

// The seat takes in those of the lanes.
fn gather_lanes<P: Fits + Drop, Q: Drop>(
    table: &TagTable<P, Q>,
    into: &mut Seat<Slot<P, Q>, View<P, Q>>,
    lanes: Vec<LaneSeat<P, Q>>,
)
    requires own { (into.old.table_id ≡ table.now.shared.table_id) × (0 < table.now.shared.table_id.words) }
    requires theirs { Numbered (λ i s. AtTable table.now.shared.table_id s) lanes.items }
    requires live { (into.old.me.0.live ≡ true) × (into.old.me.0.hand ≡ []) }
    ensures same { (into.new.table_id ≡ into.old.table_id) × (into.new.me.1 ≡ into.old.me.1) }
    ensures gathers { Gathers into.old.me.0 lanes.items into.new.me.0 }
    ensures lanes { HasLanes lanes.items into.new.me.0 }
    ensures kept { (into.new.me.0.given ≡ into.old.me.0.given) × (into.new.me.0.jobs ≡ into.old.me.0.jobs)
        × (into.new.me.0.servers ≡ into.old.me.0.servers) }
{
    for lane in lanes {
        let LaneSeat {
            lane: _,
            number: _,
            posted: _,
            seat,
        } = lane;
        table.shared.join_seat::<Both>(into, seat);
    }
}

// A look, by which a seat that speaks for every lane, where all are idle, learns that it holds no job.
fn settle<P: Fits + Drop, Q: Drop>(table: &TagTable<P, Q>, seat: &mut Seat<Slot<P, Q>, View<P, Q>>)
    requires own { (seat.old.table_id ≡ table.now.shared.table_id) × (0 < table.now.shared.table_id.slots)
        × (table.now.shared.table_id.words ≡ table.now.shared.table_id.slots) }
    requires free { SpeaksForIdle table.now.shared.table_id.slots seat.old.me.0 ⊎ (seat.old.me.0.jobs ≡ []) }
    ensures same { (seat.new.table_id ≡ seat.old.table_id) × (seat.new.me.1 ≡ seat.old.me.1) }
    ensures looked { (word : ℕ) × (seat.new.me.0 ≡ looked 0 word seat.old.me.0) }
    ensures free { seat.new.me.0.jobs ≡ [] }
{
    table.shared.load::<Settle>(seat, 0);
}

// Each server's seat takes in the one gathered so far. It knows then that it holds no job, and carries no slot.
fn gather_servers<P: Fits + Drop, Q: Drop>(
    table: &TagTable<P, Q>,
    first: Seat<Slot<P, Q>, View<P, Q>>,
    servers: Vec<ServerSeat<P, Q>>,
) -> Seat<Slot<P, Q>, View<P, Q>>
    requires own { (first.table_id ≡ table.now.shared.table_id) × (0 < table.now.shared.table_id.slots)
        × (table.now.shared.table_id.words ≡ table.now.shared.table_id.slots) }
    requires theirs { Numbered (λ i s. AtTable table.now.shared.table_id s × (s.view.servers ≡ first.me.0.servers))
        servers.items }
    requires live { (first.me.0.live ≡ true) × (first.me.0.hand ≡ []) }
    requires bare { (first.me.0.jobs ≡ []) × (first.me.1 ≡ []) }
    requires free { SpeaksForIdle table.now.shared.table_id.slots first.me.0 ⊎ NoJobs servers.items }
    ensures own { result.table_id ≡ table.now.shared.table_id }
    ensures gathers { Gathers first.me.0 servers.items result.me.0 }
    ensures counts { CountsGiven first.me.0 servers.items result.me.0 }
    ensures servers { result.me.0.servers ≡ first.me.0.servers }
    ensures bare { (result.me.0.jobs ≡ []) × (result.me.1 ≡ []) }
{
    let mut gathered = first;
    for server in servers {
        let ServerSeat { held: _, mut seat } = server;
        table.shared.join_seat::<Both>(&mut seat, gathered);
        settle(table, &mut seat);
        gathered = seat;
    }
    gathered
}

// The words, in order.
fn words_of<P: Drop, Q: Drop>(
    closed: &Closed<Slot<P, Q>, Global>,
    count: usize,
) -> ArrayVec<u64, 16>
    requires full { IsFull closed.now.words }
    requires count { (slots_len closed.now.words ≡ count) × (length (slots_items closed.now.words) ≡ count)
        × (count ≤ 16) }
    ensures { result.items ≡ slots_items closed.entry.now.words }
{
    let mut words = ArrayVec::new();
    for i in 0..count {
        words.push(closed.word(i));
    }
    words
}

// Drops what the slots hold.
fn free<P: Drop, Q: Drop>(mut closed: Closed<Slot<P, Q>, Global>)
    requires { IsFull closed.slots }
{
    let mut i = 0;
    while i < closed.slot_count() {
        drop(closed.take(i));
        i += 1;
    }
    closed.free();
}

impl<P: Fits + Drop, Q: Drop> Tags<P, Q> {
    /// The last words, of the lanes 0, 1, 2 and so on. It takes the seats of all lanes and of all server numbers,
    /// in the order of `open`. Where each lane is idle no seat held a job; else none may hold one.
    pub fn close(
        self,
        lanes: Vec<LaneSeat<P, Q>>,
        mut servers: Vec<ServerSeat<P, Q>>,
    ) -> ArrayVec<u64, 16>
        requires lanes { (length lanes.items ≡ lanes_of self) × Numbered (IsLaneAt self) lanes.items }
        requires servers { (0 < length servers.items)
            × Numbered (IsServerAt self (length servers.items)) servers.items }
        requires free { AllIdle lanes.items ⊎ NoJobs servers.items }
        ensures words { length result.items ≡ lanes_of self }
        ensures last { Numbered (λ i s. IsLastWord (slice_index result.items i) (lane_of s.view)) lanes.items }
        ensures free { NoJobs servers.items }
        ensures got { AllGiven lanes.items servers.items }
        ensures once { AnsweredOnce result.items servers.items }
    {
        let Some(last) = servers.pop() else {
            unreachable!()
        };
        let ServerSeat { held: _, mut seat } = last;
        let Tags { table } = self;
        gather_lanes(&table, &mut seat, lanes);
        settle(&table, &mut seat);
        let seat = gather_servers(&table, seat, servers);
        let count = table.word_count();
        let closed = table.close_with(seat);
        let words = words_of(&closed, count);
        free(closed);
        words
    }
}
