// A desk is set up.
ghost use Rattle.std.specs.Prelude.{◌≡◌, ◌+◌, ◌*◌, ◌-◌, ◌^◌, ◌<◌, ◌≤◌, IfOk, IfErr, [], length, replicate, sum, Option, true, ℕ, vec_capacity};
ghost use Rattle.std.specs.Prelude.{None as NoValue};
ghost use Rattle.bow_tags.specs.Seats.{Numbered, IsFirstLane};
ghost use Rattle.bow_receipts.specs.Openings.{IsNewPass, all_or_none, may_of, opened};

use crate::asks::{Answer, Ask, Call};
use crate::desk::Desk;
use crate::hands::Hand;
use crate::locked::Locked;
use crate::naming::Naming;
use crate::passes::Pass;
use crate::seating::Callers;
use crate::service::Service;
use bow_core::Core;
use bow_disk::Disk;
use bow_history::Item;
use bow_ranges::Ranges;
use bow_tags::{LaneSeat, ServerSeat};
use bow_units::NoMemory;
use std::alloc::{AllocError, Global};
use std::marker::PhantomData;
use std::sync::Mutex;

// Room for what is done until the desk is closed.
#[derive(Drop)]
pub(crate) struct Rooms {
    pub(crate) hands: Vec<Option<Hand>>,
    pub(crate) journal: Vec<Item>,
    pub(crate) calls: Vec<Call>,
    pub(crate) lanes: Vec<LaneSeat<Ask, Answer>>,
    pub(crate) servers: Vec<ServerSeat<Ask, Answer>>,
}

impl Rooms {
    // For so many callers with so many calls in all.
    fn take(alloc: Global, callers: usize, total: usize) -> Result<Rooms, AllocError>
        requires { total ≤ 65536 }
        ensures hands { IfOk result (λ r. r.hands.items ≡ replicate callers NoValue) }
        ensures empty { IfOk result (λ r. (r.journal.items ≡ []) × (r.calls.items ≡ []) × (r.lanes.items ≡ [])
            × (r.servers.items ≡ [])) }
        ensures room { IfOk result (λ r. (17 * total ≤ vec_capacity r.journal) × (total ≤ vec_capacity r.calls)
            × (callers ≤ vec_capacity r.lanes) × (1 ≤ vec_capacity r.servers)) }
    {
        Ok(Rooms {
            hands: no_hands(alloc, callers)?,
            journal: Vec::with_capacity(alloc, 17 * total)?,
            calls: Vec::with_capacity(alloc, total)?,
            lanes: Vec::with_capacity(alloc, callers)?,
            servers: Vec::with_capacity(alloc, 1)?,
        })
    }
}

// So many callers with nothing in hand.
fn no_hands(alloc: Global, callers: usize) -> Result<Vec<Option<Hand>>, AllocError>
    ensures { IfOk result (λ hands. hands.items ≡ replicate callers NoValue) }
{
    let mut hands = Vec::new(alloc);
    for _i in 0..callers {
        hands.push(None)?;
    }
    Ok(hands)
}

// How many calls there may be in all.
fn total_of(calls: &[u32]) -> usize
    requires { sum calls.now ≤ 65536 }
    ensures { result ≡ sum calls.now }
{
    let mut total = 0;
    for may in calls {
        total += *may as usize;
    }
    total
}

// So many calls, or none yet.
fn all_or_none(full: bool, calls: u32) -> u32
    ensures { result ≡ all_or_none full calls }
{
    if full { calls } else { 0 }
}

// A pass for each caller, which may make all its calls, or none yet.
fn passes_of<J: Naming<D>, D>(
    alloc: Global,
    seats: Vec<LaneSeat<Ask, Answer>>,
    calls: &[u32],
    full: bool,
) -> Result<Vec<Pass<J, D>>, AllocError>
    requires seats { Numbered (IsFirstLane J.table 1 J.sizes.block_size) seats.items }
    requires many { length seats.items ≡ length calls.now }
    requires few { length calls.now ≤ 16 }
    requires callers { J.callers ≡ length calls.now }
    requires allowed { J.allowed ≡ may_of calls.now }
    requires total { sum calls.now ≤ 65536 }
    requires plain { full ≡ true → (lane n : ℕ) → J.section lane n ≡ 0 }
    ensures { IfOk result (λ passes. (length passes.items ≡ J.callers)
        × Numbered (IsNewPass (opened full J.allowed)) passes.items) }
{
    let mut passes = Vec::new(alloc);
    for seat in seats {
        let lane = passes.len();
        passes.push(Pass {
            seat,
            lane: lane as u32,
            made: 0,
            may: all_or_none(full, calls[lane]),
            section: 0,
            of: PhantomData,
            over: PhantomData,
        })?;
    }
    Ok(passes)
}

impl<J: Naming<D>, D: Disk, R: Ranges> Desk<J, D, R> {
    /// A desk over a device of 16 places in which no request waits, with a pass for each of its callers, in their
    /// order. It takes the room for the journal and all calls, but for the bytes that they hand over. `NoMemory` comes
    /// with the device as it was.
    pub fn set_up(
        alloc: Global,
        core: Core<D, R>,
        callers: Callers,
    ) -> Result<(Desk<J, D, R>, Vec<Pass<J, D>>), (Core<D, R>, NoMemory)>
        requires named { (J.table ≡ callers.table) × (J.sizes ≡ core.geometry) × (J.callers ≡ length callers.calls)
            × (J.allowed ≡ may_of callers.calls) }
        requires plain { (lane n : ℕ) → J.section lane n ≡ 0 }
        requires begins { J.begins core }
        requires size { callers.size ≡ core.geometry.block_size }
        requires idle { core.memory.requests ≡ [] }
        requires places { core.places ≡ 16 }
        requires serials { core.admitted < 2 ^ 63 }
        requires early { core.calls ≤ 2 ^ 64 - 1 }
        ensures passes { IfOk result (λ r. (length r.1.items ≡ J.callers) × Numbered (IsNewPass J.allowed) r.1.items) }
        ensures kept { IfErr result (λ e. e.0 ≡ core) }
    {
        Desk::<J, D, R>::begin(alloc, core, callers, true)
    }

    // The same, with passes that may make all their calls, or none yet.
    pub(crate) fn begin(
        alloc: Global,
        core: Core<D, R>,
        callers: Callers,
        full: bool,
    ) -> Result<(Desk<J, D, R>, Vec<Pass<J, D>>), (Core<D, R>, NoMemory)>
        requires named { (J.table ≡ callers.table) × (J.sizes ≡ core.geometry) × (J.callers ≡ length callers.calls)
            × (J.allowed ≡ may_of callers.calls) }
        requires plain { full ≡ true → (lane n : ℕ) → J.section lane n ≡ 0 }
        requires begins { J.begins core }
        requires size { callers.size ≡ core.geometry.block_size }
        requires idle { core.memory.requests ≡ [] }
        requires places { core.places ≡ 16 }
        requires serials { core.admitted < 2 ^ 63 }
        requires early { core.calls ≤ 2 ^ 64 - 1 }
        ensures passes { IfOk result (λ r. (length r.1.items ≡ J.callers) × Numbered (IsNewPass (opened full J.allowed))
            r.1.items) }
        ensures kept { IfErr result (λ e. e.0 ≡ core) }
    {
        core.geometry();
        let Callers {
            tags,
            lanes,
            mut servers,
            calls,
            size: _,
        } = callers;
        let total = total_of(&calls);
        let Ok(rooms) = Rooms::take(alloc, calls.len(), total) else {
            return Err((core, NoMemory));
        };
        let Ok(passes) = passes_of::<J, D>(alloc, lanes, &calls, full) else {
            return Err((core, NoMemory));
        };
        let Some(server) = servers.pop() else {
            return Err((core, NoMemory));
        };
        let service = Service {
            core,
            server,
            hands: rooms.hands,
            journal: rooms.journal,
            calls: rooms.calls,
            low: 0,
        };
        let desk = Desk {
            alloc,
            tags,
            locked: Mutex::new(Locked::new(service, rooms.lanes, rooms.servers)),
        };
        Ok((desk, passes))
    }
}
