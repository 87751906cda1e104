// What a session keeps beside its device: the lanes, and what was done.
ghost use Rattle.std.specs.Prelude.{◌≡◌, ◌+◌, ◌-◌, ◌%◌, ◌<◌, ◌≤◌, ◌++◌, ◌∷◌, [], length, map, IfSome, Some, slice_get};
ghost use Rattle.std.specs.Prelude.{option_copied};
ghost use Rattle.bow_units.specs.Sizes.{IsBlockSize, IsValid};
ghost use Rattle.bow_flat.specs.Flat.{block_at};
ghost use Rattle.bow_session.specs.Contents.{bytes_given, content_in, data_of};
ghost use Rattle.bow_session.specs.Desks.{AreFit};
ghost use Rattle.bow_session.specs.Requests.{plan_of, requests_in};
ghost use Rattle.bow_session.specs.Seats.{lane_in};
ghost use Rattle.bow_session.specs.Sessions.{kept_in};
ghost use Rattle.bow_history.specs.Promises.{items, more};
ghost use Rattle.bow_history.specs.Ends.{items_made};
ghost use Rattle.bow_session.specs.Records.{HasAnswered, IsOfLane, HasRoomAt, SeatsAfter, item_told};

use crate::lines::line_of;
use crate::reserved::Reserved;
use crate::seats::{Seat, lane_of};
use bow_core::Step;
use bow_history::Item;
use bow_script::{Line, Script};
use bow_units::{Geometry, Op, Payload};

#[derive(Drop)]
pub(crate) struct Records {
    pub(crate) seats: Vec<Seat>,
    pub(crate) journal: Reserved<Item>,
    pub(crate) moments: Reserved<u64>,
}

impl Records {
    // What a step told becomes at most one item, with the device's count of calls right after it.
    pub(crate) fn note(&mut self, told: Step, calls: u64)
        requires told { IsOfLane self.old.seats.items self.old.journal.room self.old.moments.room told }
        ensures journal { self.new.journal.items
            ≡ self.old.journal.items ++ items (item_told self.old.seats.items told) }
        ensures moments { self.new.moments.items
            ≡ self.old.moments.items ++ more (item_told self.old.seats.items told) calls }
        ensures seats { SeatsAfter told self.old.seats.items self.new.seats.items }
        ensures room { self.old.journal.room
            ≤ self.new.journal.room + items_made (item_told self.old.seats.items told) }
        ensures room_of_moments { self.old.moments.room
            ≤ self.new.moments.room + items_made (item_told self.old.seats.items told) }
    {
        match told {
            Step::Idle | Step::Moved => {}
            Step::Wrote { ticket, index } => {
                let lane = lane_of(&self.seats, ticket);
                let seat = &self.seats[lane];
                let item = Item::Wrote {
                    lane: lane as u32,
                    number: seat.number(),
                    block: seat.first() + index as u64,
                };
                self.push(item, calls);
            }
            Step::Got { ticket, index } => {
                let lane = lane_of(&self.seats, ticket);
                let seat = &self.seats[lane];
                let item = Item::Got {
                    lane: lane as u32,
                    number: seat.number(),
                    block: seat.first() + index as u64,
                };
                self.push(item, calls);
            }
            Step::Answered {
                ticket,
                op,
                outcome,
            } => {
                let lane = lane_of(&self.seats, ticket);
                let seat = &self.seats[lane];
                let item = Item::Answered {
                    lane: lane as u32,
                    number: seat.number(),
                    outcome,
                };
                answer(&mut self.seats, lane, op);
                self.push(item, calls);
            }
        }
    }

    // One item more, with its moment.
    fn push(&mut self, item: Item, calls: u64)
        requires journal { 0 < self.old.journal.room }
        requires moments { 0 < self.old.moments.room }
        ensures journal { self.new.journal.items ≡ self.old.journal.items ++ item ∷ [] }
        ensures moments { self.new.moments.items ≡ self.old.moments.items ++ calls ∷ [] }
        ensures room { self.old.journal.room ≤ self.new.journal.room + 1 }
        ensures room_of_moments { self.old.moments.room ≤ self.new.moments.room + 1 }
        ensures seats { self.new.seats ≡ self.old.seats }
    {
        self.journal.push(item);
        self.moments.push(calls);
    }

    // The bytes in the buffer of an answered read. `None` exactly where that request is no answered read.
    pub(crate) fn data(&self, lane: u32, number: u32) -> Option<&[u8]>
        ensures { option_copied result ≡ data_of (map lane_in self.now.seats.items) lane number }
    {
        let lane = lane as usize;
        if lane >= self.seats.len() {
            return None;
        }
        let seat = &self.seats[lane];
        match seat.answered.as_slice().get(number as usize) {
            Some(kept) => read_bytes(kept),
            None => None,
        }
    }

    // The block that an item of a read has read, from the buffer of that request once it is answered; `None` of any
    // other item. These are the records of this script over a device of these sizes.
    pub(crate) fn content(&self, script: &Script, geometry: Geometry, item: Item) -> Option<&[u8]>
        requires valid { IsValid geometry }
        requires fit { AreFit (plan_of geometry script.now) (requests_in script.now) self.now.seats.items }
        ensures bytes { bytes_given (option_copied result) ≡ content_in (plan_of geometry script.now) (kept_in (plan_of
            geometry script.now) (map lane_in self.now.seats.items)) item }
        ensures block { IfSome result (λ bytes. IsBlockSize (length bytes.now)) }
    {
        let Item::Got {
            lane,
            number,
            block,
        } = item
        else {
            return None;
        };
        let Some(Line::Read { first, .. }) = line_of(script, lane as usize, number as usize) else {
            return None;
        };
        let Some(bytes) = self.data(lane, number) else {
            return None;
        };
        block_in(bytes, geometry.block_size, *first, block)
    }
}

// The request of the lane that the device had is answered.
fn answer(seats: &mut Vec<Seat>, lane: usize, op: Op)
    requires inside { lane < length seats.old.items }
    requires room { HasRoomAt seats.old.items lane }
    ensures { HasAnswered lane op seats.old.items seats.new.items }
{
    let seat = &mut seats[lane];
    seat.answer(op);
}

// The bytes that are kept of a request, if any are.
fn read_bytes(kept: &Option<Payload>) -> Option<&[u8]>
    ensures { option_copied result ≡ kept.now }
{
    match kept {
        Some(payload) => Some(payload.as_slice()),
        None => None,
    }
}

// What a buffer of whole blocks from this one on has of a block.
fn block_in(bytes: &[u8], size: u32, first: u32, block: u64) -> Option<&[u8]>
    requires size { IsBlockSize size }
    requires whole { length bytes.now % size ≡ 0 }
    ensures bytes { bytes_given (option_copied result) ≡ block_at size bytes.now (block - first) }
    ensures block { IfSome result (λ given. length given.now ≡ size) }
{
    let size = size as usize;
    let from = block.saturating_sub(first as u64) as usize;
    if from >= bytes.len() / size {
        return None;
    }
    Some(&bytes[from * size..from * size + size])
}
