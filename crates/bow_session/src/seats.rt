// What one lane has.
ghost use Rattle.std.specs.Prelude.{◌≡◌, ◌<◌, ◌≤◌, length, map, Some, slice_set};
ghost use Rattle.std.specs.List.{list_all};
ghost use Rattle.std.specs.Option.{option_map};
ghost use Rattle.bow_history.specs.Sessions.{lane_of};
ghost use Rattle.bow_machine.specs.Steps.{extent_of};
ghost use Rattle.bow_session.specs.Buffers.{lent_to};
ghost use Rattle.bow_session.specs.Seats.{section_in, is_from_there, is_over, hands_of};

use crate::reserved::Reserved;
use bow_core::Ticket;
use bow_units::{Op, Payload};
use std::collections::VecDeque;

// A request to come: the section in which it stands and, of a read, its buffer.
#[derive(Drop)]
pub(crate) struct Asked {
    pub(crate) section: u32,
    pub(crate) buffer: Option<Payload>,
}

// A request that the device has: its ticket, the section in which it stands, its first block, and of a write how many
// blocks it has, in a buffer of the lane.
#[derive(Clone, Copy, Debug)]
pub(crate) struct Hand {
    pub(crate) ticket: Ticket,
    pub(crate) section: u32,
    pub(crate) first: u64,
    pub(crate) lent: u64,
}

// A lane: its requests to come, the one that the device has, of each answered one the buffer if it is a read, and the
// buffers of its writes, by their number of blocks.
#[derive(Drop)]
pub(crate) struct Seat {
    pub(crate) pending: VecDeque<Asked>,
    pub(crate) hand: Option<Hand>,
    pub(crate) answered: Reserved<Option<Payload>>,
    pub(crate) buffers: Vec<Option<Payload>>,
}

impl Seat {
    ghost use Rattle.bow_session.specs.Records.{IsAnswered, first_with};
    ghost use Rattle.bow_session.specs.Seats.{requests_with};

    // The section of the first unanswered request.
    pub(crate) fn section(&self) -> Option<u32>
        ensures { result ≡ section_in self.now }
    {
        match self.hand {
            Some(hand) => Some(hand.section),
            None => match self.pending.front() {
                Some(asked) => Some(asked.section),
                None => None,
            },
        }
    }

    // The number of the first unanswered request.
    pub(crate) fn number(&self) -> u32
        requires { length self.now.answered.items ≤ 65536 }
        ensures { result ≡ length self.now.answered.items }
    {
        self.answered.len() as u32
    }

    // How many requests it has: answered ones, the one that the device has, and those to come.
    pub(crate) fn requests(&self) -> u32
        requires { requests_with self.now ≤ 65536 }
        ensures { result ≡ requests_with self.now }
    {
        let held = if self.hand.is_some() { 1 } else { 0 };
        (self.answered.len() + held + self.pending.len()) as u32
    }

    // The first block of the request that the device has.
    pub(crate) fn first(&self) -> u64
        ensures { result ≡ first_with self.now.hand }
    {
        match self.hand {
            Some(hand) => hand.first,
            None => 0,
        }
    }

    // The request that the device had is answered.
    pub(crate) fn answer(&mut self, op: Op)
        requires { 0 < self.old.answered.room }
        ensures { IsAnswered op self.old self.new }
    {
        self.hand = None;
        match op {
            Op::Read(_, payload) => self.answered.push(Some(payload)),
            Op::Write(extent, payload) => {
                give_back(&mut self.buffers, extent.count, payload);
                self.answered.push(None);
            }
            Op::Discard(_) | Op::Flush | Op::Prepare | Op::Commit => self.answered.push(None),
        }
    }
}

// A write's buffer of so many blocks comes back.
fn give_back(buffers: &mut Vec<Option<Payload>>, count: u64, payload: Payload)
    ensures { buffers.new.items ≡ slice_set buffers.old.items count (Some payload) }
{
    if count < buffers.len() as u64 {
        buffers[count as usize] = Some(payload);
    }
}

// Whether no lane has an unanswered request of a section before this one.
pub(crate) fn is_from(seats: &[Seat], low: u32) -> bool
    ensures { result ≡ list_all (is_from_there low) seats.now }
{
    for seat in seats {
        if let Some(section) = seat.section() {
            if section < low {
                return false;
            }
        }
    }
    true
}

// Whether all requests of all lanes are answered.
pub(crate) fn are_over(seats: &[Seat]) -> bool
    ensures { result ≡ list_all is_over seats.now }
{
    for seat in seats {
        if seat.section().is_some() {
            return false;
        }
    }
    true
}

// The lane whose request has the ticket: one look at each lane, from the last one on.
pub(crate) fn lane_of(seats: &[Seat], ticket: Ticket) -> usize
    ensures { result ≡ lane_of (hands_of seats.now) ticket (length seats.now) }
{
    let mut lane = seats.len();
    while lane > 0 {
        lane -= 1;
        let seat = &seats[lane];
        if let Some(hand) = seat.hand {
            if hand.ticket == ticket {
                return lane;
            }
        }
    }
    0
}

/// The first block of a request, and 0 of one that has no extent.
pub fn first_block(op: &Op) -> u64
    ensures { result ≡ (extent_of op.now).first }
{
    match op {
        Op::Read(extent, _) | Op::Write(extent, _) => extent.first,
        Op::Discard(extent) => extent.first,
        Op::Flush | Op::Prepare | Op::Commit => 0,
    }
}

// How many blocks a write has.
pub(crate) fn lent_blocks(op: &Op) -> u64
    ensures { result ≡ lent_to op.now }
{
    match op {
        Op::Write(extent, _) => extent.count,
        Op::Read(_, _) | Op::Discard(_) | Op::Flush | Op::Prepare | Op::Commit => 0,
    }
}
