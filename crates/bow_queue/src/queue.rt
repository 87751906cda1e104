// The queue.
ghost use Rattle.std.specs.Prelude.{◌≡◌, ◌≢◌, ◌+◌, ◌-◌, ◌*◌, ◌<◌, ◌≤◌, ◌^◌, [], ◌∷◌, ◌++◌, length, find, All};
ghost use Rattle.std.specs.Prelude.{IfOk, IfSome, IfNone, OnSome, IsSome, option_copied, slice_index_or};
ghost use Rattle.bow_queue.specs.Requests.{FirstIsSmallest, IsOrderly, first_of, fresh_request, next_for, one_done};
ghost use Rattle.bow_queue.specs.Requests.{one_read, open_writes, payload_of, request_of, the_request, waits_on};
ghost use Rattle.bow_queue.specs.Requests.{with_request, with_waiting, without_request};
ghost use Rattle.bow_queue.specs.Insides.{is_wanted};

use crate::Ticket;
use crate::extents::is_on_device;
use crate::iter::Iter;
use crate::requests::{Request, written};
use crate::wanted::Wanted;
use arrayvec::ArrayVec;
use bow_units::{Extent, NoMemory, Op};
use slab::Slab;
use std::alloc::Global;
use std::marker::Model;

/// The requests that wait, each under its ticket, by rising serial number.
#[derive(Drop)]
pub struct Queue {
    // The tickets, by rising serial number.
    tickets: ArrayVec<Ticket, 16>,
    // Each request, at the key of its ticket.
    requests: Slab<Request>,
    places: u32,
    blocks: u64,
    admitted: u64,
}

impl Model for Queue {
    ghost use Rattle.bow_queue.specs.Requests.{Requests};
    ghost use Rattle.bow_queue.specs.Insides.{requests_at, QueueIsSound};

    ghost Value = { Requests };

    ghost view = { λ q. record {
      waiting = requests_at q.requests q.tickets.items;
      places = q.places;
      blocks = q.blocks;
      admitted = q.admitted;
    } };

    ghost invariant = { λ q. QueueIsSound q.tickets.items q.requests q.places q.admitted };
}

// The index of this ticket.
fn index_of(tickets: &[Ticket], ticket: Ticket) -> Option<usize>
    ensures found { IfSome result (λ i. i < length tickets.now) }
    ensures at { IfSome result (λ i. slice_index_or tickets.now i ticket ≡ ticket) }
    ensures none { IfNone result (All (λ t. t ≢ ticket) tickets.now) }
{
    tickets.iter().position(|other| *other == ticket)
}

impl Queue {
    /// An empty queue of 1 to 16 places, for a device of 8 to 1,048,576 blocks.
    ///
    /// It takes all its memory here; no later call takes any.
    pub fn open(alloc: Global, places: u32, blocks: u64) -> Result<Queue, NoMemory>
        requires a_place { 1 ≤ places }
        requires few_places { places ≤ 16 }
        requires enough_blocks { 8 ≤ blocks }
        requires few_blocks { blocks ≤ 1048576 }
        ensures empty { IfOk result (λ queue. queue ≡ record {
          waiting = [];
          places = places;
          blocks = blocks;
          admitted = 0;
        }) }
    {
        let requests = Slab::with_capacity(alloc, places as usize)?;
        // A key is told by 32 bits. A slab that gives longer ones holds far more than any memory does.
        if requests.capacity() > u32::MAX as usize {
            return Err(NoMemory);
        }
        Ok(Queue {
            tickets: ArrayVec::new(),
            requests,
            places,
            blocks,
            admitted: 0,
        })
    }

    /// How many more requests can be taken in now.
    pub fn spare(&self) -> u32
        ensures spare { result + length self.now.waiting ≡ self.now.places }
        ensures orderly { IsOrderly self.now }
    {
        self.places - self.tickets.len() as u32
    }

    /// How many requests were taken in since the queue was opened.
    pub fn admitted(&self) -> u64
        ensures admitted { result ≡ self.now.admitted }
        ensures orderly { IsOrderly self.now }
    {
        self.admitted
    }

    /// The waiting requests, by rising serial number.
    pub fn iter(&self) -> Iter<'_>
        ensures { result ≡ self.now.waiting }
    {
        Iter {
            tickets: &self.tickets,
            requests: &self.requests,
        }
    }

    /// The request of this ticket, or `None` exactly where it is not waiting.
    pub fn request(&self, ticket: Ticket) -> Option<&Request>
        ensures { option_copied result ≡ request_of ticket self.now.waiting }
    {
        let request = self.requests.get(ticket.key as usize)?;
        if request.ticket != ticket {
            return None;
        }
        Some(request)
    }

    /// Takes a request in, under the next serial number and in a place of its own. None of its blocks is done.
    pub fn admit(&mut self, op: Op) -> Ticket
        requires spare { length self.old.waiting < self.old.places }
        requires counted { self.old.admitted < 2 ^ 64 - 1 }
        ensures serial { result.serial ≡ self.old.admitted }
        ensures waits { self.new ≡ record self.old {
          waiting = self.old.waiting ++ fresh_request result op ∷ [];
          admitted = self.old.admitted + 1;
        } }
        ensures orderly { IsOrderly self.new }
    {
        // The key is known once the request lies there.
        let key = self.requests.insert_reserved(Request {
            ticket: Ticket::default(),
            op,
            done: 0,
        });
        let ticket = Ticket {
            key: key as u32,
            serial: self.admitted,
        };
        self.requests[key].ticket = ticket;
        self.tickets.push(ticket);
        self.admitted += 1;
        ticket
    }

    /// One block more of this ticket's request, which waits, is done.
    pub fn advance(&mut self, ticket: Ticket)
        requires waits { IsSome (request_of ticket self.old.waiting) }
        requires counted { (the_request ticket self.old.waiting).done < 2 ^ 32 - 1 }
        ensures done { self.new ≡ with_waiting self.old
            (with_request (one_done (the_request ticket self.old.waiting)) self.old.waiting) }
        ensures orderly { IsOrderly self.new }
    {
        self.requests[ticket.key as usize].done += 1;
    }

    /// The next block of this ticket's request, which is a read that waits and whose buffer has room for it, is this,
    /// of at most 4,096 bytes; and it is done.
    pub fn fill(&mut self, ticket: Ticket, content: &[u8])
        requires waits { IsSome (request_of ticket self.old.waiting) }
        requires counted { (the_request ticket self.old.waiting).done < 2 ^ 32 - 1 }
        requires one { length content.now ≤ 4096 }
        requires room { ((the_request ticket self.old.waiting).done + 1) * length content.now ≤ length (payload_of
            (the_request ticket self.old.waiting).op) }
        ensures done { self.new ≡ with_waiting self.old (with_request (one_read (length content.now)
            (the_request ticket self.old.waiting) content.now) self.old.waiting) }
        ensures orderly { IsOrderly self.new }
    {
        self.requests[ticket.key as usize].fill(content);
    }

    /// Ends the wait of this ticket's request, and hands it back; `None` exactly where it is not waiting, and then
    /// nothing changes. The ticket never waits again, since its serial number was given out.
    pub fn remove(&mut self, ticket: Ticket) -> Option<Request>
        ensures request { result ≡ request_of ticket self.old.waiting }
        ensures rest { self.new ≡ with_waiting self.old (without_request ticket self.old.waiting) }
        ensures given_out { OnSome result (ticket.serial < self.new.admitted) }
        ensures orderly { IsOrderly self.new }
    {
        let index = index_of(self.tickets.as_slice(), ticket)?;
        self.tickets.remove(index);
        self.requests.try_remove(ticket.key as usize)
    }

    // The first of the waiting requests that is looked for.
    fn first(&self, wanted: Wanted) -> Option<&Request>
        ensures { option_copied result ≡ find (is_wanted wanted) self.now.waiting }
    {
        for request in self.iter() {
            if wanted.fits(request) {
                return Some(request);
            }
        }
        None
    }

    /// The waiting write of the smallest serial number that covers the block, or `None` exactly where none does.
    pub fn next_for(&self, block: u64) -> Option<Ticket>
        ensures { result ≡ next_for block self.now.waiting }
    {
        Some(self.first(Wanted::WriteOf(block))?.ticket)
    }

    /// The waiting write of the smallest serial number, below the ticket's, that overlaps the ticket's own write: the
    /// one that it waits on first. `None` comes exactly where there is none, or the ticket is no waiting write's.
    ///
    /// Two writes overlap where they have a block in common. Writes that only touch don't, and blocks past the last
    /// value of a `u64` count.
    pub fn waits_on(&self, ticket: Ticket) -> Option<Ticket>
        ensures { result ≡ waits_on ticket self.now.waiting }
    {
        let extent = written(&self.request(ticket)?.op)?;
        Some(
            self.first(Wanted::EarlierWrite(extent, ticket.serial))?
                .ticket,
        )
    }

    /// The waiting prepare or commit of the smallest serial number, or `None` exactly where none waits.
    pub fn first_command(&self) -> Option<&Request>
        ensures { option_copied result ≡ first_of self.now.waiting }
    {
        self.first(Wanted::Command)
    }

    /// Where the waiting writes write that have all their blocks on the device, by rising serial number.
    pub fn open_writes(&self) -> ArrayVec<Extent, 16>
        ensures writes { result.items ≡ open_writes self.now.blocks self.now.waiting }
        ensures on_device { All (λ extent. extent.first + extent.count ≤ self.now.blocks) result.items }
    {
        let mut extents = ArrayVec::new();
        for request in self.iter() {
            if let Some(extent) = written(&request.op)
                && is_on_device(extent, self.blocks)
            {
                extents.push(extent);
            }
        }
        extents
    }
}

/// The first of the waiting requests that passes a test has the smallest serial number of all that pass.
pub fn first_law()
    ensures { FirstIsSmallest }
{}
