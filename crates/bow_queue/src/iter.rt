// The waiting requests, one after the other.
ghost use Rattle.std.specs.Prelude.{◌≡◌};
ghost use Rattle.std.specs.Iterator.{YieldsFirstBy, item_count};

use crate::Ticket;
use crate::requests::Request;
use slab::Slab;
use std::marker::Model;

/// The waiting requests, by rising serial number. Contracts see those that are left.
#[derive(Drop)]
pub struct Iter<'a> {
    pub(crate) tickets: &'a [Ticket],
    pub(crate) requests: &'a Slab<Request>,
}

impl<'a> Model for Iter<'a> {
    ghost use Rattle.std.specs.Prelude.{List};
    ghost use Rattle.bow_queue.specs.declared.requests.Request.{Request as OneRequest};
    ghost use Rattle.bow_queue.specs.Insides.{requests_at, AreStored};

    ghost Value = { List OneRequest };

    ghost view = { λ it. requests_at it.requests.now it.tickets.now };

    ghost invariant = { λ it. AreStored it.requests.now it.tickets.now };
}

impl<'a> Iterator for Iter<'a> {
    type Item = &'a Request;

    ghost next_gives = { YieldsFirstBy (λ item. item.now) (λ rest. rest) };

    ghost remaining = { item_count (λ rest. rest) };

    fn next(&mut self) -> Option<&'a Request> {
        let (ticket, rest) = self.tickets.split_first()?;
        self.tickets = rest;
        self.requests.get(ticket.key as usize)
    }

    fn size_hint(&self) -> (usize, Option<usize>) {
        (self.tickets.len(), Some(self.tickets.len()))
    }
}
