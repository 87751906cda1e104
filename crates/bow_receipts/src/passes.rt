// The passes of callers.
ghost use Rattle.std.specs.Prelude.{◌≡◌, ◌+◌, ◌<◌, ◌≤◌, ℕ, length};

use crate::asks::{Answer, Ask};
use crate::naming::Naming;
use bow_tags::LaneSeat;
use std::marker::{Model, PhantomData};

/// The pass of one caller, with which it makes its calls. Contracts see its caller's number, how many calls it has made
/// and may make, and what it asked and got in each.
#[derive(Drop)]
pub struct Pass<J: Naming<D>, D> {
    pub(crate) seat: LaneSeat<Ask, Answer>,
    pub(crate) lane: u32,
    pub(crate) made: u32,
    pub(crate) may: u32,
    pub(crate) section: u32,
    pub(crate) of: PhantomData<J>,
    pub(crate) over: PhantomData<D>,
}

impl<J: Naming<D>, D> Model for Pass<J, D> {
    ghost use Rattle.bow_receipts.specs.Passes.{Caller, IsPass};

    ghost Value = { Caller };

    ghost view = { λ p. record { lane = p.lane; made = p.made; may = p.may; got = p.seat.view.got } };

    ghost invariant = { λ p. IsPass J.table J.sizes.block_size J.callers J.allowed J.section p.seat p.lane
        p.made p.may p.section };
}

impl<J: Naming<D>, D> Pass<J, D> {
    /// The number of its caller, from 0 on.
    pub fn lane(&self) -> u32
        ensures is { result ≡ self.now.lane }
        ensures inside { result < J.callers }
    {
        self.lane
    }

    // It may make so many calls more, all of this section.
    pub(crate) fn enter(&mut self, section: u32, more: u32)
        requires done { self.old.made ≡ self.old.may }
        requires most { self.old.may + more ≤ J.allowed self.old.lane }
        requires few { self.old.may + more ≤ 65536 }
        requires here { (n : ℕ) → self.old.may ≤ n → n < self.old.may + more → J.section self.old.lane n ≡ section }
        ensures { self.new ≡ record self.old { may = self.old.may + more } }
    {
        self.section = section;
        self.may += more;
    }

    // How many calls it may still make.
    pub(crate) fn left(&self) -> u32
        ensures is { result + self.now.made ≡ self.now.may }
        ensures got { length self.now.got ≡ self.now.made }
    {
        self.may - self.made
    }

    /// The number of calls that it has made.
    pub fn made(&self) -> u32
        ensures is { result ≡ self.now.made }
        ensures got { length self.now.got ≡ result }
    {
        self.made
    }
}
