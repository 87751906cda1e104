// A device that its callers call.
ghost use Rattle.std.specs.Prelude.{◌≡◌, ◌+◌, ◌<◌, ◌≤◌, ◌∷◌, ◌++◌, [], IfOk, IfErr, ℕ, ◌↔◌, Some};
ghost use Rattle.bow_machine.specs.MemoryIsSound.{IsAdmissible};
ghost use Rattle.bow_receipts.specs.declared.asks.CallFault.TheVariants.{Spent};
ghost use Rattle.bow_receipts.specs.Asking.{blank};
ghost use Rattle.bow_receipts.specs.Passes.{after_call};
ghost use Rattle.bow_tags.specs.declared.view.Stance.TheVariants.{Idle, Posted};
ghost use Rattle.bow_tags.specs.Steps.{entry, lane_of};
ghost use Rattle.bow_units.specs.declared.requests.Op.{Op as OpValue};
ghost use mathlib.Core.Option.{some};
ghost use lib.ListN.{get_elem?};

use crate::asks::{Answer, Ask, CallFault};
use crate::locked::Locked;
use crate::naming::Naming;
use crate::passes::Pass;
use bow_disk::Disk;
use bow_ranges::Ranges;
use bow_tags::{LaneSeat, Tags};
use bow_units::{Op, Seen};
use std::alloc::Global;
use std::marker::Model;
use std::sync::{Mutex, Wait};
use std::thread;

/// A device that its callers call, each with its pass, from threads of their own.
#[derive(Drop)]
pub struct Desk<J: Naming<D>, D: Disk, R: Ranges> {
    pub(crate) alloc: Global,
    pub(crate) tags: Tags<Ask, Answer>,
    pub(crate) locked: Mutex<Locked<J, D, R>>,
}

impl<J: Naming<D>, D: Disk, R: Ranges> Model for Desk<J, D, R> {
    ghost use Rattle.std.specs.Prelude.{◌≡◌};
    ghost use Rattle.atomic_table.specs.Seated.{TableId};

    ghost Value = { TableId };

    ghost view = { λ d. d.tags };

    ghost invariant = { λ d. d.tags ≡ J.table };
}

impl<J: Naming<D>, D: Disk, R: Ranges> Desk<J, D, R> {
    /// Makes a call: the device takes the op in, a read or a write with 1 to 16 blocks and a payload of that many, and
    /// the answer comes once it is carried out. The answer has the place of this call in the one history of all
    /// callers, and of a read the blocks that were read; `close` says how many bytes these are, and which. `Spent`
    /// comes exactly where the pass has made as many calls as it may; `NoMemory` else. Both come before anything else,
    /// and hand the op back. It may wait.
    pub fn call<H: Wait>(
        &self,
        rt: &H,
        pass: &mut Pass<J, D>,
        op: Op,
    ) -> Result<Answer, (Op, CallFault)>
        requires { IsAdmissible J.sizes op }
        ensures answered { IfOk result (λ answer. pass.new ≡ after_call pass.old (blank op) answer) }
        ensures may { IfOk result (λ answer. pass.old.made < pass.old.may) }
        ensures back { IfErr result (λ e. (e.0 ≡ op) × (pass.new ≡ pass.old)) }
        ensures spent { IfErr result (λ e. (e.1 ≡ Spent) ↔ (pass.old.made ≡ pass.old.may)) }
    {
        if pass.made >= pass.may {
            return Err((op, CallFault::Spent));
        }
        let ask = match Ask::new(self.alloc, op) {
            Ok(ask) => ask,
            Err(op) => return Err((op, CallFault::NoMemory)),
        };
        self.tags.post(&mut pass.seat, ask);
        take_in(
            rt,
            &self.tags,
            &self.locked,
            pass.lane,
            pass.made,
            pass.section,
        );
        let answer = carry_out(rt, &self.tags, &self.locked, &mut pass.seat, pass.lane);
        pass.made += 1;
        Ok(answer)
    }

    /// The present status of the device, under the number of the steps that were made. It may wait.
    pub fn seen<H: Wait>(&self, rt: &H) -> Seen {
        self.locked.lock(rt).seen()
    }
}

// The device takes the caller's posted request in.
fn take_in<J: Naming<D>, D: Disk, R: Ranges, H: Wait>(
    rt: &H,
    tags: &Tags<Ask, Answer>,
    locked: &Mutex<Locked<J, D, R>>,
    lane: u32,
    number: u32,
    section: u32,
)
    requires own { tags.now ≡ J.table }
    requires lane { lane < J.callers }
    requires may { number < J.allowed lane }
    requires section { section ≡ J.section lane number }
{
    for _ in rt.forever() {
        if locked.lock(rt).admit(tags, lane, number, section) {
            return;
        }
        thread::yield_now();
    }
    unreachable!()
}

// Makes steps, each in one hold of the lock, until the caller's reply is there.
fn carry_out<J: Naming<D>, D: Disk, R: Ranges, H: Wait>(
    rt: &H,
    tags: &Tags<Ask, Answer>,
    locked: &Mutex<Locked<J, D, R>>,
    seat: &mut LaneSeat<Ask, Answer>,
    lane: u32,
) -> Answer
    requires own { (tags.now ≡ J.table) × (seat.old.table ≡ tags.now) }
    requires posted { (lane_of seat.old.view).stance ≡ Posted }
    requires lane { lane < J.callers }
    ensures same { seat.new.table ≡ seat.old.table }
    ensures size { seat.new.view.size ≡ seat.old.view.size }
    ensures idle { (lane_of seat.new.view).stance ≡ Idle }
    ensures lane { (lane_of seat.new.view).lane ≡ (lane_of seat.old.view).lane }
    ensures next { (lane_of seat.new.view).number ≡ (lane_of seat.old.view).number + 1 }
    ensures got { (ask : OpValue) × (get_elem? (lane_of seat.old.view).asked (lane_of seat.old.view).number ≡ some ask)
        × (seat.new.view.got ≡ seat.old.view.got
        ++ entry (lane_of seat.old.view).lane (lane_of seat.old.view).number ask result ∷ []) }
{
    for _ in rt.forever() {
        let moved = locked.lock(rt).step(tags, lane);
        if let Some(reply) = tags.poll(seat) {
            return reply.outcome;
        }
        if !moved {
            thread::yield_now();
        }
    }
    unreachable!()
}
