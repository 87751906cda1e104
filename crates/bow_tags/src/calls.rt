// What lanes and servers do with the tags.
ghost use Rattle.std.specs.Prelude.{◌≡◌, ◌≢◌, ℕ, ◌+◌, ◌*◌, ◌<◌, ◌∷◌, drop, IfSome, IfNone, IfOk, IfErr, ◌%◌, ◌==◌};
ghost use Rattle.bow_tags.specs.declared.view.Stance.TheVariants.{Idle, Posted};
ghost use Rattle.bow_tags.specs.Steps.{held, looked, lane_of, after_answer, SpeaksForAll, GivenBelow, HoldsJob};
ghost use Rattle.bow_tags.specs.Seats.{lanes_of, IsTurn, with_empty, after_post, after_reply, after_take};
ghost use Rattle.bow_tags.specs.Rule.{In, job_times, times};
ghost use mathlib.Core.Option.{some};
ghost use lib.ListN.{get_elem?};

use crate::job::{Job, Lost, Reply};
use crate::plays::{Give, Hold, Look, Poll, Post, Retire, Take};
use crate::seats::{LaneSeat, ServerSeat, Tags};
use crate::view::{Fits, Slot, View};
use arrayvec::ArrayVec;
use atomic_table::Seat;

impl<P: Fits + Drop, Q: Drop> Tags<P, Q> {
    /// Puts the ask into the lane's slot, and makes its word posted.
    pub fn post(&self, seat: &mut LaneSeat<P, Q>, ask: P)
        requires own { seat.old.table ≡ self.now }
        requires idle { (lane_of seat.old.view).stance ≡ Idle }
        requires room { (lane_of seat.old.view).number < 4294967295 }
        requires fits { P.fits seat.old.view.size ask }
        ensures same { (seat.new.table ≡ seat.old.table) × (seat.new.id ≡ seat.old.id) }
        ensures posts { seat.new.view ≡ after_post seat.old.view ask }
        ensures asks { get_elem? (lane_of seat.new.view).asked (lane_of seat.new.view).number ≡ some ask }
    {
        let shared = &self.table.shared;
        let lane = seat.lane as usize;
        let word = 4 * seat.number as u64;
        shared.load::<Hold>(&mut seat.seat, lane);
        match shared.exchange(&mut seat.seat, lane, Slot::Ask(ask)) {
            Slot::Empty => {}
            _ => unreachable!(),
        }
        shared.compare_exchange::<Post>(&mut seat.seat, lane, word, word + 1);
        seat.posted = true;
    }

    /// Takes the reply out of the slot and goes on to the next number, where the word is done. `None` comes only
    /// where the word that this call loaded is not done.
    pub fn poll(&self, seat: &mut LaneSeat<P, Q>) -> Option<Reply<Q>>
        requires own { seat.old.table ≡ self.now }
        requires posted { (lane_of seat.old.view).stance ≡ Posted }
        ensures same { (seat.new.table ≡ seat.old.table) × (seat.new.id ≡ seat.old.id) }
        ensures none { IfNone result ((word : ℕ) × (word % 4 ≢ 3)
            × (seat.new.view ≡ looked (lane_of seat.old.view).lane word seat.old.view)) }
        ensures some { IfSome result (λ r. (a : P)
            × (r.lane ≡ (lane_of seat.old.view).lane) × (r.number ≡ (lane_of seat.old.view).number)
            × (get_elem? (lane_of seat.old.view).asked r.number ≡ some a)
            × (seat.new.view ≡ after_reply seat.old.view a r.outcome)) }
    {
        let shared = &self.table.shared;
        let lane = seat.lane as usize;
        let word = 4 * seat.number as u64 + 3;
        if shared.load::<Poll>(&mut seat.seat, lane) % 4 != 3 {
            return None;
        }
        let Slot::Answer(outcome) = shared.exchange(&mut seat.seat, lane, Slot::Empty) else {
            unreachable!()
        };
        shared.compare_exchange::<Retire>(&mut seat.seat, lane, word, word + 1);
        let number = seat.number;
        seat.number += 1;
        seat.posted = false;
        Some(Reply {
            lane: seat.lane,
            number,
            outcome,
        })
    }

    /// The number that the lane has posted. `None` comes only where the word that this call loaded is not posted.
    pub fn look(&self, seat: &mut ServerSeat<P, Q>, lane: u32) -> Option<u32>
        requires own { seat.old.table ≡ self.now }
        requires lane { lane < lanes_of self.now }
        ensures same { (seat.new.table ≡ seat.old.table) × (seat.new.id ≡ seat.old.id) }
        ensures none { IfNone result ((word : ℕ) × (word % 4 ≢ 1) × (seat.new.view ≡ looked lane word seat.old.view)) }
        ensures some { IfSome result (λ k. seat.new.view ≡ looked lane (4 * k + 1) seat.old.view) }
    {
        let found = self
            .table
            .shared
            .load::<Look>(&mut seat.seat, lane as usize);
        if found % 4 == 1 {
            Some((found / 4) as u32)
        } else {
            None
        }
    }

    /// Takes the lane's posted number, with what was asked. It is lost only where the word that this call found,
    /// which `Lost` has, is not posted with that number.
    pub fn take(
        &self,
        seat: &mut ServerSeat<P, Q>,
        lane: u32,
        number: u32,
    ) -> Result<(Job, P), Lost>
        requires own { seat.old.table ≡ self.now }
        requires lane { lane < lanes_of self.now }
        ensures same { (seat.new.table ≡ seat.old.table) × (seat.new.id ≡ seat.old.id) }
        ensures ok { IfOk result (λ r. (r.0.lane ≡ lane) × (r.0.number ≡ number) × P.fits seat.old.view.size r.1
            × (job_times lane seat.old.view.jobs ≡ 0)
            × (SpeaksForAll seat.old.view → GivenBelow seat.old.view lane number)
            × (seat.new.view ≡ after_take seat.old.view lane number r.1)) }
        ensures held { IfOk result (λ r. HoldsJob seat.new.view r.0.lane r.0.number) }
        ensures lost { IfErr result (λ e. (e.found ≢ 4 * number + 1)
            × (seat.new.view ≡ looked lane e.found seat.old.view)) }
    {
        let shared = &self.table.shared;
        let word = 4 * number as u64 + 1;
        let found = shared.compare_exchange::<Take>(&mut seat.seat, lane as usize, word, word + 1);
        if found != word {
            return Err(Lost { found });
        }
        let Slot::Ask(ask) = shared.exchange(&mut seat.seat, lane as usize, Slot::Empty) else {
            unreachable!()
        };
        seat.seat.turn();
        seat.held.push(lane);
        Ok((Job { lane, number }, ask))
    }

    /// Puts the answer to a job of this seat into the lane's slot, and makes its word done.
    pub fn answer(&self, seat: &mut ServerSeat<P, Q>, job: Job, outcome: Q)
        requires own { seat.old.table ≡ self.now }
        requires holds { HoldsJob seat.old.view job.lane job.number }
        ensures same { (seat.new.table ≡ seat.old.table) × (seat.new.id ≡ seat.old.id) }
        ensures given { (a : P) × (seat.new.view ≡ after_answer seat.old.view job.lane job.number a outcome)
            × In (held job.lane job.number a) seat.old.view.jobs }
    {
        let Job { lane, number } = job;
        let shared = &self.table.shared;
        let word = 4 * number as u64 + 2;
        bring(&mut seat.seat, &mut seat.held, lane);
        match shared.exchange(&mut seat.seat, lane as usize, Slot::Answer(outcome)) {
            Slot::Empty => {}
            _ => unreachable!(),
        }
        shared.compare_exchange::<Give>(&mut seat.seat, lane as usize, word, word + 1);
        seat.held.remove(0);
    }
}

// Brings the slot of a lane to the front.
fn bring<P, Q>(seat: &mut Seat<Slot<P, Q>, View<P, Q>>, held: &mut ArrayVec<u32, 16>, lane: u32)
    requires carried { seat.old.me.1 ≡ with_empty held.old.items }
    requires has { 0 < times (λ x. x == lane) held.old.items }
    ensures same { (seat.new.table_id ≡ seat.old.table_id) × (seat.new.id ≡ seat.old.id)
        × (seat.new.me ≡ (seat.old.me.0, with_empty held.new.items)) }
    ensures turned { IsTurn held.old.items held.new.items }
    ensures first { held.new.items ≡ lane ∷ drop 1 held.new.items }
{
    while held[0] != lane {
        seat.turn();
        let first = held.remove(0);
        held.push(first);
    }
}
