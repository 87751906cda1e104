// What the callers have in hand.
ghost use Rattle.std.specs.Prelude.{◌≡◌, ℕ, length, true};
ghost use Rattle.bow_receipts.specs.Hands.{hand_at, lane_with};

use crate::asks::Copies;
use bow_core::Ticket;
use bow_tags::Job;

// A request that the device has: its ticket, its job, its first block, and room for its answer.
#[derive(Drop)]
pub(crate) struct Hand {
    pub(crate) ticket: Ticket,
    pub(crate) job: Job,
    pub(crate) first: u64,
    pub(crate) copies: Copies,
}

// The caller whose request has the ticket: one look at each, from the last one on.
pub(crate) fn lane_of(hands: &[Option<Hand>], ticket: Ticket) -> usize
    ensures { result ≡ lane_with hands.now ticket }
{
    let mut lane = hands.len();
    while lane > 0 {
        lane -= 1;
        if let Some(hand) = &hands[lane] {
            if hand.ticket == ticket {
                return lane;
            }
        }
    }
    0
}

// Whether nobody has a request in hand.
pub(crate) fn is_free(hands: &[Option<Hand>]) -> bool
    ensures { result ≡ true → (lane : ℕ) → hand_at hands.now lane ≡ None }
{
    for hand in hands {
        if hand.is_some() {
            return false;
        }
    }
    true
}
