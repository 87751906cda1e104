// What the accounts of several sessions tell.
ghost use Rattle.std.specs.Prelude.{◌≡◌, ◌+◌, ◌<◌, ◌≤◌, ◌↔◌, ◌++◌, ◌∷◌, [], ℕ, List, length, IfSome, IsTrue, None};
ghost use Rattle.std.specs.List.{sum_by};
ghost use Rattle.bow_history.specs.Prepared.{AnswersPrepare};
ghost use Rattle.bow_history.specs.Promises.{faults_in};
ghost use Rattle.bow_history.specs.declared.items.Item.{Item};
ghost use Rattle.bow_session.specs.Parts.{plan_at};
ghost use Rattle.bow_pair.specs.Playing.{EachBelow, EndsClean, EndsPrepared, IsFirstNot};
ghost use Rattle.bow_pair.specs.Preparing.{HowPrepared, HowRan};

use crate::pairs::{Prepared, Ran};
use bow_history::Item;
use bow_script::Line;
use bow_session::Part;
use bow_units::Outcome;

// Whether no item tells a fault of the disk.
fn tells_none(items: &[Item]) -> bool
    ensures { IsTrue result ↔ (sum_by faults_in items.now ≡ 0) }
{
    for item in items {
        if let Item::Answered {
            outcome: Outcome::DiskFault { .. },
            ..
        } = item
        {
            return false;
        }
    }
    true
}

// Whether the last item answers a prepare Done.
fn ends_with_prepare(account: &Part) -> bool
    ensures { IsTrue result ↔ ((front : List Item) × (item : Item) × (account.now.journal ≡ front ++ item ∷ [])
        × AnswersPrepare (plan_at account.now) item) }
{
    match account.journal().last() {
        Some(
            Item::Answered {
                lane,
                number,
                outcome: Outcome::Done,
            },
        ) => matches!(account.line(*lane, *number), Some(Line::Prepare)),
        _ => false,
    }
}

// Whether no fault was told.
fn ends_clean(account: &Part) -> bool
    ensures { IsTrue result ↔ EndsClean account.now }
{
    tells_none(account.journal())
}

// Whether the device was prepared, and no fault was told.
fn ends_prepared(account: &Part) -> bool
    ensures { IsTrue result ↔ EndsPrepared account.now }
{
    ends_clean(account) && ends_with_prepare(account)
}

// The first device that was not prepared, or of which a fault was told.
fn first_unprepared(accounts: &[Part]) -> Option<u32>
    requires few { length accounts.now ≤ 8 }
    ensures none { result ≡ None → EachBelow EndsPrepared accounts.now (length accounts.now) }
    ensures some { IfSome result (IsFirstNot EndsPrepared accounts.now) }
{
    for device in 0..accounts.len() {
        if !ends_prepared(&accounts[device]) {
            return Some(device as u32);
        }
    }
    None
}

// The first device of which a fault was told.
fn first_faulty(accounts: &[Part]) -> Option<u32>
    requires few { length accounts.now ≤ 8 }
    ensures none { result ≡ None → EachBelow EndsClean accounts.now (length accounts.now) }
    ensures some { IfSome result (IsFirstNot EndsClean accounts.now) }
{
    for device in 0..accounts.len() {
        if !ends_clean(&accounts[device]) {
            return Some(device as u32);
        }
    }
    None
}

// How the first sessions ended.
pub(crate) fn how_prepared(accounts: &[Part]) -> Prepared
    requires few { length accounts.now ≤ 8 }
    ensures { HowPrepared (length accounts.now) accounts.now result }
{
    match first_unprepared(accounts) {
        None => Prepared::All,
        Some(device) => Prepared::NotAll { device },
    }
}

// How the second sessions ended.
pub(crate) fn how_ran(accounts: &[Part]) -> Ran
    requires few { length accounts.now ≤ 8 }
    ensures { HowRan (length accounts.now) accounts.now result }
{
    match first_faulty(accounts) {
        None => Ran::Clean,
        Some(device) => Ran::Faulty { device },
    }
}
