// Sessions over several devices: loaded in order, played in turns to their ends, and closed.
ghost use Rattle.std.specs.Prelude.{◌≡◌, ◌+◌, ◌<◌, ◌≤◌, ◌++◌, ◌∷◌, [], ℕ, map, length, slice_get, IfOk, IfSome, OnErr, OnOk, None, Some, vec_capacity};
ghost use Rattle.bow_script.specs.Scripts.{IsWellFormed, IsWithinLimits};
ghost use Rattle.bow_session.specs.Parts.{account_of};
ghost use Rattle.bow_session.specs.Sessions.{IsOver, Run};
ghost use Rattle.bow_pair.specs.Deciding.{EachPair};
ghost use Rattle.bow_pair.specs.Pairs.{AreReady, MayBeDealt};
ghost use Rattle.bow_pair.specs.Playing.{AreLoaded, EachRun, GoesOn, HasEnded, HavePlayed, LoadsNext, part_for};

use bow_core::Core;
use bow_deal::{later_part, opening_part};
use bow_disk::Disk;
use bow_ranges::Ranges;
use bow_script::Script;
use bow_session::{Part, Session};
use bow_units::{Draws, NoMemory};
use std::alloc::Global;

// Which part of a script the devices play.
#[derive(Clone, Copy, Debug)]
pub(crate) enum Round {
    // The first section, and a prepare.
    Opening,
    // The other sections.
    Later,
}

// A device's part of a script.
fn part_of(
    alloc: Global,
    script: &Script,
    round: Round,
    device: u32,
    count: u32,
) -> Result<Script, NoMemory>
    requires on { device < count }
    requires script { MayBeDealt script.now }
    ensures part { IfOk result (λ part. part ≡ part_for round device count script.now) }
    ensures limits { IfOk result IsWithinLimits }
    ensures numbers { IfOk result IsWellFormed }
{
    match round {
        Round::Opening => opening_part(alloc, script, device, count),
        Round::Later => later_part(alloc, script, device, count),
    }
}

// Puts one before the others.
fn put_first<T: Drop>(row: &mut Vec<T>, item: T)
    requires room { length row.old.items < vec_capacity row.old }
    ensures items { row.new.items ≡ item ∷ row.old.items }
    ensures room { vec_capacity row.old ≤ vec_capacity row.new }
{
    if let Err(_full) = row.insert(0, item) {}
}

// Loads a script over the next device. Where memory lacks, all is as it was.
fn load_next<D: Disk + Drop, R: Ranges + Drop>(
    alloc: Global,
    cores: &mut Vec<Core<D, R>>,
    script: Script,
    sessions: &mut Vec<Session<D, R>>,
) -> Result<(), NoMemory>
    requires limits { IsWithinLimits script }
    requires numbers { IsWellFormed script }
    requires some { 0 < length cores.old.items }
    requires ready { AreReady 1 cores.old.items }
    requires back { length cores.old.items ≤ vec_capacity cores.old }
    requires room { length sessions.old.items < vec_capacity sessions.old }
    ensures loaded { OnOk result (LoadsNext D.stated D.content D.moment D.left_since D.faults script cores.old.items
        cores.new.items sessions.old.items sessions.new.items) }
    ensures kept { OnErr result ((cores.new.items ≡ cores.old.items) × (sessions.new.items ≡ sessions.old.items)) }
    ensures back { vec_capacity cores.old ≤ vec_capacity cores.new }
    ensures room { vec_capacity sessions.new ≡ vec_capacity sessions.old }
{
    let core = cores.remove(0);
    match Session::load(alloc, core, script) {
        Ok(session) => {
            sessions.push_reserved(session);
            Ok(())
        }
        Err((core, NoMemory)) => {
            put_first(cores, core);
            Err(NoMemory)
        }
    }
}

// Loads each device's part of the script over it, in order, until memory lacks.
fn load_each<D: Disk + Drop, R: Ranges + Drop>(
    alloc: Global,
    cores: &mut Vec<Core<D, R>>,
    sessions: &mut Vec<Session<D, R>>,
    script: &Script,
    round: Round,
) -> Result<(), NoMemory>
    requires script { MayBeDealt script.now }
    requires devices { length cores.old.items ≤ 8 }
    requires ready { AreReady 1 cores.old.items }
    requires none { sessions.old.items ≡ [] }
    requires back { length cores.old.items ≤ vec_capacity cores.old }
    requires room { length cores.old.items ≤ vec_capacity sessions.old }
    ensures loaded { AreLoaded D.stated D.content D.moment D.left_since D.faults (λ device. part_for round device
        (length cores.old.items) script.now) cores.old.items cores.new.items sessions.new.items }
    ensures all { OnOk result (cores.new.items ≡ []) }
    ensures back { vec_capacity cores.old ≤ vec_capacity cores.new }
{
    let count = cores.len() as u32;
    for device in 0..count {
        let part = part_of(alloc, script, round, device, count)?;
        load_next(alloc, cores, part, sessions)?;
    }
    Ok(())
}

// The first session of these that is not over.
fn first_unfinished<D: Disk + Drop, R: Ranges + Drop>(
    sessions: &[Session<D, R>],
    from: usize,
    to: usize,
) -> Option<usize>
    requires on { to ≤ length sessions.now }
    ensures none { result ≡ None → (k : ℕ) (s : Run D) → from ≤ k → k < to → slice_get sessions.now k ≡ Some s
        → IsOver s }
    ensures some { IfSome result (λ k. k < length sessions.now) }
    ensures unfinished { IfSome result (λ k. (s : Run D) → slice_get sessions.now k ≡ Some s → IsOver s → ⊥) }
{
    for device in from..to {
        if !sessions[device].over() {
            return Some(device);
        }
    }
    None
}

// The device that makes the next turn. A number below that of the devices is drawn: from there on, going round, it is
// the first whose session is not over. Where all are over, nothing is drawn.
fn next_device<D: Disk + Drop, R: Ranges + Drop>(
    sessions: &[Session<D, R>],
    draws: &mut Draws,
) -> Option<usize>
    requires some { 0 < length sessions.now }
    requires few { length sessions.now ≤ 8 }
    ensures none { result ≡ None → EachRun IsOver sessions.now }
    ensures some { IfSome result (λ k. k < length sessions.now) }
    ensures unfinished { IfSome result (λ k. (s : Run D) → slice_get sessions.now k ≡ Some s → IsOver s → ⊥) }
{
    let count = sessions.len();
    first_unfinished(sessions, 0, count)?;
    let first = draws.draw(count as u32) as usize;
    match first_unfinished(sessions, first, count) {
        Some(device) => Some(device),
        None => first_unfinished(sessions, 0, first),
    }
}

// Makes turns until all sessions are over.
fn finish_each<D: Disk + Drop, R: Ranges + Drop>(sessions: &mut [Session<D, R>], draws: &mut Draws)
    requires some { 0 < length sessions.old }
    requires few { length sessions.old ≤ 8 }
    ensures goes { EachPair (GoesOn D.stated D.content D.moment D.left_since D.faults) sessions.old sessions.new }
    ensures many { length sessions.new ≡ length sessions.old }
    ensures over { EachRun IsOver sessions.new }
{
    while let Some(device) = next_device(sessions, draws) {
        let session = &mut sessions[device];
        let _made = session.turn(draws);
    }
}

// Closes the sessions: each leaves its device, and an account of what was done.
fn close_each<D: Disk + Drop, R: Ranges + Drop>(
    mut sessions: Vec<Session<D, R>>,
    cores: &mut Vec<Core<D, R>>,
    accounts: &mut Vec<Part>,
)
    requires back { length sessions.items + length cores.old.items ≤ vec_capacity cores.old }
    requires room { length sessions.items + length accounts.old.items ≤ vec_capacity accounts.old }
    ensures cores { cores.new.items ≡ map (λ s. s.core) sessions.items ++ cores.old.items }
    ensures accounts { accounts.new.items ≡ map account_of sessions.items ++ accounts.old.items }
    ensures ended { EachRun (HasEnded D.stated D.content D.moment D.left_since D.faults) sessions.items }
    ensures back { vec_capacity cores.old ≤ vec_capacity cores.new }
{
    while let Some(session) = sessions.pop() {
        let (core, account) = session.close_with();
        put_first(cores, core);
        put_first(accounts, account);
    }
}

// Plays each device's part of the script over it, all to their ends. Its memory is taken first: where it lacks, no step
// is made, and all is as it was.
pub(crate) fn play<D: Disk + Drop, R: Ranges + Drop>(
    alloc: Global,
    cores: &mut Vec<Core<D, R>>,
    script: &Script,
    round: Round,
    draws: &mut Draws,
) -> Result<Vec<Part>, NoMemory>
    requires script { MayBeDealt script.now }
    requires some { 0 < length cores.old.items }
    requires devices { length cores.old.items ≤ 8 }
    requires ready { AreReady 1 cores.old.items }
    requires back { length cores.old.items ≤ vec_capacity cores.old }
    ensures played { IfOk result (λ accounts. HavePlayed D.stated D.content D.moment D.left_since D.faults (λ device.
        part_for round device (length cores.old.items) script.now) cores.old.items cores.new.items accounts.items) }
    ensures kept { OnErr result ((cores.new.items ≡ cores.old.items) × (draws.new ≡ draws.old)) }
    ensures back { length cores.new.items ≤ vec_capacity cores.new }
{
    let mut sessions = Vec::with_capacity(alloc, cores.len())?;
    let mut accounts = Vec::with_capacity(alloc, cores.len())?;
    if load_each(alloc, cores, &mut sessions, script, round).is_err() {
        close_each(sessions, cores, &mut accounts);
        return Err(NoMemory);
    }
    finish_each(&mut sessions, draws);
    close_each(sessions, cores, &mut accounts);
    Ok(accounts)
}
