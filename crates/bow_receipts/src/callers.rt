// A script is run by callers.
ghost use Rattle.std.specs.Prelude.{◌≡◌, ◌+◌, ◌<◌, All, length, slice_index_or, true, ℕ};
ghost use Rattle.bow_script.specs.Scripts.{IsWellFormed, IsWithinLimits};
ghost use Rattle.bow_session.specs.Requests.{section_of};
ghost use Rattle.bow_units.specs.Sizes.{IsValid};
ghost use Rattle.bow_receipts.specs.Called.{AreAllowed, GoesOn, HasMade, WentOn};
ghost use Rattle.bow_receipts.specs.Passes.{Caller};

use crate::desk::Desk;
use crate::naming::Naming;
use crate::ops::op_of;
use crate::passes::Pass;
use bow_disk::Disk;
use bow_ranges::Ranges;
use bow_script::Script;
use bow_session::{line_of, lines_of};
use bow_units::{Gate, Geometry};
use std::alloc::Global;
use std::sync::Wait;
use std::thread;
use std::thread::Threads;

// Asks the gate, each time with the status that the desk then shows, until it says true.
fn wait_for<J: Naming<D>, D: Disk, R: Ranges, H: Wait, G: Gate>(
    rt: &H,
    desk: &Desk<J, D, R>,
    lane: u32,
    number: u32,
    gate: &G,
) {
    for _ in rt.forever() {
        if gate.may_start(lane, number, desk.seen(rt)) {
            return;
        }
        thread::yield_now();
    }
    unreachable!()
}

// Makes the next call of the pass, for the next request of its lane. False where there was no memory.
fn call_next<J: Naming<D>, D: Disk, R: Ranges, H: Wait, G: Gate>(
    rt: &H,
    alloc: Global,
    desk: &Desk<J, D, R>,
    pass: &mut Pass<J, D>,
    script: &Script,
    geometry: Geometry,
    gate: &G,
) -> bool
    requires sizes { (geometry ≡ J.sizes) × IsValid geometry }
    requires numbers { IsWellFormed script.now }
    ensures { GoesOn J.sizes script.now pass.old pass.new }
{
    let (lane, number) = (pass.lane(), pass.made());
    let Some(line) = line_of(script, lane as usize, number as usize) else {
        return false;
    };
    let Ok(op) = op_of(alloc, line, geometry) else {
        return false;
    };
    wait_for(rt, desk, lane, number, gate);
    desk.call(rt, pass, op).is_ok()
}

// Makes the calls that the pass may still make.
#[tactic(auto, using(crate::proofs::Calling::goes_further))]
fn call_all<J: Naming<D>, D: Disk, R: Ranges, H: Wait, G: Gate>(
    rt: &H,
    alloc: Global,
    desk: &Desk<J, D, R>,
    pass: &mut Pass<J, D>,
    script: &Script,
    geometry: Geometry,
    gate: &G,
)
    requires sizes { (geometry ≡ J.sizes) × IsValid geometry }
    requires numbers { IsWellFormed script.now }
    ensures { GoesOn J.sizes script.now pass.old pass.new }
{
    let left = pass.left();
    for _i in 0..left {
        if !call_next(rt, alloc, desk, pass, script, geometry, gate) {
            return;
        }
    }
}

// The calls of the pass in one section.
fn call_section<J: Naming<D>, D: Disk, R: Ranges, H: Wait, G: Gate>(
    rt: &H,
    alloc: Global,
    desk: &Desk<J, D, R>,
    pass: &mut Pass<J, D>,
    script: &Script,
    section: usize,
    geometry: Geometry,
    gate: &G,
)
    requires sizes { (geometry ≡ J.sizes) × IsValid geometry }
    requires script { IsWellFormed script.now × IsWithinLimits script.now }
    requires there { section < length script.now }
    requires sections { J.section ≡ section_of script.now }
    requires allowed { AreAllowed script.now J.callers J.allowed }
    requires made { HasMade J.sizes script.now section pass.old }
    ensures { WentOn J.sizes script.now (section + 1) pass.old pass.new }
{
    let more = lines_of(&script.sections[section], pass.lane() as usize).len();
    pass.enter(section as u32, more as u32);
    call_all(rt, alloc, desk, pass, script, geometry, gate);
}

// One section: each lane of it in a thread of its own.
pub(crate) fn run_section<
    J: Naming<D> + Send + Sync,
    H: Threads + Wait + Sync,
    D: Disk + Send,
    R: Ranges + Send,
    G: Gate + Sync,
>(
    rt: &H,
    alloc: Global,
    desk: &Desk<J, D, R>,
    passes: &mut [Pass<J, D>],
    script: &Script,
    section: usize,
    geometry: Geometry,
    gate: &G,
)
    requires sizes { (geometry ≡ J.sizes) × IsValid geometry }
    requires script { IsWellFormed script.now × IsWithinLimits script.now }
    requires there { section < length script.now }
    requires sections { J.section ≡ section_of script.now }
    requires allowed { AreAllowed script.now J.callers J.allowed }
    requires made { All (HasMade J.sizes script.now section) passes.old }
    requires some { 0 < length passes.old }
    ensures many { length passes.new ≡ length passes.old }
    ensures each { (i : ℕ) (p : Caller) → i < length passes.old → WentOn J.sizes script.now (section + 1)
        (slice_index_or passes.old i p) (slice_index_or passes.new i p) }
{
    let threads = passes.len();
    thread::for_each_mut(
        rt,
        passes,
        threads,
        &|_, pass| { call_section(rt, alloc, desk, pass, script, section, geometry, gate) },
    );
}

// Whether each pass has made all the calls that it may.
pub(crate) fn have_made<J: Naming<D>, D>(passes: &[Pass<J, D>]) -> bool
    ensures all { result ≡ true → All (λ p. p.made ≡ p.may) passes.now }
    ensures many { All (λ p. length p.got ≡ p.made) passes.now }
{
    let mut all = true;
    for pass in passes {
        if pass.left() != 0 {
            all = false;
        }
    }
    all
}
