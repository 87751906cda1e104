// A script is run by callers, from its beginning to its end.
ghost use Rattle.std.specs.Prelude.{◌≡◌, ◌-◌, ◌^◌, ◌<◌, ◌≤◌, [], All, length, true, IfOk, IfErr};
ghost use Rattle.bow_history.specs.Complete.{IsComplete};
ghost use Rattle.bow_script.specs.Scripts.{IsWellFormed, IsWithinLimits};
ghost use Rattle.bow_session.specs.Requests.{lanes_of, lane_lines, plan_of, requests_in, section_of};
ghost use Rattle.bow_units.specs.Sizes.{IsValid};
ghost use Rattle.bow_receipts.specs.Called.{AreAllowed, AreCounts, HasCalled, HasMade, InOrder, IsCalled};
ghost use Rattle.bow_receipts.specs.Closing.{entries_of};
ghost use Rattle.bow_receipts.specs.Openings.{may_of};

use crate::callers::{have_made, run_section};
use crate::closing::Closed;
use crate::desk::Desk;
use crate::naming::Naming;
use crate::passes::Pass;
use crate::seating::Callers;
use bow_core::Core;
use bow_disk::Disk;
use bow_ranges::Ranges;
use bow_script::Script;
use bow_session::lines_of;
use bow_units::{Gate, Geometry, NoMemory};
use std::alloc::{AllocError, Global};
use std::marker::Brand;
use std::sync::Wait;
use std::thread::Threads;

/// What the callers of a script leave: what their desk leaves, and whether they made all calls of the script.
#[derive(Drop)]
pub struct Called<D: Disk, R: Ranges> {
    pub closed: Closed<D, R>,
    pub whole: bool,
}

// The largest number of lanes in a section.
fn lanes_of(script: &Script) -> usize
    ensures { result ≡ lanes_of script.now }
{
    let mut lanes = 0;
    for section in &script.sections {
        lanes = lanes.max(section.lanes.len());
    }
    lanes
}

// How many requests the lane has.
fn requests_in(script: &Script, lane: usize) -> usize
    requires { IsWithinLimits script.now }
    ensures is { result ≡ requests_in script.now lane }
    ensures few { result ≤ 65536 }
{
    let mut total = 0;
    for section in &script.sections {
        total += lines_of(section, lane).len();
    }
    total
}

// Of each lane how many requests it has.
fn counts(alloc: Global, script: &Script) -> Result<Vec<u32>, AllocError>
    requires { IsWithinLimits script.now }
    ensures { IfOk result (λ calls. AreCounts script.now calls.items) }
{
    let mut calls = Vec::new(alloc);
    for lane in 0..lanes_of(script) {
        calls.push(requests_in(script, lane) as u32)?;
    }
    Ok(calls)
}

// Section after section; false where a pass did not make all its calls, and then the later sections are left out.
fn run_sections<
    J: Naming<D> + Send + Sync,
    H: Threads + Wait + Sync,
    D: Disk + Send,
    R: Ranges + Send,
    G: Gate + Sync,
>(
    rt: &H,
    alloc: Global,
    desk: &Desk<J, D, R>,
    passes: &mut [Pass<J, D>],
    script: &Script,
    geometry: Geometry,
    gate: &G,
) -> bool
    requires sizes { (geometry ≡ J.sizes) × IsValid geometry }
    requires script { IsWellFormed script.now × IsWithinLimits script.now }
    requires sections { J.section ≡ section_of script.now }
    requires allowed { AreAllowed script.now J.callers J.allowed }
    requires made { All (HasMade J.sizes script.now 0) passes.old }
    requires order { InOrder passes.old }
    requires some { 0 < length passes.old }
    ensures many { length passes.new ≡ length passes.old }
    ensures order { InOrder passes.new }
    ensures called { All (HasCalled J.sizes script.now) passes.new }
    ensures whole { result ≡ true → All (λ p. p.made ≡ requests_in script.now p.lane) passes.new }
{
    for section in 0..script.sections.len() {
        run_section(rt, alloc, desk, passes, script, section, geometry, gate);
        if !have_made(passes) {
            return false;
        }
    }
    have_made(passes);
    true
}

// The callers of the desk that J names run the script.
fn run_named<
    J: Naming<D> + Send + Sync,
    H: Threads + Wait + Sync,
    D: Disk + Send,
    R: Ranges + Send,
    G: Gate + Sync,
>(
    rt: &H,
    alloc: Global,
    core: Core<D, R>,
    callers: Callers,
    script: &Script,
    gate: &G,
) -> Result<Called<D, R>, (Core<D, R>, NoMemory)>
    requires named { (J.table ≡ callers.table) × (J.sizes ≡ core.geometry) × (J.callers ≡ length callers.calls)
        × (J.allowed ≡ may_of callers.calls) }
    requires begins { J.begins core }
    requires sections { J.section ≡ section_of script.now }
    requires script { IsWellFormed script.now × IsWithinLimits script.now }
    requires counts { AreCounts script.now callers.calls }
    requires some { 0 < length callers.calls }
    requires size { callers.size ≡ core.geometry.block_size }
    requires idle { core.memory.requests ≡ [] }
    requires places { core.places ≡ 16 }
    requires serials { core.admitted < 2 ^ 63 }
    requires early { core.calls ≤ 2 ^ 64 - 1 }
    ensures called { IfOk result (λ r. IsCalled D.content D.moment D.left_since D.faults J.sizes J.callers J.begins
        script.now r.closed.core r.closed.journal.items (entries_of r.closed.calls.items)) }
    ensures complete { IfOk result (λ r. r.whole ≡ true
        → IsComplete (plan_of J.sizes script.now) r.closed.journal.items) }
    ensures kept { IfErr result (λ e. e.0 ≡ core) }
{
    let geometry = core.geometry();
    let (desk, mut passes) = Desk::<J, D, R>::begin(alloc, core, callers, false)?;
    let whole = run_sections(
        rt,
        alloc,
        &desk,
        passes.as_mut_slice(),
        script,
        geometry,
        gate,
    );
    Ok(Called {
        closed: desk.close(passes),
        whole,
    })
}

/// Runs a script by callers: each lane of a section is a thread with a pass of its own, which asks the gate before
/// each call, each time with the status that the desk then shows, until it says true. A section begins once the calls
/// of the one before are answered. A lane that finds no memory for a call makes no further one, and neither do the
/// later sections; the other lanes of its section finish. `whole` says whether all calls were made. Of the desk that
/// it leaves all holds that `Desk::close` says. `NoMemory` comes before any step, with the device as it was. It may
/// wait.
pub fn run_callers<H: Threads + Wait + Sync, D: Disk + Send, R: Ranges + Send, G: Gate + Sync>(
    rt: &H,
    alloc: Global,
    core: Core<D, R>,
    script: Script,
    gate: &G,
) -> Result<Called<D, R>, (Core<D, R>, NoMemory)>
    requires limits { IsWithinLimits script }
    requires numbers { IsWellFormed script }
    requires lanes { 1 ≤ lanes_of script }
    requires idle { core.memory.requests ≡ [] }
    requires places { core.places ≡ 16 }
    requires serials { core.admitted < 2 ^ 63 }
    requires early { core.calls ≤ 2 ^ 64 - 1 }
    ensures called { IfOk result (λ r. IsCalled D.content D.moment D.left_since D.faults core.geometry
        (lanes_of script) (λ first. first ≡ core) script r.closed.core r.closed.journal.items
        (entries_of r.closed.calls.items)) }
    ensures complete { IfOk result (λ r. r.whole ≡ true
        → IsComplete (plan_of core.geometry script) r.closed.journal.items) }
    ensures kept { IfErr result (λ e. e.0 ≡ core) }
{
    let Ok(calls) = counts(alloc, &script) else {
        return Err((core, NoMemory));
    };
    let Ok(callers) = Callers::new(alloc, &calls, core.geometry().block_size) else {
        return Err((core, NoMemory));
    };
    run_named::<Brand, H, D, R, G>(rt, alloc, core, callers, &script, gate)
}
