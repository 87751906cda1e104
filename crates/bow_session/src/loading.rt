// Takes the memory of a whole run.
ghost use Rattle.std.specs.Prelude.{◌≡◌, ◌+◌, ◌<◌, ◌≤◌, ◌^◌, ℕ, List, length, IfOk, All};
ghost use Rattle.std.specs.List.{sum_by};
ghost use Rattle.bow_units.specs.Sizes.{IsValid};
ghost use Rattle.bow_script.specs.Grammar.{IsFitting};
ghost use Rattle.bow_script.specs.Scripts.{IsWithinLimits, IsWellFormed};
ghost use Rattle.bow_script.specs.declared.scripts.Line.{Line};
ghost use Rattle.bow_history.specs.Ends.{over_lanes};
ghost use Rattle.bow_session.specs.Loading.{line_items, lane_items, AreFirst, AreThere, IsNewSeat, AreNewSeats, AreNewRecords};
ghost use Rattle.bow_session.specs.Requests.{lanes_of, plan_of, requests_in};

use crate::lines::lines_of;
use crate::payloads::{read_buffer, take_buffers};
use crate::records::Records;
use crate::reserved::Reserved;
use crate::seats::{Asked, Seat};
use bow_script::{Line, Script};
use bow_units::{Geometry, NoMemory};
use std::alloc::Global;
use std::collections::VecDeque;

// The lanes of a script with their requests, and room for all that comes of them.
pub(crate) fn take(alloc: Global, script: &Script, geometry: Geometry) -> Result<Records, NoMemory>
    requires limits { IsWithinLimits script.now }
    requires numbers { IsWellFormed script.now }
    requires valid { IsValid geometry }
    ensures { IfOk result (λ r. AreNewRecords (plan_of geometry script.now) script.now r) }
{
    let lanes = lanes_of(script);
    let seats = take_seats(alloc, script, lanes, geometry)?;
    let items = most_items(script, lanes);
    Ok(Records {
        seats,
        journal: Reserved::with_room(alloc, items)?,
        moments: Reserved::with_room(alloc, items)?,
    })
}

// The lanes of a script before their first step.
fn take_seats(
    alloc: Global,
    script: &Script,
    lanes: usize,
    geometry: Geometry,
) -> Result<Vec<Seat>, NoMemory>
    requires limits { IsWithinLimits script.now }
    requires numbers { IsWellFormed script.now }
    requires valid { IsValid geometry }
    ensures new { IfOk result (λ v. AreNewSeats (plan_of geometry script.now) (requests_in script.now) v.items) }
    ensures count { IfOk result (λ v. length v.items ≡ lanes) }
{
    let mut seats = Vec::new(alloc);
    for lane in 0..lanes {
        seats.push(seat_of(alloc, script, lane, geometry)?)?;
    }
    Ok(seats)
}

// The largest number of lanes in a section.
fn lanes_of(script: &Script) -> usize
    ensures { result ≡ lanes_of script.now }
{
    let mut lanes = 0;
    for section in &script.sections {
        lanes = lanes.max(section.lanes.len());
    }
    lanes
}

// A lane before its first step.
fn seat_of(
    alloc: Global,
    script: &Script,
    lane: usize,
    geometry: Geometry,
) -> Result<Seat, NoMemory>
    requires limits { IsWithinLimits script.now }
    requires numbers { IsWellFormed script.now }
    requires valid { IsValid geometry }
    ensures { IfOk result (λ seat. IsNewSeat (plan_of geometry script.now) (requests_in script.now lane) lane seat) }
{
    let mut pending = VecDeque::new(alloc);
    let mut number = 0u32;
    for section in &script.sections {
        add_requests(
            alloc,
            &mut pending,
            lines_of(section, lane),
            number,
            geometry,
        )?;
        number += 1;
    }
    let answered = Reserved::with_room(alloc, pending.len())?;
    let buffers = take_buffers(alloc, geometry.block_size)?;
    Ok(Seat {
        pending,
        hand: None,
        answered,
        buffers,
    })
}

// The requests of these lines, which stand in the section of this number.
fn add_requests(
    alloc: Global,
    pending: &mut VecDeque<Asked>,
    lines: &[Line],
    section: u32,
    geometry: Geometry,
) -> Result<(), NoMemory>
    requires numbers { All IsFitting lines.now }
    requires valid { IsValid geometry }
    ensures count { IfOk result (λ u. length pending.new.items ≡ length pending.old.items + length lines.now) }
    ensures next { IfOk result (λ u. (script : List (List (List Line))) (lane : ℕ)
        → AreThere script lane (length pending.old.items) section lines.now
        → AreFirst (plan_of geometry script) lane pending.old.items
        → AreFirst (plan_of geometry script) lane pending.new.items) }
{
    for line in lines {
        let buffer = read_buffer(alloc, line, geometry)?;
        pending.push_back(Asked { section, buffer })?;
    }
    Ok(())
}

// How many items a script gives at most: one a block, and the answer.
fn most_items(script: &Script, lanes: usize) -> usize
    requires limits { IsWithinLimits script.now }
    requires lanes { lanes ≤ 16 }
    ensures { result ≡ over_lanes (lane_items script.now) lanes }
{
    let mut items = 0;
    for lane in 0..lanes {
        items += items_in_lane(script, lane);
    }
    items
}

fn items_in_lane(script: &Script, lane: usize) -> usize
    requires limits { IsWithinLimits script.now }
    ensures is { result ≡ lane_items script.now lane }
    ensures few { result ≤ 131072 }
{
    let mut items = 0;
    for section in &script.sections {
        items += items_of(lines_of(section, lane));
    }
    items
}

fn items_of(lines: &[Line]) -> usize
    requires { sum_by line_items lines.now ≤ 131072 }
    ensures { result ≡ sum_by line_items lines.now }
{
    let mut items = 0;
    for line in lines {
        items += line.blocks() as usize + 1;
    }
    items
}
