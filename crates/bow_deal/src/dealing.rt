// Dealing lanes out to devices.
ghost use Rattle.std.specs.Prelude.{◌≡◌, ℕ, suc, ◌+◌, ◌*◌, ◌<◌, length, IfOk};
ghost use Rattle.bow_script.specs.Scripts.{IsWellFormed, IsWithinLimits, requests_of};
ghost use Rattle.bow_deal.specs.Dealing.{dealt, every, lane_in, later_part, opening_part, preparing};

use crate::copying::copy_lane;
use bow_script::{Lane, Line, Script, Section};
use bow_units::NoMemory;
use std::alloc::Global;

/// What a device of so many plays first: its lanes of the first section, and then a section that prepares. Lane l of
/// the script goes to device `l % count` and is its lane `l / count`.
pub fn opening_part(
    alloc: Global,
    script: &Script,
    device: u32,
    count: u32,
) -> Result<Script, NoMemory>
    requires on { device < count }
    ensures script { IfOk result (λ part. part ≡ opening_part device count script.now) }
    ensures lanes { IfOk result (λ part. (lane : ℕ) → lane_in part 0 lane
        ≡ lane_in script.now 0 (lane * count + device)) }
    ensures limits { IfOk result (λ part. IsWithinLimits script.now → length (requests_of script.now) < 65536
        → IsWithinLimits part) }
    ensures numbers { IfOk result (λ part. IsWellFormed script.now → IsWellFormed part) }
{
    let opening = match script.sections.first() {
        Some(section) => deal_section(alloc, section, device, count)?,
        None => Section::new(Vec::new(alloc)),
    };
    let sections = vec![in alloc; opening, preparing(alloc)?]?;
    Ok(Script::new(sections))
}

/// What it plays then: its lanes of the other sections.
pub fn later_part(
    alloc: Global,
    script: &Script,
    device: u32,
    count: u32,
) -> Result<Script, NoMemory>
    requires on { device < count }
    ensures script { IfOk result (λ part. part ≡ later_part device count script.now) }
    ensures lanes { IfOk result (λ part. (section lane : ℕ) → lane_in part section lane
        ≡ lane_in script.now (suc section) (lane * count + device)) }
    ensures limits { IfOk result (λ part. IsWithinLimits script.now → IsWithinLimits part) }
    ensures numbers { IfOk result (λ part. IsWellFormed script.now → IsWellFormed part) }
{
    let opening = script.sections.len().min(1);
    let sections = deal_each(alloc, &script.sections[opening..], device, count)?;
    Ok(Script::new(sections))
}

// The section with one prepare.
fn preparing(alloc: Global) -> Result<Section, NoMemory>
    ensures { IfOk result (λ section. section ≡ preparing) }
{
    let lines = vec![in alloc; Line::Prepare]?;
    let lanes = vec![in alloc; Lane::new(lines)]?;
    Ok(Section::new(lanes))
}

// A device's lanes of each section.
fn deal_each(
    alloc: Global,
    sections: &[Section],
    device: u32,
    count: u32,
) -> Result<Vec<Section>, NoMemory>
    ensures { IfOk result (λ parts. parts.items ≡ dealt device count sections.now) }
{
    let mut parts = Vec::new(alloc);
    for section in sections {
        parts.push(deal_section(alloc, section, device, count)?)?;
    }
    Ok(parts)
}

// A device's lanes of a section.
fn deal_section(
    alloc: Global,
    section: &Section,
    device: u32,
    count: u32,
) -> Result<Section, NoMemory>
    ensures { IfOk result (λ part. part ≡ every count device section.now) }
{
    let mut lanes = Vec::new(alloc);
    let mut skip = device;
    for lane in &section.lanes {
        if skip > 0 {
            skip -= 1;
            continue;
        }
        lanes.push(copy_lane(alloc, lane)?)?;
        skip = count.saturating_sub(1);
    }
    Ok(Section::new(lanes))
}
