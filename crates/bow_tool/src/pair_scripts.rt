// A script for several devices.
ghost use Rattle.std.specs.Prelude.{◌≡◌, ◌↔◌, ◌+◌, ◌<◌, ◌≤◌, IsTrue, IfErr, IfOk, length};
ghost use Rattle.bow_script.specs.Scripts.{IsWithinLimits, concat, requests_of};
ghost use Rattle.bow_pair.specs.Pairs.{IsPlayed, MayBeDealt};
ghost use Rattle.bow_play.specs.Reading.{GaveScript, taken_from};
ghost use Rattle.bow_tool.specs.PairPlays.{PairScriptCause};
ghost use Rattle.bow_tool.specs.PairScripts.{CountsPlayed, IsDealable};

use crate::plays::refusal_of;
use crate::refusals::Refusal;
use bow_play::take_script;
use bow_script::{Lane, Line, Script, Section};
use bow_units::Source;
use std::alloc::Global;

// The script that the source gives, where it may be dealt out.
pub(crate) fn pair_script<S: Source>(alloc: Global, source: &mut S) -> Result<Script, Refusal>
    ensures given { IfOk result (λ script. GaveScript (taken_from S.left S.gave S.ended source.old source.new)
        script) }
    ensures dealt { IfOk result (λ script. MayBeDealt script) }
    ensures cause { IfErr result (PairScriptCause (taken_from S.left S.gave S.ended source.old source.new)
        (S.faults source.old) (S.faults source.new)) }
{
    let script = match take_script(alloc, source) {
        Ok(script) => script,
        Err(fault) => return Err(refusal_of(fault)),
    };
    if !is_dealable(&script) {
        return Err(Refusal::BadScript(0));
    }
    Ok(script)
}

// Whether a script neither prepares nor commits, and has room for one request more.
fn is_dealable(script: &Script) -> bool
    requires { IsWithinLimits script.now }
    ensures { IsTrue result ↔ IsDealable (requests_of script.now) }
{
    match count_in_script(script) {
        Some(requests) => requests < 65536,
        None => false,
    }
}

// How many requests a script has; `None` where one of them prepares or commits.
fn count_in_script(script: &Script) -> Option<usize>
    requires { length (requests_of script.now) ≤ 65536 }
    ensures { CountsPlayed (requests_of script.now) result }
{
    let mut count = 0;
    for section in &script.sections {
        let requests = count_in_section(section)?;
        count += requests;
    }
    Some(count)
}

// The same of a section.
fn count_in_section(section: &Section) -> Option<usize>
    requires { length (concat section.now) ≤ 65536 }
    ensures { CountsPlayed (concat section.now) result }
{
    let mut count = 0;
    for lane in &section.lanes {
        let requests = count_in_lane(lane)?;
        count += requests;
    }
    Some(count)
}

// The same of a lane.
fn count_in_lane(lane: &Lane) -> Option<usize>
    ensures { CountsPlayed lane.now result }
{
    for line in &lane.lines {
        if !is_played(line) {
            return None;
        }
    }
    Some(lane.lines.len())
}

// Whether a request neither prepares nor commits.
fn is_played(line: &Line) -> bool
    ensures { IsTrue result ↔ IsPlayed line.now }
{
    !matches!(line, Line::Prepare | Line::Commit)
}
