// The lines of a script by lane and number.
ghost use Rattle.std.specs.Prelude.{◌≡◌, option_copied, slice_get};
ghost use Rattle.bow_session.specs.Requests.{lane_lines, section_lines};

use bow_script::{Line, Script, Section};

/// The lines of a lane in a section: none where the section has no such lane.
pub fn lines_of(section: &Section, lane: usize) -> &[Line]
    ensures { result.now ≡ section_lines section.now lane }
{
    if lane < section.lanes.len() {
        let lane = &section.lanes[lane];
        &lane.lines
    } else {
        &[]
    }
}

/// The line of request `number` of a lane, counted from 0 over all sections; `None` where the lane has no such request.
pub fn line_of(script: &Script, lane: usize, number: usize) -> Option<&Line>
    ensures { option_copied result ≡ slice_get (lane_lines script.now lane) number }
{
    let mut left = number;
    for section in &script.sections {
        let lines = lines_of(section, lane);
        if left < lines.len() {
            return Some(&lines[left]);
        }
        left -= lines.len();
    }
    None
}
