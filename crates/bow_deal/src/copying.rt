// Copies of lanes and their lines.
ghost use Rattle.std.specs.Prelude.{◌≡◌, IfOk};

use bow_script::{Lane, Line};
use bow_units::{NoMemory, Payload};
use std::alloc::Global;

// A lane of the same lines.
pub(crate) fn copy_lane(alloc: Global, lane: &Lane) -> Result<Lane, NoMemory>
    ensures { IfOk result (λ copy. copy ≡ lane.now) }
{
    let mut lines = Vec::new(alloc);
    for line in &lane.lines {
        lines.push(copy_line(alloc, line)?)?;
    }
    Ok(Lane::new(lines))
}

fn copy_line(alloc: Global, line: &Line) -> Result<Line, NoMemory>
    ensures { IfOk result (λ copy. copy ≡ line.now) }
{
    match line {
        Line::Write { first, count, seed } => Ok(Line::Write {
            first: *first,
            count: *count,
            seed: *seed,
        }),
        Line::WriteHex { first, bytes } => {
            let bytes = Vec::from_slice(alloc, bytes.as_slice())?;
            Ok(Line::WriteHex {
                first: *first,
                bytes: Payload::new(bytes),
            })
        }
        Line::Read { first, count } => Ok(Line::Read {
            first: *first,
            count: *count,
        }),
        Line::Discard { first, count } => Ok(Line::Discard {
            first: *first,
            count: *count,
        }),
        Line::Flush => Ok(Line::Flush),
        Line::Prepare => Ok(Line::Prepare),
        Line::Commit => Ok(Line::Commit),
    }
}
