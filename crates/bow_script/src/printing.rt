// Writes the plain text of a script.
ghost use Rattle.std.specs.Prelude.{◌≡◌, ◌≤◌, ◌++◌, ◌∷◌, [], length, IfOk, OnOk, codes};
ghost use Rattle.std.specs.String.{string_bytes};
ghost use Rattle.bow_script.specs.Grammar.{line_text};
ghost use Rattle.bow_script.specs.Scripts.{IsScriptText, IsWellFormed, IsWithinLimits, lane_text, plain_text, section_text};

use crate::{Lane, Line, Script, Section};
use bow_units::{NoMemory, push_hex};
use std::alloc::Global;
use std::fmt::Write;

/// The plain text of a script: a line `section` for each section, a line `lane` for each of its lanes, and a
/// line for each request of the lane. The text of a script within the limits, with numbers in their ranges, reads
/// back as the same script, where it has at most 4,194,304 bytes.
pub fn print_script(alloc: Global, script: &Script) -> Result<Vec<u8>, NoMemory>
    ensures text { IfOk result (λ text. text.items ≡ plain_text script.now) }
    ensures back { IfOk result (λ text. IsWithinLimits script.now → IsWellFormed script.now
        → length text.items ≤ 4194304 → IsScriptText text.items script.now) }
{
    let mut out = String::new(alloc);
    for section in &script.sections {
        push_section(&mut out, section)?;
    }
    Ok(out.into_bytes())
}

fn push_section(out: &mut String, section: &Section) -> Result<(), NoMemory>
    ensures { OnOk result (string_bytes out.new ≡ string_bytes out.old ++ section_text section.now) }
{
    out.push_str("section\n")?;
    for lane in &section.lanes {
        push_lane(out, lane)?;
    }
    Ok(())
}

fn push_lane(out: &mut String, lane: &Lane) -> Result<(), NoMemory>
    ensures { OnOk result (string_bytes out.new ≡ string_bytes out.old ++ lane_text lane.now) }
{
    out.push_str("lane\n")?;
    for line in &lane.lines {
        push_line(out, line)?;
    }
    Ok(())
}

fn push_line(out: &mut String, line: &Line) -> Result<(), NoMemory>
    ensures { OnOk result (string_bytes out.new ≡ string_bytes out.old ++ (line_text line.now ++ 10 ∷ [])) }
{
    match line {
        Line::Write { first, count, seed } => writeln!(out, "write {first} {count} {seed}")?,
        Line::WriteHex { first, bytes } => {
            write!(out, "writehex {first} ")?;
            push_hex(out, bytes.as_slice())?;
            out.push('\n')?;
        }
        Line::Read { first, count } => writeln!(out, "read {first} {count}")?,
        Line::Discard { first, count } => writeln!(out, "discard {first} {count}")?,
        Line::Flush => out.push_str("flush\n")?,
        Line::Prepare => out.push_str("prepare\n")?,
        Line::Commit => out.push_str("commit\n")?,
    }
    Ok(())
}
