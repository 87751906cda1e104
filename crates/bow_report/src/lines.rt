// The lines of a transcript, and of a status.
ghost use Rattle.std.specs.Prelude.{◌≡◌, ◌++◌, length, IfOk, IfSome, OnOk, option_copied};
ghost use Rattle.std.specs.String.{string_bytes};
ghost use Rattle.bow_units.specs.Contents.{content_text};
ghost use Rattle.bow_units.specs.Sizes.{IsBlockSize};
ghost use Rattle.bow_history.specs.declared.items.Item.TheVariants.{Got};
ghost use Rattle.bow_session.specs.Contents.{bytes_given};
ghost use Rattle.bow_report.specs.Texts.{item_line as line_of, status_text};

use bow_session::Item;
use bow_units::{NoMemory, Outcome, Phase, Status, push_content};
use std::alloc::Global;
use std::fmt::{self, Write};

/// A phase, as its line has it.
#[derive(Clone, Copy)]
pub(crate) struct PhaseText(Phase);

impl fmt::Display for PhaseText {
    ghost use Rattle.std.specs.Prelude.{Some};
    ghost use Rattle.bow_report.specs.Texts.{phase_text};

    ghost output = { λ x. Some (phase_text x.0) };

    fn fmt<W: fmt::Write>(&self, f: &mut fmt::Formatter<W>) -> fmt::Result {
        match self.0 {
            Phase::Trim => f.write_str("trim"),
            Phase::Arming => f.write_str("arming"),
            Phase::Checkpoint => f.write_str("checkpoint"),
            Phase::Deciding => f.write_str("deciding"),
            Phase::Committed => f.write_str("committed"),
        }
    }
}

/// An outcome, as its line has it.
#[derive(Clone, Copy)]
pub(crate) struct OutcomeText(Outcome);

impl fmt::Display for OutcomeText {
    ghost use Rattle.std.specs.Prelude.{Some};
    ghost use Rattle.bow_report.specs.Texts.{outcome_text};

    ghost output = { λ x. Some (outcome_text x.0) };

    fn fmt<W: fmt::Write>(&self, f: &mut fmt::Formatter<W>) -> fmt::Result {
        match self.0 {
            Outcome::Done => f.write_str("done"),
            Outcome::Data => f.write_str("data"),
            Outcome::NoSpace { done } => write!(f, "no space after {done}"),
            Outcome::DiskFault { done } => write!(f, "disk fault after {done}"),
            Outcome::OutOfRange => f.write_str("out of range"),
            Outcome::ReservedMagic => f.write_str("reserved magic"),
            Outcome::WrongPhase(phase) => write!(f, "wrong phase {}", PhaseText(phase)),
            Outcome::Unsettled(phase) => write!(f, "unsettled {}", PhaseText(phase)),
        }
    }
}

/// A status, as its line has it.
#[derive(Clone, Copy)]
struct StatusLine(Status);

impl fmt::Display for StatusLine {
    ghost use Rattle.std.specs.Prelude.{Some};
    ghost use Rattle.bow_report.specs.Texts.{status_text};

    ghost output = { λ x. Some (status_text x.0) };

    #[tactic(auto, unfolding(crate::specs::Texts::status_text))]
    fn fmt<W: fmt::Write>(&self, f: &mut fmt::Formatter<W>) -> fmt::Result {
        let phase = PhaseText(self.0.phase);
        let free = self.0.free;
        let sequence = self.0.sequence;
        let entries = self.0.entries;
        writeln!(
            f,
            "phase {phase} free {free} sequence {sequence} entries {entries}"
        )
    }
}

/// The line of a status: `phase P free F sequence Q entries C`, with its line feed.
///
/// `NoMemory` is answered where there is no memory for the text.
pub fn status_line(alloc: Global, status: Status) -> Result<Vec<u8>, NoMemory>
    ensures { IfOk result (λ text. text.items ≡ status_text status) }
{
    let line = StatusLine(status);
    let text = format!(in alloc; "{line}")?;
    Ok(text.into_bytes())
}

/// The line of an item, with its line feed: `L.N wrote B`, `L.N got B CONTENT` or `L.N` and the answer. The content is
/// that of the block that was read, one block long; where none is given, none is told but zeros.
///
/// `NoMemory` is answered where there is no memory for the text.
pub fn item_line(alloc: Global, item: Item, content: Option<&[u8]>) -> Result<Vec<u8>, NoMemory>
    requires { IfSome content (λ bytes. IsBlockSize (length bytes.now)) }
    ensures { IfOk result (λ text. text.items ≡ line_of item (bytes_given (option_copied content.entry))) }
{
    let mut text = String::new(alloc);
    push_item(&mut text, item, content)?;
    Ok(text.into_bytes())
}

/// Adds the line of an item.
pub(crate) fn push_item(
    out: &mut String,
    item: Item,
    content: Option<&[u8]>,
) -> Result<(), NoMemory>
    requires { IfSome content (λ bytes. IsBlockSize (length bytes.now)) }
    ensures { OnOk result (string_bytes out.new ≡ string_bytes out.old
        ++ line_of item (bytes_given (option_copied content.entry))) }
{
    match item {
        Item::Wrote {
            lane,
            number,
            block,
        } => writeln!(out, "{lane}.{number} wrote {block}")?,
        Item::Got {
            lane,
            number,
            block,
        } => return push_got(out, lane, number, block, content),
        Item::Answered {
            lane,
            number,
            outcome,
        } => writeln!(out, "{lane}.{number} {}", OutcomeText(outcome))?,
    }
    Ok(())
}

// Adds the line of a block that was read: `L.N got B CONTENT`.
fn push_got(
    out: &mut String,
    lane: u32,
    number: u32,
    block: u64,
    content: Option<&[u8]>,
) -> Result<(), NoMemory>
    requires { IfSome content (λ bytes. IsBlockSize (length bytes.now)) }
    ensures { OnOk result (string_bytes out.new ≡ string_bytes out.old
        ++ line_of (Got lane number block) (bytes_given (option_copied content.entry))) }
{
    write!(out, "{lane}.{number} got {block} ")?;
    push_given(out, content)?;
    out.push('\n')?;
    Ok(())
}

// Adds the text of a block's content, and that of no bytes where none is given.
#[tactic(auto, unfolding(bow_units::specs::Contents::content_text))]
fn push_given(out: &mut String, content: Option<&[u8]>) -> Result<(), NoMemory>
    requires { IfSome content (λ bytes. IsBlockSize (length bytes.now)) }
    ensures { OnOk result (string_bytes out.new ≡ string_bytes out.old
        ++ content_text (bytes_given (option_copied content.entry))) }
{
    match content {
        Some(bytes) => push_content(out, bytes),
        None => {
            out.push_str("zero")?;
            Ok(())
        }
    }
}
